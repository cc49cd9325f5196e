//! Who is notified of the end of a problem, where the end goes to those who were notified of the problem (profile).
//! Nothing is sent here; the only error is that memory ran out.
ghost use Rattle.std.specs.Prelude.{◌≡◌, ℕ, ◌<◌, ◌&&◌, ◌||◌, All, AllPairs, IfOk, length};
ghost use Rattle.mon_notify.specs.Places.{is_named};
ghost use Rattle.mon_notify.specs.Custom.{all_contacts};
ghost use Rattle.mon_notify.specs.Ends.{hears, is_within_reach, missed, one_hears, owed_with, reached, reaches_one, still_owed};
ghost use Rattle.mon_notify.specs.Escalations.{has_contact};

use crate::contacts::{ContactSwitch, is_on};
use crate::custom::all_contacts;
use crate::letter::{Letter, has_letter};
use crate::named::Named;
use cmd_types::Memory;
use mon_inventory::Inventory;
use std::alloc::Global;

/// Whether the contact is to hear of the end of a problem of the object: the object's options and the contact's options
/// for that kind of object have the letter r.
fn hears(inventory: &Inventory, object: u16, contact: u16) -> bool
    requires object { object < length inventory.now.objects }
    requires contact { contact < length inventory.now.contacts }
    ensures { result ≡ hears inventory.now object contact }
{
    let spec = inventory.object(object);
    let contact = inventory.contact(contact);
    let letters = if spec.service.is_some() {
        contact.service_letters
    } else {
        contact.host_letters
    };
    has_letter(spec.letters, Letter::R) && has_letter(letters, Letter::R)
}

/// Whether one of these contacts is to hear of the end of a problem of the object: the object's options and the
/// contact's options for that kind of object have the letter r (profile). Requires that `object` and the contacts are in
/// the inventory. Takes no memory.
///
/// See the example of [`owed_with`].
pub fn one_hears(inventory: &Inventory, object: u16, contacts: &[u16]) -> bool
    requires object { object < length inventory.now.objects }
    requires contacts { All (λ c. c < length inventory.now.contacts) contacts.now }
    ensures { result ≡ one_hears inventory.now object contacts.now }
{
    for contact in contacts {
        if hears(inventory, object, *contact) {
            return true;
        }
    }
    false
}

/// Whether the contact is owed the end of a problem of the object, or is to hear of it and was notified of the problem.
fn is_owed_with(
    inventory: &Inventory,
    object: u16,
    owed: &Named,
    notified: &Named,
    contact: u16,
) -> bool
    requires object { object < length inventory.now.objects }
    requires contact { contact < length inventory.now.contacts }
    ensures { result ≡ (is_named owed.now contact || (is_named notified.now contact && hears inventory.now object contact)) }
{
    owed.has(contact) || (notified.has(contact) && hears(inventory, object, contact))
}

/// The contacts that are owed the end of a problem of the object once those in `notified` were notified of it (profile):
/// those in `owed`, and those in `notified` whose options for that kind of object have the letter r, as the object's
/// have. Their indices are ascending and each is there once. Requires that `object` is in the inventory.
///
/// ```
/// // FIVE_LINES: two contacts, the host web, its service http and an escalation of http to bob
/// let inventory = Inventory::parse(alloc, FIVE_LINES)?;
/// assert!(rt; inventory.object_count() == 2 && inventory.contact_count() == 2);
/// assert!(rt; one_hears(&inventory, 1, &[0]));
/// let owed = owed_with(alloc, &inventory, 1, &[1], &[0])?;
/// assert_eq!(rt; owed.as_slice(), [0, 1].as_slice());
/// ```
#[tactic(auto, unfolding(crate::specs::Ends::owed_with))]
pub fn owed_with(
    alloc: Global,
    inventory: &Inventory,
    object: u16,
    owed: &[u16],
    notified: &[u16],
) -> Result<Vec<u16>, Memory>
    requires { object < length inventory.now.objects }
    ensures owed { IfOk result (λ v. v.items ≡ owed_with inventory.now object owed.now notified.now) }
    ensures ascending { IfOk result (λ v. AllPairs ◌<◌ v.items) }
    ensures within { IfOk result (λ v. All (λ c. c < length inventory.now.contacts) v.items) }
{
    let mut known = Named::none(alloc, inventory.contact_count())?;
    known.add(owed);
    let mut new = Named::none(alloc, inventory.contact_count())?;
    new.add(notified);
    let mut all = Vec::new(alloc);
    for contact in 0..inventory.contact_count() {
        if is_owed_with(inventory, object, &known, &new, contact) {
            all.push(contact)?;
        }
    }
    Ok(all)
}

/// Whether the contact's switch for that kind of object is on.
fn is_within_reach(
    inventory: &Inventory,
    switches: &[ContactSwitch],
    object: u16,
    contact: u16,
) -> bool
    requires object { object < length inventory.now.objects }
    requires contact { contact < length switches.now }
    ensures { result ≡ is_within_reach inventory.now switches.now object contact }
{
    let service = inventory.object(object).service.is_some();
    is_on(switches[contact as usize], service)
}

/// Whether one of the contacts in `owed` has its switch for that kind of object on (profile). Requires that `object` is in the inventory, and that `switches` has a switch for each contact.
///
/// Takes no memory.
///
/// See the example of [`by_switch`].
pub fn reaches_one(
    inventory: &Inventory,
    switches: &[ContactSwitch],
    object: u16,
    owed: &[u16],
) -> bool
    requires object { object < length inventory.now.objects }
    requires owed { All (λ c. c < length switches.now) owed.now }
    ensures { result ≡ reaches_one inventory.now switches.now object owed.now }
{
    for contact in owed {
        if is_within_reach(inventory, switches, object, *contact) {
            return true;
        }
    }
    false
}

/// Contacts, by their switch for a kind of object.
///
/// See the example of [`by_switch`].
#[derive(Drop)]
pub struct BySwitch {
    /// The indices of those whose switch is on.
    pub reached: Vec<u16>,
    /// The indices of those whose switch is off.
    pub missed: Vec<u16>,
}

/// Divides the contacts that are owed the end of a problem of the object, in order, by their switch for that kind of
/// object (profile). Requires that `object` is in the inventory, and that `switches` has a switch for each contact.
///
/// ```
/// // FIVE_LINES: two contacts, the host web, its service http and an escalation of http to bob
/// let inventory = Inventory::parse(alloc, FIVE_LINES)?;
/// let on = ContactSwitch {
///     host: true,
///     service: true,
/// };
/// let off = ContactSwitch {
///     host: true,
///     service: false,
/// };
/// assert!(rt; inventory.object_count() == 2 && inventory.contact_count() == 2);
/// let owed = by_switch(alloc, &inventory, &[on, off], 1, &[0, 1])?;
/// assert_eq!(rt; owed.reached.as_slice(), [0].as_slice());
/// assert_eq!(rt; owed.missed.as_slice(), [1].as_slice());
/// ```
pub fn by_switch(
    alloc: Global,
    inventory: &Inventory,
    switches: &[ContactSwitch],
    object: u16,
    owed: &[u16],
) -> Result<BySwitch, Memory>
    requires object { object < length inventory.now.objects }
    requires owed { All (λ c. c < length switches.now) owed.now }
    ensures reached { IfOk result (λ b. b.reached.items ≡ reached inventory.now switches.now object owed.now) }
    ensures missed { IfOk result (λ b. b.missed.items ≡ missed inventory.now switches.now object owed.now) }
{
    let mut reached = Vec::new(alloc);
    let mut missed = Vec::new(alloc);
    for contact in owed {
        if is_within_reach(inventory, switches, object, *contact) {
            reached.push(*contact)?;
        } else {
            missed.push(*contact)?;
        }
    }
    Ok(BySwitch { reached, missed })
}

/// Whether the contact was owed the end of a problem of the object, is to hear of it, and is among all contacts of the
/// object.
fn is_still_owed(
    inventory: &Inventory,
    object: u16,
    owed: &Named,
    all: &Named,
    contact: u16,
) -> bool
    requires object { object < length inventory.now.objects }
    requires contact { contact < length inventory.now.contacts }
    ensures { result ≡ (is_named owed.now contact && (hears inventory.now object contact && is_named all.now contact)) }
{
    owed.has(contact) && hears(inventory, object, contact) && all.has(contact)
}

/// Who is still owed the end of a problem of the object under this inventory, of those who were owed it under another one
/// (profile). `owed` has their indices in this inventory. They are owed it if their options for that kind of object have the
/// letter r, as the object's have, and they are contacts of the object or of one of its escalations. The result is
/// ascending, and has each once. Requires that `object` is in the inventory.
///
/// ```
/// // FIVE_LINES: two contacts, the host web, its service http and an escalation of http to bob
/// let inventory = Inventory::parse(alloc, FIVE_LINES)?;
/// assert!(rt; inventory.object_count() == 2 && inventory.contact_count() == 2);
/// let owed = still_owed(alloc, &inventory, 1, &[1, 0])?;
/// assert_eq!(rt; owed.as_slice(), [0, 1].as_slice());
/// ```
#[tactic(auto, unfolding(crate::specs::Ends::still_owed))]
pub fn still_owed(
    alloc: Global,
    inventory: &Inventory,
    object: u16,
    owed: &[u16],
) -> Result<Vec<u16>, Memory>
    requires { object < length inventory.now.objects }
    ensures owed { IfOk result (λ v. v.items ≡ still_owed inventory.now object owed.now) }
    ensures ascending { IfOk result (λ v. AllPairs ◌<◌ v.items) }
    ensures within { IfOk result (λ v. All (λ c. c < length inventory.now.contacts) v.items) }
{
    let mut was_owed = Named::none(alloc, inventory.contact_count())?;
    was_owed.add(owed);
    let all = all_contacts(alloc, inventory, object)?;
    let mut still = Vec::new(alloc);
    for contact in 0..inventory.contact_count() {
        if is_still_owed(inventory, object, &was_owed, &all, contact) {
            still.push(contact)?;
        }
    }
    Ok(still)
}

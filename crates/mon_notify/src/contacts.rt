//! The contacts that a notice reaches: the candidates that take it, in order of the inventory and each once. The
//! candidates are the contacts of the object or, where the notice escalates, of the escalations that match. No call
//! changes the inventory or a switch; the only error is that memory ran out.
ghost use Rattle.std.specs.Prelude.{◌≡◌, ℕ, ◌<◌, ◌&&◌, All, AllPairs, IfOk, length, slice_get};
ghost use Rattle.mon_notify.specs.Objects.{is_service};
ghost use Rattle.mon_notify.specs.Escalations.{has_contact};
ghost use Rattle.mon_notify.specs.Places.{is_named};
ghost use Rattle.mon_notify.specs.Recipients.{is_on, takes, takes_at, escalates, candidates_by, recipients};

use crate::escalations::{Selection, is_escalated, name_all};
use crate::letter::{Letter, has_letter};
use crate::named::Named;
use cmd_types::Memory;
use mon_inventory::{ContactSpec, Inventory};
use std::alloc::Global;

/// Whether a contact is notified of hosts, and whether it is notified of services, as commands have set it
/// (Notifications).
///
/// See the example of [`recipients`].
#[derive(Clone, Copy)]
pub struct ContactSwitch {
    pub host: bool,
    pub service: bool,
}

/// Whether the contact's switch is on: that for services where `service` is true, else that for hosts.
pub fn is_on(switch: ContactSwitch, service: bool) -> bool
    ensures { result ≡ is_on service switch }
{
    if service { switch.service } else { switch.host }
}

/// Whether a contact takes notices with this letter, about services where `service` is true, else about hosts: its
/// switch for them is on, and its options for them have the letter.
fn takes(contact: &ContactSpec, switch: ContactSwitch, service: bool, letter: Letter) -> bool
    ensures { result ≡ takes service letter contact.now switch }
{
    let letters = if service {
        contact.service_letters
    } else {
        contact.host_letters
    };
    is_on(switch, service) && has_letter(letters, letter)
}

/// What the candidates of a notice depend on: its object, its notification number, and the letter of its state or
/// event.
#[derive(Clone, Copy)]
pub struct Topic {
    pub object: u16,
    pub number: u64,
    pub letter: Letter,
}

/// Whether the notice escalates: `escalate` is true, and an escalation of the object matches the number and the letter.
pub fn escalates(inventory: &Inventory, topic: Topic, escalate: bool) -> bool
    requires { topic.object < length inventory.now.objects }
    ensures { result ≡ escalates inventory.now topic.object topic.number topic.letter escalate }
{
    escalate && is_escalated(inventory, topic.object, topic.number, topic.letter)
}

/// Returns the candidates of a notice, as marks: the contacts of all escalations that match where `escalated` is true,
/// else the object's own contacts.
pub fn candidates(
    alloc: Global,
    inventory: &Inventory,
    topic: Topic,
    escalated: bool,
) -> Result<Named, Memory>
    requires { topic.object < length inventory.now.objects }
    ensures { IfOk result (λ n. (c : ℕ) → c < length inventory.now.contacts → is_named n c
        ≡ has_contact c (candidates_by inventory.now topic.object topic.number topic.letter escalated)) }
{
    let Topic {
        object,
        number,
        letter,
    } = topic;
    let mut named = Named::none(alloc, inventory.contact_count())?;
    if escalated {
        name_all(
            &mut named,
            inventory,
            object,
            &Selection::InForce { number, letter },
        );
    } else {
        named.add(inventory.object(object).contacts.as_slice());
    }
    Ok(named)
}

/// Whether the contact at this index is a candidate and takes the notice.
fn is_told(
    inventory: &Inventory,
    switches: &[ContactSwitch],
    topic: Topic,
    named: &Named,
    contact: u16,
) -> bool
    requires object { topic.object < length inventory.now.objects }
    requires contact { contact < length inventory.now.contacts }
    requires switch { contact < length switches.now }
    ensures { result ≡ (takes_at (is_service (slice_get inventory.now.objects topic.object)) topic.letter (slice_get inventory.now.contacts contact) (slice_get switches.now contact)
        && is_named named.now contact) }
{
    let service = inventory.object(topic.object).service.is_some();
    let switch = switches[contact as usize];
    takes(inventory.contact(contact), switch, service, topic.letter) && named.has(contact)
}

/// The contacts that a notice reaches (Notifications, Notification Escalations): their indices, ascending and each
/// once. Where `escalate` is true and an escalation of the object matches `number` and `letter`, the candidates are the
/// contacts of all escalations that match; else they are the object's own contacts. A candidate is reached if its
/// switch for that kind of object, host or service, is on and its options for that kind have the letter. If the
/// escalations that match have no contacts, nobody is reached.
///
/// `number` is the number of the notice itself, for a PROBLEM one above the number of the last. Requires that `object`
/// is below `inventory.object_count()`, and that `switches` has a switch for each contact, in order of their indices.
/// The only error is that memory ran out.
///
/// ```
/// // FIVE_LINES: two contacts, the host web, its service http and an escalation of http to bob
/// let inventory = Inventory::parse(alloc, FIVE_LINES)?;
/// let on = ContactSwitch {
///     host: true,
///     service: true,
/// };
/// assert!(rt; inventory.object_count() == 2 && inventory.contact_count() == 2);
/// // the second notice of http, which is CRITICAL, escalates to bob
/// let told = recipients(alloc, &inventory, &[on, on], 1, 2, Letter::C, true)?;
/// assert_eq!(rt; told.as_slice(), [1].as_slice());
/// ```
#[tactic(auto, unfolding(crate::specs::Recipients::recipients))]
pub fn recipients(
    alloc: Global,
    inventory: &Inventory,
    switches: &[ContactSwitch],
    object: u16,
    number: u64,
    letter: Letter,
    escalate: bool,
) -> Result<Vec<u16>, Memory>
    requires object { object < length inventory.now.objects }
    requires switches { length switches.now ≡ length inventory.now.contacts }
    ensures told { IfOk result (λ v. v.items
        ≡ recipients inventory.now switches.now object number letter escalate) }
    ensures ascending { IfOk result (λ v. AllPairs ◌<◌ v.items) }
    ensures within { IfOk result (λ v. All (λ c. c < length inventory.now.contacts) v.items) }
{
    let topic = Topic {
        object,
        number,
        letter,
    };
    let escalated = escalates(inventory, topic, escalate);
    let named = candidates(alloc, inventory, topic, escalated)?;
    let mut told = Vec::new(alloc);
    for contact in 0..inventory.contact_count() {
        if is_told(inventory, switches, topic, &named, contact) {
            told.push(contact)?;
        }
    }
    Ok(told)
}

//! Custom notices, which a command sends: when they may go out, and which contacts they reach. The options of the
//! command are the sum of three bits: 1 broadcast, 2 forced, 4 increment; other bits are not read.
ghost use Rattle.std.specs.Prelude.{◌≡◌, ℕ, ◌<◌, ◌&&◌, ◌||◌, All, AllPairs, IfOk, length, slice_get};
ghost use Rattle.mon_notify.specs.Objects.{is_service};
ghost use Rattle.mon_notify.specs.Custom.{all_contacts, is_broadcast, is_forced, increments, custom_viable, custom_escalates, custom_candidates_by, is_on_at, custom_recipients};
ghost use Rattle.mon_notify.specs.Escalations.{has_contact};
ghost use Rattle.mon_notify.specs.Letters.{letter_of};
ghost use Rattle.mon_notify.specs.Places.{is_named};

use crate::contacts::{ContactSwitch, Topic, candidates, escalates, is_on};
use crate::escalations::{Selection, name_all};
use crate::facts::Facts;
use crate::letter::letter_of;
use crate::named::Named;
use crate::viable::is_open;
use cmd_types::Memory;
use mon_inventory::Inventory;
use std::alloc::Global;

/// The bit of a broadcast in the options of a custom notice (External Commands).
const BROADCAST: u64 = 1;

/// The bit of a forced notice in these options.
const FORCED: u64 = 2;

/// The bit of a notice that raises the notification number, in these options.
const INCREMENT: u64 = 4;

/// Whether the notice is a broadcast (the bit of value 1): its candidates are the contacts of the object and of all its
/// escalations. The switches of the candidates still count, unless the notice is forced.
fn is_broadcast(options: u64) -> bool
    ensures { result ≡ is_broadcast options }
{
    options & BROADCAST != 0
}

/// Whether the notice is forced (the bit of value 2): it goes out even where notifications are off or a downtime is
/// active, and also to contacts whose switch is off.
fn is_forced(options: u64) -> bool
    ensures { result ≡ is_forced options }
{
    options & FORCED != 0
}

/// Whether the bit of value 4 is set in the options of a custom notice: the notice goes out under the next notification
/// number, and the object has this number from then on (External Commands). Without this bit the number is unchanged.
/// Takes no memory.
///
/// ```
/// assert!(rt; increments(4));
/// assert!(rt; !increments(3));
/// ```
pub fn increments(options: u64) -> bool
    ensures { result ≡ increments options }
{
    options & INCREMENT != 0
}

/// Whether a custom notice may go out, whoever its recipients are (External Commands; the rule is profile). A forced
/// notice (the bit of value 2 of `options`) always may. Any other may where notifications are on in the program and for
/// the object and no downtime of the object or of its host is active. No other fact is read.
///
/// Takes no memory.
///
/// ```
/// // FACTS: nothing switched off; options 2 force the notice out
/// let in_downtime = Facts { depth: 1, ..FACTS };
/// assert!(rt; !custom_viable(&in_downtime, 0));
/// assert!(rt; custom_viable(&in_downtime, 2));
/// ```
pub fn custom_viable(facts: &Facts, options: u64) -> bool
    ensures { result ≡ custom_viable facts.now options }
{
    is_forced(options) || is_open(facts)
}

/// A custom notice: its object, its notification number, the code of the object's state, and the options of the
/// command.
#[derive(Clone, Copy)]
struct CustomNotice {
    object: u16,
    number: u64,
    code: u8,
    options: u64,
}

/// The topic of a custom notice: its object and its number, with the letter of the state's code.
fn topic_of(inventory: &Inventory, notice: CustomNotice) -> Topic
    requires { notice.object < length inventory.now.objects }
    ensures object { result.object ≡ notice.object }
    ensures number { result.number ≡ notice.number }
    ensures letter { result.letter ≡ letter_of (is_service (slice_get inventory.now.objects notice.object)) notice.code }
{
    Topic {
        object: notice.object,
        number: notice.number,
        letter: letter_of(
            inventory.object(notice.object).service.is_some(),
            notice.code,
        ),
    }
}

/// The contacts of the object and of all its escalations, as marks.
pub fn all_contacts(alloc: Global, inventory: &Inventory, object: u16) -> Result<Named, Memory>
    requires { object < length inventory.now.objects }
    ensures { IfOk result (λ n. (c : ℕ) → c < length inventory.now.contacts → is_named n c ≡ has_contact c (all_contacts inventory.now object)) }
{
    let mut named = Named::none(alloc, inventory.contact_count())?;
    named.add(inventory.object(object).contacts.as_slice());
    name_all(&mut named, inventory, object, &Selection::Any);
    Ok(named)
}

/// Returns the candidates of a custom notice, as marks. For a broadcast they are the contacts of the object and of all
/// its escalations; else the contacts of the escalations that match, or the object's own where none matches.
fn custom_candidates(
    alloc: Global,
    inventory: &Inventory,
    notice: CustomNotice,
) -> Result<Named, Memory>
    requires { notice.object < length inventory.now.objects }
    ensures { IfOk result (λ n. (c : ℕ) → c < length inventory.now.contacts → is_named n c
        ≡ has_contact c (custom_candidates_by inventory.now notice.object notice.number notice.code notice.options (custom_escalates inventory.now notice.object notice.number notice.code notice.options))) }
{
    if is_broadcast(notice.options) {
        return all_contacts(alloc, inventory, notice.object);
    }
    let topic = topic_of(inventory, notice);
    candidates(alloc, inventory, topic, escalates(inventory, topic, true))
}

/// Whether the contact at this index is a candidate, and its switch is on or the notice is forced.
fn is_told(
    inventory: &Inventory,
    switches: &[ContactSwitch],
    notice: CustomNotice,
    named: &Named,
    contact: u16,
) -> bool
    requires object { notice.object < length inventory.now.objects }
    requires switch { contact < length switches.now }
    ensures { result ≡ ((is_forced notice.options || is_on_at (is_service (slice_get inventory.now.objects notice.object)) (slice_get switches.now contact))
        && is_named named.now contact) }
{
    let service = inventory.object(notice.object).service.is_some();
    let switch = switches[contact as usize];
    (is_forced(notice.options) || is_on(switch, service)) && named.has(contact)
}

/// The contacts that a custom notice reaches (External Commands; the rule is profile): their indices, ascending and
/// each once. The candidates of a broadcast (the bit of value 1 of `options`) are the contacts of the object and of all
/// its escalations. Else they are the contacts of the escalations that match `number` and the letter of the state's
/// `code`, or the object's own where none matches. A candidate is reached if its switch for that kind of object, host
/// or service, is on; if the notice is forced (the bit of value 2), every candidate is reached. The letters of the
/// object and of the contacts do not count.
///
/// `number` is the notification number of the notice itself. Requires that `object` is below
/// `inventory.object_count()`, and that `switches` has a switch for each contact, in order of their indices. The only
/// error is that memory ran out.
///
/// ```
/// // FIVE_LINES: two contacts, the host web, its service http and an escalation of http to bob
/// let inventory = Inventory::parse(alloc, FIVE_LINES)?;
/// let on = ContactSwitch {
///     host: true,
///     service: true,
/// };
/// assert!(rt; inventory.object_count() == 2 && inventory.contact_count() == 2);
/// // a broadcast, options 1, goes to the contacts of http and of its escalation
/// let told = custom_recipients(alloc, &inventory, &[on, on], 1, 1, 2, 1)?;
/// assert_eq!(rt; told.as_slice(), [0, 1].as_slice());
/// ```
#[tactic(auto, unfolding(crate::specs::Custom::custom_recipients))]
pub fn custom_recipients(
    alloc: Global,
    inventory: &Inventory,
    switches: &[ContactSwitch],
    object: u16,
    number: u64,
    code: u8,
    options: u64,
) -> Result<Vec<u16>, Memory>
    requires object { object < length inventory.now.objects }
    requires switches { length switches.now ≡ length inventory.now.contacts }
    ensures told { IfOk result (λ v. v.items
        ≡ custom_recipients inventory.now switches.now object number code options) }
    ensures ascending { IfOk result (λ v. AllPairs ◌<◌ v.items) }
    ensures within { IfOk result (λ v. All (λ c. c < length inventory.now.contacts) v.items) }
{
    let notice = CustomNotice {
        object,
        number,
        code,
        options,
    };
    let named = custom_candidates(alloc, inventory, notice)?;
    let mut told = Vec::new(alloc);
    for contact in 0..inventory.contact_count() {
        if is_told(inventory, switches, notice, &named, contact) {
            told.push(contact)?;
        }
    }
    Ok(told)
}

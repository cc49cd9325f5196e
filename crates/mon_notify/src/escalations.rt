//! The escalations of an object that match a notification number and a letter: their contacts and their least interval.
//! The inventory lists the indices (places) of an object's escalations, so that no other escalation is read. `name_at`
//! and `name_all` set marks; nothing else changes, and no call takes memory.
ghost use Rattle.std.specs.Prelude.{◌≡◌, ℕ, ◌<◌, ◌||◌, nat_lt, length, map, filter, slice_get};
ghost use Rattle.mon_notify.specs.Escalations.{is_in_force, matching, contacts_of, has_contact};
ghost use Rattle.mon_notify.specs.Custom.{all_escalations};
ghost use Rattle.mon_notify.specs.Interval.{lesser, least_of};
ghost use Rattle.mon_notify.specs.Places.{selects, is_named, names, passes, lesser_at};

use crate::letter::{Letter, has_letter};
use crate::named::Named;
use mon_inventory::{Escalation, Inventory};

/// Whether an escalation matches a notification number and a letter: the number is from `first` to `last`, where a
/// `last` of 0 is no bound, and its options have the letter.
fn is_in_force(escalation: &Escalation, number: u64, letter: Letter) -> bool
    ensures { result ≡ is_in_force number letter escalation.now }
{
    escalation.first <= number
        && (escalation.last == 0 || number <= escalation.last)
        && has_letter(escalation.letters, letter)
}

/// Which escalations of an object are selected.
#[derive(Clone, Copy)]
pub enum Selection {
    /// The escalations that match a notification number and a letter.
    InForce { number: u64, letter: Letter },
    /// All escalations.
    Any,
}

/// Whether `asked` selects this escalation.
fn selects(escalation: &Escalation, asked: &Selection) -> bool
    ensures { result ≡ selects asked.now escalation.now }
{
    match *asked {
        Selection::InForce { number, letter } => is_in_force(escalation, number, letter),
        Selection::Any => true,
    }
}

/// Whether there is an escalation at the index `place` and `asked` selects it.
fn is_asked_at(escalations: &[Escalation], place: u16, asked: &Selection) -> bool
    ensures { result ≡ passes (selects asked.now) (slice_get escalations.now place) }
{
    match escalations.get(place as usize) {
        None => false,
        Some(escalation) => selects(escalation, asked),
    }
}

/// Whether any escalation of the object matches the notification number and the letter.
pub fn is_escalated(inventory: &Inventory, object: u16, number: u64, letter: Letter) -> bool
    requires { object < length inventory.now.objects }
    ensures { result ≡ nat_lt 0 (length (matching inventory.now object number letter)) }
{
    let asked = Selection::InForce { number, letter };
    let escalations = inventory.escalations();
    inventory
        .escalations_of(object)
        .iter()
        .any(|place| { is_asked_at(escalations, *place, &asked) })
}

/// Marks the contacts of the escalation at the index `place`, if `asked` selects it; other marks are unchanged.
fn name_at(named: &mut Named, escalations: &[Escalation], place: u16, asked: &Selection)
    ensures count { length named.new.marks.items ≡ length named.old.marks.items }
    ensures named { (c : ℕ) → c < length named.old.marks.items → is_named named.new c
        ≡ (is_named named.old c || passes (names asked.now c) (slice_get escalations.now place)) }
{
    match escalations.get(place as usize) {
        None => {}
        Some(escalation) => {
            if selects(escalation, asked) {
                named.add(escalation.contacts.as_slice());
            }
        }
    }
}

/// Marks the contacts of all escalations of the object that `asked` selects; no mark is removed.
pub fn name_all(named: &mut Named, inventory: &Inventory, object: u16, asked: &Selection)
    requires { object < length inventory.now.objects }
    ensures count { length named.new.marks.items ≡ length named.old.marks.items }
    ensures named { (c : ℕ) → c < length named.old.marks.items → is_named named.new c
        ≡ (is_named named.old c || has_contact c (contacts_of (filter (selects asked.now) (all_escalations inventory.now object)))) }
{
    let escalations = inventory.escalations();
    let places = inventory.escalations_of(object);
    for place in places {
        name_at(named, escalations, *place, asked);
    }
}

/// The lesser of `interval` and `least`; `interval` where `least` is `None`.
fn lesser(least: Option<u64>, interval: u64) -> u64
    ensures { lesser least interval ≡ Some result }
{
    match least {
        None => interval,
        Some(least) => least.min(interval),
    }
}

/// The lesser of `least` and the interval of the escalation at the index `place`, if that escalation matches `number`
/// and `letter`; else `least`.
fn lesser_at(
    least: Option<u64>,
    escalations: &[Escalation],
    place: u16,
    number: u64,
    letter: Letter,
) -> Option<u64>
    ensures { result ≡ lesser_at number letter least (slice_get escalations.now place) }
{
    match escalations.get(place as usize) {
        None => least,
        Some(escalation) => {
            if is_in_force(escalation, number, letter) {
                Some(lesser(least, escalation.interval))
            } else {
                least
            }
        }
    }
}

/// The least interval, in seconds, of the object's escalations that match; `None` where none matches.
pub fn least_interval(
    inventory: &Inventory,
    object: u16,
    number: u64,
    letter: Letter,
) -> Option<u64>
    requires { object < length inventory.now.objects }
    ensures { result ≡ least_of
        (map (λ e. e.interval) (matching inventory.now object number letter)) }
{
    let escalations = inventory.escalations();
    let places = inventory.escalations_of(object);
    let mut least = None;
    for place in places {
        least = lesser_at(least, escalations, *place, number, letter);
    }
    least
}

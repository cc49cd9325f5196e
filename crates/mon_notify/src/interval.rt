//! The interval between the notices of one problem. Nothing is changed and no memory is taken.
ghost use Rattle.std.specs.Prelude.{◌≡◌, ◌≢◌, ◌<◌, length};
ghost use Rattle.mon_notify.specs.Interval.{IsLeast, intervals, interval_in_force};

use crate::escalations::least_interval;
use crate::letter::letter_of;
use mon_inventory::Inventory;

/// The seconds between two notices of the same problem, 0 for no further notice (Notification Escalations). They are
/// the least interval of the object's escalations that match the notification number and the letter of the state's
/// code. Where none matches or the code is 0, they are the object's own interval.
///
/// `number` is that of the last notice, 0 where none went out. Requires that `object` is below
/// `inventory.object_count()`.
///
/// ```
/// // FIVE_LINES: two contacts, the host web, its service http and an escalation of http to bob
/// let inventory = Inventory::parse(alloc, FIVE_LINES)?;
/// assert!(rt; inventory.object_count() == 2);
/// assert_eq!(rt; interval_in_force(&inventory, 1, 1, 2), 600);
/// assert_eq!(rt; interval_in_force(&inventory, 1, 2, 2), 300);
/// ```
#[tactic(auto, unfolding(crate::specs::Interval::interval_in_force))]
pub fn interval_in_force(inventory: &Inventory, object: u16, number: u64, code: u8) -> u64
    requires { object < length inventory.now.objects }
    ensures value { result ≡ interval_in_force inventory.now object number code }
    ensures least { code ≢ 0 → 0 < length (intervals inventory.now object number code) →
        IsLeast (intervals inventory.now object number code) result }
{
    let spec = inventory.object(object);
    if code == 0 {
        return spec.interval;
    }
    let letter = letter_of(spec.service.is_some(), code);
    least_interval(inventory, object, number, letter).unwrap_or(spec.interval)
}

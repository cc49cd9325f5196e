//! The states of the objects under a new inventory: the state of each old object is moved to its new index. A new
//! object begins as before the first entry; the state of an object that is gone is dropped.
ghost use Rattle.std.specs.Prelude.{◌≡◌, ◌<◌, IfOk, IfSome, length, map};
ghost use Rattle.mon_inventory.specs.Facts.{IsInventory};
ghost use Rattle.mon_carry.specs.Carried.{status_within, object_within, object_carried};
ghost use Rattle.mon_carry.specs.Placing.{with_known};

use crate::places::place_in;
use cmd_types::Memory;
use mon_checks::Status;
use mon_engine::{Object, initial_objects};
use mon_inventory::Inventory;
use std::alloc::Global;

/// The status under a new greatest attempt `max`: unchanged where its attempt is below `max`, else hard at attempt
/// `max`.
fn status_within(max: u64, status: Status) -> Status
    ensures { result ≡ status_within max status }
{
    if status.attempt < max {
        return status;
    }
    Status {
        service: status.service,
        code: status.code,
        hard: true,
        attempt: max,
    }
}

/// Brings the state of an object within a new greatest attempt `max`. A problem that becomes hard in this way begins at
/// the second `clock`. Nothing else of the object changes.
fn bring_within(object: &mut Object, clock: u64, max: u64)
    ensures { object.new ≡ object_within clock max object.old }
{
    let status = object.status;
    if status.attempt < max {
        return;
    }
    object.status = status_within(max, status);
    let was_hard = status.hard && status.code != 0;
    if status.code == 0 {
        object.moments.since = None;
    } else if !was_hard {
        object.moments.since = Some(clock);
    }
}

/// Moves the state `known` of an object to its new index `place`, within the greatest attempt there at the second
/// `clock`. Where `place` is `None`, the object is gone: drops the state and changes nothing.
fn put(objects: &mut Vec<Object>, new: &Inventory, place: Option<u16>, known: Object, clock: u64)
    requires { IfSome place (λ k. (k < length new.now.objects) × (k < length objects.old.items)) }
    ensures { objects.new.items ≡ with_known clock new.now.objects known objects.old.items place }
{
    match place {
        None => {}
        Some(place) => {
            let mut object = known;
            bring_within(&mut object, clock, new.object(place).max);
            objects[place as usize] = object;
        }
    }
}

/// Makes the states of all objects of the new inventory at the second `clock`, each at its index: the old state where
/// the names are the same, else the state before the first entry. If memory runs out, the old states are dropped.
pub fn carry_objects(
    alloc: Global,
    old: &Inventory,
    objects: Vec<Object>,
    new: &Inventory,
    clock: u64,
) -> Result<Vec<Object>, Memory>
    requires sound { IsInventory new.now }
    requires many { length objects.items ≡ length old.now.objects }
    ensures sound { IfOk result (λ _. IsInventory old.now) }
    ensures carried { IfOk result (λ os. os.items ≡ map (object_carried clock old.now.objects objects.items) new.now.objects) }
{
    let mut carried = initial_objects(alloc, new)?;
    let specs = old.objects();
    let mut index = 0;
    for known in objects {
        let place = place_in(new, &specs[index]);
        put(&mut carried, new, place, known, clock);
        index += 1;
    }
    Ok(carried)
}

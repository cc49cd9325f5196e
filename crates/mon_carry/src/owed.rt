//! Who is owed the end of each object's problem under a new inventory: those who were owed it, where they are still
//! there and still to hear of it. Where the option `recover_the_told` is new, it is who is presumed to be owed it;
//! without the option it is nobody.
ghost use Rattle.std.specs.Prelude.{◌≡◌, ◌<◌, Some, IfOk, length};
ghost use Rattle.mon_carry.specs.Names.{contact_moved};
ghost use Rattle.mon_carry.specs.Carried.{contacts_moved, owed_or_nobody, owed_carried_at, owed_carried, owed_under};

use crate::places::place_in;
use cmd_types::{Memory, Numbers};
use mon_engine::{Object, Owed, presumed_owed};
use mon_inventory::Inventory;
use mon_notify::still_owed;
use std::alloc::Global;

/// The index in the new inventory of the contact with this index in the old one; `None` where the contact is gone.
#[tactic(auto, unfolding(crate::specs::Names::contact_moved))]
fn contact_moved(old: &Inventory, new: &Inventory, contact: u16) -> Option<u16>
    ensures { result ≡ contact_moved old.now.contacts new.now.contacts contact }
{
    match old.contacts().get(contact as usize) {
        None => None,
        Some(spec) => new.contact_of(spec.name.as_bytes()),
    }
}

/// Makes the list of the indices in the new inventory of those of these contacts that are in both, in order.
#[tactic(auto, unfolding(crate::specs::Carried::contacts_moved))]
fn contacts_moved(
    alloc: Global,
    old: &Inventory,
    new: &Inventory,
    contacts: &[u16],
) -> Result<Vec<u16>, Memory>
    ensures { IfOk result (λ v. v.items ≡ contacts_moved old.now.contacts new.now.contacts contacts.now) }
{
    let mut moved = Vec::new(alloc);
    for contact in contacts {
        if let Some(place) = contact_moved(old, new, *contact) {
            moved.push(place)?;
        }
    }
    Ok(moved)
}

/// Who is still owed the end of the problem of the object at the index `object` of the new inventory, of those who were
/// owed it under the old one. Where nobody was, no contact is looked up.
fn owed_still(
    alloc: Global,
    old: &Inventory,
    new: &Inventory,
    object: u16,
    known: &Owed,
) -> Result<Owed, Memory>
    requires { object < length new.now.objects }
    ensures { IfOk result (λ x. x ≡ owed_or_nobody old.now new.now object (Some known.now)) }
{
    let contacts = known.contacts.as_slice();
    let contacts = if contacts.is_empty() {
        Vec::new(alloc)
    } else {
        let moved = contacts_moved(alloc, old, new, contacts)?;
        still_owed(alloc, new, object, &moved)?
    };
    Ok(Owed {
        contacts: Numbers::new(contacts),
        number: known.number,
    })
}

/// Who is owed the end of the problem of the object at the index `object` of the new inventory; of a new object nobody
/// is.
fn owed_carried_at(
    alloc: Global,
    old: &Inventory,
    owed: &[Owed],
    new: &Inventory,
    object: u16,
) -> Result<Owed, Memory>
    requires many { length owed.now ≡ length old.now.objects }
    requires object { object < length new.now.objects }
    ensures { IfOk result (λ x. x ≡ owed_carried_at old.now new.now owed.now object) }
{
    match place_in(old, new.object(object)) {
        None => Ok(Owed {
            contacts: Numbers::new(Vec::new(alloc)),
            number: 0,
        }),
        Some(place) => owed_still(alloc, old, new, object, &owed[place as usize]),
    }
}

/// Makes the list of who is owed the end of each object's problem under the new inventory, whose objects are in these
/// states. The only error is that memory ran out.
#[tactic(auto, unfolding(crate::specs::Carried::owed_carried))]
pub fn carry_owed(
    alloc: Global,
    old: &Inventory,
    owed: &[Owed],
    new: &Inventory,
    objects: &[Object],
) -> Result<Vec<Owed>, Memory>
    requires many { length owed.now ≡ length old.now.objects }
    requires objects { length objects.now ≡ length new.now.objects }
    ensures { IfOk result (λ v. v.items ≡ owed_under old.now new.now objects.now owed.now) }
{
    if !old.recovers_the_told() || !new.recovers_the_told() {
        return presumed_owed(alloc, new, objects);
    }
    let mut carried = Vec::new(alloc);
    for object in 0..new.object_count() {
        carried.push(owed_carried_at(alloc, old, owed, new, object)?)?;
    }
    Ok(carried)
}

//! Makes the parts of a monitor under a new inventory from its parts under the old one, or returns a `CarryFault`. The
//! old parts are consumed; after a fault they are dropped.
ghost use Rattle.std.specs.Prelude.{◌≡◌, ◌≢◌, ◌↔◌, [], IsTrue, IfOk, IfErr};
ghost use Rattle.mon_inventory.specs.Facts.{IsInventory};
ghost use Rattle.mon_engine.specs.Saved.{IsSaved};
ghost use Rattle.mon_carry.specs.declared.carrying.CarryFault.TheVariants.{Memory, NoObject};
ghost use Rattle.mon_carry.specs.Carried.{carried, HasPlaces};

use crate::comments::carry_comments;
use crate::contacts::carry_contacts;
use crate::downtimes::carry_downtimes;
use crate::objects::carry_objects;
use crate::owed::carry_owed;
use cmd_types::Memory;
use mon_downtime::Downtime;
use mon_engine::Parts;
use mon_inventory::Inventory;
use std::alloc::Global;

/// Why parts are not carried to a new inventory: memory ran out, or the record of a downtime would have no object.
///
/// ```
/// // OLD: the text of an inventory with the host web
/// let old = Inventory::parse(alloc, OLD)?;
/// let new = Inventory::parse(alloc, b"")?;
/// // first_parts: the parts of a monitor of that inventory, to which nothing has happened
/// let parts = first_parts(alloc)?;
/// let None = parts.misfit(&old) else {
///     return Err(Fail::new("they are of this inventory"));
/// };
/// // no downtime was ever scheduled
/// assert!(rt; carry(alloc, &old, parts, &new).is_ok());
/// ```
#[derive(Clone, Copy, Debug, PartialEq, Eq)]
pub enum CarryFault {
    Memory,
    /// The new inventory has no object, but a downtime was once scheduled, and the record of a downtime has to name an
    /// object.
    NoObject,
}

impl From<Memory> for CarryFault {
    ghost from_gives = { λ _ f. f ≡ Memory };

    /// Returns `CarryFault::Memory`.
    fn from(_error: Memory) -> CarryFault {
        CarryFault::Memory
    }
}

/// Whether each downtime can name an object of the new inventory: there is an object, or no downtime was ever
/// scheduled.
fn has_places(downtimes: &[Downtime], new: &Inventory) -> bool
    ensures places { IsTrue result ↔ (downtimes.now ≢ [] → new.now.objects ≢ []) }
    ensures sound { IsInventory new.now }
{
    let none = new.objects().is_empty();
    downtimes.is_empty() || !none
}

/// Makes the parts from which a monitor of the new inventory resumes, from the parts of a monitor of the old one
/// (profile). Objects and contacts with the same names are the same. An object in both inventories keeps its state,
/// comments and downtimes, at its new index; where its attempt reaches the new greatest attempt, its state becomes
/// hard, at that attempt, and a problem that becomes hard in this way begins at the clock. A new object begins as
/// before the first entry. The comments of an object that is gone are removed, and its downtimes are over. A contact in
/// both inventories keeps its switches; those of a new contact are on. The clock, the program's switches, the ids and
/// the count of entries are unchanged.
///
/// Where both inventories have the option `recover_the_told`, a contact that is owed the end of an object's problem
/// stays owed it where it is still there, has the letter r, as the object has, and is a contact of the object or of one
/// of its escalations. Where only the new inventory has the option, those contacts are owed an end whom
/// [`presumed_owed`](mon_engine::presumed_owed) returns; where the new inventory has no such option, nobody is.
///
/// Requires that these parts fit the old inventory ([`misfit`](mon_engine::Parts::misfit)); the returned parts then fit
/// the new one. After an error the parts are dropped. The time is linear in the number of objects, contacts, comments
/// and downtimes. With the option `recover_the_told`, each object whose problem was notified adds time linear in the
/// number of contacts.
///
/// # Errors
/// [`CarryFault::NoObject`] where the new inventory has no object and a downtime was ever scheduled; this is tested
/// before memory is taken. [`CarryFault::Memory`] if memory runs out.
///
/// ```
/// // OLD: the text of an inventory with the host web
/// let old = Inventory::parse(alloc, OLD)?;
/// let new = Inventory::parse(alloc, b"host;db;3;0;;\nhost;web;3;0;;\n")?;
/// // first_parts: the parts of a monitor of that inventory, to which nothing has happened
/// let mut parts = first_parts(alloc)?;
/// let Some(web) = parts.objects.first_mut() else {
///     return Err(Fail::new("a host"));
/// };
/// web.acknowledgement = Acknowledgement::Sticky;
/// let None = parts.misfit(&old) else {
///     return Err(Fail::new("they are of this inventory"));
/// };
/// let Ok(parts) = carry(alloc, &old, parts, &new) else {
///     return Err(Fail::new("the new inventory has objects"));
/// };
/// let [db, web] = parts.objects.as_slice() else {
///     return Err(Fail::new("two objects"));
/// };
/// assert!(rt; matches!(db.acknowledgement, Acknowledgement::Unacknowledged));
/// assert!(rt; matches!(web.acknowledgement, Acknowledgement::Sticky));
/// ```
pub fn carry(
    alloc: Global,
    old: &Inventory,
    parts: Parts,
    new: &Inventory,
) -> Result<Parts, CarryFault>
    requires { IsSaved old.now parts }
    ensures carried { IfOk result (λ p. p ≡ carried old.now parts new.now) }
    ensures saved { IfOk result (λ p. IsSaved new.now p) }
    ensures places { IfOk result (λ _. HasPlaces parts new.now) }
    ensures no_object { IfErr result (λ f. f ≡ NoObject → HasPlaces parts new.now → ⊥) }
{
    if !has_places(&parts.downtimes, new) {
        return Err(CarryFault::NoObject);
    }
    let Parts {
        clock,
        before,
        program,
        objects,
        contacts,
        owed,
        last_comment,
        comments,
        mut downtimes,
    } = parts;
    let objects = carry_objects(alloc, old, objects, new, clock)?;
    let contacts = carry_contacts(alloc, old, &contacts, new)?;
    let owed = carry_owed(alloc, old, &owed, new, &objects)?;
    let comments = carry_comments(alloc, old, comments, new)?;
    carry_downtimes(old, &mut downtimes, new);
    Ok(Parts {
        clock,
        before,
        program,
        objects,
        contacts,
        owed,
        last_comment,
        comments,
        downtimes,
    })
}

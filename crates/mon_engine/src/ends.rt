//! Ends of problems: with the option `recover_the_told` a RECOVERY notice goes to those who were notified of the problem,
//! as soon as it may reach them. If memory runs out, a part of this may be done, and the monitor is then broken.
ghost use Rattle.std.specs.Prelude.{◌≡◌, ◌<◌, ◌≤◌, Some, slice_get, All, IfOk, OnOk, length, map};
ghost use Rattle.std.specs.List.{fold};
ghost use Rattle.mon_inventory.specs.Facts.{IsInventory};
ghost use Rattle.mon_engine.specs.Ends.{is_end_due_of, is_news, owes, owing, told_end, told_ends};
ghost use Rattle.mon_engine.specs.Owed.{initial_owed, presumed, presumed_of};
ghost use Rattle.mon_engine.specs.Sound.{IsNoticeOf, IsOwing, IsTellable};

use crate::notice::{Notice, Word};
use crate::notices::{subject_of, to_someone};
use crate::object::{Found, Object};
use crate::state::State;
use cmd_types::{Memory, Numbers};
use mon_inventory::Inventory;
use mon_notify::{Letter, by_switch, is_open, one_hears, owed_with, reaches_one};
use std::alloc::Global;

/// For how many seconds after the last change of its code the end of a problem is news: a week, a choice (profile).
pub const NEWS_SECONDS: u64 = 604_800;

/// Who is owed the end of a problem (profile): the contacts that a PROBLEM notice of the object reached, and no RECOVERY
/// notice since, if they are to hear of ends; nobody once the object has stood at code 0 for a week.
///
/// See the example of [`first_owed`].
#[derive(Drop)]
pub struct Owed {
    /// Their indices in the inventory.
    pub contacts: Numbers,
    /// The number of the last PROBLEM notice of the object that reached one who is to hear of ends; 0 before the first.
    pub number: u64,
}

/// Makes what is owed before the first entry: of each object, nobody is owed an end (profile).
///
/// ```
/// // INVENTORY: the text of an inventory with the host web
/// let inventory = Inventory::parse(alloc, INVENTORY)?;
/// let owed = first_owed(alloc, &inventory)?;
/// let [web] = owed.as_slice() else {
///     return Err(Fail::new("a host"));
/// };
/// assert!(rt; web.contacts.as_slice().is_empty());
/// assert_eq!(rt; web.number, 0);
/// ```
pub fn first_owed(alloc: Global, inventory: &Inventory) -> Result<Vec<Owed>, Memory>
    ensures { IfOk result (λ v. v.items ≡ map initial_owed inventory.now.objects) }
{
    let mut owed = Vec::new(alloc);
    for _ in inventory.objects() {
        owed.push(Owed {
            contacts: Numbers::new(Vec::new(alloc)),
            number: 0,
        })?;
    }
    Ok(owed)
}

/// Who is presumed to be owed the end of the problem of the object at this index in the inventory, which is in this state:
/// its own contacts that are to hear of ends, where a problem of it was notified and stands; else nobody.
fn presumed_of(
    alloc: Global,
    inventory: &Inventory,
    object: u16,
    state: &Object,
) -> Result<Owed, Memory>
    requires { object < length inventory.now.objects }
    ensures { IfOk result (λ x. x ≡ presumed_of inventory.now object (slice_get inventory.now.objects object) (Some state.now)) }
{
    if state.status.code == 0 || state.number == 0 {
        return Ok(Owed {
            contacts: Numbers::new(Vec::new(alloc)),
            number: 0,
        });
    }
    let own = inventory.object(object).contacts.as_slice();
    let contacts = owed_with(alloc, inventory, object, &[], own)?;
    Ok(Owed {
        contacts: Numbers::new(contacts),
        number: state.number,
    })
}

/// Who is presumed to be owed the end of each object's problem, where it is not known who was notified of it (profile). With
/// the option `recover_the_told` these are the object's own contacts that are to hear of ends, where a problem of it was
/// notified and stands. Else it is nobody. Requires that `objects` has the state of each object of the inventory.
///
/// See the example of [`first_owed`].
#[tactic(auto, unfolding(crate::specs::Owed::presumed))]
pub fn presumed_owed(
    alloc: Global,
    inventory: &Inventory,
    objects: &[Object],
) -> Result<Vec<Owed>, Memory>
    requires { length objects.now ≡ length inventory.now.objects }
    ensures { IfOk result (λ v. v.items ≡ presumed inventory.now objects.now) }
{
    if !inventory.recovers_the_told() {
        return first_owed(alloc, inventory);
    }
    let mut owed = Vec::new(alloc);
    for object in 0..inventory.object_count() {
        owed.push(presumed_of(alloc, inventory, object, &objects[object as usize])?)?;
    }
    Ok(owed)
}

/// Whether the object's last change of its code is less than a week before the second `clock`.
fn is_news(clock: u64, object: &Object) -> bool
    ensures { result ≡ is_news clock object.now }
{
    // Not `clock < changed + NEWS_SECONDS`: the sum could overflow.
    clock < object.moments.changed || clock - object.moments.changed < NEWS_SECONDS
}

/// Notes who is owed an end because of this notice: those of its contacts who are to hear of ends, where it is a PROBLEM. If
/// memory runs out, nothing changes.
fn note(
    alloc: Global,
    inventory: &Inventory,
    owed: &mut Vec<Owed>,
    notice: &Notice,
) -> Result<(), Memory>
    requires known { IsNoticeOf inventory.now notice.now }
    requires many { length owed.old.items ≡ length inventory.now.objects }
    ensures { OnOk result (owed.new.items ≡ owes inventory.now owed.old.items notice.now) }
{
    let object = notice.subject.object;
    let contacts = notice.contacts.as_slice();
    if !matches!(notice.subject.word, Word::Problem) || !one_hears(inventory, object, contacts) {
        return Ok(());
    }
    let owed = &mut owed[object as usize];
    let all = owed_with(alloc, inventory, object, owed.contacts.as_slice(), contacts)?;
    owed.contacts = Numbers::new(all);
    owed.number = notice.subject.number;
    Ok(())
}

/// Notes who is owed ends because of these notices, in order. If memory runs out, a part of them was noted.
fn note_all(
    alloc: Global,
    inventory: &Inventory,
    owed: &mut Vec<Owed>,
    notices: &[Notice],
) -> Result<(), Memory>
    requires known { All (IsNoticeOf inventory.now) notices.now }
    requires many { length owed.old.items ≡ length inventory.now.objects }
    ensures { OnOk result (owed.new.items ≡ fold (owes inventory.now) owed.old.items notices.now) }
{
    for notice in notices {
        note(alloc, inventory, owed, notice)?;
    }
    Ok(())
}

impl State {
    /// Whether there is something to do of the end of the object's problem: it is over, some are owed its end, and the
    /// end is no news, or may be told and reaches one of them.
    fn is_end_due(&self, inventory: &Inventory, found: Found<'_>) -> bool
        requires object { found.index < length inventory.now.objects }
        requires host { found.spec.now.host_object < length self.now.objects }
        requires owing { IsOwing inventory.now self.now.owed }
        requires tellable { IsTellable inventory.now self.now }
        ensures { result ≡ is_end_due_of inventory.now self.now found.entry.index found.entry.spec.now found.entry.state.now }
    {
        let owed = self.owed[found.index as usize].contacts.as_slice();
        if found.state.status.code != 0 || owed.is_empty() {
            return false;
        }
        if !is_news(self.clock, found.state) {
            return true;
        }
        is_open(&self.facts(inventory, found, Letter::R))
            && reaches_one(inventory, &self.contacts, found.index, owed)
    }

    /// Sends the RECOVERY notice of the object to those who are owed it and whose switch is on, where the problem is over
    /// and the notice may go out; the others stay owed it. Nobody is owed an end that is no news. If memory runs out,
    /// nothing changes.
    #[tactic(auto, unfolding(crate::specs::Ends::told_end))]
    pub fn tell_end(
        &mut self,
        alloc: Global,
        inventory: &Inventory,
        object: u16,
    ) -> Result<(), Memory>
        requires object { object < length inventory.now.objects }
        requires sound { IsInventory inventory.now }
        requires owing { IsOwing inventory.now self.old.owed }
        requires tellable { IsTellable inventory.now self.old }
        ensures { OnOk result (self.new ≡ told_end inventory.now self.old object) }
    {
        let found = self.found(inventory, object);
        if !self.is_end_due(inventory, found) {
            return Ok(());
        }
        if !is_news(self.clock, found.state) {
            self.owed[object as usize].contacts = Numbers::new(Vec::new(alloc));
            return Ok(());
        }
        let owed = &self.owed[object as usize];
        let divided = by_switch(
            alloc,
            inventory,
            &self.contacts,
            object,
            owed.contacts.as_slice(),
        )?;
        let subject = subject_of(self.clock, Word::Recovery, found, owed.number);
        self.tell(to_someone(subject, divided.reached))?;
        self.owed[object as usize].contacts = Numbers::new(divided.missed);
        Ok(())
    }

    /// With the option `recover_the_told`, sends the RECOVERY notice of each end that may be told, in order of the
    /// inventory. If memory runs out, a part of the notices was sent.
    #[tactic(auto, unfolding(crate::specs::Ends::told_ends))]
    pub fn tell_ends(&mut self, alloc: Global, inventory: &Inventory) -> Result<(), Memory>
        requires sound { IsInventory inventory.now }
        requires owing { IsOwing inventory.now self.old.owed }
        requires tellable { IsTellable inventory.now self.old }
        ensures { OnOk result (self.new ≡ told_ends inventory.now self.old) }
    {
        if !inventory.recovers_the_told() {
            return Ok(());
        }
        for object in 0..inventory.object_count() {
            self.tell_end(alloc, inventory, object)?;
        }
        Ok(())
    }

    /// Those who were notified of a problem by the notices from the index `from` on are owed its end, where the inventory
    /// has the option `recover_the_told`; else nothing changes. If memory runs out, a part of them is owed it.
    #[tactic(auto, unfolding(crate::specs::Ends::owing))]
    pub fn note_owed(
        &mut self,
        alloc: Global,
        inventory: &Inventory,
        from: usize,
    ) -> Result<(), Memory>
        requires from { from ≤ length self.old.notices }
        requires known { All (IsNoticeOf inventory.now) self.old.notices }
        requires owing { IsOwing inventory.now self.old.owed }
        ensures { OnOk result (self.new ≡ owing inventory.now from self.old) }
    {
        if !inventory.recovers_the_told() {
            return Ok(());
        }
        note_all(alloc, inventory, &mut self.owed, &self.notices[from..])
    }
}

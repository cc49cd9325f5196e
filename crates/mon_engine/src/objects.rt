//! The states of all objects, each at its index in the inventory, with two counts: objects in a problem (code not 0)
//! and objects acknowledged. Each change updates the counts. Comments, downtimes and notices are not changed here.
ghost use Rattle.std.specs.Prelude.{◌≡◌, ◌+◌, ◌<◌, ◌-◌, ◌^◌, All, IfOk, Some, length, map, slice_get, count_by};
ghost use Rattle.mon_engine.specs.declared.object.Object.{Object};
ghost use Rattle.mon_engine.specs.Objects.{initial_object, object_after, with_setting, with_acknowledgement, reset, after_told};
ghost use Rattle.mon_engine.specs.Places.{changed_at, changed_each};
ghost use Rattle.mon_engine.specs.Results.{checked_as, CanTake};
ghost use Rattle.mon_engine.specs.Sound.{AreObjectStates};
ghost use Rattle.mon_engine.specs.Figures.{is_problem, has_acknowledgement};

use crate::acknowledgements::is_acknowledged;
use crate::object::{Acknowledgement, Moments, Object};
use crate::results::{Check, Checked, take_result};
use cmd_types::{Membership, Memory, Text, recounted};
use mon_checks::Status;
use mon_inventory::{Inventory, ObjectSpec};
use std::alloc::Global;
use std::marker::Model;

/// One setting of an object, with the value that a command gives it.
#[derive(Clone, Copy)]
pub enum Setting {
    /// Whether passive check results of the object are accepted.
    Passive(bool),
    /// Whether notices of the object go out.
    Notify(bool),
    /// The second before which PROBLEM notices are held back.
    Delay(u64),
    /// The notification number.
    Number(u64),
}

/// The states of all objects, each at its index, with the two counts, so that no list is walked to read a count.
#[derive(Drop)]
pub struct Objects {
    list: Vec<Object>,
    problems: u64,
    acknowledged: u64,
}

impl Model for Objects {
    ghost use Rattle.std.specs.Prelude.{List};
    ghost use Rattle.mon_engine.specs.declared.object.Object.{Object};

    ghost Value = { List Object };

    ghost view = { λ a. a.list.items };

    ghost use Rattle.mon_engine.specs.Figures.{AreCounted};

    ghost invariant = { λ a. AreCounted a.list.items a.problems a.acknowledged };
}

impl Objects {
    /// Makes the states before the first entry: each has code 0, hard, and no acknowledgement; both counts are 0.
    pub fn initial(alloc: Global, inventory: &Inventory) -> Result<Objects, Memory>
        ensures objects { IfOk result (λ os. os ≡ map initial_object inventory.now.objects) }
        ensures states { IfOk result (λ os. AreObjectStates 0 inventory.now.objects os) }
    {
        let list = initial_objects(alloc, inventory)?;
        Ok(Objects {
            list,
            problems: 0,
            acknowledged: 0,
        })
    }

    /// Makes the objects from the list of their states, each at its index, and counts those in a problem and those
    /// acknowledged.
    pub fn of(list: Vec<Object>) -> Objects
        ensures { result ≡ list.items }
    {
        let problems = count_problems(&list);
        let acknowledged = count_acknowledged(&list);
        Objects {
            list,
            problems,
            acknowledged,
        }
    }

    /// Returns the list of all states, each at its index, and drops the counts.
    pub fn into_list(self) -> Vec<Object>
        ensures { result.items ≡ self }
    {
        self.list
    }

    /// The number of objects with a code other than 0, from the count that is kept.
    pub fn problems(&self) -> u64
        ensures { result ≡ count_by is_problem self.now }
    {
        self.problems
    }

    /// The number of acknowledged objects, from the count that is kept.
    pub fn acknowledged(&self) -> u64
        ensures { result ≡ count_by has_acknowledgement self.now }
    {
        self.acknowledged
    }

    /// The states of all objects, each at its index.
    pub fn as_slice(&self) -> &[Object]
        ensures { result.now ≡ self.now }
    {
        &self.list
    }

    /// The state of the object at this index. Requires that the index is below the number of objects.
    pub fn get(&self, object: u16) -> &Object
        requires { object < length self.now }
        ensures { slice_get self.now object ≡ Some result.now }
    {
        &self.list[object as usize]
    }

    /// Changes one setting of the object at this index. Nothing else of the object and no other object changes.
    pub fn set(&mut self, object: u16, setting: Setting)
        requires { object < length self.old }
        ensures { self.new ≡ changed_at self.old object (with_setting setting) }
    {
        put(&mut self.list[object as usize], setting);
    }

    /// Changes one setting of each object at these indices to the same value. Nothing else of these objects and no
    /// other object changes.
    pub fn set_each(&mut self, objects: &[u16], setting: Setting)
        requires { All (λ k. k < length self.old) objects.now }
        ensures { self.new ≡ changed_each self.old objects.now (with_setting setting) }
    {
        for object in objects {
            self.set(*object, setting);
        }
    }

    /// Sets the object's acknowledgement and updates the count of acknowledged objects. Nothing else of the object and
    /// no other object changes.
    pub fn set_acknowledgement(&mut self, object: u16, acknowledgement: Acknowledgement)
        requires { object < length self.old }
        ensures { self.new ≡ changed_at self.old object (with_acknowledgement acknowledgement) }
    {
        let known = &mut self.list[object as usize];
        let was = is_acknowledged(known.acknowledgement);
        known.acknowledgement = acknowledgement;
        let is = is_acknowledged(acknowledgement);
        self.acknowledged = recounted(self.acknowledged, Membership { was, is });
    }

    /// Sets the object's notification number to 0, and removes its last notice and any delay of its notices. Nothing
    /// else of the object and no other object changes.
    pub fn reset_notices(&mut self, object: u16)
        requires { object < length self.old }
        ensures { self.new ≡ changed_at self.old object reset }
    {
        let known = &mut self.list[object as usize];
        known.number = 0;
        known.last = None;
        known.notified = None;
        known.not_before = None;
    }

    /// Records on the object that a PROBLEM notice goes out at the second `clock`: raises the notification number by
    /// one, and sets the second and the code of the last notice. Makes no notice.
    pub fn count_notice(&mut self, object: u16, clock: u64)
        requires object { object < length self.old }
        requires next { (o : Object) → slice_get self.old object ≡ Some o → o.number < 2 ^ 64 - 1 }
        ensures { self.new ≡ changed_at self.old object (after_told clock) }
    {
        let known = &mut self.list[object as usize];
        known.number += 1;
        known.last = Some(clock);
        known.notified = Some(known.status.code);
    }

    /// Applies a check result to the object, updates both counts, and returns what the result changed. No other object
    /// changes.
    pub fn take(&mut self, object: u16, check: Check) -> Checked
        requires object { object < length self.old }
        requires can_take { (o : Object) → slice_get self.old object ≡ Some o → CanTake check.code check.max o }
        ensures taken { self.new ≡ changed_at self.old object (object_after check.clock check.code check.output check.host_up check.soft_hosts check.max) }
        ensures checked { (o : Object) → slice_get self.old object ≡ Some o → result ≡ checked_as o check.code }
    {
        let known = &mut self.list[object as usize];
        let was_problem = known.status.code != 0;
        let was_acknowledged = is_acknowledged(known.acknowledgement);
        let checked = take_result(known, check);
        let problem = Membership {
            was: was_problem,
            is: known.status.code != 0,
        };
        let acknowledged = Membership {
            was: was_acknowledged,
            is: is_acknowledged(known.acknowledgement),
        };
        self.problems = recounted(self.problems, problem);
        self.acknowledged = recounted(self.acknowledged, acknowledged);
        checked
    }
}

/// The number of objects in the list with a code other than 0, counted one by one.
fn count_problems(list: &[Object]) -> u64
    ensures { result ≡ count_by is_problem list.now }
{
    let mut count = 0;
    for object in list {
        if object.status.code != 0 {
            count += 1;
        }
    }
    count
}

/// The number of acknowledged objects in the list, counted one by one.
fn count_acknowledged(list: &[Object]) -> u64
    ensures { result ≡ count_by has_acknowledgement list.now }
{
    let mut count = 0;
    for object in list {
        if is_acknowledged(object.acknowledgement) {
            count += 1;
        }
    }
    count
}

/// Changes one setting of an object; nothing else of the object changes.
fn put(known: &mut Object, setting: Setting)
    ensures { known.new ≡ with_setting setting known.old }
{
    match setting {
        Setting::Passive(on) => known.passive = on,
        Setting::Notify(on) => known.notify = on,
        Setting::Delay(moment) => known.not_before = Some(moment),
        Setting::Number(notices) => known.number = notices,
    }
}

/// Makes the state of an object before the first entry. Takes no memory.
fn initial_object(alloc: Global, spec: &ObjectSpec) -> Object
    ensures { result ≡ initial_object spec.now }
{
    Object {
        status: Status::first(spec.service.is_some()),
        moments: Moments {
            checked: None,
            changed: 0,
            since: None,
        },
        output: Text::new(Vec::new(alloc)),
        acknowledgement: Acknowledgement::Unacknowledged,
        number: 0,
        last: None,
        notified: None,
        not_before: None,
        notify: true,
        passive: true,
    }
}

/// The states of all objects of the inventory before the first entry, each at its index (profile).
///
/// # Errors
/// Out of memory.
///
/// See the example of [`Monitor`].
pub fn initial_objects(alloc: Global, inventory: &Inventory) -> Result<Vec<Object>, Memory>
    ensures objects { IfOk result (λ os. os.items ≡ map initial_object inventory.now.objects) }
    ensures states { IfOk result (λ os. AreObjectStates 0 inventory.now.objects os.items) }
{
    let mut objects = Vec::new(alloc);
    for spec in inventory.objects() {
        objects.push(initial_object(alloc, spec))?;
    }
    Ok(objects)
}

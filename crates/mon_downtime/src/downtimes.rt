//! The list of all downtimes that were ever scheduled, and the calls on it. A call that returns an error leaves the
//! list unchanged.
ghost use Rattle.std.specs.Prelude.{◌≡◌, ◌≤◌, ◌<◌, ◌+◌, ◌^◌, List, [], ◌∷◌, ◌++◌, length, None, IfSome, IfNone, IfOk, OnOk, OnErr, IfErr, IsTrue};
ghost use Rattle.std.specs.Option.{option_copied, option_map};
ghost use Rattle.cmd_types.specs.declared.limits.TheConstants.{GREATEST_NUMBER};
ghost use Rattle.mon_downtime.specs.Records.{record_of, is_live, depth_of, AreRecords};
ghost use Rattle.mon_downtime.specs.Depths.{objects_in_downtime, every_object};
ghost use Rattle.mon_downtime.specs.Events.{events, due, after_event, work};
ghost use Rattle.mon_downtime.specs.Order.{AreInOrder};
ghost use Rattle.mon_downtime.specs.Schedule.{fault_of, fault_by, refusal_by, IsRefusedBy, new_record, new_records, IsSmallPlan};
ghost use Rattle.mon_downtime.specs.Problem.{waiting, after_problem};
ghost use Rattle.mon_downtime.specs.Cancel.{cancelled, active_dependants};

use crate::cancel::active_dependants;
use crate::downtime::{Downtime, Fate};
use crate::due::enter_new;
use crate::event::Event;
use crate::keeping::{add, apply, end_dependants, reserve, start_waiting};
use crate::kept::RecordIndex;
use crate::plan::{Plan, Refusal, Times, first_refusal, new_record};
use crate::records::find_record;
use crate::restoring::keep_all;
use cmd_types::Memory;
use std::alloc::Global;
use std::marker::Model;

/// All downtimes ever scheduled, in order of their ids 1, 2, .., each with its fate. No downtime is ever removed.
///
/// ```
/// // fixed: gives a fixed plan from second 100 to second 200
/// let mut downtimes = Downtimes::new(alloc);
/// let id = downtimes.schedule(alloc, 50, 0, fixed(alloc)?);
/// assert_eq!(rt; id, Ok(1));
/// assert_eq!(rt; downtimes.depth(0), 0);
/// assert!(rt; downtimes.take_event(150).is_some());
/// assert_eq!(rt; downtimes.depth(0), 1);
/// ```
#[derive(Drop)]
pub struct Downtimes {
    records: Vec<Downtime>,
    kept: RecordIndex,
}

impl Model for Downtimes {
    ghost use Rattle.std.specs.Prelude.{List};
    ghost use Rattle.mon_downtime.specs.declared.downtime.Downtime.{Downtime};

    ghost Value = { List Downtime };

    ghost view = { λ a. a.records.items };

    ghost use Rattle.mon_downtime.specs.Kept.{AreKept};

    ghost invariant = { λ a. AreKept a.records.items a.kept };
}

impl Downtimes {
    /// Makes an empty list. Takes no memory.
    pub fn new(alloc: Global) -> Downtimes
        ensures { result ≡ [] }
    {
        Downtimes {
            records: Vec::new(alloc),
            kept: RecordIndex::new(alloc),
        }
    }

    /// Makes the list of these downtimes: all that were ever scheduled, in order of their ids. Requires that
    /// [`unrecorded`](crate::unrecorded) returns `None` for them. If memory runs out, the records are dropped. Sorts
    /// the events of all records once: the time grows as n log n with the number of records.
    ///
    /// ```
    /// let downtimes = Downtimes::restore(alloc, Vec::new(alloc))?;
    /// assert_eq!(rt; downtimes.last_id(), 0);
    /// ```
    pub fn restore(alloc: Global, records: Vec<Downtime>) -> Result<Downtimes, Memory>
        requires { AreRecords 0 records.items }
        ensures { IfOk result (λ ds. ds ≡ records.items) }
    {
        let kept = keep_all(alloc, &records)?;
        Ok(Downtimes { records, kept })
    }

    /// Returns all downtimes ever scheduled, in order of their ids, and drops the index over them.
    /// [`restore`](Downtimes::restore) makes the same list from them. Takes no memory.
    ///
    /// ```
    /// let downtimes = Downtimes::restore(alloc, Vec::new(alloc))?;
    /// assert_eq!(rt; downtimes.into_list().len(), 0);
    /// ```
    pub fn into_list(self) -> Vec<Downtime>
        ensures { result.items ≡ self }
    {
        self.records
    }

    /// All downtimes ever scheduled, in order of their ids.
    pub fn list(&self) -> &[Downtime]
        ensures all { result.now ≡ self.now }
        ensures records { AreRecords 0 self.now }
    {
        &self.records
    }

    /// The greatest id assigned so far, 0 at first.
    pub fn last_id(&self) -> u64
        ensures { result ≡ length self.now }
    {
        self.records.len() as u64
    }

    /// The downtime with this id, even if it is over; `None` where the id was never assigned.
    pub fn find(&self, id: u64) -> Option<&Downtime>
        ensures { option_copied result ≡ record_of self.now id }
    {
        find_record(&self.records, id)
    }

    /// Whether a downtime has this id and is not over.
    pub fn live(&self, id: u64) -> bool
        ensures { result ≡ is_live self.now id }
    {
        match find_record(&self.records, id) {
            None => false,
            Some(d) => !matches!(d.fate, Fate::Over),
        }
    }

    /// The depth of an object: the number of its active downtimes (Scheduled Downtime).
    pub fn depth(&self, object: u16) -> u64
        ensures { result ≡ depth_of self.now object }
    {
        self.kept.depths.of(object)
    }

    /// The number of objects that have at least one active downtime. The count is kept, so that no list is walked.
    /// Takes no memory.
    ///
    /// ```
    /// // fixed: gives a fixed plan from second 100 to second 200
    /// let mut downtimes = Downtimes::new(alloc);
    /// let ids = downtimes.schedule_many(alloc, 50, &[0, 1, 1], &fixed(alloc)?);
    /// assert_eq!(rt; ids, Ok(1));
    /// for _ in 0..3 {
    ///     assert!(rt; downtimes.take_event(150).is_some());
    /// }
    /// assert_eq!(rt; downtimes.objects_in_downtime(), 2);
    /// ```
    pub fn objects_in_downtime(&self) -> u64
        ensures { result ≡ objects_in_downtime self.now every_object }
    {
        self.kept.depths.in_downtime()
    }

    /// The events of all downtimes, whatever their seconds, in order: by moment, then Ends, Expires, Starts, then id. A
    /// start is among them once its second is determined. Takes no memory.
    pub fn events(&self) -> &[Event]
        ensures { AreInOrder (events self.now) result.now }
    {
        self.kept.queue.events()
    }

    /// The event that is due at the second `t`: the first of all events at or before `t`, by moment, then Ends,
    /// Expires, Starts, then id. `None` where every event is after `t`. Takes no memory.
    pub fn next_due(&self, t: u64) -> Option<Event>
        ensures { result ≡ due self.now t }
    {
        self.kept.queue.first_by(t)
    }

    /// Applies the event that is due at the second `t`, and returns it. Ends and Expires make its downtime over; Starts
    /// makes it active from the event's moment, until `end_time` where it is fixed, else for its duration. Where no
    /// event is due, returns `None` and changes nothing. Takes no memory.
    pub fn take_event(&mut self, t: u64) -> Option<Event>
        ensures event { result ≡ due self.old t }
        ensures none { IfNone result (self.new ≡ self.old) }
        ensures applied { IfSome result (λ e. self.new ≡ after_event self.old e) }
        ensures falls { IfSome result (λ _. work self.new < work self.old) }
        ensures records { AreRecords 0 self.new }
    {
        match self.next_due(t) {
            None => None,
            Some(event) => {
                apply(&mut self.records, &mut self.kept, event);
                Some(event)
            }
        }
    }

    /// The first cause for which a plan with these times would be refused at this clock, in seconds; `None` where it
    /// would be scheduled. Never [`Refusal::Memory`]. Changes nothing and takes no memory.
    ///
    /// ```
    /// // fixed: gives a fixed plan from second 100 to second 200
    /// let downtimes = Downtimes::new(alloc);
    /// let times = fixed(alloc)?.times;
    /// assert_eq!(rt; downtimes.refusal(199, &times), None);
    /// assert_eq!(rt; downtimes.refusal(200, &times), Some(Refusal::PastWindow));
    /// ```
    pub fn refusal(&self, clock: u64, times: &Times) -> Option<Refusal>
        ensures fault { result ≡ option_map refusal_by (fault_by self.now clock times.now) }
        ensures records { AreRecords 0 self.now }
    {
        first_refusal(&self.records, clock, times)
    }

    /// Schedules a downtime of an object at the second `clock`, and returns its id (External Commands:
    /// SCHEDULE_HOST_DOWNTIME, SCHEDULE_SVC_DOWNTIME). The downtime is pending. Requires that the clock, and the times
    /// and the duration of the plan, are at most [`GREATEST_NUMBER`](cmd_types::GREATEST_NUMBER), and that the new id
    /// is below 2^64. An error is the first cause in the order of [`Refusal`], and leaves the list unchanged.
    pub fn schedule(
        &mut self,
        _alloc: Global,
        clock: u64,
        object: u16,
        plan: Plan,
    ) -> Result<u64, Refusal>
        requires room { length self.old + 1 < 2 ^ 64 }
        requires clock { clock ≤ GREATEST_NUMBER }
        requires plan { IsSmallPlan plan }
        ensures id { IfOk result (λ id. id ≡ length self.old + 1) }
        ensures ok { OnOk result (self.new ≡ self.old ++ new_record (length self.old) clock object plan ∷ []) }
        ensures sound { OnOk result (fault_of self.old clock plan ≡ None) }
        ensures refused { IfErr result (λ why. IsRefusedBy (fault_of self.old clock plan) why) }
        ensures err { OnErr result (self.new ≡ self.old) }
        ensures records { AreRecords 0 self.new }
    {
        match self.refusal(clock, &plan.times) {
            Some(why) => Err(why),
            None => self
                .add_one(clock, object, plan)
                .map_err(|_| Refusal::Memory),
        }
    }

    /// Schedules a downtime by the same plan for each object in order, and returns the first id (External Commands:
    /// SCHEDULE_HOST_SVC_DOWNTIME). The ids follow one another. Where there is no object, the plan is tested, no
    /// downtime is added, and the result is the next id. Requires that the clock, in seconds, and the times and the
    /// duration of the plan are at most [`GREATEST_NUMBER`](cmd_types::GREATEST_NUMBER), and that the new ids and the
    /// next id are below 2^64. Each earlier event is moved a few times at most, however many objects there are. An
    /// error is the first cause in the order of [`Refusal`], and leaves the list unchanged.
    pub fn schedule_many(
        &mut self,
        alloc: Global,
        clock: u64,
        objects: &[u16],
        plan: &Plan,
    ) -> Result<u64, Refusal>
        requires next { length self.old + 1 < 2 ^ 64 }
        requires room { length self.old + length objects.now < 2 ^ 64 }
        requires clock { clock ≤ GREATEST_NUMBER }
        requires plan { IsSmallPlan plan.now }
        ensures id { IfOk result (λ id. id ≡ length self.old + 1) }
        ensures ok { OnOk result (self.new ≡ self.old ++ new_records (length self.old) clock objects.now plan.now) }
        ensures sound { OnOk result (fault_of self.old clock plan.now ≡ None) }
        ensures refused { IfErr result (λ why. IsRefusedBy (fault_of self.old clock plan.now) why) }
        ensures err { OnErr result (self.new ≡ self.old) }
        ensures records { AreRecords 0 self.new }
    {
        match self.refusal(clock, &plan.times) {
            Some(why) => Err(why),
            None => self
                .add_many(alloc, clock, objects, plan)
                .map_err(|_| Refusal::Memory),
        }
    }

    /// Adds a downtime of an object at the second `clock`, and returns its id; [`schedule`](Downtimes::schedule), with
    /// the same arguments, calls it after its test. Requires that [`refusal`](Downtimes::refusal) returns `None` for
    /// the plan's times. If memory runs out, the list is unchanged.
    ///
    /// ```
    /// // fixed: gives a fixed plan from second 100 to second 200
    /// let mut downtimes = Downtimes::new(alloc);
    /// let plan = fixed(alloc)?;
    /// assert_eq!(rt; downtimes.refusal(50, &plan.times), None);
    /// assert_eq!(rt; downtimes.add_one(50, 0, plan)?, 1);
    /// ```
    pub fn add_one(&mut self, clock: u64, object: u16, plan: Plan) -> Result<u64, Memory>
        requires room { length self.old + 1 < 2 ^ 64 }
        requires clock { clock ≤ GREATEST_NUMBER }
        requires plan { IsSmallPlan plan }
        requires sound { fault_of self.old clock plan ≡ None }
        ensures id { IfOk result (λ id. id ≡ length self.old + 1) }
        ensures ok { OnOk result (self.new ≡ self.old ++ new_record (length self.old) clock object plan ∷ []) }
        ensures err { OnErr result (self.new ≡ self.old) }
        ensures records { AreRecords 0 self.new }
    {
        let id = self.last_id() + 1;
        reserve(&mut self.records, &mut self.kept, 1)?;
        self.kept.depths.reserve(object)?;
        self.kept.waiting.rings.reserve_end(object)?;
        let added = new_record(self.records.len(), clock, object, plan);
        add(&mut self.records, &mut self.kept, added);
        enter_new(&self.records, &mut self.kept.queue, id);
        self.kept.waiting.enter_new(&self.records, id);
        Ok(id)
    }

    /// Adds a downtime by this plan for each object in order, and returns the first id, or the next id where there is
    /// no object; [`schedule_many`](Downtimes::schedule_many), with the same arguments, calls it after its test.
    /// Requires that [`refusal`](Downtimes::refusal) returns `None` for the plan's times. If memory runs out, the list
    /// is unchanged.
    ///
    /// ```
    /// // fixed: gives a fixed plan from second 100 to second 200
    /// let mut downtimes = Downtimes::new(alloc);
    /// let plan = fixed(alloc)?;
    /// assert_eq!(rt; downtimes.refusal(50, &plan.times), None);
    /// assert_eq!(rt; downtimes.add_many(alloc, 50, &[0, 1], &plan)?, 1);
    /// assert_eq!(rt; downtimes.last_id(), 2);
    /// ```
    pub fn add_many(
        &mut self,
        alloc: Global,
        clock: u64,
        objects: &[u16],
        plan: &Plan,
    ) -> Result<u64, Memory>
        requires next { length self.old + 1 < 2 ^ 64 }
        requires room { length self.old + length objects.now < 2 ^ 64 }
        requires clock { clock ≤ GREATEST_NUMBER }
        requires plan { IsSmallPlan plan.now }
        requires sound { fault_of self.old clock plan.now ≡ None }
        ensures id { IfOk result (λ id. id ≡ length self.old + 1) }
        ensures ok { OnOk result (self.new ≡ self.old ++ new_records (length self.old) clock objects.now plan.now) }
        ensures err { OnErr result (self.new ≡ self.old) }
        ensures records { AreRecords 0 self.new }
    {
        let first = self.last_id() + 1;
        let mut copies = plan.copies(alloc, objects.len())?;
        reserve(&mut self.records, &mut self.kept, objects.len())?;
        self.kept.depths.reserve_all(objects)?;
        self.kept.waiting.rings.reserve_ends(objects)?;
        for object in objects {
            let copy = copies.take_last();
            let added = new_record(self.records.len(), clock, *object, copy);
            add(&mut self.records, &mut self.kept, added);
        }
        enter_new(&self.records, &mut self.kept.queue, first);
        self.kept.waiting.enter_new(&self.records, first);
        Ok(first)
    }

    /// Starts one downtime after a problem of the object, and returns its id (Scheduled Downtime, flexible downtime;
    /// profile). The downtime is the one of least id that is pending and flexible, has no trigger, and whose window has
    /// begun and not ended at the clock. The downtime is then active from the clock for its duration. Where there is
    /// none, returns `None` and changes nothing. Reads only downtimes of the object whose windows have begun, and once
    /// each downtime whose window has begun since the last problem of any object. Takes no memory.
    pub fn problem_seen(&mut self, object: u16, clock: u64) -> Option<u64>
        ensures id { result ≡ option_map (λ d. d.id) (waiting self.old object clock) }
        ensures started { self.new ≡ after_problem self.old object clock }
        ensures none { IfNone result (self.new ≡ self.old) }
        ensures falls { IfSome result (λ _. work self.new < work self.old) }
        ensures records { AreRecords 0 self.new }
    {
        start_waiting(&mut self.records, &mut self.kept, object, clock)
    }

    /// Cancels a downtime that is not over, and each that depends on it through triggers: all of them are then over.
    /// Returns the ids of those that were active, ascending (External Commands: DEL_HOST_DOWNTIME, DEL_SVC_DOWNTIME).
    /// Requires that the downtime is [`live`](Downtimes::live). Reads only this downtime and its dependants, and none
    /// below a downtime that an earlier `cancel` on this list named. So each is read in two cancellations at most. Only
    /// the result takes memory; if memory runs out, the list is unchanged.
    pub fn cancel(&mut self, alloc: Global, id: u64) -> Result<Vec<u64>, Memory>
        requires { IsTrue (is_live self.old id) }
        ensures active { IfOk result (λ ids. ids.items ≡ active_dependants self.old id) }
        ensures ok { OnOk result (self.new ≡ cancelled self.old id) }
        ensures err { OnErr result (self.new ≡ self.old) }
        ensures records { AreRecords 0 self.new }
    {
        let active = active_dependants(alloc, &self.records, &self.kept.links, id)?;
        end_dependants(&mut self.records, &mut self.kept, id);
        Ok(active)
    }
}

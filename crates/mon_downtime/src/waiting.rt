//! The downtimes that await problems. Until their windows begin they are in order of their openings, so that no problem
//! reads them. A problem first moves those that have opened into the rings of their objects. The records are not changed
//! here, and only `reserve` takes memory.
ghost use Rattle.std.specs.Prelude.{◌≡◌, ◌≤◌, ◌<◌, ◌+◌, ◌^◌, true, false, [], length, drop, vec_len, vec_capacity, IfSome, IfNone, OnOk};
ghost use Rattle.std.specs.Option.{option_to_list};
ghost use Rattle.mon_downtime.specs.declared.downtime.Fate.{Fate as AFate};
ghost use Rattle.mon_downtime.specs.declared.event.Event.{Event as AnEvent};
ghost use Rattle.mon_downtime.specs.Records.{record_of, AreRecords, with_fate};
ghost use Rattle.mon_downtime.specs.Problem.{is_pending};
ghost use Rattle.mon_downtime.specs.Order.{has};
ghost use Rattle.mon_downtime.specs.Queue.{IsQueue, queued, retired};
ghost use Rattle.mon_downtime.specs.Listed.{AreAlike};
ghost use Rattle.mon_downtime.specs.Rings.{AreRings};
ghost use Rattle.mon_downtime.specs.Waiting.{openings_in, is_opening, is_outside, AreWaiting, AreOpening, HaveLeft, HaveOpened};

use crate::downtime::Downtime;
use crate::due::enter;
use crate::event::{Event, EventKind};
use crate::queue::Queue;
use crate::records::find_record;
use crate::rings::{Neighbours, Rings, awaits};
use cmd_types::Memory;
use std::alloc::Global;

/// The downtimes that await problems: in `rings` those that had opened at an earlier problem; in `openings` the others,
/// each by the start of its window.
#[derive(Drop)]
pub struct Waiting {
    pub openings: Queue,
    pub rings: Rings,
}

/// The opening of the record with this id, which is the start of its window; `None` where it does not await problems.
pub fn opening_of(records: &[Downtime], id: u64) -> Option<Event>
    requires { AreRecords 0 records.now }
    ensures { option_to_list result ≡ openings_in (record_of records.now id) }
{
    let d = find_record(records, id)?;
    if awaits(d) {
        Some(Event::new(d.plan.times.start_time, EventKind::Starts, d.id))
    } else {
        None
    }
}

impl Waiting {
    /// No downtime waits: there is no record. Takes no memory.
    pub fn new(alloc: Global) -> Waiting
        ensures { AreWaiting [] result }
    {
        Waiting {
            openings: Queue::new(alloc),
            rings: Rings::new(alloc),
        }
    }

    /// Makes room for the openings and the places of `more` records beside these. Nothing changes, also if memory runs
    /// out.
    pub fn reserve(&mut self, records: &[Downtime], more: usize) -> Result<(), Memory>
        requires waiting { AreWaiting records.now self.old }
        requires all { length records.now + more < 2 ^ 64 }
        ensures waiting { AreWaiting records.now self.new }
        ensures near { OnOk result (vec_len self.old.rings.near + more ≤ vec_capacity self.new.rings.near) }
        ensures openings { OnOk result (length records.now + more ≤ vec_capacity self.new.openings.list) }
    {
        self.rings.reserve(more)?;
        self.openings.reserve(records.len() + more)
    }

    /// Inserts the openings of all records from the id `first` on, which are of one plan, as one block. Requires the
    /// room that `reserve` makes.
    pub fn enter_new(&mut self, records: &[Downtime], first: u64)
        requires records { AreRecords 0 records.now }
        requires there { (1 ≤ first) × (first ≤ length records.now + 1) }
        requires alike { AreAlike records.now first }
        requires queue { IsQueue self.old.openings }
        requires others { (e : AnEvent) → has (queued self.old.openings) e ≡ true → (is_opening records.now e ≡ true) × (e.id < first) }
        requires room { length records.now ≤ vec_capacity self.old.openings.list }
        requires rings { AreRings records.now (is_outside records.now (queued self.old.openings) first) self.old.rings }
        ensures { AreWaiting records.now self.new }
    {
        let count = records.len() - (first - 1) as usize;
        enter(&mut self.openings, opening_of(records, first), count);
    }

    /// Removes a record from the openings or from its object's ring, if it awaits problems; the caller then gives it a
    /// fate that is not pending.
    pub fn leave(&mut self, records: &[Downtime], id: u64)
        requires records { AreRecords 0 records.now }
        requires waiting { AreWaiting records.now self.old }
        requires there { (1 ≤ id) × (id ≤ length records.now) }
        ensures { (fate : AFate) → is_pending fate ≡ false → AreWaiting (with_fate records.now id (λ _. fate)) self.new }
    {
        match opening_of(records, id) {
            None => {}
            Some(opening) => {
                if !self.openings.remove(&opening) {
                    let d = &records[(id - 1) as usize];
                    let here = self.rings.at(d.object, id);
                    self.rings.tie(d.object, here, here);
                }
            }
        }
    }

    /// Moves the downtime of the opening `i`, of the `count` openings that `retire_by` removed, into the ring of its
    /// object. Walks back from the end of the ring to its place.
    fn open(&mut self, records: &[Downtime], count: usize, i: usize)
        requires records { AreRecords 0 records.now }
        requires waiting { AreOpening records.now (drop i (retired count self.old.openings)) self.old }
        requires left { HaveLeft records.now (retired count self.old.openings) self.old.openings }
        requires within { (i < count) × (count ≤ self.old.openings.start) }
        ensures waiting { AreOpening records.now (drop (i + 1) (retired count self.old.openings)) self.new }
        ensures openings { self.new.openings ≡ self.old.openings }
    {
        let id = self.openings.retired(count, i).id();
        let d = &records[(id - 1) as usize];
        let mut before = self.rings.at(d.object, 0).previous;
        while before > id {
            before = self.rings.at(d.object, before).previous;
        }
        let around = Neighbours {
            next: self.rings.at(d.object, before).next,
            previous: before,
        };
        let own = Neighbours {
            next: id,
            previous: id,
        };
        self.rings.put(d.object, id, around);
        self.rings.tie(d.object, around, own);
    }

    /// Moves all downtimes whose windows have begun at the clock into the rings of their objects, in order of their ids:
    /// each then passes only downtimes that had opened before.
    pub fn open_by(&mut self, records: &[Downtime], clock: u64)
        requires records { AreRecords 0 records.now }
        requires waiting { AreWaiting records.now self.old }
        ensures waiting { AreWaiting records.now self.new }
        ensures opened { HaveOpened records.now self.new clock }
    {
        let count = self.openings.retire_by(clock);
        for i in 0..count {
            self.open(records, count, i);
        }
    }
}

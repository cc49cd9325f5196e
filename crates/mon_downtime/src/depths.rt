//! The depth of each object (the number of its active downtimes), and the number of objects in a downtime. The caller
//! calls `add` for each new record and `recount` for each change of a fate; the records are not changed here.
ghost use Rattle.std.specs.Prelude.{◌≡◌, ℕ, ◌-◌, ◌<◌, ◌≤◌, [], ◌∷◌, ◌++◌, List, length, slice_index_or, All, OnOk};
ghost use Rattle.mon_downtime.specs.declared.downtime.Downtime.{Downtime as ARecord};
ghost use Rattle.mon_downtime.specs.Records.{with_fate, is_active, AreRecords};
ghost use Rattle.mon_downtime.specs.Depths.{every_object, AreDepths};

use crate::downtime::{Downtime, Fate};
use cmd_types::{Membership, Memory, recounted};
use std::alloc::Global;

/// A counter of active downtimes for each object, and the number of counters that are not 0. The depth of an object
/// without a counter is 0.
#[derive(Drop)]
pub struct Depths {
    each: Vec<u64>,
    in_downtime: u64,
}

/// Makes a counter of 0 for an object, if it has none yet. No depth changes, also if memory runs out.
fn reserve_depth(depths: &mut Vec<u64>, object: u16) -> Result<(), Memory>
    ensures same { (o : ℕ) → slice_index_or depths.new.items o 0 ≡ slice_index_or depths.old.items o 0 }
    ensures more { length depths.old.items ≤ length depths.new.items }
    ensures ok { OnOk result (object < length depths.new.items) }
{
    let long = object as usize + 1;
    if depths.len() < long {
        depths.resize(long, 0)?;
    }
    Ok(())
}

/// Calls [`reserve_depth`] for each of these objects. No depth changes, also if memory runs out.
fn reserve_depths(depths: &mut Vec<u64>, objects: &[u16]) -> Result<(), Memory>
    ensures same { (o : ℕ) → slice_index_or depths.new.items o 0 ≡ slice_index_or depths.old.items o 0 }
    ensures more { length depths.old.items ≤ length depths.new.items }
    ensures ok { OnOk result (All (λ o. o < length depths.new.items) objects.now) }
{
    for object in objects {
        reserve_depth(depths, *object)?;
    }
    Ok(())
}

/// Whether a record with this fate counts for the depth of its object.
fn is_active(fate: Fate) -> bool
    ensures { result ≡ is_active fate }
{
    matches!(fate, Fate::Active { .. })
}

/// The object of a downtime. A separate function, so that the proof has the range of the index.
fn object_of(d: &Downtime) -> u16
    ensures object { result ≡ d.now.object }
    ensures small { result < every_object }
{
    d.object
}

impl Depths {
    /// The depths over no records: no object has a counter, and no object is in a downtime. Takes no memory.
    pub fn new(alloc: Global) -> Depths
        ensures { AreDepths [] result }
    {
        Depths {
            each: Vec::new(alloc),
            in_downtime: 0,
        }
    }

    /// The depth of an object; 0 where it has no counter.
    pub fn of(&self, object: u16) -> u64
        ensures { result ≡ slice_index_or self.now.each.items object 0 }
    {
        self.each.get(object as usize).copied().unwrap_or(0)
    }

    /// The number of objects whose depth is not 0, from the count that is kept.
    pub fn in_downtime(&self) -> u64
        ensures { result ≡ self.now.in_downtime }
    {
        self.in_downtime
    }

    /// Makes a counter of 0 for an object, if it has none yet, so that `add` and `recount` take no memory. No depth
    /// changes, also if memory runs out.
    pub fn reserve(&mut self, object: u16) -> Result<(), Memory>
        ensures depths { (ds : List ARecord) → AreDepths ds self.old → AreDepths ds self.new }
        ensures ok { OnOk result (object < length self.new.each.items) }
    {
        reserve_depth(&mut self.each, object)
    }

    /// As [`reserve`](Depths::reserve), for each of these objects.
    pub fn reserve_all(&mut self, objects: &[u16]) -> Result<(), Memory>
        ensures depths { (ds : List ARecord) → AreDepths ds self.old → AreDepths ds self.new }
        ensures ok { OnOk result (All (λ o. o < length self.new.each.items) objects.now) }
    {
        reserve_depths(&mut self.each, objects)
    }

    /// Counts a new record that the caller appends to these records; a record that is not active changes nothing.
    /// Requires the counter that `reserve` makes. Takes no memory.
    pub fn add(&mut self, records: &[Downtime], added: &Downtime)
        requires depths { AreDepths records.now self.old }
        requires counted { added.now.object < length self.old.each.items }
        ensures { AreDepths (records.now ++ added.now ∷ []) self.new }
    {
        if !is_active(added.fate) {
            return;
        }
        let object = object_of(added);
        let before = self.each[object as usize];
        self.each[object as usize] = before + 1;
        let counted = Membership {
            was: before > 0,
            is: true,
        };
        self.in_downtime = recounted(self.in_downtime, counted);
    }

    /// Changes the depth of the record's object for the fate that the caller then gives the record. Takes no memory.
    pub fn recount(&mut self, records: &[Downtime], id: u64, fate: Fate)
        requires records { AreRecords 0 records.now }
        requires depths { AreDepths records.now self.old }
        requires there { (1 ≤ id) × (id ≤ length records.now) }
        ensures { AreDepths (with_fate records.now id (λ _. fate)) self.new }
    {
        let d = &records[(id - 1) as usize];
        let object = object_of(d);
        let before = self.each[object as usize];
        let active = Membership {
            was: is_active(d.fate),
            is: is_active(fate),
        };
        let after = recounted(before, active);
        self.each[object as usize] = after;
        let busy = Membership {
            was: before > 0,
            is: after > 0,
        };
        self.in_downtime = recounted(self.in_downtime, busy);
    }
}

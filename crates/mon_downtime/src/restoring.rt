//! Restores downtimes that were saved: tests their records, and makes the `RecordIndex` anew. No record is changed
//! here.
ghost use Rattle.std.specs.Prelude.{◌≡◌, ◌↔◌, ◌+◌, ◌*◌, ◌<◌, ◌≤◌, ◌^◌, ℕ, [], length, slice_get, take, vec_capacity, IfOk, IfSome, OnOk, IsTrue, MatchOption};
ghost use Rattle.mon_downtime.specs.Records.{IsRecord, IsSmallFate, AreRecords};
ghost use Rattle.mon_downtime.specs.Events.{events};
ghost use Rattle.mon_downtime.specs.Kept.{AreKept, AreRestored};
ghost use Rattle.mon_downtime.specs.Waiting.{all_openings};

use crate::downtime::{Downtime, Fate};
use crate::due::{push, push_events};
use crate::event::Event;
use crate::kept::RecordIndex;
use crate::links::link_record;
use crate::queue::Queue;
use crate::waiting::opening_of;
use cmd_types::{GREATEST_NUMBER, Memory};
use std::alloc::{AllocError, Global};

/// Whether the moments of a fate are in the ranges that commands can produce.
fn is_small(fate: Fate) -> bool
    ensures { IsTrue result ↔ IsSmallFate fate }
{
    match fate {
        Fate::Active { since, until } => {
            since <= GREATEST_NUMBER && until <= GREATEST_NUMBER + GREATEST_NUMBER
        }
        _ => true,
    }
}

/// Whether a downtime may follow `before` records: its id is `before + 1`, its trigger is an earlier record or 0, and
/// its numbers are in the ranges that commands can produce.
fn is_record(before: u64, d: &Downtime) -> bool
    requires { before < 2 ^ 63 }
    ensures { IsTrue result ↔ IsRecord before d.now }
{
    d.id == before + 1
        && d.plan.times.trigger_id <= before
        && d.plan.times.start_time <= GREATEST_NUMBER
        && d.plan.times.end_time <= GREATEST_NUMBER
        && d.plan.times.duration <= GREATEST_NUMBER
        && d.entered <= GREATEST_NUMBER
        && is_small(d.fate)
}

/// The index of the first downtime that cannot be at its index: its id is not the next, its trigger is no earlier
/// downtime, or a number is out of range. `None` where there is no such downtime. Changes nothing and takes no memory.
///
/// ```
/// assert_eq!(rt; unrecorded(&[]), None);
/// ```
pub fn unrecorded(records: &[Downtime]) -> Option<usize>
    ensures all { MatchOption result
        (AreRecords 0 records.now)
        (λ _. AreRecords 0 records.now → ⊥) }
    ensures within { IfSome result (λ place. place < length records.now) }
    ensures at { IfSome result (λ place. IfSome (slice_get records.now place) (IsRecord place) → ⊥) }
    // At `None` this is said of each index.
    ensures earlier { (k : ℕ) → IfSome result (λ place. k < place) → IfSome (slice_get records.now k) (IsRecord k) }
{
    for place in 0..records.len() {
        if !is_record(place as u64, &records[place]) {
            return Some(place);
        }
    }
    None
}

/// Makes the index over no records, with room for the links of `count` records and their places in rings.
fn room_for(alloc: Global, count: usize) -> Result<RecordIndex, Memory>
    ensures { IfOk result (λ kept. AreRestored count [] kept) }
{
    let mut kept = RecordIndex::new(alloc);
    kept.links.reserve(count)?;
    kept.waiting.rings.reserve(count)?;
    Ok(kept)
}

/// Adds the link, place and depth of the record at the index `place` to `kept`, which has those of the records before
/// it. If memory runs out, a part may be added, and the caller drops `kept`.
fn keep_next(records: &[Downtime], place: usize, kept: &mut RecordIndex) -> Result<(), Memory>
    requires records { AreRecords 0 records.now }
    requires within { place < length records.now }
    requires restored { AreRestored (length records.now) (take place records.now) kept.old }
    ensures { OnOk result (AreRestored (length records.now) (take (place + 1) records.now) kept.new) }
{
    let record = &records[place];
    kept.depths.reserve(record.object)?;
    kept.waiting.rings.reserve_end(record.object)?;
    let before = &records[..place];
    link_record(&mut kept.links, before, record);
    kept.waiting.rings.add();
    kept.depths.add(before, record);
    Ok(())
}

/// Makes an empty list with room for two events of each of `count` records.
fn room_for_events(alloc: Global, count: usize) -> Result<Vec<Event>, Memory>
    ensures none { IfOk result (λ list. list.items ≡ []) }
    ensures room { IfOk result (λ list. 2 * count ≤ vec_capacity list) }
{
    match count.checked_mul(2) {
        None => Err(AllocError),
        Some(events) => Vec::with_capacity(alloc, events),
    }
}

/// The events of all records, in the order of the records. The list has room for two events of each.
fn all_events(alloc: Global, records: &[Downtime]) -> Result<Vec<Event>, Memory>
    requires { AreRecords 0 records.now }
    ensures events { IfOk result (λ list. list.items ≡ events records.now) }
    ensures room { IfOk result (λ list. 2 * length records.now ≤ vec_capacity list) }
{
    let mut list = room_for_events(alloc, records.len())?;
    for place in 0..records.len() {
        push_events(records, place as u64 + 1, &mut list);
    }
    Ok(list)
}

/// The openings of all records that await problems, in the order of the records. The list has room for one of each
/// record.
fn all_openings(alloc: Global, records: &[Downtime]) -> Result<Vec<Event>, Memory>
    requires { AreRecords 0 records.now }
    ensures openings { IfOk result (λ list. list.items ≡ all_openings records.now) }
    ensures room { IfOk result (λ list. length records.now ≤ vec_capacity list) }
{
    let mut list = Vec::with_capacity(alloc, records.len())?;
    for place in 0..records.len() {
        push(&mut list, opening_of(records, place as u64 + 1));
    }
    Ok(list)
}

/// Makes the index over these records. Sorts their events and openings once: the time grows as n log n with the number of records.
/// No record is marked as `all_over`, so that a later walk may visit records that are over.
pub fn keep_all(alloc: Global, records: &[Downtime]) -> Result<RecordIndex, Memory>
    requires { AreRecords 0 records.now }
    ensures { IfOk result (λ kept. AreKept records.now kept) }
{
    let mut kept = room_for(alloc, records.len())?;
    for place in 0..records.len() {
        keep_next(records, place, &mut kept)?;
    }
    kept.queue = Queue::of_events(all_events(alloc, records)?);
    kept.waiting.openings = Queue::of_events(all_openings(alloc, records)?);
    Ok(kept)
}

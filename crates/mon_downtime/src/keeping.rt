//! The changes of the records, each together with the `RecordIndex` (`kept`). Only `reserve` takes memory; the other
//! calls require the room that it makes.
ghost use Rattle.std.specs.Prelude.{◌≡◌, ◌≢◌, ◌≤◌, None, Bool, true, [], ◌∷◌, ◌++◌, ℕ, ◌+◌, ◌<◌, false, length, vec_len, vec_capacity, IfSome, IfNone, OnOk};
ghost use Rattle.std.specs.Option.{option_map};
ghost use Rattle.mon_downtime.specs.declared.downtime.Fate.TheVariants.{Over};
ghost use Rattle.mon_downtime.specs.Records.{AreRecords, IsSmallFate, is_active, is_live, is_over, with_fate};
ghost use Rattle.mon_downtime.specs.Events.{IsSmallEvent, after_event, work};
ghost use Rattle.mon_downtime.specs.Problem.{is_pending, waiting, after_problem};
ghost use Rattle.mon_downtime.specs.Cancel.{cancelled};
ghost use Rattle.mon_downtime.specs.Links.{is_marked};
ghost use Rattle.mon_downtime.specs.Rings.{AreRings};
ghost use Rattle.mon_downtime.specs.Kept.{AreKept, AreNoted, HasRoom};

use crate::cancel::next_dependant;
use crate::downtime::{Downtime, Fate};
use crate::due::{change_fate, fate_after};
use crate::event::Event;
use crate::kept::RecordIndex;
use crate::links::{link_record, mark_all_over};
use crate::problem::first_waiting;
use cmd_types::Memory;
use std::alloc::AllocError;

/// Sets the fate of a record, and updates the depths, those that wait and the queue; the links are unchanged. Requires a fate
/// that is not pending and, where the record is over already, is `Over`.
fn give_fate(records: &mut [Downtime], kept: &mut RecordIndex, id: u64, fate: Fate)
    requires kept { AreKept records.old kept.old }
    requires there { (1 ≤ id) × (id ≤ length records.old) }
    requires small { IsSmallFate fate }
    requires begun { is_pending fate ≡ false }
    requires stays { is_live records.old id ≡ false → fate ≡ Over }
    ensures changed { records.new ≡ with_fate records.old id (λ _. fate) }
    ensures links { kept.new.links.items ≡ kept.old.links.items }
    ensures kept { AreKept records.new kept.new }
{
    kept.depths.recount(records, id, fate);
    kept.waiting.leave(records, id);
    change_fate(records, &mut kept.queue, &kept.links, id, fate);
}

/// Applies an event: sets the fate of its record to the fate to which the event leads, and updates the index. No other
/// record changes.
pub fn apply(records: &mut [Downtime], kept: &mut RecordIndex, event: Event)
    requires kept { AreKept records.old kept.old }
    requires event { IsSmallEvent records.old event }
    requires there { (1 ≤ event.id) × (event.id ≤ length records.old) }
    ensures applied { records.new ≡ after_event records.old event }
    ensures falls { work records.new < work records.old }
    ensures kept { AreKept records.new kept.new }
{
    let id = event.id();
    let d = &records[(id - 1) as usize];
    let fate = fate_after(d, event);
    give_fate(records, kept, id, fate);
}

/// Starts the downtime of least id that waits for a problem of the object at this clock, and returns its id. Where none
/// waits, returns `None` and changes nothing.
pub fn start_waiting(
    records: &mut [Downtime],
    kept: &mut RecordIndex,
    object: u16,
    clock: u64,
) -> Option<u64>
    requires kept { AreKept records.old kept.old }
    ensures id { result ≡ option_map (λ d. d.id) (waiting records.old object clock) }
    ensures started { records.new ≡ after_problem records.old object clock }
    ensures none { IfNone result (records.new ≡ records.old) }
    ensures falls { IfSome result (λ _. work records.new < work records.old) }
    ensures kept { AreKept records.new kept.new }
{
    kept.waiting.open_by(records, clock);
    match first_waiting(records, &kept.waiting, object, clock) {
        None => None,
        Some(d) => {
            let id = d.id;
            let fate = Fate::Active {
                since: clock,
                until: clock + d.plan.times.duration,
            };
            give_fate(records, kept, id, fate);
            Some(id)
        }
    }
}

/// Whether a downtime is over.
fn is_over(d: &Downtime) -> bool
    ensures { result ≡ is_over d.now.fate }
{
    matches!(d.fate, Fate::Over)
}

/// Makes a record over, and updates the index. Where the record is over already, nothing changes.
fn end(records: &mut [Downtime], kept: &mut RecordIndex, at: u64)
    requires kept { AreKept records.old kept.old }
    requires there { (1 ≤ at) × (at ≤ length records.old) }
    ensures ended { records.new ≡ with_fate records.old at (λ _. Over) }
    ensures links { kept.new.links.items ≡ kept.old.links.items }
    ensures kept { AreKept records.new kept.new }
{
    if !is_over(&records[(at - 1) as usize]) {
        give_fate(records, kept, at, Fate::Over);
    }
}

/// Makes a record and all its dependants over, and marks the record as `all_over`, so that no later walk goes below it.
pub fn end_dependants(records: &mut [Downtime], kept: &mut RecordIndex, id: u64)
    requires kept { AreKept records.old kept.old }
    requires there { (1 ≤ id) × (id ≤ length records.old) }
    ensures ended { records.new ≡ cancelled records.old id }
    ensures marked { is_marked kept.new.links.items id ≡ true }
    ensures kept { AreKept records.new kept.new }
{
    let mut next = Some(id);
    while let Some(at) = next {
        next = next_dependant(records, &kept.links, id, at);
        end(records, kept, at);
    }
    mark_all_over(&mut kept.links, id);
}

/// Makes room for `more` records, with their links, events, openings and places in rings. No record and nothing in the index
/// changes, also if memory runs out.
pub fn reserve(
    records: &mut Vec<Downtime>,
    kept: &mut RecordIndex,
    more: usize,
) -> Result<(), Memory>
    requires kept { AreKept records.old.items kept.old }
    ensures records { records.new.items ≡ records.old.items }
    ensures room { OnOk result (HasRoom (vec_len records.old + more) (vec_capacity records.new) kept.new) }
    ensures kept { AreKept records.new.items kept.new }
{
    records.reserve(more)?;
    kept.links.reserve(more)?;
    match (records.len() + more).checked_mul(2) {
        None => Err(AllocError),
        Some(events) => {
            kept.queue.reserve(events)?;
            kept.waiting.reserve(records, more)
        }
    }
}

/// Appends a record that is not active, with its link and its place, which is in no ring. The depths, the queue and the
/// openings are unchanged; the caller inserts the record's events and opening. Requires the room that `reserve`, `Depths::reserve` and
/// `Rings::reserve_end` make, and a trigger that is not over. Takes no memory.
pub fn add(records: &mut Vec<Downtime>, kept: &mut RecordIndex, added: Downtime)
    requires room { HasRoom (vec_len records.old + 1) (vec_capacity records.old) kept.old }
    requires noted { AreNoted records.old.items kept.old }
    requires records { AreRecords 0 (records.old.items ++ added ∷ []) }
    requires idle { is_active added.fate ≡ false }
    requires counted { added.object < length kept.old.depths.each.items }
    requires ringed { added.object < length kept.old.waiting.rings.ends.items }
    requires live { added.plan.times.trigger_id ≢ 0 → is_live records.old.items added.plan.times.trigger_id ≡ true }
    ensures added { records.new.items ≡ records.old.items ++ added ∷ [] }
    ensures len { vec_len records.new ≡ vec_len records.old + 1 }
    ensures queue { kept.new.queue ≡ kept.old.queue }
    ensures depths { kept.new.depths ≡ kept.old.depths }
    ensures openings { kept.new.waiting.openings ≡ kept.old.waiting.openings }
    ensures ends { kept.new.waiting.rings.ends ≡ kept.old.waiting.rings.ends }
    ensures rings { (out : ℕ → Bool) → out added.id ≡ true → AreRings records.old.items out kept.old.waiting.rings → AreRings records.new.items out kept.new.waiting.rings }
    ensures room { (n : ℕ) → HasRoom n (vec_capacity records.old) kept.old → HasRoom n (vec_capacity records.new) kept.new }
    ensures noted { AreNoted records.new.items kept.new }
{
    link_record(&mut kept.links, records, &added);
    kept.waiting.rings.add();
    records.push_reserved(added);
}

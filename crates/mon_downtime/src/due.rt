//! The events of a record, and the change of the queue when a record is added or its fate changes. No call here takes
//! memory; the calls that insert an event require the room that `keeping::reserve` makes, and `push_events` requires
//! room in its list.
ghost use Rattle.std.specs.Prelude.{◌≡◌, ◌+◌, ◌*◌, ◌≤◌, ◌<◌, ◌^◌, ◌++◌, ◌&&◌, ◌||◌, nat_lt, not, true, false, length, vec_len, vec_capacity, IfSome, IfNone};
ghost use Rattle.std.specs.Option.{option_to_list};
ghost use Rattle.mon_downtime.specs.declared.event.Event.{Event as AnEvent};
ghost use Rattle.mon_downtime.specs.Records.{record_of, with_fate, AreRecords, IsSmallFate};
ghost use Rattle.mon_downtime.specs.Events.{start_of, fate_by};
ghost use Rattle.mon_downtime.specs.Problem.{is_pending};
ghost use Rattle.mon_downtime.specs.Order.{has};
ghost use Rattle.mon_downtime.specs.Queue.{IsQueue, queued, in_block_of};
ghost use Rattle.mon_downtime.specs.Listed.{events_in, starts_in, lasts_in, is_start, is_event, hangs_on, rest_of, IsListed, IsPartOf, AreAlike};
ghost use Rattle.mon_downtime.specs.Links.{AreLinked};

use crate::downtime::{Downtime, Fate};
use crate::event::{Event, EventKind};
use crate::links::Link;
use crate::queue::Queue;
use crate::records::{find_record, set_fate};

/// The second at which a pending downtime starts; `None` where it waits for a problem, or for a trigger that is not
/// active.
fn start_of(records: &[Downtime], d: &Downtime) -> Option<u64>
    requires { AreRecords 0 records.now }
    ensures { result ≡ start_of records.now d.now }
{
    if d.plan.times.trigger_id == 0 {
        if d.plan.times.fixed {
            return Some(d.plan.times.start_time.max(d.entered));
        }
        return None;
    }
    let trigger = find_record(records, d.plan.times.trigger_id)?;
    match trigger.fate {
        Fate::Active { since, .. } => Some(since.max(d.entered)),
        _ => None,
    }
}

/// The start event of the record with this id; `None` where the record is not pending, or the second of its start is
/// not determined yet.
#[tactic(auto, unfolding(crate::specs::Listed::starts_of))]
fn start_event(records: &[Downtime], id: u64) -> Option<Event>
    requires { AreRecords 0 records.now }
    ensures { option_to_list result ≡ starts_in records.now (record_of records.now id) }
{
    let d = find_record(records, id)?;
    match d.fate {
        Fate::Pending => Some(Event::new(start_of(records, d)?, EventKind::Starts, d.id)),
        Fate::Active { .. } | Fate::Over => None,
    }
}

/// The last event of the record with this id: its expiry while it is pending, its end while it is active; `None` where
/// it is over.
#[tactic(auto, unfolding(crate::specs::Listed::lasts_of))]
fn last_event(records: &[Downtime], id: u64) -> Option<Event>
    requires { AreRecords 0 records.now }
    ensures { option_to_list result ≡ lasts_in (record_of records.now id) }
{
    let d = find_record(records, id)?;
    match d.fate {
        Fate::Pending => Some(Event::new(d.plan.times.end_time, EventKind::Expires, d.id)),
        Fate::Active { until, .. } => Some(Event::new(until, EventKind::Ends, d.id)),
        Fate::Over => None,
    }
}

/// Removes an event from the queue; `None` removes nothing.
#[tactic(auto, unfolding(crate::specs::Order::has))]
fn forget(queue: &mut Queue, event: Option<Event>)
    requires { IsQueue queue.old }
    ensures events { (e : AnEvent) → has (queued queue.new) e ≡ (has (queued queue.old) e && not (has (option_to_list event) e)) }
    ensures room { vec_capacity queue.new.list ≡ vec_capacity queue.old.list }
    ensures queue { IsQueue queue.new }
{
    match event {
        None => {}
        Some(event) => {
            queue.remove(&event);
        }
    }
}

/// Inserts `count` events into the queue: `first`, and equal events under the ids that follow. Where `first` is `None`,
/// the queue is unchanged.
pub fn enter(queue: &mut Queue, first: Option<Event>, count: usize)
    requires queue { IsQueue queue.old }
    requires new { (e : AnEvent) → in_block_of first count e ≡ true → has (queued queue.old) e ≡ false }
    requires ids { IfSome first (λ f. f.id + count ≤ 2 ^ 64) }
    requires room { IfSome first (λ _. length (queued queue.old) + count ≤ vec_capacity queue.old.list) }
    ensures events { (e : AnEvent) → has (queued queue.new) e ≡ (in_block_of first count e || has (queued queue.old) e) }
    ensures room { vec_capacity queue.new.list ≡ vec_capacity queue.old.list }
    ensures queue { IsQueue queue.new }
{
    match first {
        None => {}
        Some(first) => queue.insert_block(first, count),
    }
}

/// Removes the event `old` from the queue and inserts `new`, each unless it is `None`.
#[tactic(auto, unfolding(crate::specs::Order::has))]
fn exchange(queue: &mut Queue, old: Option<Event>, new: Option<Event>)
    requires queue { IsQueue queue.old }
    requires there { IfSome old (λ o. has (queued queue.old) o ≡ true) }
    requires new { IfSome new (λ n. (has (queued queue.old) n && not (has (option_to_list old) n)) ≡ false) }
    requires ids { IfSome new (λ n. n.id + 1 ≤ 2 ^ 64) }
    requires room { IfNone old (IfSome new (λ _. length (queued queue.old) + 1 ≤ vec_capacity queue.old.list)) }
    ensures events { (e : AnEvent) → has (queued queue.new) e ≡ (has (option_to_list new) e || (has (queued queue.old) e && not (has (option_to_list old) e))) }
    ensures room { vec_capacity queue.new.list ≡ vec_capacity queue.old.list }
    ensures queue { IsQueue queue.new }
{
    match old {
        None => enter(queue, new, 1),
        Some(old) => match new {
            None => {
                queue.remove(&old);
            }
            Some(new) => queue.replace(&old, new),
        },
    }
}

/// Inserts the start of the record into the queue, if its second is determined.
fn enter_start(records: &[Downtime], queue: &mut Queue, id: u64)
    requires records { AreRecords 0 records.now }
    requires part { IsPartOf records.now queue.old }
    requires new { (e : AnEvent) → is_start records.now id e ≡ true → has (queued queue.old) e ≡ false }
    ensures events { (e : AnEvent) → has (queued queue.new) e ≡ (is_start records.now id e || has (queued queue.old) e) }
    ensures part { IsPartOf records.now queue.new }
    ensures room { vec_capacity queue.new.list ≡ vec_capacity queue.old.list }
{
    let event = start_event(records, id);
    enter(queue, event, 1);
}

/// Removes the starts of all records that this record triggers from the queue; the other events are unchanged.
fn forget_starts(records: &[Downtime], queue: &mut Queue, links: &[Link], id: u64)
    requires records { AreRecords 0 records.now }
    requires queue { IsQueue queue.old }
    requires links { AreLinked records.now links.now }
    requires there { (1 ≤ id) × (id ≤ length records.now) }
    ensures events { (e : AnEvent) → has (queued queue.new) e ≡ (has (queued queue.old) e && not (hangs_on records.now id e)) }
    ensures room { vec_capacity queue.new.list ≡ vec_capacity queue.old.list }
    ensures queue { IsQueue queue.new }
{
    let mut next = links[(id - 1) as usize].latest;
    while next != 0 {
        forget(queue, start_event(records, next));
        next = links[(next - 1) as usize].earlier;
    }
}

/// Inserts the starts of all records that this record triggers into the queue, where their seconds are determined.
fn enter_starts(records: &[Downtime], queue: &mut Queue, links: &[Link], id: u64)
    requires records { AreRecords 0 records.now }
    requires part { IsPartOf records.now queue.old }
    requires links { AreLinked records.now links.now }
    requires there { (1 ≤ id) × (id ≤ length records.now) }
    requires new { (e : AnEvent) → hangs_on records.now id e ≡ true → has (queued queue.old) e ≡ false }
    ensures events { (e : AnEvent) → has (queued queue.new) e ≡ (hangs_on records.now id e || has (queued queue.old) e) }
    ensures part { IsPartOf records.now queue.new }
    ensures room { vec_capacity queue.new.list ≡ vec_capacity queue.old.list }
{
    let mut next = links[(id - 1) as usize].latest;
    while next != 0 {
        enter_start(records, queue, next);
        next = links[(next - 1) as usize].earlier;
    }
}

/// Removes the start of the record, and the starts of all records that it triggers, from the queue.
fn forget_all_starts(records: &[Downtime], queue: &mut Queue, links: &[Link], id: u64)
    requires records { AreRecords 0 records.now }
    requires listed { IsListed records.now queue.old }
    requires links { AreLinked records.now links.now }
    requires there { (1 ≤ id) × (id ≤ length records.now) }
    ensures rest { (e : AnEvent) → has (queued queue.new) e ≡ rest_of records.now id e }
    ensures room { vec_capacity queue.new.list ≡ vec_capacity queue.old.list }
    ensures queue { IsQueue queue.new }
{
    forget(queue, start_event(records, id));
    forget_starts(records, queue, links, id);
}

/// Sets the fate of a record, and updates in the queue its events and the starts of all records that it triggers.
/// Requires a fate that is not pending. The other records and the links are unchanged.
pub fn change_fate(records: &mut [Downtime], queue: &mut Queue, links: &[Link], id: u64, fate: Fate)
    requires records { AreRecords 0 records.old }
    requires listed { IsListed records.old queue.old }
    requires links { AreLinked records.old links.now }
    requires there { (1 ≤ id) × (id ≤ length records.old) }
    requires small { IsSmallFate fate }
    requires begun { is_pending fate ≡ false }
    ensures changed { records.new ≡ with_fate records.old id (λ _. fate) }
    ensures records { AreRecords 0 records.new }
    ensures listed { IsListed records.new queue.new }
    ensures links { AreLinked records.new links.now }
{
    forget_all_starts(records, queue, links, id);
    let before = last_event(records, id);
    set_fate(records, id, fate);
    let after = last_event(records, id);
    exchange(queue, before, after);
    enter_starts(records, queue, links, id);
}

/// Inserts the events of all records from the id `first` on into the queue, which has the events of the records before.
/// These records are of one plan: their starts are inserted as one block, and then their expiries.
pub fn enter_new(records: &[Downtime], queue: &mut Queue, first: u64)
    requires records { AreRecords 0 records.now }
    requires there { (1 ≤ first) × (first ≤ length records.now + 1) }
    requires alike { AreAlike records.now first }
    requires queue { IsQueue queue.old }
    requires room { 2 * length records.now ≤ vec_capacity queue.old.list }
    requires others { (e : AnEvent) → has (queued queue.old) e ≡ (is_event records.now e && nat_lt e.id first) }
    ensures listed { IsListed records.now queue.new }
{
    let count = records.len() - (first - 1) as usize;
    let starts = start_event(records, first);
    enter(queue, starts, count);
    let expires = last_event(records, first);
    enter(queue, expires, count);
}

/// Appends an event to the list; `None` appends nothing. Requires room for one more.
pub fn push(list: &mut Vec<Event>, event: Option<Event>)
    requires { vec_len list.old < vec_capacity list.old }
    ensures items { list.new.items ≡ list.old.items ++ option_to_list event }
    ensures len { vec_len list.new ≤ vec_len list.old + 1 }
    ensures room { vec_capacity list.new ≡ vec_capacity list.old }
{
    if let Some(event) = event {
        list.push_reserved(event);
    }
}

/// Appends the events of the record with this id to the list: its last event, and then its start, if the second of the
/// start is determined. Requires room for two more.
#[tactic(auto, using(crate::proofs::ListedLemmas::events_appended))]
pub fn push_events(records: &[Downtime], id: u64, list: &mut Vec<Event>)
    requires records { AreRecords 0 records.now }
    requires room { vec_len list.old + 2 ≤ vec_capacity list.old }
    ensures items { list.new.items ≡ list.old.items ++ events_in records.now (record_of records.now id) }
    ensures len { vec_len list.new ≤ vec_len list.old + 2 }
    ensures room { vec_capacity list.new ≡ vec_capacity list.old }
{
    push(list, last_event(records, id));
    push(list, start_event(records, id));
}

/// The fate to which the event leads for the record `d`.
pub fn fate_after(d: &Downtime, event: Event) -> Fate
    requires { IsSmallFate (fate_by event.moment event.kind d.now) }
    ensures fate { result ≡ fate_by event.moment event.kind d.now }
    ensures begun { is_pending result ≡ false }
{
    match event.kind() {
        EventKind::Ends | EventKind::Expires => Fate::Over,
        EventKind::Starts => {
            let since = event.moment();
            let until = if d.plan.times.fixed {
                d.plan.times.end_time
            } else {
                since + d.plan.times.duration
            };
            Fate::Active { since, until }
        }
    }
}

//! The queue of events, in order and each once, in one list with free room at both ends. Inserting or removing an event
//! moves the events before its place or those after it, whichever are fewer. Only `reserve` takes memory; the calls
//! that insert require the room that it makes.
ghost use Rattle.std.specs.Prelude.{◌≡◌, ◌≤◌, ◌<◌, ◌+◌, ◌-◌, ◌^◌, ◌&&◌, ◌||◌, [], ◌∷◌, nat_le, not, true, false, length, take, drop, vec_len, vec_capacity, OnOk, IfSome, IfNone, slice_get, slice_index_or};
ghost use Rattle.std.specs.List.{remove};
ghost use Rattle.std.specs.List.Sorted.{IsPermutation};
ghost use Rattle.mon_downtime.specs.declared.event.Event.{Event as AnEvent};
ghost use Rattle.mon_downtime.specs.Events.{if_by};
ghost use Rattle.mon_downtime.specs.Order.{same, has, Ascending, AreOnce};
ghost use Rattle.mon_downtime.specs.Queue.{ArePartedBy, IsPlaceOf, IsFoundAt, IsQueue, queued, retired, in_block, block, put_at, written};

use crate::event::{Event, EventKind, is_before, is_same, order_of};
use cmd_types::Memory;
use std::alloc::Global;

/// The events in order, each once: the part of `list` from `start` on. The entries before `start` are free room, and so
/// is the spare capacity.
#[derive(Drop)]
pub struct Queue {
    list: Vec<Event>,
    start: usize,
}

/// The index of `event` in `events`, or the index at which it belongs where it is not there.
fn place_of(events: &[Event], event: &Event) -> usize
    requires { Ascending events.now }
    ensures { IsPlaceOf events.now event.now result }
{
    events.partition_point(|other| is_before(other, event))
}

/// The number of events of moment `t` or before, which are the first of `events`.
fn place_after(events: &[Event], t: u64) -> usize
    requires { Ascending events.now }
    ensures { ArePartedBy events.now t result }
{
    events.partition_point(|event| event.moment() <= t)
}

/// The id of an event's downtime.
fn id_of(event: &Event) -> u64
    ensures { result ≡ event.now.id }
{
    event.id()
}

/// Sorts the `count` events from the index `first` on by their ids; the others are unchanged.
fn sort_by_ids(list: &mut Vec<Event>, first: usize, count: usize)
    requires within { first + count ≤ vec_len list.old }
    ensures behind { drop (first + count) list.new.items ≡ drop (first + count) list.old.items }
    ensures moved { IsPermutation (take count (drop first list.old.items)) (take count (drop first list.new.items)) }
    ensures len { vec_len list.new ≡ vec_len list.old }
    ensures room { vec_capacity list.new ≡ vec_capacity list.old }
{
    list[first..first + count].sort_unstable_by_key(id_of);
}

/// Inserts a block of events at the index `at` of the list, moving the events from there on once. The block is `first`,
/// and equal events under the ids that follow, `count` in all.
fn put_block(list: &mut Vec<Event>, at: usize, first: Event, count: usize)
    requires within { at ≤ vec_len list.old }
    requires ids { first.id + count ≤ 2 ^ 64 }
    requires room { vec_len list.old + count ≤ vec_capacity list.old }
    ensures items { list.new.items ≡ put_at at (block first count) list.old.items }
    ensures room { vec_capacity list.new ≡ vec_capacity list.old }
{
    for i in 0..count {
        list.push_reserved(first.under_id(i));
    }
    list[at..].rotate_right(count);
}

/// Overwrites the list from the index `at` on with a block of events: `first`, and equal events under the ids that
/// follow, `count` in all. The other events are unchanged.
fn write_block(list: &mut Vec<Event>, at: usize, first: Event, count: usize)
    requires within { at + count ≤ vec_len list.old }
    requires ids { first.id + count ≤ 2 ^ 64 }
    ensures items { list.new.items ≡ written at (block first count) count list.old.items }
    ensures room { vec_capacity list.new ≡ vec_capacity list.old }
{
    for i in 0..count {
        list[at + i] = first.under_id(i);
    }
}

impl Queue {
    /// Makes an empty queue. Takes no memory.
    pub fn new(alloc: Global) -> Queue
        ensures none { queued result ≡ [] }
        ensures queue { IsQueue result }
    {
        Queue {
            list: Vec::new(alloc),
            start: 0,
        }
    }

    /// Makes the queue of the events of a list, which may be in any order. Sorts the list once, and keeps its capacity.
    /// Requires that no event is in the list twice. Takes no memory.
    pub fn of_events(mut list: Vec<Event>) -> Queue
        requires { AreOnce list.items }
        ensures events { (e : AnEvent) → has (queued result) e ≡ has list.items e }
        ensures room { vec_capacity result.list ≡ vec_capacity list }
        ensures queue { IsQueue result }
    {
        list.sort_unstable_by_key(order_of);
        Queue { list, start: 0 }
    }

    /// All events of the queue, in order.
    pub fn events(&self) -> &[Event]
        requires { IsQueue self.now }
        ensures { result.now ≡ queued self.now }
    {
        &self.list[self.start..]
    }

    /// The first event of the queue; `None` where the queue is empty.
    fn first(&self) -> Option<Event>
        requires { IsQueue self.now }
        ensures { result ≡ slice_get (queued self.now) 0 }
    {
        self.events().first().copied()
    }

    /// The first event of the queue, if its moment is `t` or before; else `None`.
    pub fn first_by(&self, t: u64) -> Option<Event>
        requires { IsQueue self.now }
        ensures { result ≡ if_by t (slice_get (queued self.now) 0) }
    {
        let event = self.first()?;
        if event.moment() <= t {
            Some(event)
        } else {
            None
        }
    }

    /// Removes all events of moment `t` or before, and returns how many they are. Until the next change of the queue,
    /// [`retired`](Queue::retired) gives them, in order of their ids. Takes no memory.
    pub fn retire_by(&mut self, t: u64) -> usize
        requires { IsQueue self.old }
        ensures within { result ≤ self.new.start }
        ensures rest { (e : AnEvent) → has (queued self.new) e ≡ (has (queued self.old) e && not (nat_le e.moment t)) }
        ensures retired { (e : AnEvent) → has (retired result self.new) e ≡ (has (queued self.old) e && nat_le e.moment t) }
        ensures once { AreOnce (retired result self.new) }
        ensures room { vec_capacity self.new.list ≡ vec_capacity self.old.list }
        ensures queue { IsQueue self.new }
    {
        let count = place_after(self.events(), t);
        sort_by_ids(&mut self.list, self.start, count);
        self.start += count;
        count
    }

    /// The event at the index `i` of the `count` events that `retire_by` removed.
    pub fn retired(&self, count: usize, i: usize) -> Event
        requires queue { IsQueue self.now }
        requires within { (i < count) × (count ≤ self.now.start) }
        ensures { result ≡ slice_index_or (retired count self.now) i result }
    {
        self.list[self.start - count + i]
    }

    /// Moves all events together, so that the first is at the index `to` of the list. The events and their order are
    /// unchanged.
    fn slide(&mut self, to: usize)
        requires queue { IsQueue self.old }
        requires room { to + length (queued self.old) ≤ vec_capacity self.old.list }
        ensures events { queued self.new ≡ queued self.old }
        ensures there { self.new.start ≡ to }
        ensures room { vec_capacity self.new.list ≡ vec_capacity self.old.list }
        ensures queue { IsQueue self.new }
    {
        let count = self.list.len() - self.start;
        for _ in self.list.len()..to + count {
            self.list.push_reserved(Event::new(0, EventKind::Ends, 0));
        }
        self.list.copy_within(self.start..self.start + count, to);
        self.list.truncate(to + count);
        self.start = to;
    }

    /// Makes room for `events` events in all. No event changes, also if memory runs out.
    pub fn reserve(&mut self, events: usize) -> Result<(), Memory>
        requires { IsQueue self.old }
        ensures events { queued self.new ≡ queued self.old }
        ensures ok { OnOk result (events ≤ vec_capacity self.new.list) }
        ensures room { vec_capacity self.old.list ≤ vec_capacity self.new.list }
        ensures queue { IsQueue self.new }
    {
        if events > self.list.capacity() {
            self.slide(0);
            self.list.reserve(events - self.list.len())?;
        }
        Ok(())
    }

    /// Ensures free room for `count` events before the first event. Where it is missing, moves all events once, so that
    /// free room is on both sides. Requires that the list has room for `count` more.
    fn leave_room_before(&mut self, count: usize)
        requires queue { IsQueue self.old }
        requires room { length (queued self.old) + count ≤ vec_capacity self.old.list }
        ensures events { queued self.new ≡ queued self.old }
        ensures left { count ≤ self.new.start }
        ensures room { vec_capacity self.new.list ≡ vec_capacity self.old.list }
        ensures queue { IsQueue self.new }
    {
        if count > self.start {
            let free = self.list.capacity() - (self.list.len() - self.start) - count;
            self.slide(count + free / 2);
        }
    }

    /// Ensures free room for `count` events after the last event. Where it is missing, moves all events once, so that
    /// free room is on both sides. Requires that the list has room for `count` more.
    fn leave_room_behind(&mut self, count: usize)
        requires queue { IsQueue self.old }
        requires room { length (queued self.old) + count ≤ vec_capacity self.old.list }
        ensures events { queued self.new ≡ queued self.old }
        ensures left { vec_len self.new.list + count ≤ vec_capacity self.new.list }
        ensures room { vec_capacity self.new.list ≡ vec_capacity self.old.list }
        ensures queue { IsQueue self.new }
    {
        if count > self.list.capacity() - self.list.len() {
            let free = self.list.capacity() - (self.list.len() - self.start) - count;
            self.slide(free / 2);
        }
    }

    /// Inserts a block of `count` events at the index `at` of the queue, moving the events before it. Requires that the
    /// list has room for `count` more.
    fn insert_before(&mut self, at: usize, first: Event, count: usize)
        requires queue { IsQueue self.old }
        requires within { at ≤ length (queued self.old) }
        requires ids { first.id + count ≤ 2 ^ 64 }
        requires room { length (queued self.old) + count ≤ vec_capacity self.old.list }
        ensures events { queued self.new ≡ put_at at (block first count) (queued self.old) }
        ensures within { self.new.start ≤ length self.new.list.items }
        ensures room { vec_capacity self.new.list ≡ vec_capacity self.old.list }
    {
        self.leave_room_before(count);
        let start = self.start - count;
        self.list.copy_within(self.start..self.start + at, start);
        write_block(&mut self.list, start + at, first, count);
        self.start = start;
    }

    /// Inserts a block of `count` events at the index `at` of the queue, moving the events from there on. Requires that
    /// the list has room for `count` more.
    fn insert_behind(&mut self, at: usize, first: Event, count: usize)
        requires queue { IsQueue self.old }
        requires within { at ≤ length (queued self.old) }
        requires ids { first.id + count ≤ 2 ^ 64 }
        requires room { length (queued self.old) + count ≤ vec_capacity self.old.list }
        ensures events { queued self.new ≡ put_at at (block first count) (queued self.old) }
        ensures within { self.new.start ≤ length self.new.list.items }
        ensures room { vec_capacity self.new.list ≡ vec_capacity self.old.list }
    {
        self.leave_room_behind(count);
        put_block(&mut self.list, self.start + at, first, count);
    }

    /// Inserts a block of `count` events where it belongs: `first`, and equal events under the ids that follow. Moves
    /// the events on the shorter side. Requires that none of them is in the queue, and the room that `reserve` makes.
    pub fn insert_block(&mut self, first: Event, count: usize)
        requires queue { IsQueue self.old }
        requires new { (e : AnEvent) → in_block first count e ≡ true → has (queued self.old) e ≡ false }
        requires ids { first.id + count ≤ 2 ^ 64 }
        requires room { length (queued self.old) + count ≤ vec_capacity self.old.list }
        ensures events { (e : AnEvent) → has (queued self.new) e ≡ (in_block first count e || has (queued self.old) e) }
        ensures room { vec_capacity self.new.list ≡ vec_capacity self.old.list }
        ensures queue { IsQueue self.new }
    {
        let events = self.events();
        let at = place_of(events, &first);
        if at < events.len() - at {
            self.insert_before(at, first, count);
        } else {
            self.insert_behind(at, first, count);
        }
    }

    /// The index of the event in the queue; `None` where it is not in the queue.
    fn find(&self, event: &Event) -> Option<usize>
        requires { IsQueue self.now }
        ensures found { IfSome result (λ n. IsFoundAt (queued self.now) event.now n) }
        ensures missing { IfNone result (has (queued self.now) event.now ≡ false) }
    {
        let events = self.events();
        let at = place_of(events, event);
        if at == events.len() {
            return None;
        }
        if is_same(&events[at], event) {
            Some(at)
        } else {
            None
        }
    }

    /// Removes the event at the index `at`, moving the events on the shorter side.
    fn remove_at(&mut self, at: usize)
        requires queue { IsQueue self.old }
        requires within { at < length (queued self.old) }
        ensures events { queued self.new ≡ remove (queued self.old) at }
        ensures within { self.new.start ≤ length self.new.list.items }
        ensures room { vec_capacity self.new.list ≡ vec_capacity self.old.list }
    {
        let start = self.start;
        if at < self.list.len() - start - at {
            self.list.copy_within(start..start + at, start + 1);
            self.start = start + 1;
        } else {
            let _removed = self.list.remove(start + at);
        }
    }

    /// Removes the event from the queue, and returns whether it was there; where it was not, nothing changes. Takes no
    /// memory.
    pub fn remove(&mut self, event: &Event) -> bool
        requires { IsQueue self.old }
        ensures was { result ≡ has (queued self.old) event.now }
        ensures events { (e : AnEvent) → has (queued self.new) e ≡ (has (queued self.old) e && not (same event.now e)) }
        ensures room { vec_capacity self.new.list ≡ vec_capacity self.old.list }
        ensures queue { IsQueue self.new }
    {
        match self.find(event) {
            None => false,
            Some(at) => {
                self.remove_at(at);
                true
            }
        }
    }

    /// Removes the event at `from`, and inserts `event` before the event at `to`: moves the events between the two one
    /// index down, and writes `event` at `to - 1`. The caller picks `to` so that the order is kept.
    fn put_later(&mut self, from: usize, to: usize, event: Event)
        requires queue { IsQueue self.old }
        requires within { (from < to) × (to ≤ length (queued self.old)) }
        ensures events { queued self.new ≡ put_at (to - 1) (event ∷ []) (remove (queued self.old) from) }
        ensures within { self.new.start ≤ length self.new.list.items }
        ensures room { vec_capacity self.new.list ≡ vec_capacity self.old.list }
    {
        let at = self.start + from;
        let end = self.start + to;
        self.list.copy_within(at + 1..end, at);
        self.list[end - 1] = event;
    }

    /// Removes the event at `from`, and inserts `event` at `to`, which is not after `from`: moves the events from `to`
    /// to `from` one index up. The caller picks `to` so that the order is kept.
    fn put_sooner(&mut self, from: usize, to: usize, event: Event)
        requires queue { IsQueue self.old }
        requires within { (to ≤ from) × (from < length (queued self.old)) }
        ensures events { queued self.new ≡ put_at to (event ∷ []) (remove (queued self.old) from) }
        ensures within { self.new.start ≤ length self.new.list.items }
        ensures room { vec_capacity self.new.list ≡ vec_capacity self.old.list }
    {
        let at = self.start + from;
        let end = self.start + to;
        self.list.copy_within(end..at, end + 1);
        self.list[end] = event;
    }

    /// Removes the event at `from`, and inserts `event` where it belongs, each time moving the events on the shorter
    /// side.
    fn move_around(&mut self, from: usize, event: Event)
        requires queue { IsQueue self.old }
        requires within { from < length (queued self.old) }
        requires new { (e : AnEvent) → in_block event 1 e ≡ true → has (remove (queued self.old) from) e ≡ false }
        requires ids { event.id + 1 ≤ 2 ^ 64 }
        ensures events { (e : AnEvent) → has (queued self.new) e ≡ (in_block event 1 e || has (remove (queued self.old) from) e) }
        ensures room { vec_capacity self.new.list ≡ vec_capacity self.old.list }
        ensures queue { IsQueue self.new }
    {
        self.remove_at(from);
        self.insert_block(event, 1);
    }

    /// Removes the event at `from`, and inserts `event`, which belongs at `to`, moving the events between the two.
    fn move_between(&mut self, from: usize, to: usize, event: Event)
        requires queue { IsQueue self.old }
        requires from { from < length (queued self.old) }
        requires to { IsPlaceOf (queued self.old) event to }
        requires new { (e : AnEvent) → in_block event 1 e ≡ true → has (remove (queued self.old) from) e ≡ false }
        ensures events { (e : AnEvent) → has (queued self.new) e ≡ (in_block event 1 e || has (remove (queued self.old) from) e) }
        ensures room { vec_capacity self.new.list ≡ vec_capacity self.old.list }
        ensures queue { IsQueue self.new }
    {
        if from < to {
            self.put_later(from, to, event);
        } else {
            self.put_sooner(from, to, event);
        }
    }

    /// Removes the event `old`, and inserts `new` where it belongs. Moves the events between the two, or those around
    /// them where these are fewer. Requires that `old` is in the queue, and that `new` is `old` or not in the queue.
    /// Takes no memory.
    pub fn replace(&mut self, old: &Event, new: Event)
        requires queue { IsQueue self.old }
        requires there { has (queued self.old) old.now ≡ true }
        requires new { (has (queued self.old) new && not (same old.now new)) ≡ false }
        requires ids { new.id + 1 ≤ 2 ^ 64 }
        ensures events { (e : AnEvent) → has (queued self.new) e ≡ (same new e || (has (queued self.old) e && not (same old.now e))) }
        ensures room { vec_capacity self.new.list ≡ vec_capacity self.old.list }
        ensures queue { IsQueue self.new }
    {
        match self.find(old) {
            None => {}
            Some(from) => {
                let events = self.events();
                let to = place_of(events, &new);
                let around = from.min(events.len() - from) + to.min(events.len() - to);
                if around < from.abs_diff(to) {
                    self.move_around(from, new);
                } else {
                    self.move_between(from, to, new);
                }
            }
        }
    }
}

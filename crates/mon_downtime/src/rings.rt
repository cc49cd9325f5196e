//! The rings: for each object, a circular doubly linked list of downtimes that await its problems, in order of their
//! ids. A place of a ring is the id of a record, or 0 for the end: after the end comes the first record, and before it
//! the last. The records are not changed here.
ghost use Rattle.std.specs.Prelude.{◌≡◌, ◌==◌, Bool, ℕ, ◌+◌, ◌<◌, ◌≤◌, [], ◌∷◌, ◌++◌, false, List, length, vec_len, vec_capacity, All, OnOk, slice_index_or};
ghost use Rattle.mon_downtime.specs.declared.downtime.Downtime.{Downtime as ARecord};
ghost use Rattle.mon_downtime.specs.Rings.{awaits, nobody, at_place, AreRings, AreTied};

use crate::downtime::{Downtime, Fate};
use cmd_types::Memory;
use std::alloc::Global;

/// The places after and before a place of a ring; 0 is the end.
#[derive(Clone, Copy)]
pub struct Neighbours {
    pub next: u64,
    pub previous: u64,
}

/// The neighbours of each record, by its id from 1 (`near`), and the neighbours of the end of each object's ring
/// (`ends`).
#[derive(Drop)]
pub struct Rings {
    near: Vec<Neighbours>,
    ends: Vec<Neighbours>,
}

/// The neighbours of the end of an empty ring, and of a record that is in no ring.
const NOBODY: Neighbours = Neighbours {
    next: 0,
    previous: 0,
};

/// Whether a downtime awaits problems of its object: it is pending and flexible and has no trigger.
pub fn awaits(d: &Downtime) -> bool
    ensures { result ≡ awaits d.now }
{
    matches!(d.fate, Fate::Pending) && !d.plan.times.fixed && d.plan.times.trigger_id == 0
}

/// Makes an empty ring for an object, if it has none yet. No ring changes, also if memory runs out.
fn grow_ends(ends: &mut Vec<Neighbours>, object: u16) -> Result<(), Memory>
    ensures same { (o : ℕ) → slice_index_or ends.new.items o nobody ≡ slice_index_or ends.old.items o nobody }
    ensures more { length ends.old.items ≤ length ends.new.items }
    ensures ok { OnOk result (object < length ends.new.items) }
{
    let long = object as usize + 1;
    if ends.len() < long {
        ends.resize(long, NOBODY)?;
    }
    Ok(())
}

impl Rings {
    /// Makes the rings over no records: each object's ring is empty. Takes no memory.
    pub fn new(alloc: Global) -> Rings
        ensures { (out : ℕ → Bool) → AreRings [] out result }
    {
        Rings {
            near: Vec::new(alloc),
            ends: Vec::new(alloc),
        }
    }

    /// The neighbours of a place of an object's ring; both are 0 where there is no such place.
    pub fn at(&self, object: u16, place: u64) -> Neighbours
        ensures { result ≡ at_place self.now object place }
    {
        if place == 0 {
            self.ends.get(object as usize).copied().unwrap_or(NOBODY)
        } else {
            self.near
                .get((place - 1) as usize)
                .copied()
                .unwrap_or(NOBODY)
        }
    }

    /// Sets the neighbours of a place of an object's ring; no other place changes. Takes no memory.
    pub fn put(&mut self, object: u16, place: u64, neighbours: Neighbours)
        requires end { object < length self.old.ends.items }
        requires within { place ≤ length self.old.near.items }
        ensures there { at_place self.new object place ≡ neighbours }
        ensures others { (o q : ℕ) → (q == place) ≡ false → at_place self.new o q ≡ at_place self.old o q }
        ensures ends { (o : ℕ) → (o == object) ≡ false → at_place self.new o 0 ≡ at_place self.old o 0 }
        ensures near { length self.new.near.items ≡ length self.old.near.items }
        ensures known { length self.new.ends.items ≡ length self.old.ends.items }
        ensures room { vec_capacity self.new.near ≡ vec_capacity self.old.near }
    {
        if place == 0 {
            self.ends[object as usize] = neighbours;
        } else {
            self.near[(place - 1) as usize] = neighbours;
        }
    }

    /// Sets `next` of the place `around.previous` to `to.next`, and `previous` of the place `around.next` to
    /// `to.previous`, in the object's ring. No other neighbour changes.
    pub fn tie(&mut self, object: u16, around: Neighbours, to: Neighbours)
        requires end { object < length self.old.ends.items }
        requires before { around.previous ≤ length self.old.near.items }
        requires after { around.next ≤ length self.old.near.items }
        ensures tied { AreTied self.old self.new object around to }
        ensures room { vec_capacity self.new.near ≡ vec_capacity self.old.near }
    {
        let front = self.at(object, around.previous);
        self.put(
            object,
            around.previous,
            Neighbours {
                next: to.next,
                ..front
            },
        );
        let back = self.at(object, around.next);
        self.put(
            object,
            around.next,
            Neighbours {
                previous: to.previous,
                ..back
            },
        );
    }

    /// Makes room for the places of `more` records. No ring changes, also if memory runs out.
    pub fn reserve(&mut self, more: usize) -> Result<(), Memory>
        ensures rings { (ds : List ARecord) (out : ℕ → Bool) → AreRings ds out self.old → AreRings ds out self.new }
        ensures ok { OnOk result (vec_len self.old.near + more ≤ vec_capacity self.new.near) }
    {
        self.near.reserve(more)
    }

    /// Makes an empty ring for an object, if it has none yet, so that no later call takes memory. No ring changes, also if
    /// memory runs out.
    pub fn reserve_end(&mut self, object: u16) -> Result<(), Memory>
        ensures rings { (ds : List ARecord) (out : ℕ → Bool) → AreRings ds out self.old → AreRings ds out self.new }
        ensures near { self.new.near ≡ self.old.near }
        ensures more { length self.old.ends.items ≤ length self.new.ends.items }
        ensures ok { OnOk result (object < length self.new.ends.items) }
    {
        grow_ends(&mut self.ends, object)
    }

    /// As [`reserve_end`](Rings::reserve_end), for each of these objects.
    pub fn reserve_ends(&mut self, objects: &[u16]) -> Result<(), Memory>
        ensures rings { (ds : List ARecord) (out : ℕ → Bool) → AreRings ds out self.old → AreRings ds out self.new }
        ensures near { self.new.near ≡ self.old.near }
        ensures more { length self.old.ends.items ≤ length self.new.ends.items }
        ensures ok { OnOk result (All (λ o. o < length self.new.ends.items) objects.now) }
    {
        for object in objects {
            self.reserve_end(*object)?;
        }
        Ok(())
    }

    /// Adds the place of a new record that the caller appends to the records. The record is in no ring. Requires the
    /// room that `reserve` makes. Takes no memory.
    pub fn add(&mut self)
        requires room { vec_len self.old.near < vec_capacity self.old.near }
        ensures near { self.new.near.items ≡ self.old.near.items ++ nobody ∷ [] }
        ensures ends { self.new.ends ≡ self.old.ends }
        ensures room { vec_capacity self.new.near ≡ vec_capacity self.old.near }
    {
        self.near.push_reserved(NOBODY);
    }
}

//! The state shared by all threads of a run that follows feeds: whether the run has failed, the number of ended feeds,
//! which feeds are behind, and the gates that wake the readers of pipes. Every change is atomic.
ghost use Rattle.std.specs.Prelude.{◌≡◌, IfOk, map};

use super::backlog::Backlog;
use super::flag::Flag;
use super::gate::Gate;
use super::renewal::Renewal;
use super::ticking::Seen;
use crate::numbered::Numbered;
use cmd_types::Memory;
use std::alloc::Global;
use std::rt::Files;
use std::sync::atomic::{AtomicU64, Ordering};
use std::sync::{Mutex, Wait};
use std::time::Clock;

/// The shared state of a run. Each thread reads it; the attendants, the readers and the dispatcher's thread change it.
#[derive(Drop)]
pub struct Signal<'a, R: Files> {
    has_failed: Flag,
    /// The number of ended feeds among those that the call names; the clock feed does not count.
    ended: AtomicU64,
    /// The order of the commands that waited before the run.
    pub backlog: Backlog,
    /// Whether the run is to end so that the next one begins.
    pub renewal: Renewal,
    /// What the thread of the clock feed has seen; the next run begins with it.
    pub seen: Mutex<Seen>,
    /// Whether the file `status` lacks the last change, because it was written just before that change.
    pub is_status_late: Flag,
    /// The text of a new inventory, under which the next run is to begin.
    new_inventory: Mutex<Option<Vec<u8>>>,
    /// The gate of each feed that the call names, in order of the feeds' numbers. Only a feed that is a pipe uses its
    /// gate.
    pub gates: Vec<Gate<'a, R>>,
}

impl<'a, R: Files> Signal<'a, R> {
    /// The signal of a run that has not failed, with a gate for each feed of `feeds`, in this order; no feed has ended,
    /// and each is behind. With `verbose`, refused lines are shown. Fails if memory runs out.
    pub fn new(
        alloc: Global,
        feeds: &[Numbered<'a>],
        verbose: bool,
    ) -> Result<Signal<'a, R>, Memory>
        ensures gates { IfOk result (λ s. map (λ g. g.path.now) s.gates.items ≡ map (λ f. f.path.now) feeds.now) }
    {
        let mut gates = Vec::with_capacity(alloc, feeds.len())?;
        for feed in feeds {
            gates.push_reserved(Gate::new(alloc, feed.path, feed.number, verbose));
        }
        Ok(Signal {
            has_failed: Flag::new(),
            ended: AtomicU64::new(0),
            backlog: Backlog::new(alloc, feeds)?,
            renewal: Renewal::new(alloc, feeds.len().saturating_add(1))?,
            seen: Mutex::new(Seen::NOTHING),
            is_status_late: Flag::new(),
            new_inventory: Mutex::new(None),
            gates,
        })
    }

    /// Whether the run has failed, so that each feed should end.
    ///
    /// Believed: true once [`fail`](Signal::fail) was called in any thread (premise 11; follow-full).
    pub fn has_failed(&self) -> bool {
        self.has_failed.is_set()
    }

    /// Whether each feed is to end: the run has failed, or the next one is to begin.
    ///
    /// Believed: as [`has_failed`](Signal::has_failed) and [`Renewal::ask`] (rotation).
    pub fn is_ending(&self) -> bool {
        self.has_failed() || self.renewal.is_ending()
    }

    /// Leaves the text of a new inventory to the next run.
    ///
    /// Believed: [`take_inventory`](Signal::take_inventory) returns it (premise 11; live-inventory).
    pub fn leave_inventory<W: Wait>(&self, rt: &W, text: Option<Vec<u8>>) {
        *self.new_inventory.lock(rt) = text;
    }

    /// Takes the text of the new inventory, where there is one.
    ///
    /// Believed: `None` where the run ends for another cause (premise 11; rotation).
    pub fn take_inventory<W: Wait>(&self, rt: &W) -> Option<Vec<u8>> {
        self.new_inventory.lock(rt).take()
    }

    /// Adds 1 to the number of ended feeds. The attendant of each feed that the call names calls it once.
    ///
    /// Believed: no call is lost (premise 11; follow-drain).
    pub fn end_one(&self) {
        self.ended.fetch_add(1, Ordering::SeqCst);
    }

    /// Whether every feed that the call names has ended; the clock feed does not count.
    ///
    /// Believed: true once each of them was counted (premise 11; follow-drain).
    pub fn have_ended(&self) -> bool {
        self.ended.load(Ordering::SeqCst) >= self.gates.len() as u64
    }
}

impl<'a, R: Files + Clock + Wait> Signal<'a, R> {
    /// Sets `has_failed`, so that each feed ends, and wakes the readers that wait for a pipe. Does nothing where
    /// `has_failed` was set before.
    ///
    /// Believed: each reader ends, also one that waits for an empty pipe (premises 10 and 11; follow-full).
    pub fn fail(&self, rt: &R) {
        if self.has_failed.set() {
            return;
        }
        for gate in &self.gates {
            gate.wake(rt);
        }
    }

    /// Ends each feed so that the next run begins, and wakes the readers that wait for a pipe. Returns false, and ends
    /// no feed, where the run cannot be renewed, a command is on its way for more than a second, or another reader has
    /// asked.
    ///
    /// Believed: as [`Renewal::ask`] (rotation).
    pub fn renew(&self, rt: &R) -> bool {
        if !self.renewal.is_possible() || !self.renewal.ask(rt) {
            return false;
        }
        for gate in &self.gates {
            gate.wake(rt);
        }
        true
    }
}

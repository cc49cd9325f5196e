//! Ends a run that follows feeds so that the next one begins in the same process: each feed ends after a command that
//! was sent, and a command that waits for the system's clock is left to the next run. The readers and the attendants
//! share one `Renewal`.
use super::flag::Flag;
use cmd_types::Memory;
use std::alloc::Global;
use std::sync::atomic::{AtomicU64, Ordering};
use std::thread;
use std::time::{Clock, Duration};

/// The feeds are read.
const RUNNING: u64 = 0;

/// A reader asks for the end of the run: no reader gives bytes meanwhile.
const PAUSING: u64 = 1;

/// Each feed ends.
const ENDING: u64 = 2;

/// How often the reader that asks checks whether all commands it passed on are sent: for a second.
const LOOKS: u64 = 100;

/// The milliseconds between two checks.
const BETWEEN: u64 = 10;

/// The state shared by the threads of a run: whether it is to end so that the next one begins.
#[derive(Drop)]
pub struct Renewal {
    /// One of the three constants above.
    state: AtomicU64,
    /// Whether the run cannot end for a next one, since it has a feed whose read cannot be ended, or keeps nothing.
    is_forbidden: Flag,
    /// For each feed, whether its reader has passed on bytes with a command that may not be sent yet.
    busy: Vec<Flag>,
}

impl Renewal {
    /// A run of feeds with numbers below `count` that is not asked to end. The error is out of memory.
    ///
    /// Believed: each reader may give bytes until one asks for the end of the run (premise 11; follow-file).
    pub fn new(alloc: Global, count: usize) -> Result<Renewal, Memory> {
        let mut busy = Vec::with_capacity(alloc, count)?;
        for _ in 0..count {
            busy.push(Flag::new())?;
        }
        Ok(Renewal {
            state: AtomicU64::new(RUNNING),
            is_forbidden: Flag::new(),
            busy,
        })
    }

    /// Forbids that the run ends for a next one: it has a feed whose read cannot be ended, or it keeps nothing.
    ///
    /// Believed: no feed ends for the next run (premise 11; absent-feed, follow-file).
    pub fn forbid(&self) {
        self.is_forbidden.set();
    }

    /// Whether the run can end so that the next one begins.
    ///
    /// Believed: false once [`forbid`](Renewal::forbid) was called in any thread (premise 11; absent-feed, follow-file).
    pub fn is_possible(&self) -> bool {
        !self.is_forbidden.is_set()
    }

    /// Whether each feed is to end, so that the next run begins.
    ///
    /// Believed: true in all threads once [`ask`](Renewal::ask) has returned true (premise 11; rotation).
    pub fn is_ending(&self) -> bool {
        self.state.load(Ordering::SeqCst) == ENDING
    }

    /// Records that all commands that the reader of the feed passed on were sent, since the reader is called again; or
    /// that one of them waits for the system's clock, and those before it were sent.
    ///
    /// Believed: a feed that waits does not hold up the end of the run (premise 11; rotation, ahead-rotation).
    pub fn rest(&self, feed: u64) {
        if let Some(busy) = self.busy.get(feed as usize) {
            busy.clear();
        }
    }

    /// Whether the reader may pass bytes on to its sender, or a command that has waited may be sent. If not, the caller
    /// has to ask again later.
    ///
    /// Believed: once it has returned true, no feed ends for the next run until these commands were sent or wait
    /// (premise 11; rotation, cut-file, ahead-rotation).
    pub fn may_give(&self, feed: u64) -> bool {
        if let Some(busy) = self.busy.get(feed as usize) {
            busy.set();
        }
        let is_running = self.state.load(Ordering::SeqCst) == RUNNING;
        if !is_running {
            self.rest(feed);
        }
        is_running
    }

    /// Whether all commands that were passed on are sent.
    ///
    /// Believed: false while a command is on its way to the queue (premise 11; rotation).
    fn are_at_rest(&self) -> bool {
        !self.busy.iter().any(|busy| busy.is_set())
    }

    /// Asks for the end of the run, and returns whether each feed ends now. Waits up to a second for the commands that
    /// are on their way. Where one of them takes longer, the run continues.
    ///
    /// Believed: no feed ends while a command of it is on its way (premise 11; rotation).
    pub fn ask<C: Clock>(&self, rt: &C) -> bool {
        let asked = self
            .state
            .compare_exchange(RUNNING, PAUSING, Ordering::SeqCst, Ordering::SeqCst);
        if asked.is_err() {
            return false;
        }
        for _ in 0..LOOKS {
            if self.are_at_rest() {
                self.state.store(ENDING, Ordering::SeqCst);
                return true;
            }
            thread::sleep(rt, Duration::from_millis(BETWEEN));
        }
        self.state.store(RUNNING, Ordering::SeqCst);
        false
    }
}

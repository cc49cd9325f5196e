//! The clock feed of a run: at a fixed interval it makes a command with the time of the system's clock, so that timed
//! events fall due. Where the file `status` lacks a change it makes a command sooner, but at most one a second. It
//! makes none while another feed is behind, and none while the clock cannot be trusted. Its thread also checks once a
//! second whether there is a new inventory.
ghost use Rattle.std.specs.Prelude.{◌≡◌, IfSome};
ghost use Rattle.cmd_dispatch.specs.Feeds.{IsMade};

use super::error_streams::report;
use super::inventory_watch::{InventoryWatch, Look};
use super::pause::{LOOKS_A_SECOND, pause};
use super::signal::Signal;
use super::system::FeedSystem;
use crate::clocks::{Agreement, Clocks, Comparison};
use cmd_answer::FollowLine;
use cmd_types::{Command, Stamped};
use std::alloc::Global;
use std::rt::Files;
use std::sync::Wait;
use std::time::{Clock, SystemTime, UNIX_EPOCH};

/// What the thread of the clock feed has seen so far, in this run and in those before it in the process.
#[derive(Clone, Copy)]
pub struct Seen {
    /// The comparison of the two clocks; `None` where they could not be read yet.
    pub comparison: Option<Comparison>,
    /// The metadata of the inventory file when its text was last checked.
    pub judged: Option<Look>,
}

impl Seen {
    /// The value of a thread that has seen nothing yet.
    pub const NOTHING: Seen = Seen {
        comparison: None,
        judged: None,
    };
}

/// The system's clock in seconds since 1970; `None` where it cannot be read or is set before 1970.
///
/// Believed: it is the present time (premise 9; follow-ahead).
pub fn seconds_now<R: Clock>(rt: &R) -> Option<u64> {
    let now = SystemTime::now(rt).ok()?;
    let since = now.duration_since(UNIX_EPOCH).ok()?;
    Some(since.as_secs())
}

/// The present readings of both clocks; `None` where one of them cannot be read.
///
/// Believed: the monotonic clock is not set (premise 9; follow-file).
fn read_clocks<R: Clock>(rt: &R) -> Option<Clocks> {
    Some(Clocks {
        system: seconds_now(rt)?,
        monotonic: rt.monotonic().ok()?.as_secs(),
    })
}

/// The command of the clock feed at the time `now`, in seconds; `None` where that is out of range. The command is
/// always rejected, so that its only effect is that of its time.
fn command_at(now: u64) -> Option<Stamped>
    ensures { IfSome result IsMade }
{
    let Ok(command) = Stamped::new(now, Command::DelHostComment { id: 0 }) else {
        return None;
    };
    Some(command)
}

/// A feed that makes a command every `every` seconds, and sooner where the file `status` is late. The feed ends where
/// all feeds that the call names have ended, or the run is ending.
#[derive(Drop)]
pub struct Ticking<'a, R: Files + Clock> {
    rt: &'a R,
    alloc: Global,
    signal: &'a Signal<'a, R>,
    every: u32,
    /// The number of pauses since the last tick.
    looks: u64,
    /// The watch on the inventory; `None` where a new inventory is not taken during the run.
    watch: Option<InventoryWatch<'a, R>>,
}

impl<'a, R: Files + Clock> Ticking<'a, R> {
    /// A clock feed that makes a command every `every` seconds, the first after `every` seconds. With 0 it makes none,
    /// and checks no inventory.
    pub fn new(
        rt: &'a R,
        alloc: Global,
        signal: &'a Signal<'a, R>,
        every: u32,
        watch: Option<InventoryWatch<'a, R>>,
    ) -> Ticking<'a, R>
        ensures every { result.every ≡ every }
        ensures looks { result.looks ≡ 0 }
    {
        Ticking {
            rt,
            alloc,
            signal,
            every,
            looks: 0,
            watch,
        }
    }
}

impl<'a, R: FeedSystem> Ticking<'a, R> {
    /// Compares the clocks for the first time, where no run of the process has done so.
    ///
    /// Believed: a jump before the first tick is noticed (premise 9; tests of `clocks`).
    fn begin(&self) {
        let mut seen = self.signal.seen.lock(self.rt);
        if seen.comparison.is_none() {
            seen.comparison = read_clocks(self.rt).map(Comparison::new);
        }
    }

    /// Compares the clocks, and prints to the error stream that the system's clock has jumped ahead, where it has.
    ///
    /// Believed: a jump of more than 60 seconds is printed once (premises 9, 11 and 12; tests of `clocks`).
    fn compare(&mut self, now: Clocks) -> Agreement {
        let mut seen = self.signal.seen.lock(self.rt);
        let Some(comparison) = &mut seen.comparison else {
            seen.comparison = Some(Comparison::new(now));
            return Agreement::Agrees;
        };
        let agreement = comparison.note(now);
        if let Agreement::Jumped(seconds) = agreement {
            report(self.rt, self.alloc, FollowLine::ClockAhead { seconds });
        }
        agreement
    }

    /// The command of this tick. `None` where a clock cannot be read, the time is out of range, or the system's clock
    /// has jumped ahead by more than 60 seconds and fewer than five ticks have agreed since.
    fn tick(&mut self) -> Option<Stamped>
        ensures { IfSome result IsMade }
    {
        let now = read_clocks(self.rt)?;
        match self.compare(now) {
            Agreement::Agrees => command_at(now.system),
            Agreement::Jumped(_) | Agreement::Doubtful => None,
        }
    }

    /// Checks the inventory once a second, where it is watched.
    ///
    /// Believed: as [`InventoryWatch::look_again`] (live-inventory).
    fn watch_inventory(&mut self) {
        if self.looks % LOOKS_A_SECOND == 0
            && let Some(watch) = &mut self.watch
        {
            watch.look_again();
        }
    }

    /// Whether the interval is over, or the file `status` is late and the last tick a second ago.
    ///
    /// Believed: a change is in the file two seconds later (premises 9 and 11; status-console).
    fn is_due(&self) -> bool {
        if self.signal.is_status_late.is_set() && self.looks >= LOOKS_A_SECOND {
            return true;
        }
        self.looks >= u64::from(self.every) * LOOKS_A_SECOND
    }

    /// Waits until a command is due, no feed is behind and the system's clock can be trusted, and makes the command.
    /// Returns `None` where `every` is 0, all feeds that the call names have ended, or the run is ending.
    pub fn next<W: Wait>(&mut self, rt: &W) -> Option<Stamped>
        ensures { IfSome result IsMade }
    {
        self.begin();
        for _ in rt.forever() {
            if self.every == 0 || self.signal.is_ending() || self.signal.have_ended() {
                break;
            }
            if self.is_due() && self.signal.backlog.has_ended(rt, self.rt) {
                self.looks = 0;
                if let Some(command) = self.tick() {
                    return Some(command);
                }
            }
            self.watch_inventory();
            pause(self.rt);
            self.looks = self.looks.saturating_add(1);
        }
        None
    }
}

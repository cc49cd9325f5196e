//! The order in which the commands that waited before a run are sent (profile): by time, and for equal times by the
//! feeds' numbers. A feed is behind from the start until its reader has waited for bytes once, or it has ended. While a
//! feed is behind, each other sender holds its next command back until the feed's next command is read and is later.
//! The threads of the senders share one `Backlog`.
ghost use Rattle.std.specs.Prelude.{◌≡◌, false, None, IfSome};
ghost use Rattle.cmd_live.specs.declared.live.backlog.Next.TheVariants.{Ahead};

use crate::numbered::Numbered;
use cmd_types::Memory;
use std::alloc::Global;
use std::sync::atomic::{AtomicU64, Ordering};
use std::sync::{Condvar, CondvarTimeouts, Mutex, Wait};
use std::time::{Clock, Duration, Instant};

/// The milliseconds for which a read of a stream returns nothing until its feed is no longer behind: a choice.
const QUIET: u64 = 200;

/// The most milliseconds that a stream may be behind, from its first read: a choice.
const LONGEST: u64 = 10_000;

/// The milliseconds between two checks of a sender that waits for its turn: a choice.
const BETWEEN: u64 = 50;

/// The next command of a feed, as the other senders see it.
#[derive(Clone, Copy)]
enum Next {
    /// It is not read yet, or is about to be sent.
    Unknown,
    /// It has this time, in seconds, and its sender waits for its turn.
    At(u64),
    /// It is ahead of the system's clock, and its sender waits for the clock.
    Ahead,
}

/// The progress of a feed, as the other senders see it.
#[derive(Clone, Copy)]
struct Standing {
    is_behind: bool,
    /// Whether the feed was behind as it ended.
    ended_behind: bool,
    next: Next,
    /// The start of the read in which the reader of a stream is; `None` outside a read, and always for a file.
    reading: Option<Instant>,
    /// The start of the first read of a stream.
    first: Option<Instant>,
}

impl Standing {
    /// Whether by `now` a read of the stream has returned nothing for [`QUIET`] milliseconds, or the first read began
    /// [`LONGEST`] milliseconds ago.
    ///
    /// Believed: both limits are kept to the millisecond (premise 9; tests of `backlog`).
    fn has_waited(&self, now: Instant) -> bool {
        let lasts = |since: Option<Instant>, limit: u64| match since {
            Some(since) => now.duration_since(since) >= Duration::from_millis(limit),
            None => false,
        };
        lasts(self.reading, QUIET) || lasts(self.first, LONGEST)
    }

    /// The place in the order of the next command of the feed `number`, while other senders have to wait for it; else
    /// `None`. A command that is not read yet comes before all others.
    fn place(&self, number: usize) -> Option<(u64, usize)>
        ensures behind { self.now.is_behind ≡ false → result ≡ None }
        ensures ahead { self.now.next ≡ Ahead → result ≡ None }
        ensures number { IfSome result (λ place. place.1 ≡ number) }
    {
        match self.next {
            _ if !self.is_behind => None,
            Next::Unknown => Some((0, number)),
            Next::At(time) => Some((time.saturating_add(1), number)),
            Next::Ahead => None,
        }
    }
}

/// The first place in the order among the feeds that are behind, other than the feed `but`; `None` where there is no
/// such place to wait for.
///
/// Believed: it is the smallest of these places (tests of `backlog`, follow-backlog).
fn first_place(feeds: &[Standing], but: usize) -> Option<(u64, usize)> {
    let mut first = None;
    for (number, feed) in feeds.iter().enumerate() {
        if number == but {
            continue;
        }
        let Some(place) = feed.place(number) else {
            continue;
        };
        first = match first {
            Some(before) if before < place => Some(before),
            _ => Some(place),
        };
    }
    first
}

/// Whether a command of `time` of the feed `number` may be sent: no other feed that is behind comes first.
///
/// Believed: once the next command of each feed that is behind is read, true of the first of them alone (tests of
/// `backlog`, follow-backlog).
fn is_first(feeds: &[Standing], number: usize, time: u64) -> bool {
    match first_place(feeds, number) {
        Some(place) => (time.saturating_add(1), number) < place,
        None => true,
    }
}

/// The feeds of a run that are behind, with the progress of each feed.
#[derive(Drop)]
pub struct Backlog {
    /// The number of feeds that are behind.
    behind: AtomicU64,
    /// The feeds of the run, in order of their numbers.
    feeds: Mutex<Vec<Standing>>,
    /// For each feed, the condition variable on which its sender waits for its turn.
    turns: Vec<Condvar>,
}

impl Backlog {
    /// The backlog of a run in which each feed of `given` is behind; the clock feed, which is not in `given`, is not
    /// behind. Fails if memory runs out.
    ///
    /// Believed: each command waits until the next command of each other feed is read (premise 11; tests of `backlog`).
    pub fn new(alloc: Global, given: &[Numbered<'_>]) -> Result<Backlog, Memory> {
        let count = given.len().saturating_add(1);
        let current = Standing {
            is_behind: false,
            ended_behind: false,
            next: Next::Unknown,
            reading: None,
            first: None,
        };
        let mut feeds = Vec::from_elem(alloc, current, count)?;
        let mut turns = Vec::with_capacity(alloc, count)?;
        for _ in 0..count {
            turns.push(Condvar::new())?;
        }
        for feed in given {
            if let Some(standing) = feeds.get_mut(feed.number as usize) {
                standing.is_behind = true;
            }
        }
        Ok(Backlog {
            behind: AtomicU64::new(given.len() as u64),
            feeds: Mutex::new(feeds),
            turns,
        })
    }

    /// Whether no feed is behind any more.
    ///
    /// Believed: true once each feed has caught up (premise 11; follow-backlog).
    pub fn is_over(&self) -> bool {
        self.behind.load(Ordering::SeqCst) == 0
    }

    /// Wakes each sender that waits and whose turn it is now.
    ///
    /// Believed: a sender whose turn has come does not wait for the rest of [`BETWEEN`] (premise 11; no example measures
    /// the wait).
    fn call_next(&self, feeds: &[Standing]) {
        let first = first_place(feeds, usize::MAX);
        for (number, feed) in feeds.iter().enumerate() {
            let Next::At(time) = feed.next else {
                continue;
            };
            let is_due = match first {
                Some(place) => (time.saturating_add(1), number) <= place,
                None => true,
            };
            if let (true, Some(turn)) = (is_due, self.turns.get(number)) {
                turn.notify_one();
            }
        }
    }

    /// Marks the feed as no longer behind; does nothing where it was not behind.
    fn release(&self, feed: &mut Standing)
        ensures { feed.new.is_behind ≡ false }
    {
        if feed.is_behind {
            feed.is_behind = false;
            self.behind.fetch_sub(1, Ordering::SeqCst);
        }
    }

    /// Releases each stream that has waited long enough for bytes.
    ///
    /// Believed: as [`Standing::has_waited`], and without a clock no sender waits for a stream (tests of `backlog`,
    /// follow-backlog).
    fn release_streams<C: Clock>(&self, rt: &C, feeds: &mut [Standing]) {
        let now = Instant::now(rt);
        for feed in feeds.iter_mut() {
            let has_waited = match now {
                Ok(now) => feed.has_waited(now),
                Err(_) => feed.reading.is_some(),
            };
            if has_waited {
                self.release(feed);
            }
        }
    }

    /// Marks the feed as no longer behind, since its reader has waited for bytes or it has ended. Wakes the senders
    /// whose turn it is then.
    ///
    /// Believed: no sender waits for the feed any more (premise 11; follow-backlog).
    pub fn catch_up<W: Wait>(&self, rt: &W, feed: u64) {
        if self.is_over() {
            return;
        }
        let mut feeds = self.feeds.lock(rt);
        if let Some(standing) = feeds.get_mut(feed as usize) {
            self.release(standing);
        }
        self.call_next(&feeds);
    }

    /// Marks the feed as no longer behind, since it has ended. Otherwise as [`catch_up`](Backlog::catch_up).
    ///
    /// Believed: a feed that ended while it was behind is behind again in the next run (premise 11; no example has such
    /// a feed).
    pub fn end<W: Wait>(&self, rt: &W, feed: u64) {
        if self.is_over() {
            return;
        }
        if let Some(standing) = self.feeds.lock(rt).get_mut(feed as usize) {
            standing.ended_behind = standing.is_behind;
        }
        self.catch_up(rt, feed);
    }

    /// Whether the reader of the feed has waited for bytes, so that in a later run of the process the feed is not behind.
    ///
    /// Believed: false where the feed ended before (premise 11; rotation).
    pub fn has_caught_up<W: Wait>(&self, rt: &W, feed: u64) -> bool {
        match self.feeds.lock(rt).get(feed as usize) {
            Some(standing) => !standing.is_behind && !standing.ended_behind,
            None => true,
        }
    }

    /// Records that the reader of a stream begins a read.
    ///
    /// Believed: until [`end_read`](Backlog::end_read) the read counts as one that returns nothing (premise 11; tests of
    /// `backlog`, follow-backlog).
    pub fn begin_read<W: Wait, C: Clock>(&self, rt: &W, clock: &C, feed: u64) {
        if self.is_over() {
            return;
        }
        let Ok(now) = Instant::now(clock) else {
            // Without a clock no sender waits for a stream.
            self.catch_up(rt, feed);
            return;
        };
        if let Some(standing) = self.feeds.lock(rt).get_mut(feed as usize) {
            standing.reading = Some(now);
            standing.first = standing.first.or(Some(now));
        }
    }

    /// Records that the reader of a stream has ended a read.
    ///
    /// Believed: the time until the next read does not count as waiting for bytes (premise 11; tests of `backlog`).
    pub fn end_read<W: Wait>(&self, rt: &W, feed: u64) {
        if self.is_over() {
            return;
        }
        if let Some(standing) = self.feeds.lock(rt).get_mut(feed as usize) {
            standing.reading = None;
        }
    }

    /// Releases the streams that have waited long enough, and returns whether the only feeds still behind, if any, are
    /// those whose command waits for the system's clock.
    ///
    /// Believed: true once each feed has caught up or waits for the clock (premises 9 and 11; tests of `backlog`,
    /// follow-backlog).
    pub fn has_ended<W: Wait, C: Clock>(&self, rt: &W, clock: &C) -> bool {
        if self.is_over() {
            return true;
        }
        let mut feeds = self.feeds.lock(rt);
        self.release_streams(clock, &mut feeds);
        self.call_next(&feeds);
        first_place(&feeds, usize::MAX).is_none()
    }

    /// Whether this feed's command of `time`, in seconds, must wait for a command of another feed.
    ///
    /// Believed: a command has to wait exactly while a feed that is behind may send one that comes first (premise 11;
    /// follow-backlog).
    pub fn must_wait<W: Wait>(&self, rt: &W, feed: u64, time: u64) -> bool {
        !self.is_over() && !is_first(&self.feeds.lock(rt), feed as usize, time)
    }

    /// Records that the sender of this feed waits for the system's clock, so that no other sender waits for this feed.
    ///
    /// Believed: a command that is ahead holds up no other feed (premise 11; follow-backlog).
    pub fn step_aside<W: Wait>(&self, rt: &W, feed: u64) {
        if self.is_over() {
            return;
        }
        let mut feeds = self.feeds.lock(rt);
        if let Some(standing) = feeds.get_mut(feed as usize) {
            standing.next = Next::Ahead;
        }
        self.call_next(&feeds);
    }

    /// Records that the next command of this feed has `time`, in seconds, and returns true where it may be sent.
    /// Otherwise waits until the turn of the feed may have come, at most [`BETWEEN`] milliseconds, and returns false.
    ///
    /// Believed: of all senders that wait, the one whose command comes first is woken (premises 9 and 11;
    /// follow-backlog).
    pub fn await_turn<R: Wait + Clock>(&self, rt: &R, feed: u64, time: u64) -> bool {
        if self.is_over() {
            return true;
        }
        let number = feed as usize;
        let mut feeds = self.feeds.lock(rt);
        self.release_streams(rt, &mut feeds);
        let may_go = is_first(&feeds, number, time);
        if let Some(standing) = feeds.get_mut(number) {
            standing.next = if may_go {
                Next::Unknown
            } else {
                Next::At(time)
            };
        }
        if may_go {
            return true;
        }
        self.call_next(&feeds);
        if let Some(turn) = self.turns.get(number) {
            turn.wait_timeout(rt, feeds, Duration::from_millis(BETWEEN));
        }
        false
    }
}

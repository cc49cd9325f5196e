//! The things that a run leaves to the next run in the same process: each file and pipe, held open, and the bytes that
//! were read from a pipe and not passed on.
use super::signal::Signal;
use super::ticking::Seen;
use cmd_types::Memory;
use std::alloc::Global;
use std::rt::Files;
use std::sync::Wait;

/// What a run leaves to the next one, for each feed and for the thread of the clock feed.
#[derive(Drop)]
pub struct CarriedRun<F: Drop> {
    feeds: Vec<Carried<F>>,
    seen: Seen,
}

/// What a run leaves of one feed.
#[derive(Drop)]
struct Carried<F: Drop> {
    /// The number of the feed.
    feed: u64,
    left: Vec<u8>,
    held: Option<F>,
    /// The files that got the name of the feed later.
    later: Vec<F>,
    /// Whether the file of the feed is no longer read, and another file has its name.
    is_replaced: bool,
    /// Whether it was printed that the file of the feed has lost its name.
    is_removed: bool,
    /// Whether it was printed that the feed is absent.
    is_absent: bool,
    /// Whether a command of the feed was left to the next run.
    is_left: bool,
    /// Whether the reader of the feed has waited for bytes, so that the feed is not behind any more.
    has_caught_up: bool,
}

/// Takes from a run what it leaves to the next one. The error is out of memory.
///
/// Believed: no byte that a pipe holds is lost (premise 10; rotation).
pub fn take_carried<R: Files + Wait>(
    rt: &R,
    alloc: Global,
    signal: &Signal<'_, R>,
) -> Result<CarriedRun<R::File>, Memory> {
    let mut feeds = Vec::with_capacity(alloc, signal.gates.len())?;
    for gate in &signal.gates {
        feeds.push(Carried {
            feed: gate.feed,
            left: gate.take_bytes(rt, alloc),
            held: gate.take_held(rt),
            later: gate.take_later(rt, alloc),
            is_replaced: gate.is_replaced.is_set(),
            is_removed: gate.is_removed.is_set() && !gate.is_replaced.is_set(),
            is_absent: gate.is_absent.is_set(),
            is_left: gate.is_left.is_set(),
            has_caught_up: signal.backlog.has_caught_up(rt, gate.feed),
        })?;
    }
    let seen = *signal.seen.lock(rt);
    Ok(CarriedRun { feeds, seen })
}

/// Passes to a run that has not begun what the previous run left.
///
/// Believed: as [`take_carried`] (rotation).
pub fn give_carried<R: Files + Wait>(rt: &R, signal: &Signal<'_, R>, carried: CarriedRun<R::File>) {
    let CarriedRun { feeds, seen } = carried;
    *signal.seen.lock(rt) = seen;
    for carried in feeds {
        let Carried {
            feed,
            left,
            held,
            later,
            is_replaced,
            is_removed,
            is_absent,
            is_left,
            has_caught_up,
        } = carried;
        let Some(gate) = signal.gates.iter().find(|gate| gate.feed == feed) else {
            continue;
        };
        gate.give_bytes(rt, left);
        gate.hold(rt, held);
        gate.add_later(rt, later);
        gate.is_old_read.store(is_replaced);
        gate.is_removed.store(is_removed);
        gate.is_absent.store(is_absent);
        gate.is_left.store(is_left);
        if has_caught_up {
            signal.backlog.catch_up(rt, feed);
        }
    }
}

//! The order of the commands that waited before a run: which of them waits for which, and until when.
use cmd_live::{Backlog, number_feeds};
use cmd_types::Memory;
use std::alloc::Global;
use std::io;
use std::sync::atomic::{AtomicU64, Ordering};
use std::test::Fail;
use std::time::{Clock, Duration};

/// A clock that is set by hand, in milliseconds.
#[derive(Drop)]
struct Hands {
    now: AtomicU64,
}

impl Clock for Hands {
    fn monotonic(&self) -> io::Result<Duration> {
        Ok(Duration::from_millis(self.now.load(Ordering::SeqCst)))
    }

    fn since_1970(&self) -> io::Result<Duration> {
        self.monotonic()
    }
}

/// The backlog of two feeds, which are both behind.
fn two_feeds(alloc: Global) -> Result<Backlog, Memory> {
    let feeds = number_feeds(alloc, &["work", "checks"])?;
    Backlog::new(alloc, &feeds)
}

#[test]
fn a_command_waits_for_those_before_it(rt: HostRuntime) -> Result<(), Fail> {
    let backlog = two_feeds(rt.alloc())?;
    // The next command of the other feed is not read yet.
    assert!(rt; backlog.must_wait(&rt, 0, 7) && backlog.must_wait(&rt, 1, 7));
    assert!(rt; !backlog.await_turn(&rt, 0, 7));
    assert!(rt; !backlog.must_wait(&rt, 1, 6));
    // For equal times the feed with the smaller number comes first.
    assert!(rt; backlog.must_wait(&rt, 1, 7) && backlog.must_wait(&rt, 1, 8));
    assert!(rt; !backlog.await_turn(&rt, 1, 7));
    assert!(rt; backlog.await_turn(&rt, 0, 7));
    // The command is about to be sent, and the next one may come first too.
    assert!(rt; backlog.must_wait(&rt, 1, 7) && !backlog.await_turn(&rt, 1, 7));
    Ok(())
}

#[test]
fn nobody_waits_for_a_feed_that_has_caught_up(rt: HostRuntime) -> Result<(), Fail> {
    let backlog = two_feeds(rt.alloc())?;
    backlog.catch_up(&rt, 0);
    assert!(rt; !backlog.must_wait(&rt, 1, 7) && backlog.await_turn(&rt, 1, 7));
    // This command waits for the other feed, as the clock does.
    assert!(rt; backlog.must_wait(&rt, 0, 7) && !backlog.has_ended(&rt, &rt));
    backlog.catch_up(&rt, 0);
    assert!(rt; !backlog.is_over());
    backlog.catch_up(&rt, 1);
    assert!(rt; backlog.is_over() && backlog.has_ended(&rt, &rt));
    assert!(rt; !backlog.must_wait(&rt, 0, 7) && backlog.await_turn(&rt, 0, 7));
    Ok(())
}

#[test]
fn nobody_waits_for_a_feed_that_waits_for_the_clock(rt: HostRuntime) -> Result<(), Fail> {
    let backlog = two_feeds(rt.alloc())?;
    backlog.step_aside(&rt, 0);
    assert!(rt; !backlog.must_wait(&rt, 1, 7) && backlog.await_turn(&rt, 1, 7));
    // Afterwards it takes its turn again.
    assert!(rt; !backlog.await_turn(&rt, 0, 5));
    assert!(rt; backlog.must_wait(&rt, 1, 6));
    Ok(())
}

/// Nor does the clock feed.
#[test]
fn the_clock_waits_for_no_feed_that_waits_for_the_clock(rt: HostRuntime) -> Result<(), Fail> {
    let clock = Hands {
        now: AtomicU64::new(1_000),
    };
    let backlog = two_feeds(rt.alloc())?;
    backlog.step_aside(&rt, 0);
    assert!(rt; !backlog.has_ended(&rt, &clock));
    backlog.catch_up(&rt, 1);
    assert!(rt; backlog.has_ended(&rt, &clock) && !backlog.is_over());
    // Afterwards the feed is behind again.
    assert!(rt; backlog.await_turn(&rt, 0, 5) && !backlog.has_ended(&rt, &clock));
    Ok(())
}

#[test]
fn a_stream_is_behind_until_it_is_quiet(rt: HostRuntime) -> Result<(), Fail> {
    let clock = Hands {
        now: AtomicU64::new(1_000),
    };
    let backlog = two_feeds(rt.alloc())?;
    backlog.catch_up(&rt, 1);
    backlog.begin_read(&rt, &clock, 0);
    clock.now.store(1_199, Ordering::SeqCst);
    assert!(rt; !backlog.has_ended(&rt, &clock));
    // Between two reads its sender works, for any time.
    backlog.end_read(&rt, 0);
    clock.now.store(2_000, Ordering::SeqCst);
    assert!(rt; !backlog.has_ended(&rt, &clock));
    backlog.begin_read(&rt, &clock, 0);
    clock.now.store(2_199, Ordering::SeqCst);
    assert!(rt; !backlog.has_ended(&rt, &clock));
    clock.now.store(2_200, Ordering::SeqCst);
    assert!(rt; backlog.has_ended(&rt, &clock));
    Ok(())
}

#[test]
fn a_stream_that_always_has_more_is_behind_for_ten_seconds(rt: HostRuntime) -> Result<(), Fail> {
    let clock = Hands {
        now: AtomicU64::new(0),
    };
    let backlog = two_feeds(rt.alloc())?;
    backlog.catch_up(&rt, 1);
    for tenth in 0..100 {
        clock.now.store(tenth * 100, Ordering::SeqCst);
        backlog.begin_read(&rt, &clock, 0);
        assert!(rt; !backlog.has_ended(&rt, &clock));
        backlog.end_read(&rt, 0);
    }
    clock.now.store(9_999, Ordering::SeqCst);
    assert!(rt; !backlog.has_ended(&rt, &clock));
    clock.now.store(10_000, Ordering::SeqCst);
    assert!(rt; backlog.has_ended(&rt, &clock));
    Ok(())
}

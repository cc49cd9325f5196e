//! Runs that keep what they take: what is in the store, also after a crash and where a call fails.
ghost use Rattle.cmd_store.specs.Stores.{Left};

use super::followed::{LIMITS, Run, TWO, TWO_ATTENDED, attendants, check_faults, check_feed};
use super::{Fail, Gated, OPTIONS, feeds, inventory};
use crate::{
    Ending, Feed, Feeding, Keeper, Nobody, Observer, OneSegment, RunCause, RunOptions,
    follow_stored,
};
use cmd_journal::Past;
use cmd_ledger::Ledger;
use cmd_store::{InMemory, Store, StoreFailed, Unsynced};
use mon_engine::Monitor;
use std::alloc::{AllocGlobal, Global};
use std::sync::Wait;
use std::sync::atomic::{AtomicU32, Ordering};
use std::thread::Threads;

const TEXT: &[u8] = b"[7] DEL_HOST_COMMENT;9\nx\n[9] DEL_SVC_COMMENT;9\n";

const HEADING: &[u8] = b"journal;2\n";

const LINES: &[u8] = b"journal;2\n7 0 1 [7] DEL_HOST_COMMENT;9\n9 0 2 [9] DEL_SVC_COMMENT;9\n";

const TOLD: &[u8] = b"rejected;0;1;4\nrejected;0;2;4\n";

/// A ledger of no entry.
pub(super) fn ledger(alloc: Global) -> Result<Ledger, Fail> {
    let monitor = Monitor::new(alloc, inventory(alloc)?)?;
    Ok(Ledger::new(alloc, monitor, Past::new(), None)?)
}

/// A store with an empty segment 0.
pub(super) fn store(alloc: Global) -> Result<InMemory, Fail> {
    let mut store = InMemory::found(alloc, None, Vec::new(alloc));
    store.open_segment(alloc, 0)?;
    store.append_journal(HEADING)?;
    store.sync_journal()?;
    Ok(store)
}

/// The result of a run that keeps what the feeds send.
pub(super) fn kept_by<F: Feed, S: Store + Drop, R: AllocGlobal + Threads + Wait + Sync>(
    rt: &R,
    ledger: Ledger,
    readers: Vec<F>,
    options: RunOptions,
    store: S,
) -> Result<(Run, S), Fail>
    requires { (left : Left) → S.allows left }
{
    let alloc = rt.alloc();
    let attendants = attendants(alloc, readers.len())?;
    let keeper = Keeper {
        store,
        checkpoint: OneSegment,
        observer: Nobody,
    };
    let feeding = Feeding {
        readers,
        attendants,
        options,
    };
    Ok(follow_stored(rt, alloc, ledger, feeding, keeper))
}

/// The cause by which a run over the text fails, or `None`, and the store afterwards.
fn run_of<R: AllocGlobal + Threads + Wait + Sync>(
    rt: &R,
    ledger: Ledger,
    options: RunOptions,
    store: InMemory,
) -> Result<(Option<RunCause>, InMemory), Fail> {
    let readers = feeds(rt.alloc(), &[TEXT])?;
    let (run, store) = kept_by(rt, ledger, readers, options, store)?;
    match run {
        Ok(_) => Ok((None, store)),
        Err(fault) => Ok((Some(fault.cause), store)),
    }
}

/// The journal and the told lines that a crash leaves of the only segment.
fn left(alloc: Global, store: &InMemory, unsynced: Unsynced) -> Result<(Vec<u8>, Vec<u8>), Fail> {
    let left = store.crashed(alloc, unsynced, b"")?;
    let [segment] = left.segments() else {
        return Err(Fail::new("there is one segment"));
    };
    Ok((
        segment.journal().to_vec(alloc)?,
        segment.told().to_vec(alloc)?,
    ))
}

#[test]
fn all_is_kept_and_told(rt: HostRuntime) -> Result<(), Fail> {
    let alloc = rt.alloc();
    let (cause, store) = run_of(&rt, ledger(alloc)?, OPTIONS, store(alloc)?)?;
    assert!(rt; cause.is_none());
    assert_eq!(rt; store.output(), TOLD);
    let (journal, told) = left(alloc, &store, Unsynced::Written)?;
    assert_eq!(rt; journal.as_slice(), LINES);
    assert_eq!(rt; told.as_slice(), TOLD);
    // The told lines are not synced: they can be printed again from the journal.
    let (journal, told) = left(alloc, &store, Unsynced::Lost)?;
    assert_eq!(rt; journal.as_slice(), LINES);
    assert!(rt; told.is_empty());
    Ok(())
}

#[test]
fn places_and_the_clock_go_on(rt: HostRuntime) -> Result<(), Fail> {
    let alloc = rt.alloc();
    let mut later = ledger(alloc)?;
    later.past = Past::at(8).with_sender(0, 5);
    let (cause, store) = run_of(&rt, later, OPTIONS, store(alloc)?)?;
    assert!(rt; cause.is_none());
    assert_eq!(rt;
        store.output(),
        b"rejected;0;6;4\nrejected;0;7;4\n".as_slice()
    );
    let (journal, _) = left(alloc, &store, Unsynced::Lost)?;
    assert_eq!(rt;
        journal.as_slice(),
        b"journal;2\n8 0 6 [7] DEL_HOST_COMMENT;9\n9 0 7 [9] DEL_SVC_COMMENT;9\n".as_slice()
    );
    Ok(())
}

#[test]
fn nothing_is_told_of_lines_that_were_not_written(rt: HostRuntime) -> Result<(), Fail> {
    let alloc = rt.alloc();
    let failing = store(alloc)?.failing_at(1);
    let (cause, store) = run_of(&rt, ledger(alloc)?, OPTIONS, failing)?;
    assert!(rt; cause == Some(RunCause::Output));
    assert!(rt; store.output().is_empty());
    let (journal, told) = left(alloc, &store, Unsynced::Written)?;
    assert!(rt; LINES.starts_with(&journal) && journal.len() > HEADING.len());
    assert!(rt; told.is_empty());
    Ok(())
}

#[test]
fn nothing_is_told_of_lines_that_were_not_synced(rt: HostRuntime) -> Result<(), Fail> {
    let alloc = rt.alloc();
    let failing = store(alloc)?.failing_at(2);
    let (cause, store) = run_of(&rt, ledger(alloc)?, OPTIONS, failing)?;
    assert!(rt; cause == Some(RunCause::Output));
    assert!(rt; store.output().is_empty());
    let (journal, told) = left(alloc, &store, Unsynced::Lost)?;
    assert_eq!(rt; journal.as_slice(), HEADING);
    assert!(rt; told.is_empty());
    Ok(())
}

#[test]
fn what_the_output_got_stands_in_the_journal(rt: HostRuntime) -> Result<(), Fail> {
    let alloc = rt.alloc();
    let failing = store(alloc)?.failing_at(3);
    let (cause, store) = run_of(&rt, ledger(alloc)?, OPTIONS, failing)?;
    assert!(rt; cause == Some(RunCause::Output));
    assert!(rt; TOLD.starts_with(store.output()) && !store.output().is_empty());
    let (journal, told) = left(alloc, &store, Unsynced::Lost)?;
    assert_eq!(rt; journal.as_slice(), LINES);
    assert!(rt; told.is_empty());
    Ok(())
}

#[test]
fn lines_are_told_before_they_are_noted_as_told(rt: HostRuntime) -> Result<(), Fail> {
    let alloc = rt.alloc();
    let failing = store(alloc)?.failing_at(4);
    let (cause, store) = run_of(&rt, ledger(alloc)?, OPTIONS, failing)?;
    assert!(rt; cause == Some(RunCause::Output));
    // The third call has written both lines.
    assert_eq!(rt; store.output(), TOLD);
    let (journal, told) = left(alloc, &store, Unsynced::Written)?;
    assert_eq!(rt; journal.as_slice(), LINES);
    assert!(rt; TOLD.starts_with(&told) && told.len() < TOLD.len());
    Ok(())
}

/// Both commands are of one message. Where the second is one too many, the first is kept.
#[test]
fn a_segment_has_its_limit(rt: HostRuntime) -> Result<(), Fail> {
    let alloc = rt.alloc();
    let limits: &[(u32, Option<RunCause>, &[u8], &[u8])] = &[
        (
            1,
            Some(RunCause::JournalFull),
            b"journal;2\n7 0 1 [7] DEL_HOST_COMMENT;9\n",
            b"rejected;0;1;4\n",
        ),
        (2, None, LINES, TOLD),
    ];
    for (limit, fault, lines, told) in limits {
        let options = RunOptions {
            limit: *limit,
            ..OPTIONS
        };
        let (cause, store) = run_of(&rt, ledger(alloc)?, options, store(alloc)?)?;
        assert!(rt; cause == *fault);
        assert_eq!(rt; store.output(), *told);
        let (journal, _) = left(alloc, &store, Unsynced::Lost)?;
        assert_eq!(rt; journal.as_slice(), *lines);
    }
    Ok(())
}

/// A line of the journal of one of the commands. The sender, one digit, is replaced by that of the feed.
const LINE: &[u8] = b"7 0 1 [7] SEND_CUSTOM_HOST_NOTIFICATION;web;0;bob;x\n";

/// A line that one of the commands prints.
const NOTICE: &[u8] = b"notice;7;CUSTOM;web;;UP;0;ann\n";

#[test]
fn as_many_commands_are_kept_as_the_limit(rt: HostRuntime) -> Result<(), Fail> {
    let alloc = rt.alloc();
    for (feeds_of, limit, told, faults) in LIMITS {
        let options = RunOptions {
            limit: *limit,
            ..OPTIONS
        };
        let readers = feeds(alloc, feeds_of)?;
        let (run, store) = kept_by(&rt, ledger(alloc)?, readers, options, store(alloc)?)?;
        check_faults(&rt, &run, faults);
        assert_eq!(rt; store.output(), *told);
        let (journal, _) = left(alloc, &store, Unsynced::Lost)?;
        let kept = told.len() / NOTICE.len();
        assert_eq!(rt; journal.len(), HEADING.len() + kept * LINE.len());
    }
    Ok(())
}

#[test]
fn each_feed_of_a_run_that_keeps_is_attended_by_its_own(rt: HostRuntime) -> Result<(), Fail> {
    let alloc = rt.alloc();
    let readers = feeds(alloc, TWO)?;
    let (run, _) = kept_by(&rt, ledger(alloc)?, readers, OPTIONS, store(alloc)?)?;
    let Ok(run) = run else {
        return Err(Fail::new("a run"));
    };
    assert_eq!(rt; run.feeds.len(), TWO_ATTENDED.len());
    for (feed, attended) in run.feeds.iter().zip(TWO_ATTENDED) {
        check_feed(&rt, feed, attended);
    }
    Ok(())
}

/// An observer that counts the messages and adds up the numbers of the causes. It fails at the first message, or never.
#[derive(Drop)]
struct CountingObserver<'a> {
    messages: &'a AtomicU32,
    causes: &'a AtomicU32,
    fails: bool,
}

impl Observer for CountingObserver<'_> {
    ghost sees = { λ _ _. Unit {0} };

    ghost has_failed = { Unit {0} };

    fn stored<S: Store>(&mut self, _store: &S, _monitor: &Monitor) -> Result<(), StoreFailed> {
        self.messages.fetch_add(1, Ordering::SeqCst);
        if self.fails {
            Err(StoreFailed::Failed)
        } else {
            Ok(())
        }
    }

    fn failed(&mut self, cause: RunCause) {
        self.causes
            .fetch_add(u32::from(cause.number()), Ordering::SeqCst);
    }
}

/// The feed ends only once the observer has got the cause of the failure. Nothing was stored, so no message is shown.
#[test]
fn the_observer_is_told_while_the_feed_waits(rt: HostRuntime) -> Result<(), Fail> {
    let alloc = rt.alloc();
    let (reads, messages, causes) = (AtomicU32::new(0), AtomicU32::new(0), AtomicU32::new(0));
    let mut readers = Vec::new(alloc);
    readers.push(Gated {
        own: &reads,
        other: &causes,
        due: 0,
        left: 1,
    })?;
    let attendants = attendants(alloc, readers.len())?;
    let ledger = ledger(alloc)?;
    let keeper = Keeper {
        store: store(alloc)?.failing_at(1),
        checkpoint: OneSegment,
        observer: CountingObserver {
            messages: &messages,
            causes: &causes,
            fails: false,
        },
    };
    let feeding = Feeding {
        readers,
        attendants,
        options: OPTIONS,
    };
    let (run, _) = follow_stored(&rt, alloc, ledger, feeding, keeper);
    let Err(fault) = run else {
        return Err(Fail::new("a fault"));
    };
    assert!(rt; fault.cause == RunCause::Output);
    assert_eq!(rt; fault.feeds.len(), 1);
    assert!(rt; fault.feeds[0].report.ending == Ending::Whole);
    // Once, and with this cause.
    assert_eq!(rt;
        causes.load(Ordering::SeqCst),
        u32::from(RunCause::Output.number())
    );
    assert_eq!(rt; messages.load(Ordering::SeqCst), 0);
    Ok(())
}

#[test]
fn a_run_fails_by_its_observer_behind_a_message_that_is_kept(rt: HostRuntime) -> Result<(), Fail> {
    let alloc = rt.alloc();
    for (fails, fault) in [(false, None), (true, Some(RunCause::Output))] {
        let (messages, causes) = (AtomicU32::new(0), AtomicU32::new(0));
        let readers = feeds(alloc, &[TEXT])?;
        let attendants = attendants(alloc, readers.len())?;
        let ledger = ledger(alloc)?;
        let keeper = Keeper {
            store: store(alloc)?,
            checkpoint: OneSegment,
            observer: CountingObserver {
                messages: &messages,
                causes: &causes,
                fails,
            },
        };
        let feeding = Feeding {
            readers,
            attendants,
            options: OPTIONS,
        };
        let (run, store) = follow_stored(&rt, alloc, ledger, feeding, keeper);
        let cause = match run {
            Ok(_) => None,
            Err(fault) => Some(fault.cause),
        };
        assert!(rt; cause == fault);
        assert_eq!(rt; messages.load(Ordering::SeqCst), 1);
        assert_eq!(rt; store.output(), TOLD);
        let (journal, _) = left(alloc, &store, Unsynced::Lost)?;
        assert_eq!(rt; journal.as_slice(), LINES);
    }
    Ok(())
}

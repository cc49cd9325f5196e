//! Runs that print while they run: how much is printed, by which teller, and when.
ghost use Rattle.std.specs.Prelude.{◌≡◌, ℕ, List, Option, Some, IfOk, length};
ghost use Rattle.cmd_types.specs.declared.entry.Entry.{Entry};
ghost use Rattle.cmd_journal.specs.Journals.{IsJournal};
ghost use Rattle.mon_inventory.specs.Configuration.{Configuration};
ghost use Rattle.mon_engine.specs.World.{initial};
ghost use Rattle.mon_engine.specs.Telling.{told_text};
ghost use Rattle.cmd_dispatch.specs.Delivered.{BeginsWith};

use super::{Fail, Gated, OPTIONS, Told, check_sender, feeds, inventory};
use crate::{
    Attendant, Audience, Ending, Feed, Feeding, FollowFault, Followed, FollowedFeed, RunCause,
    RunOptions, TellFailed, Teller, follow,
};
use cmd_lines::LineFault;
use cmd_types::Memory;
use std::alloc::{AllocError, AllocGlobal, Global};
use std::process::Abort;
use std::sync::Wait;
use std::sync::atomic::{AtomicU32, Ordering};
use std::thread::Threads;

/// A call of an attendant.
#[derive(Clone, Copy, PartialEq, Eq)]
pub(super) enum AttendantCall {
    Refuse(u64, LineFault),
    WaitFor(u64, u64),
    Ended(Ending),
}

/// An attendant that lists its calls. A command of a time above 100 has to wait, and one of a time above 1,000,000 is
/// held back for good.
#[derive(Drop)]
pub(super) struct Recording {
    number: usize,
    calls: Vec<AttendantCall>,
}

impl Attendant for Recording {
    ghost has_taken = { λ _ _. Unit {0} };

    fn refuse(&mut self, line: u64, fault: LineFault) -> Result<(), Memory> {
        self.calls.push(AttendantCall::Refuse(line, fault))?;
        Ok(())
    }

    fn must_wait(&mut self, time: u64) -> bool {
        time > 100
    }

    fn wait_for(&mut self, time: u64, line: u64) -> Result<(), Memory> {
        self.calls.push(AttendantCall::WaitFor(time, line))?;
        if time > 1_000_000 {
            return Err(AllocError);
        }
        Ok(())
    }

    fn ended(&mut self, ending: Ending) {
        self.calls.push(AttendantCall::Ended(ending)).ok();
    }
}

/// The attendants with the numbers from 0 to `count` - 1.
pub(super) fn attendants(alloc: Global, count: usize) -> Result<Vec<Recording>, Memory>
    ensures { IfOk result (λ all. length all.items ≡ count) }
{
    let mut all = Vec::new(alloc);
    'numbers: for number in 0..count {
        all.push(Recording {
            number,
            calls: Vec::new(alloc),
        })?;
    }
    Ok(all)
}

/// A teller that keeps the text and the cause of the failure, and shows the number of texts it took. It allows no text
/// but the first bytes of what some journal prints.
#[derive(Drop)]
struct KeepingTeller<'a> {
    text: Vec<u8>,
    faults: Vec<RunCause>,
    texts: &'a AtomicU32,
}

impl Teller for KeepingTeller<'_> {
    ghost told = { λ keeping. Some keeping.text.items };

    ghost allows = { λ text. (inv : Configuration) × (clock : Option ℕ) × (journal : List Entry)
        × IsJournal journal × BeginsWith (told_text inv clock (initial inv) journal) text };

    ghost has_failed = { Unit {0} };

    fn tell(&mut self, text: &[u8]) -> Result<(), TellFailed> {
        let told = self.text.tell(text);
        self.texts.fetch_add(1, Ordering::SeqCst);
        told
    }

    fn failed(&mut self, cause: RunCause) {
        self.faults.push(cause).ok();
    }
}

/// The result of a run that prints.
pub(super) type Run = Result<Followed<Recording>, FollowFault<Recording>>;

/// Follows feeds over the inventory, with a limit.
fn followed<'a, F: Feed, R: Threads + Wait + Sync>(
    rt: &R,
    alloc: Global,
    readers: Vec<F>,
    limit: u32,
    texts: &'a AtomicU32,
) -> Result<(Run, KeepingTeller<'a>), Memory> {
    let attendants = attendants(alloc, readers.len())?;
    let teller = KeepingTeller {
        text: Vec::new(alloc),
        faults: Vec::new(alloc),
        texts,
    };
    let options = RunOptions { limit, ..OPTIONS };
    let inventory = inventory(alloc)?;
    let feeding = Feeding {
        readers,
        attendants,
        options,
    };
    let audience = Audience {
        teller,
        clock: None,
    };
    Ok(follow(rt, alloc, inventory, feeding, audience))
}

/// One command, which prints a notice.
const CUSTOM: &[u8] = b"[7] SEND_CUSTOM_HOST_NOTIFICATION;web;0;bob;x\n";

/// Feeds, the limit, the printed text, and the cause of the failure.
pub(super) const LIMITS: &[(&[&[u8]], u32, &[u8], &[RunCause])] = &[
    (
        &[CUSTOM, CUSTOM],
        2,
        b"notice;7;CUSTOM;web;;UP;0;ann\nnotice;7;CUSTOM;web;;UP;0;ann\n",
        &[],
    ),
    (
        &[CUSTOM, CUSTOM],
        1,
        b"notice;7;CUSTOM;web;;UP;0;ann\n",
        &[RunCause::JournalFull],
    ),
    (
        &[CUSTOM, CUSTOM, CUSTOM],
        3,
        b"notice;7;CUSTOM;web;;UP;0;ann\nnotice;7;CUSTOM;web;;UP;0;ann\nnotice;7;CUSTOM;web;;UP;0;ann\n",
        &[],
    ),
    (
        &[CUSTOM, CUSTOM, CUSTOM],
        2,
        b"notice;7;CUSTOM;web;;UP;0;ann\nnotice;7;CUSTOM;web;;UP;0;ann\n",
        &[RunCause::JournalFull],
    ),
];

/// Asserts that the run failed by the cause in `faults`, or that it did not fail where `faults` is empty.
pub(super) fn check_faults(rt: &impl Abort, run: &Run, faults: &[RunCause]) {
    match run {
        Ok(_) => assert!(rt; faults.is_empty()),
        Err(fault) => assert!(rt; [fault.cause].as_slice() == faults),
    }
}

/// The teller gets the cause of the failure once, and none where the run does not fail.
#[test]
fn as_many_commands_are_told_as_the_limit(rt: HostRuntime) -> Result<(), Fail> {
    let alloc = rt.alloc();
    for (feeds_of, limit, told, faults) in LIMITS {
        let texts = AtomicU32::new(0);
        let (run, teller) = followed(&rt, alloc, feeds(alloc, feeds_of)?, *limit, &texts)?;
        check_faults(&rt, &run, faults);
        assert_eq!(rt; teller.text.as_slice(), *told);
        assert!(rt; teller.faults.as_slice() == *faults);
    }
    Ok(())
}

/// Two commands in one message.
const TWICE: &[u8] =
    b"[7] SEND_CUSTOM_HOST_NOTIFICATION;web;0;bob;x\n[8] SEND_CUSTOM_HOST_NOTIFICATION;web;0;bob;y\n";

#[test]
fn the_told_lines_of_a_message_are_one_text(rt: HostRuntime) -> Result<(), Fail> {
    let alloc = rt.alloc();
    let texts = AtomicU32::new(0);
    let (run, teller) = followed(&rt, alloc, feeds(alloc, &[TWICE])?, 2, &texts)?;
    check_faults(&rt, &run, &[]);
    assert_eq!(rt;
        teller.text.as_slice(),
        b"notice;7;CUSTOM;web;;UP;0;ann\nnotice;8;CUSTOM;web;;UP;0;ann\n".as_slice()
    );
    assert_eq!(rt; texts.load(Ordering::SeqCst), 1);
    Ok(())
}

/// The first feed has a refused line; the second an empty line, a command that waits, and a refused line.
pub(super) const TWO: &[&[u8]] = &[
    b"x\n[7] RESTART_PROGRAM\n",
    b"[7] RESTART_PROGRAM\n\n[900] RESTART_PROGRAM\ny\n",
];

/// For each feed its report, its attendant's number, and the calls of the attendant.
pub(super) const TWO_ATTENDED: &[(Told<'_>, usize, &[AttendantCall])] = &[
    (
        (1, &[], Ending::Whole),
        0,
        &[
            AttendantCall::Refuse(1, LineFault::NoBracket),
            AttendantCall::Ended(Ending::Whole),
        ],
    ),
    (
        (2, &[], Ending::Whole),
        1,
        &[
            AttendantCall::WaitFor(900, 3),
            AttendantCall::Refuse(4, LineFault::NoBracket),
            AttendantCall::Ended(Ending::Whole),
        ],
    ),
];

/// Asserts that a feed has this report, and its attendant this number and these calls.
pub(super) fn check_feed(
    rt: &impl Abort,
    feed: &FollowedFeed<Recording>,
    attended: &(Told<'_>, usize, &[AttendantCall]),
) {
    let (told, number, calls) = attended;
    check_sender(rt, &feed.report, told);
    assert_eq!(rt; feed.attendant.number, *number);
    assert!(rt; feed.attendant.calls.as_slice() == *calls);
}

/// Follows feeds that have a report, and asserts the printed text and what each attendant got.
fn check_followed<F: Feed, R: AllocGlobal + Abort + Threads + Wait + Sync>(
    rt: &R,
    readers: Vec<F>,
    texts: &AtomicU32,
    told: &[u8],
    attended: &[(Told<'_>, usize, &[AttendantCall])],
) -> Result<(), Fail> {
    let (run, teller) = followed(rt, rt.alloc(), readers, 100, texts)?;
    let Ok(run) = run else {
        return Err(Fail::new("a run"));
    };
    assert_eq!(rt; teller.text.as_slice(), told);
    assert_eq!(rt; run.feeds.len(), attended.len());
    for (feed, attended) in run.feeds.iter().zip(attended) {
        check_feed(rt, feed, attended);
    }
    Ok(())
}

#[test]
fn each_feed_is_attended_by_its_own(rt: HostRuntime) -> Result<(), Fail> {
    let texts = AtomicU32::new(0);
    let readers = feeds(rt.alloc(), TWO)?;
    check_followed(&rt, readers, &texts, b"", TWO_ATTENDED)
}

/// The feed of a command that is held back for good ends before it, as where memory runs out; the other feed is read to
/// its end.
#[test]
fn a_command_that_is_held_back_ends_its_feed(rt: HostRuntime) -> Result<(), Fail> {
    let alloc = rt.alloc();
    let texts = AtomicU32::new(0);
    let readers = feeds(
        alloc,
        &[
            b"[7] RESTART_PROGRAM\n",
            b"[7] SEND_CUSTOM_HOST_NOTIFICATION;web;0;bob;x\n[2000000] RESTART_PROGRAM\n[8] RESTART_PROGRAM\n",
        ],
    )?;
    let (run, teller) = followed(&rt, alloc, readers, 100, &texts)?;
    let Err(fault) = run else {
        return Err(Fail::new("the second feed has not ended"));
    };
    assert!(rt; fault.cause == RunCause::SenderStopped(1));
    assert_eq!(rt;
        teller.text.as_slice(),
        b"notice;7;CUSTOM;web;;UP;0;ann\n".as_slice()
    );
    let attended: [(Told<'_>, usize, &[AttendantCall]); 2] = [
        (
            (1, &[], Ending::Whole),
            0,
            &[AttendantCall::Ended(Ending::Whole)],
        ),
        (
            (1, &[], Ending::Memory),
            1,
            &[
                AttendantCall::WaitFor(2_000_000, 2),
                AttendantCall::Ended(Ending::Memory),
            ],
        ),
    ];
    assert_eq!(rt; fault.feeds.len(), attended.len());
    for (feed, attended) in fault.feeds.iter().zip(&attended) {
        check_feed(&rt, feed, attended);
    }
    Ok(())
}

/// Each read of the feed but the first waits until one more text is printed. A run that prints at its end fails this
/// test.
#[test]
fn what_is_told_is_told_while_the_feed_waits(rt: HostRuntime) -> Result<(), Fail> {
    let (reads, texts) = (AtomicU32::new(0), AtomicU32::new(0));
    let mut readers = Vec::new(rt.alloc());
    readers.push(Gated {
        own: &reads,
        other: &texts,
        due: 0,
        left: 2,
    })?;
    let told = b"rejected;0;1;4\nrejected;0;2;4\n";
    let attended: (Told<'_>, usize, &[AttendantCall]) = (
        (2, &[], Ending::Whole),
        0,
        &[AttendantCall::Ended(Ending::Whole)],
    );
    check_followed(&rt, readers, &texts, told, &[attended])
}

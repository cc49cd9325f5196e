//! Runs that are refused memory, bytes or room. `bench/refuse-each` refuses each allocation in turn: a run then has its
//! report, or a fault with the first commands of each feed in the journal.
ghost use Rattle.std.specs.Prelude.{None, false};

use super::{
    Fail, Feed, FeedFailed, OPTIONS, Told, board_and_reader, breaking, check_report, check_run,
    feeds, inventory,
};
use crate::{Bytes, Ending, RunCause, RunFault, RunOptions, RunReport, run, run_watched};
use cmd_journal::{Journal, ReadCause};
use cmd_lines::LineFault;
use cmd_types::{Entry, Memory};
use mon_engine::{EngineFault, Monitor, replay};
use std::alloc::{AllocError, Global};
use std::process::Abort;
use std::sync::Wait;
use std::thread::Threads;

pub const THREE: &[&[u8]] = &[
    b"[100] PROCESS_SERVICE_CHECK_RESULT;web;http;2;down\n[160] ADD_HOST_COMMENT;web;1;ann;a\n[170] RESTART_PROGRAM\n",
    b"",
    b"[90] ADD_HOST_COMMENT;web;1;bob;b\n[120] PROCESS_HOST_CHECK_RESULT;web;1;dead\n[130] ACKNOWLEDGE_HOST_PROBLEM;web;2;1;1;ann;on it\n[140] DEL_HOST_COMMENT;1\n[150] PROCESS_HOST_CHECK_RESULT;web;0;up\n",
];

/// The reports of these three feeds.
const THREE_TOLD: &[Told<'_>] = &[
    (3, &[], Ending::Whole),
    (0, &[], Ending::Whole),
    (5, &[], Ending::Whole),
];

pub const THREE_OPTIONS: RunOptions = RunOptions {
    capacity: 1,
    piece: 1,
    ..OPTIONS
};

pub(super) fn three_feeds(alloc: Global) -> Result<Vec<Bytes<'static>>, Memory> {
    feeds(alloc, THREE)
}

fn printed(rt: &impl Abort, alloc: Global, monitor: &Monitor) -> Result<Vec<u8>, Memory> {
    assert!(rt; !monitor.is_broken());
    let mut text = Vec::new(alloc);
    monitor.report(alloc, &mut text)?;
    Ok(text)
}

/// The most entries of a run here.
const MOST_ENTRIES: u32 = 8;

/// The report of a journal that was written, read and replayed.
fn replayed(rt: &impl Abort, alloc: Global, journal: &Journal) -> Result<Vec<u8>, Memory> {
    let mut text = Vec::new(alloc);
    journal.write(alloc, &mut text)?;
    let journal = match Journal::read(alloc, &text, MOST_ENTRIES) {
        Ok(journal) => journal,
        Err(fault) => {
            assert!(rt; fault.cause == ReadCause::Memory);
            return Err(AllocError);
        }
    };
    match replay(alloc, inventory(alloc)?, &journal) {
        Ok(monitor) => printed(rt, alloc, &monitor),
        Err(fault) => {
            assert!(rt; fault == EngineFault::Memory);
            Err(AllocError)
        }
    }
}

/// Asserts that the replay of the journal gives the report of the monitor.
pub(super) fn replays(rt: &impl Abort, alloc: Global, report: &RunReport) -> Result<(), Memory> {
    let told = printed(rt, alloc, &report.monitor)?;
    assert_eq!(rt;
        replayed(rt, alloc, &report.journal)?.as_slice(),
        told.as_slice()
    );
    Ok(())
}

/// Asserts that each of the three feeds was read to its end with its number of commands, and that the replay of the
/// journal gives the report of the monitor.
pub(super) fn are_reported(
    rt: &impl Abort,
    alloc: Global,
    report: &RunReport,
) -> Result<(), Memory> {
    check_report(rt, report, 8, THREE_TOLD);
    replays(rt, alloc, report)
}

/// Appends the commands of a feed that are journaled, at the places 1, 2, ..
fn begun(
    rt: &impl Abort,
    alloc: Global,
    entries: &[Entry],
    sender: u16,
    begun: &mut Vec<u8>,
) -> Result<(), Memory> {
    let mut place = 0u64;
    for entry in entries {
        if entry.sender == sender {
            place = place.saturating_add(1);
            assert_eq!(rt; entry.place, place);
            entry.stamped.write_line(alloc, begun)?;
        }
    }
    Ok(())
}

/// Asserts that the journal has the first commands of each feed, at the places 1, 2, .., and can be replayed.
fn are_begun(rt: &impl Abort, alloc: Global, fault: &RunFault) -> Result<(), Memory> {
    let wanted = match fault.cause {
        RunCause::Memory | RunCause::Spawn(_) | RunCause::SenderStopped(_) => true,
        _ => false,
    };
    assert!(rt; wanted, "cause {}", fault.cause.number());
    for (sender, text) in (0u16..).zip(THREE) {
        let mut first = Vec::new(alloc);
        begun(rt, alloc, fault.journal.entries(), sender, &mut first)?;
        assert!(rt; text.starts_with(&first));
    }
    replayed(rt, alloc, &fault.journal)?;
    Ok(())
}

/// The size of one request for memory right before a run: refusals are counted from there.
const MARK: usize = 1_234_567;

fn mark(alloc: Global) -> Result<(), Memory> {
    let room: Vec<u8> = Vec::with_capacity(alloc, MARK)?;
    drop(room);
    Ok(())
}

/// Runs the three feeds, and returns whether the run has a report. Out of memory is that of the test itself.
fn has_report<R: Abort + Threads + Wait + Sync>(rt: &R, alloc: Global) -> Result<bool, Memory> {
    let inventory = inventory(alloc)?;
    let readers = three_feeds(alloc)?;
    mark(alloc)?;
    match run(rt, alloc, inventory, readers, THREE_OPTIONS) {
        Ok(report) => {
            are_reported(rt, alloc, &report)?;
            Ok(true)
        }
        Err(fault) => {
            are_begun(rt, alloc, &fault)?;
            Ok(false)
        }
    }
}

/// Asserts that all eight entries of the run are shown, and that the run has its report.
fn is_shown(
    rt: &impl Abort,
    alloc: Global,
    report: &RunReport,
    shown: u32,
) -> Result<bool, Memory> {
    assert_eq!(rt; shown, 8);
    are_reported(rt, alloc, report)?;
    Ok(true)
}

/// Asserts that all journaled entries are shown, except the last one where memory was refused to the dispatcher.
fn is_shown_behind(
    rt: &impl Abort,
    alloc: Global,
    fault: &RunFault,
    shown: u32,
) -> Result<bool, Memory> {
    let count = fault.journal.len();
    let last = fault.cause == RunCause::Memory && count > shown;
    assert!(rt; count - u32::from(last) == shown);
    are_begun(rt, alloc, fault)?;
    Ok(false)
}

/// As `has_report`, for a watched run.
fn has_watched_report<R: Abort + Threads + Wait + Sync>(
    rt: &R,
    alloc: Global,
) -> Result<bool, Memory> {
    let readers = three_feeds(alloc)?;
    let (inventory, mut writer, mut board) = board_and_reader(alloc)?;
    mark(alloc)?;
    match run_watched(rt, alloc, inventory, readers, THREE_OPTIONS, &mut writer) {
        Ok(report) => is_shown(rt, alloc, &report, board.look().entries),
        Err(fault) => is_shown_behind(rt, alloc, &fault, board.look().entries),
    }
}

/// The number of tries: as often as memory is refused, and once more.
const TRIES: usize = 3;

#[test]
fn three_feeds_are_run(rt: HostRuntime) -> Result<(), Fail> {
    for _ in 0..TRIES {
        match has_report(&rt, rt.alloc()) {
            Ok(true) => return Ok(()),
            Ok(false) => println!(rt; "fault")?,
            Err(_) => {}
        }
    }
    Err(Fail::new("a report"))
}

#[test]
fn three_feeds_are_run_and_watched(rt: HostRuntime) -> Result<(), Fail> {
    for _ in 0..TRIES {
        match has_watched_report(&rt, rt.alloc()) {
            Ok(true) => return Ok(()),
            Ok(false) => println!(rt; "fault")?,
            Err(_) => {}
        }
    }
    Err(Fail::new("a report"))
}

const BROKEN: &[u8] =
    b"[100] ADD_HOST_COMMENT;web;1;ann;hello\n[110] PROCESS_HOST_CHECK_RESULT;web;1;no ping\n[105] DEL_HOST_COMMENT;2";

/// The number of whole lines of a text, and the number of its last line where that is unfinished.
fn lines_of(text: &[u8]) -> (u32, Option<u64>) {
    let mut whole = 0u32;
    let mut unfinished = false;
    for byte in text {
        unfinished = *byte != b'\n';
        whole = whole.saturating_add(u32::from(!unfinished));
    }
    (
        whole,
        unfinished.then_some(u64::from(whole).saturating_add(1)),
    )
}

/// Runs a reader that fails after these bytes.
fn fails_behind<R: Abort + Threads + Wait + Sync>(
    rt: &R,
    alloc: Global,
    rest: &'static [u8],
) -> Result<(), Fail> {
    let (whole, unfinished) = lines_of(rest);
    let torn = [(unfinished.unwrap_or(0), LineFault::Torn)];
    let refused = if unfinished.is_some() {
        torn.as_slice()
    } else {
        &[]
    };
    let told = (u64::from(whole), refused, Ending::ReadFailed);
    let readers = breaking(alloc, rest)?;
    check_run(rt, alloc, readers, OPTIONS, whole, &[told])
}

/// A number of bytes, the number of their whole lines, and the number of their unfinished line.
const PREFIXES: &[(usize, u32, Option<u64>)] = &[(0, 0, None), (38, 0, Some(1)), (39, 1, None)];

#[test]
fn a_reader_fails_after_each_byte(rt: HostRuntime) -> Result<(), Fail> {
    for (count, whole, unfinished) in PREFIXES {
        let rest = BROKEN.get(..*count).ok_or("a prefix")?;
        assert_eq!(rt; lines_of(rest), (*whole, *unfinished), "{count} bytes");
    }
    for count in 0..=BROKEN.len() {
        let rest = BROKEN.get(..count).ok_or("a prefix")?;
        fails_behind(&rt, rt.alloc(), rest)?;
    }
    Ok(())
}

/// A feed of the letter x without end.
#[derive(Drop)]
struct Endless;

impl Feed for Endless {
    ghost remaining = { λ _. None };

    ghost fails = { λ _. false };

    ghost fills = { λ _. false };

    fn read<W: Wait>(&mut self, _rt: &W, buffer: &mut [u8]) -> Result<usize, FeedFailed> {
        buffer.fill(b'x');
        Ok(buffer.len())
    }

    fn failing(&self) -> bool {
        false
    }
}

#[test]
fn a_line_without_end_is_read_so_often(rt: HostRuntime) -> Result<(), Fail> {
    let alloc = rt.alloc();
    for (reads, fault) in [(8_192, LineFault::Torn), (10_000, LineFault::TooLong)] {
        let options = RunOptions {
            piece: 1,
            reads,
            ..OPTIONS
        };
        let mut readers = Vec::new(alloc);
        readers.push(Endless)?;
        let refused = [(1, fault)];
        let told = (0, refused.as_slice(), Ending::TooManyReads);
        check_run(&rt, alloc, readers, options, 0, &[told])?;
    }
    Ok(())
}

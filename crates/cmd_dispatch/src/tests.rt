//! Runs over memory and over readers that fail, and what is journaled of each feed.
ghost use Rattle.std.specs.Prelude.{◌≡◌, true, false, None, [], IfOk};

use super::*;
use cmd_lines::LineFault;
use cmd_types::Memory;
use mon_inventory::Inventory;
use std::alloc::{AllocError, Global};
use std::io::Read;
use std::process::Abort;
use std::sync::Wait;
use std::sync::atomic::{AtomicU32, Ordering};
use std::test::Fail;
use std::thread;
use std::thread::Threads;

mod batches;
mod ends;
mod examples;
mod followed;
mod live;
mod made;
mod queue;
mod refused;
mod stored;
mod synced;

const INVENTORY: &[u8] =
    b"contact;ann;d,u,r,s;w,u,c,r,s\ncontact;bob;d,r;c,r\nhost;web;3;1800;d,u,r,s;ann\nservice;web;http;3;600;w,u,c,r,s;ann\nescalation;web;http;2;0;300;c,r;bob\n";

const OPTIONS: RunOptions = RunOptions {
    capacity: 64,
    piece: 4_096,
    limit: 1_000_000,
    reads: u32::MAX,
};

/// The inventory, whose lines have no fault.
fn inventory(alloc: Global) -> Result<Inventory, Memory> {
    match Inventory::parse(alloc, INVENTORY) {
        Ok(inventory) => Ok(inventory),
        Err(_) => Err(AllocError),
    }
}

/// The inventory, a board for it on which nothing is published, and a reader of the board.
fn board_and_reader(alloc: Global) -> Result<(Inventory, BoardWriter, BoardReader), Memory>
    ensures { IfOk result (λ q. (q.1.inventory ≡ q.0) × (q.1.published ≡ []) × (q.2.board ≡ q.1.board)) }
{
    let inventory = inventory(alloc)?;
    let mut writer = Board::create(alloc, &inventory)?;
    let reader = writer.reader()?;
    Ok((inventory, writer, reader))
}

/// The number of entries that a new reader of the board shows.
fn shown(writer: &mut BoardWriter) -> Result<u32, Memory> {
    let mut reader = writer.reader()?;
    Ok(reader.look().entries)
}

/// Feeds over `texts`, in order.
fn feeds<'a>(alloc: Global, texts: &[&'a [u8]]) -> Result<Vec<Bytes<'a>>, Memory> {
    let mut readers = Vec::new(alloc);
    for text in texts {
        readers.push(Bytes::new(text))?;
    }
    Ok(readers)
}

/// The result of a run over the inventory.
fn run_of<F: Feed, R: Threads + Wait + Sync>(
    rt: &R,
    alloc: Global,
    readers: Vec<F>,
    options: RunOptions,
) -> Result<Result<RunReport, RunFault>, Memory> {
    Ok(run(rt, alloc, inventory(alloc)?, readers, options))
}

/// The report of a run over the inventory.
fn report_of<F: Feed, R: Threads + Wait + Sync>(
    rt: &R,
    alloc: Global,
    readers: Vec<F>,
    options: RunOptions,
) -> Result<RunReport, Fail> {
    match run_of(rt, alloc, readers, options)? {
        Ok(report) => Ok(report),
        Err(_) => Err(Fail::new("a report")),
    }
}

/// The report of a watched run over `inventory`.
fn watched_report_of<F: Feed, R: Threads + Wait + Sync>(
    rt: &R,
    alloc: Global,
    inventory: Inventory,
    readers: Vec<F>,
    options: RunOptions,
    board: &mut BoardWriter,
) -> Result<RunReport, Fail>
    requires { (board.old.inventory ≡ inventory) × (board.old.published ≡ []) }
{
    match run_watched(rt, alloc, inventory, readers, options, board) {
        Ok(report) => Ok(report),
        Err(_) => Err(Fail::new("a report")),
    }
}

/// The number of a feed's accepted commands, its refused lines with their faults, and its ending.
type Told<'a> = (u64, &'a [(u64, LineFault)], Ending);

fn check_sender(rt: &impl Abort, sender: &SenderReport, told: &Told<'_>) {
    let (accepted, refused, ending) = *told;
    assert_eq!(rt;
        (sender.accepted, sender.refused.as_slice()),
        (accepted, refused)
    );
    assert!(rt; sender.ending == ending);
}

/// Asserts that the senders have the reports `told`, in order.
fn check_senders(rt: &impl Abort, senders: &[SenderReport], told: &[Told<'_>]) {
    assert_eq!(rt; senders.len(), told.len());
    for (sender, told) in senders.iter().zip(told) {
        check_sender(rt, sender, told);
    }
}

/// Asserts that `entries` entries are journaled, and that the senders have the reports `told`.
fn check_report(rt: &impl Abort, report: &RunReport, entries: u32, told: &[Told<'_>]) {
    assert_eq!(rt; report.journal.len(), entries);
    check_senders(rt, &report.senders, told);
}

/// Runs feeds over the inventory, and asserts that `entries` entries are journaled and the senders have the reports
/// `told`.
fn check_run<F: Feed, R: Abort + Threads + Wait + Sync>(
    rt: &R,
    alloc: Global,
    readers: Vec<F>,
    options: RunOptions,
    entries: u32,
    told: &[Told<'_>],
) -> Result<(), Fail> {
    let report = report_of(rt, alloc, readers, options)?;
    check_report(rt, &report, entries, told);
    Ok(())
}

/// Asserts that `count` feeds were read to their end, each with `accepted` commands and without a refused line.
fn check_alike(rt: &impl Abort, senders: &[SenderReport], count: usize, accepted: u64) {
    assert_eq!(rt; senders.len(), count);
    for sender in senders {
        check_sender(rt, sender, &(accepted, &[], Ending::Whole));
    }
}

/// Runs feeds over the inventory, and asserts that `entries` entries are journaled and `count` feeds were read to their
/// end, each with `accepted` commands and without a refused line.
fn check_run_alike<F: Feed, R: Abort + Threads + Wait + Sync>(
    rt: &R,
    alloc: Global,
    readers: Vec<F>,
    count: usize,
    accepted: u64,
    entries: u32,
) -> Result<(), Fail> {
    let report = report_of(rt, alloc, readers, OPTIONS)?;
    check_alike(rt, &report.senders, count, accepted);
    assert_eq!(rt; report.journal.len(), entries);
    Ok(())
}

/// A feed that returns its bytes, after which a read fails.
#[derive(Drop)]
struct Breaks {
    rest: &'static [u8],
}

impl Feed for Breaks {
    ghost remaining = { λ _. None };

    ghost fails = { λ _. true };

    ghost fills = { λ _. false };

    fn read<W: Wait>(&mut self, _rt: &W, buffer: &mut [u8]) -> Result<usize, FeedFailed> {
        match self.rest.read(buffer) {
            Ok(0) => Err(FeedFailed),
            Ok(count) => Ok(count),
            Err(_) => Err(FeedFailed),
        }
    }

    fn failing(&self) -> bool {
        true
    }
}

/// The one feed that fails after these bytes.
fn breaking(alloc: Global, rest: &'static [u8]) -> Result<Vec<Breaks>, Memory> {
    let mut readers = Vec::new(alloc);
    readers.push(Breaks { rest })?;
    Ok(readers)
}

const TORN: &[u8] = b"[1] RESTART_PROGRAM\n[2] ADD_HOST_COMMENT;web;1;a;ab";

#[test]
fn a_read_that_fails_tears_the_last_line(rt: HostRuntime) -> Result<(), Fail> {
    let alloc = rt.alloc();
    let inventory = inventory(alloc)?;
    let readers = breaking(alloc, TORN)?;
    let Ok(report) = run(&rt, alloc, inventory, readers, OPTIONS) else {
        return Err(Fail::new("a report"));
    };
    assert_eq!(rt; report.settled.count(0), 1);
    let told = (1, [(2, LineFault::Torn)].as_slice(), Ending::ReadFailed);
    check_report(&rt, &report, 1, &[told]);
    Ok(())
}

#[test]
fn too_many_reads_tear_the_line(rt: HostRuntime) -> Result<(), Fail> {
    let options = RunOptions {
        piece: 4,
        reads: 2,
        ..OPTIONS
    };
    let readers = feeds(rt.alloc(), &[b"[1] RESTART_PROGRAM\n"])?;
    let told = (0, [(1, LineFault::Torn)].as_slice(), Ending::TooManyReads);
    check_run(&rt, rt.alloc(), readers, options, 0, &[told])
}

/// A feed of `left` equal lines, one a read, each of a command that is rejected. Each read stores in `own` that it is
/// due, waits until `other` is as far, and fails where that never comes.
#[derive(Drop)]
struct Gated<'a> {
    own: &'a AtomicU32,
    other: &'a AtomicU32,
    due: u32,
    left: u32,
}

impl Gated<'_> {
    /// Whether the other side came as far, checked a bounded number of times.
    fn wait(&self) -> bool {
        self.own.store(self.due, Ordering::SeqCst);
        for _ in 0..1_000_000u32 {
            if self.other.load(Ordering::SeqCst) >= self.due {
                return true;
            }
            thread::yield_now();
        }
        false
    }
}

impl Feed for Gated<'_> {
    ghost remaining = { λ _. None };

    ghost fails = { λ _. true };

    ghost fills = { λ _. false };

    fn read<W: Wait>(&mut self, _rt: &W, buffer: &mut [u8]) -> Result<usize, FeedFailed> {
        if !self.wait() {
            return Err(FeedFailed);
        }
        self.due = self.due.saturating_add(1);
        if self.left == 0 {
            return Ok(0);
        }
        self.left -= 1;
        let mut line = b"[1] DEL_HOST_COMMENT;9\n".as_slice();
        match line.read(buffer) {
            Ok(count) => Ok(count),
            Err(_) => Err(FeedFailed),
        }
    }

    fn failing(&self) -> bool {
        true
    }
}

/// Feeds in a ring, of `left` lines each: each waits for the next one, the last for the first.
fn ring(alloc: Global, flags: &[AtomicU32], left: u32) -> Result<Vec<Gated<'_>>, Memory> {
    let mut readers = Vec::new(alloc);
    let count = flags.len();
    for k in 0..count {
        readers.push(Gated {
            own: &flags[k],
            other: &flags[(k + 1) % count],
            due: 1,
            left,
        })?;
    }
    Ok(readers)
}

#[test]
fn one_thread_for_all_feeds_fails_on_gated_ones(rt: HostRuntime) -> Result<(), Fail> {
    let flags = [AtomicU32::new(0), AtomicU32::new(0)];
    let readers = ring(rt.alloc(), &flags, 2)?;
    check_run_alike(&rt, rt.alloc(), readers, 2, 2, 4)
}

/// The same test as the one before, for a run that keeps no journal.
#[test]
fn one_thread_for_all_feeds_fails_without_a_journal(rt: HostRuntime) -> Result<(), Fail> {
    let alloc = rt.alloc();
    let flags = [AtomicU32::new(0), AtomicU32::new(0)];
    let readers = ring(alloc, &flags, 2)?;
    let Ok(report) = run_without_journal(&rt, alloc, inventory(alloc)?, readers, OPTIONS) else {
        return Err(Fail::new("a report"));
    };
    check_alike(&rt, &report.senders, 2, 2);
    Ok(())
}

const THREE_COMMANDS: &[u8] = b"[1] RESTART_PROGRAM\n[2] RESTART_PROGRAM\n[3] RESTART_PROGRAM\n";

/// Whether a run of `count` feeds under these options starts nothing.
fn is_refused<R: Threads + Wait + Sync>(
    rt: &R,
    alloc: Global,
    count: usize,
    options: RunOptions,
) -> Result<bool, Memory> {
    let mut readers = Vec::new(alloc);
    for _ in 0..count {
        readers.push(Bytes::new(THREE_COMMANDS))?;
    }
    match run_of(rt, alloc, readers, options)? {
        Ok(_) => Ok(false),
        Err(fault) => Ok(
            fault.cause == RunCause::BadOptions
                && fault.journal.len() == 0
                && fault.senders.is_empty(),
        ),
    }
}

const OUT_OF_RANGE: &[RunOptions] = &[
    RunOptions {
        capacity: 0,
        ..OPTIONS
    },
    RunOptions {
        capacity: 1_025,
        ..OPTIONS
    },
    RunOptions {
        piece: 0,
        ..OPTIONS
    },
    RunOptions {
        piece: 65_537,
        ..OPTIONS
    },
    RunOptions {
        limit: 0,
        ..OPTIONS
    },
    RunOptions {
        limit: 268_435_456,
        ..OPTIONS
    },
    RunOptions {
        reads: 0,
        ..OPTIONS
    },
];

#[test]
fn options_out_of_range_start_nothing(rt: HostRuntime) -> Result<(), Fail> {
    for options in OUT_OF_RANGE {
        assert!(rt; is_refused(&rt, rt.alloc(), 1, *options)?);
    }
    for (count, refused) in [(0, true), (65, true), (64, false)] {
        assert_eq!(rt; is_refused(&rt, rt.alloc(), count, OPTIONS)?, refused);
    }
    Ok(())
}

//! Live figures: what readers of a board see, and that a run publishes while it runs.
ghost use Rattle.std.specs.Prelude.{◌≡◌, []};

use super::refused::{THREE_OPTIONS, are_reported, three_feeds};
use super::{
    Fail, Gated, OPTIONS, board_and_reader, check_alike, inventory, shown, watched_report_of,
};
use crate::{Board, BoardReader, BoardWriter};
use cmd_journal::Journal;
use mon_engine::{Figures, replay};
use mon_inventory::Inventory;
use std::alloc::Global;
use std::process::Abort;
use std::sync::Wait;
use std::sync::atomic::{AtomicBool, AtomicU32, Ordering};
use std::thread;
use std::thread::Threads;

const TWO_ENTRIES: &[u8] =
    b"journal;2\n1 0 1 [1] PROCESS_HOST_CHECK_RESULT;web;1;dead\n2 0 2 [2] ACKNOWLEDGE_HOST_PROBLEM;web;2;1;1;ann;on it\n";

/// The figures that the two entries come to.
const TWO_SHOWN: Figures = Figures {
    entries: 2,
    problems: 1,
    acknowledged: 1,
    in_downtime: 0,
};

/// Publishes the two entries on a board on which nothing is published.
fn publish_two(alloc: Global, inventory: Inventory, board: &mut BoardWriter) -> Result<(), Fail>
    requires { (board.old.inventory ≡ inventory) × (board.old.published ≡ []) }
    ensures { board.new.board ≡ board.old.board }
{
    let Ok(journal) = Journal::read(alloc, TWO_ENTRIES, 2) else {
        return Err(Fail::new("the text of the journal has no fault"));
    };
    let Ok(monitor) = replay(alloc, inventory, &journal) else {
        return Err(Fail::new("memory"));
    };
    board.publish(&monitor, &journal);
    Ok(())
}

/// A reader made before entries are published sees none of them and then all; one made afterwards
/// sees them all.
#[test]
fn readers_see_what_is_published(rt: HostRuntime) -> Result<(), Fail> {
    let alloc = rt.alloc();
    let (inventory, mut writer, mut early) = board_and_reader(alloc)?;
    assert_eq!(rt; early.look().entries, 0);
    publish_two(alloc, inventory, &mut writer)?;
    assert_eq!(rt; early.look(), TWO_SHOWN);
    let mut late = writer.reader()?;
    assert_eq!(rt; late.look(), TWO_SHOWN);
    writer.gather(early);
    writer.gather(late);
    Ok(())
}

/// A board and its reader, each made again where an allocation is refused.
#[test]
fn a_board_and_its_reader_are_made_again(rt: HostRuntime) -> Result<(), Fail> {
    let alloc = rt.alloc();
    let inventory = match inventory(alloc) {
        Ok(inventory) => inventory,
        Err(_) => inventory(alloc)?,
    };
    let mut writer = match Board::create(alloc, &inventory) {
        Ok(writer) => writer,
        Err(_) => Board::create(alloc, &inventory)?,
    };
    let mut reader = match writer.reader() {
        Ok(reader) => reader,
        Err(_) => writer.reader()?,
    };
    assert_eq!(rt; reader.look().entries, 0);
    Ok(())
}

/// Whether the number of entries that a reader shows never falls over `times` looks.
fn never_falls(mut reader: BoardReader, times: u32) -> bool {
    let mut last = 0;
    for _ in 0..times {
        let entries = reader.look().entries;
        if entries < last {
            return false;
        }
        last = entries;
        thread::yield_now();
    }
    true
}

/// Runs and watches the three feeds, and asserts that all their entries are shown.
fn run_three<R: Abort + Threads + Wait + Sync>(
    rt: &R,
    alloc: Global,
    inventory: Inventory,
    board: &mut BoardWriter,
) -> Result<(), Fail>
    requires { (board.old.inventory ≡ inventory) × (board.old.published ≡ []) }
{
    let readers = three_feeds(alloc)?;
    let report = watched_report_of(rt, alloc, inventory, readers, THREE_OPTIONS, board)?;
    are_reported(rt, alloc, &report)?;
    assert_eq!(rt; shown(board)?, 8);
    Ok(())
}

#[test]
fn a_thread_looks_while_three_feeds_are_run(rt: HostRuntime) -> Result<(), Fail> {
    let alloc = rt.alloc();
    thread::scope(thread::scope_env(), &rt, move |scope| -> Result<(), Fail> {
        let (inventory, mut writer, reader) = board_and_reader(alloc)?;
        let looking = scope
            .spawn(move || never_falls(reader, 10_000))
            .ok()
            .ok_or("no thread")?;
        let run = run_three(&rt, alloc, inventory, &mut writer);
        assert!(rt; looking.join(&rt));
        run
    })
}

/// Stores in `shown` the number of entries that a reader shows, until that is `all` or the run is over.
fn store_shown(mut reader: BoardReader, shown: &AtomicU32, all: u32, over: &AtomicBool) {
    for _ in 0..u64::MAX {
        let entries = reader.look().entries;
        shown.store(entries, Ordering::SeqCst);
        if entries >= all || over.load(Ordering::SeqCst) {
            return;
        }
        thread::yield_now();
    }
}

/// The numbers of lines of a gated feed.
const GATED_LINES: &[u32] = &[2, 100];

/// Runs and watches a feed of `lines` lines, which continues when its entries are shown.
fn run_gated<R: Abort + Threads + Wait + Sync>(
    rt: &R,
    alloc: Global,
    shown: &AtomicU32,
    lines: u32,
    inventory: Inventory,
    board: &mut BoardWriter,
) -> Result<(), Fail>
    requires { (board.old.inventory ≡ inventory) × (board.old.published ≡ []) }
{
    let reads = AtomicU32::new(0);
    let mut readers = Vec::new(alloc);
    readers.push(Gated {
        own: &reads,
        other: shown,
        due: 0,
        left: lines,
    })?;
    let report = watched_report_of(rt, alloc, inventory, readers, OPTIONS, board)?;
    assert_eq!(rt; report.journal.len(), lines);
    check_alike(rt, &report.senders, 1, u64::from(lines));
    Ok(())
}

/// Runs a gated feed of `lines` lines, while another thread stores the number of entries shown.
fn check_gated<R: Abort + Threads + Wait + Sync>(
    rt: &R,
    alloc: Global,
    lines: u32,
) -> Result<(), Fail> {
    let shown = AtomicU32::new(0);
    let over = AtomicBool::new(false);
    let (shown, over) = (&shown, &over);
    thread::scope(thread::scope_env(), rt, move |scope| -> Result<(), Fail> {
        let (inventory, mut writer, reader) = board_and_reader(alloc)?;
        let telling = scope
            .spawn(move || store_shown(reader, shown, lines, over))
            .ok()
            .ok_or("no thread")?;
        let run = run_gated(rt, alloc, shown, lines, inventory, &mut writer);
        over.store(true, Ordering::SeqCst);
        telling.join(rt);
        run
    })
}

/// A run that publishes at its end, or only some entries before it, fails this test; so does a reader that loads no
/// more once it has shown some.
#[test]
fn each_entry_is_seen_before_the_feed_goes_on(rt: HostRuntime) -> Result<(), Fail> {
    for lines in GATED_LINES {
        check_gated(&rt, rt.alloc(), *lines)?;
    }
    Ok(())
}

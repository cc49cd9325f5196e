//! Starts over a store in memory: torn ends and missing lines that are found, the files that are written then, and the
//! directories that are refused.
ghost use Rattle.std.specs.Prelude.{◌≡◌, false, IfOk};

use super::*;
use crate::recover::find::{Saved, find};
use crate::resume::begin::begin_run;
use cmd_journal::{Past, ReadCause, ReadFault};
use cmd_store::{InMemory, SegmentTexts, Unsynced};
use cmd_types::Text;
use mon_engine::Monitor;
use mon_inventory::Inventory;
use mon_state::{KeptFeed, KeptFeeds};
use std::alloc::Global;
use std::test::Fail;

mod assigned;
mod examples;
mod pieces;
mod replayed;
mod started;

const INVENTORY: &[u8] = b"contact;ann;d,u,r,s;w,u,c,r,s\nhost;web;3;1800;d,u,r,s;ann\n";

const HEADING: &[u8] = b"journal;2\n";

const LINES: &[u8] = b"journal;2\n7 0 1 [7] DEL_HOST_COMMENT;9\n9 0 2 [9] DEL_SVC_COMMENT;9\n";

const TOLD: &[u8] = b"rejected;0;1;4\nrejected;0;2;4\n";

/// The state before any entry, with `count` feeds.
fn saved(alloc: Global, count: usize) -> Result<Saved, Fail>
    ensures { IfOk result (λ k. k.monitor.broken ≡ false) }
{
    let Ok(inventory) = Inventory::parse(alloc, INVENTORY) else {
        return Err(Fail::new("the lines have no fault"));
    };
    let mut list = Vec::new(alloc);
    for _ in 0..count {
        list.push(KeptFeed {
            words: Text::from_slice(alloc, b"file")?,
            journaled: 0,
            earlier: 0,
            last: Text::from_slice(alloc, b"")?,
        })?;
    }
    Ok(Saved {
        monitor: Monitor::new(alloc, inventory)?,
        past: Past::new(),
        feeds: KeptFeeds { list, clock: None },
    })
}

/// A store with one segment, number 0, of these texts.
fn store(alloc: Global, journal: &[u8], told: &[u8]) -> Result<InMemory, Fail> {
    let mut segments = Vec::new(alloc);
    segments.push(SegmentTexts::new(0, journal.to_vec(alloc)?, told.to_vec(alloc)?))?;
    Ok(InMemory::found(alloc, None, segments))
}

/// The fault of a start over a segment of these texts, with `count` feeds; `None` where the start succeeds.
fn fault_of(
    alloc: Global,
    journal: &[u8],
    told: &[u8],
    count: usize,
) -> Result<Option<StartFault>, Fail> {
    let mut store = store(alloc, journal, told)?;
    match find(&mut store, alloc, 0, saved(alloc, count)?) {
        Ok(_) => Ok(None),
        Err(fault) => Ok(Some(fault)),
    }
}

#[test]
fn a_new_directory_has_no_entry(rt: HostRuntime) -> Result<(), Fail> {
    let alloc = rt.alloc();
    let mut store = InMemory::found(alloc, None, Vec::new(alloc));
    let Ok(found) = find(&mut store, alloc, 0, saved(alloc, 0)?) else {
        return Err(Fail::new("nothing is at fault"));
    };
    assert_eq!(rt; (found.entries, found.journal, found.told), (0, 0, 0));
    assert!(rt; found.untold.is_empty());
    begin_run(&mut store, alloc, &found, 0, b"state")?;
    assert!(rt; store.output().is_empty());
    let left = store.crashed(alloc, Unsynced::Lost, b"")?;
    assert!(rt; left.state_text() == Some(b"state".as_slice()));
    let [segment] = left.segments() else {
        return Err(Fail::new("one segment stands there"));
    };
    assert_eq!(rt; segment.number(), 0);
    assert_eq!(rt; segment.journal(), HEADING);
    assert!(rt; segment.told().is_empty());
    Ok(())
}

#[test]
fn what_was_not_told_is_told_once(rt: HostRuntime) -> Result<(), Fail> {
    let alloc = rt.alloc();
    let torn = b"journal;2\n7 0 1 [7] DEL_HOST_COMMENT;9\n9 0 2 [9] DEL_SVC_COMMENT;9\n9 0 3 [9";
    let mut store = store(alloc, torn, b"rejected;0;1;4\nrej")?;
    let Ok(found) = find(&mut store, alloc, 0, saved(alloc, 1)?) else {
        return Err(Fail::new("nothing is at fault"));
    };
    assert_eq!(rt;
        (found.entries, found.journal, found.told),
        (2, LINES.len(), 15)
    );
    assert_eq!(rt; found.untold.as_slice(), b"rejected;0;2;4\n".as_slice());
    assert_eq!(rt; found.ledger.past.next_place(0), 3);
    let [feed] = found.feeds.list.as_slice() else {
        return Err(Fail::new("there is one feed"));
    };
    assert_eq!(rt; feed.journaled, 2);
    assert_eq!(rt; feed.last.as_bytes(), b"[9] DEL_SVC_COMMENT;9".as_slice());
    begin_run(&mut store, alloc, &found, 2, b"state")?;
    assert_eq!(rt; store.output(), b"rejected;0;2;4\n".as_slice());
    let left = store.crashed(alloc, Unsynced::Lost, b"")?;
    let [first, second] = left.segments() else {
        return Err(Fail::new("two segments stand there"));
    };
    assert_eq!(rt; (first.number(), second.number()), (0, 2));
    assert_eq!(rt; (first.journal(), first.told()), (LINES, TOLD));
    assert_eq!(rt; second.journal(), HEADING);
    assert!(rt; second.told().is_empty());
    Ok(())
}

#[test]
fn a_heading_that_was_torn_is_written(rt: HostRuntime) -> Result<(), Fail> {
    let alloc = rt.alloc();
    let mut store = store(alloc, b"journ", b"")?;
    let Ok(found) = find(&mut store, alloc, 0, saved(alloc, 1)?) else {
        return Err(Fail::new("nothing is at fault"));
    };
    begin_run(&mut store, alloc, &found, 0, b"state")?;
    let left = store.crashed(alloc, Unsynced::Lost, b"")?;
    let [segment] = left.segments() else {
        return Err(Fail::new("one segment stands there"));
    };
    assert_eq!(rt; segment.journal(), HEADING);
    Ok(())
}

#[test]
fn what_is_at_fault_is_refused(rt: HostRuntime) -> Result<(), Fail> {
    let alloc = rt.alloc();
    let place = b"journal;2\n7 0 1 [7] DEL_HOST_COMMENT;9\n9 0 3 [9] DEL_SVC_COMMENT;9\n";
    let fault = ReadFault {
        line: 3,
        cause: ReadCause::BadPlace,
    };
    assert_eq!(rt;
        fault_of(alloc, place, b"", 1)?,
        Some(StartFault::Journal(fault))
    );
    let more = b"rejected;0;1;4\nrejected;0;2;4\nx\n";
    assert_eq!(rt; fault_of(alloc, LINES, more, 1)?, Some(StartFault::Told));
    assert_eq!(rt; fault_of(alloc, LINES, b"", 0)?, Some(StartFault::Feeds));
    assert_eq!(rt; fault_of(alloc, LINES, TOLD, 1)?, None);
    Ok(())
}

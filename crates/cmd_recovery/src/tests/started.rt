//! Starts one after another over a store in memory, by the state that the one before wrote.
ghost use Rattle.std.specs.Prelude.{◌≡◌, false, IfOk};

use super::{HEADING, INVENTORY};
use crate::*;
use cmd_ledger::Ledger;
use cmd_store::{InMemory, SegmentTexts, Store, Unsynced};
use mon_downtime::Fate;
use mon_inventory::Inventory;
use mon_state::{FileFault, KeptFeeds};
use std::alloc::Global;
use std::test::Fail;

const FIVE: &[u8] =
    b"7 0 1 [7] DEL_HOST_COMMENT;9\n8 0 2 [8] DEL_HOST_COMMENT;9\n90 0 3 [90] DEL_HOST_COMMENT;9\n90 0 4 [9] DEL_HOST_COMMENT;9\n90 0 5 [10] DEL_SVC_COMMENT;9\n";

const TOLD: &[u8] =
    b"rejected;0;1;4\nrejected;0;2;4\nrejected;0;3;4\nrejected;0;4;4\nrejected;0;5;4\n";

/// The number of entries that a start finds in the last segment, with the feeds and the ledger from which a run
/// resumes. `text` is the inventory's, and `words` are the paths of the feeds.
fn begin_with(
    store: &mut InMemory,
    alloc: Global,
    text: &[u8],
    words: &[&str],
    has_clock: bool,
) -> Result<(u32, KeptFeeds, Ledger), Fail>
    ensures { IfOk result (λ r. r.2.monitor.broken ≡ false) }
{
    let inventory = Inventory::parse(alloc, text)?;
    let Ok(recovered) = start(store, alloc, text, inventory) else {
        return Err(Fail::new("the directory has no fault"));
    };
    let Ok(assigned) = assign(alloc, &recovered.feeds, words, has_clock) else {
        return Err(Fail::new("no feed is missing"));
    };
    let Ok(given) = assign(alloc, &recovered.feeds, words, has_clock) else {
        return Err(Fail::new("no feed is missing"));
    };
    let entries = recovered.entries;
    let resumed = proceed(store, alloc, text, recovered, given.feeds)?;
    Ok((entries, assigned.feeds, resumed.ledger))
}

fn begin(
    store: &mut InMemory,
    alloc: Global,
    words: &[&str],
    has_clock: bool,
) -> Result<(u32, KeptFeeds, Ledger), Fail>
    ensures { IfOk result (λ r. r.2.monitor.broken ≡ false) }
{
    begin_with(store, alloc, INVENTORY, words, has_clock)
}

/// The fault of a start with the inventory's text `given`; `None` where the start succeeds.
fn fault_of(store: &mut InMemory, alloc: Global, given: &[u8]) -> Result<Option<StartFault>, Fail> {
    let inventory = Inventory::parse(alloc, given)?;
    Ok(start(store, alloc, given, inventory).err())
}

/// A store that a run of the feed `a` left after five commands, of which two have told lines.
fn left(alloc: Global) -> Result<InMemory, Fail> {
    let mut store = InMemory::found(alloc, None, Vec::new(alloc));
    let _begun = begin(&mut store, alloc, &["a"], false)?;
    store.append_journal(FIVE)?;
    store.sync_journal()?;
    store.append_told(&TOLD[..30])?;
    store.sync_told()?;
    Ok(store.crashed(alloc, Unsynced::Lost, b"90 0 6 [11")?)
}

#[test]
fn a_new_directory_begins_with_a_state(rt: HostRuntime) -> Result<(), Fail> {
    let alloc = rt.alloc();
    let mut store = InMemory::found(alloc, None, Vec::new(alloc));
    let (_entries, feeds, ledger) = begin(&mut store, alloc, &["a", "b"], true)?;
    assert_eq!(rt; (ledger.monitor.entries_ever(), feeds.list.len()), (0, 3));
    assert_eq!(rt; (ledger.clock, ledger.past.next_place(0)), (Some(2), 1));
    let left = store.crashed(alloc, Unsynced::Lost, b"")?;
    let Some(state) = left.state_text() else {
        return Err(Fail::new("the state is written"));
    };
    assert!(rt; state.starts_with(INVENTORY));
    assert!(rt;
        state[INVENTORY.len()..].starts_with(
            b"---\nfeeds;2;3\nfeed;0;0;0;a\nlast;\nfeed;1;0;0;b\nlast;\nfeed;2;0;0;\nlast;\nstate;2\nclock;0\nentries;0\n"
        )
    );
    let [segment] = left.segments() else {
        return Err(Fail::new("one segment stands there"));
    };
    assert_eq!(rt; (segment.number(), segment.journal()), (0, HEADING));
    Ok(())
}

#[test]
fn a_start_goes_on_from_the_last_command(rt: HostRuntime) -> Result<(), Fail> {
    let alloc = rt.alloc();
    let mut store = left(alloc)?;
    let (_entries, feeds, ledger) = begin(&mut store, alloc, &["b", "a"], false)?;
    assert_eq!(rt; (ledger.past.next_place(0), ledger.past.clock()), (6, 90));
    assert_eq!(rt; ledger.monitor.entries_ever(), 5);
    assert_eq!(rt; (ledger.monitor.applied(), ledger.monitor.clock()), (0, 90));
    let [first, second] = feeds.list.as_slice() else {
        return Err(Fail::new("there are two feeds"));
    };
    assert_eq!(rt; first.journaled, 5);
    assert_eq!(rt; first.last.as_bytes(), b"[10] DEL_SVC_COMMENT;9".as_slice());
    assert_eq!(rt;
        (second.words.as_bytes(), second.journaled),
        (b"b".as_slice(), 0)
    );
    assert_eq!(rt; store.output(), &TOLD[30..]);
    Ok(())
}

#[test]
fn the_state_has_what_all_entries_come_to(rt: HostRuntime) -> Result<(), Fail> {
    let alloc = rt.alloc();
    let mut store = left(alloc)?;
    let _second = begin(&mut store, alloc, &["a"], false)?;
    let mut store = store.crashed(alloc, Unsynced::Lost, b"90")?;
    let (entries, feeds, ledger) = begin(&mut store, alloc, &["a"], true)?;
    assert_eq!(rt; entries, 0);
    assert_eq!(rt; (ledger.past.next_place(0), ledger.past.clock()), (6, 90));
    assert_eq!(rt; (ledger.monitor.entries_ever(), ledger.clock), (5, Some(1)));
    let [first, _clock] = feeds.list.as_slice() else {
        return Err(Fail::new("there are two feeds"));
    };
    assert_eq!(rt; first.journaled, 5);
    let left = store.crashed(alloc, Unsynced::Lost, b"")?;
    let [first, second] = left.segments() else {
        return Err(Fail::new("two segments stand there"));
    };
    assert_eq!(rt; (first.number(), first.told()), (0, TOLD));
    assert_eq!(rt; (second.number(), second.journal()), (5, HEADING));
    Ok(())
}

/// A store that a run of the feed `a` left after this command.
fn left_by(alloc: Global, line: &[u8]) -> Result<InMemory, Fail> {
    let mut store = InMemory::found(alloc, None, Vec::new(alloc));
    let _begun = begin(&mut store, alloc, &["a"], false)?;
    store.append_journal(line)?;
    store.sync_journal()?;
    Ok(store.crashed(alloc, Unsynced::Lost, b"")?)
}

const DOWNTIME: &[u8] = b"7 0 1 [7] SCHEDULE_HOST_DOWNTIME;web;100;200;1;0;0;ann;move\n";

#[test]
fn a_new_inventory_goes_on_from_the_old_one(rt: HostRuntime) -> Result<(), Fail> {
    let alloc = rt.alloc();
    let mut store = left_by(alloc, DOWNTIME)?;
    let two =
        b"contact;ann;d,u,r,s;w,u,c,r,s\nhost;db;3;1800;d,u,r,s;ann\nhost;web;3;1800;d,u,r,s;ann\n";
    let (_entries, _feeds, ledger) = begin_with(&mut store, alloc, two, &["a"], false)?;
    assert_eq!(rt;
        (
            ledger.monitor.entries_ever(),
            ledger.monitor.objects().len()
        ),
        (1, 2)
    );
    assert_eq!(rt; (ledger.past.next_place(0), ledger.past.clock()), (2, 7));
    let [downtime] = ledger.monitor.downtimes() else {
        return Err(Fail::new("there is one downtime"));
    };
    // web is the second object now
    assert_eq!(rt; (downtime.id, downtime.object), (1, 1));
    // the change prints nothing, and the state has it
    assert!(rt; store.output().is_empty());
    let mut store = store.crashed(alloc, Unsynced::Lost, b"")?;
    let Some(state) = store.state_text() else {
        return Err(Fail::new("the state is written"));
    };
    assert!(rt; state.starts_with(two));
    let (_entries, _feeds, ledger) = begin_with(&mut store, alloc, two, &["a"], false)?;
    assert_eq!(rt; ledger.monitor.entries_ever(), 1);
    Ok(())
}

#[test]
fn entries_are_applied_under_the_inventory_that_they_had(rt: HostRuntime) -> Result<(), Fail> {
    let alloc = rt.alloc();
    // the command names a host of the directory's inventory, which the new one lacks
    let mut store = left_by(alloc, DOWNTIME)?;
    let other = b"contact;ann;d,u,r,s;w,u,c,r,s\nhost;db;3;1800;d,u,r,s;ann\n";
    let (_entries, _feeds, ledger) = begin_with(&mut store, alloc, other, &["a"], false)?;
    assert!(rt; store.output().is_empty());
    // the host is gone, so its downtime is over, and the downtime's id is not used again
    let [downtime] = ledger.monitor.downtimes() else {
        return Err(Fail::new("there is one downtime"));
    };
    assert!(rt; matches!(downtime.fate, Fate::Over));
    Ok(())
}

#[test]
fn an_inventory_without_an_object_takes_no_place(rt: HostRuntime) -> Result<(), Fail> {
    let alloc = rt.alloc();
    let mut store = left_by(alloc, b"7 0 1 [7] DEL_HOST_COMMENT;9\n")?;
    assert_eq!(rt;
        fault_of(&mut store, alloc, b"")?,
        Some(StartFault::NoObject)
    );
    Ok(())
}

#[test]
fn an_inventory_without_an_object_replaces_another_without(rt: HostRuntime) -> Result<(), Fail> {
    let alloc = rt.alloc();
    let mut store = InMemory::found(alloc, None, Vec::new(alloc));
    let _begun = begin_with(&mut store, alloc, b"", &["a"], false)?;
    let mut store = store.crashed(alloc, Unsynced::Lost, b"")?;
    let contact = b"contact;ann;d,u,r,s;w,u,c,r,s\n";
    let (_entries, _feeds, ledger) = begin_with(&mut store, alloc, contact, &["a"], false)?;
    assert!(rt; ledger.monitor.objects().is_empty());
    Ok(())
}

#[test]
fn an_empty_state_is_refused(rt: HostRuntime) -> Result<(), Fail> {
    let alloc = rt.alloc();
    let mut store = InMemory::found(alloc, Some(Vec::new(alloc)), Vec::new(alloc));
    assert_eq!(rt;
        fault_of(&mut store, alloc, INVENTORY)?,
        Some(StartFault::State(FileFault::NoMark))
    );
    Ok(())
}

#[test]
fn what_is_no_start_is_refused(rt: HostRuntime) -> Result<(), Fail> {
    let alloc = rt.alloc();
    let mut store = left(alloc)?;
    let other = b"host;db;3;1800;d,u,r,s;\n";
    let torn = b"host;db;3;1800;d,u,r,s;";
    assert_eq!(rt;
        fault_of(&mut store, alloc, torn)?,
        Some(StartFault::Unwritable)
    );
    let state = b"host;db;3;1800;d,u,r,s;\n".to_vec(alloc)?;
    let mut store = InMemory::found(alloc, Some(state), Vec::new(alloc));
    assert_eq!(rt;
        fault_of(&mut store, alloc, other)?,
        Some(StartFault::State(FileFault::NoMark))
    );
    let mut segments = Vec::new(alloc);
    segments.push(SegmentTexts::new(0, b"journal;2\n".to_vec(alloc)?, TOLD.to_vec(alloc)?))?;
    let mut store = InMemory::found(alloc, None, segments);
    assert_eq!(rt;
        fault_of(&mut store, alloc, INVENTORY)?,
        Some(StartFault::Told)
    );
    Ok(())
}

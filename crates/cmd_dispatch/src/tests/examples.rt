//! The examples that the documentation of the public items has, a test each, with the same lines.
use super::{INVENTORY, OPTIONS};
use crate::*;
use cmd_journal::Past;
use cmd_ledger::Ledger;
use cmd_lines::LineFault;
use cmd_store::{Store, Unsynced};
use mon_engine::Monitor;
use mon_inventory::Inventory;
use std::test::Fail;

#[test]
fn one_feed(rt: HostRuntime) -> Result<(), Fail> {
    let alloc = rt.alloc();
    // INVENTORY: the text of an inventory with the host web
    let inventory = Inventory::parse(alloc, INVENTORY)?;
    let mut readers = Vec::new(alloc);
    readers.push(Bytes::new(b"[1] RESTART_PROGRAM\nx\n"))?;
    let Ok(report) = run(&rt, alloc, inventory, readers, OPTIONS) else {
        return Err(Fail::new("a report"));
    };
    assert_eq!(rt; report.journal.len(), 1);
    assert_eq!(rt; report.senders[0].accepted, 1);
    assert_eq!(rt; report.senders[0].refused.len(), 1);
    assert!(rt; report.senders[0].ending == Ending::Whole);
    Ok(())
}

#[test]
fn fault(rt: HostRuntime) -> Result<(), Fail> {
    let alloc = rt.alloc();
    // INVENTORY: the text of an inventory with the host web
    let inventory = Inventory::parse(alloc, INVENTORY)?;
    let no_feeds: Vec<Bytes<'_>> = Vec::new(alloc);
    let Err(fault) = run(&rt, alloc, inventory, no_feeds, OPTIONS) else {
        return Err(Fail::new("there is no feed"));
    };
    assert!(rt; fault.cause == RunCause::BadOptions);
    assert_eq!(rt; fault.cause.number(), 1);
    Ok(())
}

#[test]
fn board(rt: HostRuntime) -> Result<(), Fail> {
    let alloc = rt.alloc();
    // INVENTORY: the text of an inventory with the host web
    let inventory = Inventory::parse(alloc, INVENTORY)?;
    let mut writer = Board::create(alloc, &inventory)?;
    let mut reader = writer.reader()?;
    assert_eq!(rt; reader.look().entries, 0);
    writer.gather(reader);
    Ok(())
}

#[test]
fn feed(rt: HostRuntime) {
    let mut feed = Bytes::new(b"ab");
    let mut buffer = [0u8; 4];
    assert_eq!(rt; feed.read(&rt, &mut buffer).ok(), Some(2));
    assert_eq!(rt; feed.read(&rt, &mut buffer).ok(), Some(0));
}

#[test]
fn outside(rt: HostRuntime) -> Result<(), Fail> {
    let alloc = rt.alloc();
    // INVENTORY: the text of an inventory with the host web
    let inventory = Inventory::parse(alloc, INVENTORY)?;
    let mut readers = Vec::new(alloc);
    readers.push(Outside::new(b"[1] RESTART_PROGRAM\n".as_slice()))?;
    let Ok(report) = run(&rt, alloc, inventory, readers, OPTIONS) else {
        return Err(Fail::new("a report"));
    };
    assert_eq!(rt; report.journal.len(), 1);
    Ok(())
}

#[test]
fn watched(rt: HostRuntime) -> Result<(), Fail> {
    let alloc = rt.alloc();
    // INVENTORY: the text of an inventory with the host web
    let inventory = Inventory::parse(alloc, INVENTORY)?;
    let mut writer = Board::create(alloc, &inventory)?;
    let mut readers = Vec::new(alloc);
    readers.push(Bytes::new(b"[1] RESTART_PROGRAM\n"))?;
    let Ok(report) = run_watched(&rt, alloc, inventory, readers, OPTIONS, &mut writer) else {
        return Err(Fail::new("a report"));
    };
    assert_eq!(rt; report.journal.len(), 1);
    let mut reader = writer.reader()?;
    assert_eq!(rt; reader.look().entries, 1);
    writer.gather(reader);
    Ok(())
}

#[test]
fn followed(rt: HostRuntime) -> Result<(), Fail> {
    let alloc = rt.alloc();
    // INVENTORY: the text of an inventory with the host web
    let inventory = Inventory::parse(alloc, INVENTORY)?;
    let mut readers = Vec::new(alloc);
    readers.push(Bytes::new(b"[7] DEL_HOST_COMMENT;9\nx\n"))?;
    let mut attendants: Vec<Vec<(u64, LineFault)>> = Vec::new(alloc);
    attendants.push(Vec::new(alloc))?;
    let feeding = Feeding {
        readers,
        attendants,
        options: OPTIONS,
    };
    let audience = Audience {
        teller: Vec::new(alloc),
        clock: None,
    };
    let (followed, told) = follow(&rt, alloc, inventory, feeding, audience);
    let Ok(followed) = followed else {
        return Err(Fail::new("a run"));
    };
    assert_eq!(rt; told.as_slice(), b"rejected;0;1;4\n".as_slice());
    assert_eq!(rt; followed.feeds[0].report.accepted, 1);
    assert_eq!(rt;
        followed.feeds[0].attendant.as_slice(),
        [(2, LineFault::NoBracket)].as_slice()
    );
    Ok(())
}

#[test]
fn follow_fault(rt: HostRuntime) -> Result<(), Fail> {
    let alloc = rt.alloc();
    // INVENTORY: the text of an inventory with the host web
    let inventory = Inventory::parse(alloc, INVENTORY)?;
    let no_feeds: Vec<Bytes<'_>> = Vec::new(alloc);
    let nobody: Vec<Vec<(u64, LineFault)>> = Vec::new(alloc);
    let feeding = Feeding {
        readers: no_feeds,
        attendants: nobody,
        options: OPTIONS,
    };
    let audience = Audience {
        teller: Vec::new(alloc),
        clock: None,
    };
    let (followed, told) = follow(&rt, alloc, inventory, feeding, audience);
    let Err(fault) = followed else {
        return Err(Fail::new("there is no feed"));
    };
    assert!(rt; fault.cause == RunCause::BadOptions);
    assert!(rt; told.is_empty());
    Ok(())
}

#[test]
fn attendant(rt: HostRuntime) -> Result<(), Fail> {
    let alloc = rt.alloc();
    let mut refused: Vec<(u64, LineFault)> = Vec::new(alloc);
    refused.refuse(2, LineFault::NoBracket)?;
    assert_eq!(rt; refused.as_slice(), [(2, LineFault::NoBracket)].as_slice());
    assert!(rt; !refused.must_wait(7));
    Ok(())
}

#[test]
fn teller(rt: HostRuntime) -> Result<(), Fail> {
    let alloc = rt.alloc();
    let mut told: Vec<u8> = Vec::new(alloc);
    assert!(rt; told.tell(b"rejected;0;1;4\n") == Ok(()));
    assert_eq!(rt; told.as_slice(), b"rejected;0;1;4\n".as_slice());
    Ok(())
}

#[test]
fn unkept(rt: HostRuntime) -> Result<(), Fail> {
    let alloc = rt.alloc();
    // INVENTORY: the text of an inventory with the host web
    let inventory = Inventory::parse(alloc, INVENTORY)?;
    let mut readers = Vec::new(alloc);
    readers.push(Bytes::new(b"[1] RESTART_PROGRAM\nx\n"))?;
    let Ok(report) = run_without_journal(&rt, alloc, inventory, readers, OPTIONS) else {
        return Err(Fail::new("a report"));
    };
    assert_eq!(rt; report.senders[0].accepted, 1);
    assert_eq!(rt; report.senders[0].refused.len(), 1);
    Ok(())
}

#[test]
fn unkept_fault(rt: HostRuntime) -> Result<(), Fail> {
    let alloc = rt.alloc();
    // INVENTORY: the text of an inventory with the host web
    let inventory = Inventory::parse(alloc, INVENTORY)?;
    let no_feeds: Vec<Bytes<'_>> = Vec::new(alloc);
    let Err(fault) = run_without_journal(&rt, alloc, inventory, no_feeds, OPTIONS) else {
        return Err(Fail::new("there is no feed"));
    };
    assert!(rt; fault.cause == RunCause::BadOptions);
    Ok(())
}

#[test]
fn kept(rt: HostRuntime) -> Result<(), Fail> {
    let alloc = rt.alloc();
    // INVENTORY: the text of an inventory with the host web
    let inventory = Inventory::parse(alloc, INVENTORY)?;
    let mut readers = Vec::new(alloc);
    readers.push(Bytes::new(b"[7] DEL_HOST_COMMENT;9\n"))?;
    let mut attendants: Vec<Vec<(u64, LineFault)>> = Vec::new(alloc);
    attendants.push(Vec::new(alloc))?;
    let mut store = cmd_store::InMemory::found(alloc, None, Vec::new(alloc));
    store.open_segment(alloc, 0)?;
    store.append_journal(b"journal;2\n")?;
    store.sync_journal()?;
    let monitor = Monitor::new(alloc, inventory)?;
    let ledger = Ledger::new(alloc, monitor, Past::new(), None)?;
    let keeper = Keeper {
        store,
        checkpoint: OneSegment,
        observer: Nobody,
    };
    let feeding = Feeding {
        readers,
        attendants,
        options: OPTIONS,
    };
    let (kept, store) = follow_stored(&rt, alloc, ledger, feeding, keeper);
    let Ok(kept) = kept else {
        return Err(Fail::new("a run"));
    };
    assert_eq!(rt; kept.feeds[0].report.accepted, 1);
    assert_eq!(rt; store.output(), b"rejected;0;1;4\n".as_slice());
    let left = store.crashed(alloc, Unsynced::Lost, b"7 0 2")?;
    let [segment] = left.segments() else {
        return Err(Fail::new("there is one segment"));
    };
    assert_eq!(rt;
        segment.journal(),
        b"journal;2\n7 0 1 [7] DEL_HOST_COMMENT;9\n7 0 2".as_slice()
    );
    Ok(())
}

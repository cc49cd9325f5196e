//! The examples that the documentation of the public items has, a test each, with the same lines.
use super::INVENTORY;
use crate::*;
use cmd_store::{SegmentTexts, Unsynced};
use cmd_types::Text;
use mon_inventory::Inventory;
use mon_state::{KeptFeed, KeptFeeds};
use std::test::Fail;

#[test]
fn told_of_none(rt: HostRuntime) -> Result<(), Fail> {
    let alloc = rt.alloc();
    // INVENTORY: the text of an inventory with the host web
    let inventory = Inventory::parse(alloc, INVENTORY)?;
    let mut segments = Vec::new(alloc);
    segments.push(SegmentTexts::new(
        0,
        b"journal;2\n".to_vec(alloc)?,
        b"rejected;0;1;4\n".to_vec(alloc)?,
    ))?;
    let mut store = cmd_store::InMemory::found(alloc, None, segments);
    let Err(fault) = start(&mut store, alloc, INVENTORY, inventory) else {
        return Err(Fail::new("no entry was told"));
    };
    assert!(rt; fault == StartFault::Told);
    Ok(())
}

#[test]
fn numbered(rt: HostRuntime) -> Result<(), Fail> {
    let alloc = rt.alloc();
    let mut feeds = KeptFeeds {
        list: Vec::new(alloc),
        clock: None,
    };
    feeds.list.push(KeptFeed {
        words: Text::from_slice(alloc, b"b")?,
        journaled: 2,
        earlier: 0,
        last: Text::from_slice(alloc, b"[9] RESTART_PROGRAM")?,
    })?;
    let Ok(assigned) = assign(alloc, &feeds, &["a", "b"], true) else {
        return Err(Fail::new("b is given"));
    };
    assert_eq!(rt;
        assigned.roles.as_slice(),
        [Role::Given(1), Role::Given(0), Role::Clock].as_slice()
    );
    assert_eq!(rt; assigned.feeds.clock, Some(2));
    let Ok(assigned) = assign(alloc, &feeds, &[], true) else {
        return Err(Fail::new("b is left out, and no feed is new"));
    };
    assert_eq!(rt;
        assigned.roles.as_slice(),
        [Role::Unnamed, Role::Clock].as_slice()
    );
    let Err(fault) = assign(alloc, &feeds, &["a"], true) else {
        return Err(Fail::new("b is left out, and a is new"));
    };
    assert!(rt; fault == AssignFault::Feeds);
    Ok(())
}

#[test]
fn started(rt: HostRuntime) -> Result<(), Fail> {
    let alloc = rt.alloc();
    // INVENTORY: the text of an inventory with the host web
    let inventory = Inventory::parse(alloc, INVENTORY)?;
    let mut store = cmd_store::InMemory::found(alloc, None, Vec::new(alloc));
    let Ok(recovered) = start(&mut store, alloc, INVENTORY, inventory) else {
        return Err(Fail::new("a new directory has no fault"));
    };
    assert_eq!(rt; recovered.entries, 0);
    let Ok(assigned) = assign(alloc, &recovered.feeds, &["a"], false) else {
        return Err(Fail::new("no feed is missing"));
    };
    let resumed = proceed(&mut store, alloc, INVENTORY, recovered, assigned.feeds)?;
    assert_eq!(rt; resumed.ledger.past.next_place(0), 1);
    // one without an object does not take the place of this inventory
    let mut left = store.crashed(alloc, Unsynced::Lost, b"7 0")?;
    let Err(fault) = start(&mut left, alloc, b"", Inventory::parse(alloc, b"")?) else {
        return Err(Fail::new("the host is gone"));
    };
    assert!(rt; fault == StartFault::NoObject);
    Ok(())
}

#[test]
fn replayed(rt: HostRuntime) -> Result<(), Fail> {
    let alloc = rt.alloc();
    // INVENTORY: the text of an inventory with the host web
    let inventory = Inventory::parse(alloc, INVENTORY)?;
    let replayed = Replayed::new(alloc, inventory, None)?;
    let segment = b"journal;2\n7 0 1 [7] DEL_HOST_COMMENT;9\n7 0 2".as_slice();
    let Ok(replayed) = replayed.with_segment(alloc, segment, b"rejected;0;1;4\n") else {
        return Err(Fail::new("the segment has no fault"));
    };
    assert_eq!(rt; replayed.entries(), 1);
    let other = Inventory::parse(alloc, b"host;db;1;0;;\n")?;
    let Ok(replayed) = replayed.under(alloc, other) else {
        return Err(Fail::new("the inventory has an object"));
    };
    let mut report = Vec::new(alloc);
    replayed.report(alloc, &mut report)?;
    assert!(rt; report.starts_with(b"clock;7\n"));
    assert!(rt; report.ends_with(b"rejected;0;1;4\n"));
    Ok(())
}

//! Whole journals that are replayed, each segment under the inventory of its time.
use super::{INVENTORY, TOLD};
use crate::*;
use cmd_journal::{ReadCause, ReadFault};
use mon_inventory::Inventory;
use std::test::Fail;

const DOWNTIME: &[u8] = b"journal;2\n7 0 1 [7] SCHEDULE_HOST_DOWNTIME;web;100;200;1;0;0;ann;move\n";

const RESULT: &[u8] = b"journal;2\n120 0 2 [120] PROCESS_HOST_CHECK_RESULT;db;1;down\n";

#[test]
fn each_segment_is_applied_under_its_inventory(rt: HostRuntime) -> Result<(), Fail> {
    let alloc = rt.alloc();
    let first = Inventory::parse(alloc, INVENTORY)?;
    let second = Inventory::parse(alloc, b"host;web;3;1800;;\nhost;db;1;0;;\n")?;
    let replayed = Replayed::new(alloc, first, None)?;
    let Ok(replayed) = replayed.with_segment(alloc, DOWNTIME, b"") else {
        return Err(Fail::new("the segment has no fault"));
    };
    let Ok(replayed) = replayed.under(alloc, second) else {
        return Err(Fail::new("the inventory has objects"));
    };
    let Ok(replayed) = replayed.with_segment(alloc, RESULT, b"") else {
        return Err(Fail::new("the segment has no fault"));
    };
    assert_eq!(rt; replayed.entries(), 2);
    let mut report = Vec::new(alloc);
    replayed.report(alloc, &mut report)?;
    assert!(rt; report.starts_with(b"clock;120\n"));
    // the host that is there under both has its downtime, which runs at this time
    let text = str::from_utf8(&report).map_err(|_| Fail::new("a text"))?;
    assert!(rt; text.contains("\ndowntime;1;web;"));
    Ok(())
}

#[test]
fn told_lines_are_those_of_the_entries(rt: HostRuntime) -> Result<(), Fail> {
    let alloc = rt.alloc();
    let segment = b"journal;2\n7 0 1 [7] DEL_HOST_COMMENT;9\n9 0 2 [9] DEL_SVC_COMMENT;9\n";
    for (told, wanted) in [
        (TOLD, None),
        (b"rejected;0;1;4\nrejected".as_slice(), None),
        (b"rejected;0;2;4\n".as_slice(), Some(StartFault::Told)),
    ] {
        let inventory = Inventory::parse(alloc, INVENTORY)?;
        let replayed = Replayed::new(alloc, inventory, None)?;
        assert_eq!(rt; replayed.with_segment(alloc, segment, told).err(), wanted);
    }
    Ok(())
}

#[test]
fn rejections_of_the_clock_feed_are_not_printed(rt: HostRuntime) -> Result<(), Fail> {
    let alloc = rt.alloc();
    let inventory = Inventory::parse(alloc, INVENTORY)?;
    let replayed = Replayed::new(alloc, inventory, Some(0))?;
    let segment = b"journal;2\n7 0 1 [7] DEL_HOST_COMMENT;9\n";
    let Ok(replayed) = replayed.with_segment(alloc, segment, b"") else {
        return Err(Fail::new("the segment has no fault"));
    };
    let mut report = Vec::new(alloc);
    replayed.report(alloc, &mut report)?;
    assert!(rt; !report.ends_with(b"rejected;0;1;4\n"));
    Ok(())
}

#[test]
fn a_segment_with_a_fault_is_refused(rt: HostRuntime) -> Result<(), Fail> {
    let alloc = rt.alloc();
    let inventory = Inventory::parse(alloc, INVENTORY)?;
    let replayed = Replayed::new(alloc, inventory, None)?;
    // the first entry of the feed is missing
    let fault = ReadFault {
        line: 2,
        cause: ReadCause::BadPlace,
    };
    assert_eq!(rt;
        replayed.with_segment(alloc, RESULT, b"").err(),
        Some(StartFault::Journal(fault))
    );
    let inventory = Inventory::parse(alloc, INVENTORY)?;
    let replayed = Replayed::new(alloc, inventory, None)?;
    let none = Inventory::parse(alloc, b"")?;
    assert_eq!(rt;
        replayed.under(alloc, none).err(),
        Some(StartFault::NoObject)
    );
    Ok(())
}

//! The state of a monitor where any single allocation is refused: it is written and read back.
use super::super::{SILENT, append_state, compare, first_monitor, inventory_of, journaled};
use super::apply_whole;
use cmd_types::Memory;
use mon_engine::Monitor;
use mon_state::{StateCause, read_state};
use std::alloc::{AllocError, Global};
use std::process::Abort;
use std::test::Fail;

/// A comment, a downtime that is active, and a problem.
const KEPT: &[u8] = b"[1] ADD_HOST_COMMENT;web;1;ann;one
[2] SCHEDULE_SVC_DOWNTIME;web;http;2;9;1;0;0;bob;move
[3] PROCESS_HOST_CHECK_RESULT;web;1;dead
";

const STATE: &[u8] = b"> state;2
clock;3
entries;3
program;1;1;1
host;web;1;1;1;0;0;;;;1;1;3;3;3;dead
service;web;http;0;1;1;0;0;;;;1;1;;0;;
comments;1;1
comment;1;0;web;;0;1;1;ann;one
downtimes;1
downtime;1;1;web;http;2;9;1;0;0;2;active;2;9;bob;move
end;10
";

/// A host whose contact is to hear of the end of its problem, with the option `recover_the_told`.
const OWING: &[&[u8]] = &[
    b"contact;ann;d,r;c,r",
    b"host;web;3;0;d,r;ann",
    b"option;recover_the_told;1",
];

const OWING_STATE: &[u8] = b"> state;2
clock;3
entries;3
program;1;1;1
host;web;1;1;1;0;1;3;1;;1;1;3;3;3;dead
contact;ann;1;1
comments;0;0
downtimes;0
owed;web;;1;0;
end;9
";

/// A state of version 1, and the same as it is written then.
const FIRST_STATE: &[u8] = b"state;1
clock;3
entries;3
program;1;1;1
host;web;1;1;1;0;1;3;1;;1;1;dead
contact;ann;1;1
comments;0;0
downtimes;0
end;8
";

const UPGRADED_STATE: &[u8] = b"> state;2
clock;3
entries;3
program;1;1;1
host;web;1;1;1;0;1;3;1;;1;1;;3;3;dead
contact;ann;1;1
comments;0;0
downtimes;0
owed;web;;1;0;
end;9
";

/// A state that is read, and the text that is written of the monitor that resumes from it.
#[derive(Drop)]
struct BackRow {
    inventory: &'static [&'static [u8]],
    text: &'static [u8],
    written: &'static [u8],
}

/// The state after a few bytes. If memory ran out, asserts that these bytes are unchanged, and repeats the call.
fn state(alloc: Global, rt: &impl Abort, monitor: &Monitor) -> Result<Vec<u8>, Memory> {
    let mut out = Vec::from_slice(alloc, b"> ")?;
    if append_state(rt, monitor, &mut out).is_err() {
        compare(rt, "no state", &out, b"> ");
        assert!(rt; append_state(rt, monitor, &mut out).is_ok());
    }
    Ok(out)
}

fn state_of_entries(alloc: Global, rt: &impl Abort) -> Result<Vec<u8>, Memory> {
    let journal = journaled(rt, alloc, KEPT)?;
    let mut monitor = first_monitor(rt, alloc, SILENT)?;
    for entry in journal.entries() {
        apply_whole(alloc, rt, &mut monitor, entry)?;
    }
    state(alloc, rt, &monitor)
}

/// The monitor that resumes from a state, which has no fault.
fn read_whole(
    alloc: Global,
    rt: &impl Abort,
    inventory: &[&[u8]],
    text: &[u8],
) -> Result<Monitor, Memory> {
    let inventory = inventory_of(rt, alloc, inventory)?;
    match read_state(alloc, inventory, text) {
        Ok(monitor) => Ok(monitor),
        Err(fault) => {
            assert!(rt; fault.cause == StateCause::Memory);
            Err(AllocError)
        }
    }
}

fn state_read_back(alloc: Global, rt: &impl Abort, row: &BackRow) -> Result<Vec<u8>, Memory> {
    let monitor = read_whole(alloc, rt, row.inventory, row.text)?;
    state(alloc, rt, &monitor)
}

#[test]
fn a_state_that_is_written(rt: HostRuntime) -> Result<(), Fail> {
    let state = match state_of_entries(rt.alloc(), &rt) {
        Ok(state) => state,
        Err(_) => state_of_entries(rt.alloc(), &rt)?,
    };
    compare(&rt, "the state", &state, STATE);
    Ok(())
}

/// Reads a state, where any single allocation may be refused, and compares the text that is then written.
fn read_back(rt: &impl Abort, alloc: Global, row: &BackRow) -> Result<(), Fail> {
    let state = match state_read_back(alloc, rt, row) {
        Ok(state) => state,
        Err(_) => state_read_back(alloc, rt, row)?,
    };
    compare(rt, "the state read back", &state, row.written);
    Ok(())
}

#[test]
fn a_state_that_is_read(rt: HostRuntime) -> Result<(), Fail> {
    let row = BackRow {
        inventory: SILENT,
        text: STATE.strip_prefix(b"> ").unwrap_or(STATE),
        written: STATE,
    };
    read_back(&rt, rt.alloc(), &row)
}

#[test]
fn a_state_with_an_end_that_is_owed(rt: HostRuntime) -> Result<(), Fail> {
    let row = BackRow {
        inventory: OWING,
        text: OWING_STATE.strip_prefix(b"> ").unwrap_or(OWING_STATE),
        written: OWING_STATE,
    };
    read_back(&rt, rt.alloc(), &row)
}

#[test]
fn a_state_of_version_1_that_is_read(rt: HostRuntime) -> Result<(), Fail> {
    let row = BackRow {
        inventory: OWING,
        text: FIRST_STATE,
        written: UPGRADED_STATE,
    };
    read_back(&rt, rt.alloc(), &row)
}

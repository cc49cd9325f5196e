//! The lines of a state that say who is owed the end of each object's problem.
use super::super::{WEB, append_state, compare, inventory_of};
use super::{FIRST_STATE, StateRow, before, refuse, refuse_rows, report_after};
use mon_engine::Monitor;
use mon_state::{StateCause, StateFault, read_state};
use std::process::Abort;
use std::test::Fail;

/// The worked inventory with the option `recover_the_told`, and with bob as a contact of the service.
const OWING: &[&[u8]] = &[
    b"contact;ann;d,u,r,s;w,u,c,r,s",
    b"contact;bob;d,r;c,r",
    b"host;web;3;1800;d,u,r,s;ann",
    b"service;web;http;3;600;w,u,c,r,s;ann,bob",
    b"escalation;web;http;2;0;300;c,r;bob",
    b"option;recover_the_told;1",
];

/// After the entries `BEFORE` ann and bob are owed the end of the service's problem, whose first notice they got.
const STATE: &[u8] = b"state;2
clock;550
entries;9
program;1;1;1
host;web;0;1;1;0;0;;;2000;1;1;;0;;
service;web;http;2;1;3;2;1;300;2;;1;1;300;100;300;disk full
contact;ann;1;1
contact;bob;1;1
comments;2;1
comment;1;1;web;http;1;1;400;ann;on it
downtimes;2
downtime;1;1;web;http;500;600;1;0;0;430;active;500;600;ann;move
downtime;2;1;web;http;450;900;0;1;120;440;active;500;620;ann;after
owed;web;;0;
owed;web;http;1;0;1;
end;15
";

const NOBODY: &[u16] = &[];

const BOTH: &[u16] = &[0, 1];

/// Asserts that nobody is owed an end of the host, and ann and bob that of the service, with the first notice.
fn owe_both(rt: &impl Abort, monitor: &Monitor) {
    let owed = match monitor.owed() {
        [web, http] => Some((
            (web.number, web.contacts.as_slice()),
            (http.number, http.contacts.as_slice()),
        )),
        _ => None,
    };
    assert_eq!(rt; owed, Some(((0, NOBODY), (1, BOTH))));
}

#[test]
fn who_is_owed_an_end_is_written(rt: HostRuntime) -> Result<(), Fail> {
    let alloc = rt.alloc();
    let monitor = before(&rt, alloc, OWING)?;
    let mut state = Vec::new(alloc);
    append_state(&rt, &monitor, &mut state)?;
    compare(&rt, "state", &state, STATE);
    Ok(())
}

#[test]
fn who_is_owed_an_end_is_read_back(rt: HostRuntime) -> Result<(), Fail> {
    let alloc = rt.alloc();
    let inventory = inventory_of(&rt, alloc, OWING)?;
    let Ok(monitor) = read_state(alloc, inventory, STATE) else {
        return Err(Fail::new("the state is whole"));
    };
    owe_both(&rt, &monitor);
    let uninterrupted = before(&rt, alloc, OWING)?;
    let found = report_after(&rt, alloc, monitor)?;
    let wanted = report_after(&rt, alloc, uninterrupted)?;
    compare(&rt, "report", &found, &wanted);
    Ok(())
}

#[test]
fn who_is_owed_an_end_is_presumed_of_version_1(rt: HostRuntime) -> Result<(), Fail> {
    let alloc = rt.alloc();
    let inventory = inventory_of(&rt, alloc, OWING)?;
    let Ok(monitor) = read_state(alloc, inventory, FIRST_STATE) else {
        return Err(Fail::new("the state is whole"));
    };
    owe_both(&rt, &monitor);
    Ok(())
}

const REFUSED: &[StateRow] = &[
    // The inventory has two contacts.
    StateRow {
        old: b"http;1;0;1;",
        new: b"http;1;0;2;",
        line: 15,
        cause: StateCause::BadValue,
    },
    StateRow {
        old: b"owed;web;;0;",
        new: b"owed;web;;0;2;",
        line: 14,
        cause: StateCause::BadValue,
    },
    StateRow {
        old: b"http;1;0;1;",
        new: b"http;1;0;65536;",
        line: 15,
        cause: StateCause::BadValue,
    },
    StateRow {
        old: b"http;1;0;1;",
        new: b"http;1;0;x;",
        line: 15,
        cause: StateCause::BadLine,
    },
    StateRow {
        old: b"http;1;0;1;",
        new: b"http;1;0;01;",
        line: 15,
        cause: StateCause::NotAsWritten,
    },
    // No semicolon follows the last contact, or the number of nobody.
    StateRow {
        old: b"http;1;0;1;",
        new: b"http;1;0;1",
        line: 15,
        cause: StateCause::BadLine,
    },
    StateRow {
        old: b"owed;web;;0;",
        new: b"owed;web;;0",
        line: 14,
        cause: StateCause::BadLine,
    },
    // After nine entries no number is that great.
    StateRow {
        old: b"http;1;0;1;",
        new: b"http;1099511627794;0;1;",
        line: 15,
        cause: StateCause::BadValue,
    },
    // The lines have the names of the inventory, in its order, and none is missing.
    StateRow {
        old: b"owed;web;http;",
        new: b"owed;web;db;",
        line: 15,
        cause: StateCause::BadLine,
    },
    StateRow {
        old: b"owed;web;;0;\n",
        new: b"",
        line: 14,
        cause: StateCause::BadLine,
    },
    StateRow {
        old: b"owed;web;;0;\nowed;web;http;1;0;1;\nend;15",
        new: b"end;13",
        line: 14,
        cause: StateCause::BadLine,
    },
    StateRow {
        old: b"end;15",
        new: b"end;13",
        line: 16,
        cause: StateCause::NotAsWritten,
    },
    // Of two wrong values the first is the fault: the id of a downtime before a contact, and one contact before another.
    StateRow {
        old: b"downtime;2;1;web;http;450;900;0;1;120;440;active;500;620;ann;after\nowed;web;;0;",
        new: b"downtime;3;1;web;http;450;900;0;1;120;440;active;500;620;ann;after\nowed;web;;0;2;",
        line: 13,
        cause: StateCause::BadValue,
    },
    StateRow {
        old: b"owed;web;;0;\nowed;web;http;1;0;1;",
        new: b"owed;web;;0;2;\nowed;web;http;1;0;2;",
        line: 14,
        cause: StateCause::BadValue,
    },
];

#[test]
fn other_lines_of_who_is_owed_an_end_are_refused(rt: HostRuntime) -> Result<(), Fail> {
    let alloc = rt.alloc();
    refuse_rows(&rt, alloc, OWING, STATE, REFUSED)
}

#[test]
fn without_the_option_no_state_has_such_a_line(rt: HostRuntime) -> Result<(), Fail> {
    let wanted = StateFault {
        line: 14,
        cause: StateCause::NotAsWritten,
    };
    refuse(&rt, rt.alloc(), WEB, STATE, wanted)
}

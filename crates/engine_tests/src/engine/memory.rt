//! The monitor where any single allocation is refused: the refusal is reported, and the same work done again continues.
//! `bench/refuse-each engine_tests engine::memory` refuses each in turn.
mod states;

use super::{
    SILENT, WEB, append_report, apply, compare, first_monitor, inventory_of, journal_of, journaled,
    replayed,
};
use cmd_types::{Entry, Memory};
use mon_engine::{EngineFault, Monitor};
use std::alloc::{AllocError, AllocGlobal, Global};
use std::process::Abort;
use std::test::Fail;

/// A family of commands, and the report after them by the profile.
struct MemoryRow {
    inventory: &'static [&'static [u8]],
    feed: &'static [u8],
    report: &'static [u8],
}

const COMMENTS: MemoryRow = MemoryRow {
    inventory: SILENT,
    feed: b"[1] ADD_HOST_COMMENT;web;1;ann;one
[2] ADD_SVC_COMMENT;web;http;0;bob;two
[3] DEL_HOST_COMMENT;1
[4] DEL_SVC_COMMENT;1
[5] ADD_HOST_COMMENT;web;1;ann;three
[6] DEL_ALL_SVC_COMMENTS;web;http
[7] RESTART_PROGRAM
",
    report: b"> clock;7
program;1;1;1
host;web;UP;HARD;1;0;0;0;1;1;
service;web;http;OK;HARD;1;0;0;0;1;1;
comment;3;web;;user;1;5;ann;three
rejected;0;4;4
",
};

const ACKNOWLEDGEMENTS: MemoryRow = MemoryRow {
    inventory: SILENT,
    feed: b"[1] PROCESS_HOST_CHECK_RESULT;web;1;dead
[2] ACKNOWLEDGE_HOST_PROBLEM;web;2;0;1;ann;seen
[3] PROCESS_SERVICE_CHECK_RESULT;web;http;2;down
[4] ACKNOWLEDGE_SVC_PROBLEM;web;http;1;0;0;ann;too
[5] REMOVE_SVC_ACKNOWLEDGEMENT;web;http
[6] ACKNOWLEDGE_SVC_PROBLEM;db;http;1;0;0;ann;x
",
    report: b"> clock;6
program;1;1;1
host;web;DOWN;HARD;1;2;0;0;1;1;dead
service;web;http;CRITICAL;HARD;1;0;0;0;1;1;down
comment;1;web;;ack;1;2;ann;seen
rejected;0;6;1
",
};

const RESULTS: MemoryRow = MemoryRow {
    inventory: SILENT,
    feed: b"[1] PROCESS_SERVICE_CHECK_RESULT;web;http;2;x
[2] PROCESS_SERVICE_CHECK_RESULT;web;http;2;x
[3] DISABLE_PASSIVE_SVC_CHECKS;web;http
[4] PROCESS_SERVICE_CHECK_RESULT;web;http;2;y
[5] ENABLE_PASSIVE_SVC_CHECKS;web;http
[6] PROCESS_SERVICE_CHECK_RESULT;web;http;2;z
[7] PROCESS_HOST_CHECK_RESULT;web;2;gone
[8] PROCESS_SERVICE_CHECK_RESULT;web;http;0;ok
[9] PROCESS_SERVICE_CHECK_RESULT;web;http;1;w
",
    report: b"> clock;9
program;1;1;1
host;web;UNREACHABLE;HARD;1;0;0;0;1;1;gone
service;web;http;WARNING;HARD;1;0;0;0;1;1;w
rejected;0;4;12
",
};

const DOWNTIMES: MemoryRow = MemoryRow {
    inventory: SILENT,
    feed: b"[900] SCHEDULE_HOST_DOWNTIME;web;1000;2000;1;0;0;ann;move
[910] SCHEDULE_SVC_DOWNTIME;web;http;1000;3000;0;1;100;ann;move
[920] SCHEDULE_HOST_SVC_DOWNTIME;web;5000;6000;1;0;0;ann;later
[930] SCHEDULE_HOST_DOWNTIME;web;1060;8000;0;0;60;ann;soft
[1050] DEL_HOST_DOWNTIME;1
[1060] DEL_SVC_DOWNTIME;2
[1070] PROCESS_HOST_CHECK_RESULT;web;1;dead
",
    report: b"> clock;1070
program;1;1;1
host;web;DOWN;HARD;1;0;1;0;1;1;dead
service;web;http;OK;HARD;1;0;0;0;1;1;
downtime;3;web;http;pending;5000;6000;1;0;0;ann;later
downtime;4;web;;active;1070;1130;0;0;60;ann;soft
rejected;0;6;5
",
};

const FLEXIBLE: MemoryRow = MemoryRow {
    inventory: WEB,
    feed: b"[900] SCHEDULE_SVC_DOWNTIME;web;http;1000;2000;0;0;600;ann;work
[1100] PROCESS_SERVICE_CHECK_RESULT;web;http;2;down
[1160] PROCESS_SERVICE_CHECK_RESULT;web;http;2;down
[1220] PROCESS_SERVICE_CHECK_RESULT;web;http;2;down
[1820] PROCESS_SERVICE_CHECK_RESULT;web;http;2;down
",
    report: b"> clock;1820
program;1;1;1
host;web;UP;HARD;1;0;0;0;1;1;
service;web;http;CRITICAL;HARD;3;0;0;1;1;1;down
contact;ann;1;1
contact;bob;1;1
notice;1220;DOWNTIMESTART;web;http;CRITICAL;0;ann
notice;1820;DOWNTIMEEND;web;http;CRITICAL;0;ann
notice;1820;PROBLEM;web;http;CRITICAL;1;ann
",
};

const NOTICES: MemoryRow = MemoryRow {
    inventory: WEB,
    feed: b"[100] PROCESS_SERVICE_CHECK_RESULT;web;http;2;down
[160] PROCESS_SERVICE_CHECK_RESULT;web;http;2;down
[220] PROCESS_SERVICE_CHECK_RESULT;web;http;2;down
[230] ACKNOWLEDGE_SVC_PROBLEM;web;http;1;1;0;ann;x
[240] SCHEDULE_SVC_DOWNTIME;web;http;240;300;1;0;0;ann;d
[250] DEL_SVC_DOWNTIME;1
[260] REMOVE_SVC_ACKNOWLEDGEMENT;web;http
[820] PROCESS_SERVICE_CHECK_RESULT;web;http;2;down
[900] PROCESS_SERVICE_CHECK_RESULT;web;http;0;ok
",
    report: b"> clock;900
program;1;1;1
host;web;UP;HARD;1;0;0;0;1;1;
service;web;http;OK;HARD;1;0;0;0;1;1;ok
contact;ann;1;1
contact;bob;1;1
notice;220;PROBLEM;web;http;CRITICAL;1;ann
notice;230;ACKNOWLEDGEMENT;web;http;CRITICAL;1;ann
notice;240;DOWNTIMESTART;web;http;CRITICAL;1;ann
notice;250;DOWNTIMECANCELLED;web;http;CRITICAL;1;ann
notice;820;PROBLEM;web;http;CRITICAL;2;bob
notice;900;RECOVERY;web;http;OK;2;bob
",
};

/// As `WEB`, with problems that are notified by the clock.
const BY_CLOCK: &[&[u8]] = &[
    b"contact;ann;d,u,r,s;w,u,c,r,s",
    b"contact;bob;d,r;c,r",
    b"host;web;3;1800;d,u,r,s;ann",
    b"service;web;http;3;600;w,u,c,r,s;ann",
    b"escalation;web;http;2;0;300;c,r;bob",
    b"option;tell_by_clock;1",
];

const STANDING: MemoryRow = MemoryRow {
    inventory: BY_CLOCK,
    feed: b"[100] PROCESS_SERVICE_CHECK_RESULT;web;http;2;down
[110] PROCESS_SERVICE_CHECK_RESULT;web;http;2;down
[120] PROCESS_SERVICE_CHECK_RESULT;web;http;2;down
[719] DEL_HOST_COMMENT;0
[720] DEL_HOST_COMMENT;0
[1019] DEL_HOST_COMMENT;0
[1020] DEL_HOST_COMMENT;0
",
    report: b"> clock;1020
program;1;1;1
host;web;UP;HARD;1;0;0;0;1;1;
service;web;http;CRITICAL;HARD;3;0;0;3;1;1;down
contact;ann;1;1
contact;bob;1;1
rejected;0;4;4
rejected;0;5;4
rejected;0;6;4
rejected;0;7;4
notice;120;PROBLEM;web;http;CRITICAL;1;ann
notice;720;PROBLEM;web;http;CRITICAL;2;bob
notice;1020;PROBLEM;web;http;CRITICAL;3;bob
",
};

const CUSTOM: MemoryRow = MemoryRow {
    inventory: WEB,
    feed: b"[100] SEND_CUSTOM_SVC_NOTIFICATION;web;http;0;ann;hi
[110] SEND_CUSTOM_SVC_NOTIFICATION;web;http;1;ann;hi
[120] SET_SVC_NOTIFICATION_NUMBER;web;http;1
[130] SEND_CUSTOM_SVC_NOTIFICATION;web;http;4;ann;hi
[140] DISABLE_NOTIFICATIONS
[150] SEND_CUSTOM_SVC_NOTIFICATION;web;http;0;ann;hi
[160] SEND_CUSTOM_SVC_NOTIFICATION;web;http;2;ann;hi
[170] SEND_CUSTOM_HOST_NOTIFICATION;db;0;a;x
",
    report: b"> clock;170
program;0;1;1
host;web;UP;HARD;1;0;0;0;1;1;
service;web;http;OK;HARD;1;0;0;2;1;1;
contact;ann;1;1
contact;bob;1;1
rejected;0;8;1
notice;100;CUSTOM;web;http;OK;0;ann
notice;110;CUSTOM;web;http;OK;0;ann,bob
notice;130;CUSTOM;web;http;OK;2;bob
notice;160;CUSTOM;web;http;OK;2;bob
",
};

/// Asserts that the monitor is broken after this number of entries, and takes none from then on.
fn check_broken(
    alloc: Global,
    rt: &impl Abort,
    monitor: &mut Monitor,
    entry: &Entry,
    applied: u32,
) {
    for _ in 0..2 {
        assert!(rt; monitor.is_broken() && monitor.applied() == applied);
        assert!(rt; apply(rt, alloc, monitor, entry) == Err(EngineFault::Broken));
    }
}

/// Applies an entry. If memory ran out, asserts that the monitor is broken from then on.
fn apply_whole(
    alloc: Global,
    rt: &impl Abort,
    monitor: &mut Monitor,
    entry: &Entry,
) -> Result<(), Memory> {
    let applied = monitor.applied();
    assert!(rt; !monitor.is_broken());
    if let Err(fault) = apply(rt, alloc, monitor, entry) {
        assert!(rt; fault == EngineFault::Memory);
        check_broken(alloc, rt, monitor, entry, applied);
        return Err(AllocError);
    }
    assert!(rt; monitor.applied().checked_sub(applied) == Some(1) && !monitor.is_broken());
    Ok(())
}

/// The report after a few bytes. If memory ran out, asserts that these bytes are unchanged, and repeats the call.
fn report(alloc: Global, rt: &impl Abort, monitor: &Monitor) -> Result<Vec<u8>, Memory> {
    let mut out = Vec::from_slice(alloc, b"> ")?;
    if append_report(rt, alloc, monitor, &mut out).is_err() {
        compare(rt, "no report", &out, b"> ");
        assert!(rt; append_report(rt, alloc, monitor, &mut out).is_ok());
    }
    Ok(out)
}

/// The report of a monitor after these entries.
fn told_after(
    alloc: Global,
    rt: &impl Abort,
    monitor: &mut Monitor,
    entries: &[Entry],
) -> Result<Vec<u8>, Memory> {
    for entry in entries {
        apply_whole(alloc, rt, monitor, entry)?;
    }
    report(alloc, rt, monitor)
}

fn told_of(alloc: Global, rt: &impl Abort, row: &MemoryRow) -> Result<Vec<u8>, Memory> {
    let journal = journaled(rt, alloc, row.feed)?;
    let mut monitor = first_monitor(rt, alloc, row.inventory)?;
    told_after(alloc, rt, &mut monitor, journal.entries())
}

/// Compares the report with that of the row. Where memory was refused, everything is done once more.
fn check(rt: &(impl Abort + AllocGlobal), row: &MemoryRow) -> Result<(), Fail> {
    let told = match told_of(rt.alloc(), rt, row) {
        Ok(told) => told,
        Err(_) => told_of(rt.alloc(), rt, row)?,
    };
    compare(rt, "the report", &told, row.report);
    Ok(())
}

/// A journal of two senders, and the report of the state to which it leads.
const JOURNAL: &[u8] = b"0 1 [1] ADD_HOST_COMMENT;web;1;ann;one
1 1 [2] PROCESS_HOST_CHECK_RESULT;web;1;dead
0 2 [3] DEL_HOST_COMMENT;7
";

const REPLAYED: &[u8] = b"> clock;3
program;1;1;1
host;web;DOWN;HARD;1;0;0;0;1;1;dead
service;web;http;OK;HARD;1;0;0;0;1;1;
comment;1;web;;user;1;1;ann;one
rejected;0;2;4
";

fn told_of_two(alloc: Global, rt: &impl Abort) -> Result<Vec<u8>, Memory> {
    let inventory = inventory_of(rt, alloc, SILENT)?;
    let journal = journal_of(rt, alloc, JOURNAL)?;
    let monitor = replayed(rt, alloc, inventory, &journal)?;
    report(alloc, rt, &monitor)
}

#[test]
fn a_journal_that_is_replayed(rt: HostRuntime) -> Result<(), Fail> {
    let told = match told_of_two(rt.alloc(), &rt) {
        Ok(told) => told,
        Err(_) => told_of_two(rt.alloc(), &rt)?,
    };
    compare(&rt, "the report", &told, REPLAYED);
    Ok(())
}

#[test]
fn a_monitor_of_comments(rt: HostRuntime) -> Result<(), Fail> {
    check(&rt, &COMMENTS)
}

#[test]
fn a_monitor_of_acknowledgements(rt: HostRuntime) -> Result<(), Fail> {
    check(&rt, &ACKNOWLEDGEMENTS)
}

#[test]
fn a_monitor_of_results(rt: HostRuntime) -> Result<(), Fail> {
    check(&rt, &RESULTS)
}

#[test]
fn a_monitor_of_notices(rt: HostRuntime) -> Result<(), Fail> {
    check(&rt, &NOTICES)
}

#[test]
fn a_monitor_of_a_problem_that_stands(rt: HostRuntime) -> Result<(), Fail> {
    check(&rt, &STANDING)
}

#[test]
fn a_monitor_of_custom_notices(rt: HostRuntime) -> Result<(), Fail> {
    check(&rt, &CUSTOM)
}

#[test]
fn a_monitor_of_a_flexible_downtime(rt: HostRuntime) -> Result<(), Fail> {
    check(&rt, &FLEXIBLE)
}

#[test]
fn a_monitor_of_downtimes(rt: HostRuntime) -> Result<(), Fail> {
    check(&rt, &DOWNTIMES)
}

/// A feed, and a clock feed as sender 1.
const FOLLOWED: &[u8] = b"0 1 [100] PROCESS_SERVICE_CHECK_RESULT;web;http;2;down
0 2 [150] DEL_HOST_COMMENT;7
0 3 [160] PROCESS_SERVICE_CHECK_RESULT;web;http;2;down
0 4 [220] PROCESS_SERVICE_CHECK_RESULT;web;http;2;down
1 1 [500] DEL_HOST_COMMENT;0
0 5 [820] PROCESS_SERVICE_CHECK_RESULT;web;http;2;down
";

const TOLD: &[u8] = b"> rejected;0;2;4
notice;220;PROBLEM;web;http;CRITICAL;1;ann
notice;820;PROBLEM;web;http;CRITICAL;2;bob
";

/// Writes what an entry came to, of the clock its notices alone.
fn tell_of(
    alloc: Global,
    rt: &impl Abort,
    monitor: &mut Monitor,
    sender: u16,
    out: &mut Vec<u8>,
) -> Result<(), Memory> {
    assert!(rt; !monitor.is_broken());
    if sender == 1 {
        monitor.tell_notices(alloc, out)
    } else {
        monitor.tell(alloc, out)
    }
}

/// The lines that a monitor has to print after each entry. If memory ran out, asserts that nothing was appended or
/// forgotten, and repeats the call.
fn told_one_by_one(
    alloc: Global,
    rt: &impl Abort,
    monitor: &mut Monitor,
    entries: &[Entry],
) -> Result<Vec<u8>, Memory> {
    let mut out = Vec::from_slice(alloc, b"> ")?;
    for entry in entries {
        apply_whole(alloc, rt, monitor, entry)?;
        let len = out.len();
        if tell_of(alloc, rt, monitor, entry.sender, &mut out).is_err() {
            assert!(rt; out.len() == len);
            assert!(rt; tell_of(alloc, rt, monitor, entry.sender, &mut out).is_ok());
        }
    }
    Ok(out)
}

fn told_as_it_goes(alloc: Global, rt: &impl Abort) -> Result<Vec<u8>, Memory> {
    let journal = journal_of(rt, alloc, FOLLOWED)?;
    let mut monitor = first_monitor(rt, alloc, WEB)?;
    told_one_by_one(alloc, rt, &mut monitor, journal.entries())
}

#[test]
fn a_monitor_that_tells(rt: HostRuntime) -> Result<(), Fail> {
    let told = match told_as_it_goes(rt.alloc(), &rt) {
        Ok(told) => told,
        Err(_) => told_as_it_goes(rt.alloc(), &rt)?,
    };
    compare(&rt, "what is told", &told, TOLD);
    Ok(())
}

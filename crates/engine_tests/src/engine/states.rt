//! The state of a monitor: the text that is written, the monitor that resumes from it, and the texts that are refused.
mod owed;

use super::{
    WEB, append_report, append_state, apply, compare, first_monitor, inventory_of, journaled,
};
use cmd_types::{Entry, Memory};
use mon_engine::{Moments, Monitor};
use mon_state::{StateCause, StateFault, read_feeds, read_state};
use std::alloc::Global;
use std::process::Abort;
use std::test::Fail;

/// A problem that is hard at the third result, acknowledged; a comment, and one that was deleted; a downtime that is
/// active and starts another; notices of a host held back.
const BEFORE: &[u8] = b"[100] PROCESS_SERVICE_CHECK_RESULT;web;http;2;disk full
[200] PROCESS_SERVICE_CHECK_RESULT;web;http;2;disk full
[300] PROCESS_SERVICE_CHECK_RESULT;web;http;2;disk full
[400] ACKNOWLEDGE_SVC_PROBLEM;web;http;2;0;1;ann;on it
[410] ADD_HOST_COMMENT;web;0;bob;watch this
[420] DEL_HOST_COMMENT;2
[430] SCHEDULE_SVC_DOWNTIME;web;http;500;600;1;0;0;ann;move
[440] SCHEDULE_SVC_DOWNTIME;web;http;450;900;0;1;120;ann;after
[550] DELAY_HOST_NOTIFICATION;web;2000
";

const STATE: &[u8] = b"state;2
clock;550
entries;9
program;1;1;1
host;web;0;1;1;0;0;;;2000;1;1;;0;;
service;web;http;2;1;3;2;1;300;2;;1;1;300;100;300;disk full
contact;ann;1;1
contact;bob;1;1
comments;2;1
comment;1;1;web;http;1;1;400;ann;on it
downtimes;2
downtime;1;1;web;http;500;600;1;0;0;430;active;500;600;ann;move
downtime;2;1;web;http;450;900;0;1;120;440;active;500;620;ann;after
end;13
";

/// The same state in version 1, which has no moments of objects.
const FIRST_STATE: &[u8] = b"state;1
clock;550
entries;9
program;1;1;1
host;web;0;1;1;0;0;;;2000;1;1;
service;web;http;2;1;3;2;1;300;2;;1;1;disk full
contact;ann;1;1
contact;bob;1;1
comments;2;1
comment;1;1;web;http;1;1;400;ann;on it
downtimes;2
downtime;1;1;web;http;500;600;1;0;0;430;active;500;600;ann;move
downtime;2;1;web;http;450;900;0;1;120;440;active;500;620;ann;after
end;13
";

/// Further entries: the next comment has id 3, the ends of the downtimes fall due, and the problem is over.
const AFTER: &[u8] = b"[700] PROCESS_SERVICE_CHECK_RESULT;web;http;0;fine
[800] ADD_SVC_COMMENT;web;http;1;bob;done
";

/// Applies the entries, and forgets their notices and rejections.
fn run(
    rt: &impl Abort,
    alloc: Global,
    monitor: &mut Monitor,
    entries: &[Entry],
) -> Result<(), Memory> {
    for entry in entries {
        assert!(rt; apply(rt, alloc, monitor, entry).is_ok());
    }
    let mut told = Vec::new(alloc);
    assert!(rt; !monitor.is_broken());
    monitor.tell(alloc, &mut told)
}

/// The monitor of an inventory after the entries `BEFORE`.
fn before(rt: &impl Abort, alloc: Global, inventory: &[&[u8]]) -> Result<Monitor, Memory> {
    let journal = journaled(rt, alloc, BEFORE)?;
    let mut monitor = first_monitor(rt, alloc, inventory)?;
    run(rt, alloc, &mut monitor, journal.entries())?;
    Ok(monitor)
}

/// Appends the report after the entries `AFTER`.
fn report_after(rt: &impl Abort, alloc: Global, mut monitor: Monitor) -> Result<Vec<u8>, Memory> {
    let journal = journaled(rt, alloc, AFTER)?;
    for entry in journal.entries() {
        assert!(rt; apply(rt, alloc, &mut monitor, entry).is_ok());
    }
    let mut report = Vec::new(alloc);
    append_report(rt, alloc, &monitor, &mut report)?;
    Ok(report)
}

#[test]
fn state_is_written(rt: HostRuntime) -> Result<(), Fail> {
    let alloc = rt.alloc();
    let monitor = before(&rt, alloc, WEB)?;
    let mut state = Vec::new(alloc);
    append_state(&rt, &monitor, &mut state)?;
    compare(&rt, "state", &state, STATE);
    Ok(())
}

#[test]
fn monitor_goes_on(rt: HostRuntime) -> Result<(), Fail> {
    let alloc = rt.alloc();
    let inventory = inventory_of(&rt, alloc, WEB)?;
    let Ok(monitor) = read_state(alloc, inventory, STATE) else {
        return Err(Fail::new("the state is whole"));
    };
    assert_eq!(rt; monitor.applied(), 0);
    let uninterrupted = before(&rt, alloc, WEB)?;
    let found = report_after(&rt, alloc, monitor)?;
    let wanted = report_after(&rt, alloc, uninterrupted)?;
    compare(&rt, "report", &found, &wanted);
    Ok(())
}

/// The moments of the host and of its service.
fn moments(monitor: &Monitor) -> Option<(Moments, Moments)> {
    match monitor.objects() {
        [web, http] => Some((web.moments, http.moments)),
        _ => None,
    }
}

#[test]
fn a_state_of_version_1_is_upgraded(rt: HostRuntime) -> Result<(), Fail> {
    let alloc = rt.alloc();
    let inventory = inventory_of(&rt, alloc, WEB)?;
    let Ok(monitor) = read_state(alloc, inventory, FIRST_STATE) else {
        return Err(Fail::new("the state is whole"));
    };
    let fine = Moments {
        checked: None,
        changed: 550,
        since: None,
    };
    let problem = Moments {
        checked: None,
        changed: 550,
        since: Some(550),
    };
    assert_eq!(rt; moments(&monitor), Some((fine, problem)));
    let uninterrupted = before(&rt, alloc, WEB)?;
    let found = report_after(&rt, alloc, monitor)?;
    let wanted = report_after(&rt, alloc, uninterrupted)?;
    compare(&rt, "report", &found, &wanted);
    Ok(())
}

/// A state in which one piece is replaced by another, and the line and the cause of its fault.
struct StateRow {
    old: &'static [u8],
    new: &'static [u8],
    line: u64,
    cause: StateCause,
}

const REFUSED: &[StateRow] = &[
    StateRow {
        old: b"state;2",
        new: b"state;3",
        line: 1,
        cause: StateCause::UnknownVersion,
    },
    StateRow {
        old: b"state;2",
        new: b"state;22",
        line: 1,
        cause: StateCause::UnknownVersion,
    },
    StateRow {
        old: b"state;2",
        new: b"state;02",
        line: 1,
        cause: StateCause::NotAsWritten,
    },
    StateRow {
        old: b"state;2",
        new: b"state;x",
        line: 1,
        cause: StateCause::BadLine,
    },
    StateRow {
        old: b"state;2\n",
        new: b"",
        line: 1,
        cause: StateCause::BadLine,
    },
    StateRow {
        old: b"clock;550",
        new: b"clock;1099511627776",
        line: 2,
        cause: StateCause::BadValue,
    },
    StateRow {
        old: b"clock;550",
        new: b"clock;x",
        line: 2,
        cause: StateCause::BadLine,
    },
    StateRow {
        old: b"entries;9",
        new: b"entries;x",
        line: 3,
        cause: StateCause::BadLine,
    },
    StateRow {
        old: b"program;1;1;1",
        new: b"program;1;1;2",
        line: 4,
        cause: StateCause::BadLine,
    },
    StateRow {
        old: b"contact;bob;1;1",
        new: b"contact;bob;1;2",
        line: 8,
        cause: StateCause::BadLine,
    },
    StateRow {
        old: b"comments;2;1",
        new: b"comments;2;x",
        line: 9,
        cause: StateCause::BadLine,
    },
    StateRow {
        old: b"downtimes;2",
        new: b"downtimes;x",
        line: 11,
        cause: StateCause::BadLine,
    },
    StateRow {
        old: b"host;web",
        new: b"host;db",
        line: 5,
        cause: StateCause::BadLine,
    },
    StateRow {
        old: b"2;1;3;2;1;300",
        new: b"2;1;4;2;1;300",
        line: 6,
        cause: StateCause::BadValue,
    },
    StateRow {
        old: b"2;1;3;2;1;300",
        new: b"2;1;3;2;01;300",
        line: 6,
        cause: StateCause::NotAsWritten,
    },
    // The beginning of a hard problem is missing, and an object without a problem has one.
    StateRow {
        old: b"300;100;300;disk full",
        new: b"300;100;;disk full",
        line: 6,
        cause: StateCause::BadValue,
    },
    StateRow {
        old: b"2000;1;1;;0;;",
        new: b"2000;1;1;;0;9;",
        line: 5,
        cause: StateCause::BadValue,
    },
    // The text of version 1 under the heading of version 2.
    StateRow {
        old: b"2000;1;1;;0;;",
        new: b"2000;1;1;",
        line: 5,
        cause: StateCause::BadLine,
    },
    StateRow {
        old: b"comment;1;1",
        new: b"comment;3;1",
        line: 10,
        cause: StateCause::BadValue,
    },
    StateRow {
        old: b"downtimes;2",
        new: b"downtimes;3",
        line: 14,
        cause: StateCause::BadLine,
    },
    StateRow {
        old: b"downtime;2;1",
        new: b"downtime;3;1",
        line: 13,
        cause: StateCause::BadValue,
    },
    StateRow {
        old: b"entries;9",
        new: b"entries;1099511627776",
        line: 3,
        cause: StateCause::BadValue,
    },
    StateRow {
        old: b"comments;2;1",
        new: b"comments;10;1",
        line: 9,
        cause: StateCause::BadValue,
    },
    // Of two wrong values the first is the fault: a clock before the entries,
    StateRow {
        old: b"clock;550\nentries;9",
        new: b"clock;1099511627776\nentries;1099511627776",
        line: 2,
        cause: StateCause::BadValue,
    },
    // an attempt before a comment's id,
    StateRow {
        old: b"2;1;3;2;1;300;2;;1;1;300;100;300;disk full\ncontact;ann;1;1\ncontact;bob;1;1\ncomments;2;1\ncomment;1;1",
        new: b"2;1;4;2;1;300;2;;1;1;300;100;300;disk full\ncontact;ann;1;1\ncontact;bob;1;1\ncomments;2;1\ncomment;3;1",
        line: 6,
        cause: StateCause::BadValue,
    },
    // a comment's time before the id of the next comment,
    StateRow {
        old: b"comments;2;1\ncomment;1;1;web;http;1;1;400;ann;on it\n",
        new: b"comments;2;2\ncomment;1;1;web;http;1;1;1099511627776;ann;on it\ncomment;1;1;web;http;1;1;400;ann;on it\n",
        line: 10,
        cause: StateCause::BadValue,
    },
    // and an author in two lines before the id of the next downtime.
    StateRow {
        old: b"500;600;ann;move\ndowntime;2;1",
        new: b"500;600;an\nn;move\ndowntime;3;1",
        line: 12,
        cause: StateCause::BadLine,
    },
    // A lost semicolon is a fault of its own line: the one after an author,
    StateRow {
        old: b"400;ann;on it",
        new: b"400;ann on it",
        line: 10,
        cause: StateCause::BadLine,
    },
    // and those after a fate.
    StateRow {
        old: b"430;active;500;600;ann;move",
        new: b"430;active",
        line: 12,
        cause: StateCause::BadLine,
    },
    StateRow {
        old: b"430;active;500;600;ann;move",
        new: b"430;",
        line: 12,
        cause: StateCause::BadLine,
    },
    // The moments of an active downtime are missing.
    StateRow {
        old: b"430;active;500;600",
        new: b"430;active;;",
        line: 12,
        cause: StateCause::BadLine,
    },
    StateRow {
        old: b"end;13\n",
        new: b"",
        line: 14,
        cause: StateCause::NotAsWritten,
    },
    StateRow {
        old: b"end;13",
        new: b"end;12",
        line: 14,
        cause: StateCause::NotAsWritten,
    },
    StateRow {
        old: b"end;13\n",
        new: b"end;13\n\n",
        line: 15,
        cause: StateCause::NotAsWritten,
    },
];

/// The same rows for the state in version 1.
const REFUSED_FIRST: &[StateRow] = &[
    StateRow {
        old: b"2;1;3;2;1;300",
        new: b"2;1;4;2;1;300",
        line: 6,
        cause: StateCause::BadValue,
    },
    StateRow {
        old: b"downtime;2;1",
        new: b"downtime;3;1",
        line: 13,
        cause: StateCause::BadValue,
    },
];

/// A state with two pieces replaced, of which the first has its fault in an earlier line or none.
struct FarRow {
    first: (&'static [u8], &'static [u8]),
    second: (&'static [u8], &'static [u8]),
    line: u64,
    cause: StateCause,
}

const REFUSED_FAR: &[FarRow] = &[
    // No entry can have scheduled the downtimes: with no comments their count is in line 10.
    FarRow {
        first: (b"entries;9", b"entries;0"),
        second: (
            b"comments;2;1\ncomment;1;1;web;http;1;1;400;ann;on it\n",
            b"comments;0;0\n",
        ),
        line: 10,
        cause: StateCause::BadValue,
    },
    // A field that cannot be read is refused before a value that does not fit.
    FarRow {
        first: (b"clock;550", b"clock;1099511627776"),
        second: (b"active;500;620", b"active;500;x"),
        line: 13,
        cause: StateCause::BadLine,
    },
];

/// The text with the first piece `old` replaced; the text must have such a piece.
fn replaced(alloc: Global, whole: &[u8], old: &[u8], new: &[u8]) -> Result<Vec<u8>, Memory> {
    let mut text = Vec::new(alloc);
    for place in 0..whole.len() {
        let (before, rest) = whole.split_at(place);
        if let Some(behind) = rest.strip_prefix(old) {
            text.extend_from_slice(before)?;
            text.extend_from_slice(new)?;
            text.extend_from_slice(behind)?;
            return Ok(text);
        }
    }
    Ok(text)
}

/// Compares the fault of a text with `wanted`.
fn refuse(
    rt: &impl Abort,
    alloc: Global,
    inventory: &[&[u8]],
    text: &[u8],
    wanted: StateFault,
) -> Result<(), Fail> {
    let inventory = inventory_of(rt, alloc, inventory)?;
    let Err(fault) = read_state(alloc, inventory, text) else {
        return Err(Fail::new("it is refused"));
    };
    assert_eq!(rt; fault, wanted);
    Ok(())
}

/// Compares the fault of each row of this state.
fn refuse_rows(
    rt: &impl Abort,
    alloc: Global,
    inventory: &[&[u8]],
    whole: &[u8],
    rows: &[StateRow],
) -> Result<(), Fail> {
    for row in rows {
        let text = replaced(alloc, whole, row.old, row.new)?;
        let wanted = StateFault {
            line: row.line,
            cause: row.cause,
        };
        refuse(rt, alloc, inventory, &text, wanted)?;
    }
    Ok(())
}

#[test]
fn other_texts_are_refused(rt: HostRuntime) -> Result<(), Fail> {
    let alloc = rt.alloc();
    refuse_rows(&rt, alloc, WEB, STATE, REFUSED)
}

#[test]
fn other_texts_of_version_1_are_refused(rt: HostRuntime) -> Result<(), Fail> {
    let alloc = rt.alloc();
    refuse_rows(&rt, alloc, WEB, FIRST_STATE, REFUSED_FIRST)
}

#[test]
fn the_first_of_two_faults_is_named(rt: HostRuntime) -> Result<(), Fail> {
    let alloc = rt.alloc();
    for row in REFUSED_FAR {
        let once = replaced(alloc, STATE, row.first.0, row.first.1)?;
        let text = replaced(alloc, &once, row.second.0, row.second.1)?;
        let wanted = StateFault {
            line: row.line,
            cause: row.cause,
        };
        refuse(&rt, alloc, WEB, &text, wanted)?;
    }
    Ok(())
}

/// Texts of feeds, and the line and the cause of the fault of each.
const REFUSED_FEEDS: &[(&[u8], u64, StateCause)] = &[
    (
        b"feeds;0;x\nfeed;0;2;0;\nlast;[9] RESTART_PROGRAM\n",
        1,
        StateCause::BadLine,
    ),
    // The number of the clock feed is that of no feed.
    (
        b"feeds;1;1\nfeed;0;2;0;\nlast;[9] RESTART_PROGRAM\n",
        1,
        StateCause::BadValue,
    ),
    // More commands of earlier files than commands in all.
    (
        b"feeds;0;1\nfeed;0;2;3;\nlast;[9] RESTART_PROGRAM\n",
        2,
        StateCause::BadValue,
    ),
    (
        b"feeds;0;1\nfeed;0;2;0;\nlost;[9] RESTART_PROGRAM\n",
        3,
        StateCause::BadLine,
    ),
];

#[test]
fn other_feeds_are_refused(rt: HostRuntime) -> Result<(), Fail> {
    let alloc = rt.alloc();
    for (text, line, cause) in REFUSED_FEEDS {
        let Err(fault) = read_feeds(alloc, text) else {
            return Err(Fail::new("it is refused"));
        };
        let wanted = StateFault {
            line: *line,
            cause: *cause,
        };
        assert_eq!(rt; fault, wanted);
    }
    Ok(())
}

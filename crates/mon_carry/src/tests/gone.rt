//! Tests of objects that are gone, and of states whose attempt is above the new greatest attempt.
use super::{
    ACTIVE, FIRST, NEW, OLD, SWITCHED, carried, comment, critical, downtime, object, parts_of,
    report,
};
use crate::CarryFault;
use cmd_types::Memory;
use mon_checks::Status;
use mon_downtime::Fate;
use mon_engine::Parts;
use std::alloc::{AllocError, Global};
use std::process::Abort;
use std::test::Fail;

/// Parts of the four objects: db has a comment and an active downtime, which started one of web; another downtime waits
/// for a trigger of db.
fn four(alloc: Global) -> Result<Parts, Memory> {
    let mut sql = critical(alloc)?;
    sql.number = 7;
    let objects = Vec::from_array(
        alloc,
        [
            object(alloc, false),
            sql,
            object(alloc, false),
            object(alloc, true),
        ],
    )?;
    let contacts = Vec::from_array(alloc, [SWITCHED, FIRST, SWITCHED])?;
    let mut parts = parts_of(alloc, objects, contacts)?;
    parts.comments.push(comment(alloc, 1, 1)?)?;
    parts.comments.push(comment(alloc, 2, 3)?)?;
    parts.downtimes.push(downtime(alloc, 1, 1, 0, ACTIVE)?)?;
    parts.downtimes.push(downtime(alloc, 2, 2, 1, ACTIVE)?)?;
    parts
        .downtimes
        .push(downtime(alloc, 3, 0, 0, Fate::Pending)?)?;
    parts
        .downtimes
        .push(downtime(alloc, 4, 3, 3, Fate::Pending)?)?;
    Ok(parts)
}

const REPORT: &[u8] = b"clock;550
program;1;1;0
host;web;UP;HARD;1;0;1;0;1;1;
service;web;http;OK;HARD;1;0;0;0;1;1;
contact;ann;1;1
contact;bob;0;1
comment;2;web;http;ack;1;400;ann;on it
downtime;2;web;;active;500;600;1;1;0;ann;move
downtime;4;web;http;pending;500;600;1;3;0;ann;move
";

fn report_of_four(rt: &impl Abort, alloc: Global) -> Result<Vec<u8>, Memory> {
    let parts = four(alloc)?;
    let Ok(parts) = carried(rt, alloc, NEW, parts, OLD) else {
        return Err(AllocError);
    };
    assert!(rt; parts.downtimes.len() == 4);
    report(rt, alloc, OLD, parts)
}

#[test]
fn what_is_gone_leaves_nothing_but_its_ids(rt: HostRuntime) -> Result<(), Fail> {
    let report = report_of_four(&rt, rt.alloc())?;
    assert_eq!(rt; report.as_slice(), REPORT);
    Ok(())
}

/// Whether the problem of a host is hard, its attempt, and since when it is hard, after the host got a new greatest
/// attempt. A problem that was hard before has been hard since 7.
fn under_attempts(
    rt: &impl Abort,
    alloc: Global,
    hard: bool,
    attempt: u64,
    new: &[u8],
) -> Result<(bool, u64, Option<u64>), Memory> {
    let mut web = object(alloc, false);
    web.status = Status {
        service: false,
        code: 1,
        hard,
        attempt,
    };
    web.moments.since = if hard { Some(7) } else { None };
    let objects = Vec::from_array(alloc, [web])?;
    let parts = parts_of(alloc, objects, Vec::new(alloc))?;
    let Ok(parts) = carried(rt, alloc, b"host;web;4;0;;\n", parts, new) else {
        return Err(AllocError);
    };
    match parts.objects.first() {
        None => Err(AllocError),
        Some(web) => Ok((web.status.hard, web.status.attempt, web.moments.since)),
    }
}

#[test]
fn attempts_are_within_the_most(rt: HostRuntime) -> Result<(), Fail> {
    let rows: [(bool, u64, &[u8], (bool, u64, Option<u64>)); 5] = [
        (false, 1, b"host;web;2;0;;\n", (false, 1, None)),
        (false, 2, b"host;web;2;0;;\n", (true, 2, Some(550))),
        (false, 3, b"host;web;2;0;;\n", (true, 2, Some(550))),
        (true, 4, b"host;web;2;0;;\n", (true, 2, Some(7))),
        (true, 4, b"host;web;9;0;;\n", (true, 4, Some(7))),
    ];
    for (hard, attempt, new, wanted) in rows {
        let found = under_attempts(&rt, rt.alloc(), hard, attempt, new)?;
        assert_eq!(rt; found, wanted);
    }
    Ok(())
}

#[test]
fn downtimes_need_an_object(rt: HostRuntime) -> Result<(), Fail> {
    let parts = four(rt.alloc())?;
    let Err(fault) = carried(&rt, rt.alloc(), NEW, parts, b"") else {
        return Err(Fail::new("there is no object"));
    };
    assert_eq!(rt; fault, CarryFault::NoObject);
    Ok(())
}

//! Tests of what is carried to a new inventory, by the report of the monitor that resumes from it.
use super::*;
use cmd_types::{Memory, Numbers, Text};
use mon_checks::Status;
use mon_downtime::{Downtime, Fate, Plan, Times};
use mon_engine::{Acknowledgement, Moments, Monitor, Object, Owed, Parts, Program};
use mon_inventory::Inventory;
use mon_notes::{BoxedText, Comment};
use mon_notify::ContactSwitch;
use std::alloc::{AllocError, Global};
use std::process::Abort;
use std::test::Fail;

mod examples;
mod gone;
mod owed;
mod told;

/// The profile's worked inventory: a host and its service.
const OLD: &[u8] = b"contact;ann;d,u,r,s;w,u,c,r,s
contact;bob;d,r;c,r
host;web;3;1800;d,u,r,s;ann
service;web;http;3;600;w,u,c,r,s;ann
";

/// The worked inventory with a contact, a host and a service before the others, and 2 as the greatest attempt of http.
const NEW: &[u8] = b"contact;cid;d,u,r,s;w,u,c,r,s
contact;ann;d,u,r,s;w,u,c,r,s
contact;bob;d,r;c,r
host;db;3;1800;d,u,r,s;ann
service;db;sql;3;600;w,u,c,r,s;ann
host;web;3;1800;d,u,r,s;ann
service;web;http;2;600;w,u,c,r,s;ann
";

fn text(alloc: Global, bytes: &[u8]) -> Result<Text, Memory> {
    Text::from_slice(alloc, bytes)
}

/// An object that has had no result.
fn object(alloc: Global, service: bool) -> Object {
    Object {
        status: Status::first(service),
        moments: Moments {
            checked: None,
            changed: 0,
            since: None,
        },
        output: Text::new(Vec::new(alloc)),
        acknowledgement: Acknowledgement::Unacknowledged,
        number: 0,
        last: None,
        notified: None,
        not_before: None,
        notify: true,
        passive: true,
    }
}

/// A service with an acknowledged problem and one notice sent.
fn critical(alloc: Global) -> Result<Object, Memory> {
    let mut http = object(alloc, true);
    http.status = Status {
        service: true,
        code: 2,
        hard: true,
        attempt: 3,
    };
    http.output = text(alloc, b"disk full")?;
    http.acknowledgement = Acknowledgement::Sticky;
    http.number = 1;
    http.last = Some(300);
    http.notified = Some(2);
    http.moments = Moments {
        checked: Some(310),
        changed: 290,
        since: Some(300),
    };
    Ok(http)
}

fn comment(alloc: Global, id: u64, object: u16) -> Result<Comment, Memory> {
    Ok(Comment {
        id,
        object,
        ack: true,
        persistent: true,
        time: 400,
        author: BoxedText::new(alloc, text(alloc, b"ann")?)?,
        text: BoxedText::new(alloc, text(alloc, b"on it")?)?,
    })
}

/// A downtime from second 500 to second 600, of this trigger and this fate.
fn downtime(
    alloc: Global,
    id: u64,
    object: u16,
    trigger_id: u64,
    fate: Fate,
) -> Result<Downtime, Memory> {
    Ok(Downtime {
        id,
        object,
        plan: Plan {
            times: Times {
                start_time: 500,
                end_time: 600,
                fixed: true,
                trigger_id,
                duration: 0,
            },
            author: text(alloc, b"ann")?,
            text: text(alloc, b"move")?,
        },
        entered: 430,
        fate,
    })
}

const ACTIVE: Fate = Fate::Active {
    since: 500,
    until: 600,
};

const SWITCHED: ContactSwitch = ContactSwitch {
    host: false,
    service: true,
};

const FIRST: ContactSwitch = ContactSwitch {
    host: true,
    service: true,
};

/// These contacts are owed the end of a problem, under this number.
fn owed_to(alloc: Global, contacts: &[u16], number: u64) -> Result<Owed, Memory> {
    let mut numbers = Numbers::new(Vec::new(alloc));
    for contact in contacts {
        numbers.push(alloc, *contact)?;
    }
    Ok(Owed {
        contacts: numbers,
        number,
    })
}

/// Parts of these objects and contacts, without comments and downtimes; nobody is owed the end of a problem.
fn parts_of(
    alloc: Global,
    objects: Vec<Object>,
    contacts: Vec<ContactSwitch>,
) -> Result<Parts, Memory> {
    let mut owed = Vec::new(alloc);
    for _ in &objects {
        owed.push(owed_to(alloc, &[], 0)?)?;
    }
    Ok(Parts {
        clock: 550,
        before: 9,
        program: Program {
            notifications: true,
            passive_host: true,
            passive_service: false,
        },
        objects,
        contacts,
        owed,
        last_comment: 2,
        comments: Vec::new(alloc),
        downtimes: Vec::new(alloc),
    })
}

/// The parts of the worked inventory: notices of web are off and those of bob on hosts; http is in an acknowledged
/// problem and in a downtime.
fn worked(alloc: Global) -> Result<Parts, Memory> {
    let mut web = object(alloc, false);
    web.notify = false;
    web.not_before = Some(2_000);
    let objects = Vec::from_array(alloc, [web, critical(alloc)?])?;
    let contacts = Vec::from_array(alloc, [FIRST, SWITCHED])?;
    let mut parts = parts_of(alloc, objects, contacts)?;
    parts.comments.push(comment(alloc, 1, 1)?)?;
    parts.downtimes.push(downtime(alloc, 1, 1, 0, Fate::Over)?)?;
    parts.downtimes.push(downtime(alloc, 2, 1, 0, ACTIVE)?)?;
    Ok(parts)
}

fn inventory(rt: &impl Abort, alloc: Global, text: &[u8]) -> Result<Inventory, Memory> {
    match Inventory::parse(alloc, text) {
        Ok(inventory) => Ok(inventory),
        Err(fault) => {
            assert!(rt; fault.cause == mon_inventory::Cause::Memory);
            Err(AllocError)
        }
    }
}

/// The parts under a new inventory.
fn carried(
    rt: &impl Abort,
    alloc: Global,
    old: &[u8],
    parts: Parts,
    new: &[u8],
) -> Result<Parts, CarryFault> {
    let old = inventory(rt, alloc, old)?;
    let new = inventory(rt, alloc, new)?;
    let None = parts.misfit(&old) else {
        return Err(CarryFault::Memory);
    };
    carry(alloc, &old, parts, &new)
}

/// The report of the monitor that resumes from these parts.
fn report(rt: &impl Abort, alloc: Global, text: &[u8], parts: Parts) -> Result<Vec<u8>, Memory> {
    let inventory = inventory(rt, alloc, text)?;
    let Ok(monitor) = Monitor::resume(alloc, inventory, parts) else {
        return Err(AllocError);
    };
    let mut report = Vec::new(alloc);
    assert!(rt; !monitor.is_broken());
    monitor.report(alloc, &mut report)?;
    Ok(report)
}

const REPORT: &[u8] = b"clock;550
program;1;1;0
host;db;UP;HARD;1;0;0;0;1;1;
service;db;sql;OK;HARD;1;0;0;0;1;1;
host;web;UP;HARD;1;0;0;0;0;1;
service;web;http;CRITICAL;HARD;2;2;1;1;1;1;disk full
contact;cid;1;1
contact;ann;1;1
contact;bob;0;1
comment;1;web;http;ack;1;400;ann;on it
downtime;2;web;http;active;500;600;1;0;0;ann;move
";

fn report_of_worked(rt: &impl Abort, alloc: Global) -> Result<Vec<u8>, Memory> {
    let parts = worked(alloc)?;
    let Ok(parts) = carried(rt, alloc, OLD, parts, NEW) else {
        return Err(AllocError);
    };
    report(rt, alloc, NEW, parts)
}

#[test]
fn an_acknowledged_problem_stands(rt: HostRuntime) -> Result<(), Fail> {
    let report = match report_of_worked(&rt, rt.alloc()) {
        Ok(report) => report,
        Err(_) => report_of_worked(&rt, rt.alloc())?,
    };
    assert_eq!(rt; report.as_slice(), REPORT);
    Ok(())
}

//! Tests of who is owed the end of a problem under a new inventory.
use super::{FIRST, carried, object, owed_to, parts_of};
use cmd_types::Memory;
use mon_checks::Status;
use mon_engine::{Owed, Parts};
use std::alloc::{AllocError, Global};
use std::process::Abort;
use std::test::Fail;

/// Three contacts, and the host web: ann and bob are its own contacts, cid is one of an escalation.
const OLD: &[u8] = b"option;recover_the_told;1
contact;ann;d,u,r,s;w,u,c,r,s
contact;bob;d,r;c,r
contact;cid;d,r;c,r
host;web;3;1800;d,u,r,s;ann,bob
escalation;web;;2;0;600;d;cid
";

/// The same without the option.
const WITHOUT: &[u8] = b"contact;ann;d,u,r,s;w,u,c,r,s
contact;bob;d,r;c,r
contact;cid;d,r;c,r
host;web;3;1800;d,u,r,s;ann,bob
escalation;web;;2;0;600;d;cid
";

/// Parts of the host web, with this code and this notification number; `owed` is who is owed the end of its problem.
fn parts(alloc: Global, code: u8, number: u64, owed: Owed) -> Result<Parts, Memory> {
    let mut web = object(alloc, false);
    web.status = Status {
        service: false,
        code,
        hard: true,
        attempt: 3,
    };
    web.moments.since = if code == 0 { None } else { Some(300) };
    web.number = number;
    let objects = Vec::from_array(alloc, [web])?;
    let contacts = Vec::from_array(alloc, [FIRST, FIRST, FIRST])?;
    let mut parts = parts_of(alloc, objects, contacts)?;
    parts.owed = Vec::from_array(alloc, [owed])?;
    Ok(parts)
}

/// The parts under the new inventory, where web is DOWN, three notices of that went out, and these contacts were owed
/// its end, under the number 2.
fn after(rt: &impl Abort, alloc: Global, owed: &[u16], new: &[u8]) -> Result<Parts, Memory> {
    let parts = parts(alloc, 1, 3, owed_to(alloc, owed, 2)?)?;
    let Ok(parts) = carried(rt, alloc, OLD, parts, new) else {
        return Err(AllocError);
    };
    Ok(parts)
}

/// One change of the inventory: its new text, an object's index there, who is owed the end of that object, and the
/// number.
type Change = (&'static [u8], usize, &'static [u16], u64);

/// The changes of the inventory `OLD`, under which ann, bob and cid were owed the end of web.
const CHANGES: [Change; 8] = [
    // nothing changed
    (OLD, 0, &[0, 1, 2], 2),
    // bob is gone
    (
        b"option;recover_the_told;1
contact;ann;d,u,r,s;w,u,c,r,s
contact;cid;d,r;c,r
host;web;3;1800;d,u,r,s;ann
escalation;web;;2;0;600;d;cid
",
        0,
        &[0, 1],
        2,
    ),
    // bob has no letter r for hosts
    (
        b"option;recover_the_told;1
contact;ann;d,u,r,s;w,u,c,r,s
contact;bob;d;c,r
contact;cid;d,r;c,r
host;web;3;1800;d,u,r,s;ann,bob
escalation;web;;2;0;600;d;cid
",
        0,
        &[0, 2],
        2,
    ),
    // web has no letter r
    (
        b"option;recover_the_told;1
contact;ann;d,u,r,s;w,u,c,r,s
contact;bob;d,r;c,r
contact;cid;d,r;c,r
host;web;3;1800;d,u,s;ann,bob
escalation;web;;2;0;600;d;cid
",
        0,
        &[],
        2,
    ),
    // ann is no contact of web, and bob is one of an escalation
    (
        b"option;recover_the_told;1
contact;ann;d,u,r,s;w,u,c,r,s
contact;bob;d,r;c,r
contact;cid;d,r;c,r
host;web;3;1800;d,u,r,s;cid
escalation;web;;2;0;600;d;bob
",
        0,
        &[1, 2],
        2,
    ),
    // other contacts and objects come before them, in another order; dan was owed nothing
    (
        b"option;recover_the_told;1
contact;cid;d,r;c,r
contact;dan;d,r;c,r
contact;bob;d,r;c,r
contact;ann;d,u,r,s;w,u,c,r,s
host;db;3;1800;d,u,r,s;ann,bob
host;web;3;1800;d,u,r,s;ann,bob,dan
escalation;web;;2;0;600;d;cid
",
        1,
        &[0, 2, 3],
        2,
    ),
    // db is new
    (
        b"option;recover_the_told;1
contact;ann;d,u,r,s;w,u,c,r,s
host;db;3;1800;d,u,r,s;ann
host;web;3;1800;d,u,r,s;ann
",
        0,
        &[],
        0,
    ),
    // the option is gone
    (WITHOUT, 0, &[], 0),
];

#[test]
fn who_was_owed_the_end_stays_owed_it(rt: HostRuntime) -> Result<(), Fail> {
    for (new, object, wanted, number) in CHANGES {
        let parts = match after(&rt, rt.alloc(), &[0, 1, 2], new) {
            Ok(parts) => parts,
            Err(_) => after(&rt, rt.alloc(), &[0, 1, 2], new)?,
        };
        let Some(owed) = parts.owed.get(object) else {
            return Err(Fail::new("the object is there"));
        };
        assert_eq!(rt; owed.contacts.as_slice(), wanted);
        assert_eq!(rt; owed.number, number);
    }
    Ok(())
}

#[test]
fn nobody_comes_in_addition(rt: HostRuntime) -> Result<(), Fail> {
    let rows: [&[u16]; 2] = [&[1], &[]];
    for was in rows {
        let parts = match after(&rt, rt.alloc(), was, OLD) {
            Ok(parts) => parts,
            Err(_) => after(&rt, rt.alloc(), was, OLD)?,
        };
        let Some(owed) = parts.owed.first() else {
            return Err(Fail::new("web is there"));
        };
        assert_eq!(rt; owed.contacts.as_slice(), was);
        assert_eq!(rt; owed.number, 2);
    }
    Ok(())
}

/// The parts after the option comes, where web has this code and this notification number.
fn with_option(rt: &impl Abort, alloc: Global, code: u8, number: u64) -> Result<Parts, Memory> {
    let parts = parts(alloc, code, number, owed_to(alloc, &[], 0)?)?;
    let Ok(parts) = carried(rt, alloc, WITHOUT, parts, OLD) else {
        return Err(AllocError);
    };
    Ok(parts)
}

#[test]
fn own_contacts_are_presumed_where_the_option_comes(rt: HostRuntime) -> Result<(), Fail> {
    let rows: [(u8, u64, &[u16], u64); 3] = [
        // a problem that was notified stands
        (1, 3, &[0, 1], 3),
        // nobody was notified of the problem
        (1, 0, &[], 0),
        // the problem is over
        (0, 3, &[], 0),
    ];
    for (code, number, wanted, last) in rows {
        let parts = match with_option(&rt, rt.alloc(), code, number) {
            Ok(parts) => parts,
            Err(_) => with_option(&rt, rt.alloc(), code, number)?,
        };
        let Some(owed) = parts.owed.first() else {
            return Err(Fail::new("web is there"));
        };
        assert_eq!(rt; owed.contacts.as_slice(), wanted);
        assert_eq!(rt; owed.number, last);
    }
    Ok(())
}

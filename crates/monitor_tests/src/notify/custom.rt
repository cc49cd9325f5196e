//! Custom notices: which may go out, and whom they reach, for each of the eight options.
use super::{HERE, MORE_LINES, NO_HOSTS, NO_SERVICES};
use crate::inventory::inventory_of;
use crate::support::same;
use cmd_types::Memory;
use mon_inventory::Inventory;
use mon_notify::{ContactSwitch, Facts, custom_recipients, custom_viable, increments};
use std::alloc::{AllocGlobal, Global};
use std::process::Abort;

/// An object whose state holds every other notice back: only switches and downtimes are asked.
const ASKED: Facts = Facts {
    program_on: true,
    object_on: true,
    depth: 0,
    host_depth: 0,
    host_up: false,
    letter_on: false,
    acknowledged: true,
    hard: false,
    clock: 500,
    not_before: Some(9_000),
    number: 0,
    code: 0,
    notified: None,
    last: Some(499),
    interval: 0,
    volatile: false,
    since: Some(499),
    delay: Some(300),
    above_back: Some(499),
    settle: Some(300),
};

/// Bits above the three that are read, all of them on.
const HIGHER: u64 = u64::MAX - 7;

fn check_viable(rt: &impl Abort, facts: &Facts, viable: &[bool; 8]) {
    for (options, may) in (0..8u64).zip(viable) {
        let got = (
            custom_viable(facts, options),
            custom_viable(facts, options | HIGHER),
        );
        same(rt, (options, got), (options, (*may, *may)));
    }
}

const OPEN: [bool; 8] = [true; 8];

const FORCED: [bool; 8] = [false, false, true, true, false, false, true, true];

const VIABLE: &[(Facts, [bool; 8])] = &[
    (ASKED, OPEN),
    (
        Facts {
            program_on: false,
            ..ASKED
        },
        FORCED,
    ),
    (
        Facts {
            object_on: false,
            ..ASKED
        },
        FORCED,
    ),
    (Facts { depth: 1, ..ASKED }, FORCED),
    (
        Facts {
            host_depth: 2,
            ..ASKED
        },
        FORCED,
    ),
];

#[test]
fn switches_and_downtimes_hold_back_what_is_not_forced(rt: HostRuntime) {
    for (facts, viable) in VIABLE {
        check_viable(&rt, facts, viable);
    }
}

#[test]
fn the_third_bit_counts(rt: HostRuntime) {
    let counts = [false, false, false, false, true, true, true, true];
    for (options, counted) in (0..8u64).zip(&counts) {
        let got = (increments(options), increments(options | HIGHER));
        same(&rt, (options, got), (options, (*counted, *counted)));
    }
}

/// The object, the notification number, the code, and who is told without options, by a broadcast,
/// by a forced notice and by a forced broadcast.
type Row = (u16, u64, u8, [&'static [u16]; 4]);

fn told(
    alloc: Global,
    rt: &impl Abort,
    inventory: &Inventory,
    switches: &[ContactSwitch],
    row: &Row,
    options: u64,
) -> Result<Vec<u16>, Memory> {
    let (object, number, code, _) = *row;
    assert!(rt; switches.len() == inventory.contacts().len());
    assert!(rt; object < inventory.object_count());
    custom_recipients(alloc, inventory, switches, object, number, code, options)
}

/// Compares who is told under these options; where memory is refused, the call is made again.
fn expect_told(
    rt: &(impl Abort + AllocGlobal),
    inventory: &Inventory,
    switches: &[ContactSwitch],
    row: &Row,
    options: u64,
    expected: &[u16],
) {
    let told = match told(rt.alloc(), rt, inventory, switches, row, options) {
        Ok(told) => told,
        Err(_) => {
            let again = told(rt.alloc(), rt, inventory, switches, row, options);
            again.expect(rt, "memory is refused twice")
        }
    };
    same(rt, told.as_slice(), expected);
}

/// Compares the recipients of a row, for each of the eight options and with all higher bits.
/// That a notice counts changes nobody: its number is an argument.
fn expect_row(
    rt: &(impl Abort + AllocGlobal),
    inventory: &Inventory,
    switches: &[ContactSwitch],
    row: &Row,
) {
    for (options, expected) in (0..8u64).zip(row.3.iter().chain(&row.3)) {
        expect_told(rt, inventory, switches, row, options, expected);
        expect_told(rt, inventory, switches, row, options | HIGHER, expected);
    }
}

fn expect(rt: &(impl Abort + AllocGlobal), switches: &[ContactSwitch], rows: &[Row]) {
    let inventory = inventory_of(rt, MORE_LINES);
    for row in rows {
        expect_row(rt, &inventory, switches, row);
    }
}

// the contacts: ann 0, bob 1, cid 2; the objects: web 0, http 1, db 2, sql 3. The contacts of web
// are bob and ann, those of http cid and ann, db has none, that of sql is bob. Escalations of http:
// 2 to 4 of c and r to bob, from 4 on of c to cid and bob, 3 of w to bob; of sql from 0 on of c to
// nobody; of web 1 of d to ann.
const BROADCASTS: &[Row] = &[
    (1, 1, 2, [&[0, 2], &[0, 1, 2], &[0, 2], &[0, 1, 2]]),
    (1, 4, 2, [&[1, 2], &[0, 1, 2], &[1, 2], &[0, 1, 2]]),
    (1, 2, 0, [&[1], &[0, 1, 2], &[1], &[0, 1, 2]]),
    (1, 5, 0, [&[0, 2], &[0, 1, 2], &[0, 2], &[0, 1, 2]]),
    // bob has not the letter of WARNING, and is told all the same
    (1, 3, 1, [&[1], &[0, 1, 2], &[1], &[0, 1, 2]]),
    (1, 3, 3, [&[0, 2], &[0, 1, 2], &[0, 2], &[0, 1, 2]]),
    (0, 1, 1, [&[0], &[0, 1], &[0], &[0, 1]]),
    (0, 2, 1, [&[0, 1], &[0, 1], &[0, 1], &[0, 1]]),
    (2, 1, 0, [&[], &[], &[], &[]]),
    // an escalation without contacts silences, but no broadcast
    (3, 7, 2, [&[], &[1], &[], &[1]]),
    (3, 7, 0, [&[1], &[1], &[1], &[1]]),
];

#[test]
fn a_broadcast_reaches_all_contacts_once(rt: HostRuntime) {
    expect(&rt, &[HERE, HERE, HERE], BROADCASTS);
}

const FORCED_NOTICES: &[Row] = &[
    (1, 1, 2, [&[2], &[2], &[0, 2], &[0, 1, 2]]),
    (1, 2, 0, [&[], &[2], &[1], &[0, 1, 2]]),
    (3, 0, 0, [&[], &[], &[1], &[1]]),
    (0, 1, 1, [&[0], &[0, 1], &[0], &[0, 1]]),
    (0, 2, 0, [&[0, 1], &[0, 1], &[0, 1], &[0, 1]]),
];

/// Of hosts alone, while the first contact is not told of them.
const FORCED_OF_HOSTS: &[Row] = &[
    (0, 1, 1, [&[], &[1], &[0], &[0, 1]]),
    (0, 2, 0, [&[1], &[1], &[0, 1], &[0, 1]]),
];

#[test]
fn a_forced_notice_asks_no_switch(rt: HostRuntime) {
    expect(&rt, &[NO_SERVICES, NO_SERVICES, NO_HOSTS], FORCED_NOTICES);
    expect(&rt, &[NO_HOSTS, HERE, HERE], FORCED_OF_HOSTS);
}

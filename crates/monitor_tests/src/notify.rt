//! Worked inventories: who is told, and at which interval.
mod custom;
mod examples;
mod withheld;

use crate::inventory::{FIVE_LINES, inventory_of};
use crate::support::same;
use cmd_types::Memory;
use mon_inventory::Inventory;
use mon_notify::{ContactSwitch, Letter, interval_in_force, letter_of, recipients};
use std::alloc::{AllocGlobal, Global};
use std::process::Abort;

// the objects: web 0, http 1, db 2, sql 3
const MORE_LINES: &[u8] = b"contact;ann;d,u,r,s;w,u,c,r,s
contact;bob;d,r;c,r
contact;cid;;w,u,c,r,s
host;web;3;1800;d,u,r,s;bob,ann
service;web;http;3;600;w,u,c,r,s;cid,ann
host;db;1;0;d;
service;db;sql;1;60;c;bob
escalation;web;http;2;4;300;c,r;bob
escalation;db;sql;0;0;0;c;
escalation;web;http;4;0;900;c;cid,bob
escalation;web;;1;1;30;d;ann
escalation;web;http;3;3;0;w;bob
";

const HERE: ContactSwitch = ContactSwitch {
    host: true,
    service: true,
};

/// The object, the notification number, the letter, whether notices escalate, and who is told.
type Row = (u16, u64, Letter, bool, &'static [u16]);

fn told(
    alloc: Global,
    rt: &impl Abort,
    inventory: &Inventory,
    switches: &[ContactSwitch],
    row: &Row,
) -> Result<Vec<u16>, Memory> {
    let (object, number, letter, escalate, _) = *row;
    assert!(rt; switches.len() == inventory.contacts().len());
    assert!(rt; object < inventory.object_count());
    recipients(alloc, inventory, switches, object, number, letter, escalate)
}

/// Compares the recipients of a row; where memory is refused, the call is made again.
fn expect_row(
    rt: &(impl Abort + AllocGlobal),
    inventory: &Inventory,
    switches: &[ContactSwitch],
    row: &Row,
) {
    let told = match told(rt.alloc(), rt, inventory, switches, row) {
        Ok(told) => told,
        Err(_) => {
            let again = told(rt.alloc(), rt, inventory, switches, row);
            again.expect(rt, "memory is refused twice")
        }
    };
    same(rt, told.as_slice(), row.4);
}

/// Compares the recipients of each row.
fn expect(rt: &(impl Abort + AllocGlobal), text: &[u8], switches: &[ContactSwitch], rows: &[Row]) {
    let inventory = inventory_of(rt, text);
    for row in rows {
        expect_row(rt, &inventory, switches, row);
    }
}

const ESCALATED: &[Row] = &[
    (1, 1, Letter::C, true, &[0]),
    (1, 2, Letter::C, true, &[1]),
    (1, 3, Letter::C, true, &[1]),
    (1, 3, Letter::R, true, &[1]),
    (1, 1, Letter::R, true, &[0]),
    (1, 2, Letter::W, true, &[0]),
    (1, 2, Letter::S, false, &[0]),
    (0, 2, Letter::D, true, &[0]),
];

#[test]
fn escalated_notices_reach_the_escalation_alone(rt: HostRuntime) {
    expect(&rt, FIVE_LINES, &[HERE, HERE], ESCALATED);
}

const IN_ORDER: &[Row] = &[
    (1, 1, Letter::C, true, &[0, 2]),
    (1, 4, Letter::C, true, &[1, 2]),
    (1, 4, Letter::C, false, &[0, 2]),
    (1, 4, Letter::R, true, &[1]),
    (1, 5, Letter::R, true, &[0, 2]),
    // the contact has not the letter
    (1, 3, Letter::W, true, &[]),
    (0, 2, Letter::U, true, &[0]),
    (0, 2, Letter::D, true, &[0, 1]),
    // an escalation without contacts silences
    (3, 0, Letter::C, true, &[]),
    (3, 1, Letter::C, true, &[]),
    (3, 1, Letter::C, false, &[1]),
    (2, 1, Letter::D, true, &[]),
];

#[test]
fn contacts_are_told_once_in_order_of_the_inventory(rt: HostRuntime) {
    expect(&rt, MORE_LINES, &[HERE, HERE, HERE], IN_ORDER);
}

const NO_SERVICES: ContactSwitch = ContactSwitch {
    host: true,
    service: false,
};

const NO_HOSTS: ContactSwitch = ContactSwitch {
    host: false,
    service: true,
};

const WITHOUT_SERVICES: &[Row] = &[
    (1, 1, Letter::C, true, &[2]),
    (0, 2, Letter::D, true, &[0, 1]),
];

const WITHOUT_HOSTS: &[Row] = &[
    (1, 1, Letter::C, true, &[0, 2]),
    (0, 2, Letter::D, true, &[1]),
];

#[test]
fn a_switch_is_of_one_kind_of_object(rt: HostRuntime) {
    let no_services = [NO_SERVICES, HERE, HERE];
    expect(&rt, MORE_LINES, &no_services, WITHOUT_SERVICES);
    let no_hosts = [NO_HOSTS, HERE, HERE];
    expect(&rt, MORE_LINES, &no_hosts, WITHOUT_HOSTS);
}

/// The object, the number, the code and the interval.
const INTERVALS: &[(u16, u64, u8, u64)] = &[
    (1, 1, 2, 600),
    (1, 2, 2, 300),
    (1, 3, 2, 300),
    (1, 4, 2, 300),
    (1, 5, 2, 900),
    (1, 3, 1, 0),
    (1, 2, 1, 600),
    (1, 3, 3, 600),
    (1, 2, 0, 600),
    (3, 0, 2, 0),
    (3, 0, 1, 60),
    (0, 1, 1, 30),
    (0, 2, 1, 1800),
    (0, 1, 2, 1800),
    (2, 1, 1, 0),
];

fn interval(rt: &impl Abort, inventory: &Inventory, object: u16, number: u64, code: u8) -> u64 {
    assert!(rt; object < inventory.object_count());
    interval_in_force(inventory, object, number, code)
}

#[test]
fn the_least_interval_that_matches_is_in_force(rt: HostRuntime) {
    let inventory = inventory_of(&rt, MORE_LINES);
    for (object, number, code, want) in INTERVALS {
        let got = interval(&rt, &inventory, *object, *number, *code);
        same(
            &rt,
            (*object, *number, *code, got),
            (*object, *number, *code, *want),
        );
    }
}

/// Whether an object is a service, its code, and the letter of its state.
const LETTERS: &[(bool, u8, Letter)] = &[
    (true, 0, Letter::R),
    (true, 1, Letter::W),
    (true, 2, Letter::C),
    (true, 3, Letter::U),
    (false, 0, Letter::R),
    (false, 1, Letter::D),
    (false, 2, Letter::U),
];

#[test]
fn states_have_their_letters(rt: HostRuntime) {
    for (service, code, letter) in LETTERS {
        same(&rt, letter_of(*service, *code), *letter);
    }
}

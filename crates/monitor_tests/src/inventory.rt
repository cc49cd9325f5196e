//! Inventories and what is read of them, and faults by their lines and causes.
mod examples;
mod telling;

use crate::support::same;
use cmd_types::Memory;
use mon_inventory::{Cause, Inventory, InventoryFault};
use std::alloc::{AllocGlobal, Global};
use std::process::Abort;
use telling::told;

pub const FIVE_LINES: &[u8] = b"contact;ann;d,u,r,s;w,u,c,r,s
contact;bob;d,r;c,r
host;web;3;1800;d,u,r,s;ann
service;web;http;3;600;w,u,c,r,s;ann
escalation;web;http;2;0;300;c,r;bob
";

fn parsed(alloc: Global, text: &[u8]) -> Result<Inventory, InventoryFault> {
    Inventory::parse(alloc, text)
}

/// What a text is read to. Where memory is refused, some line is in hand, and the call is made
/// again.
fn read(alloc: Global, rt: &impl Abort, text: &[u8]) -> Result<Inventory, InventoryFault> {
    match parsed(alloc, text) {
        Ok(inventory) => Ok(inventory),
        Err(fault) => {
            if fault.cause != Cause::Memory {
                return Err(fault);
            }
            assert!(rt; fault.line > 0);
            parsed(alloc, text)
        }
    }
}

/// The inventory that a text without a fault spells.
pub fn inventory_of(rt: &(impl Abort + AllocGlobal), text: &[u8]) -> Inventory {
    read(rt.alloc(), rt, text).expect(rt, "the text has no fault")
}

/// Compares what is told of the inventory that a text without a fault spells.
fn expect(rt: &(impl Abort + AllocGlobal), text: &[u8], expected: &[u8]) {
    let inventory = inventory_of(rt, text);
    same(rt, told(rt, &inventory).as_slice(), expected);
}

/// The line and the number of the cause of the first fault, or nothing twice.
fn first_fault(alloc: Global, rt: &impl Abort, text: &[u8]) -> (u64, u8) {
    match read(alloc, rt, text) {
        Ok(_) => (0, 0),
        Err(fault) => (fault.line, fault.cause.number()),
    }
}

const FIVE_TOLD: &[u8] = b"contact;ann;udrs;wucrs
contact;bob;dr;cr
object;web;;0;3;1800;udrs;0,;1,;
object;web;http;0;3;600;wucrs;0,;;0,
escalation;1;2;0;300;cr;1,
";

#[test]
fn five_lines_say_what_stands(rt: HostRuntime) {
    expect(&rt, FIVE_LINES, FIVE_TOLD);
}

/// A name, and the contact, the host and the service of web that are found by it.
type Found = (&'static [u8], Option<u16>, Option<u16>, Option<u16>);

const NAMES: &[Found] = &[
    (b"ann", Some(0), None, None),
    (b"bob", Some(1), None, None),
    (b"web", None, Some(0), None),
    (b"http", None, None, Some(1)),
];

fn expect_found(rt: &impl Abort, inventory: &Inventory, found: &Found) {
    let (name, contact, host, service) = *found;
    same(rt, (name, inventory.contact_of(name)), (name, contact));
    same(rt, (name, inventory.host_of(name)), (name, host));
    same(
        rt,
        (name, inventory.service_of(b"web", name)),
        (name, service),
    );
    same(
        rt,
        (name, inventory.service_of(b"http", name)),
        (name, None),
    );
}

#[test]
fn five_lines_are_found_by_name(rt: HostRuntime) {
    let inventory = inventory_of(&rt, FIVE_LINES);
    for found in NAMES {
        expect_found(&rt, &inventory, found);
    }
}

const REPEATED: &[u8] = b"contact;ann;;\r\r\n\r\n\ncontact;bob;;\nhost;web;1;0;r,d,r;bob,ann,bob\r";

const REPEATED_TOLD: &[u8] = b"contact;ann;;\ncontact;bob;;\nobject;web;;0;1;0;dr;1,0,;;\n";

#[test]
fn repeated_letters_and_contacts_count_once(rt: HostRuntime) {
    expect(&rt, REPEATED, REPEATED_TOLD);
}

const IN_ORDER: &[u8] = b"host;a;1;0;;
host;b;1;0;;
service;b;x;1;0;;
service;a;x;1;0;;
service;b;w;1;0;;
escalation;b;w;1;0;0;;
escalation;a;;1;0;0;;
escalation;b;w;5;0;0;;
";

const IN_ORDER_TOLD: &[u8] = b"object;a;;0;1;0;;;3,;1,
object;b;;1;1;0;;;2,4,;
object;b;x;1;1;0;;;;
object;a;x;0;1;0;;;;
object;b;w;1;1;0;;;;0,2,
escalation;4;1;0;0;;
escalation;0;1;0;0;;
escalation;4;5;0;0;;
";

#[test]
fn what_belongs_to_an_object_is_in_order(rt: HostRuntime) {
    expect(&rt, IN_ORDER, IN_ORDER_TOLD);
}

/// A text, and the line and the number of the cause of its first fault, or nothing twice.
type Row = (&'static [u8], u64, u8);

fn expect_faults(alloc: Global, rt: &impl Abort, rows: &[Row]) {
    for (text, line, cause) in rows {
        let fault = first_fault(alloc, rt, text);
        same(rt, (*text, fault), (*text, (*line, *cause)));
    }
}

const FIRST: &[Row] = &[
    (b"", 0, 0),
    (b"host;web;3;1800;d", 1, 1),
    (b"host;web;0;1800;;", 1, 2),
    (b"host;web;3;1800;w;", 1, 3),
    (b"contact;ann;;\ncontact;ann;;", 2, 4),
    (b"service;web;http;3;600;;", 1, 5),
    (b"host;web;3;1800;;\nescalation;web;http;1;0;0;;", 2, 6),
    (b"host;web;3;1800;;zed", 1, 7),
];

#[test]
fn the_first_fault_is_told(rt: HostRuntime) {
    expect_faults(rt.alloc(), &rt, FIRST);
}

const FORMS: &[Row] = &[
    (b"hosts;web;1;0;;", 1, 1),
    (b"host;web;1;0;;;", 1, 1),
    (b"host;;1;0;;", 1, 1),
    (b"host;web;1;0;;\nservice;web;;1;0;;", 2, 1),
    (b"contact;a,b;;", 1, 1),
    (b"host;web;1;0;;,", 1, 1),
    (b"host;web;x;0;d,;", 1, 1),
    (b"\r\n\n\rhost;web;1;0;;\r\n", 3, 1),
    (b"host;web;0;0;;\nnope", 1, 2),
];

#[test]
fn the_form_comes_first(rt: HostRuntime) {
    expect_faults(rt.alloc(), &rt, FORMS);
}

const NUMBERS: &[Row] = &[
    (b"host;web;1;1099511627775;;", 0, 0),
    (b"host;web;1;1099511627776;;", 1, 2),
    (b"host;web;0000000000001;0;;", 0, 0),
    (b"host;web;00000000000001;0;;", 1, 2),
    (b"host;web;1;;;", 1, 2),
    (b"host;web;1;-1;w;", 1, 2),
];

#[test]
fn numbers_have_thirteen_digits(rt: HostRuntime) {
    expect_faults(rt.alloc(), &rt, NUMBERS);
}

const LETTERS: &[Row] = &[
    (b"host;web;1;0;dd;", 1, 3),
    (b"contact;ann;w;", 1, 3),
    (b"contact;ann;;d", 1, 3),
    (b"host;web;1;0;;\nescalation;web;;1;0;0;w;", 2, 3),
    (b"host;web;1;0;;\nescalation;web;;1;0;0;s;", 2, 3),
    (b"host;web;1;0;;\nescalation;web;;0;0;0;d,u,r;", 0, 0),
];

#[test]
fn letters_are_those_of_the_kind(rt: HostRuntime) {
    expect_faults(rt.alloc(), &rt, LETTERS);
}

const EARLIER: &[Row] = &[
    (b"host;web;1;0;;\nhost;web;1;0;;zed", 2, 4),
    (b"host;a;1;0;;\nservice;a;x;1;0;;\nservice;a;x;1;0;;", 3, 4),
    (
        b"host;a;1;0;;\nhost;b;1;0;;\nservice;a;x;1;0;;\nservice;b;x;1;0;;",
        0,
        0,
    ),
    (b"service;web;http;1;0;;\nhost;web;1;0;;", 1, 5),
    (b"host;web;1;0;;ann\ncontact;ann;;", 1, 7),
    (b"escalation;web;;1;0;0;;zed", 1, 5),
];

#[test]
fn names_stand_in_earlier_lines(rt: HostRuntime) {
    expect_faults(rt.alloc(), &rt, EARLIER);
}

const OPTION: &[Row] = &[
    (b"option;passive_host_checks_are_soft;0", 0, 0),
    (b"option;passive_host_checks_are_soft;1", 0, 0),
    (
        b"host;web;1;0;;\noption;passive_host_checks_are_soft;1\r\nhost;db;1;0;;",
        0,
        0,
    ),
    (b"option;tell_by_clock;0", 0, 0),
    (
        b"option;tell_by_clock;1\noption;passive_host_checks_are_soft;0",
        0,
        0,
    ),
    (b"option;recover_the_told;1\noption;tell_by_clock;1", 0, 0),
    (b"option;recover_the_told;2", 1, 2),
    (
        b"option;recover_the_told;1\noption;recover_the_told;1",
        2,
        4,
    ),
    (b"option;recover_the_tol;1", 1, 1),
    (b"option;soft;1", 1, 1),
    (b"option;;1", 1, 1),
    (b"option;tell_by_clocks;1", 1, 1),
    (b"option;passive_host_checks_are_sof;1", 1, 1),
    (b"option", 1, 1),
    (b"option;passive_host_checks_are_soft", 1, 1),
    (b"option;passive_host_checks_are_soft;1;", 1, 1),
    (b"option;soft;2", 1, 1),
    (b"option;passive_host_checks_are_soft;", 1, 2),
    (b"option;passive_host_checks_are_soft;2", 1, 2),
    (b"option;passive_host_checks_are_soft;on", 1, 2),
    (b"option;passive_host_checks_are_soft;00", 1, 2),
    (b"option;passive_host_checks_are_soft;01", 1, 2),
    (b"option;tell_by_clock;2", 1, 2),
    (b"option;tell_by_clock;1\noption;tell_by_clock;0", 2, 4),
    (
        b"option;passive_host_checks_are_soft;0\n\noption;passive_host_checks_are_soft;0",
        3,
        4,
    ),
    (
        b"option;passive_host_checks_are_soft;1\noption;passive_host_checks_are_soft;2",
        2,
        2,
    ),
];

#[test]
fn an_option_stands_anywhere_and_once(rt: HostRuntime) {
    expect_faults(rt.alloc(), &rt, OPTION);
}

const SOFT_HOSTS: &[(&[u8], bool)] = &[
    (b"", false),
    (b"host;web;1;0;;", false),
    (b"option;passive_host_checks_are_soft;0", false),
    (b"option;passive_host_checks_are_soft;1", true),
    (
        b"host;web;1;0;;\noption;passive_host_checks_are_soft;1\nhost;db;1;0;;",
        true,
    ),
];

#[test]
fn hosts_are_soft_where_the_option_says_so(rt: HostRuntime) {
    for (text, soft) in SOFT_HOSTS {
        let inventory = inventory_of(&rt, text);
        same(&rt, inventory.passive_hosts_soft(), *soft);
        same(&rt, inventory.is_on(b"obsess_over_hosts"), false);
    }
}

const SETTLE: &[Row] = &[
    (b"settle;1", 0, 0),
    (
        b"host;web;1;0;;\nsettle;1099511627775\r\nhost;db;1;0;;",
        0,
        0,
    ),
    (b"settle", 1, 1),
    (b"settle;1;", 1, 1),
    (b"settles;1", 1, 1),
    (b"settle;", 1, 2),
    (b"settle;0", 1, 2),
    (b"settle;-1", 1, 2),
    (b"settle;1099511627776", 1, 2),
    (b"settle;60\n\nsettle;60", 3, 4),
    (b"settle;60\nsettle;0", 2, 2),
];

#[test]
fn settle_stands_anywhere_and_once(rt: HostRuntime) {
    expect_faults(rt.alloc(), &rt, SETTLE);
}

const DELAY: &[Row] = &[
    (b"host;web;1;0;;\ndelay;web;;1", 0, 0),
    (
        b"host;web;1;0;;\nservice;web;http;1;0;;\ndelay;web;http;1\ndelay;web;;1",
        0,
        0,
    ),
    (
        b"host;web;1;0;;\nhost;db;1;0;;\nservice;web;x;1;0;;\nservice;db;x;1;0;;\ndelay;web;x;1\ndelay;db;x;1",
        0,
        0,
    ),
    (b"host;web;1;0;;\ndelay;web;1", 2, 1),
    (b"host;web;1;0;;\ndelay;web;;1;", 2, 1),
    (b"host;web;1;0;;\ndelays;web;;1", 2, 1),
    (b"host;web;1;0;;\ndelay;;;1", 2, 1),
    (b"host;web;1;0;;\ndelay;;;0", 2, 1),
    (b"host;web;1;0;;\ndelay;web;;", 2, 2),
    (b"host;web;1;0;;\ndelay;web;;0", 2, 2),
    (b"host;web;1;0;;\ndelay;web;;1099511627776", 2, 2),
    (b"delay;web;;0", 1, 2),
    (b"host;web;1;0;;\ndelay;web;;1\ndelay;web;;0", 3, 2),
    (b"host;web;1;0;;\ndelay;web;;1\ndelay;web;;2", 3, 4),
    (
        b"host;web;1;0;;\nservice;web;http;1;0;;\ndelay;web;http;1\nvolatile;web;http\ndelay;web;http;1",
        5,
        4,
    ),
    (b"delay;web;;1\nhost;web;1;0;;", 1, 5),
    (b"delay;web;http;1", 1, 5),
    (b"host;web;1;0;;\ndelay;web;http;1", 2, 6),
    (
        b"host;web;1;0;;\ndelay;web;http;1\nservice;web;http;1;0;;",
        2,
        6,
    ),
];

#[test]
fn an_object_has_one_delay(rt: HostRuntime) {
    expect_faults(rt.alloc(), &rt, DELAY);
}

const VOLATILE: &[Row] = &[
    (
        b"host;web;1;0;;\nservice;web;http;1;0;;\nvolatile;web;http\ndelay;web;http;1",
        0,
        0,
    ),
    (
        b"host;web;1;0;;\nservice;web;x;1;0;;\nservice;web;y;1;0;;\nvolatile;web;x\nvolatile;web;y",
        0,
        0,
    ),
    (b"host;web;1;0;;\nvolatile;web", 2, 1),
    (b"host;web;1;0;;\nvolatile;web;http;", 2, 1),
    (b"host;web;1;0;;\nvolatiles;web;http", 2, 1),
    (b"host;web;1;0;;\nvolatile;web;", 2, 1),
    (b"host;web;1;0;;\nvolatile;;http", 2, 1),
    (
        b"host;web;1;0;;\nservice;web;http;1;0;;\nvolatile;web;http\nvolatile;web;http",
        4,
        4,
    ),
    (b"volatile;web;http\nhost;web;1;0;;", 1, 5),
    (b"host;web;1;0;;\nvolatile;web;http", 2, 6),
    (
        b"host;web;1;0;;\nhost;db;1;0;;\nservice;db;http;1;0;;\nvolatile;web;http",
        4,
        6,
    ),
];

#[test]
fn a_service_is_made_volatile_once(rt: HostRuntime) {
    expect_faults(rt.alloc(), &rt, VOLATILE);
}

const FURTHER: &[u8] = b"host;web;1;0;;
service;web;http;1;0;;
delay;web;http;300
host;db;1;0;;
volatile;web;http
service;web;ssh;1;0;;
delay;db;;20
volatile;web;ssh
";

/// Of each object its first notification delay, and whether it is volatile.
const FURTHER_SAID: &[(Option<u64>, bool)] = &[
    (None, false),
    (Some(300), true),
    (Some(20), false),
    (None, true),
];

#[test]
fn further_lines_are_of_their_object(rt: HostRuntime) {
    let inventory = inventory_of(&rt, FURTHER);
    same(&rt, inventory.object_count(), 4);
    for object in 0..inventory.object_count() {
        let directives = inventory.directives(object);
        let found = (directives.first_notification_delay, directives.is_volatile);
        let said = FURTHER_SAID.get(object as usize).copied();
        same(&rt, (object, Some(found)), (object, said));
    }
}

const SETTLED: &[(&[u8], Option<u64>)] = &[
    (b"", None),
    (b"host;web;1;0;;\ndelay;web;;20", None),
    (b"settle;300", Some(300)),
    (b"settle;0000000000300\nhost;web;1;0;;", Some(300)),
];

#[test]
fn settle_is_what_its_line_says(rt: HostRuntime) {
    for (text, settle) in SETTLED {
        let inventory = inventory_of(&rt, text);
        same(&rt, (*text, inventory.settle()), (*text, *settle));
    }
}

/// Appends a line with its own number after its first part.
fn append(
    alloc: Global,
    first: &str,
    n: u32,
    rest: &str,
    text: &mut Vec<u8>,
) -> Result<(), Memory> {
    let line = format!(in alloc; "{first}{n}{rest}\n")?;
    text.extend_from_slice(line.as_bytes())
}

/// The first part of lines, their rest and how many there are, and the line and the number of the
/// cause of the first fault, or nothing twice.
type ManyRow = (&'static str, &'static str, u32, u64, u8);

/// Appends the lines of a row.
fn append_many(alloc: Global, row: &ManyRow, text: &mut Vec<u8>) -> Result<(), Memory> {
    let (first, rest, count, ..) = *row;
    for n in 0..count {
        append(alloc, first, n, rest, text)?;
    }
    Ok(())
}

/// Many lines behind one of a host, or alone.
fn expect_many(rt: &(impl Abort + AllocGlobal), before: &[u8], row: &ManyRow) {
    let (first, _, count, line, cause) = *row;
    let mut text = Vec::new(rt.alloc());
    text.extend_from_slice(before).expect(rt, "there is memory");
    append_many(rt.alloc(), row, &mut text).expect(rt, "there is memory");
    let fault = first_fault(rt.alloc(), rt, &text);
    same(rt, (first, count, fault), (first, count, (line, cause)));
}

const LIMITS: &[ManyRow] = &[
    ("contact;c", ";;", 1_023, 0, 0),
    ("contact;c", ";;", 1_024, 1_024, 8),
    ("host;h", ";1;0;;", 4_095, 0, 0),
    ("host;h", ";1;0;;", 4_096, 4_096, 8),
];

#[test]
fn what_is_past_a_limit_is_too_many(rt: HostRuntime) {
    for row in LIMITS {
        expect_many(&rt, b"", row);
    }
}

const LIMITS_BELOW_A_HOST: &[ManyRow] = &[
    ("service;web;s", ";1;0;;", 4_094, 0, 0),
    ("service;web;s", ";1;0;;", 4_095, 4_096, 8),
    ("escalation;web;;", ";0;0;;", 4_095, 0, 0),
    ("escalation;web;;", ";0;0;;", 4_096, 4_097, 8),
];

#[test]
fn services_and_escalations_past_a_limit_are_too_many(rt: HostRuntime) {
    for row in LIMITS_BELOW_A_HOST {
        expect_many(&rt, b"host;web;1;0;;\n", row);
    }
}

//! Tests of the words for a faulty line of an inventory, of a journal and of the file `state`, with each cause.
use super::{LineMeaning, expect_meanings};
use std::test::*;

/// The lines on an inventory, with each cause.
const INVENTORY: &[LineMeaning] = &[
    (
        "gateway: inventory line 2: 1",
        "line 2 has none of the forms contact;NAME;HOSTOPTS;SVCOPTS, host;NAME;MAX;INTERVAL;OPTS;CONTACTS, service;HOST;DESC;MAX;INTERVAL;OPTS;CONTACTS, escalation;HOST;DESC or empty;FIRST;LAST;INTERVAL;OPTS;CONTACTS, option;NAME;VALUE, settle;SECONDS, delay;HOST;DESC or empty;SECONDS and volatile;HOST;DESC (look at the first word and the number of fields; an option's NAME is passive_host_checks_are_soft, tell_by_clock or recover_the_told), or an empty name, an empty item in a list or a comma in a contact's name",
    ),
    (
        "gateway: inventory line 2: 2",
        "line 2 has a field that is no number, or none that may stand there",
    ),
    (
        "gateway: inventory line 2: 3",
        "line 2 has a letter that this kind of line does not allow",
    ),
    (
        "gateway: inventory line 2: 4",
        "line 2 defines again what a line before it defines",
    ),
    (
        "gateway: inventory line 2: 5",
        "line 2 names a host that no line before it defines",
    ),
    (
        "gateway: inventory line 2: 6",
        "line 2 names a service that no line before it defines",
    ),
    (
        "gateway: inventory line 2: 7",
        "line 2 names a contact that no line before it defines",
    ),
    (
        "gateway: inventory line 2: 8",
        "line 2 is one contact, host, service or escalation more than there may be",
    ),
    (
        "gateway: inventory line 2: 9",
        "line 2 could not be read: out of memory",
    ),
];

/// The lines on the inventory of a state directory.
const STATE_INVENTORY: &[LineMeaning] = &[
    (
        "gateway: state inventory line 12: 1",
        "line 12 of the inventory in the file state has none of the forms contact;NAME;HOSTOPTS;SVCOPTS, host;NAME;MAX;INTERVAL;OPTS;CONTACTS, service;HOST;DESC;MAX;INTERVAL;OPTS;CONTACTS, escalation;HOST;DESC or empty;FIRST;LAST;INTERVAL;OPTS;CONTACTS, option;NAME;VALUE, settle;SECONDS, delay;HOST;DESC or empty;SECONDS and volatile;HOST;DESC (look at the first word and the number of fields; an option's NAME is passive_host_checks_are_soft, tell_by_clock or recover_the_told), or an empty name, an empty item in a list or a comma in a contact's name",
    ),
    (
        "gateway: state inventory line 12: 2",
        "line 12 of the inventory in the file state has a field that is no number, or none that may stand there",
    ),
    (
        "gateway: state inventory line 12: 3",
        "line 12 of the inventory in the file state has a letter that this kind of line does not allow",
    ),
    (
        "gateway: state inventory line 12: 4",
        "line 12 of the inventory in the file state defines again what a line before it defines",
    ),
    (
        "gateway: state inventory line 12: 5",
        "line 12 of the inventory in the file state names a host that no line before it defines",
    ),
    (
        "gateway: state inventory line 12: 6",
        "line 12 of the inventory in the file state names a service that no line before it defines",
    ),
    (
        "gateway: state inventory line 12: 7",
        "line 12 of the inventory in the file state names a contact that no line before it defines",
    ),
    (
        "gateway: state inventory line 12: 8",
        "line 12 of the inventory in the file state is one contact, host, service or escalation more than there may be",
    ),
    (
        "gateway: state inventory line 12: 9",
        "line 12 of the inventory in the file state could not be read: out of memory",
    ),
];

/// The lines on a journal.
const JOURNAL: &[LineMeaning] = &[
    (
        "gateway: journal line 3: 1",
        "line 3 of the journal is neither the heading nor an entry: a clock, a feed, a place and a command",
    ),
    (
        "gateway: state journal line 30: 1",
        "line 30 of the last segment of the journal is neither the heading nor an entry: a clock, a feed, a place and a command",
    ),
    (
        "gateway: journal line 3: 2",
        "line 3 of the journal has a place that is not the next one of its feed",
    ),
    (
        "gateway: state journal line 30: 2",
        "line 30 of the last segment of the journal has a place that is not the next one of its feed",
    ),
    (
        "gateway: journal line 3: 3",
        "line 3 of the journal is one entry more than the limit allows",
    ),
    (
        "gateway: state journal line 30: 3",
        "line 30 of the last segment of the journal is one entry more than the limit allows",
    ),
    (
        "gateway: journal line 3: 4",
        "line 3 of the journal could not be read: out of memory",
    ),
    (
        "gateway: state journal line 30: 4",
        "line 30 of the last segment of the journal could not be read: out of memory",
    ),
    (
        "gateway: journal line 3: 5",
        "line 3 of the journal has a clock that is not the greatest time so far",
    ),
    (
        "gateway: state journal line 30: 5",
        "line 30 of the last segment of the journal has a clock that is not the greatest time so far",
    ),
];

/// The lines on the file `state`.
const STATE_LINE: &[LineMeaning] = &[
    (
        "gateway: state status",
        "the file status could not be written",
    ),
    (
        "gateway: state line 4: 1",
        "line 4 of the file state is not of the form that is due there",
    ),
    (
        "gateway: state line 4: 2",
        "line 4 of the file state has a value that nothing can have led to",
    ),
    (
        "gateway: state line 4: 3",
        "line 4 of the file state would be written otherwise: the file was cut or edited",
    ),
    (
        "gateway: state line 4: 4",
        "line 4 of the file state could not be read: out of memory",
    ),
    (
        "gateway: state line 10: 5",
        "line 10 of the file state names a version that this program does not read",
    ),
];

#[test]
fn causes_of_an_inventory(rt: HostRuntime) -> Result<(), Fail> {
    expect_meanings(&rt, INVENTORY)
}

#[test]
fn causes_of_the_inventory_of_a_state(rt: HostRuntime) -> Result<(), Fail> {
    expect_meanings(&rt, STATE_INVENTORY)
}

#[test]
fn causes_of_a_journal(rt: HostRuntime) -> Result<(), Fail> {
    expect_meanings(&rt, JOURNAL)
}

#[test]
fn causes_of_the_file_state(rt: HostRuntime) -> Result<(), Fail> {
    expect_meanings(&rt, STATE_LINE)
}

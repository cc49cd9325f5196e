//! Tests of the lines of a run that follows feeds, and of those of its status on the moments of objects: their texts,
//! and their meanings.
use super::{LineMeaning, expect_meanings};
use cmd_answer::{AbsentFeed, FollowLine};
use cmd_explain::{KnownLine, known_line};
use mon_inventory::Cause;
use std::test::*;

/// The lines on the run and on its feeds by their numbers.
const FOLLOWED: &[LineMeaning] = &[
    (
        "gateway: following 2 feeds, 8 entries, clock 1200",
        "feeds that are followed: 2; commands that were applied before: 8; the clock is 1200",
    ),
    (
        "gateway: feed 2 waits: line 9 is 3600 seconds ahead",
        "the command in line 9 of feed 2 waits; seconds from the system's clock to its time: 3600",
    ),
    (
        "gateway: feed 0: replaced",
        "the file of feed 0 got shorter, or its name is that of another file or of none",
    ),
    (
        "gateway: feed 1: begins anew",
        "the file of feed 1 is not the one that was read before, and is read from its beginning",
    ),
    (
        "gateway: clock: 3600 seconds ahead",
        "the system's clock jumped ahead of the time that passed; seconds: 3600; the clock feed uses it again once five readings agree",
    ),
];

/// The lines on a new inventory.
const INVENTORIES: &[LineMeaning] = &[
    (
        "gateway: inventory: 12 hosts, 40 services",
        "a new inventory was taken without a restart; hosts: 12; services: 40",
    ),
    (
        "gateway: inventory refused: line 2: 2",
        "line 2 of the new inventory has a field that is no number, or none that may stand there; the old inventory stays in force",
    ),
    (
        "gateway: inventory refused: line 31: 7",
        "line 31 of the new inventory names a contact that no line before it defines; the old inventory stays in force",
    ),
    (
        "gateway: inventory refused: line 2: 9",
        "line 2 of the new inventory could not be read: out of memory; the old inventory stays in force",
    ),
];

/// The lines on feeds whose files cannot be read yet.
const ABSENT: &[LineMeaning] = &[
    (
        "gateway: feed /var/spool/checks: not there",
        "the file of this feed is not there; the program looks again each second, and the other feeds continue",
    ),
    (
        "gateway: feed /var/spool/checks: not opened",
        "the file of this feed cannot be opened or read; the program looks again each second, and the other feeds continue",
    ),
    (
        "gateway: feed : not there",
        "the file of this feed is not there; the program looks again each second, and the other feeds continue",
    ),
    (
        "gateway: feed a: not there: not opened",
        "the file of this feed cannot be opened or read; the program looks again each second, and the other feeds continue",
    ),
];

/// The lines of the status on the moments of an object, with each word for what withholds a notice.
const TIMES: &[LineMeaning] = &[
    (
        "times;1200;900;;;",
        "nothing withholds a notice of the object now",
    ),
    (
        "times;1200;900;900;1000;program",
        "nobody is notified of the problem now: notifications are off",
    ),
    (
        "times;1200;900;900;;switch",
        "nobody is notified of the problem now: its notifications are off",
    ),
    (
        "times;1200;900;900;;downtime",
        "nobody is notified of the problem now: it or its host is in a downtime",
    ),
    (
        "times;1200;900;900;;host",
        "nobody is notified of the problem now: its host is not UP",
    ),
    (
        "times;1200;900;900;;letter",
        "nobody is notified of the problem now: its options lack the letter of its state",
    ),
    (
        "times;1200;900;900;1000;acknowledged",
        "nobody is notified of the problem now: it is acknowledged",
    ),
    (
        "times;1200;1200;;;soft",
        "nobody is notified of the problem now: its state is soft",
    ),
    (
        "times;1200;900;900;1000;not_before",
        "nobody is notified of the problem now: the time of a DELAY has not come",
    ),
    (
        "times;1200;900;900;1000;interval",
        "nobody is notified of the problem now: this state was notified, and the interval is 0 or not over",
    ),
    (
        "times;1200;900;900;;delay",
        "nobody is notified of the problem now: its first notification delay is not over",
    ),
    (
        "times;1200;900;900;;settle",
        "nobody is notified of the problem now: its host came back too short a time ago for a first notice",
    ),
    (
        "times;1099511627775;1099511627775;1099511627775;1099511627775;nobody",
        "nobody is notified of the problem now: no contact may get the notice",
    ),
    (
        "times;;0;;;",
        "nothing withholds a notice of the object now",
    ),
];

/// Lines that look like those on the moments of an object, but that no status has.
const FAULTY_TIMES: &[&str] = &[
    "times;12x0;900;900;;soft",
    "times;1200;900;900;x;soft",
    "times;1200;900;900;;soft ",
    "times;1200;900;900;;SOFT",
    "times;1200;900;900;;soft;",
    "times;1200;900;900;soft",
    "times;1200;900;900;;;soft",
    "times;1200;900;900;-1;soft",
    "times; 1200;900;900;;soft",
    "times;1200;900;900;;silent",
    "times;1200;900;900;",
    "times;",
    "times",
    " times;1200;900;;;",
    "time;1200;900;;;",
];

/// Paths that have the words and the numbers of other lines.
const PATHS: &[&str] = &[
    "",
    " ",
    "3",
    "3: replaced",
    "3: begins anew",
    "3: whole",
    "2 waits: line 9 is 3600 seconds ahead",
    "gateway: feed 3: replaced",
    "gateway: open a",
    ": not there",
    "a: not opened",
    "a: not there: not opened: not there",
    "99999999999999999999999999",
    "zone\u{e9} 1",
    "a\r",
];

#[test]
fn lines_on_a_run_and_its_feeds(rt: HostRuntime) -> Result<(), Fail> {
    expect_meanings(&rt, FOLLOWED)
}

#[test]
fn lines_on_a_new_inventory(rt: HostRuntime) -> Result<(), Fail> {
    expect_meanings(&rt, INVENTORIES)
}

#[test]
fn lines_on_feeds_that_cannot_be_read(rt: HostRuntime) -> Result<(), Fail> {
    expect_meanings(&rt, ABSENT)
}

#[test]
fn lines_on_the_moments_of_an_object(rt: HostRuntime) -> Result<(), Fail> {
    expect_meanings(&rt, TIMES)
}

#[test]
fn faulty_lines_on_the_moments_of_an_object(rt: HostRuntime) -> Result<(), Fail> {
    let alloc = rt.alloc();
    for line in FAULTY_TIMES {
        assert!(rt; known_line(alloc, line.as_bytes()) == Ok(None), "{line}");
    }
    Ok(())
}

#[test]
fn texts_of_lines_on_a_new_inventory(rt: HostRuntime) -> Result<(), Fail> {
    let alloc = rt.alloc();
    let taken = FollowLine::NewInventory {
        hosts: 12,
        services: 40,
    };
    let Ok(text) = taken.text(alloc) else {
        return Err(Fail::new("there is memory"));
    };
    assert_eq!(rt;
        text.as_str(),
        "gateway: inventory: 12 hosts, 40 services\n"
    );
    let refused = FollowLine::InventoryRefused {
        line: 31,
        cause: Cause::UnknownContact,
    };
    let Ok(text) = refused.text(alloc) else {
        return Err(Fail::new("there is memory"));
    };
    assert_eq!(rt; text.as_str(), "gateway: inventory refused: line 31: 7\n");
    Ok(())
}

#[test]
fn a_path_may_have_the_words_of_other_lines(rt: HostRuntime) -> Result<(), Fail> {
    let alloc = rt.alloc();
    for path in PATHS {
        for (is_there, words) in [(false, "not there"), (true, "not opened")] {
            let feed = AbsentFeed { path, is_there };
            let Ok(text) = feed.text(alloc) else {
                return Err(Fail::new("there is memory"));
            };
            let line = format!(in alloc; "gateway: feed {path}: {words}")?;
            assert!(rt;
                text.as_bytes().strip_suffix(b"\n") == Some(line.as_bytes()),
                "{path}"
            );
            let known = known_line(alloc, line.as_bytes());
            assert!(rt; known == Ok(Some(KnownLine::Absent { is_there })), "{path}");
        }
    }
    Ok(())
}

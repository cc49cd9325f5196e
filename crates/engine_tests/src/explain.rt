//! Tests of the words for lines, through the public calls of `cmd_explain`. The expected words are those of
//! docs/profile.md.
mod causes;
mod ends;
mod examples;
mod followed;

use cmd_explain::{explain, known_line, serve_explain};
use std::alloc::{AllocGlobal, Global};
use std::process::Abort;
use std::test::*;

/// A line that the program prints, and its meaning.
type LineMeaning = (&'static str, &'static str);

/// The lines on refused lines.
const REFUSED: &[LineMeaning] = &[
    (
        "refused;1;17;1;0",
        "line 17 of feed 1 is no command: it is too long",
    ),
    (
        "refused;1;17;2;0",
        "line 17 of feed 1 is no command: the feed broke off in it",
    ),
    (
        "refused;1;17;3;0",
        "line 17 of feed 1 is no command: it does not begin with [",
    ),
    (
        "refused;1;17;4;0",
        "line 17 of feed 1 is no command: no whole number of 1 to 13 digits up to 1,099,511,627,775 stands between [ and ]",
    ),
    (
        "refused;1;17;5;0",
        "line 17 of feed 1 is no command: no space stands behind ]",
    ),
    (
        "refused;1;17;6;0",
        "line 17 of feed 1 is no command: no command has this name",
    ),
    (
        "refused;1;17;7;2",
        "line 17 of feed 1 is no command: argument 2 is missing",
    ),
    (
        "refused;1;17;8;2",
        "line 17 of feed 1 is no command: argument 2 is an empty name",
    ),
    (
        "refused;1;17;9;2",
        "line 17 of feed 1 is no command: argument 2 is no number, or none that may stand there",
    ),
    (
        "refused;1;17;10;0",
        "line 17 of feed 1 is no command: memory was wanting",
    ),
];

/// The lines on rejected commands.
const REJECTED: &[LineMeaning] = &[
    (
        "rejected;3;40;1",
        "command 40 of feed 3 had no effect: there is no such host",
    ),
    (
        "rejected;3;40;2",
        "command 40 of feed 3 had no effect: there is no such service",
    ),
    (
        "rejected;3;40;3",
        "command 40 of feed 3 had no effect: there is no such contact",
    ),
    (
        "rejected;3;40;4",
        "command 40 of feed 3 had no effect: there is no such comment of that kind of object",
    ),
    (
        "rejected;3;40;5",
        "command 40 of feed 3 had no effect: there is no such downtime of that kind of object, or it is over",
    ),
    (
        "rejected;3;40;6",
        "command 40 of feed 3 had no effect: what it acknowledges is no problem",
    ),
    (
        "rejected;3;40;7",
        "command 40 of feed 3 had no effect: the downtime does not end after its start",
    ),
    (
        "rejected;3;40;8",
        "command 40 of feed 3 had no effect: the downtime's end is past",
    ),
    (
        "rejected;3;40;9",
        "command 40 of feed 3 had no effect: the downtime is flexible and lasts 0 seconds",
    ),
    (
        "rejected;3;40;10",
        "command 40 of feed 3 had no effect: the downtime's trigger was never scheduled",
    ),
    (
        "rejected;3;40;11",
        "command 40 of feed 3 had no effect: the downtime's trigger is over",
    ),
    (
        "rejected;3;40;12",
        "command 40 of feed 3 had no effect: passive results are switched off, for the program or for the object",
    ),
];

/// The other lines.
const OTHERS: &[LineMeaning] = &[
    (
        "gateway: usage",
        "the words ask for nothing that the program does, or a value is out of its range",
    ),
    ("gateway: input", "the input could not be read to its end"),
    (
        "gateway: feeds",
        "there is no separator, or no feed, or there are more than 64, a clock among them",
    ),
    ("gateway: feed twice", "the words name a feed twice"),
    (
        "gateway: told 4000.12: not there",
        "line 12 of the file told.4000 is not there; the lines begin at the first later one that is, or else at the first of all",
    ),
    (
        "gateway: open /var/spool/checks 7",
        "the file cannot be opened; or it is the inventory, and cannot be read to its end",
    ),
    ("gateway: memory", "memory was wanting"),
    ("gateway: output", "the output failed: not all stands there"),
];

/// Lines that the program does not print.
const UNKNOWN: &[&str] = &[
    "",
    " ",
    "    line 2 names a host that no line before it defines",
    "clock;1200",
    "host;web;UP;HARD;1;0;0;0;1;1;",
    "notice;220;PROBLEM;web;http;CRITICAL;1;ann",
    "figures;8;0;0;0",
    "gateway:",
    "gateway: ",
    "gateway: nothing",
    "gateway: usage ",
    "Nov 27 10:00:00 host gateway[12]: gateway: usage",
    " gateway: usage",
    "Gateway: usage",
    "gateway: open",
    "gateway: inventory line 2",
    "gateway: inventory line 2: ",
    "gateway: inventory line 2: 0",
    "gateway: inventory line 2: 10",
    "gateway: inventory line x: 7",
    "gateway: inventory line -2: 7",
    "gateway: inventory line 2: 7 ",
    "gateway: inventory line 1099511627776: 7",
    "gateway: inventory line 99999999999999999999999999: 7",
    "gateway: journal line 2: 6",
    "gateway: state line 2: 6",
    "gateway: state nothing",
    "gateway: fault 0 0",
    "gateway: fault 8 0",
    "gateway: fault 4 1",
    "gateway: fault 3 64",
    "gateway: feed 0: nothing",
    "gateway: feed: not there",
    "gateway: feeds checks: not there",
    "gateway: feed checks: not there ",
    "gateway: feed checks:  not there",
    "gateway: feed checks: not here",
    "gateway: feed checks: opened",
    "gateway: feed checks",
    "feed checks: not there",
    "gateway: inventory: 12 hosts",
    "gateway: inventory: 12 hosts, 40 services ",
    "gateway: inventory: 1099511627776 hosts, 40 services",
    "gateway: inventory refused",
    "gateway: inventory refused: line 2",
    "gateway: inventory refused: line 2: 0",
    "gateway: inventory refused: line 2: 10",
    "refused;0;2;3",
    "refused;0;2;3;1",
    "refused;0;2;0;0",
    "refused;0;2;11;0",
    "refused;0;2;7;256",
    "refused;0;2;3;0;0",
    "rejected;0;1;0",
    "rejected;0;1;13",
    "feed;0;8;nothing",
];

fn text_of(alloc: Global, lines: &[&str]) -> Result<Vec<u8>, Fail> {
    let mut text = Vec::new(alloc);
    for line in lines {
        text.extend_from_slice(line.as_bytes())?;
        text.push(b'\n')?;
    }
    Ok(text)
}

/// Asserts that each of these lines is followed by its meaning.
fn expect_meanings(rt: &(impl Abort + AllocGlobal), rows: &[LineMeaning]) -> Result<(), Fail> {
    let alloc = rt.alloc();
    for (line, meaning) in rows {
        let Ok((text, is_known)) = explain(alloc, line.as_bytes()) else {
            return Err(Fail::new("there is memory"));
        };
        let mut wanted = text_of(alloc, &[*line])?;
        wanted.extend_from_slice(b"    ")?;
        wanted.extend_from_slice(meaning.as_bytes())?;
        wanted.push(b'\n')?;
        assert!(rt; is_known, "{line}");
        assert!(rt; text.as_slice() == wanted.as_slice(), "{line}");
    }
    Ok(())
}

#[test]
fn refused_lines(rt: HostRuntime) -> Result<(), Fail> {
    expect_meanings(&rt, REFUSED)
}

#[test]
fn rejected_commands(rt: HostRuntime) -> Result<(), Fail> {
    expect_meanings(&rt, REJECTED)
}

#[test]
fn other_lines_of_the_program(rt: HostRuntime) -> Result<(), Fail> {
    expect_meanings(&rt, OTHERS)
}

#[test]
fn other_lines_are_left(rt: HostRuntime) -> Result<(), Fail> {
    let alloc = rt.alloc();
    for line in UNKNOWN {
        assert!(rt; known_line(alloc, line.as_bytes()) == Ok(None), "{line}");
    }
    let wanted = text_of(alloc, UNKNOWN)?;
    let Ok((text, is_known)) = explain(alloc, &wanted) else {
        return Err(Fail::new("there is memory"));
    };
    assert!(rt; !is_known);
    assert!(rt; text.as_slice() == wanted.as_slice());
    Ok(())
}

/// Words, the text that is printed for them, and the status.
const WORDS: &[(&[&str], &str, u8)] = &[
    (
        &["gateway:", "usage"],
        "gateway: usage\n    the words ask for nothing that the program does, or a value is out of its range\n",
        0,
    ),
    (
        &["gateway: feed 3: replaced"],
        "gateway: feed 3: replaced\n    the file of feed 3 got shorter, or its name is that of another file or of none\n",
        0,
    ),
    (
        &["gateway: memory\ngateway: output"],
        "gateway: memory\n    memory was wanting\ngateway: output\n    the output failed: not all stands there\n",
        0,
    ),
    (
        &["gateway: memory\nhello\n"],
        "gateway: memory\n    memory was wanting\nhello\n",
        1,
    ),
    (&["--help"], "--help\n", 1),
    (&["--", "gateway: memory"], "-- gateway: memory\n", 1),
    (&[""], "\n", 1),
    (&["", ""], " \n", 1),
    (&["\n"], "\n", 1),
];

#[test]
fn words_are_explained(rt: HostRuntime) -> Result<(), Fail> {
    let alloc = rt.alloc();
    for (words, wanted, wanted_status) in WORDS {
        let mut output = Vec::new(alloc);
        let mut input = b"gateway: feeds\n".as_slice();
        let Ok(status) = serve_explain(alloc, words, &mut input, &mut output) else {
            return Err(Fail::new("there is memory"));
        };
        assert!(rt; status == *wanted_status, "{wanted}");
        assert!(rt; output.as_slice() == wanted.as_bytes(), "{wanted}");
    }
    Ok(())
}

#[test]
fn an_input_is_explained(rt: HostRuntime) -> Result<(), Fail> {
    let alloc = rt.alloc();
    let mut output = Vec::new(alloc);
    let mut input = b"clock;2\r\n\nrefused;0;2;3;0\r\nrejected;0;1;1".as_slice();
    let Ok(status) = serve_explain(alloc, &[], &mut input, &mut output) else {
        return Err(Fail::new("there is memory"));
    };
    assert_eq!(rt; status, 0);
    let wanted =
        b"clock;2\r\n\nrefused;0;2;3;0\r\n    line 2 of feed 0 is no command: it does not begin with [\nrejected;0;1;1\n    command 1 of feed 0 had no effect: there is no such host\n";
    assert!(rt; output.as_slice() == wanted.as_slice());
    Ok(())
}

//! Tests of the words for the reason why a run did not begin, failed or ended, and for the ending of a feed.
use super::{LineMeaning, expect_meanings};
use std::test::*;

/// The lines on a run that failed.
const RUN: &[LineMeaning] = &[
    (
        "gateway: fault 1 0",
        "the run failed: an option is out of its range",
    ),
    ("fault;1;0", "the run failed: an option is out of its range"),
    ("gateway: fault 2 0", "the run failed: memory was wanting"),
    ("fault;2;0", "the run failed: memory was wanting"),
    (
        "gateway: fault 3 5",
        "the run failed: the thread of feed 5 was not started",
    ),
    (
        "fault;3;5",
        "the run failed: the thread of feed 5 was not started",
    ),
    (
        "gateway: fault 4 0",
        "the run failed: the limit was reached and another command came",
    ),
    (
        "fault;4;0",
        "the run failed: the limit was reached and another command came",
    ),
    ("gateway: fault 5 0", "the run failed: the queue was lost"),
    ("fault;5;0", "the run failed: the queue was lost"),
    (
        "gateway: fault 6 5",
        "the run failed: feed 5 wanted memory, or the queue refused what it sent",
    ),
    (
        "fault;6;5",
        "the run failed: feed 5 wanted memory, or the queue refused what it sent",
    ),
    (
        "gateway: fault 7 0",
        "the run failed: the output took nothing any more",
    ),
    (
        "fault;7;0",
        "the run failed: the output took nothing any more",
    ),
];

/// The lines on a state directory.
const STATE: &[LineMeaning] = &[
    (
        "gateway: state not there",
        "there is no such state directory",
    ),
    (
        "gateway: state lock",
        "the file lock of the state directory cannot be made or held",
    ),
    (
        "gateway: state in use",
        "another run holds the state directory",
    ),
    (
        "gateway: state read",
        "a file of the state directory cannot be read",
    ),
    ("gateway: state mark", "the file state has no line ---"),
    (
        "gateway: state inventory",
        "the inventory has no object, and that of the directory has some",
    ),
    (
        "gateway: state feeds",
        "a feed of the state is not given, the journal has an entry of another feed, or a path has a line feed",
    ),
    (
        "gateway: state told",
        "the file told does not match the journal; with status 3, the told lines could not be written",
    ),
    (
        "gateway: state full",
        "one more segment might have more entries than a state can count",
    ),
    ("gateway: state file", "the file state could not be written"),
    (
        "gateway: state journal",
        "a segment stands behind the last one of the state, or there is no state; with status 3, the journal could not be written",
    ),
    (
        "gateway: state sync",
        "the system does not keep what is written to the state directory",
    ),
];

/// The lines on a feed that has ended.
const ENDING: &[LineMeaning] = &[
    (
        "feed;0;8;whole",
        "commands that feed 0 gave: 8; it was read to its end",
    ),
    (
        "gateway: feed 63: whole",
        "feed 63 has ended: it was read to its end",
    ),
    (
        "feed;0;8;read-failed",
        "commands that feed 0 gave: 8; a read of it failed, or it broke off inside a line",
    ),
    (
        "gateway: feed 63: read-failed",
        "feed 63 has ended: a read of it failed, or it broke off inside a line",
    ),
    (
        "feed;0;8;too-many-reads",
        "commands that feed 0 gave: 8; it gave bytes at each of the most reads that a feed may have",
    ),
    (
        "gateway: feed 63: too-many-reads",
        "feed 63 has ended: it gave bytes at each of the most reads that a feed may have",
    ),
    (
        "feed;0;8;memory",
        "commands that feed 0 gave: 8; memory was wanting",
    ),
    (
        "gateway: feed 63: memory",
        "feed 63 has ended: memory was wanting",
    ),
    (
        "feed;0;8;queue-refused",
        "commands that feed 0 gave: 8; the queue took nothing any more",
    ),
    (
        "gateway: feed 63: queue-refused",
        "feed 63 has ended: the queue took nothing any more",
    ),
];

#[test]
fn runs_that_failed(rt: HostRuntime) -> Result<(), Fail> {
    expect_meanings(&rt, RUN)
}

#[test]
fn state_directories(rt: HostRuntime) -> Result<(), Fail> {
    expect_meanings(&rt, STATE)
}

#[test]
fn feeds_that_ended(rt: HostRuntime) -> Result<(), Fail> {
    expect_meanings(&rt, ENDING)
}

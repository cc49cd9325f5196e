//! What is held of a line that is not finished.
use super::{comment_line, expect, feed, next};
use crate::support::{joined, same};
use cmd_lines::{Item, Lines};
use std::alloc::{AllocGlobal, Global};
use std::process::Abort;

/// What is held of the text so far.
fn held<'a>(rt: &impl Abort, lines: &'a Lines) -> &'a [u8] {
    assert!(rt; !lines.ended());
    lines.held()
}

/// Feeds a piece and asks for what is next, and compares what is held before and after.
fn expect_held(alloc: Global, rt: &impl Abort, lines: &mut Lines, piece: &[u8], expected: &[u8]) {
    feed(alloc, rt, lines, piece);
    same(rt, held(rt, lines), expected);
    next(alloc, rt, lines);
    same(rt, held(rt, lines), expected);
}

/// A piece, and what is held after it.
const PIECES: &[(&[u8], &[u8])] = &[
    (b"", b""),
    (b"[1] RES", b"[1] RES"),
    (b"TART_PROGRAM\r", b"[1] RESTART_PROGRAM\r"),
    (b"\n", b""),
    (b"a\nb\nc", b"c"),
];

#[test]
fn what_follows_the_last_line_feed_is_held(rt: HostRuntime) {
    let mut lines = Lines::new(rt.alloc());
    for (piece, expected) in PIECES {
        expect_held(rt.alloc(), &rt, &mut lines, piece, expected);
    }
}

/// The time of a command, or the line that is refused and the number of its fault.
type Seen = Result<u64, (u64, u8)>;

/// What is next, where there is something.
fn seen(alloc: Global, rt: &impl Abort, lines: &mut Lines) -> Option<Seen> {
    match next(alloc, rt, lines) {
        None => None,
        Some(Item::Command(stamped)) => Some(Ok(stamped.time())),
        Some(Item::Refused { line, fault }) => Some(Err((line, fault.number()))),
    }
}

/// Feeds 4,096 letters of a line without end, of which so many bytes are held.
fn expect_endless(alloc: Global, rt: &impl Abort, lines: &mut Lines, held_bytes: usize) {
    feed(alloc, rt, lines, &[b'x'; 4_096]);
    same(rt, held(rt, lines).len(), held_bytes);
    same(rt, seen(alloc, rt, lines), None);
}

#[test]
fn a_line_without_end_is_held_to_8193_bytes(rt: HostRuntime) {
    let alloc = rt.alloc();
    let mut lines = Lines::new(alloc);
    for count in 1usize..=100 {
        let held_bytes = if count < 3 { count * 4_096 } else { 8_193 };
        expect_endless(alloc, &rt, &mut lines, held_bytes);
    }
    feed(alloc, &rt, &mut lines, b"\n[2] RESTART_PROGRAM\n");
    for want in [Some(Err((1, 1))), Some(Ok(2)), None] {
        same(&rt, seen(alloc, &rt, &mut lines), want);
    }
}

const RETURNS: &[u8] = &[b'\r'; 9_000];

/// Compares what is told of a line, 9,000 carriage returns and what follows.
fn expect_ending(rt: &(impl Abort + AllocGlobal), line: &[u8], after: &[u8], want: &[u8]) {
    let text = joined(rt, &[line, RETURNS, after]);
    expect(rt, &text, 4_096, true, want);
}

#[test]
fn carriage_returns_do_not_make_a_line_too_long(rt: HostRuntime) {
    let line = comment_line(&rt, 8_161);
    let ended = joined(&rt, &[&line, b"\n"]);
    expect_ending(&rt, &line, b"\n", &ended);
    expect_ending(&rt, &line, b"", &ended);
    expect_ending(&rt, &line, b"x\n", b"1;1;0\n");
    expect_ending(&rt, &line, b"x", b"1;1;0\n");
}

/// A piece, and the number of the first line that waits then.
const EMPTY: &[(&[u8], u64)] = &[
    (b"", 1),
    (b"\n\r\n", 3),
    (b"\r", 3),
    (b"\n", 4),
    (b"\r\r\nx\n\n", 5),
    (b"\n\n", 5),
];

#[test]
fn empty_lines_that_come_first_do_not_wait(rt: HostRuntime) {
    let alloc = rt.alloc();
    let mut lines = Lines::new(alloc);
    for (piece, first) in EMPTY {
        feed(alloc, &rt, &mut lines, piece);
        same(&rt, lines.first_waiting(), *first);
    }
    same(&rt, seen(alloc, &rt, &mut lines), Some(Err((5, 3))));
    same(&rt, lines.first_waiting(), 6);
    feed(alloc, &rt, &mut lines, b"\n");
    same(&rt, lines.first_waiting(), 10);
}

/// Feeds 4,096 empty lines, so that this one is the first that waits.
fn expect_empty(alloc: Global, rt: &impl Abort, lines: &mut Lines, first: u64) {
    feed(alloc, rt, lines, &[b'\n'; 4_096]);
    same(rt, lines.first_waiting(), first);
    same(rt, seen(alloc, rt, lines), None);
}

#[test]
fn line_feeds_without_end_do_not_wait(rt: HostRuntime) {
    let alloc = rt.alloc();
    let mut lines = Lines::new(alloc);
    for count in 1u64..=100 {
        expect_empty(alloc, &rt, &mut lines, count * 4_096 + 1);
    }
    feed(alloc, &rt, &mut lines, b"x\n");
    same(&rt, seen(alloc, &rt, &mut lines), Some(Err((409_601, 3))));
}

//! Calls that end without a report: faulty arguments, inputs, files and streams.
use super::{FAULTY, HOST, bundle, check_answer, compare, ends, expect, joined, run_over};
use crate::program::serve;
use cmd_live::System;
use std::alloc::AllocGlobal;
use std::io::{self, Read, Write};
use std::marker::Send;
use std::process::Abort;
use std::test::Fail;

/// Arguments and the parts of an input that end with exit status 2, and the one line on the error stream.
const ROWS: &[(&[&str], &[&[u8]], &[u8])] = &[
    (&[], &[], b"gateway: feeds\n"),
    (&["bundle"], &[HOST], b"gateway: feeds\n"),
    // A faulty inventory without a feed.
    (&[], &[FAULTY], b"gateway: feeds\n"),
    (&["files", "/nowhere/inventory"], &[], b"gateway: feeds\n"),
    (
        &["files", "/nowhere/inventory", "/nowhere/feed"],
        &[],
        b"gateway: open /nowhere/inventory\n",
    ),
    (&["files", "/", "/dev/null"], &[], b"gateway: open /\n"),
    // A faulty inventory, and a feed that does not exist: the inventory is reported first.
    (
        &["files", "/proc/self/mounts", "/nowhere/feed"],
        &[],
        b"gateway: inventory line 1: 1\n",
    ),
    (
        &["files", "/dev/null", "/dev/null", "/nowhere/feed"],
        &[],
        b"gateway: open /nowhere/feed\n",
    ),
    (
        &[],
        &[b"\nhost;web;0;0;;\n---\n"],
        b"gateway: inventory line 2: 2\n",
    ),
    (&["replay"], &[], b"gateway: feeds\n"),
    (&["replay"], &[HOST], b"gateway: feeds\n"),
    (
        &["replay"],
        &[FAULTY, b"---\n0 3 [1] RESTART_PROGRAM\n"],
        b"gateway: inventory line 1: 1\n",
    ),
    (
        &["replay"],
        &[HOST, b"---\n0 3 [1] RESTART_PROGRAM\n"],
        b"gateway: journal line 1: 2\n",
    ),
    (
        &["replay"],
        &[b"---\n0 1 [1] RESTART_PROGRAM\n0 3 [2] RESTART_PROGRAM\n"],
        b"gateway: journal line 2: 2\n",
    ),
    (
        &["replay"],
        &[b"---\n0 1 [1] NOPE\n"],
        b"gateway: journal line 1: 1\n",
    ),
    (
        &["replay"],
        &[b"---\n16 1 [1] RESTART_PROGRAM\n"],
        b"gateway: journal line 1: 1\n",
    ),
    (
        &["replay"],
        &[b"---\njournal;3\n"],
        b"gateway: journal line 1: 1\n",
    ),
    (
        &["replay"],
        &[b"---\njournal;2\n1 64 1 [1] RESTART_PROGRAM\n"],
        b"gateway: journal line 2: 1\n",
    ),
    (
        &["replay"],
        &[b"---\njournal;2\n500 0 1 [500] RESTART_PROGRAM\n400 0 2 [400] RESTART_PROGRAM\n"],
        b"gateway: journal line 3: 5\n",
    ),
    (
        &["replay"],
        &[b"---\n0 1 [1] RESTART_PROGRAM\n---\n"],
        b"gateway: journal line 2: 1\n",
    ),
    (
        &["replay", "--limit", "1"],
        &[b"---\n0 1 [1] RESTART_PROGRAM\n0 2 [2] RESTART_PROGRAM\n"],
        b"gateway: journal line 2: 3\n",
    ),
];

#[test]
fn inputs_at_fault(rt: HostRuntime) -> Result<(), Fail> {
    for (words, parts, line) in ROWS {
        expect(&rt, words, &joined(rt.alloc(), parts)?, (2, b"", line));
    }
    Ok(())
}

/// A reader that returns some bytes, one at a time, and then ends or fails.
#[derive(Drop)]
struct OneByOne<'a> {
    bytes: &'a [u8],
    fails: bool,
}

impl Read for OneByOne<'_> {
    fn read(&mut self, buf: &mut [u8]) -> io::Result<usize> {
        match (self.bytes.split_first(), buf.first_mut()) {
            (Some((first, others)), Some(place)) => {
                *place = *first;
                self.bytes = others;
                Ok(1)
            }
            _ if self.fails => Err(io::Error::from(io::ErrorKind::BrokenPipe)),
            _ => Ok(0),
        }
    }
}

/// A writer that takes one byte at each of a number of writes, and then fails.
#[derive(Drop)]
struct Full {
    writes: usize,
}

impl Write for Full {
    fn write(&mut self, buf: &[u8]) -> io::Result<usize> {
        if self.writes == 0 {
            return Err(io::Error::from(io::ErrorKind::BrokenPipe));
        }
        self.writes -= 1;
        Ok(buf.len().min(1))
    }

    fn flush(&mut self) -> io::Result<()> {
        Ok(())
    }
}

/// Arguments, and a feed or a journal that has a report.
const GOOD: &[(&[&str], &[u8])] = &[
    (&[], b"[1] ADD_HOST_COMMENT;web;1;ann;hello"),
    (&["replay"], b"0 1 [1] ADD_HOST_COMMENT;web;1;ann;hello"),
];

/// The report of each of them.
const REPORT: &[u8] = b"clock;1
program;1;1;1
host;web;UP;HARD;1;0;0;0;1;1;
comment;1;web;;user;1;1;ann;hello
";

/// Reads byte by byte from a stream that ends, and has a report.
fn slow_input<R: AllocGlobal + Abort + System + Sync>(rt: &R, words: &[&str], bytes: &[u8])
where
    R::File: Send,
    R::Dir: Send,
    R::Stream: Send,
{
    let input = OneByOne {
        bytes,
        fails: false,
    };
    let answer = run_over(rt, words, input);
    ends(rt, words, answer.status, 0);
    assert!(rt; answer.output.starts_with(REPORT));
    compare(rt, words, &answer.errors, b"");
}

/// Reads byte by byte from a stream that fails after its bytes, and has no report.
fn broken_input<R: AllocGlobal + Abort + System + Sync>(rt: &R, words: &[&str], bytes: &[u8])
where
    R::File: Send,
    R::Dir: Send,
    R::Stream: Send,
{
    let input = OneByOne { bytes, fails: true };
    let answer = run_over(rt, words, input);
    check_answer(rt, words, &answer, (2, b"", b"gateway: input\n"));
}

/// Writes to a stream that is full after a number of writes.
fn full_output<R: AllocGlobal + Abort + System + Sync>(
    rt: &R,
    words: &[&str],
    input: &[u8],
    writes: usize,
)
where
    R::File: Send,
    R::Dir: Send,
    R::Stream: Send,
{
    let mut errors = Vec::new(rt.alloc());
    let status = serve(rt, words, input, Full { writes }, &mut errors);
    ends(rt, words, status, 3);
    compare(rt, words, &errors, b"gateway: output\n");
}

/// Runs the program over streams that are slow, that fail and that are full.
fn check_streams<R: AllocGlobal + Abort + System + Sync>(rt: &R, words: &[&str], input: &[u8])
where
    R::File: Send,
    R::Dir: Send,
    R::Stream: Send,
{
    slow_input(rt, words, input);
    broken_input(rt, words, input);
    full_output(rt, words, input, 0);
    full_output(rt, words, input, 1);
}

#[test]
fn streams_that_fail(rt: HostRuntime) -> Result<(), Fail> {
    for (words, feed) in GOOD {
        let input = bundle(rt.alloc(), HOST, &[*feed])?;
        check_streams(&rt, words, &input);
    }
    Ok(())
}

#[test]
fn lines_are_explained_over_streams_that_fail(rt: HostRuntime) {
    let line = b"fault;4;0\n";
    let wanted = b"fault;4;0\n    the run failed: the limit was reached and another command came\n";
    expect(&rt, &["explain"], line, (0, wanted, b""));
    expect(&rt, &["explain", "fault;4;0"], b"", (0, wanted, b""));
    expect(&rt, &["explain", "hello"], line, (1, b"hello\n", b""));
    broken_input(&rt, &["explain"], line);
    full_output(&rt, &["explain"], line, 0);
    full_output(&rt, &["explain", "fault;4;0"], b"", 0);
}

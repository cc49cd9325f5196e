//! The program where any single allocation is refused: the refusal is reported, and the same work done again continues.
//! `bench/refuse-each gateway tests::memory` refuses each in turn.
use super::{Answer, HOST, THREE, UNTOLD, compare, ends, joined};
use crate::program::serve;
use cmd_live::System;
use cmd_types::Memory;
use std::alloc::{AllocError, AllocGlobal};
use std::marker::Send;
use std::process::Abort;
use std::test::Fail;

/// Runs the program over writers with room.
fn answered<R: AllocGlobal + System + Sync>(
    rt: &R,
    words: &[&str],
    bundle: &[&[u8]],
) -> Result<Answer, Memory>
where
    R::File: Send,
    R::Dir: Send,
    R::Stream: Send,
{
    let input = joined(rt.alloc(), bundle)?;
    let mut output = Vec::with_capacity(rt.alloc(), 4_096)?;
    let mut errors = Vec::with_capacity(rt.alloc(), 256)?;
    let status = serve(rt, words, input.as_slice(), &mut output, &mut errors);
    Ok(Answer {
        status,
        output,
        errors,
    })
}

/// Asserts that out of memory is reported: by its line on the error stream and no output, or by the fault of the run in
/// place of the report.
fn check_want(rt: &impl Abort, answer: &Answer) {
    let told = answer.errors.as_slice() == b"gateway: memory\n".as_slice()
        && answer.output.is_empty();
    let failed = answer.errors.is_empty() && answer.output.starts_with(b"fault;");
    assert!(rt; told || failed);
}

/// The output of the program, which ends with this exit status, or with 3 if memory runs out.
fn served<R: AllocGlobal + Abort + System + Sync>(
    rt: &R,
    words: &[&str],
    bundle: &[&[u8]],
    status: u8,
) -> Result<Vec<u8>, Memory>
where
    R::File: Send,
    R::Dir: Send,
    R::Stream: Send,
{
    let answer = answered(rt, words, bundle)?;
    if answer.status == 3 {
        check_want(rt, &answer);
        return Err(AllocError);
    }
    ends(rt, words, answer.status, status);
    compare(rt, words, &answer.errors, b"");
    Ok(answer.output)
}

/// Arguments, the parts of a bundle, the exit status and the whole output.
type Row = (
    &'static [&'static str],
    &'static [&'static [u8]],
    u8,
    &'static [u8],
);

const BUNDLES: &[Row] = &[
    (
        &[],
        &[HOST, THREE],
        0,
        b"clock;110
program;1;1;1
host;web;DOWN;HARD;1;0;0;0;1;1;no ping
comment;1;web;;user;1;100;ann;hello
rejected;0;3;4
feed;0;3;whole
",
    ),
    (
        &["--figures"],
        &[
            UNTOLD,
            b"---
[900] SCHEDULE_HOST_DOWNTIME;web;1000;2000;1;0;0;ann;move
100] X
[1000] DEL_HOST_COMMENT
",
        ],
        1,
        b"clock;900
program;1;1;1
host;web;UP;HARD;1;0;0;0;1;1;
service;web;http;OK;HARD;1;0;0;0;1;1;
downtime;1;web;;pending;1000;2000;1;0;0;ann;move
feed;0;1;whole
refused;0;2;3;0
refused;0;3;7;1
figures;1;0;0;0
",
    ),
    (
        &["explain"],
        &[b"clock;110\nrejected;0;3;4\n"],
        0,
        b"clock;110
rejected;0;3;4
    command 3 of feed 0 had no effect: there is no such comment of that kind of object
",
    ),
    (
        &["explain", "gateway:", "feed", "1:", "replaced"],
        &[],
        0,
        b"gateway: feed 1: replaced
    the file of feed 1 got shorter, or its name is that of another file or of none
",
    ),
];

/// Asserts that the output is the row's. Where memory was refused, everything is done once more.
fn check_row<R: AllocGlobal + Abort + System + Sync>(rt: &R, row: &Row) -> Result<(), Memory>
where
    R::File: Send,
    R::Dir: Send,
    R::Stream: Send,
{
    let (words, bundle, status, want) = row;
    let output = match served(rt, words, bundle, *status) {
        Ok(output) => output,
        Err(_) => served(rt, words, bundle, *status)?,
    };
    compare(rt, words, &output, want);
    Ok(())
}

#[test]
fn the_program_on_bundles(rt: HostRuntime) -> Result<(), Fail> {
    for row in BUNDLES {
        check_row(&rt, row)?;
    }
    Ok(())
}

//! Tests of the whole program: worked examples, and faulty arguments, streams and files.
mod backlog;
mod clocks;
mod failing;
mod inventories;
mod limits;
mod memory;
mod pipe_text;
mod rows;
mod seen_lines;
mod starts;
mod told_lines;

use crate::program::serve;
use cmd_live::System;
use cmd_types::cut;
use std::alloc::{AllocError, AllocGlobal, Global};
use std::io::Read;
use std::marker::Send;
use std::process::Abort;

/// The profile's worked inventory: a host and its service, with an escalation.
const WEB: &[u8] = b"contact;ann;d,u,r,s;w,u,c,r,s
contact;bob;d,r;c,r
host;web;3;1800;d,u,r,s;ann
service;web;http;3;600;w,u,c,r,s;ann
escalation;web;http;2;0;300;c,r;bob
";

/// A host and its service without contacts.
const UNTOLD: &[u8] = b"host;web;3;0;;
service;web;http;3;0;;
";

/// A host whose problems are hard at once.
const HOST: &[u8] = b"host;web;1;0;;
";

/// A line that lacks its last fields.
const FAULTY: &[u8] = b"host;web;1\n";

/// A separator, and three commands on a host, of which the last one is rejected.
const THREE: &[u8] = b"---
[100] ADD_HOST_COMMENT;web;1;ann;hello
[110] PROCESS_HOST_CHECK_RESULT;web;1;no ping
[105] DEL_HOST_COMMENT;2";

/// The joined texts.
fn joined(alloc: Global, texts: &[&[u8]]) -> Result<Vec<u8>, AllocError> {
    let mut all = Vec::new(alloc);
    for text in texts {
        all.extend_from_slice(text)?;
    }
    Ok(all)
}

/// An inventory, and each of `texts` after a separator.
fn bundle(alloc: Global, inventory: &[u8], texts: &[&[u8]]) -> Result<Vec<u8>, AllocError> {
    let mut all = Vec::from_slice(alloc, inventory)?;
    for text in texts {
        all.extend_from_slice(b"---\n")?;
        all.extend_from_slice(text)?;
    }
    Ok(all)
}

/// All lines of the report of these kinds, and all lines after the report.
fn lines_of(alloc: Global, output: &[u8], kinds: &[&[u8]]) -> Result<Vec<u8>, AllocError> {
    let mut found = Vec::new(alloc);
    let mut is_behind = false;
    for line in output.split_inclusive(|byte| *byte == b'\n') {
        let (kind, _) = cut(b';', line);
        is_behind = is_behind || kind == b"feed".as_slice();
        if is_behind || kinds.iter().any(|it| *it == kind) {
            found.extend_from_slice(line)?;
        }
    }
    Ok(found)
}

/// The exit status and the streams that the program leaves in memory.
#[derive(Drop)]
struct Answer {
    status: u8,
    output: Vec<u8>,
    errors: Vec<u8>,
}

/// Runs the program over an input, which may be slow or fail.
fn run_over<R: AllocGlobal + System + Sync, I: Read + Send + Drop>(
    rt: &R,
    words: &[&str],
    input: I,
) -> Answer
where
    R::File: Send,
    R::Dir: Send,
    R::Stream: Send,
{
    let mut output = Vec::new(rt.alloc());
    let mut errors = Vec::new(rt.alloc());
    let status = serve(rt, words, input, &mut output, &mut errors);
    Answer {
        status,
        output,
        errors,
    }
}

fn run<R: AllocGlobal + System + Sync>(rt: &R, words: &[&str], input: &[u8]) -> Answer
where
    R::File: Send,
    R::Dir: Send,
    R::Stream: Send,
{
    run_over(rt, words, input)
}

/// Asserts that the program ended with this exit status under these arguments.
fn ends(rt: &impl Abort, words: &[&str], found: u8, status: u8) {
    assert_eq!(rt; found, status, "{words:?}");
}

/// Asserts that `found` is `wanted`, under these arguments or this name.
fn compare(rt: &impl Abort, words: &[&str], found: &[u8], wanted: &[u8]) {
    assert_eq!(rt; found, wanted, "{words:?}");
}

/// Asserts the exit status, the whole output and the whole error stream.
fn check_answer(
    rt: &impl Abort,
    words: &[&str],
    answer: &Answer,
    (status, output, errors): (u8, &[u8], &[u8]),
) {
    ends(rt, words, answer.status, status);
    compare(rt, words, &answer.output, output);
    compare(rt, words, &answer.errors, errors);
}

/// Runs the program, and asserts its exit status, its whole output and its whole error stream.
fn expect<R: AllocGlobal + Abort + System + Sync>(
    rt: &R,
    words: &[&str],
    input: &[u8],
    wanted: (u8, &[u8], &[u8]),
)
where
    R::File: Send,
    R::Dir: Send,
    R::Stream: Send,
{
    let answer = run(rt, words, input);
    check_answer(rt, words, &answer, wanted);
}

/// The output of the program, which ends with this exit status and an empty error stream.
fn output_of<R: AllocGlobal + Abort + System + Sync>(
    rt: &R,
    words: &[&str],
    input: &[u8],
    status: u8,
) -> Vec<u8>
where
    R::File: Send,
    R::Dir: Send,
    R::Stream: Send,
{
    let answer = run(rt, words, input);
    ends(rt, words, answer.status, status);
    compare(rt, words, &answer.errors, b"");
    answer.output
}

//! Copies, lists of numbers and canonical lines, with each allocation refused in turn.
mod examples;

use crate::support::{joined, same};
use cmd_types::{Command, Memory, Numbers, Stamped, Text, number_of};
use std::alloc::{AllocGlobal, Global};
use std::process::Abort;

fn made(alloc: Global, bytes: &[u8]) -> Result<Text, Memory> {
    Ok(Text::new(Vec::from_slice(alloc, bytes)?))
}

/// A text, made again where an allocation is refused.
fn text(rt: &(impl Abort + AllocGlobal), bytes: &[u8]) -> Text {
    match made(rt.alloc(), bytes) {
        Ok(text) => text,
        Err(_) => made(rt.alloc(), bytes).expect(rt, "memory is refused twice"),
    }
}

#[test]
fn a_host_with_a_semicolon_is_returned(rt: HostRuntime) {
    let host = text(&rt, b"a;b");
    match Stamped::new(7, Command::DelAllHostComments { host }) {
        Err((time, Command::DelAllHostComments { host })) => {
            same(&rt, (time, host.as_bytes()), (7, b"a;b"));
        }
        _ => rt.panic("the command is not well formed"),
    }
}

/// A well-formed command at second 7.
fn stamped(rt: &impl Abort, command: Command) -> Stamped {
    match Stamped::new(7, command) {
        Ok(stamped) => stamped,
        Err(_) => rt.panic("the command is well formed"),
    }
}

/// A comment on a service, which carries four texts, with a time.
fn commented(rt: &(impl Abort + AllocGlobal)) -> Stamped {
    let command = Command::AddSvcComment {
        host: text(rt, b"web"),
        service: text(rt, b"http"),
        persistent: true,
        author: text(rt, b"ann"),
        comment: text(rt, b"a;b"),
    };
    stamped(rt, command)
}

/// This is the comment of `commented`.
fn check(rt: &impl Abort, stamped: &Stamped) {
    let Command::AddSvcComment {
        host,
        service,
        persistent,
        author,
        comment,
    } = stamped.command()
    else {
        rt.panic("it is another command");
    };
    same(rt, (stamped.time(), *persistent), (7, true));
    same(rt, (host.as_bytes(), service.as_bytes()), (b"web", b"http"));
    same(
        rt,
        (author.as_bytes(), comment.as_bytes()),
        (b"ann", b"a;b"),
    );
}

fn copy(alloc: Global, stamped: &Stamped) -> Result<Stamped, Memory> {
    stamped.copy(alloc)
}

fn copy_again(rt: &(impl Abort + AllocGlobal), stamped: &Stamped) -> Stamped {
    copy(rt.alloc(), stamped).expect(rt, "memory is refused twice")
}

/// A copy. Where memory is refused the value is as it was, and the same call continues.
fn comment_copy(rt: &(impl Abort + AllocGlobal), stamped: &Stamped) -> Stamped {
    if let Ok(copy) = copy(rt.alloc(), stamped) {
        return copy;
    }
    check(rt, stamped);
    copy_again(rt, stamped)
}

fn write(alloc: Global, stamped: &Stamped, out: &mut Vec<u8>) -> Result<(), Memory> {
    stamped.write_line(alloc, out)
}

/// Appends the line to what stands before, and compares both. Where memory is refused the vector is as it was, and the
/// same call continues.
fn expect_written(
    rt: &(impl Abort + AllocGlobal),
    stamped: &Stamped,
    out: &mut Vec<u8>,
    before: &[u8],
    after: &[u8],
) {
    same(rt, out.as_slice(), before);
    if write(rt.alloc(), stamped, out).is_err() {
        same(rt, out.as_slice(), before);
        write(rt.alloc(), stamped, out).expect(rt, "memory is refused twice");
    }
    same(rt, out.as_slice(), after);
}

const ONE: &[u8] = b"before\n[7] ADD_SVC_COMMENT;web;http;1;ann;a;b\n";

const TWO: &[u8] =
    b"before\n[7] ADD_SVC_COMMENT;web;http;1;ann;a;b\n[7] ADD_SVC_COMMENT;web;http;1;ann;a;b\n";

#[test]
fn a_command_is_copied_and_written(rt: HostRuntime) {
    let made = commented(&rt);
    let copy = comment_copy(&rt, &made);
    check(&rt, &made);
    check(&rt, &copy);
    let mut out = joined(&rt, &[b"before\n"]);
    expect_written(&rt, &made, &mut out, b"before\n", ONE);
    expect_written(&rt, &copy, &mut out, ONE, TWO);
}

/// The host whose comments a command deletes.
fn host_of<'a>(rt: &impl Abort, stamped: &'a Stamped) -> &'a Text {
    match stamped.command() {
        Command::DelAllHostComments { host } => host,
        _ => rt.panic("it is another command"),
    }
}

/// This deletes the comments of web at second 7.
fn check_host(rt: &impl Abort, stamped: &Stamped) {
    let host = host_of(rt, stamped);
    same(rt, (stamped.time(), host.as_bytes()), (7, b"web"));
}

fn host_copy(rt: &(impl Abort + AllocGlobal), stamped: &Stamped) -> Stamped {
    if let Ok(copy) = copy(rt.alloc(), stamped) {
        return copy;
    }
    check_host(rt, stamped);
    copy_again(rt, stamped)
}

/// The name of the host is copied for itself.
fn check_host_text(rt: &(impl Abort + AllocGlobal), stamped: &Stamped) {
    let copy = text_copy(rt, host_of(rt, stamped));
    same(rt, copy.as_bytes(), b"web");
}

const DELETED: &[u8] = b"before\n[7] DEL_ALL_HOST_COMMENTS;web\n";

fn expect_deleted(rt: &(impl Abort + AllocGlobal), stamped: &Stamped) {
    check_host(rt, stamped);
    check_host_text(rt, stamped);
    let mut out = joined(rt, &[b"before\n"]);
    expect_written(rt, stamped, &mut out, b"before\n", DELETED);
}

#[test]
fn a_command_on_a_host_is_copied_and_written(rt: HostRuntime) {
    let host = text(&rt, b"web");
    let made = stamped(&rt, Command::DelAllHostComments { host });
    let copy = host_copy(&rt, &made);
    expect_deleted(&rt, &made);
    expect_deleted(&rt, &copy);
}

/// A copy of a text, made again where an allocation is refused.
fn text_copy(rt: &(impl Abort + AllocGlobal), text: &Text) -> Text {
    match text.copy(rt.alloc()) {
        Ok(copy) => copy,
        Err(_) => text.copy(rt.alloc()).expect(rt, "memory is refused twice"),
    }
}

fn text_clone(rt: &impl Abort, text: &Text) -> Text {
    match text.clone() {
        Ok(clone) => clone,
        Err(_) => text.clone().expect(rt, "memory is refused twice"),
    }
}

#[test]
fn a_text_is_copied(rt: HostRuntime) {
    let made = text(&rt, b"web");
    let copy = text_copy(&rt, &made);
    let clone = text_clone(&rt, &copy);
    for text in [&made, &copy, &clone] {
        same(&rt, text.as_bytes(), b"web");
    }
}

/// Adds an index to those before. Where memory is refused they are as they were, and the same call continues.
fn push(rt: &(impl Abort + AllocGlobal), numbers: &mut Numbers, before: &[u16], index: u16) {
    if numbers.push(rt.alloc(), index).is_err() {
        same(rt, numbers.as_slice(), before);
        let again = numbers.push(rt.alloc(), index);
        again.expect(rt, "memory is refused twice");
    }
}

#[test]
fn numbers_are_those_given(rt: HostRuntime) {
    let mut numbers = Numbers::new(Vec::new(rt.alloc()));
    let given = [4_094, 0, 7, 7, 1, 2];
    for (count, index) in given.iter().enumerate() {
        push(&rt, &mut numbers, &given[..count], *index);
    }
    same(&rt, numbers.as_slice(), &given);
}

/// A text, and the number that it spells.
const NUMBERS: &[(&[u8], Option<u64>)] = &[
    (b"", None),
    (b"0", Some(0)),
    (b"0000000000001", Some(1)),
    (b"00000000000001", None),
    (b"1099511627775", Some(1_099_511_627_775)),
    (b"1099511627776", None),
    (b"9999999999999", None),
    (b"-1", None),
    (b"+1", None),
    (b"1x", None),
];

#[test]
fn numbers_have_one_to_thirteen_digits(rt: HostRuntime) {
    for (text, number) in NUMBERS {
        same(&rt, (*text, number_of(text)), (*text, *number));
    }
}

/// Whether the command is well formed at this time.
fn is_made(time: u64, command: Command) -> bool {
    Stamped::new(time, command).is_ok()
}

fn expect_made(rt: &impl Abort, time: u64, command: Command, made: bool) {
    same(rt, is_made(time, command), made);
}

fn host_result(rt: &(impl Abort + AllocGlobal), code: u8) -> Command {
    Command::ProcessHostCheckResult {
        host: text(rt, b"web"),
        code,
        output: text(rt, b"x"),
    }
}

fn service_result(rt: &(impl Abort + AllocGlobal), code: u8) -> Command {
    Command::ProcessServiceCheckResult {
        host: text(rt, b"web"),
        service: text(rt, b"http"),
        code,
        output: text(rt, b"x"),
    }
}

#[test]
fn times_ids_and_codes_have_their_ends(rt: HostRuntime) {
    for (number, made) in [(1_099_511_627_775, true), (1_099_511_627_776, false)] {
        expect_made(&rt, number, Command::RestartProgram, made);
        expect_made(&rt, 1, Command::DelHostComment { id: number }, made);
    }
    for (code, made) in [(2, true), (3, false)] {
        expect_made(&rt, 1, host_result(&rt, code), made);
    }
    for (code, made) in [(3, true), (4, false)] {
        expect_made(&rt, 1, service_result(&rt, code), made);
    }
}

/// The letters of a comment whose canonical line is one byte too long: 31 bytes stand before them.
const LETTERS: [u8; 8_162] = [b'x'; 8_162];

fn comment(rt: &(impl Abort + AllocGlobal), letters: &[u8]) -> Command {
    Command::AddHostComment {
        host: text(rt, b"web"),
        persistent: true,
        author: text(rt, b"ann"),
        comment: text(rt, letters),
    }
}

#[test]
fn a_canonical_line_has_at_most_8192_bytes(rt: HostRuntime) {
    expect_made(&rt, 1, comment(&rt, &LETTERS[..8_161]), true);
    expect_made(&rt, 1, comment(&rt, &LETTERS), false);
}

//! A text in pieces of several sizes: its items are the same for each cutting.
use super::{comment_line, expect};
use crate::support::{joined, same};
use cmd_types::LONGEST_LINE;
use std::alloc::AllocGlobal;
use std::process::Abort;

/// A line of each list of fields that commands have, as it is written.
const ONE_OF_EACH: &[u8] = b"\
[1] ADD_HOST_COMMENT;web;1;ann;a;b;c
[2] ADD_SVC_COMMENT;web;http;0;ann;x
[3] DEL_HOST_COMMENT;1
[4] DEL_ALL_HOST_COMMENTS;web
[5] DEL_ALL_SVC_COMMENTS;web;http
[6] ACKNOWLEDGE_HOST_PROBLEM;web;2;1;1;ann;x
[7] ACKNOWLEDGE_SVC_PROBLEM;web;http;1;0;0;ann;seen
[8] SCHEDULE_HOST_DOWNTIME;web;1000;2000;1;0;0;ann;move
[9] SCHEDULE_SVC_DOWNTIME;web;http;1000;2000;0;0;600;ann;work
[10] PROCESS_HOST_CHECK_RESULT;web;2;no ping
[11] PROCESS_SERVICE_CHECK_RESULT;web;http;3;down
[12] ENABLE_CONTACT_HOST_NOTIFICATIONS;ann
[13] DELAY_HOST_NOTIFICATION;web;800
[14] DELAY_SVC_NOTIFICATION;web;http;800
[15] SET_HOST_NOTIFICATION_NUMBER;web;0
[16] SET_SVC_NOTIFICATION_NUMBER;web;http;5
[17] SEND_CUSTOM_HOST_NOTIFICATION;web;1099511627775;ann;a;b
[18] SEND_CUSTOM_SVC_NOTIFICATION;web;http;0;;
[19] RESTART_PROGRAM
";

const FAULTY: &[u8] = b"\
100] X
[1x] X
[1]X
[1] NOPE
[1] DEL_HOST_COMMENT
[1] DEL_ALL_HOST_COMMENTS;
[1] DEL_HOST_COMMENT;1x
[1] PROCESS_HOST_CHECK_RESULT;web;3;x
";

const FAULTS: &[u8] = b"1;3;0\n2;4;0\n3;5;0\n4;6;0\n5;7;1\n6;8;1\n7;9;1\n8;9;2\n";

/// Two commands that are not spelled as they are written, and how they are written.
const SPELLED: &[u8] =
    b"[007]  DEL_ALL_HOST_COMMENTS;web;more\n[100] ADD_HOST_COMMENT;web\r;5;ann;a;b;c\r\r\n";

const CANONICAL: &[u8] = b"[7] DEL_ALL_HOST_COMMENTS;web\n[100] ADD_HOST_COMMENT;web;1;ann;a;b;c\n";

/// A text, and what is told of it.
const TEXTS: &[(&[u8], &[u8])] = &[
    (ONE_OF_EACH, ONE_OF_EACH),
    (FAULTY, FAULTS),
    (SPELLED, CANONICAL),
    (b"\n\r\n[1] RESTART_PROG\n", b"3;6;0\n"),
];

#[test]
fn texts_are_told(rt: HostRuntime) {
    for (text, want) in TEXTS {
        for size in [1, 7, 4_096] {
            expect(&rt, text, size, true, want);
        }
    }
}

#[test]
fn a_comment_in_pieces_of_one_byte(rt: HostRuntime) {
    let text = b"[100] ADD_HOST_COMMENT;web;1;ann;a;b;c\r\r\n";
    let want = b"[100] ADD_HOST_COMMENT;web;1;ann;a;b;c\n";
    for whole in [true, false] {
        expect(&rt, text, 1, whole, want);
    }
}

/// A line of 8,192 bytes, one of 8,193 and two short ones, and what is told of them.
#[test]
fn a_line_has_at_most_8192_bytes(rt: HostRuntime) {
    let longest = comment_line(&rt, 8_161);
    same(&rt, longest.len(), LONGEST_LINE);
    let too_long = comment_line(&rt, 8_162);
    let short = b"\n[2] RESTART_PROGRAM\n[3] NOPE";
    let text = joined(&rt, &[&longest, b"\n", &too_long, short]);
    let told = b"\n2;1;0\n[2] RESTART_PROGRAM\n4;6;0\n";
    let want = joined(&rt, &[&longest, told]);
    expect(&rt, &text, 4_096, true, &want);
}

/// The first and the last of the places at which a text broke off, and what is told.
type Broken = (usize, usize, &'static [u8]);

const BROKEN: &[Broken] = &[
    (0, 2, b""),
    (3, 22, b"2;2;0\n"),
    (23, 23, b"[1] RESTART_PROGRAM\n"),
    (24, 24, b"[1] RESTART_PROGRAM\n3;2;0\n"),
    (25, 25, b"[1] RESTART_PROGRAM\n3;3;0\n"),
    (26, 44, b"[1] RESTART_PROGRAM\n3;3;0\n4;2;0\n"),
    (45, 45, b"[1] RESTART_PROGRAM\n3;3;0\n[2] RESTART_PROGRAM\n"),
];

fn expect_broken(rt: &(impl Abort + AllocGlobal), text: &[u8], row: &Broken) {
    let (first, last, want) = *row;
    for end in first..=last {
        match text.get(..end) {
            Some(prefix) => expect(rt, prefix, 5, false, want),
            None => rt.panic("the table is too long"),
        }
    }
}

#[test]
fn a_text_broke_off_anywhere(rt: HostRuntime) {
    let text = b"\r\n[1] RESTART_PROGRAM\r\nx\n[2] RESTART_PROGRAM\n";
    let mut next = 0;
    for row in BROKEN {
        same(&rt, row.0, next);
        expect_broken(&rt, text, row);
        next = row.1.saturating_add(1);
    }
    same(&rt, next, text.len() + 1);
}

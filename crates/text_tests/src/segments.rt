//! Segments of a journal that are written and read behind earlier entries, with each allocation
//! refused in turn.

use crate::lines::command_of;
use crate::support::{joined, same};
use cmd_journal::ReadCause::{BadClock, BadEntry, BadPlace};
use cmd_journal::{Past, ReadCause, ReadFault, Segment, cut_torn, put_heading};
use cmd_types::{Entry, Memory};
use std::alloc::{AllocGlobal, Global};
use std::process::Abort;

/// Two earlier entries: one of sender 0 at 500, and one of sender 63 at 400.
fn two_earlier() -> Past {
    Past::at(500).with_sender(0, 1).with_sender(63, 1)
}

/// Three entries behind them, as their commands are spelled. The second one takes memory.
const SPELLED: &[(u16, u64, &[u8])] = &[
    (0, 2, b"[450] RESTART_PROGRAM"),
    (
        5,
        1,
        b"[0900]  ADD_HOST_COMMENT;web;1;ann;the disk was replaced at noon, and the array is whole again since",
    ),
    (63, 2, b"[7] RESTART_PROGRAM"),
];

/// The text of their segment.
const WRITTEN: &[u8] = b"\
journal;2
500 0 2 [450] RESTART_PROGRAM
900 5 1 [900] ADD_HOST_COMMENT;web;1;ann;the disk was replaced at noon, and the array is whole again since
900 63 2 [7] RESTART_PROGRAM
";

/// The clock, and the next places of senders 0, 5 and 63.
type Counts = (u64, u64, u64, u64);

fn counts(past: &Past) -> Counts {
    (
        past.clock(),
        past.next_place(0),
        past.next_place(5),
        past.next_place(63),
    )
}

fn headed(alloc: Global, out: &mut Vec<u8>) -> Result<(), Memory> {
    put_heading(alloc, out)
}

/// The heading, appended again where memory was refused, which has changed nothing.
fn put_first(rt: &(impl Abort + AllocGlobal), out: &mut Vec<u8>) {
    let before = out.len();
    if headed(rt.alloc(), out).is_err() {
        same(rt, out.len(), before);
        headed(rt.alloc(), out).expect(rt, "memory is refused twice");
    }
}

fn appended(
    alloc: Global,
    rt: &impl Abort,
    past: &mut Past,
    entry: &Entry,
    out: &mut Vec<u8>,
) -> Result<(), Memory> {
    assert!(rt; past.may_follow(entry));
    past.write_line(alloc, entry, out)?;
    past.note(entry);
    Ok(())
}

/// An entry, appended again where memory was refused, which has changed nothing.
fn put(rt: &(impl Abort + AllocGlobal), past: &mut Past, entry: &Entry, out: &mut Vec<u8>) {
    let before = (out.len(), counts(past));
    if appended(rt.alloc(), rt, past, entry, out).is_err() {
        same(rt, (out.len(), counts(past)), before);
        appended(rt.alloc(), rt, past, entry, out).expect(rt, "memory is refused twice");
    }
}

#[test]
fn a_segment_is_written_behind_earlier_entries(rt: HostRuntime) {
    let mut past = two_earlier();
    same(&rt, counts(&past), (500, 2, 1, 2));
    let mut out = Vec::new(rt.alloc());
    put_first(&rt, &mut out);
    for (sender, place, line) in SPELLED {
        let stamped = command_of(&rt, line);
        let entry = Entry {
            sender: *sender,
            place: *place,
            stamped,
        };
        put(&rt, &mut past, &entry, &mut out);
    }
    same(&rt, out.as_slice(), WRITTEN);
    same(&rt, counts(&past), (900, 3, 2, 3));
}

#[test]
fn an_entry_out_of_turn_may_not_follow(rt: HostRuntime) {
    let past = two_earlier();
    for (sender, place, follows) in [(0, 2, true), (0, 1, false), (0, 3, false), (64, 1, false)] {
        let stamped = command_of(&rt, b"[7] RESTART_PROGRAM");
        let entry = Entry {
            sender,
            place,
            stamped,
        };
        same(
            &rt,
            (sender, place, past.may_follow(&entry)),
            (sender, place, follows),
        );
    }
}

fn given(
    alloc: Global,
    segment: &mut Segment,
    past: &mut Past,
) -> Result<Option<Entry>, ReadFault> {
    segment.next(alloc, past)
}

/// The next entry, asked for again where memory was refused, which has changed nothing.
fn next(
    rt: &(impl Abort + AllocGlobal),
    segment: &mut Segment,
    past: &mut Past,
) -> Result<Option<Entry>, ReadFault> {
    let before = counts(past);
    match given(rt.alloc(), segment, past) {
        Err(
            ReadFault {
                cause: ReadCause::Memory,
                ..
            },
        ) => {
            same(rt, counts(past), before);
            given(rt.alloc(), segment, past)
        }
        answer => answer,
    }
}

/// How many entries a text has behind two earlier ones, and the first fault; and the counts then.
fn read(rt: &(impl Abort + AllocGlobal), text: &[u8]) -> (u64, Option<(u64, ReadCause)>, Counts) {
    let mut past = two_earlier();
    let mut segment = match Segment::new(text) {
        Ok(segment) => segment,
        Err(fault) => return (0, Some((fault.line, fault.cause)), counts(&past)),
    };
    for count in 0..100u64 {
        match next(rt, &mut segment, &mut past) {
            Ok(Some(_)) => {}
            Ok(None) => return (count, None, counts(&past)),
            Err(fault) => return (count, Some((fault.line, fault.cause)), counts(&past)),
        }
    }
    rt.panic("no text here has so many lines")
}

/// A text has so many entries behind the two earlier ones, and no fault.
fn expect_entries(rt: &(impl Abort + AllocGlobal), text: &[u8], count: u64, after: Counts) {
    same(rt, (text, read(rt, text)), (text, (count, None, after)));
}

/// The sender, the place and the time of an entry.
fn seen(entry: &Entry) -> (u16, u64, u64) {
    (entry.sender, entry.place, entry.stamped.time())
}

#[test]
fn a_segment_gives_its_entries_in_order(rt: HostRuntime) {
    let mut past = two_earlier();
    let Ok(mut segment) = Segment::new(WRITTEN) else {
        rt.panic("it has the heading")
    };
    for want in [(0, 2, 450), (5, 1, 900), (63, 2, 7)] {
        match next(&rt, &mut segment, &mut past) {
            Ok(Some(entry)) => same(&rt, seen(&entry), want),
            _ => rt.panic("an entry is there"),
        }
    }
    assert!(&rt; matches!(next(&rt, &mut segment, &mut past), Ok(None)));
    same(&rt, counts(&past), (900, 3, 2, 3));
}

/// The text of the first two entries.
const FIRST_TWO: &[u8] = b"\
journal;2
500 0 2 [450] RESTART_PROGRAM
900 5 1 [900] ADD_HOST_COMMENT;web;1;ann;the disk was replaced at noon, and the array is whole again since
";

#[test]
fn a_torn_line_is_cut(rt: HostRuntime) {
    let torn = joined(&rt, &[WRITTEN, b"900 0 3 [900] REST"]);
    same(&rt, cut_torn(&torn), WRITTEN);
    expect_entries(&rt, &torn, 3, (900, 3, 2, 3));
    // the line feed of the last line is missing
    let whole = WRITTEN.len() - 1;
    same(&rt, cut_torn(&WRITTEN[..whole]), FIRST_TWO);
    expect_entries(&rt, &WRITTEN[..whole], 2, (900, 3, 2, 2));
}

#[test]
fn a_text_without_a_whole_line_has_no_entry(rt: HostRuntime) {
    for text in [b"".as_slice(), b"journal", b"journal;2", b"journal;2\n"] {
        expect_entries(&rt, text, 0, (500, 2, 1, 2));
    }
    same(&rt, cut_torn(b"journal;2"), b"".as_slice());
}

/// A text, how many entries it has before its fault, and the line and the cause of that.
const AT_FAULT: &[(&[u8], u64, u64, ReadCause)] = &[
    // no heading, an empty line, and a second heading
    (b"500 0 2 [450] RESTART_PROGRAM\n", 0, 1, BadEntry),
    (b"\njournal;2\n", 0, 1, BadEntry),
    (
        b"journal;2\n\n500 0 2 [450] RESTART_PROGRAM\n",
        0,
        2,
        BadEntry,
    ),
    (b"journal;2\njournal;2\n", 0, 2, BadEntry),
    // the places and the clock of a whole journal
    (
        b"journal;2\n500 0 1 [450] RESTART_PROGRAM\n",
        0,
        2,
        BadPlace,
    ),
    (
        b"journal;2\n450 0 2 [450] RESTART_PROGRAM\n",
        0,
        2,
        BadClock,
    ),
    // the second entry of a sender behind its first
    (
        b"journal;2\r\n500 9 1 [1] RESTART_PROGRAM\r\n500 9 1 [1] RESTART_PROGRAM\n",
        1,
        3,
        BadPlace,
    ),
];

#[test]
fn a_segment_with_a_fault_is_refused(rt: HostRuntime) {
    for (text, count, line, cause) in AT_FAULT {
        let got = read(&rt, text);
        same(
            &rt,
            (*text, got.0, got.1),
            (*text, *count, Some((*line, *cause))),
        );
    }
}

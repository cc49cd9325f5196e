//! Comments by id and by object: what each call finds, removes and leaves.
mod examples;

use crate::support::same;
use cmd_types::{Memory, Text};
use mon_notes::Notes;
use std::alloc::{AllocGlobal, Global};
use std::process::Abort;

pub fn made(alloc: Global, bytes: &[u8]) -> Result<Text, Memory> {
    Ok(Text::new(Vec::from_slice(alloc, bytes)?))
}

/// A text, tried again where one allocation is refused.
pub fn text(rt: &(impl Abort + AllocGlobal), bytes: &[u8]) -> Text {
    match made(rt.alloc(), bytes) {
        Ok(text) => text,
        Err(_) => made(rt.alloc(), bytes).expect(rt, "memory is refused twice"),
    }
}

fn check_ids(rt: &impl Abort, notes: &Notes, ids: &[u64]) {
    same(rt, notes.list().len(), ids.len());
    for (comment, id) in notes.list().iter().zip(ids) {
        same(rt, comment.id, *id);
    }
}

/// The object of a comment, whether it is of an acknowledgement, and whether it is persistent.
type AddedComment = (u16, bool, bool);

fn added(
    rt: &(impl Abort + AllocGlobal),
    notes: &mut Notes,
    (object, ack, persistent): AddedComment,
) -> Result<u64, Memory> {
    assert!(rt; notes.last_id() < 1_000);
    let author = text(rt, b"ann");
    let text = text(rt, b"x");
    notes.add(rt.alloc(), object, ack, persistent, 100, author, text)
}

/// How many comments there are, and the last id.
fn counts(notes: &Notes) -> (usize, u64) {
    (notes.list().len(), notes.last_id())
}

/// Adds a comment. After Memory nothing has changed, and the same call continues.
fn add(rt: &(impl Abort + AllocGlobal), notes: &mut Notes, row: AddedComment, id: u64) {
    let before = counts(notes);
    let mut answer = added(rt, notes, row);
    if answer.is_err() {
        same(rt, counts(notes), before);
        answer = added(rt, notes, row);
    }
    same(rt, (answer, notes.last_id()), (Ok(id), id));
}

fn remove(rt: &impl Abort, notes: &mut Notes, id: u64, was: bool) {
    same(rt, notes.remove(id), was);
}

fn check_found(rt: &impl Abort, notes: &Notes, id: u64) {
    match notes.find(id) {
        None => rt.panic("the comment is there"),
        Some(comment) => {
            let (author, text) = (comment.author.as_bytes(), comment.text.as_bytes());
            same(rt, (comment.id, comment.time), (id, 100));
            same(rt, (author, text), (b"ann", b"x"));
        }
    }
}

#[test]
fn ids_count_from_1_and_are_never_given_again(rt: HostRuntime) {
    let mut notes = Notes::new(rt.alloc());
    same(&rt, counts(&notes), (0, 0));
    add(&rt, &mut notes, (0, false, true), 1);
    add(&rt, &mut notes, (1, false, true), 2);
    for (id, was) in [(2, true), (2, false), (0, false)] {
        remove(&rt, &mut notes, id, was);
    }
    add(&rt, &mut notes, (0, false, true), 3);
    check_ids(&rt, &notes, &[1, 3]);
    same(&rt, notes.find(2).is_none(), true);
    check_found(&rt, &notes, 3);
}

/// What is added, and the id that it gets.
const ADDED: &[(AddedComment, u64)] = &[
    ((0, false, false), 1),
    ((0, true, false), 2),
    ((0, true, true), 3),
    ((1, true, false), 4),
    ((1, false, true), 5),
    ((2, false, true), 6),
];

#[test]
fn removals_leave_the_others_in_order(rt: HostRuntime) {
    let mut notes = Notes::new(rt.alloc());
    for (row, id) in ADDED {
        add(&rt, &mut notes, *row, *id);
    }
    notes.drop_acknowledged(0);
    check_ids(&rt, &notes, &[1, 3, 4, 5, 6]);
    notes.drop_transient();
    check_ids(&rt, &notes, &[3, 5, 6]);
    notes.remove_all(1);
    check_ids(&rt, &notes, &[3, 6]);
    same(&rt, notes.last_id(), 6);
}

/// More comments on one object than are taken out one by one.
const MANY: u64 = 20;

#[test]
fn many_comments_of_an_object_go_at_once(rt: HostRuntime) {
    let mut notes = Notes::new(rt.alloc());
    add(&rt, &mut notes, (1, true, false), 1);
    for id in 2..MANY + 2 {
        add(&rt, &mut notes, (0, true, id == 7), id);
    }
    add(&rt, &mut notes, (0, false, false), MANY + 2);
    add(&rt, &mut notes, (1, false, true), MANY + 3);
    remove(&rt, &mut notes, 2, true);
    notes.drop_acknowledged(0);
    check_ids(&rt, &notes, &[1, 7, MANY + 2, MANY + 3]);
    for id in MANY + 4..2 * MANY + 4 {
        add(&rt, &mut notes, (0, false, true), id);
    }
    notes.remove_all(0);
    check_ids(&rt, &notes, &[1, MANY + 3]);
    check_found(&rt, &notes, MANY + 3);
}

#[test]
fn comments_go_from_the_front_and_then_from_the_end(rt: HostRuntime) {
    let mut notes = Notes::new(rt.alloc());
    for id in 1..9 {
        add(&rt, &mut notes, (0, false, true), id);
    }
    for id in [1, 2, 3, 8, 7, 6] {
        remove(&rt, &mut notes, id, true);
    }
    check_ids(&rt, &notes, &[4, 5]);
    for id in [4, 5] {
        remove(&rt, &mut notes, id, true);
    }
    check_ids(&rt, &notes, &[]);
    add(&rt, &mut notes, (0, false, true), 9);
    check_ids(&rt, &notes, &[9]);
}

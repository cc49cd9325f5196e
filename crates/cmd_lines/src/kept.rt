//! The buffer of a reader. It keeps the bytes that were fed and not read yet: whole lines, and at most `MOST_HELD`
//! bytes of an unfinished last line. If memory runs out, the kept bytes are unchanged.

ghost use Rattle.std.specs.Prelude.{◌≡◌, ◌≤◌, ◌+◌, ◌-◌, ◌∷◌, [], ◌++◌, false, ℕ, List, OnOk, OnErr, length, take, drop};
ghost use Rattle.cmd_types.specs.Bytes.{Lacks};
ghost use Rattle.cmd_types.specs.Growth.{Grows};
ghost use Rattle.cmd_lines.specs.Unfinished.{last_line, most_held, is_lost, in_place, ReadAlike, pending_of, IsKept};

use crate::front::drop_front;
use crate::split::last_line;
use cmd_types::{LONGEST_LINE, Memory, definitions_agree, without_returns};
use std::alloc::Global;
use std::marker::Model;

/// The most bytes that are kept of an unfinished line: one more than a line may have, so that a line that is too long
/// is recognised (profile).
const MOST_HELD: usize = LONGEST_LINE + 1;

/// The first `most` bytes, and whether any byte after them is not a carriage return.
fn cut_at(most: usize, bytes: &[u8]) -> (&[u8], bool)
    ensures front { result.0.now ≡ take most bytes.now }
    ensures lost { result.1 ≡ is_lost (drop most bytes.now) }
{
    match bytes.split_at_checked(most) {
        Some((front, back)) => (front, !without_returns(back).is_empty()),
        None => (bytes, false),
    }
}

/// Appends the letter x if bytes of the last line were dropped (`lost`), then `ended`, then `front`. If memory runs
/// out, `buffer` is unchanged.
fn put_ended(buffer: &mut Vec<u8>, lost: bool, ended: &[u8], front: &[u8]) -> Result<(), Memory>
    ensures ok { OnOk result (buffer.new.items ≡ ((buffer.old.items ++ in_place lost) ++ ended.now) ++ front.now) }
    ensures err { OnErr result (buffer.new.items ≡ buffer.old.items) }
{
    let len = buffer.len();
    if let Err(refusal) = put_parts(buffer, lost, ended, front) {
        buffer.truncate(len);
        return Err(refusal);
    }
    Ok(())
}

/// Appends the same bytes as `put_ended`; if memory runs out, a prefix of these bytes.
fn put_parts(buffer: &mut Vec<u8>, lost: bool, ended: &[u8], front: &[u8]) -> Result<(), Memory>
    ensures ok { OnOk result (buffer.new.items ≡ ((buffer.old.items ++ in_place lost) ++ ended.now) ++ front.now) }
    ensures grown { Grows buffer.old.items buffer.new.items }
{
    // One byte stands for all dropped bytes. It is a byte that the text does not have, and spares the reader of lines a
    // second kind of line. With the kept bytes the line is too long whatever this byte is.
    if lost {
        buffer.push(b'x')?;
    }
    buffer.extend_from_slice(ended)?;
    buffer.extend_from_slice(front)
}

/// The bytes that were fed and not read yet, of an unfinished last line at most `MOST_HELD` bytes.
#[derive(Drop)]
pub struct UnreadBytes {
    buffer: Vec<u8>,
    /// Where the unread bytes begin.
    start: usize,
    /// Where the unfinished last line begins.
    line: usize,
    /// Whether a byte of the last line was dropped, other than a carriage return.
    lost: bool,
}

impl Model for UnreadBytes {
    ghost use Rattle.std.specs.Prelude.{◌≤◌, length, drop};
    ghost use Rattle.cmd_lines.specs.Unfinished.{Keeping, IsKept};

    ghost Value = { Keeping };

    ghost view = { λ k. record { read = k.start; bytes = drop k.start k.buffer.items; held = drop k.line k.buffer.items; lost = k.lost } };

    ghost invariant = { λ k. IsKept (drop k.start k.buffer.items) (drop k.line k.buffer.items) k.lost × (k.start ≤ length k.buffer.items) × (k.line ≤ length k.buffer.items) };
}

impl UnreadBytes {
    /// A buffer without unread bytes. Takes no memory.
    pub fn new(alloc: Global) -> UnreadBytes
        ensures { result ≡ record { read = 0; bytes = []; held = []; lost = false } }
    {
        UnreadBytes {
            buffer: Vec::new(alloc),
            start: 0,
            line: 0,
            lost: false,
        }
    }

    /// The unread bytes, with the kept bytes of the unfinished last line.
    pub fn bytes(&self) -> &[u8]
        ensures value { result.now ≡ self.now.bytes }
        ensures kept { IsKept self.now.bytes self.now.held self.now.lost }
    {
        &self.buffer[self.start..]
    }

    /// The kept bytes of the unfinished last line.
    pub fn held(&self) -> &[u8]
        ensures { result.now ≡ self.now.held }
    {
        &self.buffer[self.line..]
    }

    /// Whether a byte of the unfinished last line was dropped, other than a carriage return.
    pub fn lost(&self) -> bool
        ensures { result ≡ self.now.lost }
    {
        self.lost
    }

    /// Marks all but the last `left` unread bytes as read; the next `add` drops them. Requires at least `left` unread
    /// bytes, and that the bytes marked are whole lines.
    pub fn mark_read(&mut self, left: usize)
        requires few { left ≤ length self.old.bytes }
        requires lines { last_line (drop (length self.old.bytes - left) self.old.bytes) ≡ last_line self.old.bytes }
        ensures { self.new ≡ record self.old { read = self.old.read + (length self.old.bytes - left); bytes = drop (length self.old.bytes - left) self.old.bytes } }
    {
        self.start = self.buffer.len() - left;
    }

    /// Marks all bytes as read, the unfinished last line included. The next byte fed begins a new line.
    pub fn clear(&mut self)
        ensures { self.new ≡ record { read = self.old.read + length self.old.bytes; bytes = []; held = []; lost = false } }
    {
        self.start = self.buffer.len();
        self.line = self.buffer.len();
        self.lost = false;
    }

    /// Removes the read bytes from the buffer. The unread bytes are unchanged.
    fn drop_read(&mut self)
        ensures { self.new ≡ record self.old { read = 0 } }
    {
        // For the proof alone, at no cost when it runs: the last line is no longer than the text.
        definitions_agree();
        if self.start > 0 {
            drop_front(&mut self.buffer, self.start);
            self.line -= self.start;
            self.start = 0;
        }
    }

    /// Appends a piece without a line feed to the last line, of which at most `MOST_HELD` bytes are kept. Records in
    /// `lost` whether a byte other than a carriage return was dropped. If memory runs out, nothing changes.
    fn extend_last(&mut self, piece: &[u8]) -> Result<(), Memory>
        requires { Lacks 10 piece.now }
        ensures alike { OnOk result (ReadAlike (pending_of self.old ++ piece.now) (pending_of self.new)) }
        ensures held { OnOk result (self.new.held ≡ take most_held (self.old.held ++ piece.now)) }
        ensures few { OnOk result (length (pending_of self.new) ≤ length (pending_of self.old) + length piece.now) }
        ensures read { OnOk result (self.new.read ≡ self.old.read) }
        ensures err { OnErr result (self.new ≡ self.old) }
    {
        // For the proof alone, at no cost when it runs: a piece without a line feed continues the last line.
        definitions_agree();
        let (front, lost) = cut_at(MOST_HELD - (self.buffer.len() - self.line), piece);
        self.buffer.extend_from_slice(front)?;
        self.lost = self.lost || lost;
        Ok(())
    }

    /// Appends `ended`, which ends the last line and may have further whole lines, and then `rest`, the beginning of
    /// another line. At most `MOST_HELD` bytes of `rest` are kept. If memory runs out, nothing changes.
    fn end_line(&mut self, ended: &[u8], rest: &[u8]) -> Result<(), Memory>
        requires ended { (line : List ℕ) × (ended.now ≡ line ++ 10 ∷ []) }
        requires one { Lacks 10 rest.now }
        ensures alike { OnOk result (ReadAlike (pending_of self.old ++ (ended.now ++ rest.now)) (pending_of self.new)) }
        ensures held { OnOk result (self.new.held ≡ take most_held rest.now) }
        ensures few { OnOk result (length (pending_of self.new) ≤ length (pending_of self.old) + length (ended.now ++ rest.now)) }
        ensures read { OnOk result (self.new.read ≡ self.old.read) }
        ensures err { OnErr result (self.new ≡ self.old) }
    {
        // For the proof alone, at no cost when it runs: what follows a line feed is the last line.
        definitions_agree();
        let (front, lost) = cut_at(MOST_HELD, rest);
        put_ended(&mut self.buffer, self.lost, ended, front)?;
        self.line = self.buffer.len() - front.len();
        self.lost = lost;
        Ok(())
    }

    /// Removes the read bytes, and appends the next piece of the text. If memory runs out, nothing is appended, and the
    /// unread bytes are unchanged.
    pub fn add(&mut self, piece: &[u8]) -> Result<(), Memory>
        ensures alike { OnOk result (ReadAlike (pending_of self.old ++ piece.now) (pending_of self.new)) }
        ensures held { OnOk result ((f : List ℕ) → self.old.held ≡ take most_held (last_line f) → self.new.held ≡ take most_held (last_line (f ++ piece.now))) }
        ensures few { OnOk result (length (pending_of self.new) ≤ length (pending_of self.old) + length piece.now) }
        ensures read { OnOk result (self.new.read ≡ 0) }
        ensures err { OnErr result (self.new ≡ record self.old { read = 0 }) }
    {
        // For the proof alone, at no cost when it runs: a piece is one line, or ends one and begins another.
        definitions_agree();
        self.drop_read();
        let rest = last_line(piece);
        if rest.len() == piece.len() {
            self.extend_last(piece)?;
            return Ok(());
        }
        let (ended, rest) = piece.split_at(piece.len() - rest.len());
        self.end_line(ended, rest)?;
        Ok(())
    }
}

//! The bytes that were read from a pipe. They are passed on line by line, so that the rest can be kept for a later run.
//! Each `MARK` is removed from them: the program itself writes it, to end a read that waits.
ghost use Rattle.std.specs.Prelude.{◌≡◌, ◌==◌, ◌↔◌, ◌≤◌, ◌<◌, ◌+◌, ◌-◌, ◌++◌, [], true, false, min, IfSome, IsTrue, MatchBool, OnOk, OnErr, length, drop, take, vec_len};
ghost use Rattle.std.specs.List.{filter};
ghost use Rattle.cmd_live.specs.PipeTexts.{behind_lines, mark, IsWithoutMark, LosesMarks};

use cmd_types::{Memory, cut};
use std::alloc::Global;
use std::io::Read;
use std::mem;

/// The bytes that the program writes into a pipe to end a read. No sender ends a line with these two control
/// characters: a line with a zero byte is no command.
pub const MARK: &[u8] = b"\0\x01\n";

/// This many bytes without a line feed are passed on before the line ends: no line of a command is so long.
const LONGEST: usize = 16_384;

/// The bytes that were read from a pipe, and how far they were passed on.
#[derive(Drop)]
pub struct PipeText {
    bytes: Vec<u8>,
    /// The number of these bytes that were passed on.
    given: usize,
    /// The end of the bytes that may be passed on.
    whole: usize,
    /// The number of lines that were passed on before these bytes.
    lines: u64,
    /// Whether these bytes begin inside a line whose beginning was passed on because the line was too long.
    is_inside: bool,
}

impl PipeText {
    /// Makes a text of these bytes, which an earlier run read.
    pub fn new(left: Vec<u8>) -> PipeText
        ensures bytes { result.bytes.items ≡ left.items }
        ensures given { result.given ≡ 0 }
    {
        let mut text = PipeText {
            bytes: left,
            given: 0,
            whole: 0,
            lines: 0,
            is_inside: false,
        };
        text.find_whole(0);
        text
    }

    /// Drops the bytes that were passed on.
    fn drop_given(&mut self)
        ensures left { self.new.bytes.items ≡ drop self.old.given self.old.bytes.items }
        ensures given { self.new.given ≡ 0 }
    {
        let given = self.given.min(self.bytes.len());
        let passed = &self.bytes[..given];
        if let Some(last) = passed.last() {
            self.is_inside = *last != b'\n';
        }
        self.lines = self.lines.saturating_add(count_ends(passed));
        self.bytes.drain(..given);
        self.given = 0;
        self.whole = self.whole.saturating_sub(given);
    }

    /// Removes the marks from the bytes.
    fn drop_marks(&mut self)
        ensures marks { LosesMarks self.old.bytes.items self.new.bytes.items }
        ensures given { self.new.given ≡ self.old.given }
    {
        'marks: while drop_mark(&mut self.bytes) {}
    }

    /// Finds the end of the bytes that may be passed on, the last `held` bytes aside: it is after the last line feed,
    /// or at the end where the bytes are a line that is too long.
    fn find_whole(&mut self, held: usize)
        ensures same { self.new.bytes.items ≡ self.old.bytes.items }
        ensures given { self.new.given ≡ self.old.given }
    {
        let end = self.bytes.len().saturating_sub(held);
        self.whole = match self.bytes[..end].iter().rposition(|byte| *byte == b'\n') {
            Some(at) => at.saturating_add(1),
            None if end >= LONGEST => end,
            None => 0,
        };
    }

    /// Takes the bytes of a read. `is_full` says that the read filled its buffer, so that the last bytes may be a part
    /// of a mark; such a part is not passed on yet. After an error the bytes to be passed on are unchanged.
    pub fn take(&mut self, piece: &[u8], is_full: bool) -> Result<(), Memory>
        ensures taken { OnOk result (LosesMarks (drop self.old.given self.old.bytes.items ++ piece.now) self.new.bytes.items) }
        ensures kept { OnErr result (self.new.bytes.items ≡ drop self.old.given self.old.bytes.items) }
        ensures given { self.new.given ≡ 0 }
    {
        self.drop_given();
        self.bytes.extend_from_slice(piece)?;
        self.drop_marks();
        let held = if is_full {
            part_of_mark(&self.bytes)
        } else {
            0
        };
        self.find_whole(held);
        Ok(())
    }

    /// Lets all bytes be passed on, at the end of the pipe.
    pub fn end(&mut self)
        ensures same { self.new.bytes.items ≡ self.old.bytes.items }
        ensures given { self.new.given ≡ self.old.given }
    {
        self.whole = self.bytes.len();
    }

    /// Copies the next bytes that may be passed on into the buffer, and returns their number; 0 where none is left. The
    /// stored bytes are unchanged.
    pub fn give(&mut self, buffer: &mut [u8]) -> usize
        ensures bound { result ≤ length buffer.new }
        ensures same { self.new.bytes.items ≡ self.old.bytes.items }
        ensures given { drop self.old.given self.old.bytes.items ≡ take result buffer.new ++ drop self.new.given self.new.bytes.items }
    {
        let Some(mut rest) = self.bytes.get(self.given..self.whole) else {
            return 0;
        };
        let Ok(count) = rest.read(buffer) else {
            return 0;
        };
        self.given = self.given.saturating_add(count);
        count
    }

    /// Whether there are bytes that may be passed on.
    pub fn has_whole(&self) -> bool
        ensures { IsTrue result ↔ (self.now.given < self.now.whole) }
    {
        self.given < self.whole
    }

    /// Takes back the last `count` bytes that were passed on.
    pub fn take_back(&mut self, count: usize)
        ensures same { self.new.bytes.items ≡ self.old.bytes.items }
        ensures given { count ≤ self.old.given → self.new.given + count ≡ self.old.given }
    {
        self.given = self.given.saturating_sub(count);
    }

    /// Takes back the unfinished line that was passed on last, so that the rest begins with a line. Where the rest
    /// begins inside a line that was too long, its first byte is replaced by one with which no command begins.
    pub fn take_back_part(&mut self)
        ensures given { self.new.given ≤ self.old.given }
        ensures length { length self.new.bytes.items ≡ length self.old.bytes.items }
    {
        let given = self.given.min(self.bytes.len());
        match self.bytes[..given].iter().rposition(|byte| *byte == b'\n') {
            Some(at) => self.given = at.saturating_add(1),
            None => {
                self.given = 0;
                if let (true, Some(first)) = (self.is_inside, self.bytes.first_mut()) {
                    *first = b'.';
                }
            }
        }
    }

    /// Takes back the line of this number, counted from 1 over all bytes, and all bytes that were passed on after it.
    pub fn take_back_line(&mut self, number: u64)
        ensures same { self.new.bytes.items ≡ self.old.bytes.items }
        ensures given { self.new.given ≡ min self.old.given (length self.old.bytes.items - length (behind_lines (number - 1 - self.old.lines) self.old.bytes.items)) }
    {
        let before = number.saturating_sub(1).saturating_sub(self.lines);
        let from = behind_lines(&self.bytes, before);
        let at = self.bytes.len().saturating_sub(from.len());
        self.given = self.given.min(at);
    }

    /// Takes out the bytes that were not passed on, so that none is left. Takes no memory.
    pub fn take_left(&mut self, alloc: Global) -> Vec<u8>
        ensures left { result.items ≡ drop self.old.given self.old.bytes.items }
        ensures none { self.new.bytes.items ≡ [] }
        ensures given { self.new.given ≡ 0 }
    {
        self.drop_given();
        self.whole = 0;
        mem::replace(&mut self.bytes, Vec::new(alloc))
    }
}

/// The number of line feeds in the text.
pub fn count_ends(text: &[u8]) -> u64
    ensures { result ≡ length (filter (λ byte. byte == 10) text.now) }
{
    text.iter().filter(|byte| **byte == b'\n').count() as u64
}

/// The text after its first `count` lines; empty where it has fewer.
pub fn behind_lines(text: &[u8], count: u64) -> &[u8]
    ensures { result.now ≡ behind_lines count text.now }
{
    let mut rest = text;
    'lines: for _ in 0..count {
        let (_, behind) = cut(b'\n', rest);
        match behind {
            Some(behind) => rest = behind,
            None => return &[],
        }
    }
    rest
}

/// The number of bytes at the end that are a prefix of a mark, but not a whole mark.
fn part_of_mark(bytes: &[u8]) -> usize {
    let mut held = 0;
    for part in 1..MARK.len() {
        if bytes.ends_with(&MARK[..part]) {
            held = part;
        }
    }
    held
}

/// Removes the first mark from the bytes, and returns whether there was one.
fn drop_mark(bytes: &mut Vec<u8>) -> bool
    ensures out { MatchBool result (IsWithoutMark bytes.old.items bytes.new.items) (bytes.new.items ≡ bytes.old.items) }
    ensures falls { result ≡ true → vec_len bytes.new < vec_len bytes.old }
{
    let Some(at) = find_mark(bytes) else {
        return false;
    };
    bytes.drain(at..at + MARK.len());
    true
}

/// The index of the first mark in these bytes.
fn find_mark(bytes: &[u8]) -> Option<usize>
    ensures bound { IfSome result (λ at. at + 3 ≤ length bytes.now) }
    ensures mark { IfSome result (λ at. drop at bytes.now ≡ mark ++ drop (at + 3) bytes.now) }
{
    for at in 0..bytes.len() {
        if bytes[at..].starts_with(MARK) {
            return Some(at);
        }
    }
    None
}

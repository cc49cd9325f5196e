//! Finds the position where the reading of a regular file begins: after the line of the last command that earlier runs
//! journaled, or at the beginning if the name now refers to another file. The file is only read.
ghost use Rattle.std.specs.Prelude.{◌≡◌, ◌++◌, [], ◌∷◌, ℕ, List, Some, true, false, IfOk, IfSome};
ghost use Rattle.std.specs.Str.{bytes_eq};
ghost use Rattle.cmd_types.specs.Spelling.{canonical};
ghost use Rattle.cmd_lines.specs.Skips.{IsSkipped, HasPassed};
ghost use Rattle.cmd_recovery.specs.FeedStarts.{HasLine};
ghost use Rattle.cmd_live.specs.Reading.{skipped_bytes, skipped_lines, IsStartOf};

use crate::live::read_some;
use cmd_lines::{
    MOST_FED, Skip, Skipped, Skipping, items_of_lines, skipped_are_first, skipped_are_one,
    skipping_has_fewer,
};
use cmd_types::{Memory, Stamped};
use std::alloc::Global;
use std::io::Read;

/// The most bytes of one read of the skipped part: a choice.
const PIECE: usize = 16_384;

/// The commands of a file that earlier runs journaled.
#[derive(Clone, Copy)]
pub struct Known<'a> {
    /// The number of journaled commands of the file.
    pub commands: u64,
    /// The canonical line of the last command, without its line feed.
    pub last: &'a [u8],
}

/// The position where the reading of a feed begins.
#[derive(Clone, Copy, PartialEq, Eq)]
pub enum Start {
    /// After the first `bytes` bytes, which have `lines` lines.
    Behind { bytes: u64, lines: u64 },
    /// At the beginning, since the file is not the one that earlier runs read.
    Anew,
}

impl Start {
    /// The beginning of a feed of which nothing was journaled, or that is no regular file.
    pub const FIRST: Start = Start::Behind { bytes: 0, lines: 0 };

    /// The number of bytes of the file that are skipped; 0 for `Anew`.
    pub fn bytes(self) -> u64
        ensures { result ≡ skipped_bytes self }
    {
        match self {
            Start::Behind { bytes, .. } => bytes,
            Start::Anew => 0,
        }
    }

    /// The number of lines of the file that are skipped; 0 for `Anew`.
    pub fn lines(self) -> u64
        ensures { result ≡ skipped_lines self }
    {
        match self {
            Start::Behind { lines, .. } => lines,
            Start::Anew => 0,
        }
    }
}

/// Whether `line`, without a line feed, is the canonical line of the command. Fails if memory runs out.
pub fn is_line_of(alloc: Global, stamped: &Stamped, line: &[u8]) -> Result<bool, Memory>
    ensures { IfOk result (λ is. is ≡ bytes_eq (canonical stamped.now) line.now) }
{
    let mut written = Vec::new(alloc);
    stamped.write_line(alloc, &mut written)?;
    // `write_line` ends the line with a line feed, and `line` has none.
    written.pop();
    Ok(written.as_slice() == line)
}

/// Whether `last`, the last skipped command, has the canonical line `line`; true where `last` is `None`. Fails if
/// memory runs out.
fn has_line(alloc: Global, last: &Option<Stamped>, line: &[u8]) -> Result<bool, Memory>
    ensures same { IfOk result (λ is. is ≡ true → HasLine last.now line.now) }
    ensures other { IfOk result (λ is. is ≡ false → HasLine last.now line.now → ⊥) }
{
    match last {
        Some(stamped) => is_line_of(alloc, stamped, line),
        None => Ok(true),
    }
}

/// The start after the skipped lines, or `Anew` where the last skipped command is not the last journaled one. Fails if
/// memory runs out.
fn start_behind(alloc: Global, skipped: &Skipped, known: Known<'_>) -> Result<Start, Memory>
    ensures { IfOk result (λ start. (text : List ℕ) → IsSkipped text known.entry.commands skipped.now → IsStartOf text known.entry start) }
{
    // For the proof alone, at no cost when it runs: exactly one prefix of a text has this number of commands and ends
    // with the last of them.
    skipped_are_one();
    if !has_line(alloc, &skipped.last, known.last)? {
        return Ok(Start::Anew);
    }
    Ok(Start::Behind {
        bytes: skipped.bytes,
        lines: skipped.lines,
    })
}

/// Reads up to the line of the command number `commands`, from 1, and returns `Done`, or to the end of a text with
/// fewer commands, and returns `More`. Returns `None` where a read fails, memory runs out, or the text is longer than
/// any file. Leaves the reader after the bytes that were read.
fn skip_commands<R: Read>(alloc: Global, reader: &mut R, commands: u64) -> Option<Skip>
    ensures { IfSome result (λ skip. (text : List ℕ) → R.remaining reader.old ≡ Some text → HasPassed commands text skip) }
{
    let mut skip = Skipping::new(alloc, commands);
    let mut piece = [0u8; PIECE];
    'pieces: for _ in 0..u64::MAX {
        let skipping = match skip {
            Skip::Done(skipped) => return Some(Skip::Done(skipped)),
            Skip::More(skipping) => skipping,
        };
        let Ok(count) = read_some(reader, &mut piece) else {
            return None;
        };
        if count == 0 {
            return Some(Skip::More(skipping));
        }
        if skipping.fed() > MOST_FED - count as u64 {
            return None;
        }
        let Ok(next) = skipping.feed(alloc, &piece[..count]) else {
            return None;
        };
        skip = next;
    }
    None
}

/// Reads a file from its beginning, and finds where the reading of its commands begins: after its journaled commands.
/// It counts as another file if it has fewer commands than were journaled, or another command at the place of the last
/// one. Returns `None` where a read fails, memory runs out, or the text is longer than any file. The file is left at
/// some later position.
pub fn find_start<R: Read>(alloc: Global, reader: &mut R, known: Known<'_>) -> Option<Start>
    ensures { IfSome result (λ start. (text : List ℕ) → R.remaining reader.old ≡ Some text → IsStartOf text known.entry start) }
{
    // For the proof alone, at no cost when it runs: a text has at least as many commands as are skipped in it.
    skipping_has_fewer();
    skipped_are_first();
    items_of_lines();
    match skip_commands(alloc, reader, known.commands)? {
        Skip::Done(skipped) => start_behind(alloc, &skipped, known).ok(),
        Skip::More(_) => Some(Start::Anew),
    }
}

//! A file that may have had the name of a feed before a rotation. The numbers or dates in the names of such files, and
//! the times at which they were written, give the order in which they had the name. No file is changed.
ghost use Rattle.std.specs.Prelude.{◌≡◌, Some, true, slice_get};

use super::gate::node_of;
use super::node::Node;
use crate::segment_names::number_behind;
use crate::start::{Known, Start, find_start, is_line_of};
use cmd_answer::read_all;
use cmd_lines::{Item, Lines, MOST_FED};
use cmd_options::MOST_READS;
use cmd_types::Stamped;
use std::alloc::Global;
use std::fs::OpenFile;
use std::io::{Read, Seek, SeekFrom};
use std::time::SystemTime;

/// The number of bytes at the end of a file that are read first to find its last command: a choice, with room for
/// several of the longest lines.
const TAIL: u64 = 65_536;

/// The number of bytes that are read where the first ones have no command: a choice, which bounds the memory and has
/// room for many refused lines.
const LONG_TAIL: u64 = 16_777_216;

/// Whether the suffix `found` comes from a later rotation than the suffix `old`: it has a smaller number after a point,
/// or a later date after a dash.
///
/// Believed: numbers fall with later rotations, and dates rise (no premise; rotation).
fn is_later(old: &[u8], found: &[u8]) -> bool {
    if let (Some(old), Some(found)) = (number_behind(old, b"."), number_behind(found, b".")) {
        return found < old;
    }
    is_date(old) && is_date(found) && old.len() == found.len() && found > old
}

/// Whether the suffix of a name is a dash and a date of digits and further dashes.
fn is_date(end: &[u8]) -> bool
    ensures { result ≡ true → slice_get end.now 0 ≡ Some 45 }
{
    end.first() == Some(&b'-')
        && end
            .iter()
            .all(|byte| byte.is_ascii_digit() || *byte == b'-')
}

/// The last command of these lines; `None` where there is none, or memory runs out.
///
/// Believed: no later command is missed (no premise; quick-rotations).
fn last_command(alloc: Global, text: &[u8]) -> Option<Stamped> {
    if text.len() as u64 > MOST_FED {
        return None;
    }
    let mut lines = Lines::new(alloc);
    lines.feed(alloc, text).ok()?;
    let mut last = None;
    for _ in 0..u64::MAX {
        match lines.next_item(alloc).ok()? {
            Some(Item::Command(stamped)) => last = Some(stamped),
            Some(Item::Refused { .. }) => {}
            None => break,
        }
    }
    last
}

/// The facts that give the order of old files.
#[derive(Drop)]
pub struct Renamed {
    /// The suffix of the file's name after the name of the feed.
    pub end: Vec<u8>,
    /// When the file was created; `None` where its file system does not say so.
    pub made: Option<SystemTime>,
    /// When the file was last written.
    pub written: SystemTime,
}

impl Renamed {
    /// Whether this file can have got the name of the feed after `other`: its last write is not before that of `other`,
    /// or is after the creation of `other`.
    ///
    /// Believed: a late line in `other` does not exclude this file (premise 8; quick-rotations).
    fn is_after(&self, other: &Renamed) -> bool {
        self.written >= other.written || other.made.is_some_and(|made| self.written > made)
    }
}

/// A file that the feed may have been read from.
#[derive(Drop)]
pub struct Candidate<F: Drop> {
    pub file: F,
    pub length: u64,
    pub renamed: Renamed,
}

impl<F: OpenFile + Read + Seek + Drop> Candidate<F> {
    /// Whether this is the file of that node.
    ///
    /// Believed: a file has its node under each of its names (premise 8; rotation).
    pub fn is_of(&self, node: Node) -> bool {
        node_of(&self.file) == Some(node)
    }

    /// The start after these commands, where they were journaled of this file; the file is positioned there.
    ///
    /// Believed: no command after them is skipped (premise 1; rotation).
    pub fn start_behind(&mut self, alloc: Global, known: &Known<'_>) -> Option<Start> {
        let start = find_start(alloc, &mut self.file, *known)?;
        if start == Start::Anew {
            return None;
        }
        self.file.seek(SeekFrom::Start(start.bytes())).ok()?;
        Some(start)
    }

    /// The last command in the last `tail` bytes of this file. The file is left at its end.
    ///
    /// Believed: no later command is missed (premise 1; quick-rotations).
    fn last_command(&mut self, alloc: Global, tail: u64) -> Option<Stamped> {
        let from = self.length.saturating_sub(tail);
        self.file.seek(SeekFrom::Start(from)).ok()?;
        let text = read_all(alloc, &mut self.file, MOST_READS).ok()?;
        last_command(alloc, &text)
    }

    /// Whether the last command of this file has the canonical line `line`.
    ///
    /// Believed: refused lines after the command are skipped (premise 1; quick-rotations).
    pub fn ends_with(&mut self, alloc: Global, line: &[u8]) -> bool {
        let last = match self.last_command(alloc, TAIL) {
            Some(last) => Some(last),
            None => self.last_command(alloc, LONG_TAIL),
        };
        match last {
            Some(stamped) => is_line_of(alloc, &stamped, line) == Ok(true),
            None => false,
        }
    }
}

/// When a file was last written.
pub fn written_of<F: Drop>(file: &Candidate<F>) -> SystemTime
    ensures { result ≡ file.now.renamed.written }
{
    file.renamed.written
}

/// The length of a file in bytes.
pub fn length_of<F: Drop>(file: &Candidate<F>) -> u64
    ensures { result ≡ file.now.length }
{
    file.length
}

/// Whether, among these files, the one with the suffix `found` comes next after the one with the suffix `end` in the
/// order of rotations.
///
/// Believed: as [`is_later`] (quick-rotations).
fn is_next<F: Drop>(files: &[Candidate<F>], end: &[u8], found: &[u8]) -> bool {
    for file in files {
        let other = &file.renamed.end;
        if is_later(end, other) && is_later(other, found) {
            return false;
        }
    }
    is_later(end, found)
}

/// Removes from `files` the next file after that of `end` in the order of rotations, if there is one, and returns it.
///
/// Believed: as [`is_next`] (quick-rotations).
fn take_next<F: Drop>(files: &mut Vec<Candidate<F>>, end: &[u8]) -> Option<Candidate<F>> {
    let place = files
        .iter()
        .position(|file| is_next(files, end, &file.renamed.end))?;
    Some(files.remove(place))
}

/// The files that were renamed in rotations after `old`, in the order of rotations, each positioned at its beginning.
///
/// Believed: no file of an earlier rotation is among them, even where numbers ascend (premise 8; quick-rotations).
pub fn later_files<F: Seek + Drop>(
    alloc: Global,
    mut files: Vec<Candidate<F>>,
    old: Renamed,
) -> Vec<F> {
    let mut later = Vec::new(alloc);
    let mut last = old;
    for _ in 0..u64::MAX {
        let Some(
            Candidate {
                mut file,
                renamed,
                ..
            },
        ) = take_next(&mut files, &last.end)
        else {
            break;
        };
        let is_begun = renamed.is_after(&last) && file.seek(SeekFrom::Start(0)).is_ok();
        if !is_begun || later.push(file).is_err() {
            break;
        }
        last = renamed;
    }
    later
}

//! A feed that is a regular file and is drained: it is read to the last line feed that it has at the start. If the file
//! is replaced, its reader prints that to the error stream.
ghost use Rattle.std.specs.Prelude.{◌≡◌, ◌≤◌, IfOk, length};

use super::error_streams::ErrorStreams;
use super::followed_file::{FollowedFile, NameFate};
use super::gate::Gate;
use super::signal::Signal;
use crate::tail::Tail;
use cmd_dispatch::FeedFailed;
use std::io::{self, Read, Seek, SeekFrom};
use std::rt::Files;

/// The most bytes of one read in the search for the last line feed of a file: a choice, a page.
const PIECE: usize = 4_096;

/// Finds where the last whole line of a file ends, in bytes from its start; 0 where it has no line feed. Searches
/// backwards in pieces, and moves the position of the file.
///
/// Believed: no line feed is after the returned position (premise 1; follow-drain).
pub fn find_lines_end<F: Read + Seek>(file: &mut F) -> io::Result<u64> {
    let mut end = file.seek(SeekFrom::End(0))?;
    let mut piece = [0u8; PIECE];
    for _ in 0..u64::MAX {
        let length = end.min(PIECE as u64) as usize;
        if length == 0 {
            break;
        }
        let start = end - length as u64;
        file.seek(SeekFrom::Start(start))?;
        file.read_exact(&mut piece[..length])?;
        if let Some(at) = piece[..length].iter().rposition(|byte| *byte == b'\n') {
            return Ok(start.saturating_add(at as u64).saturating_add(1));
        }
        end = start;
    }
    Ok(0)
}

/// A regular file that is drained: its reader reads the whole lines that the file has at the start, and no byte after
/// them.
#[derive(Drop)]
pub struct Drained<'a, R: Files> {
    signal: &'a Signal<'a, R>,
    pub gate: &'a Gate<'a, R>,
    named: FollowedFile<'a, R>,
    tail: Tail,
    /// Where the last whole line ended at the start, in bytes.
    end: u64,
}

impl<'a, R: Files + ErrorStreams> Drained<'a, R> {
    /// A reader of the file, from the end of the bytes that were read or skipped to the last line feed that the file
    /// has now. Searches for this line feed, and moves the file back to its position.
    ///
    /// # Errors
    /// The file could not be searched for its last line feed, or could not be moved back to its position.
    ///
    /// Believed: the position of the file is again after the bytes that were read or skipped (premise 1;
    /// follow-drain).
    pub fn new(
        signal: &'a Signal<'a, R>,
        gate: &'a Gate<'a, R>,
        mut named: FollowedFile<'a, R>,
    ) -> io::Result<Drained<'a, R>> {
        let end = find_lines_end(&mut named.file)?;
        let read = named.read;
        named.file.seek(SeekFrom::Start(read))?;
        Ok(Drained {
            signal,
            gate,
            named,
            tail: Tail::new(),
            end,
        })
    }

    /// Returns the result of the read at the end of the last line. Where the file was replaced meanwhile, prints that
    /// to the error stream; the file that has the name now is not read.
    fn finish(&self) -> Result<usize, FeedFailed>
        ensures { IfOk result (λ n. n ≡ 0) }
    {
        if self.named.is_cut() || self.named.fate() != NameFate::Same {
            self.named.report_replaced();
        }
        self.tail.end()
    }

    /// Reads the next bytes into the buffer and returns how many they are; 0 at the end of the last line or where the
    /// run has failed. The error is a failed read, a file that has become shorter, or a failed run that ends the text
    /// in the middle of a line.
    pub fn next(&mut self, buffer: &mut [u8]) -> Result<usize, FeedFailed>
        ensures bound { IfOk result (λ n. n ≤ length buffer.new) }
    {
        if self.signal.has_failed() {
            return self.tail.end();
        }
        let left = self.end.saturating_sub(self.named.read);
        let most = left.min(buffer.len() as u64) as usize;
        if most == 0 {
            return self.finish();
        }
        let count = self.named.read_more(&mut buffer[..most])?;
        if count == 0 {
            self.named.report_replaced();
            return Err(FeedFailed);
        }
        self.tail.note(&buffer[..count]);
        Ok(count)
    }
}

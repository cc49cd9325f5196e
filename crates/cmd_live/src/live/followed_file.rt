//! A regular file as a feed: the open file, and the present state of the name under which it was opened.
ghost use Rattle.std.specs.Prelude.{◌≡◌, ◌≤◌, IfOk, length};

use super::error_streams::{ErrorStreams, report};
use super::gate::Gate;
use super::node::Node;
use super::stream::read_some;
use cmd_answer::FollowLine;
use cmd_dispatch::FeedFailed;
use std::alloc::Global;
use std::fs;
use std::fs::OpenFile;
use std::io::{ErrorKind, Seek, SeekFrom};
use std::rt::Files;

/// An open regular file, the name under which it was opened, and how many of its bytes were read or skipped.
#[derive(Drop)]
pub struct FollowedFile<'a, R: Files> {
    pub rt: &'a R,
    alloc: Global,
    pub feed: u64,
    path: &'a str,
    pub file: R::File,
    pub read: u64,
}

impl<'a, R: Files> FollowedFile<'a, R> {
    /// The open file of the feed of this gate, positioned after its first `read` bytes. Reads nothing.
    pub fn new(
        rt: &'a R,
        alloc: Global,
        gate: &'a Gate<'a, R>,
        file: R::File,
        read: u64,
    ) -> FollowedFile<'a, R>
        ensures feed { result.feed ≡ gate.now.feed }
        ensures path { result.path.now ≡ gate.now.path.now }
        ensures read { result.read ≡ read }
    {
        FollowedFile {
            rt,
            alloc,
            feed: gate.feed,
            path: gate.path,
            file,
            read,
        }
    }
}

/// The present state of the name under which a file was opened.
#[derive(Clone, Copy, PartialEq, Eq)]
pub enum NameFate {
    /// The name refers to the file, or the system does not say.
    Same,
    /// The name refers to another file.
    Renamed,
    /// The name refers to no file.
    Nameless,
}

impl<'a, R: Files + ErrorStreams> FollowedFile<'a, R> {
    /// Reads the bytes that the file has now into the buffer, adds their number to `read`, and returns the number; 0 at
    /// the end of the file. Where a read fails, `read` is unchanged.
    pub fn read_more(&mut self, buffer: &mut [u8]) -> Result<usize, FeedFailed>
        ensures bound { IfOk result (λ n. n ≤ length buffer.new) }
    {
        let count = read_some(&mut self.file, buffer)?;
        self.read = self.read.saturating_add(count as u64);
        Ok(count)
    }

    /// Moves back before the last `count` bytes that were read.
    ///
    /// Believed: the next read returns these bytes again (premise 1; cut-file).
    pub fn read_again(&mut self, count: usize) -> Result<(), FeedFailed> {
        let read = self.read.saturating_sub(count as u64);
        if self.file.seek(SeekFrom::Start(read)).is_err() {
            return Err(FeedFailed);
        }
        self.read = read;
        Ok(())
    }

    /// Whether the file is now shorter than the part of it that was read; false where the system does not say.
    ///
    /// Believed: a file that was cut is noticed unless it has grown back (premise 8; follow-file, cut-file).
    pub fn is_cut(&self) -> bool {
        match self.file.metadata() {
            Ok(held) => held.len() < self.read,
            Err(_) => false,
        }
    }

    /// Returns the present state of the name of the file, as the system reports it. Changes nothing.
    ///
    /// Believed: `Same` where the file has its name (premise 8; follow-file, rotation).
    pub fn fate(&self) -> NameFate {
        let Ok(held) = self.file.metadata() else {
            return NameFate::Same;
        };
        match fs::metadata(self.rt, self.path) {
            Ok(named) if Node::of(&named) == Node::of(&held) => NameFate::Same,
            Ok(_) => NameFate::Renamed,
            Err(error) if error.kind() == ErrorKind::NotFound => NameFate::Nameless,
            Err(_) => NameFate::Same,
        }
    }

    /// Prints to the error stream that the file was replaced. No field changes.
    ///
    /// Believed: as [`report`] (follow-file).
    pub fn report_replaced(&self) {
        report(
            self.rt,
            self.alloc,
            FollowLine::Replaced { feed: self.feed },
        );
    }
}

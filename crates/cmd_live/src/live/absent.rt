//! A feed whose file does not exist yet, or cannot be opened. Its reader checks again each second. Where the run can be
//! renewed, the next run opens the file; in any other run the reader itself does.
use super::error_streams::print;
use super::gate::Gate;
use super::opening::{Opening, open_by_kind};
use super::pause::{LOOKS_A_SECOND, pause};
use super::signal::Signal;
use super::source::Source;
use super::system::FeedSystem;
use crate::start::Known;
use cmd_answer::AbsentFeed;
use std::alloc::Global;
use std::fs;
use std::fs::OpenOptions;
use std::io::Read;
use std::os::unix::fs::FileTypeExt;
use std::rt::Files;
use std::sync::Wait;

/// A feed without a readable file. Nothing of it was read yet in this run.
#[derive(Drop)]
pub struct Absent<'a, R: Files> {
    rt: &'a R,
    alloc: Global,
    signal: &'a Signal<'a, R>,
    gate: &'a Gate<'a, R>,
    /// Whether no command of the feed was journaled, so that it is read from its beginning.
    is_new: bool,
}

impl<'a, R: FeedSystem> Absent<'a, R> {
    /// Makes the feed of this gate. Prints to the error stream that its file does not exist or cannot be opened, unless
    /// an earlier run of the process printed that.
    ///
    /// Believed: the line is printed once, until the feed has been opened (premise 12; absent-feed).
    pub fn new(
        opening: &Opening<'a, '_, R>,
        gate: &'a Gate<'a, R>,
        known: Option<&Known<'_>>,
    ) -> Absent<'a, R> {
        let Opening {
            rt,
            alloc,
            signal,
            ..
        } = *opening;
        if !gate.is_absent.set() {
            let feed = AbsentFeed {
                path: gate.path,
                is_there: fs::metadata(rt, gate.path).is_ok(),
            };
            print(rt, feed.text(alloc));
        }
        Absent {
            rt,
            alloc,
            signal,
            gate,
            is_new: known.is_none_or(|known| known.commands == 0),
        }
    }

    /// Whether the file of the feed can be opened now. If it is a pipe, it is held open for the next run from then on,
    /// so that a writer that waited for a reader does not lose the reader again.
    ///
    /// Believed: the next run opens the file too (premises 8 and 10; absent-feed).
    fn can_open(&self) -> bool {
        let Ok(found) = fs::metadata(self.rt, self.gate.path) else {
            return false;
        };
        let kind = found.file_type();
        if !kind.is_fifo() {
            return !kind.is_dir() && fs::open(self.rt, self.gate.path).is_ok();
        }
        let mut how = OpenOptions::new();
        how.read(true).write(true);
        match how.open(self.rt, self.gate.path) {
            Ok(pipe) => {
                self.gate.hold(self.rt, Some(pipe));
                true
            }
            Err(_) => false,
        }
    }

    /// Opens the feed where its file can be read now, and returns its reader. Where the run can be renewed, asks for
    /// that instead, and returns `None`.
    ///
    /// Believed: a file of which commands were journaled is not read from its beginning (premise 8; absent-feed).
    fn open<I: Read + Drop>(&self) -> Option<Source<'a, R, I>> {
        if !self.can_open() {
            return None;
        }
        if self.signal.renewal.is_possible() {
            self.signal.renew(self.rt);
            return None;
        }
        if !self.is_new {
            return None;
        }
        let opening = Opening {
            rt: self.rt,
            alloc: self.alloc,
            signal: self.signal,
            drain: false,
            known: &[],
        };
        let opened = open_by_kind(&opening, self.gate, None)?;
        Some(opened.source)
    }

    /// Waits until the feed can be read, and returns its reader. Returns `None` where the feed is to end, for a failed
    /// run or the next one.
    ///
    /// Believed: as [`Absent::open`], within a second (premise 9; absent-feed).
    pub fn wait<W: Wait, I: Read + Drop>(&self, rt: &W) -> Option<Source<'a, R, I>> {
        self.signal.backlog.catch_up(rt, self.gate.feed);
        self.signal.renewal.rest(self.gate.feed);
        for look in 1..u64::MAX {
            pause(self.rt);
            if self.signal.is_ending() {
                return None;
            }
            if look % LOOKS_A_SECOND == 0
                && let Some(source) = self.open()
            {
                return Some(source);
            }
        }
        None
    }
}

//! Watches the file of the inventory during a run: where the file has a new text without a fault, the run is asked to
//! end, and the next one begins under that text.
ghost use Rattle.std.specs.Prelude.{◌≡◌, None};

use super::error_streams::report;
use super::node::Node;
use super::signal::Signal;
use super::system::FeedSystem;
use crate::inventories::{end_last_line, new_inventory};
use cmd_answer::{FollowLine, read_all};
use cmd_options::MOST_READS;
use mon_inventory::Cause;
use std::alloc::Global;
use std::fs;
use std::os::unix::fs::MetadataExt;
use std::rt::Files;

/// The number of checks of the file between two requests for the end of the run: a choice. A request may hold up all
/// feeds for a second.
const LOOKS_TO_ASK: u64 = 5;

/// The metadata of a file that changes where its name is given to another file, or the file gets another text.
#[derive(Clone, Copy, PartialEq, Eq)]
pub struct Look {
    node: Node,
    length: u64,
    /// The time of the last change of the text, in seconds and nanoseconds.
    seconds: i64,
    nanoseconds: i64,
}

/// The watch of one run. The thread of the clock feed calls it.
#[derive(Drop)]
pub struct InventoryWatch<'a, R: Files> {
    rt: &'a R,
    alloc: Global,
    signal: &'a Signal<'a, R>,
    /// The path of the file.
    path: &'a str,
    /// The text under which the run applies its commands.
    text: &'a [u8],
    /// The metadata at the last check.
    last: Option<Look>,
    /// The text of a new inventory, which waits for the end of the run.
    found: Option<Vec<u8>>,
    /// The number of checks so far.
    looks: u64,
}

impl<'a, R: Files> InventoryWatch<'a, R> {
    /// The watch on the file at `path`, for a run under the inventory of this text. Checks nothing yet.
    pub fn new(
        rt: &'a R,
        alloc: Global,
        signal: &'a Signal<'a, R>,
        path: &'a str,
        text: &'a [u8],
    ) -> InventoryWatch<'a, R>
        ensures path { result.path.now ≡ path.now }
        ensures text { result.text.now ≡ text.now }
        ensures nothing { result.found ≡ None }
    {
        InventoryWatch {
            rt,
            alloc,
            signal,
            path,
            text,
            last: None,
            found: None,
            looks: 0,
        }
    }
}

impl<R: FeedSystem> InventoryWatch<'_, R> {
    /// The present metadata of the file. `None` where it is no regular file, since opening a pipe would wait for its
    /// writer, or where the system does not say.
    ///
    /// Believed: it differs from earlier metadata where the text differs (premises 8 and 9; live-inventory).
    fn look(&self) -> Option<Look> {
        let found = fs::metadata(self.rt, self.path).ok()?;
        if !found.is_file() {
            return None;
        }
        Some(Look {
            node: Node::of(&found),
            length: found.len(),
            seconds: found.mtime(),
            nanoseconds: found.mtime_nsec(),
        })
    }

    /// The text that the file has now, with its last line ended. `None` where the file cannot be read, or memory runs
    /// out.
    ///
    /// Believed: it is the text of the file (premise 1; live-inventory).
    fn read(&self) -> Option<Vec<u8>> {
        let mut file = fs::open(self.rt, self.path).ok()?;
        let text = read_all(self.alloc, &mut file, MOST_READS).ok()?;
        end_last_line(text).ok()
    }

    /// The text where it is a new inventory without a fault; else `None`. Prints a fault to the error stream, other than
    /// out of memory.
    ///
    /// Believed: as [`report`] (live-inventory).
    fn judge(&self, text: Vec<u8>) -> Option<Vec<u8>> {
        match new_inventory(self.alloc, self.text, &text) {
            Ok(None) => None,
            Ok(Some(_)) => Some(text),
            Err(fault) => {
                if fault.cause != Cause::Memory {
                    let refused = FollowLine::InventoryRefused {
                        line: fault.line,
                        cause: fault.cause,
                    };
                    report(self.rt, self.alloc, refused);
                }
                None
            }
        }
    }

    /// Checks the file; is called once a second. A text is read once it has been unchanged for a second, since it may
    /// still be being written before. Where it is a new inventory, asks for the end of the run, at once and then every
    /// five seconds, and leaves the text to the next run.
    ///
    /// Believed: each new text that is unchanged for two seconds is read once (premises 8, 9 and 11; live-inventory).
    pub fn look_again(&mut self) {
        self.looks = self.looks.saturating_add(1);
        let now = self.look();
        if now != self.last {
            self.last = now;
            return;
        }
        if now.is_some()
            && now != self.signal.seen.lock(self.rt).judged
            && let Some(text) = self.read()
        {
            self.signal.seen.lock(self.rt).judged = now;
            self.found = self.judge(text);
            self.looks = 0;
        }
        if self.found.is_some() && self.looks % LOOKS_TO_ASK == 0 && self.signal.renew(self.rt) {
            self.signal.leave_inventory(self.rt, self.found.take());
        }
    }
}

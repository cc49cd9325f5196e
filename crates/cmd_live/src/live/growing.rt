//! A feed that is a regular file and grows: its reader waits for more bytes, and prints to the error stream if the file
//! was replaced.
ghost use Rattle.std.specs.Prelude.{◌≡◌, ◌≤◌, ◌⊎◌, true, false, IfOk, length};
ghost use Rattle.cmd_live.specs.declared.live.growing.Growth.TheVariants.{Open, Removed, Cut};

use super::followed_file::{FollowedFile, NameFate};
use super::gate::Gate;
use super::pause::{LOOKS_A_SECOND, pause};
use super::signal::Signal;
use super::system::FeedSystem;
use crate::tail::Tail;
use cmd_dispatch::FeedFailed;
use std::rt::Files;
use std::sync::Wait;

/// The number of checks in a row that find no new byte before a renamed file counts as ended: two seconds, since a
/// writer that has the file open may be late.
const LOOKS_TO_END: u64 = 2 * LOOKS_A_SECOND;

/// The number of checks between two requests for the end of the run: five seconds.
const LOOKS_TO_ASK: u64 = 5 * LOOKS_A_SECOND;

/// What the reader has seen so far of a growing file and of its name.
#[derive(Clone, Copy, PartialEq, Eq)]
enum Growth {
    /// The file may still grow.
    Open,
    /// At the last check the name referred to no file. A rotation may have begun.
    Nameless,
    /// The name referred to no file at two checks, and this was printed. The file is still read, since its writer may
    /// append more.
    Removed,
    /// The file became shorter than the part of it that was read, and this was printed. The file is no longer read.
    Cut,
    /// The name refers to another file. The file is no longer read.
    Replaced,
}

impl Growth {
    /// Whether it was printed that the file was replaced, before its name refers to another file.
    fn is_printed(self) -> bool
        ensures printed { result ≡ true → (self ≡ Removed) ⊎ (self ≡ Cut) }
        ensures unprinted { result ≡ false → (self ≡ Removed) ⊎ (self ≡ Cut) → ⊥ }
    {
        matches!(self, Growth::Removed | Growth::Cut)
    }
}

/// A regular file that grows. Its feed ends only where the run is ending or a read fails.
#[derive(Drop)]
pub struct Growing<'a, R: Files> {
    signal: &'a Signal<'a, R>,
    pub gate: &'a Gate<'a, R>,
    named: FollowedFile<'a, R>,
    tail: Tail,
    growth: Growth,
    /// The number of checks in a row that found no new byte in a renamed file.
    quiet: u64,
    /// The number of checks since the file was replaced.
    looks: u64,
}

impl<'a, R: FeedSystem> Growing<'a, R> {
    /// A reader of a file that had lost its name when it was opened, where this was already printed. Otherwise as
    /// [`new`](Growing::new).
    pub fn removed(
        signal: &'a Signal<'a, R>,
        gate: &'a Gate<'a, R>,
        named: FollowedFile<'a, R>,
    ) -> Growing<'a, R>
        ensures removed { result.growth ≡ Removed }
        ensures whole { result.tail.is_torn ≡ false }
    {
        Growing {
            growth: Growth::Removed,
            ..Growing::new(signal, gate, named)
        }
    }

    /// A reader of the file from its present position. Reads nothing yet.
    pub fn new(
        signal: &'a Signal<'a, R>,
        gate: &'a Gate<'a, R>,
        named: FollowedFile<'a, R>,
    ) -> Growing<'a, R>
        ensures open { result.growth ≡ Open }
        ensures whole { result.tail.is_torn ≡ false }
    {
        Growing {
            signal,
            gate,
            named,
            tail: Tail::new(),
            growth: Growth::Open,
            quiet: 0,
            looks: 0,
        }
    }

    /// Sets the field to this `growth`. Prints to the error stream that the file was replaced, unless that line was
    /// printed before.
    ///
    /// Believed: the line is printed once for each file (premise 12; follow-file, cut-file).
    fn note_gone(&mut self, growth: Growth) {
        if !self.growth.is_printed() {
            self.named.report_replaced();
        }
        self.growth = growth;
    }

    /// Counts a check that found no new byte in the file while its name refers to another file. After
    /// [`LOOKS_TO_END`] such checks the file is no longer read; where the run can be renewed, the line that the file
    /// was replaced is left to the end of the run.
    ///
    /// Believed: a byte that is appended within a second of the rename is read (premises 1 and 9; follow-file).
    fn note_renamed(&mut self) {
        self.quiet = self.quiet.saturating_add(1);
        if self.quiet < LOOKS_TO_END {
            return;
        }
        if self.signal.renewal.is_possible() {
            if self.growth.is_printed() {
                self.gate.is_replaced_printed.set();
            }
            self.gate.is_replaced.set();
            self.growth = Growth::Replaced;
        } else {
            self.note_gone(Growth::Replaced);
        }
    }

    /// Sets `growth` by the state of the file and of its name, after a read that found no byte.
    ///
    /// Believed: after a file that was cut, as after any other, the file that gets its name is read (premise 8;
    /// cut-file, rotation).
    fn look(&mut self) {
        if self.growth == Growth::Replaced {
            return;
        }
        if self.growth != Growth::Cut && self.named.is_cut() {
            self.note_gone(Growth::Cut);
        }
        match (self.named.fate(), self.growth) {
            (NameFate::Renamed, _) => {
                self.gate.note_name(self.named.rt, &self.signal.gates);
                self.note_renamed();
            }
            (NameFate::Nameless, Growth::Open) => self.growth = Growth::Nameless,
            (NameFate::Nameless, Growth::Nameless) => {
                self.note_gone(Growth::Removed);
                self.gate.is_removed.set();
            }
            (NameFate::Same, Growth::Nameless) => self.growth = Growth::Open,
            _ => {}
        }
    }

    /// Where the file was replaced and the run can be renewed, asks for that: at once, and then every five seconds.
    ///
    /// Believed: the next run opens the file that has the name (premise 8; rotation).
    fn ask_for_renewal(&mut self) {
        if self.growth != Growth::Replaced || !self.gate.is_replaced.is_set() {
            return;
        }
        if self.looks % LOOKS_TO_ASK == 0 {
            self.signal.renew(self.named.rt);
        }
        self.looks = self.looks.saturating_add(1);
    }

    /// Reads the bytes that the file has now, without waiting, and returns how many; 0 where it has none. Reads nothing
    /// from a file that was cut or replaced.
    fn read_now(&mut self, buffer: &mut [u8]) -> Result<usize, FeedFailed>
        ensures bound { IfOk result (λ n. n ≤ length buffer.new) }
    {
        if matches!(self.growth, Growth::Cut | Growth::Replaced) {
            return Ok(0);
        }
        let count = self.named.read_more(buffer)?;
        if count > 0 {
            self.quiet = 0;
        }
        Ok(count)
    }

    /// Reads the next bytes into the buffer and returns their number. Waits until there are some or the run is ending;
    /// returns 0 only where it is ending. The error is a failed read, or an end of the run that ends the text in the
    /// middle of a line.
    pub fn next<W: Wait>(&mut self, rt: &W, buffer: &mut [u8]) -> Result<usize, FeedFailed>
        ensures bound { IfOk result (λ n. n ≤ length buffer.new) }
    {
        let Growing { signal, .. } = *self;
        let feed = self.named.feed;
        signal.renewal.rest(feed);
        for _ in rt.forever() {
            if signal.is_ending() {
                break;
            }
            let count = self.read_now(buffer)?;
            if count > 0 && signal.renewal.may_give(feed) {
                self.tail.note(&buffer[..count]);
                return Ok(count);
            }
            if count > 0 {
                self.named.read_again(count)?;
            } else {
                self.look();
                signal.backlog.catch_up(rt, feed);
                self.ask_for_renewal();
            }
            pause(self.named.rt);
        }
        self.tail.end()
    }
}

//! The attendant of a followed feed: it writes the refused lines to the error stream as soon as they are read, and
//! holds back a command whose time is ahead of the system's clock. Each feed has one `Attending`.
ghost use Rattle.std.specs.Prelude.{◌≡◌, ◌⊎◌, ◌||◌, true, false};
ghost use Rattle.std.specs.Io.KnownBytes.{Appends};
ghost use Rattle.cmd_answer.specs.Written.{AppendsPart};

use super::error_streams::{ErrorStreams, report};
use super::pause::pause;
use super::signal::Signal;
use super::system::FeedSystem;
use super::ticking::seconds_now;
use crate::care::Care;
use cmd_answer::{FollowLine, put_refused, write_text};
use cmd_dispatch::{Attendant, Ending};
use cmd_lines::LineFault;
use cmd_types::Memory;
use std::alloc::{AllocError, Global};
use std::marker::Send;
use std::rt::Files;
use std::snapshot::Snapshot;
use std::sync::atomic::{AtomicU64, Ordering};

/// The attendant of one feed. It writes to the error stream, and records in `signal` that its feed has ended or that
/// the run has failed. The feed is unchanged.
#[derive(Drop)]
pub struct Attending<'a, R: Files + ErrorStreams> {
    rt: &'a R,
    alloc: Global,
    signal: &'a Signal<'a, R>,
    pub care: Care,
    /// The system's clock when it was last read, in seconds.
    now: AtomicU64,
    /// Whether no line of the feed was refused so far.
    pub is_clean: bool,
    /// The writer on the error stream that gets the refused lines, and nothing else.
    pub refusals: R::Stream,
    /// The state of `refusals` before the first line. It exists for the proof alone.
    pub first: Snapshot<R::Stream>,
    /// True once `refusals` did not take a whole line, or a line came while the run was ending: no line is written from
    /// then on.
    pub is_cut: bool,
    /// True once a command that waited was left to the next run.
    is_left: bool,
    /// The text of the refused line to be written next. Its memory is reused for each line.
    line: Vec<u8>,
}

impl<'a, R: FeedSystem> Attending<'a, R> {
    /// An attendant that has written no line yet, with a new writer on the error stream.
    pub fn new(rt: &'a R, alloc: Global, signal: &'a Signal<'a, R>, care: Care) -> Attending<'a, R>
        ensures clean { result.is_clean ≡ true }
        ensures nothing { result.first.value ≡ result.refusals }
        ensures care { result.care ≡ care }
    {
        let refusals = rt.error_stream();
        Attending {
            rt,
            alloc,
            signal,
            care,
            now: AtomicU64::new(0),
            is_clean: true,
            first: Snapshot::of(&refusals),
            refusals,
            is_cut: false,
            is_left: false,
            line: Vec::new(alloc),
        }
    }

    /// Writes `line` to `refusals`, and sets `is_cut` where `refusals` did not take the whole line. No other field
    /// changes.
    fn write_line(&mut self)
        requires { self.old.is_cut ≡ false }
        ensures same { (self.new.first ≡ self.old.first) × (self.new.care ≡ self.old.care) × (self.new.is_clean ≡ self.old.is_clean) }
        ensures written { self.new.is_cut ≡ false → Appends (R.Stream.contents self.old.refusals) (R.Stream.contents self.new.refusals) self.old.line.items }
        ensures cut { self.new.is_cut ≡ true → AppendsPart (R.Stream.contents self.old.refusals) (R.Stream.contents self.new.refusals) self.old.line.items }
    {
        self.is_cut = write_text(&mut self.refusals, &self.line).is_err();
    }

    /// Writes `line` to `refusals`. Where `is_cut` is set or the run is ending, sets `is_cut` and writes nothing: a line
    /// that the end of the run tore is no fault of the feed.
    fn print_line(&mut self, is_ending: bool)
        ensures same { (self.new.first ≡ self.old.first) × (self.new.care ≡ self.old.care) × (self.new.is_clean ≡ self.old.is_clean) }
        ensures printed { self.new.is_cut ≡ false → (self.old.is_cut ≡ false) × Appends (R.Stream.contents self.old.refusals) (R.Stream.contents self.new.refusals) self.old.line.items }
        ensures cut { self.new.is_cut ≡ true → (self.old.is_cut || is_ending ≡ true) ⊎ AppendsPart (R.Stream.contents self.old.refusals) (R.Stream.contents self.new.refusals) self.old.line.items }
    {
        if self.is_cut || is_ending {
            self.is_cut = true;
            return;
        }
        self.write_line();
    }

    /// Reads the system's clock, keeps the reading in `now`, and returns it, in seconds since 1970. Returns `now` where
    /// the system's clock cannot be read.
    ///
    /// Believed: it is the present time (premise 9; follow-ahead).
    fn clock(&self) -> u64 {
        let Some(now) = seconds_now(self.rt) else {
            return self.now.load(Ordering::SeqCst);
        };
        self.now.store(now, Ordering::SeqCst);
        now
    }

    /// By how many seconds a command of `time` is ahead of the system's clock; 0 where that is at most `care.ahead`, or
    /// where `care.ahead` is 0, which is no bound. Reads the clock each time: it may have been set back.
    ///
    /// Believed: as [`clock`](Attending::clock) (follow-ahead, follow-backlog).
    fn seconds_ahead(&self, time: u64) -> u64 {
        if self.care.ahead == 0 {
            0
        } else {
            self.care.seconds_ahead(time, self.clock())
        }
    }

    /// Blocks the sender's thread until `time`, which is now `seconds` seconds ahead of the system's clock, is at most
    /// `care.ahead` seconds ahead, or until the run has failed. First prints to the error stream that the command
    /// waits. Returns false where the next run is to begin, to which the command is left.
    ///
    /// Believed: no other feed waits for this one meanwhile, nor does the next run (premise 11; follow-ahead,
    /// ahead-rotation).
    fn wait_for_clock(&self, time: u64, line: u64, seconds: u64) -> bool {
        let waits = FollowLine::Waits {
            feed: self.care.feed,
            line: self.care.passed.saturating_add(line),
            seconds,
        };
        report(self.rt, self.alloc, waits);
        let Signal {
            backlog,
            renewal,
            ..
        } = self.signal;
        backlog.step_aside(self.rt, self.care.feed);
        renewal.rest(self.care.feed);
        for _ in self.rt.forever() {
            if renewal.is_ending() {
                return false;
            }
            self.note_name();
            let may_go = self.seconds_ahead(time) == 0 && renewal.may_give(self.care.feed);
            if may_go || self.signal.has_failed() {
                break;
            }
            pause(self.rt);
        }
        true
    }

    /// Shows the refused line of this number, counted from 1 in this run, on the error stream, where the call asks for
    /// that.
    ///
    /// Believed: it is shown after the line on its refusal, with its own bytes (premises 2 and 12; verbose).
    fn show(&self, line: u64, fault: LineFault) {
        for gate in &self.signal.gates {
            if gate.feed == self.care.feed
                && let Some(text) = gate.show(self.rt, line, fault)
            {
                let _ = write_text(&mut self.rt.error_stream(), &text);
            }
        }
    }

    /// Checks the name of the feed's file, which the reader does not do while a command waits.
    ///
    /// Believed: as [`Gate::note_name`] (ahead-rotation).
    fn note_name(&self) {
        for gate in &self.signal.gates {
            if gate.feed == self.care.feed {
                gate.note_name(self.rt, &self.signal.gates);
            }
        }
    }

    /// Leaves the line of this number, counted from 1 in this run, and the bytes read after it to the next run. A file
    /// is read again from there, whatever its name is then; the bytes of a pipe are kept.
    ///
    /// Believed: no command of these lines was sent (premise 11; ahead-rotation).
    fn leave(&self, line: u64) {
        for gate in &self.signal.gates {
            if gate.feed == self.care.feed {
                gate.take_back(self.rt, line);
                gate.is_left.set();
            }
        }
    }
}

impl<R: FeedSystem + Sync> Attendant for Attending<'_, R>
where
    R::File: Send,
    R::Dir: Send,
    R::Stream: Send,
{
    ghost use Rattle.std.specs.Prelude.{◌≡◌, false};
    ghost use Rattle.std.specs.Io.KnownBytes.{Appends};
    ghost use Rattle.std.specs.List.{flat_map};
    ghost use Rattle.cmd_answer.specs.Printed.{refused_line, refuses_none};
    ghost use Rattle.cmd_lines.specs.Skips.{raised_refusal};

    ghost has_taken = { λ a refused. (a.is_clean ≡ refuses_none refused)
        × (a.is_cut ≡ false → Appends (R.Stream.contents a.first.value) (R.Stream.contents a.refusals) (flat_map (λ r. refused_line a.care.feed (raised_refusal a.care.passed r)) refused)) };

    /// Writes the refused line to `refusals` and sets `is_clean` to false. Where `is_cut` is set or the run is ending,
    /// sets `is_cut` and writes nothing. If memory runs out, writes nothing, and `is_clean` is unchanged.
    fn refuse(&mut self, line: u64, fault: LineFault) -> Result<(), Memory> {
        let number = self.care.number_of(line)?;
        self.line.clear();
        put_refused(&mut self.line, self.care.feed, number, fault)?;
        let is_ending = self.signal.is_ending();
        self.print_line(is_ending);
        if !self.is_cut {
            self.show(line, fault);
        }
        self.is_clean = false;
        Ok(())
    }

    /// Whether a command of `time`, in seconds, has to wait for the system's clock or for a command of a feed that is
    /// behind. It waits for the clock where `time` is more than `care.ahead` seconds ahead of it and `care.ahead` is
    /// not 0.
    ///
    /// Believed: a command waits that is too far ahead, or that another command of the backlog comes before; no other
    /// command waits (premises 9 and 11; follow-ahead, wrong-clock, follow-backlog).
    fn must_wait(&mut self, time: u64) -> bool {
        if self.seconds_ahead(time) > 0 {
            return true;
        }
        let Attending { rt, signal, .. } = *self;
        signal.backlog.must_wait(rt, self.care.feed, time)
    }

    /// Blocks the sender's thread until `time` is at most `care.ahead` seconds ahead of the system's clock, and then
    /// until no command of a feed that is behind comes first; or until the run has failed. Where the command waits for
    /// the clock, prints that to the error stream. Fails where the next run begins while it waits: the command and the
    /// bytes that its reader passed on after it are left to that run.
    ///
    /// Believed: the wait ends once the system's clock has caught up and the backlog has come to this command, or the
    /// run ends (premises 9 and 11; follow-ahead, follow-backlog, ahead-rotation).
    fn wait_for(&mut self, time: u64, line: u64) -> Result<(), Memory> {
        let seconds = self.seconds_ahead(time);
        if seconds > 0 && !self.wait_for_clock(time, line, seconds) {
            self.is_left = true;
            self.leave(line);
            return Err(AllocError);
        }
        let Attending { rt, signal, .. } = *self;
        for _ in rt.forever() {
            if signal.is_ending() || signal.backlog.await_turn(rt, self.care.feed, time) {
                break;
            }
        }
        Ok(())
    }

    /// Counts a feed that the call names as ended in `signal`, and as no longer behind. Where the ending is not
    /// complete, and no command was left to the next run, records there that the run has failed. Prints a complete ending
    /// that is not whole to the error stream, where `care.prints_ending` is true and the run is not ending.
    ///
    /// Believed: each feed that the call names is counted once, and its torn or failed end is printed once (premise 11;
    /// follow-pipes, follow-drain).
    fn ended(&mut self, ending: Ending) {
        if self.care.is_given {
            self.signal.end_one();
        }
        self.signal.backlog.end(self.rt, self.care.feed);
        if !ending.is_complete() && !self.is_left {
            self.signal.fail(self.rt);
        }
        if self.care.prints_ending && ending != Ending::Whole && !self.signal.is_ending() {
            let ended = FollowLine::Ended {
                feed: self.care.feed,
                ending,
            };
            report(self.rt, self.alloc, ended);
        }
    }
}

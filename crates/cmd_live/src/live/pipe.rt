//! A feed that is a pipe. A followed pipe stays open while its writers come and go; a drained pipe ends with its last
//! writer. Another thread can end a read that waits for bytes, through the gate of the feed. Lines are passed on whole:
//! an unfinished line at the end of the run is left to the next run.
ghost use Rattle.std.specs.Prelude.{◌≡◌, ◌≤◌, false, [], IfOk, IfSome, length};

use super::gate::{Gate, Leaving};
use super::pause::pause;
use super::signal::Signal;
use super::stream::read_some;
use crate::tail::Tail;
use cmd_answer::open_file;
use cmd_dispatch::FeedFailed;
use std::alloc::Global;
use std::rt::Files;
use std::sync::Wait;
use std::time::Clock;

/// The most bytes of one read of a pipe: a choice, a page.
const PIECE: usize = 4_096;

/// A pipe. Its gate has the bytes that were read from it and not passed to the sender yet.
#[derive(Drop)]
pub struct Pipe<'a, R: Files> {
    rt: &'a R,
    signal: &'a Signal<'a, R>,
    pub gate: &'a Gate<'a, R>,
    // A pipe that is drained is opened by its own thread at the first read, since opening waits for its first writer.
    file: Option<R::File>,
    tail: Tail,
}

impl<'a, R: Files + Clock + Wait> Pipe<'a, R> {
    /// The pipe of this gate, which is open as `file`. Where `file` is `None`, the first read opens the pipe. Reads
    /// nothing yet.
    pub fn new(
        rt: &'a R,
        signal: &'a Signal<'a, R>,
        gate: &'a Gate<'a, R>,
        file: Option<R::File>,
    ) -> Pipe<'a, R>
        ensures whole { result.tail.is_torn ≡ false }
    {
        Pipe {
            rt,
            signal,
            gate,
            file,
            tail: Tail::new(),
        }
    }

    /// Opens the pipe where it is not open, waits for at least one byte or the end, and reads once into `piece`.
    /// Returns the number of bytes; 0 at the end.
    fn read_once(&mut self, piece: &mut [u8]) -> Result<usize, FeedFailed>
        ensures bound { IfOk result (λ n. n ≤ length piece.new) }
    {
        if self.file.is_none() {
            self.file = open_file(self.rt, self.gate.path).ok();
        }
        match &mut self.file {
            Some(file) => read_some(file, piece),
            None => Err(FeedFailed),
        }
    }

    /// Reads once and takes the bytes. Returns their number; 0 at the end of the pipe.
    ///
    /// Believed: each byte of the pipe is taken once, in order (premise 10; follow-pipes, rotation).
    fn read_more(&mut self) -> Result<usize, FeedFailed> {
        let mut piece = [0u8; PIECE];
        let count = self.read_once(&mut piece)?;
        let mut text = self.gate.text.lock(self.rt);
        if text.take(&piece[..count], count == PIECE).is_err() {
            return Err(FeedFailed);
        }
        Ok(count)
    }

    /// Reads once between `enter` and `leave` of the gate, and waits for the read. Returns `None` where the reader was
    /// woken; bytes that it read meanwhile are kept at the gate.
    ///
    /// Believed: as [`Gate::enter`] and [`Gate::leave`] (follow-full).
    fn read_through<W: Wait>(&mut self, rt: &W) -> Option<Result<usize, FeedFailed>> {
        if !self.gate.enter() {
            return None;
        }
        for _ in rt.forever() {
            let read = self.read_more();
            match self.gate.leave(self.rt) {
                Leaving::Free => return Some(read),
                Leaving::Woken => break,
                Leaving::Full => {}
            }
        }
        None
    }

    /// Copies the next bytes into the buffer, where the sender may have them, and returns their number; 0 where there
    /// is no whole line.
    fn give(&mut self, buffer: &mut [u8]) -> usize
        ensures bound { result ≤ length buffer.new }
    {
        let mut text = self.gate.text.lock(self.rt);
        let count = text.give(&mut *buffer);
        if count == 0 || self.signal.renewal.may_give(self.gate.feed) {
            self.tail.note(&buffer[..count]);
            return count;
        }
        text.take_back(count);
        0
    }

    /// Copies the next bytes into the buffer, waits for them where none are kept, and returns their number. Returns 0
    /// at the end of the pipe or once the run is to end. The error is a failed read, out of memory, or a text that ends
    /// in the middle of a line.
    pub fn next<W: Wait>(&mut self, rt: &W, buffer: &mut [u8]) -> Result<usize, FeedFailed>
        ensures bound { IfOk result (λ n. n ≤ length buffer.new) }
    {
        let Pipe {
            rt: clock,
            signal,
            gate,
            ..
        } = *self;
        signal.renewal.rest(gate.feed);
        for _ in rt.forever() {
            if signal.is_ending() {
                break;
            }
            let count = self.give(buffer);
            if count > 0 {
                return Ok(count);
            }
            if gate.text.lock(rt).has_whole() {
                pause(clock);
                continue;
            }
            signal.backlog.begin_read(rt, clock, gate.feed);
            let read = self.read_through(rt);
            signal.backlog.end_read(rt, gate.feed);
            let Some(read) = read else {
                continue;
            };
            if read? == 0 {
                let mut text = gate.text.lock(rt);
                text.end();
                if !text.has_whole() {
                    return self.tail.end();
                }
            }
        }
        self.tail.end()
    }
}

//! A feed that is read to the end of its stream, such as the program's input or a device; and `read_some`, one read of
//! any stream, which the other feeds use too.
ghost use Rattle.std.specs.Prelude.{◌≡◌, ◌≤◌, false, IfOk, IfSome, length};
ghost use Rattle.std.specs.Io.KnownBytes.{ReadConsumes};

use super::gate::{Gate, Leaving};
use super::signal::Signal;
use crate::tail::Tail;
use cmd_dispatch::FeedFailed;
use std::io::{ErrorKind, Read};
use std::rt::Files;
use std::sync::Wait;
use std::time::Clock;

/// Reads once from a stream into the buffer, and returns the number of bytes; 0 at the end. Repeats a read that was
/// interrupted. Fails where a read fails for another reason.
pub fn read_some<I: Read>(stream: &mut I, buffer: &mut [u8]) -> Result<usize, FeedFailed>
    ensures bound { IfOk result (λ n. n ≤ length buffer.new) }
    ensures bytes { ReadConsumes (I.remaining stream.old) (I.remaining stream.new) result buffer.new }
{
    'reads: for _ in 0..u64::MAX {
        match stream.read(buffer) {
            Ok(count) => return Ok(count),
            Err(error) if error.kind() == ErrorKind::Interrupted => {}
            Err(_) => return Err(FeedFailed),
        }
    }
    Err(FeedFailed)
}

/// A feed over a stream, read to the end of the stream or until the run has failed.
#[derive(Drop)]
pub struct Stream<'a, R: Files, I: Read + Drop> {
    rt: &'a R,
    signal: &'a Signal<'a, R>,
    pub gate: &'a Gate<'a, R>,
    stream: I,
    tail: Tail,
}

impl<'a, R: Files + Clock, I: Read + Drop> Stream<'a, R, I> {
    /// The feed of this gate over `stream`. Reads nothing yet.
    pub fn new(
        rt: &'a R,
        signal: &'a Signal<'a, R>,
        gate: &'a Gate<'a, R>,
        stream: I,
    ) -> Stream<'a, R, I>
        ensures stream { result.stream ≡ stream }
        ensures whole { result.tail.is_torn ≡ false }
    {
        Stream {
            rt,
            signal,
            gate,
            stream,
            tail: Tail::new(),
        }
    }

    /// Reads once between `enter` and `leave` of the gate, and waits for the read. Returns `None` where the reader was
    /// woken, and drops the bytes that it read, since the run has failed. Only a reader of a pipe can be woken.
    ///
    /// Believed: as [`Gate::wake`] (follow-full).
    fn read_through<W: Wait>(
        &mut self,
        rt: &W,
        buffer: &mut [u8],
    ) -> Option<Result<usize, FeedFailed>>
        ensures bound { IfSome result (λ read. IfOk read (λ n. n ≤ length buffer.new)) }
    {
        if !self.gate.enter() {
            return None;
        }
        for _ in rt.forever() {
            let read = read_some(&mut self.stream, buffer);
            match self.gate.leave(self.rt) {
                Leaving::Free => return Some(read),
                Leaving::Woken => break,
                Leaving::Full => {}
            }
        }
        None
    }

    /// Reads the next bytes into the buffer, waits for them, and returns their number; 0 at the end of the stream or
    /// once the run has failed. Fails where a read fails, or where the text ends in the middle of a line.
    pub fn next<W: Wait>(&mut self, rt: &W, buffer: &mut [u8]) -> Result<usize, FeedFailed>
        ensures bound { IfOk result (λ n. n ≤ length buffer.new) }
    {
        if self.signal.has_failed() {
            return self.tail.end();
        }
        let Stream {
            rt: clock,
            signal,
            gate,
            ..
        } = *self;
        signal.backlog.begin_read(rt, clock, gate.feed);
        let read = self.read_through(rt, &mut *buffer);
        signal.backlog.end_read(rt, gate.feed);
        let Some(read) = read else {
            return self.tail.end();
        };
        match read? {
            0 => self.tail.end(),
            count => {
                self.tail.note(&buffer[..count]);
                Ok(count)
            }
        }
    }
}

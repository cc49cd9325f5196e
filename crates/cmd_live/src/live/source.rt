//! The kinds of feeds of a run that follows feeds, as one type: the thread of a sender reads its feed through `Source`.
use super::absent::Absent;
use super::drained::Drained;
use super::gate::Gate;
use super::growing::Growing;
use super::pipe::Pipe;
use super::stream::Stream;
use super::system::FeedSystem;
use super::ticking::Ticking;
use cmd_dispatch::{Feed, FeedFailed};
use cmd_types::Stamped;
use std::io::Read;
use std::marker::Send;
use std::rt::Files;
use std::sync::Wait;
use std::time::Clock;

/// A feed that is followed. Contracts know nothing of its bytes, and any of its reads may fail.
#[derive(Drop)]
pub enum Source<'a, R: Files + Clock, I: Read + Drop> {
    /// A regular file that grows.
    Growing(Growing<'a, R>),
    /// A regular file that is drained: read to the last line feed that the file had at the start.
    Drained(Drained<'a, R>),
    /// A pipe.
    Pipe(Pipe<'a, R>),
    /// A file that is neither regular nor a pipe, such as a terminal.
    Device(Stream<'a, R, R::File>),
    /// The input of the program.
    Input(Stream<'a, R, I>),
    /// A feed whose file does not exist yet or cannot be opened.
    Absent(Absent<'a, R>),
    /// A feed of the state directory that the call does not name, which ends at once.
    Unnamed,
    /// The clock feed, which makes its commands.
    Ticking(Ticking<'a, R>),
}

impl<'a, R: Files + Clock, I: Read + Drop> Source<'a, R, I> {
    /// The gate of a feed that is open.
    ///
    /// Believed: it is the one at which the feed was opened (no premise; verbose).
    fn gate(&self) -> Option<&'a Gate<'a, R>> {
        match self {
            Source::Growing(file) => Some(file.gate),
            Source::Drained(file) => Some(file.gate),
            Source::Pipe(pipe) => Some(pipe.gate),
            Source::Device(stream) => Some(stream.gate),
            Source::Input(stream) => Some(stream.gate),
            Source::Absent(_) | Source::Unnamed | Source::Ticking(_) => None,
        }
    }
}

impl<R: FeedSystem + Sync, I: Read + Send + Drop> Feed for Source<'_, R, I>
where
    R::File: Send,
    R::Dir: Send,
{
    ghost use Rattle.std.specs.Prelude.{None, true, false};

    ghost remaining = { λ _. None };

    ghost fails = { λ _. true };

    ghost fills = { λ _. false };

    /// Reads the next bytes of the feed into the buffer and returns their number: 0 at the end of the feed, and for the
    /// clock feed, which has no bytes. Waits for bytes, except in a drained file.
    ///
    /// Believed: the bytes are those of the feed, in order and each once (premises 1 and 10; follow-file,
    /// follow-pipes).
    fn read<W: Wait>(&mut self, rt: &W, buffer: &mut [u8]) -> Result<usize, FeedFailed> {
        if let Source::Absent(absent) = self {
            match absent.wait(rt) {
                Some(source) => *self = source,
                None => return Ok(0),
            }
        }
        let count = match self {
            Source::Growing(file) => file.next(rt, &mut *buffer)?,
            Source::Drained(file) => file.next(&mut *buffer)?,
            Source::Pipe(pipe) => pipe.next(rt, &mut *buffer)?,
            Source::Device(stream) => stream.next(rt, &mut *buffer)?,
            Source::Input(stream) => stream.next(rt, &mut *buffer)?,
            Source::Absent(_) | Source::Unnamed | Source::Ticking(_) => 0,
        };
        if let Some(gate) = self.gate() {
            gate.see(rt, &buffer[..count]);
        }
        Ok(count)
    }

    /// Returns true: a read of each kind may fail.
    fn failing(&self) -> bool {
        true
    }

    /// Whether the feed makes its commands, which only the clock feed does.
    fn makes(&self) -> bool {
        match self {
            Source::Ticking(_) => true,
            _ => false,
        }
    }

    /// Waits until the clock feed has a command, and returns it; `None` at its end. No other feed makes a command.
    fn make<W: Wait>(&mut self, rt: &W) -> Result<Option<Stamped>, FeedFailed> {
        match self {
            Source::Ticking(clock) => Ok(clock.next(rt)),
            _ => Ok(None),
        }
    }
}

//! Writers on the error stream of the program. Each part of a run that writes there has its own writer.
use cmd_answer::{FollowLine, write_text};
use cmd_types::Memory;
use std::alloc::Global;
use std::io::{Stderr, Write};

/// A runtime that makes writers on its error stream.
pub trait ErrorStreams {
    type Stream: Write + Drop;

    /// A new writer on the error stream. Writes nothing.
    fn error_stream(&self) -> Self::Stream;
}

impl ErrorStreams for HostRuntime {
    type Stream = Stderr;

    /// A handle on the standard error stream.
    ///
    /// Believed: a write to it appends to the stream that the program began with (premise 2; each example prints
    /// there).
    fn error_stream(&self) -> Stderr {
        self.stderr()
    }
}

/// Prints the line to the error stream by a new writer. A line for which there is no memory, or which the stream does
/// not take, is lost: the run continues without it.
///
/// Believed: the line stands whole between other lines (premises 2 and 12; follow-pipes).
pub fn report<R: ErrorStreams>(rt: &R, alloc: Global, line: FollowLine) {
    print(rt, line.text(alloc));
}

/// Prints the text of a line to the error stream by a new writer, as [`report`] does.
///
/// Believed: as [`report`] (absent-feed).
pub fn print<R: ErrorStreams>(rt: &R, text: Result<String, Memory>) {
    if let Ok(text) = text {
        let _ = write_text(&mut rt.error_stream(), text.as_bytes());
    }
}

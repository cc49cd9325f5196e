//! The mode `explain`: it prints lines, each with its meaning. It runs no feed and opens no file.
ghost use Rattle.std.specs.Prelude.{map};
ghost use Rattle.gateway.specs.Modes.{ServesExplain, streams};

use cmd_answer::{Ended, FilesStop, stopped};
use cmd_explain::serve_explain;
use std::alloc::Global;
use std::io::{Read, Write};

/// Explains the lines in `words`, or without words the lines of the input. Appends each line and its meaning to the
/// output, or the line of a stop to the error stream. Returns the end of the call: the exit status, and whether the
/// error stream took its line.
pub fn explain_words<I: Read, O: Write, E: Write>(
    alloc: Global,
    words: &[&str],
    input: &mut I,
    output: &mut O,
    errors: &mut E,
) -> Ended
    ensures { ServesExplain (map (λ w. w.now) words.now) (I.remaining input.old) result (streams (O.contents output.old) (O.contents output.new) (E.contents errors.old) (E.contents errors.new)) }
{
    match serve_explain(alloc, words, input, output) {
        Ok(status) => Ended {
            status,
            printed: true,
        },
        Err(stop) => stopped(FilesStop::Other(stop), errors),
    }
}

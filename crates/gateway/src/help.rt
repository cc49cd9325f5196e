//! The modes `help` and `version`: they print a fixed text, and read nothing.
ghost use Rattle.std.specs.Prelude.{map};
ghost use Rattle.gateway.specs.Modes.{ServesText, streams};

use cmd_answer::{Ended, FilesStop, Stop, stopped, write_pieces};
use std::io::Write;

/// Appends the parts of a text to the output, or the line of a stop to the error stream. Returns the end of the call,
/// with status 0 where the output took the whole text.
pub fn serve_text<O: Write, E: Write>(parts: &[&[u8]], output: &mut O, errors: &mut E) -> Ended
    ensures { ServesText (map (λ p. p.now) parts.now) result (streams (O.contents output.old) (O.contents output.new) (E.contents errors.old) (E.contents errors.new)) }
{
    match write_pieces(output, parts) {
        Ok(()) => Ended {
            status: 0,
            printed: true,
        },
        Err(_) => stopped(FilesStop::Other(Stop::Output), errors),
    }
}

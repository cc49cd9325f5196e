//! A stop in words: the line of the stop and its meaning.
ghost use Rattle.std.specs.Prelude.{◌≡◌, true, false, IfOk, OnErr};
ghost use Rattle.std.specs.Io.KnownBytes.{Appends, Keeps};
ghost use Rattle.cmd_answer.specs.Stops.{files_stop_status};
ghost use Rattle.cmd_answer.specs.Written.{AppendsPart};
ghost use Rattle.cmd_explain.specs.Asked.{stop_in_words};

use crate::explaining::explain;
use cmd_answer::{Ended, FilesStop, write_text};
use cmd_types::Memory;
use std::alloc::{AllocError, Global};
use std::io::Write;

/// The explained line of a stop: the line, and after it its meaning. Fails if memory runs out.
fn text_of(alloc: Global, stop: FilesStop<'_>) -> Result<Vec<u8>, Memory>
    ensures { IfOk result (λ text. text.items ≡ stop_in_words stop.entry) }
{
    let mut line = Vec::new(alloc);
    if stop.print(&mut line).is_err() {
        return Err(AllocError);
    }
    let (text, _) = explain(alloc, &line)?;
    Ok(text)
}

/// Appends the line of a stop and its meaning to the error stream and nothing else, and returns the end of the call.
/// Where `printed` is false, the stream has only a prefix of that text (profile).
///
/// # Errors
/// Out of memory; the stream is then unchanged.
///
/// ```
/// let mut errors = Vec::new(alloc);
/// let stop = FilesStop::Other(Stop::Inventory { line: 2, cause: 7 });
/// let Ok(ended) = stopped_in_words(alloc, stop, &mut errors) else {
///     return Err(Fail::new("there is memory"));
/// };
/// assert_eq!(rt;
///     errors.as_slice(),
///     b"gateway: inventory line 2: 7\n    line 2 names a contact that no line before it defines\n".as_slice()
/// );
/// assert_eq!(rt; ended.status, 2);
/// ```
pub fn stopped_in_words<E: Write>(
    alloc: Global,
    stop: FilesStop<'_>,
    errors: &mut E,
) -> Result<Ended, Memory>
    ensures status { IfOk result (λ e. e.status ≡ files_stop_status stop.entry) }
    ensures text { IfOk result (λ e. e.printed ≡ true → Appends (E.contents errors.old) (E.contents errors.new) (stop_in_words stop.entry)) }
    ensures part { IfOk result (λ e. e.printed ≡ false → AppendsPart (E.contents errors.old) (E.contents errors.new) (stop_in_words stop.entry)) }
    ensures nothing { OnErr result (Keeps (E.contents errors.old) (E.contents errors.new)) }
{
    let text = text_of(alloc, stop)?;
    let printed = write_text(errors, &text).is_ok();
    Ok(Ended {
        status: stop.status(),
        printed,
    })
}

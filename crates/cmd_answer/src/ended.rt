//! The end of a call: its text is written to the output, or the line of its stop to the error stream, and its exit
//! status is returned.
ghost use Rattle.std.specs.Prelude.{◌≡◌, true, false, IfOk, IfErr, OnOk, OnErr, map};
ghost use Rattle.std.specs.Io.KnownBytes.{Appends};
ghost use Rattle.cmd_answer.specs.declared.stop.Stop.TheVariants.{Output, Usage};
ghost use Rattle.cmd_answer.specs.Stops.{files_stop_status, files_stop_line, misuse_text, stop_status};
ghost use Rattle.cmd_answer.specs.Written.{AppendsPart};

use crate::stop::{FilesStop, Stop};
use crate::writing::{write_pieces, write_text};
use std::io::{self, Write};

/// The end of a call (profile). `status` is the program's exit status. `printed` says whether the error stream took the
/// whole line of a stop; it is true where there is no such line.
///
/// See the example of [`stopped`].
#[derive(Clone, Copy, Debug, PartialEq, Eq)]
pub struct Ended {
    pub status: u8,
    pub printed: bool,
}

/// Appends the line of a stop to the error stream and nothing else, and returns the end of the call. Where `printed` is
/// false, the stream has only a prefix of the line. Takes no memory.
///
/// ```
/// let mut errors = Vec::new(alloc);
/// let ended = stopped(FilesStop::Other(Stop::Feeds), &mut errors);
/// assert_eq!(rt; errors.as_slice(), b"gateway: feeds\n".as_slice());
/// let wanted = Ended {
///     status: 2,
///     printed: true,
/// };
/// assert_eq!(rt; ended, wanted);
/// ```
pub fn stopped<E: Write>(stop: FilesStop<'_>, errors: &mut E) -> Ended
    ensures status { result.status ≡ files_stop_status stop.entry }
    ensures line { result.printed ≡ true → Appends (E.contents errors.old) (E.contents errors.new) (files_stop_line stop.entry) }
    ensures part { result.printed ≡ false → AppendsPart (E.contents errors.old) (E.contents errors.new) (files_stop_line stop.entry) }
{
    let printed = stop.print(errors).is_ok();
    Ended {
        status: stop.status(),
        printed,
    }
}

/// Appends the line of [`Stop::Usage`] and then the parts of `usage` to the error stream. After an error the stream has
/// only a prefix of that text.
fn print_misuse<E: Write>(usage: &[&[u8]], errors: &mut E) -> io::Result<()>
    ensures whole { OnOk result (Appends (E.contents errors.old) (E.contents errors.new) (misuse_text (map (λ p. p.now) usage.now))) }
    ensures part { OnErr result (AppendsPart (E.contents errors.old) (E.contents errors.new) (misuse_text (map (λ p. p.now) usage.now))) }
{
    Stop::Usage.print(errors)?;
    write_pieces(errors, usage)?;
    Ok(())
}

/// Appends the line of [`Stop::Usage`] and then the parts of `usage` to the error stream and nothing else, and returns
/// the end of the call. Where `printed` is false, the stream has only a prefix of that text. Takes no memory.
///
/// ```
/// let mut errors = Vec::new(alloc);
/// let ended = misused(&[b"gateway check INVENTORY\n"], &mut errors);
/// assert_eq!(rt;
///     errors.as_slice(),
///     b"gateway: usage\ngateway check INVENTORY\n".as_slice()
/// );
/// assert_eq!(rt; ended.status, 2);
/// ```
pub fn misused<E: Write>(usage: &[&[u8]], errors: &mut E) -> Ended
    ensures status { result.status ≡ stop_status Usage }
    ensures text { result.printed ≡ true → Appends (E.contents errors.old) (E.contents errors.new) (misuse_text (map (λ p. p.now) usage.now)) }
    ensures part { result.printed ≡ false → AppendsPart (E.contents errors.old) (E.contents errors.new) (misuse_text (map (λ p. p.now) usage.now)) }
{
    let printed = print_misuse(usage, errors).is_ok();
    Ended {
        status: Stop::Usage.status(),
        printed,
    }
}

/// Appends the text `answered.0` to the output and nothing else, and returns the exit status `answered.1`.
///
/// # Errors
/// [`Stop::Output`] where the output did not take the whole text; it then has a prefix of the text.
///
/// ```
/// let mut text = Vec::new(alloc);
/// text.extend_from_slice(b"clock;0\n")?;
/// let mut output = Vec::new(alloc);
/// let Ok(status) = put((text, 1), &mut output) else {
///     return Err(Fail::new("there is memory"));
/// };
/// assert_eq!(rt; status, 1);
/// assert_eq!(rt; output.as_slice(), b"clock;0\n".as_slice());
/// ```
pub fn put<O: Write>(answered: (Vec<u8>, u8), output: &mut O) -> Result<u8, Stop>
    ensures put { IfOk result (λ status. (status ≡ answered.1) × Appends (O.contents output.old) (O.contents output.new) answered.0.items) }
    ensures failed { IfErr result (λ stop. stop ≡ Output) }
    ensures part { OnErr result (AppendsPart (O.contents output.old) (O.contents output.new) answered.0.items) }
{
    let (text, status) = answered;
    match write_text(output, &text) {
        Ok(()) => Ok(status),
        Err(_) => Err(Stop::Output),
    }
}

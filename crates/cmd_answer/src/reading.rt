//! Reads an input to its end, with a bound on the number of reads.
ghost use Rattle.std.specs.Prelude.{◌≡◌, ◌≤◌, ◌+◌, ◌*◌, IfOk, IfSome, length};
ghost use Rattle.cmd_answer.specs.declared.reading.InputFault.TheVariants.{Failed, Passing};
ghost use Rattle.std.specs.IoError.{error_kind};
ghost use Rattle.cmd_answer.specs.declared.reading.TheConstants.{PIECE};
ghost use Rattle.cmd_answer.specs.Passing.{MayPass};

use crate::opening::may_pass;
use cmd_types::Memory;
use std::alloc::Global;
use std::io::{Error, ErrorKind, Read};

/// The fault for which an input was not read to its end.
///
/// See the example of [`read_all`].
#[derive(Clone, Copy, Debug, PartialEq, Eq)]
pub enum InputFault {
    /// A read failed, or each of the allowed reads returned bytes.
    Failed,
    /// A read failed by a fault that may pass by itself.
    Passing,
    /// Out of memory.
    Memory,
}

impl From<Memory> for InputFault {
    ghost use Rattle.std.specs.Prelude.{◌≡◌};
    ghost use Rattle.cmd_answer.specs.declared.reading.InputFault.TheVariants.{Memory};

    ghost from_gives = { λ _ e. e ≡ Memory };

    fn from(_error: Memory) -> InputFault {
        InputFault::Memory
    }
}

impl InputFault {
    /// The fault of a call that failed with this error.
    ///
    /// See the example of [`read_all`].
    pub fn of(error: &Error) -> InputFault
        ensures passing { MayPass (error_kind error.now) → result ≡ Passing }
        ensures failed { (MayPass (error_kind error.now) → ⊥) → result ≡ Failed }
    {
        if may_pass(error) {
            InputFault::Passing
        } else {
            InputFault::Failed
        }
    }
}

/// The most bytes of one read of an input: a choice, a page of memory. The buffer is on the stack (profile).
const PIECE: usize = 4_096;

/// Reads an input to its end, in at most `reads` reads, the last of which has to return no byte. A read that was
/// interrupted is made again (profile).
///
/// # Errors
/// [`InputFault::Failed`] where a read failed or each of `reads` reads returned bytes or was interrupted;
/// [`InputFault::Passing`] where a read failed by a fault that may pass; or [`InputFault::Memory`]. The bytes read so
/// far are dropped.
///
/// ```
/// let mut input = b"[1] RESTART_PROGRAM\n".as_slice();
/// let Ok(bytes) = read_all(alloc, &mut input, 2) else {
///     return Err(Fail::new("the second read gives none"));
/// };
/// assert_eq!(rt; bytes.as_slice(), b"[1] RESTART_PROGRAM\n".as_slice());
/// let mut input = b"[1] RESTART_PROGRAM\n".as_slice();
/// let Err(fault) = read_all(alloc, &mut input, 1) else {
///     return Err(Fail::new("the only read gave bytes"));
/// };
/// assert_eq!(rt; fault, InputFault::Failed);
/// ```
pub fn read_all<R: Read>(alloc: Global, input: &mut R, reads: u32) -> Result<Vec<u8>, InputFault>
    ensures read { IfOk result (λ bytes. IfSome (R.remaining input.old) (λ text. bytes.items ≡ text)) }
    // The last read returned none.
    ensures bound { IfOk result (λ bytes. length bytes.items + PIECE ≤ reads * PIECE) }
{
    let mut bytes = Vec::new(alloc);
    let mut buffer = [0u8; PIECE];
    'reads: for _ in 0..reads {
        match input.read(&mut buffer) {
            Ok(0) => return Ok(bytes),
            Ok(count) => bytes.extend_from_slice(&buffer[..count])?,
            Err(error) if error.kind() == ErrorKind::Interrupted => {}
            Err(error) => return Err(InputFault::of(&error)),
        }
    }
    Err(InputFault::Failed)
}

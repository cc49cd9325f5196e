//! Opens files, and distinguishes permanent faults of the system from those that may pass by themselves.
ghost use Rattle.std.specs.Prelude.{◌↔◌, IsTrue};
ghost use Rattle.std.specs.IoError.{error_kind};
ghost use Rattle.cmd_answer.specs.Passing.{MayPass};

use std::fs;
use std::io::{Error, ErrorKind, Result};
use std::rt::Files;

/// Whether a fault of the system may pass by itself, so that the same call may succeed later: the call was interrupted,
/// there was no memory, or the fault has no kind of its own, such as a lack of descriptors or a fault of the device.
///
/// ```
/// assert!(rt; may_pass(&Error::from(ErrorKind::OutOfMemory)));
/// assert!(rt; !may_pass(&Error::from(ErrorKind::NotFound)));
/// ```
pub fn may_pass(error: &Error) -> bool
    ensures { IsTrue result ↔ MayPass (error_kind error.now) }
{
    matches!(
        error.kind(),
        ErrorKind::Interrupted | ErrorKind::OutOfMemory | ErrorKind::Uncategorized
    )
}

/// Opens the file at `path` for reading, and repeats an opening that was interrupted.
///
/// # Errors
/// The fault of the last opening.
///
/// ```
/// assert!(rt; open_file(&rt, "/dev/null").is_ok());
/// ```
pub fn open_file<R: Files>(rt: &R, path: &str) -> Result<R::File> {
    for _ in 0..u64::MAX {
        match fs::open(rt, path) {
            Err(error) if error.kind() == ErrorKind::Interrupted => {}
            opened => return opened,
        }
    }
    Err(Error::from(ErrorKind::Interrupted))
}

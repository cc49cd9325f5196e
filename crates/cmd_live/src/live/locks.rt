//! The lock of a state directory: a file that at most one program has locked. The runtime of the system uses a file
//! lock.
use cmd_answer::may_pass;
use std::fs::{File, OpenOptions, TryLockError};
use std::io::{Error, ErrorKind};

/// The reason why a file could not be locked.
#[derive(Clone, Copy, Debug, PartialEq, Eq)]
pub enum LockFault {
    /// Another program has locked the file.
    InUse,
    /// The file could not be created or opened, or the system refused the lock for a reason other than `InUse`.
    Failed,
    /// As `Failed`, by a fault that may pass by itself.
    Passing,
}

/// A runtime that locks files for a program. The lock ends when its value is dropped, or when the program ends by any
/// means.
pub trait Locks {
    /// The lock of one file.
    type Lock: Drop;

    /// Locks the file at `path`, and creates the file where it is missing. Does not wait: for a file that another
    /// program has locked, the error is `InUse`. The bytes of the file are unchanged.
    fn lock(&self, path: &str) -> Result<Self::Lock, LockFault>;
}

/// The fault of a file that was not opened or locked. A full disk may have room for the file later.
fn fault_of(error: &Error) -> LockFault {
    if may_pass(error) || error.kind() == ErrorKind::StorageFull {
        LockFault::Passing
    } else {
        LockFault::Failed
    }
}

impl Locks for HostRuntime {
    type Lock = File;

    /// Opens the file for writing, creates it where it is missing, and tries to lock it. The lock is the open file.
    ///
    /// Believed: as [`Locks::lock`] says (premise 7; state-faults).
    fn lock(&self, path: &str) -> Result<File, LockFault> {
        let mut how = OpenOptions::new();
        how.write(true).create(true);
        let file = match how.open(self, path) {
            Ok(file) => file,
            Err(error) => return Err(fault_of(&error)),
        };
        match file.try_lock() {
            Ok(()) => Ok(file),
            Err(TryLockError::WouldBlock) => Err(LockFault::InUse),
            Err(TryLockError::Error(error)) => Err(fault_of(&error)),
        }
    }
}

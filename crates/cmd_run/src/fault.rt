//! The cause by which a run failed, with its number and its sender, and the fault that such a run returns instead of a
//! report. Values only.
ghost use Rattle.std.specs.Prelude.{◌≡◌};
ghost use Rattle.cmd_run.specs.Causes.{cause_number, cause_sender};

use crate::ending::SenderReport;
use cmd_journal::Journal;

/// Why a run has no report (profile). Among `Memory` to `QueueLost` and `Output` it is the cause that happened first;
/// `SenderStopped` comes only where none of these causes happened.
///
/// ```
/// assert_eq!(rt; RunCause::Spawn(7).number(), 3);
/// assert_eq!(rt; RunCause::Spawn(7).sender(), 7);
/// assert_eq!(rt; RunCause::JournalFull.sender(), 0);
/// ```
#[derive(Clone, Copy, Debug, PartialEq, Eq)]
pub enum RunCause {
    /// An option is out of its range, or there are not 1 to
    /// [`MOST_SENDERS`](cmd_types::MOST_SENDERS) readers. Nothing was started.
    BadOptions,
    /// Memory ran out in the dispatcher, or before the first thread was started.
    Memory,
    /// The thread of this sender was not started, nor were the threads of the senders after it.
    Spawn(u16),
    /// The journal was full and another command was taken.
    JournalFull,
    /// The queue was lost: it gave no further message before each sender had closed.
    QueueLost,
    /// The ending of this sender is not complete. Of all such senders this one has the least number.
    SenderStopped(u16),
    /// A write to the output or the store failed in a run that prints lines as it goes. A run that makes a report never
    /// has this cause.
    Output,
}

impl RunCause {
    /// The number of the cause: 1 to 7, in the order of the variants.
    pub fn number(self) -> u8
        ensures { result ≡ cause_number self }
    {
        match self {
            RunCause::BadOptions => 1,
            RunCause::Memory => 2,
            RunCause::Spawn(_) => 3,
            RunCause::JournalFull => 4,
            RunCause::QueueLost => 5,
            RunCause::SenderStopped(_) => 6,
            RunCause::Output => 7,
        }
    }

    /// The number of the sender that the cause names, from 0; 0 where the cause names no sender.
    pub fn sender(self) -> u16
        ensures { result ≡ cause_sender self }
    {
        match self {
            RunCause::Spawn(sender) => sender,
            RunCause::SenderStopped(sender) => sender,
            _ => 0,
        }
    }
}

/// The result of a run that failed: the cause, and the journal and the reports so far (profile).
///
/// ```
/// let fault = RunFault {
///     cause: RunCause::Memory,
///     journal: Journal::new(alloc, 1_000),
///     senders: Vec::new(alloc),
/// };
/// assert_eq!(rt; fault.cause.number(), 2);
/// ```
pub struct RunFault {
    pub cause: RunCause,
    /// The entries that were journaled before the failure.
    pub journal: Journal,
    /// One report of each sender that was started, in order.
    pub senders: Vec<SenderReport>,
}

// Written by hand, so that each exit of a caller drops the value by one call, not field by field.
impl Drop for RunFault {
    fn drop(self) {
        let RunFault {
            cause: _,
            journal: _,
            senders: _,
        } = self;
    }
}

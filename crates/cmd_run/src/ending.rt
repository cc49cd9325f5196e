//! The ending of a sender's thread, and the report of the sender. Values only: `cmd_dispatch` sets them where it reads
//! a feed. An ending is complete where the sender has sent all commands of its feed's text.
ghost use Rattle.std.specs.Prelude.{◌≡◌};
ghost use Rattle.cmd_run.specs.Endings.{is_complete};

use cmd_lines::LineFault;

/// How a sender ended (profile). The first three endings are complete: the sender has sent all commands of its feed's
/// text, and has passed all refused lines to its reporter.
///
/// ```
/// assert!(rt; Ending::TooManyReads.is_complete());
/// assert!(rt; !Ending::QueueRefused.is_complete());
/// ```
#[derive(Clone, Copy, Debug, PartialEq, Eq)]
pub enum Ending {
    /// The feed was read to its end.
    Whole,
    /// A read failed, so the text broke off.
    ReadFailed,
    /// The feed had as many reads as it may have, and each returned bytes, so the text broke off.
    TooManyReads,
    /// Memory ran out in the sender, which sent the commands gathered so far, its close mark and nothing more.
    Memory,
    /// The queue took no further message, and the sender left without its close mark.
    QueueRefused,
}

impl Ending {
    /// Whether the ending is complete: the sender has sent all commands of its feed's text, and has passed all refused
    /// lines to its reporter.
    pub fn is_complete(self) -> bool
        ensures { result ≡ is_complete self }
    {
        match self {
            Ending::Whole | Ending::ReadFailed | Ending::TooManyReads => true,
            Ending::Memory | Ending::QueueRefused => false,
        }
    }
}

/// The report of a sender at its end (profile).
///
/// ```
/// let mut refused = Vec::new(alloc);
/// refused.push((2, LineFault::NoBracket))?;
/// let report = SenderReport {
///     accepted: 1,
///     refused,
///     ending: Ending::Whole,
/// };
/// assert_eq!(rt; report.refused[0], (2, LineFault::NoBracket));
/// ```
#[derive(Debug, Drop)]
pub struct SenderReport {
    /// The number of commands that the sender put into the queue: the first commands of its feed. If the run has a
    /// report, all of them are journaled; after a fault perhaps only the first of them.
    pub accepted: u64,
    /// The lines that were refused, in order: the number of each, from 1, and its fault.
    pub refused: Vec<(u64, LineFault)>,
    /// How the sender ended.
    pub ending: Ending,
}

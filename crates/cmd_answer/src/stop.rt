//! The stops of the program: each has a reason for which the program ends without a report, one line on the error
//! stream and an exit status.
ghost use Rattle.std.specs.Prelude.{◌≡◌, ◌<◌, OnOk, OnErr};
ghost use Rattle.std.specs.Io.KnownBytes.{Appends};
ghost use Rattle.cmd_answer.specs.Stops.{stop_status, stop_line, files_stop_status, files_stop_line, open_line, run_fault_text};
ghost use Rattle.cmd_answer.specs.StateStops.{fault_text};
ghost use Rattle.cmd_answer.specs.Written.{AppendsPart};

use crate::reading::InputFault;
use crate::state_stop::StateStop;
use crate::writing::{write_pieces, write_text};
use cmd_journal::{ReadCause, ReadFault};
use cmd_types::Memory;
use itoa::Buffer;
use mon_engine::EngineFault;
use mon_inventory::{Cause, InventoryFault};
use std::io::{self, Write};

/// The reason for which the program ends without a report; each reason has its line on the error stream and its exit
/// status. Lines are counted from 1.
///
/// ```
/// let mut errors = Vec::new(alloc);
/// assert!(rt; Stop::Feeds.print(&mut errors).is_ok());
/// assert_eq!(rt; errors.as_slice(), b"gateway: feeds\n".as_slice());
/// assert_eq!(rt; Stop::Feeds.status(), 2);
/// ```
#[derive(Clone, Copy, Debug, PartialEq, Eq)]
pub enum Stop {
    /// The program's arguments name no mode, or a value is out of its range.
    Usage,
    /// The input could not be read to its end.
    Input,
    /// There is no feed or more than [`MOST_SENDERS`](cmd_types::MOST_SENDERS); or the input of a replay has no
    /// separator.
    Feeds,
    /// The arguments name a feed twice.
    FeedTwice,
    /// The first faulty line of the inventory, and the number of its cause.
    Inventory { line: u64, cause: u8 },
    /// The first faulty line of the journal, counted from the line after the separator, and the number of its cause.
    Journal { line: u64, cause: u8 },
    /// The run failed: the number of its cause, and the sender of the cause, or 0 for a cause without a sender.
    Fault { cause: u8, sender: u16 },
    /// Out of memory.
    Memory,
    /// The output did not take the whole text; it may have a prefix of the text.
    Output,
    /// A run could not begin from a state directory, or could not write it.
    State(StateStop),
}

impl From<Memory> for Stop {
    ghost use Rattle.std.specs.Prelude.{◌≡◌};
    ghost use Rattle.cmd_answer.specs.declared.stop.Stop.TheVariants as stop;

    ghost from_gives = { λ _ s. s ≡ stop.Memory };

    fn from(_error: Memory) -> Stop {
        Stop::Memory
    }
}

impl From<InputFault> for Stop {
    ghost use Rattle.std.specs.Prelude.{◌≡◌};
    ghost use Rattle.cmd_answer.specs.Stops.{input_stop};

    ghost from_gives = { λ f s. s ≡ input_stop f };

    fn from(fault: InputFault) -> Stop {
        match fault {
            InputFault::Failed | InputFault::Passing => Stop::Input,
            InputFault::Memory => Stop::Memory,
        }
    }
}

impl From<InventoryFault> for Stop {
    ghost use Rattle.std.specs.Prelude.{◌≡◌};
    ghost use Rattle.cmd_answer.specs.Stops.{inventory_stop};

    ghost from_gives = { λ f s. s ≡ inventory_stop f.line f.cause };

    fn from(fault: InventoryFault) -> Stop {
        match fault.cause {
            Cause::Memory => Stop::Memory,
            cause => Stop::Inventory {
                line: fault.line,
                cause: cause.number(),
            },
        }
    }
}

impl From<ReadFault> for Stop {
    ghost use Rattle.std.specs.Prelude.{◌≡◌};
    ghost use Rattle.cmd_answer.specs.Stops.{journal_stop};

    ghost from_gives = { λ f s. s ≡ journal_stop f.line f.cause };

    fn from(fault: ReadFault) -> Stop {
        match fault.cause {
            ReadCause::Memory => Stop::Memory,
            cause => Stop::Journal {
                line: fault.line,
                cause: cause.number(),
            },
        }
    }
}

impl From<EngineFault> for Stop {
    ghost use Rattle.std.specs.Prelude.{◌≡◌};
    ghost use Rattle.cmd_answer.specs.declared.stop.Stop.TheVariants as stop;

    ghost from_gives = { λ _ s. s ≡ stop.Memory };

    fn from(_fault: EngineFault) -> Stop {
        Stop::Memory
    }
}

/// Appends the line for a faulty line of a text to the error stream: the words `begins`, then `line` and `cause` as
/// numbers. After an error the stream has only a prefix of the line.
pub(crate) fn print_line<E: Write>(
    errors: &mut E,
    begins: &[u8],
    line: u64,
    cause: u8,
) -> io::Result<()>
    ensures whole { OnOk result (Appends (E.contents errors.old) (E.contents errors.new) (fault_text begins.now line cause)) }
    ensures part { OnErr result (AppendsPart (E.contents errors.old) (E.contents errors.new) (fault_text begins.now line cause)) }
{
    let mut at = Buffer::new();
    let mut why = Buffer::new();
    let line = at.format(line).as_bytes();
    let cause = why.format(cause).as_bytes();
    write_pieces(errors, &[begins, line, b": ", cause, b"\n"])
}

/// Appends the line for a run that failed to the error stream: the number of the cause, and its sender. After an error
/// the stream has only a prefix of the line.
fn print_fault<E: Write>(errors: &mut E, cause: u8, sender: u16) -> io::Result<()>
    ensures whole { OnOk result (Appends (E.contents errors.old) (E.contents errors.new) (run_fault_text cause sender)) }
    ensures part { OnErr result (AppendsPart (E.contents errors.old) (E.contents errors.new) (run_fault_text cause sender)) }
{
    let mut why = Buffer::new();
    let mut whose = Buffer::new();
    let cause = why.format(cause).as_bytes();
    let sender = whose.format(sender).as_bytes();
    write_pieces(errors, &[b"gateway: fault ", cause, b" ", sender, b"\n"])
}

impl Stop {
    /// The exit status: 2 where the call or the input is at fault, 3 where the run or the output failed or memory ran
    /// out. A stop of a state directory has 2 where the run has not begun, else 3.
    pub fn status(self) -> u8
        ensures status { result ≡ stop_status self }
        ensures above_1 { 1 < result }
    {
        match self {
            Stop::Usage
            | Stop::Input
            | Stop::Feeds
            | Stop::FeedTwice
            | Stop::Inventory { .. }
            | Stop::Journal { .. } => 2,
            Stop::Fault { .. } | Stop::Memory | Stop::Output => 3,
            Stop::State(stop) => stop.status(),
        }
    }

    /// Appends the line of the stop to the error stream, and nothing else. Takes no memory. After an error the stream
    /// has only a prefix of the line.
    pub fn print<E: Write>(self, errors: &mut E) -> io::Result<()>
        ensures whole { OnOk result (Appends (E.contents errors.old) (E.contents errors.new) (stop_line self)) }
        ensures part { OnErr result (AppendsPart (E.contents errors.old) (E.contents errors.new) (stop_line self)) }
    {
        match self {
            Stop::Usage => write_text(errors, b"gateway: usage\n"),
            Stop::Input => write_text(errors, b"gateway: input\n"),
            Stop::Feeds => write_text(errors, b"gateway: feeds\n"),
            Stop::FeedTwice => write_text(errors, b"gateway: feed twice\n"),
            Stop::Inventory { line, cause } => {
                print_line(errors, b"gateway: inventory line ", line, cause)
            }
            Stop::Journal { line, cause } => {
                print_line(errors, b"gateway: journal line ", line, cause)
            }
            Stop::Fault { cause, sender } => print_fault(errors, cause, sender),
            Stop::Memory => write_text(errors, b"gateway: memory\n"),
            Stop::Output => write_text(errors, b"gateway: output\n"),
            Stop::State(stop) => stop.print(errors),
        }
    }
}

/// Appends the line on a file that could not be opened to the error stream. After an error the stream has only a prefix
/// of the line.
fn print_open<E: Write>(errors: &mut E, path: &str) -> io::Result<()>
    ensures whole { OnOk result (Appends (E.contents errors.old) (E.contents errors.new) (open_line path.now)) }
    ensures part { OnErr result (AppendsPart (E.contents errors.old) (E.contents errors.new) (open_line path.now)) }
{
    write_pieces(errors, &[b"gateway: open ", path.as_bytes(), b"\n"])
}

/// The stop of a call that names files: a file that could not be opened, or another reason.
///
/// ```
/// let mut errors = Vec::new(alloc);
/// let stop = FilesStop::Open("checks");
/// assert!(rt; stop.print(&mut errors).is_ok());
/// assert_eq!(rt; errors.as_slice(), b"gateway: open checks\n".as_slice());
/// assert_eq!(rt; stop.status(), 2);
/// ```
#[derive(Clone, Copy, Debug, PartialEq, Eq)]
pub enum FilesStop<'a> {
    /// The file of this path cannot be opened; or it is the inventory and cannot be read to its end.
    Open(&'a str),
    /// The file cannot be opened or read, by a fault that may pass by itself.
    OpenPassing(&'a str),
    /// A stop for any other reason.
    Other(Stop),
}

impl FilesStop<'_> {
    /// The exit status, 2 or 3: 2 for a file that could not be opened, 3 where that may pass, else that of the inner
    /// stop.
    pub fn status(&self) -> u8
        ensures status { result ≡ files_stop_status self.now }
        ensures above_1 { 1 < result }
    {
        match self {
            FilesStop::Open(_) => 2,
            FilesStop::OpenPassing(_) => 3,
            FilesStop::Other(stop) => stop.status(),
        }
    }

    /// Appends the line of the stop to the error stream, for a file with its path as the call names it, and nothing
    /// else. Takes no memory. After an error the stream has only a prefix of the line.
    pub fn print<E: Write>(&self, errors: &mut E) -> io::Result<()>
        ensures whole { OnOk result (Appends (E.contents errors.old) (E.contents errors.new) (files_stop_line self.now)) }
        ensures part { OnErr result (AppendsPart (E.contents errors.old) (E.contents errors.new) (files_stop_line self.now)) }
    {
        match self {
            FilesStop::Open(path) => print_open(errors, path),
            FilesStop::OpenPassing(path) => print_open(errors, path),
            FilesStop::Other(stop) => stop.print(errors),
        }
    }
}

//! The stops of a run over a state directory: each has a reason for which the run does not begin or has ended, a line
//! on the error stream and an exit status.
ghost use Rattle.std.specs.Prelude.{◌≡◌, OnOk, OnErr};
ghost use Rattle.std.specs.Io.KnownBytes.{Appends};
ghost use Rattle.cmd_answer.specs.StateStops.{word_text, state_line, state_stop_line, state_status};
ghost use Rattle.cmd_answer.specs.Written.{AppendsPart};

use crate::stop::print_line;
use crate::writing::write_pieces;
use std::io::{self, Write};

/// The reason for a stop of a run over a state directory. The line of the stop has words for each reason.
///
/// ```
/// let mut errors = Vec::new(alloc);
/// let stop = Stop::State(StateStop::AtStart(StateWord::InUse));
/// assert!(rt; stop.print(&mut errors).is_ok());
/// assert_eq!(rt; errors.as_slice(), b"gateway: state in use\n".as_slice());
/// assert_eq!(rt; stop.status(), 2);
/// ```
#[derive(Clone, Copy, Debug, PartialEq, Eq)]
pub enum StateWord {
    /// There is no such directory.
    NotThere,
    /// The file `lock` could not be created or locked.
    Lock,
    /// Another run has locked the directory.
    InUse,
    /// A file could not be read.
    Read,
    /// The file `state` has no line `---`.
    Mark,
    /// The inventory that the call names has no object, and that of the directory has some; or its text cannot stand in
    /// the file `state`.
    Inventory,
    /// A feed of the directory is missing in the call, the journal has an entry of another feed, or a path has a line
    /// feed.
    Feeds,
    /// The told lines are not a prefix of the lines that the journal prints; or told lines could not be written.
    Told,
    /// One more segment might have more entries than can be counted.
    Full,
    /// The file `state` could not be written.
    File,
    /// A segment has a greater number than the last segment of the file `state`; or the journal could not be written.
    Journal,
    /// A file or the directory could not be synced.
    Sync,
    /// The file `status` could not be written.
    Status,
}

/// The stop of a run over a state directory. Lines are counted from 1.
///
/// ```
/// let mut errors = Vec::new(alloc);
/// let stop = Stop::State(StateStop::JournalLine { line: 3, cause: 8 });
/// assert!(rt; stop.print(&mut errors).is_ok());
/// assert_eq!(rt;
///     errors.as_slice(),
///     b"gateway: state journal line 3: 8\n".as_slice()
/// );
/// assert_eq!(rt; stop.status(), 2);
/// ```
#[derive(Clone, Copy, Debug, PartialEq, Eq)]
pub enum StateStop {
    /// The run has not begun, for this reason.
    AtStart(StateWord),
    /// The run has not begun, for this reason, which may pass by itself.
    Passing(StateWord),
    /// A line of the file `state` after its inventory has a fault.
    StateLine { line: u64, cause: u8 },
    /// A line of the inventory in the file `state` has a fault.
    InventoryLine { line: u64, cause: u8 },
    /// A line of the last segment of the journal has a fault.
    JournalLine { line: u64, cause: u8 },
    /// The run has ended, since the directory could no longer be written.
    Later(StateWord),
}

/// The words for the reason in the line of the stop.
fn word_of(word: StateWord) -> &'static [u8]
    ensures { result.now ≡ word_text word }
{
    match word {
        StateWord::NotThere => b"not there",
        StateWord::Lock => b"lock",
        StateWord::InUse => b"in use",
        StateWord::Read => b"read",
        StateWord::Mark => b"mark",
        StateWord::Inventory => b"inventory",
        StateWord::Feeds => b"feeds",
        StateWord::Told => b"told",
        StateWord::Full => b"full",
        StateWord::File => b"file",
        StateWord::Journal => b"journal",
        StateWord::Sync => b"sync",
        StateWord::Status => b"status",
    }
}

/// Appends the line `gateway: state WORDS` to the error stream. After an error the stream has only a prefix of the
/// line.
fn print_word<E: Write>(errors: &mut E, word: StateWord) -> io::Result<()>
    ensures whole { OnOk result (Appends (E.contents errors.old) (E.contents errors.new) (state_line word)) }
    ensures part { OnErr result (AppendsPart (E.contents errors.old) (E.contents errors.new) (state_line word)) }
{
    write_pieces(errors, &[b"gateway: state ", word_of(word), b"\n"])
}

impl StateStop {
    /// The exit status: 2 where the run has not begun, 3 where it has ended or the reason may pass.
    pub fn status(self) -> u8
        ensures { result ≡ state_status self }
    {
        match self {
            StateStop::AtStart(_)
            | StateStop::StateLine { .. }
            | StateStop::InventoryLine { .. }
            | StateStop::JournalLine { .. } => 2,
            StateStop::Passing(_) | StateStop::Later(_) => 3,
        }
    }

    /// Appends the line `gateway: state ..` of the stop to the error stream, and nothing else. After an error the
    /// stream has only a prefix of the line.
    pub fn print<E: Write>(self, errors: &mut E) -> io::Result<()>
        ensures whole { OnOk result (Appends (E.contents errors.old) (E.contents errors.new) (state_stop_line self)) }
        ensures part { OnErr result (AppendsPart (E.contents errors.old) (E.contents errors.new) (state_stop_line self)) }
    {
        match self {
            StateStop::AtStart(word) | StateStop::Passing(word) => print_word(errors, word),
            StateStop::StateLine { line, cause } => {
                print_line(errors, b"gateway: state line ", line, cause)
            }
            StateStop::InventoryLine { line, cause } => {
                print_line(errors, b"gateway: state inventory line ", line, cause)
            }
            StateStop::JournalLine { line, cause } => {
                print_line(errors, b"gateway: state journal line ", line, cause)
            }
            StateStop::Later(word) => print_word(errors, word),
        }
    }
}

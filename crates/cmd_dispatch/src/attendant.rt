//! The attendant of a feed that is followed: it takes the refused lines of the feed, makes commands wait, and takes the
//! feed's ending. Only `refuse` changes the refused lines that it has taken.
ghost use Rattle.std.specs.Prelude.{◌++◌, [], ◌∷◌, ℕ, List, OnOk, OnErr};
ghost use Rattle.cmd_lines.specs.declared.fault.LineFault.{LineFault};

use cmd_lines::LineFault;
use cmd_run::Ending;
use cmd_types::Memory;
use std::marker::Send;

/// Serves a followed feed on the thread of the feed's sender (profile). The attendant takes each refused line as soon
/// as the line is read; no report lists these lines. It decides whether a command has to wait before the command is
/// sent, and blocks the thread until then.
///
/// ```
/// let mut refused: Vec<(u64, LineFault)> = Vec::new(alloc);
/// refused.refuse(2, LineFault::NoBracket)?;
/// assert_eq!(rt; refused.as_slice(), [(2, LineFault::NoBracket)].as_slice());
/// assert!(rt; !refused.must_wait(7));
/// ```
pub trait Attendant: Send + Drop {
    // The attendant has taken these refused lines, each by its number and its fault, in order, and no other.
    ghost has_taken: { Self → List (ℕ × LineFault) → Type 0 };

    /// Takes a refused line: its number, from 1, and its fault.
    ///
    /// # Errors
    /// Out of memory: the refused lines taken so far are unchanged, and the sender stops.
    fn refuse(&mut self, line: u64, fault: LineFault) -> Result<(), Memory>
        ensures taken { OnOk result ((refused : List (ℕ × LineFault)) → has_taken self.old refused → has_taken self.new (refused ++ (line, fault) ∷ [])) }
        ensures kept { OnErr result ((refused : List (ℕ × LineFault)) → has_taken self.old refused → has_taken self.new refused) };

    /// Whether a command of `time`, in seconds, has to wait before it is sent. The sender calls it once for each
    /// command, in order. The refused lines taken are unchanged.
    fn must_wait(&mut self, time: u64) -> bool
        ensures kept { (refused : List (ℕ × LineFault)) → has_taken self.old refused → has_taken self.new refused };

    /// Blocks the sender's thread until the command of `time`, in seconds, may be sent, or until the run has failed.
    /// `line` is the number of the command's line, from 1. The sender calls it where
    /// [`must_wait`](Attendant::must_wait) has returned true, after all commands before this one were sent. The
    /// refused lines taken are unchanged.
    ///
    /// # Errors
    /// The command is not to be sent. The sender stops before this command, as if memory ran out; but the sender of a
    /// feed that makes its commands sends it all the same.
    fn wait_for(&mut self, time: u64, line: u64) -> Result<(), Memory>
        ensures kept { (refused : List (ℕ × LineFault)) → has_taken self.old refused → has_taken self.new refused };

    /// Takes the ending of the sender. The sender calls it once, after all other calls. The refused lines taken are
    /// unchanged.
    fn ended(&mut self, ending: Ending)
        ensures kept { (refused : List (ℕ × LineFault)) → has_taken self.old refused → has_taken self.new refused };
}

/// A list of the refused lines. No command has to wait.
impl Attendant for Vec<(u64, LineFault)> {
    ghost use Rattle.std.specs.Prelude.{◌≡◌};

    ghost has_taken = { λ list refused. list.items ≡ refused };

    /// Appends the line to the list. If memory runs out, the list is unchanged.
    fn refuse(&mut self, line: u64, fault: LineFault) -> Result<(), Memory> {
        self.push((line, fault))?;
        Ok(())
    }

    /// Returns false: no command has to wait.
    fn must_wait(&mut self, _time: u64) -> bool {
        false
    }

    /// Returns at once, since no command has to wait.
    fn wait_for(&mut self, _time: u64, _line: u64) -> Result<(), Memory> {
        Ok(())
    }

    /// Does nothing: a list keeps no ending.
    fn ended(&mut self, _ending: Ending) {}
}

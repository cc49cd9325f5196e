//! The teller of a run: the output that takes the told lines of the run's entries. Only `tell` changes the text that it
//! has taken.
ghost use Rattle.std.specs.Prelude.{◌≡◌, ℕ, List, Option, OnOk, OnErr};
ghost use Rattle.std.specs.Io.KnownBytes.{Appends};
ghost use Rattle.cmd_dispatch.specs.Tellings.{AppendsBeginning, TextAllowed};

use cmd_run::RunCause;

/// The teller did not take a text whole: it appended a prefix of the text, or nothing.
///
/// See the example of [`Teller`].
#[derive(Clone, Copy, Debug, PartialEq, Eq)]
pub struct TellFailed;

/// The output of a run that prints while it runs. It takes the told lines of one message at a time, on the thread that
/// called [`follow`](crate::follow) (profile).
///
/// ```
/// let mut told: Vec<u8> = Vec::new(alloc);
/// assert!(rt; told.tell(b"rejected;0;1;4\n") == Ok(()));
/// assert_eq!(rt; told.as_slice(), b"rejected;0;1;4\n".as_slice());
/// ```
pub trait Teller {
    // All bytes that it has taken so far, where they are known.
    ghost told: { Self → Option (List ℕ) };

    // The texts that the teller may have taken. `tell` requires that at any moment its text is one of these, so that a
    // run that never returns keeps its promise too.
    ghost allows: { List ℕ → Type 0 };

    // A teller of this type has not taken a text whole. A run can know this from `tell` alone.
    ghost has_failed: { Type 0 };

    /// Appends a text to the output.
    ///
    /// # Errors
    /// [`TellFailed`]: a prefix of the text was appended, or nothing. The run then fails with `Output`, and passes no
    /// further text to the teller.
    fn tell(&mut self, text: &[u8]) -> Result<(), TellFailed>
        requires { TextAllowed allows (told self.old) text.now }
        ensures whole { OnOk result (Appends (told self.old) (told self.new) text.now) }
        ensures part { OnErr result (AppendsBeginning (told self.old) (told self.new) text.now) }
        ensures failed { OnErr result has_failed };

    /// Takes the cause by which the run has failed. A run calls `failed` at most once, as soon as it fails. From then
    /// on the run passes no text to the teller and drops the commands of its feeds; the teller should end the feeds.
    /// The run does not call `failed` where it started nothing, for `SenderStopped`, or where the last text after the
    /// ends of all feeds is not taken. The text taken so far is unchanged.
    fn failed(&mut self, cause: RunCause)
        ensures same { told self.new ≡ told self.old };
}

/// A text in memory, which takes each told line while there is memory for it.
impl Teller for Vec<u8> {
    ghost use Rattle.std.specs.Prelude.{Some};

    ghost told = { λ text. Some text.items };

    ghost allows = { λ _. Unit {0} };

    ghost has_failed = { Unit {0} };

    /// Appends the text. If memory runs out, nothing is appended.
    fn tell(&mut self, text: &[u8]) -> Result<(), TellFailed> {
        match self.extend_from_slice(text) {
            Ok(()) => Ok(()),
            Err(_) => Err(TellFailed),
        }
    }

    /// Does nothing: the text is unchanged.
    fn failed(&mut self, _cause: RunCause) {}
}

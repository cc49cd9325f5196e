//! A well-formed command with its time, which never changes, and the writing of its canonical line.

ghost use Rattle.std.specs.Prelude.{◌≡◌, ◌≤◌, ◌↔◌, ◌∷◌, [], ◌++◌, IsTrue, IfOk, OnOk, OnErr, MatchResult};
ghost use Rattle.std.specs.Fmt.{decimal};
ghost use Rattle.cmd_types.specs.Growth.{Grows};
ghost use Rattle.cmd_types.specs.declared.limits.TheConstants.{GREATEST_NUMBER};
ghost use Rattle.cmd_types.specs.Spelling.{Timed, IsWellFormed, canonical};

use crate::argument::{fits, put_arguments, put_decimal};
use crate::command::Command;
use crate::memory::Memory;
use std::alloc::Global;
use std::marker::Model;

/// A well-formed command with its time in seconds (External Commands; the bounds are the profile's). Its numbers, flags
/// and codes are in range, its texts can stand in a line, and its canonical line has at most
/// [`LONGEST_LINE`](crate::LONGEST_LINE) bytes.
///
/// ```
/// let host = Text::new(Vec::from_slice(alloc, b"web")?);
/// let Ok(stamped) = Stamped::new(7, Command::DelAllHostComments { host }) else {
///     return Err(Fail::new("a name has no semicolon"));
/// };
/// let mut line = Vec::new(alloc);
/// stamped.write_line(alloc, &mut line)?;
/// assert_eq!(rt;
///     line.as_slice(),
///     b"[7] DEL_ALL_HOST_COMMENTS;web\n".as_slice()
/// );
/// ```
pub struct Stamped {
    time: u64,
    command: Command,
}

impl Model for Stamped {
    ghost use Rattle.cmd_types.specs.Spelling.{Timed, IsWellFormed};

    ghost Value = { Timed };

    ghost view = { λ s. record { time = s.time; command = s.command } };

    ghost invariant = { λ s. IsWellFormed (record { time = s.time; command = s.command }) };
}

// Written by hand, so that dropping a command is one call. A derive costs a `match` on all variants at each `?` past
// which a command is alive, and the borrow checker then does not cover the callers.
impl Drop for Stamped {
    fn drop(self) {
        let Stamped {
            time: _,
            command: _,
        } = self;
    }
}

/// Appends `time` in brackets and a space. If memory runs out, a prefix of these bytes is appended.
fn put_time(time: u64, out: &mut Vec<u8>) -> Result<(), Memory>
    ensures ok { OnOk result (out.new.items ≡ out.old.items ++ 91 ∷ decimal time ++ 93 ∷ 32 ∷ []) }
    ensures grown { Grows out.old.items out.new.items }
{
    out.push(b'[')?;
    put_decimal(out, time)?;
    out.extend_from_slice(b"] ")
}

impl Stamped {
    /// Joins a command and its time in seconds. Where they are not well formed together, returns both unchanged as the
    /// `Err`. Takes no memory.
    pub fn new(time: u64, command: Command) -> Result<Stamped, (u64, Command)>
        ensures ok { IfOk result (λ s. s ≡ record { time = time; command = command }) }
        ensures fits { IfOk result (λ s. IsWellFormed s) }
        ensures err { MatchResult result (λ _. Unit {0}) (λ e. (e.0 ≡ time) × (e.1 ≡ command) × (IsWellFormed (record { time = time; command = command }) → ⊥)) }
    {
        if !Stamped::is_well_formed(time, &command) {
            return Err((time, command));
        }
        Ok(Stamped::well_formed(time, command))
    }

    /// Whether the command with its time in seconds is well formed: the time and each argument are in range, and
    /// the canonical line has at most [`LONGEST_LINE`](crate::LONGEST_LINE) bytes. Takes no memory.
    pub fn is_well_formed(time: u64, command: &Command) -> bool
        ensures { IsTrue result ↔ IsWellFormed (record { time = time; command = command.now }) }
    {
        fits(time, command)
    }

    /// Joins a command and its time in seconds, without a test. Requires that [`Stamped::is_well_formed`] holds for
    /// them, as it does for a command and a time that a line spells. Takes no memory.
    pub fn well_formed(time: u64, command: Command) -> Stamped
        requires { IsWellFormed (record { time = time; command = command }) }
        ensures value { result ≡ record { time = time; command = command } }
        ensures fits { IsWellFormed result }
    {
        Stamped { time, command }
    }

    /// The time in seconds, at most [`GREATEST_NUMBER`](crate::GREATEST_NUMBER).
    pub fn time(&self) -> u64
        ensures value { result ≡ self.now.time }
        ensures small { result ≤ GREATEST_NUMBER }
    {
        self.time
    }

    /// The command, without its time.
    pub fn command(&self) -> &Command
        ensures value { result.now ≡ self.now.command }
        ensures fits { IsWellFormed self.now }
    {
        &self.command
    }

    /// A copy of the command and its time. The error is out of memory.
    pub fn copy(&self, _alloc: Global) -> Result<Stamped, Memory>
        ensures { IfOk result (λ s. s ≡ self.now) }
    {
        Ok(Stamped {
            time: self.time,
            command: self.command.clone()?,
        })
    }

    /// Appends the canonical line and a line feed. If memory runs out, a prefix of these bytes is appended.
    fn put_line(&self, out: &mut Vec<u8>) -> Result<(), Memory>
        ensures ok { OnOk result (out.new.items ≡ out.old.items ++ canonical self.now ++ 10 ∷ []) }
        ensures grown { Grows out.old.items out.new.items }
    {
        put_time(self.time, out)?;
        out.extend_from_slice(self.command.name().text())?;
        put_arguments(out, &self.command.arguments())?;
        out.push(b'\n')?;
        Ok(())
    }

    /// Appends the canonical line, `[time] NAME;ARGUMENT;..`, and a line feed to `out`. If memory runs out, `out` is
    /// unchanged.
    pub fn write_line(&self, _alloc: Global, out: &mut Vec<u8>) -> Result<(), Memory>
        ensures ok { OnOk result (out.new.items ≡ out.old.items ++ canonical self.now ++ 10 ∷ []) }
        ensures err { OnErr result (out.new.items ≡ out.old.items) }
    {
        let len = out.len();
        if let Err(refusal) = self.put_line(out) {
            out.truncate(len);
            return Err(refusal);
        }
        Ok(())
    }
}

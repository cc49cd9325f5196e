//! The output of a run that follows feeds and keeps nothing: the lines that the run prints are appended to the output
//! as they come. Where the run fails, its feeds are ended.
ghost use Rattle.std.specs.Prelude.{◌≡◌};

use super::signal::Signal;
use cmd_answer::write_text;
use cmd_dispatch::{TellFailed, Teller};
use cmd_run::RunCause;
use std::io::Write;
use std::rt::Files;
use std::sync::Wait;
use std::time::Clock;

/// The output of the run, and its signal. Each text is appended by one write and flushed. Where the run fails, `failed`
/// ends all feeds through the signal.
#[derive(Drop)]
pub struct TellingOutput<'a, R: Files, O: Write + Drop> {
    pub rt: &'a R,
    pub signal: &'a Signal<'a, R>,
    pub output: O,
}

impl<R: Files + Clock + Wait, O: Write + Drop> Teller for TellingOutput<'_, R, O> {
    ghost told = { λ t. O.contents t.output };

    ghost allows = { λ _. Unit {0} };

    ghost has_failed = { Unit {0} };

    /// Appends the text to the output and flushes the output. After an error a part of the text may be in the output.
    ///
    /// Believed beside the clauses of the trait: a reader of the output has the text now (premise 2; follow-file).
    fn tell(&mut self, text: &[u8]) -> Result<(), TellFailed> {
        if write_text(&mut self.output, text).is_err() {
            return Err(TellFailed);
        }
        if self.output.flush().is_err() {
            return Err(TellFailed);
        }
        Ok(())
    }

    /// Records in `signal` that the run has failed, so that its feeds end. The output is unchanged.
    ///
    /// Believed beside the clauses of the trait: as [`Signal::fail`] (follow-full).
    fn failed(&mut self, _cause: RunCause) {
        self.signal.fail(self.rt);
    }
}

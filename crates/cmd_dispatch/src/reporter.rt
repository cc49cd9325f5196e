//! The reporter of a sender's thread: it takes each refused line of the feed, decides whether a command has to wait,
//! blocks the thread until then, and takes the ending. Only `refuse` changes the refused lines that it has taken.
ghost use Rattle.std.specs.Prelude.{◌≡◌, ◌++◌, [], ◌∷◌, ℕ, List, IfOk, OnOk, OnErr};
ghost use Rattle.cmd_lines.specs.declared.fault.LineFault.{LineFault};
ghost use Rattle.cmd_run.specs.declared.ending.SenderReport.{SenderReport};
ghost use Rattle.cmd_dispatch.specs.Delivered.{HaveTakenNothing};

use cmd_lines::LineFault;
use cmd_run::{Ending, SenderReport};
use cmd_types::Memory;
use std::alloc::Global;
use std::marker::Send;

/// Takes each refused line of a feed as soon as the line is read, and at the end the number of sent commands and the
/// ending. It also decides whether a command has to wait, and blocks the sender's thread until then.
pub(crate) trait Reporter: Send + Drop {
    // The sender's report.
    ghost view: { Self → SenderReport };

    // The reporter has taken these refused lines, in order, and no other.
    ghost has_taken: { Self → List (ℕ × LineFault) → Type 0 };

    /// Takes a refused line: its number, from 1, and its fault. If memory runs out, the refused lines taken are
    /// unchanged.
    fn refuse(&mut self, line: u64, fault: LineFault) -> Result<(), Memory>
        ensures taken { OnOk result ((refused : List (ℕ × LineFault)) → has_taken self.old refused → has_taken self.new (refused ++ (line, fault) ∷ [])) }
        ensures kept { OnErr result ((refused : List (ℕ × LineFault)) → has_taken self.old refused → has_taken self.new refused) };

    /// Whether a command of `time`, in seconds, has to wait before it is sent. The refused lines taken are unchanged.
    fn must_wait(&mut self, time: u64) -> bool
        ensures kept { (refused : List (ℕ × LineFault)) → has_taken self.old refused → has_taken self.new refused };

    /// Blocks the sender's thread until a command of `time`, in seconds, may be sent, or until the run has failed.
    /// `line` is the number of the command's line, from 1. The refused lines taken are unchanged. Fails where a command
    /// that was read from a text is not to be sent.
    fn wait_for(&mut self, time: u64, line: u64) -> Result<(), Memory>
        ensures kept { (refused : List (ℕ × LineFault)) → has_taken self.old refused → has_taken self.new refused };

    /// Sets the number of sent commands and the ending in the report. The refused lines taken are unchanged.
    fn end(&mut self, accepted: u64, ending: Ending)
        ensures accepted { (view self.new).accepted ≡ accepted }
        ensures ending { (view self.new).ending ≡ ending }
        ensures kept { (refused : List (ℕ × LineFault)) → has_taken self.old refused → has_taken self.new refused };

    /// The ending in the report.
    fn ending(&self) -> Ending
        ensures { result ≡ (view self.now).ending };
}

/// A report that lists the refused lines itself. No command has to wait.
impl Reporter for SenderReport {
    ghost view = { λ r. r };

    ghost has_taken = { λ r refused. r.refused.items ≡ refused };

    /// Appends the line to the report's refused lines. If memory runs out, the report is unchanged.
    fn refuse(&mut self, line: u64, fault: LineFault) -> Result<(), Memory> {
        self.refused.push((line, fault))?;
        Ok(())
    }

    /// Returns false: a report makes no command wait.
    fn must_wait(&mut self, _time: u64) -> bool {
        false
    }

    /// Returns at once: a report blocks no thread.
    fn wait_for(&mut self, _time: u64, _line: u64) -> Result<(), Memory> {
        Ok(())
    }

    /// Sets both fields of the report. The refused lines are unchanged.
    fn end(&mut self, accepted: u64, ending: Ending) {
        self.accepted = accepted;
        self.ending = ending;
    }

    /// The ending that the report has.
    fn ending(&self) -> Ending {
        self.ending
    }
}

/// Makes a report for each of `count` senders: no command, no refused line, and the ending `Whole`, which `end`
/// replaces later. If memory runs out, no report is made.
pub(crate) fn empty_reports(alloc: Global, count: usize) -> Result<Vec<SenderReport>, Memory>
    ensures { IfOk result (λ v. HaveTakenNothing (λ (r : SenderReport) (refused : List (ℕ × LineFault)). r.refused.items ≡ refused) v.items count) }
{
    let mut reports = Vec::with_capacity(alloc, count)?;
    for _ in 0..count {
        reports.push_reserved(SenderReport {
            accepted: 0,
            refused: Vec::new(alloc),
            ending: Ending::Whole,
        });
    }
    Ok(reports)
}

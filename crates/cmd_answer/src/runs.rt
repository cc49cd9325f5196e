//! The text for a run, and the exit status. The text is the report or the line for the failure, then the lines for the
//! feeds, the figures and the journal. If memory runs out, a public function returns no text; a private one leaves a
//! part of its lines in `out`.
ghost use Rattle.std.specs.Prelude.{◌≡◌, ◌++◌, false, IfOk, OnOk};
ghost use Rattle.std.specs.List.{list_all};
ghost use Rattle.mon_engine.specs.Report.{report};
ghost use Rattle.cmd_run.specs.Causes.{cause_number, cause_sender};
ghost use Rattle.cmd_answer.specs.Printed.{fault_line, sender_lines, sender_status, run_text, is_clean};

use crate::printing::{put_fault, put_feed, put_figures, put_journal};
use cmd_journal::Journal;
use cmd_run::{Ending, RunFault, SenderReport};
use cmd_types::Memory;
use mon_engine::{Figures, Monitor};
use std::alloc::Global;

/// The exit status of a run that failed (profile).
const FAULT: u8 = 3;

/// Appends each sender's line `feed`, followed by its lines `refused`; the number of a feed is its index in `senders`.
/// If memory runs out, a part of these lines is in `out`.
fn put_senders(out: &mut Vec<u8>, senders: &[SenderReport]) -> Result<(), Memory>
    ensures { OnOk result (out.new.items ≡ out.old.items ++ sender_lines 0 senders.now) }
{
    for sender in 0..senders.len() {
        put_feed(out, sender as u64, &senders[sender])?;
    }
    Ok(())
}

/// Whether the feed was read to its end and none of its lines was refused.
fn is_clean(sender: &SenderReport) -> bool
    ensures { result ≡ is_clean sender.now }
{
    sender.ending == Ending::Whole && sender.refused.is_empty()
}

/// Whether every feed was read to its end and none of its lines was refused.
fn are_clean(senders: &[SenderReport]) -> bool
    ensures { result ≡ list_all is_clean senders.now }
{
    senders.iter().all(|sender| is_clean(sender))
}

/// The exit status of a run that has a report: 0 where all feeds were read to their end and no line was refused, else
/// 1.
fn status_by(senders: &[SenderReport]) -> u8
    ensures { result ≡ sender_status senders.now }
{
    if are_clean(senders) { 0 } else { 1 }
}

/// The parts of a run's text that its options switch on (profile).
///
/// See the example of [`text_of_report`].
#[derive(Clone, Copy)]
pub struct Extras {
    /// The figures to print; `None` where the options do not ask for them.
    pub figures: Option<Figures>,
    /// Whether the journal is printed.
    pub journal: bool,
}

/// Appends the lines after the report or the line of the failure: those for the feeds, the figures, and the journal. If
/// memory runs out, a part of these lines is in `out`.
fn put_rest(
    alloc: Global,
    out: &mut Vec<u8>,
    senders: &[SenderReport],
    extras: Extras,
    journal: &Journal,
) -> Result<(), Memory>
    ensures { OnOk result (out.new.items ≡ run_text out.old.items extras.journal senders.now extras.figures journal.now.entries) }
{
    put_senders(out, senders)?;
    put_figures(out, extras.figures)?;
    put_journal(alloc, out, extras.journal, journal)
}

/// The text for a run that has a report, and the exit status: 0 where all feeds were read to their end and no line was
/// refused, else 1 (profile). Requires that the monitor is not broken. Does not check that all arguments are of one
/// run.
///
/// # Errors
/// Out of memory for the text.
///
/// ```
/// // INVENTORY: the text of an inventory with the host web
/// let monitor = Monitor::new(alloc, Inventory::parse(alloc, INVENTORY)?)?;
/// let journal = Journal::new(alloc, 100);
/// assert!(rt; !monitor.is_broken());
/// let extras = Extras {
///     figures: None,
///     journal: true,
/// };
/// let Ok((text, status)) = text_of_report(alloc, &monitor, &[], extras, &journal) else {
///     return Err(Fail::new("there is memory"));
/// };
/// assert!(rt; text.ends_with(b"---\njournal;2\n"));
/// assert_eq!(rt; status, 0);
/// ```
pub fn text_of_report(
    alloc: Global,
    monitor: &Monitor,
    senders: &[SenderReport],
    extras: Extras,
    journal: &Journal,
) -> Result<(Vec<u8>, u8), Memory>
    requires { monitor.now.broken ≡ false }
    ensures text { IfOk result (λ x. x.0.items ≡ run_text (report monitor.now.inventory monitor.now.world) extras.journal senders.now extras.figures journal.now.entries) }
    ensures status { IfOk result (λ x. x.1 ≡ sender_status senders.now) }
{
    let mut text = Vec::new(alloc);
    monitor.report(alloc, &mut text)?;
    put_rest(alloc, &mut text, senders, extras, journal)?;
    Ok((text, status_by(senders)))
}

/// The text for a run that failed, with the line of its cause instead of the report, and the exit status, 3 (profile).
///
/// # Errors
/// Out of memory for the text.
///
/// ```
/// let fault = RunFault {
///     cause: RunCause::JournalFull,
///     journal: Journal::new(alloc, 100),
///     senders: Vec::new(alloc),
/// };
/// let extras = Extras {
///     figures: None,
///     journal: false,
/// };
/// let Ok((text, status)) = text_of_fault(alloc, &fault, extras) else {
///     return Err(Fail::new("there is memory"));
/// };
/// assert_eq!(rt; text.as_slice(), b"fault;4;0\n".as_slice());
/// assert_eq!(rt; status, 3);
/// ```
pub fn text_of_fault(
    alloc: Global,
    fault: &RunFault,
    extras: Extras,
) -> Result<(Vec<u8>, u8), Memory>
    ensures text { IfOk result (λ x. x.0.items ≡ run_text (fault_line (cause_number fault.now.cause) (cause_sender fault.now.cause)) extras.journal fault.now.senders.items extras.figures fault.now.journal.entries) }
    ensures status { IfOk result (λ x. x.1 ≡ 3) }
{
    let mut text = Vec::new(alloc);
    put_fault(&mut text, fault.cause.number(), fault.cause.sender())?;
    put_rest(alloc, &mut text, &fault.senders, extras, &fault.journal)?;
    Ok((text, FAULT))
}

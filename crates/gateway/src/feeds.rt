//! Runs feeds to their end and makes the text for the run, with the exit status. Nothing is printed here.
ghost use Rattle.std.specs.Prelude.{◌≡◌, false, IfOk};
ghost use Rattle.cmd_dispatch.specs.RunCalls.{sources};
ghost use Rattle.gateway.specs.Answers.{AnswersFeeds, IsRunPrinted};

use crate::unkept::answer_unkept;
use crate::watching::run_asked;
use cmd_answer::{Extras, text_of_fault, text_of_report};
use cmd_dispatch::{Feed, RunReport};
use cmd_options::Options;
use cmd_run::RunFault;
use cmd_types::Memory;
use mon_engine::Figures;
use mon_inventory::Inventory;
use std::alloc::Global;
use std::mem::forget;
use std::sync::Wait;
use std::thread::Threads;

/// The text for a run, and the exit status: 0 or 1, or 3 with a fault line instead of the report. The text has the
/// figures where `seen` has them, and the journal where `journal` is true. Fails if memory runs out.
fn text_of_run(
    alloc: Global,
    run: &Result<RunReport, RunFault>,
    seen: Option<Figures>,
    journal: bool,
) -> Result<(Vec<u8>, u8), Memory>
    requires { IfOk run.now (λ r. r.monitor.broken ≡ false) }
    ensures { IfOk result (λ x. IsRunPrinted journal run.now seen x.0.items x.1) }
{
    let extras = Extras {
        figures: seen,
        journal,
    };
    match run {
        Ok(r) => text_of_report(alloc, &r.monitor, &r.senders, extras, &r.journal),
        Err(fault) => text_of_fault(alloc, fault, extras),
    }
}

/// Runs feeds to their end. Returns the text for the run and the exit status: 0 or 1, or 3 with a fault line instead of
/// the report (profile). Prints nothing.
///
/// # Errors
/// Out of memory outside the run.
pub fn answer_feeds<F: Feed, R: Threads + Wait + Sync>(
    rt: &R,
    alloc: Global,
    inventory: Inventory,
    readers: Vec<F>,
    options: Options,
) -> Result<(Vec<u8>, u8), Memory>
    ensures { IfOk result (λ x. AnswersFeeds (sources F.remaining F.fails F.fills options.run readers.items) options inventory x.0.items x.1) }
{
    if !options.asked.figures && !options.asked.journal {
        return answer_unkept(rt, alloc, inventory, readers, options);
    }
    let ran = run_asked(rt, alloc, inventory, readers, options)?;
    let printed = text_of_run(alloc, &ran.run, ran.figures(), options.asked.journal);
    // Not dropped: the process is about to end, and dropping each text here takes a tenth of the run's time.
    forget(ran);
    printed
}

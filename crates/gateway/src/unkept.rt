//! Runs feeds where neither the journal nor figures are asked for, so that the run keeps no entry. Nothing is printed
//! here.
ghost use Rattle.std.specs.Prelude.{◌≡◌, false, IfOk};
ghost use Rattle.cmd_dispatch.specs.RunCalls.{sources};
ghost use Rattle.gateway.specs.Answers.{AnswersFeeds};

use cmd_answer::{Extras, text_of_fault, text_of_report};
use cmd_dispatch::{Feed, run_without_journal};
use cmd_journal::Journal;
use cmd_options::Options;
use cmd_run::RunFault;
use cmd_types::Memory;
use mon_inventory::Inventory;
use std::alloc::Global;
use std::mem::forget;
use std::sync::Wait;
use std::thread::Threads;

/// Runs feeds to their end, and keeps no entry. Returns the text for the run, without figures and journal, and the exit
/// status: 0 or 1, or 3 with a fault line instead of the report (profile). Requires that neither figures nor the
/// journal are asked for. Prints nothing.
///
/// # Errors
/// Out of memory outside the run.
pub fn answer_unkept<F: Feed, R: Threads + Wait + Sync>(
    rt: &R,
    alloc: Global,
    inventory: Inventory,
    readers: Vec<F>,
    options: Options,
) -> Result<(Vec<u8>, u8), Memory>
    requires { (options.asked.figures ≡ false) × (options.asked.journal ≡ false) }
    ensures { IfOk result (λ x. AnswersFeeds (sources F.remaining F.fails F.fills options.run readers.items) options inventory x.0.items x.1) }
{
    let none = Journal::new(alloc, 1);
    let nothing = Extras {
        figures: None,
        journal: false,
    };
    match run_without_journal(rt, alloc, inventory, readers, options.run) {
        Ok(report) => {
            let printed = text_of_report(alloc, &report.monitor, &report.senders, nothing, &none)?;
            // Not dropped: the process is about to end, and dropping each text here takes a tenth of the run's time.
            forget(report);
            Ok(printed)
        }
        Err(fault) => {
            let fault = RunFault {
                cause: fault.cause,
                journal: none,
                senders: fault.senders,
            };
            let printed = text_of_fault(alloc, &fault, nothing)?;
            forget(fault);
            Ok(printed)
        }
    }
}

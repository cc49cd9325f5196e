//! A log that counts: it applies each entry to the monitor, which counts it, and keeps no entry.
ghost use Rattle.cmd_journal.specs.declared.journal.TheConstants.{GREATEST_LIMIT};

use crate::log::Log;
use cmd_run::RunCause;
use cmd_types::Entry;
use mon_engine::Monitor;
use std::alloc::Global;

/// The monitor of a run that keeps no entry, and the most entries that may be applied.
#[derive(Drop)]
pub(crate) struct Counting {
    pub monitor: Monitor,
    pub limit: u32,
}

impl Log for Counting {
    ghost use Rattle.std.specs.Prelude.{◌≡◌, ◌<◌, ◌≤◌};
    ghost use Rattle.cmd_journal.specs.Journals.{Contents};
    ghost use Rattle.cmd_types.specs.declared.entry.TheConstants.{MOST_SENDERS};
    ghost use Rattle.cmd_dispatch.specs.Dispatches.{IsJournaling};
    ghost use Rattle.cmd_dispatch.specs.JournalLaws.{counting_small, journaling_more, journaling_lost};

    // Some journal, which nobody keeps, holds the taken entries.
    ghost holds = { λ start now fault taken. (now.limit ≡ start.log.limit) × (journal : Contents) × IsJournaling start.log.monitor.inventory start.log.limit (λ _. Unit {0}) fault taken journal now.monitor };

    ghost may_note = { λ now _. now.limit ≤ GREATEST_LIMIT };

    ghost knows = { λ _ _ e. e.sender < MOST_SENDERS };

    ghost may_end = { λ _. Unit {0} };

    ghost rests = { λ _. Unit {0} };

    /// Applies the entry, and drops it. Fails with `JournalFull`, and changes nothing, where `limit` entries were
    /// applied before. If memory runs out, a part of the entry may be applied.
    fn note(&mut self, alloc: Global, entry: Entry) -> Result<(), RunCause> {
        if self.monitor.applied() >= self.limit {
            return Err(RunCause::JournalFull);
        }
        match self.monitor.apply(alloc, &entry) {
            Ok(_) => Ok(()),
            Err(_) => Err(RunCause::Memory),
        }
    }

    /// Does nothing, since no entry is kept.
    fn end_group(&mut self) -> Result<(), RunCause> {
        Ok(())
    }

    ghost next = { λ start now taken e is known placed. counting_small start.log.limit now.limit is.0 is.2.small };

    ghost ends = { λ _ _ _ _. tt };

    ghost more = { λ start now cause taken e of_log is. (is.0, is.1, journaling_more start.log.monitor.inventory start.log.limit (λ _. Unit {0}) cause taken e is.1 now.monitor of_log is.2) };

    ghost lost = { λ start now taken is. (is.0, is.1, journaling_lost start.log.monitor.inventory start.log.limit (λ _. Unit {0}) taken is.1 now.monitor is.2) };
}

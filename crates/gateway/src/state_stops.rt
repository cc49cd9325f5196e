//! The stops of a run over a state directory: each fault of the crates below is turned into the `Stop` that has the
//! program's line.
use crate::ends::stop_of;
use cmd_answer::{InputFault, StateStop, StateWord, Stop};
use cmd_dispatch::RunCause;
use cmd_journal::{ReadCause, ReadFault};
use cmd_live::{LockFault, Part, at_start, passing};
use cmd_recovery::{AssignFault, StartFault};
use cmd_store::StoreFailed;
use mon_inventory::{Cause, InventoryFault};
use mon_state::{FileFault, StateCause, StateFault};

/// The stop of a run for which the inventory of the directory could not be kept.
pub fn keeping_stop(failed: StoreFailed) -> Stop {
    match failed {
        StoreFailed::Memory => Stop::Memory,
        StoreFailed::Failed => later_stop(Some(Part::State)),
    }
}

/// The stop of a run whose directory could not be locked: in use, or the lock failed.
pub fn lock_stop(fault: LockFault) -> Stop {
    match fault {
        LockFault::InUse => at_start(StateWord::InUse),
        LockFault::Failed => at_start(StateWord::Lock),
        LockFault::Passing => passing(StateWord::Lock),
    }
}

/// The stop for a fault in the lines of the file `state` after its inventory.
fn state_stop(fault: StateFault) -> Stop {
    if fault.cause == StateCause::Memory {
        return Stop::Memory;
    }
    Stop::State(StateStop::StateLine {
        line: fault.line,
        cause: fault.cause.number(),
    })
}

/// The stop for a fault of an inventory that the directory has.
pub fn inventory_stop(fault: InventoryFault) -> Stop {
    if fault.cause == Cause::Memory {
        return Stop::Memory;
    }
    Stop::State(StateStop::InventoryLine {
        line: fault.line,
        cause: fault.cause.number(),
    })
}

/// The stop for a fault in the journal of the last segment.
fn journal_stop(fault: ReadFault) -> Stop {
    if fault.cause == ReadCause::Memory {
        return Stop::Memory;
    }
    Stop::State(StateStop::JournalLine {
        line: fault.line,
        cause: fault.cause.number(),
    })
}

/// The stop of a run that does not begin, since the store failed at the part `failed`; `passes` where the fault may pass
/// by itself.
fn read_stop(failed: Option<Part>, passes: bool) -> Stop {
    let word = match failed {
        Some(Part::Sync) => StateWord::Sync,
        Some(Part::Journal) => StateWord::Journal,
        _ => StateWord::Read,
    };
    if passes {
        passing(word)
    } else {
        at_start(word)
    }
}

/// The stop of a run that could not start from its directory. `failed` is the part at which the store failed first, and
/// `passes` says whether that fault may pass by itself.
pub fn start_stop(fault: StartFault, failed: Option<Part>, passes: bool) -> Stop {
    match fault {
        StartFault::Memory => Stop::Memory,
        StartFault::Store => read_stop(failed, passes),
        StartFault::State(FileFault::NoMark) => at_start(StateWord::Mark),
        StartFault::State(FileFault::Inventory(fault)) => inventory_stop(fault),
        StartFault::State(FileFault::State(fault)) => state_stop(fault),
        StartFault::NoObject | StartFault::Unwritable => at_start(StateWord::Inventory),
        StartFault::Full => at_start(StateWord::Full),
        StartFault::Journal(fault) => journal_stop(fault),
        StartFault::Feeds => at_start(StateWord::Feeds),
        StartFault::Told => at_start(StateWord::Told),
    }
}

/// The stop of a run whose feeds could not be assigned numbers.
pub fn assign_stop(fault: AssignFault) -> Stop {
    match fault {
        AssignFault::Memory => Stop::Memory,
        AssignFault::Feeds => at_start(StateWord::Feeds),
        AssignFault::TooMany => Stop::Feeds,
    }
}

/// The stop of a run that has begun and whose store failed at the part `failed`. `None` stands for out of memory.
pub fn later_stop(failed: Option<Part>) -> Stop {
    let word = match failed {
        Some(Part::Read) => StateWord::Read,
        Some(Part::State) => StateWord::File,
        Some(Part::Journal) => StateWord::Journal,
        Some(Part::Told) => StateWord::Told,
        Some(Part::Sync) => StateWord::Sync,
        Some(Part::Output) => return Stop::Output,
        None => return Stop::Memory,
    };
    Stop::State(StateStop::Later(word))
}

/// The stop of a run for which the file `status` could not be written, or memory ran out to write it.
pub fn status_stop(failed: StoreFailed) -> Stop {
    match failed {
        StoreFailed::Memory => Stop::Memory,
        StoreFailed::Failed => Stop::State(StateStop::Later(StateWord::Status)),
    }
}

/// The stop of a run that failed by this cause. For the cause `Output` it is that of the file `status` where `is_shown`
/// is false, else that of the part `failed` of the store.
pub fn run_stop(cause: RunCause, failed: Option<Part>, is_shown: bool) -> Stop {
    match cause {
        RunCause::Output if !is_shown => status_stop(StoreFailed::Failed),
        RunCause::Output => later_stop(failed),
        _ => stop_of(cause),
    }
}

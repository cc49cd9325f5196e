//! A line that the program prints as a value: the kind of the line, with its numbers.
ghost use Rattle.std.specs.Prelude.{◌≡◌};
ghost use Rattle.cmd_explain.specs.KnownLines.{line_of};

use crate::codes::{inventory_cause, journal_cause, line_fault, reason_of, run_cause, state_cause};
use crate::kinds::LineKind;
use cmd_answer::StateWord;
use cmd_journal::ReadCause;
use cmd_lines::LineFault;
use cmd_run::{Ending, RunCause};
use mon_engine::{Reason, Withheld};
use mon_inventory::Cause;
use mon_state::StateCause;

/// A line that the program prints, by what it says (profile). Feeds are numbered from 0, the lines and commands of a
/// feed from 1.
///
/// ```
/// let known = known_line(alloc, b"gateway: inventory line 2: 7");
/// let wanted = KnownLine::Inventory {
///     line: 2,
///     cause: Cause::UnknownContact,
/// };
/// assert_eq!(rt; known, Ok(Some(wanted)));
/// ```
#[derive(Clone, Copy, Debug, PartialEq, Eq)]
pub enum KnownLine {
    /// The program's arguments name no mode, or a value is out of its range.
    Usage,
    /// The input could not be read to its end.
    Input,
    /// There is no separator, no feed, or more feeds than a run may have.
    Feeds,
    /// The program's arguments name a feed twice.
    FeedTwice,
    /// Memory ran out.
    Memory,
    /// The output did not take all of the text.
    Output,
    /// A file cannot be opened, or the inventory cannot be read to its end.
    Open,
    /// A line of the inventory is faulty.
    Inventory {
        line: u64,
        cause: Cause,
    },
    /// A line of the journal is faulty.
    Journal {
        line: u64,
        cause: ReadCause,
    },
    /// The run failed.
    Fault {
        cause: RunCause,
    },
    /// A run could not begin from a state directory, or could not write it.
    State {
        word: StateWord,
    },
    /// A line of the file `state` after its inventory is faulty.
    StateLine {
        line: u64,
        cause: StateCause,
    },
    /// A line of the inventory in the file `state` is faulty.
    StateInventory {
        line: u64,
        cause: Cause,
    },
    /// A line of the last segment of the journal is faulty.
    StateJournal {
        line: u64,
        cause: ReadCause,
    },
    /// A run that follows feeds has begun.
    Following {
        feeds: u64,
        entries: u64,
        clock: u64,
    },
    /// The command in a line of a feed waits, since its time is ahead of the system's clock.
    Waits {
        feed: u64,
        line: u64,
        seconds: u64,
    },
    /// The file of a feed got shorter, or its path now names another file or none.
    Replaced {
        feed: u64,
    },
    /// The file of a feed is another file than before, and is read from its beginning.
    Anew {
        feed: u64,
    },
    /// A followed feed has ended.
    Ended {
        feed: u64,
        ending: Ending,
    },
    /// The system's clock has moved forward by more than the time that passed.
    ClockAhead {
        seconds: u64,
    },
    /// The file of a feed cannot be read yet: it does not exist, or it exists and cannot be opened or read.
    Absent {
        is_there: bool,
    },
    /// A new inventory was taken without a restart.
    NewInventory {
        hosts: u64,
        services: u64,
    },
    /// A line of a new inventory is faulty, and the inventory was not taken.
    InventoryRefused {
        line: u64,
        cause: Cause,
    },
    /// The file `told.SEGMENT` of a place is missing, so told lines begin at the first later segment that has a file.
    ToldMissing {
        segment: u64,
        line: u64,
    },
    /// A line of a feed is no command.
    Refused {
        feed: u64,
        line: u64,
        fault: LineFault,
    },
    /// A command was rejected: it had no effect.
    Rejected {
        feed: u64,
        place: u64,
        reason: Reason,
    },
    /// A feed has ended, as the lines after a report say.
    Feed {
        feed: u64,
        accepted: u64,
        ending: Ending,
    },
    /// A line of the status: the moments of an object, and what withholds the notice of its problem.
    Times {
        withheld: Option<Withheld>,
    },
}

/// What a line of this kind with these numbers says; `None` where their count differs from that in the kind's
/// form, or a number stands for no cause, fault or reason.
#[tactic(auto, unfolding(crate::specs::KnownLines::line_of))]
pub fn line_of(kind: LineKind, numbers: &[u64]) -> Option<KnownLine>
    ensures { result ≡ line_of kind numbers.now }
{
    match (kind, numbers) {
        (LineKind::Usage, []) => Some(KnownLine::Usage),
        (LineKind::Input, []) => Some(KnownLine::Input),
        (LineKind::Feeds, []) => Some(KnownLine::Feeds),
        (LineKind::FeedTwice, []) => Some(KnownLine::FeedTwice),
        (LineKind::Memory, []) => Some(KnownLine::Memory),
        (LineKind::Output, []) => Some(KnownLine::Output),
        (LineKind::State(word), []) => Some(KnownLine::State { word }),
        (LineKind::Replaced, [feed]) => Some(KnownLine::Replaced { feed: *feed }),
        (LineKind::Anew, [feed]) => Some(KnownLine::Anew { feed: *feed }),
        (LineKind::Ended(ending), [feed]) => Some(KnownLine::Ended {
            feed: *feed,
            ending,
        }),
        (LineKind::ClockAhead, [seconds]) => Some(KnownLine::ClockAhead { seconds: *seconds }),
        (LineKind::NewInventory, [hosts, services]) => Some(KnownLine::NewInventory {
            hosts: *hosts,
            services: *services,
        }),
        (LineKind::ToldMissing, [segment, line]) => Some(KnownLine::ToldMissing {
            segment: *segment,
            line: *line,
        }),
        (LineKind::InventoryRefused, [line, cause]) => {
            let cause = inventory_cause(*cause)?;
            Some(KnownLine::InventoryRefused { line: *line, cause })
        }
        (LineKind::Inventory, [line, cause]) => {
            let cause = inventory_cause(*cause)?;
            Some(KnownLine::Inventory { line: *line, cause })
        }
        (LineKind::Journal, [line, cause]) => {
            let cause = journal_cause(*cause)?;
            Some(KnownLine::Journal { line: *line, cause })
        }
        (LineKind::Fault | LineKind::NoReport, [cause, feed]) => {
            let cause = run_cause(*cause, *feed)?;
            Some(KnownLine::Fault { cause })
        }
        (LineKind::StateLine, [line, cause]) => {
            let cause = state_cause(*cause)?;
            Some(KnownLine::StateLine { line: *line, cause })
        }
        (LineKind::StateInventory, [line, cause]) => {
            let cause = inventory_cause(*cause)?;
            Some(KnownLine::StateInventory { line: *line, cause })
        }
        (LineKind::StateJournal, [line, cause]) => {
            let cause = journal_cause(*cause)?;
            Some(KnownLine::StateJournal { line: *line, cause })
        }
        (LineKind::Feed(ending), [feed, accepted]) => Some(KnownLine::Feed {
            feed: *feed,
            accepted: *accepted,
            ending,
        }),
        (LineKind::Following, [feeds, entries, clock]) => Some(KnownLine::Following {
            feeds: *feeds,
            entries: *entries,
            clock: *clock,
        }),
        (LineKind::Waits, [feed, line, seconds]) => Some(KnownLine::Waits {
            feed: *feed,
            line: *line,
            seconds: *seconds,
        }),
        (LineKind::Rejected, [feed, place, reason]) => {
            let reason = reason_of(*reason)?;
            Some(KnownLine::Rejected {
                feed: *feed,
                place: *place,
                reason,
            })
        }
        (LineKind::Refused, [feed, line, fault, argument]) => {
            let fault = line_fault(*fault, *argument)?;
            Some(KnownLine::Refused {
                feed: *feed,
                line: *line,
                fault,
            })
        }
        _ => None,
    }
}

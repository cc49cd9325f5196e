//! Finds a cause, fault or reason by the number that the program prints for it. A law in `laws` says that each of them
//! is found by its number, so none can be missing here.
ghost use Rattle.std.specs.Prelude.{◌≡◌};
ghost use Rattle.cmd_explain.specs.Codes.{inventory_cause, journal_cause, state_cause, reason_of, cause_of_feed, run_cause, fault_of_argument, line_fault};

use cmd_journal::ReadCause;
use cmd_lines::LineFault;
use cmd_run::RunCause;
use cmd_types::MOST_SENDERS;
use mon_engine::Reason;
use mon_inventory::Cause;
use mon_state::StateCause;

/// All causes of a fault in a line of an inventory.
const INVENTORY_CAUSES: [Cause; 9] = [
    Cause::BadForm,
    Cause::BadNumber,
    Cause::BadOption,
    Cause::Duplicate,
    Cause::UnknownHost,
    Cause::UnknownService,
    Cause::UnknownContact,
    Cause::TooMany,
    Cause::Memory,
];

/// All causes of a fault in a line of a journal.
const JOURNAL_CAUSES: [ReadCause; 5] = [
    ReadCause::BadEntry,
    ReadCause::BadPlace,
    ReadCause::BadClock,
    ReadCause::Full,
    ReadCause::Memory,
];

/// All causes of a fault in a line of the file `state`.
const STATE_CAUSES: [StateCause; 5] = [
    StateCause::BadLine,
    StateCause::BadValue,
    StateCause::NotAsWritten,
    StateCause::UnknownVersion,
    StateCause::Memory,
];

/// All reasons for which a command is rejected.
const REASONS: [Reason; 12] = [
    Reason::UnknownHost,
    Reason::UnknownService,
    Reason::UnknownContact,
    Reason::NoSuchComment,
    Reason::NoSuchDowntime,
    Reason::NotAProblem,
    Reason::BadWindow,
    Reason::PastWindow,
    Reason::NoDuration,
    Reason::NoTrigger,
    Reason::TriggerOver,
    Reason::PassiveOff,
];

/// The cause of a faulty inventory line, by its number; `None` where no cause has this number.
#[tactic(auto, unfolding(crate::specs::Codes::inventory_cause))]
pub fn inventory_cause(number: u64) -> Option<Cause>
    ensures { result ≡ inventory_cause number }
{
    INVENTORY_CAUSES
        .iter()
        .copied()
        .find(|cause| u64::from(cause.number()) == number)
}

/// The cause of a faulty journal line, by its number; `None` where no cause has this number.
#[tactic(auto, unfolding(crate::specs::Codes::journal_cause))]
pub fn journal_cause(number: u64) -> Option<ReadCause>
    ensures { result ≡ journal_cause number }
{
    JOURNAL_CAUSES
        .iter()
        .copied()
        .find(|cause| u64::from(cause.number()) == number)
}

/// The cause of a faulty line in the file `state`, by its number; `None` where no cause has this number.
#[tactic(auto, unfolding(crate::specs::Codes::state_cause))]
pub fn state_cause(number: u64) -> Option<StateCause>
    ensures { result ≡ state_cause number }
{
    STATE_CAUSES
        .iter()
        .copied()
        .find(|cause| u64::from(cause.number()) == number)
}

/// The reason for which a command is rejected, by its number; `None` where no reason has this number.
#[tactic(auto, unfolding(crate::specs::Codes::reason_of))]
pub fn reason_of(number: u64) -> Option<Reason>
    ensures { result ≡ reason_of number }
{
    REASONS
        .iter()
        .copied()
        .find(|reason| reason.number() == number)
}

/// The cause of a failed run, by its number and its feed; `None` where no cause has both. The feed is 0 for a cause
/// without a feed. [`run_cause`] takes a `feed` of any size.
#[tactic(auto, unfolding(crate::specs::Codes::cause_of_feed))]
fn cause_of_feed(number: u64, feed: u16) -> Option<RunCause>
    ensures { result ≡ cause_of_feed number feed }
{
    let causes = [
        RunCause::BadOptions,
        RunCause::Memory,
        RunCause::Spawn(feed),
        RunCause::JournalFull,
        RunCause::QueueLost,
        RunCause::SenderStopped(feed),
        RunCause::Output,
    ];
    causes.iter().copied().find(|cause| u64::from(cause.number()) == number
        && cause.sender() == feed)
}

/// The cause of a failed run, by its number and its feed; `None` where no cause has both, or no feed may have the
/// number `feed`, which is then [`MOST_SENDERS`] or more. The feed is 0 for a cause without a feed.
#[tactic(auto, unfolding(crate::specs::Codes::run_cause))]
pub fn run_cause(number: u64, feed: u64) -> Option<RunCause>
    ensures { result ≡ run_cause number feed }
{
    if feed < u64::from(MOST_SENDERS) {
        cause_of_feed(number, feed as u16)
    } else {
        None
    }
}

/// The fault of a refused line, by its number and its argument; `None` where no fault has both. The argument is 0 for a
/// fault without an argument. [`line_fault`] takes an `argument` of any size.
#[tactic(auto, unfolding(crate::specs::Codes::fault_of_argument))]
fn fault_of_argument(number: u64, argument: u8) -> Option<LineFault>
    ensures { result ≡ fault_of_argument number argument }
{
    let faults = [
        LineFault::TooLong,
        LineFault::Torn,
        LineFault::NoBracket,
        LineFault::BadTime,
        LineFault::NoSpace,
        LineFault::UnknownCommand,
        LineFault::Missing(argument),
        LineFault::EmptyName(argument),
        LineFault::BadNumber(argument),
        LineFault::Memory,
    ];
    faults.iter().copied().find(|fault| u64::from(fault.number()) == number
        && fault.argument() == argument)
}

/// The fault of a refused line, by its number and its argument; `None` where no fault has both, for example for an
/// argument of 256 or more. The argument is 0 for a fault without an argument.
#[tactic(auto, unfolding(crate::specs::Codes::line_fault))]
pub fn line_fault(number: u64, argument: u64) -> Option<LineFault>
    ensures { result ≡ line_fault number argument }
{
    if argument < 256 {
        fault_of_argument(number, argument as u8)
    } else {
        None
    }
}

//! The result of an entry: an `Outcome` (applied, or rejected for a `Reason`), or an `EngineFault` where memory runs
//! out or ran out before. A `Rejection` is a rejected entry in the monitor's list.
ghost use Rattle.std.specs.Prelude.{◌≡◌};
ghost use Rattle.mon_engine.specs.declared.outcome.EngineFault.TheVariants.{Memory};
ghost use Rattle.mon_engine.specs.Words.{reason_number};

use cmd_types::Memory;
use std::alloc::AllocFailed;

/// Why the monitor rejects an entry (profile). The act of a rejected entry is not done.
///
/// ```
/// // INVENTORY: the text of an inventory with the host web
/// let inventory = Inventory::parse(alloc, INVENTORY)?;
/// let mut monitor = Monitor::new(alloc, inventory)?;
/// let host = Text::new(Vec::from_slice(alloc, b"db")?);
/// let Ok(stamped) = Stamped::new(7, Command::DelAllHostComments { host }) else {
///     return Err(Fail::new("a name has no semicolon"));
/// };
/// let entry = Entry {
///     sender: 0,
///     place: 1,
///     stamped,
/// };
/// let outcome = monitor.apply(alloc, &entry);
/// assert_eq!(rt; outcome, Ok(Outcome::Rejected(Reason::UnknownHost)));
/// ```
#[derive(Clone, Copy, Debug, PartialEq, Eq)]
pub enum Reason {
    UnknownHost,
    UnknownService,
    UnknownContact,
    /// No comment has the id, or the comment's object is of the other kind.
    NoSuchComment,
    /// No downtime has the id, it is over, or its object is of the other kind.
    NoSuchDowntime,
    /// The code of the object is 0.
    NotAProblem,
    /// The end is not after the start.
    BadWindow,
    /// The end is not after the clock.
    PastWindow,
    /// A flexible downtime has duration 0.
    NoDuration,
    /// The trigger was never scheduled.
    NoTrigger,
    /// The trigger is over.
    TriggerOver,
    /// The program or the object does not accept passive check results.
    PassiveOff,
}

impl Reason {
    /// The number that the program prints for the reason (profile).
    pub fn number(self) -> u64
        ensures { result ≡ reason_number self }
    {
        match self {
            Reason::UnknownHost => 1,
            Reason::UnknownService => 2,
            Reason::UnknownContact => 3,
            Reason::NoSuchComment => 4,
            Reason::NoSuchDowntime => 5,
            Reason::NotAProblem => 6,
            Reason::BadWindow => 7,
            Reason::PastWindow => 8,
            Reason::NoDuration => 9,
            Reason::NoTrigger => 10,
            Reason::TriggerOver => 11,
            Reason::PassiveOff => 12,
        }
    }
}

/// A rejected entry in the monitor's list: the number of its sender, its place among the sender's entries (from 1), and
/// the reason.
#[derive(Clone, Copy)]
pub struct Rejection {
    pub sender: u16,
    pub place: u64,
    pub reason: Reason,
}

/// What the monitor did with an entry that it counted.
///
/// See the example of [`Monitor`].
#[derive(Clone, Copy, Debug, PartialEq, Eq)]
pub enum Outcome {
    Applied,
    Rejected(Reason),
}

/// Why an entry has no outcome: `Memory` where memory ran out for this entry, `Broken` where it ran out for an earlier
/// entry. `Broken` changes nothing.
///
/// See the example of [`Monitor`].
#[derive(Clone, Copy, Debug, PartialEq, Eq)]
pub enum EngineFault {
    Memory,
    Broken,
}

impl From<Memory> for EngineFault {
    ghost from_gives = { λ _ f. f ≡ Memory };

    /// Returns `EngineFault::Memory`.
    fn from(_error: Memory) -> EngineFault {
        EngineFault::Memory
    }
}

impl<T: Drop> From<AllocFailed<T>> for EngineFault {
    ghost from_gives = { λ _ f. f ≡ Memory };

    /// Returns `EngineFault::Memory`, and drops the value that could not be stored.
    fn from(_error: AllocFailed<T>) -> EngineFault {
        EngineFault::Memory
    }
}

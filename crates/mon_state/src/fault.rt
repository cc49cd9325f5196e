//! Why a text is not the state of a monitor of the inventory: its first faulty line, and the cause.
ghost use Rattle.std.specs.Prelude.{◌≡◌};
ghost use Rattle.mon_state.specs.declared.fault.StateCause.TheVariants.{Memory};
ghost use Rattle.mon_state.specs.Causes.{cause_number};

use cmd_types::Memory;
use std::alloc::AllocFailed;

/// Why a line of a text is faulty, or that memory ran out (profile).
///
/// See the example of [`StateFault`].
#[derive(Clone, Copy, Debug, PartialEq, Eq)]
pub enum StateCause {
    /// The line does not have the required form: it is missing; or its word, a name of the inventory, a number or
    /// another field is not the required one; or a field does not end in this line.
    BadLine,
    /// A number is out of range, an id is out of order, or the part of the state in this line does not fit the
    /// inventory for another reason ([`Misfit`](mon_engine::Misfit)).
    BadValue,
    /// The same state would be written with another line here: the line has a leading zero or a wrong count, or is
    /// after the line `end`.
    NotAsWritten,
    /// The heading is `state;N`, and no [`StateVersion`](crate::StateVersion) has the number N.
    UnknownVersion,
    /// Memory ran out.
    Memory,
}

impl StateCause {
    /// The number that the program prints for the cause: 1 to 5 (profile).
    pub fn number(self) -> u8
        ensures { result ≡ cause_number self }
    {
        match self {
            StateCause::BadLine => 1,
            StateCause::BadValue => 2,
            StateCause::NotAsWritten => 3,
            StateCause::Memory => 4,
            StateCause::UnknownVersion => 5,
        }
    }
}

impl From<Memory> for StateCause {
    ghost from_gives = { λ _ f. f ≡ Memory };

    /// Returns `StateCause::Memory`.
    fn from(_error: Memory) -> StateCause {
        StateCause::Memory
    }
}

impl<T: Drop> From<AllocFailed<T>> for StateCause {
    ghost from_gives = { λ _ f. f ≡ Memory };

    /// Returns `StateCause::Memory`, and drops the value that could not be stored.
    fn from(_error: AllocFailed<T>) -> StateCause {
        StateCause::Memory
    }
}

/// The first faulty line of a text, counted from 1, and the cause. With [`StateCause::Memory`] the line is not faulty.
///
/// ```
/// // INVENTORY: the text of an inventory with the host web
/// let inventory = Inventory::parse(alloc, INVENTORY)?;
/// let Err(fault) = read_state(alloc, inventory, b"state;3\n") else {
///     return Err(Fail::new("it has another version"));
/// };
/// assert_eq!(rt; (fault.line, fault.cause), (1, StateCause::UnknownVersion));
/// assert!(rt; StateVersion::of_number(3).is_none());
/// ```
#[derive(Clone, Copy, Debug, PartialEq, Eq)]
pub struct StateFault {
    pub line: u64,
    pub cause: StateCause,
}

//! Why an inventory text is refused: its first line with a fault, and the cause, which has a number.
ghost use Rattle.std.specs.Prelude.{◌≡◌, map};
ghost use Rattle.std.specs.List.{range_with_len};
ghost use Rattle.mon_inventory.specs.Cause.{cause_number};
ghost use Rattle.mon_inventory.specs.Configuration.{causes};

use std::alloc::{AllocError, AllocFailed};
use thiserror::Error;

/// The cause of a line's fault: the first test that fails, in this order (profile).
///
/// See the example of [`InventoryFault`].
#[derive(Clone, Copy, Debug, PartialEq, Eq, Error)]
pub enum Cause {
    /// No kind of line has this first word and number of fields, a name or an item of a comma list is empty, a
    /// contact's name has a comma, or no option has this name.
    #[error("the line has no known form")]
    BadForm,
    /// A field that has to be a number is not 1 to [`MOST_DIGITS`](cmd_types::MOST_DIGITS) digits or is above
    /// [`GREATEST_NUMBER`](cmd_types::GREATEST_NUMBER), a `max_check_attempts`, a delay or the seconds to settle are 0,
    /// or an option's value is not `0` or `1`.
    #[error("a field is no such number")]
    BadNumber,
    /// A letter that this kind of line does not have.
    #[error("an option is not known here")]
    BadOption,
    /// An earlier line defines the same contact, the same host or the same service of this host, or sets the option,
    /// the seconds to settle or the same directive of the object.
    #[error("the name stands already")]
    Duplicate,
    /// No earlier line defines the host that the line names.
    #[error("no such host")]
    UnknownHost,
    /// No earlier line defines the service that the line names.
    #[error("no such service")]
    UnknownService,
    /// No earlier line defines a contact that the line names.
    #[error("no such contact")]
    UnknownContact,
    /// The line would define one more contact, object or escalation than the limit allows.
    #[error("too many lines of this kind")]
    TooMany,
    /// Memory ran out.
    #[error("out of memory")]
    Memory,
}

impl Cause {
    /// The number that the program prints for the cause: 1 to 9, in the order of the variants, which is the order of
    /// the tests.
    pub fn number(self) -> u8
        ensures value { result ≡ cause_number self }
        ensures order { map cause_number causes ≡ range_with_len 1 8 }
    {
        match self {
            Cause::BadForm => 1,
            Cause::BadNumber => 2,
            Cause::BadOption => 3,
            Cause::Duplicate => 4,
            Cause::UnknownHost => 5,
            Cause::UnknownService => 6,
            Cause::UnknownContact => 7,
            Cause::TooMany => 8,
            Cause::Memory => 9,
        }
    }
}

/// The first line with a fault, and the cause of that fault (profile).
///
/// ```
/// let Err(fault) = Inventory::parse(alloc, b"\nhost;web;0;60;d;\n") else {
///     return Err(Fail::new("at least one attempt"));
/// };
/// assert_eq!(rt; (fault.line, fault.cause), (2, Cause::BadNumber));
/// assert_eq!(rt; fault.cause.number(), 2);
/// ```
#[derive(Clone, Copy, Debug, PartialEq, Eq, Error)]
#[error("line {line}: {cause}")]
pub struct InventoryFault {
    /// The number of the line, from 1; empty lines count. With [`Cause::Memory`], the line that was being read: reading
    /// takes no memory before the first line.
    pub line: u64,
    pub cause: Cause,
}

impl From<AllocError> for Cause {
    ghost use Rattle.mon_inventory.specs.declared.fault.Cause.TheVariants.{Memory};

    ghost from_gives = { λ _ e. e ≡ Memory };

    /// Returns `Cause::Memory`.
    fn from(_error: AllocError) -> Cause {
        Cause::Memory
    }
}

impl<T: Drop> From<AllocFailed<T>> for Cause {
    ghost use Rattle.mon_inventory.specs.declared.fault.Cause.TheVariants.{Memory};

    ghost from_gives = { λ _ e. e ≡ Memory };

    /// Returns `Cause::Memory`, and drops the value that could not be stored.
    fn from(_error: AllocFailed<T>) -> Cause {
        Cause::Memory
    }
}

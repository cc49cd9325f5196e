//! The faults of a line, in the order of the tests, and the numbers by which faults and their arguments are reported.

ghost use Rattle.std.specs.Prelude.{◌≡◌};
ghost use Rattle.cmd_lines.specs.Faults.{fault_number, fault_argument};

use cmd_types::Memory;
use thiserror::Error;

/// The fault of a line (External Commands): the first test that the line fails, in this order
/// (profile). The number in a fault is the number of the argument at fault, from 1.
///
/// ```
/// let line = b"[1] DEL_HOST_COMMENT;x".as_slice();
/// assert!(rt; lacks(b'\n', line) && has_no_return(line));
/// let Err(fault) = parse_line(alloc, line) else {
///     return Err(Fail::new("the line has a fault"));
/// };
/// assert_eq!(rt; fault, LineFault::BadNumber(1));
/// assert_eq!(rt; (fault.number(), fault.argument()), (9, 1));
/// ```
#[derive(Clone, Copy, Debug, PartialEq, Eq, Error)]
pub enum LineFault {
    /// More than [`LONGEST_LINE`](cmd_types::LONGEST_LINE) bytes.
    #[error("the line is too long")]
    TooLong,
    /// The text broke off before the line ended.
    #[error("the text broke off in the line")]
    Torn,
    /// The first byte is not `[`.
    #[error("no bracket opens the line")]
    NoBracket,
    /// No `]` follows the `[`, or the bytes before the first `]` are no number.
    #[error("the time is no number")]
    BadTime,
    /// No space follows the `]`.
    #[error("no space follows the time")]
    NoSpace,
    /// No command has the name that follows the spaces, up to a semicolon or the end.
    #[error("no such command")]
    UnknownCommand,
    /// No semicolon opens the argument.
    #[error("argument {0} is missing")]
    Missing(u8),
    /// The argument is a name without a byte.
    #[error("argument {0} is an empty name")]
    EmptyName(u8),
    /// The argument is no number, or a code out of its range.
    #[error("argument {0} is no such number")]
    BadNumber(u8),
    /// Out of memory. The line itself has no fault.
    #[error("out of memory")]
    Memory,
}

impl LineFault {
    /// The number by which the fault is reported, 1 to 10 (profile).
    pub fn number(self) -> u8
        ensures { result ≡ fault_number self }
    {
        match self {
            LineFault::TooLong => 1,
            LineFault::Torn => 2,
            LineFault::NoBracket => 3,
            LineFault::BadTime => 4,
            LineFault::NoSpace => 5,
            LineFault::UnknownCommand => 6,
            LineFault::Missing(_) => 7,
            LineFault::EmptyName(_) => 8,
            LineFault::BadNumber(_) => 9,
            LineFault::Memory => 10,
        }
    }

    /// The number of the argument at fault, from 1; 0 where the fault is of no argument (profile).
    pub fn argument(self) -> u8
        ensures { result ≡ fault_argument self }
    {
        match self {
            LineFault::Missing(n) => n,
            LineFault::EmptyName(n) => n,
            LineFault::BadNumber(n) => n,
            _ => 0,
        }
    }
}

impl From<Memory> for LineFault {
    ghost use Rattle.std.specs.Prelude.{◌≡◌};
    ghost use Rattle.cmd_lines.specs.declared.fault.LineFault.TheVariants.{Memory};

    ghost from_gives = { λ _ e. e ≡ Memory };

    /// Returns `LineFault::Memory`.
    fn from(_error: Memory) -> LineFault {
        LineFault::Memory
    }
}

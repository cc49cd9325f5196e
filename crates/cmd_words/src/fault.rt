//! The fault of words that name no call of the program.
use cmd_types::Memory;

/// Why the words of a call were not read as a mode with its options (profile).
///
/// ```
/// let Err(fault) = mode_of(alloc, &["journal"]) else {
///     return Err(Fail::new("there is no such mode"));
/// };
/// assert!(rt; fault == WordsFault::Usage);
/// ```
#[derive(Clone, Copy, Debug, PartialEq, Eq)]
pub enum WordsFault {
    /// Wrong use: the words name no mode with its options, or they ask for help.
    Usage,
    /// Memory ran out while the words were read.
    Memory,
}

impl From<Memory> for WordsFault {
    ghost use Rattle.std.specs.Prelude.{◌≡◌};
    ghost use Rattle.cmd_words.specs.declared.fault.WordsFault.TheVariants.{Memory};

    ghost from_gives = { λ _ e. e ≡ Memory };

    /// Returns `WordsFault::Memory`.
    fn from(_error: Memory) -> WordsFault {
        WordsFault::Memory
    }
}

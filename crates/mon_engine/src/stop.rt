//! Why an act is not done: the entry is rejected, or memory runs out. Nothing in this file changes the state.
ghost use Rattle.std.specs.Prelude.{◌≡◌};
ghost use Rattle.mon_engine.specs.declared.stop.ActStop.TheVariants.{Memory};

use crate::outcome::Reason;
use cmd_types::Memory;
use std::alloc::AllocFailed;

/// Why an act is not done. After `Rejected` the state is unchanged; after `Memory` a part of the act may be done.
#[derive(Clone, Copy)]
pub enum ActStop {
    Rejected(Reason),
    Memory,
}

impl From<Memory> for ActStop {
    ghost from_gives = { λ _ s. s ≡ Memory };

    /// Returns `ActStop::Memory`.
    fn from(_error: Memory) -> ActStop {
        ActStop::Memory
    }
}

impl<T: Drop> From<AllocFailed<T>> for ActStop {
    ghost from_gives = { λ _ s. s ≡ Memory };

    /// Returns `ActStop::Memory`, and drops the value that could not be stored.
    fn from(_error: AllocFailed<T>) -> ActStop {
        ActStop::Memory
    }
}

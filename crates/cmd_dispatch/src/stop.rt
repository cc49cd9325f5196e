//! The reasons why a sender stops before it has passed on all of its feed: memory runs out, or the queue refuses. An
//! attendant that holds a command back for good counts as out of memory.
use cmd_types::Memory;
use std::alloc::AllocFailed;

/// The reason why a sender stops before it has passed on all of its feed.
#[derive(Clone, Copy)]
pub(crate) enum SenderStop {
    Memory,
    QueueRefused,
}

impl<T: Drop> From<AllocFailed<T>> for SenderStop {
    ghost use Rattle.std.specs.Prelude.{◌≡◌};
    ghost use Rattle.cmd_dispatch.specs.declared.stop.SenderStop.TheVariants.{Memory};

    ghost from_gives = { λ _ e. e ≡ Memory };

    /// Returns `SenderStop::Memory`. The value that found no room is dropped.
    fn from(_error: AllocFailed<T>) -> SenderStop {
        SenderStop::Memory
    }
}

impl From<Memory> for SenderStop {
    ghost use Rattle.std.specs.Prelude.{◌≡◌};
    ghost use Rattle.cmd_dispatch.specs.declared.stop.SenderStop.TheVariants.{Memory};

    ghost from_gives = { λ _ e. e ≡ Memory };

    /// Returns `SenderStop::Memory`.
    fn from(_error: Memory) -> SenderStop {
        SenderStop::Memory
    }
}

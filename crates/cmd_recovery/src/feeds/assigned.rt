//! The result of `assign`: the feeds of a run in order of their numbers, with the role of each, or the fault for which
//! no numbers are assigned.

use cmd_types::{MOST_SENDERS, Memory};
use mon_state::KeptFeeds;

/// The role of a feed in a run: one of the feeds that the call names, the clock feed, or a feed that the call leaves
/// out (profile).
///
/// See the example of [`assign`].
#[derive(Clone, Copy, Debug, PartialEq, Eq)]
pub enum Role {
    /// The feed that the call names at this index, from 0.
    Given(usize),
    /// The clock feed, which the call does not name.
    Clock,
    /// A feed of the directory that the call does not name: it sends nothing.
    Unnamed,
}

/// The feeds of a run, in order of their numbers (profile).
///
/// See the example of [`assign`].
#[derive(Drop)]
pub struct Assigned {
    /// The kept data of each feed.
    pub feeds: KeptFeeds,
    /// The role of each feed, in the same order.
    pub roles: Vec<Role>,
}

/// The fault for which no numbers are assigned to the feeds (profile).
///
/// See the example of [`assign`].
#[derive(Clone, Copy, Debug, PartialEq, Eq)]
pub enum AssignFault {
    /// Out of memory.
    Memory,
    /// The call leaves out a feed of the directory and names a new one, the path of a feed has a line feed, or the
    /// number of the directory's clock feed is not below the count of its feeds.
    Feeds,
    /// The feeds that the call names, or those of the directory, are more than [`MOST_SENDERS`], including the clock
    /// feed.
    TooMany,
}

impl From<Memory> for AssignFault {
    ghost use Rattle.std.specs.Prelude.{◌≡◌};
    ghost use Rattle.cmd_recovery.specs.declared.feeds.assigned.AssignFault.TheVariants.{Memory};

    ghost from_gives = { λ _ f. f ≡ Memory };

    fn from(_error: Memory) -> AssignFault {
        AssignFault::Memory
    }
}

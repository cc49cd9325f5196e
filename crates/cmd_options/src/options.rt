//! The options of a run of many feeds, and the tests of their ranges.
ghost use Rattle.std.specs.Prelude.{◌↔◌, IsTrue};
ghost use Rattle.cmd_options.specs.Options.{AreInRange, MayRun};

use cmd_journal::is_limit;
use cmd_queue::is_capacity;
use cmd_types::is_sender_count;

/// The most bytes that one read asks for: a choice. The thread of each feed has a buffer of at most this
/// size. The bytes of as many full reads as [`RunOptions::reads`] can name are far below
/// [`MOST_FED`](cmd_lines::MOST_FED) (profile).
pub const MOST_PIECE: usize = 65_536;

/// The options of a run of many feeds (profile).
///
/// ```
/// let options = RunOptions {
///     capacity: 64,
///     piece: 4_096,
///     limit: 1_000_000,
///     reads: u32::MAX,
/// };
/// assert!(rt; options.are_in_range());
/// assert!(rt;
///     !RunOptions {
///         piece: 0,
///         ..options
///     }
///     .are_in_range()
/// );
/// assert!(rt; options.may_run(1) && !options.may_run(0));
/// ```
#[derive(Clone, Copy, Debug, PartialEq, Eq)]
pub struct RunOptions {
    /// How many messages, each of up to [`MOST_TOGETHER`](cmd_queue::MOST_TOGETHER) commands or a
    /// close mark, may wait in the queue: 1 to [`MOST_CAPACITY`](cmd_queue::MOST_CAPACITY).
    pub capacity: usize,
    /// How many bytes one read asks for: 1 to [`MOST_PIECE`].
    pub piece: usize,
    /// The most entries of the journal: 1 to [`GREATEST_LIMIT`](cmd_journal::GREATEST_LIMIT).
    pub limit: u32,
    /// The most reads of one feed, at least 1.
    pub reads: u32,
}

impl RunOptions {
    /// Whether each option is in the range that its field names.
    pub fn are_in_range(self) -> bool
        ensures { IsTrue result ↔ AreInRange self }
    {
        is_capacity(self.capacity)
            && 1 <= self.piece
            && self.piece <= MOST_PIECE
            && is_limit(self.limit)
            && 1 <= self.reads
    }

    /// Whether a run of `readers` readers may have these options: each option is in its range, and there are 1 to
    /// [`MOST_SENDERS`](cmd_types::MOST_SENDERS) readers.
    pub fn may_run(self, readers: usize) -> bool
        ensures { IsTrue result ↔ MayRun readers self }
    {
        is_sender_count(readers) && self.are_in_range()
    }
}

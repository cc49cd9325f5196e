//! The limits by which a sender's thread reads its feed: the bytes of one read, and the number of reads.
ghost use Rattle.std.specs.Prelude.{◌<◌, ◌≤◌};
ghost use Rattle.cmd_options.specs.declared.options.TheConstants.{MOST_PIECE};

/// The most bytes of one read of a feed, from 1 to `MOST_PIECE`, and the most reads.
#[derive(Clone, Copy)]
pub struct Reading {
    /// The most bytes of one read.
    pub piece: usize,
    /// The most reads.
    pub reads: u32,

    ghost some: { 0 < piece },

    ghost few: { piece ≤ MOST_PIECE },
}

//! The fixed properties of a feed for its attendant: the feed's number, what is printed on it, and which commands wait.
ghost use Rattle.std.specs.Prelude.{◌≡◌, ◌+◌, IfOk};
ghost use Rattle.cmd_live.specs.Reading.{seconds_ahead};

use cmd_types::Memory;
use std::alloc::AllocError;

/// The fixed properties of a feed that its attendant needs.
#[derive(Clone, Copy)]
pub struct Care {
    /// The number of the feed, from 0.
    pub feed: u64,
    /// True for a feed that the call names, false for the clock feed.
    pub is_given: bool,
    /// Whether the error stream gets a line where the feed ends by a failed read or by too many reads.
    pub prints_ending: bool,
    /// The most seconds by which a command's time may be ahead of the system's clock before the command has to wait; 0
    /// for no bound.
    pub ahead: u32,
    /// The number of lines of the feed that were skipped, since earlier runs journaled them. The first line read has
    /// the number `passed` + 1.
    pub passed: u64,
}

impl Care {
    /// The number in the whole feed of the line with the number `line` among the lines read: the skipped lines count
    /// too. The error, out of memory, stands for a number above `u64::MAX`.
    pub fn number_of(self, line: u64) -> Result<u64, Memory>
        ensures { IfOk result (λ number. number ≡ self.passed + line) }
    {
        if line > u64::MAX - self.passed {
            return Err(AllocError);
        }
        Ok(self.passed + line)
    }

    /// The seconds by which a command's `time` is ahead of `clock`; 0 where that is at most `ahead`, so that the
    /// command need not wait. An `ahead` of 0 is a bound of 0 seconds here.
    pub fn seconds_ahead(self, time: u64, clock: u64) -> u64
        ensures { result ≡ seconds_ahead self.ahead time clock }
    {
        let past = time.saturating_sub(clock);
        if past <= u64::from(self.ahead) {
            0
        } else {
            past
        }
    }
}

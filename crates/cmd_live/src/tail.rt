//! Whether the text read of a feed ends in the middle of a line, so that its last line is torn. Carriage returns at the
//! end do not count.
ghost use Rattle.std.specs.Prelude.{◌≡◌, true, false, IfOk, OnErr};
ghost use Rattle.cmd_live.specs.Reading.{is_torn_after};

use cmd_dispatch::FeedFailed;
use cmd_types::without_returns;

/// The end of the text read so far: whether it is in the middle of a line.
#[derive(Clone, Copy)]
pub struct Tail {
    is_torn: bool,
}

impl Tail {
    /// The tail of a text without bytes, which is not torn.
    pub fn new() -> Tail
        ensures { result.is_torn ≡ false }
    {
        Tail { is_torn: false }
    }

    /// Updates the tail by the bytes that were read next. Bytes that are all carriage returns change nothing.
    pub fn note(&mut self, bytes: &[u8])
        ensures { self.new.is_torn ≡ is_torn_after self.old.is_torn bytes.now }
    {
        if let Some(last) = without_returns(bytes).last() {
            self.is_torn = *last != b'\n';
        }
    }

    /// The result of the last read of the text: 0 bytes after a whole line, or an error in the middle of a line, so
    /// that this line is refused as torn.
    pub fn end(self) -> Result<usize, FeedFailed>
        ensures whole { IfOk result (λ n. (n ≡ 0) × (self.is_torn ≡ false)) }
        ensures torn { OnErr result (self.is_torn ≡ true) }
    {
        if self.is_torn { Err(FeedFailed) } else { Ok(0) }
    }
}

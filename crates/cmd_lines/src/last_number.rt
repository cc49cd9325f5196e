//! Reads numbers, and remembers the last one that had ten digits. Most lines have the time of the line before, which is
//! then read by one comparison of bytes.

ghost use Rattle.std.specs.Prelude.{◌≡◌, ℕ, List, false, MatchOption};
ghost use Rattle.std.specs.Char.{is_ascii_digit};
ghost use Rattle.cmd_lines.specs.Leading.{LeadsTo};

use crate::leading::number_up_to;
use std::marker::Model;

/// How many bytes are remembered: the ten digits of a time between 2001 and 2286, and the byte after them.
const REMEMBERED: usize = 11;

/// A reader of numbers that remembers the last number of ten digits with its spelling. Where the same bytes come again,
/// the number costs 50 instructions, and by `number_up_to` 116. What is remembered changes no result.
///
/// ```
/// let mut last = LastNumber::new();
/// for bytes in [b"1700000000 a".as_slice(), b"1700000000 b"] {
///     let (time, _) = last.up_to(b' ', bytes).ok_or("a number and a space")?;
///     assert_eq!(rt; time, 1_700_000_000);
/// }
/// ```
#[derive(Drop)]
pub struct LastNumber {
    /// The digits, and the byte that ended them.
    spelled: [u8; REMEMBERED],
    number: u64,
}

impl Model for LastNumber {
    ghost use Rattle.std.specs.Prelude.{[], slice_index};
    ghost use Rattle.cmd_lines.specs.Leading.{LeadsTo, Remembered};

    ghost Value = { Remembered };

    ghost view = { λ l. record { spelled = l.spelled; number = l.number } };

    ghost invariant = { λ l. LeadsTo (slice_index l.spelled 10) l.spelled l.number [] };
}

impl LastNumber {
    /// A reader that remembers ten zeros. Takes no memory.
    pub fn new() -> LastNumber {
        LastNumber {
            spelled: *b"0000000000]",
            number: 0,
        }
    }

    /// The number that the bytes before the first `byte` spell, and the bytes after that byte, as
    /// [`number_up_to`](crate::number_up_to) returns them; `None` where these bytes spell no number, or there is no
    /// such byte (profile). Requires that `byte` is no digit. Takes no memory.
    pub fn up_to<'a>(&mut self, byte: u8, bytes: &'a [u8]) -> Option<(u64, &'a [u8])>
        requires { is_ascii_digit byte ≡ false }
        ensures { MatchOption result
            ((n : ℕ) (rest : List ℕ) → LeadsTo byte bytes.now n rest → ⊥)
            (λ x. LeadsTo byte bytes.now x.0 x.1.now) }
    {
        match bytes.strip_prefix(self.spelled.as_slice()) {
            Some(rest) if self.spelled[REMEMBERED - 1] == byte => Some((self.number, rest)),
            _ => self.read(byte, bytes),
        }
    }

    /// Reads a number as `number_up_to` does, and remembers it where it has ten digits.
    fn read<'a>(&mut self, byte: u8, bytes: &'a [u8]) -> Option<(u64, &'a [u8])>
        requires { is_ascii_digit byte ≡ false }
        ensures { MatchOption result
            ((n : ℕ) (rest : List ℕ) → LeadsTo byte bytes.now n rest → ⊥)
            (λ x. LeadsTo byte bytes.now x.0 x.1.now) }
    {
        let (number, rest) = number_up_to(byte, bytes)?;
        if bytes.len() - rest.len() == REMEMBERED {
            self.spelled.copy_from_slice(&bytes[..REMEMBERED]);
            self.number = number;
        }
        Some((number, rest))
    }
}

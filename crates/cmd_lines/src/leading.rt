//! Reads the number at the front of bytes, up to the byte that ends it. The result is borrowed from the bytes.

ghost use Rattle.std.specs.Prelude.{◌≡◌, ℕ, List, false, MatchOption};
ghost use Rattle.std.specs.Char.{is_ascii_digit};
ghost use Rattle.cmd_lines.specs.Leading.{LeadsTo};

use cmd_types::{GREATEST_NUMBER, MOST_DIGITS};

/// The number that the bytes before the first `byte` spell, and the bytes after that byte; `None` where
/// these bytes spell no number, or there is no such byte (profile). Requires that `byte` is no digit. Takes no
/// memory.
///
/// ```
/// let (place, rest) = number_up_to(b' ', b"007 [2]").ok_or("a number and a space")?;
/// assert_eq!(rt; place, 7);
/// assert_eq!(rt; rest, b"[2]".as_slice());
/// assert!(rt; number_up_to(b' ', b"x 7 ").is_none());
/// ```
pub fn number_up_to(byte: u8, bytes: &[u8]) -> Option<(u64, &[u8])>
    requires { is_ascii_digit byte ≡ false }
    ensures { MatchOption result
        ((n : ℕ) (rest : List ℕ) → LeadsTo byte bytes.now n rest → ⊥)
        (λ x. LeadsTo byte bytes.now x.0 x.1.now) }
{
    let mut rest = bytes;
    let mut digits = 0usize;
    let mut n = 0u64;
    'digits: while let [next, after @ ..] = rest {
        if !next.is_ascii_digit() {
            if *next != byte || digits == 0 || n > GREATEST_NUMBER {
                return None;
            }
            return Some((n, after));
        }
        if digits == MOST_DIGITS {
            return None;
        }
        n = n * 10 + u64::from(*next - b'0');
        digits += 1;
        rest = after;
    }
    None
}

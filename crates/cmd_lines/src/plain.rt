//! Reads the most frequent command, a check result of a service, in one step, where a line has the usual form: one
//! space after the time, and a code of one digit. No call takes memory.

ghost use Rattle.std.specs.Prelude.{◌≡◌, ◌∷◌, ℕ, Ok, IfSome};
ghost use Rattle.cmd_lines.specs.Reading.{name_at, behind};
ghost use Rattle.cmd_lines.specs.Plain.{shown};

use cmd_types::{cut, definitions_agree, has_no_return};

/// The bytes between the time and the host, with one space (External Commands).
const OPENING: &[u8] = b" PROCESS_SERVICE_CHECK_RESULT;";

/// The arguments of a check result of a service.
#[derive(Clone, Copy)]
pub struct Plain<'a> {
    pub host: &'a [u8],
    pub service: &'a [u8],
    pub code: u8,
    pub output: &'a [u8],
}

/// The name up to the first semicolon, and the bytes after that semicolon. `None` where there is no semicolon, or where
/// the name is empty or ends with a carriage return.
fn plain_name(bytes: &[u8]) -> Option<(&[u8], &[u8])>
    ensures { IfSome result (λ x. (n : ℕ) → name_at n (59 ∷ bytes.now) ≡ Ok (x.0.now, 59 ∷ x.1.now)) }
{
    let (name, rest) = cut(b';', bytes);
    let rest = rest?;
    if name.is_empty() || !has_no_return(name) {
        return None;
    }
    Some((name, rest))
}

/// The arguments of a check result of a service, read from the bytes after a time. `None` where the bytes have another
/// form: they may still spell a command, which `any_line` reads.
pub fn plain_result(after: &[u8]) -> Option<Plain<'_>>
    ensures { IfSome result (λ p. behind after.now ≡ Ok (shown p)) }
{
    // For the proof alone, at no cost when it runs: the opening is read as the name.
    definitions_agree();
    let rest = after.strip_prefix(OPENING)?;
    let (host, rest) = plain_name(rest)?;
    let (service, rest) = plain_name(rest)?;
    match rest {
        [code @ b'0'..=b'3', b';', output @ ..] => Some(Plain {
            host,
            service,
            code: *code - b'0',
            output,
        }),
        _ => None,
    }
}

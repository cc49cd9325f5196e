//! The line that shows a refused line: the path of its feed, its fault in words, and its first bytes.
ghost use Rattle.std.specs.Prelude.{◌≡◌, ◌++◌, OnOk};
ghost use Rattle.std.specs.List.{flat_map};
ghost use Rattle.cmd_explain.specs.Shown.{hex_digit, is_plain, shown_byte, shown_line};

use crate::meaning::put_fault_words;
use cmd_lines::LineFault;
use cmd_types::Memory;

/// The most bytes of a refused line that are shown (profile).
const MOST_SHOWN: usize = 120;

/// Whether the byte is shown unchanged: a letter, digit, sign or space of ASCII other than the backslash.
fn is_plain(byte: u8) -> bool
    ensures { result ≡ is_plain byte }
{
    byte >= b' ' && byte <= b'~' && byte != b'\\'
}

/// The lower-case hexadecimal digit of the number's last four bits.
fn hex_digit(number: u8) -> u8
    ensures { result ≡ hex_digit number }
{
    let digit = number % 16;
    if digit < 10 {
        b'0' + digit
    } else {
        b'a' - 10 + digit
    }
}

/// Appends a byte as it is shown: a plain byte unchanged, any other as `\xNN`. If memory runs out, a part may be in
/// `out`.
fn put_byte(out: &mut Vec<u8>, byte: u8) -> Result<(), Memory>
    ensures { OnOk result (out.new.items ≡ out.old.items ++ shown_byte byte) }
{
    if is_plain(byte) {
        out.push(byte)?;
        return Ok(());
    }
    out.extend_from_slice(&[b'\\', b'x', hex_digit(byte / 16), hex_digit(byte)])?;
    Ok(())
}

/// Appends each of the bytes as it is shown. If memory runs out, a part of them is in `out`.
fn put_bytes(out: &mut Vec<u8>, bytes: &[u8]) -> Result<(), Memory>
    ensures { OnOk result (out.new.items ≡ out.old.items ++ flat_map shown_byte bytes.now) }
{
    for byte in bytes {
        put_byte(out, *byte)?;
    }
    Ok(())
}

/// Appends the line that shows a refused line (profile): four spaces, the path of the feed, the fault in words, and the
/// first 120 bytes of the refused line, where each byte that is not plain ASCII is written `\xNN`. If memory runs out,
/// a part of the line is in `out`.
///
/// ```
/// let mut out = Vec::new(alloc);
/// let line = b"[7]\tRESTART_PROGRAM";
/// put_shown_line(&mut out, b"checks", LineFault::NoSpace, line)?;
/// let wanted = b"    checks: no space stands behind ]: [7]\\x09RESTART_PROGRAM\n";
/// assert_eq!(rt; out.as_slice(), wanted.as_slice());
/// ```
pub fn put_shown_line(
    out: &mut Vec<u8>,
    path: &[u8],
    fault: LineFault,
    line: &[u8],
) -> Result<(), Memory>
    ensures { OnOk result (out.new.items ≡ out.old.items ++ shown_line path.now fault line.now) }
{
    let shown = &line[..line.len().min(MOST_SHOWN)];
    out.extend_from_slice(b"    ")?;
    put_bytes(out, path)?;
    out.extend_from_slice(b": ")?;
    put_fault_words(out, fault)?;
    out.extend_from_slice(b": ")?;
    put_bytes(out, shown)?;
    out.push(b'\n')?;
    Ok(())
}

//! Divides an input at its separator lines. A bundle is an inventory text and feeds, with a separator before each feed;
//! the input of a replay is an inventory text, a separator and a journal. The texts are slices of the input.
ghost use Rattle.std.specs.Prelude.{◌≡◌, [], IfOk, map, option_map, unwrap_or};
ghost use Rattle.cmd_answer.specs.Parts.{is_separator, parts, divided};

use cmd_types::{Memory, TextLines, without_returns};
use std::alloc::Global;

/// Whether a line is a separator: three dashes, and then any number of carriage returns.
#[tactic(auto, unfolding(crate::specs::Parts::is_separator))]
fn is_separator(line: &[u8]) -> bool
    ensures { result ≡ is_separator line.now }
{
    without_returns(line) == b"---".as_slice()
}

/// The text after the last line that `lines` returned; empty where no line feed ended that line.
fn behind<'a>(lines: &TextLines<'a>) -> &'a [u8]
    ensures { result.now ≡ unwrap_or lines.now [] }
{
    match lines.rest() {
        Some(rest) => rest,
        None => &[],
    }
}

/// The parts of a bundle, in order: the inventory text, and then a feed after each separator (profile). The parts are
/// slices of `input`; an input without a separator has one part.
///
/// # Errors
/// Out of memory for the list of the parts.
///
/// ```
/// let Ok(texts) = parts(alloc, b"host;web;1;0;;\n---\n[1] RESTART_PROGRAM\n") else {
///     return Err(Fail::new("there is memory"));
/// };
/// assert_eq!(rt; texts.len(), 2);
/// assert_eq!(rt; texts[1], b"[1] RESTART_PROGRAM\n".as_slice());
/// ```
pub fn parts(alloc: Global, input: &[u8]) -> Result<Vec<&[u8]>, Memory>
    ensures { IfOk result (λ v. map (λ t. t.now) v.items ≡ parts input.now) }
{
    let mut texts = Vec::new(alloc);
    let mut lines = TextLines::new(input);
    // `part`: from the start of the current part to the end of the input. `ahead`: the input not yet scanned.
    let mut part = input;
    let mut ahead = input;
    'lines: while let Some(line) = lines.next() {
        let after = behind(&lines);
        if is_separator(line) {
            texts.push(&part[..part.len() - ahead.len()])?;
            part = after;
        }
        ahead = after;
    }
    texts.push(part)?;
    Ok(texts)
}

/// The text before the first separator and the text after it, both slices of `input`; `None` where there is no
/// separator (profile).
///
/// ```
/// let Some((inventory, journal)) = divided(b"host;web;1;0;;\n---\njournal;2\n") else {
///     return Err(Fail::new("there is a separator"));
/// };
/// assert_eq!(rt; inventory, b"host;web;1;0;;\n".as_slice());
/// assert_eq!(rt; journal, b"journal;2\n".as_slice());
/// ```
pub fn divided(input: &[u8]) -> Option<(&[u8], &[u8])>
    ensures { option_map (λ two. (two.0.now, two.1.now)) result ≡ divided input.now }
{
    let mut lines = TextLines::new(input);
    let mut ahead = input;
    'lines: while let Some(line) = lines.next() {
        let after = behind(&lines);
        if is_separator(line) {
            return Some((&input[..input.len() - ahead.len()], after));
        }
        ahead = after;
    }
    None
}

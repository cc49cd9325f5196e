//! Makes the explained text: each line of a text, and after each known line a line with its meaning.
ghost use Rattle.std.specs.Prelude.{◌≡◌, ◌<◌, ◌++◌, ◌∷◌, [], IfOk, OnSome, MatchOption};
ghost use Rattle.cmd_types.specs.TextLines.{left, lines_left};
ghost use Rattle.cmd_explain.specs.Explained.{line_by_path, known_line, is_known, whole_lines, shown_lines, ended, explained, is_all_known};

use crate::kinds::kind_of;
use crate::known::{KnownLine, line_of};
use crate::meaning::put_meaning;
use crate::parts::parts_of;
use crate::times::times_of;
use cmd_types::{Memory, TextLines, without_returns};
use std::alloc::Global;

/// What a line that names a file says, where the path may be any bytes; `None` for any other line.
fn line_by_path(line: &[u8]) -> Option<KnownLine>
    ensures { result ≡ line_by_path line.now }
{
    if line.starts_with(b"gateway: open ") {
        return Some(KnownLine::Open);
    }
    if !line.starts_with(b"gateway: feed ") {
        return None;
    }
    if line.ends_with(b": not there") {
        Some(KnownLine::Absent { is_there: false })
    } else if line.ends_with(b": not opened") {
        Some(KnownLine::Absent { is_there: true })
    } else {
        None
    }
}

/// Returns what a line that the program prints says; `None` for any other line. `line` has no line feed (profile).
///
/// # Errors
/// Out of memory.
///
/// ```
/// let known = known_line(alloc, b"gateway: feed 3: replaced");
/// assert_eq!(rt; known, Ok(Some(KnownLine::Replaced { feed: 3 })));
/// assert_eq!(rt; known_line(alloc, b"clock;1200"), Ok(None));
/// ```
#[tactic(auto, unfolding(crate::specs::Explained::known_line))]
pub fn known_line(alloc: Global, line: &[u8]) -> Result<Option<KnownLine>, Memory>
    ensures { IfOk result (λ known. known ≡ known_line line.now) }
{
    if let Some(known) = line_by_path(line) {
        return Ok(Some(known));
    }
    if let Some(withheld) = times_of(line) {
        return Ok(Some(KnownLine::Times { withheld }));
    }
    let Some(parts) = parts_of(alloc, line)? else {
        return Ok(None);
    };
    match kind_of(&parts.form) {
        Some(kind) => Ok(line_of(kind, &parts.numbers)),
        None => Ok(None),
    }
}

/// Appends the line; if it is known, also a line of four blanks and its meaning. Carriage returns at the end of the
/// line do not count. Returns whether the line is known. If memory runs out, a part of these lines is in `out`.
fn put_explained(alloc: Global, out: &mut Vec<u8>, line: &[u8]) -> Result<bool, Memory>
    ensures { IfOk result (λ known. (known ≡ is_known line.now) × (out.new.items ≡ out.old.items ++ ended (shown_lines (line.now ∷ [])))) }
{
    out.extend_from_slice(line)?;
    out.push(b'\n')?;
    match known_line(alloc, without_returns(line))? {
        Some(known) => {
            out.extend_from_slice(b"    ")?;
            put_meaning(out, known)?;
            out.push(b'\n')?;
            Ok(true)
        }
        None => Ok(false),
    }
}

/// Returns the next line of a text, without its line feed; `None` at the end of the text. An empty last line without a
/// line feed counts as the end.
fn next_line<'a>(lines: &mut TextLines<'a>) -> Option<&'a [u8]>
    ensures line { MatchOption result
        (whole_lines (lines_left lines.old) ≡ [])
        (λ line. whole_lines (lines_left lines.old) ≡ line.now ∷ whole_lines (lines_left lines.new)) }
    ensures fewer { OnSome result (left lines.new < left lines.old) }
{
    let line = lines.next()?;
    if line.is_empty() && lines.rest().is_none() {
        return None;
    }
    Some(line)
}

/// The explained text, and whether each line of `text` is known, that is, of a form that the program prints (profile).
/// The explained text has each line unchanged, with a line feed added to the last one if it has none. After each known
/// line it has a line with its meaning.
///
/// # Errors
/// Out of memory.
///
/// ```
/// let Ok((text, is_known)) = explain(alloc, b"refused;0;2;3;0\n") else {
///     return Err(Fail::new("there is memory"));
/// };
/// assert_eq!(rt;
///     text.as_slice(),
///     b"refused;0;2;3;0\n    line 2 of feed 0 is no command: it does not begin with [\n".as_slice()
/// );
/// assert!(rt; is_known);
/// ```
pub fn explain(alloc: Global, text: &[u8]) -> Result<(Vec<u8>, bool), Memory>
    ensures { IfOk result (λ x. (x.0.items ≡ explained text.now) × (x.1 ≡ is_all_known text.now)) }
{
    let mut out = Vec::new(alloc);
    let mut is_known = true;
    let mut lines = TextLines::new(text);
    'lines: while let Some(line) = next_line(&mut lines) {
        is_known = put_explained(alloc, &mut out, line)? && is_known;
    }
    Ok((out, is_known))
}

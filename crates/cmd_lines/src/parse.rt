//! Reads one line: its time and its command, or the `LineFault` of the first test that the line fails. Texts are copied
//! after all tests, so a line at fault takes no memory.

ghost use Rattle.std.specs.Prelude.{◌≡◌, ◌≢◌, IfOk, IfErr};
ghost use Rattle.cmd_types.specs.Bytes.{Lacks, without_returns};
ghost use Rattle.cmd_types.specs.Spelling.{Timed, Spells};
ghost use Rattle.cmd_types.specs.Table.{apart};
ghost use Rattle.cmd_lines.specs.Reading.{Gives, Copies, FitsBehind, time_at, stamp_at, spaced, named_at, behind, parts, reading};
ghost use Rattle.cmd_lines.specs.FirstFault.{IsFirstFault};
ghost use Rattle.cmd_lines.specs.declared.fault.LineFault.TheVariants.{Torn, Memory};

use crate::command::command_of;
use crate::fault::LineFault;
use crate::last_number::LastNumber;
use crate::plain::plain_result;
use crate::split::{split_before, without_spaces};
use cmd_types::{Command, CommandName, LONGEST_LINE, Stamped, Text, definitions_agree};
use std::alloc::Global;

/// The time in seconds, in brackets at the front of a line, and the bytes after the closing bracket. The error is
/// `NoBracket` or `BadTime`.
#[tactic(auto, unfolding(crate::specs::Reading::time_at))]
fn time_of<'a>(line: &'a [u8], last: &mut LastNumber) -> Result<(u64, &'a [u8]), LineFault>
    ensures { Gives (λ x. (x.0, x.1.now)) result (time_at line.now) }
{
    // For the proof alone, at no cost when it runs: a number has no bracket, so the first bracket ends it.
    definitions_agree();
    let [b'[', bytes @ ..] = line else {
        return Err(LineFault::NoBracket);
    };
    last.up_to(b']', bytes).ok_or(LineFault::BadTime)
}

/// The result of `time_of` for a line of at most `LONGEST_LINE` bytes; the error `TooLong` for a longer line.
#[tactic(auto, unfolding(crate::specs::Reading::stamp_at))]
fn stamp_of<'a>(line: &'a [u8], last: &mut LastNumber) -> Result<(u64, &'a [u8]), LineFault>
    ensures { Gives (λ x. (x.0, x.1.now)) result (stamp_at line.now) }
{
    if line.len() > LONGEST_LINE {
        return Err(LineFault::TooLong);
    }
    time_of(line, last)
}

/// The bytes after the spaces that follow the time; the error `NoSpace` where no space follows.
#[tactic(auto, unfolding(crate::specs::Reading::spaced))]
fn spaced(bytes: &[u8]) -> Result<&[u8], LineFault>
    ensures { Gives (λ x. x.now) result (spaced bytes.now) }
{
    match bytes {
        [b' ', after @ ..] => Ok(without_spaces(after)),
        _ => Err(LineFault::NoSpace),
    }
}

/// The name of the command, read from the bytes after a time, and the bytes from the semicolon after the name on. The
/// error is `NoSpace` or `UnknownCommand`.
#[tactic(auto, unfolding(crate::specs::Reading::named_at))]
fn named(after: &[u8]) -> Result<(CommandName, &[u8]), LineFault>
    ensures { Gives (λ x. (x.0, x.1.now)) result (named_at after.now) }
{
    let bytes = spaced(after)?;
    let (name, arguments) = split_before(b';', bytes);
    match CommandName::find(name) {
        Some(name) => Ok((name, arguments)),
        None => Err(LineFault::UnknownCommand),
    }
}

/// Reads any command from `after`, the bytes of a line after its time, and joins it with `time`; or returns the first
/// fault. Never inlined, so that `read_line` has few large values.
#[inline(never)]
#[tactic(auto, unfolding(crate::specs::Reading::behind))]
fn any_line(alloc: Global, time: u64, after: &[u8]) -> Result<Stamped, LineFault>
    requires { FitsBehind time after.now }
    ensures read { Copies (λ t. apart t.command) result (behind after.now) }
    ensures time { IfOk result (λ t. t.time ≡ time) }
{
    let (name, arguments) = named(after)?;
    let command = command_of(alloc, name, arguments)?;
    Ok(Stamped::well_formed(time, command))
}

/// Reads one line: its time and command, or the first test that the line fails. The most frequent command is read at
/// once, all others by `any_line`. Requires a line without its ending. `Memory` only for a line that spells a command.
pub fn read_line(alloc: Global, line: &[u8], last: &mut LastNumber) -> Result<Stamped, LineFault>
    requires one_line { Lacks 10 line.now }
    requires no_return { without_returns line.now ≡ line.now }
    ensures { Copies (λ t. parts t) result (reading line.now) }
{
    // For the proof alone, at no cost when it runs: what is read is what the line spells, so it is well formed.
    definitions_agree();
    let (time, after) = stamp_of(line, last)?;
    let Some(plain) = plain_result(after) else {
        return any_line(alloc, time, after);
    };
    let host = Text::from_slice(alloc, plain.host)?;
    let service = Text::from_slice(alloc, plain.service)?;
    let output = Text::from_slice(alloc, plain.output)?;
    Ok(Stamped::well_formed(
        time,
        Command::ProcessServiceCheckResult {
            host,
            service,
            code: plain.code,
            output,
        },
    ))
}

/// The command that one line spells, with its time (External Commands; the order of the tests and the limits are the
/// profile's).
///
/// Requires the line without its ending: no line feed, and no carriage return at the end.
/// [`without_returns`](cmd_types::without_returns) removes these carriage returns, and [`lacks`](cmd_types::lacks)
/// tests for a line feed.
///
/// # Errors
/// The first test that the line fails, which is never [`LineFault::Torn`], and takes no memory; or
/// [`LineFault::Memory`], only for a line that spells a command.
///
/// ```
/// let line = b"[007]  DEL_ALL_HOST_COMMENTS;web;more".as_slice();
/// assert!(rt; lacks(b'\n', line) && has_no_return(line));
/// let stamped = parse_line(alloc, line)?;
/// assert_eq!(rt; stamped.time(), 7);
/// ```
pub fn parse_line(alloc: Global, line: &[u8]) -> Result<Stamped, LineFault>
    requires one_line { Lacks 10 line.now }
    requires no_return { without_returns line.now ≡ line.now }
    ensures spelled { IfOk result (λ t. Spells line.now t) }

    // Out of memory aside, the fault is the first one of the line, and the line spells nothing.
    ensures first_fault { IfErr result (λ f. f ≢ Memory → IsFirstFault line.now f) }
    ensures nothing_spelled { IfErr result (λ f. f ≢ Memory → (t : Timed) → Spells line.now t → ⊥) }
    // Texts are copied after all tests: if memory runs out, the line has no fault.
    ensures memory { IfErr result (λ f. f ≡ Memory → (t : Timed) × Spells line.now t) }
    ensures never_torn { IfErr result (λ f. f ≢ Torn) }
{
    parse_next(alloc, line, &mut LastNumber::new())
}

/// Returns what [`parse_line`] returns, faster where the line has the time that `last` read last, as most lines of a
/// feed have. Requires what `parse_line` requires.
///
/// # Errors
/// Those of `parse_line`.
///
/// ```
/// let mut last = LastNumber::new();
/// let line = b"[1700000000] RESTART_PROGRAM".as_slice();
/// assert!(rt; lacks(b'\n', line) && has_no_return(line));
/// let stamped = parse_next(alloc, line, &mut last)?;
/// assert_eq!(rt; stamped.time(), 1_700_000_000);
/// ```
pub fn parse_next(alloc: Global, line: &[u8], last: &mut LastNumber) -> Result<Stamped, LineFault>
    requires one_line { Lacks 10 line.now }
    requires no_return { without_returns line.now ≡ line.now }
    ensures spelled { IfOk result (λ t. Spells line.now t) }

    // Out of memory aside, the fault is the first one of the line, and the line spells nothing.
    ensures first_fault { IfErr result (λ f. f ≢ Memory → IsFirstFault line.now f) }
    ensures nothing_spelled { IfErr result (λ f. f ≢ Memory → (t : Timed) → Spells line.now t → ⊥) }
    // Texts are copied after all tests: if memory runs out, the line has no fault.
    ensures memory { IfErr result (λ f. f ≡ Memory → (t : Timed) × Spells line.now t) }
    ensures never_torn { IfErr result (λ f. f ≢ Torn) }
{
    // For the proof alone, at no cost when it runs: what is read is what the line spells, and what is not read spells
    // nothing.
    definitions_agree();
    read_line(alloc, line, last)
}

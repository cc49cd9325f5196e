//! The item of one line: its command, or the fault for which the line is no command. The only `Err` is out of memory,
//! and only for a line that spells a command.
ghost use Rattle.std.specs.Prelude.{◌≡◌, ◌≢◌, ◌<◌, ◌∷◌, [], ◌++◌, length, true, IfOk, IfSome, OnErr, vec_len, vec_capacity};
ghost use Rattle.std.specs.Option.{option_to_list};
ghost use Rattle.cmd_types.specs.Bytes.{Lacks};
ghost use Rattle.cmd_types.specs.Spelling.{Timed};
ghost use Rattle.cmd_lines.specs.declared.fault.LineFault.TheVariants as faults;
ghost use Rattle.cmd_lines.specs.declared.item.Item.TheVariants as item;
ghost use Rattle.cmd_lines.specs.Items.{item_of, last_items, IsOfText};
ghost use Rattle.cmd_lines.specs.Reader.{IsPut};
ghost use Rattle.cmd_lines.specs.Steps.{IsWhole};
ghost use Rattle.cmd_lines.specs.Unfinished.{in_place};

use crate::fault::LineFault;
use crate::item::{Item, Put};
use crate::last_number::LastNumber;
use crate::parse::read_line;
use crate::phase::Phase;
use cmd_types::{LONGEST_LINE, Memory, Stamped, definitions_agree, without_returns};
use std::alloc::{AllocError, Global};

/// Returns `fault`, except that `LineFault::Memory`, which is no fault of a line, is the `Err`.
fn refusal(fault: LineFault) -> Result<LineFault, Memory>
    ensures fault { IfOk result (λ f. (f ≡ fault) × (fault ≢ faults.Memory)) }
    ensures memory { OnErr result (fault ≡ faults.Memory) }
{
    match fault {
        LineFault::Memory => Err(AllocError),
        _ => Ok(fault),
    }
}

/// Reads line `number`, which is not empty, and appends its command to `commands`. For a line at fault, and if memory
/// runs out, `commands` is unchanged. Requires that `commands` has room for one more command.
pub fn put_at(
    alloc: Global,
    number: u64,
    line: &[u8],
    last: &mut LastNumber,
    commands: &mut Vec<Stamped>,
) -> Result<Put, Memory>
    requires whole { IsWhole line.now }
    requires room { vec_len commands.old < vec_capacity commands.old }
    ensures put { IfOk result (λ p. IsPut p (item_of number line.now) commands.old.items commands.new.items) }
    ensures of_text { IfOk result (λ _. IsOfText (item_of number line.now)) }
    ensures capacity { vec_capacity commands.new ≡ vec_capacity commands.old }
    ensures memory { OnErr result ((t : Timed) × (item_of number line.now ≡ item.Command t)) }
    ensures err { OnErr result (commands.new.items ≡ commands.old.items) }
{
    // For the proof alone, at no cost when it runs: a line spells at most one command, and one of no more than its
    // bytes.
    definitions_agree();
    match read_line(alloc, line, last) {
        Ok(stamped) => {
            commands.push_reserved(stamped);
            Ok(Put::Command)
        }
        Err(fault) => {
            let fault = refusal(fault)?;
            Ok(Put::Refused {
                line: number,
                fault,
            })
        }
    }
}

/// Reads line `number`, which is not empty: returns its command, or its fault with the number.
pub fn item_at(
    alloc: Global,
    number: u64,
    line: &[u8],
    last: &mut LastNumber,
) -> Result<Item, Memory>
    requires { IsWhole line.now }
    ensures value { IfOk result (λ i. i ≡ item_of number line.now) }
    ensures of_text { IfOk result IsOfText }
    ensures memory { OnErr result ((t : Timed) × (item_of number line.now ≡ item.Command t)) }
{
    // For the proof alone, at no cost when it runs: a line spells at most one command, and one of no more than its
    // bytes.
    definitions_agree();
    match read_line(alloc, line, last) {
        Ok(stamped) => Ok(Item::Command(stamped)),
        Err(fault) => {
            let fault = refusal(fault)?;
            Ok(Item::Refused {
                line: number,
                fault,
            })
        }
    }
}

/// The item of the unfinished last line, of which `rest` is kept; `TooLong` if bytes of it were dropped (`lost`).
/// `None` while the text may still grow, and for an empty line. Where the text broke off, the item is a refused line.
pub fn rest_item(
    alloc: Global,
    phase: Phase,
    number: u64,
    rest: &[u8],
    lost: bool,
) -> Result<Option<Item>, Memory>
    requires one { Lacks 10 rest.now }
    requires long { lost ≡ true → LONGEST_LINE < length rest.now }
    ensures value { IfOk result (λ o. last_items phase number (rest.now ++ in_place lost) ≡ option_to_list o) }
    ensures of_text { IfOk result (λ o. IfSome o IsOfText) }
    ensures some { IfOk result (λ o. IfSome o (λ _. 0 < length (rest.now ++ in_place lost))) }
    ensures memory { OnErr result ((t : Timed) × (last_items phase number (rest.now ++ in_place lost) ≡ item.Command t ∷ [])) }
{
    // For the proof alone, at no cost when it runs: a line of which bytes were dropped is too long.
    definitions_agree();
    if !lost {
        return last_item(alloc, phase, number, rest);
    }
    match phase {
        Phase::Open => Ok(None),
        _ => Ok(Some(Item::Refused {
            line: number,
            fault: LineFault::TooLong,
        })),
    }
}

/// The item of the unfinished last line `rest`, of which no byte was dropped. `None` while the text may still grow, and
/// for an empty line; `TooLong` or `Torn` where the text broke off.
fn last_item(alloc: Global, phase: Phase, number: u64, rest: &[u8]) -> Result<Option<Item>, Memory>
    requires { Lacks 10 rest.now }
    ensures value { IfOk result (λ o. last_items phase number rest.now ≡ option_to_list o) }
    ensures of_text { IfOk result (λ o. IfSome o IsOfText) }
    ensures some { IfOk result (λ o. IfSome o (λ _. 0 < length rest.now)) }
    ensures memory { OnErr result ((t : Timed) × (last_items phase number rest.now ≡ item.Command t ∷ [])) }
{
    let line = without_returns(rest);
    if line.is_empty() {
        return Ok(None);
    }
    match phase {
        Phase::Open => Ok(None),
        Phase::Finished => {
            let item = item_at(alloc, number, line, &mut LastNumber::new())?;
            Ok(Some(item))
        }
        Phase::CutOff => {
            let fault = if line.len() > LONGEST_LINE {
                LineFault::TooLong
            } else {
                LineFault::Torn
            };
            Ok(Some(Item::Refused {
                line: number,
                fault,
            }))
        }
    }
}

//! Splits a line into its form, the line with each number written as 0, and its numbers.
ghost use Rattle.std.specs.Prelude.{◌≡◌, ◌<◌, ◌≤◌, ◌++◌, true, false, IfSome, IfOk, OnOk, MatchOption, is_some};
ghost use Rattle.cmd_types.specs.declared.limits.TheConstants.{GREATEST_NUMBER};
ghost use Rattle.cmd_explain.specs.Parts.{form, number_on, number_before, numbers, zero_before, are_small};

use cmd_types::{GREATEST_NUMBER, Memory};
use std::alloc::Global;

/// The form and the numbers of a line.
#[derive(Drop)]
pub struct LineParts {
    /// The line with each number written as 0.
    pub form: Vec<u8>,
    /// The numbers of the line, in order.
    pub numbers: Vec<u64>,
}

/// The number `before` with one more digit, or `digit` alone where `before` is `None`; returns `None` where that is
/// above [`GREATEST_NUMBER`].
fn with_digit(before: Option<u64>, digit: u64) -> Option<u64>
    requires small { IfSome before (λ n. n ≤ GREATEST_NUMBER) }
    requires digit { digit ≤ 9 }
    ensures { MatchOption result (GREATEST_NUMBER < number_on before digit) (λ n. (n ≡ number_on before digit) × (n ≤ GREATEST_NUMBER)) }
{
    let number = match before {
        None => digit,
        Some(number) => number * 10 + digit,
    };
    if number > GREATEST_NUMBER {
        None
    } else {
        Some(number)
    }
}

/// Appends the 0 of a number to `form` at the number's first digit, where `before` is `None`; else does nothing. If
/// memory runs out, `form` is unchanged.
fn put_zero(form: &mut Vec<u8>, before: Option<u64>) -> Result<(), Memory>
    ensures { OnOk result (form.new.items ≡ form.old.items ++ zero_before (is_some before)) }
{
    if before.is_none() {
        form.push(b'0')?;
    }
    Ok(())
}

/// Appends the number `before`, which has ended, to `numbers`; does nothing where `before` is `None`. If memory runs
/// out, `numbers` is unchanged.
fn put_number(numbers: &mut Vec<u64>, before: Option<u64>) -> Result<(), Memory>
    ensures { OnOk result (numbers.new.items ≡ numbers.old.items ++ number_before before) }
{
    if let Some(number) = before {
        numbers.push(number)?;
    }
    Ok(())
}

/// The form and the numbers of a line; `None` where one of its numbers is greater than [`GREATEST_NUMBER`]. Fails if
/// memory runs out.
pub fn parts_of(alloc: Global, line: &[u8]) -> Result<Option<LineParts>, Memory>
    ensures { IfOk result (λ o. MatchOption o (are_small (numbers line.now) ≡ false)
        (λ parts. (are_small (numbers line.now) ≡ true) × (parts.form.items ≡ form line.now) × (parts.numbers.items ≡ numbers line.now))) }
{
    let mut form = Vec::with_capacity(alloc, line.len())?;
    let mut numbers = Vec::new(alloc);
    let mut open = None;
    for byte in line {
        if byte.is_ascii_digit() {
            put_zero(&mut form, open)?;
            let Some(number) = with_digit(open, u64::from(*byte - b'0')) else {
                return Ok(None);
            };
            open = Some(number);
        } else {
            form.push(*byte)?;
            put_number(&mut numbers, open)?;
            open = None;
        }
    }
    put_number(&mut numbers, open)?;
    Ok(Some(LineParts { form, numbers }))
}

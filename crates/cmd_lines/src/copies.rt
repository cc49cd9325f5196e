//! Copies the texts of a command in one call: all texts, or no text if memory runs out. So each arm of a match over all
//! commands has one call that may run out of memory, and then no text to drop.

ghost use Rattle.std.specs.Prelude.{◌≡◌, IfOk};

use cmd_types::{Memory, Text};
use std::alloc::Global;

/// Copies two slices into texts, in order. If memory runs out, a copy already made is dropped.
pub fn two_texts(alloc: Global, one: &[u8], two: &[u8]) -> Result<(Text, Text), Memory>
    ensures { IfOk result (λ t. t ≡ (one.now, two.now)) }
{
    let one = Text::from_slice(alloc, one)?;
    let two = Text::from_slice(alloc, two)?;
    Ok((one, two))
}

/// Copies three slices into texts, in order. If memory runs out, the copies already made are dropped.
pub fn three_texts(
    alloc: Global,
    one: &[u8],
    two: &[u8],
    three: &[u8],
) -> Result<(Text, Text, Text), Memory>
    ensures { IfOk result (λ t. t ≡ (one.now, two.now, three.now)) }
{
    let one = Text::from_slice(alloc, one)?;
    let two = Text::from_slice(alloc, two)?;
    let three = Text::from_slice(alloc, three)?;
    Ok((one, two, three))
}

/// Copies four slices into texts, in order. If memory runs out, the copies already made are dropped.
pub fn four_texts(
    alloc: Global,
    one: &[u8],
    two: &[u8],
    three: &[u8],
    four: &[u8],
) -> Result<(Text, Text, Text, Text), Memory>
    ensures { IfOk result (λ t. t ≡ (one.now, two.now, three.now, four.now)) }
{
    let one = Text::from_slice(alloc, one)?;
    let two = Text::from_slice(alloc, two)?;
    let three = Text::from_slice(alloc, three)?;
    let four = Text::from_slice(alloc, four)?;
    Ok((one, two, three, four))
}

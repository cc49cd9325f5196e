//! Copies the texts of a command in one call: all texts, or no text if memory runs out. So each arm of a match over all
//! commands has one call that may run out of memory, and then no text to drop.

ghost use Rattle.std.specs.Prelude.{◌≡◌, IfOk};

use crate::memory::Memory;
use crate::text::Text;

/// Copies of two texts, in order. If memory runs out, a copy already made is dropped.
pub fn two_texts(one: &Text, two: &Text) -> Result<(Text, Text), Memory>
    ensures { IfOk result (λ t. t ≡ (one.now, two.now)) }
{
    Ok((one.clone()?, two.clone()?))
}

/// Copies of three texts, in order. If memory runs out, the copies already made are dropped.
pub fn three_texts(one: &Text, two: &Text, three: &Text) -> Result<(Text, Text, Text), Memory>
    ensures { IfOk result (λ t. t ≡ (one.now, two.now, three.now)) }
{
    Ok((one.clone()?, two.clone()?, three.clone()?))
}

/// Copies of four texts, in order. If memory runs out, the copies already made are dropped.
pub fn four_texts(
    one: &Text,
    two: &Text,
    three: &Text,
    four: &Text,
) -> Result<(Text, Text, Text, Text), Memory>
    ensures { IfOk result (λ t. t ≡ (one.now, two.now, three.now, four.now)) }
{
    Ok((one.clone()?, two.clone()?, three.clone()?, four.clone()?))
}

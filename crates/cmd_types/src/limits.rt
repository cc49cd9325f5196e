//! The limits of a line and of a number.

/// The greatest number that a line or an inventory may have, 2^40 - 1: a choice. Sums of a few such numbers, such as a
/// time and a duration, stay far below 2^64 (profile).
pub const GREATEST_NUMBER: u64 = 1_099_511_627_775;

/// The most digits that a number may have, leading zeros included: as many as [`GREATEST_NUMBER`] has. So each number
/// can be written, and a value of 13 digits is far below 2^64 (profile).
pub const MOST_DIGITS: usize = 13;

/// The most bytes that a line may have without its ending: a choice, which bounds the memory for a line that never ends
/// (profile).
pub const LONGEST_LINE: usize = 8_192;

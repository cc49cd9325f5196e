//! The limits on the numbers of records of an inventory (profile). A line that would exceed one of them has the fault
//! [`Cause::TooMany`](crate::Cause::TooMany).

/// The greatest number of objects (hosts and services together): a choice. A count of objects fits the 12 bits that the
/// atomic word of a board of live figures has for it.
pub const MOST_OBJECTS: usize = 4_095;

/// The greatest number of contacts: a choice. Their count and each index fit 16 bits.
pub const MOST_CONTACTS: usize = 1_023;

/// The greatest number of escalations: a choice. Each index fits 16 bits.
pub const MOST_ESCALATIONS: usize = 4_095;

//! The wait of a reader that checks at intervals whether there are more bytes.
use std::thread;
use std::time::{Clock, Duration};

/// The checks for new bytes that a waiting reader makes in a second: a choice.
pub const LOOKS_A_SECOND: u64 = 4;

/// The milliseconds between two checks.
const BETWEEN: u64 = 1_000 / LOOKS_A_SECOND;

/// Blocks the thread for the time between two checks.
///
/// Believed: the thread takes no processor time meanwhile (premise 9; follow-file).
pub fn pause<R: Clock>(rt: &R) {
    thread::sleep(rt, Duration::from_millis(BETWEEN));
}

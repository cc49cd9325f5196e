//! The item of a line that is not empty: its command or its fault.

use crate::fault::LineFault;
use cmd_types::Stamped;

/// The item of a line that is not empty (External Commands): the command that the line spells, or its first fault. An
/// empty line has no item, but counts in the line numbers (profile).
///
/// ```
/// let mut lines = Lines::new(alloc);
/// lines.feed(alloc, b"[2] RESTART_PROGRAM\nx")?;
/// lines.finish();
/// let Some(Item::Command(stamped)) = lines.next_item(alloc)? else {
///     return Err(Fail::new("the first line is a command"));
/// };
/// assert_eq!(rt; stamped.time(), 2);
/// let Some(Item::Refused { line, fault }) = lines.next_item(alloc)? else {
///     return Err(Fail::new("the second line is none"));
/// };
/// assert_eq!(rt; (line, fault), (2, LineFault::NoBracket));
/// ```
#[derive(Drop)]
pub enum Item {
    /// The command with its time.
    Command(Stamped),
    /// A refused line: its number in its text, from 1, and its fault.
    Refused { line: u64, fault: LineFault },
}

/// The result of [`next_into`](crate::Lines::next_into): what the next item is (profile).
///
/// ```
/// let mut lines = Lines::new(alloc);
/// lines.feed(alloc, b"[2] RESTART_PROGRAM\nx\n")?;
/// let mut commands = Vec::with_capacity(alloc, 2)?;
/// let put = lines.next_into(alloc, &mut commands)?;
/// assert_eq!(rt; put, Some(Put::Command));
/// assert_eq!(rt; commands.len(), 1);
/// assert_eq!(rt; commands[0].time(), 2);
/// let put = lines.next_into(alloc, &mut commands)?;
/// let fault = LineFault::NoBracket;
/// assert_eq!(rt; put, Some(Put::Refused { line: 2, fault }));
/// ```
#[derive(Clone, Copy, Debug, PartialEq, Eq)]
pub enum Put {
    /// The item is a command, which was appended to the commands.
    Command,
    /// The item is a refused line: its number in its text, from 1, and its fault. The commands are unchanged.
    Refused { line: u64, fault: LineFault },
}

//! The results of the dispatcher's calls: commands and close marks. The lists in contracts consist of these.
use crate::row::TakenRow;
use cmd_types::Entry;

/// The result of [`take`](crate::DispatcherSide::take): a command as an entry, or a close mark with the sender's number
/// and the number of its commands (profile).
///
/// See the example of [`queue`].
#[derive(Drop)]
pub enum Taken {
    Command(Entry),
    Closed { sender: u16, count: u64 },
}

/// The result of [`take_many`](crate::DispatcherSide::take_many): a command, a row of commands of one sender, or a
/// close mark with the sender's number and the number of its commands (profile).
///
/// ```
/// let Ok(stamped) = Stamped::new(7, Command::RestartProgram) else {
///     return Err(Fail::new("it has no text"));
/// };
/// let (mut sides, mut dispatcher) = queue(&rt, alloc, 1, 4)?;
/// assert_eq!(rt; sides[0].sent(), 0);
/// assert!(rt; sides[0].submit(&rt, stamped).is_ok());
/// let Ok(TakenMessage::One(entry)) = dispatcher.take_many(&rt) else {
///     return Err(Fail::new("it is taken alone"));
/// };
/// assert_eq!(rt; (entry.sender, entry.place), (0, 1));
/// ```
#[derive(Drop)]
pub enum TakenMessage {
    One(Entry),
    Row(TakenRow),
    Closed { sender: u16, count: u64 },
}

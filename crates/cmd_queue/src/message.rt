//! The message that moves through the channel. Callers do not see it.
use crate::row::Batch;
use cmd_types::Entry;

/// One message: the command of one entry, 1 to `MOST_TOGETHER` commands of one sender in a row, or a sender's
/// close mark with the number of its commands.
#[derive(Drop)]
pub enum Message {
    One(Entry),
    Many(Batch),
    Mark { sender: u16, count: u64 },
}

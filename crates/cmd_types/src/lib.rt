//! Nagios external commands with their times: what each command carries, which commands are well formed, and the
//! canonical line of each. The table of the commands is in `command_name`, and its definition in `specs/Table.antt`.
#![tactic(auto)]

mod argument;
mod bytes;
mod command;
mod command_name;
mod copies;
mod counts;
mod cutting;
mod entry;
mod laws;
mod limits;
mod memory;
mod names;
mod number;
mod numbers;
mod stamped;
mod text;
mod text_lines;

pub use bytes::{has_no_return, lacks, without_returns};
pub use command::Command;
pub use command_name::CommandName;
pub use counts::{Membership, recounted};
pub use cutting::cut;
pub use entry::{Entry, MOST_SENDERS, is_sender_count};
pub use laws::definitions_agree;
pub use limits::{GREATEST_NUMBER, LONGEST_LINE, MOST_DIGITS};
pub use memory::Memory;
pub use names::{Names, Target};
pub use number::number_of;
pub use numbers::Numbers;
pub use stamped::Stamped;
pub use text::Text;
pub use text_lines::TextLines;

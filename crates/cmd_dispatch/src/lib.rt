//! Many feeds at once: a thread for each sends its commands through one queue, and the dispatcher applies and journals
//! them. On every schedule the journal of a report has of each feed exactly the commands of the text that its reader
//! delivered (`specs/Runs.antt`).
#![tactic(auto)]

mod attendant;
mod board;
mod board_rule;
mod checkpoint;
mod counting;
mod dispatch;
mod feed;
mod feeding;
mod following;
mod journaling;
mod keeping;
mod laws;
mod log;
mod logged;
mod making;
mod reading;
mod report;
mod reporter;
mod running;
mod sender;
mod stop;
mod storing;
mod teller;
mod telling;
mod threads;
mod unkept;
mod watching;
mod word;

pub use attendant::Attendant;
pub use board::{Board, BoardReader, BoardWriter};
pub use checkpoint::{Checkpoint, OneSegment};
pub use cmd_options::{MOST_PIECE, RunOptions};
pub use cmd_run::{Ending, RunCause, RunFault, SenderReport};
pub use feed::{Bytes, Feed, FeedFailed, LONGEST_MADE, Outside};
pub use feeding::{Audience, Feeding};
pub use following::{FollowFault, Followed, FollowedFeed, follow};
pub use keeping::{Keeper, follow_stored};
pub use laws::{one_feed_is_the_journal, told_lines_are_whole};
pub use report::RunReport;
pub use running::{run, run_watched};
pub use storing::{Nobody, Observer, SEGMENT_BYTES};
pub use teller::{TellFailed, Teller};
pub use unkept::{UnkeptFault, UnkeptReport, run_without_journal};

#[cfg(test)]
mod tests;

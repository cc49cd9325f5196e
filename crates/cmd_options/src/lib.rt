//! The modes of the program with their options, and the options of a run of many feeds with their ranges. Values only:
//! `cmd_words` reads them from the command line, `cmd_dispatch` runs by them.
#![tactic(auto)]

mod mode;
mod options;

pub use mode::{
    Asked, FilesCall, FollowCall, Following, Keeping, MOST_READS, Mode, Options, ToldCall,
    ToldPlace,
};
pub use options::{MOST_PIECE, RunOptions};

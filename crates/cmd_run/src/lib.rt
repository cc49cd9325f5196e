//! The results of a run of many feeds: the report of each sender with its ending, and the cause of a run that failed.
//! Values only: `cmd_dispatch` makes the run, `cmd_answer` prints the result.
#![tactic(auto)]

mod ending;
mod fault;

pub use ending::{Ending, SenderReport};
pub use fault::{RunCause, RunFault};

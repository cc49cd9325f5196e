//! Recovery: finds the state that a state directory stands for, and lets a run resume from it. `start` (in `recover`)
//! reads the directory; `assign` (in `feeds`) assigns each feed its number; `proceed` (in `resume`) writes the
//! beginning of a run, and a `StateCheckpoint` writes while it runs. `specs/Directories.antt` says for which journal a
//! directory stands.
#![tactic(auto)]

mod feeds;
mod laws;
mod recover;
mod resume;

pub use feeds::assigned::{AssignFault, Assigned, Role};
pub use feeds::assigning::assign;
pub use laws::{
    a_start_finds_what_a_run_left, calls_follow_one_another, each_command_once,
    from_start_to_start, what_a_run_adds, what_all_runs_told,
};
pub use recover::fault::StartFault;
pub use recover::find::Recovered;
pub use recover::history::Replayed;
pub use recover::start;
pub use resume::checkpoint::StateCheckpoint;
pub use resume::{Resumed, proceed};

#[cfg(test)]
mod tests;

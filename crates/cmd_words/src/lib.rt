//! The words of a call of the program, read by `clap` as a mode with its options. The results are the values of
//! `cmd_options`, or a `WordsFault`, and the usage of a mode (`usage`); no input is read and nothing is printed.
#![tactic(auto)]

mod asked;
mod command;
mod fault;
mod mode_name;
mod names;
mod usage;
mod words;

pub use fault::WordsFault;
pub use mode_name::{ModeName, mode_named};
pub use usage::{VERSION_TEXT, usage_of};
pub use words::{
    checked_of, files_of, follow_of, mode_of, state_to_replay_of, text_to_explain, told_of,
};

//! Hard and soft states of hosts and services (State Types), and the change that a check result makes.
//! `specs/States.antt` has the table of the states. Every call returns a new value; nothing is changed and no memory is
//! taken.
#![tactic(auto)]

mod status;
mod transition;

pub use status::Status;
pub use transition::{Change, after_result};

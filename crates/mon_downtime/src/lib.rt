//! Downtimes of hosts and services (Scheduled Downtime): the list of all that were ever scheduled, each with its fate.
//! The calls schedule or refuse a downtime, apply the events that are due, start a downtime after a problem, and cancel
//! a downtime with all that depend on it.
#![tactic(auto)]

mod cancel;
mod depths;
mod downtime;
mod downtimes;
mod due;
mod event;
mod keeping;
mod kept;
mod laws;
mod links;
mod plan;
mod problem;
mod queue;
mod records;
mod restoring;
mod rings;
mod waiting;

pub use downtime::{Downtime, Fate};
pub use downtimes::Downtimes;
pub use event::{Event, EventKind};
pub use laws::{
    all_that_wait_start, dependants_are_least, downtimes_are_in_time, due_is_first,
    law_of_the_clock, records_stay_records,
};
pub use plan::{Plan, Refusal, Times};
pub use restoring::unrecorded;

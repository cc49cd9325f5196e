//! A bounded queue from several senders to one dispatcher (profile). The commands taken from a sender are a prefix of
//! those it sent, in order, none left out, doubled or made up (`specs/Rule.antt`). At the end the contract of `settle`
//! says that they are all that it sent, if its close mark was taken.
#![tactic(auto)]

mod closed_sender;
mod dispatcher;
mod fault;
mod make;
mod message;
mod plan;
mod row;
mod rule;
mod sender;
mod settled;
mod taken;
mod tally;

pub use closed_sender::ClosedSender;
pub use dispatcher::{DispatcherSide, Lost};
pub use fault::QueueFault;
pub use make::{MOST_CAPACITY, MOST_TOGETHER, is_capacity, planned_queue, queue};
pub use plan::Planning;
pub use row::TakenRow;
pub use sender::{Returned, SenderSide};
pub use settled::{Settled, settle};
pub use taken::{Taken, TakenMessage};

//! The contacts, hosts, services and escalations that an inventory text defines, found by name or by index, and the
//! options and directives that it sets. [`Inventory::parse`] documents the format of the text. An inventory never
//! changes once it is read.
#![tactic(auto)]

mod adding;
mod fault;
mod fields;
mod form;
mod guesses;
mod index;
mod inventory;
mod items;
mod letters;
mod limits;
mod names;
mod outer_faults;
mod own_faults;
mod parse;
mod records;
mod theorems;

pub use fault::{Cause, InventoryFault};
pub use inventory::Inventory;
pub use letters::Letters;
pub use limits::{MOST_CONTACTS, MOST_ESCALATIONS, MOST_OBJECTS};
pub use records::{ContactSpec, Directives, Escalation, ObjectSpec};
pub use theorems::fault_is_the_first;

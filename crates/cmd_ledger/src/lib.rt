//! The ledger of a run: its monitor, with the counts and last commands of the entries so far. Each run applies its
//! entries through a ledger, and so does a start that replays a segment. `specs/Ledgers.antt` says what a ledger holds
//! of its entries.
#![tactic(auto)]

mod clock;
mod last_commands;
mod ledger;

pub use clock::is_clock;
pub use last_commands::LastCommands;
pub use ledger::Ledger;

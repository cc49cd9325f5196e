//! Who is notified of a problem, a recovery or a custom notice, and when (Notifications, Notification Escalations). The
//! calls return whether a notice may go out, which contacts it reaches, and after which interval the next one may
//! follow. No call sends a notice, changes an object or changes a contact.
#![tactic(auto)]

mod contacts;
mod custom;
mod ends;
mod escalations;
mod facts;
mod interval;
mod letter;
mod named;
mod viable;

pub use contacts::{ContactSwitch, recipients};
pub use custom::{custom_recipients, custom_viable, increments};
pub use ends::{BySwitch, by_switch, one_hears, owed_with, reaches_one, still_owed};
pub use facts::Facts;
pub use interval::interval_in_force;
pub use letter::{Letter, has_letter, letter_of};
pub use viable::{
    is_delayed, is_due, is_old, is_open, is_settled, problem_viable, recovery_viable,
};

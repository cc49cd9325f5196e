//! Carries the parts of a monitor from an old inventory to a new one (`carry`). Objects and contacts with the same
//! names are the same; an old object whose names are not in the new inventory is gone. `specs/Carried.antt` has the
//! rule.
#![tactic(auto)]

mod carrying;
mod comments;
mod contacts;
mod downtimes;
mod laws;
mod objects;
mod owed;
mod places;

pub use carrying::{CarryFault, carry};
pub use laws::{
    a_carried_world_is_saved, ids_go_on_and_nothing_is_told, what_is_gone_is_over,
    what_is_new_begins, what_is_the_same_stands,
};

#[cfg(test)]
mod tests;

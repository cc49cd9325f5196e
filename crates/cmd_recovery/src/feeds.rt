//! The feeds of a state directory: assigns each feed of a run its number, and updates the kept data of each feed by the
//! commands journaled since the file `state` was written.

pub(crate) mod assigned;
pub(crate) mod assigning;
pub(crate) mod roles;
pub(crate) mod updated;

//! The counts that the dispatcher keeps for each sender, so that no call walks over the list of taken commands.
/// The counts of a sender: how many of its commands were taken, and whether its close mark was taken.
#[derive(Clone, Copy)]
pub struct Tally {
    pub count: u64,
    pub closed: bool,
}

//! The arguments of a run over feeds that are followed: `Feeding` has the readers, their attendants and the options;
//! `Audience` has the teller and the number of the clock feed.
use crate::attendant::Attendant;
use crate::feed::Feed;
use crate::teller::Teller;
use cmd_options::RunOptions;

/// The feeds of a run, in order of their numbers from 0, and the options of the run (profile).
///
/// See the example of [`follow`].
#[derive(Drop)]
pub struct Feeding<F: Feed, A: Attendant> {
    /// The reader of each feed; its index is the feed's number.
    pub readers: Vec<F>,
    /// The attendant of each feed, at the same index.
    pub attendants: Vec<A>,
    pub options: RunOptions,
}

/// The teller of a run, which takes the told lines, and the number of the clock feed (profile).
///
/// See the example of [`follow`].
#[derive(Drop)]
pub struct Audience<T: Teller + Drop> {
    pub teller: T,
    /// The number of the clock feed, from 0; `None` where there is no clock feed. Rejections of its commands are never
    /// printed.
    pub clock: Option<u16>,
}

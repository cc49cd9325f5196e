//! The state of a monitor as a text: `write_state` appends the text, and `read_state` makes a monitor that resumes from
//! it. `write_file` and `read_file` do the same for the whole file `state`, with the inventory and the feeds.
//! `specs/State.antt` has the lines; no call opens a file.
#![tactic(auto)]

mod appending;
mod cursor;
mod fault;
mod feeds;
mod fields;
mod file;
mod laws;
mod lines;
mod named_lines;
mod number;
mod owed_lines;
mod places;
mod reading;
mod version;
mod writing;

pub use fault::{StateCause, StateFault};
pub use feeds::{KeptFeed, KeptFeeds, read_feeds, write_feeds};
pub use file::{FileFault, StateFile, is_head, read_file, write_file};
pub use laws::a_state_tells_what_goes_on;
pub use reading::read_state;
pub use version::StateVersion;
pub use writing::write_state;

//! The program's side of a call, except for the run itself. Reads an input and divides it, reads the inventory and
//! opens the feeds. Makes the text and the exit status for a run or a replayed journal, and writes the text or the line
//! of a stop. Starts no thread.
#![tactic(auto)]

mod bundle;
mod counts;
mod dividing;
mod ended;
mod files;
mod follow_line;
mod opening;
mod printing;
mod reading;
mod replaying;
mod runs;
mod state_stop;
mod stop;
mod writing;

pub use bundle::bundle_in;
pub use counts::InventoryCounts;
pub use dividing::{divided, parts};
pub use ended::{Ended, misused, put, stopped};
pub use files::{has_twice, inventory_in, inventory_text_in, open_files};
pub use follow_line::{AbsentFeed, FollowLine};
pub use opening::{may_pass, open_file};
pub use printing::{ending_text, put_feed_end, put_figures, put_refused};
pub use reading::{InputFault, read_all};
pub use replaying::{report_journal, serve_replay};
pub use runs::{Extras, text_of_fault, text_of_report};
pub use state_stop::{StateStop, StateWord};
pub use stop::{FilesStop, Stop};
pub use writing::{write_pieces, write_text};

//! Live operation: the feeds that a run follows and the files that it keeps, on the operating system. `run` opens the
//! feeds of a run and makes the reader and the attendant of each. [`live`] has all code that trusts the system; the
//! modules beside it have the parts of following a feed that can be proved.
#![tactic(auto)]

mod care;
mod clocks;
mod inventories;
mod live;
mod numbered;
mod pipe_text;
mod run;
mod seen_lines;
mod segment_names;
mod start;
mod tail;
mod told_lines;
mod unread;

pub use clocks::{Agreement, Clocks, Comparison};
pub use inventories::{end_last_line, inventory_line, new_inventory};
pub use live::{
    Attending, Backlog, CarriedRun, Directory, FeedSystem, InventoryWatch, LockFault, Locks, Node,
    OldInventory, OpenFeeds, Part, Place, Signal, Source, StatusFile, System, TellingOutput,
    give_carried, keep_old_inventory, list_numbers, old_inventories, print_told, read_whole,
    take_carried,
};
pub use numbered::{Numbered, UNNAMED, number_feeds};
pub use pipe_text::{MARK, PipeText};
pub use run::{Call, Run, print_start};
pub use seen_lines::SeenLines;
pub use segment_names::{JOURNAL, TOLD, file_path, segment_path};
pub use start::{Known, Start, find_start};
pub use told_lines::{ToldWanted, put_told_lines};
pub use unread::{at_start, passing, unread_stop};

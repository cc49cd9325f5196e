//! The trusted part of the program: the side of a run on the system while it follows feeds. It opens and reads the
//! feeds, prints lines to the error stream, and keeps the files of the state directory. No contract says what a file, a
//! pipe or a clock does.
//!
//! So each function here that has a body and no clause, of its own or of its trait, has a line `Believed`, which says
//! what the function is believed to do. The parentheses name the premises below on which this rests, and the example
//! (a folder of examples/), the script of bench/ or the tests of a module that show it. The parts that can be proved
//! are in other modules: `care`, `clocks`, `inventories`, `numbered`, `pipe_text`, `seen_lines`, `segment_names`,
//! `start`, `tail` and `told_lines`, and, for the texts of all lines, in `cmd_answer`.
//!
//! The premises:
//!
//! 1. *A file.* A read returns bytes that the file has after the position, in order and at least one, and moves the
//!    position past them; it returns 0 bytes where there are none. A seek sets the position.
//! 2. *A write.* A write stores a prefix of its bytes from the position on, or after the last byte of a file that is
//!    open for appending, and returns their number. It changes no other byte.
//! 3. *A cut.* Setting a smaller length removes the bytes after it and changes no other byte.
//! 4. *A sync.* The bytes and the length that a file had when its sync returned without an error survive a crash. Of
//!    bytes that were appended later, a crash leaves a prefix.
//! 5. *A sync of a directory.* The names that were created or renamed in the directory before survive a crash.
//! 6. *A rename.* At each moment, and after a crash, the name refers to the old file or to the new one.
//! 7. *A lock.* At most one process has locked a file, until it drops the lock or ends by any means.
//! 8. *Metadata.* The kind, the length, the device and the number of a file are its present ones. Two names refer to
//!    one file exactly if device and number are equal. Of two files, the one that was created or written later has the
//!    later time of creation or of the last write, unless the clock was set back in between or the file was copied.
//! 9. *A clock.* The system's clock returns a time or an error. A sleep lasts at least as long as requested.
//! 10. *A pipe.* Opening it for reading alone waits for a writer; opening it for both does not wait. A read waits for a
//!     byte, and returns 0 bytes only once no process has the pipe open for writing. Each byte goes to one reader.
//! 11. *Threads.* All threads see the changes of an atomic value in one order. One thread at a time holds a mutex.
//! 12. *The error stream.* A line that is written by one write is not mixed with lines of other threads.
//! 13. *A directory.* Its reads return each name once, whole and followed by a zero byte.
mod absent;
mod attending;
mod backlog;
mod candidate;
mod carried;
mod directory;
mod drained;
mod error_streams;
mod flag;
mod followed_file;
mod gate;
mod growing;
mod inventory_watch;
mod locks;
mod names;
mod node;
mod old_inventory;
mod opening;
mod pause;
mod pipe;
mod place;
mod renewal;
mod reopening;
mod rotated;
mod segment_file;
mod signal;
mod source;
mod status;
mod stream;
mod system;
mod telling;
mod ticking;
mod told_files;
mod way;
mod whole_file;

pub use attending::Attending;
pub use backlog::Backlog;
pub use carried::{CarriedRun, give_carried, take_carried};
pub use directory::Directory;
pub use inventory_watch::InventoryWatch;
pub use locks::{LockFault, Locks};
pub use node::Node;
pub use old_inventory::{
    OldInventory, keep_old_inventory, list_numbers, old_inventories, read_whole,
};
pub use opening::{OpenFeeds, Opening, open_feeds};
pub use place::{Part, Place};
pub use signal::Signal;
pub use source::Source;
pub use status::StatusFile;
pub use stream::read_some;
pub use system::{FeedSystem, System};
pub use telling::TellingOutput;
pub use ticking::Ticking;
pub use told_files::print_told;

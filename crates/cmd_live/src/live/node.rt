//! The identity of a file on the system: its device and its inode number. Two names refer to one file where their nodes
//! are equal. Nothing is opened or changed here.
use std::fs::Metadata;
use std::os::unix::fs::MetadataExt;

/// The device of a file and its inode number there, which are the same under each name of the file.
#[derive(Clone, Copy, PartialEq, Eq)]
pub struct Node {
    device: u64,
    number: u64,
}

impl Node {
    /// The node of the file that `found` describes.
    ///
    /// Believed: two names with the same node refer to the same file (premise 8; rotation).
    pub fn of(found: &Metadata) -> Node {
        Node {
            device: found.dev(),
            number: found.ino(),
        }
    }
}

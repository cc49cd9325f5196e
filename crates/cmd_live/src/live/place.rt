//! The path of a state directory, and the part of it at which a call failed. Nothing is opened or changed here.
use super::node::Node;

/// The part of a state directory at which a call of the store failed.
#[derive(Clone, Copy, Debug, PartialEq, Eq)]
pub enum Part {
    /// A file could not be read.
    Read,
    /// The file `state` could not be written.
    State,
    /// The journal could not be written, or the directory has a segment with a greater number than the one to be
    /// opened.
    Journal,
    /// The told lines could not be written.
    Told,
    /// A file or the directory could not be synced.
    Sync,
    /// The output could not be written.
    Output,
}

/// The path of a state directory that the process has locked, and its node then.
#[derive(Clone, Copy)]
pub struct Place<'a> {
    pub path: &'a str,
    pub node: Node,
}

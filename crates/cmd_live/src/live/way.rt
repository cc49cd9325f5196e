//! How the pipe of a reader that is to be woken is opened for writing.
use super::names::any_name;
use super::node::Node;
use crate::segment_names::file_path;
use std::alloc::Global;
use std::fs;
use std::fs::{OpenFile, OpenOptions};
use std::os::unix::fs::FileTypeExt;
use std::rt::Files;

/// The directory in which the system names each file that the process has open by its number.
const OPEN_FILES: &str = "/proc/self/fd";

/// How the pipe of a reader that is to be woken is opened for writing.
#[derive(Drop)]
pub enum Way<F: Drop> {
    /// The pipe is open already, as this file.
    Held(F),
    /// The pipe is opened under its name, if the name is still that of this pipe, or else as a file that the process
    /// has open.
    Named(Node),
}

/// Opens the pipe of this node under `path` for writing, and for reading too, since opening for writing alone waits for
/// a reader. `None` where the path refers to another file, or the pipe cannot be opened.
///
/// Believed: no other file is opened or written (premises 8 and 10; follow-full).
fn open_node<R: Files>(rt: &R, path: &str, node: Node) -> Option<R::File> {
    if Node::of(&fs::metadata(rt, path).ok()?) != node {
        return None;
    }
    let mut how = OpenOptions::new();
    how.read(true).write(true);
    let file = how.open(rt, path).ok()?;
    let found = file.metadata().ok()?;
    if found.file_type().is_fifo() && Node::of(&found) == node {
        Some(file)
    } else {
        None
    }
}

/// Opens the pipe of this node, which the process has open, as [`open_node`] does: the pipe may have no other name.
///
/// Believed: as [`open_node`] (follow-full).
fn open_unnamed<R: Files>(rt: &R, alloc: Global, node: Node) -> Option<R::File> {
    let mut found = None;
    let _ = any_name(rt, OPEN_FILES, |name| {
        if let Ok(name) = str::from_utf8(name)
            && let Ok(path) = file_path(alloc, OPEN_FILES, name)
        {
            found = open_node(rt, &path, node);
        }
        found.is_some()
    });
    found
}

/// Opens a pipe for writing in this way; `None` where the pipe has lost its name and is not open yet.
///
/// Believed: nothing is written to another file (premises 8 and 10; follow-full).
pub fn open_way<R: Files>(rt: &R, alloc: Global, path: &str, way: Way<R::File>) -> Option<R::File> {
    match way {
        Way::Held(file) => Some(file),
        Way::Named(node) => match open_node(rt, path, node) {
            Some(file) => Some(file),
            None => open_unnamed(rt, alloc, node),
        },
    }
}

//! The files from which a feed was read before its name was given to another file. They are found in the same folder,
//! under names that begin with the same name. The file that was read last is recognized by its journaled commands, or
//! by its node; the files that got the name after it, by their numbers or dates and by the times of their last writes.
ghost use Rattle.std.specs.Prelude.{◌≡◌, ◌⊎◌, IfSome, Some, length, slice_get, take};

use super::candidate::{Candidate, Renamed, later_files, length_of, written_of};
use super::gate::Gate;
use super::names::any_name;
use super::node::Node;
use crate::start::{Known, Start};
use std::alloc::Global;
use std::fs;
use std::fs::OpenFile;
use std::rt::Files;

/// The folder of a path, without the last slash, and the name in it.
///
/// Believed: the folder is `.` where the path has no slash, and else the part before the last one (rotation).
fn split_path(path: &str) -> (&str, &str) {
    match path.rsplit_once('/') {
        Some(parts) => parts,
        None => (".", path),
    }
}

/// The suffix after `name` in the name of a file that had `name` before a rotation, such as `.1` or `-20261128`; `None`
/// for any other file.
fn rotated_end<'a>(found: &'a [u8], name: &[u8]) -> Option<&'a [u8]>
    ensures begins { IfSome result (λ _. take (length name.now) found.now ≡ name.now) }
    ensures mark { IfSome result (λ end. (slice_get end.now 0 ≡ Some 46) ⊎ (slice_get end.now 0 ≡ Some 45)) }
{
    let end = found.strip_prefix(name)?;
    match end.first() {
        Some(b'.' | b'-') => Some(end),
        _ => None,
    }
}

/// The files in the folder of a feed that had its name before a rotation.
#[derive(Drop)]
pub struct Rotated<'g, 'a, R: Files> {
    /// The path of the feed.
    pub path: &'a str,
    /// The gates of all feeds of the run, whose files are left out.
    pub gates: &'g [Gate<'a, R>],
}

/// The old file of a feed, positioned after its journaled commands, and the files that got its name in later rotations,
/// in that order.
#[derive(Drop)]
pub struct Found<F: Drop> {
    pub file: F,
    pub start: Start,
    pub later: Vec<F>,
}

impl<R: Files> Rotated<'_, '_, R> {
    /// The folder of the feed, and the name of its file there.
    ///
    /// Believed: as [`split_path`] (rotation).
    fn place(&self) -> (&str, &str) {
        let (folder, name) = split_path(self.path);
        (if folder.is_empty() { "/" } else { folder }, name)
    }

    /// Whether the file with this suffix belongs to another feed, or had the other feed's name before a rotation.
    ///
    /// Believed: the paths of all feeds in one folder are written in the same way (no premise; quick-rotations).
    fn is_of_other_feed(&self, end: &[u8]) -> bool {
        for gate in self.gates {
            if let Some(other) = gate.path.as_bytes().strip_prefix(self.path.as_bytes())
                && !other.is_empty()
                && (end == other || rotated_end(end, other).is_some())
            {
                return true;
            }
        }
        false
    }

    /// Opens the regular file that was renamed to this suffix.
    ///
    /// Believed: no pipe is opened, which would wait for its writer (premise 8; rotation).
    fn open(&self, rt: &R, alloc: Global, end: &[u8]) -> Option<Candidate<R::File>> {
        let path = format!(in alloc; "{}{}", self.path, str::from_utf8(end).ok()?).ok()?;
        if !fs::metadata(rt, &path).ok()?.is_file() {
            return None;
        }
        let file = fs::open(rt, &path).ok()?;
        let found = file.metadata().ok()?;
        let renamed = Renamed {
            end: Vec::from_slice(alloc, end).ok()?,
            made: found.created().ok(),
            written: found.modified().ok()?,
        };
        Some(Candidate {
            file,
            length: found.len(),
            renamed,
        })
    }

    /// Opens the files from which the feed may have been read, all together, since a rotation may rename them. `None`
    /// where the folder cannot be read, or memory runs out.
    ///
    /// Believed: each name in the folder is checked (premise 13; rotation).
    fn candidates(&self, rt: &R, alloc: Global) -> Option<Vec<Candidate<R::File>>> {
        let (folder, name) = self.place();
        let mut files = Vec::new(alloc);
        let is_out_of_memory = any_name(rt, folder, |found| {
            if let Some(end) = rotated_end(found, name.as_bytes())
                && !self.is_of_other_feed(end)
                && let Some(file) = self.open(rt, alloc, end)
            {
                return files.push(file).is_err();
            }
            false
        })
        .ok()?;
        if is_out_of_memory {
            return None;
        }
        Some(files)
    }

    /// The files that got the name of the feed after the file of this node, which a rotation has renamed, and before
    /// the file of the node `present`.
    ///
    /// Believed: as [`later_files`] (rotation).
    pub fn between(&self, rt: &R, alloc: Global, node: Node, present: Node) -> Vec<R::File> {
        let Some(mut files) = self.candidates(rt, alloc) else {
            return Vec::new(alloc);
        };
        // The present file may have been renamed meanwhile.
        files.retain(|file| !file.is_of(present));
        let Some(place) = files.iter().position(|file| file.is_of(node)) else {
            return Vec::new(alloc);
        };
        let Candidate { renamed, .. } = files.remove(place);
        later_files(alloc, files, renamed)
    }

    /// Finds the file that got the name of the feed next after the file whose last command is `last`, where no command
    /// of the found file was journaled, and the files that had the name between it and the present one. `None` where
    /// there is none.
    ///
    /// Believed: of several files with that last command, the one with the last write was read (premise 8;
    /// quick-rotations).
    fn find_begun(&self, rt: &R, alloc: Global, last: &[u8]) -> Option<Found<R::File>> {
        if last.is_empty() {
            return None;
        }
        let mut files = self.candidates(rt, alloc)?;
        files.sort_unstable_by_key(written_of);
        let mut others = Vec::new(alloc);
        for _ in 0..files.len() {
            let Some(mut file) = files.pop() else {
                break;
            };
            if file.ends_with(alloc, last) {
                others.append(&mut files).ok()?;
                let mut later = later_files(alloc, others, file.renamed);
                if later.is_empty() {
                    return None;
                }
                return Some(Found {
                    file: later.remove(0),
                    start: Start::FIRST,
                    later,
                });
            }
            others.push(file).ok()?;
        }
        None
    }

    /// Finds the file of which these commands were journaled, the longest of several, and the files that had the name
    /// of the feed between it and the present one. Where no command was journaled of the last file that a run began to
    /// read, finds that file. `None` where it is not found, no command of the feed was journaled, the folder cannot be
    /// read, or memory runs out.
    ///
    /// Believed: where a run was killed during a rotation, the next one reads the old file to its end (premises 8 and
    /// 13; rotation, quick-rotations).
    pub fn find(&self, rt: &R, alloc: Global, known: &Known<'_>) -> Option<Found<R::File>> {
        if known.commands == 0 {
            return self.find_begun(rt, alloc, known.last);
        }
        let mut files = self.candidates(rt, alloc)?;
        files.sort_unstable_by_key(length_of);
        let mut others = Vec::new(alloc);
        for _ in 0..files.len() {
            let Some(mut file) = files.pop() else {
                break;
            };
            if let Some(start) = file.start_behind(alloc, known) {
                others.append(&mut files).ok()?;
                return Some(Found {
                    file: file.file,
                    start,
                    later: later_files(alloc, others, file.renamed),
                });
            }
            others.push(file).ok()?;
        }
        None
    }
}

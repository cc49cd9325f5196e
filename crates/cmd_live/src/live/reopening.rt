//! Opens a feed as an earlier run had it open: the file or pipe that is held open, or a file that a rotation has
//! renamed. Lines are printed to the error stream; no file is written.
use super::error_streams::report;
use super::followed_file::FollowedFile;
use super::gate::Gate;
use super::growing::Growing;
use super::opening::{Beginning, Opening, seek_start};
use super::pipe::Pipe;
use super::rotated::{Found, Rotated};
use super::source::Source;
use super::system::FeedSystem;
use super::way::Way;
use crate::start::{Known, Start};
use cmd_answer::FollowLine;
use std::fs;
use std::fs::OpenFile;
use std::io::{Read, Seek, SeekFrom};
use std::os::unix::fs::FileTypeExt;
use std::rt::Files;
use std::sync::Wait;
use std::time::Clock;

/// Finds the file from which the feed was read before its path named another file or none, and holds open the files
/// that had the name after it and before the present one. `None` where the file is not found, no further run can begin,
/// or the previous run read it to its end.
///
/// Believed: as [`Rotated::find`] (rotation).
pub fn find_old<R: Files + Clock + Wait>(
    opening: &Opening<'_, '_, R>,
    gate: &Gate<'_, R>,
    known: Option<&Known<'_>>,
) -> Option<(R::File, Start)> {
    let Opening { rt, alloc, .. } = *opening;
    if !opening.signal.renewal.is_possible() || gate.is_old_read.is_set() {
        return None;
    }
    let rotated = Rotated {
        path: gate.path,
        gates: &opening.signal.gates,
    };
    let Found { file, start, later } = rotated.find(rt, alloc, known?)?;
    gate.add_later(rt, later);
    Some((file, start))
}

/// The start of a file of which nothing was read, where the feed was read from another file before. Prints to the error
/// stream that the feed begins anew, where the counts of the feed do not show it.
///
/// Believed: the line is printed once for each file (premise 12; rotation).
pub fn start_anew<R: FeedSystem>(
    opening: &Opening<'_, '_, R>,
    gate: &Gate<'_, R>,
    known: Option<&Known<'_>>,
) -> Start {
    if known.is_some_and(|known| known.commands > 0) {
        return Start::Anew;
    }
    report(
        opening.rt,
        opening.alloc,
        FollowLine::Anew { feed: gate.feed },
    );
    Start::FIRST
}

/// The feed over the file from which it was read before, from this start.
///
/// Believed: the line that this file was replaced is printed once, even if the previous run printed it (premise 11;
/// absent-feed).
pub fn old_source<'a, R: FeedSystem, I: Read + Drop>(
    opening: &Opening<'a, '_, R>,
    gate: &'a Gate<'a, R>,
    old: R::File,
    start: Start,
) -> Beginning<'a, R, I> {
    gate.hold(opening.rt, old.try_clone().ok());
    let named = FollowedFile::new(opening.rt, opening.alloc, gate, old, start.bytes());
    let growing = if gate.is_removed.is_set() {
        Growing::removed(opening.signal, gate, named)
    } else {
        Growing::new(opening.signal, gate, named)
    };
    Beginning {
        source: Source::Growing(growing),
        start,
    }
}

/// The feed over the file from which it was read before its path named no file. `None` where that file is not found.
///
/// Believed: a writer of the old file is still read (premise 8; absent-feed).
pub fn open_old<'a, R: FeedSystem, I: Read + Drop>(
    opening: &Opening<'a, '_, R>,
    gate: &'a Gate<'a, R>,
    known: Option<&Known<'_>>,
) -> Option<Beginning<'a, R, I>> {
    let (old, start) = find_old(opening, gate, known)?;
    Some(old_source(opening, gate, old, start))
}

/// The feed over the pipe that is held open, where a command of the pipe was left to this run and its path names no
/// file. Otherwise `None`, and the pipe is still held.
///
/// Believed: the command is taken from the bytes that were left (premise 10; ahead-rotation).
fn held_pipe<'a, R: Files + Clock + Wait, I: Read + Drop>(
    opening: &Opening<'a, '_, R>,
    gate: &'a Gate<'a, R>,
    held: R::File,
    is_left: bool,
) -> Option<Beginning<'a, R, I>> {
    let Opening { rt, signal, .. } = *opening;
    gate.hold(rt, held.try_clone().ok());
    if !is_left || fs::metadata(rt, gate.path).is_ok() {
        return None;
    }
    gate.set_way(rt, Way::Held(held.try_clone().ok()?));
    let pipe = Pipe::new(rt, signal, gate, Some(held));
    Some(Beginning::first(Source::Pipe(pipe)))
}

/// Opens a feed as the previous run had it open: the file that is held open, whatever its name is now; or, where that
/// file was read to its end, the file that got the name after it. `None` in the first run of a process, for a file that
/// was cut meanwhile, and for most pipes.
///
/// Believed: no line of a renamed file is skipped (premises 1 and 8; rotation, ahead-rotation).
pub fn open_held<'a, R: FeedSystem, I: Read + Drop>(
    opening: &Opening<'a, '_, R>,
    gate: &'a Gate<'a, R>,
    known: Option<&Known<'_>>,
) -> Option<Beginning<'a, R, I>> {
    let Opening { rt, alloc, .. } = *opening;
    let is_left = gate.is_left.is_set();
    gate.is_left.clear();
    if gate.is_old_read.is_set() {
        let next = gate.take_next(rt)?;
        let start = start_anew(opening, gate, known);
        return Some(old_source(opening, gate, next, start));
    }
    let mut held = gate.take_held(rt)?;
    if held.metadata().ok()?.file_type().is_fifo() {
        return held_pipe(opening, gate, held, is_left);
    }
    held.seek(SeekFrom::Start(0)).ok()?;
    let start = seek_start(alloc, &mut held, known)?;
    if start == Start::Anew {
        return None;
    }
    Some(old_source(opening, gate, held, start))
}

//! Opens the feeds of a call before the run starts: each as a growing file, a drained file, a pipe, a device or the
//! input. A regular file is moved to the position after the lines that earlier runs journaled. No file is written.
ghost use Rattle.std.specs.Prelude.{◌≡◌, ℕ, List, Contains, IfOk, IfErr, length, map};
ghost use Rattle.cmd_answer.specs.Stops.{StopsOpening};

use super::absent::Absent;
use super::drained::Drained;
use super::followed_file::FollowedFile;
use super::gate::Gate;
use super::growing::Growing;
use super::node::Node;
use super::pipe::Pipe;
use super::reopening::{find_old, old_source, open_held, open_old, start_anew};
use super::signal::Signal;
use super::source::Source;
use super::stream::Stream;
use super::system::FeedSystem;
use super::way::Way;
use crate::numbered::UNNAMED;
use crate::start::{Known, Start, find_start};
use cmd_answer::{FilesStop, Stop, may_pass};
use std::alloc::Global;
use std::fs;
use std::fs::{OpenFile, OpenOptions};
use std::io::{Read, Seek, SeekFrom};
use std::os::unix::fs::FileTypeExt;
use std::rt::Files;
use std::sync::Wait;
use std::time::Clock;

/// The path that stands for the program's input (profile).
const INPUT: &str = "-";

/// The name of the file that is the program's input.
const INPUT_FILE: &str = "/proc/self/fd/0";

/// The arguments for opening the feeds of a run. One value serves all feeds of the run.
#[derive(Clone, Copy)]
pub struct Opening<'a, 'k, R: Files> {
    pub rt: &'a R,
    pub alloc: Global,
    pub signal: &'a Signal<'a, R>,
    /// True where each feed is read to its present end and the run then ends; false where feeds are followed.
    pub drain: bool,
    /// For each feed, in order, its journaled commands; empty where nothing is kept.
    pub known: &'k [Known<'k>],
}

/// The open feeds, in order, and for each the position where its reading begins.
#[derive(Drop)]
pub struct OpenFeeds<'a, R: Files + Clock, I: Read + Drop> {
    pub sources: Vec<Source<'a, R, I>>,
    pub starts: Vec<Start>,
}

/// An open feed, and the position where its reading begins.
#[derive(Drop)]
pub struct Beginning<'a, R: Files + Clock, I: Read + Drop> {
    pub source: Source<'a, R, I>,
    pub start: Start,
}

impl<'a, R: Files + Clock, I: Read + Drop> Beginning<'a, R, I> {
    /// The feed over `source`, read from its beginning.
    pub fn first(source: Source<'a, R, I>) -> Beginning<'a, R, I>
        ensures { result.source ≡ source.entry }
    {
        Beginning {
            source,
            start: Start::FIRST,
        }
    }
}

/// Finds where the reading of a regular file begins, and moves the file there; does not move it where `known` is
/// `None`. Returns `None` where the file cannot be read or moved, or memory runs out.
///
/// Believed: no journaled command is read again, and no command after the journaled ones is skipped (premise 1;
/// state-restart, rotation).
pub fn seek_start<F: Read + Seek>(
    alloc: Global,
    file: &mut F,
    known: Option<&Known<'_>>,
) -> Option<Start> {
    let Some(known) = known else {
        return Some(Start::FIRST);
    };
    let start = find_start(alloc, file, *known)?;
    file.seek(SeekFrom::Start(start.bytes())).ok()?;
    Some(start)
}

/// The feed over an open regular file, moved to its start: a drained file where `drain` is true, else a growing one.
/// Returns `None` where the file cannot be read or moved, its last line feed is not found, or memory runs out.
///
/// Believed: the feed begins at the start (premise 1; state-restart, follow-drain).
fn file_source<'a, R: FeedSystem, I: Read + Drop>(
    opening: &Opening<'a, '_, R>,
    gate: &'a Gate<'a, R>,
    known: Option<&Known<'_>>,
    mut file: R::File,
) -> Option<Beginning<'a, R, I>> {
    let Opening {
        rt,
        alloc,
        signal,
        drain,
        ..
    } = *opening;
    let start = if gate.is_old_read.is_set() && !gate.holds(rt, &file) {
        // Its lines may be copies of the old file's lines, so they prove nothing.
        start_anew(opening, gate, known)
    } else {
        seek_start(alloc, &mut file, known)?
    };
    let is_another = start == Start::Anew || known.is_some_and(|known| known.commands == 0);
    if is_another && let Some((old, start)) = find_old(opening, gate, known) {
        // The old file is read to its end first. Its path already names another file, so a new run begins after that.
        return Some(old_source(opening, gate, old, start));
    }
    gate.hold(rt, file.try_clone().ok());
    let named = FollowedFile::new(rt, alloc, gate, file, start.bytes());
    let source = if drain {
        Source::Drained(Drained::new(signal, gate, named).ok()?)
    } else {
        Source::Growing(Growing::new(signal, gate, named))
    };
    Some(Beginning { source, start })
}

/// Opens a pipe for reading and writing, so that it does not end with its writers; with `drain`, leaves the opening to
/// the sender's thread. Stores at the gate how `wake` opens the pipe. Returns `None` where the file cannot be opened or
/// is no longer a pipe.
///
/// Believed: the pipe stays open while its writers come and go; with `drain` it ends with the last of them (premises 8
/// and 10; follow-pipes, follow-drain).
fn open_pipe<'a, R: Files + Clock + Wait, I: Read + Drop>(
    opening: &Opening<'a, '_, R>,
    gate: &'a Gate<'a, R>,
    node: Node,
) -> Option<Source<'a, R, I>> {
    let Opening {
        rt,
        signal,
        drain,
        ..
    } = *opening;
    if drain {
        gate.set_way(rt, Way::Named(node));
        return Some(Source::Pipe(Pipe::new(rt, signal, gate, None)));
    }
    let mut how = OpenOptions::new();
    how.read(true).write(true);
    let file = how.open(rt, gate.path).ok()?;
    // The path may by now name another file, to which nothing may be written.
    if !file.metadata().ok()?.file_type().is_fifo() {
        return None;
    }
    gate.set_way(rt, Way::Held(file.try_clone().ok()?));
    gate.hold(rt, file.try_clone().ok());
    Some(Source::Pipe(Pipe::new(rt, signal, gate, Some(file))))
}

/// Opens a file that is no pipe as a feed: a regular file, or else a device. Returns `None` where the file cannot be
/// opened or read, is a directory, is a pipe by now, or memory runs out.
///
/// Believed: a regular file is read as one, and no read waits for the writer of a pipe (premise 8; follow-file).
fn open_file<'a, R: FeedSystem, I: Read + Drop>(
    opening: &Opening<'a, '_, R>,
    gate: &'a Gate<'a, R>,
    known: Option<&Known<'_>>,
) -> Option<Beginning<'a, R, I>> {
    let file = fs::open(opening.rt, gate.path).ok()?;
    let kind = file.metadata().ok()?.file_type();
    if kind.is_file() {
        file_source(opening, gate, known, file)
    } else if kind.is_fifo() || kind.is_dir() {
        None
    } else {
        opening.signal.renewal.forbid();
        let device = Stream::new(opening.rt, opening.signal, gate, file);
        Some(Beginning::first(Source::Device(device)))
    }
}

/// Opens the file at the path of the gate as a feed, by the file's kind; where there is no such file, the old file of
/// the feed. A feed that the previous run had open is opened as it was. Returns `None` where there is no file, it
/// cannot be opened or read, it changes between a pipe and another kind before it is opened, or memory runs out.
///
/// Believed: the kind is checked before the file is opened, since opening a pipe for reading waits for a writer
/// (premises 8 and 10; follow-pipes, follow-file).
pub fn open_by_kind<'a, R: FeedSystem, I: Read + Drop>(
    opening: &Opening<'a, '_, R>,
    gate: &'a Gate<'a, R>,
    known: Option<&Known<'_>>,
) -> Option<Beginning<'a, R, I>> {
    if let Some(held) = open_held(opening, gate, known) {
        return Some(held);
    }
    let Ok(found) = fs::metadata(opening.rt, gate.path) else {
        return open_old(opening, gate, known);
    };
    if found.file_type().is_fifo() {
        let pipe = open_pipe(opening, gate, Node::of(&found))?;
        Some(Beginning::first(pipe))
    } else {
        open_file(opening, gate, known)
    }
}

/// The feed that was opened, or an absent feed where none was opened. A drained feed and the input are never absent:
/// where one of these was not opened, the result is `None`.
///
/// Believed: as [`Absent::new`] (absent-feed).
fn opened_or_absent<'a, R: FeedSystem, I: Read + Drop>(
    opening: &Opening<'a, '_, R>,
    gate: &'a Gate<'a, R>,
    known: Option<&Known<'_>>,
    opened: Option<Beginning<'a, R, I>>,
) -> Option<Beginning<'a, R, I>> {
    match opened {
        Some(beginning) => {
            gate.is_absent.clear();
            Some(beginning)
        }
        None if opening.drain || gate.path == INPUT => None,
        None => {
            let absent = Absent::new(opening, gate, known);
            Some(Beginning::first(Source::Absent(absent)))
        }
    }
}

/// Stores at the gate of the input how `wake` opens the pipe, where the input is one.
///
/// Believed: a reader of the input that waits for an empty pipe is woken (premises 8 and 10; follow-full).
fn note_input_pipe<R: Files + Clock + Wait>(opening: &Opening<'_, '_, R>, gate: &Gate<'_, R>) {
    if let Ok(found) = fs::metadata(opening.rt, INPUT_FILE)
        && found.file_type().is_fifo()
    {
        gate.set_way(opening.rt, Way::Named(Node::of(&found)));
    }
}

/// The feed over the program's input, which is taken out of `input`. `None` where another feed has it already.
///
/// Believed: as [`note_input_pipe`] (follow-full).
fn open_input<'a, R: FeedSystem, I: Read + Drop>(
    opening: &Opening<'a, '_, R>,
    gate: &'a Gate<'a, R>,
    input: &mut Option<I>,
) -> Option<Beginning<'a, R, I>> {
    opening.signal.renewal.forbid();
    note_input_pipe(opening, gate);
    let stream = Stream::new(opening.rt, opening.signal, gate, input.take()?);
    Some(Beginning::first(Source::Input(stream)))
}

/// The stop for a feed that was not opened. The fault may pass where a second attempt to open the feed succeeds, or
/// fails by a fault that may pass.
///
/// Believed: no pipe is opened, which would wait for a writer (premises 8 and 10; follow-drain).
fn unopened<'a, R: Files>(rt: &R, path: &'a str) -> FilesStop<'a>
    ensures { (paths : List (List ℕ)) → Contains paths path.now → StopsOpening paths result }
{
    let passes = match fs::metadata(rt, path) {
        Ok(found) if found.is_file() && path != INPUT => match fs::open(rt, path) {
            Ok(_) => true,
            Err(error) => may_pass(&error),
        },
        Ok(_) => false,
        Err(error) => may_pass(&error),
    };
    if passes {
        FilesStop::OpenPassing(path)
    } else {
        FilesStop::Open(path)
    }
}

/// Opens the feed of each gate, in order, and finds where the reading of each begins. A feed that cannot be opened is
/// absent until its file exists, and a feed that the call does not name ends at once. The path `-` is the program's
/// input, for one feed at most. Stores at the gate of each pipe how `wake` opens the pipe. Writes to no file.
///
/// # Errors
/// [`FilesStop::Open`] with the path of a second feed `-` or, with `drain`, of the first feed that cannot be opened;
/// [`FilesStop::OpenPassing`] where that may pass; or [`Stop::Memory`]. The feeds opened before it are closed; what was
/// stored at gates remains.
pub fn open_feeds<'a, R: FeedSystem, I: Read + Drop>(
    opening: &Opening<'a, '_, R>,
    gates: &'a [Gate<'a, R>],
    input: I,
) -> Result<OpenFeeds<'a, R, I>, FilesStop<'a>>
    ensures one_each { IfOk result (λ o. length o.sources.items ≡ length gates.now) }
    ensures starts { IfOk result (λ o. length o.starts.items ≡ length gates.now) }
    ensures stops { IfErr result (StopsOpening (map (λ g. g.path.now) gates.now)) }
{
    let mut input = Some(input);
    let Ok(mut sources) = Vec::with_capacity(opening.alloc, gates.len()) else {
        return Err(FilesStop::Other(Stop::Memory));
    };
    let Ok(mut starts) = Vec::with_capacity(opening.alloc, gates.len()) else {
        return Err(FilesStop::Other(Stop::Memory));
    };
    for feed in 0..gates.len() {
        let gate = &gates[feed];
        let opened = if gate.path == UNNAMED {
            Some(Beginning::first(Source::Unnamed))
        } else if gate.path == INPUT {
            open_input(opening, gate, &mut input)
        } else {
            open_by_kind(opening, gate, opening.known.get(feed))
        };
        match opened_or_absent(opening, gate, opening.known.get(feed), opened) {
            Some(Beginning { source, start }) => {
                sources.push_reserved(source);
                starts.push_reserved(start);
            }
            None => return Err(unopened(opening.rt, gate.path)),
        }
    }
    Ok(OpenFeeds { sources, starts })
}

//! Ends the read of a thread that waits for an empty pipe: the run writes a mark into the pipe. The reader and the
//! thread that wakes it share one state, `Gate::state`, which each of them changes atomically.
ghost use Rattle.std.specs.Prelude.{◌≡◌};

use super::flag::Flag;
use super::node::Node;
use super::rotated::Rotated;
use super::way::{Way, open_way};
use crate::pipe_text::{MARK, PipeText};
use crate::seen_lines::SeenLines;
use cmd_explain::put_shown_line;
use cmd_lines::LineFault;
use std::alloc::Global;
use std::fs::OpenFile;
use std::io::Write;
use std::rt::Files;
use std::sync::atomic::{AtomicU64, Ordering};
use std::sync::{Mutex, Wait};
use std::time::{Clock, Duration};
use std::{fs, mem, thread};

/// The reader is not in a read.
const AWAY: u64 = 0;

/// The reader is in a read, or about to begin one.
const READING: u64 = 1;

/// The reader is to end, and does not read again once its read has ended.
const WOKEN: u64 = 2;

/// The reader is to end, and the mark is being written into its pipe.
const WRITING: u64 = 3;

/// The reader was woken and has left its read.
const LEFT: u64 = 4;

/// How often the state is checked when a reader is woken: a choice. In this time a reader of a pipe with bytes leaves.
const LOOKS: u64 = 20;

/// The milliseconds between two checks of the state.
const BETWEEN: u64 = 5;

/// The node of an open file; `None` where it is no regular file, or the system does not say.
///
/// Believed: another file has another node (premise 8; rotation).
pub fn node_of<F: OpenFile>(file: &F) -> Option<Node> {
    match file.metadata() {
        Ok(found) if found.is_file() => Some(Node::of(&found)),
        _ => None,
    }
}

/// What a reader has to do after its read has ended.
#[derive(Clone, Copy, PartialEq, Eq)]
pub enum Leaving {
    /// The reader may read again: no thread has woken it.
    Free,
    /// The reader was woken, and must not read again.
    Woken,
    /// The reader was woken, and has to read once more: the mark is being written into its pipe, which has no room
    /// for it yet.
    Full,
}

/// The gate of a feed, which a feed that is a pipe, the input or a device uses. The reader calls `enter` before each
/// read and `leave` after the read. Once another thread has called `wake`, `enter` returns false.
#[derive(Drop)]
pub struct Gate<'a, R: Files> {
    alloc: Global,
    pub path: &'a str,
    /// The number of the feed.
    pub feed: u64,
    /// One of the five constants above.
    state: AtomicU64,
    /// How the pipe is opened for writing; `None` where the feed is no pipe, or `wake` has taken this value.
    way: Mutex<Option<Way<R::File>>>,
    /// The file or pipe, held open for the next run: so the system keeps the bytes in a pipe, and a file that has lost
    /// its name.
    held: Mutex<Option<R::File>>,
    /// The files that got the name of that file later, one after another, held open until they are read.
    later: Mutex<Vec<R::File>>,
    /// The bytes that were read from the pipe, which the reader passes on line by line.
    pub text: Mutex<PipeText>,
    /// Whether the file of the feed is no longer read, and its name refers to another file.
    pub is_replaced: Flag,
    /// Whether it was printed that the file was replaced, before `is_replaced` was set.
    pub is_replaced_printed: Flag,
    /// Whether the previous run read the old file of the feed to its end, so that no other old file is searched for.
    pub is_old_read: Flag,
    /// Whether it was printed that the file of the feed has lost its name.
    pub is_removed: Flag,
    /// Whether it was printed that the feed is absent.
    pub is_absent: Flag,
    /// Whether a command of the feed that waits for the system's clock is left to the next run.
    pub is_left: Flag,
    /// The lines that the sender got last; `None` where refused lines are not shown.
    seen: Option<Mutex<SeenLines>>,
}

impl<'a, R: Files> Gate<'a, R> {
    /// The gate of the feed of this path and number. Its reader is not in a read, and it has no way yet. With `verbose`
    /// it keeps the lines that are read, so that refused ones can be shown.
    pub fn new(alloc: Global, path: &'a str, feed: u64, verbose: bool) -> Gate<'a, R>
        ensures path { result.path.now ≡ path.now }
    {
        Gate {
            alloc,
            path,
            feed,
            state: AtomicU64::new(AWAY),
            way: Mutex::new(None),
            held: Mutex::new(None),
            later: Mutex::new(Vec::new(alloc)),
            text: Mutex::new(PipeText::new(Vec::new(alloc))),
            is_replaced: Flag::new(),
            is_replaced_printed: Flag::new(),
            is_old_read: Flag::new(),
            is_removed: Flag::new(),
            is_absent: Flag::new(),
            is_left: Flag::new(),
            seen: if verbose {
                Some(Mutex::new(SeenLines::new(alloc)))
            } else {
                None
            },
        }
    }

    /// Keeps the bytes that the sender gets now, where refused lines are shown.
    ///
    /// Believed: if memory runs out, a refused line is shown without its bytes (no premise; verbose).
    pub fn see<W: Wait>(&self, rt: &W, bytes: &[u8]) {
        if let Some(seen) = &self.seen {
            seen.lock(rt).note(bytes);
        }
    }

    /// The line that shows the refused line of this number, counted from 1 in this run; `None` where refused lines are
    /// not shown, or memory runs out.
    ///
    /// Believed: the bytes are those of the line (premise 11; verbose).
    pub fn show<W: Wait>(&self, rt: &W, number: u64, fault: LineFault) -> Option<Vec<u8>> {
        let seen = self.seen.as_ref()?.lock(rt);
        let mut text = Vec::new(self.alloc);
        put_shown_line(&mut text, self.path.as_bytes(), fault, seen.line(number)).ok()?;
        Some(text)
    }

    /// Stores how `wake` gets this feed's pipe open for writing, instead of an earlier way. The reader's state is
    /// unchanged.
    ///
    /// Believed: `wake` finds this way (premise 11; follow-full).
    pub fn set_way<W: Wait>(&self, rt: &W, way: Way<R::File>) {
        *self.way.lock(rt) = Some(way);
    }

    /// Holds the file or pipe open for the next run.
    ///
    /// Believed: the system keeps the bytes that no run has read until the next run has it open (premises 1 and 10;
    /// rotation, ahead-rotation).
    pub fn hold<W: Wait>(&self, rt: &W, file: Option<R::File>) {
        *self.held.lock(rt) = file;
    }

    /// Takes the file or pipe that is held open.
    ///
    /// Believed: as [`hold`](Gate::hold) (rotation).
    pub fn take_held<W: Wait>(&self, rt: &W) -> Option<R::File> {
        self.held.lock(rt).take()
    }

    /// Whether the file that is held open is this one.
    ///
    /// Believed: another file has another node (premise 8; rotation).
    pub fn holds<W: Wait>(&self, rt: &W, file: &R::File) -> bool {
        match (&*self.held.lock(rt), node_of(file)) {
            (Some(held), Some(node)) => node_of(held) == Some(node),
            _ => false,
        }
    }

    /// Adds these files to those that got the name of the feed later. If memory runs out, drops them.
    ///
    /// Believed: they are read in this order (premise 11; rotation).
    pub fn add_later<W: Wait>(&self, rt: &W, files: Vec<R::File>) {
        let mut later = self.later.lock(rt);
        for file in files {
            let _ = later.push(file);
        }
    }

    /// Takes all files that got the name of the feed later.
    ///
    /// Believed: as [`add_later`](Gate::add_later) (rotation).
    pub fn take_later<W: Wait>(&self, rt: &W, alloc: Global) -> Vec<R::File> {
        mem::replace(&mut *self.later.lock(rt), Vec::new(alloc))
    }

    /// Takes the first of the files that got the name of the feed later and are not read yet.
    ///
    /// Believed: as [`add_later`](Gate::add_later) (rotation).
    pub fn take_next<W: Wait>(&self, rt: &W) -> Option<R::File> {
        let mut later = self.later.lock(rt);
        if later.is_empty() {
            None
        } else {
            Some(later.remove(0))
        }
    }

    /// Begins with these bytes of the pipe, which the previous run left.
    ///
    /// Believed: the reader passes them on first (premise 11; rotation).
    pub fn give_bytes<W: Wait>(&self, rt: &W, left: Vec<u8>) {
        *self.text.lock(rt) = PipeText::new(left);
    }

    /// Takes the bytes that this run leaves to the next one. They begin with a line, of which the sender may already
    /// have got a part, but not the whole.
    ///
    /// Believed: each line is either left or passed on, never both (premise 11; rotation, ahead-rotation).
    pub fn take_bytes<W: Wait>(&self, rt: &W, alloc: Global) -> Vec<u8> {
        let mut text = self.text.lock(rt);
        text.take_back_part();
        text.take_left(alloc)
    }

    /// Takes back from the sender the line of this number and all bytes after it, so that they are left to the next
    /// run.
    ///
    /// Believed: exactly the lines before it were sent (premise 11; ahead-rotation).
    pub fn take_back<W: Wait>(&self, rt: &W, line: u64) {
        self.text.lock(rt).take_back_line(line);
    }

    /// Whether it is still to be printed that the file was replaced.
    ///
    /// Believed: the line is printed once for each file (premise 11; rotation, absent-feed, cut-file).
    pub fn is_unprinted(&self) -> bool {
        self.is_replaced.is_set() && !self.is_replaced_printed.is_set()
    }

    /// Changes the state from `from` to `to` and returns true. Returns false where the state is not `from`; then the
    /// state is unchanged.
    ///
    /// Believed: no other thread changes the state in between (premise 11; follow-full).
    fn change_state(&self, from: u64, to: u64) -> bool {
        self.state
            .compare_exchange(from, to, Ordering::SeqCst, Ordering::SeqCst)
            .is_ok()
    }

    /// Sets the state to reading and returns true: the reader may read, and has to call [`leave`](Gate::leave) after
    /// the read. Returns false where the reader was woken: it may not read, and the state is unchanged. Requires that
    /// the reader is not in a read.
    ///
    /// Believed: a reader that was woken begins no read (premise 11; follow-full).
    pub fn enter(&self) -> bool {
        self.change_state(AWAY, READING)
    }

    /// Ends a read: where nobody has woken the reader, sets the state to away. Returns what the reader has to do next.
    /// Where the reader was woken, waits at most 100 ms while the mark is being written into its pipe.
    ///
    /// Believed: the reader that was woken takes no byte that [`wake`](Gate::wake) wrote as one of its feed (premises
    /// 9, 10 and 11; follow-full).
    pub fn leave<C: Clock>(&self, rt: &C) -> Leaving {
        if self.change_state(READING, AWAY) {
            return Leaving::Free;
        }
        for _ in 0..LOOKS {
            if self.change_state(WOKEN, LEFT) {
                return Leaving::Woken;
            }
            thread::sleep(rt, Duration::from_millis(BETWEEN));
        }
        Leaving::Full
    }

    /// Sets the state to woken where no thread has woken the reader before, and else changes nothing. Returns whether
    /// the reader is in a read that this call has to end.
    ///
    /// Believed: of several threads that call it, one ends the read (premise 11; follow-full, rotation).
    fn call_out(&self) -> bool {
        let before = self
            .state
            .fetch_update(Ordering::SeqCst, Ordering::SeqCst, |state| match state {
                AWAY | READING => Some(WOKEN),
                _ => None,
            });
        before == Ok(READING)
    }

    /// Waits until the reader that was woken has left its read, at most 100 ms. Returns whether it has. Changes
    /// nothing.
    ///
    /// Believed: a reader of a pipe with bytes leaves in that time (premises 9 and 11; follow-full).
    fn wait_until_left<C: Clock>(&self, rt: &C) -> bool {
        for _ in 0..LOOKS {
            if self.state.load(Ordering::SeqCst) == LEFT {
                return true;
            }
            thread::sleep(rt, Duration::from_millis(BETWEEN));
        }
        false
    }
}

impl<'a, R: Files + Wait> Gate<'a, R> {
    /// The node of the held file that got the name of the feed last; `None` where no file is held.
    ///
    /// Believed: as [`note_name`](Gate::note_name) (rotation).
    fn last_node(&self, rt: &R) -> Option<Node> {
        match self.later.lock(rt).last() {
            Some(file) => node_of(file),
            None => node_of(self.held.lock(rt).as_ref()?),
        }
    }

    /// Where the name of the feed refers to a regular file that is not the last one held, holds this file too, and the
    /// files that had the name in between, so that each is read even if a further file gets the name. `gates` are those
    /// of all feeds.
    ///
    /// Believed: each file that has the name for a quarter of a second is held, and so is a file that a rotation
    /// renamed sooner (premise 8; rotation, ahead-rotation).
    pub fn note_name(&self, rt: &R, gates: &[Gate<'a, R>]) {
        let (Some(last), Ok(named)) = (self.last_node(rt), fs::metadata(rt, self.path)) else {
            return;
        };
        // Opening a pipe would wait for its writer.
        if !named.is_file() || last == Node::of(&named) {
            return;
        }
        let Ok(file) = fs::open(rt, self.path) else {
            return;
        };
        let Some(present) = node_of(&file) else {
            return;
        };
        let rotated = Rotated {
            path: self.path,
            gates,
        };
        let mut files = rotated.between(rt, self.alloc, last, present);
        if present != last && files.push(file).is_ok() {
            self.add_later(rt, files);
        }
    }
}

impl<'a, R: Files + Clock + Wait> Gate<'a, R> {
    /// Makes `enter` return false from now on. Ends the read that the reader is in, and waits for the end of that read.
    ///
    /// A reader that does not leave within 100 ms waits for an empty pipe: the mark is written into the pipe, which
    /// ends the read. Another reader of the pipe may take the mark, so one more is written until this reader has
    /// left. Where the pipe cannot be opened or written, for example where it lost its name before its first writer
    /// came, the reader stays in its read.
    ///
    /// Believed: the reader ends, and no byte of its feed is lost except those after the last whole line (premises 10
    /// and 11; follow-full).
    pub fn wake(&self, rt: &R) {
        if !self.call_out() || self.wait_until_left(rt) {
            return;
        }
        let Some(way) = self.way.lock(rt).take() else {
            return;
        };
        let Some(mut pipe) = open_way(rt, self.alloc, self.path, way) else {
            return;
        };
        for _ in rt.forever() {
            if !self.change_state(WOKEN, WRITING) {
                break;
            }
            let written = pipe.write(MARK);
            self.state.store(WOKEN, Ordering::SeqCst);
            if written.is_err() || self.wait_until_left(rt) {
                break;
            }
        }
    }
}

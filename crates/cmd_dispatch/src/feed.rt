//! A feed: the source of a sender's commands. Most feeds are bytes that spell the commands: they are in memory
//! (`Bytes`), or come from a reader from outside (`Outside`), and each read takes the next bytes. A feed may make its
//! commands instead: then no bytes are read.
ghost use Rattle.std.specs.Prelude.{◌≡◌, ◌≤◌, ◌⊎◌, ℕ, Bool, true, false, List, Some, Option, IfOk, IfSome, IsTrue, OnErr, length};
ghost use Rattle.std.specs.Io.KnownBytes.{ReadConsumes, IsAtEnd};
ghost use Rattle.cmd_dispatch.specs.Feeds.{IsMade, MakeConsumes};

use cmd_types::Stamped;
use std::io::Read;
use std::marker::Send;
use std::sync::Wait;

/// The most bytes of the canonical line of a command that a feed makes, with the line feed: a choice. A command with
/// one number has fewer.
pub const LONGEST_MADE: u64 = 64;

/// A read of a feed failed, or a feed could not make its next command. The cause is not kept.
///
/// See the example of [`Feed`].
#[derive(Clone, Copy, Debug, PartialEq, Eq)]
pub struct FeedFailed;

/// A source of bytes, which one thread reads piece by piece, or a source of commands that it makes (profile).
///
/// ```
/// let mut feed = Bytes::new(b"ab");
/// let mut buffer = [0u8; 4];
/// assert_eq!(rt; feed.read(&rt, &mut buffer).ok(), Some(2));
/// assert_eq!(rt; feed.read(&rt, &mut buffer).ok(), Some(0));
/// ```
pub trait Feed: Send + Drop {
    // The bytes that its reads will give from here on, where they are known.
    ghost remaining: { Self → Option (List ℕ) };

    // Whether a read may fail.
    ghost fails: { Self → Bool };

    // Whether each read fills the buffer, while enough bytes are left.
    ghost fills: { Self → Bool };

    /// Takes the next bytes of the feed into the front of the buffer, and returns their number. May wait. For a
    /// buffer that is not empty, returns 0 only at the end of the feed.
    ///
    /// # Errors
    /// [`FeedFailed`]: the read failed. Only a read of a [`failing`](Feed::failing) feed fails, and a feed that is not
    /// failing never becomes so.
    fn read<W: Wait>(&mut self, rt: &W, buffer: &mut [u8]) -> Result<usize, FeedFailed>
        ensures bound { IfOk result (λ n. n ≤ length buffer.new) }
        ensures bytes { ReadConsumes (remaining self.old) (remaining self.new) result buffer.new }
        ensures failed { OnErr result (fails self.old ≡ true) }
        ensures steady { fails self.old ≡ false → fails self.new ≡ false }
        ensures filled { fills self.old ≡ true → IfOk result (λ n. (n ≡ length buffer.new) ⊎ IsAtEnd (remaining self.new)) }
        ensures filling { fills self.old ≡ true → fills self.new ≡ true };

    /// Whether a read may fail: only such a feed has the ending `ReadFailed`. No run calls it: it is for callers and
    /// tests, and shows what the contract of a run promises of this feed.
    fn failing(&self) -> bool
        ensures { result ≡ fails self.now };

    /// Whether the feed makes its commands: then the sender calls [`make`](Feed::make) for each command, and never
    /// [`read`](Feed::read). True only for a [`failing`](Feed::failing) feed.
    fn makes(&self) -> bool
        ensures { IsTrue result → fails self.now ≡ true }
    {
        false
    }

    /// Makes the next command of the feed; returns `None` at the end of the feed. May wait. The command counts as its
    /// canonical line among the bytes of the feed; this line has at most [`LONGEST_MADE`] bytes with its line feed.
    ///
    /// # Errors
    /// [`FeedFailed`]: no command was made, which is always so for a feed of bytes.
    fn make<W: Wait>(&mut self, _rt: &W) -> Result<Option<Stamped>, FeedFailed>
        ensures made { IfOk result (λ o. IfSome o IsMade) }
        ensures bytes { MakeConsumes (remaining self.old) (remaining self.new) result }
    {
        Err(FeedFailed)
    }
}

/// A feed over memory (profile). Contracts know its bytes. Its reads never fail, and each read fills the buffer while
/// enough bytes are left.
///
/// See the example of [`run`].
#[derive(Drop)]
pub struct Bytes<'a> {
    /// The bytes that were not read yet.
    pub rest: &'a [u8],
}

impl<'a> Bytes<'a> {
    /// A feed over `bytes`, none of which is read yet. Takes no memory.
    pub fn new(bytes: &'a [u8]) -> Bytes<'a>
        ensures { result.rest.now ≡ bytes.now }
    {
        Bytes { rest: bytes }
    }
}

impl Feed for Bytes<'_> {
    ghost remaining = { λ b. Some b.rest.now };

    ghost fails = { λ _. false };

    ghost fills = { λ _. true };

    /// Copies the next bytes to the front of the buffer, as many as the buffer has room for. Never fails.
    fn read<W: Wait>(&mut self, _rt: &W, buffer: &mut [u8]) -> Result<usize, FeedFailed> {
        self.rest.read(buffer).map_err(|_| FeedFailed)
    }

    /// Returns false: the bytes are in memory.
    fn failing(&self) -> bool {
        false
    }
}

/// A feed over a reader from outside, such as a file or a pipe (profile). Contracts know its bytes where
/// they know those of the reader, and each of its reads may fail.
///
/// ```
/// // INVENTORY: the text of an inventory with the host web
/// let inventory = Inventory::parse(alloc, INVENTORY)?;
/// let mut readers = Vec::new(alloc);
/// readers.push(Outside::new(b"[1] RESTART_PROGRAM\n".as_slice()))?;
/// let Ok(report) = run(&rt, alloc, inventory, readers, OPTIONS) else {
///     return Err(Fail::new("a report"));
/// };
/// assert_eq!(rt; report.journal.len(), 1);
/// ```
#[derive(Drop)]
pub struct Outside<R: Read + Send + Drop> {
    pub reader: R,
}

impl<R: Read + Send + Drop> Outside<R> {
    /// A feed that reads from the reader. Takes no memory.
    pub fn new(reader: R) -> Outside<R>
        ensures { result.reader ≡ reader }
    {
        Outside { reader }
    }
}

impl<R: Read + Send + Drop> Feed for Outside<R> {
    ghost remaining = { λ o. R.remaining o.reader };

    ghost fails = { λ _. true };

    ghost fills = { λ _. false };

    /// Reads once from the reader. Fails with [`FeedFailed`] where this read fails; the reader's error is dropped.
    fn read<W: Wait>(&mut self, _rt: &W, buffer: &mut [u8]) -> Result<usize, FeedFailed> {
        self.reader.read(buffer).map_err(|_| FeedFailed)
    }

    /// Returns true: any reader from outside may fail.
    fn failing(&self) -> bool {
        true
    }
}

//! Skips the lines of a text up to and including the line of its n-th command. A line is read as soon as its line feed
//! is fed, so at most one unfinished line is kept. If memory runs out, the caller starts again.

ghost use Rattle.std.specs.Prelude.{◌≡◌, ◌≤◌, ◌<◌, ◌+◌, ◌∷◌, [], ◌++◌, ℕ, List, length, Some, IfOk, IfSome, IfNone, OnOk};
ghost use Rattle.std.specs.Option.{option_to_list};
ghost use Rattle.cmd_types.specs.Bytes.{Lacks};
ghost use Rattle.cmd_lines.specs.declared.phase.Phase.TheVariants.{Open};
ghost use Rattle.cmd_lines.specs.Items.{items};
ghost use Rattle.cmd_lines.specs.Reader.{Stands};
ghost use Rattle.cmd_lines.specs.Skips.{IsSkipped, Skips, HasPassed, IsEnd};

use crate::item::Item;
use crate::lines::{Lines, MOST_FED};
use crate::split::split_before;
use cmd_types::{Memory, Stamped, definitions_agree};
use std::alloc::Global;
use std::marker::Model;

/// What was skipped of a text: the bytes and lines up to and including the line of its n-th command (profile). For 0
/// commands both counts are 0, and `last` is `None`.
///
/// See the example of [`Skipping`].
#[derive(Drop)]
pub struct Skipped {
    /// The number of bytes of the text, up to and including the line feed of that line.
    pub bytes: u64,
    /// The number of lines in these bytes, empty and refused lines included.
    pub lines: u64,
    /// The n-th command, with its time.
    pub last: Option<Stamped>,
}

/// The state of skipping: more of the text is needed, or the line of the n-th command came (profile).
///
/// See the example of [`Skipping`].
#[derive(Drop)]
pub enum Skip {
    /// Fewer than n commands came so far; the next piece is to be fed to this value.
    More(Skipping),
    /// The n-th command came.
    Done(Skipped),
}

/// Skips the lines of a text that comes in pieces, up to and including the line of its n-th command (profile).
///
/// A line counts once its line feed is fed. Refused lines and empty lines are no commands.
///
/// ```
/// let Skip::More(skipping) = Skipping::new(alloc, 1) else {
///     return Err(Fail::new("a command is to come"));
/// };
/// let Skip::More(skipping) = skipping.feed(alloc, b"x\n[2] RESTART_PRO")? else {
///     return Err(Fail::new("the line is not finished"));
/// };
/// let Skip::Done(skipped) = skipping.feed(alloc, b"GRAM\n[3] RESTART_PROGRAM\n")? else {
///     return Err(Fail::new("the command came"));
/// };
/// assert_eq!(rt; (skipped.bytes, skipped.lines), (22, 2));
/// ```
#[derive(Drop)]
pub struct Skipping {
    /// Reads the unfinished line, as the first line of a text.
    reader: Lines,
    left: u64,
    fed: u64,
    lines: u64,
}

impl Model for Skipping {
    ghost use Rattle.std.specs.Prelude.{◌≡◌, ◌≤◌, ◌<◌};
    ghost use Rattle.cmd_lines.specs.declared.lines.TheConstants.{MOST_FED};
    ghost use Rattle.cmd_lines.specs.declared.phase.Phase.TheVariants.{Open};
    ghost use Rattle.cmd_lines.specs.Reader.{Passing};

    ghost Value = { Passing };

    ghost view = { λ s. record { waiting = s.reader; left = s.left; fed = s.fed; lines = s.lines } };

    ghost invariant = { λ s. (s.reader.phase ≡ Open) × (s.reader.fed ≤ s.fed) × (s.lines ≤ s.fed) × (s.fed ≤ MOST_FED) × (0 < s.left) };
}

impl Skipping {
    /// Begins to skip `count` commands of a text of which no byte was fed yet. Returns `Done` at once if `count` is 0.
    /// Takes no memory.
    pub fn new(alloc: Global, count: u64) -> Skip
        ensures { HasPassed count [] result }
    {
        if count == 0 {
            return Skip::Done(Skipped {
                bytes: 0,
                lines: 0,
                last: None,
            });
        }
        Skip::More(Skipping {
            reader: Lines::new(alloc),
            left: count,
            fed: 0,
            lines: 0,
        })
    }

    /// The number of bytes fed.
    pub fn fed(&self) -> u64
        ensures { result ≡ self.now.fed }
    {
        self.fed
    }

    /// Takes the next piece of the text, and returns `Done` if the line of the n-th command ends in it; the
    /// bytes after that line are not read. Requires at most [`MOST_FED`] bytes together with the bytes already
    /// [`fed`](Skipping::fed).
    ///
    /// # Errors
    /// Out of memory: this value is dropped, and the text has to be skipped again from its beginning.
    pub fn feed(mut self, alloc: Global, piece: &[u8]) -> Result<Skip, Memory>
        requires { self.fed + length piece.now ≤ MOST_FED }
        ensures { IfOk result (λ s. (n : ℕ) (f : List ℕ) → Skips self n f → HasPassed n (f ++ piece.now) s) }
    {
        // For the proof alone, at no cost when it runs: a text is whole lines, and what follows its last line feed.
        definitions_agree();
        let mut rest = piece;
        'lines: while let Some((line, after)) = first_line(rest) {
            if let Some(stamped) = self.end_line(alloc, line)? {
                return Ok(Skip::Done(Skipped {
                    bytes: self.fed,
                    lines: self.lines,
                    last: Some(stamped),
                }));
            }
            rest = after;
        }
        self.begin_line(alloc, rest)?;
        Ok(Skip::More(self))
    }

    /// Feeds `part` of a line whose line feed has not come. If memory runs out, the counts are off, so `feed` drops
    /// this value.
    fn begin_line(&mut self, alloc: Global, part: &[u8]) -> Result<(), Memory>
        requires room { self.old.fed + length part.now ≤ MOST_FED }
        requires one { Lacks 10 part.now }
        ensures { OnOk result ((n : ℕ) (f : List ℕ) → Skips self.old n f → Skips self.new n (f ++ part.now)) }
    {
        // For the proof alone, at no cost when it runs: bytes without a line feed continue the line.
        definitions_agree();
        self.fed += part.len() as u64;
        self.reader.feed(alloc, part)
    }

    /// Ends the current line with `end`, counts the line, and returns its command if it is the n-th, else `None`. If
    /// memory runs out, the counts are off, so `feed` drops this value.
    fn end_line(&mut self, alloc: Global, end: &[u8]) -> Result<Option<Stamped>, Memory>
        requires room { self.old.fed + length end.now ≤ MOST_FED }
        requires ended { IsEnd end.now }
        ensures some { IfOk result (λ o. IfSome o (λ t. (n : ℕ) (f : List ℕ) → Skips self.old n f →
            IsSkipped (f ++ end.now) n (record { bytes = self.new.fed; lines = self.new.lines; last = Some t }))) }
        ensures none { IfOk result (λ o. IfNone o ((n : ℕ) (f : List ℕ) → Skips self.old n f → Skips self.new n (f ++ end.now))) }
        ensures fed { OnOk result (self.new.fed ≡ self.old.fed + length end.now) }
    {
        // For the proof alone, at no cost when it runs: the items of whole lines and of one line more are those of
        // both.
        definitions_agree();
        self.fed += end.len() as u64;
        let item = end_item(&mut self.reader, alloc, end)?;
        self.lines += 1;
        match item {
            Some(Item::Command(stamped)) => {
                if self.left == 1 {
                    return Ok(Some(stamped));
                }
                self.left -= 1;
                Ok(None)
            }
            // Two arms with the same value: joined, they would lose what the proof knows of the item.
            Some(Item::Refused { .. }) => Ok(None),
            None => Ok(None),
        }
    }
}

/// The first line of a text with its line feed, and the bytes after it; `None` where there is no line feed.
fn first_line(text: &[u8]) -> Option<(&[u8], &[u8])>
    ensures some { IfSome result (λ p. (text.now ≡ p.0.now ++ p.1.now) × IsEnd p.0.now × (length p.1.now < length text.now)) }
    ensures none { IfNone result (Lacks 10 text.now) }
{
    // For the proof alone, at no cost when it runs: no byte before the first line feed is one.
    definitions_agree();
    let (line, back) = split_before(b'\n', text);
    if back.is_empty() {
        return None;
    }
    Some(text.split_at(line.len() + 1))
}

/// Feeds `reader` the `end` of its unfinished line, and returns the item of that line, or `None` for an empty line. The
/// reader then begins a new text with the next line. If memory runs out, the reader may have taken `end`.
fn end_item(reader: &mut Lines, alloc: Global, end: &[u8]) -> Result<Option<Item>, Memory>
    requires open { reader.old.phase ≡ Open }
    requires room { reader.old.fed + length end.now ≤ MOST_FED }
    requires ended { IsEnd end.now }
    ensures item { IfOk result (λ o. (begun : List ℕ) → Lacks 10 begun → Stands reader.old begun [] → items (begun ++ end.now) ≡ option_to_list o) }
    ensures begins { OnOk result (Stands reader.new [] []) }
    ensures open { reader.new.phase ≡ Open }
    ensures fed { reader.new.fed ≤ reader.old.fed + length end.now }
{
    // For the proof alone, at no cost when it runs: one line has one item at most.
    definitions_agree();
    reader.feed(alloc, end)?;
    let item = reader.next_item(alloc)?;
    reader.restart();
    Ok(item)
}

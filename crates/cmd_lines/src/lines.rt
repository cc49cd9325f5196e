//! A reader of a text that is fed in pieces. It returns the items of the text's lines in order, the same items however
//! the text is cut into pieces. If memory runs out, the reader is unchanged.

ghost use Rattle.std.specs.Prelude.{◌≡◌, ◌≢◌, ◌≤◌, ◌<◌, ◌+◌, ◌∷◌, [], ◌++◌, ℕ, List, length, take, true, IfOk, IfSome, IfNone, MatchBool, OnOk, OnErr, Option, vec_len, vec_capacity};
ghost use Rattle.cmd_lines.specs.declared.phase.Phase.TheVariants.{Open, Finished, CutOff};
ghost use Rattle.cmd_lines.specs.declared.item.Item.{Item};
ghost use Rattle.cmd_lines.specs.Items.{known, IsOfText};
ghost use Rattle.cmd_lines.specs.Reader.{Stands, IsNextCommand, IsPut};
ghost use Rattle.cmd_lines.specs.Unfinished.{last_line, most_held};

use crate::fault::LineFault;
use crate::item::{Item, Put};
use crate::kept::UnreadBytes;
use crate::last_number::LastNumber;
use crate::line_item::{item_at, put_at, rest_item};
use crate::phase::Phase;
use crate::step::{Step, next_line, past_empty};
use cmd_types::{Memory, Stamped, definitions_agree};
use std::alloc::Global;
use std::marker::Model;

/// The most bytes that a reader takes, 2^63 - 1: a choice, so that the number of lines, at most one more, fits 64 bits.
/// No text that a run can read has more bytes (profile).
pub const MOST_FED: u64 = 9_223_372_036_854_775_807;

/// Reads the lines of a text that comes in pieces (External Commands).
///
/// However the text is cut into pieces, the reader returns the items of the bytes fed, in order. While the text may
/// still grow, these are the items of the lines up to the last line feed. After [`finish`](Lines::finish) they are the
/// items of the whole text; after [`cut_off`](Lines::cut_off) the items of a text that broke off.
///
/// ```
/// let mut lines = Lines::new(alloc);
/// lines.feed(alloc, b"[2] RESTART_PRO")?;
/// assert!(rt; lines.next_item(alloc)?.is_none());
/// lines.feed(alloc, b"GRAM\n[3]")?;
/// assert!(rt; lines.next_item(alloc)?.is_some());
/// assert_eq!(rt; lines.held(), b"[3]".as_slice());
/// assert_eq!(rt; lines.first_waiting(), 2);
/// ```
#[derive(Drop)]
pub struct Lines {
    kept: UnreadBytes,
    number: u64,
    fed: u64,
    phase: Phase,
    /// Reads the times of the lines.
    last: LastNumber,
}

impl Model for Lines {
    ghost use Rattle.std.specs.Prelude.{◌≤◌, ◌+◌, length};
    ghost use Rattle.cmd_lines.specs.declared.lines.TheConstants.{MOST_FED};
    ghost use Rattle.cmd_lines.specs.Unfinished.{pending_of};
    ghost use Rattle.cmd_lines.specs.Reader.{Waiting};

    ghost Value = { Waiting };

    ghost view = { λ l. record { pending = pending_of l.kept; held = l.kept.held; number = l.number; fed = l.fed; phase = l.phase } };

    ghost invariant = { λ l. (l.number + length (pending_of l.kept) ≤ l.fed + 1) × (l.fed ≤ MOST_FED) };
}

impl Lines {
    /// A reader of a text of which no byte was fed yet. Takes no memory.
    pub fn new(alloc: Global) -> Lines
        ensures stands { Stands result [] [] }
        ensures open { result.phase ≡ Open }
        ensures pending { result.pending ≡ [] }
        ensures fed { result.fed ≡ 0 }
    {
        Lines {
            kept: UnreadBytes::new(alloc),
            number: 1,
            fed: 0,
            phase: Phase::Open,
            last: LastNumber::new(),
        }
    }

    /// The number of bytes fed.
    pub fn fed(&self) -> u64
        ensures { result ≡ self.now.fed }
    {
        self.fed
    }

    /// The number, from 1, of the first line whose item was not returned yet. A returned item raises the number to that
    /// of the line after the item's line. Empty lines count, and are passed over with the next item or the next piece.
    pub fn first_waiting(&self) -> u64
        ensures { result ≡ self.now.number }
    {
        self.number
    }

    /// Whether `finish` or `cut_off` was called.
    pub fn ended(&self) -> bool
        ensures { MatchBool result (self.now.phase ≢ Open) (self.now.phase ≡ Open) }
    {
        match self.phase {
            Phase::Open => false,
            _ => true,
        }
    }

    /// The kept bytes of the unfinished last line, after the last line feed: at most one byte more than
    /// [`LONGEST_LINE`](cmd_types::LONGEST_LINE), since no further byte of a line is kept. Requires that the text has
    /// not [`ended`](Lines::ended). Takes no memory.
    pub fn held(&self) -> &[u8]
        requires { self.now.phase ≡ Open }
        ensures { (f : List ℕ) (g : List Item) → Stands self.now f g → result.now ≡ take most_held (last_line f) }
    {
        self.kept.held()
    }

    /// Takes the next piece of the text; no item is returned yet. Requires at most [`MOST_FED`] bytes together
    /// with the bytes already [`fed`](Lines::fed), and that the text has not [`ended`](Lines::ended).
    ///
    /// # Errors
    /// Out of memory: the reader is unchanged.
    pub fn feed(&mut self, _alloc: Global, piece: &[u8]) -> Result<(), Memory>
        requires open { self.old.phase ≡ Open }
        requires room { self.old.fed + length piece.now ≤ MOST_FED }
        ensures stands { OnOk result ((f : List ℕ) (g : List Item) → Stands self.old f g → Stands self.new (f ++ piece.now) g) }
        ensures fed { OnOk result (self.new.fed ≡ self.old.fed + length piece.now) }
        ensures pending { OnOk result (length self.new.pending ≤ length self.old.pending + length piece.now) }
        ensures open { self.new.phase ≡ Open }
        ensures err { OnErr result (self.new ≡ self.old) }
    {
        self.kept.add(piece)?;
        self.fed += piece.len() as u64;
        self.pass_empty();
        Ok(())
    }

    /// Marks the empty lines at the front of the unread bytes as read, so that no later call walks over them. The items
    /// still to come are unchanged.
    fn pass_empty(&mut self)
        ensures stands { (f : List ℕ) (g : List Item) → Stands self.old f g → Stands self.new f g }
        ensures pending { length self.new.pending ≤ length self.old.pending }
        ensures phase { self.new.phase ≡ self.old.phase }
        ensures fed { self.new.fed ≡ self.old.fed }
    {
        let (rest, number) = past_empty(self.kept.bytes(), self.number);
        let waiting = rest.len();
        self.kept.mark_read(waiting);
        self.number = number;
    }

    /// Makes this the reader of another text, of which no byte was fed yet. Drops the unread bytes, and keeps the
    /// memory of the buffer.
    pub(crate) fn restart(&mut self)
        ensures stands { Stands self.new [] [] }
        ensures open { self.new.phase ≡ Open }
        ensures fed { self.new.fed ≡ 0 }
    {
        // For the proof alone, at no cost when it runs: nothing is one line of no bytes.
        definitions_agree();
        self.kept.clear();
        self.number = 1;
        self.fed = 0;
        self.phase = Phase::Open;
    }

    /// Marks the text as ended: an unfinished last line that is not empty now counts as a line, and
    /// [`next_item`](Lines::next_item) returns its item. Nothing else changes. Requires that the text has not
    /// [`ended`](Lines::ended) before. Takes no memory.
    pub fn finish(&mut self)
        requires { self.old.phase ≡ Open }
        ensures stands { (f : List ℕ) (g : List Item) → Stands self.old f g → Stands self.new f g }
        ensures finished { self.new.phase ≡ Finished }
        ensures pending { self.new.pending ≡ self.old.pending }
        ensures fed { self.new.fed ≡ self.old.fed }
        ensures number { self.new.number ≡ self.old.number }
    {
        self.phase = Phase::Finished;
    }

    /// Marks the text as broken off: the item of an unfinished last line that is not empty is now a refused
    /// line, with [`LineFault::TooLong`] where the line is too long, else with [`LineFault::Torn`]. Nothing else
    /// changes. Requires that the text has not [`ended`](Lines::ended) before. Takes no memory.
    pub fn cut_off(&mut self)
        requires { self.old.phase ≡ Open }
        ensures stands { (f : List ℕ) (g : List Item) → Stands self.old f g → Stands self.new f g }
        ensures cut_off { self.new.phase ≡ CutOff }
        ensures pending { self.new.pending ≡ self.old.pending }
        ensures fed { self.new.fed ≡ self.old.fed }
        ensures number { self.new.number ≡ self.old.number }
    {
        self.phase = Phase::CutOff;
    }

    /// Returns the next item and marks its line as read. Returns `None`, and changes nothing, where the bytes fed have
    /// no further item: then the items returned are all items of these bytes.
    ///
    /// # Errors
    /// Out of memory: the reader is unchanged, and the same item is still next, which is a command. A line at fault
    /// takes no memory.
    pub fn next_item(&mut self, alloc: Global) -> Result<Option<Item>, Memory>
        ensures some { IfOk result (λ o. IfSome o (λ i. (f : List ℕ) (g : List Item) → Stands self.old f g → Stands self.new f (g ++ i ∷ []))) }
        ensures of_text { IfOk result (λ o. IfSome o IsOfText) }
        // So a loop over the items ends.
        ensures falls { IfOk result (λ o. IfSome o (λ _. length self.new.pending < length self.old.pending)) }
        ensures counts { IfOk result (λ o. IfSome o (λ _. self.old.number < self.new.number)) }
        ensures none { IfOk result (λ o. IfNone o ((f : List ℕ) (g : List Item) → Stands self.old f g → known self.old.phase f ≡ g)) }
        ensures kept { IfOk result (λ o. IfNone o (self.new ≡ self.old)) }
        ensures phase { self.new.phase ≡ self.old.phase }
        ensures fed { self.new.fed ≡ self.old.fed }
        ensures memory { OnErr result ((f : List ℕ) (g : List Item) → Stands self.old f g → IsNextCommand self.old.phase f g) }
        ensures err { OnErr result (self.new ≡ self.old) }
    {
        // For the proof alone, at no cost when it runs: a line spells at most one command.
        definitions_agree();
        match next_line(self.kept.bytes(), self.number) {
            Step::Line { line, rest, number } => {
                let item = item_at(alloc, number, line, &mut self.last)?;
                let left = rest.len();
                self.kept.mark_read(left);
                self.number = number + 1;
                Ok(Some(item))
            }
            Step::Rest { rest, number } => match rest_item(
                alloc,
                self.phase,
                number,
                rest,
                self.kept.lost(),
            )? {
                Some(item) => {
                    self.kept.clear();
                    self.number = number + 1;
                    Ok(Some(item))
                }
                None => Ok(None),
            },
        }
    }

    /// Takes the next item and marks its line as read: appends a command to `commands`, which spares the caller a move,
    /// or returns a refused line. Returns `None`, and changes nothing, where the bytes fed have no further item.
    /// Requires fewer commands than the capacity of `commands`, which is unchanged.
    ///
    /// # Errors
    /// Out of memory: the reader and `commands` are unchanged, and the same item is still next, which is a command. A
    /// line at fault takes no memory.
    pub fn next_into(
        &mut self,
        alloc: Global,
        commands: &mut Vec<Stamped>,
    ) -> Result<Option<Put>, Memory>
        requires { vec_len commands.old < vec_capacity commands.old }
        ensures some { IfOk result (λ o. IfSome o (λ p. (i : Item) × IsPut p i commands.old.items commands.new.items × IsOfText i
            × ((f : List ℕ) (g : List Item) → Stands self.old f g → Stands self.new f (g ++ i ∷ [])))) }
        ensures falls { IfOk result (λ o. IfSome o (λ _. length self.new.pending < length self.old.pending)) }
        ensures counts { IfOk result (λ o. IfSome o (λ _. self.old.number < self.new.number)) }
        ensures none { IfOk result (λ o. IfNone o ((f : List ℕ) (g : List Item) → Stands self.old f g → known self.old.phase f ≡ g)) }
        ensures kept { IfOk result (λ o. IfNone o ((self.new ≡ self.old) × (commands.new.items ≡ commands.old.items))) }
        ensures phase { self.new.phase ≡ self.old.phase }
        ensures fed { self.new.fed ≡ self.old.fed }
        ensures capacity { vec_capacity commands.new ≡ vec_capacity commands.old }
        ensures memory { OnErr result ((f : List ℕ) (g : List Item) → Stands self.old f g → IsNextCommand self.old.phase f g) }
        ensures err { OnErr result ((self.new ≡ self.old) × (commands.new.items ≡ commands.old.items)) }
    {
        // For the proof alone, at no cost when it runs: a line spells at most one command.
        definitions_agree();
        match next_line(self.kept.bytes(), self.number) {
            Step::Line { line, rest, number } => {
                let put = put_at(alloc, number, line, &mut self.last, commands)?;
                let waiting = rest.len();
                self.kept.mark_read(waiting);
                self.number = number + 1;
                Ok(Some(put))
            }
            Step::Rest { .. } => self.rest_into(alloc, commands),
        }
    }

    /// Does what `next_into` does, for an unfinished last line, by a call of `next_item`. Never inlined, so that
    /// `next_into` stays small. If memory runs out, nothing changes.
    #[inline(never)]
    fn rest_into(
        &mut self,
        alloc: Global,
        commands: &mut Vec<Stamped>,
    ) -> Result<Option<Put>, Memory>
        requires { vec_len commands.old < vec_capacity commands.old }
        ensures some { IfOk result (λ o. IfSome o (λ p. (i : Item) × IsPut p i commands.old.items commands.new.items × IsOfText i
            × ((f : List ℕ) (g : List Item) → Stands self.old f g → Stands self.new f (g ++ i ∷ [])))) }
        ensures falls { IfOk result (λ o. IfSome o (λ _. length self.new.pending < length self.old.pending)) }
        ensures counts { IfOk result (λ o. IfSome o (λ _. self.old.number < self.new.number)) }
        ensures none { IfOk result (λ o. IfNone o ((f : List ℕ) (g : List Item) → Stands self.old f g → known self.old.phase f ≡ g)) }
        ensures kept { IfOk result (λ o. IfNone o ((self.new ≡ self.old) × (commands.new.items ≡ commands.old.items))) }
        ensures phase { self.new.phase ≡ self.old.phase }
        ensures fed { self.new.fed ≡ self.old.fed }
        ensures capacity { vec_capacity commands.new ≡ vec_capacity commands.old }
        ensures memory { OnErr result ((f : List ℕ) (g : List Item) → Stands self.old f g → IsNextCommand self.old.phase f g) }
        ensures err { OnErr result ((self.new ≡ self.old) × (commands.new.items ≡ commands.old.items)) }
    {
        match self.next_item(alloc)? {
            Some(Item::Command(stamped)) => {
                commands.push_reserved(stamped);
                Ok(Some(Put::Command))
            }
            Some(Item::Refused { line, fault }) => Ok(Some(Put::Refused { line, fault })),
            None => Ok(None),
        }
    }
}

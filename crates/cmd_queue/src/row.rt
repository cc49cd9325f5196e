//! A row: commands of one sender in one message. A `Batch` is a row to be sent; a `TakenRow` is a row that was taken,
//! and returns its entries one by one. No call takes memory.
ghost use Rattle.std.specs.Prelude.{◌≡◌, ◌<◌, ◌≤◌, ◌+◌, ◌^◌, ◌∷◌, [], length, MatchOption};
ghost use Rattle.cmd_queue.specs.declared.make.TheConstants.{MOST_TOGETHER};
ghost use Rattle.cmd_queue.specs.declared.taken.Taken.TheVariants.{Command};
ghost use Rattle.cmd_queue.specs.Rows.{row_taken};

use cmd_types::{Entry, Stamped};
use std::alloc::Global;
use std::marker::Model;
use std::vec::IntoIter;

/// Commands of one sender, 1 to [`MOST_TOGETHER`](crate::MOST_TOGETHER), after the first `before` commands of that
/// sender. Contracts see them as a row.
#[derive(Drop)]
pub struct Batch {
    sender: u16,
    before: u64,
    commands: Vec<Stamped>,
}

impl Model for Batch {
    ghost use Rattle.std.specs.Prelude.{length};
    ghost use Rattle.cmd_queue.specs.Rows.{Row, IsBatch};

    ghost Value = { Row };

    ghost view = { λ b. record { sender = b.sender; before = b.before; commands = b.commands.items } };

    ghost invariant = { λ b. IsBatch b.before (length b.commands.items) };
}

impl Batch {
    /// A batch of `commands` of a sender that has already sent `before` commands: the first has the place `before` + 1.
    /// Requires 1 to `MOST_TOGETHER` commands, with places below 2^64. Takes no memory.
    pub fn new(sender: u16, before: u64, commands: Vec<Stamped>) -> Batch
        requires some { 0 < length commands.items }
        requires few { length commands.items ≤ MOST_TOGETHER }
        requires room { before + length commands.items < 2 ^ 64 }
        ensures { result ≡ record { sender = sender; before = before; commands = commands.items } }
    {
        Batch {
            sender,
            before,
            commands,
        }
    }

    /// The commands in order, as passed to `new`: for a sender whose message the queue did not take.
    pub fn into_commands(self) -> Vec<Stamped>
        ensures { result.items ≡ self.commands }
    {
        let Batch {
            sender: _,
            before: _,
            commands,
        } = self;
        commands
    }

    /// The batch as a row, off which the entries are taken one by one. Takes no memory.
    pub fn into_row(self) -> TakenRow
        ensures row { result ≡ self }
        ensures some { 0 < length (row_taken result) }
    {
        let Batch {
            sender,
            before,
            commands,
        } = self;
        TakenRow {
            sender,
            before,
            commands: commands.into_iter(),
        }
    }

    /// Takes the batch apart: its first entry, and a row of the others. Takes no memory.
    pub fn open(self) -> (Entry, TakenRow)
        ensures { row_taken self ≡ Command result.0 ∷ row_taken result.1 }
    {
        let Batch {
            sender,
            before,
            commands,
        } = self;
        let mut rest = TakenRow {
            sender,
            before,
            commands: commands.into_iter(),
        };
        match rest.next() {
            Some(entry) => (entry, rest),
            // A batch has at least one command, by its invariant; the type of a list does not say so, which costs this
            // arm.
            None => unreachable!(),
        }
    }
}

/// Commands of one sender that were taken together, at places that follow one another (profile). `next` returns them
/// one by one as entries. Contracts see them as a row.
///
/// ```
/// let Ok(stamped) = Stamped::new(7, Command::RestartProgram) else {
///     return Err(Fail::new("it has no text"));
/// };
/// let mut commands = Vec::with_capacity(alloc, 1)?;
/// commands.push(stamped)?;
/// let (mut sides, mut dispatcher) = queue(&rt, alloc, 1, 4)?;
/// assert!(rt; sides[0].sent() == 0 && commands.len() == 1);
/// assert!(rt; sides[0].submit_many(&rt, commands).is_ok());
/// let Ok(TakenMessage::Row(mut row)) = dispatcher.take_many(&rt) else {
///     return Err(Fail::new("the commands are taken"));
/// };
/// let Some(entry) = row.next() else {
///     return Err(Fail::new("there is one"));
/// };
/// assert_eq!(rt; (entry.sender, entry.place), (0, 1));
/// assert!(rt; row.next().is_none());
/// ```
#[derive(Drop)]
pub struct TakenRow {
    sender: u16,
    before: u64,
    commands: IntoIter<Stamped>,
}

impl Model for TakenRow {
    ghost use Rattle.std.specs.Prelude.{length};
    ghost use Rattle.std.specs.Vec.Iter.{into_iter_items};
    ghost use Rattle.cmd_queue.specs.Rows.{Row, HasRoom};

    ghost Value = { Row };

    ghost view = { λ r. record { sender = r.sender; before = r.before; commands = into_iter_items r.commands } };

    ghost invariant = { λ r. HasRoom r.before (length (into_iter_items r.commands)) };
}

impl TakenRow {
    /// A row without a command. Takes no memory.
    pub(crate) fn nothing(alloc: Global) -> TakenRow
        ensures { row_taken result ≡ [] }
    {
        TakenRow {
            sender: 0,
            before: 0,
            commands: Vec::new(alloc).into_iter(),
        }
    }

    /// The number of the row's sender, from 0.
    pub(crate) fn sender(&self) -> u16
        ensures { result ≡ self.now.sender }
    {
        self.sender
    }

    /// The place of the last command that is left; where no command is left, the place of the last one returned.
    pub(crate) fn last_place(&self) -> u64
        ensures { result ≡ self.now.before + length self.now.commands }
    {
        self.before + self.commands.len() as u64
    }

    /// Returns the next entry, which leaves the row; `None` where no command is left. Takes no memory.
    #[inline]
    pub fn next(&mut self) -> Option<Entry>
        ensures { MatchOption result ((row_taken self.old ≡ []) × (row_taken self.new ≡ [])) (λ entry. row_taken self.old ≡ Command entry ∷ row_taken self.new) }
    {
        let stamped = self.commands.next()?;
        let place = self.before + 1;
        self.before = place;
        Some(Entry {
            sender: self.sender,
            place,
            stamped,
        })
    }

    /// The number of commands that are left.
    pub(crate) fn len(&self) -> usize
        ensures { result ≡ length (row_taken self.now) }
    {
        self.commands.len()
    }
}

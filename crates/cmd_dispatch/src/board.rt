//! A board of live figures: one atomic word, which one writer stores and readers load, without a lock. A store
//! changes this word alone; a load changes nothing.
ghost use Rattle.std.specs.Prelude.{◌≡◌, [], length, IfOk, Some};
ghost use Rattle.std.specs.Arc.{arc_value};
ghost use Rattle.mon_engine.specs.Figures.{figures};
ghost use Rattle.mon_engine.specs.Step.{meaning};
ghost use Rattle.cmd_dispatch.specs.Delivered.{BeginsWith};
ghost use Rattle.cmd_dispatch.specs.Dispatches.{Means};
ghost use Rattle.cmd_dispatch.specs.BoardViews.{Shows};
ghost use Rattle.cmd_dispatch.specs.BoardEnds.{writing_of, reading_of, IsWriter, IsReader};

use crate::board_rule::{BoardLaw, Checks, Gathers, Looks, Publishes, Readers, Said, SeatView};
use crate::word::{figures_of, word_of};
use atomic_table::{Seat, Table};
use cmd_journal::Journal;
use cmd_types::Memory;
use mon_engine::{Figures, Monitor, nothing_is_counted_at_first};
use mon_inventory::Inventory;
use std::alloc::{AllocError, Global};
use std::marker::{Brand, Model};
use std::sync::Arc;

/// The seat of a writer or a reader at the word of a board, with what its holder knows.
pub(crate) type Place = Seat<u8, SeatView>;

/// The table of one word that a board consists of.
pub(crate) type BoardWord = Table<u8, SeatView, Inventory, BoardLaw, Global>;

/// The writer of a board, which publishes figures (profile). Contracts see which board it is, its inventory and the
/// list of entries that was published last.
///
/// See the example of [`Board`].
#[derive(Drop)]
pub struct BoardWriter {
    pub(crate) word: Arc<BoardWord, Global>,
    // `None` only while a run publishes with the seat.
    pub(crate) place: Option<Place>,
}

impl Model for BoardWriter {
    ghost use Rattle.std.specs.Arc.{arc_value};
    ghost use Rattle.cmd_dispatch.specs.BoardEnds.{Writing, writing_at, IsWriterAt};

    ghost Value = { Writing };

    ghost view = { λ w. writing_at (arc_value w.word).shared.table_id w.place };

    ghost invariant = { λ w. IsWriterAt (arc_value w.word).shared.table_id w.place };
}

/// A reader of a board, which looks at the published figures (profile). Contracts see which board it is, its inventory
/// and the list of entries that the reader saw last.
///
/// See the example of [`Board`].
#[derive(Drop)]
pub struct BoardReader {
    word: Arc<BoardWord, Global>,
    place: Place,
}

impl Model for BoardReader {
    ghost use Rattle.std.specs.Arc.{arc_value};
    ghost use Rattle.cmd_dispatch.specs.BoardEnds.{Reading, reading_of, IsReader};

    ghost Value = { Reading };

    ghost view = { λ r. reading_of r.place };

    ghost invariant = { λ r. IsReader (arc_value r.word).shared.table_id r.place };
}

/// Live figures of a run (profile): the number of applied entries, and of objects that have a problem, are acknowledged
/// and are in downtime.
///
/// ```
/// // INVENTORY: the text of an inventory with the host web
/// let inventory = Inventory::parse(alloc, INVENTORY)?;
/// let mut writer = Board::create(alloc, &inventory)?;
/// let mut reader = writer.reader()?;
/// assert_eq!(rt; reader.look().entries, 0);
/// writer.gather(reader);
/// ```
pub struct Board;

impl Board {
    /// Makes a board for `inventory`, on which nothing was published, and returns its writer.
    ///
    /// # Errors
    /// Out of memory: no board is made.
    pub fn create(alloc: Global, inventory: &Inventory) -> Result<BoardWriter, Memory>
        ensures { IfOk result (λ w. (w.inventory ≡ inventory.now) × (w.published ≡ [])) }
    {
        // For the proof alone, at no cost when it runs: no figure is above 0 before the first entry.
        nothing_is_counted_at_first();
        let Ok((table, place)) = BoardWord::of_words(alloc, &[0], inventory) else {
            return Err(AllocError);
        };
        match Arc::new(alloc, table) {
            Ok(word) => Ok(BoardWriter {
                word,
                place: Some(place),
            }),
            Err(_) => Err(AllocError),
        }
    }
}

/// Stores `found`, the word of the journal's figures, on the board. `_journal` is there for the proof alone.
fn put<W: Said>(word: &BoardWord, place: &mut Place, found: u64, _journal: &Journal)
    requires said { W.list ≡ _journal.now.entries }
    requires writer { IsWriter word.now.shared.table_id place.old }
    requires more { BeginsWith _journal.now.entries (writing_of place.old).published }
    requires shows { Shows (writing_of place.old).inventory _journal.now.entries found }
    ensures writer { IsWriter word.now.shared.table_id place.new }
    ensures side { ((writing_of place.new).board ≡ (writing_of place.old).board) × ((writing_of place.new).inventory ≡ (writing_of place.old).inventory) }
    ensures published { (writing_of place.new).published ≡ _journal.now.entries }
{
    word.shared.store::<Publishes<W>>(place, 0, found);
}

/// Stores the word of the monitor's figures on the board. `journal` is read by the proof alone: its entries are then
/// the published list. Requires that the monitor holds what the journal means, and that the list published last is a
/// prefix of the journal.
pub(crate) fn store_figures(
    word: &BoardWord,
    place: &mut Place,
    monitor: &Monitor,
    journal: &Journal,
)
    requires writer { IsWriter word.now.shared.table_id place.old }
    requires means { Means (writing_of place.old).inventory journal.now.entries monitor.now }
    requires more { BeginsWith journal.now.entries (writing_of place.old).published }
    ensures writer { IsWriter word.now.shared.table_id place.new }
    ensures side { ((writing_of place.new).board ≡ (writing_of place.old).board) × ((writing_of place.new).inventory ≡ (writing_of place.old).inventory) }
    ensures published { (writing_of place.new).published ≡ journal.now.entries }
{
    put::<Brand>(word, place, word_of(monitor.figures()), journal);
}

/// Splits off the seat of a reader that has seen all that is published. The knowledge of the writer's seat is
/// unchanged.
fn split_at(word: &BoardWord, place: &mut Place) -> Place
    requires { IsWriter word.now.shared.table_id place.old }
    ensures writer { IsWriter word.now.shared.table_id place.new }
    ensures same { writing_of place.new ≡ writing_of place.old }
    ensures reader { IsReader word.now.shared.table_id result }
    ensures seen { ((reading_of result).inventory ≡ (writing_of place.old).inventory) × ((reading_of result).seen ≡ (writing_of place.old).published) }
{
    word.shared.split_seat::<Readers>(place)
}

/// Takes the seat of a reader back: the list that the reader saw last is a prefix of the published list, which is
/// unchanged. The join alone does not prove this; the load after the join does.
fn join_at(word: &BoardWord, place: &mut Place, theirs: Place)
    requires writer { IsWriter word.now.shared.table_id place.old }
    requires reader { IsReader word.now.shared.table_id theirs }
    ensures writer { IsWriter word.now.shared.table_id place.new }
    ensures same { writing_of place.new ≡ writing_of place.old }
    ensures seen { BeginsWith (writing_of place.old).published (reading_of theirs).seen }
{
    word.shared.join_seat::<Gathers>(place, theirs);
    word.shared.load::<Checks>(place, 0);
}

impl BoardWriter {
    /// Publishes the entries of a journal: stores the monitor's figures on the board. Requires that the monitor holds
    /// what the entries mean for the board's inventory, and that the entries published before are a prefix of them.
    /// Takes no memory and no lock.
    pub fn publish(&mut self, monitor: &Monitor, journal: &Journal)
        requires means { Means self.old.inventory journal.now.entries monitor.now }
        requires more { BeginsWith journal.now.entries self.old.published }
        ensures side { (self.new.board ≡ self.old.board) × (self.new.inventory ≡ self.old.inventory) }
        ensures published { self.new.published ≡ journal.now.entries }
    {
        let Some(place) = &mut self.place else {
            // A writer has its seat, by its invariant: only a run takes it out, and puts it back.
            unreachable!()
        };
        store_figures(&self.word, place, monitor, journal);
    }

    /// Makes a reader of this board, which has seen all that is published. The published list is unchanged.
    ///
    /// # Errors
    /// [`Memory`]: the board takes no further reader. Nothing has changed.
    pub fn reader(&mut self) -> Result<BoardReader, Memory>
        ensures same { self.new ≡ self.old }
        ensures reader { IfOk result (λ r. (r.board ≡ self.old.board) × (r.inventory ≡ self.old.inventory) × (r.seen ≡ self.old.published)) }
    {
        let Ok(word) = Arc::try_clone(&self.word) else {
            return Err(AllocError);
        };
        let Some(place) = &mut self.place else {
            // A writer has its seat, by its invariant: only a run takes it out, and puts it back.
            unreachable!()
        };
        let place = split_at(&self.word, place);
        Ok(BoardReader { word, place })
    }

    /// Takes a reader of this board back: the list that the reader saw last is a prefix of the published list, which is
    /// unchanged. Requires a reader of the same board. Takes no memory and no lock.
    pub fn gather(&mut self, reader: BoardReader)
        requires { reader.board ≡ self.old.board }
        ensures same { self.new ≡ self.old }
        ensures seen { BeginsWith self.old.published reader.seen }
    {
        let BoardReader { place: theirs, .. } = reader;
        let Some(place) = &mut self.place else {
            // A writer has its seat, by its invariant: only a run takes it out, and puts it back.
            unreachable!()
        };
        join_at(&self.word, place, theirs);
    }
}

impl BoardReader {
    /// Loads the figures of a published list of entries, of which the list that this reader saw last is a prefix. The
    /// reader has then seen the loaded list. Takes no memory and no lock.
    pub fn look(&mut self) -> Figures
        ensures side { (self.new.board ≡ self.old.board) × (self.new.inventory ≡ self.old.inventory) }
        ensures seen { BeginsWith self.new.seen self.old.seen }
        ensures shown { result ≡ figures (meaning self.new.inventory self.new.seen) }
        ensures entries { result.entries ≡ length self.new.seen }
    {
        let found = self.word.shared.load::<Looks>(&mut self.place, 0);
        figures_of(found)
    }
}

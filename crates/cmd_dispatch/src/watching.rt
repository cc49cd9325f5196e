//! The watch of a run: the run shows it the journal after each entry, and it changes nothing of the run. `Unwatched`
//! does nothing, and `Seated` publishes live figures on a board.
ghost use Rattle.std.specs.Prelude.{◌≡◌, List};
ghost use Rattle.atomic_table.specs.Seated.{TableId};
ghost use Rattle.cmd_types.specs.declared.entry.Entry.{Entry};
ghost use Rattle.mon_inventory.specs.Configuration.{Configuration};
ghost use Rattle.cmd_dispatch.specs.Dispatches.{Means};
ghost use Rattle.cmd_dispatch.specs.Watching.{MayShow};

use crate::board::{BoardWord, Place, store_figures};
use cmd_journal::Journal;
use mon_engine::Monitor;
use std::marker::Model;

/// Watches the journal of a run as it grows.
pub(crate) trait Watch {
    ghost board: { Self → TableId };

    // this list of entries is the published one, for this inventory
    ghost shows: { Self → Configuration → List Entry → Type 0 };

    /// Shows the journal to the watch. Requires that the monitor holds what the journal means, and that the list
    /// published before is a prefix of the journal.
    fn publish(&mut self, monitor: &Monitor, journal: &Journal)
        requires means { Means monitor.now.inventory journal.now.entries monitor.now }
        requires more { MayShow (shows self.old monitor.now.inventory) journal.now.entries }
        ensures board { board self.new ≡ board self.old }
        ensures shows { shows self.new monitor.now.inventory journal.now.entries };
}

/// The watch of a run that publishes nothing.
#[derive(Drop)]
pub(crate) struct Unwatched;

impl Watch for Unwatched {
    ghost use Rattle.cmd_dispatch.specs.Watching.{no_board};

    ghost board = { λ _. no_board };

    ghost shows = { λ _ _ _. Unit {0} };

    /// Does nothing, since nothing is published.
    fn publish(&mut self, _monitor: &Monitor, _journal: &Journal) {}
}

/// The writer's seat of a board, while a run publishes with it.
#[derive(Drop)]
pub(crate) struct Seated<'a> {
    pub word: &'a BoardWord,
    pub place: Place,
}

impl<'a> Model for Seated<'a> {
    ghost use Rattle.cmd_dispatch.specs.BoardEnds.{Writing, writing_of, IsWriter};

    ghost Value = { Writing };

    ghost view = { λ s. writing_of s.place };

    ghost invariant = { λ s. IsWriter s.word.now.shared.table_id s.place };
}

impl Watch for Seated<'_> {
    ghost use Rattle.std.specs.Prelude.{◌≡◌};

    ghost board = { λ s. s.board };

    ghost shows = { λ s inventory list. (s.inventory ≡ inventory) × (s.published ≡ list) };

    /// Stores the word of the monitor's figures on the board; the journal's list is then the published one.
    fn publish(&mut self, monitor: &Monitor, journal: &Journal) {
        store_figures(self.word, &mut self.place, monitor, journal);
    }
}

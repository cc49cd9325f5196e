//! The rule of a board, and the fact that each step on its word shows. These types are for the proofs alone: no value
//! of them is made.
ghost use Rattle.std.specs.Prelude.{List};
ghost use Rattle.cmd_types.specs.declared.entry.Entry.{Entry};

use atomic_table::{Join, Play, Split, TableRule};
use cmd_types::Entry;
use mon_inventory::Inventory;
use std::collections::LinkedList;
use std::marker::{Brand, PhantomData};

/// The knowledge of the holder of a seat: the writer knows the list that it has published and the lists that
/// gathered readers had seen; a reader knows the list that it has seen. A gathered seat knows nothing.
pub struct SeatView {
    pub inventory: Inventory,
    pub writes: bool,
    pub published: LinkedList<Entry>,
    pub kept: LinkedList<LinkedList<Entry>>,
    pub reads: bool,
    pub seen: LinkedList<Entry>,
}

/// The rule that each step on the word of a board has to keep.
pub struct BoardLaw;

impl TableRule<u8, SeatView, Inventory> for BoardLaw {
    ghost use Rattle.std.specs.Prelude.{[]};
    ghost use Rattle.cmd_dispatch.specs.BoardViews.{writer_view};
    ghost use Rattle.cmd_dispatch.specs.BoardRule.{Ruled};

    ghost holds = { Ruled };

    ghost first = { λ inventory. writer_view inventory [] [] };
}

/// The list that a store publishes. A store itself has the word alone, so the list is chosen where the store is made.
pub(crate) trait Said {
    ghost list: { List Entry };
}

impl Said for Brand {
    ghost use Rattle.std.specs.Prelude.{[]};

    ghost list = { [] };
}

/// The step of the writer that stores the word of a list.
pub(crate) struct Publishes<W: Said> {
    said: PhantomData<W>,
}

impl<W: Said> Play<u8, SeatView> for Publishes<W> {
    ghost use Rattle.cmd_dispatch.specs.BoardViews.{Published};

    ghost then = { λ _ m _ n. Published W.list m n };
}

/// The step of a reader that loads the word.
pub(crate) struct Looks;

impl Play<u8, SeatView> for Looks {
    ghost use Rattle.cmd_dispatch.specs.BoardViews.{Looked};

    ghost then = { λ _. Looked };
}

/// The step of the writer that loads the word. It shows that each list that the writer keeps is a prefix of the
/// published one.
pub(crate) struct Checks;

impl Play<u8, SeatView> for Checks {
    ghost use Rattle.cmd_dispatch.specs.BoardViews.{Checked};

    ghost then = { λ _ m _ n. Checked m n };
}

/// The step of the writer that makes a reader, which has seen what is published.
pub(crate) struct Readers;

impl Split<SeatView> for Readers {
    ghost use Rattle.cmd_dispatch.specs.BoardViews.{reader_view};

    ghost left = { λ v. v };

    ghost right = { λ v. reader_view v.inventory v.published };
}

/// The step of the writer that gathers a reader, and keeps the list that the reader had seen.
pub(crate) struct Gathers;

impl Join<SeatView> for Gathers {
    ghost use Rattle.cmd_dispatch.specs.BoardViews.{keeping, spent};

    ghost both = { keeping };

    ghost spent = { spent };
}

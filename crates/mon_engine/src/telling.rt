//! Printing during a run: the lines of the listed rejections and notices are appended to an output, and `forget` then
//! empties both lists. The rest of the state is unchanged.
ghost use Rattle.std.specs.Prelude.{◌≡◌, ◌++◌, OnOk};
ghost use Rattle.cmd_types.specs.Growth.{Grows};
ghost use Rattle.mon_engine.specs.Sound.{IsWorld};
ghost use Rattle.mon_engine.specs.Telling.{TheListsAreNotRead, ForgettingTellsTheSame, TellingGoesOn, EachNoticeIsTold, EachRejectionIsTold, forgotten, lines_of, notice_lines_of};

use crate::notice_lines::put_notices;
use crate::report::put_rejections;
use crate::state::State;
use cmd_types::Memory;
use mon_inventory::Inventory;
use std::alloc::Global;

/// A monitor that prints and empties its lists after each entry loses no line. No entry depends on the lists of
/// rejections and of notices, so that a monitor with empty lists has the same outcomes and prints the same lines. Each
/// notice of a journal's report is printed, in order and once, and so is each rejection that is not of the clock feed
/// (profile).
pub fn each_entry_is_told()
    ensures unread { TheListsAreNotRead }
    ensures same { ForgettingTellsTheSame }
    ensures goes_on { TellingGoesOn }
    ensures notices { EachNoticeIsTold }
    ensures rejections { EachRejectionIsTold }
{}

impl State {
    /// Appends the lines of the listed notices; the state is unchanged. If memory runs out, a part of the lines is in
    /// `out`.
    pub fn put_noticed(
        &self,
        alloc: Global,
        inventory: &Inventory,
        out: &mut Vec<u8>,
    ) -> Result<(), Memory>
        requires { IsWorld inventory.now self.now }
        ensures ok { OnOk result (out.new.items ≡ out.old.items ++ notice_lines_of inventory.now self.now) }
        ensures grown { Grows out.old.items out.new.items }
    {
        put_notices(alloc, out, inventory, &self.notices)
    }

    /// Appends the lines of the listed rejections, and then those of the listed notices; the state is unchanged. If
    /// memory runs out, a part of the lines is in `out`.
    pub fn put_told(
        &self,
        alloc: Global,
        inventory: &Inventory,
        out: &mut Vec<u8>,
    ) -> Result<(), Memory>
        requires { IsWorld inventory.now self.now }
        ensures ok { OnOk result (out.new.items ≡ out.old.items ++ lines_of inventory.now self.now) }
        ensures grown { Grows out.old.items out.new.items }
    {
        put_rejections(out, &self.rejections)?;
        self.put_noticed(alloc, inventory, out)
    }

    /// Empties the lists of rejections and of notices; nothing else changes. The lists keep their capacity.
    pub fn forget(&mut self)
        ensures { self.new ≡ forgotten self.old }
    {
        self.rejections.clear();
        self.notices.clear();
    }
}

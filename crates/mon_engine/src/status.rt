//! The status: the report, with a line on the moments of each host and service after its line. Each `put_..` appends to
//! `out` and changes nothing else; if memory runs out, a part of its lines is in `out`.
ghost use Rattle.std.specs.Prelude.{◌≡◌, ◌<◌, ◌++◌, OnOk, IfOk, Some, length, slice_get};
ghost use Rattle.cmd_types.specs.Growth.{Grows};
ghost use Rattle.mon_inventory.specs.Facts.{IsInventory};
ghost use Rattle.mon_engine.specs.declared.object.Object.{Object};
ghost use Rattle.mon_engine.specs.Report.{clock_line, program_line, contact_line, each_index};
ghost use Rattle.mon_engine.specs.Sound.{IsWorld};
ghost use Rattle.mon_engine.specs.Status.{withheld_now, times_line, object_lines, status};

use crate::lines::{Field, put_whole};
use crate::report::{put_clock, put_contacts, put_object_at, put_program};
use crate::state::State;
use crate::withheld::Withheld;
use crate::words::withheld_text;
use cmd_types::Memory;
use mon_inventory::Inventory;
use std::alloc::Global;

impl State {
    /// What holds the PROBLEM notice of the object back at the clock; `None` where nothing does, or its code is 0.
    fn withheld_now(
        &self,
        alloc: Global,
        inventory: &Inventory,
        object: u16,
    ) -> Result<Option<Withheld>, Memory>
        requires object { object < length inventory.now.objects }
        requires sound { IsInventory inventory.now }
        requires world { IsWorld inventory.now self.now }
        ensures { (o : Object) → slice_get self.now.objects object ≡ Some o → IfOk result (λ why. why ≡ withheld_now inventory.now self.now object o) }
    {
        if self.objects.get(object).status.code == 0 {
            return Ok(None);
        }
        self.withheld(alloc, inventory, object)
    }

    /// Appends the line on the moments of the object at this index.
    #[tactic(auto, unfolding(crate::specs::Status::times_line))]
    fn put_times(
        &self,
        alloc: Global,
        inventory: &Inventory,
        out: &mut Vec<u8>,
        object: u16,
    ) -> Result<(), Memory>
        requires object { object < length inventory.now.objects }
        requires sound { IsInventory inventory.now }
        requires world { IsWorld inventory.now self.now }
        ensures ok { OnOk result (out.new.items ≡ out.old.items ++ times_line inventory.now self.now object) }
        ensures grown { Grows out.old.items out.new.items }
    {
        let withheld = self.withheld_now(alloc, inventory, object)?;
        let found = self.found(inventory, object).state;
        put_whole(
            out,
            b"times",
            &[
                Field::optional(found.moments.checked),
                Field::Number(found.moments.changed),
                Field::optional(found.moments.since),
                Field::optional(found.last),
                Field::Bytes(withheld_text(withheld)),
            ],
        )
    }

    /// Appends the two lines of the object at this index.
    fn put_object_lines(
        &self,
        alloc: Global,
        inventory: &Inventory,
        out: &mut Vec<u8>,
        object: u16,
    ) -> Result<(), Memory>
        requires object { object < length inventory.now.objects }
        requires sound { IsInventory inventory.now }
        requires world { IsWorld inventory.now self.now }
        ensures ok { OnOk result (out.new.items ≡ out.old.items ++ object_lines inventory.now self.now object) }
        ensures grown { Grows out.old.items out.new.items }
    {
        put_object_at(
            out,
            inventory,
            self.objects.as_slice(),
            &self.downtimes,
            object,
        )?;
        self.put_times(alloc, inventory, out, object)
    }

    /// Appends the lines of all objects, in order of the inventory.
    fn put_timed_objects(
        &self,
        alloc: Global,
        inventory: &Inventory,
        out: &mut Vec<u8>,
    ) -> Result<(), Memory>
        requires sound { IsInventory inventory.now }
        requires world { IsWorld inventory.now self.now }
        ensures ok { OnOk result (out.new.items ≡ out.old.items ++ each_index (object_lines inventory.now self.now) (length inventory.now.objects)) }
        ensures grown { Grows out.old.items out.new.items }
    {
        for object in 0..inventory.object_count() {
            self.put_object_lines(alloc, inventory, out, object)?;
        }
        Ok(())
    }

    /// Appends the lines of the present state: the clock, the program, the objects with their moments, and the contacts.
    fn put_timed_states(
        &self,
        alloc: Global,
        inventory: &Inventory,
        out: &mut Vec<u8>,
    ) -> Result<(), Memory>
        requires sound { IsInventory inventory.now }
        requires world { IsWorld inventory.now self.now }
        ensures ok { OnOk result (out.new.items ≡ out.old.items ++ clock_line self.now.clock ++ program_line self.now.program ++ each_index (object_lines inventory.now self.now) (length inventory.now.objects) ++ each_index (contact_line inventory.now.contacts self.now.contacts) (length inventory.now.contacts)) }
        ensures grown { Grows out.old.items out.new.items }
    {
        put_clock(out, self.clock)?;
        put_program(out, self.program)?;
        self.put_timed_objects(alloc, inventory, out)?;
        put_contacts(out, inventory, &self.contacts)
    }

    /// Appends the whole status: the lines of the present state, and then those of the lists.
    #[tactic(auto, unfolding(crate::specs::Status::status))]
    pub fn put_status(
        &self,
        alloc: Global,
        inventory: &Inventory,
        out: &mut Vec<u8>,
    ) -> Result<(), Memory>
        requires sound { IsInventory inventory.now }
        requires world { IsWorld inventory.now self.now }
        ensures ok { OnOk result (out.new.items ≡ out.old.items ++ status inventory.now self.now) }
        ensures grown { Grows out.old.items out.new.items }
    {
        self.put_timed_states(alloc, inventory, out)?;
        self.put_lists(alloc, inventory, out)
    }
}

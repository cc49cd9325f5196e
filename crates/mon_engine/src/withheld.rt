//! What holds the PROBLEM notice of an object back: the first test of the notice that fails. Nothing is changed here.
ghost use Rattle.std.specs.Prelude.{◌≡◌, ◌<◌, ◌+◌, ◌^◌, IfOk, length};
ghost use Rattle.mon_inventory.specs.Facts.{IsInventory};
ghost use Rattle.mon_engine.specs.declared.notices.Occasion.TheVariants.{Clock};
ghost use Rattle.mon_engine.specs.Sound.{IsWorld};
ghost use Rattle.mon_engine.specs.Withheld.{first_failing, tests, withheld};

use crate::notices::{Occasion, state_letter};
use crate::state::State;
use cmd_types::Memory;
use mon_inventory::Inventory;
use mon_notify::{Facts, is_delayed, is_due, is_old, is_settled, recipients};
use std::alloc::Global;

/// Why the PROBLEM notice of an object does not go out (profile): the first of its tests that fails, in this order.
///
/// See the example of [`Object`].
#[derive(Clone, Copy, Debug, PartialEq, Eq)]
pub enum Withheld {
    /// Notifications are off in the program.
    Program,
    /// Notifications are off for the object.
    Switch,
    /// The object, or the host of a service, is in a downtime.
    Downtime,
    /// The host of a service is not UP.
    Host,
    /// The object's options lack the letter of its state.
    Letter,
    /// The problem is acknowledged.
    Acknowledged,
    /// The state is of type SOFT.
    Soft,
    /// A delay of the object's notices is not over.
    NotBefore,
    /// A notice of this code went out, and the interval in force is 0 or not over.
    Interval,
    /// The first notification delay is not over.
    Delay,
    /// What stands above the object came back too short a time ago for a first notice.
    Settle,
    /// The notice reaches no contact.
    Nobody,
}

/// The first test that fails, but for that of the contacts; `None` where all pass.
fn failing_test(facts: &Facts) -> Option<Withheld>
    ensures { result ≡ first_failing (tests facts.now) }
{
    if !facts.program_on {
        return Some(Withheld::Program);
    }
    if !facts.object_on {
        return Some(Withheld::Switch);
    }
    if facts.depth > 0 || facts.host_depth > 0 {
        return Some(Withheld::Downtime);
    }
    if !facts.host_up {
        return Some(Withheld::Host);
    }
    if !facts.letter_on {
        return Some(Withheld::Letter);
    }
    if facts.acknowledged {
        return Some(Withheld::Acknowledged);
    }
    if !facts.hard {
        return Some(Withheld::Soft);
    }
    if is_delayed(facts) {
        return Some(Withheld::NotBefore);
    }
    if !is_due(facts) {
        return Some(Withheld::Interval);
    }
    if !is_old(facts) {
        return Some(Withheld::Delay);
    }
    if !is_settled(facts) {
        return Some(Withheld::Settle);
    }
    None
}

impl State {
    /// The first test that the next PROBLEM notice of the object fails by the clock; `None` where it passes all. The
    /// object's code is not tested. Contacts are looked up only where all other tests pass.
    #[tactic(auto, unfolding(crate::specs::Withheld::withheld))]
    pub fn withheld(
        &self,
        alloc: Global,
        inventory: &Inventory,
        object: u16,
    ) -> Result<Option<Withheld>, Memory>
        requires object { object < length inventory.now.objects }
        requires sound { IsInventory inventory.now }
        requires world { IsWorld inventory.now self.now }
        ensures { IfOk result (λ why. why ≡ withheld inventory.now self.now Clock object) }
    {
        let found = self.found(inventory, object);
        let failing = failing_test(&self.problem_facts(inventory, found, Occasion::Clock));
        if failing.is_some() {
            return Ok(failing);
        }
        let next = found.state.number + 1;
        let letter = state_letter(found);
        let contacts = recipients(alloc, inventory, &self.contacts, object, next, letter, true)?;
        if contacts.is_empty() {
            return Ok(Some(Withheld::Nobody));
        }
        Ok(None)
    }
}

//! Custom notices (SEND_CUSTOM_HOST_NOTIFICATION, SEND_CUSTOM_SVC_NOTIFICATION). A notice that may not go out or
//! reaches nobody is not rejected: the act is done and changes nothing.
ghost use Rattle.std.specs.Prelude.{◌≡◌, ◌<◌, ◌-◌, ◌^◌, Ok, IfOk, Some, length, slice_get};
ghost use Rattle.mon_engine.specs.declared.object.Object.{Object};
ghost use Rattle.mon_inventory.specs.Facts.{IsInventory};
ghost use Rattle.mon_notify.specs.Custom.{custom_recipients};
ghost use Rattle.mon_engine.specs.Notices.{to_someone, after_custom};
ghost use Rattle.mon_engine.specs.Objects.{custom_number};
ghost use Rattle.mon_engine.specs.Sound.{IsTellable};
ghost use Rattle.mon_engine.specs.Stops.{Acts};

use crate::notice::{Notice, Subject, Word};
use crate::notices::{state_letter, subject_of, to_someone};
use crate::object::Object;
use crate::objects::Setting;
use crate::state::State;
use crate::stop::ActStop;
use cmd_types::Memory;
use mon_inventory::Inventory;
use mon_notify::{custom_recipients, custom_viable, increments};
use std::alloc::Global;

/// The notification number of a custom notice: that of the object, plus 1 where the options ask for an increment.
fn custom_number(options: u64, known: &Object) -> u64
    requires { known.now.number < 2 ^ 64 - 1 }
    ensures { result ≡ custom_number options known.now }
{
    if increments(options) {
        known.number + 1
    } else {
        known.number
    }
}

impl State {
    /// Makes the custom notice of this subject with these options; `None` where it reaches nobody. The state is
    /// unchanged.
    fn custom_notice(
        &self,
        alloc: Global,
        inventory: &Inventory,
        subject: Subject,
        options: u64,
    ) -> Result<Option<Notice>, Memory>
        requires object { subject.object < length inventory.now.objects }
        requires tellable { IsTellable inventory.now self.now }
        ensures { IfOk result (λ n. n ≡ to_someone subject (custom_recipients inventory.now self.now.contacts subject.object subject.number subject.code options)) }
    {
        let contacts = custom_recipients(
            alloc,
            inventory,
            &self.contacts,
            subject.object,
            subject.number,
            subject.code,
            options,
        )?;
        Ok(to_someone(subject, contacts))
    }

    /// Sends the custom notice of a command, and sets the object's notification number to that of the notice. Where the
    /// notice may not go out or reaches nobody, or memory runs out, the state is unchanged.
    #[tactic(auto, unfolding(crate::specs::Notices::after_custom, crate::specs::Notices::custom_notice))]
    pub fn send_custom(
        &mut self,
        alloc: Global,
        inventory: &Inventory,
        object: u16,
        options: u64,
    ) -> Result<(), ActStop>
        requires object { object < length inventory.now.objects }
        requires sound { IsInventory inventory.now }
        requires tellable { IsTellable inventory.now self.old }
        requires next { (o : Object) → slice_get self.old.objects object ≡ Some o → o.number < 2 ^ 64 - 1 }
        ensures { Acts (Ok (after_custom inventory.now self.old object options)) result self.old self.new }
    {
        let found = self.found(inventory, object);
        let letter = state_letter(found);
        if !custom_viable(&self.facts(inventory, found, letter), options) {
            return Ok(());
        }
        let number = custom_number(options, found.state);
        let subject = subject_of(self.clock, Word::Custom, found, number);
        match self.custom_notice(alloc, inventory, subject, options)? {
            None => Ok(()),
            Some(notice) => {
                self.notices.push(notice)?;
                self.objects.set(object, Setting::Number(number));
                Ok(())
            }
        }
    }
}

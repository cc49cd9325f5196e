//! Does the act of a command, or returns an `ActStop`: `Rejected` with the reason, or `Memory`. Each act is a method of
//! `State` in the file of its family. A rejected act changes nothing; if memory runs out, a part of the act may be
//! done, and the monitor is then broken.
ghost use Rattle.std.specs.Prelude.{OnOk};
ghost use Rattle.mon_inventory.specs.Facts.{IsInventory};
ghost use Rattle.mon_engine.specs.Effects.{act, named, shown, IsFit, Stands};
ghost use Rattle.mon_engine.specs.Sound.{IsWorld, Follows};
ghost use Rattle.mon_engine.specs.Step.{act_on};
ghost use Rattle.mon_engine.specs.Stops.{Acts};

use crate::act::{Act, asked};
use crate::results::PassiveResult;
use crate::state::State;
use crate::stop::ActStop;
use crate::switches::{set_accepting, set_notifications, set_switch};
use crate::target::find;
use cmd_types::Entry;
use mon_inventory::Inventory;
use std::alloc::Global;

impl State {
    /// Looks up the names in the entry's command and does its act. The clock and the count of entries are unchanged.
    /// Where a name is not found or a rule rejects the act, the state is unchanged. If memory runs out, a part of the
    /// act may be done.
    pub fn attempt(
        &mut self,
        alloc: Global,
        inventory: &Inventory,
        entry: &Entry,
    ) -> Result<(), ActStop>
        requires sound { IsInventory inventory.now }
        requires world { IsWorld inventory.now self.old }
        ensures acts { Acts (act_on inventory.now self.old (named inventory.now entry.now.stamped.command)) result self.old self.new }
        ensures follows { OnOk result (Follows inventory.now self.old self.new) }
    {
        let command = entry.stamped.command();
        match find(inventory, command.names()) {
            Err(why) => Err(ActStop::Rejected(why)),
            Ok(target) => self.act(alloc, inventory, asked(command, target)),
        }
    }

    /// Does the act, at the time of the state's clock. Where a rule rejects the act, the state is unchanged. If memory
    /// runs out, a part of the act may be done.
    #[tactic(auto, unfolding(crate::specs::Effects::act))]
    fn act(&mut self, alloc: Global, inventory: &Inventory, asked: Act<'_>) -> Result<(), ActStop>
        requires stands { Stands inventory.now (shown asked) }
        requires fits { IsFit inventory.now (shown asked) }
        requires sound { IsInventory inventory.now }
        requires world { IsWorld inventory.now self.old }
        ensures { Acts (act inventory.now self.old (shown asked.entry)) result self.old self.new }
    {
        match asked {
            Act::AddComment { object, remark } => self.add_comment(alloc, object, false, remark)?,
            Act::DelComment { kind, id } => self.del_comment(inventory, kind, id)?,
            Act::DelAllComments { object } => self.notes.remove_all(object),
            Act::Acknowledge { object, asked } => {
                self.acknowledge(alloc, inventory, object, asked)?
            }
            Act::RemoveAcknowledgement { object } => self.unacknowledge(object),
            Act::CheckResult {
                object,
                code,
                output,
            } => {
                let passive = PassiveResult {
                    object,
                    code,
                    output,
                };
                self.check_result(alloc, inventory, passive)?
            }
            Act::Set { object, setting } => self.objects.set(object, setting),
            Act::SetServices { host, setting } => {
                self.objects.set_each(inventory.services_of(host), setting)
            }
            Act::SetAccepting { kind, on } => set_accepting(&mut self.program, kind, on),
            Act::Schedule { object, asked } => self.schedule(alloc, object, asked)?,
            Act::ScheduleServices { host, asked } => {
                self.schedule_services(alloc, inventory, host, asked)?
            }
            Act::DelDowntime { kind, id } => self.del_downtime(alloc, inventory, kind, id)?,
            Act::SetNotifications { on } => set_notifications(&mut self.program, on),
            Act::SetContact { contact, kind, on } => {
                set_switch(&mut self.contacts, contact, kind, on)
            }
            Act::SendCustom { object, options } => {
                self.send_custom(alloc, inventory, object, options)?
            }
            Act::Restart => self.notes.drop_transient(),
        }
        Ok(())
    }
}

//! The commands that schedule downtimes of hosts and services, and those that cancel them. A rejected act changes
//! nothing. If memory runs out, scheduling changes nothing either; a cancellation may be done with a part of its
//! notices, and the monitor is then broken.
ghost use Rattle.std.specs.Prelude.{◌≡◌, ◌<◌, ◌≤◌, ◌+◌, ◌^◌, None, IsTrue, IfOk, IfErr, OnOk, length};
ghost use Rattle.std.specs.Option.{option_copied, ForSome};
ghost use Rattle.cmd_types.specs.declared.limits.TheConstants.{GREATEST_NUMBER};
ghost use Rattle.mon_downtime.specs.Records.{is_live};
ghost use Rattle.mon_downtime.specs.Schedule.{fault_by, IsSmallPlan};
ghost use Rattle.mon_inventory.specs.Lookups.{services_of};
ghost use Rattle.mon_engine.specs.Downtimes.{planned, after_schedule, after_schedule_services, after_del_downtime, has_downtime_by, after_cancel, told_cancelled, cancel_notice};
ghost use Rattle.mon_engine.specs.Notices.{told};
ghost use Rattle.mon_engine.specs.Sound.{IsTimely};
ghost use Rattle.mon_engine.specs.Stops.{stop_of, IsStopOf, Acts};

use crate::act::Planned;
use crate::notice::Word;
use crate::notices::DowntimeTurn;
use crate::object::Kind;
use crate::outcome::Reason;
use crate::state::State;
use crate::stop::ActStop;
use cmd_types::Memory;
use mon_downtime::{Downtime, Fate, Plan, Refusal};
use mon_inventory::Inventory;
use std::alloc::Global;

/// The `ActStop` for a refused plan: the reason of the rejection, or `Memory`.
fn stop_by(why: Refusal) -> ActStop
    ensures { result ≡ stop_of why }
{
    match why {
        Refusal::BadWindow => ActStop::Rejected(Reason::BadWindow),
        Refusal::PastWindow => ActStop::Rejected(Reason::PastWindow),
        Refusal::NoDuration => ActStop::Rejected(Reason::NoDuration),
        Refusal::NoTrigger => ActStop::Rejected(Reason::NoTrigger),
        Refusal::TriggerOver => ActStop::Rejected(Reason::TriggerOver),
        Refusal::Memory => ActStop::Memory,
    }
}

/// Whether `downtime` is a downtime of an object of this kind and not over; false for `None`.
fn has_downtime(inventory: &Inventory, downtime: Option<&Downtime>, kind: Kind) -> bool
    requires { ForSome downtime (λ d. d.now.object < length inventory.now.objects) }
    ensures { result ≡ has_downtime_by inventory.now kind (option_copied downtime.entry) }
{
    match downtime {
        None => false,
        Some(downtime) => match downtime.fate {
            Fate::Over => false,
            _ => kind.is_of(inventory.object(downtime.object)),
        },
    }
}

impl State {
    /// Makes the plan of a downtime from the arguments of a command, with copies of its texts. The times are tested
    /// before memory is taken; the error is the reason of their first fault.
    fn make_plan(&self, alloc: Global, asked: Planned<'_>) -> Result<Plan, ActStop>
        ensures ok { IfOk result (λ p. p ≡ planned asked.entry.times asked.entry.author.now asked.entry.text.now) }
        ensures sound { OnOk result (fault_by self.now.downtimes self.now.clock asked.entry.times ≡ None) }
        ensures err { IfErr result (λ why. IsStopOf (fault_by self.now.downtimes self.now.clock asked.entry.times) why) }
    {
        if let Some(why) = self.downtimes.refusal(self.clock, &asked.times) {
            return Err(stop_by(why));
        }
        let author = asked.author.copy(alloc)?;
        let text = asked.text.copy(alloc)?;
        Ok(Plan {
            times: asked.times,
            author,
            text,
        })
    }

    /// Schedules a downtime of the object, with the next id. The error is the reason of the first fault of its times.
    /// Where the plan is rejected or memory runs out, the state is unchanged.
    pub fn schedule(
        &mut self,
        alloc: Global,
        object: u16,
        asked: Planned<'_>,
    ) -> Result<(), ActStop>
        requires room { length self.old.downtimes + 1 < 2 ^ 64 }
        requires clock { self.old.clock ≤ GREATEST_NUMBER }
        requires plan { IsSmallPlan (planned asked.times asked.author.now asked.text.now) }
        ensures { Acts (after_schedule self.old object (planned asked.entry.times asked.entry.author.now asked.entry.text.now)) result self.old self.new }
    {
        let plan = self.make_plan(alloc, asked)?;
        self.downtimes.add_one(self.clock, object, plan)?;
        Ok(())
    }

    /// Schedules a downtime of each service of the host, all by one plan. The error is the reason of the first fault of
    /// the times, also where the host has no service. Where the plan is rejected or memory runs out, the state is
    /// unchanged.
    pub fn schedule_services(
        &mut self,
        alloc: Global,
        inventory: &Inventory,
        host: u16,
        asked: Planned<'_>,
    ) -> Result<(), ActStop>
        requires host { host < length inventory.now.objects }
        requires next { length self.old.downtimes + 1 < 2 ^ 64 }
        requires room { length self.old.downtimes + length (services_of inventory.now.objects host) < 2 ^ 64 }
        requires clock { self.old.clock ≤ GREATEST_NUMBER }
        requires plan { IsSmallPlan (planned asked.times asked.author.now asked.text.now) }
        ensures { Acts (after_schedule_services inventory.now self.old host (planned asked.entry.times asked.entry.author.now asked.entry.text.now)) result self.old self.new }
    {
        let plan = self.make_plan(alloc, asked)?;
        let services = inventory.services_of(host);
        self.downtimes.add_many(alloc, self.clock, services, &plan)?;
        Ok(())
    }

    /// Cancels the downtime with this id, on an object of this kind, and all that depend on it, and sends the notices
    /// of those that were active. Where there is no such downtime or it is over, the act is rejected and the state is
    /// unchanged. If memory runs out, either no downtime is cancelled, or all are and a part of the notices is sent.
    #[tactic(auto, unfolding(crate::specs::Downtimes::after_del_downtime))]
    pub fn del_downtime(
        &mut self,
        alloc: Global,
        inventory: &Inventory,
        kind: Kind,
        id: u64,
    ) -> Result<(), ActStop>
        requires { IsTimely inventory.now self.old }
        ensures { Acts (after_del_downtime inventory.now self.old kind id) result self.old self.new }
    {
        if !has_downtime(inventory, self.downtimes.find(id), kind) {
            return Err(ActStop::Rejected(Reason::NoSuchDowntime));
        }
        self.cancel(alloc, inventory, id)?;
        Ok(())
    }

    /// Cancels a downtime and all that depend on it, and sends the notices of those that were active. If memory runs
    /// out, either no downtime is cancelled, or all are and a part of the notices is sent.
    #[tactic(auto, unfolding(crate::specs::Downtimes::after_cancel))]
    fn cancel(&mut self, alloc: Global, inventory: &Inventory, id: u64) -> Result<(), Memory>
        requires timely { IsTimely inventory.now self.old }
        requires live { IsTrue (is_live self.old.downtimes id) }
        ensures { OnOk result (self.new ≡ after_cancel inventory.now self.old id) }
    {
        let ids = self.downtimes.cancel(alloc, id)?;
        self.tell_all_cancelled(alloc, inventory, &ids)
    }

    /// Sends the notice that this downtime was cancelled, with the clock as its moment. Nothing but the notices
    /// changes. If memory runs out, the state is unchanged.
    fn tell_cancelled(
        &mut self,
        alloc: Global,
        inventory: &Inventory,
        id: u64,
    ) -> Result<(), Memory>
        requires { IsTimely inventory.now self.old }
        ensures { OnOk result (self.new ≡ told self.old (cancel_notice inventory.now self.old id)) }
    {
        let clock = self.clock;
        match self.downtimes.find(id) {
            None => Ok(()),
            Some(downtime) => {
                let turn = DowntimeTurn {
                    word: Word::DowntimeCancelled,
                    moment: clock,
                    object: downtime.object,
                };
                self.tell_downtime(alloc, inventory, turn)
            }
        }
    }

    /// Sends the notice of each of these cancelled downtimes, in order. Nothing but the notices changes. If memory runs
    /// out, a part of the notices is sent.
    fn tell_all_cancelled(
        &mut self,
        alloc: Global,
        inventory: &Inventory,
        ids: &[u64],
    ) -> Result<(), Memory>
        requires { IsTimely inventory.now self.old }
        ensures { OnOk result (self.new ≡ told_cancelled inventory.now self.old ids.now) }
    {
        for id in ids {
            self.tell_cancelled(alloc, inventory, *id)?;
        }
        Ok(())
    }
}

//! What is told of what stands, after each entry: with the option `recover_the_told` each end, with the option
//! `tell_by_clock` each PROBLEM notice that nothing holds back. If memory runs out, a part of the notices was sent, and
//! the monitor is then broken.
//!
//! Not every object is looked at with each entry. The monitor keeps a moment before which nothing is told of any object,
//! so that up to then only the objects count that an entry touches.
ghost use Rattle.std.specs.Prelude.{◌≡◌, ℕ, ◌<◌, ◌≤◌, ◌-◌, ◌^◌, ◌||◌, IfOk, OnOk, Option, Some, None, Ok, is_some, if◌then◌else◌, length, slice_get};
ghost use Rattle.mon_inventory.specs.Facts.{IsInventory};
ghost use Rattle.mon_engine.specs.declared.object.Object.{Object};
ghost use Rattle.mon_engine.specs.ByClock.{told_by_clock};
ghost use Rattle.mon_engine.specs.Clock.{due_in};
ghost use Rattle.mon_engine.specs.declared.by_clock.Touched.{Touched};
ghost use Rattle.mon_engine.specs.Effects.{shown, Stands};
ghost use Rattle.mon_engine.specs.Sound.{IsOwing, IsTellable};
ghost use Rattle.mon_engine.specs.Step.{effect, stood};
ghost use Rattle.mon_engine.specs.Wakes.{due_from, gone_from, host_view, is_steady, settled_from, stale_from, told_one, touches, wakes_by, wakes, Covers, IsQuiet, IsQuietBut, IsTouchable};

use crate::act::{Act, asked};
use crate::ends::NEWS_SECONDS;
use crate::notices::Occasion;
use crate::object::Object;
use crate::results::back_since;
use crate::state::State;
use crate::target::find;
use cmd_types::{Entry, Memory};
use mon_inventory::Inventory;
use mon_notify::{Facts, problem_viable};
use std::alloc::Global;

/// No moment: the greatest second that a number can hold.
const NEVER: u64 = u64::MAX;

/// What the tests of a service's notices read of its host: whether it is UP, its depth, and when it came back.
#[derive(Clone, Copy)]
pub struct HostView {
    up: bool,
    depth: u64,
    /// The second of the last change of its code; `None` where it is not UP.
    back: Option<u64>,
}

/// The objects for which something but the clock may have changed that a notice of what stands is tested for.
#[derive(Clone, Copy)]
pub enum Touched {
    Nothing,
    /// The object at this index alone.
    One(u16),
    /// The host at this index, and all objects unless its services see it as before.
    Host(u16, HostView),
    All,
}

/// Whether all tests of a PROBLEM notice hold, but those of time and of its contacts.
fn is_steady(facts: &Facts) -> bool
    ensures { result ≡ is_steady facts.now }
{
    facts.program_on
        && facts.object_on
        && facts.depth == 0
        && facts.host_depth == 0
        && facts.host_up
        && facts.letter_on
        && !facts.acknowledged
        && facts.hard
}

/// The second from which these seconds have gone by since the second `from`; 0 where either is `None`.
fn gone_from(from: Option<u64>, seconds: Option<u64>) -> u64
    ensures { result ≡ gone_from from seconds }
{
    match (from, seconds) {
        (Some(from), Some(seconds)) => from.saturating_add(seconds),
        _ => 0,
    }
}

/// The second from which what stands above the object came back long enough ago for a first notice.
fn settled_from(facts: &Facts) -> u64
    ensures { result ≡ settled_from facts.now }
{
    if facts.number == 0 {
        gone_from(facts.above_back, facts.settle)
    } else {
        0
    }
}

/// The second from which a notice is due by its number, its code and the interval; `NEVER` where there is none.
fn due_from(facts: &Facts) -> u64
    ensures { result ≡ due_from facts.now }
{
    let other_state = match facts.notified {
        None => true,
        Some(code) => code != facts.code,
    };
    if facts.number == 0 || other_state {
        return 0;
    }
    if facts.interval == 0 {
        return NEVER;
    }
    match facts.last {
        None => 0,
        Some(last) => last.saturating_add(facts.interval),
    }
}

/// The second from which a notice that is not ready may be, by the clock alone; `NEVER` where there is none.
fn wakes_by(facts: &Facts) -> u64
    ensures { result ≡ wakes_by facts.now }
{
    if !is_steady(facts) || problem_viable(facts) {
        return NEVER;
    }
    let due = facts.not_before.unwrap_or(0).max(due_from(facts));
    due.max(gone_from(facts.since, facts.delay).max(settled_from(facts)))
}

/// All objects where an event of a downtime has happened or is to, since it may change the depths of many; else these.
pub fn unless_due(is_due: bool, touched: Touched) -> Touched
    ensures { result ≡ (if is_due then Touched.All else touched) }
{
    if is_due { Touched::All } else { touched }
}

impl State {
    /// What the tests of a service's notices read of this host.
    fn host_view(&self, host: u16) -> HostView
        requires { host < length self.now.objects }
        ensures { result ≡ host_view self.now host }
    {
        let known = self.objects.get(host);
        HostView {
            up: known.status.code == 0,
            depth: self.downtimes.depth(host),
            back: back_since(known),
        }
    }

    /// The objects for which this act may change something; what may change depths touches all.
    fn touches(&self, inventory: &Inventory, asked: Act<'_>) -> Touched
        requires stands { Stands inventory.now (shown asked) }
        requires tellable { IsTellable inventory.now self.now }
        ensures touches { result ≡ touches inventory.now self.now (shown asked.entry) }
        ensures touchable { IsTouchable inventory.now result }
    {
        match asked {
            Act::AddComment { .. }
            | Act::DelComment { .. }
            | Act::DelAllComments { .. }
            | Act::SetAccepting { .. }
            | Act::Schedule { .. }
            | Act::ScheduleServices { .. }
            | Act::Restart => Touched::Nothing,
            Act::Acknowledge { object, .. }
            | Act::RemoveAcknowledgement { object }
            | Act::Set { object, .. }
            | Act::SendCustom { object, .. } => Touched::One(object),
            Act::CheckResult { object, .. } => {
                if inventory.object(object).service.is_some() {
                    Touched::One(object)
                } else {
                    Touched::Host(object, self.host_view(object))
                }
            }
            _ => Touched::All,
        }
    }

    /// The host alone, where these are the touched of a host that its services see as before; else the same.
    fn narrowed(&self, inventory: &Inventory, touched: Touched) -> Touched
        requires tellable { IsTellable inventory.now self.now }
        requires touchable { IsTouchable inventory.now touched }
        ensures touchable { IsTouchable inventory.now result }
        ensures quiet { (until : Option ℕ) → IsQuietBut inventory.now self.now touched until → IsQuietBut inventory.now self.now result until }
    {
        if let Touched::Host(host, before) = touched {
            let now = self.host_view(host);
            if now.up == before.up && now.depth == before.depth && now.back == before.back {
                return Touched::One(host);
            }
        }
        touched
    }

    /// The second from which the end of the object's problem is no news; `NEVER` where it is not over or nobody is owed its
    /// end.
    fn stale_from(&self, object: u16, known: &Object) -> u64
        requires { object < length self.now.owed }
        ensures { result ≡ stale_from self.now object known.now }
    {
        if known.status.code != 0 || self.owed[object as usize].contacts.as_slice().is_empty() {
            return NEVER;
        }
        known.moments.changed.saturating_add(NEWS_SECONDS)
    }

    /// The second from which something of the object may be told, where nothing is now and nothing but the clock changes.
    #[tactic(auto, unfolding(crate::specs::Wakes::wakes))]
    fn wakes(&self, inventory: &Inventory, object: u16) -> u64
        requires object { object < length inventory.now.objects }
        requires sound { IsInventory inventory.now }
        requires tellable { IsTellable inventory.now self.now }
        requires owing { IsOwing inventory.now self.now.owed }
        ensures { result ≡ wakes inventory.now self.now object }
    {
        let found = self.found(inventory, object);
        let stale = self.stale_from(object, found.state);
        if found.state.status.code == 0 {
            return stale;
        }
        wakes_by(&self.problem_facts(inventory, found, Occasion::Clock)).min(stale)
    }

    /// Tells what is to be told of the object: its end with the option `recover_the_told`, its problem with the option
    /// `tell_by_clock`. If memory runs out, a part of this may be done.
    fn tell_one(&mut self, alloc: Global, inventory: &Inventory, object: u16) -> Result<(), Memory>
        requires object { object < length inventory.now.objects }
        requires sound { IsInventory inventory.now }
        requires tellable { IsTellable inventory.now self.old }
        requires owing { IsOwing inventory.now self.old.owed }
        requires next { (k : ℕ) (o : Object) → slice_get self.old.objects k ≡ Some o → o.number < 2 ^ 64 - 1 }
        ensures { OnOk result (self.new ≡ told_one inventory.now self.old object) }
    {
        if inventory.recovers_the_told() {
            self.tell_end(alloc, inventory, object)?;
        }
        if inventory.tells_by_clock() {
            self.tell_problem(alloc, inventory, object, Occasion::Clock)?;
        }
        Ok(())
    }

    /// Sends each PROBLEM notice that may go out, in order of the inventory; none without the option `tell_by_clock`. If
    /// memory runs out, a part of the notices was sent.
    #[tactic(auto, unfolding(crate::specs::ByClock::told_by_clock))]
    fn tell_problems(&mut self, alloc: Global, inventory: &Inventory) -> Result<(), Memory>
        requires sound { IsInventory inventory.now }
        requires tellable { IsTellable inventory.now self.old }
        requires next { (k : ℕ) (o : Object) → slice_get self.old.objects k ≡ Some o → o.number < 2 ^ 64 - 1 }
        ensures { OnOk result (self.new ≡ told_by_clock inventory.now self.old) }
    {
        if !inventory.tells_by_clock() {
            return Ok(());
        }
        for object in 0..inventory.object_count() {
            self.tell_problem(alloc, inventory, object, Occasion::Clock)?;
        }
        Ok(())
    }

    /// The second before which nothing is told of any object, where nothing is now and nothing but the clock changes.
    fn first_wake(&self, inventory: &Inventory) -> u64
        requires sound { IsInventory inventory.now }
        requires tellable { IsTellable inventory.now self.now }
        requires owing { IsOwing inventory.now self.now.owed }
        ensures { (k : ℕ) → k < length inventory.now.objects → result ≤ wakes inventory.now self.now k }
    {
        let mut until = NEVER;
        for object in 0..inventory.object_count() {
            until = until.min(self.wakes(inventory, object));
        }
        until
    }

    /// Tells what stands, in order of the inventory: with the option `recover_the_told` each end that may be told, then
    /// with the option `tell_by_clock` each problem. Without both, `quiet` is `None` and nothing is told. Else `quiet` is
    /// the second before which nothing is told, but for the objects touched; afterwards there are none of these. Up to
    /// that second only the touched are looked at. If memory runs out, a part of the notices was sent.
    pub fn tell_what_stands(
        &mut self,
        alloc: Global,
        inventory: &Inventory,
        touched: Touched,
        quiet: &mut Option<u64>,
    ) -> Result<(), Memory>
        requires sound { IsInventory inventory.now }
        requires tellable { IsTellable inventory.now self.old }
        requires owing { IsOwing inventory.now self.old.owed }
        requires next { (k : ℕ) (o : Object) → slice_get self.old.objects k ≡ Some o → o.number < 2 ^ 64 - 1 }
        requires touchable { IsTouchable inventory.now touched }
        requires quiet { IsQuietBut inventory.now self.old touched quiet.old }
        ensures told { OnOk result (self.new ≡ stood inventory.now self.old) }
        ensures quiet { OnOk result (IsQuiet inventory.now self.new quiet.new) }
    {
        let until = match *quiet {
            None => return Ok(()),
            Some(until) => until,
        };
        if self.clock < until {
            match self.narrowed(inventory, touched) {
                Touched::Nothing => return Ok(()),
                Touched::One(object) => {
                    self.tell_one(alloc, inventory, object)?;
                    *quiet = Some(until.min(self.wakes(inventory, object)));
                    return Ok(());
                }
                Touched::Host(_, _) | Touched::All => {}
            }
        }
        self.tell_ends(alloc, inventory)?;
        self.tell_problems(alloc, inventory)?;
        *quiet = Some(self.first_wake(inventory));
        Ok(())
    }

    /// The objects for which the entry's command may change something; `All` where `quiet` is `None`, and it does not
    /// matter.
    pub fn touched(&self, inventory: &Inventory, entry: &Entry, quiet: Option<u64>) -> Touched
        requires sound { IsInventory inventory.now }
        requires tellable { IsTellable inventory.now self.now }
        ensures touchable { IsTouchable inventory.now result }
        ensures covers { Covers inventory.now self.now (effect inventory.now self.now entry.now).0 result }
    {
        if quiet.is_none() {
            return Touched::All;
        }
        let command = entry.stamped.command();
        match find(inventory, command.names()) {
            Err(_) => Touched::Nothing,
            Ok(target) => self.touches(inventory, asked(command, target)),
        }
    }

    /// Whether an event of a downtime is due by the second `t`.
    pub fn is_due(&self, t: u64) -> bool
        ensures { result ≡ is_some (due_in self.now t) }
    {
        self.downtimes.next_due(t).is_some()
    }
}

//! The effect of a check result: it changes the object's state, and with that an acknowledgement and its comments, the
//! flexible downtimes that wait for a problem, and the notices. A rejected result changes nothing. If memory runs out,
//! a part of this may be done, and the monitor is then broken.
ghost use Rattle.std.specs.Prelude.{◌≡◌, ◌<◌, OnOk, length, Some, if◌then◌else◌};
ghost use Rattle.mon_checks.specs.States.{IsWithin};
ghost use Rattle.mon_inventory.specs.Facts.{IsInventory};
ghost use Rattle.mon_notes.specs.Comments.{without_acknowledged};
ghost use Rattle.mon_engine.specs.Objects.{acknowledgement_after, back_since, is_of_hard_problem, moments_after, object_after, host_is_up};
ghost use Rattle.mon_engine.specs.Results.{is_taken, checked_as, CanTake, is_hard_problem, with_started, after_check_result, IsCodeAt};
ghost use Rattle.mon_engine.specs.Sound.{IsWorld, IsTimely};
ghost use Rattle.mon_engine.specs.Stops.{Acts};

use crate::acknowledgements::is_acknowledged;
use crate::notice::Word;
use crate::notices::DowntimeTurn;
use crate::object::{Acknowledgement, Kind, Moments, Object};
use crate::outcome::Reason;
use crate::state::State;
use crate::stop::ActStop;
use crate::switches::{Program, accepts};
use cmd_types::{Memory, Text};
use mon_checks::{Change, Status, after_result};
use mon_downtime::all_that_wait_start;
use mon_inventory::{Inventory, ObjectSpec};
use mon_notes::Notes;
use std::alloc::Global;

/// The acknowledgement after a check result: a recovery removes any, another change of the code removes a normal one,
/// and otherwise it is unchanged.
fn acknowledgement_after(acknowledgement: Acknowledgement, change: Change) -> Acknowledgement
    ensures { result ≡ acknowledgement_after acknowledgement change.code_changed change.recovered }
{
    if change.recovered {
        return Acknowledgement::Unacknowledged;
    }
    if !change.code_changed {
        return acknowledgement;
    }
    match acknowledgement {
        Acknowledgement::Sticky => Acknowledgement::Sticky,
        _ => Acknowledgement::Unacknowledged,
    }
}

/// The change that a check result made to an object.
#[derive(Clone, Copy)]
pub struct Checked {
    /// Whether the result removed an acknowledgement.
    pub unacknowledges: bool,
    pub change: Change,
}

/// A check result, with the other facts that decide on the object's state after it.
#[derive(Drop)]
pub struct Check {
    /// The monitor's clock, in seconds.
    pub clock: u64,
    pub code: u8,
    pub output: Text,
    pub host_up: bool,
    /// The attempt from which a problem is hard.
    pub max: u64,
    /// Whether a passive check result may leave a host in a soft state.
    pub soft_hosts: bool,
}

/// Whether a status is that of a hard problem: its code is not 0, and its type is hard.
fn is_of_hard_problem(status: Status) -> bool
    ensures { result ≡ is_of_hard_problem status }
{
    status.code != 0 && status.hard
}

/// The moments of an object after a check result at the second `clock` that took its status from `before` to `after`.
fn moments_after(clock: u64, before: Status, after: Status, moments: Moments) -> Moments
    ensures { result ≡ moments_after clock after.code before after moments }
{
    Moments {
        checked: Some(clock),
        changed: if before.code != after.code {
            clock
        } else {
            moments.changed
        },
        since: match (is_of_hard_problem(before), is_of_hard_problem(after)) {
            (_, false) => None,
            (true, true) => moments.since,
            (false, true) => Some(clock),
        },
    }
}

/// Applies a check result to the object: its status, moments, output and acknowledgement change, and a change of the
/// code removes a delay of notices. The object's switches and its notification number are unchanged. Returns the change.
pub fn take_result(object: &mut Object, check: Check) -> Checked
    requires { CanTake check.code check.max object.old }
    ensures object { object.new ≡ object_after check.clock check.code check.output check.host_up check.soft_hosts check.max object.old }
    ensures checked { result ≡ checked_as object.old check.code }
    ensures within { IsWithin check.max object.new.status }
{
    let Check {
        clock,
        code,
        output,
        host_up,
        max,
        soft_hosts,
    } = check;
    let (status, change) = after_result(&object.status, code, host_up, max, soft_hosts);
    let before = object.acknowledgement;
    let after = acknowledgement_after(before, change);
    object.moments = moments_after(clock, object.status, status, object.moments);
    object.status = status;
    object.output = output;
    object.acknowledgement = after;
    if change.code_changed {
        object.not_before = None;
    }
    Checked {
        unacknowledges: is_acknowledged(before) && !is_acknowledged(after),
        change,
    }
}

/// Whether the host of the object with this line of the inventory has code 0.
pub fn host_is_up(objects: &[Object], spec: &ObjectSpec) -> bool
    requires { spec.now.host_object < length objects.now }
    ensures { result ≡ host_is_up objects.now spec.now }
{
    objects[spec.host_object as usize].status.code == 0
}

/// The second at which the object came back: the last change of its code; `None` where its code is not 0.
pub fn back_since(object: &Object) -> Option<u64>
    ensures { result ≡ back_since (Some object.now) }
{
    (object.status.code == 0).then_some(object.moments.changed)
}

/// Whether passive check results of the object are accepted: the program's switch for its kind and its own switch are
/// on.
fn is_taken(program: Program, spec: &ObjectSpec, object: &Object) -> bool
    ensures { result ≡ is_taken program spec.now object.now }
{
    accepts(program, Kind::of(spec)) && object.passive
}

/// Whether the object has a code other than 0 and its state is hard.
fn is_hard_problem(object: &Object) -> bool
    ensures { result ≡ is_hard_problem (Some object.now) }
{
    is_of_hard_problem(object.status)
}

/// Removes the comments of the object's acknowledgements that are not persistent, where `unacknowledges` is true; else
/// changes nothing.
fn drop_comments(notes: &mut Notes, unacknowledges: bool, object: u16)
    ensures { notes.new ≡ (if unacknowledges then without_acknowledged object notes.old else notes.old) }
{
    if unacknowledges {
        notes.drop_acknowledged(object);
    }
}

/// A check result of an object, as a command sends it.
#[derive(Clone, Copy)]
pub struct PassiveResult<'a> {
    pub object: u16,
    pub code: u8,
    pub output: &'a Text,
}

impl State {
    /// Starts each flexible downtime of the object that waits for a problem, each with its notice, if the object is in
    /// a hard problem. If memory runs out, a part of them has started.
    fn start_waiting(
        &mut self,
        alloc: Global,
        inventory: &Inventory,
        object: u16,
    ) -> Result<(), Memory>
        requires object { object < length inventory.now.objects }
        requires timely { IsTimely inventory.now self.old }
        ensures { OnOk result (self.new ≡ with_started inventory.now self.old object) }
    {
        if !is_hard_problem(self.objects.get(object)) {
            return Ok(());
        }
        // For the proof alone, at no cost when it runs: the downtimes that wait start one after another, until none
        // waits.
        all_that_wait_start();
        let clock = self.clock;
        'waiting: loop {
            match self.downtimes.problem_seen(object, clock) {
                None => return Ok(()),
                Some(_) => {
                    let turn = DowntimeTurn {
                        word: Word::DowntimeStart,
                        moment: clock,
                        object,
                    };
                    self.tell_downtime(alloc, inventory, turn)?
                }
            }
        }
    }

    /// Applies a check result to the object at the clock. This may remove the acknowledgement with its comments, start
    /// flexible downtimes that wait for a problem, and send notices. Where the program or the object does not accept
    /// passive results, the act is rejected and the state is unchanged. If memory runs out, a part of this may be done.
    #[tactic(auto, unfolding(crate::specs::Results::after_check_result))]
    pub fn check_result(
        &mut self,
        alloc: Global,
        inventory: &Inventory,
        passive: PassiveResult<'_>,
    ) -> Result<(), ActStop>
        requires object { passive.object < length inventory.now.objects }
        requires code { IsCodeAt inventory.now passive.object passive.code }
        requires sound { IsInventory inventory.now }
        requires world { IsWorld inventory.now self.old }
        ensures { Acts (after_check_result inventory.now self.old passive.entry.object passive.entry.code passive.entry.output.now) result self.old self.new }
    {
        let PassiveResult {
            object,
            code,
            output,
        } = passive;
        let spec = inventory.object(object);
        if !is_taken(self.program, spec, self.objects.get(object)) {
            return Err(ActStop::Rejected(Reason::PassiveOff));
        }
        let check = Check {
            clock: self.clock,
            code,
            output: output.copy(alloc)?,
            host_up: host_is_up(self.objects.as_slice(), spec),
            max: spec.max,
            soft_hosts: inventory.passive_hosts_soft(),
        };
        let checked = self.objects.take(object, check);
        drop_comments(&mut self.notes, checked.unacknowledges, object);
        self.start_waiting(alloc, inventory, object)?;
        self.tell_change(alloc, inventory, object, checked.change)?;
        Ok(())
    }
}

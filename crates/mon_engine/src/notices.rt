//! Which notices go out, and how a notice of a check result changes its object. A `.._notice` makes a notice and
//! changes nothing; a `tell_..` sends it: appends it to the list of notices. A notice goes out where a rule allows it
//! and it reaches at least one contact.
ghost use Rattle.std.specs.Prelude.{◌≡◌, ◌<◌, ◌+◌, ◌-◌, ◌^◌, true, IfOk, OnOk, Some, length, slice_get};
ghost use Rattle.mon_engine.specs.declared.object.Object.{Object};
ghost use Rattle.mon_inventory.specs.Facts.{IsInventory};
ghost use Rattle.mon_engine.specs.Notices.{to_someone, addressed, told, both_on, facts, problem_facts, subject_of, downtime_notice, acknowledgement_notice, problem_notice, recovery_notice, told_problem, noticed};
ghost use Rattle.mon_notify.specs.Letters.{letter_of};
ghost use Rattle.mon_engine.specs.Objects.{is_service};
ghost use Rattle.mon_engine.specs.Sound.{IsTellable};

use crate::acknowledgements::is_acknowledged;
use crate::notice::{Notice, Subject, Word};
use crate::object::{Found, Object};
use crate::results::{back_since, host_is_up};
use crate::state::State;
use cmd_types::{Memory, Numbers};
use mon_checks::Change;
use mon_inventory::Inventory;
use mon_notify::{
    ContactSwitch, Facts, Letter, has_letter, interval_in_force, letter_of, problem_viable,
    recipients, recovery_viable,
};
use std::alloc::Global;

/// Makes the subject of a notice of this object: its index and its present code, with this moment, word and number.
pub fn subject_of(moment: u64, word: Word, found: Found<'_>, number: u64) -> Subject
    ensures { result ≡ subject_of moment word found.entry.index found.entry.state.now number }
{
    Subject {
        moment,
        word,
        object: found.index,
        code: found.state.status.code,
        number,
    }
}

/// Makes a notice to these contacts; `None` where there are none.
pub fn to_someone(subject: Subject, contacts: Vec<u16>) -> Option<Notice>
    ensures { result ≡ to_someone subject contacts.items }
{
    if contacts.is_empty() {
        return None;
    }
    Some(Notice {
        subject,
        contacts: Numbers::new(contacts),
    })
}

/// The options that, with the object and the number, decide which contacts a notice may reach.
#[derive(Clone, Copy)]
struct Reach {
    /// The letter that the contacts' options need.
    letter: Letter,
    /// Whether the notice goes to the contacts of the escalations that match, where there are any.
    escalate: bool,
}

impl Reach {
    /// The reach with this letter and with escalation.
    fn escalated(letter: Letter) -> Reach
        ensures letter { result.letter ≡ letter }
        ensures escalate { result.escalate ≡ true }
    {
        Reach {
            letter,
            escalate: true,
        }
    }
}

/// Makes a notice to the contacts that it reaches; `None` where it reaches nobody.
#[tactic(auto, unfolding(crate::specs::Notices::addressed))]
fn addressed(
    alloc: Global,
    inventory: &Inventory,
    switches: &[ContactSwitch],
    subject: Subject,
    reach: Reach,
) -> Result<Option<Notice>, Memory>
    requires object { subject.object < length inventory.now.objects }
    requires switches { length switches.now ≡ length inventory.now.contacts }
    ensures { IfOk result (λ n. n ≡ addressed inventory.now switches.now subject reach.letter reach.escalate) }
{
    let contacts = recipients(
        alloc,
        inventory,
        switches,
        subject.object,
        subject.number,
        reach.letter,
        reach.escalate,
    )?;
    Ok(to_someone(subject, contacts))
}

/// What a PROBLEM notice is tried at: each accepted check result of its object, and the clock.
#[derive(Clone, Copy)]
pub enum Occasion {
    Check,
    Clock,
}

/// The letter of the object's present state in notification options.
pub fn state_letter(found: Found<'_>) -> Letter
    ensures { result ≡ letter_of (is_service found.entry.spec.now) found.entry.state.now.status.code }
{
    letter_of(found.spec.service.is_some(), found.state.status.code)
}

/// A start, end or cancellation of a downtime for which a notice may go out: the word of the notice, the moment, and
/// the object.
#[derive(Clone, Copy)]
pub struct DowntimeTurn {
    pub word: Word,
    /// The second of the event, counted from 1970.
    pub moment: u64,
    pub object: u16,
}

impl State {
    /// Looks up the object at the index `object`: its line of the inventory and its state.
    pub fn found<'a>(&'a self, inventory: &'a Inventory, object: u16) -> Found<'a>
        requires there { object < length inventory.now.objects }
        requires known { object < length self.now.objects }
        ensures index { result.index ≡ object }
        ensures spec { slice_get inventory.now.objects object ≡ Some result.spec.now }
        ensures state { slice_get self.now.objects object ≡ Some result.state.now }
    {
        Found {
            index: object,
            spec: inventory.object(object),
            state: self.objects.get(object),
        }
    }

    /// Whether the program's notifications and the object's notifications are on.
    fn both_on(&self, known: &Object) -> bool
        ensures { result ≡ both_on self.now known.now }
    {
        self.program.notifications && known.notify
    }

    /// Appends a notice to the list of notices; `None` appends nothing. If memory runs out, the state is unchanged.
    pub fn tell(&mut self, notice: Option<Notice>) -> Result<(), Memory>
        ensures { OnOk result (self.new ≡ told self.old notice) }
    {
        match notice {
            None => Ok(()),
            Some(notice) => {
                self.notices.push(notice)?;
                Ok(())
            }
        }
    }

    /// Makes the notice of a downtime's start, end or cancellation; `None` where the program's or the object's
    /// notifications are off, the object's options lack `s`, or the notice reaches nobody.
    #[tactic(auto, unfolding(crate::specs::Notices::downtime_notice))]
    fn downtime_notice(
        &self,
        alloc: Global,
        inventory: &Inventory,
        turn: DowntimeTurn,
    ) -> Result<Option<Notice>, Memory>
        requires object { turn.object < length inventory.now.objects }
        requires tellable { IsTellable inventory.now self.now }
        ensures { IfOk result (λ n. n ≡ downtime_notice inventory.now self.now turn.word turn.moment turn.object) }
    {
        let DowntimeTurn {
            word,
            moment,
            object,
        } = turn;
        let found = self.found(inventory, object);
        if !(self.both_on(found.state) && found.spec.letters.s) {
            return Ok(None);
        }
        let subject = subject_of(moment, word, found, found.state.number);
        let reach = Reach {
            letter: Letter::S,
            escalate: false,
        };
        addressed(alloc, inventory, &self.contacts, subject, reach)
    }

    /// Sends the notice of a downtime's start, end or cancellation, where it may go out. Nothing but the notices
    /// changes. If memory runs out, the state is unchanged.
    pub fn tell_downtime(
        &mut self,
        alloc: Global,
        inventory: &Inventory,
        turn: DowntimeTurn,
    ) -> Result<(), Memory>
        requires object { turn.object < length inventory.now.objects }
        requires tellable { IsTellable inventory.now self.old }
        ensures { OnOk result (self.new ≡ told self.old (downtime_notice inventory.now self.old turn.word turn.moment turn.object)) }
    {
        let notice = self.downtime_notice(alloc, inventory, turn)?;
        self.tell(notice)
    }

    /// Makes the notice of the object's acknowledgement; `None` where the program's or the object's notifications are
    /// off or the notice reaches nobody.
    #[tactic(auto, unfolding(crate::specs::Notices::acknowledgement_notice))]
    fn acknowledgement_notice(
        &self,
        alloc: Global,
        inventory: &Inventory,
        object: u16,
    ) -> Result<Option<Notice>, Memory>
        requires object { object < length inventory.now.objects }
        requires tellable { IsTellable inventory.now self.now }
        ensures { IfOk result (λ n. n ≡ acknowledgement_notice inventory.now self.now object) }
    {
        let found = self.found(inventory, object);
        if !self.both_on(found.state) {
            return Ok(None);
        }
        let reach = Reach::escalated(state_letter(found));
        let subject = subject_of(self.clock, Word::Acknowledgement, found, found.state.number);
        addressed(alloc, inventory, &self.contacts, subject, reach)
    }

    /// Sends the notice of the object's acknowledgement, where it may go out. Nothing but the notices changes. If
    /// memory runs out, the state is unchanged.
    pub fn tell_acknowledged(
        &mut self,
        alloc: Global,
        inventory: &Inventory,
        object: u16,
    ) -> Result<(), Memory>
        requires object { object < length inventory.now.objects }
        requires tellable { IsTellable inventory.now self.old }
        ensures { OnOk result (self.new ≡ told self.old (acknowledgement_notice inventory.now self.old object)) }
    {
        let notice = self.acknowledgement_notice(alloc, inventory, object)?;
        self.tell(notice)
    }

    /// Gathers the facts that decide whether a notice of the object may go out; `letter_on` says whether the object's
    /// options have this letter.
    pub fn facts(&self, inventory: &Inventory, found: Found<'_>, letter: Letter) -> Facts
        requires object { found.index < length inventory.now.objects }
        requires host { found.spec.now.host_object < length self.now.objects }
        ensures { result ≡ facts inventory.now self.now found.entry.index found.entry.spec.now found.entry.state.now letter }
    {
        let Found {
            index: object,
            spec,
            state: known,
        } = found;
        let service = spec.service.is_some();
        Facts {
            program_on: self.program.notifications,
            object_on: known.notify,
            depth: self.downtimes.depth(object),
            host_depth: if service {
                self.downtimes.depth(spec.host_object)
            } else {
                0
            },
            host_up: if service {
                host_is_up(self.objects.as_slice(), spec)
            } else {
                true
            },
            letter_on: has_letter(spec.letters, letter),
            acknowledged: is_acknowledged(known.acknowledgement),
            hard: known.status.hard,
            clock: self.clock,
            not_before: known.not_before,
            number: known.number,
            code: known.status.code,
            notified: known.notified,
            last: known.last,
            interval: interval_in_force(inventory, object, known.number, known.status.code),
            volatile: false,
            since: known.moments.since,
            delay: inventory.directives(object).first_notification_delay,
            above_back: if service {
                back_since(self.objects.get(spec.host_object))
            } else {
                None
            },
            settle: inventory.settle(),
        }
    }

    /// Gathers the facts that decide whether the next PROBLEM notice of the object may go out on this occasion.
    pub fn problem_facts(
        &self,
        inventory: &Inventory,
        found: Found<'_>,
        occasion: Occasion,
    ) -> Facts
        requires object { found.index < length inventory.now.objects }
        requires host { found.spec.now.host_object < length self.now.objects }
        ensures { result ≡ problem_facts inventory.now self.now occasion found.entry.index found.entry.spec.now found.entry.state.now }
    {
        let volatile = match occasion {
            Occasion::Check => inventory.directives(found.index).is_volatile,
            Occasion::Clock => false,
        };
        Facts {
            volatile,
            ..self.facts(inventory, found, state_letter(found))
        }
    }

    /// Makes the next PROBLEM notice of the object, with the number that follows the last; `None` where the notice may
    /// not go out on this occasion or reaches nobody.
    #[tactic(auto, unfolding(crate::specs::Notices::problem_notice))]
    fn problem_notice(
        &self,
        alloc: Global,
        inventory: &Inventory,
        found: Found<'_>,
        occasion: Occasion,
    ) -> Result<Option<Notice>, Memory>
        requires object { found.index < length inventory.now.objects }
        requires host { found.spec.now.host_object < length self.now.objects }
        requires tellable { IsTellable inventory.now self.now }
        requires next { found.state.now.number < 2 ^ 64 - 1 }
        ensures { IfOk result (λ n. n ≡ problem_notice inventory.now self.now occasion found.entry.index found.entry.spec.now found.entry.state.now) }
    {
        if !problem_viable(&self.problem_facts(inventory, found, occasion)) {
            return Ok(None);
        }
        let subject = subject_of(self.clock, Word::Problem, found, found.state.number + 1);
        let reach = Reach::escalated(state_letter(found));
        addressed(alloc, inventory, &self.contacts, subject, reach)
    }

    /// Makes the RECOVERY notice of the object; `None` where the problem was soft, the notice may not go out, or it
    /// reaches nobody, and with the option `recover_the_told`.
    #[tactic(auto, unfolding(crate::specs::Notices::recovery_notice))]
    fn recovery_notice(
        &self,
        alloc: Global,
        inventory: &Inventory,
        found: Found<'_>,
        hard_recovery: bool,
    ) -> Result<Option<Notice>, Memory>
        requires object { found.index < length inventory.now.objects }
        requires host { found.spec.now.host_object < length self.now.objects }
        requires tellable { IsTellable inventory.now self.now }
        ensures { IfOk result (λ n. n ≡ recovery_notice inventory.now self.now found.entry.index hard_recovery found.entry.spec.now found.entry.state.now) }
    {
        if !hard_recovery || inventory.recovers_the_told() {
            return Ok(None);
        }
        if !recovery_viable(&self.facts(inventory, found, Letter::R)) {
            return Ok(None);
        }
        let subject = subject_of(self.clock, Word::Recovery, found, found.state.number);
        let reach = Reach::escalated(Letter::R);
        addressed(alloc, inventory, &self.contacts, subject, reach)
    }

    /// Sends the next PROBLEM notice of the object and counts it, where the object's code is not 0 and the notice may
    /// go out on this occasion. If memory runs out, the object may have counted a notice that is not sent.
    #[tactic(auto, unfolding(crate::specs::Notices::told_problem))]
    pub fn tell_problem(
        &mut self,
        alloc: Global,
        inventory: &Inventory,
        object: u16,
        occasion: Occasion,
    ) -> Result<(), Memory>
        requires object { object < length inventory.now.objects }
        requires sound { IsInventory inventory.now }
        requires tellable { IsTellable inventory.now self.old }
        requires next { (o : Object) → slice_get self.old.objects object ≡ Some o → o.number < 2 ^ 64 - 1 }
        ensures { OnOk result (self.new ≡ told_problem inventory.now occasion self.old object) }
    {
        let found = self.found(inventory, object);
        if found.state.status.code == 0 {
            return Ok(());
        }
        match self.problem_notice(alloc, inventory, found, occasion)? {
            None => Ok(()),
            Some(notice) => {
                self.objects.count_notice(object, self.clock);
                self.tell(Some(notice))
            }
        }
    }

    /// Sends the notice of a check result that made this change, where it may go out. A recovery, notified or not,
    /// resets the object's number, last notice and delay; a PROBLEM notice is counted. If memory runs out, the object
    /// may be changed without its notice.
    #[tactic(auto, unfolding(crate::specs::Notices::noticed, crate::specs::Notices::told_problem))]
    pub fn tell_change(
        &mut self,
        alloc: Global,
        inventory: &Inventory,
        object: u16,
        change: Change,
    ) -> Result<(), Memory>
        requires object { object < length inventory.now.objects }
        requires sound { IsInventory inventory.now }
        requires tellable { IsTellable inventory.now self.old }
        requires next { (o : Object) → slice_get self.old.objects object ≡ Some o → o.number < 2 ^ 64 - 1 }
        ensures { OnOk result (self.new ≡ noticed inventory.now self.old object change) }
    {
        let found = self.found(inventory, object);
        if change.recovered {
            let hard = change.hard_recovery;
            let notice = self.recovery_notice(alloc, inventory, found, hard)?;
            self.objects.reset_notices(object);
            return self.tell(notice);
        }
        self.tell_problem(alloc, inventory, object, Occasion::Check)
    }
}

//! The state of everything that is monitored, and the step by which an entry changes it. If memory runs out in a step,
//! a part of the entry's effect may be done, and the monitor is then broken.
ghost use Rattle.std.specs.Prelude.{◌≡◌, ◌<◌, ◌≤◌, ◌+◌, ◌-◌, IfOk, IfErr, OnOk};
ghost use Rattle.cmd_journal.specs.declared.journal.TheConstants.{GREATEST_LIMIT};
ghost use Rattle.mon_notes.specs.Comments.{IsCommentList};
ghost use Rattle.mon_downtime.specs.Records.{AreRecords};
ghost use Rattle.mon_inventory.specs.Facts.{IsInventory};
ghost use Rattle.mon_engine.specs.declared.outcome.EngineFault.TheVariants.{Memory};
ghost use Rattle.mon_engine.specs.World.{initial};
ghost use Rattle.mon_engine.specs.Step.{effect, step};
ghost use Rattle.mon_engine.specs.Sound.{IsWorld, Follows};
ghost use Rattle.mon_engine.specs.SavedLaws.{resumed};
ghost use Rattle.mon_engine.specs.Wakes.{IsQuiet};
ghost use Rattle.mon_engine.specs.declared.state.TheConstants.{GREATEST_BEFORE};

use crate::by_clock::unless_due;
use crate::ends::{Owed, first_owed};
use crate::notice::Notice;
use crate::objects::Objects;
use crate::outcome::{EngineFault, Outcome, Rejection};
use crate::parts::Parts;
use crate::stop::ActStop;
use crate::switches::{Program, first_contacts};
use cmd_types::{Entry, Memory};
use mon_downtime::{Downtimes, law_of_the_clock};
use mon_inventory::Inventory;
use mon_notes::Notes;
use mon_notify::ContactSwitch;
use std::alloc::Global;
use std::marker::Model;

/// The greatest number of entries before those that a monitor counts itself, 2^40 - 1: a choice (profile). Each entry
/// adds at most one comment, raises a notification number by at most two, and adds at most one downtime to each object.
/// So each id and each number is below 2^54, and nothing overflows.
pub const GREATEST_BEFORE: u64 = 1_099_511_627_775;

/// The state of a monitor, apart from its inventory. `World` of `specs/World.antt` says what each field means.
#[derive(Drop)]
pub struct State {
    pub clock: u64,
    pub notes: Notes,
    pub downtimes: Downtimes,
    pub objects: Objects,
    pub program: Program,
    pub contacts: Vec<ContactSwitch>,
    pub owed: Vec<Owed>,
    pub rejections: Vec<Rejection>,
    pub notices: Vec<Notice>,
    pub entries: u32,
    pub before: u64,
}

impl Model for State {
    ghost use Rattle.mon_engine.specs.World.{World};

    ghost Value = { World };

    ghost view = { λ s. record {
      clock = s.clock;
      notes = s.notes;
      downtimes = s.downtimes;
      objects = s.objects;
      program = s.program;
      contacts = s.contacts.items;
      owed = s.owed.items;
      rejections = s.rejections.items;
      notices = s.notices.items;
      entries = s.entries;
      before = s.before;
    } };
}

impl State {
    /// Makes the state before the first entry: the clock is 0, all switches are on, and there are no comments,
    /// downtimes, rejections and notices.
    #[tactic(auto, unfolding(crate::specs::World::initial))]
    pub fn new(alloc: Global, inventory: &Inventory) -> Result<State, Memory>
        ensures state { IfOk result (λ s. s ≡ initial inventory.now) }
        ensures world { IfOk result (λ s. IsWorld inventory.now s) }
        ensures entries { IfOk result (λ s. s.entries ≡ 0) }
    {
        let objects = Objects::initial(alloc, inventory)?;
        let contacts = first_contacts(alloc, inventory)?;
        let owed = first_owed(alloc, inventory)?;
        Ok(State {
            clock: 0,
            notes: Notes::new(alloc),
            downtimes: Downtimes::new(alloc),
            objects,
            program: Program {
                notifications: true,
                passive_host: true,
                passive_service: true,
            },
            contacts,
            owed,
            rejections: Vec::new(alloc),
            notices: Vec::new(alloc),
            entries: 0,
            before: 0,
        })
    }

    /// Makes the state from these parts, with no rejections and notices and with `entries` at 0. If memory runs out,
    /// the parts are dropped. Requires that the comments and the downtimes pass the tests of `Parts::misfit`.
    pub fn resume(alloc: Global, parts: Parts) -> Result<State, Memory>
        requires notes { IsCommentList parts.notes }
        requires records { AreRecords 0 parts.downtimes }
        ensures { IfOk result (λ s. s ≡ parts) }
    {
        Ok(State {
            clock: parts.clock,
            notes: Notes::restore(alloc, parts.comments, parts.last_comment)?,
            downtimes: Downtimes::restore(alloc, parts.downtimes)?,
            objects: Objects::of(parts.objects),
            program: parts.program,
            contacts: parts.contacts,
            owed: parts.owed,
            rejections: Vec::new(alloc),
            notices: Vec::new(alloc),
            entries: 0,
            before: parts.before,
        })
    }

    /// Adds `entries` to `before`, sets `entries` to 0, and empties the lists of rejections and of notices. Takes no
    /// memory.
    pub fn rebase(&mut self)
        requires { self.old.before ≤ GREATEST_BEFORE }
        ensures { self.new ≡ resumed self.old }
    {
        self.before += u64::from(self.entries);
        self.entries = 0;
        self.rejections.clear();
        self.notices.clear();
    }

    /// Takes the state apart into the parts for `resume`; their `before` includes the entries of this state. The lists
    /// of rejections and of notices are dropped. Takes no memory.
    pub fn into_parts(self) -> Parts
        requires { self.before ≤ GREATEST_BEFORE }
        ensures { result ≡ resumed self }
    {
        let State {
            clock,
            notes,
            downtimes,
            objects,
            program,
            contacts,
            owed,
            rejections: _,
            notices: _,
            entries,
            before,
        } = self;
        Parts {
            clock,
            before: before + u64::from(entries),
            program,
            objects: objects.into_list(),
            contacts,
            owed,
            last_comment: notes.last_id(),
            comments: notes.into_list(),
            downtimes: downtimes.into_list(),
        }
    }

    /// Does the act of the entry's command; where the act is rejected, only lists the rejection. The clock and the
    /// count of entries are unchanged. If memory runs out, a part of the act may be done.
    fn apply_command(
        &mut self,
        alloc: Global,
        inventory: &Inventory,
        entry: &Entry,
    ) -> Result<Outcome, EngineFault>
        requires sound { IsInventory inventory.now }
        requires world { IsWorld inventory.now self.old }
        ensures ok { IfOk result (λ o. effect inventory.now self.old entry.now ≡ (self.new, o)) }
        ensures follows { OnOk result (Follows inventory.now self.old self.new) }
        ensures err { IfErr result (λ e. e ≡ Memory) }
    {
        match self.attempt(alloc, inventory, entry) {
            Ok(()) => Ok(Outcome::Applied),
            Err(ActStop::Memory) => Err(EngineFault::Memory),
            Err(ActStop::Rejected(reason)) => {
                self.rejections.push(Rejection {
                    sender: entry.sender,
                    place: entry.place,
                    reason,
                })?;
                Ok(Outcome::Rejected(reason))
            }
        }
    }

    /// Applies one entry and counts it. First the events due by the entry's time happen, then its act is done or its
    /// rejection listed, then the events that the act made due happen. Sets the clock to the entry's time, unless the
    /// clock is later. Then what stands is told: with the option `recover_the_told` each RECOVERY notice that may go out,
    /// and with the option `tell_by_clock` each PROBLEM notice. If memory runs out, a part of this may be done.
    #[tactic(auto, unfolding(crate::specs::Step::step, crate::specs::Step::acted))]
    pub fn step(
        &mut self,
        alloc: Global,
        inventory: &Inventory,
        entry: &Entry,
        quiet: &mut Option<u64>,
    ) -> Result<Outcome, EngineFault>
        requires sound { IsInventory inventory.now }
        requires world { IsWorld inventory.now self.old }
        requires room { self.old.entries < GREATEST_LIMIT }
        requires quiet { IsQuiet inventory.now self.old quiet.old }
        ensures ok { IfOk result (λ o. step inventory.now self.old entry.now ≡ (self.new, o)) }
        ensures world { OnOk result (IsWorld inventory.now self.new) }
        ensures entries { OnOk result (self.new.entries ≡ self.old.entries + 1) }
        ensures quiet { OnOk result (IsQuiet inventory.now self.new quiet.new) }
        ensures err { IfErr result (λ e. e ≡ Memory) }
    {
        // For the proof alone, at no cost when it runs: where nothing is due, only the clock changes.
        law_of_the_clock();
        let t = self.clock.max(entry.stamped.time());
        let told = self.notices.len();
        let was_due = self.is_due(t);
        self.advance(alloc, inventory, t)?;
        let by_act = self.touched(inventory, entry, *quiet);
        let outcome = self.apply_command(alloc, inventory, entry)?;
        self.entries += 1;
        let is_due = self.is_due(t);
        self.advance(alloc, inventory, t)?;
        let touched = unless_due(was_due | is_due, by_act);
        self.tell_what_stands(alloc, inventory, touched, quiet)?;
        self.note_owed(alloc, inventory, told)?;
        Ok(outcome)
    }
}

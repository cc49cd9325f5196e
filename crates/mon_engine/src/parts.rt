//! The parts of a monitor: its state, field by field, for writing it and reading it back; and the test whether they fit
//! an inventory. Nothing is changed and no memory is taken here.
ghost use Rattle.std.specs.Prelude.{◌≡◌, ◌↔◌, ℕ, false, ◌+◌, ◌<◌, ◌≤◌, ◌*◌, All, length, IsTrue, IfSome, MatchOption};
ghost use Rattle.cmd_types.specs.declared.limits.TheConstants.{GREATEST_NUMBER};
ghost use Rattle.mon_inventory.specs.declared.limits.TheConstants.{MOST_OBJECTS};
ghost use Rattle.mon_engine.specs.declared.state.TheConstants.{GREATEST_BEFORE};
ghost use Rattle.mon_inventory.specs.Configuration.{recovers_the_told};
ghost use Rattle.mon_inventory.specs.Facts.{IsInventory};
ghost use Rattle.mon_checks.specs.States.{IsCodeOf};
ghost use Rattle.mon_notes.specs.Comments.{IsCommentList};
ghost use Rattle.mon_downtime.specs.Records.{AreRecords};
ghost use Rattle.mon_engine.specs.declared.parts.ResumeFault.TheVariants.{Memory};
ghost use Rattle.mon_engine.specs.Owed.{nobody};
ghost use Rattle.mon_engine.specs.Sound.{AreObjectStates, IsObjectState, IsOwing};
ghost use Rattle.mon_engine.specs.Saved.{IsSaid, AreMoments, IsSaidObject, IsSaidComment, IsSaidDowntime, IsSaved, Fits, IsOwedFit};
ghost use Rattle.mon_engine.specs.Misfits.{ObjectFits, CommentFits, DowntimeFits, OwedFits, IsFirstMisfit};

use crate::ends::Owed;
use crate::object::{Moments, Object};
use crate::state::GREATEST_BEFORE;
use crate::switches::Program;
use cmd_types::{GREATEST_NUMBER, Memory, Text, lacks};
use mon_downtime::{Downtime, unrecorded};
use mon_inventory::{Inventory, MOST_OBJECTS, ObjectSpec};
use mon_notes::{Comment, misplaced};
use mon_notify::ContactSwitch;
use std::marker::Model;

/// All that a monitor resumes from, apart from its inventory (profile). Its lists of rejections and of notices are not
/// included.
///
/// ```
/// // INVENTORY: the text of an inventory with the host web
/// let inventory = Inventory::parse(alloc, INVENTORY)?;
/// let parts = Parts {
///     clock: 7,
///     before: 1,
///     program: Program {
///         notifications: true,
///         passive_host: true,
///         passive_service: true,
///     },
///     objects: Vec::new(alloc),
///     contacts: Vec::new(alloc),
///     owed: Vec::new(alloc),
///     last_comment: 0,
///     comments: Vec::new(alloc),
///     downtimes: Vec::new(alloc),
/// };
/// // these parts lack the host
/// let Err(fault) = Monitor::resume(alloc, inventory, parts) else {
///     return Err(Fail::new("the host is missing"));
/// };
/// assert_eq!(rt; fault, ResumeFault::Misfit(Misfit::Object(0)));
/// ```
#[derive(Drop)]
pub struct Parts {
    /// The greatest time of all entries so far, in seconds.
    pub clock: u64,
    /// The number of entries ever applied, rejected ones included.
    pub before: u64,
    pub program: Program,
    /// The state of each object, at its index in the inventory.
    pub objects: Vec<Object>,
    /// The switches of each contact, at its index in the inventory.
    pub contacts: Vec<ContactSwitch>,
    /// Who is owed the end of each object's problem, at the object's index in the inventory.
    pub owed: Vec<Owed>,
    /// The greatest id that a comment ever had; 0 where no comment was ever added.
    pub last_comment: u64,
    /// The comments that were not removed, in order of their ids.
    pub comments: Vec<Comment>,
    /// All downtimes ever scheduled, in order of their ids.
    pub downtimes: Vec<Downtime>,
}

impl Model for Parts {
    ghost use Rattle.std.specs.Prelude.{[]};
    ghost use Rattle.mon_engine.specs.World.{World};

    ghost Value = { World };

    ghost view = { λ p. record {
      clock = p.clock;
      notes = record { comments = p.comments.items; last_id = p.last_comment };
      downtimes = p.downtimes.items;
      objects = p.objects.items;
      program = p.program;
      contacts = p.contacts.items;
      owed = p.owed.items;
      rejections = [];
      notices = [];
      entries = 0;
      before = p.before;
    } };
}

/// The first part that does not fit the inventory, in the order of these variants and in a list by index. A number is
/// the index of the object, comment or downtime in its list, from 0 (profile).
///
/// A part fits if it passes a test that each part passes after at most [`GREATEST_BEFORE`] entries: of the ranges of its
/// numbers, the order of its ids, its count, and its texts. Parts that fit are not always ones to which entries can lead.
///
/// See the example of [`ResumeFault`].
#[derive(Clone, Copy, Debug, PartialEq, Eq)]
pub enum Misfit {
    Clock,
    Before,
    /// The object at this index does not fit, is missing, or is not in the inventory.
    Object(usize),
    Contacts,
    LastComment,
    Comment(usize),
    /// There are more downtimes than `before` entries can have scheduled.
    Downtimes,
    Downtime(usize),
    /// Who is owed the end of the problem of the object at this index does not fit, is missing, or is of no object of the
    /// inventory.
    Owed(usize),
}

/// Whether a command can have carried this author and text: neither has a line feed, and the author no semicolon.
fn can_be_from_command(author: &Text, text: &Text) -> bool
    ensures { IsTrue result ↔ IsSaid author.now text.now }
{
    let author = author.as_bytes();
    lacks(b';', author) && lacks(b'\n', author) && lacks(b'\n', text.as_bytes())
}

/// Whether a moment is at most `GREATEST_NUMBER`; true for `None`.
fn is_moment(moment: Option<u64>) -> bool
    ensures { IsTrue result ↔ IfSome moment (λ m. m ≤ GREATEST_NUMBER) }
{
    match moment {
        None => true,
        Some(moment) => moment <= GREATEST_NUMBER,
    }
}

/// Whether the moments of an object are at most `GREATEST_NUMBER`.
fn are_moments(moments: Moments) -> bool
    ensures { IsTrue result ↔ AreMoments moments }
{
    is_moment(moments.checked) && moments.changed <= GREATEST_NUMBER && is_moment(moments.since)
}

/// Whether a code is below 4; true for `None`.
fn is_code(code: Option<u8>) -> bool
    ensures { IsTrue result ↔ IfSome code (λ c. c < 4) }
{
    match code {
        None => true,
        Some(code) => code < 4,
    }
}

/// Whether check results can give this status to an object with this line of the inventory: the code is one of its
/// kind, the attempt is from 1 to `max`, a soft state has not reached `max`, and the beginning of a hard problem is there
/// where the status is that of one.
fn is_possible_status(spec: &ObjectSpec, object: &Object) -> bool
    ensures { IsTrue result ↔ (IsObjectState spec.now object.now × IsCodeOf object.now.status.service object.now.status.code) }
{
    let status = object.status;
    let code_count = if status.service { 4 } else { 3 };
    status.service == spec.service.is_some()
        && status.code < code_count
        && 1 <= status.attempt
        && status.attempt <= spec.max
        && (status.hard || status.attempt < spec.max)
        && object.moments.since.is_some() == (status.code != 0 && status.hard)
}

/// Whether an object fits this line of the inventory after `before` entries.
fn fits(spec: &ObjectSpec, before: u64, object: &Object) -> bool
    requires { before ≤ GREATEST_BEFORE }
    ensures { IsTrue result ↔ Fits before spec.now object.now }
{
    is_possible_status(spec, object)
        && object.number <= GREATEST_NUMBER + 2 * before
        && is_moment(object.last)
        && is_code(object.notified)
        && is_moment(object.not_before)
        && are_moments(object.moments)
        && lacks(b'\n', object.output.as_bytes())
}

/// The index of the first object that does not fit, is missing, or is not in the inventory; `None` where there is none.
fn misfit_of_objects(inventory: &Inventory, before: u64, objects: &[Object]) -> Option<usize>
    requires { before ≤ GREATEST_BEFORE }
    ensures all { MatchOption result
        (AreObjectStates (2 * before) inventory.now.objects objects.now × All IsSaidObject objects.now)
        (λ _. AreObjectStates (2 * before) inventory.now.objects objects.now → All IsSaidObject objects.now → ⊥) }
    ensures at { IfSome result (λ place. ObjectFits before inventory.now.objects objects.now place → ⊥) }
    ensures earlier { (k : ℕ) → IfSome result (λ place. k < place) → ObjectFits before inventory.now.objects objects.now k }
{
    let specs = inventory.objects();
    let shorter = objects.len().min(specs.len());
    for place in 0..shorter {
        if !fits(&specs[place], before, &objects[place]) {
            return Some(place);
        }
    }
    if objects.len() != specs.len() {
        return Some(shorter);
    }
    None
}

/// Whether a comment's object is below `objects`, and a command can have carried its time and its texts.
fn is_said_comment(objects: u16, comment: &Comment) -> bool
    ensures { IsTrue result ↔ ((comment.now.object < objects) × IsSaidComment comment.now) }
{
    comment.object < objects
        && comment.time <= GREATEST_NUMBER
        && can_be_from_command(comment.author.as_text(), comment.text.as_text())
}

/// The index of the first comment that is misplaced or does not pass `is_said_comment`; `None` where there is none.
fn misfit_of_comments(objects: u16, last_id: u64, comments: &[Comment]) -> Option<usize>
    ensures all { MatchOption result
        (IsCommentList (record { comments = comments.now; last_id = last_id })
        × All (λ c. (c.object < objects) × IsSaidComment c) comments.now)
        (λ _. IsCommentList (record { comments = comments.now; last_id = last_id })
        → All (λ c. (c.object < objects) × IsSaidComment c) comments.now → ⊥) }
    ensures at { IfSome result (λ place. CommentFits objects (record { comments = comments.now; last_id = last_id }) place → ⊥) }
    ensures earlier { (k : ℕ) → IfSome result (λ place. k < place)
        → CommentFits objects (record { comments = comments.now; last_id = last_id }) k }
{
    let out_of_order = misplaced(comments, last_id);
    for place in 0..out_of_order.unwrap_or(comments.len()) {
        if !is_said_comment(objects, &comments[place]) {
            return Some(place);
        }
    }
    out_of_order
}

/// Whether a downtime's object is below `objects`, and a command can have carried its texts.
fn is_said_downtime(objects: u16, downtime: &Downtime) -> bool
    ensures { IsTrue result ↔ ((downtime.now.object < objects) × IsSaidDowntime downtime.now) }
{
    downtime.object < objects && can_be_from_command(&downtime.plan.author, &downtime.plan.text)
}

/// The index of the first downtime that is no record there or does not pass `is_said_downtime`; `None` where there is
/// none.
fn misfit_of_downtimes(objects: u16, downtimes: &[Downtime]) -> Option<usize>
    ensures all { MatchOption result
        (AreRecords 0 downtimes.now × All (λ d. (d.object < objects) × IsSaidDowntime d) downtimes.now)
        (λ _. AreRecords 0 downtimes.now → All (λ d. (d.object < objects) × IsSaidDowntime d) downtimes.now → ⊥) }
    ensures at { IfSome result (λ place. DowntimeFits objects downtimes.now place → ⊥) }
    ensures earlier { (k : ℕ) → IfSome result (λ place. k < place) → DowntimeFits objects downtimes.now k }
{
    let no_record = unrecorded(downtimes);
    for place in 0..no_record.unwrap_or(downtimes.len()) {
        if !is_said_downtime(objects, &downtimes[place]) {
            return Some(place);
        }
    }
    no_record
}

/// Whether who is owed an end fits the inventory after `before` entries.
fn owed_fits(inventory: &Inventory, before: u64, owed: &Owed) -> bool
    requires { before ≤ GREATEST_BEFORE }
    ensures { IsTrue result ↔ IsOwedFit inventory.now before owed.now }
{
    let contacts = owed.contacts.as_slice();
    are_below(inventory.contact_count(), contacts)
        && owed.number <= GREATEST_NUMBER + 2 * before
        && (inventory.recovers_the_told() || (contacts.is_empty() && owed.number == 0))
}

/// Whether each of these numbers is below `end`.
fn are_below(end: u16, numbers: &[u16]) -> bool
    ensures { IsTrue result ↔ All (λ n. n < end) numbers.now }
{
    for number in numbers {
        if *number >= end {
            return false;
        }
    }
    true
}

/// The index of the first who is owed an end that does not fit, is missing, or is of no object; `None` where there is
/// none.
fn misfit_of_owed(inventory: &Inventory, before: u64, owed: &[Owed]) -> Option<usize>
    requires { before ≤ GREATEST_BEFORE }
    ensures all { MatchOption result
        (IsOwing inventory.now owed.now × All (λ x. x.number ≤ GREATEST_NUMBER + 2 * before) owed.now
        × (recovers_the_told inventory.now ≡ false → All (λ x. x ≡ nobody) owed.now))
        (λ _. IsOwing inventory.now owed.now → All (λ x. x.number ≤ GREATEST_NUMBER + 2 * before) owed.now
        → (recovers_the_told inventory.now ≡ false → All (λ x. x ≡ nobody) owed.now) → ⊥) }
    ensures at { IfSome result (λ place. OwedFits inventory.now before owed.now place → ⊥) }
    ensures earlier { (k : ℕ) → IfSome result (λ place. k < place) → OwedFits inventory.now before owed.now k }
{
    let count = inventory.objects().len();
    let shorter = owed.len().min(count);
    for place in 0..shorter {
        if !owed_fits(inventory, before, &owed[place]) {
            return Some(place);
        }
    }
    if owed.len() != count {
        return Some(shorter);
    }
    None
}

impl Parts {
    /// Tests part by part, in the order of [`Misfit`], and returns the first part that does not fit this inventory;
    /// `None` where all parts fit. Changes nothing and takes no memory.
    pub fn misfit(&self, inventory: &Inventory) -> Option<Misfit>
        ensures saved { MatchOption result
            (IsSaved inventory.now self.now)
            (λ _. IsSaved inventory.now self.now → ⊥) }
        ensures first { IfSome result (λ misfit. IsFirstMisfit inventory.now self.now misfit) }
    {
        let count = inventory.object_count();
        if self.clock > GREATEST_NUMBER {
            return Some(Misfit::Clock);
        }
        if self.before > GREATEST_BEFORE {
            return Some(Misfit::Before);
        }
        if let Some(place) = misfit_of_objects(inventory, self.before, &self.objects) {
            return Some(Misfit::Object(place));
        }
        if self.contacts.len() != inventory.contacts().len() {
            return Some(Misfit::Contacts);
        }
        if self.last_comment > self.before {
            return Some(Misfit::LastComment);
        }
        if let Some(place) = misfit_of_comments(count, self.last_comment, &self.comments) {
            return Some(Misfit::Comment(place));
        }
        if self.downtimes.len() as u64 > MOST_OBJECTS as u64 * self.before {
            return Some(Misfit::Downtimes);
        }
        if let Some(place) = misfit_of_downtimes(count, &self.downtimes) {
            return Some(Misfit::Downtime(place));
        }
        misfit_of_owed(inventory, self.before, &self.owed).map(Misfit::Owed)
    }
}

/// Why a monitor does not resume from its parts: out of memory, or a part does not fit the inventory.
///
/// ```
/// // these parts lack the host
/// let Err(fault) = Monitor::resume(alloc, inventory, parts) else {
///     return Err(Fail::new("the host is missing"));
/// };
/// assert_eq!(rt; fault, ResumeFault::Misfit(Misfit::Object(0)));
/// ```
#[derive(Clone, Copy, Debug, PartialEq, Eq)]
pub enum ResumeFault {
    Memory,
    Misfit(Misfit),
}

impl From<Memory> for ResumeFault {
    ghost from_gives = { λ _ f. f ≡ Memory };

    /// Returns `ResumeFault::Memory`.
    fn from(_error: Memory) -> ResumeFault {
        ResumeFault::Memory
    }
}

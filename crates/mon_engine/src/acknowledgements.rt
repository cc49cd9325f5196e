//! Acknowledgements with their comments, and the commands that add and delete comments. A rejected act changes nothing.
//! If memory runs out, a part of an act may be done, and the monitor is then broken.
ghost use Rattle.std.specs.Prelude.{◌≡◌, ◌<◌, ◌-◌, ◌^◌, Ok, All, length, Some};
ghost use Rattle.std.specs.Option.{option_copied, ForSome};
ghost use Rattle.mon_engine.specs.Objects.{is_acknowledged, acknowledgement_of};
ghost use Rattle.mon_engine.specs.Acknowledgements.{commented, after_acknowledge, after_unacknowledge, after_del_comment, has_comment_by};
ghost use Rattle.mon_engine.specs.Sound.{IsTellable};
ghost use Rattle.mon_engine.specs.Stops.{Acts};

use crate::act::{Acknowledging, Remark};
use crate::object::{Acknowledgement, Kind};
use crate::outcome::Reason;
use crate::state::State;
use crate::stop::ActStop;
use mon_inventory::Inventory;
use mon_notes::Comment;
use std::alloc::Global;

/// Whether this is an acknowledgement, normal or sticky.
pub fn is_acknowledged(acknowledgement: Acknowledgement) -> bool
    ensures { result ≡ is_acknowledged acknowledgement }
{
    !matches!(acknowledgement, Acknowledgement::Unacknowledged)
}

/// The kind of acknowledgement for the argument `sticky` of a command: sticky for 2, normal for any other number
/// (External Commands).
pub fn acknowledgement_of(sticky: u64) -> Acknowledgement
    ensures { result ≡ acknowledgement_of sticky }
{
    if sticky == 2 {
        Acknowledgement::Sticky
    } else {
        Acknowledgement::Normal
    }
}

/// Whether `comment` is a comment on an object of this kind; false for `None`.
fn has_comment(inventory: &Inventory, comment: Option<&Comment>, kind: Kind) -> bool
    requires { ForSome comment (λ c. c.now.object < length inventory.now.objects) }
    ensures { result ≡ has_comment_by inventory.now kind (option_copied comment.entry) }
{
    match comment {
        None => false,
        Some(comment) => kind.is_of(inventory.object(comment.object)),
    }
}

impl State {
    /// Adds a comment on the object, with the clock as its time and with copies of the texts; `ack` says whether the
    /// comment is of an acknowledgement. Nothing but comments changes. If memory runs out, the state is unchanged.
    pub fn add_comment(
        &mut self,
        alloc: Global,
        object: u16,
        ack: bool,
        remark: Remark<'_>,
    ) -> Result<(), ActStop>
        requires { self.old.notes.last_id < 2 ^ 64 - 1 }
        ensures { Acts (Ok (commented self.old object ack remark.entry.persistent remark.entry.author.now remark.entry.text.now)) result self.old self.new }
    {
        let author = remark.author.copy(alloc)?;
        let text = remark.text.copy(alloc)?;
        let clock = self.clock;
        self.notes
            .add(alloc, object, ack, remark.persistent, clock, author, text)?;
        Ok(())
    }

    /// Acknowledges the object's problem: adds the comment, sets the acknowledgement, and sends the notice if
    /// `asked.notify` is true. Where the object has code 0, the act is rejected and the state is unchanged. If memory
    /// runs out, the comment may be added and the acknowledgement set without a notice.
    #[tactic(auto, unfolding(crate::specs::Acknowledgements::after_acknowledge))]
    pub fn acknowledge(
        &mut self,
        alloc: Global,
        inventory: &Inventory,
        object: u16,
        asked: Acknowledging<'_>,
    ) -> Result<(), ActStop>
        requires object { object < length inventory.now.objects }
        requires tellable { IsTellable inventory.now self.old }
        requires room { self.old.notes.last_id < 2 ^ 64 - 1 }
        ensures { Acts (after_acknowledge inventory.now self.old object asked.entry.sticky asked.entry.notify asked.entry.remark.persistent asked.entry.remark.author.now asked.entry.remark.text.now) result self.old self.new }
    {
        if self.objects.get(object).status.code == 0 {
            return Err(ActStop::Rejected(Reason::NotAProblem));
        }
        self.add_comment(alloc, object, true, asked.remark)?;
        let acknowledgement = acknowledgement_of(asked.sticky);
        self.objects.set_acknowledgement(object, acknowledgement);
        if asked.notify {
            self.tell_acknowledged(alloc, inventory, object)?;
        }
        Ok(())
    }

    /// Removes the object's acknowledgement, and the comments of its acknowledgements that are not persistent. Where
    /// the object is not acknowledged, the state is unchanged. Takes no memory.
    #[tactic(auto, unfolding(crate::specs::Acknowledgements::after_unacknowledge))]
    pub fn unacknowledge(&mut self, object: u16)
        requires object { object < length self.old.objects }
        ensures { self.new ≡ after_unacknowledge self.old object }
    {
        if is_acknowledged(self.objects.get(object).acknowledgement) {
            self.objects
                .set_acknowledgement(object, Acknowledgement::Unacknowledged);
            self.notes.drop_acknowledged(object);
        }
    }

    /// Deletes the comment with this id, on an object of this kind. Where there is no such comment, the act is rejected
    /// and the state is unchanged. Deleting the comment of an acknowledgement leaves the acknowledgement unchanged.
    /// Takes no memory.
    #[tactic(auto, unfolding(crate::specs::Acknowledgements::after_del_comment))]
    pub fn del_comment(&mut self, inventory: &Inventory, kind: Kind, id: u64) -> Result<(), ActStop>
        requires { All (λ c. c.object < length inventory.now.objects) self.old.notes.comments }
        ensures { Acts (after_del_comment inventory.now self.old kind id) result self.old self.new }
    {
        if has_comment(inventory, self.notes.find(id), kind) {
            self.notes.remove(id);
            Ok(())
        } else {
            Err(ActStop::Rejected(Reason::NoSuchComment))
        }
    }
}

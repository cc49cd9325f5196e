//! The side of the dispatcher: it takes the commands and close marks off the queue, and counts for each sender how many
//! commands were taken and whether its close mark was taken. A message is a command, a row of commands of one sender,
//! or a close mark.
ghost use Rattle.std.specs.Prelude.{◌≡◌, ◌<◌, ◌↔◌, ℕ, IsTrue, EachIndex, length, true, IfOk, IfSome, IfNone, OnErr, MatchResult, slice_index_or};
ghost use Rattle.crossbeam_channel.specs.Claims.{view, IsSeatAt};
ghost use Rattle.crossbeam_channel.specs.Ends.{receives_on};
ghost use Rattle.cmd_queue.specs.Lists.{IsNext, AreNext, entries, is_closed};
ghost use Rattle.cmd_queue.specs.Plans.{AreOfPlan};
ghost use Rattle.cmd_queue.specs.Sides.{with_taken, with_all_taken};
ghost use Rattle.cmd_queue.specs.Rows.{row_taken};
ghost use Rattle.cmd_queue.specs.TakenMessage.{together_taken};
ghost use Rattle.cmd_queue.specs.Views.{Took};
ghost use Rattle.cmd_queue.specs.Ends.{IsReceived, IsAnswer, IsAnswerOf};

use crate::make::LOOKS;
use crate::message::Message;
use crate::row::TakenRow;
use crate::rule::{Law, Takes, View};
use crate::settled::Settled;
use crate::taken::{Taken, TakenMessage};
use crate::tally::Tally;
use crossbeam_channel::{Pass, RuledReceiver, TryRecvError};
use std::marker::Model;
use std::sync::Wait;
use std::thread;

/// The side of the dispatcher. Contracts see its queue, the number of senders, and the list of the
/// commands and close marks that were taken.
///
/// See the example of [`queue`].
pub struct DispatcherSide {
    pub(crate) end: RuledReceiver<Message, View, Law>,
    pub(crate) pass: Pass<Message, View>,
    /// The counts of each sender, by its number.
    pub(crate) tallies: Vec<Tally>,
    /// The commands of the last received message that no call has returned yet.
    pub(crate) rest: TakenRow,
}

impl Model for DispatcherSide {
    ghost use Rattle.cmd_queue.specs.Rows.{row_taken};
    ghost use Rattle.cmd_queue.specs.Sides.{Taking};
    ghost use Rattle.cmd_queue.specs.Ends.{taken_by, IsTaker};

    ghost Value = { Taking };

    ghost view = { λ d. taken_by d.pass (row_taken d.rest) };

    ghost invariant = { λ d. IsTaker d.end d.pass d.tallies.items (row_taken d.rest) };
}

// Written by hand, so that each exit of a caller drops the value by one call, not field by field.
impl Drop for DispatcherSide {
    fn drop(self) {
        let DispatcherSide {
            end: _,
            pass: _,
            tallies: _,
            rest: _,
        } = self;
    }
}

/// The queue is lost: nothing was taken, and no further message can be taken (profile).
///
/// ```
/// let (sides, mut dispatcher) = queue(&rt, alloc, 1, 4)?;
/// drop(sides);
/// assert!(rt; dispatcher.take(&rt).is_err());
/// ```
#[derive(Clone, Copy, Debug, PartialEq, Eq)]
pub struct Lost;

/// Receives the front message. Where there is none, fails with `Empty`; or if `waits` is set, tries [`LOOKS`] times,
/// letting other threads run between two tries, and then sleeps until there is a message. After an error what `pass`
/// records is unchanged.
fn receive<R: Wait>(
    rt: &R,
    end: &RuledReceiver<Message, View, Law>,
    pass: &mut Pass<Message, View>,
    waits: bool,
) -> Result<Message, TryRecvError>
    requires channel { IsSeatAt (receives_on end.now) pass.old }
    requires takes { (view pass.old).takes ≡ true }
    ensures channel { IsSeatAt (receives_on end.now) pass.new × (pass.new.id ≡ pass.old.id) }
    ensures rule { MatchResult result (λ x. Took (view pass.old) x (view pass.new)) (λ _. view pass.new ≡ view pass.old) }
{
    for _ in 0..LOOKS {
        match end.try_recv_as::<Takes, R>(rt, pass) {
            Err(TryRecvError::Empty) if waits => thread::yield_now(),
            received => return received,
        }
    }
    end.recv_as::<Takes, R>(rt, pass)
        .map_err(|_| TryRecvError::Disconnected)
}

/// Takes the next command or mark: off `rest`, if it has a command, else off the front message, whose other commands
/// are put into `rest`. Where the queue is lost, `rest` and what `pass` records are unchanged.
fn next<R: Wait>(
    rt: &R,
    end: &RuledReceiver<Message, View, Law>,
    pass: &mut Pass<Message, View>,
    rest: &mut TakenRow,
) -> Result<Taken, Lost>
    requires channel { IsSeatAt (receives_on end.now) pass.old }
    requires knows { IsReceived (view pass.old) (row_taken rest.old) }
    ensures channel { IsSeatAt (receives_on end.now) pass.new × (pass.new.id ≡ pass.old.id) }
    ensures next { IfOk result (λ x. IsAnswer (view pass.old) (row_taken rest.old) x (view pass.new) (row_taken rest.new)) }
    ensures lost { OnErr result ((view pass.new ≡ view pass.old) × (row_taken rest.new ≡ row_taken rest.old)) }
{
    if let Some(entry) = rest.next() {
        return Ok(Taken::Command(entry));
    }
    let Ok(message) = receive(rt, end, pass, true) else {
        return Err(Lost);
    };
    match message {
        Message::One(entry) => Ok(Taken::Command(entry)),
        Message::Many(batch) => {
            let (entry, others) = batch.open();
            *rest = others;
            Ok(Taken::Command(entry))
        }
        Message::Mark { sender, count } => Ok(Taken::Closed { sender, count }),
    }
}

/// Takes the next command off `rest`, if it has one, else the whole front message, for which it waits where `waits` is
/// set. After an error `rest` and what `pass` records are unchanged.
fn next_message<R: Wait>(
    rt: &R,
    end: &RuledReceiver<Message, View, Law>,
    pass: &mut Pass<Message, View>,
    rest: &mut TakenRow,
    waits: bool,
) -> Result<TakenMessage, TryRecvError>
    requires channel { IsSeatAt (receives_on end.now) pass.old }
    requires knows { IsReceived (view pass.old) (row_taken rest.old) }
    ensures channel { IsSeatAt (receives_on end.now) pass.new × (pass.new.id ≡ pass.old.id) }
    ensures next { IfOk result (λ x. IsAnswerOf (view pass.old) (row_taken rest.old) (together_taken x) (view pass.new) (row_taken rest.new)) }
    ensures some { IfOk result (λ x. 0 < length (together_taken x)) }
    ensures lost { OnErr result ((view pass.new ≡ view pass.old) × (row_taken rest.new ≡ row_taken rest.old)) }
{
    if let Some(entry) = rest.next() {
        return Ok(TakenMessage::One(entry));
    }
    let message = receive(rt, end, pass, waits)?;
    match message {
        Message::One(entry) => Ok(TakenMessage::One(entry)),
        Message::Many(batch) => Ok(TakenMessage::Row(batch.into_row())),
        Message::Mark { sender, count } => Ok(TakenMessage::Closed { sender, count }),
    }
}

impl DispatcherSide {
    /// Takes the next command or close mark of the queue (profile). A command is of a sender that is not closed, at the
    /// place after the commands taken of that sender, and of the plan of the queue. A close mark has the number of its
    /// sender's commands. Waits while the queue is empty. Where the queue is lost ([`Lost`]), nothing changes. Takes no
    /// memory.
    pub fn take<R: Wait>(&mut self, rt: &R) -> Result<Taken, Lost>
        ensures side { (self.new.queue ≡ self.old.queue) × (self.new.senders ≡ self.old.senders) }
        ensures taken { IfOk result (λ x. self.new ≡ with_taken self.old x) }
        ensures next { IfOk result (λ x. IsNext self.old.senders self.old.list x) }
        ensures planned { AreOfPlan self.new.queue.plan (entries self.new.list) }
        ensures lost { OnErr result (self.new ≡ self.old) }
    {
        let taken = next(rt, &self.end, &mut self.pass, &mut self.rest)?;
        match taken {
            Taken::Command(entry) => {
                self.tallies[usize::from(entry.sender)].count = entry.place;
                Ok(Taken::Command(entry))
            }
            Taken::Closed { sender, count } => {
                self.tallies[usize::from(sender)].closed = true;
                Ok(Taken::Closed { sender, count })
            }
        }
    }

    /// As [`take_many`](DispatcherSide::take_many). Where the queue is empty, waits if `waits` is set, and else fails
    /// with `Empty`. After an error nothing has changed.
    fn take_message<R: Wait>(&mut self, rt: &R, waits: bool) -> Result<TakenMessage, TryRecvError>
        ensures side { (self.new.queue ≡ self.old.queue) × (self.new.senders ≡ self.old.senders) }
        ensures taken { IfOk result (λ x. self.new ≡ with_all_taken self.old (together_taken x)) }
        ensures next { IfOk result (λ x. AreNext self.old.senders self.old.list (together_taken x)) }
        ensures planned { AreOfPlan self.new.queue.plan (entries self.new.list) }
        ensures some { IfOk result (λ x. 0 < length (together_taken x)) }
        ensures lost { OnErr result (self.new ≡ self.old) }
    {
        let together = next_message(rt, &self.end, &mut self.pass, &mut self.rest, waits)?;
        match together {
            TakenMessage::One(entry) => {
                self.tallies[usize::from(entry.sender)].count = entry.place;
                Ok(TakenMessage::One(entry))
            }
            TakenMessage::Row(row) => {
                self.tallies[usize::from(row.sender())].count = row.last_place();
                Ok(TakenMessage::Row(row))
            }
            TakenMessage::Closed { sender, count } => {
                self.tallies[usize::from(sender)].closed = true;
                Ok(TakenMessage::Closed { sender, count })
            }
        }
    }

    /// Takes the whole front message: a command, a row of commands of one sender, or a close mark (profile).
    /// Where [`take`](DispatcherSide::take) has taken only a part of a message, takes the next command of this
    /// message instead, alone. Waits while the queue is empty. Where the queue is lost ([`Lost`]), nothing changes.
    /// Takes no memory.
    pub fn take_many<R: Wait>(&mut self, rt: &R) -> Result<TakenMessage, Lost>
        ensures side { (self.new.queue ≡ self.old.queue) × (self.new.senders ≡ self.old.senders) }
        ensures taken { IfOk result (λ x. self.new ≡ with_all_taken self.old (together_taken x)) }
        ensures next { IfOk result (λ x. AreNext self.old.senders self.old.list (together_taken x)) }
        ensures planned { AreOfPlan self.new.queue.plan (entries self.new.list) }
        ensures some { IfOk result (λ x. 0 < length (together_taken x)) }
        ensures lost { OnErr result (self.new ≡ self.old) }
    {
        self.take_message(rt, true).map_err(|_| Lost)
    }

    /// Takes the whole front message as [`take_many`](DispatcherSide::take_many) does, but does not wait: returns
    /// `None` where the queue is empty or lost, and then nothing changes (profile).
    pub fn take_waiting<R: Wait>(&mut self, rt: &R) -> Option<TakenMessage>
        ensures side { (self.new.queue ≡ self.old.queue) × (self.new.senders ≡ self.old.senders) }
        ensures taken { IfSome result (λ x. self.new ≡ with_all_taken self.old (together_taken x)) }
        ensures next { IfSome result (λ x. AreNext self.old.senders self.old.list (together_taken x)) }
        ensures planned { AreOfPlan self.new.queue.plan (entries self.new.list) }
        ensures none { IfNone result (self.new ≡ self.old) }
    {
        self.take_message(rt, false).ok()
    }

    /// Whether the close mark of `sender`, numbered from 0, was taken. Requires that `sender` is below the number of
    /// senders of the queue.
    pub fn closed(&self, sender: u16) -> bool
        requires { sender < self.now.senders }
        ensures { result ≡ is_closed sender self.now.list }
    {
        let known = &self.tallies[usize::from(sender)];
        known.closed
    }

    /// Whether the close mark of each sender was taken.
    pub fn all_closed(&self) -> bool
        ensures { IsTrue result ↔ ((s : ℕ) → s < self.now.senders → is_closed s self.now.list ≡ true) }
    {
        all_marked(&self.tallies)
    }

    /// Ends the taking: returns the settled queue, with the same list of taken commands and marks. Commands of the last
    /// message that no call has returned are dropped.
    pub(crate) fn into_settled(self) -> Settled
        ensures queue { result.queue ≡ self.queue }
        ensures senders { result.senders ≡ self.senders }
        ensures list { result.list ≡ self.list }
    {
        let DispatcherSide {
            end: _,
            pass,
            tallies,
            rest,
        } = self;
        let given_up = rest.len();
        Settled {
            pass,
            tallies,
            given_up,
        }
    }
}

/// Whether all of the senders' counts say that the close mark was taken.
fn all_marked(tallies: &[Tally]) -> bool
    ensures { IsTrue result ↔ EachIndex tallies.now (λ s. (d : _) → (slice_index_or tallies.now s d).closed ≡ true) }
{
    tallies.iter().all(|tally| tally.closed)
}

//! The side of a sender: it sends commands and counts them, and at its end sends a close mark or leaves without one.
//! Where the queue takes no further message, a call returns its commands, and the side is unchanged.
ghost use Rattle.std.specs.Prelude.{◌≡◌, ℕ, ◌+◌, ◌++◌, ◌∷◌, [], ◌-◌, ◌^◌, ◌<◌, ◌≤◌, length, false, IfOk, IfErr, MatchResult};
ghost use Rattle.crossbeam_channel.specs.Claims.{view, IsSeatAt};
ghost use Rattle.crossbeam_channel.specs.Ends.{sends_on};
ghost use Rattle.crossbeam_channel.specs.Fifo.{Pushes};
ghost use Rattle.cmd_queue.specs.Lists.{has_mark, IsInOrder};
ghost use Rattle.cmd_queue.specs.Plans.{planned_of, ComeFirst, commands_in};
ghost use Rattle.cmd_queue.specs.declared.make.TheConstants.{MOST_TOGETHER};
ghost use Rattle.cmd_queue.specs.Sides.{with_command, with_commands, with_mark, without_mark};
ghost use Rattle.cmd_queue.specs.Rule.{Ruled};
ghost use Rattle.cmd_queue.specs.Views.{Put};

use crate::closed_sender::ClosedSender;
use crate::make::LOOKS;
use crate::message::Message;
use crate::row::Batch;
use crate::rule::{Law, Sends, View};
use cmd_types::{Entry, Stamped};
use crossbeam_channel::{Pass, RuledSender, TrySendError};
use std::marker::Model;
use std::sync::Wait;
use std::thread;

/// The side of a sender that has not closed. Contracts see its queue, its number and the list of the
/// entries that it has sent.
///
/// See the example of [`queue`].
pub struct SenderSide {
    pub(crate) end: RuledSender<Message, View, Law>,
    pub(crate) pass: Pass<Message, View>,
    pub(crate) sender: u16,
    pub(crate) count: u64,
}

impl Model for SenderSide {
    ghost use Rattle.cmd_queue.specs.Sides.{Sent};
    ghost use Rattle.cmd_queue.specs.Ends.{sent_by, IsSender};

    ghost Value = { Sent };

    ghost view = { λ s. sent_by s.pass };

    ghost invariant = { λ s. IsSender s.end s.pass s.sender s.count };
}

// Written by hand, so that each exit of a caller drops the value by one call, not field by field.
impl Drop for SenderSide {
    fn drop(self) {
        let SenderSide {
            end: _,
            pass: _,
            sender: _,
            count: _,
        } = self;
    }
}

/// A command that was not sent, since the queue takes no further message (profile).
///
/// ```
/// let Ok(stamped) = Stamped::new(7, Command::RestartProgram) else {
///     return Err(Fail::new("it has no text"));
/// };
/// let (mut sides, dispatcher) = queue(&rt, alloc, 1, 4)?;
/// drop(dispatcher);
/// assert_eq!(rt; sides[0].sent(), 0);
/// let Err(back) = sides[0].submit(&rt, stamped) else {
///     return Err(Fail::new("nobody takes it"));
/// };
/// assert_eq!(rt; back.stamped.time(), 7);
/// ```
#[derive(Drop)]
pub struct Returned {
    pub stamped: Stamped,
}

/// Sends a message. Tries [`LOOKS`] times, letting other threads run between two tries, and then sleeps until there is
/// room. Where the queue takes no further message, returns the message; what `pass` records is unchanged.
fn put<R: Wait>(
    rt: &R,
    end: &RuledSender<Message, View, Law>,
    pass: &mut Pass<Message, View>,
    mut message: Message,
) -> Result<(), Message>
    requires channel { IsSeatAt (sends_on end.now) pass.old }
    requires sends { (n : ℕ) → Pushes Ruled n pass.old.id (view pass.old) message (Put (view pass.old) message) }
    ensures channel { IsSeatAt (sends_on end.now) pass.new × (pass.new.id ≡ pass.old.id) }
    ensures rule { MatchResult result (λ _. Put (view pass.old) message (view pass.new)) (λ back. (back ≡ message) × (view pass.new ≡ view pass.old)) }
{
    for _ in 0..LOOKS {
        match end.try_send_as::<Sends, R>(rt, pass, message) {
            Ok(()) => return Ok(()),
            Err(TrySendError::Full(back)) => message = back,
            Err(refused) => return Err(refused.into_inner()),
        }
        thread::yield_now();
    }
    match end.send_as::<Sends, R>(rt, pass, message) {
        Ok(()) => Ok(()),
        Err(refused) => Err(refused.into_inner()),
    }
}

impl SenderSide {
    /// The number of the sender, from 0: its index in the list that `queue` returns.
    pub fn sender(&self) -> u16
        ensures { result ≡ self.now.sender }
    {
        self.sender
    }

    /// The number of commands that this sender has sent, which is also the place of the last one.
    pub fn sent(&self) -> u64
        ensures count { result ≡ length self.now.list }
        ensures places { IsInOrder self.now.sender self.now.list }
        ensures unmarked { has_mark self.now.list ≡ false }
    {
        self.count
    }

    /// Sends a command as this sender's next entry, and returns its place: `sent()` plus 1 (profile). Waits while the
    /// queue is full. Where the queue takes no further message, the command is returned, and nothing has changed.
    /// Requires that fewer than 2^64 - 1 commands were [`sent`](SenderSide::sent), and that the command comes next in
    /// the plan of the queue, where the plan knows this sender's commands. Takes no memory.
    pub fn submit<R: Wait>(&mut self, rt: &R, stamped: Stamped) -> Result<u64, Returned>
        requires room { length self.old.list < 2 ^ 64 - 1 }
        requires planned { ComeFirst (planned_of self.old.queue.plan self.old.sender) (commands_in self.old.list ++ stamped ∷ []) }
        ensures side { (self.new.queue ≡ self.old.queue) × (self.new.sender ≡ self.old.sender) }
        ensures place { IfOk result (λ place. place ≡ length self.old.list + 1) }
        ensures sent { IfOk result (λ place. self.new ≡ with_command self.old place stamped) }
        ensures refused { IfErr result (λ back. (back.stamped ≡ stamped) × (self.new ≡ self.old)) }
    {
        let place = self.count + 1;
        let message = Message::One(Entry {
            sender: self.sender,
            place,
            stamped,
        });
        match put(rt, &self.end, &mut self.pass, message) {
            Ok(()) => {
                self.count = place;
                Ok(place)
            }
            Err(refused) => match refused {
                Message::One(
                    Entry {
                        sender: _,
                        place: _,
                        stamped,
                    },
                ) => Err(Returned { stamped }),
                // The returned message is the one that was to be sent. The queue has one type of message, which costs
                // this arm.
                _ => unreachable!(),
            },
        }
    }

    /// Sends commands in one message as this sender's next entries, and returns the place of the first: `sent()` plus 1
    /// (profile). Requires 1 to [`MOST_TOGETHER`](crate::MOST_TOGETHER) commands, fewer than 2^64 with those
    /// [`sent`](SenderSide::sent) before, which come next in the plan of the queue, where the plan knows this sender's
    /// commands. Waits while the queue is full. Where the queue takes no further message, the
    /// commands are returned, and nothing has changed. Takes no memory.
    pub fn submit_many<R: Wait>(
        &mut self,
        rt: &R,
        commands: Vec<Stamped>,
    ) -> Result<u64, Vec<Stamped>>
        requires some { 0 < length commands.items }
        requires few { length commands.items ≤ MOST_TOGETHER }
        requires room { length self.old.list + length commands.items < 2 ^ 64 }
        requires planned { ComeFirst (planned_of self.old.queue.plan self.old.sender) (commands_in self.old.list ++ commands.items) }
        ensures side { (self.new.queue ≡ self.old.queue) × (self.new.sender ≡ self.old.sender) }
        ensures place { IfOk result (λ place. place ≡ length self.old.list + 1) }
        ensures sent { IfOk result (λ place. self.new ≡ with_commands self.old commands.items) }
        ensures refused { IfErr result (λ back. (back.items ≡ commands.items) × (self.new ≡ self.old)) }
    {
        let place = self.count + 1;
        let after = self.count + commands.len() as u64;
        let message = Message::Many(Batch::new(self.sender, self.count, commands));
        match put(rt, &self.end, &mut self.pass, message) {
            Ok(()) => {
                self.count = after;
                Ok(place)
            }
            Err(refused) => match refused {
                Message::Many(batch) => Err(batch.into_commands()),
                // The returned message is the one that was to be sent. The queue has one type of message, which costs
                // this arm.
                _ => unreachable!(),
            },
        }
    }

    /// Sends the close mark, which has the number of this sender's commands, and returns the closed sender (profile).
    /// Waits while the queue is full. Where the queue takes no further message, returns the unchanged side. Takes no
    /// memory.
    pub fn close<R: Wait>(mut self, rt: &R) -> Result<ClosedSender, SenderSide>
        ensures closed { IfOk result (λ end. end ≡ with_mark self) }
        ensures refused { IfErr result (λ side. side ≡ self) }
    {
        let message = Message::Mark {
            sender: self.sender,
            count: self.count,
        };
        match put(rt, &self.end, &mut self.pass, message) {
            Ok(()) => {}
            Err(_) => return Err(self),
        }
        let SenderSide {
            end,
            pass,
            sender,
            count,
        } = self;
        Ok(ClosedSender {
            end,
            pass,
            sender,
            count,
            marked: true,
        })
    }

    /// Ends the sender without a close mark, and returns the closed sender; nothing is sent (profile). Takes no memory.
    pub fn leave(self) -> ClosedSender
        ensures { result ≡ without_mark self }
    {
        let SenderSide {
            end,
            pass,
            sender,
            count,
        } = self;
        ClosedSender {
            end,
            pass,
            sender,
            count,
            marked: false,
        }
    }
}

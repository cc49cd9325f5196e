//! What remains of a sender that closed by its mark or left without one. It sends nothing more, knows the number of its
//! commands, and is passed to `settle`.
ghost use Rattle.std.specs.Prelude.{◌≡◌, length};
ghost use Rattle.cmd_queue.specs.Lists.{has_mark, entries, IsInOrder};
ghost use Rattle.cmd_queue.specs.Sides.{IsSettled};

use crate::dispatcher::DispatcherSide;
use crate::message::Message;
use crate::rule::{Keeps, Law, Settles, View};
use crossbeam_channel::{Pass, RuledSender};
use std::marker::Model;

/// What remains of a sender that closed by its mark, or left without one. Contracts see its queue, its number, the list
/// of the commands and the mark that it has sent, and whether it closed.
///
/// ```
/// let (sides, _) = queue(&rt, alloc, 1, 4)?;
/// for side in sides {
///     let end = side.leave();
///     assert!(rt; !end.marked());
///     assert_eq!(rt; (end.sender(), end.count()), (0, 0));
/// }
/// ```
pub struct ClosedSender {
    pub(crate) end: RuledSender<Message, View, Law>,
    pub(crate) pass: Pass<Message, View>,
    pub(crate) sender: u16,
    pub(crate) count: u64,
    pub(crate) marked: bool,
}

impl Model for ClosedSender {
    ghost use Rattle.cmd_queue.specs.Sides.{Ended};
    ghost use Rattle.cmd_queue.specs.Ends.{ended_by, IsClosedSender};

    ghost Value = { Ended };

    ghost view = { λ s. ended_by s.pass s.marked };

    ghost invariant = { λ s. IsClosedSender s.end s.pass s.sender s.count s.marked };
}

// Written by hand, so that each exit of a caller drops the value by one call, not field by field.
impl Drop for ClosedSender {
    fn drop(self) {
        let ClosedSender {
            end: _,
            pass: _,
            sender: _,
            count: _,
            marked: _,
        } = self;
    }
}

impl ClosedSender {
    /// The number of the sender, from 0.
    pub fn sender(&self) -> u16
        ensures { result ≡ self.now.sender }
    {
        self.sender
    }

    /// The number of commands that the sender has sent.
    pub fn count(&self) -> u64
        ensures count { result ≡ length (entries self.now.list) }
        ensures places { IsInOrder self.now.sender self.now.list }
    {
        self.count
    }

    /// Whether the sender has sent its close mark.
    pub fn marked(&self) -> bool
        ensures marked { result ≡ self.now.marked }
        ensures mark { has_mark self.now.list ≡ self.now.marked }
    {
        self.marked
    }

    /// Passes the closed sender to the dispatcher. The contract says that what was taken from this sender is a prefix
    /// of what it has sent. The dispatcher's queue, number of senders and list are unchanged. Requires the dispatcher
    /// of the same queue.
    pub(crate) fn hand_in(self, dispatcher: &mut DispatcherSide)
        requires { self.queue ≡ dispatcher.old.queue }
        ensures same { dispatcher.new ≡ dispatcher.old }
        ensures settled { IsSettled dispatcher.old self }
    {
        let ClosedSender {
            end,
            pass,
            sender: _,
            count: _,
            marked: _,
        } = self;
        end.absorb::<Keeps>(&mut dispatcher.pass, pass);
        end.learn_as::<Settles>(&mut dispatcher.pass);
    }
}

//! The rule of the queue, and the fact that each kind of step shows. These types are for the proofs alone: no value of
//! them is made.

use crate::message::Message;
use crate::plan::Planning;
use cmd_types::Stamped;
use crossbeam_channel::protocol::{Join, Lesson, Outcome, Protocol, Split};
use std::collections::LinkedList;
use std::marker::PhantomData;

/// All messages that a sender sent, which the dispatcher's pass keeps once the closed sender was passed to it.
pub struct SenderMessages {
    pub sender: u64,
    pub list: LinkedList<Message>,
}

/// What a pass of the channel records for its holder, beside the plan of the queue. A sender's pass records its number
/// and what it has sent. The dispatcher's pass records how many senders were made, what was taken, and the lists that it
/// keeps. A closed sender's pass, once passed to the dispatcher, records nothing.
pub struct View {
    pub plan: LinkedList<Option<LinkedList<Stamped>>>,
    pub sends: bool,
    pub from: u64,
    pub put: LinkedList<Message>,
    pub takes: bool,
    pub made: u64,
    pub taken: LinkedList<Message>,
    pub kept: LinkedList<SenderMessages>,
}

/// The rule, by which each step of the channel is checked.
pub struct Law;

impl Protocol<Message, View> for Law {
    ghost use Rattle.cmd_queue.specs.Views.{newcomer};
    ghost use Rattle.cmd_queue.specs.Rule.{Ruled};

    ghost holds = { Ruled };

    ghost first = { newcomer };
}

/// The step that puts the plan into the dispatcher's pass, before there are senders.
pub struct Plans<J: Planning> {
    planning: PhantomData<J>,
}

impl<J: Planning> Split<View> for Plans<J> {
    ghost use Rattle.cmd_queue.specs.Views.{with_plan, spent};

    ghost left = { with_plan J.plan };

    ghost right = { λ _. spent };
}

/// The step that makes the pass of the next sender, which has sent nothing, from the dispatcher's pass.
pub struct Seats;

impl Split<View> for Seats {
    ghost use Rattle.std.specs.Prelude.{[]};
    ghost use Rattle.cmd_queue.specs.Views.{one_more, sender_view};

    ghost left = { one_more };

    ghost right = { λ v. sender_view v.plan v.made [] };
}

/// The step by which the dispatcher's pass keeps the list of a closed sender.
pub struct Keeps;

impl Join<View> for Keeps {
    ghost use Rattle.cmd_queue.specs.Views.{keeping, spent};

    ghost both = { keeping };

    ghost spent = { spent };
}

/// The step of a send, which adds the message to the sender's list.
pub struct Sends;

impl Outcome<Message, View> for Sends {
    ghost use Rattle.cmd_queue.specs.Views.{Put};

    ghost then = { Put };
}

impl Lesson<Message, View> for Sends {
    ghost fact = { λ v items. Unit {0} };
}

/// The step of a receive, which adds the message to the dispatcher's list.
pub struct Takes;

impl Outcome<Message, View> for Takes {
    ghost use Rattle.cmd_queue.specs.Views.{Took};

    ghost then = { Took };
}

impl Lesson<Message, View> for Takes {
    ghost fact = { λ v items. Unit {0} };
}

/// The fact that each list that is kept begins with what was taken from its sender.
pub struct Settles;

impl Lesson<Message, View> for Settles {
    ghost use Rattle.cmd_queue.specs.Views.{AreSettled};

    ghost fact = { λ v items. AreSettled v.made v.taken v.kept };
}

//! The end of a queue: `settle` compares the list of taken commands with the lists that the senders sent, and `Settled`
//! keeps the list. The comparison is a clause of the contract; no list is walked when the program runs.
ghost use Rattle.std.specs.Prelude.{◌≡◌, ◌<◌, length};
ghost use Rattle.std.specs.List.{All};
ghost use Rattle.cmd_queue.specs.Lists.{of_sender, entries};
ghost use Rattle.cmd_queue.specs.Sides.{Ended, IsSettled};

use crate::closed_sender::ClosedSender;
use crate::dispatcher::DispatcherSide;
use crate::message::Message;
use crate::rule::View;
use crate::tally::Tally;
use crossbeam_channel::Pass;
use std::marker::Model;

/// A queue from which nothing more is taken. Contracts see the queue, the number of senders, and the list of all
/// commands and close marks that were taken.
///
/// See the example of [`settle`].
pub struct Settled {
    pub(crate) pass: Pass<Message, View>,
    pub(crate) tallies: Vec<Tally>,
    pub(crate) given_up: usize,
}

impl Model for Settled {
    ghost use Rattle.cmd_queue.specs.Sides.{Settlement};
    ghost use Rattle.cmd_queue.specs.Ends.{settled_by, IsTallied};

    ghost Value = { Settlement };

    ghost view = { λ d. settled_by d.pass d.given_up };

    ghost invariant = { λ d. IsTallied d.pass d.tallies.items d.given_up };
}

// Written by hand, so that each exit of a caller drops the value by one call, not field by field.
impl Drop for Settled {
    fn drop(self) {
        let Settled {
            pass: _,
            tallies: _,
            given_up: _,
        } = self;
    }
}

impl Settled {
    /// The number of commands taken from `sender`, numbered from 0. Requires that `sender` is below the number of
    /// senders of the queue.
    pub fn count(&self, sender: u16) -> u64
        requires { sender < self.now.senders }
        ensures { result ≡ length (entries (of_sender sender self.now.list)) }
    {
        self.tallies[usize::from(sender)].count
    }
}

/// Ends the taking and returns the settled queue, with the same list of taken commands and marks (profile). For each of
/// `ends`, in any order, what was taken from the sender is a prefix of what it sent, and all of it if its close mark
/// was taken. Requires that `ends` are of the dispatcher's queue. Commands of the last message that no call has
/// returned are dropped. Takes no memory.
///
/// ```
/// let (_, dispatcher) = queue(&rt, alloc, 1, 4)?;
/// assert_eq!(rt; settle(dispatcher, Vec::new(alloc)).count(0), 0);
/// ```
pub fn settle(mut dispatcher: DispatcherSide, ends: Vec<ClosedSender>) -> Settled
    requires { All (λ (end : Ended). end.queue ≡ dispatcher.queue) ends.items }
    ensures queue { result.queue ≡ dispatcher.queue }
    ensures senders { result.senders ≡ dispatcher.senders }
    ensures list { result.list ≡ dispatcher.list }
    ensures each { All (λ (end : Ended). IsSettled dispatcher end) ends.items }
{
    for ended in ends {
        ended.hand_in(&mut dispatcher);
    }
    dispatcher.into_settled()
}

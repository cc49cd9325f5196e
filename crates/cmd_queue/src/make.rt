//! Makes a queue, with a side for each sender and a side for the dispatcher, and names the limits of a queue. Where a
//! queue cannot be made, nothing remains of it.
ghost use Rattle.std.specs.Prelude.{◌≡◌, ◌<◌, ◌↔◌, ℕ, [], length, slice_index_or, IsTrue, IfOk, OnOk, IfErr};
ghost use Rattle.crossbeam_channel.specs.Claims.{view, IsSeatAt};
ghost use Rattle.crossbeam_channel.specs.Ends.{sends_on};
ghost use Rattle.cmd_types.specs.Entries.{IsSenderCount};
ghost use Rattle.cmd_queue.specs.Queue.{IsCapacity, IsNewQueue, IsRefused};
ghost use Rattle.cmd_queue.specs.Sides.{Sent, new_side};
ghost use Rattle.cmd_queue.specs.Ends.{queue_of};
ghost use Rattle.cmd_queue.specs.Views.{taker_view};

use crate::dispatcher::DispatcherSide;
use crate::fault::QueueFault;
use crate::message::Message;
use crate::plan::Planning;
use crate::row::TakenRow;
use crate::rule::{Law, Plans, Seats, View};
use crate::sender::SenderSide;
use crate::tally::Tally;
use cmd_types::{Memory, is_sender_count};
use crossbeam_channel::{Pass, RuledSender, bounded_with};
use std::alloc::Global;
use std::marker::Brand;

/// The greatest capacity of a queue: a choice, which bounds the commands that wait in memory. These are at most
/// [`MOST_TOGETHER`] times the capacity (profile).
pub const MOST_CAPACITY: usize = 1_024;

/// The most commands of one message: a choice, so that many commands share the cost of one step of the queue, and few
/// wait unsent at a sender (profile).
pub const MOST_TOGETHER: usize = 32;

/// How often a side that has to wait tries the queue before it sleeps: a choice. To wake a thread takes a system call,
/// which costs more time than a command.
pub(crate) const LOOKS: u32 = 2_000;

/// Whether a queue may have room for `capacity` messages: 1 to [`MOST_CAPACITY`] (profile).
///
/// ```
/// assert!(rt; is_capacity(1) && is_capacity(MOST_CAPACITY));
/// assert!(rt; !is_capacity(0) && !is_capacity(MOST_CAPACITY + 1));
/// ```
pub fn is_capacity(capacity: usize) -> bool
    ensures { IsTrue result ↔ IsCapacity capacity }
{
    0 < capacity && capacity <= MOST_CAPACITY
}

/// Makes a queue (profile): returns a side for each sender, in the order of their numbers from 0, and the side of the
/// dispatcher. `senders` is 1 to [`MOST_SENDERS`](cmd_types::MOST_SENDERS), and `capacity`, the number of messages that
/// may wait, 1 to [`MOST_CAPACITY`]. A message is 1 to [`MOST_TOGETHER`] commands of one sender, or its close mark. The
/// error is the first fault that holds, in the order of [`QueueFault`].
///
/// ```
/// let Ok(stamped) = Stamped::new(7, Command::RestartProgram) else {
///     return Err(Fail::new("it has no text"));
/// };
/// let (mut sides, mut dispatcher) = queue(&rt, alloc, 1, 4)?;
/// assert_eq!(rt; sides[0].sent(), 0);
/// assert!(rt; sides[0].submit(&rt, stamped).is_ok());
/// let Ok(Taken::Command(entry)) = dispatcher.take(&rt) else {
///     return Err(Fail::new("the command is taken"));
/// };
/// assert_eq!(rt; (entry.sender, entry.place), (0, 1));
/// ```
pub fn queue<R>(
    rt: &R,
    alloc: Global,
    senders: u16,
    capacity: usize,
) -> Result<(Vec<SenderSide>, DispatcherSide), QueueFault>
    ensures limits { OnOk result (IsCapacity capacity × IsSenderCount senders) }
    ensures made { IfOk result (λ q. IsNewQueue senders q.0.items q.1) }
    ensures free { IfOk result (λ q. q.1.queue.plan ≡ []) }
    ensures refused { IfErr result (λ fault. IsRefused capacity senders fault) }
{
    planned_queue::<Brand, R>(rt, alloc, senders, capacity)
}

/// Makes a queue as [`queue`] does, with a plan that the caller chooses: a sender of which the plan knows all commands
/// may send only these, in order. So the dispatcher knows of each command that it takes that the plan has it at this
/// place (profile).
///
/// ```
/// let (sides, dispatcher) = planned_queue::<Brand, _>(&rt, alloc, 2, 4)?;
/// assert_eq!(rt; sides.len(), 2);
/// assert!(rt; !dispatcher.closed(1));
/// ```
pub fn planned_queue<J: Planning, R>(
    _rt: &R,
    alloc: Global,
    senders: u16,
    capacity: usize,
) -> Result<(Vec<SenderSide>, DispatcherSide), QueueFault>
    ensures limits { OnOk result (IsCapacity capacity × IsSenderCount senders) }
    ensures made { IfOk result (λ q. IsNewQueue senders q.0.items q.1) }
    ensures planned { IfOk result (λ q. q.1.queue.plan ≡ J.plan) }
    ensures refused { IfErr result (λ fault. IsRefused capacity senders fault) }
{
    if !is_capacity(capacity) {
        return Err(QueueFault::BadCapacity);
    }
    if !is_sender_count(usize::from(senders)) {
        return Err(QueueFault::BadSenders);
    }
    make_queue::<J>(alloc, senders, capacity).map_err(|_| QueueFault::Memory)
}

/// Makes the queue of the plan with a side for each of `senders` senders. If memory runs out, all that was made is
/// dropped.
fn make_queue<J: Planning>(
    alloc: Global,
    senders: u16,
    capacity: usize,
) -> Result<(Vec<SenderSide>, DispatcherSide), Memory>
    requires { 0 < capacity }
    ensures made { IfOk result (λ q. IsNewQueue senders q.0.items q.1) }
    ensures planned { IfOk result (λ q. q.1.queue.plan ≡ J.plan) }
{
    let none = Tally {
        count: 0,
        closed: false,
    };
    let tallies = Vec::from_elem(alloc, none, usize::from(senders))?;
    let (first, end, mut pass) = bounded_with::<Message, View, Law, Global>(alloc, capacity)?;
    // The plan is put into the view of `pass`. The second pass, of no sender, is dropped at once.
    first.another::<Plans<J>>(&mut pass);
    let sides = sides_of(alloc, &first, &mut pass, senders)?;
    let rest = TakenRow::nothing(alloc);
    let dispatcher = DispatcherSide {
        end,
        pass,
        tallies,
        rest,
    };
    Ok((sides, dispatcher))
}

/// Makes a side for each sender, in the order of their numbers, and counts it in the dispatcher's `pass`. If memory
/// runs out, the sides already made are dropped, and `pass` may have counted them.
fn sides_of(
    alloc: Global,
    first: &RuledSender<Message, View, Law>,
    pass: &mut Pass<Message, View>,
    senders: u16,
) -> Result<Vec<SenderSide>, Memory>
    requires seat { IsSeatAt (sends_on first.now) pass.old }
    requires new { view pass.old ≡ taker_view (view pass.old).plan 0 [] [] }
    ensures seat { OnOk result (IsSeatAt (sends_on first.now) pass.new) }
    ensures made { OnOk result (view pass.new ≡ taker_view (view pass.old).plan senders [] []) }
    ensures one_each { IfOk result (λ sides. length sides.items ≡ senders) }
    ensures numbered { IfOk result (λ sides. (k : ℕ) (d : Sent) → k < senders → slice_index_or sides.items k d ≡ new_side (queue_of pass.new) k) }
{
    let mut sides = Vec::with_capacity(alloc, usize::from(senders))?;
    for sender in 0..senders {
        let end = first.try_clone()?;
        let pass = first.another::<Seats>(pass);
        sides.push(SenderSide {
            end,
            pass,
            sender,
            count: 0,
        })?;
    }
    Ok(sides)
}

//! A queue that several threads use: order, closing, a full queue, and the law of what was settled.
mod examples;
mod messages;

ghost use Rattle.std.specs.Prelude.{◌≡◌, ◌<◌, ◌≤◌, [], IfOk, vec_capacity};
ghost use Rattle.cmd_queue.specs.Queue.{IsNewQueue};

use cmd_queue::{
    ClosedSender, DispatcherSide, Lost, MOST_TOGETHER, Planning, QueueFault, SenderSide, Taken,
    planned_queue, queue, settle,
};
use cmd_types::{Command, Stamped};
use std::alloc::Global;
use std::marker::Send;
use std::ops::Range;
use std::process::Abort;
use std::snapshot::Snapshot;
use std::sync::Wait;
use std::test::Fail;
use std::thread;
use std::thread::{Promise, PromisedHandle, Threads};

/// A queue, made again where an allocation is refused.
fn made<R>(
    rt: &R,
    alloc: Global,
    senders: u16,
    capacity: usize,
) -> Result<(Vec<SenderSide>, DispatcherSide), Fail>
    ensures made { IfOk result (λ q. IsNewQueue senders q.0.items q.1) }
    ensures free { IfOk result (λ q. q.1.queue.plan ≡ []) }
{
    match queue(rt, alloc, senders, capacity) {
        Ok(first) => Ok(first),
        Err(QueueFault::Memory) => Ok(queue(rt, alloc, senders, capacity)?),
        Err(fault) => Err(Fail::from(fault)),
    }
}

/// A queue of two senders and capacity 1.
fn two<R>(rt: &R, alloc: Global) -> Result<(SenderSide, SenderSide, DispatcherSide), Fail>
    ensures two { IfOk result (λ q. (q.0.queue ≡ q.2.queue) × (q.1.queue ≡ q.2.queue) × (q.2.senders ≡ 2)) }
    ensures free { IfOk result (λ q. q.2.queue.plan ≡ []) }
{
    let (mut sides, dispatcher) = made(rt, alloc, 2, 1)?;
    match (sides.pop(), sides.pop()) {
        (Some(one), Some(zero)) => Ok((zero, one, dispatcher)),
        _ => Err(Fail::new("two sides")),
    }
}

/// Room for two ends, requested again where it is refused.
fn room(alloc: Global) -> Result<Vec<ClosedSender>, Fail>
    ensures { IfOk result (λ ends. (ends.items ≡ []) × (2 ≤ vec_capacity ends)) }
{
    match Vec::with_capacity(alloc, 2) {
        Ok(first) => Ok(first),
        Err(_) => Ok(Vec::with_capacity(alloc, 2)?),
    }
}

/// A command that is recognized by its time.
fn command(time: u64) -> Option<Stamped> {
    match Stamped::new(time, Command::RestartProgram) {
        Ok(stamped) => Some(stamped),
        Err(_) => None,
    }
}

/// Sends a command of `time`. Returns its place, or the time of the command that comes back.
fn send<R: Wait>(rt: &R, side: &mut SenderSide, time: u64) -> Option<Result<u64, u64>>
    requires { side.old.queue.plan ≡ [] }
    ensures { side.new.queue ≡ side.old.queue }
{
    let stamped = command(time)?;
    if side.sent() == u64::MAX {
        return None;
    }
    match side.submit(rt, stamped) {
        Ok(place) => Some(Ok(place)),
        Err(back) => Some(Err(back.stamped.time())),
    }
}

/// Commands at these times, with their memory requested again where it is refused.
fn together(alloc: Global, times: Range<u64>) -> Result<Vec<Stamped>, Fail> {
    let mut commands = match Vec::with_capacity(alloc, MOST_TOGETHER) {
        Ok(first) => first,
        Err(_) => Vec::with_capacity(alloc, MOST_TOGETHER)?,
    };
    for time in times {
        commands.push(command(time).ok_or("no such time")?)?;
    }
    Ok(commands)
}

/// Sends commands in one message. Returns the place of the first, or the commands that come back, also where they are
/// too many or too few for a message.
fn send_many<R: Wait>(
    rt: &R,
    side: &mut SenderSide,
    commands: Vec<Stamped>,
) -> Result<u64, Vec<Stamped>>
    requires { side.old.queue.plan ≡ [] }
    ensures { side.new.queue ≡ side.old.queue }
{
    let count = commands.len();
    if count == 0 || count > MOST_TOGETHER || side.sent() > 1_000 {
        return Err(commands);
    }
    side.submit_many(rt, commands)
}

/// Closes a side, or leaves without a mark where the queue takes no more messages.
fn close<R: Wait>(rt: &R, side: SenderSide) -> ClosedSender
    ensures { result.queue ≡ side.queue }
{
    match side.close(rt) {
        Ok(end) => end,
        Err(side) => side.leave(),
    }
}

/// The sender of an end, the number of its sent commands, and whether its mark was sent.
fn end_of(end: &ClosedSender) -> (u16, u64, bool) {
    (end.sender(), end.count(), end.marked())
}

/// The next message: its sender; the place of a command, or the count of a close mark; and the time of a command.
type Next = (u16, u64, Option<u64>);

/// Takes the next message.
fn take<R: Wait>(rt: &R, dispatcher: &mut DispatcherSide) -> Option<Next>
    ensures { (dispatcher.new.queue ≡ dispatcher.old.queue) × (dispatcher.new.senders ≡ dispatcher.old.senders) }
{
    match dispatcher.take(rt) {
        Ok(Taken::Command(entry)) => {
            Some((entry.sender, entry.place, Some(entry.stamped.time())))
        }
        Ok(Taken::Closed { sender, count }) => Some((sender, count, None)),
        Err(Lost) => None,
    }
}

/// Settles one end. Returns the number of commands of the first sender that were taken.
fn settled_one(mut ends: Vec<ClosedSender>, dispatcher: DispatcherSide, end: ClosedSender) -> u64
    requires room { (ends.items ≡ []) × (2 ≤ vec_capacity ends) }
    requires queue { (end.queue ≡ dispatcher.queue) × (0 < dispatcher.senders) }
{
    ends.push_reserved(end);
    settle(dispatcher, ends).count(0)
}

/// Settles two ends, the later sender's first. Returns the number of commands of each that were taken.
fn settled(
    mut ends: Vec<ClosedSender>,
    dispatcher: DispatcherSide,
    zero: ClosedSender,
    one: ClosedSender,
) -> (u64, u64)
    requires room { (ends.items ≡ []) × (2 ≤ vec_capacity ends) }
    requires queue { (zero.queue ≡ dispatcher.queue) × (one.queue ≡ dispatcher.queue) × (dispatcher.senders ≡ 2) }
{
    ends.push_reserved(one);
    ends.push_reserved(zero);
    let settled = settle(dispatcher, ends);
    (settled.count(0), settled.count(1))
}

/// Closes a side and takes its mark, and asserts that both have this sender and this number of commands.
fn closed<R: Wait + Abort>(
    rt: &R,
    side: SenderSide,
    dispatcher: &mut DispatcherSide,
    sender: u16,
    count: u64,
) -> ClosedSender
    ensures { (result.queue ≡ side.queue) × (dispatcher.new.queue ≡ dispatcher.old.queue) × (dispatcher.new.senders ≡ dispatcher.old.senders) }
{
    let end = close(rt, side);
    assert_eq!(rt; end_of(&end), (sender, count, true));
    assert_eq!(rt; take(rt, dispatcher), Some((sender, count, None)));
    end
}

#[test]
fn what_is_sent_is_taken_one_by_one(rt: HostRuntime) -> Result<(), Fail> {
    let ends = room(rt.alloc())?;
    let (mut zero, one, mut dispatcher) = two(&rt, rt.alloc())?;
    assert_eq!(rt; (zero.sender(), one.sender(), zero.sent()), (0, 1, 0));
    assert_eq!(rt; (send(&rt, &mut zero, 7), zero.sent()), (Some(Ok(1)), 1));
    assert_eq!(rt; take(&rt, &mut dispatcher), Some((0, 1, Some(7))));
    let zero = closed(&rt, zero, &mut dispatcher, 0, 1);
    assert!(rt; dispatcher.closed(0) && !dispatcher.closed(1) && !dispatcher.all_closed());
    let one = closed(&rt, one, &mut dispatcher, 1, 0);
    assert!(rt; dispatcher.all_closed());
    assert_eq!(rt; settled(ends, dispatcher, zero, one), (1, 0));
    Ok(())
}

/// The number of the fault of a queue that cannot be made.
fn fault_of<R>(rt: &R, alloc: Global, senders: u16, capacity: usize) -> Option<u8> {
    match queue(rt, alloc, senders, capacity) {
        Ok(_) => None,
        Err(fault) => Some(fault.number()),
    }
}

/// The number of sides of a queue.
fn side_count<R>(rt: &R, alloc: Global, senders: u16, capacity: usize) -> Result<usize, Fail> {
    let (sides, _) = made(rt, alloc, senders, capacity)?;
    Ok(sides.len())
}

/// A number of senders, a capacity, and the number of the fault.
const REFUSED: &[(u16, usize, u8)] = &[
    (2, 0, 1),
    (2, 1_025, 1),
    (0, 0, 1),
    (0, 1_025, 1),
    (0, 1, 2),
    (65, 1, 2),
];

#[test]
fn the_first_fault_is_told(rt: HostRuntime) -> Result<(), Fail> {
    let alloc = rt.alloc();
    for (senders, capacity, number) in REFUSED {
        let fault = fault_of(&rt, alloc, *senders, *capacity);
        assert_eq!(rt; fault, Some(*number), "{senders}, {capacity}");
    }
    assert_eq!(rt; QueueFault::Memory.number(), 3);
    assert_eq!(rt; side_count(&rt, alloc, 64, 1_024)?, 64);
    Ok(())
}

/// A sender sends a command and leaves: the command is taken, and no mark.
fn leaves<R: Wait + Abort>(
    rt: &R,
    ends: Vec<ClosedSender>,
    mut side: SenderSide,
    mut dispatcher: DispatcherSide,
)
    requires room { (ends.items ≡ []) × (2 ≤ vec_capacity ends) }
    requires queue { (side.queue ≡ dispatcher.queue) × (dispatcher.senders ≡ 2) }
    requires free { dispatcher.queue.plan ≡ [] }
{
    assert_eq!(rt; (side.sent(), send(rt, &mut side, 5)), (0, Some(Ok(1))));
    let left = side.leave();
    assert_eq!(rt; end_of(&left), (0, 1, false));
    assert_eq!(rt; take(rt, &mut dispatcher), Some((0, 1, Some(5))));
    assert!(rt; !dispatcher.closed(0));
    assert_eq!(rt; settled_one(ends, dispatcher, left), 1);
}

#[test]
fn a_sender_may_leave_and_a_side_outlives_the_dispatcher(rt: HostRuntime) -> Result<(), Fail> {
    let ends = room(rt.alloc())?;
    let (zero, mut one, dispatcher) = two(&rt, rt.alloc())?;
    leaves(&rt, ends, zero, dispatcher);
    assert_eq!(rt;
        (one.sent(), send(&rt, &mut one, 6), one.sent()),
        (0, Some(Err(6)), 0)
    );
    assert_eq!(rt; end_of(&close(&rt, one)), (1, 0, false));
    Ok(())
}

#[test]
fn without_senders_nothing_comes(rt: HostRuntime) -> Result<(), Fail> {
    let (sides, mut dispatcher) = made(&rt, rt.alloc(), 2, 1)?;
    drop(sides);
    assert!(rt; take(&rt, &mut dispatcher).is_none());
    Ok(())
}

/// The promise that the end is of the same queue as the side.
#[derive(Drop)]
struct SameQueue(Snapshot<SenderSide>);

impl Promise<ClosedSender> for SameQueue {
    ghost kept_by = { λ p end. end.queue ≡ p.0.value.queue };
}

/// Sends commands at the times 1 to 100 while the queue takes them, and closes.
fn send_a_hundred<R: Wait>(rt: &R, mut side: SenderSide) -> ClosedSender
    requires { side.queue.plan ≡ [] }
    ensures { result.queue ≡ side.queue }
{
    for time in 1..101u64 {
        let _ = send(rt, &mut side, time);
    }
    close(rt, side)
}

/// Starts a thread that sends, and tries again where the thread is refused.
fn start<R: Threads + Wait + Copy + Send + 'static>(
    rt: R,
    side: SenderSide,
) -> Result<PromisedHandle<ClosedSender, SameQueue>, Fail>
    requires { side.queue.plan ≡ [] }
    ensures { IfOk result (λ handle. handle.promise.0.value ≡ side) }
{
    let promise = SameQueue(Snapshot::of(&side));
    let again = SameQueue(Snapshot::of(&side));
    match thread::spawn_with(&rt, promise, move || send_a_hundred(&rt, side)) {
        Ok(handle) => Ok(handle),
        Err(refused) => Ok(thread::spawn_with(&rt, again, refused.value)?),
    }
}

/// Whether `next` comes after the places in `last`: the next place of its sender with a command of that time, or the
/// mark of a hundred.
fn comes_next(last: &mut [u64; 2], next: Next) -> bool {
    let (sender, place, time) = next;
    let Some(last) = last.get_mut(usize::from(sender)) else {
        return false;
    };
    let before = *last;
    *last = place;
    match time {
        Some(time) => (place.checked_sub(before), time) == (Some(1), place),
        None => (before, place) == (100, 100),
    }
}

/// Takes until all senders have closed, and asserts that the command at each place has that time.
fn take_all<R: Wait + Abort>(rt: &R, dispatcher: &mut DispatcherSide) -> Result<(), Lost>
    requires { dispatcher.old.senders ≡ 2 }
    ensures { (dispatcher.new.queue ≡ dispatcher.old.queue) × (dispatcher.new.senders ≡ 2) }
{
    let mut last = [0; 2];
    for _ in rt.forever() {
        if dispatcher.all_closed() {
            break;
        }
        let next = take(rt, dispatcher).ok_or(Lost)?;
        assert!(rt; comes_next(&mut last, next), "{next:?}");
    }
    Ok(())
}

#[test]
fn two_threads_send_a_hundred_each(rt: HostRuntime) -> Result<(), Fail> {
    let ends = room(rt.alloc())?;
    let (zero, one, mut dispatcher) = two(&rt, rt.alloc())?;
    let first = start(rt, zero)?;
    let second = match start(rt, one) {
        Ok(second) => second,
        Err(refused) => {
            drop(dispatcher);
            first.join(&rt);
            return Err(refused);
        }
    };
    let taken = take_all(&rt, &mut dispatcher);
    let (zero, one) = (first.join(&rt), second.join(&rt));
    assert_eq!(rt; taken, Ok(()));
    assert_eq!(rt; settled(ends, dispatcher, zero, one), (100, 100));
    Ok(())
}

/// The plan of a queue whose one sender may send one command, a restart at time 7.
struct OneRestart;

impl Planning for OneRestart {
    ghost use Rattle.std.specs.Prelude.{Some, [], ◌∷◌};
    ghost use Rattle.cmd_types.specs.declared.command.Command.TheVariants.{RestartProgram};

    ghost plan = { Some (record { time = 7; command = RestartProgram } ∷ []) ∷ [] };
}

/// A queue of one sender and this plan, made again where an allocation is refused.
fn planned<J: Planning, R>(rt: &R, alloc: Global) -> Result<(Vec<SenderSide>, DispatcherSide), Fail>
    ensures made { IfOk result (λ q. IsNewQueue 1 q.0.items q.1) }
    ensures planned { IfOk result (λ q. q.1.queue.plan ≡ J.plan) }
{
    match planned_queue::<J, R>(rt, alloc, 1, 4) {
        Ok(first) => Ok(first),
        Err(QueueFault::Memory) => Ok(planned_queue::<J, R>(rt, alloc, 1, 4)?),
        Err(fault) => Err(Fail::from(fault)),
    }
}

#[test]
fn a_sender_of_a_plan_sends_what_it_has(rt: HostRuntime) -> Result<(), Fail> {
    let Ok(stamped) = Stamped::new(7, Command::RestartProgram) else {
        return Err(Fail::new("it has no text"));
    };
    let (mut sides, mut dispatcher) = planned::<OneRestart, _>(&rt, rt.alloc())?;
    assert_eq!(rt; sides[0].sent(), 0);
    assert!(rt; sides[0].submit(&rt, stamped).is_ok());
    assert_eq!(rt; take(&rt, &mut dispatcher), Some((0, 1, Some(7))));
    Ok(())
}

//! Messages of many commands: they are taken one by one, and given back where nobody takes them.
ghost use Rattle.std.specs.Prelude.{◌≡◌, [], IfOk};

use super::{
    close, command, end_of, made, room, send, send_many, settled_one, take, together, two,
};
use cmd_queue::{ClosedSender, DispatcherSide, SenderSide, queue};
use cmd_types::Stamped;
use std::alloc::Global;
use std::ops::Range;
use std::process::Abort;
use std::sync::Wait;
use std::test::Fail;

/// Sends thirty-two commands in one message, the first of a side.
fn send_first<R: Wait + Abort>(rt: &R, side: &mut SenderSide, commands: Vec<Stamped>)
    requires { side.old.queue.plan ≡ [] }
{
    assert_eq!(rt; (side.sent(), commands.len()), (0, 32));
    assert_eq!(rt; send_many(rt, side, commands).ok(), Some(1));
    assert_eq!(rt; side.sent(), 32);
}

/// Asserts that the first sender's commands at `places` are taken next, each with its place as its time.
fn check_taken<R: Wait + Abort>(rt: &R, dispatcher: &mut DispatcherSide, places: Range<u64>) {
    for place in places {
        assert_eq!(rt; take(rt, dispatcher), Some((0, place, Some(place))));
    }
}

#[test]
fn a_message_of_many_is_taken_one_by_one(rt: HostRuntime) -> Result<(), Fail> {
    let commands = together(rt.alloc(), 1..33)?;
    let (mut sides, mut dispatcher) = made(&rt, rt.alloc(), 2, 1)?;
    send_first(&rt, &mut sides[0], commands);
    check_taken(&rt, &mut dispatcher, 1..33);
    Ok(())
}

/// Sends a command, then three in one message.
fn send_four<R: Wait + Abort>(rt: &R, side: &mut SenderSide, three: Vec<Stamped>)
    requires { side.old.queue.plan ≡ [] }
    ensures { side.new.queue ≡ side.old.queue }
{
    assert_eq!(rt;
        (side.sent(), send(rt, side, 1), side.sent()),
        (0, Some(Ok(1)), 1)
    );
    assert_eq!(rt; three.len(), 3);
    assert_eq!(rt; send_many(rt, side, three).ok(), Some(2));
}

/// A queue of one sender and capacity 4 that holds a command, then three in one message, then the
/// close mark.
fn of_four_commands<R: Wait + Abort>(
    rt: &R,
    alloc: Global,
) -> Result<(ClosedSender, DispatcherSide), Fail>
    ensures { IfOk result (λ q. (q.0.queue ≡ q.1.queue) × (q.1.senders ≡ 1)) }
{
    let three = together(alloc, 2..5)?;
    let (mut sides, dispatcher) = made(rt, alloc, 1, 4)?;
    let mut zero = sides.pop().ok_or("side 0")?;
    send_four(rt, &mut zero, three);
    let end = close(rt, zero);
    assert_eq!(rt; end_of(&end), (0, 4, true));
    Ok((end, dispatcher))
}

#[test]
fn messages_of_one_and_of_many_are_taken_in_order(rt: HostRuntime) -> Result<(), Fail> {
    let (_end, mut dispatcher) = of_four_commands(&rt, rt.alloc())?;
    check_taken(&rt, &mut dispatcher, 1..5);
    assert_eq!(rt; take(&rt, &mut dispatcher), Some((0, 4, None)));
    assert!(rt; dispatcher.all_closed());
    Ok(())
}

#[test]
fn what_is_left_of_a_message_is_given_up(rt: HostRuntime) -> Result<(), Fail> {
    let ends = room(rt.alloc())?;
    let (zero, mut dispatcher) = of_four_commands(&rt, rt.alloc())?;
    assert_eq!(rt; take(&rt, &mut dispatcher), Some((0, 1, Some(1))));
    assert_eq!(rt; take(&rt, &mut dispatcher), Some((0, 2, Some(2))));
    assert_eq!(rt; settled_one(ends, dispatcher, zero), 2);
    Ok(())
}

/// Asserts that three commands, at the times 6 to 8, come back where a side sends them to nobody.
fn check_back<R: Wait + Abort>(rt: &R, side: &mut SenderSide, commands: Vec<Stamped>)
    requires { side.old.queue.plan ≡ [] }
{
    assert_eq!(rt; (side.sent(), commands.len()), (0, 3));
    match send_many(rt, side, commands) {
        Ok(_) => panic!(rt; "nobody takes them"),
        Err(back) => {
            assert!(rt;
                back.iter()
                    .map(|stamped| stamped.time())
                    .eq([6, 7, 8].into_iter())
            );
        }
    }
    assert_eq!(rt; side.sent(), 0);
}

#[test]
fn commands_that_nobody_takes_are_returned(rt: HostRuntime) -> Result<(), Fail> {
    let commands = together(rt.alloc(), 6..9)?;
    let (mut sides, dispatcher) = made(&rt, rt.alloc(), 2, 1)?;
    drop(dispatcher);
    check_back(&rt, &mut sides[0], commands);
    Ok(())
}

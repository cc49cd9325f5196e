//! The examples that the documentation of the public items of `cmd_queue` has, a test each, with the same lines.
use cmd_queue::{
    MOST_CAPACITY, QueueFault, Taken, TakenMessage, is_capacity, planned_queue, queue, settle,
};
use cmd_types::{Command, Stamped};
use std::marker::Brand;
use std::test::Fail;

#[test]
fn one_feed(rt: HostRuntime) -> Result<(), Fail> {
    let alloc = rt.alloc();
    let Ok(stamped) = Stamped::new(7, Command::RestartProgram) else {
        return Err(Fail::new("it has no text"));
    };
    let (mut sides, mut dispatcher) = queue(&rt, alloc, 1, 4)?;
    assert_eq!(rt; sides[0].sent(), 0);
    assert!(rt; sides[0].submit(&rt, stamped).is_ok());
    let Ok(Taken::Command(entry)) = dispatcher.take(&rt) else {
        return Err(Fail::new("the command is taken"));
    };
    assert_eq!(rt; (entry.sender, entry.place), (0, 1));
    Ok(())
}

#[test]
fn of_a_plan(rt: HostRuntime) -> Result<(), Fail> {
    let alloc = rt.alloc();
    let (sides, dispatcher) = planned_queue::<Brand, _>(&rt, alloc, 2, 4)?;
    assert_eq!(rt; sides.len(), 2);
    assert!(rt; !dispatcher.closed(1));
    Ok(())
}

#[test]
fn one_alone(rt: HostRuntime) -> Result<(), Fail> {
    let alloc = rt.alloc();
    let Ok(stamped) = Stamped::new(7, Command::RestartProgram) else {
        return Err(Fail::new("it has no text"));
    };
    let (mut sides, mut dispatcher) = queue(&rt, alloc, 1, 4)?;
    assert_eq!(rt; sides[0].sent(), 0);
    assert!(rt; sides[0].submit(&rt, stamped).is_ok());
    let Ok(TakenMessage::One(entry)) = dispatcher.take_many(&rt) else {
        return Err(Fail::new("it is taken alone"));
    };
    assert_eq!(rt; (entry.sender, entry.place), (0, 1));
    Ok(())
}

#[test]
fn a_row(rt: HostRuntime) -> Result<(), Fail> {
    let alloc = rt.alloc();
    let Ok(stamped) = Stamped::new(7, Command::RestartProgram) else {
        return Err(Fail::new("it has no text"));
    };
    let mut commands = Vec::with_capacity(alloc, 1)?;
    commands.push(stamped)?;
    let (mut sides, mut dispatcher) = queue(&rt, alloc, 1, 4)?;
    assert!(rt; sides[0].sent() == 0 && commands.len() == 1);
    assert!(rt; sides[0].submit_many(&rt, commands).is_ok());
    let Ok(TakenMessage::Row(mut row)) = dispatcher.take_many(&rt) else {
        return Err(Fail::new("the commands are taken"));
    };
    let Some(entry) = row.next() else {
        return Err(Fail::new("there is one"));
    };
    assert_eq!(rt; (entry.sender, entry.place), (0, 1));
    assert!(rt; row.next().is_none());
    Ok(())
}

#[test]
fn nobody_sends(rt: HostRuntime) -> Result<(), Fail> {
    let alloc = rt.alloc();
    let (sides, mut dispatcher) = queue(&rt, alloc, 1, 4)?;
    drop(sides);
    assert!(rt; dispatcher.take(&rt).is_err());
    Ok(())
}

#[test]
fn nobody_takes(rt: HostRuntime) -> Result<(), Fail> {
    let alloc = rt.alloc();
    let Ok(stamped) = Stamped::new(7, Command::RestartProgram) else {
        return Err(Fail::new("it has no text"));
    };
    let (mut sides, dispatcher) = queue(&rt, alloc, 1, 4)?;
    drop(dispatcher);
    assert_eq!(rt; sides[0].sent(), 0);
    let Err(back) = sides[0].submit(&rt, stamped) else {
        return Err(Fail::new("nobody takes it"));
    };
    assert_eq!(rt; back.stamped.time(), 7);
    Ok(())
}

#[test]
fn end(rt: HostRuntime) -> Result<(), Fail> {
    let alloc = rt.alloc();
    let (sides, _) = queue(&rt, alloc, 1, 4)?;
    for side in sides {
        let end = side.leave();
        assert!(rt; !end.marked());
        assert_eq!(rt; (end.sender(), end.count()), (0, 0));
    }
    Ok(())
}

#[test]
fn settled(rt: HostRuntime) -> Result<(), Fail> {
    let alloc = rt.alloc();
    let (_, dispatcher) = queue(&rt, alloc, 1, 4)?;
    assert_eq!(rt; settle(dispatcher, Vec::new(alloc)).count(0), 0);
    Ok(())
}

#[test]
fn no_queue(rt: HostRuntime) {
    let alloc = rt.alloc();
    let made = queue(&rt, alloc, 65, 4);
    assert!(rt; made.is_err_and(|fault| fault == QueueFault::BadSenders));
    assert_eq!(rt; QueueFault::BadSenders.number(), 2);
}

#[test]
fn capacities(rt: HostRuntime) -> Result<(), Fail> {
    assert!(rt; is_capacity(1) && is_capacity(MOST_CAPACITY));
    assert!(rt; !is_capacity(0) && !is_capacity(MOST_CAPACITY + 1));
    Ok(())
}

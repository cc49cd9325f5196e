//! Tests of what a monitor prints after it resumes under a new inventory.
use super::{NEW, OLD, carried, inventory, text, worked};
use cmd_types::{Command, Entry, Memory, Stamped};
use mon_engine::{EngineFault, Monitor, Outcome};
use std::alloc::{AllocError, Global};
use std::process::Abort;
use std::test::Fail;

/// The monitor of the new inventory that resumes from the worked parts.
fn worked_monitor(rt: &impl Abort, alloc: Global) -> Result<Monitor, Memory> {
    let mut parts = worked(alloc)?;
    parts.program.passive_service = true;
    let Ok(parts) = carried(rt, alloc, OLD, parts, NEW) else {
        return Err(AllocError);
    };
    let Ok(monitor) = Monitor::resume(alloc, inventory(rt, alloc, NEW)?, parts) else {
        return Err(AllocError);
    };
    Ok(monitor)
}

/// Applies a command at this second.
fn apply(
    rt: &impl Abort,
    alloc: Global,
    monitor: &mut Monitor,
    time: u64,
    command: Command,
) -> Result<(), Memory> {
    let Ok(stamped) = Stamped::new(time, command) else {
        return Err(AllocError);
    };
    let entry = Entry {
        sender: 0,
        place: 1,
        stamped,
    };
    assert!(rt; monitor.applied() < 2);
    match monitor.apply(alloc, &entry) {
        Ok(outcome) => {
            assert!(rt; outcome == Outcome::Applied);
            Ok(())
        }
        Err(fault) => {
            assert!(rt; fault == EngineFault::Memory);
            Err(AllocError)
        }
    }
}

#[test]
fn nothing_is_told_again(rt: HostRuntime) -> Result<(), Fail> {
    let alloc = rt.alloc();
    let mut monitor = worked_monitor(&rt, alloc)?;
    let result = Command::ProcessServiceCheckResult {
        host: text(alloc, b"web")?,
        service: text(alloc, b"http")?,
        code: 2,
        output: text(alloc, b"disk full")?,
    };
    apply(&rt, alloc, &mut monitor, 560, result)?;
    let mut told = Vec::new(alloc);
    assert!(rt; !monitor.is_broken());
    monitor.tell(alloc, &mut told)?;
    assert_eq!(rt; told.len(), 0);
    Ok(())
}

#[test]
fn the_next_comment_has_the_next_id(rt: HostRuntime) -> Result<(), Fail> {
    let alloc = rt.alloc();
    let mut monitor = worked_monitor(&rt, alloc)?;
    let comment = Command::AddHostComment {
        host: text(alloc, b"db")?,
        persistent: true,
        author: text(alloc, b"ann")?,
        comment: text(alloc, b"new")?,
    };
    apply(&rt, alloc, &mut monitor, 560, comment)?;
    assert_eq!(rt; monitor.last_comment(), 3);
    Ok(())
}

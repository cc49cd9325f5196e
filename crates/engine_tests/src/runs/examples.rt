//! The examples that the documentation of the public items has, a test each, with the same lines.
use cmd_journal::Journal;
use cmd_lines::LineFault;
use cmd_run::{Ending, RunCause, RunFault, SenderReport};
use std::test::Fail;

#[test]
fn endings(rt: HostRuntime) {
    assert!(rt; Ending::TooManyReads.is_complete());
    assert!(rt; !Ending::QueueRefused.is_complete());
}

#[test]
fn a_report(rt: HostRuntime) -> Result<(), Fail> {
    let alloc = rt.alloc();
    let mut refused = Vec::new(alloc);
    refused.push((2, LineFault::NoBracket))?;
    let report = SenderReport {
        accepted: 1,
        refused,
        ending: Ending::Whole,
    };
    assert_eq!(rt; report.refused[0], (2, LineFault::NoBracket));
    Ok(())
}

#[test]
fn causes(rt: HostRuntime) {
    assert_eq!(rt; RunCause::Spawn(7).number(), 3);
    assert_eq!(rt; RunCause::Spawn(7).sender(), 7);
    assert_eq!(rt; RunCause::JournalFull.sender(), 0);
}

#[test]
fn a_fault(rt: HostRuntime) {
    let alloc = rt.alloc();
    let fault = RunFault {
        cause: RunCause::Memory,
        journal: Journal::new(alloc, 1_000),
        senders: Vec::new(alloc),
    };
    assert_eq!(rt; fault.cause.number(), 2);
}

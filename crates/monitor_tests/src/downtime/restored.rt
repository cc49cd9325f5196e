//! Downtimes that are restored from their records, whose events come in another order than their ids.
use super::steps::DowntimeStep::*;
use super::steps::*;
use cmd_types::Memory;
use mon_downtime::EventKind::{Ends, Expires, Starts};
use mon_downtime::{Downtimes, unrecorded};
use std::alloc::AllocGlobal;
use std::process::Abort;

fn restored_once(
    rt: &(impl Abort + AllocGlobal),
    tables: &[&[DowntimeStep]],
) -> Result<Downtimes, Memory> {
    let mut downtimes = Downtimes::new(rt.alloc());
    for steps in tables {
        run(rt, &mut downtimes, steps);
    }
    let records = downtimes.into_list();
    assert!(rt; unrecorded(&records).is_none());
    Downtimes::restore(rt.alloc(), records)
}

/// The downtimes after these steps, restored from their records. After Memory the records are gone, and the steps are
/// made again.
fn restored(rt: &(impl Abort + AllocGlobal), tables: &[&[DowntimeStep]]) -> Downtimes {
    match restored_once(rt, tables) {
        Ok(downtimes) => downtimes,
        Err(_) => restored_once(rt, tables).expect(rt, "memory is refused twice"),
    }
}

const SCHEDULED: &[DowntimeStep] = &[
    Schedule(50, 0, (400, 900, true, 0, 0), Ok(1)),
    Schedule(60, 1, (100, 300, false, 0, 60), Ok(2)),
    Schedule(70, 2, (200, 400, true, 0, 0), Ok(3)),
    // with the third as its trigger
    Schedule(80, 3, (100, 500, false, 3, 50), Ok(4)),
];

const PENDING: &[DowntimeStep] = &[
    Events(&[
        (200, Starts, 3),
        (300, Expires, 2),
        (400, Expires, 3),
        (400, Starts, 1),
        (500, Expires, 4),
        (900, Expires, 1),
    ]),
    InDowntime(0),
];

const STARTED: &[DowntimeStep] = &[Take(200, Some((200, Starts, 3)))];

const ACTIVE: &[DowntimeStep] = &[
    Events(&[
        (200, Starts, 4),
        (300, Expires, 2),
        (400, Ends, 3),
        (400, Starts, 1),
        (500, Expires, 4),
        (900, Expires, 1),
    ]),
    InDowntime(1),
    Problem(1, 250, Some(2)),
    Cancel(3, &[3]),
    Events(&[(310, Ends, 2), (400, Starts, 1), (900, Expires, 1)]),
];

#[test]
fn restored_events_stand_in_order(rt: HostRuntime) {
    let mut downtimes = restored(&rt, &[SCHEDULED]);
    run(&rt, &mut downtimes, PENDING);
    let mut downtimes = restored(&rt, &[SCHEDULED, STARTED]);
    run(&rt, &mut downtimes, ACTIVE);
}

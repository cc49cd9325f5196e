//! Several downtimes scheduled at once: all events that are known then, in order.
use super::steps::DowntimeStep::*;
use super::steps::*;
use mon_downtime::EventKind::{Ends, Expires, Starts};

const BETWEEN: &[DowntimeStep] = &[
    // of object 0, each for itself
    Schedule(50, 0, (100, 500, true, 0, 0), Ok(1)),
    Schedule(50, 0, (80, 300, false, 0, 60), Ok(2)),
    Schedule(50, 0, (300, 900, true, 0, 0), Ok(3)),
    ScheduleMany(60, &[7, 8, 9], (200, 300, true, 0, 0), Ok(4)),
    Events(&[
        (100, Starts, 1),
        (200, Starts, 4),
        (200, Starts, 5),
        (200, Starts, 6),
        (300, Expires, 2),
        (300, Expires, 4),
        (300, Expires, 5),
        (300, Expires, 6),
        (300, Starts, 3),
        (500, Expires, 1),
        (900, Expires, 3),
    ]),
];

#[test]
fn several_stand_between_what_is_known(rt: HostRuntime) {
    run_all(&rt, &[BETWEEN]);
}

const SOONER: &[DowntimeStep] = &[
    ScheduleMany(50, &[0, 1], (300, 400, true, 0, 0), Ok(1)),
    ScheduleMany(50, &[0, 1], (200, 400, true, 0, 0), Ok(3)),
    ScheduleMany(50, &[0, 1], (100, 400, true, 0, 0), Ok(5)),
    // the start is before the clock, and so at the clock
    ScheduleMany(150, &[0, 1], (10, 400, true, 0, 0), Ok(7)),
    Events(&[
        (100, Starts, 5),
        (100, Starts, 6),
        (150, Starts, 7),
        (150, Starts, 8),
        (200, Starts, 3),
        (200, Starts, 4),
        (300, Starts, 1),
        (300, Starts, 2),
        (400, Expires, 1),
        (400, Expires, 2),
        (400, Expires, 3),
        (400, Expires, 4),
        (400, Expires, 5),
        (400, Expires, 6),
        (400, Expires, 7),
        (400, Expires, 8),
    ]),
];

#[test]
fn later_ones_start_sooner(rt: HostRuntime) {
    run_all(&rt, &[SOONER]);
}

/// Flexible, with the first downtime as trigger.
const TRIGGERED: Terms = (50, 800, false, 1, 70);

const WITH_TRIGGER: &[DowntimeStep] = &[
    Schedule(50, 0, (100, 1000, true, 0, 0), Ok(1)),
    // the trigger is pending
    ScheduleMany(60, &[1, 2, 3], TRIGGERED, Ok(2)),
    Events(&[
        (100, Starts, 1),
        (800, Expires, 2),
        (800, Expires, 3),
        (800, Expires, 4),
        (1000, Expires, 1),
    ]),
    // the trigger is active, for 20 seconds already
    Take(110, Some((100, Starts, 1))),
    ScheduleMany(120, &[4, 5], TRIGGERED, Ok(5)),
    Events(&[
        (100, Starts, 2),
        (100, Starts, 3),
        (100, Starts, 4),
        (120, Starts, 5),
        (120, Starts, 6),
        (800, Expires, 2),
        (800, Expires, 3),
        (800, Expires, 4),
        (800, Expires, 5),
        (800, Expires, 6),
        (1000, Ends, 1),
    ]),
];

#[test]
fn several_start_with_their_trigger_or_when_they_are_entered(rt: HostRuntime) {
    run_all(&rt, &[WITH_TRIGGER]);
}

const NONE_AND_ONE: &[DowntimeStep] = &[
    Schedule(50, 0, (100, 200, true, 0, 0), Ok(1)),
    ScheduleMany(50, &[], (150, 180, true, 0, 0), Ok(2)),
    Events(&[(100, Starts, 1), (200, Expires, 1)]),
    // what was taken leaves a gap before the first
    Take(100, Some((100, Starts, 1))),
    ScheduleMany(120, &[3], (150, 180, true, 0, 0), Ok(2)),
    Events(&[(150, Starts, 2), (180, Expires, 2), (200, Ends, 1)]),
];

#[test]
fn none_and_one_are_several(rt: HostRuntime) {
    run_all(&rt, &[NONE_AND_ONE]);
}

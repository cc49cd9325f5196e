//! Downtimes that wait for problems: which of them a problem starts, whatever was taken out between.
use super::steps::DowntimeStep::*;
use super::steps::*;
use mon_downtime::EventKind::Expires;

// of objects 7 and 3 in turn; number 5 is not yet open, and number 9 expires early
const OPEN: Terms = (1000, 2000, false, 0, 600);

const LATE: Terms = (1500, 2000, false, 0, 600);

const EARLY: Terms = (1000, 1100, false, 0, 60);

const STEPS: &[DowntimeStep] = &[
    Schedule(900, 7, OPEN, Ok(1)),
    Schedule(900, 3, OPEN, Ok(2)),
    Schedule(900, 7, OPEN, Ok(3)),
    Schedule(900, 3, OPEN, Ok(4)),
    Schedule(900, 7, LATE, Ok(5)),
    Schedule(900, 3, OPEN, Ok(6)),
    Schedule(900, 7, OPEN, Ok(7)),
    Schedule(900, 3, OPEN, Ok(8)),
    Schedule(900, 7, EARLY, Ok(9)),
    Schedule(900, 3, OPEN, Ok(10)),
    Schedule(900, 7, OPEN, Ok(11)),
    // the first, one between and the last of object 7 are cancelled
    Cancel(1, &[]),
    Cancel(7, &[]),
    Cancel(11, &[]),
    Take(1100, Some((1100, Expires, 9))),
    Problem(7, 1200, Some(3)),
    Problem(7, 1200, None),
    Problem(7, 1600, Some(5)),
    Problem(7, 1600, None),
    Problem(3, 1600, Some(2)),
    Problem(3, 1600, Some(4)),
    Problem(3, 1600, Some(6)),
    Problem(3, 1600, Some(8)),
    Problem(3, 1600, Some(10)),
    Problem(3, 1600, None),
    Problem(0, 1600, None),
    // what comes then is behind nothing
    Schedule(1600, 7, OPEN, Ok(12)),
    Problem(7, 1700, Some(12)),
    InDowntime(2),
];

#[test]
fn problems_start_what_still_waits_in_order(rt: HostRuntime) {
    run_all(&rt, &[STEPS]);
}

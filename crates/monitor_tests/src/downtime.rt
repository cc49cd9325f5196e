//! Worked examples of downtimes: what is scheduled, falls due, starts with a problem and is cancelled.
ghost use Rattle.std.specs.Prelude.{◌≤◌};

mod examples;
mod restored;
mod rings;
mod several;
mod steps;

use crate::support::same;
use mon_downtime::EventKind::{Ends, Expires, Starts};
use mon_downtime::{Downtimes, Fate, Refusal};
use std::alloc::AllocGlobal;
use std::process::Abort;
use steps::DowntimeStep::*;
use steps::*;

/// A fixed downtime of a host and a flexible one of a service that it triggers.
const FIXED_AND_TRIGGERED: &[DowntimeStep] = &[
    LastId(0),
    Schedule(900, 0, (1000, 2000, true, 0, 0), Ok(1)),
    Schedule(910, 1, (1000, 3000, false, 1, 100), Ok(2)),
];

const IN_ORDER: &[DowntimeStep] = &[
    Due(999, None),
    Due(2500, Some((1000, Starts, 1))),
    Take(2500, Some((1000, Starts, 1))),
    Take(2500, Some((1000, Starts, 2))),
    Take(2500, Some((1100, Ends, 2))),
    Take(2500, Some((2000, Ends, 1))),
    Take(2500, None),
];

#[test]
fn events_run_in_order(rt: HostRuntime) {
    run_all(&rt, &[FIXED_AND_TRIGGERED, IN_ORDER]);
}

const SCHEDULED: &[DowntimeStep] = &[EventCount(2_000), FirstEvent((1, Starts, 1))];

const STARTED: &[DowntimeStep] = &[Depth(0, 1_000), EventCount(1_000)];

const ENDED: &[DowntimeStep] = &[Take(5_000, None), Depth(0, 0), EventCount(0)];

/// A thousand fixed downtimes of object 0, that of id i from i to i + 1000.
#[test]
fn a_thousand_run_in_order(rt: HostRuntime) {
    let mut downtimes = Downtimes::new(rt.alloc());
    for id in 1..1_001 {
        let terms = (id, id + 1_000, true, 0, 0);
        schedule(&rt, &mut downtimes, 0, 0, terms, Ok(id));
    }
    run(&rt, &mut downtimes, SCHEDULED);
    for id in 1..1_001 {
        take(&rt, &mut downtimes, 5_000, (id, Starts, id));
    }
    run(&rt, &mut downtimes, STARTED);
    for id in 1..1_001 {
        take(&rt, &mut downtimes, 5_000, (id + 1_000, Ends, id));
    }
    run(&rt, &mut downtimes, ENDED);
}

/// How many ids there are, the first and the last.
fn ends(ids: &[u64]) -> (usize, Option<u64>, Option<u64>) {
    (ids.len(), ids.first().copied(), ids.last().copied())
}

const HALF_STARTED: &[DowntimeStep] = &[Depth(0, 500), EventCount(1_001)];

const CANCELLED: &[DowntimeStep] = &[EventCount(0), Depth(0, 0), Live(1_000, false)];

/// A thousand downtimes, each triggered by the one before, of which the first half has started.
fn chain_of_a_thousand(rt: &(impl Abort + AllocGlobal)) -> Downtimes {
    let mut downtimes = Downtimes::new(rt.alloc());
    for id in 1..1_001 {
        let terms = (10, 20, true, id - 1, 0);
        schedule(rt, &mut downtimes, 0, 0, terms, Ok(id));
    }
    run(rt, &mut downtimes, &[EventCount(1_001)]);
    for id in 1..501 {
        take(rt, &mut downtimes, 15, (10, Starts, id));
    }
    run(rt, &mut downtimes, HALF_STARTED);
    downtimes
}

/// All are cancelled with the first.
#[test]
fn a_chain_of_a_thousand_is_cancelled(rt: HostRuntime) {
    let mut downtimes = chain_of_a_thousand(&rt);
    let ids = ends(&cancel_all(&rt, &mut downtimes, 1));
    same(&rt, ids, (500, Some(1), Some(500)));
    run(&rt, &mut downtimes, CANCELLED);
}

/// Each is cancelled by itself, since all that depend on it are over by then.
#[test]
fn a_chain_of_a_thousand_is_cancelled_last_first(rt: HostRuntime) {
    let mut downtimes = chain_of_a_thousand(&rt);
    for id in (501..1_001).rev() {
        cancel_pending(&rt, &mut downtimes, id);
    }
    for id in (1..501).rev() {
        let ids = ends(&cancel_all(&rt, &mut downtimes, id));
        same(&rt, ids, (1, Some(id), Some(id)));
    }
    run(&rt, &mut downtimes, CANCELLED);
}

const TRIGGER_CANCELLED: &[DowntimeStep] = &[
    Take(1050, Some((1000, Starts, 1))),
    Take(1050, Some((1000, Starts, 2))),
    Depth(0, 1),
    Depth(1, 1),
    Cancel(1, &[1, 2]),
    Depth(0, 0),
    Depth(1, 0),
];

#[test]
fn cancelling_a_trigger_cancels_what_it_started(rt: HostRuntime) {
    run_all(&rt, &[FIXED_AND_TRIGGERED, TRIGGER_CANCELLED]);
}

const CHAIN_CANCELLED: &[DowntimeStep] = &[
    Schedule(920, 0, (1000, 3000, true, 2, 0), Ok(3)),
    Schedule(920, 0, (1000, 3000, true, 0, 0), Ok(4)),
    Take(1100, Some((1000, Starts, 1))),
    Take(1100, Some((1000, Starts, 2))),
    Take(1100, Some((1000, Starts, 3))),
    Take(1100, Some((1000, Starts, 4))),
    Take(1100, Some((1100, Ends, 2))),
    Depth(0, 3),
    Cancel(1, &[1, 3]),
    HasFate(3, Fate::Over),
    Live(4, true),
    Depth(0, 1),
];

#[test]
fn a_chain_is_cancelled_through_what_is_over(rt: HostRuntime) {
    run_all(&rt, &[FIXED_AND_TRIGGERED, CHAIN_CANCELLED]);
}

/// The second triggers the third and the fourth, the third the fifth. The second ends by itself, and
/// then the fourth still goes with the first.
const PARTS_CANCELLED: &[DowntimeStep] = &[
    Schedule(920, 0, (1000, 3000, true, 2, 0), Ok(3)),
    Schedule(920, 0, (1000, 3000, true, 2, 0), Ok(4)),
    Schedule(920, 0, (1000, 3000, true, 3, 0), Ok(5)),
    Take(1100, Some((1000, Starts, 1))),
    Take(1100, Some((1000, Starts, 2))),
    Take(1100, Some((1000, Starts, 3))),
    Take(1100, Some((1000, Starts, 4))),
    Take(1100, Some((1000, Starts, 5))),
    Take(1100, Some((1100, Ends, 2))),
    Depth(0, 4),
    Cancel(5, &[5]),
    Cancel(3, &[3]),
    Live(4, true),
    Cancel(1, &[1, 4]),
    EventCount(0),
    Depth(0, 0),
];

#[test]
fn what_was_cancelled_before_hides_nothing_else(rt: HostRuntime) {
    run_all(&rt, &[FIXED_AND_TRIGGERED, PARTS_CANCELLED]);
}

/// The first triggers the second and the third, the second two of its own, the third one.
const TREE: &[DowntimeStep] = &[
    Schedule(900, 0, (1000, 9000, true, 0, 0), Ok(1)),
    Schedule(900, 1, (1000, 9000, true, 1, 0), Ok(2)),
    Schedule(900, 2, (1000, 9000, true, 1, 0), Ok(3)),
    Schedule(900, 3, (1000, 9000, true, 2, 0), Ok(4)),
    Schedule(900, 4, (1000, 9000, true, 3, 0), Ok(5)),
    Schedule(900, 5, (1000, 9000, true, 2, 0), Ok(6)),
    Schedule(900, 6, (1000, 9000, true, 0, 0), Ok(7)),
    Take(1000, Some((1000, Starts, 1))),
    Take(1000, Some((1000, Starts, 2))),
    Take(1000, Some((1000, Starts, 3))),
    Take(1000, Some((1000, Starts, 4))),
    Take(1000, Some((1000, Starts, 5))),
    Take(1000, Some((1000, Starts, 6))),
    Take(1000, Some((1000, Starts, 7))),
];

const ALL_OF_THE_TREE: &[DowntimeStep] = &[
    Cancel(1, &[1, 2, 3, 4, 5, 6]),
    EventCount(1),
    Live(7, true),
];

const ONE_BRANCH: &[DowntimeStep] = &[
    Cancel(2, &[2, 4, 6]),
    Live(1, true),
    Live(3, true),
    Live(5, true),
    EventCount(4),
];

const REST_OF_THE_TREE: &[DowntimeStep] = &[Cancel(1, &[1, 3, 5]), EventCount(1), Live(7, true)];

#[test]
fn a_tree_is_cancelled_in_order_of_id(rt: HostRuntime) {
    run_all(&rt, &[TREE, ALL_OF_THE_TREE]);
    run_all(&rt, &[TREE, ONE_BRANCH, REST_OF_THE_TREE]);
}

const NONE_LEFT: &[DowntimeStep] = &[EventCount(0), Depth(0, 0)];

/// So many pending downtimes that follow one another, each cancelled by itself.
fn cancel_one_by_one(rt: &(impl Abort + AllocGlobal), last_id: u64)
    requires { last_id ≤ 5000 }
{
    let mut downtimes = Downtimes::new(rt.alloc());
    for id in 1..last_id + 1 {
        let terms = (2 * id, 2 * id + 1, true, 0, 0);
        schedule(rt, &mut downtimes, 0, 0, terms, Ok(id));
    }
    for id in 1..last_id + 1 {
        cancel_pending(rt, &mut downtimes, id);
    }
    run(rt, &mut downtimes, NONE_LEFT);
}

/// Each allocation can be refused here in turn: none is made by a cancellation.
#[test]
fn what_is_pending_is_cancelled_without_memory(rt: HostRuntime) {
    cancel_one_by_one(&rt, 100);
}

/// A cancellation looks at none of the others, so this takes no longer than to schedule them.
#[test]
fn five_thousand_are_cancelled_one_by_one(rt: HostRuntime) {
    cancel_one_by_one(&rt, 5_000);
}

const PLANS: &[DowntimeStep] = &[
    Schedule(100, 0, (200, 200, true, 0, 0), Err(Refusal::BadWindow)),
    Schedule(100, 0, (90, 80, false, 99, 0), Err(Refusal::BadWindow)),
    Schedule(100, 0, (50, 100, true, 0, 0), Err(Refusal::PastWindow)),
    Schedule(100, 0, (50, 100, false, 99, 0), Err(Refusal::PastWindow)),
    Schedule(100, 0, (200, 300, false, 99, 0), Err(Refusal::NoDuration)),
    Schedule(100, 0, (200, 300, true, 99, 0), Err(Refusal::NoTrigger)),
    Schedule(100, 0, (200, 300, true, 1, 0), Err(Refusal::NoTrigger)),
    Schedule(100, 0, (100, 150, true, 0, 0), Ok(1)),
    Take(150, Some((100, Starts, 1))),
    Take(150, Some((150, Ends, 1))),
    Schedule(150, 0, (200, 300, true, 1, 0), Err(Refusal::TriggerOver)),
    LastId(1),
    Live(1, false),
    Live(2, false),
];

#[test]
fn plans_are_refused_for_their_first_fault(rt: HostRuntime) {
    run_all(&rt, &[PLANS]);
}

const EXPIRING: &[DowntimeStep] = &[
    Schedule(100, 0, (1000, 2000, true, 0, 0), Ok(1)),
    Schedule(100, 1, (500, 1000, true, 1, 0), Ok(2)),
    Take(5000, Some((1000, Expires, 2))),
    Take(5000, Some((1000, Starts, 1))),
    Take(5000, Some((2000, Ends, 1))),
    Take(5000, None),
];

#[test]
fn a_window_that_ends_as_its_trigger_starts_expires(rt: HostRuntime) {
    run_all(&rt, &[EXPIRING]);
}

const ACTIVE: Fate = Fate::Active {
    since: 1220,
    until: 1820,
};

const FLEXIBLE: &[DowntimeStep] = &[
    Schedule(900, 1, (1000, 2000, false, 0, 600), Ok(1)),
    Schedule(900, 1, (1000, 2000, false, 0, 600), Ok(2)),
    Schedule(900, 1, (1000, 2000, false, 0, 600), Ok(3)),
    Take(1220, None),
    Problem(1, 999, None),
    Problem(0, 1220, None),
    Problem(1, 1220, Some(1)),
    HasFate(1, ACTIVE),
    Problem(1, 1999, Some(2)),
    Problem(1, 2000, None),
    Take(1819, None),
    Take(2000, Some((1820, Ends, 1))),
    Take(2000, Some((2000, Expires, 3))),
    Take(2000, None),
    HasFate(3, Fate::Over),
];

#[test]
fn flexible_downtimes_start_at_a_problem(rt: HostRuntime) {
    run_all(&rt, &[FLEXIBLE]);
}

/// From second 200 to second 300.
const FIXED: Terms = (200, 300, true, 0, 0);

/// The same with a trigger.
const SISTER: Terms = (200, 300, true, 4, 0);

const IN_A_ROW: &[DowntimeStep] = &[
    ScheduleMany(50, &[], FIXED, Ok(1)),
    LastId(0),
    ScheduleMany(50, &[4, 2, 9], FIXED, Ok(1)),
    Entered(50, &[4, 2, 9]),
    ScheduleMany(50, &[4, 2, 9], SISTER, Err(Refusal::NoTrigger)),
    ScheduleMany(300, &[], FIXED, Err(Refusal::PastWindow)),
    LastId(3),
];

#[test]
fn several_objects_get_ids_in_a_row(rt: HostRuntime) {
    run_all(&rt, &[IN_A_ROW]);
}

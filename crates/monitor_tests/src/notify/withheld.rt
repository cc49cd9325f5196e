//! Each test of a notice failing alone, at the second before and at the second itself.
use crate::support::same;
use mon_notify::{Facts, problem_viable, recovery_viable};
use std::process::Abort;

/// A CRITICAL service, notified 600 seconds ago, whose interval is over just now.
const AGAIN: Facts = Facts {
    program_on: true,
    object_on: true,
    depth: 0,
    host_depth: 0,
    host_up: true,
    letter_on: true,
    acknowledged: false,
    hard: true,
    clock: 820,
    not_before: None,
    number: 1,
    code: 2,
    notified: Some(2),
    last: Some(220),
    interval: 600,
    volatile: false,
    since: Some(100),
    delay: None,
    above_back: None,
    settle: None,
};

/// The same a second too early.
const EARLY: Facts = Facts {
    clock: 819,
    ..AGAIN
};

/// What is known of an object, and whether a notice may go out.
type Row = (Facts, bool);

fn expect_problems(rt: &impl Abort, rows: &[Row]) {
    for (facts, viable) in rows {
        same(rt, problem_viable(facts), *viable);
    }
}

fn expect_recoveries(rt: &impl Abort, rows: &[Row]) {
    for (facts, viable) in rows {
        same(rt, recovery_viable(facts), *viable);
    }
}

const PROBLEM_SWITCHES: &[Row] = &[
    (AGAIN, true),
    (
        Facts {
            program_on: false,
            ..AGAIN
        },
        false,
    ),
    (
        Facts {
            object_on: false,
            ..AGAIN
        },
        false,
    ),
    (Facts { depth: 1, ..AGAIN }, false),
    (
        Facts {
            host_depth: 1,
            ..AGAIN
        },
        false,
    ),
];

#[test]
fn switches_and_downtimes_hold_a_problem_back(rt: HostRuntime) {
    expect_problems(&rt, PROBLEM_SWITCHES);
}

const STATES: &[Row] = &[
    (
        Facts {
            host_up: false,
            ..AGAIN
        },
        false,
    ),
    (
        Facts {
            letter_on: false,
            ..AGAIN
        },
        false,
    ),
    (
        Facts {
            acknowledged: true,
            ..AGAIN
        },
        false,
    ),
    (
        Facts {
            hard: false,
            ..AGAIN
        },
        false,
    ),
];

#[test]
fn the_state_may_hold_a_problem_back(rt: HostRuntime) {
    expect_problems(&rt, STATES);
}

const DELAYS: &[Row] = &[
    (
        Facts {
            not_before: Some(821),
            ..AGAIN
        },
        false,
    ),
    (
        Facts {
            not_before: Some(820),
            ..AGAIN
        },
        true,
    ),
    // it never brings a notice forward
    (
        Facts {
            not_before: Some(0),
            ..EARLY
        },
        false,
    ),
];

#[test]
fn a_delay_ends_at_its_moment(rt: HostRuntime) {
    expect_problems(&rt, DELAYS);
}

/// The first notification delay, whatever the number; and what is awaited, for a first notice alone.
const YOUNG: &[Row] = &[
    (
        Facts {
            since: Some(100),
            delay: Some(721),
            ..AGAIN
        },
        false,
    ),
    (
        Facts {
            since: Some(100),
            delay: Some(720),
            ..AGAIN
        },
        true,
    ),
    (
        Facts {
            above_back: Some(700),
            settle: Some(121),
            number: 0,
            ..AGAIN
        },
        false,
    ),
    (
        Facts {
            above_back: Some(700),
            settle: Some(120),
            number: 0,
            ..AGAIN
        },
        true,
    ),
    (
        Facts {
            above_back: Some(700),
            settle: Some(121),
            ..AGAIN
        },
        true,
    ),
];

#[test]
fn a_problem_that_is_too_young_is_held_back(rt: HostRuntime) {
    expect_problems(&rt, YOUNG);
}

/// A bad result of a volatile service needs neither a new code nor a time, but passes the other tests.
const VOLATILE: &[Row] = &[
    (
        Facts {
            volatile: true,
            ..EARLY
        },
        true,
    ),
    (
        Facts {
            volatile: true,
            interval: 0,
            ..EARLY
        },
        true,
    ),
    (
        Facts {
            volatile: true,
            hard: false,
            ..EARLY
        },
        false,
    ),
    (
        Facts {
            volatile: true,
            not_before: Some(820),
            ..EARLY
        },
        false,
    ),
];

#[test]
fn each_bad_result_of_a_volatile_service_is_told(rt: HostRuntime) {
    expect_problems(&rt, VOLATILE);
}

const INTERVALS: &[Row] = &[
    (EARLY, false),
    (
        Facts {
            interval: 599,
            ..EARLY
        },
        true,
    ),
    (Facts { number: 0, ..EARLY }, true),
    (
        Facts {
            notified: None,
            ..EARLY
        },
        true,
    ),
    (
        Facts {
            notified: Some(1),
            ..EARLY
        },
        true,
    ),
    (
        Facts {
            last: None,
            ..EARLY
        },
        true,
    ),
];

#[test]
fn an_interval_holds_the_same_problem_back(rt: HostRuntime) {
    expect_problems(&rt, INTERVALS);
}

const NO_INTERVAL: &[Row] = &[
    (
        Facts {
            interval: 0,
            ..AGAIN
        },
        false,
    ),
    (
        Facts {
            interval: 0,
            last: None,
            ..AGAIN
        },
        false,
    ),
    (
        Facts {
            interval: 0,
            number: 0,
            ..AGAIN
        },
        true,
    ),
];

#[test]
fn no_interval_stops_the_same_problem(rt: HostRuntime) {
    expect_problems(&rt, NO_INTERVAL);
}

/// At the last second that there is.
const END: Facts = Facts {
    clock: u64::MAX,
    ..AGAIN
};

const GREATEST: &[Row] = &[
    (
        Facts {
            last: Some(u64::MAX),
            interval: 1,
            ..END
        },
        false,
    ),
    (
        Facts {
            last: Some(0),
            interval: u64::MAX,
            ..END
        },
        true,
    ),
];

#[test]
fn the_greatest_numbers_are_added_without_a_loss(rt: HostRuntime) {
    expect_problems(&rt, GREATEST);
}

const RECOVERY_SWITCHES: &[Row] = &[
    (EARLY, true),
    (
        Facts {
            program_on: false,
            ..EARLY
        },
        false,
    ),
    (
        Facts {
            object_on: false,
            ..EARLY
        },
        false,
    ),
    (Facts { depth: 1, ..EARLY }, false),
    (
        Facts {
            host_depth: 1,
            ..EARLY
        },
        false,
    ),
];

#[test]
fn switches_and_downtimes_hold_a_recovery_back(rt: HostRuntime) {
    expect_recoveries(&rt, RECOVERY_SWITCHES);
}

const RECOVERIES: &[Row] = &[
    (
        Facts {
            letter_on: false,
            ..EARLY
        },
        false,
    ),
    (Facts { number: 0, ..EARLY }, false),
    // and neither the host's state nor a delay
    (
        Facts {
            host_up: false,
            not_before: Some(821),
            ..EARLY
        },
        true,
    ),
];

#[test]
fn a_recovery_asks_its_letter_and_number(rt: HostRuntime) {
    expect_recoveries(&rt, RECOVERIES);
}

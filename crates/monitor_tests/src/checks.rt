//! The table of the states, a row each: results of services and of hosts.
mod examples;

use crate::support::same;
use mon_checks::{Change, Status, after_result};
use std::process::Abort;

/// A code, whether it is hard, and the attempt.
type State = (u8, bool, u64);

/// A state; a code with whether the host is up and the greatest attempt; what they give.
type ResultRow = (State, (u8, bool, u64), State, Change);

const SAME: Change = Change {
    code_changed: false,
    recovered: false,
    hard_recovery: false,
};

const CHANGED: Change = Change {
    code_changed: true,
    recovered: false,
    hard_recovery: false,
};

const RECOVERED: Change = Change {
    code_changed: true,
    recovered: true,
    hard_recovery: false,
};

const HARD_RECOVERED: Change = Change {
    code_changed: true,
    recovered: true,
    hard_recovery: true,
};

fn status(service: bool, state: State) -> Status {
    let (code, hard, attempt) = state;
    Status {
        service,
        code,
        hard,
        attempt,
    }
}

fn after(rt: &impl Abort, service: bool, soft_hosts: bool, row: &ResultRow) -> (Status, Change) {
    let (old, (code, host_up, max), ..) = *row;
    let old = status(service, old);
    assert!(rt; code <= 2 || (old.service && code == 3));
    assert!(rt; max >= 1 && max <= 1_099_511_627_775 && old.attempt <= max);
    after_result(&old, code, host_up, max, soft_hosts)
}

fn check_row(rt: &impl Abort, service: bool, soft_hosts: bool, row: &ResultRow) {
    let (_, _, new, change) = *row;
    same(
        rt,
        after(rt, service, soft_hosts, row),
        (status(service, new), change),
    );
}

fn check_rows(rt: &impl Abort, service: bool, soft_hosts: bool, rows: &[ResultRow]) {
    for row in rows {
        check_row(rt, service, soft_hosts, row);
    }
}

fn check_first(rt: &impl Abort, service: bool) {
    same(rt, Status::first(service), status(service, (0, true, 1)));
}

const HARD_HOSTS: &[ResultRow] = &[
    ((0, true, 1), (0, true, 3), (0, true, 1), SAME),
    ((0, true, 1), (1, true, 3), (1, true, 1), CHANGED),
    ((0, true, 1), (2, false, 3), (2, true, 1), CHANGED),
    ((1, true, 1), (1, true, 3), (1, true, 1), SAME),
    ((1, true, 1), (2, true, 3), (2, true, 1), CHANGED),
    ((2, true, 1), (0, true, 3), (0, true, 1), HARD_RECOVERED),
    ((1, false, 1), (1, true, 3), (1, true, 2), SAME),
    ((1, false, 1), (0, true, 3), (0, true, 1), RECOVERED),
];

#[test]
fn hosts_are_hard_at_once(rt: HostRuntime) {
    check_first(&rt, false);
    check_rows(&rt, false, false, HARD_HOSTS);
}

const SOFT_HOSTS: &[ResultRow] = &[
    ((0, true, 1), (0, true, 3), (0, true, 1), SAME),
    ((0, true, 1), (1, true, 3), (1, false, 1), CHANGED),
    ((0, true, 1), (1, false, 3), (1, false, 1), CHANGED),
    ((0, true, 1), (2, true, 1), (2, true, 1), CHANGED),
    ((1, false, 1), (1, false, 3), (1, false, 2), SAME),
    ((1, false, 1), (2, false, 3), (2, false, 2), CHANGED),
    ((1, false, 2), (1, false, 3), (1, true, 3), SAME),
    ((1, true, 3), (2, false, 3), (2, true, 3), CHANGED),
    ((1, true, 1), (1, false, 3), (1, true, 1), SAME),
    ((1, false, 2), (0, true, 3), (0, true, 1), RECOVERED),
    ((1, true, 3), (0, true, 3), (0, true, 1), HARD_RECOVERED),
];

#[test]
fn hosts_may_be_soft_below_their_greatest_attempt(rt: HostRuntime) {
    check_rows(&rt, false, true, SOFT_HOSTS);
}

const SOFT_SERVICES: &[ResultRow] = &[
    ((0, true, 1), (0, true, 3), (0, true, 1), SAME),
    ((0, true, 1), (0, false, 3), (0, true, 1), SAME),
    ((0, true, 1), (1, true, 3), (1, false, 1), CHANGED),
    ((0, true, 1), (1, true, 1), (1, true, 1), CHANGED),
    ((1, false, 1), (1, true, 3), (1, false, 2), SAME),
    ((1, false, 1), (2, true, 3), (2, false, 2), CHANGED),
    ((2, false, 2), (3, true, 3), (3, true, 3), CHANGED),
    ((3, true, 3), (1, true, 3), (1, true, 3), CHANGED),
    ((1, true, 3), (1, true, 3), (1, true, 3), SAME),
    ((1, false, 2), (0, true, 3), (0, true, 1), RECOVERED),
    ((1, true, 3), (0, true, 3), (0, true, 1), HARD_RECOVERED),
    ((1, true, 3), (0, false, 3), (0, true, 1), HARD_RECOVERED),
];

#[test]
fn services_are_soft_below_their_greatest_attempt(rt: HostRuntime) {
    check_first(&rt, true);
    // what holds of hosts is not asked
    check_rows(&rt, true, false, SOFT_SERVICES);
    check_rows(&rt, true, true, SOFT_SERVICES);
}

const BELOW_A_HOST: &[ResultRow] = &[
    ((0, true, 1), (2, false, 3), (2, true, 1), CHANGED),
    ((2, false, 1), (2, false, 3), (2, true, 2), SAME),
    ((2, true, 1), (1, true, 3), (1, true, 1), CHANGED),
];

#[test]
fn services_of_a_host_that_is_not_up_are_hard_and_keep_their_attempt(rt: HostRuntime) {
    // what holds of hosts is not asked
    check_rows(&rt, true, false, BELOW_A_HOST);
    check_rows(&rt, true, true, BELOW_A_HOST);
}

//! The examples that the documentation of the public items has, a test each, with the same lines.
use mon_checks::{Status, after_result};

#[test]
fn status(rt: HostRuntime) {
    let status = Status::first(true);
    assert_eq!(rt; (status.code, status.hard, status.attempt), (0, true, 1));
}

#[test]
fn result(rt: HostRuntime) {
    let (status, change) = after_result(&Status::first(true), 2, true, 3, false);
    assert_eq!(rt; (status.code, status.hard, status.attempt), (2, false, 1));
    assert!(rt; change.code_changed);
}

#[test]
fn change(rt: HostRuntime) {
    let (down, _) = after_result(&Status::first(false), 1, true, 3, false);
    let (_, change) = after_result(&down, 0, true, 3, false);
    assert!(rt; change.recovered && change.hard_recovery);
}

//! The step from one state to the next: the status after a check result, and the change that the result made.
ghost use Rattle.std.specs.Prelude.{◌≡◌, ◌≤◌, ◌<◌, ◌-◌, ◌^◌};
ghost use Rattle.mon_checks.specs.States.{IsCodeOf, status_after, change_by, IsWithin};

use crate::status::Status;

/// The change that a check result made: whether the code changed, whether the object recovered from a problem, and
/// whether that problem was hard.
///
/// ```
/// let (down, _) = after_result(&Status::first(false), 1, true, 3, false);
/// let (_, change) = after_result(&down, 0, true, 3, false);
/// assert!(rt; change.recovered && change.hard_recovery);
/// ```
#[derive(Clone, Copy, Debug, PartialEq, Eq)]
pub struct Change {
    pub code_changed: bool,
    pub recovered: bool,
    pub hard_recovery: bool,
}

/// The status after a check result, and the change that the result made (State Types, Passive Checks).
///
/// `code` is that of the result, 0 to 2 for a host and 0 to 3 for a service. `host_up` says whether the code of the
/// service's host is 0, hard or soft; for a host it is not read. `max` is the object's greatest attempt, from 1 and
/// below 2^64 - 1; the attempt of `status` is at most `max`. `soft_hosts` says whether a problem of a host is soft
/// below that attempt (`passive_host_checks_are_soft`) or hard at once; for a service it is not read. Two rules are
/// profile: a result of code 0 is hard with attempt 1 at once, and a service that is made hard by its host keeps its
/// attempt.
///
/// ```
/// let (status, change) = after_result(&Status::first(true), 2, true, 3, false);
/// assert_eq!(rt; (status.code, status.hard, status.attempt), (2, false, 1));
/// assert!(rt; change.code_changed);
/// ```
pub fn after_result(
    status: &Status,
    code: u8,
    host_up: bool,
    max: u64,
    soft_hosts: bool,
) -> (Status, Change)
    requires code { IsCodeOf status.now.service code }
    requires least { 1 ≤ max }
    requires greatest { max < 2 ^ 64 - 1 }
    requires attempt { status.now.attempt ≤ max }
    ensures status { result.0 ≡ status_after status.now code host_up soft_hosts max }
    ensures change { result.1 ≡ change_by status.now code }
    ensures within { IsWithin max status.now → IsWithin max result.0 }
{
    let old = *status;
    let was_problem = old.code != 0;
    let is_problem = code != 0;
    let stays_hard = was_problem && old.hard;
    let attempt = match (was_problem, is_problem) {
        (true, true) if old.hard => old.attempt,
        (true, true) => old.attempt + 1,
        _ => 1,
    };
    let may_be_soft = if old.service { host_up } else { soft_hosts };
    let hard = !is_problem || stays_hard || attempt >= max || !may_be_soft;
    let recovered = was_problem && !is_problem;
    (
        Status {
            service: old.service,
            code,
            hard,
            attempt,
        },
        Change {
            code_changed: old.code != code,
            recovered,
            hard_recovery: recovered && old.hard,
        },
    )
}

//! The state of a host or a service: its code, its type (hard or soft) and its attempt.
ghost use Rattle.std.specs.Prelude.{◌≡◌, ℕ, ◌≤◌};
ghost use Rattle.mon_checks.specs.States.{first_status, IsWithin};

/// The state of a host or a service by its last check result (State Types).
///
/// The code of a host is 0 UP, 1 DOWN or 2 UNREACHABLE, that of a service 0 OK, 1 WARNING, 2 CRITICAL or 3 UNKNOWN. The
/// attempt counts the results of one problem from 1 until the state is hard.
///
/// ```
/// let status = Status::first(true);
/// assert_eq!(rt; (status.code, status.hard, status.attempt), (0, true, 1));
/// ```
#[derive(Clone, Copy, Debug, PartialEq, Eq)]
pub struct Status {
    pub service: bool,
    pub code: u8,
    pub hard: bool,
    pub attempt: u64,
}

impl Status {
    /// The status of an object before its first check result (profile): code 0, hard, attempt 1. `service` is true for
    /// a service and false for a host.
    pub fn first(service: bool) -> Status
        ensures first { result ≡ first_status service }
        ensures within { (max : ℕ) → 1 ≤ max → IsWithin max result }
    {
        Status {
            service,
            code: 0,
            hard: true,
            attempt: 1,
        }
    }
}

//! The facts that decide whether a notice may go out; the caller takes them from its state.
/// All facts that decide whether a notice about an object may go out, whoever its recipients are (Notifications).
///
/// See the example of [`problem_viable`].
#[derive(Clone, Copy)]
pub struct Facts {
    /// Notifications are on in the whole program.
    pub program_on: bool,
    /// Notifications are on for the object.
    pub object_on: bool,
    /// The number of active downtimes of the object.
    pub depth: u64,
    /// The number of active downtimes of a service's host; 0 for a host.
    pub host_depth: u64,
    /// A service's host is UP; true for a host.
    pub host_up: bool,
    /// The object's options have the letter of its state, or of a recovery.
    pub letter_on: bool,
    /// The problem is acknowledged.
    pub acknowledged: bool,
    /// The state is of type HARD.
    pub hard: bool,
    /// The monitor's clock, in seconds.
    pub clock: u64,
    /// The second before which a delay holds PROBLEM notices back; `None` where no delay is set.
    pub not_before: Option<u64>,
    /// The notification number: 0 at first and after a recovery. Each PROBLEM notice and each custom notice with the
    /// increment bit raises the number by 1, and a command can set the number.
    pub number: u64,
    /// The code of the state.
    pub code: u8,
    /// The code of the state in the last PROBLEM notice; `None` before the first and after a recovery.
    pub notified: Option<u8>,
    /// The second of the last PROBLEM notice; `None` where `notified` is `None`.
    pub last: Option<u64>,
    /// The notification interval in force, in seconds; 0 for no further notice.
    pub interval: u64,
    /// A bad result of a volatile service was just taken: each of these is notified, whatever the number, the code and
    /// the interval.
    pub volatile: bool,
    /// The second at which the object came into its hard problem; `None` where it is in none.
    pub since: Option<u64>,
    /// The object's first notification delay, in seconds; `None` where it has none.
    pub delay: Option<u64>,
    /// The second at which what stands above the object came back; `None` where nothing that is back stands above it.
    pub above_back: Option<u64>,
    /// For how many seconds after that results are awaited; `None` for no time.
    pub settle: Option<u64>,
}

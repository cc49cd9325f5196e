//! A downtime as it was scheduled, with its fate. Nothing in this file changes a downtime.
use crate::plan::Plan;

/// The fate of a downtime: pending; active from the second `since` until the second `until`; or over, since it ended,
/// expired before it started, or was cancelled.
///
/// See the example of [`Downtime`].
#[derive(Clone, Copy, Debug, PartialEq, Eq)]
pub enum Fate {
    Pending,
    Active { since: u64, until: u64 },
    Over,
}

/// A downtime as it was scheduled, with its fate (Scheduled Downtime).
///
/// Ids count from 1, objects from 0. A fixed downtime lasts until the `end_time` of its plan, a flexible one for its
/// `duration` from its start. The `trigger_id` of its plan is the id of the downtime that starts this one, or 0.
/// `entered` is the monitor's clock when the downtime was scheduled, in seconds.
///
/// ```
/// // fixed: gives a fixed plan from second 100 to second 200
/// let mut downtimes = Downtimes::new(alloc);
/// let id = downtimes.schedule(alloc, 50, 0, fixed(alloc)?);
/// assert_eq!(rt; id, Ok(1));
/// let Some(downtime) = downtimes.find(1) else {
///     return Err(Fail::new("the downtime is there"));
/// };
/// assert_eq!(rt; downtime.entered, 50);
/// assert_eq!(rt; downtime.fate, Fate::Pending);
/// ```
#[derive(Drop)]
pub struct Downtime {
    pub id: u64,
    pub object: u16,
    pub plan: Plan,
    pub entered: u64,
    pub fate: Fate,
}

//! The arguments of a downtime, the test of its times, and the record that a plan makes. Nothing here changes the list
//! of downtimes.
ghost use Rattle.std.specs.Prelude.{◌≡◌, None, ◌+◌, ◌<◌, ◌^◌, replicate, IfOk};
ghost use Rattle.std.specs.Option.{option_map};
ghost use Rattle.mon_downtime.specs.Records.{AreRecords};
ghost use Rattle.mon_downtime.specs.Schedule.{fault_by, refusal_by, new_record};

use crate::downtime::{Downtime, Fate};
use crate::records::find_record;
use cmd_types::{Memory, Text};
use std::alloc::Global;

/// The window, the kind, the trigger and the duration of a downtime (Scheduled Downtime). The test before the
/// scheduling reads these alone. The window and the duration are in seconds, at most
/// [`GREATEST_NUMBER`](cmd_types::GREATEST_NUMBER). `trigger_id` is the id of the downtime that starts this one, or 0.
///
/// ```
/// // fixed: gives a fixed plan from second 100 to second 200
/// let times = fixed(alloc)?.times;
/// assert_eq!(rt; (times.start_time, times.end_time), (100, 200));
/// ```
#[derive(Clone, Copy)]
pub struct Times {
    pub start_time: u64,
    pub end_time: u64,
    pub fixed: bool,
    pub trigger_id: u64,
    pub duration: u64,
}

/// The arguments of a downtime (Scheduled Downtime): its times, author and text.
///
/// ```
/// let times = Times {
///     start_time: 100,
///     end_time: 200,
///     fixed: true,
///     trigger_id: 0,
///     duration: 0,
/// };
/// let author = Text::new(Vec::from_slice(alloc, b"ann")?);
/// let text = Text::new(Vec::from_slice(alloc, b"move")?);
/// let plan = Plan {
///     times,
///     author,
///     text,
/// };
/// assert_eq!(rt; plan.copies(alloc, 2)?.len(), 2);
/// ```
#[derive(Drop)]
pub struct Plan {
    pub times: Times,
    pub author: Text,
    pub text: Text,
}

impl Plan {
    /// Makes a copy of the plan and of its texts.
    fn copy(&self, alloc: Global) -> Result<Plan, Memory>
        ensures { IfOk result (λ p. p ≡ self.now) }
    {
        let author = self.author.copy(alloc)?;
        let text = self.text.copy(alloc)?;
        Ok(Plan {
            times: self.times,
            author,
            text,
        })
    }

    /// Makes `count` copies of the plan and of its texts. If memory runs out, the copies are dropped.
    pub fn copies(&self, alloc: Global, count: usize) -> Result<Vec<Plan>, Memory>
        ensures { IfOk result (λ ps. ps.items ≡ replicate count self.now) }
    {
        let mut copies = Vec::new(alloc);
        for _ in 0..count {
            copies.push(self.copy(alloc)?)?;
        }
        Ok(copies)
    }
}

/// Why a downtime is not scheduled, in the order in which the causes are tested (profile).
///
/// ```
/// // fixed: gives a fixed plan from second 100 to second 200
/// let mut downtimes = Downtimes::new(alloc);
/// let refused = downtimes.schedule(alloc, 200, 0, fixed(alloc)?);
/// assert_eq!(rt; refused, Err(Refusal::PastWindow));
/// ```
#[derive(Clone, Copy, Debug, PartialEq, Eq)]
pub enum Refusal {
    /// The window ends at or before its start.
    BadWindow,
    /// The window ends at or before the clock.
    PastWindow,
    /// The downtime is flexible and its duration is 0.
    NoDuration,
    /// No downtime with the id of the trigger was ever scheduled.
    NoTrigger,
    /// The trigger is over.
    TriggerOver,
    /// Memory ran out.
    Memory,
}

/// The first cause for which a plan with these times is refused at this clock, in the order of [`Refusal`]; `None`
/// where there is no cause. Never [`Refusal::Memory`].
pub fn first_refusal(records: &[Downtime], clock: u64, times: &Times) -> Option<Refusal>
    requires { AreRecords 0 records.now }
    ensures { result ≡ option_map refusal_by (fault_by records.now clock times.now) }
{
    if times.end_time <= times.start_time {
        return Some(Refusal::BadWindow);
    }
    if times.end_time <= clock {
        return Some(Refusal::PastWindow);
    }
    if !times.fixed && times.duration == 0 {
        return Some(Refusal::NoDuration);
    }
    if times.trigger_id == 0 {
        return None;
    }
    match find_record(records, times.trigger_id) {
        None => Some(Refusal::NoTrigger),
        Some(trigger) => match trigger.fate {
            Fate::Over => Some(Refusal::TriggerOver),
            _ => None,
        },
    }
}

/// Makes the pending record of a plan, entered at this clock, with the id `before + 1`.
pub fn new_record(before: usize, clock: u64, object: u16, plan: Plan) -> Downtime
    requires { before + 1 < 2 ^ 64 }
    ensures { result ≡ new_record before clock object plan }
{
    Downtime {
        id: before as u64 + 1,
        object,
        plan,
        entered: clock,
        fate: Fate::Pending,
    }
}

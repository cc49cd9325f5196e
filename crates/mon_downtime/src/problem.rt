//! Finds the flexible downtime that a problem of an object starts; `keeping.rt` starts it. Nothing changes here.
ghost use Rattle.std.specs.Prelude.{◌≡◌};
ghost use Rattle.std.specs.Option.{option_copied};
ghost use Rattle.mon_downtime.specs.Records.{AreRecords};
ghost use Rattle.mon_downtime.specs.Problem.{waiting};
ghost use Rattle.mon_downtime.specs.Rings.{IsFirstOpen, is_open};
ghost use Rattle.mon_downtime.specs.Waiting.{AreWaiting, HaveOpened};

use crate::downtime::Downtime;
use crate::records::find_record;
use crate::waiting::Waiting;

/// Whether a downtime has this id and the clock is inside its window.
fn is_open(records: &[Downtime], id: u64, clock: u64) -> bool
    requires { AreRecords 0 records.now }
    ensures { result ≡ is_open records.now clock id }
{
    match find_record(records, id) {
        None => false,
        Some(d) => d.plan.times.start_time <= clock && clock < d.plan.times.end_time,
    }
}

/// The least id of a downtime that awaits problems of the object and whose window has begun and not ended at the clock,
/// or 0. Reads only the records in the object's ring, so that `open_by` is called before.
fn first_open(records: &[Downtime], wait: &Waiting, object: u16, clock: u64) -> u64
    requires records { AreRecords 0 records.now }
    requires waiting { AreWaiting records.now wait.now }
    requires opened { HaveOpened records.now wait.now clock }
    ensures { IsFirstOpen records.now object clock result }
{
    let mut id = wait.rings.at(object, 0).next;
    while id != 0 && !is_open(records, id, clock) {
        id = wait.rings.at(object, id).next;
    }
    id
}

/// The downtime of least id that waits for a problem of the object at this clock: it is pending and flexible, has no
/// trigger, and the clock is inside its window. `None` where there is no such downtime. Requires `open_by` at the clock.
pub fn first_waiting<'a>(
    records: &'a [Downtime],
    wait: &Waiting,
    object: u16,
    clock: u64,
) -> Option<&'a Downtime>
    requires records { AreRecords 0 records.now }
    requires waiting { AreWaiting records.now wait.now }
    requires opened { HaveOpened records.now wait.now clock }
    ensures { option_copied result ≡ waiting records.now object clock }
{
    find_record(records, first_open(records, wait, object, clock))
}

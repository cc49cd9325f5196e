//! The depth-first walk over a downtime and its dependants, which are all that depend on it through their triggers.
//! From each downtime the links lead to the last that it triggers; where it triggers none, to the one before it with
//! the same trigger, or before the nearest downtime above it. So the walk needs no stack and meets no downtime twice.
//! The walk does not go below a record that is marked as `all_over`: all dependants of that record are over. This file
//! cancels nothing: it returns ids, and `keeping.rt` changes the records.
ghost use Rattle.std.specs.Prelude.{◌≡◌, ◌<◌, ◌≤◌, true, length, unwrap_or, IfOk, IfSome};
ghost use Rattle.mon_downtime.specs.Records.{AreRecords, is_active};
ghost use Rattle.mon_downtime.specs.Cancel.{active_dependants, depends};
ghost use Rattle.mon_downtime.specs.Links.{AreLinked, AreMarked};
ghost use Rattle.mon_downtime.specs.Walk.{walked, GoesOn};

use crate::downtime::{Downtime, Fate};
use crate::links::{Link, latest_to_walk};
use cmd_types::Memory;
use std::alloc::Global;

/// The dependant of `id` that the walk reaches after `at`; `None` after the last one. Requires that `at` is `id` or one
/// of its dependants. Changes nothing and takes no memory.
pub fn next_dependant(records: &[Downtime], links: &[Link], id: u64, at: u64) -> Option<u64>
    requires records { AreRecords 0 records.now }
    requires links { AreLinked records.now links.now }
    requires id { 0 < id }
    requires within { at ≤ length records.now }
    requires depends { depends (walked records.now links.now) id at ≡ true }
    ensures walk { GoesOn (walked records.now links.now) id at (unwrap_or result 0) }
    ensures some { IfSome result (λ next. 0 < next) }
{
    let latest = latest_to_walk(links, at);
    if latest != 0 {
        return Some(latest);
    }
    let mut up = at;
    while up != id {
        let earlier = links[(up - 1) as usize].earlier;
        if earlier != 0 {
            return Some(earlier);
        }
        up = records[(up - 1) as usize].plan.times.trigger_id;
    }
    None
}

/// Whether a downtime is active.
fn is_active(d: &Downtime) -> bool
    ensures { result ≡ is_active d.now.fate }
{
    matches!(d.fate, Fate::Active { .. })
}

/// The ids of the active downtimes among `id` and its dependants, ascending. Only the result takes memory.
pub fn active_dependants(
    alloc: Global,
    records: &[Downtime],
    links: &[Link],
    id: u64,
) -> Result<Vec<u64>, Memory>
    requires records { AreRecords 0 records.now }
    requires links { AreLinked records.now links.now }
    requires marked { AreMarked records.now links.now }
    requires id { 0 < id }
    requires within { id ≤ length records.now }
    ensures { IfOk result (λ ids. ids.items ≡ active_dependants records.now id) }
{
    let mut ids = Vec::new(alloc);
    let mut next = Some(id);
    while let Some(at) = next {
        if is_active(&records[(at - 1) as usize]) {
            ids.push(at)?;
        }
        next = next_dependant(records, links, id, at);
    }
    ids.sort_unstable();
    Ok(ids)
}

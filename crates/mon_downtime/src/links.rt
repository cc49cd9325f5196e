//! The links from a record to the records that it triggers. A link names records by their ids. The records with the
//! same trigger are a linked list, from the greatest id down.
ghost use Rattle.std.specs.Prelude.{◌≡◌, ℕ, ◌+◌, ◌<◌, ◌≤◌, true, List, [], ◌∷◌, ◌++◌, length, vec_len, vec_capacity};
ghost use Rattle.mon_downtime.specs.declared.downtime.Downtime.{Downtime as ARecord};
ghost use Rattle.mon_downtime.specs.Records.{AreNumbered};
ghost use Rattle.mon_downtime.specs.Links.{IsLatest, AreLinked, AreAllOver, IsFree, is_marked, AreMarked};
ghost use Rattle.mon_downtime.specs.Walk.{walked};

use crate::downtime::Downtime;

/// The links of one record; an id is 0 where there is no such record. `latest` is the greatest id that the record
/// triggers, and `earlier` the next lower id with the same trigger as the record. `all_over` says that the record was
/// cancelled, so that all its dependants are over and no walk goes below it.
#[derive(Clone, Copy)]
pub struct Link {
    pub latest: u64,
    pub earlier: u64,
    pub all_over: bool,
}

/// Appends the link of a new record, and makes the record the first in the list of its trigger, if it has one. The
/// other links and all marks are unchanged. Requires the room that `keeping::reserve` makes, and a trigger that neither
/// is marked nor depends on a marked record. Takes no memory.
pub fn link_record(links: &mut Vec<Link>, records: &[Downtime], added: &Downtime)
    requires links { AreLinked records.now links.old.items }
    requires marked { AreMarked records.now links.old.items }
    requires records { AreNumbered 0 (records.now ++ added.now ∷ []) }
    requires free { IsFree records.now links.old.items added.now.plan.times.trigger_id }
    requires room { vec_len links.old < vec_capacity links.old }
    ensures links { AreLinked (records.now ++ added.now ∷ []) links.new.items }
    ensures marked { AreMarked (records.now ++ added.now ∷ []) links.new.items }
    ensures marks { (x : ℕ) → 0 < x → is_marked links.new.items x ≡ true → is_marked links.old.items x ≡ true }
    ensures room { vec_capacity links.new ≡ vec_capacity links.old }
{
    if added.plan.times.trigger_id == 0 {
        links.push_reserved(Link {
            latest: 0,
            earlier: 0,
            all_over: false,
        });
        return;
    }
    let at = (added.plan.times.trigger_id - 1) as usize;
    let trigger = links[at];
    links[at] = Link {
        latest: added.id,
        ..trigger
    };
    links.push_reserved(Link {
        latest: 0,
        earlier: trigger.latest,
        all_over: false,
    });
}

/// The greatest id that the record triggers; 0 where there is none, or where the record is marked as `all_over`.
pub fn latest_to_walk(links: &[Link], id: u64) -> u64
    requires there { (1 ≤ id) × (id ≤ length links.now) }
    ensures { (ds : List ARecord) → AreLinked ds links.now → IsLatest (walked ds links.now) id (length ds) result }
{
    let link = links[(id - 1) as usize];
    if link.all_over { 0 } else { link.latest }
}

/// Marks the record as one whose dependants are all over; no other field changes. Requires that its dependants are
/// over.
pub fn mark_all_over(links: &mut [Link], id: u64)
    requires there { (1 ≤ id) × (id ≤ length links.old) }
    ensures mark { is_marked links.new id ≡ true }
    ensures links { (ds : List ARecord) → AreLinked ds links.old → AreLinked ds links.new }
    ensures marked { (ds : List ARecord) → AreAllOver ds id → AreMarked ds links.old → AreMarked ds links.new }
{
    links[(id - 1) as usize].all_over = true;
}

//! Access to records by their ids: the record with the id n is the nth of the list.
ghost use Rattle.std.specs.Prelude.{◌≡◌, ◌≤◌, length};
ghost use Rattle.std.specs.Option.{option_copied};
ghost use Rattle.mon_downtime.specs.Records.{record_of, AreRecords, IsSmallFate, with_fate};

use crate::downtime::{Downtime, Fate};

/// The record with this id; `None` where the id is 0 or was never assigned.
pub fn find_record(records: &[Downtime], id: u64) -> Option<&Downtime>
    requires { AreRecords 0 records.now }
    ensures { option_copied result ≡ record_of records.now id }
{
    if id == 0 || id > records.len() as u64 {
        return None;
    }
    Some(&records[(id - 1) as usize])
}

/// Sets the fate of the record with this id. No other record changes; the caller updates the `RecordIndex`.
pub fn set_fate(records: &mut [Downtime], id: u64, fate: Fate)
    requires records { AreRecords 0 records.old }
    requires small { IsSmallFate fate }
    requires there { (1 ≤ id) × (id ≤ length records.old) }
    ensures set { records.new ≡ with_fate records.old id (λ _. fate) }
    ensures records { AreRecords 0 records.new }
{
    let d = &mut records[(id - 1) as usize];
    d.fate = fate;
}

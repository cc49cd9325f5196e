//! The downtimes ever scheduled, under a new inventory: each names the new index of its object; those of objects that
//! are gone are over. No downtime is removed, and no memory is taken.
ghost use Rattle.std.specs.Prelude.{◌≡◌, map};
ghost use Rattle.mon_carry.specs.Carried.{downtime_on, downtime_carried};

use crate::places::moved;
use mon_downtime::{Downtime, Fate};
use mon_inventory::Inventory;

/// Sets the object of a downtime to its new index `place`; where that is `None`, the object is gone, and the downtime
/// becomes over, at object 0. Its id, plan and time of entry are unchanged.
fn move_downtime(downtime: &mut Downtime, place: Option<u16>)
    ensures { downtime.new ≡ downtime_on downtime.old place }
{
    match place {
        Some(object) => downtime.object = object,
        None => {
            downtime.object = 0;
            downtime.fate = Fate::Over;
        }
    }
}

/// Sets the object of each downtime to its new index; where the object is gone, the downtime becomes over, at object 0.
/// The order and the ids are unchanged.
pub fn carry_downtimes(old: &Inventory, downtimes: &mut [Downtime], new: &Inventory)
    ensures { downtimes.new ≡ map (downtime_carried old.now.objects new.now.objects) downtimes.old }
{
    for downtime in downtimes.iter_mut() {
        let place = moved(old, new, downtime.object);
        move_downtime(downtime, place);
    }
}

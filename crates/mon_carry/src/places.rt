//! The indices that the objects of the old inventory have in the new one, by their names. Nothing here takes memory.
ghost use Rattle.std.specs.Prelude.{◌≡◌, ◌<◌, IfSome, length};
ghost use Rattle.mon_carry.specs.Names.{place_in, moved};

use mon_inventory::{Inventory, ObjectSpec};

/// The index in this inventory of the object with the same names; `None` where no object has them.
pub fn place_in(inventory: &Inventory, spec: &ObjectSpec) -> Option<u16>
    ensures place { result ≡ place_in inventory.now.objects spec.now }
    ensures within { IfSome result (λ k. k < length inventory.now.objects) }
{
    match &spec.service {
        None => inventory.host_of(spec.host.as_bytes()),
        Some(service) => inventory.service_of(spec.host.as_bytes(), service.as_bytes()),
    }
}

/// The index in the new inventory of the object with this index in the old one; `None` where the object is gone.
#[tactic(auto, unfolding(crate::specs::Names::moved))]
pub fn moved(old: &Inventory, new: &Inventory, object: u16) -> Option<u16>
    ensures { result ≡ moved old.now.objects new.now.objects object }
{
    match old.objects().get(object as usize) {
        None => None,
        Some(spec) => place_in(new, spec),
    }
}

//! The switches of the contacts under a new inventory. Contacts with the same name are the same; nothing else of a
//! contact is compared.
ghost use Rattle.std.specs.Prelude.{◌≡◌, IfOk, length, map};
ghost use Rattle.mon_carry.specs.Carried.{contact_carried};

use cmd_types::Memory;
use mon_inventory::{ContactSpec, Inventory};
use mon_notify::ContactSwitch;
use std::alloc::Global;

/// The switches that the old contact of the same name had; both are on where there was no such contact.
fn contact_carried(
    old: &Inventory,
    switches: &[ContactSwitch],
    contact: &ContactSpec,
) -> ContactSwitch
    requires { length switches.now ≡ length old.now.contacts }
    ensures { result ≡ contact_carried old.now.contacts switches.now contact.now }
{
    match old.contact_of(contact.name.as_bytes()) {
        None => ContactSwitch {
            host: true,
            service: true,
        },
        Some(index) => switches[index as usize],
    }
}

/// Makes the switches of all contacts of the new inventory, each at its index: the old switches where the name is in
/// both inventories, else both on. The only error is that memory ran out.
pub fn carry_contacts(
    alloc: Global,
    old: &Inventory,
    switches: &[ContactSwitch],
    new: &Inventory,
) -> Result<Vec<ContactSwitch>, Memory>
    requires { length switches.now ≡ length old.now.contacts }
    ensures { IfOk result (λ cs. cs.items ≡ map (contact_carried old.now.contacts switches.now) new.now.contacts) }
{
    let mut carried = Vec::new(alloc);
    for contact in new.contacts() {
        carried.push(contact_carried(old, switches, contact))?;
    }
    Ok(carried)
}

//! The switches of the program and of the contacts. Each `set_..` sets one switch and leaves the others unchanged.
ghost use Rattle.std.specs.Prelude.{◌≡◌, ◌<◌, IfOk, length, map};
ghost use Rattle.mon_engine.specs.Places.{changed_at};
ghost use Rattle.mon_engine.specs.World.{initial_contact};
ghost use Rattle.mon_engine.specs.Switches.{accepts, with_accepting, with_notifications, with_switch};

use crate::object::Kind;
use cmd_types::Memory;
use mon_inventory::{ContactSpec, Inventory};
use mon_notify::ContactSwitch;
use std::alloc::Global;

/// The switches of the whole program: whether notices go out, and whether passive check results of hosts and of
/// services are accepted.
///
/// ```
/// // INVENTORY: the text of an inventory with the host web
/// let inventory = Inventory::parse(alloc, INVENTORY)?;
/// let monitor = Monitor::new(alloc, inventory)?;
/// let program = monitor.program();
/// assert!(rt; program.notifications && program.passive_host && program.passive_service);
/// ```
#[derive(Clone, Copy)]
pub struct Program {
    pub notifications: bool,
    pub passive_host: bool,
    pub passive_service: bool,
}

/// Whether the program accepts passive check results of this kind of object.
pub fn accepts(program: Program, kind: Kind) -> bool
    ensures { result ≡ accepts program kind }
{
    match kind {
        Kind::Host => program.passive_host,
        Kind::Service => program.passive_service,
    }
}

/// Turns the program's notifications on or off; the other switches are unchanged.
pub fn set_notifications(program: &mut Program, on: bool)
    ensures { program.new ≡ with_notifications on program.old }
{
    program.notifications = on;
}

/// Sets whether the program accepts passive check results of this kind of object; the other switches are unchanged.
pub fn set_accepting(program: &mut Program, kind: Kind, on: bool)
    ensures { program.new ≡ with_accepting kind on program.old }
{
    match kind {
        Kind::Host => program.passive_host = on,
        Kind::Service => program.passive_service = on,
    }
}

/// Sets whether the contact at this index is notified of this kind of object; the other switches are unchanged.
pub fn set_switch(switches: &mut Vec<ContactSwitch>, contact: u16, kind: Kind, on: bool)
    requires { contact < length switches.old.items }
    ensures { switches.new.items ≡ changed_at switches.old.items contact (with_switch kind on) }
{
    let switch = &mut switches[contact as usize];
    match kind {
        Kind::Host => switch.host = on,
        Kind::Service => switch.service = on,
    }
}

/// Makes the switches of a contact before the first entry: both are on.
fn first_contact(_contact: &ContactSpec) -> ContactSwitch
    ensures { result ≡ initial_contact _contact.now }
{
    ContactSwitch {
        host: true,
        service: true,
    }
}

/// Makes the switches of all contacts before the first entry, each at its index: both are on. If memory runs out, the
/// switches are dropped.
pub fn first_contacts(alloc: Global, inventory: &Inventory) -> Result<Vec<ContactSwitch>, Memory>
    ensures { IfOk result (λ cs. cs.items ≡ map initial_contact inventory.now.contacts) }
{
    let mut contacts = Vec::new(alloc);
    for contact in inventory.contacts() {
        contacts.push(first_contact(contact))?;
    }
    Ok(contacts)
}

//! Looks up the contact or the object that a command names in the inventory, once for each command. Nothing is changed
//! and no memory is taken.
ghost use Rattle.std.specs.Prelude.{◌≡◌};
ghost use Rattle.cmd_types.specs.Arguments.{shown_names};
ghost use Rattle.mon_inventory.specs.Lookups.{host_of};
ghost use Rattle.mon_engine.specs.Names.{contact_index, host_index, service_index, index, Finds, IsContact, IsObject, why_none};

use crate::outcome::Reason;
use cmd_types::{Names, Text};
use mon_inventory::Inventory;

/// The target of a command: the contact, the host or the service that it names, as an index in the inventory.
#[derive(Clone, Copy)]
pub enum FoundTarget {
    /// The command names no contact and no object: it is for the program, or for a comment or a downtime by its id.
    Program,
    /// The contact at this index.
    Contact(u16),
    /// The host or the service at this index.
    Object(u16),
}

impl FoundTarget {
    /// The index of the contact. Requires that the target is a contact.
    pub fn contact(self) -> u16
        requires { IsContact self }
        ensures { result ≡ index self }
    {
        match self {
            FoundTarget::Contact(contact) => contact,
            // Never reached, by the `requires`. One type for all targets costs this arm, and has a command's names
            // looked up in one place.
            _ => unreachable!(),
        }
    }

    /// The index of the host or the service. Requires that the target is an object.
    pub fn object(self) -> u16
        requires { IsObject self }
        ensures { result ≡ index self }
    {
        match self {
            FoundTarget::Object(object) => object,
            // Never reached, as above.
            _ => unreachable!(),
        }
    }
}

/// The index of the host of this name, or `UnknownHost`.
fn host_index(inventory: &Inventory, host: &Text) -> Result<u16, Reason>
    ensures { result ≡ host_index inventory.now host.now }
{
    match inventory.host_of(host.as_bytes()) {
        None => Err(Reason::UnknownHost),
        Some(index) => Ok(index),
    }
}

/// The reason why a service was not found: `UnknownHost` where the inventory has no such host, else `UnknownService`.
/// Only a rejected command looks up its host a second time here.
fn no_service(inventory: &Inventory, host: &Text) -> Reason
    ensures { result ≡ why_none (host_of inventory.now.objects host.now) }
{
    match inventory.host_of(host.as_bytes()) {
        None => Reason::UnknownHost,
        Some(_) => Reason::UnknownService,
    }
}

/// The index of the service of this name on this host, or the reason that `no_service` returns.
fn service_index(inventory: &Inventory, host: &Text, service: &Text) -> Result<u16, Reason>
    ensures { result ≡ service_index inventory.now host.now service.now }
{
    match inventory.service_of(host.as_bytes(), service.as_bytes()) {
        None => Err(no_service(inventory, host)),
        Some(index) => Ok(index),
    }
}

/// The index of the contact of this name, or `UnknownContact`.
fn contact_index(inventory: &Inventory, contact: &Text) -> Result<u16, Reason>
    ensures { result ≡ contact_index inventory.now contact.now }
{
    match inventory.contact_of(contact.as_bytes()) {
        None => Err(Reason::UnknownContact),
        Some(index) => Ok(index),
    }
}

/// Looks up the names in a command and returns its target, or the reason of a rejection where the inventory lacks a
/// name.
pub fn find(inventory: &Inventory, names: Names<'_>) -> Result<FoundTarget, Reason>
    ensures { Finds inventory.now (shown_names names.entry) result }
{
    match names {
        Names::None => Ok(FoundTarget::Program),
        Names::Contact(contact) => Ok(FoundTarget::Contact(contact_index(inventory, contact)?)),
        Names::Host(host) => Ok(FoundTarget::Object(host_index(inventory, host)?)),
        Names::Service { host, service } => {
            Ok(FoundTarget::Object(service_index(inventory, host, service)?))
        }
    }
}

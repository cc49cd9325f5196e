//! The records of an inventory in lists, with maps from names to indices, and with the services and escalations of each
//! object. A look-up changes nothing and takes no memory; only the look-up of an option walks over a list.
ghost use Rattle.std.specs.Prelude.{◌≡◌, ◌<◌, IfSome, length};
ghost use Rattle.mon_inventory.specs.Lookups.{contact_of, host_of, service_at, service_by, service_of, services_of, escalations_of};
ghost use Rattle.mon_inventory.specs.Configuration.{nothing, said_of, directives_at};
ghost use Rattle.mon_inventory.specs.Index.{configuration, IsIndexed};

use crate::names::NameIndex;
use crate::records::{ContactSpec, Directives, Escalation, NO_DIRECTIVES, ObjectSpec, OptionSpec};
use cmd_types::Numbers;
use std::alloc::Global;

/// The records of an inventory, the maps from their names to their indices, and the services and escalations of each
/// object.
pub struct Index {
    pub contacts: Vec<ContactSpec>,
    pub contact_names: NameIndex,
    pub objects: Vec<ObjectSpec>,
    pub host_names: NameIndex,
    /// For each object, the indices of its services by their names; an empty map for a service.
    pub service_names: Vec<NameIndex>,
    /// For each object, the indices of its services, ascending.
    pub services: Vec<Numbers>,
    pub escalations: Vec<Escalation>,
    /// For each object, the indices of its escalations, ascending.
    pub object_escalations: Vec<Numbers>,
    pub options: Vec<OptionSpec>,
    /// For each object, its directives.
    pub directives: Vec<Directives>,
    /// The seconds to settle; `None` where no line sets them.
    pub settle: Option<u64>,
}

// Written by hand, so that each exit of a caller drops an index by one call, and not field by field.
impl Drop for Index {
    fn drop(self) {
        let Index {
            contacts: _,
            contact_names: _,
            objects: _,
            host_names: _,
            service_names: _,
            services: _,
            escalations: _,
            object_escalations: _,
            options: _,
            directives: _,
            settle: _,
        } = self;
    }
}

impl Index {
    /// Makes an index without records. Takes no memory.
    pub fn new(alloc: Global) -> Index
        ensures indexed { IsIndexed result }
        ensures nothing { configuration result ≡ nothing }
    {
        Index {
            contacts: Vec::new(alloc),
            contact_names: NameIndex::new(alloc),
            objects: Vec::new(alloc),
            host_names: NameIndex::new(alloc),
            service_names: Vec::new(alloc),
            services: Vec::new(alloc),
            escalations: Vec::new(alloc),
            object_escalations: Vec::new(alloc),
            options: Vec::new(alloc),
            directives: Vec::new(alloc),
            settle: None,
        }
    }

    /// The index that the map of contact names has for this name; `None` where there is no such contact.
    pub fn contact_of(&self, name: &[u8]) -> Option<u16>
        requires { IsIndexed self.now }
        ensures { result ≡ contact_of self.now.contacts.items name.now }
    {
        self.contact_names.get(name)
    }

    /// The object index that the map of host names has for this name; `None` where there is no such host.
    pub fn host_of(&self, name: &[u8]) -> Option<u16>
        requires { IsIndexed self.now }
        ensures index { result ≡ host_of self.now.objects.items name.now }
        ensures within { IfSome result (λ h. h < length self.now.objects.items) }
    {
        self.host_names.get(name)
    }

    /// The index of the service of this name on the host at the index `host`; `None` where there is no such host or
    /// service.
    pub fn service_at(&self, host: u16, name: &[u8]) -> Option<u16>
        requires { IsIndexed self.now }
        ensures { result ≡ service_at self.now.objects.items host name.now }
    {
        match self.service_names.get(host as usize) {
            Some(names) => names.get(name),
            None => None,
        }
    }

    /// The indices of the services of the object at the index `host`, ascending; empty for a service. Requires that
    /// `host` is below the number of objects.
    pub fn services_of(&self, host: u16) -> &[u16]
        requires indexed { IsIndexed self.now }
        requires within { host < length self.now.objects.items }
        ensures { result.now ≡ services_of self.now.objects.items host }
    {
        self.services[host as usize].as_slice()
    }

    /// The index of the service of this name on a host that was looked up; `None` where the host was not found or has
    /// no such service.
    pub fn service_by(&self, host: Option<u16>, name: &[u8]) -> Option<u16>
        requires { IsIndexed self.now }
        ensures { result ≡ service_by self.now.objects.items host name.now }
    {
        self.service_at(host?, name)
    }

    /// The index of the service of this name on the host of that name; `None` where there is no such host or service.
    pub fn service_of(&self, host: &[u8], name: &[u8]) -> Option<u16>
        requires { IsIndexed self.now }
        ensures { result ≡ service_of self.now.objects.items host.now name.now }
    {
        self.service_by(self.host_of(host), name)
    }

    /// Whether a line turns the option of this name on or off; `None` where no line sets it. Walks over the options.
    pub fn said_of(&self, name: &[u8]) -> Option<bool>
        ensures { result ≡ said_of self.now.options.items name.now }
    {
        for option in &self.options {
            if option.name.as_bytes() == name {
                return Some(option.on);
            }
        }
        None
    }

    /// The directives of an object that was looked up; [`NO_DIRECTIVES`] where it was not found.
    pub fn directives_at(&self, object: Option<u16>) -> Directives
        ensures { result ≡ directives_at (configuration self.now) object }
    {
        let Some(object) = object else {
            return NO_DIRECTIVES;
        };
        match self.directives.get(object as usize) {
            Some(directives) => *directives,
            None => NO_DIRECTIVES,
        }
    }

    /// The indices of the escalations of the object at the index `object`, ascending. Requires that `object` is below
    /// the number of objects.
    pub fn escalations_of(&self, object: u16) -> &[u16]
        requires indexed { IsIndexed self.now }
        requires within { object < length self.now.objects.items }
        ensures { result.now ≡ escalations_of self.now.escalations.items object }
    {
        self.object_escalations[object as usize].as_slice()
    }
}

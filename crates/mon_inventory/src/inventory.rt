//! An inventory that was read: its records, and the look-ups by name and by index. Nothing changes after `parse`, and
//! no look-up takes memory.
ghost use Rattle.std.specs.Prelude.{◌≡◌, ◌≢◌, ◌<◌, ℕ, IsTrue, IfOk, IfErr, IfSome, length, slice_get, Some};
ghost use Rattle.std.specs.List.{filter, filter_map};
ghost use Rattle.mon_inventory.specs.Lists.{StandsAt, AreExactly};
ghost use Rattle.cmd_types.specs.TextLines.{split_lines};
ghost use Rattle.mon_inventory.specs.Lookups.{contact_of, host_of, service_of, services_of, escalations_of, IsContactNamed, IsOptionOn, IsHostNamed, IsServiceNamed, IsServiceOf, IsEscalationOf, is_escalation_of};
ghost use Rattle.mon_inventory.specs.Configuration.{directives_at, inventory, option_is_on, passive_hosts_soft, recovers_the_told, tells_by_clock};
ghost use Rattle.mon_inventory.specs.Facts.{IsInventory, IsObject, AreSeconds, AreDirectives};
ghost use Rattle.mon_inventory.specs.Order.{AreInOrder, GrowsTo};
ghost use Rattle.mon_inventory.specs.Read.{HasNoFault, IsFirstFault, Reads};

use crate::fault::{Cause, InventoryFault};
use crate::guesses::Guesses;
use crate::index::Index;
use crate::parse::index_of;
use crate::records::{ContactSpec, Directives, Escalation, ObjectSpec};
use std::alloc::Global;
use std::marker::Model;

/// The contacts, objects (hosts and services) and escalations of an inventory text, each with its index, from 0 in
/// order of the lines, and its options (profile).
///
/// No look-up takes memory, and none walks over all objects: a name is found in a map, and the services and escalations
/// of an object are listed at its index.
///
/// ```
/// // FIVE_LINES: two contacts, the host web, its service http and an escalation of http to bob
/// let inventory = Inventory::parse(alloc, FIVE_LINES)?;
/// assert_eq!(rt; inventory.object_count(), 2);
/// assert_eq!(rt; inventory.host_of(b"web"), Some(0));
/// assert_eq!(rt; inventory.service_of(b"web", b"http"), Some(1));
/// assert_eq!(rt; inventory.contact_of(b"bob"), Some(1));
/// ```
pub struct Inventory {
    index: Index,
    guesses: Guesses,
}

impl Model for Inventory {
    ghost use Rattle.mon_inventory.specs.Configuration.{Configuration};

    ghost Value = { Configuration };

    ghost use Rattle.mon_inventory.specs.Index.{configuration, IsWhole};

    ghost view = { λ a. configuration a.index };

    ghost invariant = { λ a. IsWhole a.index };
}

// Written by hand, so that each exit of a caller drops an inventory by one call, and not field by field.
impl Drop for Inventory {
    fn drop(self) {
        let Inventory {
            index: _,
            guesses: _,
        } = self;
    }
}

/// Whether `object` is the host of this name.
fn is_host(object: &ObjectSpec, name: &[u8]) -> bool
    ensures { IsTrue result → IsHostNamed name.now object.now }
{
    match &object.service {
        Some(_) => false,
        None => object.host.as_bytes() == name,
    }
}

/// Whether `object` is the service `name` of the host of that name.
fn is_service(object: &ObjectSpec, host: &[u8], name: &[u8]) -> bool
    ensures { IsTrue result → IsServiceNamed host.now name.now object.now }
{
    match &object.service {
        Some(service) => service.as_bytes() == name && object.host.as_bytes() == host,
        None => false,
    }
}

impl Inventory {
    /// Reads an inventory from its text, or returns the first line with a fault and the first cause of that fault
    /// (profile). Each line defines a contact, a host, a service or an escalation, or sets an option, the seconds to
    /// settle or a directive of a host or service. It refers to earlier lines only, and sets nothing that an earlier
    /// line sets. Empty lines, and carriage returns at the end of a line, are skipped.
    ///
    /// ```text
    /// contact;NAME;HOST OPTIONS;SERVICE OPTIONS
    /// host;NAME;MAX;INTERVAL;OPTIONS;CONTACTS
    /// service;HOST;DESCRIPTION;MAX;INTERVAL;OPTIONS;CONTACTS
    /// escalation;HOST;DESCRIPTION or empty;FIRST;LAST;INTERVAL;OPTIONS;CONTACTS
    /// option;passive_host_checks_are_soft;0 or 1
    /// option;tell_by_clock;0 or 1
    /// option;recover_the_told;0 or 1
    /// settle;SECONDS
    /// delay;HOST;DESCRIPTION or empty;SECONDS
    /// volatile;HOST;DESCRIPTION
    /// ```
    ///
    /// OPTIONS are letters and CONTACTS are names, each joined by commas, or nothing. The letters are d, u, r, s for a
    /// host and w, u, c, r, s for a service; an escalation has no s. MAX is at least 1. INTERVAL is in seconds, 0 for
    /// no further notice. FIRST and LAST are notification numbers; a LAST of 0 is no bound. SECONDS is at least 1: in
    /// `delay`, the first notification delay of the object; in `settle`, how long results are awaited before the first
    /// notice of an object once what stands above it came back. Each bad result of a `volatile` service is notified.
    ///
    /// With [`Cause::Memory`](crate::Cause::Memory) the line of the fault is not empty, and neither this line nor a
    /// line before it has another fault. The time is linear in the length of the text.
    pub fn parse(alloc: Global, text: &[u8]) -> Result<Inventory, InventoryFault>
        ensures read { Reads (λ x. x) result (inventory text.now) }
        ensures first_fault { IfErr result (λ f. f.cause ≢ Cause.Memory → IsFirstFault (split_lines text.now) f.line f.cause) }
        // `Cause::Memory` is returned only where no line so far has another fault.
        ensures memory { IfErr result (λ f. f.cause ≡ Cause.Memory → HasNoFault (split_lines text.now) f.line) }
        ensures sound { IfOk result IsInventory }
        ensures in_order { IfOk result (λ i. AreInOrder (split_lines text.now) i) }
        ensures grows { IfOk result (λ i. (count : ℕ) → GrowsTo (split_lines text.now) count i) }
    {
        let index = index_of(alloc, text)?;
        let guesses = Guesses::new(alloc, &index.objects);
        Ok(Inventory { index, guesses })
    }

    /// Whether passive check results leave a host in a soft state below its `max_check_attempts`
    /// (`passive_host_checks_are_soft`); false where no line sets the option.
    pub fn passive_hosts_soft(&self) -> bool
        ensures { result ≡ passive_hosts_soft self.now }
    {
        self.is_on(b"passive_host_checks_are_soft".as_slice())
    }

    /// Whether a problem is notified with any entry, as soon as nothing holds its notice back (`tell_by_clock`,
    /// profile); false where no line sets the option, and then only a check result notifies a problem.
    pub fn tells_by_clock(&self) -> bool
        ensures { result ≡ tells_by_clock self.now }
    {
        self.is_on(b"tell_by_clock".as_slice())
    }

    /// Whether the end of a problem goes to those contacts that were notified of the problem (`recover_the_told`,
    /// profile); false where no line sets the option, and then it goes to those whom the number and the letter r reach.
    pub fn recovers_the_told(&self) -> bool
        ensures { result ≡ recovers_the_told self.now }
    {
        self.is_on(b"recover_the_told".as_slice())
    }

    /// Whether the option of this name is on; false where no line sets it or there is no such option (profile). Takes
    /// no memory.
    pub fn is_on(&self, option: &[u8]) -> bool
        ensures value { result ≡ option_is_on self.now option.now }
        ensures found { IsTrue result → (n : ℕ) × StandsAt (IsOptionOn option.now) self.now.options n }
    {
        self.index.said_of(option).unwrap_or(false)
    }

    /// The index of the contact of this name; `None` where there is no such contact.
    pub fn contact_of(&self, name: &[u8]) -> Option<u16>
        ensures index { result ≡ contact_of self.now.contacts name.now }
        ensures found { IfSome result (λ c. StandsAt (IsContactNamed name.now) self.now.contacts c) }
    {
        self.index.contact_of(name)
    }

    /// The guessed index for the name, if the object at this index is really the host of this name; `None` otherwise.
    fn guessed_host(&self, name: &[u8]) -> Option<u16>
        ensures { IfSome result (λ h. StandsAt (IsHostNamed name.now) self.now.objects h) }
    {
        let guess = self.guesses.at(name, b"")?;
        let object = self.index.objects.get(guess as usize)?;
        is_host(object, name).then_some(guess)
    }

    /// The guessed index for the names, if the object at this index is really the service of these names; `None`
    /// otherwise.
    fn guessed_service(&self, host: &[u8], service: &[u8]) -> Option<u16>
        ensures { IfSome result
            (λ s. StandsAt (IsServiceNamed host.now service.now) self.now.objects s) }
    {
        let guess = self.guesses.at(host, service)?;
        let object = self.index.objects.get(guess as usize)?;
        is_service(object, host, service).then_some(guess)
    }

    /// The index of the host of this name among the objects; `None` where there is no such host.
    pub fn host_of(&self, name: &[u8]) -> Option<u16>
        ensures index { result ≡ host_of self.now.objects name.now }
        ensures found { IfSome result (λ h. StandsAt (IsHostNamed name.now) self.now.objects h) }
    {
        // The map of names is read only where the guess fails.
        match self.guessed_host(name) {
            Some(host) => Some(host),
            None => self.index.host_of(name),
        }
    }

    /// The index of the service with this description on the host of that name; `None` where there is no such host or
    /// service.
    pub fn service_of(&self, host: &[u8], service: &[u8]) -> Option<u16>
        ensures index { result ≡ service_of self.now.objects host.now service.now }
        ensures found { IfSome result
            (λ s. StandsAt (IsServiceNamed host.now service.now) self.now.objects s) }
        ensures its_host { IfSome result (λ s. StandsAt
            (λ o. host_of self.now.objects host.now ≡ Some o.host_object) self.now.objects s) }
    {
        // The maps of names are read only where the guess fails.
        match self.guessed_service(host, service) {
            Some(service) => Some(service),
            None => self.index.service_of(host, service),
        }
    }

    /// All objects, in order of their indices.
    pub fn objects(&self) -> &[ObjectSpec]
        ensures value { result.now ≡ self.now.objects }
        ensures sound { IsInventory self.now }
    {
        &self.index.objects
    }

    /// All contacts, in order of their indices.
    pub fn contacts(&self) -> &[ContactSpec]
        ensures { result.now ≡ self.now.contacts }
    {
        &self.index.contacts
    }

    /// The number of objects (hosts and services together): at most [`MOST_OBJECTS`](crate::MOST_OBJECTS).
    pub fn object_count(&self) -> u16
        ensures count { result ≡ length self.now.objects }
        ensures sound { IsInventory self.now }
    {
        self.index.objects.len() as u16
    }

    /// The number of contacts: at most [`MOST_CONTACTS`](crate::MOST_CONTACTS).
    pub fn contact_count(&self) -> u16
        ensures count { result ≡ length self.now.contacts }
        ensures sound { IsInventory self.now }
    {
        self.index.contacts.len() as u16
    }

    /// The object at this index. Requires that the index is below `object_count()`.
    pub fn object(&self, object: u16) -> &ObjectSpec
        requires { object < length self.now.objects }
        ensures value { slice_get self.now.objects object ≡ Some result.now }
        ensures sound { IsObject (length self.now.contacts) self.now.objects object result.now }
    {
        &self.index.objects[object as usize]
    }

    /// The directives of the object at this index. Requires that the index is below `object_count()`.
    pub fn directives(&self, object: u16) -> Directives
        requires { object < length self.now.objects }
        ensures value { slice_get self.now.directives object ≡ Some result }
        ensures at { result ≡ directives_at self.now (Some object) }
        ensures sound { AreDirectives result }
    {
        self.index.directives[object as usize]
    }

    /// The seconds to settle, at least 1: how long results are awaited before the first notice of an object once what
    /// stands above it came back (`settle`, profile); `None` where no line sets them.
    pub fn settle(&self) -> Option<u64>
        ensures value { result ≡ self.now.settle }
        ensures sound { AreSeconds result }
    {
        self.index.settle
    }

    /// The contact at this index. Requires that the index is below `contact_count()`.
    pub fn contact(&self, contact: u16) -> &ContactSpec
        requires { contact < length self.now.contacts }
        ensures { slice_get self.now.contacts contact ≡ Some result.now }
    {
        &self.index.contacts[contact as usize]
    }

    /// The indices of the services of the host at the index `host`, ascending; empty for a service. Requires that
    /// `host` is below `object_count()`.
    pub fn services_of(&self, host: u16) -> &[u16]
        requires { host < length self.now.objects }
        ensures value { result.now ≡ services_of self.now.objects host }
        ensures exactly { AreExactly (IsServiceOf host) self.now.objects result.now }
    {
        self.index.services_of(host)
    }

    /// All escalations, in order of their lines: at most [`MOST_ESCALATIONS`](crate::MOST_ESCALATIONS).
    pub fn escalations(&self) -> &[Escalation]
        ensures value { result.now ≡ self.now.escalations }
        ensures sound { IsInventory self.now }
    {
        &self.index.escalations
    }

    /// The indices in `escalations()` of the escalations of the object at the index `object`, ascending. Requires that
    /// `object` is below `object_count()`.
    pub fn escalations_of(&self, object: u16) -> &[u16]
        requires { object < length self.now.objects }
        ensures value { result.now ≡ escalations_of self.now.escalations object }
        ensures exactly { AreExactly (IsEscalationOf object) self.now.escalations result.now }
        ensures in_order { filter_map (slice_get self.now.escalations) result.now
            ≡ filter (is_escalation_of object) self.now.escalations }
    {
        self.index.escalations_of(object)
    }
}

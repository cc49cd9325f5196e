//! Adds to an index the record that a line without a fault defines, or sets what it sets. The only error is that memory
//! ran out (`Cause::Memory`): a call that changes the index may then leave a part of the record in it, and the caller
//! drops the index.
ghost use Rattle.std.specs.Prelude.{◌≡◌, ◌≢◌, [], ◌∷◌, ◌++◌, None, Some, get_or, set, ◌<◌, IfOk, IfErr, OnOk, length, unwrap_or};
ghost use Rattle.mon_inventory.specs.Configuration.{contacts_named, object_named, contact_made, host_made, service_made, escalation_made, with_form};
ghost use Rattle.mon_inventory.specs.Names.{named};
ghost use Rattle.mon_inventory.specs.Index.{configuration, AddsObject, IsIndexed};
ghost use Rattle.mon_inventory.specs.Seen.{seen_contact, seen_host, seen_service, seen_escalation, seen_option, seen_settle, seen_delay, seen_volatile, seen, found_by, IsFine};
ghost use Rattle.mon_inventory.specs.Lookups.{host_of};

use crate::fault::Cause;
use crate::fields::{is_on, value_of};
use crate::form::{
    ContactForm, DelayForm, EscalationForm, Form, HostForm, OptionForm, ServiceForm, SettleForm,
    VolatileForm,
};
use crate::index::Index;
use crate::items::first_item;
use crate::letters::letters_named;
use crate::names::NameIndex;
use crate::outer_faults::KnownNames;
use crate::records::{ContactSpec, Escalation, NO_DIRECTIVES, ObjectSpec, OptionSpec};
use cmd_types::{Numbers, Text, cut};
use indexmap::IndexSet;
use std::alloc::Global;

/// Copies bytes into a new `Text`.
fn text(alloc: Global, bytes: &[u8]) -> Result<Text, Cause>
    ensures ok { IfOk result (λ t. t ≡ bytes.now) }
    ensures err { IfErr result (λ e. e ≡ Cause.Memory) }
{
    Ok(Text::from_slice(alloc, bytes)?)
}

/// Makes the contact that a line defines.
fn contact_spec(alloc: Global, contact: &ContactForm<'_>) -> Result<ContactSpec, Cause>
    ensures ok { IfOk result (λ c. c ≡ contact_made contact.now.name.now contact.now.host_options.now contact.now.service_options.now) }
    ensures err { IfErr result (λ e. e ≡ Cause.Memory) }
{
    Ok(ContactSpec {
        name: text(alloc, contact.name)?,
        host_letters: letters_named(contact.host_options),
        service_letters: letters_named(contact.service_options),
    })
}

/// Appends `member`, the index of a service or an escalation, to the list of `object`.
fn add_to_object(
    alloc: Global,
    lists: &mut Vec<Numbers>,
    object: u16,
    member: u16,
) -> Result<(), Cause>
    requires { object < length lists.old.items }
    ensures ok { OnOk result (lists.new.items ≡
        set lists.old.items object (get_or lists.old.items object [] ++ member ∷ [])) }
    ensures err { IfErr result (λ e. e ≡ Cause.Memory) }
{
    let own = &mut lists[object as usize];
    own.push(alloc, member)?;
    Ok(())
}

/// Adds the name of a new service, with its index `object`, to the names of its host.
fn add_service_name(
    alloc: Global,
    services: &mut Vec<NameIndex>,
    host: u16,
    name: &[u8],
    object: u16,
) -> Result<(), Cause>
    requires within { host < length services.old.items }
    requires absent { named (get_or services.old.items host []) name.now ≡ None }
    ensures ok { OnOk result (services.new.items ≡
        set services.old.items host (get_or services.old.items host [] ++ (name.now, object) ∷ [])) }
    ensures err { IfErr result (λ e. e ≡ Cause.Memory) }
{
    let names = &mut services[host as usize];
    names.add(alloc, name, object)
}

impl Index {
    /// The indices of the contacts that a comma list names, each once, in order of first mention; a name of no contact
    /// is skipped. Collects them in `contacts`, an empty set in which a repeated contact is found in constant time.
    fn collect_contacts(
        &self,
        alloc: Global,
        contacts: &mut IndexSet<u16>,
        text: &[u8],
    ) -> Result<Numbers, Cause>
        requires indexed { IsIndexed self.now }
        requires empty { contacts.old.keys ≡ [] }
        ensures ok { IfOk result (λ x. x ≡ contacts_named (configuration self.now) text.now) }
        ensures err { IfErr result (λ e. e ≡ Cause.Memory) }
    {
        let mut rest = first_item(text);
        'names: while let Some(names) = rest {
            let (name, after) = cut(b',', names);
            if let Some(contact) = self.contact_of(name) {
                contacts.insert(contact)?;
            }
            rest = after;
        }
        Ok(Numbers::new(Vec::from_slice(alloc, contacts.as_slice())?))
    }

    /// The indices of the contacts that a comma list names, each once, in order of first mention. Makes the set for
    /// `collect_contacts`.
    fn contacts_named(&self, alloc: Global, text: &[u8]) -> Result<Numbers, Cause>
        requires { IsIndexed self.now }
        ensures ok { IfOk result (λ x. x ≡ contacts_named (configuration self.now) text.now) }
        ensures err { IfErr result (λ e. e ≡ Cause.Memory) }
    {
        let mut contacts = IndexSet::new(alloc);
        self.collect_contacts(alloc, &mut contacts, text)
    }

    /// Makes the host that a line defines, which will have the next index.
    fn host_spec(&self, alloc: Global, host: &HostForm<'_>) -> Result<ObjectSpec, Cause>
        requires indexed { IsIndexed self.now }
        requires fine { IsFine (configuration self.now) (seen_host host.now) }
        ensures ok { IfOk result (λ o. o ≡ host_made (configuration self.now)
            host.now.name.now host.now.max.now host.now.interval.now host.now.options.now host.now.contacts.now) }
        ensures err { IfErr result (λ e. e ≡ Cause.Memory) }
    {
        Ok(ObjectSpec {
            host: text(alloc, host.name)?,
            service: None,
            host_object: self.objects.len() as u16,
            max: value_of(host.max),
            interval: value_of(host.interval),
            letters: letters_named(host.options),
            contacts: self.contacts_named(alloc, host.contacts)?,
        })
    }

    /// Makes the service that a line defines; `host` is the index of its host.
    fn service_spec(
        &self,
        alloc: Global,
        service: &ServiceForm<'_>,
        host: u16,
    ) -> Result<ObjectSpec, Cause>
        requires indexed { IsIndexed self.now }
        requires fine { IsFine (configuration self.now) (seen_service service.now) }
        requires host { host ≡ unwrap_or (host_of self.now.objects.items service.now.host.now) 0 }
        ensures ok { IfOk result (λ o. o ≡ service_made (configuration self.now) service.now.host.now
            service.now.name.now service.now.max.now service.now.interval.now service.now.options.now service.now.contacts.now) }
        ensures err { IfErr result (λ e. e ≡ Cause.Memory) }
    {
        Ok(ObjectSpec {
            host: text(alloc, service.host)?,
            service: Some(text(alloc, service.name)?),
            host_object: host,
            max: value_of(service.max),
            interval: value_of(service.interval),
            letters: letters_named(service.options),
            contacts: self.contacts_named(alloc, service.contacts)?,
        })
    }

    /// Makes the escalation that a line defines; `object` is the index of the host or service whose notices escalate.
    fn escalation(
        &self,
        alloc: Global,
        escalation: &EscalationForm<'_>,
        object: u16,
    ) -> Result<Escalation, Cause>
        requires indexed { IsIndexed self.now }
        requires fine { IsFine (configuration self.now) (seen_escalation escalation.now) }
        requires object { object ≡ object_named (configuration self.now) escalation.now.host.now escalation.now.service.now }
        ensures ok { IfOk result (λ e. e ≡ escalation_made (configuration self.now) escalation.now.host.now
            escalation.now.service.now escalation.now.first.now escalation.now.last.now escalation.now.interval.now
            escalation.now.options.now escalation.now.contacts.now) }
        ensures err { IfErr result (λ e. e ≡ Cause.Memory) }
    {
        Ok(Escalation {
            object,
            first: value_of(escalation.first),
            last: value_of(escalation.last),
            interval: value_of(escalation.interval),
            letters: letters_named(escalation.options),
            contacts: self.contacts_named(alloc, escalation.contacts)?,
        })
    }

    /// Appends an object, with no services, escalations and directives yet. The maps from names are unchanged.
    fn add_object(&mut self, alloc: Global, object: ObjectSpec) -> Result<(), Cause>
        ensures ok { OnOk result (AddsObject self.old self.new object) }
        ensures err { IfErr result (λ e. e ≡ Cause.Memory) }
    {
        self.objects.push(object)?;
        self.service_names.push(NameIndex::new(alloc))?;
        self.services.push(Numbers::new(Vec::new(alloc)))?;
        self.object_escalations.push(Numbers::new(Vec::new(alloc)))?;
        self.directives.push(NO_DIRECTIVES)?;
        Ok(())
    }

    /// Appends the contact that a line defines, and maps its name to its index.
    fn add_contact(&mut self, alloc: Global, contact: &ContactForm<'_>) -> Result<(), Cause>
        requires indexed { IsIndexed self.old }
        requires fine { IsFine (configuration self.old) (seen_contact contact.now) }
        ensures added { OnOk result (configuration self.new ≡ with_form (configuration self.old) (seen_contact contact.now)) }
        ensures indexed { OnOk result (IsIndexed self.new) }
        ensures err { IfErr result (λ e. e ≡ Cause.Memory) }
    {
        let index = self.contacts.len() as u16;
        self.contacts.push(contact_spec(alloc, contact)?)?;
        self.contact_names.add(alloc, contact.name, index)
    }

    /// Appends the host that a line defines, and maps its name to its index.
    fn add_host(&mut self, alloc: Global, host: &HostForm<'_>) -> Result<(), Cause>
        requires indexed { IsIndexed self.old }
        requires fine { IsFine (configuration self.old) (seen_host host.now) }
        ensures added { OnOk result (configuration self.new ≡ with_form (configuration self.old) (seen_host host.now)) }
        ensures indexed { OnOk result (IsIndexed self.new) }
        ensures err { IfErr result (λ e. e ≡ Cause.Memory) }
    {
        let spec = self.host_spec(alloc, host)?;
        let object = spec.host_object;
        self.add_object(alloc, spec)?;
        self.host_names.add(alloc, host.name, object)
    }

    /// Appends the service that a line defines, and adds it to the names and the services of its host, whose index is
    /// `host`.
    fn add_service(
        &mut self,
        alloc: Global,
        service: &ServiceForm<'_>,
        host: u16,
    ) -> Result<(), Cause>
        requires indexed { IsIndexed self.old }
        requires fine { IsFine (configuration self.old) (seen_service service.now) }
        requires host { host ≡ unwrap_or (host_of self.old.objects.items service.now.host.now) 0 }
        ensures added { OnOk result (configuration self.new ≡ with_form (configuration self.old) (seen_service service.now)) }
        ensures indexed { OnOk result (IsIndexed self.new) }
        ensures err { IfErr result (λ e. e ≡ Cause.Memory) }
    {
        let spec = self.service_spec(alloc, service, host)?;
        let object = self.objects.len() as u16;
        add_service_name(alloc, &mut self.service_names, host, service.name, object)?;
        add_to_object(alloc, &mut self.services, host, object)?;
        self.add_object(alloc, spec)
    }

    /// Appends the escalation that a line defines, and lists it at its object, whose index is `object`.
    fn add_escalation(
        &mut self,
        alloc: Global,
        escalation: &EscalationForm<'_>,
        object: u16,
    ) -> Result<(), Cause>
        requires indexed { IsIndexed self.old }
        requires fine { IsFine (configuration self.old) (seen_escalation escalation.now) }
        requires object { object ≡ object_named (configuration self.old) escalation.now.host.now escalation.now.service.now }
        ensures added { OnOk result (configuration self.new ≡ with_form (configuration self.old) (seen_escalation escalation.now)) }
        ensures indexed { OnOk result (IsIndexed self.new) }
        ensures err { IfErr result (λ e. e ≡ Cause.Memory) }
    {
        let escalation = self.escalation(alloc, escalation, object)?;
        let index = self.escalations.len() as u16;
        self.escalations.push(escalation)?;
        add_to_object(alloc, &mut self.object_escalations, object, index)
    }

    /// Appends the option that a line sets. If memory runs out, the index is unchanged.
    fn add_option(&mut self, alloc: Global, option: &OptionForm<'_>) -> Result<(), Cause>
        requires indexed { IsIndexed self.old }
        ensures added { OnOk result (configuration self.new ≡ with_form (configuration self.old) (seen_option option.now)) }
        ensures indexed { OnOk result (IsIndexed self.new) }
        ensures err { IfErr result (λ e. e ≡ Cause.Memory) }
    {
        let name = text(alloc, option.name)?;
        let on = is_on(option.value);
        self.options.push(OptionSpec { name, on })?;
        Ok(())
    }

    /// Sets the seconds to settle.
    fn add_settle(&mut self, settle: &SettleForm<'_>)
        requires indexed { IsIndexed self.old }
        requires fine { IsFine (configuration self.old) (seen_settle settle.now) }
        ensures added { configuration self.new ≡ with_form (configuration self.old) (seen_settle settle.now) }
        ensures indexed { IsIndexed self.new }
    {
        self.settle = Some(value_of(settle.seconds));
    }

    /// Sets the first notification delay of the object at the index `object`.
    fn add_delay(&mut self, delay: &DelayForm<'_>, object: u16)
        requires indexed { IsIndexed self.old }
        requires fine { IsFine (configuration self.old) (seen_delay delay.now) }
        requires object { object ≡ object_named (configuration self.old) delay.now.host.now delay.now.service.now }
        ensures added { configuration self.new ≡ with_form (configuration self.old) (seen_delay delay.now) }
        ensures indexed { IsIndexed self.new }
    {
        let seconds = value_of(delay.seconds);
        self.directives[object as usize].first_notification_delay = Some(seconds);
    }

    /// Makes the service at the index `object` volatile.
    fn add_volatile(&mut self, volatile: &VolatileForm<'_>, object: u16)
        requires indexed { IsIndexed self.old }
        requires fine { IsFine (configuration self.old) (seen_volatile volatile.now) }
        requires object { object ≡ object_named (configuration self.old) volatile.now.host.now volatile.now.service.now }
        ensures added { configuration self.new ≡ with_form (configuration self.old) (seen_volatile volatile.now) }
        ensures indexed { IsIndexed self.new }
    {
        self.directives[object as usize].is_volatile = true;
    }

    /// Adds the record that a line without a fault defines, or sets what it sets. `found` is what
    /// [`look_up`](Index::look_up) returns for this line. If memory runs out, a part of the record may be added, and
    /// the caller drops the index.
    pub fn add(&mut self, alloc: Global, form: &Form<'_>, found: KnownNames) -> Result<(), Cause>
        requires indexed { IsIndexed self.old }
        requires fine { IsFine (configuration self.old) (seen form.now) }
        requires found { found ≡ found_by (configuration self.old) (seen form.now) }
        ensures added { OnOk result (configuration self.new ≡ with_form (configuration self.old) (seen form.now)) }
        ensures indexed { OnOk result (IsIndexed self.new) }
        ensures err { IfErr result (λ e. e ≡ Cause.Memory) }
    {
        // Every name in a line without a fault was found, so that no `unwrap_or` returns its 0.
        match form {
            Form::Contact(contact) => self.add_contact(alloc, contact),
            Form::Host(host) => self.add_host(alloc, host),
            Form::Service(service) => self.add_service(alloc, service, found.host.unwrap_or(0)),
            Form::Escalation(escalation) => {
                self.add_escalation(alloc, escalation, found.named.unwrap_or(0))
            }
            Form::Option(option) => self.add_option(alloc, option),
            Form::Settle(settle) => {
                self.add_settle(settle);
                Ok(())
            }
            Form::Delay(delay) => {
                self.add_delay(delay, found.named.unwrap_or(0));
                Ok(())
            }
            Form::Volatile(volatile) => {
                self.add_volatile(volatile, found.named.unwrap_or(0));
                Ok(())
            }
        }
    }
}

//! The faults that a line has because of the lines before it, one test for each cause; and `cause_of`, the first fault
//! of a line of either kind. Nothing is changed and no memory is taken.
ghost use Rattle.std.specs.Prelude.{◌≡◌};
ghost use Rattle.std.specs.List.{find};
ghost use Rattle.mon_inventory.specs.Configuration.{Configuration, is_duplicate, names_unknown_host, names_unknown_service, names_unknown_contact, has_unknown_contact, is_too_many, has, causes};
ghost use Rattle.mon_inventory.specs.Index.{configuration, IsIndexed};
ghost use Rattle.mon_inventory.specs.Seen.{seen, found_by, object_found};

use crate::fault::Cause;
use crate::form::Form;
use crate::index::Index;
use crate::items::first_item;
use crate::limits::{MOST_CONTACTS, MOST_ESCALATIONS, MOST_OBJECTS};
use cmd_types::cut;

/// The indices of what earlier lines define under the names in a line; `None` where no earlier line defines the name.
#[derive(Clone, Copy)]
pub struct KnownNames {
    /// The contact, host or service with the line's own name; for an escalation, a delay or a volatile service, the
    /// object that the line names.
    pub named: Option<u16>,
    /// The host of that service or object.
    pub host: Option<u16>,
}

impl KnownNames {
    /// Whether the line names a host that no earlier line defines.
    fn names_unknown_host(self, form: &Form<'_>) -> bool
        ensures { (k : Configuration) → self ≡ found_by k (seen form.now) → result ≡ names_unknown_host k (seen form.now) }
    {
        match form {
            Form::Service(_) | Form::Escalation(_) | Form::Delay(_) | Form::Volatile(_) => {
                self.host.is_none()
            }
            Form::Contact(_) | Form::Host(_) | Form::Option(_) | Form::Settle(_) => false,
        }
    }

    /// Whether the line names a service that no earlier line defines.
    fn names_unknown_service(self, form: &Form<'_>) -> bool
        ensures { (k : Configuration) → self ≡ found_by k (seen form.now) → result ≡ names_unknown_service k (seen form.now) }
    {
        match form {
            Form::Escalation(escalation) => {
                !escalation.service.is_empty() && self.named.is_none()
            }
            Form::Delay(delay) => !delay.service.is_empty() && self.named.is_none(),
            Form::Volatile(volatile) => !volatile.service.is_empty() && self.named.is_none(),
            Form::Contact(_)
            | Form::Host(_)
            | Form::Service(_)
            | Form::Option(_)
            | Form::Settle(_) => false,
        }
    }
}

impl Index {
    /// Looks up the object of these names, and its host; `service` is empty for the host itself.
    fn look_up_object(&self, host: &[u8], service: &[u8]) -> KnownNames
        requires { IsIndexed self.now }
        ensures { result ≡ object_found (configuration self.now) host.now service.now }
    {
        let host = self.host_of(host);
        if service.is_empty() {
            return KnownNames { named: host, host };
        }
        let named = self.service_by(host, service);
        KnownNames { named, host }
    }

    /// Looks up the names in a line, each name once, and returns their indices.
    pub fn look_up(&self, form: &Form<'_>) -> KnownNames
        requires { IsIndexed self.now }
        ensures { result ≡ found_by (configuration self.now) (seen form.now) }
    {
        match form {
            Form::Contact(contact) => KnownNames {
                named: self.contact_of(contact.name),
                host: None,
            },
            Form::Host(host) => KnownNames {
                named: self.host_of(host.name),
                host: None,
            },
            Form::Service(service) => {
                let host = self.host_of(service.host);
                let named = self.service_by(host, service.name);
                KnownNames { named, host }
            }
            Form::Escalation(escalation) => {
                self.look_up_object(escalation.host, escalation.service)
            }
            Form::Delay(delay) => self.look_up_object(delay.host, delay.service),
            Form::Volatile(volatile) => self.look_up_object(volatile.host, volatile.service),
            Form::Option(_) | Form::Settle(_) => KnownNames {
                named: None,
                host: None,
            },
        }
    }

    /// Whether an earlier line defines the same contact, host or service, or sets the same option, the seconds to
    /// settle or the same directive of the object. An escalation is never a duplicate.
    fn is_duplicate(&self, form: &Form<'_>, found: KnownNames) -> bool
        requires { found ≡ found_by (configuration self.now) (seen form.now) }
        ensures { result ≡ is_duplicate (configuration self.now) (seen form.now) }
    {
        match form {
            Form::Contact(_) | Form::Host(_) | Form::Service(_) => found.named.is_some(),
            Form::Escalation(_) => false,
            Form::Option(option) => self.said_of(option.name).is_some(),
            Form::Settle(_) => self.settle.is_some(),
            Form::Delay(_) => self
                .directives_at(found.named)
                .first_notification_delay
                .is_some(),
            Form::Volatile(_) => self.directives_at(found.named).is_volatile,
        }
    }

    /// Whether an item of a comma list is not the name of a contact that an earlier line defines.
    fn has_unknown_contact(&self, text: &[u8]) -> bool
        requires { IsIndexed self.now }
        ensures { result ≡ has_unknown_contact (configuration self.now) text.now }
    {
        let mut rest = first_item(text);
        'items: while let Some(items) = rest {
            let (item, after) = cut(b',', items);
            if self.contact_of(item).is_none() {
                return true;
            }
            rest = after;
        }
        false
    }

    /// Whether the line's list of contacts has a name that no earlier line defines.
    fn names_unknown_contact(&self, form: &Form<'_>) -> bool
        requires { IsIndexed self.now }
        ensures { result ≡ names_unknown_contact (configuration self.now) (seen form.now) }
    {
        match form {
            Form::Host(host) => self.has_unknown_contact(host.contacts),
            Form::Service(service) => self.has_unknown_contact(service.contacts),
            Form::Escalation(escalation) => self.has_unknown_contact(escalation.contacts),
            Form::Contact(_)
            | Form::Option(_)
            | Form::Settle(_)
            | Form::Delay(_)
            | Form::Volatile(_) => false,
        }
    }

    /// Whether the index already has as many records of the line's kind as the limit allows.
    fn is_too_many(&self, form: &Form<'_>) -> bool
        ensures { result ≡ is_too_many (configuration self.now) (seen form.now) }
    {
        match form {
            Form::Contact(_) => self.contacts.len() >= MOST_CONTACTS,
            Form::Host(_) | Form::Service(_) => self.objects.len() >= MOST_OBJECTS,
            Form::Escalation(_) => self.escalations.len() >= MOST_ESCALATIONS,
            Form::Option(_) | Form::Settle(_) | Form::Delay(_) | Form::Volatile(_) => false,
        }
    }

    /// The first fault of a line of this form, in the order of [`Cause`]; `None` where the line has no fault. Never
    /// [`Cause::Memory`]. `found` is what [`look_up`](Index::look_up) returns for the line.
    pub fn cause_of(&self, form: &Form<'_>, found: KnownNames) -> Option<Cause>
        requires indexed { IsIndexed self.now }
        requires found { found ≡ found_by (configuration self.now) (seen form.now) }
        ensures { result ≡ find (has (configuration self.now) (seen form.now)) causes }
    {
        if form.has_bad_form() {
            Some(Cause::BadForm)
        } else if form.has_bad_number() {
            Some(Cause::BadNumber)
        } else if form.has_bad_option() {
            Some(Cause::BadOption)
        } else if self.is_duplicate(form, found) {
            Some(Cause::Duplicate)
        } else if found.names_unknown_host(form) {
            Some(Cause::UnknownHost)
        } else if found.names_unknown_service(form) {
            Some(Cause::UnknownService)
        } else if self.names_unknown_contact(form) {
            Some(Cause::UnknownContact)
        } else if self.is_too_many(form) {
            Some(Cause::TooMany)
        } else {
            None
        }
    }
}

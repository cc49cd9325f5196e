//! The faults that a line has by itself, whatever lines come before it: one test for each cause. Nothing is changed and
//! no memory is taken.
ghost use Rattle.std.specs.Prelude.{◌≡◌};
ghost use Rattle.mon_inventory.specs.Line.{has_bad_form, has_bad_number, has_bad_option, is_option};
ghost use Rattle.mon_inventory.specs.Seen.{seen};

use crate::fields::{is_number, is_positive, is_switch};
use crate::form::Form;
use crate::items::has_empty_item;
use crate::letters::{OptionsOf, has_other_item};

/// Whether there is an option of this name.
fn is_option(name: &[u8]) -> bool
    ensures { result ≡ is_option name.now }
{
    name == b"passive_host_checks_are_soft".as_slice()
        || name == b"tell_by_clock".as_slice()
        || name == b"recover_the_told".as_slice()
}

impl Form<'_> {
    /// Whether a name is empty, a contact's name has a comma, an item of a comma list is empty, or no option has this
    /// name.
    pub fn has_bad_form(&self) -> bool
        ensures { result ≡ has_bad_form (seen self.now) }
    {
        match self {
            Form::Contact(contact) => {
                contact.name.is_empty()
                    || contact.name.contains(&b',')
                    || has_empty_item(contact.host_options)
                    || has_empty_item(contact.service_options)
            }
            Form::Host(host) => {
                host.name.is_empty()
                    || has_empty_item(host.options)
                    || has_empty_item(host.contacts)
            }
            Form::Service(service) => {
                service.host.is_empty()
                    || service.name.is_empty()
                    || has_empty_item(service.options)
                    || has_empty_item(service.contacts)
            }
            Form::Escalation(escalation) => {
                escalation.host.is_empty()
                    || has_empty_item(escalation.options)
                    || has_empty_item(escalation.contacts)
            }
            Form::Option(option) => !is_option(option.name),
            Form::Settle(_) => false,
            Form::Delay(delay) => delay.host.is_empty(),
            Form::Volatile(volatile) => volatile.host.is_empty() || volatile.service.is_empty(),
        }
    }

    /// Whether a field that has to be a number is no number or is out of range, or an option's value is not `0` or `1`.
    pub fn has_bad_number(&self) -> bool
        ensures { result ≡ has_bad_number (seen self.now) }
    {
        match self {
            Form::Host(host) => !is_positive(host.max) || !is_number(host.interval),
            Form::Service(service) => !is_positive(service.max) || !is_number(service.interval),
            Form::Escalation(escalation) => {
                !is_number(escalation.first)
                    || !is_number(escalation.last)
                    || !is_number(escalation.interval)
            }
            Form::Option(option) => !is_switch(option.value),
            Form::Settle(settle) => !is_positive(settle.seconds),
            Form::Delay(delay) => !is_positive(delay.seconds),
            Form::Contact(_) | Form::Volatile(_) => false,
        }
    }

    /// Whether a comma list has an option letter that this kind of line does not have.
    pub fn has_bad_option(&self) -> bool
        ensures { result ≡ has_bad_option (seen self.now) }
    {
        match self {
            Form::Contact(contact) => {
                has_other_item(OptionsOf::Host, contact.host_options)
                    || has_other_item(OptionsOf::Service, contact.service_options)
            }
            Form::Host(host) => has_other_item(OptionsOf::Host, host.options),
            Form::Service(service) => has_other_item(OptionsOf::Service, service.options),
            Form::Escalation(escalation) => {
                if escalation.service.is_empty() {
                    has_other_item(OptionsOf::EscalatedHost, escalation.options)
                } else {
                    has_other_item(OptionsOf::EscalatedService, escalation.options)
                }
            }
            Form::Option(_) | Form::Settle(_) | Form::Delay(_) | Form::Volatile(_) => false,
        }
    }
}

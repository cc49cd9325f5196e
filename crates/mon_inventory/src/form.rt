//! A line cut into its fields: the kind of the line, and each field under its name. Only the first word and the number
//! of fields are tested here. The fields borrow from the line, and no memory is taken.
ghost use Rattle.std.specs.Prelude.{◌≡◌, [], ◌∷◌, codes, Some, MatchOption};
ghost use Rattle.std.specs.Option.{option_copied};
ghost use Rattle.mon_inventory.specs.Line.{form_of};
ghost use Rattle.mon_inventory.specs.Texts.{parts_left};
ghost use Rattle.mon_inventory.specs.Seen.{seen_or_none};

use cmd_types::cut;

/// The fields of a contact's line, in the order of the line; none of them is tested.
#[derive(Clone, Copy)]
pub struct ContactForm<'a> {
    pub name: &'a [u8],
    pub host_options: &'a [u8],
    pub service_options: &'a [u8],
}

/// The fields of a host's line, in the order of the line; none of them is tested.
#[derive(Clone, Copy)]
pub struct HostForm<'a> {
    pub name: &'a [u8],
    pub max: &'a [u8],
    pub interval: &'a [u8],
    pub options: &'a [u8],
    pub contacts: &'a [u8],
}

/// The fields of a service's line, in the order of the line; none of them is tested.
#[derive(Clone, Copy)]
pub struct ServiceForm<'a> {
    pub host: &'a [u8],
    pub name: &'a [u8],
    pub max: &'a [u8],
    pub interval: &'a [u8],
    pub options: &'a [u8],
    pub contacts: &'a [u8],
}

/// The fields of an escalation's line, in the order of the line; none of them is tested. `service` is empty for an
/// escalation of a host.
#[derive(Clone, Copy)]
pub struct EscalationForm<'a> {
    pub host: &'a [u8],
    pub service: &'a [u8],
    pub first: &'a [u8],
    pub last: &'a [u8],
    pub interval: &'a [u8],
    pub options: &'a [u8],
    pub contacts: &'a [u8],
}

/// The fields of an option's line; none of them is tested.
#[derive(Clone, Copy)]
pub struct OptionForm<'a> {
    pub name: &'a [u8],
    pub value: &'a [u8],
}

/// The field of the line that sets the seconds to settle; it is not tested.
#[derive(Clone, Copy)]
pub struct SettleForm<'a> {
    pub seconds: &'a [u8],
}

/// The fields of a line that sets a first notification delay, in the order of the line; none of them is tested.
/// `service` is empty for the delay of a host.
#[derive(Clone, Copy)]
pub struct DelayForm<'a> {
    pub host: &'a [u8],
    pub service: &'a [u8],
    pub seconds: &'a [u8],
}

/// The fields of a line that makes a service volatile, in the order of the line; none of them is tested.
#[derive(Clone, Copy)]
pub struct VolatileForm<'a> {
    pub host: &'a [u8],
    pub service: &'a [u8],
}

/// The kind of a line, with its fields as the line has them.
#[derive(Clone, Copy)]
pub enum Form<'a> {
    Contact(ContactForm<'a>),
    Host(HostForm<'a>),
    Service(ServiceForm<'a>),
    Escalation(EscalationForm<'a>),
    Option(OptionForm<'a>),
    Settle(SettleForm<'a>),
    Delay(DelayForm<'a>),
    Volatile(VolatileForm<'a>),
}

/// The fields of a line that are still to be cut out, from left to right. `rest` is their text, and `None` after the
/// last.
#[derive(Clone, Copy)]
struct LineFields<'a> {
    rest: Option<&'a [u8]>,
}

impl<'a> LineFields<'a> {
    /// Cuts out the next field and returns it; `None` where no field is left.
    fn field(&mut self) -> Option<&'a [u8]>
        ensures { MatchOption result (parts_left 59 (option_copied self.old.rest) ≡ [])
            (λ x. parts_left 59 (option_copied self.old.rest) ≡ x.now ∷ parts_left 59 (option_copied self.new.rest)) }
    {
        let (field, rest) = cut(b';', self.rest?);
        self.rest = rest;
        Some(field)
    }
}

/// The form of a contact's line, from the fields after its first word; `None` unless there are exactly three.
fn contact_form(mut fields: LineFields<'_>) -> Option<Form<'_>>
    ensures { seen_or_none result ≡ form_of (codes "contact" ∷ parts_left 59 (option_copied fields.entry.rest)) }
{
    let form = ContactForm {
        name: fields.field()?,
        host_options: fields.field()?,
        service_options: fields.field()?,
    };
    match fields.field() {
        None => Some(Form::Contact(form)),
        Some(_) => None,
    }
}

/// The form of a host's line, from the fields after its first word; `None` unless there are exactly five.
fn host_form(mut fields: LineFields<'_>) -> Option<Form<'_>>
    ensures { seen_or_none result ≡ form_of (codes "host" ∷ parts_left 59 (option_copied fields.entry.rest)) }
{
    let form = HostForm {
        name: fields.field()?,
        max: fields.field()?,
        interval: fields.field()?,
        options: fields.field()?,
        contacts: fields.field()?,
    };
    match fields.field() {
        None => Some(Form::Host(form)),
        Some(_) => None,
    }
}

/// The form of a service's line, from the fields after its first word; `None` unless there are exactly six.
fn service_form(mut fields: LineFields<'_>) -> Option<Form<'_>>
    ensures { seen_or_none result ≡ form_of (codes "service" ∷ parts_left 59 (option_copied fields.entry.rest)) }
{
    let form = ServiceForm {
        host: fields.field()?,
        name: fields.field()?,
        max: fields.field()?,
        interval: fields.field()?,
        options: fields.field()?,
        contacts: fields.field()?,
    };
    match fields.field() {
        None => Some(Form::Service(form)),
        Some(_) => None,
    }
}

/// The form of an escalation's line, from the fields after its first word; `None` unless there are exactly seven.
fn escalation_form(mut fields: LineFields<'_>) -> Option<Form<'_>>
    ensures { seen_or_none result ≡ form_of (codes "escalation" ∷ parts_left 59 (option_copied fields.entry.rest)) }
{
    let form = EscalationForm {
        host: fields.field()?,
        service: fields.field()?,
        first: fields.field()?,
        last: fields.field()?,
        interval: fields.field()?,
        options: fields.field()?,
        contacts: fields.field()?,
    };
    match fields.field() {
        None => Some(Form::Escalation(form)),
        Some(_) => None,
    }
}

/// The form of an option's line, from the fields after its first word; `None` unless there are exactly two.
fn option_form(mut fields: LineFields<'_>) -> Option<Form<'_>>
    ensures { seen_or_none result ≡ form_of (codes "option" ∷ parts_left 59 (option_copied fields.entry.rest)) }
{
    let form = OptionForm {
        name: fields.field()?,
        value: fields.field()?,
    };
    match fields.field() {
        None => Some(Form::Option(form)),
        Some(_) => None,
    }
}

/// The form of the line that sets the seconds to settle, from the fields after its first word; `None` unless there is
/// exactly one.
fn settle_form(mut fields: LineFields<'_>) -> Option<Form<'_>>
    ensures { seen_or_none result ≡ form_of (codes "settle" ∷ parts_left 59 (option_copied fields.entry.rest)) }
{
    let form = SettleForm {
        seconds: fields.field()?,
    };
    match fields.field() {
        None => Some(Form::Settle(form)),
        Some(_) => None,
    }
}

/// The form of a line that sets a first notification delay, from the fields after its first word; `None` unless there
/// are exactly three.
fn delay_form(mut fields: LineFields<'_>) -> Option<Form<'_>>
    ensures { seen_or_none result ≡ form_of (codes "delay" ∷ parts_left 59 (option_copied fields.entry.rest)) }
{
    let form = DelayForm {
        host: fields.field()?,
        service: fields.field()?,
        seconds: fields.field()?,
    };
    match fields.field() {
        None => Some(Form::Delay(form)),
        Some(_) => None,
    }
}

/// The form of a line that makes a service volatile, from the fields after its first word; `None` unless there are
/// exactly two.
fn volatile_form(mut fields: LineFields<'_>) -> Option<Form<'_>>
    ensures { seen_or_none result ≡ form_of (codes "volatile" ∷ parts_left 59 (option_copied fields.entry.rest)) }
{
    let form = VolatileForm {
        host: fields.field()?,
        service: fields.field()?,
    };
    match fields.field() {
        None => Some(Form::Volatile(form)),
        Some(_) => None,
    }
}

/// The form of a line with this first word and these other fields; `None` where no kind of line has this word with this
/// number of fields.
fn form_of_word<'a>(word: &[u8], fields: LineFields<'a>) -> Option<Form<'a>>
    ensures { seen_or_none result ≡ form_of (word.now ∷ parts_left 59 (option_copied fields.entry.rest)) }
{
    if word == b"contact".as_slice() {
        contact_form(fields)
    } else if word == b"host".as_slice() {
        host_form(fields)
    } else if word == b"service".as_slice() {
        service_form(fields)
    } else if word == b"escalation".as_slice() {
        escalation_form(fields)
    } else if word == b"option".as_slice() {
        option_form(fields)
    } else if word == b"settle".as_slice() {
        settle_form(fields)
    } else if word == b"delay".as_slice() {
        delay_form(fields)
    } else if word == b"volatile".as_slice() {
        volatile_form(fields)
    } else {
        None
    }
}

/// The form of a line, by its first word and the number of its fields; `None` where no kind of line has both.
pub fn form_of(line: &[u8]) -> Option<Form<'_>>
    ensures { seen_or_none result ≡ form_of (parts_left 59 (Some line.now)) }
{
    let (word, rest) = cut(b';', line);
    form_of_word(word, LineFields { rest })
}

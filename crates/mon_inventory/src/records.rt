//! The records of an inventory: contacts, objects, escalations and options, as their lines define them, and the
//! directives that other lines set for an object.
use crate::letters::Letters;
use cmd_types::{Numbers, Text};

/// A host or a service, as its line defines it (profile; the fields' meaning is that of Nagios's object options).
///
/// ```
/// // FIVE_LINES: two contacts, the host web, its service http and an escalation of http to bob
/// let inventory = Inventory::parse(alloc, FIVE_LINES)?;
/// let [web, http] = inventory.objects() else {
///     return Err(Fail::new("two objects"));
/// };
/// assert_eq!(rt; (web.max, web.interval), (3, 1800));
/// assert_eq!(rt; http.host_object, 0);
/// ```
#[derive(Drop)]
pub struct ObjectSpec {
    /// The name of the host or, for a service, of the service's host.
    pub host: Text,
    /// The service's description; `None` for a host.
    pub service: Option<Text>,
    /// The index of the service's host; for a host, its own index.
    pub host_object: u16,
    /// `max_check_attempts`, at least 1: the attempt at which a soft state becomes hard.
    pub max: u64,
    /// `notification_interval`, in seconds; 0 for no further notice.
    pub interval: u64,
    /// `notification_options`: for which states and events notices go out.
    pub letters: Letters,
    /// The indices of the object's own contacts, each once, in order of first mention.
    pub contacts: Numbers,
}

/// A contact that may be notified: its name, and the letters of the notices that it takes about hosts and about
/// services (profile; Notifications).
///
/// ```
/// // FIVE_LINES: two contacts, the host web, its service http and an escalation of http to bob
/// let inventory = Inventory::parse(alloc, FIVE_LINES)?;
/// let [_, bob] = inventory.contacts() else {
///     return Err(Fail::new("two contacts"));
/// };
/// assert_eq!(rt; bob.name.as_bytes(), b"bob".as_slice());
/// assert!(rt; bob.service_letters.c && !bob.service_letters.w);
/// ```
#[derive(Drop)]
pub struct ContactSpec {
    pub name: Text,
    /// `host_notification_options`.
    pub host_letters: Letters,
    /// `service_notification_options`.
    pub service_letters: Letters,
}

/// An escalation: contacts that are notified of an object's problems instead of its own contacts, while the
/// notification number is in a range and the letter of the state is among the options (Notification Escalations).
///
/// ```
/// // FIVE_LINES: two contacts, the host web, its service http and an escalation of http to bob
/// let inventory = Inventory::parse(alloc, FIVE_LINES)?;
/// let [escalation] = inventory.escalations() else {
///     return Err(Fail::new("one escalation"));
/// };
/// assert_eq!(rt; (escalation.first, escalation.last), (2, 0));
/// assert_eq!(rt; escalation.contacts.as_slice(), [1].as_slice());
/// ```
#[derive(Drop)]
pub struct Escalation {
    /// The index of the host or service whose notices escalate.
    pub object: u16,
    /// `first_notification`: the first notification number at which the escalation is in force.
    pub first: u64,
    /// `last_notification`: the last notification number at which the escalation is in force; 0 for no bound.
    pub last: u64,
    /// `notification_interval`, in seconds, while the escalation is in force.
    pub interval: u64,
    /// `escalation_options`: the states in which the escalation is in force.
    pub letters: Letters,
    /// The indices of the escalation's contacts, each once, in order of first mention.
    pub contacts: Numbers,
}

/// An option that a line turns on or off (profile).
#[derive(Drop)]
pub struct OptionSpec {
    pub name: Text,
    pub on: bool,
}

/// The directives of a host or a service that have lines of their own (profile; Nagios's object definitions have them
/// under the same names).
///
/// ```
/// let text = b"host;web;3;60;;\nservice;web;http;3;60;;\ndelay;web;http;300\nvolatile;web;http\n";
/// let inventory = Inventory::parse(alloc, text)?;
/// let Some(http) = inventory.service_of(b"web", b"http") else {
///     return Err(Fail::new("the service http"));
/// };
/// let directives = inventory.directives(http);
/// assert_eq!(rt; directives.first_notification_delay, Some(300));
/// assert!(rt; directives.is_volatile);
/// ```
#[derive(Clone, Copy)]
pub struct Directives {
    /// `first_notification_delay`, in seconds, at least 1: how long a hard problem stands before its first notice;
    /// `None` where no line sets it.
    pub first_notification_delay: Option<u64>,
    /// `is_volatile`: each bad result of this service is notified; false where no line sets it, and of each host.
    pub is_volatile: bool,
}

/// The directives of an object for which no line sets any.
pub const NO_DIRECTIVES: Directives = Directives {
    first_notification_delay: None,
    is_volatile: false,
};

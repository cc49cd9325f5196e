//! The names of objects and contacts in a command, and the kind of thing that a command names.

use crate::text::Text;

/// The names that a command has (External Commands): no name, the name of a contact, the name of a host, or the names
/// of a service and its host.
///
/// ```
/// let host = Text::new(Vec::from_slice(alloc, b"web")?);
/// let command = Command::DelAllHostComments { host };
/// let Names::Host(host) = command.names() else {
///     return Err(Fail::new("it names a host"));
/// };
/// assert_eq!(rt; host.as_bytes(), b"web".as_slice());
/// ```
#[derive(Clone, Copy)]
pub enum Names<'a> {
    None,
    Contact(&'a Text),
    Host(&'a Text),
    Service { host: &'a Text, service: &'a Text },
}

/// The kind of thing that a command names (External Commands). A command names the services of a host
/// (`Services`) by the name of the host alone.
///
/// ```
/// assert_eq!(rt;
///     CommandName::ScheduleHostSvcDowntime.target(),
///     Target::Services
/// );
/// ```
#[derive(Clone, Copy, Debug, PartialEq, Eq)]
pub enum Target {
    Nothing,
    Contact,
    Host,
    Service,
    Services,
}

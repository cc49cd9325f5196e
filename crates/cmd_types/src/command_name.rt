//! The names of the commands, as lines spell them, and the table of all commands, from which macros write the arms of
//! each match over commands. No call takes memory.

ghost use Rattle.std.specs.Prelude.{◌≡◌};
ghost use Rattle.cmd_types.specs.Table.{name_text, target};
ghost use Rattle.cmd_types.specs.Names.{name_from};

use crate::names::Target;

/// Passes the table of the commands (External Commands) to the macro `$then`, after the tokens `$given`. Each row has a
/// list of fields with their kinds, and the commands with these fields in order: for each its variant, its target, and
/// its name in a line.
///
/// The target is what a command names: `nothing`, a `contact`, a `host`, a `service`, or `services` for the services of
/// a host. A `host`, a `service` and a `contact` are names. An `author` ends at the next semicolon, a `rest` at the end
/// of the line. `code(n)` is a code of at most `n`. The check results, by far the most frequent commands, come first,
/// so that their names are compared first.
#[macro_export]
macro_rules! commands_by_fields {
    ($then:ident $($given:tt)*) => {
        $then! {
            ($($given)*)
            { host: host, service: service, code: code(3), output: rest } {
                ProcessServiceCheckResult(service) = b"PROCESS_SERVICE_CHECK_RESULT"
            }
            { host: host, code: code(2), output: rest } {
                ProcessHostCheckResult(host) = b"PROCESS_HOST_CHECK_RESULT"
            }
            { host: host, persistent: flag, author: author, comment: rest } {
                AddHostComment(host) = b"ADD_HOST_COMMENT"
            }
            { host: host, service: service, persistent: flag, author: author, comment: rest } {
                AddSvcComment(service) = b"ADD_SVC_COMMENT"
            }
            { id: number } {
                DelHostComment(nothing) = b"DEL_HOST_COMMENT"
                DelSvcComment(nothing) = b"DEL_SVC_COMMENT"
                DelHostDowntime(nothing) = b"DEL_HOST_DOWNTIME"
                DelSvcDowntime(nothing) = b"DEL_SVC_DOWNTIME"
            }
            { host: host } {
                DelAllHostComments(host) = b"DEL_ALL_HOST_COMMENTS"
                RemoveHostAcknowledgement(host) = b"REMOVE_HOST_ACKNOWLEDGEMENT"
                EnableHostNotifications(host) = b"ENABLE_HOST_NOTIFICATIONS"
                EnableHostSvcNotifications(services) = b"ENABLE_HOST_SVC_NOTIFICATIONS"
                EnablePassiveHostChecks(host) = b"ENABLE_PASSIVE_HOST_CHECKS"
                DisableHostNotifications(host) = b"DISABLE_HOST_NOTIFICATIONS"
                DisableHostSvcNotifications(services) = b"DISABLE_HOST_SVC_NOTIFICATIONS"
                DisablePassiveHostChecks(host) = b"DISABLE_PASSIVE_HOST_CHECKS"
            }
            { host: host, service: service } {
                DelAllSvcComments(service) = b"DEL_ALL_SVC_COMMENTS"
                RemoveSvcAcknowledgement(service) = b"REMOVE_SVC_ACKNOWLEDGEMENT"
                EnableSvcNotifications(service) = b"ENABLE_SVC_NOTIFICATIONS"
                EnablePassiveSvcChecks(service) = b"ENABLE_PASSIVE_SVC_CHECKS"
                DisableSvcNotifications(service) = b"DISABLE_SVC_NOTIFICATIONS"
                DisablePassiveSvcChecks(service) = b"DISABLE_PASSIVE_SVC_CHECKS"
            }
            { host: host, sticky: number, notify: flag, persistent: flag, author: author, comment: rest } {
                AcknowledgeHostProblem(host) = b"ACKNOWLEDGE_HOST_PROBLEM"
            }
            { host: host, service: service, sticky: number, notify: flag, persistent: flag, author: author, comment: rest } {
                AcknowledgeSvcProblem(service) = b"ACKNOWLEDGE_SVC_PROBLEM"
            }
            { host: host, start_time: number, end_time: number, fixed: flag, trigger_id: number, duration: number, author: author, comment: rest } {
                ScheduleHostDowntime(host) = b"SCHEDULE_HOST_DOWNTIME"
                ScheduleHostSvcDowntime(services) = b"SCHEDULE_HOST_SVC_DOWNTIME"
            }
            { host: host, service: service, start_time: number, end_time: number, fixed: flag, trigger_id: number, duration: number, author: author, comment: rest } {
                ScheduleSvcDowntime(service) = b"SCHEDULE_SVC_DOWNTIME"
            }
            {} {
                EnableNotifications(nothing) = b"ENABLE_NOTIFICATIONS"
                DisableNotifications(nothing) = b"DISABLE_NOTIFICATIONS"
                StartAcceptingPassiveHostChecks(nothing) = b"START_ACCEPTING_PASSIVE_HOST_CHECKS"
                StartAcceptingPassiveSvcChecks(nothing) = b"START_ACCEPTING_PASSIVE_SVC_CHECKS"
                StopAcceptingPassiveHostChecks(nothing) = b"STOP_ACCEPTING_PASSIVE_HOST_CHECKS"
                StopAcceptingPassiveSvcChecks(nothing) = b"STOP_ACCEPTING_PASSIVE_SVC_CHECKS"
                RestartProgram(nothing) = b"RESTART_PROGRAM"
            }
            { contact: contact } {
                EnableContactHostNotifications(contact) = b"ENABLE_CONTACT_HOST_NOTIFICATIONS"
                EnableContactSvcNotifications(contact) = b"ENABLE_CONTACT_SVC_NOTIFICATIONS"
                DisableContactHostNotifications(contact) = b"DISABLE_CONTACT_HOST_NOTIFICATIONS"
                DisableContactSvcNotifications(contact) = b"DISABLE_CONTACT_SVC_NOTIFICATIONS"
            }
            { host: host, time: number } {
                DelayHostNotification(host) = b"DELAY_HOST_NOTIFICATION"
            }
            { host: host, service: service, time: number } {
                DelaySvcNotification(service) = b"DELAY_SVC_NOTIFICATION"
            }
            { host: host, number: number } {
                SetHostNotificationNumber(host) = b"SET_HOST_NOTIFICATION_NUMBER"
            }
            { host: host, service: service, number: number } {
                SetSvcNotificationNumber(service) = b"SET_SVC_NOTIFICATION_NUMBER"
            }
            { host: host, options: number, author: author, comment: rest } {
                SendCustomHostNotification(host) = b"SEND_CUSTOM_HOST_NOTIFICATION"
            }
            { host: host, service: service, options: number, author: author, comment: rest } {
                SendCustomSvcNotification(service) = b"SEND_CUSTOM_SVC_NOTIFICATION"
            }
        }
    };
}

/// Passes the table of the commands to the macro `$then`, as one row for each command: its variant, its target, its
/// name in a line, and its fields with their kinds.
#[macro_export]
macro_rules! commands {
    ((rows $then:ident $($given:tt)*) $($fields:tt { $($variant:ident($target:ident) = $text:literal)* })*) => {
        $then! { ($($given)*) $($($variant($target) = $text $fields)*)* }
    };
    ($then:ident $($given:tt)*) => { $crate::commands_by_fields!(commands rows $then $($given)*) };
}

/// Expands to a match that returns the text of each name.
macro_rules! text_of {
    (($name:tt) $($variant:ident($target:ident) = $text:literal $fields:tt)*) => {
        match $name {
            $(CommandName::$variant => $text,)*
        }
    };
}

/// Expands to a match that returns the target of each name.
macro_rules! target_of {
    (($name:tt) $($variant:ident($target:ident) = $text:literal $fields:tt)*) => {
        match $name {
            $(CommandName::$variant => target!($target),)*
        }
    };
}

/// The [`Target`] of a word of the table.
macro_rules! target {
    (nothing) => { Target::Nothing };
    (contact) => { Target::Contact };
    (host) => { Target::Host };
    (service) => { Target::Service };
    (services) => { Target::Services };
}

/// The names in the order of the table.
macro_rules! all_names {
    (() $($variant:ident($target:ident) = $text:literal $fields:tt)*) => { &[$(CommandName::$variant),*] };
}

/// All names in the order of the table, the most frequent first.
const ALL_NAMES: &[CommandName] = commands!(all_names);

/// The name of a command, as a line spells it.
///
/// ```
/// let Some(name) = CommandName::find(b"RESTART_PROGRAM") else {
///     return Err(Fail::new("a command has the name"));
/// };
/// assert_eq!(rt; name.text(), b"RESTART_PROGRAM".as_slice());
/// assert!(rt; CommandName::find(b"restart_program").is_none());
/// ```
#[derive(Clone, Copy, PartialEq, Eq)]
pub enum CommandName {
    AddHostComment,
    AddSvcComment,
    DelHostComment,
    DelSvcComment,
    DelAllHostComments,
    DelAllSvcComments,
    AcknowledgeHostProblem,
    AcknowledgeSvcProblem,
    RemoveHostAcknowledgement,
    RemoveSvcAcknowledgement,
    ScheduleHostDowntime,
    ScheduleHostSvcDowntime,
    ScheduleSvcDowntime,
    DelHostDowntime,
    DelSvcDowntime,
    ProcessHostCheckResult,
    ProcessServiceCheckResult,
    EnableNotifications,
    EnableHostNotifications,
    EnableHostSvcNotifications,
    EnablePassiveHostChecks,
    EnableSvcNotifications,
    EnablePassiveSvcChecks,
    EnableContactHostNotifications,
    EnableContactSvcNotifications,
    DisableNotifications,
    DisableHostNotifications,
    DisableHostSvcNotifications,
    DisablePassiveHostChecks,
    DisableSvcNotifications,
    DisablePassiveSvcChecks,
    DisableContactHostNotifications,
    DisableContactSvcNotifications,
    StartAcceptingPassiveHostChecks,
    StartAcceptingPassiveSvcChecks,
    StopAcceptingPassiveHostChecks,
    StopAcceptingPassiveSvcChecks,
    DelayHostNotification,
    DelaySvcNotification,
    SetHostNotificationNumber,
    SetSvcNotificationNumber,
    SendCustomHostNotification,
    SendCustomSvcNotification,
    RestartProgram,
}

impl CommandName {
    /// The bytes that spell the name in a line.
    pub fn text(self) -> &'static [u8]
        ensures { result.now ≡ name_text self }
    {
        commands!(text_of self)
    }

    /// The kind of thing that a command of this name names: a host, a service, a contact, the services of a host,
    /// or nothing.
    ///
    /// See the example of [`Target`].
    pub fn target(self) -> Target
        ensures { result ≡ target self }
    {
        commands!(target_of self)
    }

    /// The command name that the bytes spell, compared byte by byte; `None` where they spell no name. Takes no memory.
    pub fn find(bytes: &[u8]) -> Option<CommandName>
        ensures { result ≡ name_from bytes.now }
    {
        ALL_NAMES.iter().copied().find(|name| name.text() == bytes)
    }
}

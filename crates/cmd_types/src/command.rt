//! The commands, and for each command its name, the names of its objects, its arguments, and a copy. No call tests the
//! range of a value.

ghost use Rattle.std.specs.Prelude.{◌≡◌};
ghost use Rattle.cmd_types.specs.Table.{name_of, arguments_of};
ghost use Rattle.cmd_types.specs.Arguments.{shown, shown_names};
ghost use Rattle.cmd_types.specs.Names.{names_of};

use crate::argument::{Argument, Arguments, NameRole};
use crate::command_name::CommandName;
use crate::memory::Memory;
use crate::names::Names;
use crate::text::Text;
use crate::{commands, commands_by_fields, copies};

/// Expands to a match that returns the name of each command.
macro_rules! name_of {
    (($command:tt) $($variant:ident($target:ident) = $text:literal $fields:tt)*) => {
        match $command {
            $(Command::$variant { .. } => CommandName::$variant,)*
        }
    };
}

/// Expands to a match that returns the [`Names`] among the fields of each command.
macro_rules! names_of {
    (($command:tt) $($fields:tt { $($variant:ident($target:ident) = $text:literal)* })*) => {
        match $command {
            $($(with_names!($variant $fields))|* => names!($fields),)*
        }
    };
}

/// The pattern of a command that binds only its names, since each bound field costs proof time.
macro_rules! with_names {
    ($variant:ident { $($field:ident: $kind:ident $(($greatest:literal))?),* }) => { Command::$variant { $($field: name!($field $kind)),* } };
}

/// A field in a pattern of `with_names`: bound if it is a name, else `_`.
macro_rules! name {
    ($field:ident host) => { $field };
    ($field:ident service) => { $field };
    ($field:ident contact) => { $field };
    ($field:ident $kind:ident) => { _ };
}

/// The [`Names`] of a list of fields; the names are its first fields.
macro_rules! names {
    ({ $host:ident: host, $service:ident: service $(, $($other:tt)*)? }) => {
        Names::Service { host: $host, service: $service }
    };
    ({ $host:ident: host $(, $($other:tt)*)? }) => { Names::Host($host) };
    ({ $contact:ident: contact $(, $($other:tt)*)? }) => { Names::Contact($contact) };
    ({ $($other:tt)* }) => { Names::None };
}

/// Expands to a match that returns the arguments of each command in order, followed by `None` at all further indices.
/// Commands with the same fields share an arm.
macro_rules! arguments_of {
    (($command:tt) $($fields:tt { $($variant:ident($target:ident) = $text:literal)* })*) => {
        match $command {
            $($(with_fields!($variant $fields))|* => listed!($fields),)*
        }
    };
}

/// The pattern of a command that binds all its fields.
macro_rules! with_fields {
    ($variant:ident { $($field:ident: $kind:ident $(($greatest:literal))?),* }) => { Command::$variant { $($field),* } };
}

/// The array of the fields as arguments, filled up with `None`.
macro_rules! listed {
    ({ $($field:ident: $kind:ident $(($greatest:literal))?),* }) => {
        padded!([None, None, None, None, None, None, None, None, None,] [] $(argument!($field: $kind $(($greatest))?),)*)
    };
}

/// An array of `None` whose first elements are replaced by the arguments.
macro_rules! padded {
    ([$none:ident, $($nones:tt)*] [$($before:tt)*] $argument:expr, $($others:expr,)*) => {
        padded!([$($nones)*] [$($before)* Some($argument),] $($others,)*)
    };
    ([$($nones:tt)*] [$($before:tt)*]) => { [$($before)* $($nones)*] };
}

/// A field as an argument of its kind.
macro_rules! argument {
    ($field:ident: host) => { Argument::Name(NameRole::Host, $field) };
    ($field:ident: service) => { Argument::Name(NameRole::Service, $field) };
    ($field:ident: contact) => { Argument::Name(NameRole::Contact, $field) };
    ($field:ident: author) => { Argument::Author($field) };
    ($field:ident: rest) => { Argument::Rest($field) };
    ($field:ident: flag) => { Argument::Flag(*$field) };
    ($field:ident: number) => { Argument::Number(*$field) };
    ($field:ident: code($greatest:literal)) => { Argument::Code { code: *$field, greatest: $greatest } };
}

/// Expands to a match that returns a copy of each command.
macro_rules! copied {
    (($command:tt) $($variant:ident($target:ident) = $text:literal { $($field:ident: $kind:ident $(($greatest:literal))?),* })*) => {
        match $command {
            $(Command::$variant { $($field),* } => copy!($variant [] {} $($field: $kind,)*),)*
        }
    };
}

/// A copy of a command from its fields. One call copies all texts among them.
macro_rules! copy {
    ($variant:ident [$($text:ident)*] {$($other:ident)*} $field:ident: flag, $($more:tt)*) => { copy!($variant [$($text)*] {$($other)* $field} $($more)*) };
    ($variant:ident [$($text:ident)*] {$($other:ident)*} $field:ident: number, $($more:tt)*) => { copy!($variant [$($text)*] {$($other)* $field} $($more)*) };
    ($variant:ident [$($text:ident)*] {$($other:ident)*} $field:ident: code, $($more:tt)*) => { copy!($variant [$($text)*] {$($other)* $field} $($more)*) };
    ($variant:ident [$($text:ident)*] {$($other:ident)*} $field:ident: $kind:ident, $($more:tt)*) => { copy!($variant [$($text)* $field] {$($other)*} $($more)*) };
    ($variant:ident [] {$($other:ident)*}) => { Ok(Command::$variant { $($other: *$other),* }) };
    ($variant:ident [$one:ident] {$($other:ident)*}) => {{
        let $one = $one.clone()?;
        Ok(Command::$variant { $one, $($other: *$other),* })
    }};
    ($variant:ident [$one:ident $two:ident] {$($other:ident)*}) => {{
        let ($one, $two) = copies::two_texts($one, $two)?;
        Ok(Command::$variant { $one, $two, $($other: *$other),* })
    }};
    ($variant:ident [$one:ident $two:ident $three:ident] {$($other:ident)*}) => {{
        let ($one, $two, $three) = copies::three_texts($one, $two, $three)?;
        Ok(Command::$variant { $one, $two, $three, $($other: *$other),* })
    }};
    ($variant:ident [$one:ident $two:ident $three:ident $four:ident] {$($other:ident)*}) => {{
        let ($one, $two, $three, $four) = copies::four_texts($one, $two, $three, $four)?;
        Ok(Command::$variant { $one, $two, $three, $four, $($other: *$other),* })
    }};
}

/// A Nagios external command with its arguments (External Commands), one variant for each command.
///
/// Names and texts are bytes. Times and durations are in seconds. Ids count from 1, and a `trigger_id` of 0 means no
/// trigger. `sticky` is 2 for a sticky acknowledgement, and any other number for a normal one. A `code` is 0 to 2 for a
/// host, and 0 to 3 for a service. Of the `options` of a custom notice the bits of value 1, 2 and 4 are read.
/// [`Stamped::new`](crate::Stamped::new) tests these ranges; this type does not.
///
/// ```
/// let host = Text::new(Vec::from_slice(alloc, b"web")?);
/// let command = Command::DelAllHostComments { host };
/// assert_eq!(rt; command.name().text(), b"DEL_ALL_HOST_COMMENTS".as_slice());
/// ```
#[derive(Drop)]
pub enum Command {
    AddHostComment {
        host: Text,
        persistent: bool,
        author: Text,
        comment: Text,
    },
    AddSvcComment {
        host: Text,
        service: Text,
        persistent: bool,
        author: Text,
        comment: Text,
    },
    DelHostComment {
        id: u64,
    },
    DelSvcComment {
        id: u64,
    },
    DelAllHostComments {
        host: Text,
    },
    DelAllSvcComments {
        host: Text,
        service: Text,
    },
    AcknowledgeHostProblem {
        host: Text,
        sticky: u64,
        notify: bool,
        persistent: bool,
        author: Text,
        comment: Text,
    },
    AcknowledgeSvcProblem {
        host: Text,
        service: Text,
        sticky: u64,
        notify: bool,
        persistent: bool,
        author: Text,
        comment: Text,
    },
    RemoveHostAcknowledgement {
        host: Text,
    },
    RemoveSvcAcknowledgement {
        host: Text,
        service: Text,
    },
    ScheduleHostDowntime {
        host: Text,
        start_time: u64,
        end_time: u64,
        fixed: bool,
        trigger_id: u64,
        duration: u64,
        author: Text,
        comment: Text,
    },
    ScheduleHostSvcDowntime {
        host: Text,
        start_time: u64,
        end_time: u64,
        fixed: bool,
        trigger_id: u64,
        duration: u64,
        author: Text,
        comment: Text,
    },
    ScheduleSvcDowntime {
        host: Text,
        service: Text,
        start_time: u64,
        end_time: u64,
        fixed: bool,
        trigger_id: u64,
        duration: u64,
        author: Text,
        comment: Text,
    },
    DelHostDowntime {
        id: u64,
    },
    DelSvcDowntime {
        id: u64,
    },
    ProcessHostCheckResult {
        host: Text,
        code: u8,
        output: Text,
    },
    ProcessServiceCheckResult {
        host: Text,
        service: Text,
        code: u8,
        output: Text,
    },
    EnableNotifications,
    EnableHostNotifications {
        host: Text,
    },
    EnableHostSvcNotifications {
        host: Text,
    },
    EnablePassiveHostChecks {
        host: Text,
    },
    EnableSvcNotifications {
        host: Text,
        service: Text,
    },
    EnablePassiveSvcChecks {
        host: Text,
        service: Text,
    },
    EnableContactHostNotifications {
        contact: Text,
    },
    EnableContactSvcNotifications {
        contact: Text,
    },
    DisableNotifications,
    DisableHostNotifications {
        host: Text,
    },
    DisableHostSvcNotifications {
        host: Text,
    },
    DisablePassiveHostChecks {
        host: Text,
    },
    DisableSvcNotifications {
        host: Text,
        service: Text,
    },
    DisablePassiveSvcChecks {
        host: Text,
        service: Text,
    },
    DisableContactHostNotifications {
        contact: Text,
    },
    DisableContactSvcNotifications {
        contact: Text,
    },
    StartAcceptingPassiveHostChecks,
    StartAcceptingPassiveSvcChecks,
    StopAcceptingPassiveHostChecks,
    StopAcceptingPassiveSvcChecks,
    DelayHostNotification {
        host: Text,
        time: u64,
    },
    DelaySvcNotification {
        host: Text,
        service: Text,
        time: u64,
    },
    SetHostNotificationNumber {
        host: Text,
        number: u64,
    },
    SetSvcNotificationNumber {
        host: Text,
        service: Text,
        number: u64,
    },
    SendCustomHostNotification {
        host: Text,
        options: u64,
        author: Text,
        comment: Text,
    },
    SendCustomSvcNotification {
        host: Text,
        service: Text,
        options: u64,
        author: Text,
        comment: Text,
    },
    RestartProgram,
}

impl Command {
    /// The name of the command. Takes no memory.
    pub fn name(&self) -> CommandName
        ensures { result ≡ name_of self.now }
    {
        commands!(name_of self)
    }

    /// The names of objects and contacts in the command, borrowed from the command. Takes no memory.
    pub fn names(&self) -> Names<'_>
        ensures { shown_names result ≡ names_of self.now }
    {
        commands_by_fields!(names_of self)
    }

    /// The arguments in order, borrowed from the command. Takes no memory.
    pub(crate) fn arguments(&self) -> Arguments<'_>
        ensures { shown result ≡ arguments_of self.now }
    {
        commands_by_fields!(arguments_of self)
    }
}

impl Clone for Command {
    ghost is_clone = { λ s t. t ≡ s };

    /// A copy of the command, with copies of all its texts. If memory runs out, there is no copy, and the texts already
    /// copied are dropped.
    fn clone(&self) -> Result<Command, Memory> {
        commands!(copied self)
    }
}

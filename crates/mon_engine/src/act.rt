//! What a command asks the monitor to do (an `Act`), with the index in the inventory of its object or contact. The
//! host's and the service's form of most commands ask for the same act. Nothing in this file does an act, changes the
//! state or takes memory.
ghost use Rattle.std.specs.Prelude.{◌≡◌};
ghost use Rattle.cmd_types.specs.Names.{names_of};
ghost use Rattle.mon_engine.specs.Effects.{asked, shown};
ghost use Rattle.mon_engine.specs.Names.{IsOf, index};

use crate::object::Kind;
use crate::objects::Setting;
use crate::target::FoundTarget;
use cmd_types::{Command, Text};
use mon_downtime::Times;

/// The author and the text of a comment, borrowed from the command, and whether the comment is persistent.
#[derive(Clone, Copy)]
pub struct Remark<'a> {
    pub persistent: bool,
    pub author: &'a Text,
    pub text: &'a Text,
}

/// The arguments of an acknowledgement: whether it is sticky, whether contacts are notified, and its comment.
#[derive(Clone, Copy)]
pub struct Acknowledging<'a> {
    /// 2 for a sticky acknowledgement, any other number for a normal one.
    pub sticky: u64,
    pub notify: bool,
    pub remark: Remark<'a>,
}

/// The arguments of a downtime: its times, and its author and text, borrowed from the command.
#[derive(Clone, Copy)]
pub struct Planned<'a> {
    pub times: Times,
    pub author: &'a Text,
    pub text: &'a Text,
}

/// One thing that a command asks the monitor to do. `object`, `host` and `contact` are indices in the inventory.
#[derive(Clone, Copy)]
pub enum Act<'a> {
    AddComment {
        object: u16,
        remark: Remark<'a>,
    },
    DelComment {
        kind: Kind,
        id: u64,
    },
    DelAllComments {
        object: u16,
    },
    Acknowledge {
        object: u16,
        asked: Acknowledging<'a>,
    },
    RemoveAcknowledgement {
        object: u16,
    },
    CheckResult {
        object: u16,
        code: u8,
        output: &'a Text,
    },
    Set {
        object: u16,
        setting: Setting,
    },
    SetServices {
        host: u16,
        setting: Setting,
    },
    SetAccepting {
        kind: Kind,
        on: bool,
    },
    Schedule {
        object: u16,
        asked: Planned<'a>,
    },
    ScheduleServices {
        host: u16,
        asked: Planned<'a>,
    },
    DelDowntime {
        kind: Kind,
        id: u64,
    },
    SetNotifications {
        on: bool,
    },
    SetContact {
        contact: u16,
        kind: Kind,
        on: bool,
    },
    SendCustom {
        object: u16,
        options: u64,
    },
    Restart,
}

/// The act of the command, with the index of `target`. Requires that `target` is of the sort that the command names: a
/// contact, an object or nothing. Takes no memory.
pub fn asked<'a>(command: &'a Command, target: FoundTarget) -> Act<'a>
    requires { IsOf (names_of command.now) target }
    ensures { shown result ≡ asked command.now (index target) }
{
    match *command {
        Command::AddHostComment {
            persistent,
            ref author,
            ref comment,
            ..
        }
        | Command::AddSvcComment {
            persistent,
            ref author,
            ref comment,
            ..
        } => Act::AddComment {
            object: target.object(),
            remark: Remark {
                persistent,
                author,
                text: comment,
            },
        },
        Command::DelHostComment { id } => Act::DelComment {
            kind: Kind::Host,
            id,
        },
        Command::DelSvcComment { id } => Act::DelComment {
            kind: Kind::Service,
            id,
        },
        Command::DelAllHostComments { .. } | Command::DelAllSvcComments { .. } => {
            Act::DelAllComments {
                object: target.object(),
            }
        }
        Command::AcknowledgeHostProblem {
            sticky,
            notify,
            persistent,
            ref author,
            ref comment,
            ..
        }
        | Command::AcknowledgeSvcProblem {
            sticky,
            notify,
            persistent,
            ref author,
            ref comment,
            ..
        } => Act::Acknowledge {
            object: target.object(),
            asked: Acknowledging {
                sticky,
                notify,
                remark: Remark {
                    persistent,
                    author,
                    text: comment,
                },
            },
        },
        Command::RemoveHostAcknowledgement { .. } | Command::RemoveSvcAcknowledgement { .. } => {
            Act::RemoveAcknowledgement {
                object: target.object(),
            }
        }
        Command::ScheduleHostDowntime {
            start_time,
            end_time,
            fixed,
            trigger_id,
            duration,
            ref author,
            ref comment,
            ..
        }
        | Command::ScheduleSvcDowntime {
            start_time,
            end_time,
            fixed,
            trigger_id,
            duration,
            ref author,
            ref comment,
            ..
        } => Act::Schedule {
            object: target.object(),
            asked: Planned {
                times: Times {
                    start_time,
                    end_time,
                    fixed,
                    trigger_id,
                    duration,
                },
                author,
                text: comment,
            },
        },
        Command::ScheduleHostSvcDowntime {
            start_time,
            end_time,
            fixed,
            trigger_id,
            duration,
            ref author,
            ref comment,
            ..
        } => Act::ScheduleServices {
            host: target.object(),
            asked: Planned {
                times: Times {
                    start_time,
                    end_time,
                    fixed,
                    trigger_id,
                    duration,
                },
                author,
                text: comment,
            },
        },
        Command::DelHostDowntime { id } => Act::DelDowntime {
            kind: Kind::Host,
            id,
        },
        Command::DelSvcDowntime { id } => Act::DelDowntime {
            kind: Kind::Service,
            id,
        },
        Command::ProcessHostCheckResult {
            code,
            ref output,
            ..
        }
        | Command::ProcessServiceCheckResult {
            code,
            ref output,
            ..
        } => Act::CheckResult {
            object: target.object(),
            code,
            output,
        },
        Command::EnableNotifications => Act::SetNotifications { on: true },
        Command::DisableNotifications => Act::SetNotifications { on: false },
        Command::StartAcceptingPassiveHostChecks => Act::SetAccepting {
            kind: Kind::Host,
            on: true,
        },
        Command::StartAcceptingPassiveSvcChecks => Act::SetAccepting {
            kind: Kind::Service,
            on: true,
        },
        Command::StopAcceptingPassiveHostChecks => Act::SetAccepting {
            kind: Kind::Host,
            on: false,
        },
        Command::StopAcceptingPassiveSvcChecks => Act::SetAccepting {
            kind: Kind::Service,
            on: false,
        },
        Command::EnableContactHostNotifications { .. } => Act::SetContact {
            contact: target.contact(),
            kind: Kind::Host,
            on: true,
        },
        Command::EnableContactSvcNotifications { .. } => Act::SetContact {
            contact: target.contact(),
            kind: Kind::Service,
            on: true,
        },
        Command::DisableContactHostNotifications { .. } => Act::SetContact {
            contact: target.contact(),
            kind: Kind::Host,
            on: false,
        },
        Command::DisableContactSvcNotifications { .. } => Act::SetContact {
            contact: target.contact(),
            kind: Kind::Service,
            on: false,
        },
        Command::EnableHostNotifications { .. } | Command::EnableSvcNotifications { .. } =>
            Act::Set {
                object: target.object(),
                setting: Setting::Notify(true),
            },
        Command::DisableHostNotifications { .. } | Command::DisableSvcNotifications { .. } =>
            Act::Set {
                object: target.object(),
                setting: Setting::Notify(false),
            },
        Command::EnableHostSvcNotifications { .. } => Act::SetServices {
            host: target.object(),
            setting: Setting::Notify(true),
        },
        Command::DisableHostSvcNotifications { .. } => Act::SetServices {
            host: target.object(),
            setting: Setting::Notify(false),
        },
        Command::EnablePassiveHostChecks { .. } | Command::EnablePassiveSvcChecks { .. } =>
            Act::Set {
                object: target.object(),
                setting: Setting::Passive(true),
            },
        Command::DisablePassiveHostChecks { .. } | Command::DisablePassiveSvcChecks { .. } =>
            Act::Set {
                object: target.object(),
                setting: Setting::Passive(false),
            },
        Command::DelayHostNotification { time, .. } | Command::DelaySvcNotification { time, .. } =>
            Act::Set {
                object: target.object(),
                setting: Setting::Delay(time),
            },
        Command::SetHostNotificationNumber { number, .. }
        | Command::SetSvcNotificationNumber { number, .. } => Act::Set {
            object: target.object(),
            setting: Setting::Number(number),
        },
        Command::SendCustomHostNotification { options, .. }
        | Command::SendCustomSvcNotification { options, .. } => Act::SendCustom {
            object: target.object(),
            options,
        },
        Command::RestartProgram => Act::Restart,
    }
}

//! A notice that went out: its word and moment, its object with code and notification number, and the contacts that it
//! reached. Nothing in this file makes a notice.
use cmd_types::Numbers;

/// The event or the command for which a notice goes out (Notifications; the words of downtimes are profile).
#[derive(Clone, Copy)]
pub enum Word {
    Problem,
    Recovery,
    Acknowledgement,
    DowntimeStart,
    DowntimeEnd,
    DowntimeCancelled,
    /// A custom notice, which a command sends.
    Custom,
}

/// The contents of a notice, the same for each contact.
#[derive(Clone, Copy)]
pub struct Subject {
    /// The second of the notice: that of the downtime's event, else the monitor's clock.
    pub moment: u64,
    pub word: Word,
    pub object: u16,
    /// The code of the object when the notice went out.
    pub code: u8,
    /// The notification number.
    pub number: u64,
}

/// A notice, and the contacts that it reached: their indices, ascending, at least one.
#[derive(Drop)]
pub struct Notice {
    pub subject: Subject,
    pub contacts: Numbers,
}

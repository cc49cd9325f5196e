//! The report of a run with a journal: the journal, the monitor after it, the senders' reports and the settled queue.
use cmd_journal::Journal;
use cmd_queue::Settled;
use cmd_run::SenderReport;
use mon_engine::Monitor;

/// The report of a run with a journal (profile).
///
/// See the example of [`run`].
pub struct RunReport {
    /// The commands in the order in which they were taken and applied.
    pub journal: Journal,
    /// The monitor after all commands of the journal.
    pub monitor: Monitor,
    /// One report of each sender, in the order of the readers.
    pub senders: Vec<SenderReport>,
    /// The settled queue, with the list of all that was taken.
    pub settled: Settled,
}

// Written by hand, so that a caller's exits call it and do not each drop every field.
impl Drop for RunReport {
    fn drop(self) {
        let RunReport {
            journal: _,
            monitor: _,
            senders: _,
            settled: _,
        } = self;
    }
}

//! The lines on the error stream with which a run that follows feeds reports on itself and on its feeds. Several
//! threads print them, so each line is made whole before it is written.
ghost use Rattle.std.specs.Prelude.{◌≡◌, IfOk, string_bytes};
ghost use Rattle.cmd_answer.specs.FollowLines.{follow_line, absent_line};

use crate::printing::ending_text;
use cmd_run::Ending;
use cmd_types::Memory;
use mon_inventory::Cause;
use std::alloc::Global;

/// A line that a run that follows feeds, or the mode `told`, prints on the error stream, other than [`AbsentFeed`] and
/// the lines for refused lines (profile). Feeds are numbered from 0, lines from 1.
///
/// ```
/// let line = FollowLine::Waits {
///     feed: 2,
///     line: 9,
///     seconds: 3600,
/// };
/// let Ok(text) = line.text(alloc) else {
///     return Err(Fail::new("there is memory"));
/// };
/// assert_eq!(rt;
///     text.as_str(),
///     "gateway: feed 2 waits: line 9 is 3600 seconds ahead\n"
/// );
/// ```
#[derive(Clone, Copy, Debug, PartialEq, Eq)]
pub enum FollowLine {
    /// The run begins: the number of feeds that it follows, the number of entries applied before, and the monitor's
    /// clock in seconds.
    Following {
        feeds: u64,
        entries: u64,
        clock: u64,
    },
    /// A command waits: the time in its line is `seconds` seconds ahead of the system's clock.
    Waits {
        feed: u64,
        line: u64,
        seconds: u64,
    },
    /// The file of a feed was truncated, or its path now names another file or none.
    Replaced {
        feed: u64,
    },
    /// The file of a feed is not the one that earlier runs read, and is read from its beginning.
    Anew {
        feed: u64,
    },
    /// A feed has ended, in this way.
    Ended {
        feed: u64,
        ending: Ending,
    },
    /// The system's clock has jumped: it has moved forward by `seconds` seconds more than the time that passed.
    ClockAhead {
        seconds: u64,
    },
    /// A new inventory was taken without a restart: the number of its hosts, and that of its services.
    NewInventory {
        hosts: u64,
        services: u64,
    },
    /// A new inventory was not taken: its first faulty line, and the cause of the fault. The old inventory stays in
    /// force.
    InventoryRefused {
        line: u64,
        cause: Cause,
    },
    /// The file `told.SEGMENT` of the place after which told lines are to be printed is missing: the lines begin at the
    /// first later segment that has a file.
    ToldMissing {
        segment: u64,
        line: u64,
    },
}

impl FollowLine {
    /// The text of the line, with its line feed.
    ///
    /// # Errors
    /// Out of memory.
    pub fn text(self, alloc: Global) -> Result<String, Memory>
        ensures { IfOk result (λ text. string_bytes text ≡ follow_line self) }
    {
        match self {
            FollowLine::Following {
                feeds,
                entries,
                clock,
            } => format!(in alloc;
                "gateway: following {feeds} feeds, {entries} entries, clock {clock}\n"
            ),
            FollowLine::Waits {
                feed,
                line,
                seconds,
            } => format!(in alloc;
                "gateway: feed {feed} waits: line {line} is {seconds} seconds ahead\n"
            ),
            FollowLine::Replaced { feed } => {
                format!(in alloc; "gateway: feed {feed}: replaced\n")
            }
            FollowLine::Anew { feed } => {
                format!(in alloc; "gateway: feed {feed}: begins anew\n")
            }
            FollowLine::Ended { feed, ending } => {
                let ending = ending_text(ending);
                format!(in alloc; "gateway: feed {feed}: {ending}\n")
            }
            FollowLine::ClockAhead { seconds } => {
                format!(in alloc; "gateway: clock: {seconds} seconds ahead\n")
            }
            FollowLine::NewInventory { hosts, services } => format!(in alloc;
                "gateway: inventory: {hosts} hosts, {services} services\n"
            ),
            FollowLine::InventoryRefused { line, cause } => {
                let cause = cause.number();
                format!(in alloc; "gateway: inventory refused: line {line}: {cause}\n")
            }
            FollowLine::ToldMissing { segment, line } => {
                format!(in alloc; "gateway: told {segment}.{line}: not there\n")
            }
        }
    }
}

/// The line that a run that follows feeds prints on a feed whose file it cannot read yet (profile). The run continues
/// with the other feeds.
///
/// ```
/// let feed = AbsentFeed {
///     path: "checks",
///     is_there: false,
/// };
/// let Ok(text) = feed.text(alloc) else {
///     return Err(Fail::new("there is memory"));
/// };
/// assert_eq!(rt; text.as_str(), "gateway: feed checks: not there\n");
/// ```
#[derive(Clone, Copy, Debug, PartialEq, Eq)]
pub struct AbsentFeed<'a> {
    /// The path of the file, as the call names it. It has no line feed.
    pub path: &'a str,
    /// Whether the file exists but cannot be opened or read.
    pub is_there: bool,
}

impl AbsentFeed<'_> {
    /// The text of the line, with its line feed.
    ///
    /// # Errors
    /// Out of memory.
    pub fn text(&self, alloc: Global) -> Result<String, Memory>
        ensures { IfOk result (λ text. string_bytes text ≡ absent_line self.now) }
    {
        let path = self.path;
        if self.is_there {
            format!(in alloc; "gateway: feed {path}: not opened\n")
        } else {
            format!(in alloc; "gateway: feed {path}: not there\n")
        }
    }
}

//! A feed that makes its commands: each of them is journaled, and then the feed ends, or fails.
ghost use Rattle.std.specs.Prelude.{None, true, false};

use super::{Fail, OPTIONS, check_report, report_of};
use crate::{Ending, Feed, FeedFailed, LONGEST_MADE, RunOptions};
use cmd_types::{Command, CommandName, Memory, Stamped};
use std::alloc::Global;
use std::sync::Wait;

/// A feed that makes a command of each time from `next` to `last`, and then ends, or fails where `breaks` is set.
#[derive(Drop)]
struct Maker {
    alloc: Global,
    next: u64,
    last: u64,
    breaks: bool,
}

impl Feed for Maker {
    ghost remaining = { λ _. None };

    ghost fails = { λ _. true };

    ghost fills = { λ _. false };

    fn read<W: Wait>(&mut self, _rt: &W, _buffer: &mut [u8]) -> Result<usize, FeedFailed> {
        Err(FeedFailed)
    }

    fn failing(&self) -> bool {
        true
    }

    fn makes(&self) -> bool {
        true
    }

    fn make<W: Wait>(&mut self, _rt: &W) -> Result<Option<Stamped>, FeedFailed> {
        if self.next > self.last {
            return if self.breaks {
                Err(FeedFailed)
            } else {
                Ok(None)
            };
        }
        let Ok(command) = Stamped::new(self.next, Command::RestartProgram) else {
            return Err(FeedFailed);
        };
        let mut line = Vec::new(self.alloc);
        let Ok(()) = command.write_line(self.alloc, &mut line) else {
            return Err(FeedFailed);
        };
        if line.len() as u64 > LONGEST_MADE {
            return Err(FeedFailed);
        }
        self.next = self.next.saturating_add(1);
        Ok(Some(command))
    }
}

/// The only feed, which makes `last` commands.
fn making(alloc: Global, last: u64, breaks: bool) -> Result<Vec<Maker>, Memory> {
    let mut readers = Vec::new(alloc);
    readers.push(Maker {
        alloc,
        next: 1,
        last,
        breaks,
    })?;
    Ok(readers)
}

/// The number of commands that a feed makes, whether it then fails, the most reads of 64 bytes, the number of journaled
/// commands, and the ending of the feed.
const MADE: &[(u64, bool, u32, u32, Ending)] = &[
    (0, false, u32::MAX, 0, Ending::Whole),
    (3, false, u32::MAX, 3, Ending::Whole),
    (3, true, u32::MAX, 3, Ending::ReadFailed),
    (3, false, 4, 3, Ending::Whole),
    (3, false, 3, 3, Ending::ReadFailed),
    (3, false, 2, 2, Ending::ReadFailed),
];

#[test]
fn made_commands_are_journaled(rt: HostRuntime) -> Result<(), Fail> {
    let alloc = rt.alloc();
    for (last, breaks, reads, entries, ending) in MADE {
        let options = RunOptions {
            piece: 64,
            reads: *reads,
            ..OPTIONS
        };
        let report = report_of(&rt, alloc, making(alloc, *last, *breaks)?, options)?;
        let told = (u64::from(*entries), [].as_slice(), *ending);
        check_report(&rt, &report, *entries, &[told]);
        for entry in report.journal.entries() {
            assert_eq!(rt; entry.stamped.time(), entry.place);
            assert!(rt; entry.stamped.command().name() == CommandName::RestartProgram);
        }
    }
    Ok(())
}

//! The body of the thread of a sender whose feed makes its commands: it sends each command as soon as the feed has made
//! it, and its close mark at the end. No text is read, and no memory is allocated.
ghost use Rattle.std.specs.Prelude.{◌≡◌, ◌≤◌, ◌+◌, ◌++◌, ◌∷◌, [], true, IfSome, IfNone, MatchBool, length};
ghost use Rattle.cmd_lines.specs.declared.lines.TheConstants.{MOST_FED};
ghost use Rattle.cmd_queue.specs.Sides.{with_command};
ghost use Rattle.cmd_queue.specs.Plans.{planned_of, ComeFirst, commands_in};
ghost use Rattle.cmd_dispatch.specs.Planned.{IsPlannedBy};
ghost use Rattle.cmd_dispatch.specs.Sends.{HasKept, HasRead, HasSent, IsPartRead};

use crate::feed::{Feed, LONGEST_MADE};
use crate::reading::Reading;
use crate::reporter::Reporter;
use crate::sender::{leave, send_mark};
use cmd_lines::{a_canonical_line_is_one_item, text_that_grows};
use cmd_queue::{ClosedSender, SenderSide};
use cmd_run::Ending;
use cmd_types::Stamped;
use std::sync::Wait;

/// Sends a command that the feed made. Where the command must wait, blocks the sender's thread first. The command is
/// sent however the wait ends, since no later run could read it from a text. Returns whether the queue took the
/// command; where it did not, `side` is unchanged.
fn send_one<P: Reporter, W: Wait>(
    rt: &W,
    side: &mut SenderSide,
    report: &mut P,
    command: Stamped,
) -> bool
    requires few { length side.old.list ≤ MOST_FED }
    requires planned { ComeFirst (planned_of side.old.queue.plan side.old.sender) (commands_in side.old.list ++ command ∷ []) }
    ensures sent { MatchBool result (side.new ≡ with_command side.old (length side.old.list + 1) command) (side.new ≡ side.old) }
    ensures kept { HasKept (P.has_taken report.old) (P.has_taken report.new) }
{
    let time = command.time();
    if report.must_wait(time) {
        // Each line of the feed is a command, so the place of a command is the number of its line.
        report.wait_for(time, side.sent() + 1).ok();
    }
    side.submit(rt, command).is_ok()
}

/// Sends the commands that the feed makes, up to its end or its failure, and returns the ending; `None` where the queue
/// refused a command. The feed also fails once it has made as many commands as are sure to fit into the bytes that
/// `reading` allows.
fn send_each<F: Feed, P: Reporter, W: Wait>(
    rt: &W,
    feed: &mut F,
    side: &mut SenderSide,
    report: &mut P,
    reading: Reading,
) -> Option<Ending>
    requires failing { F.fails feed.old ≡ true }
    requires new { side.old.list ≡ [] }
    requires planned { IsPlannedBy (F.remaining feed.old) side.old }
    requires none_taken { P.has_taken report.old [] }
    ensures read { IfSome result (λ how. HasRead (F.remaining feed.old) (F.remaining feed.new) (F.fails feed.old) (F.fills feed.old) reading.piece reading.reads how side.new (P.has_taken report.new)) }
    ensures begun { IfNone result (IsPartRead (F.remaining feed.old) (F.remaining feed.new) (F.fails feed.old) reading.piece reading.reads side.new (P.has_taken report.new)) }
    ensures side { (side.new.queue ≡ side.old.queue) × (side.new.sender ≡ side.old.sender) }
{
    // For the proof alone, at no cost when it runs: the line of a command is one line, and has one item, also in a text
    // that grows.
    a_canonical_line_is_one_item();
    text_that_grows();
    let most = u64::from(reading.reads) * reading.piece as u64 / LONGEST_MADE;
    'commands: for _ in 0..most {
        match feed.make(rt) {
            Ok(Some(command)) => {
                if !send_one(rt, side, report, command) {
                    return None;
                }
            }
            Ok(None) => return Some(Ending::Whole),
            Err(_) => return Some(Ending::ReadFailed),
        }
    }
    Some(Ending::ReadFailed)
}

/// Sends the commands that a feed makes and then the close mark; returns the sender's end and the report. Where the
/// queue refuses, sends no mark. Requires a feed that may fail.
pub(crate) fn send_made<F: Feed, P: Reporter, W: Wait>(
    rt: &W,
    mut side: SenderSide,
    feed: &mut F,
    mut report: P,
    reading: Reading,
) -> (ClosedSender, P)
    requires failing { F.fails feed.old ≡ true }
    requires new { side.list ≡ [] }
    requires planned { IsPlannedBy (F.remaining feed.old) side }
    requires none_taken { P.has_taken report [] }
    ensures { HasSent (F.remaining feed.old) (F.remaining feed.new) (F.fails feed.old) (F.fills feed.old) reading.piece reading.reads side.queue side.sender result.0 (P.view result.1) (P.has_taken result.1) }
{
    match send_each(rt, feed, &mut side, &mut report, reading) {
        Some(ending) => send_mark(rt, side, report, ending),
        None => leave(side, report),
    }
}

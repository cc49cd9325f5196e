//! Feeds that fill messages and feeds that do not, and one that pauses in the middle of a message.
ghost use Rattle.std.specs.Prelude.{◌≡◌, ◌++◌, ◌∷◌, [], None, true, false, IfOk, codes};
ghost use Rattle.std.specs.List.{flat_map, range_with_len};
ghost use Rattle.std.specs.Fmt.{decimal};

use super::{Fail, Feed, FeedFailed, OPTIONS, board_and_reader, check_sender, watched_report_of};
use crate::reading::Reading;
use crate::sender::{Sender, send_all};
use crate::{BoardReader, Bytes, Ending, SenderReport};
use cmd_queue::{DispatcherSide, SenderSide, queue};
use cmd_types::Memory;
use std::alloc::Global;
use std::io::Read;
use std::process::Abort;
use std::sync::Wait;
use std::sync::atomic::{AtomicBool, Ordering};
use std::thread;
use std::thread::Threads;

/// The lines of `count` commands, at the times 1, 2, ..
pub fn lines(alloc: Global, count: u64) -> Result<Vec<u8>, Fail>
    ensures { IfOk result (λ text. text.items ≡ flat_map (λ time. codes "[" ++ (decimal time ++ (codes "] RESTART_PROGRAM" ++ 10 ∷ []))) (range_with_len 1 count)) }
{
    let mut text = Vec::new(alloc);
    'lines: for before in 0..count {
        let time = before + 1;
        let line = format!(in alloc; "[{time}] RESTART_PROGRAM\n")?;
        text.extend_from_slice(line.as_bytes())?;
    }
    Ok(text)
}

/// Asserts that each feed was read to its end without a refused line, with the number of commands in `lengths`.
fn check_lengths(rt: &impl Abort, senders: &[SenderReport], lengths: &[u64]) {
    for (sender, accepted) in senders.iter().zip(lengths) {
        check_sender(rt, sender, &(*accepted, &[], Ending::Whole));
    }
}

/// One of two feeds that share a flag.
#[derive(Drop)]
enum Half<'a> {
    /// Returns one piece at a read, and before the second one waits until the flag is set.
    Pauses {
        flag: &'a AtomicBool,
        pieces: &'static [&'static [u8]],
        next: usize,
    },
    /// Returns no byte, and sets the flag once the board shows five entries.
    Sees {
        flag: &'a AtomicBool,
        board: BoardReader,
    },
}

/// Whether the flag was set, checked a bounded number of times.
fn is_set(flag: &AtomicBool) -> bool {
    for _ in 0..1_000_000u32 {
        if flag.load(Ordering::SeqCst) {
            return true;
        }
        thread::yield_now();
    }
    false
}

/// Whether the board showed five entries, checked a bounded number of times.
fn sees_five(board: &mut BoardReader) -> bool {
    for _ in 0..1_000_000u32 {
        if board.look().entries == 5 {
            return true;
        }
        thread::yield_now();
    }
    false
}

impl Feed for Half<'_> {
    ghost remaining = { λ _. None };

    ghost fails = { λ _. true };

    ghost fills = { λ _. false };

    fn read<W: Wait>(&mut self, _rt: &W, buffer: &mut [u8]) -> Result<usize, FeedFailed> {
        match self {
            Half::Pauses { flag, pieces, next } => {
                if *next == 1 && !is_set(flag) {
                    return Err(FeedFailed);
                }
                let Some(piece) = pieces.get(*next) else {
                    return Ok(0);
                };
                *next += 1;
                let mut piece = *piece;
                match piece.read(buffer) {
                    Ok(count) => Ok(count),
                    Err(_) => Err(FeedFailed),
                }
            }
            Half::Sees { flag, board } => {
                if !sees_five(board) {
                    return Err(FeedFailed);
                }
                flag.store(true, Ordering::SeqCst);
                Ok(0)
            }
        }
    }

    fn failing(&self) -> bool {
        true
    }
}

const FIVE_AND_FIVE: &[&[u8]] = &[
    b"[1] RESTART_PROGRAM\n[2] RESTART_PROGRAM\n[3] RESTART_PROGRAM\n[4] RESTART_PROGRAM\n[5] RESTART_PROGRAM\n",
    b"[6] RESTART_PROGRAM\n[7] RESTART_PROGRAM\n[8] RESTART_PROGRAM\n[9] RESTART_PROGRAM\n[10] RESTART_PROGRAM\n",
];

/// A feed of ten commands that pauses after five, and one that waits for these five on the board.
fn halves(alloc: Global, flag: &AtomicBool, board: BoardReader) -> Result<Vec<Half<'_>>, Memory> {
    let mut readers = Vec::new(alloc);
    readers.push(Half::Pauses {
        flag,
        pieces: FIVE_AND_FIVE,
        next: 0,
    })?;
    readers.push(Half::Sees { flag, board })?;
    Ok(readers)
}

#[test]
fn what_a_feed_gave_is_applied_while_it_pauses(rt: HostRuntime) -> Result<(), Fail> {
    let alloc = rt.alloc();
    let flag = AtomicBool::new(false);
    let (inventory, mut writer, board) = board_and_reader(alloc)?;
    let readers = halves(alloc, &flag, board)?;
    let report = watched_report_of(&rt, alloc, inventory, readers, OPTIONS, &mut writer)?;
    check_lengths(&rt, &report.senders, &[10, 0]);
    Ok(())
}

/// The side of a queue's only sender, which has sent nothing, and the dispatcher's side.
fn one_side<R>(rt: &R, alloc: Global, messages: usize) -> Result<(SenderSide, DispatcherSide), Fail>
    ensures { IfOk result (λ q. (q.0.list ≡ []) × (q.0.queue.plan ≡ [])) }
{
    let (mut sides, dispatcher) = queue(rt, alloc, 1, messages)?;
    match sides.pop() {
        Some(side) => Ok((side, dispatcher)),
        None => Err(Fail::new("side 0")),
    }
}

/// Asserts that the sender of `text`, which one read returns, reports `accepted` commands and no refused line.
fn check_sent<R: Abort + Wait>(rt: &R, alloc: Global, side: SenderSide, text: &[u8], accepted: u64)
    requires { (side.list ≡ []) × (side.queue.plan ≡ []) }
{
    let reading = Reading {
        piece: 4_096,
        reads: 2,
    };
    let report = SenderReport {
        accepted: 0,
        refused: Vec::new(alloc),
        ending: Ending::Whole,
    };
    let sender = Sender {
        side,
        feed: Bytes::new(text),
        reading,
        report,
    };
    let (_, report, _) = send_all(rt, alloc, sender);
    check_sender(rt, &report, &(accepted, &[], Ending::Whole));
}

/// Asserts the same where the queue has room for `messages` messages and none is taken. A sender that still waits for
/// room after a bounded number of checks is refused.
fn check_untaken<R: Abort + Threads + Wait + Sync>(
    rt: &R,
    alloc: Global,
    text: &[u8],
    messages: usize,
    accepted: u64,
) -> Result<(), Fail> {
    let over = AtomicBool::new(false);
    let over = &over;
    thread::scope(thread::scope_env(), rt, move |scope| -> Result<(), Fail> {
        let (side, dispatcher) = one_side(rt, alloc, messages)?;
        let sending = scope
            .spawn(
                move ||
                    requires { (side.list ≡ []) × (side.queue.plan ≡ []) }
                {
                    check_sent(rt, alloc, side, text, accepted);
                    over.store(true, Ordering::SeqCst);
                },
            )
            .ok()
            .ok_or("no thread")?;
        is_set(over);
        drop(dispatcher);
        sending.join(rt);
        Ok(())
    })
}

#[test]
fn thirty_two_commands_are_one_message(rt: HostRuntime) -> Result<(), Fail> {
    let alloc = rt.alloc();
    // The close mark is a message too.
    for (count, messages) in [(32, 2), (33, 3), (64, 3)] {
        let text = lines(alloc, count)?;
        check_untaken(&rt, alloc, &text, messages, count)?;
    }
    Ok(())
}

//! The end of a run that follows feeds: the lines `feed` and the exit status, or the stop of a run that failed. No
//! function here writes to a stream.
ghost use Rattle.std.specs.Prelude.{◌≡◌, ◌≤◌, ◌&&◌, ◌++◌, IfOk, OnOk, map};
ghost use Rattle.std.specs.List.{list_all};
ghost use Rattle.cmd_answer.specs.Printed.{is_whole};
ghost use Rattle.gateway.specs.Followed.{end_line, followed_status, lines_due, run_stop};

use cmd_answer::{Stop, put_feed_end};
use cmd_dispatch::{Ending, FollowedFeed, RunCause, SenderReport};
use cmd_ledger::is_clock;
use cmd_live::{Attending, FeedSystem, Run};
use cmd_types::Memory;
use std::marker::Send;

/// The stop of the program where the run failed by this cause: `Stop::Output` or `Stop::Memory` for the cause of that
/// name, else `Stop::Fault` with the number and the sender of the cause.
pub(crate) fn stop_of(cause: RunCause) -> Stop
    ensures { result ≡ run_stop cause }
{
    match cause {
        RunCause::Output => Stop::Output,
        RunCause::Memory => Stop::Memory,
        _ => Stop::Fault {
            cause: cause.number(),
            sender: cause.sender(),
        },
    }
}

/// Whether the feed was read to its end and no line of it was refused.
fn is_clean<R: FeedSystem + Sync>(feed: &FollowedFeed<Attending<'_, R>>) -> bool
where
    R::File: Send,
    R::Dir: Send,
    R::Stream: Send,
    ensures { result ≡ (is_whole feed.now.report.ending && feed.now.attendant.is_clean) }
{
    feed.report.ending == Ending::Whole && feed.attendant.is_clean
}

/// Whether every feed was read to its end and no line of it was refused.
fn are_clean<R: FeedSystem + Sync>(feeds: &[FollowedFeed<Attending<'_, R>>]) -> bool
where
    R::File: Send,
    R::Dir: Send,
    R::Stream: Send,
    ensures { result ≡ list_all (λ f. is_whole f.report.ending && f.attendant.is_clean) feeds.now }
{
    feeds.iter().all(|feed| is_clean(feed))
}

/// The exit status: 0 where all feeds were read to their end and no line was refused, else 1.
fn status_of<R: FeedSystem + Sync>(feeds: &[FollowedFeed<Attending<'_, R>>]) -> u8
where
    R::File: Send,
    R::Dir: Send,
    R::Stream: Send,
    ensures status { result ≡ followed_status (map (λ f. f.report) feeds.now) (map (λ f. f.attendant.is_clean) feeds.now) }
    ensures low { result ≤ 1 }
{
    if are_clean(feeds) { 0 } else { 1 }
}

/// Appends the line `feed` for the feed `number`; appends nothing where that is the clock feed. If memory runs out,
/// `out` is unchanged.
fn put_end(
    out: &mut Vec<u8>,
    clock: Option<u16>,
    number: usize,
    report: &SenderReport,
) -> Result<(), Memory>
    ensures { OnOk result (out.new.items ≡ out.old.items ++ end_line clock number report.now) }
{
    if is_clock(clock, number) {
        return Ok(());
    }
    put_feed_end(out, number as u64, report.accepted, report.ending)
}

/// The lines `feed` for the feeds that the call names where feeds are drained, else an empty text. Fails if memory runs
/// out.
fn lines_of<R: FeedSystem + Sync>(
    run: &Run<'_, R>,
    feeds: &[FollowedFeed<Attending<'_, R>>],
) -> Result<Vec<u8>, Memory>
where
    R::File: Send,
    R::Dir: Send,
    R::Stream: Send,
    ensures { IfOk result (λ text. text.items ≡ lines_due run.now.call.now.asked.now.following.drain run.now.clock (map (λ f. f.report) feeds.now)) }
{
    let mut text = Vec::new(run.call.alloc);
    if !run.call.asked.following.drain {
        return Ok(text);
    }
    for number in 0..feeds.len() {
        put_end(&mut text, run.clock, number, &feeds[number].report)?;
    }
    Ok(text)
}

/// The text and the exit status at the end of a run. The text is the lines `feed` for the feeds that the call names
/// where feeds are drained, else empty. The status is 0 where all feeds were read to their end and no line was refused,
/// else 1. Fails if memory runs out. Prints nothing.
pub(crate) fn due<R: FeedSystem + Sync>(
    run: &Run<'_, R>,
    feeds: &[FollowedFeed<Attending<'_, R>>],
) -> Result<(Vec<u8>, u8), Memory>
where
    R::File: Send,
    R::Dir: Send,
    R::Stream: Send,
    ensures lines { IfOk result (λ due. due.0.items ≡ lines_due run.now.call.now.asked.now.following.drain run.now.clock (map (λ f. f.report) feeds.now)) }
    ensures status { IfOk result (λ due. due.1 ≡ followed_status (map (λ f. f.report) feeds.now) (map (λ f. f.attendant.is_clean) feeds.now)) }
    ensures low { IfOk result (λ due. due.1 ≤ 1) }
{
    let lines = lines_of(run, feeds)?;
    Ok((lines, status_of(feeds)))
}

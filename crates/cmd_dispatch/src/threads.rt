//! Starts a thread for each sender, and joins the threads. Each thread reads its own feed, sends by its own side of the
//! queue, and returns its end, its reporter and its feed.
ghost use Rattle.std.specs.Prelude.{◌≡◌, ◌≤◌, [], length, map, vec_capacity, IfSome};
ghost use Rattle.cmd_dispatch.specs.Sends.{HasSent};
ghost use Rattle.cmd_dispatch.specs.Delivered.{HaveTakenNothing, taken_at};
ghost use Rattle.cmd_dispatch.specs.Planned.{IsPlannedBy};
ghost use Rattle.cmd_dispatch.specs.Threads.{AreNew, ArePlannedBy, HaveStarted, HaveEnded};

use crate::feed::Feed;
use crate::reading::Reading;
use crate::reporter::Reporter;
use crate::sender::{Sender, send_all};
use cmd_queue::{ClosedSender, SenderSide};
use std::alloc::Global;
use std::snapshot::Snapshot;
use std::sync::Wait;
use std::thread::{Promise, PromisedHandle, Scope, Threads};

/// The promise of a sender's thread: it has sent the commands of all that was read of its feed, or a prefix of them
/// where it stopped, reports them, and returns the feed.
#[derive(Drop)]
pub struct Promised<F> {
    side: Snapshot<SenderSide>,
    feed: Snapshot<F>,
    reading: Reading,
}

impl<F: Feed, P: Reporter> Promise<(ClosedSender, P, F)> for Promised<F> {
    ghost use Rattle.cmd_dispatch.specs.Sends.{HasSent};

    ghost kept_by = { λ p r. HasSent (F.remaining p.feed.value) (F.remaining r.2) (F.fails p.feed.value) (F.fills p.feed.value) p.reading.piece p.reading.reads p.side.value.queue p.side.value.sender r.0 (P.view r.1) (P.has_taken r.1) };
}

/// The handle of a sender's thread, with its promise.
pub(crate) type Started<F, P> = PromisedHandle<(ClosedSender, P, F), Promised<F>>;

/// The senders of a run before any thread is started; the side, the feed and the reporter of a sender have the same
/// index.
#[derive(Drop)]
pub(crate) struct Senders<F: Feed, P: Reporter> {
    pub sides: Vec<SenderSide>,
    pub feeds: Vec<F>,
    pub reading: Reading,
    pub reports: Vec<P>,
}

/// Starts the thread of a sender, whose body is `send_all`, and returns its handle. Where the thread is not started,
/// returns `None`, and the sender and its feed are dropped.
fn start<'s, E, F: Feed + 's, P: Reporter + 's, R: Wait + Sync>(
    rt: &'s R,
    alloc: Global,
    scope: &Scope<'s, E>,
    sender: Sender<F, P>,
) -> Option<Started<F, P>>
    requires new { sender.side.list ≡ [] }
    requires planned { IsPlannedBy (F.remaining sender.feed) sender.side }
    requires none_taken { P.has_taken sender.report [] }
    ensures { IfSome result (λ h. (h.promise.side.value ≡ sender.side) × (h.promise.feed.value ≡ sender.feed) × (h.promise.reading ≡ sender.reading)) }
{
    let promise = Promised {
        side: Snapshot::of(&sender.side),
        feed: Snapshot::of(&sender.feed),
        reading: sender.reading,
    };
    let started = scope.spawn_with(
        promise,
        move || -> (ClosedSender, P, F)
            requires { (sender.side.list ≡ []) × IsPlannedBy (F.remaining sender.feed) sender.side × P.has_taken sender.report [] }
            ensures { HasSent (F.remaining sender.feed) (F.remaining result.2) (F.fails sender.feed) (F.fills sender.feed) sender.reading.piece sender.reading.reads sender.side.queue sender.side.sender result.0 (P.view result.1) (P.has_taken result.1) }
        { send_all(rt, alloc, sender) },
    );
    started.ok()
}

/// Starts a thread for each sender, in order, and appends its handle to `started`. Returns true, or false where a
/// thread is not started: then the remaining senders are dropped. Requires that `started` is empty and has room.
pub(crate) fn start_all<'s, E, F: Feed + 's, P: Reporter + 's, R: Wait + Sync>(
    rt: &'s R,
    alloc: Global,
    scope: &Scope<'s, E>,
    senders: Senders<F, P>,
    started: &mut Vec<Started<F, P>>,
) -> bool
    requires new { (started.old.items ≡ []) × AreNew senders.sides.items (length senders.feeds.items) × HaveTakenNothing P.has_taken senders.reports.items (length senders.feeds.items) }
    requires planned { ArePlannedBy F.remaining senders.sides.items senders.feeds.items }
    requires room { length senders.feeds.items ≤ vec_capacity started.old }
    ensures { HaveStarted senders.sides.items senders.feeds.items senders.reading started.new.items result }
{
    let Senders {
        sides,
        feeds,
        reading,
        reports,
    } = senders;
    let mut sides = sides.into_iter();
    let mut reports = reports.into_iter();
    for feed in feeds {
        let Some(side) = sides.next() else {
            // There are as many sides and reports as feeds. Zipping the three vectors would need a fourth one.
            unreachable!()
        };
        let Some(report) = reports.next() else {
            // As above.
            unreachable!()
        };
        let sender = Sender {
            side,
            feed,
            reading,
            report,
        };
        let Some(handle) = start(rt, alloc, scope, sender) else {
            return false;
        };
        started.push_reserved(handle);
    }
    true
}

/// Joins each thread, in order; appends its end to `ends` and its report to `reports`, and drops its feed. Requires
/// that both lists are empty and have room.
pub(crate) fn join_all<F: Feed, P: Reporter, R: Threads>(
    rt: &R,
    started: Vec<Started<F, P>>,
    ends: &mut Vec<ClosedSender>,
    reports: &mut Vec<P>,
)
    requires empty { (ends.old.items ≡ []) × (reports.old.items ≡ []) }
    requires room { (length started.items ≤ vec_capacity ends.old) × (length started.items ≤ vec_capacity reports.old) }
    ensures { HaveEnded F.remaining F.fails F.fills started.items ends.new.items (map P.view reports.new.items) (taken_at P.has_taken reports.new.items) }
{
    for handle in started {
        let (end, report, _) = handle.join(rt);
        ends.push_reserved(end);
        reports.push_reserved(report);
    }
}

//! A run over readers with any log: a thread for each reader sends the reader's commands through one queue, and the
//! dispatcher passes them to the log on the caller's thread. The result has the log, the reports of the senders, the
//! settled queue, and the cause where the run failed.
ghost use Rattle.std.specs.Prelude.{◌≡◌, ◌≤◌, [], length, vec_capacity, MatchOption, None, IfOk, IfErr, map};
ghost use Rattle.cmd_queue.specs.Queue.{IsNewQueue};
ghost use Rattle.cmd_types.specs.declared.entry.TheConstants.{MOST_SENDERS};
ghost use Rattle.cmd_options.specs.Options.{MayRun};
ghost use Rattle.cmd_dispatch.specs.RunCalls.{sources};
ghost use Rattle.cmd_dispatch.specs.Planned.{plan_of};
ghost use Rattle.cmd_dispatch.specs.Dispatches.{KnowsAll};
ghost use Rattle.cmd_dispatch.specs.Logs.{begun};
ghost use Rattle.cmd_dispatch.specs.Delivered.{HaveTakenNothing, taken_at};
ghost use Rattle.cmd_dispatch.specs.Runs.{HasEnded, IsFirstIncomplete, AreComplete, IsSpawned, IsCause};

use crate::dispatch::Dispatch;
use crate::feed::Feed;
use crate::log::Log;
use crate::reading::Reading;
use crate::reporter::Reporter;
use crate::threads::{Senders, Started, join_all, start_all};
use cmd_options::RunOptions;
use cmd_queue::{
    ClosedSender, DispatcherSide, Planning, QueueFault, SenderSide, Settled, planned_queue, settle,
};
use cmd_run::RunCause;
use cmd_types::{MOST_SENDERS, Memory};
use std::alloc::Global;
use std::marker::Brand;
use std::sync::Wait;
use std::thread;
use std::thread::{Scope, Threads};

/// The feeds of a run: the reader and the reporter of each feed, at the same index, and the options of the run.
#[derive(Drop)]
pub(crate) struct ReportedFeeds<F: Feed, P: Reporter> {
    pub readers: Vec<F>,
    pub reports: Vec<P>,
    pub options: RunOptions,
}

/// A run before its first thread is started: its feeds, the ends of the queue, the log, and empty lists with room.
#[derive(Drop)]
struct Prepared<F: Feed, P: Reporter, L: Log + Drop> {
    feeding: ReportedFeeds<F, P>,
    sides: Vec<SenderSide>,
    side: DispatcherSide,
    log: L,
    gathered: Gathered<F, P>,
}

/// The lists that a run fills: handles of threads, ends of senders, and reports. Each has room for all its items from
/// the start.
#[derive(Drop)]
struct Gathered<F: Feed, P: Reporter> {
    started: Vec<Started<F, P>>,
    ends: Vec<ClosedSender>,
    senders: Vec<P>,
}

/// A run that came to its end: its log, the report of each sender that was started, the settled queue, and the cause;
/// `None` where the run did not fail.
#[derive(Drop)]
pub(crate) struct Ran<L: Log + Drop, P: Reporter> {
    pub log: L,
    pub senders: Vec<P>,
    pub settled: Settled,
    pub cause: Option<RunCause>,
}

/// The smallest number of a sender whose ending is not complete; `None` where all endings are complete.
fn first_stopped<P: Reporter>(senders: &[P]) -> Option<u16>
    requires { length senders.now ≤ MOST_SENDERS }
    ensures { MatchOption result (AreComplete (map P.view senders.now)) (λ k. IsFirstIncomplete k (map P.view senders.now)) }
{
    for k in 0..senders.len() {
        if !senders[k].ending().is_complete() {
            return Some(k as u16);
        }
    }
    None
}

/// The cause by which the run failed, or `None`: `fault`, or else `SenderStopped` with the first sender whose ending is
/// not complete.
fn cause_of<P: Reporter>(fault: Option<RunCause>, senders: &[P]) -> Option<RunCause>
    requires { length senders.now ≤ MOST_SENDERS }
    ensures { IsCause fault (map P.view senders.now) result }
{
    if fault.is_some() {
        return fault;
    }
    first_stopped(senders).map(RunCause::SenderStopped)
}

/// `None` where all threads were started, else `Spawn` with `count`, the number of the first sender without a thread.
fn spawn_fault(all: bool, count: u16) -> Option<RunCause>
    ensures { IsSpawned all count result }
{
    if all {
        None
    } else {
        Some(RunCause::Spawn(count))
    }
}

/// Makes empty lists with room for `count` threads, ends and reports, so that none of these takes memory while threads
/// run. If memory runs out, no list is made.
fn reserve<F: Feed, P: Reporter>(alloc: Global, count: usize) -> Result<Gathered<F, P>, Memory>
    ensures empty { IfOk result (λ g. (g.started.items ≡ []) × (g.ends.items ≡ []) × (g.senders.items ≡ [])) }
    ensures room { IfOk result (λ g. (count ≤ vec_capacity g.started) × (count ≤ vec_capacity g.ends) × (count ≤ vec_capacity g.senders)) }
{
    Ok(Gathered {
        started: Vec::with_capacity(alloc, count)?,
        ends: Vec::with_capacity(alloc, count)?,
        senders: Vec::with_capacity(alloc, count)?,
    })
}

/// Makes the queue of a run. Its plan, which is for the proofs alone, is of what the readers spell.
fn queue_of<J: Planning, F: Feed, R>(
    rt: &R,
    alloc: Global,
    readers: &[F],
    capacity: usize,
) -> Result<(Vec<SenderSide>, DispatcherSide), QueueFault>
    requires plan { J.plan ≡ plan_of F.remaining readers.now }
    requires few { length readers.now ≤ MOST_SENDERS }
    ensures made { IfOk result (λ q. IsNewQueue (length readers.now) q.0.items q.1) }
    ensures planned { IfOk result (λ q. q.1.queue.plan ≡ plan_of F.remaining readers.now) }
{
    planned_queue::<J, R>(rt, alloc, readers.len() as u16, capacity)
}

/// Starts the threads, takes from the queue until each started sender has closed or the queue is lost, joins all
/// threads, and settles the queue. `Ran::cause` has the first cause where the run failed.
fn run_threads<'s, E, F: Feed + 's, P: Reporter + 's, R: Threads + Wait + Sync, L: Log + Drop>(
    rt: &'s R,
    alloc: Global,
    scope: &Scope<'s, E>,
    run: Prepared<F, P, L>,
) -> Ran<L, P>
    requires queue { IsNewQueue (length run.feeding.readers.items) run.sides.items run.side }
    requires plan { run.side.queue.plan ≡ plan_of F.remaining run.feeding.readers.items }
    requires range { MayRun (length run.feeding.readers.items) run.feeding.options }
    requires none_taken { HaveTakenNothing P.has_taken run.feeding.reports.items (length run.feeding.readers.items) }
    requires empty { (run.gathered.started.items ≡ []) × (run.gathered.ends.items ≡ []) × (run.gathered.senders.items ≡ []) }
    requires room { (length run.feeding.readers.items ≤ vec_capacity run.gathered.started) × (length run.feeding.readers.items ≤ vec_capacity run.gathered.ends) × (length run.feeding.readers.items ≤ vec_capacity run.gathered.senders) }
    requires begun { L.holds (begun run.log (plan_of F.remaining run.feeding.readers.items)) run.log None [] }
    requires rests { L.rests run.log }
    requires known { KnowsAll (L.knows (begun run.log (plan_of F.remaining run.feeding.readers.items))) (length run.feeding.readers.items) (plan_of F.remaining run.feeding.readers.items) }
    ensures ended { HasEnded (sources F.remaining F.fails F.fills run.feeding.options run.feeding.readers.items) (L.holds (begun run.log (plan_of F.remaining run.feeding.readers.items)) result.log) result.cause (map P.view result.senders.items) (taken_at P.has_taken result.senders.items) result.settled }
    // The taken messages are of the senders' queue.
    ensures queue { result.settled.queue ≡ run.side.queue }
{
    let Prepared {
        feeding,
        sides,
        mut side,
        log,
        gathered,
    } = run;
    let ReportedFeeds {
        readers,
        reports,
        options,
    } = feeding;
    let Gathered {
        mut started,
        mut ends,
        mut senders,
    } = gathered;
    let reading = Reading {
        piece: options.piece,
        reads: options.reads,
    };
    let unstarted = Senders {
        sides,
        feeds: readers,
        reading,
        reports,
    };
    let all = start_all(rt, alloc, scope, unstarted, &mut started);
    let count = started.len() as u16;
    let mut dispatch = Dispatch {
        log,
        fault: spawn_fault(all, count),
    };
    dispatch.collect(rt, alloc, &mut side, count);
    join_all(rt, started, &mut ends, &mut senders);
    let settled = settle(side, ends);
    let Dispatch { log, fault } = dispatch;
    let cause = cause_of(fault, &senders);
    Ran {
        log,
        senders,
        settled,
        cause,
    }
}

/// Runs the readers to their ends. Requires options in their ranges, and reporters and a log that have taken nothing.
/// If memory runs out before the first thread, nothing is started, the readers and the reporters are dropped, and the
/// error is the unchanged log.
pub(crate) fn run_logged<F: Feed, P: Reporter, R: Threads + Wait + Sync, L: Log + Drop>(
    rt: &R,
    alloc: Global,
    feeding: ReportedFeeds<F, P>,
    log: L,
) -> Result<Ran<L, P>, L>
    requires range { MayRun (length feeding.readers.items) feeding.options }
    requires none_taken { HaveTakenNothing P.has_taken feeding.reports.items (length feeding.readers.items) }
    requires begun { L.holds (begun log (plan_of F.remaining feeding.readers.items)) log None [] }
    requires rests { L.rests log }
    requires known { KnowsAll (L.knows (begun log (plan_of F.remaining feeding.readers.items))) (length feeding.readers.items) (plan_of F.remaining feeding.readers.items) }
    ensures ended { IfOk result (λ r. HasEnded (sources F.remaining F.fails F.fills feeding.options feeding.readers.items) (L.holds (begun log (plan_of F.remaining feeding.readers.items)) r.log) r.cause (map P.view r.senders.items) (taken_at P.has_taken r.senders.items) r.settled) }
    ensures same { IfErr result (λ l. l ≡ log) }
{
    let count = feeding.readers.len();
    let Ok(gathered) = reserve::<F, P>(alloc, count) else {
        return Err(log);
    };
    match queue_of::<Brand, F, R>(rt, alloc, &feeding.readers, feeding.options.capacity) {
        Ok((sides, side)) => {
            let run = Prepared {
                feeding,
                sides,
                side,
                log,
                gathered,
            };
            Ok(thread::scope(
                thread::scope_env(),
                rt,
                move |scope| -> Ran<L, P>
                    requires { IsNewQueue (length run.feeding.readers.items) run.sides.items run.side × (run.side.queue.plan ≡ plan_of F.remaining run.feeding.readers.items) × MayRun (length run.feeding.readers.items) run.feeding.options × HaveTakenNothing P.has_taken run.feeding.reports.items (length run.feeding.readers.items)
                        × ((run.gathered.started.items ≡ []) × (run.gathered.ends.items ≡ []) × (run.gathered.senders.items ≡ []))
                        × ((length run.feeding.readers.items ≤ vec_capacity run.gathered.started) × (length run.feeding.readers.items ≤ vec_capacity run.gathered.ends) × (length run.feeding.readers.items ≤ vec_capacity run.gathered.senders))
                        × L.holds (begun run.log (plan_of F.remaining run.feeding.readers.items)) run.log None [] × L.rests run.log × KnowsAll (L.knows (begun run.log (plan_of F.remaining run.feeding.readers.items))) (length run.feeding.readers.items) (plan_of F.remaining run.feeding.readers.items) }
                    ensures { HasEnded (sources F.remaining F.fails F.fills run.feeding.options run.feeding.readers.items) (L.holds (begun run.log (plan_of F.remaining run.feeding.readers.items)) result.log) result.cause (map P.view result.senders.items) (taken_at P.has_taken result.senders.items) result.settled }
                { run_threads(rt, alloc, scope, run) },
            ))
        }
        Err(_) => Err(log),
    }
}

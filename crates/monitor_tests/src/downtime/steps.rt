//! What is asked of downtimes, and compared with what is answered: a test is a table of such steps.
ghost use Rattle.mon_downtime.specs.Schedule.{IsSmallPlan};

use crate::notes::text;
use crate::support::same;
use cmd_types::{GREATEST_NUMBER, Memory};
use mon_downtime::{Downtime, Downtimes, Event, EventKind, Fate, Plan, Refusal, Times};
use std::alloc::AllocGlobal;
use std::process::Abort;

/// Start, end, whether fixed, trigger and duration.
pub type Terms = (u64, u64, bool, u64, u64);

/// The moment, kind and id of an event.
pub type Row = (u64, EventKind, u64);

fn plan(rt: &(impl Abort + AllocGlobal), terms: Terms) -> Plan
    ensures { IsSmallPlan result }
{
    let (start_time, end_time, fixed, trigger_id, duration) = terms;
    assert!(rt; start_time <= GREATEST_NUMBER && end_time <= GREATEST_NUMBER);
    assert!(rt; duration <= GREATEST_NUMBER);
    Plan {
        times: Times {
            start_time,
            end_time,
            fixed,
            trigger_id,
            duration,
        },
        author: text(rt, b"ann"),
        text: text(rt, b"move"),
    }
}

/// The last id, and how many downtimes and events there are.
fn counts(downtimes: &Downtimes) -> (u64, usize, usize) {
    (
        downtimes.last_id(),
        downtimes.list().len(),
        downtimes.events().len(),
    )
}

fn scheduled(
    rt: &(impl Abort + AllocGlobal),
    downtimes: &mut Downtimes,
    clock: u64,
    object: u16,
    terms: Terms,
) -> Result<u64, Refusal> {
    assert!(rt; downtimes.last_id() < 10_000 && clock <= GREATEST_NUMBER);
    downtimes.schedule(rt.alloc(), clock, object, plan(rt, terms))
}

/// Schedules a downtime. After Memory nothing has changed, and the same call continues.
pub fn schedule(
    rt: &(impl Abort + AllocGlobal),
    downtimes: &mut Downtimes,
    clock: u64,
    object: u16,
    terms: Terms,
    expected: Result<u64, Refusal>,
) {
    let before = counts(downtimes);
    let mut answer = scheduled(rt, downtimes, clock, object, terms);
    if answer == Err(Refusal::Memory) {
        same(rt, counts(downtimes), before);
        answer = scheduled(rt, downtimes, clock, object, terms);
    }
    same(rt, answer, expected);
}

fn scheduled_many(
    rt: &(impl Abort + AllocGlobal),
    downtimes: &mut Downtimes,
    clock: u64,
    objects: &[u16],
    terms: Terms,
) -> Result<u64, Refusal> {
    assert!(rt; downtimes.last_id() < 1_000 && objects.len() < 1_000);
    assert!(rt; clock <= GREATEST_NUMBER);
    downtimes.schedule_many(rt.alloc(), clock, objects, &plan(rt, terms))
}

/// The same for several objects.
fn schedule_many(
    rt: &(impl Abort + AllocGlobal),
    downtimes: &mut Downtimes,
    clock: u64,
    objects: &[u16],
    terms: Terms,
    expected: Result<u64, Refusal>,
) {
    let before = counts(downtimes);
    let mut answer = scheduled_many(rt, downtimes, clock, objects, terms);
    if answer == Err(Refusal::Memory) {
        same(rt, counts(downtimes), before);
        answer = scheduled_many(rt, downtimes, clock, objects, terms);
    }
    same(rt, answer, expected);
}

fn cancelled(
    rt: &(impl Abort + AllocGlobal),
    downtimes: &mut Downtimes,
    id: u64,
) -> Result<Vec<u64>, Memory> {
    assert!(rt; downtimes.live(id));
    downtimes.cancel(rt.alloc(), id)
}

/// Cancels a downtime that is active; the ids of those that were active. After Memory it still is, and the same call
/// continues.
pub fn cancel_all(rt: &(impl Abort + AllocGlobal), downtimes: &mut Downtimes, id: u64) -> Vec<u64> {
    let before = (counts(downtimes), fate(downtimes, id));
    let mut answer = cancelled(rt, downtimes, id);
    if answer.is_err() {
        same(rt, (counts(downtimes), fate(downtimes, id)), before);
        answer = cancelled(rt, downtimes, id);
    }
    answer.expect(rt, "memory is refused twice")
}

/// Cancels a downtime with which none that is active goes. It takes no memory, so none can be refused.
pub fn cancel_pending(rt: &(impl Abort + AllocGlobal), downtimes: &mut Downtimes, id: u64) {
    let ids = cancelled(rt, downtimes, id).expect(rt, "no memory is taken");
    same(rt, ids.len(), 0);
}

/// Cancels a downtime, with which these go that were active.
fn cancel(rt: &(impl Abort + AllocGlobal), downtimes: &mut Downtimes, id: u64, expected: &[u64]) {
    same(rt, cancel_all(rt, downtimes, id).as_slice(), expected);
}

fn fate(downtimes: &Downtimes, id: u64) -> Option<Fate> {
    match downtimes.find(id) {
        None => None,
        Some(downtime) => Some(downtime.fate),
    }
}

fn row_of(event: Event) -> Row {
    (event.moment(), event.kind(), event.id())
}

/// Takes the event that is due at a second, where there is one.
fn take_event(rt: &impl Abort, downtimes: &mut Downtimes, second: u64, expected: Option<Row>) {
    same(rt, downtimes.take_event(second).map(row_of), expected);
}

/// Takes the event that is due at a second.
pub fn take(rt: &impl Abort, downtimes: &mut Downtimes, second: u64, expected: Row) {
    take_event(rt, downtimes, second, Some(expected));
}

/// A problem of an object starts this downtime, or none.
fn problem(
    rt: &impl Abort,
    downtimes: &mut Downtimes,
    object: u16,
    clock: u64,
    expected: Option<u64>,
) {
    same(rt, downtimes.problem_seen(object, clock), expected);
}

/// The event that is due at a second, where there is one.
fn check_due(rt: &impl Abort, downtimes: &Downtimes, second: u64, expected: Option<Row>) {
    same(rt, downtimes.next_due(second).map(row_of), expected);
}

/// The first of all events that are known.
fn check_first_event(rt: &impl Abort, downtimes: &Downtimes, expected: Row) {
    same(
        rt,
        downtimes.events().first().copied().map(row_of),
        Some(expected),
    );
}

/// All events that are known.
fn check_events(rt: &impl Abort, downtimes: &Downtimes, expected: &[Row]) {
    same(rt, downtimes.events().len(), expected.len());
    for (found, row) in downtimes.events().iter().zip(expected) {
        same(rt, row_of(*found), *row);
    }
}

/// A downtime's object, the second at which it was entered, and its text.
fn entered(downtime: &Downtime) -> (u16, u64, &[u8]) {
    (
        downtime.object,
        downtime.entered,
        downtime.plan.text.as_bytes(),
    )
}

/// The downtimes are of these objects, all entered at a second.
fn check_entered(rt: &impl Abort, downtimes: &Downtimes, second: u64, objects: &[u16]) {
    same(rt, downtimes.last_id(), objects.len() as u64);
    for (downtime, object) in downtimes.list().iter().zip(objects) {
        same(rt, entered(downtime), (*object, second, b"move"));
    }
}

/// A call, and what it returns.
pub enum DowntimeStep {
    /// The second and the object.
    Schedule(u64, u16, Terms, Result<u64, Refusal>),
    /// The second and the objects.
    ScheduleMany(u64, &'static [u16], Terms, Result<u64, Refusal>),
    /// The id, and the ids of those that were active.
    Cancel(u64, &'static [u64]),
    /// The second, and the event that is due then and taken.
    Take(u64, Option<Row>),
    /// The object and the second of a problem, and the downtime that it starts.
    Problem(u16, u64, Option<u64>),
    /// The second, and the event that is due then.
    Due(u64, Option<Row>),
    /// The object, and how many downtimes of it are active.
    Depth(u16, u64),
    /// How many objects are in downtime.
    InDowntime(u64),
    LastId(u64),
    Live(u64, bool),
    HasFate(u64, Fate),
    EventCount(usize),
    FirstEvent(Row),
    /// All events that are known.
    Events(&'static [Row]),
    /// The second at which all were entered, and the object of each.
    Entered(u64, &'static [u16]),
}

use DowntimeStep::*;

/// Makes the call of a step, and compares its answer.
fn make(rt: &(impl Abort + AllocGlobal), downtimes: &mut Downtimes, step: &DowntimeStep) {
    match step {
        Schedule(clock, object, terms, answer) => {
            schedule(rt, downtimes, *clock, *object, *terms, *answer);
        }
        ScheduleMany(clock, objects, terms, answer) => {
            schedule_many(rt, downtimes, *clock, objects, *terms, *answer);
        }
        Cancel(id, ids) => cancel(rt, downtimes, *id, ids),
        Take(second, row) => take_event(rt, downtimes, *second, *row),
        Problem(object, clock, id) => problem(rt, downtimes, *object, *clock, *id),
        Due(second, row) => check_due(rt, downtimes, *second, *row),
        Depth(object, depth) => same(rt, downtimes.depth(*object), *depth),
        InDowntime(count) => same(rt, downtimes.objects_in_downtime(), *count),
        LastId(id) => same(rt, downtimes.last_id(), *id),
        Live(id, live) => same(rt, downtimes.live(*id), *live),
        HasFate(id, expected) => same(rt, fate(downtimes, *id), Some(*expected)),
        EventCount(count) => same(rt, downtimes.events().len(), *count),
        FirstEvent(row) => check_first_event(rt, downtimes, *row),
        Events(rows) => check_events(rt, downtimes, rows),
        Entered(second, objects) => check_entered(rt, downtimes, *second, objects),
    }
}

/// Makes the calls of the steps, one after the other.
pub fn run(rt: &(impl Abort + AllocGlobal), downtimes: &mut Downtimes, steps: &[DowntimeStep]) {
    for step in steps {
        make(rt, downtimes, step);
    }
}

/// The same of several tables, from no downtime on.
pub fn run_all(rt: &(impl Abort + AllocGlobal), tables: &[&[DowntimeStep]]) {
    let mut downtimes = Downtimes::new(rt.alloc());
    for steps in tables {
        run(rt, &mut downtimes, steps);
    }
}

//! The examples that the documentation of the public items has, a test each, with the same lines.
ghost use Rattle.std.specs.Prelude.{IfOk};
ghost use Rattle.mon_downtime.specs.Schedule.{IsSmallPlan};

use crate::notes::made;
use cmd_types::Text;
use mon_downtime::{Downtimes, Event, EventKind, Fate, Plan, Refusal, Times, unrecorded};
use std::alloc::Global;
use std::test::Fail;

/// From second 100 to second 200.
fn fixed(alloc: Global) -> Result<Plan, Fail>
    ensures { IfOk result (λ p. IsSmallPlan p) }
{
    let author = made(alloc, b"ann")?;
    let text = made(alloc, b"move")?;
    Ok(Plan {
        times: Times {
            start_time: 100,
            end_time: 200,
            fixed: true,
            trigger_id: 0,
            duration: 0,
        },
        author,
        text,
    })
}

#[test]
fn downtimes(rt: HostRuntime) -> Result<(), Fail> {
    let alloc = rt.alloc();
    // fixed: gives a fixed plan from second 100 to second 200
    let mut downtimes = Downtimes::new(alloc);
    let id = downtimes.schedule(alloc, 50, 0, fixed(alloc)?);
    assert_eq!(rt; id, Ok(1));
    assert_eq!(rt; downtimes.depth(0), 0);
    assert!(rt; downtimes.take_event(150).is_some());
    assert_eq!(rt; downtimes.depth(0), 1);
    Ok(())
}

#[test]
fn objects_in_downtime(rt: HostRuntime) -> Result<(), Fail> {
    let alloc = rt.alloc();
    // fixed: gives a fixed plan from second 100 to second 200
    let mut downtimes = Downtimes::new(alloc);
    let ids = downtimes.schedule_many(alloc, 50, &[0, 1, 1], &fixed(alloc)?);
    assert_eq!(rt; ids, Ok(1));
    for _ in 0..3 {
        assert!(rt; downtimes.take_event(150).is_some());
    }
    assert_eq!(rt; downtimes.objects_in_downtime(), 2);
    Ok(())
}

#[test]
fn plan(rt: HostRuntime) -> Result<(), Fail> {
    let alloc = rt.alloc();
    let times = Times {
        start_time: 100,
        end_time: 200,
        fixed: true,
        trigger_id: 0,
        duration: 0,
    };
    let author = Text::new(Vec::from_slice(alloc, b"ann")?);
    let text = Text::new(Vec::from_slice(alloc, b"move")?);
    let plan = Plan {
        times,
        author,
        text,
    };
    assert_eq!(rt; plan.copies(alloc, 2)?.len(), 2);
    Ok(())
}

#[test]
fn event(rt: HostRuntime) -> Result<(), Fail> {
    let alloc = rt.alloc();
    // fixed: gives a fixed plan from second 100 to second 200
    let mut downtimes = Downtimes::new(alloc);
    let id = downtimes.schedule(alloc, 50, 0, fixed(alloc)?);
    assert_eq!(rt; id, Ok(1));
    let starts = Event::new(100, EventKind::Starts, 1);
    assert_eq!(rt; downtimes.take_event(150), Some(starts));
    Ok(())
}

#[test]
fn event_kind(rt: HostRuntime) -> Result<(), Fail> {
    let alloc = rt.alloc();
    // fixed: gives a fixed plan from second 100 to second 200
    let mut downtimes = Downtimes::new(alloc);
    let id = downtimes.schedule(alloc, 50, 0, fixed(alloc)?);
    assert_eq!(rt; id, Ok(1));
    assert_eq!(rt;
        downtimes.take_event(300).map(|event| event.kind()),
        Some(EventKind::Starts)
    );
    assert_eq!(rt;
        downtimes.take_event(300).map(|event| event.kind()),
        Some(EventKind::Ends)
    );
    Ok(())
}

#[test]
fn downtime(rt: HostRuntime) -> Result<(), Fail> {
    let alloc = rt.alloc();
    // fixed: gives a fixed plan from second 100 to second 200
    let mut downtimes = Downtimes::new(alloc);
    let id = downtimes.schedule(alloc, 50, 0, fixed(alloc)?);
    assert_eq!(rt; id, Ok(1));
    let Some(downtime) = downtimes.find(1) else {
        return Err(Fail::new("the downtime is there"));
    };
    assert_eq!(rt; downtime.entered, 50);
    assert_eq!(rt; downtime.fate, Fate::Pending);
    Ok(())
}

#[test]
fn times(rt: HostRuntime) -> Result<(), Fail> {
    let alloc = rt.alloc();
    // fixed: gives a fixed plan from second 100 to second 200
    let times = fixed(alloc)?.times;
    assert_eq!(rt; (times.start_time, times.end_time), (100, 200));
    Ok(())
}

#[test]
fn refusal_of_times(rt: HostRuntime) -> Result<(), Fail> {
    let alloc = rt.alloc();
    // fixed: gives a fixed plan from second 100 to second 200
    let downtimes = Downtimes::new(alloc);
    let times = fixed(alloc)?.times;
    assert_eq!(rt; downtimes.refusal(199, &times), None);
    assert_eq!(rt; downtimes.refusal(200, &times), Some(Refusal::PastWindow));
    Ok(())
}

#[test]
fn add_one(rt: HostRuntime) -> Result<(), Fail> {
    let alloc = rt.alloc();
    // fixed: gives a fixed plan from second 100 to second 200
    let mut downtimes = Downtimes::new(alloc);
    let plan = fixed(alloc)?;
    assert_eq!(rt; downtimes.refusal(50, &plan.times), None);
    assert_eq!(rt; downtimes.add_one(50, 0, plan)?, 1);
    Ok(())
}

#[test]
fn add_many(rt: HostRuntime) -> Result<(), Fail> {
    let alloc = rt.alloc();
    // fixed: gives a fixed plan from second 100 to second 200
    let mut downtimes = Downtimes::new(alloc);
    let plan = fixed(alloc)?;
    assert_eq!(rt; downtimes.refusal(50, &plan.times), None);
    assert_eq!(rt; downtimes.add_many(alloc, 50, &[0, 1], &plan)?, 1);
    assert_eq!(rt; downtimes.last_id(), 2);
    Ok(())
}

#[test]
fn refusal(rt: HostRuntime) -> Result<(), Fail> {
    let alloc = rt.alloc();
    // fixed: gives a fixed plan from second 100 to second 200
    let mut downtimes = Downtimes::new(alloc);
    let refused = downtimes.schedule(alloc, 200, 0, fixed(alloc)?);
    assert_eq!(rt; refused, Err(Refusal::PastWindow));
    Ok(())
}

#[test]
fn records(rt: HostRuntime) -> Result<(), Fail> {
    assert_eq!(rt; unrecorded(&[]), None);
    Ok(())
}

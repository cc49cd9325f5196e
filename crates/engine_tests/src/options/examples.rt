//! The examples that the documentation of the public items has, a test each, with the same lines.
use super::OPTIONS;
use cmd_options::{
    Asked, FilesCall, FollowCall, Following, Keeping, MOST_READS, Mode, Options, RunOptions,
    ToldCall, ToldPlace,
};
use std::test::Fail;

const RUN: RunOptions = RunOptions {
    capacity: 64,
    piece: 4_096,
    limit: 1_000,
    reads: MOST_READS,
};

#[test]
fn options(rt: HostRuntime) {
    let options = RunOptions {
        capacity: 64,
        piece: 4_096,
        limit: 1_000_000,
        reads: u32::MAX,
    };
    assert!(rt; options.are_in_range());
    assert!(rt;
        !RunOptions {
            piece: 0,
            ..options
        }
        .are_in_range()
    );
    assert!(rt; options.may_run(1) && !options.may_run(0));
}

#[test]
fn modes(rt: HostRuntime) -> Result<(), Fail> {
    let run = RunOptions {
        capacity: 64,
        piece: 4_096,
        limit: 1_000,
        reads: MOST_READS,
    };
    let asked = Asked {
        figures: false,
        journal: true,
    };
    let mode = Mode::Bundle(Options { run, asked });
    assert!(rt; mode != Mode::Replay { limit: 1_000 });
    Ok(())
}

#[test]
fn files(rt: HostRuntime) -> Result<(), Fail> {
    let alloc = rt.alloc();
    // OPTIONS: options of a run
    let mut feeds = Vec::new(alloc);
    feeds.push("checks")?;
    let call = FilesCall {
        inventory: "inventory",
        feeds,
        options: OPTIONS,
    };
    assert_eq!(rt; call.feeds.len(), 1);
    Ok(())
}

#[test]
fn following(rt: HostRuntime) {
    let following = Following {
        drain: true,
        clock: 0,
        ahead: 60,
        verbose: false,
    };
    assert!(rt; following.drain);
}

#[test]
fn keeping(rt: HostRuntime) {
    let keeping = Keeping {
        state: Some("site"),
        syncs: true,
    };
    assert_eq!(rt; keeping.state, Some("site"));
}

#[test]
fn followed(rt: HostRuntime) -> Result<(), Fail> {
    let alloc = rt.alloc();
    // RUN: options of a run
    let mut feeds = Vec::new(alloc);
    feeds.push("checks")?;
    let call = FollowCall {
        inventory: "inventory",
        feeds,
        run: RUN,
        following: Following {
            drain: true,
            clock: 0,
            ahead: 0,
            verbose: false,
        },
        keeping: Keeping {
            state: None,
            syncs: true,
        },
    };
    assert_eq!(rt; call.feeds.len(), 1);
    Ok(())
}

#[test]
fn places_of_told_lines(rt: HostRuntime) {
    let place = ToldPlace {
        segment: 0,
        line: 12,
    };
    assert_eq!(rt; (place.segment, place.line), (0, 12));
}

#[test]
fn calls_for_told_lines(rt: HostRuntime) {
    let call = ToldCall {
        state: "site",
        after: None,
        since: Some(3_600),
        follow: false,
    };
    assert_eq!(rt; call.state, "site");
}

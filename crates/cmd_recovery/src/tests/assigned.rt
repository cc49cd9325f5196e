//! The numbers of feeds over starts.
use crate::*;
use cmd_types::Text;
use mon_state::{KeptFeed, KeptFeeds};
use std::alloc::Global;
use std::test::Fail;

/// The feeds of a directory; a row is a path and the number of journaled commands.
fn feeds(alloc: Global, rows: &[(&str, u64)], clock: Option<u16>) -> Result<KeptFeeds, Fail> {
    let mut list = Vec::new(alloc);
    for (words, journaled) in rows {
        list.push(KeptFeed {
            words: Text::from_slice(alloc, words.as_bytes())?,
            journaled: *journaled,
            earlier: 0,
            last: Text::from_slice(alloc, b"[9] RESTART_PROGRAM")?,
        })?;
    }
    Ok(KeptFeeds { list, clock })
}

/// The fault for which no numbers are assigned; `None` where they are.
fn fault_of(
    alloc: Global,
    feeds: &KeptFeeds,
    words: &[&str],
    has_clock: bool,
) -> Option<AssignFault> {
    assign(alloc, feeds, words, has_clock).err()
}

#[test]
fn feeds_given_in_another_order_keep_their_numbers(rt: HostRuntime) -> Result<(), Fail> {
    let alloc = rt.alloc();
    let before = feeds(alloc, &[("a", 2), ("b", 3)], None)?;
    let Ok(assigned) = assign(alloc, &before, &["b", "a"], false) else {
        return Err(Fail::new("both are given"));
    };
    assert_eq!(rt;
        assigned.roles.as_slice(),
        [Role::Given(1), Role::Given(0)].as_slice()
    );
    let [first, second] = assigned.feeds.list.as_slice() else {
        return Err(Fail::new("there are two feeds"));
    };
    assert_eq!(rt;
        (first.words.as_bytes(), first.journaled),
        (b"a".as_slice(), 2)
    );
    assert_eq!(rt;
        (second.words.as_bytes(), second.journaled),
        (b"b".as_slice(), 3)
    );
    assert_eq!(rt; second.last.as_bytes(), b"[9] RESTART_PROGRAM".as_slice());
    Ok(())
}

#[test]
fn a_new_feed_gets_the_next_number(rt: HostRuntime) -> Result<(), Fail> {
    let alloc = rt.alloc();
    let before = feeds(alloc, &[("a", 2), ("", 7)], Some(1))?;
    let Ok(assigned) = assign(alloc, &before, &["new", "a"], false) else {
        return Err(Fail::new("the clock alone is left out"));
    };
    assert_eq!(rt;
        assigned.roles.as_slice(),
        [Role::Given(1), Role::Clock, Role::Given(0)].as_slice()
    );
    assert_eq!(rt; assigned.feeds.clock, Some(1));
    let [_, clock, new] = assigned.feeds.list.as_slice() else {
        return Err(Fail::new("there are three feeds"));
    };
    assert_eq!(rt; clock.journaled, 7);
    assert_eq!(rt;
        (new.words.as_bytes(), new.journaled),
        (b"new".as_slice(), 0)
    );
    assert!(rt; new.last.as_bytes().is_empty());
    Ok(())
}

#[test]
fn a_clock_may_come_later(rt: HostRuntime) -> Result<(), Fail> {
    let alloc = rt.alloc();
    let before = feeds(alloc, &[("a", 2)], None)?;
    let Ok(assigned) = assign(alloc, &before, &["a"], true) else {
        return Err(Fail::new("the feed is given"));
    };
    assert_eq!(rt;
        assigned.roles.as_slice(),
        [Role::Given(0), Role::Clock].as_slice()
    );
    assert_eq!(rt; assigned.feeds.clock, Some(1));
    Ok(())
}

#[test]
fn a_feed_that_is_left_out_keeps_its_number(rt: HostRuntime) -> Result<(), Fail> {
    let alloc = rt.alloc();
    let before = feeds(alloc, &[("a", 2), ("b", 3)], None)?;
    let Ok(assigned) = assign(alloc, &before, &["b"], false) else {
        return Err(Fail::new("no feed is new"));
    };
    assert_eq!(rt;
        assigned.roles.as_slice(),
        [Role::Unnamed, Role::Given(0)].as_slice()
    );
    let [first, second] = assigned.feeds.list.as_slice() else {
        return Err(Fail::new("there are two feeds"));
    };
    assert_eq!(rt;
        (first.words.as_bytes(), first.journaled),
        (b"a".as_slice(), 2)
    );
    assert_eq!(rt; first.last.as_bytes(), b"[9] RESTART_PROGRAM".as_slice());
    assert_eq!(rt;
        (second.words.as_bytes(), second.journaled),
        (b"b".as_slice(), 3)
    );
    Ok(())
}

#[test]
fn one_of_two_feeds_of_a_path_may_be_left_out(rt: HostRuntime) -> Result<(), Fail> {
    let alloc = rt.alloc();
    let twice = feeds(alloc, &[("a", 2), ("a", 3)], None)?;
    let Ok(assigned) = assign(alloc, &twice, &["a"], false) else {
        return Err(Fail::new("no feed is new"));
    };
    assert_eq!(rt;
        assigned.roles.as_slice(),
        [Role::Given(0), Role::Unnamed].as_slice()
    );
    let [first, second] = assigned.feeds.list.as_slice() else {
        return Err(Fail::new("there are two feeds"));
    };
    assert_eq!(rt; (first.journaled, second.journaled), (2, 3));
    Ok(())
}

#[test]
fn feeds_may_be_left_out_beside_a_clock(rt: HostRuntime) -> Result<(), Fail> {
    let alloc = rt.alloc();
    let before = feeds(alloc, &[("a", 2), ("", 7), ("b", 3)], Some(1))?;
    let Ok(assigned) = assign(alloc, &before, &["b"], true) else {
        return Err(Fail::new("no feed is new"));
    };
    assert_eq!(rt;
        assigned.roles.as_slice(),
        [Role::Unnamed, Role::Clock, Role::Given(0)].as_slice()
    );
    assert_eq!(rt; assigned.feeds.clock, Some(1));
    let unclocked = feeds(alloc, &[("a", 2), ("b", 3)], None)?;
    let Ok(assigned) = assign(alloc, &unclocked, &["a"], true) else {
        return Err(Fail::new("the clock alone is new"));
    };
    assert_eq!(rt;
        assigned.roles.as_slice(),
        [Role::Given(0), Role::Unnamed, Role::Clock].as_slice()
    );
    assert_eq!(rt; assigned.feeds.clock, Some(2));
    Ok(())
}

#[test]
fn a_feed_that_is_left_out_beside_a_new_one_is_refused(rt: HostRuntime) -> Result<(), Fail> {
    let alloc = rt.alloc();
    let before = feeds(alloc, &[("a", 2), ("b", 3)], None)?;
    assert_eq!(rt;
        fault_of(alloc, &before, &["b", "./a"], false),
        Some(AssignFault::Feeds)
    );
    assert_eq!(rt; fault_of(alloc, &before, &["b", "./a", "a"], false), None);
    assert_eq!(rt; fault_of(alloc, &before, &[], false), None);
    // Its second feed of the path `b` is new too.
    assert_eq!(rt;
        fault_of(alloc, &before, &["b", "b"], false),
        Some(AssignFault::Feeds)
    );
    let twice = feeds(alloc, &[("a", 2), ("a", 3)], None)?;
    assert_eq!(rt;
        fault_of(alloc, &twice, &["a", "b"], false),
        Some(AssignFault::Feeds)
    );
    assert_eq!(rt; fault_of(alloc, &twice, &["a", "a"], false), None);
    let clocked = feeds(alloc, &[("a", 2), ("", 7)], Some(1))?;
    assert_eq!(rt;
        fault_of(alloc, &clocked, &["b"], false),
        Some(AssignFault::Feeds)
    );
    Ok(())
}

#[test]
fn paths_and_clocks_that_no_feed_can_have_are_refused(rt: HostRuntime) -> Result<(), Fail> {
    let alloc = rt.alloc();
    let none = feeds(alloc, &[], None)?;
    assert_eq!(rt;
        fault_of(alloc, &none, &["a\n"], false),
        Some(AssignFault::Feeds)
    );
    let unclocked = feeds(alloc, &[], Some(0))?;
    assert_eq!(rt;
        fault_of(alloc, &unclocked, &[], false),
        Some(AssignFault::Feeds)
    );
    Ok(())
}

#[test]
fn more_feeds_than_senders_are_refused(rt: HostRuntime) -> Result<(), Fail> {
    let alloc = rt.alloc();
    let none = feeds(alloc, &[], None)?;
    let words = vec![in alloc; "a"; 64]?;
    assert_eq!(rt; fault_of(alloc, &none, &words, false), None);
    assert_eq!(rt;
        fault_of(alloc, &none, &words, true),
        Some(AssignFault::TooMany)
    );
    let rows = vec![in alloc; ("a", 0); 64]?;
    let full = feeds(alloc, &rows, None)?;
    assert_eq!(rt; fault_of(alloc, &full, &[], false), None);
    assert_eq!(rt;
        fault_of(alloc, &full, &[], true),
        Some(AssignFault::TooMany)
    );
    Ok(())
}

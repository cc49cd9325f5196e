//! The words of feeds that are followed.
use cmd_options::{Following, Keeping, RunOptions};
use cmd_words::{WordsFault, follow_of};
use std::alloc::AllocGlobal;
use std::process::Abort;

/// The numbers that words set: the capacity and the piece, and the seconds of the clock and of the bound.
type Numbers = (usize, usize, u32, u32);

/// Words before the paths, whether feeds are drained, and the numbers that the words set.
const FOLLOWS: &[(&[&str], bool, Numbers)] = &[
    (&["follow", "i", "f"], false, (64, 4_096, 10, 60)),
    (&["follow", "--drain", "i", "f"], true, (64, 4_096, 0, 0)),
    (
        &["follow", "--clock", "5", "i", "f"],
        false,
        (64, 4_096, 5, 60),
    ),
    (
        &["follow", "--clock=0", "i", "f"],
        false,
        (64, 4_096, 0, 60),
    ),
    (
        &["follow", "--ahead", "7", "i", "f"],
        false,
        (64, 4_096, 10, 7),
    ),
    (
        &["follow", "--ahead=0", "i", "f"],
        false,
        (64, 4_096, 10, 0),
    ),
    (
        &["follow", "--drain", "--clock", "3", "i", "f"],
        true,
        (64, 4_096, 3, 0),
    ),
    (
        &["follow", "--ahead", "4", "--drain", "i", "f"],
        true,
        (64, 4_096, 0, 4),
    ),
    (
        &[
            "follow",
            "--clock=4294967295",
            "--ahead=4294967295",
            "i",
            "f",
        ],
        false,
        (64, 4_096, 4_294_967_295, 4_294_967_295),
    ),
    (
        &["follow", "--capacity", "1", "--piece=65536", "i", "f"],
        false,
        (1, 65_536, 10, 60),
    ),
    (
        &["follow", "--capacity=1024", "--piece", "1", "i", "f"],
        false,
        (1_024, 1, 10, 60),
    ),
    (
        &["follow", "--verbose", "i", "f"],
        false,
        (64, 4_096, 10, 60),
    ),
];

/// Asserts that the words ask for the inventory `i` and the feed `f`, followed with these options.
fn expect_follow<'a>(
    rt: &(impl Abort + AllocGlobal),
    words: &'a [&'a str],
    drain: bool,
    (capacity, piece, clock, ahead): Numbers,
) {
    let run = RunOptions {
        capacity,
        piece,
        limit: 268_435_455,
        reads: u32::MAX,
    };
    let following = Following {
        drain,
        clock,
        ahead,
        verbose: words.contains(&"--verbose"),
    };
    match follow_of(rt.alloc(), words) {
        Ok(call) => {
            assert_eq!(rt; call.inventory, "i", "{words:?}");
            assert_eq!(rt; call.feeds.as_slice(), ["f"].as_slice(), "{words:?}");
            assert!(rt; call.run == run, "{words:?}");
            assert!(rt; call.following == following, "{words:?}");
            assert!(rt; call.keeping.state.is_none(), "{words:?}");
        }
        Err(_) => assert!(rt; false, "{words:?}"),
    }
}

#[test]
fn followed_feeds(rt: HostRuntime) {
    for (words, drain, numbers) in FOLLOWS {
        expect_follow(&rt, words, *drain, *numbers);
    }
}

/// Words, where the run keeps its commands, whether it syncs, and the most entries of a segment.
const KEPT: &[(&[&str], Option<&str>, bool, u32)] = &[
    (
        &["follow", "--state", "d", "i", "f"],
        Some("d"),
        true,
        1_000_000,
    ),
    (
        &[
            "follow",
            "--state=d/e",
            "--no-sync",
            "--limit",
            "2",
            "i",
            "f",
        ],
        Some("d/e"),
        false,
        2,
    ),
    (
        &["follow", "--limit=268435455", "--state", "", "i", "f"],
        Some(""),
        true,
        268_435_455,
    ),
    // Where nothing is kept, the limit has no effect.
    (
        &["follow", "--no-sync", "--limit", "2", "i", "f"],
        None,
        false,
        268_435_455,
    ),
];

#[test]
fn kept_feeds(rt: HostRuntime) {
    for (words, state, syncs, limit) in KEPT {
        match follow_of(rt.alloc(), words) {
            Ok(call) => {
                let keeping = Keeping {
                    state: *state,
                    syncs: *syncs,
                };
                assert!(rt; call.keeping == keeping, "{words:?}");
                assert_eq!(rt; call.run.limit, *limit, "{words:?}");
            }
            Err(_) => assert!(rt; false, "{words:?}"),
        }
    }
}

/// Words with each number of feeds. A call without a feed is refused when it is run.
const FEEDS: &[(&[&str], &[&str])] = &[
    (&["follow", "i"], &[]),
    (&["follow", "i", "f", "-"], &["f", "-"]),
    (&["follow", "i", "f", "--drain", "g"], &["f", "g"]),
    (&["follow", "--", "i", "--drain"], &["--drain"]),
];

#[test]
fn each_feed_is_named(rt: HostRuntime) {
    for (words, feeds) in FEEDS {
        match follow_of(rt.alloc(), words) {
            Ok(call) => assert_eq!(rt; call.feeds.as_slice(), *feeds, "{words:?}"),
            Err(_) => assert!(rt; false, "{words:?}"),
        }
    }
}

/// Wrong uses.
const WRONG: &[&[&str]] = &[
    &["follow"],
    &["follow", "--drain"],
    &["follow", "--clock", "5"],
    &["follow", "--wait", "i", "f"],
    &["follow", "--limit", "0", "i", "f"],
    &["follow", "--limit", "268435456", "i", "f"],
    &["follow", "--no-sync=1", "i", "f"],
    &["follow", "--state", "d"],
    &["follow", "i", "f", "--state"],
    &["follow", "--state", "d", "--state", "e", "i", "f"],
    &["follow", "--journal", "i", "f"],
    &["follow", "--figures", "i", "f"],
    &["follow", "--drain=1", "i", "f"],
    &["follow", "i", "f", "--clock"],
    &["follow", "i", "f", "--ahead"],
    &["follow", "--clock", "-1", "i", "f"],
    &["follow", "--clock", "+1", "i", "f"],
    &["follow", "--clock", "4294967296", "i", "f"],
    &["follow", "--clock", "x", "i", "f"],
    &["follow", "--clock=", "i", "f"],
    &["follow", "--clock=1", "--clock=2", "i", "f"],
    &["follow", "--ahead", "4294967296", "i", "f"],
    &["follow", "--ahead", "1s", "i", "f"],
    &["follow", "--capacity", "0", "i", "f"],
    &["follow", "--capacity", "1025", "i", "f"],
    &["follow", "--piece", "0", "i", "f"],
    &["follow", "--piece", "65537", "i", "f"],
    &["follow", "--help"],
    &["files", "i", "f"],
];

#[test]
fn wrong_uses(rt: HostRuntime) {
    for words in WRONG {
        match follow_of(rt.alloc(), words) {
            Ok(_) => assert!(rt; false, "{words:?}"),
            Err(fault) => assert!(rt; fault == WordsFault::Usage, "{words:?}"),
        }
    }
}

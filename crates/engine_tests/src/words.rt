//! Tests of the words of the program, through the public calls of `cmd_words`.
mod examples;
mod followed;

use cmd_options::{Asked, Mode, Options, RunOptions};
use cmd_words::{WordsFault, mode_of, state_to_replay_of};
use std::alloc::AllocGlobal;
use std::process::Abort;

/// Words of a bundle, the capacity, the piece and the limit that they set, and whether they ask for the figures and the
/// journal.
const BUNDLES: &[(&[&str], usize, usize, u32, (bool, bool))] = &[
    (&[], 64, 4_096, 1_000_000, (false, false)),
    (&["bundle"], 64, 4_096, 1_000_000, (false, false)),
    (&["--journal"], 64, 4_096, 1_000_000, (false, true)),
    (&["--figures"], 64, 4_096, 1_000_000, (true, false)),
    (
        &["bundle", "--journal", "--figures"],
        64,
        4_096,
        1_000_000,
        (true, true),
    ),
    (&["--limit", "5"], 64, 4_096, 5, (false, false)),
    (&["--limit=5"], 64, 4_096, 5, (false, false)),
    (
        &["bundle", "--journal", "--limit", "1"],
        64,
        4_096,
        1,
        (false, true),
    ),
    (
        &["--limit", "268435455"],
        64,
        4_096,
        268_435_455,
        (false, false),
    ),
    (
        &["--capacity", "1", "--piece=1"],
        1,
        1,
        1_000_000,
        (false, false),
    ),
    (
        &["bundle", "--capacity=1024", "--piece", "65536"],
        1_024,
        65_536,
        1_000_000,
        (false, false),
    ),
];

/// Asserts that the words name this mode.
fn expect_mode(rt: &(impl Abort + AllocGlobal), words: &[&str], mode: Mode) {
    assert!(rt; mode_of(rt.alloc(), words) == Ok(mode), "{words:?}");
}

/// The mode of a bundle.
fn bundle(capacity: usize, piece: usize, limit: u32, (figures, journal): (bool, bool)) -> Mode {
    let run = RunOptions {
        capacity,
        piece,
        limit,
        reads: u32::MAX,
    };
    let asked = Asked { figures, journal };
    Mode::Bundle(Options { run, asked })
}

#[test]
fn bundles(rt: HostRuntime) {
    for (words, capacity, piece, limit, asked) in BUNDLES {
        expect_mode(&rt, words, bundle(*capacity, *piece, *limit, *asked));
    }
}

/// Words of a replay, and the limit that they set.
const REPLAYS: &[(&[&str], u32)] = &[
    (&["replay"], 1_000_000),
    (&["replay", "--limit", "7"], 7),
    (&["replay", "--limit=268435455"], 268_435_455),
];

#[test]
fn replays_of_state_directories(rt: HostRuntime) {
    let alloc = rt.alloc();
    for (words, wanted) in [
        (["replay", "--state", "site"].as_slice(), Ok(Some("site"))),
        (["replay", "--state=site"].as_slice(), Ok(Some("site"))),
        (["replay"].as_slice(), Ok(None)),
        (
            ["follow", "--state", "site", "inventory"].as_slice(),
            Ok(None),
        ),
        (["replay", "--state"].as_slice(), Err(WordsFault::Usage)),
        (
            ["replay", "--state", "site", "more"].as_slice(),
            Err(WordsFault::Usage),
        ),
    ] {
        assert_eq!(rt; state_to_replay_of(alloc, words), wanted);
    }
}

#[test]
fn replays(rt: HostRuntime) {
    for (words, limit) in REPLAYS {
        expect_mode(&rt, words, Mode::Replay { limit: *limit });
    }
}

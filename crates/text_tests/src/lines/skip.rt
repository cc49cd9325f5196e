//! Skipping the commands of a text, in pieces of several sizes.
use crate::support::same;
use cmd_lines::{Skip, Skipped, Skipping};
use cmd_types::Memory;
use std::alloc::{AllocGlobal, Global};
use std::process::Abort;

/// Three commands with empty and refused lines between them, and a line that is not finished.
const TEXT: &[u8] = b"\n\
[2] RESTART_PROGRAM\n\
x\n\
\r\n\
[3] ENABLE_NOTIFICATIONS\r\n\
\n\
[4] RESTART_PROGRAM\n\
y\n\
[5] REST";

/// The bytes and the lines up to a command, and its time.
type Known = (u64, u64, Option<u64>);

/// How many commands are skipped, and what is known then.
const ROWS: &[(u64, Option<Known>)] = &[
    (0, Some((0, 0, None))),
    (1, Some((21, 2, Some(2)))),
    (2, Some((51, 5, Some(3)))),
    (3, Some((72, 7, Some(4)))),
    (4, None),
    (u64::MAX, None),
];

fn fed(alloc: Global, rt: &impl Abort, skip: Skip, piece: &[u8]) -> Result<Skip, Memory> {
    match skip {
        Skip::More(skipping) => {
            assert!(rt; skipping.fed() < 1_000_000 && piece.len() < 1_000_000);
            skipping.feed(alloc, piece)
        }
        done => Ok(done),
    }
}

fn passed(alloc: Global, rt: &impl Abort, count: u64, size: usize) -> Result<Skip, Memory> {
    assert!(rt; size > 0);
    let mut skip = Skipping::new(alloc, count);
    for piece in TEXT.chunks(size) {
        skip = fed(alloc, rt, skip, piece)?;
    }
    Ok(skip)
}

/// The text is gone over again where an allocation is refused.
fn skip(rt: &(impl Abort + AllocGlobal), count: u64, size: usize) -> Option<Known> {
    let skip = match passed(rt.alloc(), rt, count, size) {
        Ok(skip) => skip,
        Err(_) => passed(rt.alloc(), rt, count, size).expect(rt, "memory is refused twice"),
    };
    match skip {
        Skip::More(_) => None,
        Skip::Done(Skipped { bytes, lines, last }) => {
            Some((bytes, lines, last.map(|stamped| stamped.time())))
        }
    }
}

#[test]
fn a_text_is_skipped_up_to_its_nth_command(rt: HostRuntime) {
    for size in [1usize, 2, 7, 24, 100] {
        for (count, want) in ROWS {
            same(&rt, skip(&rt, *count, size), *want);
        }
    }
}

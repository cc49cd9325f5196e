//! The position where the reading of a file begins, after earlier runs have read a part of it.
use cmd_live::{Known, Start, find_start};
use std::test::Fail;

/// A text with an empty line, a refused line, three commands and an unfinished line.
const TEXT: &[u8] =
    b"[1] RESTART_PROGRAM\n\nx\n[2] DEL_HOST_COMMENT;7\n[3] RESTART_PROGRAM\n[4] RES";

/// The number of journaled commands, the line of the last one, and the start of the reading.
const ROWS: &[(u64, &[u8], Start)] = &[
    (0, b"", Start::FIRST),
    // All journaled commands are of earlier files.
    (0, b"[9] RESTART_PROGRAM", Start::FIRST),
    (
        1,
        b"[1] RESTART_PROGRAM",
        Start::Behind {
            bytes: 20,
            lines: 1,
        },
    ),
    (
        2,
        b"[2] DEL_HOST_COMMENT;7",
        Start::Behind {
            bytes: 46,
            lines: 4,
        },
    ),
    (
        3,
        b"[3] RESTART_PROGRAM",
        Start::Behind {
            bytes: 66,
            lines: 5,
        },
    ),
    (2, b"[1] RESTART_PROGRAM", Start::Anew),
    (1, b"", Start::Anew),
    (4, b"[4] RESTART_PROGRAM", Start::Anew),
];

#[test]
fn reading_begins_behind_the_last_command(rt: HostRuntime) -> Result<(), Fail> {
    let alloc = rt.alloc();
    for (commands, last, start) in ROWS {
        let known = Known {
            commands: *commands,
            last,
        };
        let mut text = TEXT;
        assert!(rt; find_start(alloc, &mut text, known) == Some(*start));
    }
    Ok(())
}

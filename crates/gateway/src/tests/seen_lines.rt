//! The lines of a feed that its sender got last.
use cmd_live::SeenLines;
use std::test::Fail;

/// Pieces, and after all of them lines by their numbers, from 1: empty where they are not kept.
const ROWS: &[(&[&[u8]], &[(u64, &[u8])])] = &[
    (&[], &[(1, b""), (7, b"")]),
    (
        &[b"one\ntwo\nthr"],
        &[(1, b"one"), (2, b"two"), (3, b"thr"), (4, b"")],
    ),
    // Lines that had ended before the last piece are forgotten, and an unended one is continued.
    (
        &[b"one\ntwo\nthr", b"ee\nfour"],
        &[(3, b"three"), (4, b"four")],
    ),
    (
        &[b"on", b"e", b"\n\ntwo\n"],
        &[(1, b"one"), (2, b""), (3, b"two")],
    ),
];

#[test]
fn lines_are_kept_until_the_next_piece(rt: HostRuntime) -> Result<(), Fail> {
    let alloc = rt.alloc();
    for (pieces, lines) in ROWS {
        let mut seen = SeenLines::new(alloc);
        for piece in *pieces {
            seen.note(piece);
        }
        for (number, line) in *lines {
            assert!(rt; seen.line(*number) == *line);
        }
    }
    Ok(())
}

/// Of an unended line the first bytes are kept, however long the line is.
#[test]
fn a_long_line_is_kept_by_its_beginning(rt: HostRuntime) -> Result<(), Fail> {
    let alloc = rt.alloc();
    let mut seen = SeenLines::new(alloc);
    for _ in 0..3 {
        seen.note(&[b'x'; 4_096]);
    }
    seen.note(b"y\nnext\n");
    let line = seen.line(1);
    assert!(rt; line.len() == 129 && line.starts_with(&[b'x'; 128]));
    assert!(rt; seen.line(2) == b"next".as_slice());
    Ok(())
}

//! The text that is passed on from a pipe: whole lines, without the marks.
use cmd_live::{MARK, PipeText};
use std::test::Fail;

/// Reads, each with whether it was full, the text passed on, and the text left over.
const ROWS: &[(&[(&[u8], bool)], &[u8], &[u8])] = &[
    (&[(b"one\ntwo\nthr", false)], b"one\ntwo\n", b"thr"),
    (&[(b"on", false), (b"e\ntw", false)], b"one\n", b"tw"),
    // A mark in the middle of a line, beside whole lines, and alone.
    (
        &[(b"on", false), (b"\0\x01\n", false), (b"e\n", false)],
        b"one\n",
        b"",
    ),
    (&[(b"one\n\0\x01\ntw", false)], b"one\n", b"tw"),
    (&[(b"\0\x01\n\0\x01\n", false)], b"", b""),
    // A mark split between two reads.
    (&[(b"on\0", true), (b"\x01\ne\n", false)], b"one\n", b""),
    (
        &[(b"one\n\0\x01", true), (b"\ntwo\n", false)],
        b"one\ntwo\n",
        b"",
    ),
    // Bytes that only look like a mark; a full read that ends with a line is passed on whole.
    (&[(b"one\n", true)], b"one\n", b""),
    (&[(b"one\n\0\ntwo\n", false)], b"one\n\0\ntwo\n", b""),
    (
        &[(b"one\0\n", true), (b"two\n", false)],
        b"one\0\ntwo\n",
        b"",
    ),
];

#[test]
fn whole_lines_are_passed_on_without_marks(rt: HostRuntime) -> Result<(), Fail> {
    let alloc = rt.alloc();
    for (reads, given, left) in ROWS {
        let mut text = PipeText::new(Vec::new(alloc));
        let mut passed = Vec::new(alloc);
        let mut buffer = [0u8; 5];
        for (piece, is_full) in *reads {
            text.take(piece, *is_full)?;
            for _ in 0..100 {
                let count = text.give(&mut buffer);
                passed.extend_from_slice(&buffer[..count])?;
            }
        }
        assert!(rt; passed.as_slice() == *given && text.take_left(alloc).as_slice() == *left);
    }
    Ok(())
}

#[test]
fn what_is_taken_back_is_passed_on_again(rt: HostRuntime) -> Result<(), Fail> {
    let alloc = rt.alloc();
    let mut text = PipeText::new(Vec::from_slice(alloc, b"one\ntw")?);
    let mut buffer = [0u8; 9];
    assert!(rt; text.give(&mut buffer) == 4 && !text.has_whole());
    text.take_back(4);
    assert!(rt; text.give(&mut buffer) == 4 && buffer.starts_with(b"one\n"));
    text.end();
    assert!(rt; text.give(&mut buffer) == 2 && text.give(&mut buffer) == 0);
    text.take_back(1);
    assert!(rt; text.take_left(alloc).as_slice() == b"w".as_slice());
    assert!(rt; text.take_left(alloc).is_empty());
    Ok(())
}

/// Lines are counted over all reads, and bytes that were not passed on are kept.
#[test]
fn a_line_is_taken_back_by_its_number(rt: HostRuntime) -> Result<(), Fail> {
    let alloc = rt.alloc();
    let mut text = PipeText::new(Vec::from_slice(alloc, b"one\ntwo\nthree\n")?);
    let mut buffer = [0u8; 64];
    assert!(rt; text.give(&mut buffer) == 14);
    text.take_back_line(2);
    assert!(rt; text.give(&mut buffer) == 10 && buffer.starts_with(b"two\nthree\n"));
    text.take(b"four\nfive\nsi", false)?;
    let mut short = [0u8; 7];
    assert!(rt; text.give(&mut short) == 7 && short == *b"four\nfi");
    text.take_back_line(6);
    assert!(rt; text.give(&mut buffer) == 3 && buffer.starts_with(b"ve\n"));
    text.take_back_line(5);
    assert!(rt; text.give(&mut buffer) == 5 && buffer.starts_with(b"five\n"));
    text.take_back_line(4);
    assert!(rt; text.take_left(alloc).as_slice() == b"four\nfive\nsi".as_slice());
    Ok(())
}

/// The bytes left over begin with a line, although a part of the line was passed on.
#[test]
fn a_part_of_a_line_is_taken_back(rt: HostRuntime) -> Result<(), Fail> {
    let alloc = rt.alloc();
    let mut text = PipeText::new(Vec::from_slice(alloc, b"one\ntwo\nthr")?);
    let mut buffer = [0u8; 6];
    assert!(rt; text.give(&mut buffer) == 6);
    text.take_back_part();
    assert!(rt; text.take_left(alloc).as_slice() == b"two\nthr".as_slice());
    let mut text = PipeText::new(Vec::from_slice(alloc, b"one\ntwo\nthr")?);
    let mut buffer = [0u8; 8];
    assert!(rt; text.give(&mut buffer) == 8);
    text.take_back_part();
    assert!(rt; text.take_left(alloc).as_slice() == b"thr".as_slice());
    Ok(())
}

/// The rest of a line that is too long begins no command.
#[test]
fn a_rest_of_a_long_line_is_no_command(rt: HostRuntime) -> Result<(), Fail> {
    let alloc = rt.alloc();
    let mut text = PipeText::new(Vec::new(alloc));
    let mut buffer = [0u8; 20_000];
    text.take(&[b'x'; 16_384], true)?;
    assert!(rt; text.give(&mut buffer) == 16_384);
    text.take(b"[7] RESTART_PROGRAM\n[8] RESTART", false)?;
    text.take_back_part();
    assert!(rt; text.take_left(alloc).as_slice() == b".7] RESTART_PROGRAM\n[8] RESTART".as_slice());
    Ok(())
}

#[test]
fn a_line_that_is_too_long_is_passed_on_in_parts(rt: HostRuntime) -> Result<(), Fail> {
    let alloc = rt.alloc();
    let mut text = PipeText::new(Vec::new(alloc));
    let mut buffer = [0u8; 20_000];
    for _ in 0..3 {
        text.take(&[b'x'; 4_096], true)?;
        assert!(rt; text.give(&mut buffer) == 0);
    }
    text.take(&[b'x'; 4_096], true)?;
    assert!(rt; text.give(&mut buffer) == 16_384 && text.take_left(alloc).is_empty());
    assert_eq!(rt; MARK, b"\0\x01\n".as_slice());
    Ok(())
}

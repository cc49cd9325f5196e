//! The longest lines, and lines one byte longer.
use super::{HOST, WEB, bundle, compare, lines_of, output_of};
use std::alloc::{AllocError, Global};
use std::test::Fail;

/// A comment line: 31 bytes, `letters` letters, and `ending`.
fn comment_line(alloc: Global, letters: usize, ending: &[u8]) -> Result<Vec<u8>, AllocError> {
    let mut line = Vec::from_slice(alloc, b"[1] ADD_HOST_COMMENT;web;1;ann;")?;
    for _ in 0..letters {
        line.push(b'x')?;
    }
    line.extend_from_slice(ending)?;
    Ok(line)
}

/// The worked inventory, a separator, a line of 8,192 bytes, one of 8,193 and two short ones.
fn longest_lines(alloc: Global) -> Result<Vec<u8>, AllocError> {
    let mut feed = comment_line(alloc, 8_161, b"\n")?;
    feed.extend_from_slice(&comment_line(alloc, 8_162, b"\n")?)?;
    feed.extend_from_slice(b"[2] RESTART_PROGRAM\n[3] NOPE\n")?;
    bundle(alloc, WEB, &[feed.as_slice()])
}

/// The lines that are printed for them.
fn longest_told(alloc: Global) -> Result<Vec<u8>, AllocError> {
    let mut lines = Vec::from_slice(alloc, b"comment;1;web;;user;1;1;ann;")?;
    for _ in 0..8_161 {
        lines.push(b'x')?;
    }
    lines.extend_from_slice(b"\nfeed;0;2;whole\nrefused;0;2;1;0\nrefused;0;4;6;0\n")?;
    Ok(lines)
}

#[test]
fn a_line_has_at_most_8192_bytes(rt: HostRuntime) -> Result<(), Fail> {
    let alloc = rt.alloc();
    let output = output_of(&rt, &[], &longest_lines(alloc)?, 1);
    let lines = lines_of(alloc, &output, &[b"comment"])?;
    let told = longest_told(alloc)?;
    compare(&rt, &["the longest lines"], &lines, &told);
    Ok(())
}

/// The longest line, 9,000 carriage returns and an ending, after a host and a separator.
fn returns(alloc: Global, ending: &[u8]) -> Result<Vec<u8>, AllocError> {
    let mut feed = comment_line(alloc, 8_161, b"")?;
    for _ in 0..9_000 {
        feed.push(b'\r')?;
    }
    feed.extend_from_slice(ending)?;
    bundle(alloc, HOST, &[feed.as_slice()])
}

/// The bytes after the carriage returns, the exit status, and the lines for the feed.
const ENDINGS: &[(&[u8], u8, &[u8])] = &[
    (b"\n", 0, b"feed;0;1;whole\n"),
    (b"", 0, b"feed;0;1;whole\n"),
    (b"x\n", 1, b"feed;0;0;whole\nrefused;0;1;1;0\n"),
    (b"x", 1, b"feed;0;0;whole\nrefused;0;1;1;0\n"),
];

#[test]
fn carriage_returns_do_not_make_a_line_too_long(rt: HostRuntime) -> Result<(), Fail> {
    for (ending, status, told) in ENDINGS {
        let input = returns(rt.alloc(), ending)?;
        let output = output_of(&rt, &[], &input, *status);
        assert!(rt; output.ends_with(told));
    }
    Ok(())
}

//! Options and feeds at the ends of their ranges: the number and size of reads, the number of feeds, and the commands
//! that are journaled.
ghost use Rattle.std.specs.Prelude.{None, true, false};

use super::{Fail, Feed, FeedFailed, OPTIONS, check_run, check_run_alike, feeds, ring};
use crate::{Ending, Outside, RunOptions};
use std::io::{self, Read};
use std::sync::Wait;
use std::sync::atomic::{AtomicU32, Ordering};

/// Texts that are read byte by byte, the most reads, the number of accepted commands, and the ending.
const READS: &[(&[u8], u32, u32, Ending)] = &[
    (b"", 1, 0, Ending::Whole),
    (b"\n", 1, 0, Ending::TooManyReads),
    (b"\n", 2, 0, Ending::Whole),
    (b"[1] RESTART_PROGRAM\n", 20, 1, Ending::TooManyReads),
    (b"[1] RESTART_PROGRAM\n", 21, 1, Ending::Whole),
];

#[test]
fn the_end_is_a_read_too(rt: HostRuntime) -> Result<(), Fail> {
    for (text, reads, accepted, ending) in READS {
        let options = RunOptions {
            piece: 1,
            reads: *reads,
            ..OPTIONS
        };
        let readers = feeds(rt.alloc(), &[*text])?;
        let told = (u64::from(*accepted), [].as_slice(), *ending);
        check_run(&rt, rt.alloc(), readers, options, *accepted, &[told])?;
    }
    Ok(())
}

/// A feed without bytes, whose read fails where another number of bytes is requested.
#[derive(Drop)]
struct PieceFeed {
    bytes: usize,
}

impl Feed for PieceFeed {
    ghost remaining = { λ _. None };

    ghost fails = { λ _. true };

    ghost fills = { λ _. false };

    fn read<W: Wait>(&mut self, _rt: &W, buffer: &mut [u8]) -> Result<usize, FeedFailed> {
        if buffer.len() == self.bytes {
            Ok(0)
        } else {
            Err(FeedFailed)
        }
    }

    fn failing(&self) -> bool {
        true
    }
}

#[test]
fn a_read_asks_for_a_piece(rt: HostRuntime) -> Result<(), Fail> {
    let alloc = rt.alloc();
    for piece in [1, 65_536] {
        let mut readers = Vec::new(alloc);
        readers.push(PieceFeed { bytes: piece })?;
        let options = RunOptions { piece, ..OPTIONS };
        check_run(&rt, alloc, readers, options, 0, &[(0, &[], Ending::Whole)])?;
    }
    Ok(())
}

/// Sixteen readers in a ring are read side by side. A run that reads them in turns fails this test.
#[test]
fn a_ring_of_readers_is_read_side_by_side(rt: HostRuntime) -> Result<(), Fail> {
    let alloc = rt.alloc();
    let mut flags = Vec::new(alloc);
    for _ in 0..16 {
        flags.push(AtomicU32::new(0))?;
    }
    assert_eq!(rt; flags.len(), 16);
    let readers = ring(alloc, &flags, 2)?;
    check_run_alike(&rt, alloc, readers, 16, 2, 32)
}

/// A feed that counts its reads, each of which returns empty lines.
#[derive(Drop)]
struct Counted<'a> {
    reads: &'a AtomicU32,
}

impl Feed for Counted<'_> {
    ghost remaining = { λ _. None };

    ghost fails = { λ _. true };

    ghost fills = { λ _. false };

    fn read<W: Wait>(&mut self, _rt: &W, buffer: &mut [u8]) -> Result<usize, FeedFailed> {
        self.reads.fetch_add(1, Ordering::SeqCst);
        buffer.fill(b'\n');
        Ok(buffer.len())
    }

    fn failing(&self) -> bool {
        true
    }
}

#[test]
fn no_read_is_made_after_the_last_one(rt: HostRuntime) -> Result<(), Fail> {
    let alloc = rt.alloc();
    let reads = AtomicU32::new(0);
    let mut readers = Vec::new(alloc);
    readers.push(Counted { reads: &reads })?;
    let options = RunOptions {
        piece: 1,
        reads: 3,
        ..OPTIONS
    };
    let told = (0, [].as_slice(), Ending::TooManyReads);
    check_run(&rt, alloc, readers, options, 0, &[told])?;
    assert_eq!(rt; reads.load(Ordering::SeqCst), 3);
    Ok(())
}

/// A reader whose second read is interrupted, and whose third read returns one more line.
#[derive(Drop)]
struct Interrupted {
    step: u32,
}

impl Read for Interrupted {
    fn read(&mut self, buffer: &mut [u8]) -> io::Result<usize> {
        self.step = self.step.saturating_add(1);
        if self.step == 2 {
            return Err(io::Error::from(io::ErrorKind::Interrupted));
        }
        if self.step > 3 {
            return Ok(0);
        }
        let mut line = b"[1] RESTART_PROGRAM\n".as_slice();
        line.read(buffer)
    }
}

#[test]
fn a_failed_read_is_not_made_again(rt: HostRuntime) -> Result<(), Fail> {
    let alloc = rt.alloc();
    let mut readers = Vec::new(alloc);
    readers.push(Outside::new(Interrupted { step: 0 }))?;
    let told = (1, [].as_slice(), Ending::ReadFailed);
    check_run(&rt, alloc, readers, OPTIONS, 1, &[told])
}

//! The examples that the documentation of the public items has, a test each, with the same lines.
use cmd_lines::{
    Item, LastNumber, LineFault, Lines, Put, Skip, Skipping, number_up_to, parse_line, parse_next,
};
use cmd_types::{has_no_return, lacks};
use std::test::*;

#[test]
fn line(rt: HostRuntime) -> Result<(), Fail> {
    let alloc = rt.alloc();
    let line = b"[007]  DEL_ALL_HOST_COMMENTS;web;more".as_slice();
    assert!(rt; lacks(b'\n', line) && has_no_return(line));
    let stamped = parse_line(alloc, line)?;
    assert_eq!(rt; stamped.time(), 7);
    Ok(())
}

#[test]
fn next_line(rt: HostRuntime) -> Result<(), Fail> {
    let alloc = rt.alloc();
    let mut last = LastNumber::new();
    let line = b"[1700000000] RESTART_PROGRAM".as_slice();
    assert!(rt; lacks(b'\n', line) && has_no_return(line));
    let stamped = parse_next(alloc, line, &mut last)?;
    assert_eq!(rt; stamped.time(), 1_700_000_000);
    Ok(())
}

#[test]
fn last_number(rt: HostRuntime) -> Result<(), Fail> {
    let mut last = LastNumber::new();
    for bytes in [b"1700000000 a".as_slice(), b"1700000000 b"] {
        let (time, _) = last.up_to(b' ', bytes).ok_or("a number and a space")?;
        assert_eq!(rt; time, 1_700_000_000);
    }
    Ok(())
}

#[test]
fn fault(rt: HostRuntime) -> Result<(), Fail> {
    let alloc = rt.alloc();
    let line = b"[1] DEL_HOST_COMMENT;x".as_slice();
    assert!(rt; lacks(b'\n', line) && has_no_return(line));
    let Err(fault) = parse_line(alloc, line) else {
        return Err(Fail::new("the line has a fault"));
    };
    assert_eq!(rt; fault, LineFault::BadNumber(1));
    assert_eq!(rt; (fault.number(), fault.argument()), (9, 1));
    Ok(())
}

#[test]
fn lines(rt: HostRuntime) -> Result<(), Fail> {
    let alloc = rt.alloc();
    let mut lines = Lines::new(alloc);
    lines.feed(alloc, b"[2] RESTART_PRO")?;
    assert!(rt; lines.next_item(alloc)?.is_none());
    lines.feed(alloc, b"GRAM\n[3]")?;
    assert!(rt; lines.next_item(alloc)?.is_some());
    assert_eq!(rt; lines.held(), b"[3]".as_slice());
    assert_eq!(rt; lines.first_waiting(), 2);
    Ok(())
}

#[test]
fn item(rt: HostRuntime) -> Result<(), Fail> {
    let alloc = rt.alloc();
    let mut lines = Lines::new(alloc);
    lines.feed(alloc, b"[2] RESTART_PROGRAM\nx")?;
    lines.finish();
    let Some(Item::Command(stamped)) = lines.next_item(alloc)? else {
        return Err(Fail::new("the first line is a command"));
    };
    assert_eq!(rt; stamped.time(), 2);
    let Some(Item::Refused { line, fault }) = lines.next_item(alloc)? else {
        return Err(Fail::new("the second line is none"));
    };
    assert_eq!(rt; (line, fault), (2, LineFault::NoBracket));
    Ok(())
}

#[test]
fn put(rt: HostRuntime) -> Result<(), Fail> {
    let alloc = rt.alloc();
    let mut lines = Lines::new(alloc);
    lines.feed(alloc, b"[2] RESTART_PROGRAM\nx\n")?;
    let mut commands = Vec::with_capacity(alloc, 2)?;
    let put = lines.next_into(alloc, &mut commands)?;
    assert_eq!(rt; put, Some(Put::Command));
    assert_eq!(rt; commands.len(), 1);
    assert_eq!(rt; commands[0].time(), 2);
    let put = lines.next_into(alloc, &mut commands)?;
    let fault = LineFault::NoBracket;
    assert_eq!(rt; put, Some(Put::Refused { line: 2, fault }));
    Ok(())
}

#[test]
fn number(rt: HostRuntime) -> Result<(), Fail> {
    let (place, rest) = number_up_to(b' ', b"007 [2]").ok_or("a number and a space")?;
    assert_eq!(rt; place, 7);
    assert_eq!(rt; rest, b"[2]".as_slice());
    assert!(rt; number_up_to(b' ', b"x 7 ").is_none());
    Ok(())
}

#[test]
fn skip(rt: HostRuntime) -> Result<(), Fail> {
    let alloc = rt.alloc();
    let Skip::More(skipping) = Skipping::new(alloc, 1) else {
        return Err(Fail::new("a command is to come"));
    };
    let Skip::More(skipping) = skipping.feed(alloc, b"x\n[2] RESTART_PRO")? else {
        return Err(Fail::new("the line is not finished"));
    };
    let Skip::Done(skipped) = skipping.feed(alloc, b"GRAM\n[3] RESTART_PROGRAM\n")? else {
        return Err(Fail::new("the command came"));
    };
    assert_eq!(rt; (skipped.bytes, skipped.lines), (22, 2));
    Ok(())
}

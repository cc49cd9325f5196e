//! The examples that the documentation of the public items has, a test each, with the same lines.
use cmd_types::{
    Command, CommandName, Entry, MOST_SENDERS, Membership, Names, Numbers, Stamped, Target, Text,
    TextLines, cut, has_no_return, is_sender_count, lacks, number_of, recounted, without_returns,
};
use std::test::*;

#[test]
fn text(rt: HostRuntime) -> Result<(), Fail> {
    let alloc = rt.alloc();
    let text = Text::new(Vec::from_slice(alloc, b"web")?);
    let copy = text.copy(alloc)?;
    assert_eq!(rt; copy.as_bytes(), b"web".as_slice());
    Ok(())
}

#[test]
fn numbers(rt: HostRuntime) -> Result<(), Fail> {
    let alloc = rt.alloc();
    let mut numbers = Numbers::new(Vec::new(alloc));
    numbers.push(alloc, 7)?;
    numbers.push(alloc, 0)?;
    assert_eq!(rt; numbers.as_slice(), [7, 0].as_slice());
    Ok(())
}

#[test]
fn stamped(rt: HostRuntime) -> Result<(), Fail> {
    let alloc = rt.alloc();
    let host = Text::new(Vec::from_slice(alloc, b"web")?);
    let Ok(stamped) = Stamped::new(7, Command::DelAllHostComments { host }) else {
        return Err(Fail::new("a name has no semicolon"));
    };
    let mut line = Vec::new(alloc);
    stamped.write_line(alloc, &mut line)?;
    assert_eq!(rt;
        line.as_slice(),
        b"[7] DEL_ALL_HOST_COMMENTS;web\n".as_slice()
    );
    Ok(())
}

#[test]
fn command(rt: HostRuntime) -> Result<(), Fail> {
    let alloc = rt.alloc();
    let host = Text::new(Vec::from_slice(alloc, b"web")?);
    let command = Command::DelAllHostComments { host };
    assert_eq!(rt; command.name().text(), b"DEL_ALL_HOST_COMMENTS".as_slice());
    Ok(())
}

#[test]
fn names(rt: HostRuntime) -> Result<(), Fail> {
    let alloc = rt.alloc();
    let host = Text::new(Vec::from_slice(alloc, b"web")?);
    let command = Command::DelAllHostComments { host };
    let Names::Host(host) = command.names() else {
        return Err(Fail::new("it names a host"));
    };
    assert_eq!(rt; host.as_bytes(), b"web".as_slice());
    Ok(())
}

#[test]
fn command_name(rt: HostRuntime) -> Result<(), Fail> {
    let Some(name) = CommandName::find(b"RESTART_PROGRAM") else {
        return Err(Fail::new("a command has the name"));
    };
    assert_eq!(rt; name.text(), b"RESTART_PROGRAM".as_slice());
    assert!(rt; CommandName::find(b"restart_program").is_none());
    Ok(())
}

#[test]
fn target(rt: HostRuntime) {
    assert_eq!(rt;
        CommandName::ScheduleHostSvcDowntime.target(),
        Target::Services
    );
}

#[test]
fn entry(rt: HostRuntime) -> Result<(), Fail> {
    let Ok(stamped) = Stamped::new(7, Command::RestartProgram) else {
        return Err(Fail::new("it has no text"));
    };
    let entry = Entry {
        sender: 0,
        place: 1,
        stamped,
    };
    assert_eq!(rt; entry.stamped.time(), 7);
    Ok(())
}

#[test]
fn text_lines(rt: HostRuntime) {
    let mut lines = TextLines::new(b"a\nb");
    assert_eq!(rt; lines.next(), Some(b"a".as_slice()));
    assert_eq!(rt; lines.rest(), Some(b"b".as_slice()));
    assert_eq!(rt; lines.next(), Some(b"b".as_slice()));
    assert_eq!(rt; lines.next(), None);
}

#[test]
fn numbers_of_texts(rt: HostRuntime) {
    assert_eq!(rt; number_of(b"007"), Some(7));
    assert_eq!(rt; number_of(b"-1"), None);
}

#[test]
fn cuts(rt: HostRuntime) {
    let (host, rest) = cut(b';', b"web;http");
    assert_eq!(rt; host, b"web".as_slice());
    assert_eq!(rt; rest, Some(b"http".as_slice()));
}

#[test]
fn lack(rt: HostRuntime) {
    assert!(rt; lacks(b';', b"web"));
}

#[test]
fn returns(rt: HostRuntime) {
    assert_eq!(rt; without_returns(b"web\r\r"), b"web".as_slice());
}

#[test]
fn no_return(rt: HostRuntime) {
    assert!(rt; !has_no_return(b"web\r"));
}

#[test]
fn recount(rt: HostRuntime) {
    // of three that were counted, one is counted no longer
    let left = Membership {
        was: true,
        is: false,
    };
    assert_eq!(rt; recounted(3, left), 2);
}

#[test]
fn sender_counts(rt: HostRuntime) {
    assert!(rt; is_sender_count(1) && is_sender_count(usize::from(MOST_SENDERS)));
    assert!(rt; !is_sender_count(0) && !is_sender_count(usize::from(MOST_SENDERS) + 1));
}

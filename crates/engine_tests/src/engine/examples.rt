//! The examples that the documentation of the public items has, a test each, with the same lines.
use cmd_journal::{Journal, Past};
use cmd_ledger::{Ledger, is_clock};
use cmd_types::{Command, Entry, Stamped, Text};
use mon_engine::{
    Acknowledgement, EngineFault, Field, Misfit, Monitor, Outcome, Parts, Program, Reason,
    ResumeFault, first_owed, put_line, replay,
};
use mon_inventory::Inventory;
use mon_state::{
    FileFault, KeptFeed, KeptFeeds, StateCause, StateVersion, read_feeds, read_file, read_state,
    write_feeds, write_file, write_state,
};
use std::test::*;

const INVENTORY: &[u8] = b"contact;ann;d,u,r,s;w,u,c,r,s\nhost;web;3;1800;d,u,r,s;ann\n";

#[test]
fn monitor(rt: HostRuntime) -> Result<(), Fail> {
    let alloc = rt.alloc();
    // INVENTORY: the text of an inventory with the host web
    let inventory = Inventory::parse(alloc, INVENTORY)?;
    let mut monitor = Monitor::new(alloc, inventory)?;
    let Ok(stamped) = Stamped::new(7, Command::RestartProgram) else {
        return Err(Fail::new("it has no text"));
    };
    let entry = Entry {
        sender: 0,
        place: 1,
        stamped,
    };
    assert_eq!(rt; monitor.apply(alloc, &entry), Ok(Outcome::Applied));
    assert!(rt; monitor.apply(alloc, &entry) != Err(EngineFault::Broken));
    Ok(())
}

#[test]
fn owed(rt: HostRuntime) -> Result<(), Fail> {
    let alloc = rt.alloc();
    // INVENTORY: the text of an inventory with the host web
    let inventory = Inventory::parse(alloc, INVENTORY)?;
    let owed = first_owed(alloc, &inventory)?;
    let [web] = owed.as_slice() else {
        return Err(Fail::new("a host"));
    };
    assert!(rt; web.contacts.as_slice().is_empty());
    assert_eq!(rt; web.number, 0);
    Ok(())
}

#[test]
fn ledger(rt: HostRuntime) -> Result<(), Fail> {
    let alloc = rt.alloc();
    // INVENTORY: the text of an inventory with the host web
    let inventory = Inventory::parse(alloc, INVENTORY)?;
    let monitor = Monitor::new(alloc, inventory)?;
    let mut ledger = Ledger::new(alloc, monitor, Past::new(), None)?;
    let Ok(stamped) = Stamped::new(7, Command::DelHostComment { id: 9 }) else {
        return Err(Fail::new("it has no text"));
    };
    let entry = Entry {
        sender: 0,
        place: 1,
        stamped,
    };
    assert!(rt; ledger.past.may_follow(&entry));
    let mut told = Vec::new(alloc);
    let Ok(()) = ledger.apply(alloc, entry, &mut told) else {
        return Err(Fail::new("out of memory"));
    };
    assert_eq!(rt; told.as_slice(), b"rejected;0;1;4\n".as_slice());
    assert_eq!(rt; ledger.past.next_place(0), 2);
    assert!(rt; ledger.lasts.as_slice()[0].is_some());
    Ok(())
}

#[test]
fn numbered_as_the_clock(rt: HostRuntime) -> Result<(), Fail> {
    assert!(rt; is_clock(Some(2), 2));
    assert!(rt; !is_clock(Some(2), 1));
    assert!(rt; !is_clock(None, 2));
    Ok(())
}

#[test]
fn told(rt: HostRuntime) -> Result<(), Fail> {
    let alloc = rt.alloc();
    // INVENTORY: the text of an inventory with the host web
    let inventory = Inventory::parse(alloc, INVENTORY)?;
    let mut monitor = Monitor::new(alloc, inventory)?;
    let mut told = Vec::new(alloc);
    assert!(rt; !monitor.is_broken());
    monitor.tell(alloc, &mut told)?;
    assert_eq!(rt; told.len(), 0);
    Ok(())
}

#[test]
fn rejected(rt: HostRuntime) -> Result<(), Fail> {
    let alloc = rt.alloc();
    // INVENTORY: the text of an inventory with the host web
    let inventory = Inventory::parse(alloc, INVENTORY)?;
    let mut monitor = Monitor::new(alloc, inventory)?;
    let host = Text::new(Vec::from_slice(alloc, b"db")?);
    let Ok(stamped) = Stamped::new(7, Command::DelAllHostComments { host }) else {
        return Err(Fail::new("a name has no semicolon"));
    };
    let entry = Entry {
        sender: 0,
        place: 1,
        stamped,
    };
    let outcome = monitor.apply(alloc, &entry);
    assert_eq!(rt; outcome, Ok(Outcome::Rejected(Reason::UnknownHost)));
    Ok(())
}

#[test]
fn figures(rt: HostRuntime) -> Result<(), Fail> {
    let alloc = rt.alloc();
    // INVENTORY: the text of an inventory with the host web
    let inventory = Inventory::parse(alloc, INVENTORY)?;
    let monitor = Monitor::new(alloc, inventory)?;
    let figures = monitor.figures();
    assert_eq!(rt; (figures.entries, figures.problems), (0, 0));
    Ok(())
}

#[test]
fn replayed(rt: HostRuntime) -> Result<(), Fail> {
    let alloc = rt.alloc();
    // INVENTORY: the text of an inventory with the host web
    let inventory = Inventory::parse(alloc, INVENTORY)?;
    let text = b"journal;2\n7 0 1 [7] RESTART_PROGRAM\n".as_slice();
    let Ok(journal) = Journal::read(alloc, text, 100) else {
        return Err(Fail::new("the text has no fault"));
    };
    let Ok(monitor) = replay(alloc, inventory, &journal) else {
        return Err(Fail::new("there is memory"));
    };
    assert_eq!(rt; monitor.applied(), 1);
    Ok(())
}

#[test]
fn line(rt: HostRuntime) -> Result<(), Fail> {
    let alloc = rt.alloc();
    let mut out = Vec::new(alloc);
    put_line(&mut out, b"word", &[Field::Number(7), Field::Flag(true)])?;
    assert_eq!(rt; out.as_slice(), b"word;7;1\n".as_slice());
    Ok(())
}

#[test]
fn objects(rt: HostRuntime) -> Result<(), Fail> {
    let alloc = rt.alloc();
    // INVENTORY: the text of an inventory with the host web
    let inventory = Inventory::parse(alloc, INVENTORY)?;
    let monitor = Monitor::new(alloc, inventory)?;
    let Some(web) = monitor.objects().first() else {
        return Err(Fail::new("the inventory has a host"));
    };
    assert!(rt; matches!(web.acknowledgement, Acknowledgement::Unacknowledged));
    assert_eq!(rt; (web.number, web.last), (0, None));
    assert_eq!(rt; web.moments.since, None);
    Ok(())
}

#[test]
fn program(rt: HostRuntime) -> Result<(), Fail> {
    let alloc = rt.alloc();
    // INVENTORY: the text of an inventory with the host web
    let inventory = Inventory::parse(alloc, INVENTORY)?;
    let monitor = Monitor::new(alloc, inventory)?;
    let program = monitor.program();
    assert!(rt; program.notifications && program.passive_host && program.passive_service);
    Ok(())
}

#[test]
fn resumed(rt: HostRuntime) -> Result<(), Fail> {
    let alloc = rt.alloc();
    // INVENTORY: the text of an inventory with the host web
    let inventory = Inventory::parse(alloc, INVENTORY)?;
    let parts = Parts {
        clock: 7,
        before: 1,
        program: Program {
            notifications: true,
            passive_host: true,
            passive_service: true,
        },
        objects: Vec::new(alloc),
        contacts: Vec::new(alloc),
        owed: Vec::new(alloc),
        last_comment: 0,
        comments: Vec::new(alloc),
        downtimes: Vec::new(alloc),
    };
    // these parts lack the host
    let Err(fault) = Monitor::resume(alloc, inventory, parts) else {
        return Err(Fail::new("the host is missing"));
    };
    assert_eq!(rt; fault, ResumeFault::Misfit(Misfit::Object(0)));
    Ok(())
}

#[test]
fn state(rt: HostRuntime) -> Result<(), Fail> {
    let alloc = rt.alloc();
    // INVENTORY: the text of an inventory with the host web
    let inventory = Inventory::parse(alloc, INVENTORY)?;
    let monitor = Monitor::new(alloc, inventory)?;
    let mut state = Vec::new(alloc);
    assert!(rt; !monitor.is_broken());
    write_state(&monitor, &mut state)?;
    assert!(rt; state.starts_with(b"state;2\nclock;0\n"));
    // state: what write_state wrote of a monitor of INVENTORY
    let inventory = Inventory::parse(alloc, INVENTORY)?;
    let Ok(monitor) = read_state(alloc, inventory, &state) else {
        return Err(Fail::new("it was written so"));
    };
    assert_eq!(rt; monitor.applied(), 0);
    Ok(())
}

#[test]
fn state_fault(rt: HostRuntime) -> Result<(), Fail> {
    let alloc = rt.alloc();
    // INVENTORY: the text of an inventory with the host web
    let inventory = Inventory::parse(alloc, INVENTORY)?;
    let Err(fault) = read_state(alloc, inventory, b"state;3\n") else {
        return Err(Fail::new("it has another version"));
    };
    assert_eq!(rt; (fault.line, fault.cause), (1, StateCause::UnknownVersion));
    assert!(rt; StateVersion::of_number(3).is_none());
    Ok(())
}

#[test]
fn kept_feeds(rt: HostRuntime) -> Result<(), Fail> {
    let alloc = rt.alloc();
    let mut feeds = KeptFeeds {
        list: Vec::new(alloc),
        clock: Some(0),
    };
    feeds.list.push(KeptFeed {
        words: Text::from_slice(alloc, b"")?,
        journaled: 2,
        earlier: 0,
        last: Text::from_slice(alloc, b"[9] RESTART_PROGRAM")?,
    })?;
    let mut text = Vec::new(alloc);
    write_feeds(&feeds, &mut text)?;
    assert_eq!(rt;
        text.as_slice(),
        b"feeds;0;1\nfeed;0;2;0;\nlast;[9] RESTART_PROGRAM\n".as_slice()
    );
    let Ok((read, rest)) = read_feeds(alloc, &text) else {
        return Err(Fail::new("it is as written"));
    };
    assert_eq!(rt; (read.list.len(), read.clock), (1, Some(0)));
    assert!(rt; rest.is_empty());
    Ok(())
}

#[test]
fn state_file(rt: HostRuntime) -> Result<(), Fail> {
    let alloc = rt.alloc();
    // INVENTORY: the text of an inventory with the host web
    let inventory = Inventory::parse(alloc, INVENTORY)?;
    let monitor = Monitor::new(alloc, inventory)?;
    let feeds = KeptFeeds {
        list: Vec::new(alloc),
        clock: None,
    };
    let mut text = Vec::new(alloc);
    assert!(rt; !monitor.is_broken());
    write_file(INVENTORY, &feeds, &monitor, &mut text)?;
    let Ok(file) = read_file(alloc, &text) else {
        return Err(Fail::new("it is as written"));
    };
    assert_eq!(rt; file.given, INVENTORY);
    let Err(fault) = read_file(alloc, INVENTORY) else {
        return Err(Fail::new("the mark is missing"));
    };
    assert!(rt; fault == FileFault::NoMark);
    Ok(())
}

//! The examples that the documentation of the public items has, a test each, with the same lines.
use crate::options::OPTIONS;
use cmd_answer::{
    AbsentFeed, Ended, Extras, FilesStop, FollowLine, InputFault, InventoryCounts, StateStop,
    StateWord, Stop, bundle_in, divided, ending_text, has_twice, inventory_in, inventory_text_in,
    may_pass, misused, open_file, open_files, parts, put, put_feed_end, put_figures, put_refused,
    read_all, report_journal, serve_replay, stopped, text_of_fault, text_of_report, write_pieces,
    write_text,
};
use cmd_journal::Journal;
use cmd_lines::LineFault;
use cmd_options::FilesCall;
use cmd_run::{Ending, RunCause, RunFault};
use mon_engine::Monitor;
use mon_inventory::Inventory;
use std::io::{Error, ErrorKind};
use std::test::*;

const INVENTORY: &[u8] = b"host;web;1;0;;\n";

#[test]
fn parts_of_a_bundle(rt: HostRuntime) -> Result<(), Fail> {
    let alloc = rt.alloc();
    let Ok(texts) = parts(alloc, b"host;web;1;0;;\n---\n[1] RESTART_PROGRAM\n") else {
        return Err(Fail::new("there is memory"));
    };
    assert_eq!(rt; texts.len(), 2);
    assert_eq!(rt; texts[1], b"[1] RESTART_PROGRAM\n".as_slice());
    Ok(())
}

#[test]
fn an_input_divided(rt: HostRuntime) -> Result<(), Fail> {
    let Some((inventory, journal)) = divided(b"host;web;1;0;;\n---\njournal;2\n") else {
        return Err(Fail::new("there is a separator"));
    };
    assert_eq!(rt; inventory, b"host;web;1;0;;\n".as_slice());
    assert_eq!(rt; journal, b"journal;2\n".as_slice());
    Ok(())
}

#[test]
fn a_bundle(rt: HostRuntime) -> Result<(), Fail> {
    let alloc = rt.alloc();
    let input = b"host;web;1;0;;\n---\n[1] RESTART_PROGRAM\n".as_slice();
    let Ok((inventory, feeds)) = bundle_in(alloc, input) else {
        return Err(Fail::new("the bundle has no fault"));
    };
    assert_eq!(rt; inventory.object_count(), 1);
    assert_eq!(rt; feeds.len(), 1);
    assert_eq!(rt; feeds[0], b"[1] RESTART_PROGRAM\n".as_slice());
    Ok(())
}

#[test]
fn files(rt: HostRuntime) -> Result<(), Fail> {
    let alloc = rt.alloc();
    // OPTIONS: options of a run
    let mut feeds = Vec::new(alloc);
    feeds.push("/dev/null")?;
    let call = FilesCall {
        inventory: "/dev/null",
        feeds,
        options: OPTIONS,
    };
    let Ok((inventory, files)) = open_files(&rt, alloc, &call) else {
        return Err(Fail::new("both are opened, and have no bytes"));
    };
    assert_eq!(rt; inventory.object_count(), 0);
    assert_eq!(rt; files.len(), 1);
    Ok(())
}

#[test]
fn an_inventory(rt: HostRuntime) -> Result<(), Fail> {
    let alloc = rt.alloc();
    let Ok((text, inventory)) = inventory_text_in(&rt, alloc, "/dev/null") else {
        return Err(Fail::new("it has no bytes"));
    };
    assert_eq!(rt; (text.len(), inventory.object_count()), (0, 0));
    Ok(())
}

#[test]
fn an_inventory_in_a_file(rt: HostRuntime) -> Result<(), Fail> {
    let alloc = rt.alloc();
    let Ok(inventory) = inventory_in(&rt, alloc, "/dev/null") else {
        return Err(Fail::new("it has no bytes"));
    };
    assert_eq!(rt; inventory.object_count(), 0);
    Ok(())
}

#[test]
fn a_refused_line(rt: HostRuntime) -> Result<(), Fail> {
    let alloc = rt.alloc();
    let mut out = Vec::new(alloc);
    put_refused(&mut out, 0, 2, LineFault::NoBracket)?;
    assert_eq!(rt; out.as_slice(), b"refused;0;2;3;0\n".as_slice());
    Ok(())
}

#[test]
fn an_ending(rt: HostRuntime) {
    assert_eq!(rt; ending_text(Ending::ReadFailed), "read-failed");
}

#[test]
fn a_line_of_a_run_that_follows(rt: HostRuntime) -> Result<(), Fail> {
    let alloc = rt.alloc();
    let line = FollowLine::Waits {
        feed: 2,
        line: 9,
        seconds: 3600,
    };
    let Ok(text) = line.text(alloc) else {
        return Err(Fail::new("there is memory"));
    };
    assert_eq!(rt;
        text.as_str(),
        "gateway: feed 2 waits: line 9 is 3600 seconds ahead\n"
    );
    Ok(())
}

#[test]
fn a_line_on_a_feed_that_cannot_be_read(rt: HostRuntime) -> Result<(), Fail> {
    let alloc = rt.alloc();
    let feed = AbsentFeed {
        path: "checks",
        is_there: false,
    };
    let Ok(text) = feed.text(alloc) else {
        return Err(Fail::new("there is memory"));
    };
    assert_eq!(rt; text.as_str(), "gateway: feed checks: not there\n");
    Ok(())
}

#[test]
fn the_end_of_a_feed(rt: HostRuntime) -> Result<(), Fail> {
    let alloc = rt.alloc();
    let mut out = Vec::new(alloc);
    put_feed_end(&mut out, 0, 8, Ending::Whole)?;
    assert_eq!(rt; out.as_slice(), b"feed;0;8;whole\n".as_slice());
    Ok(())
}

#[test]
fn figures_that_are_not_known_have_no_line(rt: HostRuntime) -> Result<(), Fail> {
    let alloc = rt.alloc();
    let mut out = Vec::new(alloc);
    put_figures(&mut out, None)?;
    assert!(rt; out.is_empty());
    Ok(())
}

#[test]
fn writing(rt: HostRuntime) {
    let alloc = rt.alloc();
    let mut out = Vec::new(alloc);
    assert!(rt; write_text(&mut out, b"clock;0\n").is_ok());
    assert_eq!(rt; out.as_slice(), b"clock;0\n".as_slice());
}

#[test]
fn reading(rt: HostRuntime) -> Result<(), Fail> {
    let alloc = rt.alloc();
    let mut input = b"[1] RESTART_PROGRAM\n".as_slice();
    let Ok(bytes) = read_all(alloc, &mut input, 2) else {
        return Err(Fail::new("the second read gives none"));
    };
    assert_eq!(rt; bytes.as_slice(), b"[1] RESTART_PROGRAM\n".as_slice());
    let mut input = b"[1] RESTART_PROGRAM\n".as_slice();
    let Err(fault) = read_all(alloc, &mut input, 1) else {
        return Err(Fail::new("the only read gave bytes"));
    };
    assert_eq!(rt; fault, InputFault::Failed);
    Ok(())
}

#[test]
fn replaying(rt: HostRuntime) -> Result<(), Fail> {
    let alloc = rt.alloc();
    let input = b"host;web;1;0;;\n---\n0 1 [7] RESTART_PROGRAM\n".as_slice();
    let Ok(text) = report_journal(alloc, 100, input) else {
        return Err(Fail::new("the input has no fault"));
    };
    assert!(rt; text.starts_with(b"clock;7\n"));
    Ok(())
}

#[test]
fn replaying_over_streams(rt: HostRuntime) -> Result<(), Fail> {
    let alloc = rt.alloc();
    let mut input = b"host;web;1;0;;\n---\n0 1 [7] RESTART_PROGRAM\n".as_slice();
    let mut output = Vec::new(alloc);
    let Ok(status) = serve_replay(alloc, 100, &mut input, &mut output) else {
        return Err(Fail::new("the input has no fault"));
    };
    assert_eq!(rt; status, 0);
    assert!(rt; output.starts_with(b"clock;7\n"));
    Ok(())
}

#[test]
fn a_run_that_has_a_report(rt: HostRuntime) -> Result<(), Fail> {
    let alloc = rt.alloc();
    // INVENTORY: the text of an inventory with the host web
    let monitor = Monitor::new(alloc, Inventory::parse(alloc, INVENTORY)?)?;
    let journal = Journal::new(alloc, 100);
    assert!(rt; !monitor.is_broken());
    let extras = Extras {
        figures: None,
        journal: true,
    };
    let Ok((text, status)) = text_of_report(alloc, &monitor, &[], extras, &journal) else {
        return Err(Fail::new("there is memory"));
    };
    assert!(rt; text.ends_with(b"---\njournal;2\n"));
    assert_eq!(rt; status, 0);
    Ok(())
}

#[test]
fn a_run_that_failed(rt: HostRuntime) -> Result<(), Fail> {
    let alloc = rt.alloc();
    let fault = RunFault {
        cause: RunCause::JournalFull,
        journal: Journal::new(alloc, 100),
        senders: Vec::new(alloc),
    };
    let extras = Extras {
        figures: None,
        journal: false,
    };
    let Ok((text, status)) = text_of_fault(alloc, &fault, extras) else {
        return Err(Fail::new("there is memory"));
    };
    assert_eq!(rt; text.as_slice(), b"fault;4;0\n".as_slice());
    assert_eq!(rt; status, 3);
    Ok(())
}

#[test]
fn stops(rt: HostRuntime) -> Result<(), Fail> {
    let alloc = rt.alloc();
    let mut errors = Vec::new(alloc);
    assert!(rt; Stop::Feeds.print(&mut errors).is_ok());
    assert_eq!(rt; errors.as_slice(), b"gateway: feeds\n".as_slice());
    assert_eq!(rt; Stop::Feeds.status(), 2);
    Ok(())
}

#[test]
fn stops_of_a_state_directory(rt: HostRuntime) -> Result<(), Fail> {
    let alloc = rt.alloc();
    let mut errors = Vec::new(alloc);
    let stop = Stop::State(StateStop::AtStart(StateWord::InUse));
    assert!(rt; stop.print(&mut errors).is_ok());
    assert_eq!(rt; errors.as_slice(), b"gateway: state in use\n".as_slice());
    assert_eq!(rt; stop.status(), 2);
    Ok(())
}

#[test]
fn stops_of_a_line_of_a_state_directory(rt: HostRuntime) -> Result<(), Fail> {
    let alloc = rt.alloc();
    let mut errors = Vec::new(alloc);
    let stop = Stop::State(StateStop::JournalLine { line: 3, cause: 8 });
    assert!(rt; stop.print(&mut errors).is_ok());
    assert_eq!(rt;
        errors.as_slice(),
        b"gateway: state journal line 3: 8\n".as_slice()
    );
    assert_eq!(rt; stop.status(), 2);
    Ok(())
}

#[test]
fn stops_of_files(rt: HostRuntime) -> Result<(), Fail> {
    let alloc = rt.alloc();
    let mut errors = Vec::new(alloc);
    let stop = FilesStop::Open("checks");
    assert!(rt; stop.print(&mut errors).is_ok());
    assert_eq!(rt; errors.as_slice(), b"gateway: open checks\n".as_slice());
    assert_eq!(rt; stop.status(), 2);
    Ok(())
}

#[test]
fn ends_of_calls(rt: HostRuntime) -> Result<(), Fail> {
    let alloc = rt.alloc();
    let mut errors = Vec::new(alloc);
    let ended = stopped(FilesStop::Other(Stop::Feeds), &mut errors);
    assert_eq!(rt; errors.as_slice(), b"gateway: feeds\n".as_slice());
    let wanted = Ended {
        status: 2,
        printed: true,
    };
    assert_eq!(rt; ended, wanted);
    Ok(())
}

#[test]
fn texts_put_out(rt: HostRuntime) -> Result<(), Fail> {
    let alloc = rt.alloc();
    let mut text = Vec::new(alloc);
    text.extend_from_slice(b"clock;0\n")?;
    let mut output = Vec::new(alloc);
    let Ok(status) = put((text, 1), &mut output) else {
        return Err(Fail::new("there is memory"));
    };
    assert_eq!(rt; status, 1);
    assert_eq!(rt; output.as_slice(), b"clock;0\n".as_slice());
    Ok(())
}

#[test]
fn counts_of_an_inventory(rt: HostRuntime) -> Result<(), Fail> {
    let alloc = rt.alloc();
    let Ok(inventory) = Inventory::parse(alloc, b"host;web;1;0;;\n") else {
        return Err(Fail::new("the inventory has no fault"));
    };
    let counts = InventoryCounts::of(&inventory);
    assert_eq!(rt; (counts.hosts, counts.services), (1, 0));
    let Ok(text) = counts.text(alloc) else {
        return Err(Fail::new("there is memory"));
    };
    assert_eq!(rt;
        text.as_str(),
        "inventory: 0 contacts, 1 hosts, 0 services, 0 escalations\n"
    );
    Ok(())
}

#[test]
fn wrong_uses(rt: HostRuntime) -> Result<(), Fail> {
    let alloc = rt.alloc();
    let mut errors = Vec::new(alloc);
    let ended = misused(&[b"gateway check INVENTORY\n"], &mut errors);
    assert_eq!(rt;
        errors.as_slice(),
        b"gateway: usage\ngateway check INVENTORY\n".as_slice()
    );
    assert_eq!(rt; ended.status, 2);
    Ok(())
}

#[test]
fn pieces_written(rt: HostRuntime) -> Result<(), Fail> {
    let alloc = rt.alloc();
    let mut out = Vec::new(alloc);
    assert!(rt; write_pieces(&mut out, &[b"clock;", b"0\n"]).is_ok());
    assert_eq!(rt; out.as_slice(), b"clock;0\n".as_slice());
    Ok(())
}

#[test]
fn paths_that_stand_twice(rt: HostRuntime) {
    assert!(rt; has_twice(&["checks", "web", "checks"]));
    assert!(rt; !has_twice(&["checks", "./checks"]));
}

#[test]
fn faults_that_may_pass(rt: HostRuntime) {
    assert!(rt; may_pass(&Error::from(ErrorKind::OutOfMemory)));
    assert!(rt; !may_pass(&Error::from(ErrorKind::NotFound)));
}

#[test]
fn files_opened(rt: HostRuntime) {
    assert!(rt; open_file(&rt, "/dev/null").is_ok());
}

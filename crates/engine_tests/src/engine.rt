//! Tests of the engine's calls: the outcome of each entry, and the results where any single allocation is refused. The
//! effects of entries are tested by runs of the program: the rows of `gateway`, `examples/rules` and
//! `examples/custom-notices`.
mod examples;
mod memory;
mod states;

use cmd_journal::{Journal, ReadCause, ReadFault};
use cmd_types::{Entry, Memory};
use mon_engine::{EngineFault, Monitor, Outcome, Reason, replay};
use mon_inventory::{Cause, Inventory, InventoryFault};
use mon_state::write_state;
use std::alloc::{AllocError, Global};
use std::process::Abort;
use std::test::Fail;

/// The profile's worked inventory: a host and its service, with an escalation.
const WEB: &[&[u8]] = &[
    b"contact;ann;d,u,r,s;w,u,c,r,s",
    b"contact;bob;d,r;c,r",
    b"host;web;3;1800;d,u,r,s;ann",
    b"service;web;http;3;600;w,u,c,r,s;ann",
    b"escalation;web;http;2;0;300;c,r;bob",
];

/// A host and a service without letters, so that no notice is due.
const SILENT: &[&[u8]] = &[b"host;web;3;0;;", b"service;web;http;3;0;;"];

/// The text of these lines.
fn text_of(alloc: Global, lines: &[&[u8]]) -> Result<Vec<u8>, Memory> {
    let mut text = Vec::new(alloc);
    for line in lines {
        text.extend_from_slice(line)?;
        text.push(b'\n')?;
    }
    Ok(text)
}

fn parsed(alloc: Global, text: &[u8]) -> Result<Inventory, InventoryFault> {
    Inventory::parse(alloc, text)
}

fn inventory_of(rt: &impl Abort, alloc: Global, lines: &[&[u8]]) -> Result<Inventory, Memory> {
    let text = text_of(alloc, lines)?;
    match parsed(alloc, &text) {
        Ok(inventory) => Ok(inventory),
        Err(fault) => {
            assert!(rt; fault.cause == Cause::Memory);
            Err(AllocError)
        }
    }
}

/// Appends a line of a feed as a line of a journal, an entry of sender 0.
fn put_entry(alloc: Global, text: &mut Vec<u8>, place: u8, line: &[u8]) -> Result<(), Memory> {
    text.extend_from_slice(format!(in alloc; "0 {place} ")?.as_bytes())?;
    text.extend_from_slice(line)?;
    text.push(b'\n')?;
    Ok(())
}

/// The lines of a feed as lines of a journal.
fn journal_text(alloc: Global, feed: &[u8]) -> Result<Vec<u8>, Memory> {
    let mut text = Vec::new(alloc);
    for (place, line) in (1..=99u8).zip(feed.split(|byte| *byte == b'\n')) {
        if !line.is_empty() {
            put_entry(alloc, &mut text, place, line)?;
        }
    }
    Ok(text)
}

fn read(alloc: Global, text: &[u8]) -> Result<Journal, ReadFault> {
    Journal::read(alloc, text, 100)
}

fn journal_of(rt: &impl Abort, alloc: Global, text: &[u8]) -> Result<Journal, Memory> {
    match read(alloc, text) {
        Ok(journal) => Ok(journal),
        Err(fault) => {
            assert!(rt; fault.cause == ReadCause::Memory);
            Err(AllocError)
        }
    }
}

/// The journal of a feed.
fn journaled(rt: &impl Abort, alloc: Global, feed: &[u8]) -> Result<Journal, Memory> {
    let text = journal_text(alloc, feed)?;
    journal_of(rt, alloc, &text)
}

/// The monitor of an inventory, before the first entry.
fn first_monitor(rt: &impl Abort, alloc: Global, inventory: &[&[u8]]) -> Result<Monitor, Memory> {
    let inventory = inventory_of(rt, alloc, inventory)?;
    Monitor::new(alloc, inventory)
}

/// The monitor after the entries of a journal.
fn replayed(
    rt: &impl Abort,
    alloc: Global,
    inventory: Inventory,
    journal: &Journal,
) -> Result<Monitor, Memory> {
    match replay(alloc, inventory, journal) {
        Ok(monitor) => Ok(monitor),
        Err(fault) => {
            assert!(rt; fault == EngineFault::Memory);
            Err(AllocError)
        }
    }
}

/// Appends the report of a monitor, which is not broken.
fn append_report(
    rt: &impl Abort,
    alloc: Global,
    monitor: &Monitor,
    out: &mut Vec<u8>,
) -> Result<(), Memory> {
    assert!(rt; !monitor.is_broken());
    monitor.report(alloc, out)
}

/// Appends the state of a monitor, which is not broken.
fn append_state(rt: &impl Abort, monitor: &Monitor, out: &mut Vec<u8>) -> Result<(), Memory> {
    assert!(rt; !monitor.is_broken());
    write_state(monitor, out)
}

/// Asserts that `found` is `wanted`, under this name.
fn compare(rt: &impl Abort, name: &str, found: &[u8], wanted: &[u8]) {
    assert_eq!(rt; found, wanted, "{name}");
}

/// Applies one of a few entries.
fn apply(
    rt: &impl Abort,
    alloc: Global,
    monitor: &mut Monitor,
    entry: &Entry,
) -> Result<Outcome, EngineFault> {
    assert!(rt; monitor.applied() < 100);
    monitor.apply(alloc, entry)
}

const ENTRIES: &[u8] = b"[100] ADD_HOST_COMMENT;web;1;ann;hello
[110] PROCESS_HOST_CHECK_RESULT;web;1;no ping
[105] DEL_HOST_COMMENT;2
";

const OUTCOMES: &[Outcome] = &[
    Outcome::Applied,
    Outcome::Applied,
    Outcome::Rejected(Reason::NoSuchComment),
];

/// Asserts the outcomes of the entries, in order.
fn check_outcomes(rt: &impl Abort, alloc: Global, monitor: &mut Monitor, entries: &[Entry]) {
    for (entry, outcome) in entries.iter().zip(OUTCOMES) {
        assert!(rt; apply(rt, alloc, monitor, entry) == Ok(*outcome));
    }
}

/// The outcome of each entry of a journal, in order.
#[test]
fn outcomes(rt: HostRuntime) -> Result<(), Fail> {
    let alloc = rt.alloc();
    let journal = journaled(&rt, alloc, ENTRIES)?;
    let mut monitor = first_monitor(&rt, alloc, SILENT)?;
    check_outcomes(&rt, alloc, &mut monitor, journal.entries());
    assert!(rt; monitor.applied() == 3 && !monitor.is_broken());
    Ok(())
}

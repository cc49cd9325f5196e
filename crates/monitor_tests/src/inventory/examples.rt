//! The examples that the documentation of the public items has, a test each, with the same lines.
use super::FIVE_LINES;
use mon_inventory::{Cause, Inventory};
use std::test::*;

#[test]
fn inventories(rt: HostRuntime) -> Result<(), Fail> {
    let alloc = rt.alloc();
    // FIVE_LINES: two contacts, the host web, its service http and an escalation of http to bob
    let inventory = Inventory::parse(alloc, FIVE_LINES)?;
    assert_eq!(rt; inventory.object_count(), 2);
    assert_eq!(rt; inventory.host_of(b"web"), Some(0));
    assert_eq!(rt; inventory.service_of(b"web", b"http"), Some(1));
    assert_eq!(rt; inventory.contact_of(b"bob"), Some(1));
    Ok(())
}

#[test]
fn objects(rt: HostRuntime) -> Result<(), Fail> {
    let alloc = rt.alloc();
    // FIVE_LINES: two contacts, the host web, its service http and an escalation of http to bob
    let inventory = Inventory::parse(alloc, FIVE_LINES)?;
    let [web, http] = inventory.objects() else {
        return Err(Fail::new("two objects"));
    };
    assert_eq!(rt; (web.max, web.interval), (3, 1800));
    assert_eq!(rt; http.host_object, 0);
    Ok(())
}

#[test]
fn contacts(rt: HostRuntime) -> Result<(), Fail> {
    let alloc = rt.alloc();
    // FIVE_LINES: two contacts, the host web, its service http and an escalation of http to bob
    let inventory = Inventory::parse(alloc, FIVE_LINES)?;
    let [_, bob] = inventory.contacts() else {
        return Err(Fail::new("two contacts"));
    };
    assert_eq!(rt; bob.name.as_bytes(), b"bob".as_slice());
    assert!(rt; bob.service_letters.c && !bob.service_letters.w);
    Ok(())
}

#[test]
fn escalations(rt: HostRuntime) -> Result<(), Fail> {
    let alloc = rt.alloc();
    // FIVE_LINES: two contacts, the host web, its service http and an escalation of http to bob
    let inventory = Inventory::parse(alloc, FIVE_LINES)?;
    let [escalation] = inventory.escalations() else {
        return Err(Fail::new("one escalation"));
    };
    assert_eq!(rt; (escalation.first, escalation.last), (2, 0));
    assert_eq!(rt; escalation.contacts.as_slice(), [1].as_slice());
    Ok(())
}

#[test]
fn directives(rt: HostRuntime) -> Result<(), Fail> {
    let alloc = rt.alloc();
    let text = b"host;web;3;60;;\nservice;web;http;3;60;;\ndelay;web;http;300\nvolatile;web;http\n";
    let inventory = Inventory::parse(alloc, text)?;
    let Some(http) = inventory.service_of(b"web", b"http") else {
        return Err(Fail::new("the service http"));
    };
    let directives = inventory.directives(http);
    assert_eq!(rt; directives.first_notification_delay, Some(300));
    assert!(rt; directives.is_volatile);
    Ok(())
}

#[test]
fn faults(rt: HostRuntime) -> Result<(), Fail> {
    let alloc = rt.alloc();
    let Err(fault) = Inventory::parse(alloc, b"\nhost;web;0;60;d;\n") else {
        return Err(Fail::new("at least one attempt"));
    };
    assert_eq!(rt; (fault.line, fault.cause), (2, Cause::BadNumber));
    assert_eq!(rt; fault.cause.number(), 2);
    Ok(())
}

//! The examples that the documentation of the public items has, a test each, with the same lines.
use crate::inventory::FIVE_LINES;
use mon_inventory::Inventory;
use mon_notify::{
    ContactSwitch, Facts, Letter, by_switch, custom_recipients, custom_viable, has_letter,
    increments, interval_in_force, letter_of, one_hears, owed_with, problem_viable, recipients,
    recovery_viable, still_owed,
};
use std::test::*;

/// A hard problem of which nothing was said yet, nothing switched off and no downtime.
const FACTS: Facts = Facts {
    program_on: true,
    object_on: true,
    depth: 0,
    host_depth: 0,
    host_up: true,
    letter_on: true,
    acknowledged: false,
    hard: true,
    clock: 500,
    not_before: None,
    number: 0,
    code: 2,
    notified: None,
    last: None,
    interval: 600,
    volatile: false,
    since: Some(100),
    delay: None,
    above_back: None,
    settle: None,
};

#[test]
fn who(rt: HostRuntime) -> Result<(), Fail> {
    let alloc = rt.alloc();
    // FIVE_LINES: two contacts, the host web, its service http and an escalation of http to bob
    let inventory = Inventory::parse(alloc, FIVE_LINES)?;
    let on = ContactSwitch {
        host: true,
        service: true,
    };
    assert!(rt; inventory.object_count() == 2 && inventory.contact_count() == 2);
    // the second notice of http, which is CRITICAL, escalates to bob
    let told = recipients(alloc, &inventory, &[on, on], 1, 2, Letter::C, true)?;
    assert_eq!(rt; told.as_slice(), [1].as_slice());
    Ok(())
}

#[test]
fn broadcast(rt: HostRuntime) -> Result<(), Fail> {
    let alloc = rt.alloc();
    // FIVE_LINES: two contacts, the host web, its service http and an escalation of http to bob
    let inventory = Inventory::parse(alloc, FIVE_LINES)?;
    let on = ContactSwitch {
        host: true,
        service: true,
    };
    assert!(rt; inventory.object_count() == 2 && inventory.contact_count() == 2);
    // a broadcast, options 1, goes to the contacts of http and of its escalation
    let told = custom_recipients(alloc, &inventory, &[on, on], 1, 1, 2, 1)?;
    assert_eq!(rt; told.as_slice(), [0, 1].as_slice());
    Ok(())
}

#[test]
fn owed(rt: HostRuntime) -> Result<(), Fail> {
    let alloc = rt.alloc();
    // FIVE_LINES: two contacts, the host web, its service http and an escalation of http to bob
    let inventory = Inventory::parse(alloc, FIVE_LINES)?;
    assert!(rt; inventory.object_count() == 2 && inventory.contact_count() == 2);
    assert!(rt; one_hears(&inventory, 1, &[0]));
    let owed = owed_with(alloc, &inventory, 1, &[1], &[0])?;
    assert_eq!(rt; owed.as_slice(), [0, 1].as_slice());
    Ok(())
}

#[test]
fn owed_by_switch(rt: HostRuntime) -> Result<(), Fail> {
    let alloc = rt.alloc();
    // FIVE_LINES: two contacts, the host web, its service http and an escalation of http to bob
    let inventory = Inventory::parse(alloc, FIVE_LINES)?;
    let on = ContactSwitch {
        host: true,
        service: true,
    };
    let off = ContactSwitch {
        host: true,
        service: false,
    };
    assert!(rt; inventory.object_count() == 2 && inventory.contact_count() == 2);
    let owed = by_switch(alloc, &inventory, &[on, off], 1, &[0, 1])?;
    assert_eq!(rt; owed.reached.as_slice(), [0].as_slice());
    assert_eq!(rt; owed.missed.as_slice(), [1].as_slice());
    Ok(())
}

#[test]
fn owed_under_another_inventory(rt: HostRuntime) -> Result<(), Fail> {
    let alloc = rt.alloc();
    // FIVE_LINES: two contacts, the host web, its service http and an escalation of http to bob
    let inventory = Inventory::parse(alloc, FIVE_LINES)?;
    assert!(rt; inventory.object_count() == 2 && inventory.contact_count() == 2);
    let owed = still_owed(alloc, &inventory, 1, &[1, 0])?;
    assert_eq!(rt; owed.as_slice(), [0, 1].as_slice());
    Ok(())
}

#[test]
fn interval(rt: HostRuntime) -> Result<(), Fail> {
    let alloc = rt.alloc();
    // FIVE_LINES: two contacts, the host web, its service http and an escalation of http to bob
    let inventory = Inventory::parse(alloc, FIVE_LINES)?;
    assert!(rt; inventory.object_count() == 2);
    assert_eq!(rt; interval_in_force(&inventory, 1, 1, 2), 600);
    assert_eq!(rt; interval_in_force(&inventory, 1, 2, 2), 300);
    Ok(())
}

#[test]
fn letters(rt: HostRuntime) {
    assert_eq!(rt; letter_of(true, 2), Letter::C);
    assert_eq!(rt; letter_of(false, 1), Letter::D);
}

#[test]
fn options(rt: HostRuntime) -> Result<(), Fail> {
    let alloc = rt.alloc();
    // FIVE_LINES: two contacts, the host web, its service http and an escalation of http to bob
    let inventory = Inventory::parse(alloc, FIVE_LINES)?;
    let [web, ..] = inventory.objects() else {
        return Err(Fail::new("some objects"));
    };
    assert!(rt; has_letter(web.letters, Letter::D));
    assert!(rt; !has_letter(web.letters, Letter::C));
    Ok(())
}

#[test]
fn facts(rt: HostRuntime) {
    // FACTS: a hard problem of which nothing was said yet, nothing switched off and no downtime
    assert!(rt; problem_viable(&FACTS));
    let acknowledged = Facts {
        acknowledged: true,
        ..FACTS
    };
    assert!(rt; !problem_viable(&acknowledged));
}

#[test]
fn recovery(rt: HostRuntime) {
    // FACTS: no PROBLEM notice went out, so none of a recovery does
    assert!(rt; !recovery_viable(&FACTS));
}

#[test]
fn forced(rt: HostRuntime) {
    // FACTS: nothing switched off; options 2 force the notice out
    let in_downtime = Facts { depth: 1, ..FACTS };
    assert!(rt; !custom_viable(&in_downtime, 0));
    assert!(rt; custom_viable(&in_downtime, 2));
}

#[test]
fn increment(rt: HostRuntime) {
    assert!(rt; increments(4));
    assert!(rt; !increments(3));
}

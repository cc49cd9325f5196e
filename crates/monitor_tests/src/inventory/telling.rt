//! What stands in an inventory, as a text. Where memory is refused, what was to be appended is appended again.
use mon_inventory::{ContactSpec, Escalation, Inventory, Letters, ObjectSpec};
use std::alloc::AllocGlobal;
use std::process::Abort;

fn put(rt: &impl Abort, out: &mut Vec<u8>, bytes: &[u8]) {
    if out.extend_from_slice(bytes).is_err() {
        out.extend_from_slice(bytes)
            .expect(rt, "memory is refused twice");
    }
}

fn put_text(rt: &impl Abort, out: &mut Vec<u8>, text: &[u8]) {
    put(rt, out, b";");
    put(rt, out, text);
}

/// Appends the digits of a number.
fn put_digits(rt: &(impl Abort + AllocGlobal), out: &mut Vec<u8>, number: u64) {
    let digits = match format!(in rt.alloc(); "{number}") {
        Ok(digits) => digits,
        Err(_) => format!(in rt.alloc(); "{number}").expect(rt, "memory is refused twice"),
    };
    put(rt, out, digits.as_bytes());
}

fn put_numbers(rt: &(impl Abort + AllocGlobal), out: &mut Vec<u8>, numbers: &[u64]) {
    for number in numbers {
        put(rt, out, b";");
        put_digits(rt, out, *number);
    }
}

fn put_indices(rt: &(impl Abort + AllocGlobal), out: &mut Vec<u8>, indices: &[u16]) {
    put(rt, out, b";");
    for index in indices {
        put_digits(rt, out, u64::from(*index));
        put(rt, out, b",");
    }
}

fn put_letter(rt: &impl Abort, out: &mut Vec<u8>, on: bool, letter: &[u8]) {
    if on {
        put(rt, out, letter);
    }
}

fn put_letters(rt: &impl Abort, out: &mut Vec<u8>, letters: Letters) {
    put(rt, out, b";");
    put_letter(rt, out, letters.w, b"w");
    put_letter(rt, out, letters.u, b"u");
    put_letter(rt, out, letters.c, b"c");
    put_letter(rt, out, letters.d, b"d");
    put_letter(rt, out, letters.r, b"r");
    put_letter(rt, out, letters.s, b"s");
}

fn put_contact(rt: &impl Abort, out: &mut Vec<u8>, contact: &ContactSpec) {
    put(rt, out, b"contact");
    put_text(rt, out, contact.name.as_bytes());
    put_letters(rt, out, contact.host_letters);
    put_letters(rt, out, contact.service_letters);
    put(rt, out, b"\n");
}

fn put_object(rt: &(impl Abort + AllocGlobal), out: &mut Vec<u8>, object: &ObjectSpec) {
    let host_object = u64::from(object.host_object);
    put(rt, out, b"object");
    put_text(rt, out, object.host.as_bytes());
    match &object.service {
        Some(service) => put_text(rt, out, service.as_bytes()),
        None => put_text(rt, out, b""),
    }
    put_numbers(rt, out, &[host_object, object.max, object.interval]);
    put_letters(rt, out, object.letters);
    put_indices(rt, out, object.contacts.as_slice());
}

fn put_escalation(rt: &(impl Abort + AllocGlobal), out: &mut Vec<u8>, one: &Escalation) {
    let object = u64::from(one.object);
    put(rt, out, b"escalation");
    put_numbers(rt, out, &[object, one.first, one.last, one.interval]);
    put_letters(rt, out, one.letters);
    put_indices(rt, out, one.contacts.as_slice());
    put(rt, out, b"\n");
}

/// A line for each contact, each object with its services and escalations, and each escalation.
pub fn told(rt: &(impl Abort + AllocGlobal), inventory: &Inventory) -> Vec<u8> {
    let mut out = Vec::new(rt.alloc());
    for number in 0..inventory.contact_count() {
        put_contact(rt, &mut out, inventory.contact(number));
    }
    for number in 0..inventory.object_count() {
        put_object(rt, &mut out, inventory.object(number));
        put_indices(rt, &mut out, inventory.services_of(number));
        put_indices(rt, &mut out, inventory.escalations_of(number));
        put(rt, &mut out, b"\n");
    }
    for escalation in inventory.escalations() {
        put_escalation(rt, &mut out, escalation);
    }
    out
}

//! The examples in the documentation of the public items, a test each, with the same lines.
use crate::*;
use cmd_types::Memory;
use mon_engine::{Acknowledgement, Parts};
use mon_inventory::Inventory;
use std::alloc::Global;
use std::test::Fail;

const OLD: &[u8] = b"host;web;3;0;;\n";

fn first_parts(alloc: Global) -> Result<Parts, Memory> {
    let objects = Vec::from_array(alloc, [super::object(alloc, false)])?;
    super::parts_of(alloc, objects, Vec::new(alloc))
}

#[test]
fn fault(rt: HostRuntime) -> Result<(), Fail> {
    let alloc = rt.alloc();
    // OLD: the text of an inventory with the host web
    let old = Inventory::parse(alloc, OLD)?;
    let new = Inventory::parse(alloc, b"")?;
    // first_parts: the parts of a monitor of that inventory, to which nothing has happened
    let parts = first_parts(alloc)?;
    let None = parts.misfit(&old) else {
        return Err(Fail::new("they are of this inventory"));
    };
    // no downtime was ever scheduled
    assert!(rt; carry(alloc, &old, parts, &new).is_ok());
    Ok(())
}

#[test]
fn carried(rt: HostRuntime) -> Result<(), Fail> {
    let alloc = rt.alloc();
    // OLD: the text of an inventory with the host web
    let old = Inventory::parse(alloc, OLD)?;
    let new = Inventory::parse(alloc, b"host;db;3;0;;\nhost;web;3;0;;\n")?;
    // first_parts: the parts of a monitor of that inventory, to which nothing has happened
    let mut parts = first_parts(alloc)?;
    let Some(web) = parts.objects.first_mut() else {
        return Err(Fail::new("a host"));
    };
    web.acknowledgement = Acknowledgement::Sticky;
    let None = parts.misfit(&old) else {
        return Err(Fail::new("they are of this inventory"));
    };
    let Ok(parts) = carry(alloc, &old, parts, &new) else {
        return Err(Fail::new("the new inventory has objects"));
    };
    let [db, web] = parts.objects.as_slice() else {
        return Err(Fail::new("two objects"));
    };
    assert!(rt; matches!(db.acknowledgement, Acknowledgement::Unacknowledged));
    assert!(rt; matches!(web.acknowledgement, Acknowledgement::Sticky));
    Ok(())
}

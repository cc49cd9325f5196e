//! The comparison of the inventory file's text with the text of a run.
use cmd_answer::FollowLine;
use cmd_live::{end_last_line, inventory_line, new_inventory};
use mon_inventory::Cause;
use std::test::Fail;

const CURRENT: &[u8] = b"host;web;1;0;;\n";

#[test]
fn a_text_is_that_of_the_run_or_a_new_inventory(rt: HostRuntime) -> Result<(), Fail> {
    let alloc = rt.alloc();
    let Ok(same) = new_inventory(alloc, CURRENT, CURRENT) else {
        return Err(Fail::new("the text has no fault"));
    };
    assert!(rt; same.is_none());
    let text = b"host;web;1;0;;\nservice;web;http;3;60;;\nhost;db;1;0;;\n";
    let Ok(Some(found)) = new_inventory(alloc, CURRENT, text) else {
        return Err(Fail::new("the text has no fault"));
    };
    assert_eq!(rt;
        inventory_line(&found),
        FollowLine::NewInventory {
            hosts: 2,
            services: 1
        }
    );
    Ok(())
}

#[test]
fn a_text_with_a_fault_or_without_an_object_is_refused(rt: HostRuntime) -> Result<(), Fail> {
    let alloc = rt.alloc();
    for (text, line, cause) in [
        (b"".as_slice(), 1, Cause::BadForm),
        (b"contact;ann;d;c\n".as_slice(), 1, Cause::BadForm),
        (
            b"host;web;1;0;;\nhost;web;1;0;;\n".as_slice(),
            2,
            Cause::Duplicate,
        ),
    ] {
        let Err(fault) = new_inventory(alloc, CURRENT, text) else {
            return Err(Fail::new("the text has a fault"));
        };
        assert_eq!(rt; (fault.line, fault.cause), (line, cause));
    }
    Ok(())
}

#[test]
fn the_last_line_is_ended(rt: HostRuntime) -> Result<(), Fail> {
    let alloc = rt.alloc();
    for (text, ended) in [
        (b"".as_slice(), b"".as_slice()),
        (b"a".as_slice(), b"a\n".as_slice()),
        (b"a\n".as_slice(), b"a\n".as_slice()),
    ] {
        let whole = end_last_line(text.to_vec(alloc)?)?;
        assert_eq!(rt; whole.as_slice(), ended);
    }
    Ok(())
}

//! The examples that the documentation of the public items has, a test each, with the same lines.
use cmd_types::Text;
use mon_notes::{Notes, misplaced};
use std::test::*;

#[test]
fn notes(rt: HostRuntime) -> Result<(), Fail> {
    let alloc = rt.alloc();
    let mut notes = Notes::new(alloc);
    let author = Text::new(Vec::from_slice(alloc, b"ann")?);
    let text = Text::new(Vec::from_slice(alloc, b"on it")?);
    let id = notes.add(alloc, 0, true, false, 100, author, text)?;
    assert_eq!(rt; id, 1);
    notes.drop_acknowledged(0);
    assert!(rt; notes.list().is_empty());
    assert_eq!(rt; notes.last_id(), 1);
    Ok(())
}

#[test]
fn comment(rt: HostRuntime) -> Result<(), Fail> {
    let alloc = rt.alloc();
    let mut notes = Notes::new(alloc);
    let author = Text::new(Vec::from_slice(alloc, b"ann")?);
    let text = Text::new(Vec::from_slice(alloc, b"new disk")?);
    let id = notes.add(alloc, 0, false, true, 100, author, text)?;
    let Some(comment) = notes.find(id) else {
        return Err(Fail::new("the comment is there"));
    };
    assert_eq!(rt; comment.text.as_bytes(), b"new disk".as_slice());
    Ok(())
}

#[test]
fn in_order(rt: HostRuntime) -> Result<(), Fail> {
    assert_eq!(rt; misplaced(&[], 0), None);
    Ok(())
}

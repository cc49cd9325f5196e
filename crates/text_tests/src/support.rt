//! What the tests compare, and the texts that they join. It promises nothing: else each would be proved by it anew.
use cmd_types::Memory;
use std::alloc::{AllocGlobal, Global};
use std::fmt::Debug;
use std::process::Abort;

/// Both are the same.
pub fn same<T: PartialEq + Debug + Drop>(rt: &impl Abort, got: T, want: T) {
    assert_eq!(rt; got, want);
}

fn join(alloc: Global, parts: &[&[u8]]) -> Result<Vec<u8>, Memory> {
    let mut text = Vec::new(alloc);
    for part in parts {
        text.extend_from_slice(part)?;
    }
    Ok(text)
}

/// The parts one behind the other, joined again where an allocation is refused.
pub fn joined(rt: &(impl Abort + AllocGlobal), parts: &[&[u8]]) -> Vec<u8> {
    match join(rt.alloc(), parts) {
        Ok(text) => text,
        Err(_) => join(rt.alloc(), parts).expect(rt, "memory is refused twice"),
    }
}

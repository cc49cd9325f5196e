//! What the tests compare.
use std::fmt::Debug;
use std::process::Abort;

/// Both are the same.
pub fn same<T: PartialEq + Debug + Drop>(rt: &impl Abort, got: T, want: T) {
    assert_eq!(rt; got, want);
}

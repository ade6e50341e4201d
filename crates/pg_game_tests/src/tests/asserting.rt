//! Assertions as calls: a test that calls is proved sooner than one that branches.

use std::fmt::Debug;
use std::process::Abort;

/// Ends the test where the values differ, and says where.
pub fn same<T: PartialEq + Debug + Copy, D: Debug + Copy>(
    rt: &impl Abort,
    found: T,
    want: T,
    at: D,
) {
    if found != want {
        panic!(*rt; "{at:?}: {found:?} for {want:?}");
    }
}

/// Ends the test if it is not so, and says where.
pub fn holds<D: Debug + Copy>(rt: &impl Abort, is_so: bool, at: D) {
    if !is_so {
        panic!(*rt; "{at:?}");
    }
}

/// What a call gives that is not to be refused, or the test's end: a way out by `?` costs each caller more.
pub fn made<T, E: Debug + Drop>(rt: &impl Abort, answer: Result<T, E>) -> T {
    match answer {
        Ok(value) => value,
        Err(error) => panic!(*rt; "refused: {error:?}"),
    }
}

//! How a test ends where memory is refused to what it needs itself. `tests/program/refused_calls.py` of the
//! repository knows the message.

use std::test::Fail;

pub fn lacking() -> Fail {
    Fail::from("no memory for the test itself")
}

/// What the test needs itself, or its one message where memory is refused to that.
pub fn needed<T, E: Drop>(made: Result<T, E>) -> Result<T, Fail> {
    match made {
        Ok(value) => Ok(value),
        Err(_) => Err(lacking()),
    }
}

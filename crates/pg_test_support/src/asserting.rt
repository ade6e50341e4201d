//! Macros for assertions, which are calls: a test that calls is proved sooner than one that branches. Only a
//! crate's tests may end their process, so each crate of tests has the functions in its module `asserting`.

/// As `assert_eq!`; the last argument says where, as a value.
#[macro_export]
macro_rules! check_eq {
    ($rt:expr; $found:expr, $want:expr $(,)?) => {
        crate::tests::asserting::same(&$rt, $found, $want, stringify!($found))
    };
    ($rt:expr; $found:expr, $want:expr, $at:expr $(,)?) => {
        crate::tests::asserting::same(&$rt, $found, $want, $at)
    };
}

/// As `assert!`.
#[macro_export]
macro_rules! check {
    ($rt:expr; $is_so:expr $(,)?) => {
        crate::tests::asserting::holds(&$rt, $is_so, stringify!($is_so))
    };
    ($rt:expr; $is_so:expr, $at:expr $(,)?) => {
        crate::tests::asserting::holds(&$rt, $is_so, $at)
    };
}

/// What a call returns, made once more if it was refused memory; the last argument is that error, where the call
/// has others. `tests/program/refused_calls.py` of the repository runs each test whose name ends in
/// `after_a_refusal` with one allocation after another refused.
#[macro_export]
macro_rules! twice {
    ($call:expr $(,)?) => {
        match $call {
            Err(_) => $call,
            answer => answer,
        }
    };
    ($call:expr, $memory:pat $(,)?) => {
        match $call {
            Err($memory) => $call,
            answer => answer,
        }
    };
}

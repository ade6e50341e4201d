//! What a line of words asks for, done by a function without a contract: a test that calls it is proved without what the
//! runs promise.

use super::devices::{Bounded, Pieces};
use pg_finders::Finder;
use pg_workers::Gate;
use pgboard::{RunFault, asked, run_asked};
use std::alloc::{AllocError, Global};
use std::sync::Wait;
use std::thread::Threads;

/// Does what the words ask for, and answers its status; of words that are refused, the status of their fault.
pub fn answered<R: Threads + Wait + Sync>(
    rt: &R,
    alloc: Global,
    words: &[&str],
    input: &mut Pieces<'_>,
    second: &mut Pieces<'_>,
    out: &mut Bounded,
    gate: &impl Gate,
    finder: &impl Finder,
) -> Result<u8, RunFault> {
    match asked(alloc, words) {
        Ok(asked) => run_asked(rt, alloc, &asked, input, second, out, gate, finder),
        Err(refusal) => Ok(refusal.status()),
    }
}

/// The same on a game alone.
pub fn answered_on<R: Threads + Wait + Sync>(
    rt: &R,
    alloc: Global,
    words: &[&str],
    game: &[u8],
    out: &mut Bounded,
    gate: &impl Gate,
    finder: &impl Finder,
) -> Result<u8, RunFault> {
    let mut input = Pieces::whole(game);
    let mut none = Pieces::whole(b"");
    answered(rt, alloc, words, &mut input, &mut none, out, gate, finder)
}

/// The status of an answer, and the words of its fault or none.
pub fn outcome(alloc: Global, answer: Result<u8, RunFault>) -> Result<(u8, String), AllocError> {
    match answer {
        Ok(status) => Ok((status, String::new(alloc))),
        Err(fault) => Ok((fault.status(), fault.to_string(alloc)?)),
    }
}

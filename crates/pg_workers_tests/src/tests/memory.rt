//! A worker whose claim is refused memory posts the next one.
//!
//! With ample memory this test passes without meeting a refusal. `tests/program/refused_calls.py` of the repository runs it with
//! one allocation after another refused. It passes, or says that memory was refused to what the test needs itself.

ghost use Rattle.std.specs.Prelude.{◌≤◌};

use crate::tests::finders::answer;
use crate::tests::games::{TWO_LOOPS, product, solved, try_solved};
use pg_finders::{Copied, Finder, Found, Job, Standard};
use pg_game::{Game, Memory};
use pg_test_support::{check_eq, needed};
use pg_text::read_game;
use pg_workers::{Outcome, Pass, SolveFault};
use std::alloc::Global;
use std::process::Abort;
use std::sync::{OnceLock, Wait};
use std::test::Fail;
use std::thread::Threads;

/// The game of two winners, of which nothing is said.
fn two_loops(alloc: Global) -> Result<Game, Fail> {
    needed(read_game(alloc, TWO_LOOPS))
}

/// A run that is made once more where memory was refused to what the workers do not do.
fn solved_again<R: Threads + Wait + Abort + Sync>(
    rt: &R,
    alloc: Global,
    game: &Game,
    workers: u32,
    finder: &impl Finder,
) -> Outcome
    requires { (1 ≤ workers) × (workers ≤ 64) }
{
    let options = product(workers);
    match try_solved(rt, alloc, game, &options, &Pass, finder) {
        Err(SolveFault::Memory) => solved(rt, alloc, game, &options, &Pass, finder),
        made => made.expect(rt, "an outcome"),
    }
}

/// Claims the loop of each player in the first job, and notes that it did.
#[derive(Drop)]
struct Once {
    has_claimed: OnceLock<()>,
}

impl Finder for Once {
    fn find(&self, alloc: Global, copied: &Copied, job: &Job) -> Result<Found, Memory> {
        if *job != Job::Loops {
            return answer(Vec::new(alloc), Ok(()));
        }
        let found = Standard.find(alloc, copied, job)?;
        let _ = self.has_claimed.try_set(());
        Ok(found)
    }
}

/// Of two claims at most one was refused memory, and the other one was posted.
fn check_claimed(rt: &impl Abort, finder: &Once, outcome: &Outcome) {
    if let (Some(()), Some(row)) = (finder.has_claimed.get(), outcome.report.first()) {
        check_eq!(*rt; row.posted, if row.memory { 1 } else { 2 });
    }
}

#[test]
fn a_worker_posts_the_next_claim_after_a_refusal(rt: HostRuntime) -> Result<(), Fail> {
    let game = two_loops(rt.alloc())?;
    let finder = Once {
        has_claimed: OnceLock::new(),
    };
    let outcome = solved_again(&rt, rt.alloc(), &game, 1, &finder);
    check_claimed(&rt, &finder, &outcome);
    Ok(())
}

//! The code of README.md, which `tests/pages/pages.py` of the repository looks for here.

use crate::tests::games::{TWO_LOOPS, game_of};
use pg_finders::Standard;
use pg_game::{Game, Player};
use pg_test_support::check_eq;
use pg_text::read_known;
use pg_workers::{Options, Outcome, Pass, solve_game};
use std::alloc::Global;
use std::process::Abort;
use std::test::*;

const ROWS: &[(Player, Option<u32>)] = &[(Player::Even, Some(0)), (Player::Odd, Some(1))];

/// Compares what a run on the game of two winners gives.
fn compare(rt: &impl Abort, outcome: &Outcome) {
    check_eq!(*rt; outcome.entries.len(), 2);
    check_eq!(*rt; outcome.report.len(), 5);
    check_eq!(*rt; outcome.solution.rows.as_slice(), ROWS);
}

#[test]
fn a_game_is_solved(rt: HostRuntime) -> Result<(), Fail> {
    let alloc = rt.alloc();
    let game = game_of(&rt, alloc, TWO_LOOPS);
    let options = Options {
        workers: 4,
        bound: 4,
        budget: 10_000,
    };
    let known = read_known(alloc, &game, b"")?;
    let outcome = solve_game(&rt, alloc, &game, &options, &known, &Pass, &Standard)?;
    compare(&rt, &outcome);
    Ok(())
}

//! Claims that were checked on one game and are settled on a board of another.

use crate::tests::asserting::made;
use crate::tests::games::{DIVIDED, LAYERED, claim_of, game_made, new_board};
use pg_board::{Posted, Refusal};
use pg_dominion::{Checked, Claim, check_claim};
use pg_game::Game;
use pg_test_support::{EVEN, ODD, Row, Vertex, check_eq};
use std::alloc::Global;
use std::process::Abort;

/// A claim that is sound in its game.
fn checked_on(rt: &impl Abort, alloc: Global, game: &Game, claim: &Claim) -> Checked {
    made(rt, check_claim(alloc, game, claim))
}

/// Rows of Even that are checked on the first game, and the answer of a new board of the second one.
struct Case<'a> {
    on: &'a [Vertex<'a>],
    rows: &'a [Row],
    game: &'a [Vertex<'a>],
    want: Result<Posted, Refusal>,
}

const FOREIGN_AT_0: Result<Posted, Refusal> = Err(Refusal::Foreign(0));

const CASES: &[Case] = &[
    // a row that says otherwise of its vertex is foreign
    Case {
        on: DIVIDED,
        rows: &[(0, Some(0))],
        game: LAYERED,
        want: FOREIGN_AT_0,
    },
    Case {
        on: &[(0, ODD, &[0])],
        rows: &[(0, None)],
        game: &[(0, ODD, &[0, 1]), (0, EVEN, &[1])],
        want: FOREIGN_AT_0,
    },
    // rows that agree are settled in a smaller game
    Case {
        on: &[(0, EVEN, &[0, 1]), (0, EVEN, &[1])],
        rows: &[(0, Some(0))],
        game: &[(0, EVEN, &[0])],
        want: Ok(Posted {
            entry: 0,
            claimed: 1,
            settled: 1,
        }),
    },
    Case {
        on: &[(0, EVEN, &[0, 1]), (0, EVEN, &[1])],
        rows: &[(1, Some(1))],
        game: &[(0, EVEN, &[0])],
        want: Err(Refusal::Foreign(1)),
    },
];

#[test]
fn claims_that_were_checked_on_another_game_have_their_answers(rt: HostRuntime) {
    for case in CASES {
        compare_case(&rt, rt.alloc(), case);
    }
}

/// A checked claim outlives the game that it was checked on, and the claim.
fn checked_of(rt: &impl Abort, alloc: Global, case: &Case) -> Checked {
    let on = game_made(rt, alloc, case.on);
    let claim = claim_of(rt, alloc, EVEN, case.rows);
    checked_on(rt, alloc, &on, &claim)
}

fn compare_case(rt: &impl Abort, alloc: Global, case: &Case) {
    let checked = checked_of(rt, alloc, case);
    let game = game_made(rt, alloc, case.game);
    check_eq!(*rt; settled_on_new(rt, alloc, &game, &checked), case.want);
}

/// The answer of a new board to worker 7.
fn settled_on_new(
    rt: &impl Abort,
    alloc: Global,
    game: &Game,
    checked: &Checked,
) -> Result<Posted, Refusal> {
    let mut board = new_board(rt, alloc, game);
    board.settle(alloc, 7, checked)
}

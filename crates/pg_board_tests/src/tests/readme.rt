//! The code of README.md, which `tests/pages/pages.py` of the repository looks for here.

use crate::tests::games::{SHARED, game_made};
use pg_board::{Board, Refusal};
use pg_dominion::Claim;
use pg_game::{Game, Player, Sequence};
use pg_test_support::{EVEN, Vertex, check_eq};
use pg_text::Solution;
use std::alloc::Global;
use std::process::Abort;
use std::test::Fail;

/// What is said of the claim that Even wins vertex 0 by staying there, and whether the game is solved then.
fn said(alloc: Global, game: &Game) -> Result<(String, Option<Solution>), Fail> {
    let mut board = Board::open(alloc, game)?;
    let claim = Claim {
        player: Player::Even,
        rows: Sequence::new(Vec::from_slice(alloc, [(0, Some(0))].as_slice())?),
    };
    said_of_post(alloc, &mut board, claim)
}

/// What is said of a claim, and whether the game is solved then.
fn said_of_post(
    alloc: Global,
    board: &mut Board,
    claim: Claim,
) -> Result<(String, Option<Solution>), Fail> {
    let said = match board.post(alloc, 1, &claim) {
        Ok(posted) => format!(in alloc; "entry {}: {} settled", posted.entry, posted.settled)?,
        Err(Refusal::Stale) => format!(in alloc; "all of it was settled before")?,
        Err(refusal) => format!(in alloc; "{refusal:?}")?,
    };
    // winners and choices of all vertices, where all are settled
    let solution = board.solution(alloc)?;
    Ok((said, solution))
}

/// A game, what is said of the claim, and whether it solves the game.
const CASES: &[(&[Vertex], &str, bool)] = &[
    (SHARED, "entry 0: 2 settled", false),
    (&[(0, EVEN, &[0])], "entry 0: 1 settled", true),
    (&[(1, EVEN, &[0])], "Claim(Cycle(0))", false),
];

#[test]
fn a_claim_is_posted(rt: HostRuntime) -> Result<(), Fail> {
    for case in CASES {
        let game = game_made(&rt, rt.alloc(), case.0);
        compare_said(&rt, rt.alloc(), &game, case.1, case.2)?;
    }
    Ok(())
}

fn compare_said(
    rt: &impl Abort,
    alloc: Global,
    game: &Game,
    want: &str,
    is_solved: bool,
) -> Result<(), Fail> {
    let (found, solution) = said(alloc, game)?;
    check_eq!(*rt; (found.as_str(), solution.is_some()), (want, is_solved));
    Ok(())
}

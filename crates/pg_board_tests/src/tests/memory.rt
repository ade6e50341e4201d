//! Where memory is refused, nothing has changed, and the same call with memory is accepted.
//!
//! With ample memory these tests pass without meeting a refusal. `tests/program/refused_calls.py` of the repository runs each of
//! them with one allocation after another refused. A run makes what it needs itself once more, but for an office: where
//! that is refused, the run says so.

use crate::tests::boards::{Case, EVENS, FULL, HALF, NEW, ODDS, Put, compare_board};
use crate::tests::calls::Call;
use crate::tests::games::{SHARED, claim_of, game_made, new_board};
use crate::tests::offices::{RUNS, run_through};
use pg_board::{Board, Refusal};
use pg_game::Game;
use pg_test_support::check_eq;
use std::alloc::Global;
use std::process::Abort;
use std::test::Fail;

/// A claim that is accepted. Where memory is refused, the board is as it was, and the claim is put again.
fn accepted(
    rt: &impl Abort,
    alloc: Global,
    call: Call,
    board: &mut Board,
    put: &Put,
    before: &Case,
) {
    let claim = claim_of(rt, alloc, put.0, put.1);
    let mut found = call.put(alloc, board, &claim);
    if found == Err(Refusal::Memory) {
        compare_board(rt, alloc, board, before);
        found = call.put(alloc, board, &claim);
    }
    check_eq!(*rt; found, put.2);
}

/// Opens a board of the shared game, reads it, settles both loops, and reads it again.
fn fill_board(rt: &impl Abort, alloc: Global, call: Call, game: &Game) {
    let mut board = new_board(rt, alloc, game);
    compare_board(rt, alloc, &board, NEW);
    accepted(rt, alloc, call, &mut board, &EVENS, NEW);
    accepted(rt, alloc, call, &mut board, &ODDS, HALF);
    compare_board(rt, alloc, &board, FULL);
}

#[test]
fn a_board_is_opened_filled_copied_and_read_after_a_refusal(rt: HostRuntime) {
    let game = game_made(&rt, rt.alloc(), SHARED);
    fill_board(&rt, rt.alloc(), Call::Post, &game);
    fill_board(&rt, rt.alloc(), Call::Settle, &game);
}

#[test]
fn worked_claims_through_shares_have_their_answers_also_after_a_refusal(
    rt: HostRuntime,
) -> Result<(), Fail> {
    for case in RUNS {
        let game = game_made(&rt, rt.alloc(), case.game);
        for call in [Call::Post, Call::Settle] {
            run_through(&rt, rt.alloc(), call, &game, case)?;
        }
    }
    Ok(())
}

//! The two calls that settle a claim, on a board and through an office.

use crate::tests::asserting::made;
use pg_board::{Board, Office, Opening, Posted, Refusal, Share};
use pg_dominion::{Claim, check_claim};
use pg_finders::Copied;
use pg_game::Game;
use std::alloc::Global;
use std::process::Abort;
use std::sync::Wait;

/// A copy of the board, which a test does not look at, taken once more where memory was refused.
pub fn copied<'g>(rt: &impl Abort, alloc: Global, board: &Board<'g>) -> Copied<'g> {
    match board.copy(alloc) {
        Ok(copied) => copied,
        Err(_) => made(rt, board.copy(alloc)),
    }
}

/// How a claim is put to a board.
#[derive(Clone, Copy)]
pub enum Call {
    /// As it is, for the board to check.
    Post,
    /// Checked on the board's game before.
    Settle,
}

impl Call {
    /// The board's answer to a claim of worker 7.
    pub fn put(self, alloc: Global, board: &mut Board, claim: &Claim) -> Result<Posted, Refusal> {
        match self {
            Call::Post => board.post(alloc, 7, claim),
            Call::Settle => {
                let checked = check_claim(alloc, board.game(), claim)?;
                board.settle(alloc, 7, &checked)
            }
        }
    }

    /// The answer of an office to a claim, which is checked on this game.
    pub fn put_through<L: Opening, R: Wait>(
        self,
        rt: &R,
        alloc: Global,
        office: &Office<L>,
        share: &mut Share<L>,
        worker: u32,
        game: &Game,
        claim: &Claim,
    ) -> Result<u32, Refusal> {
        match self {
            Call::Post => office.post(rt, alloc, share, worker, claim),
            Call::Settle => {
                let checked = check_claim(alloc, game, claim)?;
                office.settle(rt, alloc, share, worker, &checked)
            }
        }
    }
}

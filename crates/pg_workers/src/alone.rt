//! Solving in the calling thread: what is known, and then a board that settles all the rest itself (`Board::finish`). A static
//! library solves so, since it may start no thread.

ghost use Rattle.std.specs.Prelude.{◌≡◌, slice_get, IfOk, IfErr, IfSome, IsNone, Some, Option, ℕ};
ghost use Rattle.pg_game.specs.declared.player.Player.{Player};
ghost use Rattle.pg_board.specs.Journal.{state_of};
ghost use Rattle.pg_board.specs.Finish.{MayGiveUp, number_unsettled, priorities_unsettled};
ghost use Rattle.pg_text.specs.Solution.{IsExactSolution};
ghost use Rattle.pg_workers.specs.KnownRegions.{IsSolveFault, IsKnownRegion, KeepsKnown, MayGiveUpFrom};

use crate::known::{KnownOf, SolveFault, board_with};
use pg_board::Board;
use pg_game::Memory;
use pg_text::Solution;
use std::alloc::Global;

/// The same as `solve_game` in the calling thread: it starts no thread and waits for nothing. It posts Even's known set and
/// then Odd's, and solves the board. What is known keeps its winners and choices. None if there is a limit and the board gave
/// up. The errors are those of `solve_game`.
pub fn solve_alone(
    alloc: Global,
    of: &KnownOf<'_>,
    limit: Option<u64>,
) -> Result<Option<Solution>, SolveFault>
    ensures exact { IfOk result (λ found. IfSome found (λ s. IsExactSolution of.now.game.now s.rows)) }
    ensures regions { IfOk result (λ found. (p : Player) → IsKnownRegion of.now.game.now of.now.known.now.rows p) }
    ensures kept { IfOk result (λ found. IfSome found (λ s. KeepsKnown of.now.game.now of.now.known.now.rows (λ v. slice_get s.rows v))) }
    ensures limited { IfOk result (λ found. IsNone found → MayGiveUpFrom limit of.now.game.now of.now.known.now.rows) }
    ensures fault { IfErr result (λ e. IsSolveFault of.now.game.now of.now.known.now.rows e) }
{
    let board = board_with(alloc, of)?;
    Ok(solve_board(alloc, board, limit)?)
}

/// The solution of a board's game by `Board::finish`. A settled vertex keeps its winner and its choice. None if there is a limit
/// and the board gave up. The only error is `Memory`.
pub fn solve_board(
    alloc: Global,
    mut board: Board<'_>,
    limit: Option<u64>,
) -> Result<Option<Solution>, Memory>
    ensures exact { IfOk result (λ found. IfSome found (λ s. IsExactSolution board.entry.graph s.rows)) }
    ensures kept { IfOk result (λ found. IfSome found (λ s. (v : ℕ) (r : Player × Option ℕ)
        → state_of board.entry.journal v ≡ Some r → slice_get s.rows v ≡ Some r)) }
    ensures limited { IfOk result (λ found. IsNone found → MayGiveUp limit (priorities_unsettled board.entry) (number_unsettled board.entry)) }
{
    if !board.finish(alloc, limit)? {
        return Ok(None);
    }
    board.solution(alloc)
}

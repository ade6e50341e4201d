//! What is known of a game, in arrays: winners of some vertices, and their choices there. A board judges it, as in `pg_workers`.

ghost use Rattle.std.specs.Prelude.{◌≡◌, length, slice_get, IfOk, IfErr, MatchOption};
ghost use Rattle.pg_game.specs.Least.{NoneHas, IsLeast};
ghost use Rattle.pg_text.specs.Solution.{IsExactSolution};
ghost use Rattle.pg_workers.specs.KnownRegions.{IsKnownRegion, KeepsKnown};
ghost use Rattle.pgboard_c.specs.KnownArrays.{known_from, AreKnown, IsBadKnownWinner, IsUnsolved};

use crate::arrays::choice_from;
use crate::fault::Fault;
use pg_game::{Memory, Player, Sequence};
use pg_text::{Known, Solution};
use pg_workers::{KnownOf, SolveFault, known_fault, solve_alone};
use std::alloc::Global;

/// The first vertex whose winner is neither 0 nor 1 nor unknown.
pub fn first_bad_known_winner(winners: &[u8]) -> Option<usize>
    ensures { MatchOption result (NoneHas (IsBadKnownWinner winners.now)) (IsLeast (IsBadKnownWinner winners.now)) }
{
    for v in 0..winners.len() {
        if winners[v] > 1 && winners[v] != NO_WINNER {
            return Some(v);
        }
    }
    None
}

/// What is known by the arrays. The only error is `Memory`.
pub fn read_known(alloc: Global, winners: &[u8], choices: &[u32]) -> Result<Known, Memory>
    requires { length choices.now ≡ length winners.now }
    ensures { IfOk result (λ known. AreKnown winners.now choices.now known.rows) }
{
    let mut rows = Vec::with_capacity(alloc, winners.len())?;
    for v in 0..winners.len() {
        rows.push(known_from(winners[v], choices[v]))?;
    }
    Ok(Known {
        rows: Sequence::new(rows),
    })
}

/// The game's solution, from what is known of it, unless there is a limit and the recursion needs more steps.
pub fn known_solution(
    alloc: Global,
    of: &KnownOf<'_>,
    limit: Option<u64>,
) -> Result<Solution, Fault>
    ensures exact { IfOk result (λ s. IsExactSolution of.now.game.now s.rows) }
    ensures regions { IfOk result (λ s. (p : Player) → IsKnownRegion of.now.game.now of.now.known.now.rows p) }
    ensures kept { IfOk result (λ s. KeepsKnown of.now.game.now of.now.known.now.rows (λ v. slice_get s.rows v)) }
    ensures fault { IfErr result (λ e. IsUnsolved limit of.now.game.now of.now.known.now.rows e) }
{
    match solve_alone(alloc, of, limit) {
        Ok(Some(solution)) => Ok(solution),
        Ok(None) => Err(Fault::GaveUp),
        Err(SolveFault::Known(player, refusal)) => {
            Err(Fault::Known(known_fault(of.game, of.known, player, refusal)))
        }
        Err(SolveFault::Memory) => Err(Fault::Memory),
    }
}

/// The number for an unknown winner.
pub const NO_WINNER: u8 = 255;

/// What is known of a vertex with this winner and this choice.
fn known_from(winner: u8, choice: u32) -> Option<(Player, Option<u32>)>
    ensures { result ≡ known_from winner choice }
{
    if winner == NO_WINNER {
        return None;
    }
    Some((Player::of_digit(u32::from(winner)), choice_from(choice)))
}

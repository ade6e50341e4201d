//! The check of winners and choices for a whole game.
//!
//! Four passes in the order of the faults. Once no kept edge leads from one winner's vertices to the other's, one search
//! for bad closed walks serves both, since such a walk stays with one winner.

ghost use Rattle.std.specs.Prelude.{◌≡◌, ℕ, ◌<◌, ◌↔◌, length, OnOk, IfOk, IfErr, IfSome, MatchOption, IsTrue};
ghost use Rattle.pg_game.specs.Least.{NoneHas, IsFirstEdge, IsLeast};
ghost use Rattle.pg_text.specs.Solution.{IsSolution, winner_of, choice_of};
ghost use Rattle.pg_text.specs.Verdict.{LacksChoice, HasBadChoice, Leaves};
ghost use Rattle.pg_dominion.specs.Verdict.{FailsBy};
ghost use Rattle.pg_dominion.specs.private.JointStrategy.{IsJointStrategy, LeavesTo};

use crate::cycles::least_on_bad_cycle;
use crate::notes::{is_bad, own_choice};
use crate::strategy_graph::StrategyGraph;
use pg_game::{ForwardGame, Game, Memory, Player};
use pg_text::Solution;
use std::alloc::Global;

/// Why winners and choices are no solution, by identifiers. The first that applies is returned, for the least vertex and
/// then the least successor, but `Memory` may come in place of any.
#[derive(Clone, Copy, Debug, Drop, PartialEq, Eq)]
pub enum SolutionFault {
    /// Its winner owns the vertex, and it has no choice.
    NoChoice(u32),
    /// Its winner owns the vertex, and its choice is no successor.
    BadChoice(u32),
    /// A kept edge leads to a vertex of the other winner.
    Leaves(u32, u32),
    /// The vertex has the loser's parity and is the greatest on a closed walk of kept edges of its winner.
    Cycle(u32),
    /// Memory was refused.
    Memory,
}

impl From<Memory> for SolutionFault {
    ghost use Rattle.std.specs.Prelude.{◌≡◌};
    ghost use Rattle.pg_dominion.specs.declared.solution.SolutionFault.{SolutionFault};

    ghost from_gives = { λ _ f. f ≡ SolutionFault.Memory };

    fn from(_error: Memory) -> SolutionFault {
        SolutionFault::Memory
    }
}

/// A game with a winner, and a choice or none, for each of its vertices.
#[derive(Clone, Copy)]
struct Candidate<'a> {
    game: &'a ForwardGame,
    solution: &'a Solution,
    ghost size: { length solution.now.rows ≡ length game.now },
}

/// The edges that are kept of a game, where each winner has his choices.
#[derive(Clone, Copy)]
struct JointStrategy<'a, 'g> {
    kept: &'a StrategyGraph<'g>,
    solution: &'a Solution,
    ghost size: { length solution.now.rows ≡ length kept.now.game.now },
    ghost joint: { IsJointStrategy kept.now solution.now.rows },
}

/// Whether winners and choices are a solution of a game: the vertices of each winner are closed under the edges that he
/// keeps, and these make only closed walks whose greatest priority has his parity (Zielonka 1998).
///
/// The refusals are those of [`SolutionFault`].
pub fn check_solution(alloc: Global, game: &Game, solution: &Solution) -> Result<(), SolutionFault>
    requires { length solution.now.rows ≡ length game.now }
    ensures holds { OnOk result (IsSolution game.now solution.now.rows) }
    ensures fails { IfErr result (λ e. FailsBy game.now solution.now.rows e) }
{
    check_forward_solution(alloc, game.forward(), solution)
}

/// The same as [`check_solution`], for a game without predecessors.
pub fn check_forward_solution(
    alloc: Global,
    game: &ForwardGame,
    solution: &Solution,
) -> Result<(), SolutionFault>
    requires { length solution.now.rows ≡ length game.now }
    ensures holds { OnOk result (IsSolution game.now solution.now.rows) }
    ensures fails { IfErr result (λ e. FailsBy game.now solution.now.rows e) }
{
    let candidate = Candidate { game, solution };
    if let Some(v) = first_without_choice(&candidate) {
        return Err(SolutionFault::NoChoice(game.id(v)));
    }
    if let Some(v) = first_bad_choice(&candidate) {
        return Err(SolutionFault::BadChoice(game.id(v)));
    }
    let kept = joint_strategy(alloc, &candidate)?;
    let joint = JointStrategy {
        kept: &kept,
        solution,
    };
    if let Some((v, w)) = first_leaving(&joint) {
        let from = game.id(v);
        let to = game.id(w);
        return Err(SolutionFault::Leaves(from, to));
    }
    if let Some(v) = least_on_bad_cycle(alloc, &kept)? {
        return Err(SolutionFault::Cycle(game.id(v)));
    }
    Ok(())
}

/// The least vertex that its winner owns and that has no choice.
fn first_without_choice(candidate: &Candidate) -> Option<u32>
    ensures { MatchOption result (NoneHas (LacksChoice candidate.now.game.now candidate.now.solution.now.rows))
        (IsLeast (LacksChoice candidate.now.game.now candidate.now.solution.now.rows)) }
{
    for v in 0..candidate.game.len() {
        if lacks_choice(candidate, v) {
            return Some(v);
        }
    }
    None
}

/// Whether the vertex's winner owns it and it has no choice.
fn lacks_choice(candidate: &Candidate, v: u32) -> bool
    requires { v < length candidate.now.game.now }
    ensures { IsTrue result ↔ LacksChoice candidate.now.game.now candidate.now.solution.now.rows v }
{
    let (winner, choice) = row_at(candidate.solution, v);
    candidate.game.owner(v) == winner && choice.is_none()
}

/// The winner of a vertex and its choice.
fn row_at(solution: &Solution, v: u32) -> (Player, Option<u32>)
    requires { v < length solution.now.rows }
    ensures winner { result.0 ≡ winner_of solution.now.rows v }
    ensures choice { result.1 ≡ choice_of solution.now.rows v }
{
    solution.rows.as_slice()[v as usize]
}

/// The least vertex that its winner owns and whose choice is no successor.
fn first_bad_choice(candidate: &Candidate) -> Option<u32>
    ensures { MatchOption result (NoneHas (HasBadChoice candidate.now.game.now candidate.now.solution.now.rows))
        (IsLeast (HasBadChoice candidate.now.game.now candidate.now.solution.now.rows)) }
{
    for v in 0..candidate.game.len() {
        if has_bad_choice(candidate, v) {
            return Some(v);
        }
    }
    None
}

/// Whether the vertex's winner owns it and its choice is no successor.
fn has_bad_choice(candidate: &Candidate, v: u32) -> bool
    requires { v < length candidate.now.game.now }
    ensures { IsTrue result ↔ HasBadChoice candidate.now.game.now candidate.now.solution.now.rows v }
{
    let (winner, choice) = row_at(candidate.solution, v);
    if candidate.game.owner(v) != winner {
        return false;
    }
    match choice {
        Some(w) => !candidate.game.has_edge(v, w),
        None => false,
    }
}

/// The kept edges of all winners, where each has his choices.
fn joint_strategy<'g>(alloc: Global, candidate: &Candidate<'g>) -> Result<StrategyGraph<'g>, Memory>
    requires choices { NoneHas (LacksChoice candidate.now.game.now candidate.now.solution.now.rows) }
    requires right { NoneHas (HasBadChoice candidate.now.game.now candidate.now.solution.now.rows) }
    ensures game { IfOk result (λ k. k.game.now ≡ candidate.now.game.now) }
    ensures joint { IfOk result (λ k. IsJointStrategy k candidate.now.solution.now.rows) }
{
    let game = candidate.game;
    let mut kept = StrategyGraph::new(alloc, game)?;
    'vertices: for v in 0..game.len() {
        let (winner, choice) = row_at(candidate.solution, v);
        let own = own_choice(game, winner, v, choice);
        kept.keep(v, is_bad(game, winner, v), own);
    }
    Ok(kept)
}

/// The least vertex from which a kept edge leads to the other winner, and the least vertex to which one does.
fn first_leaving(joint: &JointStrategy) -> Option<(u32, u32)>
    ensures first { MatchOption result ((v w : ℕ) → Leaves joint.now.kept.now.game.now joint.now.solution.now.rows v w → ⊥)
        (λ e. IsFirstEdge (Leaves joint.now.kept.now.game.now joint.now.solution.now.rows) e.0 e.1) }
    ensures within { IfSome result (λ e. (e.0 < length joint.now.kept.now.game.now) × (e.1 < length joint.now.kept.now.game.now)) }
{
    'vertices: for v in 0..joint.kept.game.len() {
        if let Some(w) = leaves_to(joint, v) {
            return Some((v, w));
        }
    }
    None
}

/// The least vertex of the other winner to which a kept edge leads from `v`.
fn leaves_to(joint: &JointStrategy, v: u32) -> Option<u32>
    requires { v < length joint.now.kept.now.game.now }
    ensures first { MatchOption result (NoneHas (LeavesTo joint.now.kept.now joint.now.solution.now.rows v))
        (IsLeast (LeavesTo joint.now.kept.now joint.now.solution.now.rows v)) }
    ensures within { IfSome result (λ w. w < length joint.now.kept.now.game.now) }
{
    let winner = row_at(joint.solution, v).0;
    'row: for w in joint.kept.row(v) {
        if row_at(joint.solution, *w).0 != winner {
            return Some(*w);
        }
    }
    None
}

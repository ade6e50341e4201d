//! What reads a game, a solution and what is known from a source. `game_from` makes a game with predecessors, for solving, and
//! `forward_game_from` without, for all else.

ghost use Rattle.std.specs.Prelude.{◌≡◌, ◌≤◌, ℕ, List, [], IfOk, IfErr, length};
ghost use Rattle.pg_game.specs.Graph.{Graph, IsGame};
ghost use Rattle.pg_text.specs.Reading.{max_text, IsTextOf, IsSolutionFaultOf};
ghost use Rattle.pgboard.specs.KnownSource.{IsReadKnown};
ghost use Rattle.pgboard.specs.Refused.{IsNotKnown};
ghost use Rattle.pgboard.specs.Run.{IsReadGame, IsNoGame, IsNoSolution, Reads};
ghost use Rattle.pgboard.specs.private.Run.{IsRefusedGame, IsRefusedSolution, IsReadSolution};

use crate::device::{Source, read_text};
use crate::fault::RunFault;
use pg_game::{ForwardGame, Game, Sequence};
use pg_text::{
    Known, Solution, SolutionTextFault, TextFault, read_forward_game, read_known, take_solution,
};
use std::alloc::Global;

/// The game that the text of a source spells, with predecessors.
pub fn game_from<S: Source>(alloc: Global, source: &mut S) -> Result<Game, RunFault>
    ensures is_game { IfOk result (λ g. IsGame g) }
    ensures game { IfOk result (λ g. IsReadGame (S.left source.old) g) }
    ensures fault { IfErr result (λ e. IsNoGame (S.left source.old) e) }
    ensures reads { Reads result (S.read_failures source.old) (S.read_failures source.new) }
{
    let forward = forward_game_from(alloc, source)?;
    let game = Game::of_forward(alloc, forward)?;
    // for the proof alone, which takes from it that the game is one
    let _n = game.len();
    Ok(game)
}

/// The game that the text of a source spells, without predecessors.
pub fn forward_game_from<S: Source>(alloc: Global, source: &mut S) -> Result<ForwardGame, RunFault>
    ensures game { IfOk result (λ g. IsReadGame (S.left source.old) g) }
    ensures fault { IfErr result (λ e. IsNoGame (S.left source.old) e) }
    ensures reads { Reads result (S.read_failures source.old) (S.read_failures source.new) }
{
    let text = read_text(alloc, source)?;
    forward_game_of(alloc, text.as_slice())
}

/// The game that a text spells, without predecessors.
pub fn forward_game_of(alloc: Global, text: &[u8]) -> Result<ForwardGame, RunFault>
    requires { length text.now ≤ max_text }
    ensures game { IfOk result (λ g. IsTextOf text.now g) }
    ensures fault { IfErr result (λ e. IsRefusedGame text.now e) }
{
    match read_forward_game(alloc, text) {
        Ok(game) => Ok(game),
        Err(TextFault::Memory) => Err(RunFault::Memory),
        Err(fault) => Err(RunFault::Game(fault)),
    }
}

/// The winners and choices that the text of a source spells for a game.
pub fn solution_from<S: Source>(
    alloc: Global,
    game: &ForwardGame,
    source: &mut S,
) -> Result<Solution, RunFault>
    ensures fit { IfOk result (λ s. length s.rows ≡ length game.now) }
    ensures rows { IfOk result (λ s. IsReadSolution game.now (S.left source.old) s.rows) }
    ensures fault { IfErr result (λ e. IsNoSolution game.now (S.left source.old) e) }
    ensures reads { Reads result (S.read_failures source.old) (S.read_failures source.new) }
{
    let text = read_text(alloc, source)?;
    match take_solution(alloc, game, text) {
        Ok(taken) => Ok(taken),
        Err(fault) => Err(refused_solution(fault)),
    }
}

/// Why a run has no solution.
pub fn refused_solution(fault: SolutionTextFault) -> RunFault
    ensures { (g : Graph) (text : List ℕ) → IsSolutionFaultOf g text fault → IsRefusedSolution g text result }
{
    match fault {
        SolutionTextFault::Memory => RunFault::Memory,
        fault => RunFault::Solution(fault),
    }
}

/// What is known of the game by the text of a source.
pub fn known_from<S: Source>(alloc: Global, game: &Game, source: &mut S) -> Result<Known, RunFault>
    ensures size { IfOk result (λ known. length known.rows ≡ length game.now) }
    ensures known { IfOk result (λ known. IsReadKnown game.now (S.left source.old) known.rows) }
    ensures fault { IfErr result (λ e. IsNotKnown game.now (S.left source.old) e) }
    ensures reads { Reads result (S.read_failures source.old) (S.read_failures source.new) }
{
    let text = read_text(alloc, source)?;
    match read_known(alloc, game, text.as_slice()) {
        Ok(known) => Ok(known),
        Err(SolutionTextFault::Memory) => Err(RunFault::Memory),
        Err(fault) => Err(RunFault::Solution(fault)),
    }
}

/// What is known of a game without a text: nothing, which has no rows.
pub fn nothing_known(alloc: Global) -> Known
    ensures { result.rows ≡ [] }
{
    Known {
        rows: Sequence::new(Vec::new(alloc)),
    }
}

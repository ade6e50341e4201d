//! Games and solutions from their texts. A reader makes lines of the tokens. The lines become a game or rows, or have a
//! first fault.

ghost use Rattle.std.specs.Prelude.{◌≡◌, ◌≤◌, length, IfOk, IfErr};
ghost use Rattle.pg_game.specs.Graph.{IsGame};
ghost use Rattle.pg_text.specs.Solution.{AreSolutionRows};
ghost use Rattle.pg_text.specs.Reading.{max_text, IsTextOf, IsFaultOf, IsSolutionTextOf, IsSolutionFaultOf};
ghost use Rattle.pg_text.specs.Known.{IsKnownTextOf, IsKnownFaultOf};

use crate::fault::{SolutionTextFault, TextFault};
use crate::game_text::GameText;
use crate::reader::read_lines;
use crate::solution_text::{Known, Solution, known_of, solution_lines, solution_of};
use pg_game::{ForwardGame, Game, GameFault};
use std::alloc::Global;

/// The greatest number of bytes in a text.
pub const MAX_TEXT: usize = 268_435_456;

/// The game that a text spells. The text is at most `MAX_TEXT` bytes long; any bytes may be in it.
///
/// Refused with the first fault, by kind and then by place: `Lexical`, `Syntax`, `Number`, `Owner`, `Game` (never of
/// `GameFault::Memory`); or with `Memory`.
pub fn read_game(alloc: Global, text: &[u8]) -> Result<Game, TextFault>
    requires { length text.now ≤ max_text }
    ensures game { IfOk result (λ g. IsGame g × IsTextOf text.now g) }
    ensures fault { IfErr result (λ e. IsFaultOf text.now e) }
{
    let forward = read_forward_game(alloc, text)?;
    Ok(Game::of_forward(alloc, forward)?)
}

/// The same as [`read_game`], without predecessors.
pub fn read_forward_game(alloc: Global, text: &[u8]) -> Result<ForwardGame, TextFault>
    requires { length text.now ≤ max_text }
    ensures game { IfOk result (λ g. IsGame g × IsTextOf text.now g) }
    ensures fault { IfErr result (λ e. IsFaultOf text.now e) }
{
    let specs = read_lines(GameText::new(alloc)?, text)?;
    match ForwardGame::from_builder(alloc, specs) {
        Ok(game) => Ok(game),
        Err(GameFault::Memory) => Err(TextFault::Memory),
        Err(fault) => Err(TextFault::Game(fault)),
    }
}

/// The winners and choices that a text spells for a game, every choice of the text kept. The text is at most `MAX_TEXT`
/// bytes long; any bytes may be in it.
///
/// Refused with the first fault, by kind and then by place: `Lexical`, `Syntax`, `Number`, `Winner`, `Stranger`, `Twice`,
/// `Missing`; or with `Memory`.
pub fn read_solution(alloc: Global, game: &Game, text: &[u8]) -> Result<Solution, SolutionTextFault>
    requires { length text.now ≤ max_text }
    ensures fit { IfOk result (λ s. AreSolutionRows game.now s.rows) }
    ensures rows { IfOk result (λ s. IsSolutionTextOf game.now text.now s.rows) }
    ensures fault { IfErr result (λ e. IsSolutionFaultOf game.now text.now e) }
{
    read_forward_solution(alloc, game.forward(), text)
}

/// The same as [`read_solution`], for a game without predecessors.
pub fn read_forward_solution(
    alloc: Global,
    game: &ForwardGame,
    text: &[u8],
) -> Result<Solution, SolutionTextFault>
    requires { length text.now ≤ max_text }
    ensures fit { IfOk result (λ s. AreSolutionRows game.now s.rows) }
    ensures rows { IfOk result (λ s. IsSolutionTextOf game.now text.now s.rows) }
    ensures fault { IfErr result (λ e. IsSolutionFaultOf game.now text.now e) }
{
    solution_of(alloc, game, solution_lines(alloc, text)?.as_slice())
}

/// The same of a text that is freed once its lines are read, before the rows are allocated.
pub fn take_solution(
    alloc: Global,
    game: &ForwardGame,
    text: Vec<u8>,
) -> Result<Solution, SolutionTextFault>
    requires { length text.items ≤ max_text }
    ensures fit { IfOk result (λ s. AreSolutionRows game.now s.rows) }
    ensures rows { IfOk result (λ s. IsSolutionTextOf game.now text.items s.rows) }
    ensures fault { IfErr result (λ e. IsSolutionFaultOf game.now text.items e) }
{
    let lines = solution_lines(alloc, text.as_slice())?;
    drop(text);
    solution_of(alloc, game, lines.as_slice())
}

/// What a text says that is known of a game: winners and choices as in a solution text, where vertices may be left out. The
/// text is at most `MAX_TEXT` bytes long; any bytes may be in it.
///
/// Refused with the first fault, by kind and then by place: `Lexical`, `Syntax`, `Number`, `Winner`, `Stranger`, `Twice`; or
/// with `Memory`. Never with `Missing`.
pub fn read_known(alloc: Global, game: &Game, text: &[u8]) -> Result<Known, SolutionTextFault>
    requires { length text.now ≤ max_text }
    ensures size { IfOk result (λ k. length k.rows ≡ length game.now) }
    ensures rows { IfOk result (λ k. IsKnownTextOf game.now text.now k.rows) }
    ensures fault { IfErr result (λ e. IsKnownFaultOf game.now text.now e) }
{
    let lines = solution_lines(alloc, text)?;
    known_of(alloc, game.forward(), lines.as_slice())
}

//! The exports on texts in PGSolver's formats, which are in the caller's memory. A game is solved in the calling thread.

ghost use Rattle.std.specs.Prelude.{◌≡◌, ◌<◌, ℕ, List, length, IfOk, IfErr, MatchResult};
ghost use Rattle.pg_game.specs.Graph.{IsGame};
ghost use Rattle.pg_text.specs.Reading.{IsTextOf};
ghost use Rattle.pgboard_c.specs.Numbers.{Returns};
ghost use Rattle.pgboard_c.specs.Texts.{text_buffer, IsWritten, IsSolvedText, IsTidyText, IsTextOutcome, IsRefusedGameText, IsVerifyOutcome};

use crate::fault::{Fault, Report, reported};
use crate::text::copy_if_it_fits;
use pg_board::Board;
use pg_dominion::{SolutionFault, check_forward_solution};
use pg_game::{ForwardGame, Game};
use pg_text::{
    MAX_TEXT, SolutionTextFault, TextFault, read_forward_game, read_forward_solution,
    write_forward_game, write_solution,
};
use pg_workers::solve_board;
use std::alloc::Global;

/// Solves the game that a text spells: writes a solution's text to the front of the buffer, and its size. The answer is 0,
/// and the report is blank; or it is the number of the first reason that applies, and the call writes only `report`.
#[unsafe(no_mangle)]
pub extern "C" fn pgboard_solve_text(
    alloc: Global,
    game: &[u8],
    into: &mut [u8],
    size: &mut usize,
    report: &mut Report,
) -> u32
    ensures { Returns (IsTextOutcome IsSolvedText game.now (text_buffer into.old size.old) (text_buffer into.new size.new)) result report.new }
{
    reported(report, solve(alloc, game, into, size))
}

/// Writes the game that a text spells in its one written form to the front of the buffer, and its size. The answer is 0,
/// and the report is blank; or it is the number of the first reason that applies, and the call writes only `report`.
#[unsafe(no_mangle)]
pub extern "C" fn pgboard_tidy_text(
    alloc: Global,
    game: &[u8],
    into: &mut [u8],
    size: &mut usize,
    report: &mut Report,
) -> u32
    ensures { Returns (IsTextOutcome IsTidyText game.now (text_buffer into.old size.old) (text_buffer into.new size.new)) result report.new }
{
    reported(report, tidy(alloc, game, into, size))
}

/// Whether a text is a solution of the game that another spells. The answer is 0, and the report is blank; or it is the
/// first fault, with the identifiers of vertices.
#[unsafe(no_mangle)]
pub extern "C" fn pgboard_verify_text(
    alloc: Global,
    game: &[u8],
    solution: &[u8],
    report: &mut Report,
) -> u32
    ensures { Returns (IsVerifyOutcome game.now solution.now) result report.new }
{
    reported(report, verify(alloc, game, solution))
}

/// Writes a solution of the game that a text spells, and its size.
fn solve(alloc: Global, text: &[u8], into: &mut [u8], size: &mut usize) -> Result<(), Fault>
    ensures { IsTextOutcome IsSolvedText text.now (text_buffer into.old size.old) (text_buffer into.new size.new) result }
{
    let forward = forward_game_of(alloc, text)?;
    let game = Game::of_forward(alloc, forward)?;
    let Some(solution) = solve_board(alloc, Board::open(alloc, &game)?, None)? else {
        unreachable!()
    };
    let answer = write_solution(alloc, &game, &solution)?;
    copy_to_front(answer.as_slice(), into, size)
}

/// The game that a text spells, without predecessors.
pub fn forward_game_of(alloc: Global, text: &[u8]) -> Result<ForwardGame, Fault>
    ensures game { IfOk result (λ g. IsGame g × IsTextOf text.now g) }
    ensures fault { IfErr result (λ e. IsRefusedGameText text.now e) }
{
    if text.len() > MAX_TEXT {
        return Err(Fault::GameTooLong);
    }
    match read_forward_game(alloc, text) {
        Ok(game) => Ok(game),
        Err(TextFault::Memory) => Err(Fault::Memory),
        Err(fault) => Err(Fault::GameText(fault)),
    }
}

/// Copies the text to the front of the buffer, and its size.
pub fn copy_to_front(text: &[u8], into: &mut [u8], size: &mut usize) -> Result<(), Fault>
    ensures { MatchResult result (λ _. IsWritten (text_buffer into.old size.old) (text_buffer into.new size.new) text.now)
        (λ e. (e ≡ Fault.Capacity (length text.now)) × (length into.old < length text.now)
        × (text_buffer into.new size.new ≡ text_buffer into.old size.old)) }
{
    let n = copy_if_it_fits(text, into);
    if into.len() < n {
        return Err(Fault::Capacity(n));
    }
    *size = n;
    Ok(())
}

/// Writes the game that a text spells in its one written form, and its size.
fn tidy(alloc: Global, text: &[u8], into: &mut [u8], size: &mut usize) -> Result<(), Fault>
    ensures { IsTextOutcome IsTidyText text.now (text_buffer into.old size.old) (text_buffer into.new size.new) result }
{
    let game = forward_game_of(alloc, text)?;
    let answer = write_forward_game(alloc, &game)?;
    copy_to_front(answer.as_slice(), into, size)
}

/// Whether the texts are a game and a solution of it.
fn verify(alloc: Global, game: &[u8], solution: &[u8]) -> Result<(), Fault>
    ensures { IsVerifyOutcome game.now solution.now result }
{
    let game = forward_game_of(alloc, game)?;
    verify_on(alloc, &game, solution)
}

/// Whether a text is a solution of a game.
fn verify_on(alloc: Global, game: &ForwardGame, text: &[u8]) -> Result<(), Fault>
    ensures { (text_of : List ℕ) → IsTextOf text_of game.now → IsVerifyOutcome text_of text.now result }
{
    if text.len() > MAX_TEXT {
        return Err(Fault::SolutionTooLong);
    }
    let solution = match read_forward_solution(alloc, game, text) {
        Ok(solution) => solution,
        Err(SolutionTextFault::Memory) => return Err(Fault::Memory),
        Err(fault) => return Err(Fault::SolutionText(fault)),
    };
    match check_forward_solution(alloc, game, &solution) {
        Ok(()) => Ok(()),
        Err(SolutionFault::Memory) => Err(Fault::Memory),
        Err(fault) => Err(Fault::Verdict(fault)),
    }
}

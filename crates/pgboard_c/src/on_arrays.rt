//! The exports on games, winners and choices in arrays.

ghost use Rattle.std.specs.Prelude.{None, Some};
ghost use Rattle.pgboard_c.specs.Numbers.{Returns};
ghost use Rattle.pgboard_c.specs.Arrays.{game_lists, solution_lists};
ghost use Rattle.pgboard_c.specs.Answers.{IsSolveOutcome, IsCheckOutcome};
ghost use Rattle.pgboard_c.specs.KnownArrays.{IsSolveFromOutcome};

use crate::arrays::{
    GameArrays, Results, SolutionArrays, first_bad_winner, read_results, write_results,
};
use crate::fault::{Fault, Report, reported};
use crate::known::{first_bad_known_winner, known_solution, read_known};
use pg_board::Board;
use pg_dominion::{SolutionFault, check_forward_solution};
use pg_game::Game;
use pg_workers::{KnownOf, solve_board};
use std::alloc::Global;

/// Solves the game of the arrays: writes each vertex's winner, and his choice if he owns the vertex. The answer is 0, and
/// the report is blank; or it is the number of the first reason that applies, and the call writes only `report`.
#[unsafe(no_mangle)]
pub extern "C" fn pgboard_solve(
    alloc: Global,
    game: &GameArrays,
    results: &mut Results,
    report: &mut Report,
) -> u32
    ensures { Returns (IsSolveOutcome None (game_lists game.now) results.old results.new) result report.new }
{
    reported(report, solve(alloc, game, None, results))
}

/// The same as [`pgboard_solve`], unless the recursion needs more steps than these. A step begins a subgame. If the call gives up,
/// the answer is that of [`Fault::GaveUp`].
#[unsafe(no_mangle)]
pub extern "C" fn pgboard_solve_within(
    alloc: Global,
    game: &GameArrays,
    steps: u64,
    results: &mut Results,
    report: &mut Report,
) -> u32
    ensures { Returns (IsSolveOutcome (Some steps) (game_lists game.now) results.old results.new) result report.new }
{
    reported(report, solve(alloc, game, Some(steps), results))
}

/// The same as [`pgboard_solve`], from known winners and choices of some vertices, which are kept. If they do not hold, the
/// answer is their first fault.
#[unsafe(no_mangle)]
pub extern "C" fn pgboard_solve_known(
    alloc: Global,
    game: &GameArrays,
    known: &SolutionArrays,
    results: &mut Results,
    report: &mut Report,
) -> u32
    ensures { Returns (IsSolveFromOutcome None (game_lists game.now) (solution_lists known.now) results.old results.new) result report.new }
{
    reported(report, solve_known(alloc, game, known, None, results))
}

/// The same as [`pgboard_solve_known`] with a bound, as of [`pgboard_solve_within`].
#[unsafe(no_mangle)]
pub extern "C" fn pgboard_solve_known_within(
    alloc: Global,
    game: &GameArrays,
    known: &SolutionArrays,
    steps: u64,
    results: &mut Results,
    report: &mut Report,
) -> u32
    ensures { Returns (IsSolveFromOutcome (Some steps) (game_lists game.now) (solution_lists known.now) results.old results.new)
        result report.new }
{
    reported(
        report,
        solve_known(alloc, game, known, Some(steps), results),
    )
}

/// Whether winners and choices are a solution of the game. The answer is 0, and the report is blank; or it is their first
/// fault, or the first reason why the arrays are no game or no winners and choices.
#[unsafe(no_mangle)]
pub extern "C" fn pgboard_check(
    alloc: Global,
    game: &GameArrays,
    solution: &SolutionArrays,
    report: &mut Report,
) -> u32
    ensures { Returns (IsCheckOutcome (game_lists game.now) (solution_lists solution.now)) result report.new }
{
    reported(report, check(alloc, game, solution))
}

/// Solves the game of the arrays, unless there is a limit and the recursion needs more steps. After a refusal the arrays for
/// results are unchanged.
fn solve(
    alloc: Global,
    arrays: &GameArrays,
    limit: Option<u64>,
    results: &mut Results,
) -> Result<(), Fault>
    ensures { IsSolveOutcome limit (game_lists arrays.now) results.old results.new result }
{
    let forward = arrays.forward_game(alloc)?;
    results.check_lengths(&forward)?;
    let game = Game::of_forward(alloc, forward)?;
    let Some(solution) = solve_board(alloc, Board::open(alloc, &game)?, limit)? else {
        return Err(Fault::GaveUp);
    };
    write_results(&solution, results.winners, results.choices);
    Ok(())
}

/// The same from what is known of the game.
fn solve_known(
    alloc: Global,
    arrays: &GameArrays,
    given: &SolutionArrays,
    limit: Option<u64>,
    results: &mut Results,
) -> Result<(), Fault>
    ensures { IsSolveFromOutcome limit (game_lists arrays.now) (solution_lists given.now) results.old results.new result }
{
    let forward = arrays.forward_game(alloc)?;
    given.check_lengths(&forward)?;
    if let Some(v) = first_bad_known_winner(given.winners) {
        return Err(Fault::Winner(v));
    }
    results.check_lengths(&forward)?;
    let known = read_known(alloc, given.winners, given.choices)?;
    let game = Game::of_forward(alloc, forward)?;
    let of_game = KnownOf {
        game: &game,
        known: &known,
    };
    let solution = known_solution(alloc, &of_game, limit)?;
    write_results(&solution, results.winners, results.choices);
    Ok(())
}

/// Whether winners and choices are a solution of the game of the arrays.
fn check(alloc: Global, arrays: &GameArrays, given: &SolutionArrays) -> Result<(), Fault>
    ensures { IsCheckOutcome (game_lists arrays.now) (solution_lists given.now) result }
{
    let game = arrays.forward_game(alloc)?;
    given.check_lengths(&game)?;
    if let Some(v) = first_bad_winner(given.winners) {
        return Err(Fault::Winner(v));
    }
    let solution = read_results(alloc, given.winners, given.choices)?;
    match check_forward_solution(alloc, &game, &solution) {
        Ok(()) => Ok(()),
        Err(SolutionFault::Memory) => Err(Fault::Memory),
        Err(fault) => Err(Fault::Verdict(fault)),
    }
}

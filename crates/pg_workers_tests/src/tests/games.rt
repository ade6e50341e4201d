//! Games for the tests, and runs on them.

ghost use Rattle.std.specs.Prelude.{◌≡◌, ◌≤◌, length};

use pg_finders::Finder;
use pg_game::Game;
use pg_text::{Known, read_game, read_known};
use pg_workers::{Gate, Options, Outcome, Pass, SolveFault, solve_game};
use std::alloc::Global;
use std::process::Abort;
use std::sync::Wait;
use std::thread::Threads;

/// Each player wins the vertex of his own.
pub const TWO_LOOPS: &[u8] = b"0 2 0 0,1; 1 1 1 1;";

/// Even wins everything, and only by the right choices.
const CONTINENTS: &[u8] = b"parity 4; 0 6 1 4,2; 4 5 1 0; 1 8 1 2,4,3; 3 6 0 4,2; 2 7 0 3,1,0,4;";

/// `TWO_LOOPS`, whose letters are no part of a test.
pub fn two_loops() -> &'static [u8] {
    TWO_LOOPS
}

/// `CONTINENTS`, whose letters are no part of a test.
pub fn continents() -> &'static [u8] {
    CONTINENTS
}

/// The game of a short text.
pub fn game_of(rt: &impl Abort, alloc: Global, text: &[u8]) -> Game {
    assert!(*rt; text.len() <= 1_000);
    read_game(alloc, text).expect(rt, "a game")
}

/// What a short text says is known.
fn known_of(rt: &impl Abort, alloc: Global, game: &Game, text: &[u8]) -> Known
    ensures { length result.rows ≡ length game.now }
{
    assert!(*rt; text.len() <= 1_000);
    read_known(alloc, game, text).expect(rt, "what is known")
}

/// A run on a game of which nothing is known, which may lack memory.
pub fn try_solved<R: Threads + Wait + Sync>(
    rt: &R,
    alloc: Global,
    game: &Game,
    options: &Options,
    gate: &impl Gate,
    finder: &impl Finder,
) -> Result<Outcome, SolveFault> {
    match read_known(alloc, game, b"") {
        Ok(nothing) => solve_game(rt, alloc, game, options, &nothing, gate, finder),
        Err(_) => Err(SolveFault::Memory),
    }
}

/// A run on a game of which nothing is known.
pub fn solved<R: Threads + Wait + Abort + Sync>(
    rt: &R,
    alloc: Global,
    game: &Game,
    options: &Options,
    gate: &impl Gate,
    finder: &impl Finder,
) -> Outcome {
    try_solved(rt, alloc, game, options, gate, finder).expect(rt, "an outcome")
}

/// This many workers and the product's bounds.
pub fn product(workers: u32) -> Options
    requires { (1 ≤ workers) × (workers ≤ 64) }
    ensures { (result.workers ≡ workers) × (result.bound ≡ 4) }
{
    Options {
        workers,
        bound: 4,
        budget: 10_000,
    }
}

/// A run with this many workers and the product's bounds.
pub fn run_on<R: Threads + Wait + Abort + Sync>(
    rt: &R,
    alloc: Global,
    game: &Game,
    workers: u32,
    gate: &impl Gate,
    finder: &impl Finder,
) -> Outcome {
    assert!(*rt; 1 <= workers && workers <= 64);
    solved(rt, alloc, game, &product(workers), gate, finder)
}

/// A run on a game's text, with a gate.
pub fn gated_outcome<R: Threads + Wait + Abort + Sync>(
    rt: &R,
    alloc: Global,
    text: &[u8],
    workers: u32,
    gate: &impl Gate,
    finder: &impl Finder,
) -> Outcome {
    let game = game_of(rt, alloc, text);
    run_on(rt, alloc, &game, workers, gate, finder)
}

/// A run on a game's text.
pub fn outcome_of<R: Threads + Wait + Abort + Sync>(
    rt: &R,
    alloc: Global,
    text: &[u8],
    workers: u32,
    finder: &impl Finder,
) -> Outcome {
    gated_outcome(rt, alloc, text, workers, &Pass, finder)
}

/// A run on a game, with what a text says is known.
fn known_on<R: Threads + Wait + Abort + Sync>(
    rt: &R,
    alloc: Global,
    game: &Game,
    known: &[u8],
    workers: u32,
    finder: &impl Finder,
) -> Result<Outcome, SolveFault> {
    assert!(*rt; 1 <= workers && workers <= 64);
    let known = known_of(rt, alloc, game, known);
    solve_game(rt, alloc, game, &product(workers), &known, &Pass, finder)
}

/// A run on a game's text, with what a text says is known.
pub fn known_run<R: Threads + Wait + Abort + Sync>(
    rt: &R,
    alloc: Global,
    text: &[u8],
    known: &[u8],
    workers: u32,
    finder: &impl Finder,
) -> Result<Outcome, SolveFault> {
    let game = game_of(rt, alloc, text);
    known_on(rt, alloc, &game, known, workers, finder)
}

//! Games of which `tests/program/refused_calls.py` of the repository compares how many allocations they need.

ghost use Rattle.std.specs.Prelude.{◌≤◌, All, IfOk};
ghost use Rattle.pg_game.specs.Specification.{AreNumbers};

use crate::tests::asserting::made;
use crate::tests::{add_flat, from_builder};
use pg_game::{ForwardGame, Game, GameBuilder, GameFault, Memory};
use pg_test_support::{EVEN, check_eq};
use std::alloc::Global;
use std::process::Abort;

/// Lists of 40 vertices, whose successors are themselves, once or twice, and whose identifiers are 0, 1 and
/// so on, or fall.
fn many(alloc: Global, falls: bool, times: usize) -> Result<GameBuilder, Memory>
    requires { times ≤ 2 }
    ensures { IfOk result (λ flat. All AreNumbers flat) }
{
    let mut flat = GameBuilder::with_capacity(alloc, 40, 80)?;
    'vertices: for v in 0..40u32 {
        let id = if falls { 400 - 10 * v } else { v };
        let twice = [id, id];
        add_flat(&mut flat, (id, v, EVEN, &twice[..times]))?;
    }
    Ok(flat)
}

/// The game of them.
fn game_of_many(alloc: Global, falls: bool, times: usize) -> Result<Game, GameFault>
    requires { times ≤ 2 }
{
    from_builder(alloc, many(alloc, falls, times)?)
}

/// They make a game of 40 vertices.
fn compare_many(rt: &impl Abort, alloc: Global, falls: bool, times: usize)
    requires { times ≤ 2 }
{
    let game = made(rt, game_of_many(alloc, falls, times));
    check_eq!(*rt; game.len(), 40);
}

/// The game without predecessors of the lists in order.
fn forward_of_many(alloc: Global) -> Result<ForwardGame, GameFault> {
    ForwardGame::from_builder(alloc, many(alloc, false, 1)?)
}

#[test]
fn many_lists_in_order_are_made(rt: HostRuntime) {
    made(&rt, many(rt.alloc(), false, 1));
}

#[test]
fn many_lists_in_order_are_the_game_itself(rt: HostRuntime) {
    let game = made(&rt, forward_of_many(rt.alloc()));
    check_eq!(rt; game.len(), 40);
}

#[test]
fn many_lists_in_order_are_a_game(rt: HostRuntime) {
    compare_many(&rt, rt.alloc(), false, 1);
}

#[test]
fn many_lists_with_repeated_successors_are_laid_out(rt: HostRuntime) {
    compare_many(&rt, rt.alloc(), false, 2);
}

#[test]
fn many_falling_lists_are_laid_out(rt: HostRuntime) {
    compare_many(&rt, rt.alloc(), true, 1);
}

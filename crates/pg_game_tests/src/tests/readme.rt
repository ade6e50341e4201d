//! The code of README.md, which `tests/pages/pages.py` of the repository looks for here.

ghost use Rattle.std.specs.Prelude.{All};
ghost use Rattle.pg_game.specs.Specification.{AreNumbers};

use crate::tests::asserting::made;
use crate::tests::{EXPECTED_IN_ORDER, IN_ORDER, look, specs_of};
use pg_game::{ForwardGame, Game, GameBuilder, GameFault, IncrementalBuilder, Player, Spec};
use pg_test_support::check_eq;
use std::alloc::Global;
use std::test::Fail;

/// How many vertices are their own successors.
fn own_successors(alloc: Global, specs: Vec<Spec>) -> Result<u32, Fail>
    requires { All AreNumbers specs.items }
{
    let game = Game::from_specs(alloc, specs)?;
    let mut loops = 0u32;
    for v in 0..game.len() {
        for w in game.successors(v) {
            if *w == v {
                loops = loops.saturating_add(1);
            }
        }
    }
    Ok(loops)
}

#[test]
fn the_edges_of_a_game_are_gone_through(rt: HostRuntime) -> Result<(), Fail> {
    let specs = specs_of(rt.alloc(), IN_ORDER).expect(&rt, "memory");
    check_eq!(rt; own_successors(rt.alloc(), specs)?, 2);
    Ok(())
}

/// The game of `IN_ORDER`.
fn pushed(alloc: Global) -> Result<Game, GameFault> {
    let mut specs = GameBuilder::with_capacity(alloc, 2, 3)?;
    specs.push(0, 2, Player::Even, [0, 1].as_slice())?;
    specs.push(1, 1, Player::Odd, [1].as_slice())?;
    let forward = ForwardGame::from_builder(alloc, specs)?;
    let game = Game::of_forward(alloc, forward)?;
    Ok(game)
}

#[test]
fn specifications_are_pushed_with_their_successors(rt: HostRuntime) {
    look(&rt, &made(&rt, pushed(rt.alloc())), EXPECTED_IN_ORDER);
}

/// The same game.
fn pushed_one_by_one(alloc: Global) -> Result<Game, GameFault> {
    let mut specs = IncrementalBuilder::new(alloc)?;
    specs.push(0)?;
    specs.push(1)?;
    specs.close(0, 2, Player::Even)?;
    specs.push(1)?;
    specs.close(1, 1, Player::Odd)?;
    let forward = ForwardGame::from_builder(alloc, specs.into_builder())?;
    Ok(Game::of_forward(alloc, forward)?)
}

#[test]
fn successors_are_pushed_one_by_one(rt: HostRuntime) {
    look(
        &rt,
        &made(&rt, pushed_one_by_one(rt.alloc())),
        EXPECTED_IN_ORDER,
    );
}

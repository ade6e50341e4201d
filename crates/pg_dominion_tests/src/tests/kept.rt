//! The edges of a game as a `StrategyGraph`, and the least vertex on a bad cycle of them.

ghost use Rattle.std.specs.Prelude.{◌≡◌, length, replicate, false};

use crate::tests::asserting::made;
use pg_dominion::{StrategyGraph, least_on_bad_cycle};
use pg_game::{Game, Mask, Player};
use pg_test_support::ODD;
use std::alloc::Global;
use std::process::Abort;

/// The vertices whose priorities are Odd's.
pub fn odd_vertices(rt: &impl Abort, alloc: Global, game: &Game) -> Mask
    ensures { length result ≡ length game.now }
{
    let n = game.len();
    let mut odd = no_vertices(rt, alloc, game);
    'vertices: for v in 0..n {
        if Player::of_parity(game.priority(v)) == ODD {
            odd.insert(v);
        }
    }
    odd
}

/// A mask of no vertices.
fn no_vertices(rt: &impl Abort, alloc: Global, game: &Game) -> Mask
    ensures { result ≡ replicate (length game.now) false }
{
    Mask::empty(alloc, game.len()).expect(rt, "no memory")
}

/// No kept edges.
fn no_edges<'g>(rt: &impl Abort, alloc: Global, game: &'g Game) -> StrategyGraph<'g>
    ensures { result.game.now ≡ game.now }
{
    StrategyGraph::new(alloc, game.forward()).expect(rt, "no memory")
}

/// All edges of a game, with these bad vertices.
fn all_edges<'g>(rt: &impl Abort, alloc: Global, game: &'g Game, bad: &Mask) -> StrategyGraph<'g>
    requires { length bad.now ≡ length game.now }
{
    let mut kept = no_edges(rt, alloc, game);
    'vertices: for v in 0..game.len() {
        kept.keep(v, bad.has(v), None);
    }
    kept
}

/// The least vertex on a bad cycle, where all edges are kept.
pub fn least_on_cycle(rt: &impl Abort, alloc: Global, game: &Game, bad: Mask) -> Option<u32>
    requires { length bad ≡ length game.now }
{
    let kept = all_edges(rt, alloc, game, &bad);
    made(rt, least_on_bad_cycle(alloc, &kept))
}

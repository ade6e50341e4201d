//! Games and claims for the tests, by tables.

ghost use Rattle.std.specs.Prelude.{◌≡◌};

use crate::tests::asserting::made;
use pg_board::Board;
use pg_dominion::Claim;
use pg_game::{Game, Player, Sequence};
use pg_test_support::{EVEN, ODD, Plain, Row, Vertex, game_of, game_of_sets};
use std::alloc::Global;
use std::process::Abort;

/// Even's loop, and a vertex of Odd's that may stay with itself.
pub const WAITING: &[Vertex] = &[(0, EVEN, &[0]), (0, ODD, &[0, 1])];

/// Even's loop, a vertex of Odd's that has to go there, and Odd's loop.
pub const SHARED: &[Vertex] = &[(0, EVEN, &[0]), (0, ODD, &[0]), (1, ODD, &[2])];

/// Each player has a loop of his own.
pub const DIVIDED: &[Vertex] = &[(2, EVEN, &[0, 1]), (1, ODD, &[1])];

/// Attraction in two layers, and an own loop that loses.
pub const LAYERED: &[Vertex] = &[(0, EVEN, &[0]), (3, EVEN, &[0, 1]), (3, ODD, &[1])];

/// Two loops of Even's and a vertex of Odd's between.
pub const BRIDGE: &[Vertex] = &[(0, EVEN, &[0]), (0, ODD, &[0, 1]), (0, EVEN, &[2])];

/// Five vertices that Even wins, and only by the right choices.
pub const WINDING: &[Vertex] = &[
    (6, ODD, &[2, 4]),
    (8, ODD, &[2, 3, 4]),
    (7, EVEN, &[0, 1, 3, 4]),
    (6, EVEN, &[2, 4]),
    (5, ODD, &[0]),
];

/// The game of a table, made once more where memory was refused.
pub fn game_made(rt: &impl Abort, alloc: Global, vertices: &[Vertex]) -> Game {
    match game_of(alloc, vertices) {
        Ok(game) => game,
        Err(_) => made(rt, game_of(alloc, vertices)),
    }
}

pub fn plain_game(rt: &impl Abort, alloc: Global, plain: &[Plain]) -> Game {
    made(rt, game_of_sets(alloc, plain))
}

/// A board on which nothing is settled, opened once more where memory was refused.
pub fn new_board<'g>(rt: &impl Abort, alloc: Global, game: &'g Game) -> Board<'g>
    ensures { result.graph ≡ game.now }
{
    match Board::open(alloc, game) {
        Ok(board) => board,
        Err(_) => made(rt, Board::open(alloc, game)),
    }
}

/// A claim, made once more where memory was refused.
pub fn claim_of(rt: &impl Abort, alloc: Global, player: Player, rows: &[Row]) -> Claim {
    let rows = match Vec::from_slice(alloc, rows) {
        Ok(copy) => copy,
        Err(_) => made(rt, Vec::from_slice(alloc, rows)),
    };
    Claim {
        player,
        rows: Sequence::new(rows),
    }
}

//! The steps of a game alone, against those of slices.

ghost use Rattle.std.specs.Prelude.{◌≤◌, length};

use crate::tests::asserting::made;
use pg_board::{Board, Session};
use pg_dominion::Claim;
use pg_game::{Game, Sequence};
use pg_test_support::{
    EVEN, Plain, Random, bit, check, check_eq, game_of_sets, random_game, size_of,
};
use pg_text::Known;
use pg_workers::{KnownOf, solve_alone, solve_board};
use std::alloc::Global;
use std::process::Abort;

/// More slices than a game of 28 vertices needs.
const MOST_SLICES: u32 = 5;

/// Takes slices until all is settled. Returns how many steps they took.
fn steps_of_slices(rt: &impl Abort, alloc: Global, session: &mut Session) -> u64 {
    let mut left = u64::MAX;
    for _slice in 0..MOST_SLICES {
        if made(rt, session.advance(alloc, &mut left)) {
            return u64::MAX.wrapping_sub(left);
        }
    }
    panic!(*rt; "the slices do not end")
}

/// What is known: nothing, or that Even wins this vertex by its own loop.
fn known_of(rt: &impl Abort, alloc: Global, game: &Game, vertex: Option<u32>) -> Known
    ensures { length result.rows ≤ length game.now }
{
    let mut rows = Vec::new(alloc);
    if let Some(v) = vertex {
        for _unknown in 0..v {
            made(rt, rows.push(None));
        }
        made(rt, rows.push(Some((EVEN, Some(v)))));
    }
    let known = Known {
        rows: Sequence::new(rows),
    };
    assert!(*rt; known.rows.as_slice().len() <= game.len() as usize);
    known
}

/// A board on which nothing is settled, or what is known.
fn board_of<'g>(rt: &impl Abort, alloc: Global, game: &'g Game, vertex: Option<u32>) -> Board<'g> {
    let mut board = made(rt, Board::open(alloc, game));
    if let Some(v) = vertex {
        let rows = made(rt, Vec::from_slice(alloc, [(v, Some(v))].as_slice()));
        check!(*rt; board.post(alloc, 0, &Claim::new(EVEN, rows)).is_ok());
    }
    board
}

/// Whether the game is solved under a limit: from what is known, and by a board that has it.
fn are_solved(
    rt: &impl Abort,
    alloc: Global,
    game: &Game,
    vertex: Option<u32>,
    limit: u64,
) -> (bool, bool) {
    let known = known_of(rt, alloc, game, vertex);
    let of = KnownOf {
        game,
        known: &known,
    };
    let alone = made(rt, solve_alone(alloc, &of, Some(limit)));
    let board = board_of(rt, alloc, game, vertex);
    let by_board = made(rt, solve_board(alloc, board, Some(limit)));
    (alone.is_some(), by_board.is_some())
}

/// The game takes so many steps: it is solved under this limit, and not under a lower one.
fn assert_steps(rt: &impl Abort, alloc: Global, plain: &[Plain], vertex: Option<u32>, taken: u64) {
    let game = made(rt, game_of_sets(alloc, plain));
    check_eq!(*rt; are_solved(rt, alloc, &game, vertex, taken), (true, true), vertex);
    if taken > 0 {
        let fewer = taken.wrapping_sub(1);
        check_eq!(*rt; are_solved(rt, alloc, &game, vertex, fewer), (false, false), vertex);
    }
}

/// Compares the steps that slices of a game take with those that it takes alone: if nothing is known of it, and beside a vertex
/// that is known. Returns them.
fn compare_alone(rt: &impl Abort, alloc: Global, random: &mut Random) -> u64 {
    let mut plain = made(rt, random_game(alloc, random));
    let game = made(rt, game_of_sets(alloc, plain.as_slice()));
    let mut sliced = made(rt, Session::open(alloc, game));
    let taken = steps_of_slices(rt, alloc, &mut sliced);
    assert_steps(rt, alloc, plain.as_slice(), None, taken);
    let vertex = size_of(plain.as_slice());
    made(rt, plain.push((0, EVEN, bit(vertex))));
    assert_steps(rt, alloc, plain.as_slice(), Some(vertex), taken);
    taken
}

#[test]
fn a_game_alone_takes_as_many_steps_as_slices(rt: HostRuntime) {
    let mut random = Random::new(20_261_132);
    let mut of_many_steps = 0u32;
    for _game in 0..100 {
        if compare_alone(&rt, rt.alloc(), &mut random) > 3 {
            of_many_steps = of_many_steps.saturating_add(1);
        }
    }
    check!(rt; of_many_steps > 5, of_many_steps);
}

//! Games, some of them hostile to solvers, and parts of games.

ghost use Rattle.std.specs.Prelude.{◌≡◌, length};

use crate::tests::asserting::made;
use pg_finders::{Copied, Inside};
use pg_game::{Game, GameFault, Mask, Player};
use pg_test_support::{Draft, EVEN, ODD, Row, Vertex, game_of, mask_of, twice};
use std::alloc::Global;
use std::process::Abort;

/// A ring of eight vertices of Even's.
pub const EIGHT: &[Vertex] = &[
    (0, EVEN, &[1]),
    (0, EVEN, &[2]),
    (0, EVEN, &[3]),
    (0, EVEN, &[4]),
    (0, EVEN, &[5]),
    (0, EVEN, &[6]),
    (0, EVEN, &[7]),
    (0, EVEN, &[0]),
];

/// Its only choices.
pub const EIGHT_ROWS: &[Row] = &[
    (0, Some(1)),
    (1, Some(2)),
    (2, Some(3)),
    (3, Some(4)),
    (4, Some(5)),
    (5, Some(6)),
    (6, Some(7)),
    (7, Some(0)),
];

/// A ring of nine.
pub const NINE: &[Vertex] = &[
    (0, EVEN, &[1]),
    (0, EVEN, &[2]),
    (0, EVEN, &[3]),
    (0, EVEN, &[4]),
    (0, EVEN, &[5]),
    (0, EVEN, &[6]),
    (0, EVEN, &[7]),
    (0, EVEN, &[8]),
    (0, EVEN, &[0]),
];

/// The game of these vertices, of which nothing is said. It and masks are made once more if memory was refused.
pub fn game(rt: &impl Abort, alloc: Global, vertices: &[Vertex]) -> Game {
    made(rt, twice!(game_of(alloc, vertices)))
}

/// The game's part that the mask has, which has to be a subgame.
pub fn inside_of<'g>(rt: &impl Abort, game: &'g Game, mask: Mask) -> Inside<'g>
    requires { length mask ≡ length game.now }
    ensures { result.graph ≡ game.now }
{
    match Inside::new(game, mask) {
        Ok(inside) => inside,
        Err(_) => panic!(*rt; "no subgame"),
    }
}

/// All of the game.
pub fn whole<'g>(rt: &impl Abort, alloc: Global, game: &'g Game) -> Inside<'g>
    ensures { result.graph ≡ game.now }
{
    match Mask::full(alloc, game.len()) {
        Ok(mask) => inside_of(rt, game, mask),
        Err(_) => inside_of(rt, game, Mask::full(alloc, game.len()).expect(rt, "memory")),
    }
}

/// The mask with the members of a set.
pub fn mask(rt: &impl Abort, alloc: Global, game: &Game, members: u32) -> Mask
    ensures { length result ≡ length game.now }
{
    match mask_of(alloc, game.len(), members) {
        Ok(mask) => mask,
        Err(_) => mask_of(alloc, game.len(), members).expect(rt, "memory"),
    }
}

/// The game's part with the members of a set.
pub fn part<'g>(rt: &impl Abort, alloc: Global, game: &'g Game, members: u32) -> Inside<'g>
    ensures { result.graph ≡ game.now }
{
    inside_of(rt, game, mask(rt, alloc, game, members))
}

/// A copy of all of the game for a finder, of which nothing is said.
pub fn whole_copy<'g>(rt: &impl Abort, alloc: Global, game: &'g Game) -> Copied<'g> {
    Copied {
        inside: whole(rt, alloc, game),
        at: 0,
        settled: 0,
    }
}

/// What the vertices of a game are like, each of which has one successor.
#[derive(Clone, Copy)]
pub enum Form {
    /// Each is Even's, leads to itself, and has a priority of its own.
    Loops,
    /// Each is Even's, leads to itself, and has an even priority of its own.
    EvenLoops,
    /// Each is Odd's and leads to the next, the last to itself, and priorities rise.
    Chain,
    /// Each is Even's and leads to the first, and priorities rise.
    Star,
}

impl Form {
    /// The priority, the owner and the successor of a vertex of `n`.
    fn row(self, v: u32, n: u32) -> (u32, Player, u32) {
        let next = v.saturating_add(1);
        match self {
            Form::Loops => (v, EVEN, v),
            Form::EvenLoops => (v.saturating_mul(2), EVEN, v),
            Form::Chain if next < n => (v, ODD, next),
            Form::Chain => (v, ODD, v),
            Form::Star => (v, EVEN, 0),
        }
    }
}

fn add(
    rt: &impl Abort,
    alloc: Global,
    draft: &mut Draft,
    (priority, owner, to): (u32, Player, u32),
) {
    draft
        .add(alloc, priority, owner, [to].as_slice())
        .expect(rt, "memory");
}

/// The game of `n` vertices of a form.
pub fn formed(rt: &impl Abort, alloc: Global, form: Form, n: u32) -> Game {
    let mut draft = Draft::new(alloc);
    for v in 0..n {
        add(rt, alloc, &mut draft, form.row(v, n));
    }
    draft.game(alloc).expect(rt, "a game")
}

/// 200 vertices, of which each is Even's, has an odd priority and leads to all.
pub fn dense(rt: &impl Abort, alloc: Global) -> Game {
    made(rt, dense_of(alloc, 200))
}

fn dense_of(alloc: Global, n: u32) -> Result<Game, GameFault> {
    let mut successors = Vec::new(alloc);
    for v in 0..n {
        successors.push(v)?;
    }
    let mut draft = Draft::new(alloc);
    for _v in 0..n {
        draft.add(alloc, 1, EVEN, successors.as_slice())?;
    }
    draft.game(alloc)
}

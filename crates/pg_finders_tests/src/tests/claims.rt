//! `zielonka` on worked games and on hostile ones; and what is no subgame.

use crate::tests::games::{Form, formed, game, mask, part, whole};
use pg_dominion::Claim;
use pg_finders::{Inside, Solved, zielonka};
use pg_game::Game;
use pg_test_support::{EVEN, ODD, Row, Vertex, check_eq, twice};
use std::alloc::Global;
use std::process::Abort;

fn rows(claim: &Claim) -> &[Row] {
    claim.rows.as_slice()
}

/// The solution of a part, of which nothing is said.
fn solved_in(rt: &impl Abort, alloc: Global, inside: &Inside) -> Solved {
    twice!(zielonka(alloc, inside)).expect(rt, "memory")
}

fn solved(rt: &impl Abort, alloc: Global, game: &Game) -> Solved {
    let inside = whole(rt, alloc, game);
    solved_in(rt, alloc, &inside)
}

/// A game, the members of its part, and the rows of both claims.
type Case<'a> = (&'a [Vertex<'a>], u32, &'a [Row], &'a [Row]);

/// The claims are the players' and have these rows.
fn assert_rows(rt: &impl Abort, solved: &Solved, case: &Case) {
    check_eq!(*rt; (solved.even.player, rows(&solved.even)), (EVEN, case.2));
    check_eq!(*rt; (solved.odd.player, rows(&solved.odd)), (ODD, case.3));
}

fn assert_case(rt: &impl Abort, alloc: Global, case: &Case) {
    let game = game(rt, alloc, case.0);
    let inside = part(rt, alloc, &game, case.1);
    let solved = solved_in(rt, alloc, &inside);
    assert_rows(rt, &solved, case);
}

/// All vertices of a small game, as the set of its part.
const ALL: u32 = u32::MAX;

const TWO: &[Vertex] = &[(2, EVEN, &[0, 1]), (1, ODD, &[1])];

const CASES: &[Case] = &[
    // each player wins a vertex
    (TWO, ALL, &[(0, Some(0))], &[(1, Some(1))]),
    // parts of a game are solved alone
    (TWO, 0b10, &[], &[(1, Some(1))]),
    (TWO, 0, &[], &[]),
    // the greatest priority takes all through the opponent's vertex
    (
        &[(1, EVEN, &[1]), (2, ODD, &[0, 2]), (3, ODD, &[2])],
        ALL,
        &[],
        &[(0, None), (1, Some(2)), (2, Some(2))],
    ),
];

#[test]
fn worked_games_and_parts_of_games_are_solved_after_a_refusal(rt: HostRuntime) {
    for case in CASES {
        assert_case(&rt, rt.alloc(), case);
    }
}

/// The vertex at which a set is no subgame, and how many members are given back.
fn refusal(rt: &impl Abort, alloc: Global, game: &Game, members: u32) -> Option<(u32, u32)> {
    match Inside::new(game, mask(rt, alloc, game, members)) {
        Ok(_) => None,
        Err((mask, v)) => Some((v, mask.count())),
    }
}

const LED_OUT: &[Vertex] = &[(0, EVEN, &[0]), (0, ODD, &[0]), (1, ODD, &[2])];

#[test]
fn a_vertex_without_successors_inside_is_no_subgame(rt: HostRuntime) {
    let game = game(&rt, rt.alloc(), LED_OUT);
    check_eq!(rt; refusal(&rt, rt.alloc(), &game, 0b10), Some((1, 1)));
}

/// A form, how many vertices there are, and how many each player wins.
const LARGE: &[(Form, u32, usize, usize)] = &[
    // a thousand loops are shared out
    (Form::Loops, 1_000, 500, 500),
    (Form::EvenLoops, 5_000, 5_000, 0),
    // a chain with as many priorities as a game may have is the last vertex's
    (Form::Chain, 1_048_576, 0, 1_048_576),
    // a star with as many levels as a game may have is its first vertex's
    (Form::Star, 1_048_576, 1_048_576, 0),
];

/// Each vertex is chosen at itself.
fn assert_own_choices(rt: &impl Abort, rows: &[Row]) {
    let mut v = 0u32;
    for row in rows {
        check_eq!(*rt; *row, (v, Some(v)));
        v = v.saturating_add(1);
    }
}

fn assert_large(rt: &impl Abort, alloc: Global, form: Form, n: u32, even: usize, odd: usize) {
    let game = formed(rt, alloc, form, n);
    let claims = solved(rt, alloc, &game);
    check_eq!(*rt; (rows(&claims.even).len(), rows(&claims.odd).len()), (even, odd));
    if n == 5_000 {
        assert_own_choices(rt, rows(&claims.even));
    }
}

#[test]
fn games_with_as_many_priorities_as_vertices_are_solved(rt: HostRuntime) {
    for (form, n, even, odd) in LARGE {
        assert_large(&rt, rt.alloc(), *form, *n, *even, *odd);
    }
}

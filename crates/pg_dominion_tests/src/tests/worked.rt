//! Worked cases, in which a call that was refused memory returns the same the second time; and games of which
//! `tests/program/refused_calls.py` of the repository compares how many allocations their checks need.

ghost use Rattle.std.specs.Prelude.{◌≡◌, length};

use crate::tests::asserting::made;
use crate::tests::games::{Hostile, claim_of, game_made, mask_made};
use crate::tests::kept::{least_on_cycle, odd_vertices};
use crate::tests::subgames::{is_subgame, is_within};
use pg_dominion::{
    Checked, Claim, ClaimFault, SolutionFault, attract, check_claim, check_forward_solution,
    check_solution, judge_claim,
};
use pg_game::{Game, Mask, Player, Sequence};
use pg_test_support::{EVEN, ODD, Row, Vertex, check, check_eq, twice};
use pg_text::Solution;
use std::alloc::Global;
use std::process::Abort;

/// Attraction in two layers, and an own loop that loses.
const LAYERED: &[Vertex] = &[(0, EVEN, &[0]), (3, EVEN, &[0, 1]), (3, ODD, &[1])];

/// A cycle whose greatest priority is at its last vertex.
const CYCLE: &[Vertex] = &[(0, ODD, &[1]), (1, ODD, &[0])];

/// Even wins everything, and only by the right choices.
const WINDING: &[Vertex] = &[
    (6, ODD, &[2, 4]),
    (8, ODD, &[2, 3, 4]),
    (7, EVEN, &[0, 1, 3, 4]),
    (6, EVEN, &[2, 4]),
    (5, ODD, &[0]),
];

/// What is said of a claim.
type Judged = Result<(), ClaimFault>;

const NO_SHAPE_AT_0: Judged = Err(ClaimFault::Shape(0));

const NO_SHAPE_AT_1: Judged = Err(ClaimFault::Shape(1));

/// A game, a player, the rows of a claim of his there, and what is said of it.
const CLAIMS: &[(&[Vertex], Player, &[Row], Judged)] = &[
    (LAYERED, EVEN, &[(1, Some(1))], Err(ClaimFault::Cycle(1))),
    (LAYERED, EVEN, &[(1, Some(0)), (2, None)], Ok(())),
    (LAYERED, EVEN, &[(2, None), (1, Some(0))], NO_SHAPE_AT_1),
    (LAYERED, EVEN, &[(1, None)], NO_SHAPE_AT_0),
    (LAYERED, EVEN, &[(1, Some(2))], NO_SHAPE_AT_0),
    (LAYERED, EVEN, &[(2, Some(1))], NO_SHAPE_AT_0),
    (LAYERED, EVEN, &[(0, Some(0)), (3, None)], NO_SHAPE_AT_1),
    (LAYERED, EVEN, &[], NO_SHAPE_AT_0),
    (LAYERED, ODD, &[(1, None), (2, Some(1))], Ok(())),
    (
        CYCLE,
        EVEN,
        &[(0, None), (1, None)],
        Err(ClaimFault::Cycle(1)),
    ),
    (
        WINDING,
        EVEN,
        &[(0, None), (1, None), (2, Some(1)), (3, Some(4)), (4, None)],
        Ok(()),
    ),
    // the closed walk from 2 by 0 has the greatest priority 7
    (
        WINDING,
        EVEN,
        &[(0, None), (1, None), (2, Some(0)), (3, Some(4)), (4, None)],
        Err(ClaimFault::Cycle(2)),
    ),
];

/// What is checked is the claim, of its game.
fn compare_checked(rt: &impl Abort, game: &Game, checked: &Checked, claim: &Claim) {
    let own = checked.claim();
    check_eq!(*rt; (own.player, own.rows.as_slice()), (claim.player, claim.rows.as_slice()));
    check_eq!(*rt; checked.player(), claim.player);
    check_eq!(*rt; checked.rows().len(), claim.rows.as_slice().len());
    check_eq!(*rt; checked.first_foreign(game), None);
}

/// A call that judges a claim, made once more if memory was refused.
fn judged_twice(alloc: Global, game: &Game, claim: &Claim) -> Judged {
    match judge_claim(alloc, game, claim) {
        Err(ClaimFault::Memory) => judge_claim(alloc, game, claim),
        answer => answer,
    }
}

fn checked_twice(alloc: Global, game: &Game, claim: &Claim) -> Result<Checked, ClaimFault> {
    match check_claim(alloc, game, claim) {
        Err(ClaimFault::Memory) => check_claim(alloc, game, claim),
        answer => answer,
    }
}

fn compare_claim(rt: &impl Abort, alloc: Global, game: &Game, claim: &Claim, want: Judged) {
    check_eq!(*rt; judged_twice(alloc, game, claim), want);
    match checked_twice(alloc, game, claim) {
        Ok(checked) => {
            check!(*rt; want.is_ok());
            compare_checked(rt, game, &checked, claim);
        }
        Err(fault) => check_eq!(*rt; Err(fault), want),
    }
}

#[test]
fn claims_are_checked_after_a_refusal(rt: HostRuntime) {
    for case in CLAIMS {
        let game = game_made(&rt, rt.alloc(), case.0);
        let claim = claim_of(&rt, rt.alloc(), case.1, case.2);
        compare_claim(&rt, rt.alloc(), &game, &claim, case.3);
    }
}

/// A winner and a choice for each vertex.
type Won = (Player, Option<u32>);

/// Each player has a loop of his own.
const DIVIDED: &[Vertex] = &[(2, EVEN, &[0, 1]), (1, ODD, &[1])];

/// A game, winners and choices, and what is said of them.
const SOLUTIONS: &[(&[Vertex], &[Won], Result<(), SolutionFault>)] = &[
    // a walk that the loser closes is found
    (
        WINDING,
        &[
            (EVEN, None),
            (EVEN, None),
            (EVEN, Some(0)),
            (EVEN, Some(4)),
            (EVEN, None),
        ],
        Err(SolutionFault::Cycle(2)),
    ),
    (DIVIDED, &[(EVEN, Some(0)), (ODD, Some(1))], Ok(())),
    (
        DIVIDED,
        &[(EVEN, None), (ODD, Some(1))],
        Err(SolutionFault::NoChoice(0)),
    ),
    (
        DIVIDED,
        &[(EVEN, Some(0)), (ODD, Some(0))],
        Err(SolutionFault::BadChoice(1)),
    ),
    (
        DIVIDED,
        &[(EVEN, Some(1)), (ODD, Some(1))],
        Err(SolutionFault::Leaves(0, 1)),
    ),
];

/// Calls that judge a solution, made once more if memory was refused.
fn solved_twice(alloc: Global, game: &Game, solution: &Solution) -> Result<(), SolutionFault>
    requires { length solution.now.rows ≡ length game.now }
{
    match check_solution(alloc, game, solution) {
        Err(SolutionFault::Memory) => check_solution(alloc, game, solution),
        answer => answer,
    }
}

fn solved_forward_twice(
    alloc: Global,
    game: &Game,
    solution: &Solution,
) -> Result<(), SolutionFault>
    requires { length solution.now.rows ≡ length game.now }
{
    match check_forward_solution(alloc, game.forward(), solution) {
        Err(SolutionFault::Memory) => check_forward_solution(alloc, game.forward(), solution),
        answer => answer,
    }
}

fn compare_solution(
    rt: &impl Abort,
    alloc: Global,
    game: &Game,
    rows: &[Won],
    want: Result<(), SolutionFault>,
) {
    let solution = Solution {
        rows: Sequence::new(made(rt, twice!(Vec::from_slice(alloc, rows)))),
    };
    if solution.rows.as_slice().len() == game.len() as usize {
        check_eq!(*rt; solved_twice(alloc, game, &solution), want);
        check_eq!(*rt; solved_forward_twice(alloc, game, &solution), want);
    } else {
        check!(*rt; false, "there is not one row for each vertex");
    }
}

#[test]
fn solutions_are_checked_after_a_refusal(rt: HostRuntime) {
    for case in SOLUTIONS {
        let game = game_made(&rt, rt.alloc(), case.0);
        compare_solution(&rt, rt.alloc(), &game, case.1, case.2);
    }
}

/// A player, the vertices inside, a target, and the rows that are attracted.
type Attraction<'a> = (Player, u32, u32, &'a [Row]);

const ATTRACTIONS: &[Attraction] = &[
    (EVEN, 0b111, 0b001, &[(1, Some(0)), (2, None)]),
    (EVEN, 0b111, 0b111, &[]),
    (ODD, 0b111, 0b010, &[(2, Some(1))]),
    (EVEN, 0b011, 0b001, &[(1, Some(0))]),
];

fn compare_attracted(
    rt: &impl Abort,
    alloc: Global,
    game: &Game,
    inside: &Mask,
    target: &Mask,
    case: &Attraction,
)
    requires inside_length { length inside.now ≡ length game.now }
    requires target_length { length target.now ≡ length game.now }
{
    if is_subgame(game, inside) && is_within(target, inside, game.len()) {
        let rows = made(rt, twice!(attract(alloc, game, inside, case.0, target)));
        check_eq!(*rt; rows.as_slice(), case.3);
    } else {
        check!(*rt; false, "the masks are no subgame and target");
    }
}

#[test]
fn vertices_are_attracted_after_a_refusal(rt: HostRuntime) {
    let game = game_made(&rt, rt.alloc(), LAYERED);
    for case in ATTRACTIONS {
        let inside = mask_made(&rt, rt.alloc(), game.len(), case.1);
        let target = mask_made(&rt, rt.alloc(), game.len(), case.2);
        compare_attracted(&rt, rt.alloc(), &game, &inside, &target, case);
    }
}

#[test]
fn the_least_vertex_on_a_bad_cycle_is_found(rt: HostRuntime) {
    let game = game_made(&rt, rt.alloc(), WINDING);
    let odd = odd_vertices(&rt, rt.alloc(), &game);
    check_eq!(rt; least_on_cycle(&rt, rt.alloc(), &game, odd), Some(2));
}

/// Rows of this many vertices, without choices.
fn rows_of_all(rt: &impl Abort, alloc: Global, n: u32) -> Vec<Row> {
    let mut rows = Vec::new(alloc);
    for v in 0..n {
        made(rt, rows.push((v, None)));
    }
    rows
}

/// Even's claim of all vertices of a hostile game, which is a good one.
fn compare_hostile(rt: &impl Abort, alloc: Global, hostile: Hostile) {
    let game = hostile.game(rt, alloc);
    let rows = rows_of_all(rt, alloc, game.len());
    let claim = claim_of(rt, alloc, EVEN, rows.as_slice());
    check_eq!(*rt; judge_claim(alloc, &game, &claim), Ok(()));
}

// The two games have as many vertices.

/// The first search looks at each edge of the cycle and shows all of it.
#[test]
fn a_long_cycle_is_judged(rt: HostRuntime) {
    compare_hostile(&rt, rt.alloc(), Hostile::Cycle(100, 2));
}

/// Searches take so long that a ranking is made.
#[test]
fn a_ladder_is_judged(rt: HostRuntime) {
    compare_hostile(&rt, rt.alloc(), Hostile::Ladder(33, None));
}

// In the next two games a search from vertex 0 reaches a cycle of 25 vertices, and those from vertices 26 and
// 27 look at its edges again. A ranking is made where more than 25 such looks are left: a quarter of the 100
// vertices. The search from vertex 27, which has 11 edges, first takes 26 of them off: twice its edges, and
// 4.

/// 25 edges: were one looked at twice, or fewer looks taken off, a ranking would be made.
#[test]
fn each_edge_of_a_cycle_is_looked_at_once(rt: HostRuntime) {
    compare_hostile(&rt, rt.alloc(), Hostile::Chords(25, 0, 72));
}

/// 26 edges: were one not looked at, none would be made.
#[test]
fn with_one_edge_more_a_ranking_is_made(rt: HostRuntime) {
    compare_hostile(&rt, rt.alloc(), Hostile::Chords(25, 1, 72));
}

// In the next two games each search but the first looks at all edges of the cycle again, and takes 6 looks
// off before: twice its one edge, and 4.

/// 6 edges: none of these looks is left after the next search, so no ranking is made.
#[test]
fn many_short_searches_need_no_ranking(rt: HostRuntime) {
    compare_hostile(&rt, rt.alloc(), Hostile::Spokes(94, 6));
}

/// 7 edges: each search leaves one look more, so a ranking is made.
#[test]
fn many_searches_that_are_one_edge_longer_need_one(rt: HostRuntime) {
    compare_hostile(&rt, rt.alloc(), Hostile::Spokes(93, 7));
}

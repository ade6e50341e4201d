//! Loops, solitaire parts, and small dominions by bound and budget, on worked games. A search that was refused
//! memory returns the same the second time.

use crate::tests::asserting::made;
use crate::tests::games::{EIGHT, EIGHT_ROWS, NINE, dense, game, part, whole};
use pg_dominion::Claim;
use pg_finders::{Inside, Small, find_loop, find_small, find_solitaire};
use pg_game::Player;
use pg_test_support::{EVEN, ODD, Row, Vertex, check_eq, twice};
use std::alloc::Global;
use std::process::Abort;

/// All vertices of a small game, as the set of its part.
const ALL: u32 = u32::MAX;

/// A search for a loop of the player, or for where one player alone has choices.
#[derive(Clone, Copy)]
enum Search {
    Loop(Player),
    Solitaire,
}

/// A game, the members of its part, a search, and the player and the rows of what is found.
type Case<'a> = (&'a [Vertex<'a>], u32, Search, Option<(Player, &'a [Row])>);

fn found(rt: &impl Abort, alloc: Global, inside: &Inside, search: Search) -> Option<Claim> {
    match search {
        Search::Loop(player) => made(rt, twice!(find_loop(alloc, inside, player))),
        Search::Solitaire => made(rt, twice!(find_solitaire(alloc, inside))),
    }
}

/// The player and the vertices with their choices, where there is a claim.
fn told_of(claim: &Option<Claim>) -> Option<(Player, &[Row])> {
    match claim {
        Some(claim) => Some((claim.player, claim.rows.as_slice())),
        None => None,
    }
}

fn assert_found(rt: &impl Abort, alloc: Global, inside: &Inside, case: &Case) {
    let found = found(rt, alloc, inside, case.2);
    check_eq!(*rt; told_of(&found), case.3, case.0);
}

fn assert_case(rt: &impl Abort, alloc: Global, case: &Case) {
    let game = game(rt, alloc, case.0);
    let inside = part(rt, alloc, &game, case.1);
    assert_found(rt, alloc, &inside, case);
}

const THREE_LOOPS: &[Vertex] = &[(0, EVEN, &[0]), (0, ODD, &[0]), (1, ODD, &[2])];

const TO_A_LOOP: &[Vertex] = &[(0, EVEN, &[0]), (0, ODD, &[0, 1])];

const BOTH_CHOOSE: &[Vertex] = &[(0, EVEN, &[0, 1]), (0, ODD, &[0, 1])];

const CYCLE: &[Vertex] = &[(1, EVEN, &[1]), (2, EVEN, &[0])];

const TO_A_BAD_CYCLE: &[Vertex] = &[(1, EVEN, &[1]), (1, EVEN, &[2]), (1, EVEN, &[1])];

const ITSELF: &[Vertex] = &[(0, EVEN, &[0])];

const CASES: &[Case] = &[
    // loops are found for their player
    (
        THREE_LOOPS,
        ALL,
        Search::Loop(ODD),
        Some((ODD, &[(2, Some(2))])),
    ),
    // an opponent without another way inside is a loop
    (
        TO_A_LOOP,
        0b10,
        Search::Loop(EVEN),
        Some((EVEN, &[(1, None)])),
    ),
    // where both players choose nothing is solitaire
    (BOTH_CHOOSE, ALL, Search::Solitaire, None),
    (
        BOTH_CHOOSE,
        ALL,
        Search::Loop(EVEN),
        Some((EVEN, &[(0, Some(0))])),
    ),
    (BOTH_CHOOSE, ALL, Search::Loop(ODD), None),
    // a cycle is solitaire
    (
        CYCLE,
        ALL,
        Search::Solitaire,
        Some((EVEN, &[(0, Some(1)), (1, Some(0))])),
    ),
    // Even can only move to a bad cycle, so Odd wins
    (
        TO_A_BAD_CYCLE,
        ALL,
        Search::Solitaire,
        Some((ODD, &[(0, None), (1, None), (2, None)])),
    ),
    // an empty part has nothing
    (ITSELF, 0, Search::Loop(EVEN), None),
    (ITSELF, 0, Search::Solitaire, None),
];

#[test]
fn loops_and_solitaire_parts_are_found_after_a_refusal(rt: HostRuntime) {
    for case in CASES {
        assert_case(&rt, rt.alloc(), case);
    }
}

/// What a search for Even answers: whether it gives up, and the rows that it finds.
type Answer<'a> = (bool, &'a [Row]);

const NOTHING: Answer = (false, &[]);

const GIVES_UP: Answer = (true, &[]);

/// A game, the members of its part, whether vertex 1 is a seed beside vertex 0, the bound, the budget, and
/// the answer.
type SmallCase<'a> = (&'a [Vertex<'a>], u32, bool, u32, u64, Answer<'a>);

fn from_first(rt: &impl Abort, alloc: Global, inside: &Inside, bound: u32, budget: u64) -> Small {
    assert!(*rt; 0 < inside.game().len());
    assert!(*rt; 1 <= bound && bound <= 8);
    made(
        rt,
        twice!(find_small(alloc, inside, EVEN, [0].as_slice(), bound, budget)),
    )
}

fn from_both(rt: &impl Abort, alloc: Global, inside: &Inside, bound: u32, budget: u64) -> Small {
    assert!(*rt; 1 < inside.game().len());
    assert!(*rt; 1 <= bound && bound <= 8);
    made(
        rt,
        twice!(find_small(alloc, inside, EVEN, [0, 1].as_slice(), bound, budget)),
    )
}

fn answer_of(small: &Small) -> Answer<'_> {
    match small {
        Small::Found(claim) => (false, claim.rows.as_slice()),
        Small::Nothing => NOTHING,
        Small::GaveUp => GIVES_UP,
    }
}

fn assert_answer(rt: &impl Abort, alloc: Global, inside: &Inside, case: &SmallCase) {
    let (_, _, is_both, bound, budget, want) = *case;
    let small = if is_both {
        from_both(rt, alloc, inside, bound, budget)
    } else {
        from_first(rt, alloc, inside, bound, budget)
    };
    check_eq!(*rt; answer_of(&small), want, (bound, budget));
}

fn assert_small(rt: &impl Abort, alloc: Global, case: &SmallCase) {
    let game = game(rt, alloc, case.0);
    let inside = part(rt, alloc, &game, case.1);
    assert_answer(rt, alloc, &inside, case);
}

const FORCED: &[Vertex] = &[(0, ODD, &[1]), (2, EVEN, &[0])];

const FORCED_ROWS: Answer = (false, &[(0, None), (1, Some(0))]);

const BOTH_CHOSEN: &[Vertex] = &[(1, EVEN, &[0, 1]), (1, EVEN, &[0, 1])];

const THREE: &[Vertex] = &[(0, EVEN, &[1]), (0, EVEN, &[2]), (0, EVEN, &[0])];

const THREE_ROWS: Answer = (false, &[(0, Some(1)), (1, Some(2)), (2, Some(0))]);

const TWO_LOOPS: &[Vertex] = &[(0, EVEN, &[0]), (1, EVEN, &[1])];

const FIRST_ROW: Answer = (false, &[(0, Some(0))]);

const SMALL_CASES: &[SmallCase] = &[
    // an empty part has nothing
    (ITSELF, 0, false, 4, 100, NOTHING),
    // a forced vertex needs a bound of two and one choice
    (FORCED, ALL, false, 2, 1_000, FORCED_ROWS),
    (FORCED, ALL, false, 8, 2, FORCED_ROWS),
    (FORCED, ALL, false, 1, 1_000, NOTHING),
    // a budget is used to the last choice, and one that covers all choices does not give up
    (ITSELF, ALL, false, 1, 1, FIRST_ROW),
    (ITSELF, ALL, false, 1, 0, GIVES_UP),
    (BOTH_CHOSEN, ALL, false, 2, 6, NOTHING),
    (BOTH_CHOSEN, ALL, false, 2, 4, NOTHING),
    (BOTH_CHOSEN, ALL, false, 2, 3, GIVES_UP),
    (THREE, ALL, false, 3, 3, THREE_ROWS),
    (THREE, ALL, false, 3, 2, GIVES_UP),
    (THREE, ALL, false, 2, 2, NOTHING),
    (THREE, ALL, false, 2, 1, GIVES_UP),
    // seeds share the budget
    (TWO_LOOPS, ALL, true, 8, 2, FIRST_ROW),
    (TWO_LOOPS, ALL, true, 8, 1, GIVES_UP),
    // a seed that was searched is not searched again: two choices from vertex 1, and then one from vertex 0
    (TO_A_BAD_CYCLE, ALL, true, 8, 3, NOTHING),
    (TO_A_BAD_CYCLE, ALL, true, 8, 2, GIVES_UP),
    // eight vertices are the most
    (EIGHT, ALL, false, 8, 8, (false, EIGHT_ROWS)),
    (NINE, ALL, false, 8, 1_000, NOTHING),
];

#[test]
fn a_small_search_keeps_to_its_bound_and_its_budget_after_a_refusal(rt: HostRuntime) {
    for case in SMALL_CASES {
        assert_small(&rt, rt.alloc(), case);
    }
}

/// A search of all of a game that is elsewhere.
const AMONG_MANY: SmallCase = (&[], ALL, false, 8, 10_000, GIVES_UP);

#[test]
fn a_search_among_too_many_choices_gives_up(rt: HostRuntime) {
    let game = dense(&rt, rt.alloc());
    let inside = whole(&rt, rt.alloc(), &game);
    assert_answer(&rt, rt.alloc(), &inside, &AMONG_MANY);
}

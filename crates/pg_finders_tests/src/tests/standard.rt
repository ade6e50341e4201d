//! What `Standard` gives for each job.

use crate::tests::games::{EIGHT, EIGHT_ROWS, NINE, game, whole_copy};
use pg_dominion::Claim;
use pg_finders::{Copied, Finder, Found, Job, Standard};
use pg_game::Player;
use pg_test_support::{EVEN, ODD, Row, Vertex, check_eq, twice};
use std::alloc::Global;
use std::process::Abort;

/// The player and the rows of a claim.
type ExpectedClaim<'a> = (Player, &'a [Row]);

/// A job, whether it is given up, and the claims that are given.
type Case<'a> = (Job, bool, &'a [ExpectedClaim<'a>]);

fn assert_claim(rt: &impl Abort, claim: &Claim, want: Option<&ExpectedClaim>) {
    check_eq!(*rt; Some(&(claim.player, claim.rows.as_slice())), want);
}

fn assert_found(rt: &impl Abort, found: &Found, case: &Case) {
    let counts = (found.gave_up, found.claims.len());
    check_eq!(*rt; counts, (case.1, case.2.len()), case.0);
    let mut at = 0usize;
    for claim in found.claims.as_slice() {
        assert_claim(rt, claim, case.2.get(at));
        at = at.wrapping_add(1);
    }
}

fn assert_gives(rt: &impl Abort, alloc: Global, copied: &Copied, case: &Case) {
    let found = twice!(Standard.find(alloc, copied, &case.0)).expect(rt, "memory");
    assert_found(rt, &found, case);
}

/// The claims that are given for jobs on the game of these vertices.
fn assert_each(rt: &impl Abort, alloc: Global, vertices: &[Vertex], cases: &[Case]) {
    let game = game(rt, alloc, vertices);
    let copied = whole_copy(rt, alloc, &game);
    for case in cases {
        assert_gives(rt, alloc, &copied, case);
    }
}

// A search for Even with this many seeds: a constant may call no function.
macro_rules! small {
    ($first:expr, $count:expr, $bound:expr, $budget:expr) => {
        Job::Small {
            player: EVEN,
            first: $first,
            count: $count,
            bound: $bound,
            budget: $budget,
        }
    };
}

const ONE: &[Vertex] = &[(0, EVEN, &[0])];

const EVENS: ExpectedClaim = (EVEN, &[(0, Some(0))]);

const OF_ONE: &[Case] = &[
    (small!(0, 64, 9, 100), false, &[EVENS]),
    (small!(0, 64, 0, 100), false, &[]),
    (small!(1, 64, 1, 100), false, &[]),
    (small!(u32::MAX, u32::MAX, 1, 100), false, &[]),
];

const OF_EIGHT: &[Case] = &[(small!(0, 64, u32::MAX, 100), false, &[(EVEN, EIGHT_ROWS)])];

const OF_NINE: &[Case] = &[(small!(0, 64, 9, 100), false, &[])];

const FORCED: &[Vertex] = &[(0, ODD, &[1]), (2, EVEN, &[0])];

const NO_BUDGET: &[Case] = &[(small!(0, 64, 2, 0), true, &[])];

const ONE_OF_SEVEN: Vertex = (1, EVEN, &[5, 6, 7, 8, 9, 10, 11]);

const TWELVE: &[Vertex] = &[
    (2, EVEN, &[1]),
    (0, ODD, &[2, 3]),
    (1, EVEN, &[0, 2]),
    (0, EVEN, &[0]),
    (1, ODD, &[5, 6]),
    ONE_OF_SEVEN,
    ONE_OF_SEVEN,
    ONE_OF_SEVEN,
    ONE_OF_SEVEN,
    ONE_OF_SEVEN,
    ONE_OF_SEVEN,
    ONE_OF_SEVEN,
];

const FOUR: ExpectedClaim = (EVEN, &[(0, Some(1)), (1, None), (2, Some(0)), (3, Some(0))]);

/// A dominion of four vertices takes thousands of choices.
const OF_TWELVE: &[Case] = &[
    (small!(0, 64, 4, 2_159), false, &[FOUR]),
    (small!(0, 64, 4, 2_158), true, &[]),
    (small!(0, 64, 3, 692), false, &[]),
    (small!(0, 64, 3, 691), true, &[]),
    (small!(0, 64, 5, 5_687), false, &[FOUR]),
    (small!(0, 64, 5, 5_686), true, &[]),
];

const GAMES: &[(&[Vertex], &[Case])] = &[
    (ONE, OF_ONE),
    (EIGHT, OF_EIGHT),
    (NINE, OF_NINE),
    (FORCED, NO_BUDGET),
    (TWELVE, OF_TWELVE),
];

#[test]
fn small_jobs_take_any_seeds_and_bound_and_use_their_budget_after_a_refusal(rt: HostRuntime) {
    for case in GAMES {
        assert_each(&rt, rt.alloc(), case.0, case.1);
    }
}

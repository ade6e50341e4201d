//! Claims that the finders give for copies of a board, posted to it at once and later.

use crate::tests::asserting::made;
use crate::tests::calls::{Call, copied};
use crate::tests::games::{
    BRIDGE, DIVIDED, LAYERED, SHARED, WINDING, claim_of, game_made, new_board,
};
use pg_board::{Board, Refusal};
use pg_dominion::Claim;
use pg_finders::{Copied, Finder, Found, Job, Solved, Standard, zielonka};
use pg_game::{Game, Player};
use pg_test_support::{EVEN, ODD, Row, Vertex, check, check_eq};
use std::alloc::Global;
use std::process::Abort;

/// Puts a claim of a dominion, which settles something or is stale.
fn put_dominion(rt: &impl Abort, alloc: Global, call: Call, board: &mut Board, claim: &Claim) {
    match call.put(alloc, board, claim) {
        Ok(_) => {}
        Err(refusal) => check_eq!(*rt; refusal, Refusal::Stale),
    }
}

/// Puts claims of dominions, those that have rows.
fn put_dominions(rt: &impl Abort, alloc: Global, call: Call, board: &mut Board, claims: &[Claim]) {
    for claim in claims {
        if !claim.rows.as_slice().is_empty() {
            put_dominion(rt, alloc, call, board, claim);
        }
    }
}

/// What `Standard` finds in a copy of the board.
fn found_in(rt: &impl Abort, alloc: Global, board: &Board, job: &Job) -> Found {
    find(rt, alloc, &copied(rt, alloc, board), job)
}

fn find(rt: &impl Abort, alloc: Global, copied: &Copied, job: &Job) -> Found {
    made(rt, Standard.find(alloc, copied, job))
}

// The search for dominions of a player with this many vertices, and its budget.
macro_rules! small_job {
    ($player:expr, $bound:expr, $budget:expr) => {
        Job::Small {
            player: $player,
            first: 0,
            count: 64,
            bound: $bound,
            budget: $budget,
        }
    };
}

const JOBS: &[Job] = &[
    Job::Loops,
    Job::Solitaire,
    small_job!(EVEN, 4, 10_000),
    small_job!(ODD, 4, 10_000),
    Job::Recursion,
];

/// Puts what `Standard` finds for each job, each on a new copy.
fn put_found(rt: &impl Abort, alloc: Global, call: Call, game: &Game) {
    let mut board = new_board(rt, alloc, game);
    for job in JOBS {
        let found = found_in(rt, alloc, &board, job);
        put_dominions(rt, alloc, call, &mut board, found.claims.as_slice());
    }
    check!(*rt; board.is_full());
}

#[test]
fn what_is_found_in_a_copy_is_settled_or_stale(rt: HostRuntime) {
    for vertices in [WINDING, DIVIDED, LAYERED, SHARED] {
        let game = game_made(&rt, rt.alloc(), vertices);
        put_found(&rt, rt.alloc(), Call::Post, &game);
        put_found(&rt, rt.alloc(), Call::Settle, &game);
    }
}

/// A game, a bound and a budget, and what `Standard` finds for Even in a copy of a new board: whether it gives up, how many
/// claims there are, and the rows of each.
type Search<'a> = (&'a [Vertex<'a>], u32, u64, bool, usize, &'a [Row]);

const SEARCHES: &[Search] = &[
    // a bound above the greatest is taken as the greatest
    (&[(0, EVEN, &[0])], 9, 100, false, 1, &[(0, Some(0))]),
    // for bound 0 nothing is found
    (&[(0, EVEN, &[0])], 0, 100, false, 0, &[]),
    // a search without budget gives up
    (&[(0, ODD, &[1]), (2, EVEN, &[0])], 2, 0, true, 0, &[]),
];

#[test]
fn worked_searches_find_their_claims(rt: HostRuntime) {
    for search in SEARCHES {
        compare_search(&rt, rt.alloc(), search);
    }
}

fn compare_search(rt: &impl Abort, alloc: Global, search: &Search) {
    let game = game_made(rt, alloc, search.0);
    let board = new_board(rt, alloc, &game);
    let found = found_in(rt, alloc, &board, &small_job!(EVEN, search.1, search.2));
    check_eq!(*rt; (found.gave_up, found.claims.len()), (search.3, search.4));
    for claim in found.claims.as_slice() {
        check_eq!(*rt; (claim.player, claim.rows.as_slice()), (EVEN, search.5));
    }
}

/// A game, and claims that are put one after another.
type Late<'a> = (&'a [Vertex<'a>], &'a [(Player, &'a [Row])]);

const LATE: &[Late] = &[
    (SHARED, &[(EVEN, &[(0, Some(0))]), (ODD, &[(2, Some(2))])]),
    // what is found for Even is posted late, and settles the rest
    (SHARED, &[(ODD, &[(2, Some(2))])]),
    (WINDING, &[]),
    (
        WINDING,
        &[(
            EVEN,
            &[(0, None), (1, None), (2, Some(1)), (3, Some(2)), (4, None)],
        )],
    ),
];

#[test]
fn what_is_found_in_an_old_copy_is_settled_or_stale(rt: HostRuntime) {
    for late in LATE {
        let game = game_made(&rt, rt.alloc(), late.0);
        put_late(&rt, rt.alloc(), Call::Post, &game, late.1);
        put_late(&rt, rt.alloc(), Call::Settle, &game, late.1);
    }
}

/// Puts the claims, and then what the recursion finds in the copies from before each of them and after the last.
fn put_late(rt: &impl Abort, alloc: Global, call: Call, game: &Game, claims: &[(Player, &[Row])]) {
    let mut board = new_board(rt, alloc, game);
    let mut late = Vec::new(alloc);
    find_all(rt, alloc, &board, &mut late);
    for claim in claims {
        put_claim(rt, alloc, call, &mut board, claim);
        find_all(rt, alloc, &board, &mut late);
    }
    put_dominions(rt, alloc, call, &mut board, late.as_slice());
    check!(*rt; board.is_full());
}

/// Puts a claim, which is accepted.
fn put_claim(
    rt: &impl Abort,
    alloc: Global,
    call: Call,
    board: &mut Board,
    claim: &(Player, &[Row]),
) {
    let claim = claim_of(rt, alloc, claim.0, claim.1);
    check!(*rt; call.put(alloc, board, &claim).is_ok());
}

fn solved(rt: &impl Abort, alloc: Global, copied: &Copied) -> Solved {
    made(rt, zielonka(alloc, &copied.inside))
}

/// Both claims of the recursion in a copy of the board.
fn find_all(rt: &impl Abort, alloc: Global, board: &Board, claims: &mut Vec<Claim>) {
    let solved = solved(rt, alloc, &copied(rt, alloc, board));
    made(rt, claims.push(solved.even));
    made(rt, claims.push(solved.odd));
}

const FIRST: &[Row] = &[(0, Some(0))];

const LAST: &[Row] = &[(2, Some(2))];

const ALL: &[Row] = &[(0, Some(0)), (1, None), (2, Some(2))];

const ORDERS: &[[&[Row]; 3]] = &[
    [FIRST, LAST, ALL],
    [FIRST, ALL, LAST],
    [LAST, FIRST, ALL],
    [LAST, ALL, FIRST],
    [ALL, FIRST, LAST],
    [ALL, LAST, FIRST],
];

#[test]
fn dominions_in_any_order_settle_the_same(rt: HostRuntime) {
    let game = game_made(&rt, rt.alloc(), BRIDGE);
    for order in ORDERS {
        put_in_order(&rt, rt.alloc(), Call::Post, &game, order);
        put_in_order(&rt, rt.alloc(), Call::Settle, &game, order);
    }
}

/// Puts Even's claims in their order to a new board, of which Even then has every vertex.
fn put_in_order(rt: &impl Abort, alloc: Global, call: Call, game: &Game, order: &[&[Row]]) {
    let mut board = new_board(rt, alloc, game);
    for rows in order {
        put_rows(rt, alloc, call, &mut board, *rows);
    }
    for v in 0..3 {
        check_eq!(*rt; board.winner(v), Some(EVEN));
    }
}

fn put_rows(rt: &impl Abort, alloc: Global, call: Call, board: &mut Board, rows: &[Row]) {
    let claim = claim_of(rt, alloc, EVEN, rows);
    put_dominion(rt, alloc, call, board, &claim);
}

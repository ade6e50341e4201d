//! Worked answers: of one board each, to claims one after another, which are posted, or checked and settled.

use crate::tests::asserting::made;
use crate::tests::calls::{Call, copied};
use crate::tests::games::{BRIDGE, LAYERED, SHARED, WAITING, claim_of, game_made, new_board};
use pg_board::{Board, Entry, Posted, Refusal};
use pg_dominion::ClaimFault;
use pg_finders::Copied;
use pg_game::{Mask, Player};
use pg_test_support::{EVEN, ODD, Row, Vertex, check_eq};
use pg_text::Solution;
use std::alloc::Global;
use std::process::Abort;

/// A claim with what the board has to answer.
pub type Put<'a> = (Player, &'a [Row], Result<Posted, Refusal>);

/// An entry of worker 7: its player, how many vertices were claimed, and its rows.
pub type ExpectedEntry<'a> = (Player, u32, &'a [Row]);

/// Who won a vertex, and by which choice.
type Won = (Option<Player>, Option<u32>);

/// A game, claims that are put to a new board of it, and what the board then has: its entries, and each vertex.
pub struct Case<'a> {
    game: &'a [Vertex<'a>],
    claims: &'a [Put<'a>],
    pub entries: &'a [ExpectedEntry<'a>],
    vertices: &'a [Won],
}

// An entry's number, how many of its rows were claimed, and how many it settled.
macro_rules! settled {
    ($entry:expr, $claimed:expr, $settled:expr) => {
        Ok(Posted {
            entry: $entry,
            claimed: $claimed,
            settled: $settled,
        })
    };
}

const LOOP_AT_0: &[Row] = &[(0, Some(0))];

const OPEN: Won = (None, None);

const NO_ROWS: Result<Posted, Refusal> = Err(Refusal::Claim(ClaimFault::Shape(0)));

/// The claims of the shared game's two loops.
pub const EVENS: Put = (EVEN, LOOP_AT_0, settled!(0, 1, 2));

pub const ODDS: Put = (ODD, &[(2, Some(2))], settled!(1, 1, 1));

/// On a new board nothing is settled.
pub const NEW: &Case = &Case {
    game: SHARED,
    claims: &[],
    entries: &[],
    vertices: &[OPEN, OPEN, OPEN],
};

/// Even's loop is settled, with what it attracts.
pub const HALF: &Case = &Case {
    game: SHARED,
    claims: &[EVENS],
    entries: &[(EVEN, 1, &[(0, Some(0)), (1, None)])],
    vertices: &[(Some(EVEN), Some(0)), (Some(EVEN), None), OPEN],
};

/// A full board has a solution.
pub const FULL: &Case = &Case {
    game: SHARED,
    claims: &[EVENS, ODDS],
    entries: &[
        (EVEN, 1, &[(0, Some(0)), (1, None)]),
        (ODD, 1, &[(2, Some(2))]),
    ],
    vertices: &[
        (Some(EVEN), Some(0)),
        (Some(EVEN), None),
        (Some(ODD), Some(2)),
    ],
};

/// Attraction goes through two layers.
pub const LAYERS: &Case = &Case {
    game: LAYERED,
    claims: &[
        (EVEN, LOOP_AT_0, settled!(0, 1, 3)),
        (EVEN, &[(1, Some(0))], Err(Refusal::Stale)),
        (
            EVEN,
            &[(1, Some(1))],
            Err(Refusal::Claim(ClaimFault::Cycle(1))),
        ),
        (ODD, &[(2, Some(1))], Err(Refusal::Lost(2))),
    ],
    entries: &[(EVEN, 1, &[(0, Some(0)), (1, Some(0)), (2, None)])],
    vertices: &[
        (Some(EVEN), Some(0)),
        (Some(EVEN), Some(0)),
        (Some(EVEN), None),
    ],
};

const CASES: &[&Case] = &[
    // an old claim settles what is left of it and is then stale
    &Case {
        game: WAITING,
        claims: &[(EVEN, LOOP_AT_0, settled!(0, 1, 1))],
        entries: &[(EVEN, 1, LOOP_AT_0)],
        vertices: &[(Some(EVEN), Some(0)), OPEN],
    },
    &Case {
        game: WAITING,
        claims: &[
            (EVEN, LOOP_AT_0, settled!(0, 1, 1)),
            (EVEN, &[(0, Some(0)), (1, None)], settled!(1, 1, 1)),
            (EVEN, &[(0, Some(0)), (1, None)], Err(Refusal::Stale)),
        ],
        entries: &[(EVEN, 1, LOOP_AT_0), (EVEN, 1, &[(1, None)])],
        vertices: &[(Some(EVEN), Some(0)), (Some(EVEN), None)],
    },
    // what is attracted is lost for the opponent
    &Case {
        game: SHARED,
        claims: &[
            (ODD, &[(1, Some(0))], Err(Refusal::Open(1, 0))),
            (EVEN, LOOP_AT_0, settled!(0, 1, 2)),
            (ODD, &[(1, Some(0))], Err(Refusal::Lost(1))),
            (ODD, &[(1, Some(0)), (2, Some(2))], Err(Refusal::Lost(1))),
        ],
        entries: &[(EVEN, 1, &[(0, Some(0)), (1, None)])],
        vertices: &[(Some(EVEN), Some(0)), (Some(EVEN), None), OPEN],
    },
    NEW,
    HALF,
    FULL,
    // an edge out of the rest is named before it is settled
    &Case {
        game: &[(0, ODD, &[0, 1]), (1, ODD, &[1])],
        claims: &[
            (EVEN, &[(0, None)], Err(Refusal::Open(0, 1))),
            (EVEN, &[], NO_ROWS),
        ],
        entries: &[],
        vertices: &[OPEN, OPEN],
    },
    // a bad cycle of a claim is named
    &Case {
        game: &[(0, ODD, &[1]), (1, ODD, &[0])],
        claims: &[
            (
                EVEN,
                &[(0, None), (1, None)],
                Err(Refusal::Claim(ClaimFault::Cycle(1))),
            ),
            (EVEN, &[], NO_ROWS),
        ],
        entries: &[],
        vertices: &[OPEN, OPEN],
    },
    LAYERS,
    // a claim that was a dominion once is settled or stale
    &Case {
        game: BRIDGE,
        claims: &[
            (EVEN, &[(1, None)], Err(Refusal::Open(1, 0))),
            (EVEN, LOOP_AT_0, settled!(0, 1, 1)),
            (EVEN, &[(2, Some(2))], settled!(1, 1, 1)),
            (
                EVEN,
                &[(0, Some(0)), (1, None), (2, Some(2))],
                settled!(2, 1, 1),
            ),
            (
                EVEN,
                &[(0, Some(0)), (1, None), (2, Some(2))],
                Err(Refusal::Stale),
            ),
        ],
        entries: &[
            (EVEN, 1, LOOP_AT_0),
            (EVEN, 1, &[(2, Some(2))]),
            (EVEN, 1, &[(1, None)]),
        ],
        vertices: &[
            (Some(EVEN), Some(0)),
            (Some(EVEN), None),
            (Some(EVEN), Some(2)),
        ],
    },
    // a dominion after one entry is settled
    &Case {
        game: BRIDGE,
        claims: &[
            (EVEN, LOOP_AT_0, settled!(0, 1, 1)),
            (EVEN, &[(1, None)], settled!(1, 1, 1)),
        ],
        entries: &[(EVEN, 1, LOOP_AT_0), (EVEN, 1, &[(1, None)])],
        vertices: &[(Some(EVEN), Some(0)), (Some(EVEN), None), OPEN],
    },
];

#[test]
fn worked_claims_have_their_answers(rt: HostRuntime) {
    for case in CASES {
        compare_case(&rt, rt.alloc(), Call::Post, *case);
        compare_case(&rt, rt.alloc(), Call::Settle, *case);
    }
}

/// The answers to the claims, and what the board then has.
fn compare_case(rt: &impl Abort, alloc: Global, call: Call, case: &Case) {
    let game = game_made(rt, alloc, case.game);
    let mut board = new_board(rt, alloc, &game);
    for claim in case.claims {
        compare_answer(rt, alloc, call, &mut board, claim);
    }
    compare_board(rt, alloc, &board, case);
    check_eq!(*rt; board.into_entries().len(), case.entries.len());
}

/// The answer to a claim.
fn compare_answer(rt: &impl Abort, alloc: Global, call: Call, board: &mut Board, put: &Put) {
    let claim = claim_of(rt, alloc, put.0, put.1);
    check_eq!(*rt; call.put(alloc, board, &claim), put.2);
}

pub fn compare_board(rt: &impl Abort, alloc: Global, board: &Board, case: &Case) {
    compare_entries(rt, board.entries(), case.entries);
    let settled = settled_of(case.vertices);
    compare_vertices(rt, board, case.vertices, settled);
    compare_solution(rt, alloc, board, case.vertices);
    compare_copy(rt, &copied(rt, alloc, board), case);
}

pub fn compare_copy(rt: &impl Abort, copied: &Copied, case: &Case) {
    let settled = settled_of(case.vertices);
    check_eq!(*rt; (copied.at, copied.settled), (case.entries.len() as u64, settled));
    compare_mask(rt, copied.inside.mask(), case.vertices, settled);
}

fn compare_entries(rt: &impl Abort, entries: &[Entry], want: &[ExpectedEntry]) {
    check_eq!(*rt; entries.len(), want.len());
    let mut at = 0usize;
    for entry in entries {
        compare_entry(rt, entry, want.get(at));
        at = at.wrapping_add(1);
    }
}

fn compare_entry(rt: &impl Abort, entry: &Entry, want: Option<&ExpectedEntry>) {
    let found = (entry.player, entry.claimed, entry.rows.as_slice());
    check_eq!(*rt; Some(&found), want);
    check_eq!(*rt; entry.worker, 7);
}

/// How many vertices are settled.
fn settled_of(vertices: &[Won]) -> u64 {
    let mut settled = 0u64;
    for won in vertices {
        if won.0.is_some() {
            settled = settled.saturating_add(1);
        }
    }
    settled
}

/// What is returned of each vertex, and how many are settled, all by worker 7.
fn compare_vertices(rt: &impl Abort, board: &Board, vertices: &[Won], settled: u64) {
    let mut v = 0u32;
    for won in vertices {
        check_eq!(*rt; (board.winner(v), board.choice(v)), *won);
        v = v.saturating_add(1);
    }
    check_eq!(*rt; (board.game().len(), board.is_full()), (v, settled == u64::from(v)));
    let found = [board.settled(), board.settled_by(7), board.settled_by(8)];
    check_eq!(*rt; found, [settled, settled, 0]);
}

/// A full board has a solution, and no other.
fn compare_solution(rt: &impl Abort, alloc: Global, board: &Board, vertices: &[Won]) {
    let solution = solution_of(rt, alloc, board);
    check_eq!(*rt; solution.is_some(), board.is_full());
    if let Some(solution) = solution {
        compare_rows(rt, solution.rows.as_slice(), vertices);
    }
}

/// The board's own call, made once more where memory was refused.
fn solution_of(rt: &impl Abort, alloc: Global, board: &Board) -> Option<Solution> {
    match board.solution(alloc) {
        Ok(solution) => solution,
        Err(_) => made(rt, board.solution(alloc)),
    }
}

fn compare_rows(rt: &impl Abort, rows: &[(Player, Option<u32>)], vertices: &[Won]) {
    check_eq!(*rt; rows.len(), vertices.len());
    let mut v = 0usize;
    for row in rows {
        check_eq!(*rt; Some(&(Some(row.0), row.1)), vertices.get(v));
        v = v.wrapping_add(1);
    }
}

/// The mask of a copy has the vertices that are not settled.
fn compare_mask(rt: &impl Abort, mask: &Mask, vertices: &[Won], settled: u64) {
    let mut v = 0u32;
    for won in vertices {
        check_eq!(*rt; is_member(mask, v), won.0.is_none());
        v = v.saturating_add(1);
    }
    check_eq!(*rt; mask.len(), v);
    check_eq!(*rt; u64::from(mask.count()), u64::from(v).saturating_sub(settled));
}

fn is_member(mask: &Mask, v: u32) -> bool {
    v < mask.len() && mask.has(v)
}

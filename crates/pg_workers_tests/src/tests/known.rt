//! What is known is posted before any worker starts, with the known choices, and is taken exactly where it is a region.

use crate::tests::games::{TWO_LOOPS, known_run};
use pg_board::{Entry, Refusal};
use pg_dominion::ClaimFault;
use pg_finders::Standard;
use pg_game::Player;
use pg_test_support::{EVEN, ODD, check_eq};
use pg_workers::{Outcome, ReportRow, SolveFault};
use std::alloc::Global;
use std::process::Abort;
use std::sync::Wait;
use std::thread::Threads;

/// Even wins vertex 0 by itself, and attracts 1 and then 2.
const LAYERS: &[u8] = b"0 0 0 0; 1 3 0 0,1; 2 3 1 1;";

/// The winner of a vertex, and the choice there.
type Row = (Player, Option<u32>);

/// Who posted an entry, for whom, how many rows are claimed, and how many there are.
type Expected = (u32, Player, u32, usize);

/// A game, what is known, how many workers, the entries, the solution, and how many vertices the jobs settled, all of them in
/// the first.
type Taken<'a> = (&'a [u8], &'a [u8], u32, &'a [Expected], &'a [Row], u64);

fn compare_entry(rt: &impl Abort, entry: &Entry, want: Expected) {
    let found = (
        entry.worker,
        entry.player,
        entry.claimed,
        entry.rows.as_slice().len(),
    );
    check_eq!(*rt; found, want);
}

fn compare_entries(rt: &impl Abort, entries: &[Entry], want: &[Expected]) {
    check_eq!(*rt; entries.len(), want.len());
    for (entry, expected) in entries.iter().zip(want) {
        compare_entry(rt, entry, *expected);
    }
}

fn compare_settled(rt: &impl Abort, report: &[ReportRow], first: u64) {
    for row in report {
        let want = if row.job == 0 { first } else { 0 };
        check_eq!(*rt; row.settled, want, row.job);
    }
}

fn compare_outcome(rt: &impl Abort, outcome: &Outcome, case: &Taken) {
    compare_entries(rt, outcome.entries.as_slice(), case.3);
    check_eq!(*rt; outcome.solution.rows.as_slice(), case.4);
    compare_settled(rt, outcome.report.as_slice(), case.5);
}

fn compare_taken<R: Threads + Wait + Abort + Sync>(rt: &R, alloc: Global, case: &Taken) {
    match known_run(rt, alloc, case.0, case.1, case.2, &Standard) {
        Ok(outcome) => compare_outcome(rt, &outcome, case),
        Err(_) => panic!(*rt; "what is known was refused"),
    }
}

const TAKEN: &[Taken] = &[
    // all that is attracted is in the first entry
    (
        LAYERS,
        b"0 0 0;",
        2,
        &[(0, EVEN, 1, 3)],
        &[(EVEN, Some(0)), (EVEN, Some(0)), (EVEN, None)],
        0,
    ),
    // both known regions are posted, Even's first
    (
        TWO_LOOPS,
        b"1 1 1; 0 0 0;",
        64,
        &[(0, EVEN, 1, 1), (0, ODD, 1, 1)],
        &[(EVEN, Some(0)), (ODD, Some(1))],
        0,
    ),
    // the workers settle what is left beside Odd's known region
    (
        TWO_LOOPS,
        b"1 1 1;",
        1,
        &[(0, ODD, 1, 1), (1, EVEN, 1, 1)],
        &[(EVEN, Some(0)), (ODD, Some(1))],
        1,
    ),
    // the board attracts from the known region with choices of its own; the known choice stays where it was posted
    (
        b"0 2 0 1,2; 1 2 0 0,2; 2 2 0 0,1;",
        b"0 0 2; 1 0 2; 2 0 1;",
        2,
        &[(0, EVEN, 3, 3)],
        &[(EVEN, Some(2)), (EVEN, Some(2)), (EVEN, Some(1))],
        0,
    ),
];

#[test]
fn known_regions_are_posted_first_and_what_is_left_is_solved(rt: HostRuntime) {
    for case in TAKEN {
        compare_taken(&rt, rt.alloc(), case);
    }
}

/// A game, what is known, whose known set is refused, and why.
type Refused<'a> = (&'a [u8], &'a [u8], Player, Refusal);

/// Compares the fault of a run.
fn compare_fault<R: Threads + Wait + Abort + Sync>(
    rt: &R,
    alloc: Global,
    case: &Refused,
    workers: u32,
) {
    let found = known_run(rt, alloc, case.0, case.1, workers, &Standard).err();
    check_eq!(*rt; found, Some(SolveFault::Known(case.2, case.3)), workers);
}

const SECOND_CYCLE: Refusal = Refusal::Claim(ClaimFault::Cycle(1));

const REFUSED: &[Refused] = &[
    (LAYERS, b"0 0 0; 2 1 1;", ODD, Refusal::Lost(2)),
    // where neither known set is a region, Even's is named
    (TWO_LOOPS, b"0 1; 1 0;", EVEN, SECOND_CYCLE),
];

#[test]
fn a_known_set_that_is_no_region_is_refused_for_the_posts_reason(rt: HostRuntime) {
    for case in REFUSED {
        compare_fault(&rt, rt.alloc(), case, 2);
    }
}

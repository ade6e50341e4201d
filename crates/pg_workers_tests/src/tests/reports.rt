//! What the report says of each job.

use crate::tests::finders::{Fixed, Halting, Numbered, Recorder, numbers_of};
use crate::tests::games::{outcome_of, product, solved, two_loops};
use pg_finders::{Finder, Standard};
use pg_game::Player;
use pg_test_support::{EVEN, ODD, Row, check_eq, own_loops};
use pg_workers::{Gate, Options, Pass, ReportRow};
use std::alloc::Global;
use std::process::Abort;
use std::sync::Wait;
use std::sync::atomic::{AtomicU64, Ordering};
use std::thread::Threads;

/// A job's numbers posted, settled, stale and refused, whether it gave up, and whether it had no memory.
type Expected = ([u64; 4], bool, bool);

/// Compares the row of a job of worker 1.
fn compare_row(rt: &impl Abort, row: &ReportRow, job: u64, want: Expected) {
    let ([posted, settled, stale, refused], gave_up, memory) = want;
    let row_wanted = ReportRow {
        job,
        worker: Some(1),
        posted,
        settled,
        stale,
        refused,
        gave_up,
        memory,
    };
    check_eq!(*rt; *row, row_wanted);
}

/// Compares the rows of five jobs.
fn compare_rows(rt: &impl Abort, report: &[ReportRow], want: &[Expected; 5]) {
    check_eq!(*rt; report.len(), 5);
    let mut job = 0u64;
    for (row, expected) in report.iter().zip(want) {
        compare_row(rt, row, job, *expected);
        job = job.wrapping_add(1);
    }
}

/// Compares the rows of a run with one worker on the game of two winners.
fn assert_rows<R: Threads + Wait + Abort + Sync>(
    rt: &R,
    alloc: Global,
    finder: &impl Finder,
    want: &[Expected; 5],
) {
    let outcome = outcome_of(rt, alloc, two_loops(), 1, finder);
    compare_rows(rt, outcome.report.as_slice(), want);
}

const NOTHING: Expected = ([0; 4], false, false);

/// The first job settles both loops.
const STANDARD: [Expected; 5] = [
    ([2, 2, 0, 0], false, false),
    NOTHING,
    NOTHING,
    NOTHING,
    NOTHING,
];

#[test]
fn the_first_job_settles_both_loops(rt: HostRuntime) {
    assert_rows(&rt, rt.alloc(), &Standard, &STANDARD);
}

const TWO_AND_TWO: Expected = ([0, 0, 2, 2], false, false);

const THREE_STALE: Expected = ([0, 0, 3, 0], false, false);

type Case<'a> = (&'a [(Player, &'a [Row])], [Expected; 5]);

const CASES: &[Case] = &[
    // a worker continues after a stale claim
    (
        &[
            (EVEN, &[(0, Some(0))]),
            (EVEN, &[(0, Some(0))]),
            (ODD, &[(1, Some(1))]),
        ],
        [
            ([2, 2, 1, 0], false, false),
            THREE_STALE,
            THREE_STALE,
            THREE_STALE,
            THREE_STALE,
        ],
    ),
    // the claim of no row and the claim with a bad closed walk are refused by the check, the claim with an edge that leads out
    // by the board; a good one comes last
    (
        &[
            (EVEN, &[]),
            (ODD, &[(0, None)]),
            (EVEN, &[(0, Some(1))]),
            (EVEN, &[(0, Some(0))]),
        ],
        [
            ([1, 1, 0, 3], false, false),
            TWO_AND_TWO,
            TWO_AND_TWO,
            TWO_AND_TWO,
            TWO_AND_TWO,
        ],
    ),
];

#[test]
fn a_worker_goes_on_after_stale_and_refused_claims(rt: HostRuntime) {
    for (claims, want) in CASES {
        let finder = Fixed {
            claims: *claims,
            times: 1,
        };
        assert_rows(&rt, rt.alloc(), &finder, want);
    }
}

const LACKED: Expected = ([0; 4], false, true);

const HALTED: [Expected; 5] = [
    NOTHING,
    LACKED,
    ([1, 1, 0, 0], true, false),
    NOTHING,
    NOTHING,
];

#[test]
fn each_row_says_whether_its_search_gave_up_or_had_no_memory(rt: HostRuntime) {
    assert_rows(&rt, rt.alloc(), &Halting, &HALTED);
}

/// Compares a row with what the search for its job returned.
fn compare_numbers(rt: &impl Abort, row: &ReportRow, before: u32) {
    let answered = row.posted.wrapping_add(row.stale).wrapping_add(row.refused);
    let (count, gave_up) = numbers_of(before).unwrap_or((0, false));
    let memory = numbers_of(before).is_none();
    let want = (u64::from(count), gave_up, memory);
    check_eq!(*rt; (answered, row.gave_up, row.memory), want, row.job);
}

/// Adds up the numbers of the jobs, from one on, at each call of a gate.
#[derive(Drop)]
struct Sums {
    found: AtomicU64,
    posted: AtomicU64,
}

impl Gate for Sums {
    fn found<R: Wait>(&self, _rt: &R, _worker: u32, job: u64) {
        self.found.fetch_add(job.wrapping_add(1), Ordering::SeqCst);
    }

    fn posted<R: Wait>(&self, _rt: &R, _worker: u32, job: u64) {
        self.posted.fetch_add(job.wrapping_add(1), Ordering::SeqCst);
    }
}

impl Sums {
    fn new() -> Sums {
        Sums {
            found: AtomicU64::new(0),
            posted: AtomicU64::new(0),
        }
    }

    /// Each of the 13 jobs made both calls.
    fn compare(self, rt: &impl Abort) {
        check_eq!(*rt; self.found.into_inner(), 91);
        check_eq!(*rt; self.posted.into_inner(), 91);
    }
}

/// A run on 300 vertices, whose 13 rows are compared.
fn assert_numbers<R: Threads + Wait + Abort + Sync>(rt: &R, alloc: Global, workers: u32) {
    assert!(*rt; 1 <= workers && workers <= 64);
    let options = product(workers);
    let game = own_loops(alloc, 300).expect(rt, "a game");
    let finder = Numbered {
        recorder: Recorder::with_places(alloc, 13).expect(rt, "memory"),
    };
    let sums = Sums::new();
    let outcome = solved(rt, alloc, &game, &options, &sums, &finder);
    sums.compare(rt);
    check_eq!(*rt; outcome.report.len(), 13);
    for number in 0..options.total(game.len()) {
        let before = finder.recorder.before(rt, options.job(game.len(), number));
        match outcome.report.get(number as usize) {
            Some(row) => compare_numbers(rt, row, before),
            None => panic!(*rt; "no row"),
        }
    }
}

#[test]
fn each_row_counts_every_claim_of_its_search(rt: HostRuntime) {
    assert_numbers(&rt, rt.alloc(), 1);
    assert_numbers(&rt, rt.alloc(), 3);
    assert_numbers(&rt, rt.alloc(), 64);
}

const FEW_JOBS: Options = Options {
    workers: 1,
    bound: 0,
    budget: 0,
};

#[test]
fn all_vertices_of_the_largest_game_are_settled_by_one_claim(rt: HostRuntime) {
    let game = own_loops(rt.alloc(), 1_048_576).expect(&rt, "a game");
    let outcome = solved(&rt, rt.alloc(), &game, &FEW_JOBS, &Pass, &Standard);
    check_eq!(rt; outcome.entries.len(), 1);
    let first = outcome.report.first().map(|row| (row.posted, row.settled));
    check_eq!(rt; first, Some((1, 1_048_576)));
}

//! Workers that go on in random orders: what the report says of each is what the journal has of him.

use crate::tests::finders::Singles;
use crate::tests::games::{continents, gated_outcome, two_loops};
use crate::tests::gates::Turns;
use pg_board::Entry;
use pg_finders::{Finder, Standard};
use pg_test_support::{check, check_eq};
use pg_workers::{Outcome, ReportRow};
use std::alloc::Global;
use std::process::Abort;
use std::sync::Wait;
use std::thread::Threads;

/// How many orders of a game are run.
const ORDERS: u64 = 100;

/// The jobs of a game of at most 64 vertices.
const JOBS: u32 = 5;

/// How many entries a worker posted, and how many vertices they settled.
fn posted_by(entries: &[Entry], worker: u32) -> [u64; 2] {
    let (mut posted, mut settled) = (0u64, 0u64);
    for entry in entries {
        if entry.worker == worker {
            posted = posted.wrapping_add(1);
            settled = settled.wrapping_add(entry.rows.as_slice().len() as u64);
        }
    }
    [posted, settled]
}

/// The same by the worker's rows of the report.
fn reported_by(report: &[ReportRow], worker: u32) -> [u64; 2] {
    let (mut posted, mut settled) = (0u64, 0u64);
    for row in report {
        if row.worker == Some(worker) {
            posted = posted.wrapping_add(row.posted);
            settled = settled.wrapping_add(row.settled);
        }
    }
    [posted, settled]
}

/// Each worker's rows add up to what he posted, and no one else posted, except the calling thread.
fn check_workers(rt: &impl Abort, outcome: &Outcome, workers: u32) {
    let entries = outcome.entries.as_slice();
    let [by_caller, _] = posted_by(entries, 0);
    let mut posted = by_caller;
    for worker in 1..workers.saturating_add(1) {
        let [more, settled] = posted_by(entries, worker);
        let found = reported_by(outcome.report.as_slice(), worker);
        check_eq!(*rt; found, [more, settled], worker);
        posted = posted.wrapping_add(more);
    }
    check_eq!(*rt; entries.len() as u64, posted);
}

/// Two to four.
fn workers_of(seed: u64) -> u32 {
    2 + (seed % 3) as u32
}

/// A run of two to four workers in the order of a seed, whose report is compared with the journal.
fn run_in_turns<R: Threads + Wait + Abort + Sync>(
    rt: &R,
    alloc: Global,
    text: &[u8],
    seed: u64,
    finder: &impl Finder,
) -> Outcome {
    let workers = workers_of(seed);
    let gate = Turns::new(seed, workers, JOBS);
    let outcome = gated_outcome(rt, alloc, text, workers, &gate, finder);
    check_workers(rt, &outcome, workers);
    outcome
}

/// Of the claims of each job this many are refused, and all others are posted or stale.
fn check_answers(rt: &impl Abort, outcome: &Outcome, claims: u64, refused: u64) {
    for row in outcome.report.iter() {
        check_eq!(*rt; row.refused, refused, row.job);
        check!(*rt; !row.memory && !row.gave_up, row.job);
        let answered = row.posted.wrapping_add(row.stale).wrapping_add(row.refused);
        check_eq!(*rt; answered, claims, row.job);
    }
}

/// Of each job's four claims of a vertex alone two are good, and stale once they are posted; two have a bad closed walk.
#[test]
fn claims_are_answered_right_in_random_orders(rt: HostRuntime) {
    for seed in 0..ORDERS {
        let outcome = run_in_turns(&rt, rt.alloc(), two_loops(), seed, &Singles);
        check_answers(&rt, &outcome, 4, 2);
    }
}

/// Whether no claim of a run was refused.
fn check_none_refused(rt: &impl Abort, outcome: &Outcome) {
    for row in outcome.report.iter() {
        check_eq!(*rt; row.refused, 0, row.job);
        check!(*rt; !row.memory, row.job);
    }
}

/// The product's finder claims dominions of its copies, and no copy is too old for one of them: none is refused.
#[test]
fn the_products_finder_is_never_refused_in_random_orders(rt: HostRuntime) {
    for seed in 0..ORDERS {
        let outcome = run_in_turns(&rt, rt.alloc(), two_loops(), seed, &Standard);
        check_none_refused(&rt, &outcome);
        let outcome = run_in_turns(&rt, rt.alloc(), continents(), seed, &Standard);
        check_none_refused(&rt, &outcome);
    }
}

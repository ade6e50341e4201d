//! Workers run at once, whatever order they come in, and are given each job.

use crate::tests::finders::{NoMemory, Recorder, Watcher, answer};
use crate::tests::games::{gated_outcome, solved, two_loops};
use crate::tests::gates::{Alternating, Holder, Seen};
use pg_finders::{Copied, Finder, Found, Job, Standard};
use pg_game::Memory;
use pg_test_support::{EVEN, ODD, check, check_eq, own_loops};
use pg_workers::{Gate, Options, Pass};
use std::alloc::Global;
use std::process::Abort;
use std::sync::atomic::{AtomicU64, Ordering};
use std::sync::{OnceLock, Wait};
use std::thread::Threads;

const ONCE: &[u32] = &[1; 5];

/// No worker gave up, and each job was reported once before and once after its posts.
fn check_seen(rt: &impl Abort, seen: &Seen) {
    check!(*rt; !seen.gave_up);
    check_eq!(*rt; seen.found.as_slice(), ONCE);
    check_eq!(*rt; seen.posted.as_slice(), ONCE);
}

/// Two workers on the game of two winners, one of which is held. Each job is reported once before and once after its posts.
fn held_run<R: Threads + Wait + Abort + Sync>(
    rt: &R,
    alloc: Global,
    held: u32,
    finder: &impl Finder,
) {
    let gate = Holder::new(held);
    let outcome = gated_outcome(rt, alloc, two_loops(), 2, &gate, finder);
    check_eq!(*rt; outcome.report.len(), 5);
    check_seen(rt, &gate.seen.into_inner());
}

#[test]
fn workers_run_at_once_while_the_first_is_held(rt: HostRuntime) {
    held_run(&rt, rt.alloc(), 1, &Standard);
}

#[test]
fn workers_run_at_once_while_whoever_comes_first_is_held(rt: HostRuntime) {
    held_run(&rt, rt.alloc(), 0, &Standard);
}

#[test]
fn the_gate_is_called_for_each_job_where_finders_get_no_memory(rt: HostRuntime) {
    held_run(&rt, rt.alloc(), 0, &NoMemory);
}

/// While the worker of the first job is in the gate's `posted`, the other one copies the board: the first job's claims
/// are settled in that copy.
#[test]
fn the_gate_is_called_only_after_the_posts(rt: HostRuntime) {
    let gate = Alternating::new();
    let finder = Watcher {
        settled: OnceLock::new(),
    };
    let outcome = gated_outcome(&rt, rt.alloc(), two_loops(), 2, &gate, &finder);
    check_eq!(rt; outcome.report.len(), 5);
    check!(rt; !gate.progress.into_inner().gave_up);
    finder.compare_settled(&rt, 2);
}

/// Finds nothing, and counts the searches that have ended. As a gate it notes a report of a job whose search is not the last
/// of them.
#[derive(Drop)]
struct Steps {
    searched: AtomicU64,
    is_out_of_step: OnceLock<()>,
}

impl Finder for Steps {
    fn find(&self, alloc: Global, _copied: &Copied, _job: &Job) -> Result<Found, Memory> {
        self.searched.fetch_add(1, Ordering::SeqCst);
        answer(Vec::new(alloc), Ok(()))
    }
}

impl Gate for Steps {
    fn found<R: Wait>(&self, _rt: &R, _worker: u32, job: u64) {
        if self.searched.load(Ordering::SeqCst) != job.wrapping_add(1) {
            let _ = self.is_out_of_step.try_set(());
        }
    }

    fn posted<R: Wait>(&self, _rt: &R, _worker: u32, _job: u64) {}
}

/// One worker draws the jobs in order, so that as many searches have ended as jobs were drawn.
#[test]
fn the_gate_is_called_only_after_the_search(rt: HostRuntime) {
    let steps = Steps {
        searched: AtomicU64::new(0),
        is_out_of_step: OnceLock::new(),
    };
    let _outcome = gated_outcome(&rt, rt.alloc(), two_loops(), 1, &steps, &steps);
    check!(rt; steps.is_out_of_step.get().is_none());
    check_eq!(rt; steps.searched.into_inner(), 5);
}

/// It needs more than 32 bits.
const BUDGET: u64 = 12_000_000_000;

// A search for small dominions: a constant may call no function.
macro_rules! small {
    ($player:expr, $first:expr, $count:expr) => {
        Some(Job::Small {
            player: $player,
            first: $first,
            count: $count,
            bound: 7,
            budget: BUDGET,
        })
    };
}

/// The jobs of one worker on 65 vertices: two batches, the second of one vertex.
const JOBS: [Option<Job>; 8] = [
    Some(Job::Loops),
    Some(Job::Solitaire),
    small!(EVEN, 0, 64),
    small!(ODD, 0, 64),
    small!(EVEN, 64, 1),
    small!(ODD, 64, 1),
    Some(Job::Recursion),
    None,
];

fn compare_jobs(rt: &impl Abort, recorder: &Recorder) {
    check_eq!(*rt; recorder.jobs.len(), 8);
    for (job, want) in recorder.jobs.iter().zip(&JOBS) {
        check_eq!(*rt; job.get().copied(), *want);
    }
}

const ONE_WORKER: Options = Options {
    workers: 1,
    bound: 7,
    budget: BUDGET,
};

/// Has one worker's jobs on 65 vertices noted.
fn record<R: Threads + Wait + Abort + Sync>(rt: &R, alloc: Global, recorder: &Recorder) {
    let game = own_loops(alloc, 65).expect(rt, "a game");
    let outcome = solved(rt, alloc, &game, &ONE_WORKER, &Pass, recorder);
    check_eq!(*rt; outcome.report.len(), 7);
}

#[test]
fn a_worker_is_given_each_job_in_order(rt: HostRuntime) {
    let recorder = Recorder::with_places(rt.alloc(), 8).expect(&rt, "memory");
    record(&rt, rt.alloc(), &recorder);
    compare_jobs(&rt, &recorder);
}

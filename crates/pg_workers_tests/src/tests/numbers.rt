//! The jobs by their numbers.

ghost use Rattle.std.specs.Prelude.{◌≤◌};
ghost use Rattle.pg_game.specs.Specification.{max_vertices};

use pg_finders::Job;
use pg_test_support::{EVEN, ODD, check_eq};
use pg_workers::Options;
use std::process::Abort;

fn with_bound(bound: u32) -> Options
    requires { bound ≤ 8 }
{
    Options {
        workers: 1,
        bound,
        budget: 10_000,
    }
}

/// The job of a number, where there is one.
fn job_of(options: &Options, n: u32, number: u64) -> Option<Job>
    requires { n ≤ max_vertices }
{
    if number < options.total(n) {
        Some(options.job(n, number))
    } else {
        None
    }
}

/// A bound, how many vertices there are, and how many jobs.
const TOTALS: &[(u32, u32, u64)] = &[
    (4, 2, 5),
    (4, 65, 7),
    (4, 65_536, 2_051),
    (4, 130_944, 4_095),
    (4, 130_945, 2_051),
    (4, 1_048_576, 2_051),
    (0, 65, 3),
];

fn compare_total(rt: &impl Abort, bound: u32, n: u32, want: u64) {
    assert!(*rt; n <= 1_048_576 && bound <= 8);
    check_eq!(*rt; with_bound(bound).total(n), want, n);
}

#[test]
fn totals_are_those_of_the_batches(rt: HostRuntime) {
    for (bound, n, want) in TOTALS {
        compare_total(&rt, *bound, *n, *want);
    }
}

// A search for small dominions: a constant may call no function.
macro_rules! small {
    ($player:expr, $first:expr, $count:expr) => {
        Job::Small {
            player: $player,
            first: $first,
            count: $count,
            bound: 4,
            budget: 10_000,
        }
    };
}

/// A bound, how many vertices there are, the number of a job, and the job.
const JOBS: &[(u32, u32, u64, Job)] = &[
    (4, 65, 3, small!(ODD, 0, 64)),
    (4, 65, 4, small!(EVEN, 64, 1)),
    (4, 65, 6, Job::Recursion),
];

fn compare_job(rt: &impl Abort, bound: u32, n: u32, number: u64, want: Job) {
    assert!(*rt; n <= 1_048_576 && bound <= 8);
    check_eq!(*rt; job_of(&with_bound(bound), n, number), Some(want), n);
}

#[test]
fn jobs_have_their_numbers(rt: HostRuntime) {
    for (bound, n, number, want) in JOBS {
        compare_job(&rt, *bound, *n, *number, *want);
    }
}

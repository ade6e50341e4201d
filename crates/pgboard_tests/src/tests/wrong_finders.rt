//! Runs with a finder that claims what is wrong, with one that has no memory, and with one that keeps what it was asked for.
use super::asserting::made;
use super::calls::answered_on;
use super::devices::Bounded;
use super::finders::{FirstSolution, Misshapen, NoMemory, Recorder, Singles, Wholes};
use pg_finders::{Finder, Standard};
use pg_test_support::check_eq;
use pg_workers::Pass;
use std::alloc::Global;
use std::process::Abort;
use std::sync::Wait;
use std::sync::atomic::Ordering;
use std::thread::Threads;

/// Both players win a vertex: 0 wins its own loop, and 1 loses by its own.
const ONE_EACH: &[u8] = b"0 2 0 0,1; 1 1 1 1;";

/// Five vertices with names; Even wins them all.
const FIVE: &[u8] =
    b"parity 4; 0 6 1 4,2 \"Africa\"; 4 5 1 0 \"Antarctica\"; 1 8 1 2,4,3 \"America\"; 3 6 0 4,2 \"Australia\"; 2 7 0 3,1,0,4 \"Asia\";";

const FIVE_WON: &str = "paritysol 4;\n0 0;\n1 0;\n2 0;\n3 0;\n4 0;\n";

const BY_ONE: &[&str] = &["solve", "--winners", "--workers", "1"];

const BY_TWO: &[&str] = &["solve", "--winners", "--workers", "2"];

const BY_64: &[&str] = &["solve", "--winners", "--workers", "64"];

const TRACE: &[&str] = &["trace", "--workers", "1"];

/// What is asked for, the game, and what is written.
type Run = (&'static [&'static str], &'static [u8], &'static str);

/// The winners of the five vertices, by one, two and 64 workers.
const WON: &[Run] = &[
    (BY_ONE, FIVE, FIVE_WON),
    (BY_TWO, FIVE, FIVE_WON),
    (BY_64, FIVE, FIVE_WON),
];

/// Each vertex is claimed alone for each player: stale and refused posts are counted apart.
const ALONE: Run = (
    TRACE,
    ONE_EACH,
    "journal 2 2\nentry 0 1 0 1 1\n0 0;\nentry 1 1 1 1 1\n1 1;\nreport 5\n\
job 0 1 2 2 0 2 0 0\njob 1 1 0 0 2 2 0 0\njob 2 1 0 0 2 2 0 0\njob 3 1 0 0 2 2 0 0\njob 4 1 0 0 2 2 0 0\n\
total 2 2 8 10\n",
);

/// No job has memory, as is noted for each.
const OUT_OF_MEMORY: Run = (
    TRACE,
    ONE_EACH,
    "journal 2 2\nentry 0 0 0 1 1\n0 0;\nentry 1 0 1 1 1\n1 1;\nreport 5\n\
job 0 1 0 0 0 0 0 1\njob 1 1 0 0 0 0 0 1\njob 2 1 0 0 0 0 0 1\njob 3 1 0 0 0 0 0 1\njob 4 1 0 0 0 0 0 1\n\
total 0 0 0 0\n",
);

/// The product's finder. One of the first two jobs settles all of each game.
const STANDARD: &[Run] = &[
    (
        TRACE,
        b"9 2 1 3,3,9; 3 1 0 9;",
        "journal 1 2\nentry 0 1 0 2 2\n3 9;\n9;\nreport 5\n\
job 0 1 0 0 0 0 0 0\njob 1 1 1 2 0 0 0 0\njob 2 1 0 0 0 0 0 0\njob 3 1 0 0 0 0 0 0\njob 4 1 0 0 0 0 0 0\n\
total 1 2 0 0\n",
    ),
    (
        TRACE,
        b"0 0 0 0; 1 3 0 0,1; 2 3 1 1;",
        "journal 1 3\nentry 0 1 0 1 3\n0 0;\n1 0;\n2;\nreport 5\n\
job 0 1 1 3 0 0 0 0\njob 1 1 0 0 0 0 0 0\njob 2 1 0 0 0 0 0 0\njob 3 1 0 0 0 0 0 0\njob 4 1 0 0 0 0 0 0\n\
total 1 3 0 0\n",
    ),
];

/// Games with one solution, which is the output whatever finds it.
const SOLVED: &[(&[u8], &str)] = &[
    (b"parity 0;\n0 0 0 0;\n", "paritysol 0;\n0 0 0;\n"),
    (b"0 1 1 0;", "paritysol 0;\n0 1 0;\n"),
    (ONE_EACH, "paritysol 1;\n0 0 0;\n1 1 1;\n"),
    (
        b"0 0 0 0; 1 3 0 0,1; 2 3 1 1;",
        "paritysol 2;\n0 0 0;\n1 0 0;\n2 0;\n",
    ),
    (b"9 2 1 3,3,9; 3 1 0 9;", "paritysol 9;\n3 0 9;\n9 0;\n"),
    (
        b"2147483647 2147483647 1 2147483647;",
        "paritysol 2147483647;\n2147483647 1 2147483647;\n",
    ),
];

const SOLVE_BY: &[&[&str]] = &[
    &["solve", "--workers", "1"],
    &["solve", "--workers", "2"],
    &["solve", "--workers", "64"],
];

fn assert_written<R: Threads + Wait + Abort + Sync>(
    rt: &R,
    alloc: Global,
    run: &Run,
    finder: &impl Finder,
) {
    let (words, game, want) = *run;
    let mut out = Bounded::ample(alloc);
    let answer = answered_on(rt, alloc, words, game, &mut out, &Pass, finder);
    check_eq!(*rt; made(rt, answer), 0, words);
    check_eq!(*rt; out.taken.as_slice(), want.as_bytes(), words);
}

/// The winners of the five vertices, whatever the finder claims.
fn assert_won<R: Threads + Wait + Abort + Sync>(rt: &R, alloc: Global, finder: &impl Finder) {
    for run in WON {
        assert_written(rt, alloc, run, finder);
    }
}

fn assert_solved_by<R: Threads + Wait + Abort + Sync>(
    rt: &R,
    alloc: Global,
    words: &'static [&'static str],
) {
    for (game, want) in SOLVED {
        assert_written(rt, alloc, &(words, *game, *want), &Standard);
    }
}

#[test]
fn each_number_of_workers_writes_the_one_solution(rt: HostRuntime) {
    for words in SOLVE_BY {
        assert_solved_by(&rt, rt.alloc(), *words);
    }
    assert_won(&rt, rt.alloc(), &Standard);
}

#[test]
fn lying_finders_leave_the_winners_as_they_are(rt: HostRuntime) {
    assert_won(&rt, rt.alloc(), &Singles);
    assert_won(&rt, rt.alloc(), &NoMemory);
    assert_won(&rt, rt.alloc(), &Wholes);
    assert_won(&rt, rt.alloc(), &Misshapen);
    // (a new one for each run: in a second run it would have its solution already)
    for run in WON {
        assert_written(&rt, rt.alloc(), run, &FirstSolution::new());
    }
}

#[test]
fn what_is_written_whatever_is_claimed(rt: HostRuntime) {
    assert_written(&rt, rt.alloc(), &ALONE, &Singles);
    assert_written(&rt, rt.alloc(), &OUT_OF_MEMORY, &NoMemory);
    for run in STANDARD {
        assert_written(&rt, rt.alloc(), run, &Standard);
    }
}

/// What is asked for, and the bound of its searches for small dominions.
const BOUNDS: &[(&[&str], u64)] = &[
    (&["solve", "--bound", "7"], 7),
    (&["solve", "--bound=1"], 1),
    (&["solve"], 4),
    (&["trace"], 4),
];

fn assert_bound<R: Threads + Wait + Abort + Sync>(
    rt: &R,
    alloc: Global,
    words: &[&str],
    bound: u64,
) {
    let recorder = Recorder::new();
    let mut out = Bounded::ample(alloc);
    let answer = answered_on(rt, alloc, words, ONE_EACH, &mut out, &Pass, &recorder);
    check_eq!(*rt; made(rt, answer), 0, words);
    let found = (
        recorder.bound.load(Ordering::SeqCst),
        recorder.budget.load(Ordering::SeqCst),
    );
    check_eq!(*rt; found, (bound, 10_000), words);
}

#[test]
fn the_bound_and_the_budget_are_handed_on(rt: HostRuntime) {
    for (words, bound) in BOUNDS {
        assert_bound(&rt, rt.alloc(), words, *bound);
    }
}

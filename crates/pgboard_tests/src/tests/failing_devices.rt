//! Runs over sources and sinks that give and take little, or fail.
use super::asserting::made;
use super::calls::{answered, outcome};
use super::devices::{Bounded, Pieces};
use pg_finders::Standard;
use pg_test_support::check_eq;
use pg_workers::Pass;
use pgboard::RunFault;
use std::alloc::Global;
use std::process::Abort;
use std::sync::Wait;
use std::thread::Threads;

/// What a source has, how many bytes it gives at a time, and after how many reads it fails.
type Given = (&'static [u8], usize, u64);

const GAME_TEXT: &[u8] = b"0 2 0 0,1; 1 1 1 1;";

/// The game with what is no solution of it.
const JOINED_TEXT: &[u8] = b"0 2 0 0,1; 1 1 1 1; % 0 0 0; 1 0;";

const GAME: Given = (GAME_TEXT, usize::MAX, u64::MAX);

const JOINED: Given = (JOINED_TEXT, usize::MAX, u64::MAX);

const LINE: &[u8] = b"not a solution: bad cycle at 1\n";

/// Even wins all: 0 by its own loop, 1 by moving to 0, and 2 since Odd can only move from it to 1.
const LAYERS: Given = (b"0 0 0 0; 1 3 0 0,1; 2 3 1 1;", usize::MAX, u64::MAX);

/// Identifiers with gaps, in any order.
const GAPS: Given = (b"9 2 1 3,3,9; 3 1 0 9;", usize::MAX, u64::MAX);

/// A source that is not to be read, since it fails.
const UNREAD: Given = (b"0 0 0;", 2, 0);

/// How many bytes a sink takes at a time, and how many before it fails.
type Taking = (usize, usize);

const ALL: Taking = (usize::MAX, usize::MAX);

const FIVE: Taking = (usize::MAX, 5);

/// What is asked for, both sources and the sink; the status and the fault, what the sink has then, and how many reads of the second source
/// went well.
type Run = (
    &'static [&'static str],
    Given,
    Given,
    Taking,
    (u8, &'static str),
    &'static [u8],
    u64,
);

const READ: (u8, &str) = (4, "read fault");

const WRITE: (u8, &str) = (4, "write fault");

const VERIFY: &[&str] = &["verify", "a", "b"];

const KNOWN: &[&str] = &["solve", "--known", "a"];

const RUNS: &[Run] = &[
    // all bytes come, and go, one at a time
    (
        &[],
        (JOINED_TEXT, 1, u64::MAX),
        UNREAD,
        ALL,
        (1, ""),
        LINE,
        0,
    ),
    (&[], JOINED, UNREAD, (1, usize::MAX), (1, ""), LINE, 0),
    // the second read fails, or the one after the last byte
    (&[], (JOINED_TEXT, 10, 1), UNREAD, ALL, READ, b"", 0),
    (
        &["tidy"],
        (GAME_TEXT, usize::MAX, 1),
        UNREAD,
        ALL,
        READ,
        b"",
        0,
    ),
    // a read of the second source fails
    (VERIFY, GAME, (b"0 0 0;", 2, 1), ALL, READ, b"", 1),
    (KNOWN, LAYERS, (b"0 0 0;", 2, 2), ALL, READ, b"", 2),
    // the sink is full after five bytes
    (&["tidy"], GAPS, UNREAD, FIVE, WRITE, b"parit", 0),
    (&["solve"], GAME, UNREAD, FIVE, WRITE, b"parit", 0),
    (&["trace"], GAME, UNREAD, FIVE, WRITE, b"journ", 0),
];

/// What is answered to a run, whose second source and sink are given.
fn answer<R: Threads + Wait + Sync>(
    rt: &R,
    alloc: Global,
    run: &Run,
    second: &mut Pieces<'_>,
    out: &mut Bounded,
) -> Result<u8, RunFault> {
    let (bytes, size, good) = run.1;
    let mut input = Pieces::new(bytes, size, good);
    answered(rt, alloc, run.0, &mut input, second, out, &Pass, &Standard)
}

/// Compares the status and the fault.
fn compare_answer(rt: &impl Abort, alloc: Global, answer: Result<u8, RunFault>, run: &Run) {
    let (status, fault) = made(rt, outcome(alloc, answer));
    check_eq!(*rt; (status, fault.as_str()), run.4, run.0);
}

fn assert_run<R: Threads + Wait + Abort + Sync>(rt: &R, alloc: Global, run: &Run) {
    let (bytes, size, good) = run.2;
    let mut second = Pieces::new(bytes, size, good);
    let mut out = Bounded::new(alloc, run.3.0, run.3.1);
    compare_answer(
        rt,
        alloc,
        answer(rt, alloc, run, &mut second, &mut out),
        run,
    );
    check_eq!(*rt; (out.taken.as_slice(), second.reads), (run.5, run.6), run.0);
}

#[test]
fn what_little_or_failing_devices_give_and_take(rt: HostRuntime) {
    for run in RUNS {
        assert_run(&rt, rt.alloc(), run);
    }
}

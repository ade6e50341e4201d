//! Workers run at once through the program's runs: a gate holds one of them until another has posted.
use super::asserting::made;
use super::calls::answered_on;
use super::devices::Bounded;
use pg_finders::Standard;
use pg_test_support::{check, check_eq};
use pg_workers::Gate;
use std::alloc::Global;
use std::process::Abort;
use std::sync::{Mutex, Wait};
use std::thread::Threads;

/// How often a held worker looks for another worker's post before it gives up.
const LONG: u64 = 10_000_000;

/// The same where no one else is to post.
const SHORT: u64 = 100_000;

/// Both players win a vertex: 0 wins its own loop, and 1 loses by its own.
const ONE_EACH: &[u8] = b"0 2 0 0,1; 1 1 1 1;";

/// What a gate has seen.
#[derive(Drop)]
struct Seen {
    held: u32,
    is_holding: bool,
    others_posted: bool,
    gave_up: bool,
    found: [u32; 5],
    posted: [u32; 5],
}

/// Holds one worker at its first `found` until another worker's `posted` was seen, before it or since. Worker 0 means
/// whichever comes first.
#[derive(Drop)]
struct Holder {
    turns: u64,
    seen: Mutex<Seen>,
}

impl Holder {
    fn new(held: u32, turns: u64) -> Holder {
        Holder {
            turns,
            seen: Mutex::new(Seen {
                held,
                is_holding: false,
                others_posted: false,
                gave_up: false,
                found: [0; 5],
                posted: [0; 5],
            }),
        }
    }
}

/// Counts the call, and says whether this worker is to be held.
fn enters(seen: &mut Seen, worker: u32, job: u64) -> bool {
    if let Some(count) = seen.found.get_mut(job as usize) {
        *count = count.wrapping_add(1);
    }
    if seen.is_holding || (seen.held != 0 && seen.held != worker) {
        return false;
    }
    seen.is_holding = true;
    seen.held = worker;
    true
}

impl Gate for Holder {
    fn found<R: Wait>(&self, rt: &R, worker: u32, job: u64) {
        if !enters(&mut *self.seen.lock(rt), worker, job) {
            return;
        }
        for _ in 0..self.turns {
            if self.seen.lock(rt).others_posted {
                return;
            }
        }
        self.seen.lock(rt).gave_up = true;
    }

    fn posted<R: Wait>(&self, rt: &R, worker: u32, job: u64) {
        let mut guard = self.seen.lock(rt);
        let seen = &mut *guard;
        if let Some(count) = seen.posted.get_mut(job as usize) {
            *count = count.wrapping_add(1);
        }
        if seen.held != worker {
            seen.others_posted = true;
        }
    }
}

/// What is asked for, who is held, whether another worker works meanwhile, and with what the output begins.
type Run = (&'static [&'static str], u32, bool, &'static [u8]);

const WON: &[u8] = b"paritysol 1;\n0 0;\n1 1;\n";

const RUNS: &[Run] = &[
    (&["solve", "--winners", "--workers", "2"], 1, true, WON),
    (&["solve", "--winners", "--workers", "2"], 0, true, WON),
    (&["solve", "--winners", "--workers", "1"], 1, false, WON),
    (&["trace", "--workers", "2"], 1, true, b"journal 2 2\n"),
    (&["trace", "--workers", "2"], 0, true, b"journal 2 2\n"),
    (&["trace", "--workers", "1"], 1, false, b"journal 2 2\n"),
];

/// Each of the five jobs was found and posted once, and another worker than the one that was held has posted while it was,
/// or no one has.
fn assert_seen(rt: &impl Abort, seen: &Seen, at_once: bool) {
    check_eq!(*rt; (seen.others_posted, seen.gave_up), (at_once, !at_once));
    check_eq!(*rt; (seen.found, seen.posted), ([1; 5], [1; 5]));
}

/// What is answered with status 0 begins so.
fn assert_begins<R: Threads + Wait + Abort + Sync>(
    rt: &R,
    alloc: Global,
    words: &[&str],
    gate: &Holder,
    begins: &[u8],
) {
    let mut out = Bounded::ample(alloc);
    let answer = answered_on(rt, alloc, words, ONE_EACH, &mut out, gate, &Standard);
    check_eq!(*rt; made(rt, answer), 0, words);
    check!(*rt; out.taken.starts_with(begins), words);
}

fn assert_held<R: Threads + Wait + Abort + Sync>(rt: &R, alloc: Global, run: &Run) {
    let (words, held, at_once, begins) = *run;
    let gate = Holder::new(held, if at_once { LONG } else { SHORT });
    assert_begins(rt, alloc, words, &gate, begins);
    assert_seen(rt, &gate.seen.into_inner(), at_once);
}

#[test]
fn two_workers_work_at_once_and_one_is_alone(rt: HostRuntime) {
    for run in RUNS {
        assert_held(&rt, rt.alloc(), run);
    }
}

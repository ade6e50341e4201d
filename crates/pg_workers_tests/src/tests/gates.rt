//! Gates that hold workers, and count their calls.

use pg_test_support::{Random, bit, has};
use pg_workers::Gate;
use std::sync::{Condvar, Mutex, Wait};

/// How often a held worker looks whether it may continue before it gives up.
const TURNS: u64 = 10_000_000;

/// What a gate of two workers has seen.
#[derive(Drop)]
pub struct Seen {
    held: u32,
    is_holding: bool,
    has_posted: [bool; 3],
    pub gave_up: bool,
    pub found: [u32; 5],
    pub posted: [u32; 5],
}

/// Holds one of two workers at its first `found` until the other's `posted` was seen, before or since. Worker 0 means
/// whichever comes first.
#[derive(Drop)]
pub struct Holder {
    pub seen: Mutex<Seen>,
}

impl Holder {
    pub fn new(held: u32) -> Holder {
        Holder {
            seen: Mutex::new(Seen {
                held,
                is_holding: false,
                has_posted: [false; 3],
                gave_up: false,
                found: [0; 5],
                posted: [0; 5],
            }),
        }
    }
}

/// Counts the call, and says whether this worker is to be held.
fn enters(seen: &mut Seen, worker: u32, job: u64) -> bool {
    if let Some(count) = seen.found.get_mut(job as usize) {
        *count = count.wrapping_add(1);
    }
    if seen.is_holding || (seen.held != 0 && seen.held != worker) {
        return false;
    }
    seen.is_holding = true;
    true
}

/// Whether the other one of two workers has posted.
fn has_other_posted(seen: &Seen, worker: u32) -> bool {
    let [_, first, second] = seen.has_posted;
    if worker == 1 { second } else { first }
}

impl Gate for Holder {
    fn found<R: Wait>(&self, rt: &R, worker: u32, job: u64) {
        if !enters(&mut *self.seen.lock(rt), worker, job) {
            return;
        }
        for _ in 0..TURNS {
            if has_other_posted(&*self.seen.lock(rt), worker) {
                return;
            }
        }
        self.seen.lock(rt).gave_up = true;
    }

    fn posted<R: Wait>(&self, rt: &R, worker: u32, job: u64) {
        let mut guard = self.seen.lock(rt);
        let seen = &mut *guard;
        if let Some(count) = seen.posted.get_mut(job as usize) {
            *count = count.wrapping_add(1);
        }
        if let Some(has_posted) = seen.has_posted.get_mut(worker as usize) {
            *has_posted = true;
        }
    }
}

/// How far two workers have come.
#[derive(Drop)]
pub struct Progress {
    first_posted: bool,
    later_found: u32,
    pub gave_up: bool,
}

/// Holds the worker that reports the first job's posts until the other has had two more copies searched, and the
/// other before its first post until then.
#[derive(Drop)]
pub struct Alternating {
    pub progress: Mutex<Progress>,
}

impl Alternating {
    pub fn new() -> Alternating {
        Alternating {
            progress: Mutex::new(Progress {
                first_posted: false,
                later_found: 0,
                gave_up: false,
            }),
        }
    }
}

impl Gate for Alternating {
    fn found<R: Wait>(&self, rt: &R, _worker: u32, job: u64) {
        if job == 0 {
            return;
        }
        let later = self.progress.lock(rt).later_found;
        self.progress.lock(rt).later_found = later.wrapping_add(1);
        for _ in 0..TURNS {
            if self.progress.lock(rt).first_posted {
                return;
            }
        }
        self.progress.lock(rt).gave_up = true;
    }

    fn posted<R: Wait>(&self, rt: &R, _worker: u32, job: u64) {
        if job != 0 {
            return;
        }
        self.progress.lock(rt).first_posted = true;
        for _ in 0..TURNS {
            if self.progress.lock(rt).later_found >= 2 {
                return;
            }
        }
        self.progress.lock(rt).gave_up = true;
    }
}

/// Who is held in a call, how many workers are in none, and how many jobs are still to be reported.
#[derive(Drop)]
struct Turn {
    random: Random,
    workers: u32,
    in_found: u32,
    in_posted: u32,
    under_way: u32,
    jobs_left: u32,
}

impl Turn {
    /// A worker comes, and another continues if none is under way.
    fn come(&mut self, worker: u32, is_posted: bool) {
        if is_posted {
            self.in_posted |= bit(worker);
        } else {
            self.in_found |= bit(worker);
            self.jobs_left = self.jobs_left.wrapping_sub(1);
        }
        if self.jobs_left == 0 {
            // they draw no more and make no further call
            self.in_posted = 0;
        }
        self.under_way = self.under_way.wrapping_sub(1);
        if self.under_way == 0 {
            self.go_on();
        }
    }

    /// One of those that are held continues.
    fn go_on(&mut self) {
        let worker = self.next();
        self.in_found &= !bit(worker);
        self.in_posted &= !bit(worker);
        self.under_way = 1;
    }

    /// Draws one of those that are held, or returns 0.
    fn next(&mut self) -> u32 {
        let from = self.random.below(self.workers);
        for step in 0..self.workers {
            let worker = (from.wrapping_add(step) % self.workers.max(1)).wrapping_add(1);
            if has(self.in_found | self.in_posted, worker) {
                return worker;
            }
        }
        0
    }
}

/// One worker continues at a time. Once all are held a seed draws who is next, so it alone makes the order, whatever else
/// the machine has to do. Each worker has to start, and there have to be as many jobs.
#[derive(Drop)]
pub struct Turns {
    turn: Mutex<Turn>,
    change: Condvar,
}

impl Turns {
    pub fn new(seed: u64, workers: u32, jobs: u32) -> Turns {
        Turns {
            turn: Mutex::new(Turn {
                random: Random::new(seed),
                workers,
                in_found: 0,
                in_posted: 0,
                under_way: workers,
                jobs_left: jobs,
            }),
            change: Condvar::new(),
        }
    }

    /// Waits for the worker's turn.
    fn pass<R: Wait>(&self, rt: &R, worker: u32, is_posted: bool) {
        let mut turn = self.turn.lock(rt);
        turn.come(worker, is_posted);
        self.change.notify_all();
        drop(
            self.change.wait_while(rt, turn, |turn| {
                has(turn.in_found | turn.in_posted, worker)
            }),
        );
    }
}

impl Gate for Turns {
    fn found<R: Wait>(&self, rt: &R, worker: u32, _job: u64) {
        self.pass(rt, worker, false);
    }

    fn posted<R: Wait>(&self, rt: &R, worker: u32, _job: u64) {
        self.pass(rt, worker, true);
    }
}

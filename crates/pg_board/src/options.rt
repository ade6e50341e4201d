//! The jobs of a solve, by their numbers: the searches of the standard finder, and the recursion last.

ghost use Rattle.std.specs.Prelude.{◌≡◌, ◌+◌, ◌*◌, ◌==◌, ◌≤◌, ◌<◌, if◌then◌else◌};
ghost use Rattle.pg_game.specs.Specification.{max_vertices};
ghost use Rattle.pg_board.specs.Work.{total_of, job_of, batch_of, batches_of, IsBatchSize};

use pg_finders::Job;
use pg_game::Player;

/// The most choices that a search for a small dominion tries, in the program and in the calling thread.
pub const BUDGET: u64 = 10_000;

/// Options for solving a game.
///
/// `workers`: how many draw the jobs, 1 to 64; the jobs depend on the other two alone. `bound`: the most vertices of a small
/// dominion, 0 to 8; 0 for no search. `budget`: the most choices that one search for small dominions tries.
#[derive(Clone, Copy, Debug, Drop)]
pub struct Options {
    pub workers: u32,
    pub bound: u32,
    pub budget: u64,
    ghost in_range: { (1 ≤ workers) × (workers ≤ 64) × (bound ≤ 8) },
}

impl Options {
    /// The number of jobs for this many vertices.
    pub fn total(&self, n: u32) -> u64
        requires { n ≤ max_vertices }
        ensures number { result ≡ total_of self.now.bound n }
        ensures few { result ≤ 4096 }
        ensures batches { IsBatchSize n (batch_of n) × (result ≡ (if self.now.bound == 0 then 3 else 3 + 2 * batches_of (batch_of n) n)) }
    {
        let size = batch_of(n);
        if self.bound == 0 {
            return OTHER_JOBS;
        }
        OTHER_JOBS + 2 * batch_count(n, size)
    }

    /// The job of this number, for this many vertices.
    pub fn job(&self, n: u32, number: u64) -> Job
        requires vertices { n ≤ max_vertices }
        requires number { number < total_of self.now.bound n }
        ensures { result ≡ job_of self.now.bound self.now.budget n number }
    {
        let total = self.total(n);
        if number == 0 {
            return Job::Loops;
        }
        if number == 1 {
            return Job::Solitaire;
        }
        if number + 1 == total {
            return Job::Recursion;
        }
        let size = batch_of(n);
        let first = size * ((number - 2) / 2);
        Job::Small {
            player: if number % 2 == 0 {
                Player::Even
            } else {
                Player::Odd
            },
            first: first as u32,
            count: (n as u64 - first).min(size) as u32,
            bound: self.bound,
            budget: self.budget,
        }
    }
}

/// The number of vertices of a batch: the least of 64, 128, 256 and so on with at most 2,046 batches.
fn batch_of(n: u32) -> u64
    requires { n ≤ max_vertices }
    ensures size { result ≡ batch_of n }
    ensures some { 64 ≤ result }
    ensures least { IsBatchSize n result }
{
    let mut size = 64u64;
    while batch_count(n, size) > MAX_BATCHES {
        size *= 2;
    }
    size
}

/// The number of batches of this size, the last one perhaps smaller.
#[tactic(auto, using(crate::proofs::options::Batches::rounded_up))]
fn batch_count(n: u32, size: u64) -> u64
    requires { 0 < size }
    ensures { result ≡ batches_of size n }
{
    (n as u64).div_ceil(size)
}

/// The greatest number of batches, so that a game has at most 4,096 jobs.
const MAX_BATCHES: u64 = 2_046;

/// The jobs that are no search for small dominions: loops, the solitaire case and the recursion.
const OTHER_JOBS: u64 = 3;

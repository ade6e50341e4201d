//! Workers search at once where the gate holds none of them.

use crate::tests::finders::answer;
use crate::tests::games::run_on;
use pg_finders::{Copied, Finder, Found, Job};
use pg_game::Memory;
use pg_test_support::{check_eq, own_loops};
use pg_workers::Pass;
use std::alloc::Global;
use std::sync::OnceLock;
use std::thread;

/// Enough vertices for some batches.
const VERTICES: u32 = 1_024;

/// How often a worker looks whether another has come.
const TURNS: u32 = 10_000_000;

/// Claims nothing, and keeps the first search for a small dominion from ending until another one begins. Notes whether one
/// did.
#[derive(Drop)]
struct Meeting {
    first: OnceLock<()>,
    second: OnceLock<()>,
    met: OnceLock<bool>,
}

impl Meeting {
    fn new() -> Meeting {
        Meeting {
            first: OnceLock::new(),
            second: OnceLock::new(),
            met: OnceLock::new(),
        }
    }

    /// Whether another search begins within this many turns.
    fn waits(&self) -> bool {
        for _ in 0..TURNS {
            if self.second.get().is_some() {
                return true;
            }
            thread::yield_now();
        }
        false
    }

    /// A search begins.
    fn begin(&self) {
        if self.first.try_set(()).is_ok() {
            let _ = self.met.try_set(self.waits());
        } else {
            let _ = self.second.try_set(());
        }
    }
}

impl Finder for Meeting {
    fn find(&self, alloc: Global, _copied: &Copied, job: &Job) -> Result<Found, Memory> {
        if matches!(job, Job::Small { .. }) {
            self.begin();
        }
        answer(Vec::new(alloc), Ok(()))
    }
}

#[test]
fn workers_search_at_once_where_the_gate_lets_them_pass(rt: HostRuntime) {
    let game = own_loops(rt.alloc(), VERTICES).expect(&rt, "a game");
    let finder = Meeting::new();
    let _outcome = run_on(&rt, rt.alloc(), &game, 2, &Pass, &finder);
    check_eq!(rt; finder.met.get().copied(), Some(true));
}

//! The workers of a run on threads of their own: the calling thread makes them, lends each to a thread, and takes them apart after
//! all threads have ended.

ghost use Rattle.std.specs.Prelude.{◌≡◌, ◌≤◌, [], All, IfOk, map, replicate, vec_len};
ghost use Rattle.std.specs.List.{range_with_len};
ghost use Rattle.std.specs.Vec.{vec_capacity};
ghost use Rattle.pg_workers.specs.Report.{IsDrawnRow, settled_in};
ghost use Rattle.pg_workers.specs.Tickets.{fresh};

use crate::jobs::Ticket;
use crate::report::ReportRow;
use crate::worker::{Gate, RunJobs, Task, Worker};
use pg_board::{Opening, Share};
use pg_finders::Finder;
use pg_game::Memory;
use std::alloc::Global;
use std::marker::PhantomData;
use std::slice::IterMut;
use std::sync::Wait;
use std::thread;
use std::thread::{Scope, Threads};

/// A worker for each pair of a share and a ticket, numbered from 1, with capacity for a row for each job.
pub(crate) fn new_workers<L: Opening, J: RunJobs>(
    alloc: Global,
    total: u64,
    mut shares: Vec<Share<L>>,
    mut tickets: Vec<Ticket>,
) -> Result<Vec<Worker<L, J>>, Memory>
    requires total { (total ≡ J.series.total) × (total ≤ 4096) }
    requires shares { shares.items ≡ replicate (vec_len shares) 0 }
    requires workers { (vec_len shares ≡ J.workers) × (J.workers ≤ 64) }
    requires tickets { tickets.items ≡ replicate (vec_len shares) (fresh J.series) }
    ensures length { IfOk result (λ v. vec_len v ≡ vec_len shares) }
    ensures numbers { IfOk result (λ v. map (λ w. w.number) v.items ≡ range_with_len 1 (vec_len shares)) }
{
    let mut workers = Vec::with_capacity(alloc, shares.len())?;
    while let Some(share) = shares.pop() {
        let Some(ticket) = tickets.pop() else {
            unreachable!()
        };
        let rows = Vec::with_capacity(alloc, total as usize)?;
        let number = workers.len() as u32 + 1;
        workers.push_reserved(Worker {
            number,
            share,
            ticket,
            rows,
            of_run: PhantomData,
        });
    }
    Ok(workers)
}

/// Lends each worker to a thread of its own, and returns after all have ended.
pub(crate) fn start_all<
    'x,
    'g,
    L: Opening + Send + Sync,
    J: RunJobs + Send + Sync,
    G: Gate,
    F: Finder,
    R: Threads + Wait + Sync,
>(task: &'x Task<'x, 'g, L, J, G, F, R>, mut workers: Vec<Worker<L, J>>) -> Vec<Worker<L, J>>
    ensures { vec_len result ≡ vec_len workers }
{
    let lent = workers.iter_mut();
    thread::scope(thread::scope_env(), task.setup.rt, move |scope| {
        start_each(scope, task, lent);
    });
    workers
}

/// Shares, tickets and rows of all workers, in lists with enough capacity.
pub(crate) fn take_apart<L: Opening, J: RunJobs>(
    mut workers: Vec<Worker<L, J>>,
    mut shares: Vec<Share<L>>,
    mut tickets: Vec<Ticket>,
    mut rows: Vec<Vec<ReportRow>>,
) -> (Vec<Share<L>>, Vec<Ticket>, Vec<Vec<ReportRow>>)
    requires empty { (shares.items ≡ []) × (tickets.items ≡ []) × (rows.items ≡ []) }
    requires spare { (vec_len workers ≤ vec_capacity shares) × (vec_len workers ≤ vec_capacity tickets) × (vec_len workers ≤ vec_capacity rows) }
    ensures shares { vec_len result.0 ≡ vec_len workers }
    ensures spare { vec_capacity result.0 ≡ vec_capacity shares }
    ensures tickets { (vec_len result.1 ≡ vec_len workers) × All (λ t. t.series ≡ J.series) result.1.items }
    ensures amounts { map (λ rows. settled_in rows.items) result.2.items ≡ result.0.items }
    ensures numbers { map (λ rows. map (λ r. r.job) rows.items) result.2.items ≡ map (λ t. t.numbers) result.1.items }
    ensures done { All (λ rows. All (IsDrawnRow J.workers) rows.items) result.2.items }
{
    while let Some(worker) = workers.pop() {
        let Worker {
            number: _,
            share,
            ticket,
            rows: done,
            of_run: _,
        } = worker;
        shares.push_reserved(share);
        tickets.push_reserved(ticket);
        rows.push_reserved(done);
    }
    (shares, tickets, rows)
}

/// Starts each worker on a thread of the scope. One that cannot start is left as it is.
fn start_each<
    's,
    'x: 's,
    'g,
    E,
    L: Opening + Send + Sync,
    J: RunJobs + Send + Sync,
    G: Gate,
    F: Finder,
    R: Threads + Wait + Sync,
>(scope: &Scope<'s, E>, task: &'x Task<'x, 'g, L, J, G, F, R>, workers: IterMut<'x, Worker<L, J>>) {
    for worker in workers {
        let _ = scope.spawn(move || worker.work(task));
    }
}

//! A worker draws a job, searches for dominions on a copy of the board's unsettled part, checks each claim without the lock and
//! settles the checked claims. It counts the answers in the job's row, and draws again until no job is left.

ghost use Rattle.std.specs.Prelude.{◌≡◌, ◌+◌, ◌^◌, ◌≤◌, ◌<◌, ℕ, All, true, false, IfOk, IsFalse, Some, length, map};
ghost use Rattle.std.specs.Vec.{vec_capacity};
ghost use Rattle.pg_board.specs.Office.{IsRaised};
ghost use Rattle.pg_board.specs.Work.{total_of};
ghost use Rattle.pg_workers.specs.Report.{IsDrawnRow, settled_in};
ghost use Rattle.pg_workers.specs.private.Report.{AreCounted, IsClaimAnswer, IsWorkersRow, answered};

use crate::jobs::{Jobs, Ticket};
use crate::known::KnownOf;
use crate::report::ReportRow;
use pg_board::{Office, Opening, Options, Refusal, Share};
use pg_dominion::{Claim, check_claim};
use pg_finders::{Finder, Found};
use pg_game::{Game, Memory};
use std::alloc::{AllocError, Global};
use std::marker::{Brand, PhantomData};
use std::sync::Wait;

/// A worker calls it for each job before it posts the claims, and after. No contract promises anything of it.
pub trait Gate: Sync {
    /// The worker's search has ended, also after refused memory; next it posts the claims.
    fn found<R: Wait>(&self, rt: &R, worker: u32, job: u64);

    /// The worker has posted all claims of the job.
    fn posted<R: Wait>(&self, rt: &R, worker: u32, job: u64);
}

/// A gate that does nothing.
pub struct Pass;

impl Gate for Pass {
    fn found<R: Wait>(&self, _rt: &R, _worker: u32, _job: u64) {}

    fn posted<R: Wait>(&self, _rt: &R, _worker: u32, _job: u64) {}
}

/// The jobs of a run and its number of workers, in the types of what its workers have. Each call chooses them.
pub(crate) trait RunJobs {
    ghost use Rattle.std.specs.Prelude.{ℕ};
    ghost use Rattle.pg_workers.specs.Tickets.{Series};

    ghost series: { Series };

    ghost workers: { ℕ };
}

impl RunJobs for Brand {
    ghost use Rattle.pg_workers.specs.private.Drawing.{no_series};

    ghost series = { no_series };

    ghost workers = { 0 };
}

/// How a run goes: its handle and allocator, its options, the game and what is known of it, and what its workers call.
#[derive(Drop)]
pub(crate) struct Setup<'x, G, F, R> {
    pub rt: &'x R,
    pub alloc: Global,
    pub options: &'x Options,
    pub start: &'x KnownOf<'x>,
    pub gate: &'x G,
    pub finder: &'x F,
}

/// What all workers of a run share.
#[derive(Drop)]
pub(crate) struct Task<'x, 'g, L: Opening, J: RunJobs, G, F, R> {
    pub setup: &'x Setup<'x, G, F, R>,
    pub office: &'x Office<'g, L>,
    pub jobs: &'x Jobs,
    pub of_run: PhantomData<J>,
    ghost drawn_from: { jobs.now.series ≡ J.series },
    ghost total: { J.series.total ≡ total_of setup.now.options.now.bound (length setup.now.start.now.game.now) },
}

/// What one worker has. The calling thread lends it to the worker's thread; afterwards only this type says what it is.
#[derive(Drop)]
pub(crate) struct Worker<L: Opening, J: RunJobs> {
    pub number: u32,
    pub share: Share<L>,
    pub ticket: Ticket,
    pub rows: Vec<ReportRow>,
    pub of_run: PhantomData<J>,
    ghost numbered: { (1 ≤ number) × (number ≤ J.workers) },
    ghost of_jobs: { ticket.series ≡ J.series },
    ghost settled: { share ≡ settled_in rows.items },
    ghost numbers: { map (λ r. r.job) rows.items ≡ ticket.numbers },
    ghost done: { All (IsDrawnRow J.workers) rows.items },
    ghost own: { All (λ r. r.worker ≡ Some number) rows.items },
    ghost spare: { J.series.total ≤ vec_capacity rows },
}

impl<L: Opening, J: RunJobs> Worker<L, J> {
    /// A worker's whole run: it ends once a draw has found no job left.
    pub(crate) fn work<G: Gate, F: Finder, R: Wait>(&mut self, task: &Task<'_, '_, L, J, G, F, R>)
        ensures { self.new.ticket.told_none ≡ true }
    {
        for _ in task.setup.rt.forever() {
            if !self.turn(task) {
                return;
            }
        }
        unreachable!()
    }

    /// Draws a number and does its job, unless no job is left. Returns whether one was.
    fn turn<G: Gate, F: Finder, R: Wait>(&mut self, task: &Task<'_, '_, L, J, G, F, R>) -> bool
        ensures { IsFalse result → self.new.ticket.told_none ≡ true }
    {
        let Worker {
            number,
            share,
            ticket,
            rows,
            of_run: _,
        } = self;
        let Some(job) = task.jobs.draw(ticket) else {
            return false;
        };
        let row = task.do_job(share, *number, job);
        rows.push_reserved(row);
        true
    }
}

impl<'x, 'g, L: Opening, J: RunJobs, G: Gate, F: Finder, R: Wait> Task<'x, 'g, L, J, G, F, R> {
    /// Does one job and returns its row. The share's amount rises by the number settled.
    fn do_job(&self, share: &mut Share<L>, worker: u32, number: u64) -> ReportRow
        requires { number < J.series.total }
        ensures row { IsWorkersRow number worker result }
        ensures settled { share.new ≡ share.old + result.settled }
    {
        let setup = self.setup;
        let found = self.search_copy(share, number);
        setup.gate.found(setup.rt, worker, number);
        let row = self.settle_found(share, worker, number, found);
        setup.gate.posted(setup.rt, worker, number);
        row
    }

    /// The result of the search for the job of this number on a copy, and the copy's game, which is the office's.
    fn search_copy(&self, share: &Share<L>, number: u64) -> Result<(Found, &'g Game), Memory>
        requires { number < J.series.total }
        ensures { IfOk result (λ r. r.1.now ≡ L.opened.graph) }
    {
        let setup = self.setup;
        let job = setup.options.job(setup.start.game.len(), number);
        let copied = self.office.copy(setup.rt, setup.alloc, share)?;
        let found = setup.finder.find(setup.alloc, &copied, &job)?;
        Ok((found, copied.inside.game()))
    }

    /// Settles the claims of a job's search, and returns the job's row. The share's amount rises by the number settled.
    fn settle_found(
        &self,
        share: &mut Share<L>,
        worker: u32,
        number: u64,
        found: Result<(Found, &Game), Memory>,
    ) -> ReportRow
        ensures row { IsWorkersRow number worker result }
        ensures settled { share.new ≡ share.old + result.settled }
        ensures answered { IfOk found.entry (λ f. result.memory ≡ false → answered result ≡ length f.0.claims.items) }
    {
        let mut row = ReportRow::blank(number);
        row.worker = Some(worker);
        match found {
            Ok((Found { claims, gave_up }, game)) => {
                row.gave_up = gave_up;
                self.settle_all(share, worker, game, claims, &mut row);
            }
            Err(AllocError) => row.memory = true,
        }
        row
    }

    /// Checks and settles all claims in order, and counts the results. Every claim counts as posted, stale or refused, unless
    /// memory was refused.
    fn settle_all(
        &self,
        share: &mut Share<L>,
        worker: u32,
        game: &Game,
        claims: Vec<Claim>,
        row: &mut ReportRow,
    )
        requires share { row.old.settled ≤ share.old }
        requires spare { answered row.old + length claims.items < 2 ^ 64 }
        ensures { AreCounted (length claims.items) row.old row.new share.old share.new }
    {
        for claim in claims {
            let answer = self.settle_claim(share, worker, game, &claim);
            row.note(answer);
        }
    }

    /// Checks a claim on the game without the lock, and settles it.
    fn settle_claim(
        &self,
        share: &mut Share<L>,
        worker: u32,
        game: &Game,
        claim: &Claim,
    ) -> Result<u32, Refusal>
        ensures answer { IsClaimAnswer L.opened share.old worker game.now claim.now result }
        ensures raised { IsRaised share.old share.new result }
    {
        let Setup { rt, alloc, .. } = self.setup;
        let checked = check_claim(*alloc, game, claim)?;
        self.office.settle(*rt, *alloc, share, worker, &checked)
    }
}

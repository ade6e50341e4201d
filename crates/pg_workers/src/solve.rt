//! A run: the calling thread posts what is known, workers on threads of their own share out the jobs over one office, and then the
//! calling thread solves what is still unsettled.

ghost use Rattle.std.specs.Prelude.{◌≡◌, ◌+◌, ◌≤◌, ℕ, IfOk, IfErr, length, replicate, vec_len};
ghost use Rattle.pg_text.specs.Known.{KnownRows};
ghost use Rattle.pg_workers.specs.Outcomes.{IsOutcome};
ghost use Rattle.pg_board.specs.Journal.{number_settled, state_of, BeginsWith};
ghost use Rattle.pg_workers.specs.KnownRegions.{IsSolveFault, KeepsKnown};
ghost use Rattle.pg_workers.specs.private.KnownPosts.{HasKnown, HasSettled};
ghost use Rattle.pg_workers.specs.Report.{IsInOrder, IsReport, settled_in};
ghost use Rattle.pg_workers.specs.Tickets.{fresh};
ghost use Rattle.pg_board.specs.Work.{total_of};

use crate::jobs::{Jobs, Ticket};
use crate::known::{KnownOf, SolveFault, board_with};
use crate::report::{ReportRow, blank_report, with_no_posts, with_rows};
use crate::threads::{new_workers, start_all, take_apart};
use crate::worker::{Gate, RunJobs, Setup, Task};
use pg_board::{Board, Entry, Office, Opening, Options, Share};
use pg_finders::Finder;
use pg_game::{Game, Memory};
use pg_text::{Known, Solution};
use std::alloc::Global;
use std::marker::{Brand, PhantomData};
use std::sync::Wait;
use std::sync::ledger::Blank;
use std::thread::Threads;

/// The outcome of a run: a solution of the game, the journal that led to it, and the results of each job.
#[derive(Drop)]
pub struct Outcome {
    pub solution: Solution,
    pub entries: Vec<Entry>,
    pub report: Vec<ReportRow>,
}

/// Solves a game by 1 to 64 workers, each on a thread of its own, and then solves what they left unsettled. If a worker cannot start, the run
/// goes on without it. Before any worker starts, the call posts what is known as worker 0: Even's set and then Odd's, unless
/// empty. Of a vertex after the last known row nothing is known.
///
/// The error is `Known` with the refusal of its post if a known set is no region, or `Memory`. For every number of workers,
/// gate and finder the entries are a lawful journal of the game, the solution is their state, what is known keeps its winners,
/// and the choices of those who own the vertices, and the report has a row for each job, in order.
pub fn solve_game<R: Threads + Wait + Sync>(
    rt: &R,
    alloc: Global,
    game: &Game,
    options: &Options,
    known: &Known,
    gate: &impl Gate,
    finder: &impl Finder,
) -> Result<Outcome, SolveFault>
    requires known { length known.now.rows ≤ length game.now }
    ensures outcome { IfOk result (λ o. IsOutcome game.now known.now.rows (total_of options.now.bound (length game.now)) options.now.workers o) }
    ensures fault { IfErr result (λ e. IsSolveFault game.now known.now.rows e) }
{
    let start = KnownOf { game, known };
    let board = board_with(alloc, &start)?;
    let blank = Blank::new(u64::from(options.workers) + 1);
    let setup = Setup {
        rt,
        alloc,
        options,
        start: &start,
        gate,
        finder,
    };
    solve_on::<Brand, _, _, R>(&setup, board, blank)
}

/// A run over an office of a board with what is known, with a ledger made of this blank. The only error is `Memory`.
fn solve_on<L: Opening + Send + Sync, G: Gate, F: Finder, R: Threads + Wait + Sync>(
    setup: &Setup<'_, G, F, R>,
    board: Board<'_>,
    blank: Blank,
) -> Result<Outcome, SolveFault>
    requires name { blank.name ≡ L.name }
    requires parts { (blank.parts ≡ L.parts) × (blank.parts ≡ setup.now.options.now.workers + 1) }
    requires opened { board ≡ L.opened }
    requires game { board.graph ≡ setup.now.start.now.game.now }
    requires known { HasKnown setup.now.start.now.game.now setup.now.start.now.known.now.rows board.journal }
    ensures outcome { IfOk result (λ o. IsOutcome setup.now.start.now.game.now setup.now.start.now.known.now.rows
        (total_of setup.now.options.now.bound (length setup.now.start.now.game.now)) setup.now.options.now.workers o) }
    ensures fault { IfErr result (λ e. IsSolveFault setup.now.start.now.game.now setup.now.start.now.known.now.rows e) }
{
    let alloc = setup.alloc;
    let workers = setup.options.workers;
    let (office, mut shares) = Office::<L>::open_with(alloc, blank, board, workers + 1)?;
    let first = shares.remove(0);
    let total = setup.options.total(setup.start.game.len());
    let (jobs, tickets) = Jobs::open(alloc, total, workers)?;
    let (closed, report) = run_workers::<L, Brand, G, F, R>(
        setup, office, first, shares, jobs, tickets,
    )?;
    let (own, report) = on_own_game(alloc, setup.start, closed, report)?;
    Ok(outcome_of(alloc, own, report)?)
}

/// The workers' part, on a new office and new jobs: the closed board, and the results of each job. The first share is no
/// worker's.
fn run_workers<
    'g,
    L: Opening + Send + Sync,
    J: RunJobs + Send + Sync,
    G: Gate,
    F: Finder,
    R: Threads + Wait + Sync,
>(
    setup: &Setup<'_, G, F, R>,
    office: Office<'g, L>,
    first: Share<L>,
    shares: Vec<Share<L>>,
    jobs: Jobs,
    tickets: Vec<Ticket>,
) -> Result<(Board<'g>, Vec<ReportRow>), Memory>
    requires total { (J.series.total ≤ 4096) × (J.series.total ≡ total_of setup.now.options.now.bound (length setup.now.start.now.game.now)) }
    requires shares { (shares.items ≡ replicate (vec_len shares) 0) × (vec_len shares + 1 ≡ L.parts) }
    requires jobs { (jobs.series ≡ J.series) × (jobs.seats ≡ vec_len shares) }
    requires workers { (vec_len shares ≡ J.workers) × (1 ≤ J.workers) × (J.workers ≤ 64) }
    requires tickets { tickets.items ≡ replicate (vec_len shares) (fresh J.series) }
    ensures board { IfOk result (λ r. (r.0.graph ≡ L.opened.graph) × BeginsWith L.opened.journal r.0.journal) }
    ensures order { IfOk result (λ r. IsInOrder J.series.total r.1.items) }
    ensures rows { IfOk result (λ r. IsReport J.workers r.1.items) }
    ensures settled { IfOk result (λ r. settled_in r.1.items + first ≡ number_settled r.0.journal) }
{
    let alloc = setup.alloc;
    let total = setup.options.total(setup.start.game.len());
    let seats = shares.len();
    let shares_back = Vec::with_capacity(alloc, seats + 1)?;
    let tickets_back = Vec::with_capacity(alloc, seats)?;
    let rows_back = Vec::with_capacity(alloc, seats)?;
    let report = blank_report(alloc, total)?;
    let workers = new_workers::<L, J>(alloc, total, shares, tickets)?;
    let task = Task {
        setup,
        office: &office,
        jobs: &jobs,
        of_run: PhantomData,
    };
    let workers = start_all(&task, workers);
    let (mut shares, tickets, rows) = take_apart(workers, shares_back, tickets_back, rows_back);
    drop(jobs.close(tickets));
    shares.push_reserved(first);
    let board = office.close(shares);
    Ok((board, with_rows(report, rows.as_slice())))
}

/// The closed board and its report if the board is of the game of the run, as it is by the contract of `Office::close`. Otherwise a
/// new board with what is known, and the report without posts.
fn on_own_game<'g>(
    alloc: Global,
    of: &KnownOf<'g>,
    board: Board<'g>,
    report: Vec<ReportRow>,
) -> Result<(Board<'g>, Vec<ReportRow>), SolveFault>
    requires { board.graph ≡ of.now.game.now }
    ensures same { IfOk result (λ r. (r.0 ≡ board.entry) × (r.1.items ≡ report.items)) }
    ensures fault { IfErr result (λ e. IsSolveFault of.now.game.now of.now.known.now.rows e) }
{
    if *board.game() == *of.game {
        return Ok((board, report));
    }
    let board = board_with(alloc, of)?;
    Ok((board, with_no_posts(report)))
}

/// The solution and the entries of a full board.
fn outcome_of(
    alloc: Global,
    mut board: Board<'_>,
    report: Vec<ReportRow>,
) -> Result<Outcome, Memory>
    ensures { (known : KnownRows) (total workers : ℕ) → HasSettled board.entry.graph known report.items board.entry.journal
        → KeepsKnown board.entry.graph known (state_of board.entry.journal)
        → IsInOrder total report.items → IsReport workers report.items → IfOk result (λ o. IsOutcome board.entry.graph known total workers o) }
{
    board.post_rest(alloc, None)?;
    let Some(solution) = board.solution(alloc)? else {
        unreachable!()
    };
    Ok(Outcome {
        solution,
        entries: board.into_entries(),
        report,
    })
}

//! The runs that solve a game, from what is known of it or from nothing, over any sources and sink. A fault names vertices by
//! their identifiers.

ghost use Rattle.std.specs.Prelude.{◌≡◌, ◌≤◌, ◌⊎◌, length, None, IfOk, IfErr, slice_get};
ghost use Rattle.pg_game.specs.Graph.{Graph, IsGame};
ghost use Rattle.pg_board.specs.Work.{total_of};
ghost use Rattle.pg_workers.specs.KnownRegions.{KeepsKnown};
ghost use Rattle.pg_workers.specs.Outcomes.{IsOutcome};
ghost use Rattle.pgboard.specs.Device.{HasFailed};
ghost use Rattle.pgboard.specs.KnownSource.{left_in, IfGiven, OnGiven};
ghost use Rattle.pgboard.specs.Refused.{IsNotKnown};
ghost use Rattle.pgboard.specs.private.Run.{IsNotSolved};
ghost use Rattle.pgboard.specs.Run.{IsReadGame, IsNoGame, Reads, ReadsInTurn, Writes};
ghost use Rattle.pgboard.specs.Solving.{IsSolveText, IsSolveOutput, IsTraceText};
ghost use Rattle.pg_text.specs.Known.{KnownRows};
ghost use Rattle.pg_text.specs.Solution.{IsExactSolution};

use crate::device::{Sink, Source, write_all};
use crate::fault::RunFault;
use crate::reading::{game_from, known_from, nothing_known};
use crate::trace::write_trace;
use pg_finders::Finder;
use pg_game::{Game, Memory};
use pg_text::{Known, Solution, write_solution, write_winners};
use pg_workers::{BUDGET, Gate, Options, Outcome, SolveFault, known_fault, solve_game};
use std::alloc::Global;
use std::sync::Wait;
use std::thread::Threads;

/// Options for solving a game: 1 to 64 workers, searches for dominions of at most `bound` vertices, 0 to 8 (none for 0), and
/// whether the output has the winners alone.
#[derive(Drop)]
pub struct SolveOptions {
    pub workers: u32,
    pub bound: u32,
    pub winners: bool,
    ghost in_range: { (1 ≤ workers) × (workers ≤ 64) × (bound ≤ 8) },
}

/// Reads a game, and what is known of it if there is a source for that, solves the game, and writes its solution. With
/// `winners` it writes the winners alone, which are a function of the game. It reads and judges the game before it reads
/// what is known, and posts each player's known set before any worker starts.
///
/// The errors, in this order: `Read`, `TooLong` or `Game` for the game; `Read`, `TooLong` or `Solution` for what is known;
/// `Known` if a player's known set is no region, with the reason by identifiers; `Write`. `Memory` may come in place of any.
/// After `Write` a prefix of the output went out, after any other error nothing.
pub fn run_solve<I: Source, K: Source, O: Sink, R: Threads + Wait + Sync>(
    rt: &R,
    alloc: Global,
    input: &mut I,
    known: Option<&mut K>,
    out: &mut O,
    options: &SolveOptions,
    gate: &impl Gate,
    finder: &impl Finder,
) -> Result<(), RunFault>
    ensures reads { ReadsInTurn result (I.left input.old) (I.read_failures input.old) (I.read_failures input.new)
        (IfGiven (λ old new. new ≡ old) known.entry known.exit)
        (IfGiven (λ old new. K.read_failures new ≡ K.read_failures old) known.entry known.exit)
        (OnGiven (λ old new. HasFailed (K.read_failures old) (K.read_failures new)) known.entry known.exit) }
    ensures writes { Writes (λ _ text. IsSolveOutput (I.left input.old) (left_in K.left known.entry) options.now.winners text)
        result (O.taken out.old) (O.taken out.new) (O.write_failures out.old) (O.write_failures out.new) }
    ensures fault { IfErr result (λ e. (e ≡ RunFault.Write)
        ⊎ (IsNoGame (I.left input.old) e ⊎ ((g : Graph) × IsReadGame (I.left input.old) g × IsNotKnown g (left_in K.left known.entry) e))) }
    ensures alone { IfErr result (λ e. known.entry ≡ None → (e ≡ RunFault.Write) ⊎ IsNoGame (I.left input.old) e) }
{
    let of_run = options_of(options.workers, options.bound);
    let game = game_from(alloc, input)?;
    let known = match known {
        Some(source) => known_from(alloc, &game, source)?,
        None => nothing_known(alloc),
    };
    // the journal takes as much memory as the solution, and is freed before the text is made
    let solution = outcome(rt, alloc, &game, &of_run, &known, gate, finder)?.solution;
    let text = text_of(alloc, &game, &solution, options.winners)?;
    write_all(text.as_slice(), out)
}

/// Reads a game, solves it, and writes the journal of the run and the results of each job. The errors are those of
/// `run_solve` without a known source.
pub fn run_trace<I: Source, O: Sink, R: Threads + Wait + Sync>(
    rt: &R,
    alloc: Global,
    input: &mut I,
    out: &mut O,
    workers: u32,
    gate: &impl Gate,
    finder: &impl Finder,
) -> Result<(), RunFault>
    requires workers { (1 ≤ workers) × (workers ≤ 64) }
    ensures reads { Reads result (I.read_failures input.old) (I.read_failures input.new) }
    ensures writes { Writes (λ _ text. (g : Graph) × IsReadGame (I.left input.old) g × IsTraceText workers g text)
        result (O.taken out.old) (O.taken out.new) (O.write_failures out.old) (O.write_failures out.new) }
    ensures fault { IfErr result (λ e. (e ≡ RunFault.Write) ⊎ IsNoGame (I.left input.old) e) }
{
    let game = game_from(alloc, input)?;
    let known = nothing_known(alloc);
    let of_run = options_of(workers, TRACE_BOUND);
    let outcome = outcome(rt, alloc, &game, &of_run, &known, gate, finder)?;
    let entries = outcome.entries.as_slice();
    let report = outcome.report.as_slice();
    let text = write_trace(alloc, &game, entries, report)?;
    write_all(text.as_slice(), out)
}

/// The greatest size of the dominions that a traced run searches for.
const TRACE_BOUND: u32 = 4;

/// The options of a run with so many workers and this bound.
fn options_of(workers: u32, bound: u32) -> Options
    requires { (1 ≤ workers) × (workers ≤ 64) × (bound ≤ 8) }
    ensures workers { result.workers ≡ workers }
    ensures bound { result.bound ≡ bound }
{
    Options {
        workers,
        bound,
        budget: BUDGET,
    }
}

/// The outcome of solving a game from what is known of it. A refused set is named by identifiers.
fn outcome<R: Threads + Wait + Sync>(
    rt: &R,
    alloc: Global,
    game: &Game,
    options: &Options,
    known: &Known,
    gate: &impl Gate,
    finder: &impl Finder,
) -> Result<Outcome, RunFault>
    requires { length known.now.rows ≤ length game.now }
    ensures outcome { IfOk result (λ o. IsOutcome game.now known.now.rows (total_of options.now.bound (length game.now)) options.now.workers o) }
    ensures fault { IfErr result (λ e. IsNotSolved game.now known.now.rows e) }
{
    match solve_game(rt, alloc, game, options, known, gate, finder) {
        Ok(outcome) => Ok(outcome),
        Err(SolveFault::Known(player, refusal)) => {
            Err(RunFault::Known(known_fault(game, known, player, refusal)))
        }
        Err(SolveFault::Memory) => Err(RunFault::Memory),
    }
}

/// The text of a game's solution, or of its winners alone.
fn text_of(
    alloc: Global,
    game: &Game,
    solution: &Solution,
    winners: bool,
) -> Result<Vec<u8>, Memory>
    requires game { IsGame game.now }
    requires exact { IsExactSolution game.now solution.now.rows }
    ensures { (known : KnownRows) → KeepsKnown game.now known (λ v. slice_get solution.now.rows v)
        → IfOk result (λ text. IsSolveText winners game.now known text.items) }
{
    if winners {
        return write_winners(alloc, game, solution);
    }
    write_solution(alloc, game, solution)
}

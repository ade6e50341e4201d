//! The text of a solved game: the journal of its board, then a line for each job, then the sums. Each function adds one line.
//! The invariant of each loop: the written lines and those of the rest are the whole text.

ghost use Rattle.std.specs.Prelude.{◌≡◌, ◌<◌, ◌++◌, ◌∷◌, [], length, codes, flat_map, sum_by, IfOk, OnOk};
ghost use Rattle.std.specs.List.{AllByRecursion};
ghost use Rattle.pg_game.specs.Player.{digit_of};
ghost use Rattle.pg_text.specs.Written.{numeral};
ghost use Rattle.pg_board.specs.Journal.{number_settled};
ghost use Rattle.pgboard.specs.Trace.{trace_line, row_line, entry_text, entries_text, job_line, total_line, trace_text, flag_word, worker_word};
ghost use Rattle.pgboard.specs.private.Run.{NamesVertices};

use itoa::Buffer;
use pg_board::Entry;
use pg_game::{Game, Memory};
use pg_text::{choice_before, end_before, number_before, put_number};
use pg_workers::ReportRow;
use std::alloc::Global;

/// The whole text of a run on a game: the journal, the report and its sums.
pub(crate) fn write_trace(
    alloc: Global,
    game: &Game,
    entries: &[Entry],
    report: &[ReportRow],
) -> Result<Vec<u8>, Memory>
    requires { AllByRecursion (λ e. AllByRecursion (NamesVertices (length game.now)) e.rows) entries.now }
    ensures { IfOk result (λ text. text.items ≡ trace_text game.now entries.now report.now) }
{
    let mut out = Vec::with_capacity(alloc, trace_capacity(entries, report))?;
    put_journal_head(&mut out, entries.len() as u64, settled_in(entries))?;
    put_entries(&mut out, game, entries)?;
    put_report_head(&mut out, report.len() as u64)?;
    put_jobs(&mut out, report)?;
    put_total(&mut out, report)?;
    Ok(out)
}

/// The greatest number of bytes of a trace. This capacity is allocated once, so that no written byte moves.
fn trace_capacity(entries: &[Entry], report: &[ReportRow]) -> usize {
    let mut capacity = OTHERS.saturating_add(JOB.saturating_mul(report.len()));
    for entry in entries {
        let rows = ROW.saturating_mul(entry.rows.as_slice().len());
        capacity = capacity.saturating_add(ENTRY).saturating_add(rows);
    }
    capacity
}

/// All other lines: the first one, the one above the jobs and the sums.
const OTHERS: usize = 263;

/// The longest line of a job.
const JOB: usize = 124;

/// The longest line of a settled vertex: two numbers, a space, a semicolon and a line feed.
const ROW: usize = 23;

/// The longest line above an entry's rows.
const ENTRY: usize = 82;

/// The first line.
fn put_journal_head(out: &mut Vec<u8>, entries: u64, settled: u128) -> Result<(), Memory>
    ensures { OnOk result (out.new.items ≡ out.old.items ++ trace_line (codes "journal" ∷ numeral entries ∷ numeral settled ∷ [])) }
{
    put(out, b"journal")?;
    put_next(out, entries)?;
    put_sum(out, settled)?;
    put(out, b"\n")
}

/// Adds the bytes.
fn put(out: &mut Vec<u8>, bytes: &[u8]) -> Result<(), Memory>
    ensures { OnOk result (out.new.items ≡ out.old.items ++ bytes.now) }
{
    out.extend_from_slice(bytes)
}

/// A space and a number.
fn put_next(out: &mut Vec<u8>, n: u64) -> Result<(), Memory>
    ensures { OnOk result (out.new.items ≡ out.old.items ++ (32 ∷ numeral n)) }
{
    put(out, b" ")?;
    put_number(out, n)
}

/// A space and a sum.
fn put_sum(out: &mut Vec<u8>, n: u128) -> Result<(), Memory>
    ensures { OnOk result (out.new.items ≡ out.old.items ++ (32 ∷ numeral n)) }
{
    put(out, b" ")?;
    put(out, Buffer::new().format(n).as_bytes())
}

/// The number of vertices that the entries settle.
fn settled_in(entries: &[Entry]) -> u128
    ensures { result ≡ number_settled entries.now }
{
    let mut settled = 0u128;
    for entry in entries {
        settled += entry.rows.as_slice().len() as u128;
    }
    settled
}

/// All entries, numbered from 0.
fn put_entries(out: &mut Vec<u8>, game: &Game, entries: &[Entry]) -> Result<(), Memory>
    requires { AllByRecursion (λ e. AllByRecursion (NamesVertices (length game.now)) e.rows) entries.now }
    ensures { OnOk result (out.new.items ≡ out.old.items ++ entries_text game.now 0 entries.now) }
{
    for i in 0..entries.len() {
        put_entry(out, game, i as u64, &entries[i])?;
    }
    Ok(())
}

/// An entry: its head and its rows.
fn put_entry(out: &mut Vec<u8>, game: &Game, number: u64, entry: &Entry) -> Result<(), Memory>
    requires { AllByRecursion (NamesVertices (length game.now)) entry.now.rows }
    ensures { OnOk result (out.new.items ≡ out.old.items ++ entry_text game.now number entry.now) }
{
    put_entry_head(out, number, entry)?;
    put_rows(out, game, entry.rows.as_slice())
}

/// The line above an entry's rows.
fn put_entry_head(out: &mut Vec<u8>, number: u64, entry: &Entry) -> Result<(), Memory>
    ensures { OnOk result (out.new.items ≡ out.old.items
        ++ trace_line (codes "entry" ∷ numeral number ∷ numeral entry.now.worker ∷ numeral (digit_of entry.now.player)
        ∷ numeral entry.now.claimed ∷ numeral (length entry.now.rows) ∷ [])) }
{
    put(out, b"entry")?;
    put_next(out, number)?;
    put_next(out, entry.worker as u64)?;
    put_next(out, entry.player.digit() as u64)?;
    put_next(out, entry.claimed as u64)?;
    put_next(out, entry.rows.as_slice().len() as u64)?;
    put(out, b"\n")
}

/// The lines of an entry's rows.
fn put_rows(out: &mut Vec<u8>, game: &Game, rows: &[(u32, Option<u32>)]) -> Result<(), Memory>
    requires { AllByRecursion (NamesVertices (length game.now)) rows.now }
    ensures { OnOk result (out.new.items ≡ out.old.items ++ flat_map (row_line game.now) rows.now) }
{
    for row in rows {
        put_row(out, game, row)?;
    }
    Ok(())
}

/// The line of a settled vertex, written from its end.
fn put_row(out: &mut Vec<u8>, game: &Game, row: &(u32, Option<u32>)) -> Result<(), Memory>
    requires { NamesVertices (length game.now) row.now }
    ensures { OnOk result (out.new.items ≡ out.old.items ++ row_line game.now row.now) }
{
    let mut buffer = [0u8; ROW];
    let line = buffer.as_mut_slice();
    let at = end_before(line);
    let at = choice_before(line, at, game, row.1);
    let at = number_before(line, at, game.id(row.0));
    put(out, &line[at..])
}

/// The line above the jobs.
fn put_report_head(out: &mut Vec<u8>, jobs: u64) -> Result<(), Memory>
    ensures { OnOk result (out.new.items ≡ out.old.items ++ trace_line (codes "report" ∷ numeral jobs ∷ [])) }
{
    put(out, b"report")?;
    put_next(out, jobs)?;
    put(out, b"\n")
}

/// The lines of all jobs.
fn put_jobs(out: &mut Vec<u8>, report: &[ReportRow]) -> Result<(), Memory>
    ensures { OnOk result (out.new.items ≡ out.old.items ++ flat_map job_line report.now) }
{
    for row in report {
        put_job(out, row)?;
    }
    Ok(())
}

/// The line of a job.
fn put_job(out: &mut Vec<u8>, row: &ReportRow) -> Result<(), Memory>
    ensures { OnOk result (out.new.items ≡ out.old.items ++ job_line row.now) }
{
    put(out, b"job")?;
    put_next(out, row.job)?;
    put_worker(out, row.worker)?;
    put_next(out, row.posted)?;
    put_next(out, row.settled)?;
    put_next(out, row.stale)?;
    put_next(out, row.refused)?;
    put_flag(out, row.gave_up)?;
    put_flag(out, row.memory)?;
    put(out, b"\n")
}

/// A space and the worker, or `-` if there is none.
fn put_worker(out: &mut Vec<u8>, worker: Option<u32>) -> Result<(), Memory>
    ensures { OnOk result (out.new.items ≡ out.old.items ++ (32 ∷ worker_word worker)) }
{
    match worker {
        Some(worker) => put_next(out, worker as u64),
        None => put(out, b" -"),
    }
}

/// A space and 1 or 0.
fn put_flag(out: &mut Vec<u8>, flag: bool) -> Result<(), Memory>
    ensures { OnOk result (out.new.items ≡ out.old.items ++ (32 ∷ flag_word flag)) }
{
    put(out, if flag { b" 1" } else { b" 0" })
}

/// The last line.
fn put_total(out: &mut Vec<u8>, report: &[ReportRow]) -> Result<(), Memory>
    ensures { OnOk result (out.new.items ≡ out.old.items ++ total_line report.now) }
{
    let sums = sums_of(report);
    put(out, b"total")?;
    put_sum(out, sums.posted)?;
    put_sum(out, sums.settled)?;
    put_sum(out, sums.stale)?;
    put_sum(out, sums.refused)?;
    put(out, b"\n")
}

/// The sums of the columns over all jobs.
fn sums_of(report: &[ReportRow]) -> Sums
    ensures posted { result.posted ≡ sum_by (λ r. r.posted) report.now }
    ensures settled { result.settled ≡ sum_by (λ r. r.settled) report.now }
    ensures stale { result.stale ≡ sum_by (λ r. r.stale) report.now }
    ensures refused { result.refused ≡ sum_by (λ r. r.refused) report.now }
{
    let mut sums = Sums {
        posted: 0,
        settled: 0,
        stale: 0,
        refused: 0,
    };
    for row in report {
        sums.posted += row.posted as u128;
        sums.settled += row.settled as u128;
        sums.stale += row.stale as u128;
        sums.refused += row.refused as u128;
    }
    sums
}

/// The sums of a report's columns, in 128 bits.
#[derive(Clone, Copy)]
struct Sums {
    posted: u128,
    settled: u128,
    stale: u128,
    refused: u128,
}

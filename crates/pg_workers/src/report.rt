//! The report of a run: one row for each job. Each row of a worker has its place by its job's number, and the jobs that no worker
//! drew have blank rows.

ghost use Rattle.std.specs.Prelude.{◌≡◌, ◌+◌, ◌^◌, ◌≤◌, ◌<◌, ℕ, IfOk, length, map, vec_len};
ghost use Rattle.pg_workers.specs.Report.{IsInOrder, blank_row, settled_in};
ghost use Rattle.pg_workers.specs.private.Report.{AreBlank, AreOfPrefix, AreNotedRows, HasFreePlaces, answered, noted, rows_in, without_posts};

use pg_board::Refusal;
use pg_game::Memory;
use std::alloc::Global;

/// The results of one job: the worker that drew it, the number of its posted claims and of the vertices that they settled,
/// the number of stale claims and of those refused for another reason, whether its search gave up, and whether memory was
/// refused in it.
#[derive(Clone, Copy, Debug, Drop, PartialEq, Eq)]
pub struct ReportRow {
    pub job: u64,
    pub worker: Option<u32>,
    pub posted: u64,
    pub settled: u64,
    pub stale: u64,
    pub refused: u64,
    pub gave_up: bool,
    pub memory: bool,
}

impl ReportRow {
    /// The row of a job that no worker drew.
    pub(crate) fn blank(job: u64) -> ReportRow
        ensures { result ≡ blank_row job }
    {
        ReportRow {
            job,
            worker: None,
            posted: 0,
            settled: 0,
            stale: 0,
            refused: 0,
            gave_up: false,
            memory: false,
        }
    }

    /// Counts the answer to one claim.
    pub(crate) fn note(&mut self, answer: Result<u32, Refusal>)
        requires count { answered self.old + 1 < 2 ^ 64 }
        requires settled { IfOk answer (λ n. self.old.settled + n < 2 ^ 64) }
        ensures { self.new ≡ noted self.old answer }
    {
        match answer {
            Ok(more) => {
                self.posted += 1;
                self.settled += u64::from(more);
            }
            Err(Refusal::Stale) => self.stale += 1,
            Err(Refusal::Memory) => self.memory = true,
            Err(_) => self.refused += 1,
        }
    }
}

/// A row for each job, in order, none of them drawn.
#[tactic(auto, using(crate::proofs::report::Rows::none_settled))]
pub(crate) fn blank_report(alloc: Global, total: u64) -> Result<Vec<ReportRow>, Memory>
    requires { total ≤ 4096 }
    ensures rows { IfOk result (λ report. IsInOrder total report.items) }
    ensures blank { IfOk result (λ report. AreBlank report.items) }
    ensures settled { IfOk result (λ report. settled_in report.items ≡ 0) }
{
    let mut report = Vec::with_capacity(alloc, total as usize)?;
    for job in 0..total {
        report.push_reserved(ReportRow::blank(job));
    }
    Ok(report)
}

/// A report in which each row of all workers is at the place of its job.
pub(crate) fn with_rows(mut report: Vec<ReportRow>, all: &[Vec<ReportRow>]) -> Vec<ReportRow>
    requires blank { AreBlank report.items }
    requires prefix { (n : ℕ) × (n ≤ length report.items) × AreOfPrefix n (rows_in all.now) }
    ensures length { vec_len result ≡ vec_len report }
    ensures placed { AreNotedRows report.items result.items (rows_in all.now) }
    ensures settled { settled_in result.items ≡ settled_in report.items + settled_in (rows_in all.now) }
{
    for rows in all {
        place_rows(report.as_mut_slice(), rows.as_slice());
    }
    report
}

/// The report with `posted` and `settled` set to 0 in every row.
pub(crate) fn with_no_posts(mut report: Vec<ReportRow>) -> Vec<ReportRow>
    ensures length { vec_len result ≡ vec_len report }
    ensures rows { result.items ≡ map without_posts report.items }
{
    for k in 0..report.len() {
        report[k] = without_posts(report[k]);
    }
    report
}

/// Puts each row at the place of its job.
fn place_rows(report: &mut [ReportRow], rows: &[ReportRow])
    requires { HasFreePlaces report.old rows.now }
    ensures placed { AreNotedRows report.old report.new rows.now }
    ensures settled { settled_in report.new ≡ settled_in report.old + settled_in rows.now }
{
    for row in rows {
        report[row.job as usize] = *row;
    }
}

/// The row with `posted` and `settled` set to 0.
fn without_posts(row: ReportRow) -> ReportRow
    ensures { result ≡ without_posts row }
{
    ReportRow {
        posted: 0,
        settled: 0,
        ..row
    }
}

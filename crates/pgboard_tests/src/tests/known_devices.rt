//! Runs over bytes in memory, whose devices know them all: what the runs promise, said of the bytes themselves.
ghost use Rattle.std.specs.Prelude.{◌≡◌, ◌≤◌, Some, IfOk, length};
ghost use Rattle.pg_text.specs.Reading.{max_text};
ghost use Rattle.pgboard.specs.Answer.{IsOutputFor};
ghost use Rattle.pgboard.specs.Asking.{IsInRange};
ghost use Rattle.pgboard.specs.Joined.{IsJudged, verdict_line};

use super::asserting::made;
use pg_finders::Standard;
use pg_test_support::{check, check_eq};
use pg_workers::Pass;
use pgboard::{Asked, RunFault, Std, Verdict, asked, run_asked, run_verify};
use std::alloc::Global;
use std::process::Abort;
use std::sync::Wait;
use std::thread::Threads;

/// The verdict on two texts, and the bytes that were written.
fn verdict_on(alloc: Global, game: &[u8], solution: &[u8]) -> Result<(Verdict, Vec<u8>), RunFault>
    ensures judged { IfOk result (λ r. IsJudged game.now solution.now r.0) }
    ensures written { IfOk result (λ r. r.1.items ≡ verdict_line r.0) }
    ensures within { IfOk result (λ r. (length game.now ≤ max_text) × (length solution.now ≤ max_text)) }
{
    let mut out = Std::new(Vec::new(alloc));
    let verdict = run_verify(
        alloc,
        &mut Std::new(game),
        &mut Std::new(solution),
        &mut out,
    )?;
    Ok((verdict, out.into_inner()))
}

/// What the program writes for what was asked for, of two texts, and its status.
fn output_for<R: Threads + Wait + Sync>(
    rt: &R,
    alloc: Global,
    asked: &Asked,
    first: &[u8],
    second: &[u8],
) -> Result<(u8, Vec<u8>), RunFault>
    requires { IsInRange asked.now }
    ensures { IfOk result (λ r. IsOutputFor asked.now (Some first.now) (Some second.now) r.0 r.1.items) }
{
    let mut out = Std::new(Vec::new(alloc));
    let mut first = Std::new(first);
    let mut second = Std::new(second);
    let status = run_asked(
        rt,
        alloc,
        asked,
        &mut first,
        &mut second,
        &mut out,
        &Pass,
        &Standard,
    )?;
    Ok((status, out.into_inner()))
}

/// A loop that Even wins.
const LOOP: &[u8] = b"0 0 0 0;";

fn compare_verdict(rt: &impl Abort, alloc: Global) {
    let (verdict, line) = made(rt, verdict_on(alloc, LOOP, b"0 0 0;"));
    check_eq!(*rt; (verdict.status(), line.as_slice()), (0, b"ok\n".as_slice()));
}

const ONE_EACH: &[u8] = b"0 2 0 0,1; 1 1 1 1;";

const ONE_EACH_SOLVED: &[u8] = b"paritysol 1;\n0 0 0;\n1 1 1;\n";

/// What the words ask for, said of the two texts.
fn compare_output<R: Threads + Wait + Abort + Sync>(
    rt: &R,
    alloc: Global,
    words: &[&str],
    second: &[u8],
    want: (u8, &[u8]),
) {
    let Ok(asked) = asked(alloc, words) else {
        check!(*rt; false, words);
        return;
    };
    let (status, text) = made(rt, output_for(rt, alloc, &asked, ONE_EACH, second));
    check_eq!(*rt; (status, text.as_slice()), want, words);
}

#[test]
fn the_verdict_is_that_on_the_bytes_in_memory(rt: HostRuntime) {
    compare_verdict(&rt, rt.alloc());
}

#[test]
fn what_the_program_writes_holds_of_bytes_in_memory(rt: HostRuntime) {
    let alloc = rt.alloc();
    let verify = ["verify", "game.pg", "game.sol"];
    compare_output(&rt, alloc, &verify, ONE_EACH_SOLVED, (0, b"ok\n"));
    let leaves = (1, b"not a solution: 0 leaves to 1\n".as_slice());
    compare_output(&rt, alloc, &verify, b"0 0 1; 1 1 1;", leaves);
    let known = ["solve", "--known", "part.sol"];
    compare_output(&rt, alloc, &known, b"1 1 1;", (0, ONE_EACH_SOLVED));
    let tidy = (0, b"parity 1;\n0 2 0 0,1;\n1 1 1 1;\n".as_slice());
    compare_output(&rt, alloc, &["tidy"], b"", tidy);
}

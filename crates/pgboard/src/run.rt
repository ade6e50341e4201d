//! What a command line asks for is run, over any sources and sink.

ghost use Rattle.std.specs.Prelude.{◌≡◌, IfErr};
ghost use Rattle.pgboard.specs.Answer.{ReadsFor, IsOutputFor, FailsFor};
ghost use Rattle.pgboard.specs.Asking.{IsInRange};
ghost use Rattle.pgboard.specs.Device.{HasFailed};
ghost use Rattle.pgboard.specs.Run.{Writes};

use crate::arguments::Asked;
use crate::device::{Sink, Source, Std, write_all};
use crate::fault::RunFault;
use crate::solve::{SolveOptions, run_solve, run_trace};
use crate::verify::{run_joined, run_tidy, run_verify};
use pg_finders::Finder;
use pg_workers::Gate;
use std::alloc::Global;
use std::sync::Wait;
use std::thread::Threads;

/// Runs what was asked for, and returns the status. The second source has the solution where one is verified and what
/// is known where it was given, and is not read otherwise. All that is read and written goes through the arguments.
pub fn run_asked<I: Source, S: Source, O: Sink, R: Threads + Wait + Sync>(
    rt: &R,
    alloc: Global,
    asked: &Asked,
    input: &mut I,
    second: &mut S,
    out: &mut O,
    gate: &impl Gate,
    finder: &impl Finder,
) -> Result<u8, RunFault>
    requires { IsInRange asked.now }
    ensures reads { ReadsFor asked.now result (I.left input.old) (I.read_failures input.old) (I.read_failures input.new) (input.new ≡ input.old)
        (second.new ≡ second.old) (S.read_failures second.new ≡ S.read_failures second.old)
        (HasFailed (S.read_failures second.old) (S.read_failures second.new)) }
    ensures writes { Writes (λ status text. IsOutputFor asked.now (I.left input.old) (S.left second.old) status text)
        result (O.taken out.old) (O.taken out.new) (O.write_failures out.old) (O.write_failures out.new) }
    ensures fault { IfErr result (λ e. FailsFor asked.now (I.left input.old) (S.left second.old) e) }
{
    match asked {
        Asked::Joined => Ok(run_joined(alloc, input, out)?.status()),
        Asked::Verify { .. } => Ok(run_verify(alloc, input, second, out)?.status()),
        Asked::Tidy { .. } => {
            run_tidy(alloc, input, out)?;
            Ok(0)
        }
        Asked::Solve {
            workers,
            bound,
            winners,
            known,
            ..
        } => {
            let options = SolveOptions {
                workers: *workers,
                bound: *bound,
                winners: *winners,
            };
            match known {
                Some(_) => run_solve(rt, alloc, input, Some(second), out, &options, gate, finder)?,
                None => {
                    let nothing = None::<&mut Std<&[u8]>>;
                    run_solve(rt, alloc, input, nothing, out, &options, gate, finder)?
                }
            }
            Ok(0)
        }
        Asked::Trace { workers, .. } => {
            run_trace(rt, alloc, input, out, *workers, gate, finder)?;
            Ok(0)
        }
        Asked::Help(text) => {
            write_all(text.as_str().as_bytes(), out)?;
            Ok(0)
        }
    }
}

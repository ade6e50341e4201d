//! The program `pgboard`: it takes the words of the command line, opens the files, hands them with standard output to
//! `pgboard::run_asked`, and ends with the status of the outcome. A fault goes to standard error.
#![tactic(auto)]

ghost use Rattle.std.specs.Prelude.{ℕ, List, ◌≡◌, ◌⊎◌, None, IfOk, IfErr, codes, is_some, true};
ghost use Rattle.std.specs.IoError.{error_kind};
ghost use Rattle.pgboard.specs.Answer.{IsOutputFor, FailsFor, ReadsFor};
ghost use Rattle.pgboard.specs.Asking.{IsInRange, Says};
ghost use Rattle.pgboard.specs.Device.{HasFailed};
ghost use Rattle.pgboard.specs.declared.fault.RunFault.{RunFault};
ghost use Rattle.pgboard.specs.Status.{status_of, asked_status_of};
ghost use Rattle.pgboard_program.specs.Input.{IsInputOf};

use pg_finders::Standard;
use pg_workers::Pass;
use pgboard::{Asked, AskedFault, RunFault, Std, asked, run_asked};
use std::alloc::Global;
use std::env;
use std::fs::File;
use std::io::{Error, ErrorKind, Read, Stdin};
use std::process::ExitCode;
use std::sync::Wait;
use std::thread::Threads;

fn main(rt: HostRuntime) -> ExitCode {
    ExitCode::from(status_of(&rt, &rt, asked_by(&rt)))
}

/// What the command line asks for.
fn asked_by(rt: &HostRuntime) -> Result<Asked, AskedFault>
    ensures { IfOk result IsInRange }
{
    let owned = owned_words(rt)?;
    let words: Vec<&str> = owned.iter().map(|it| it.as_str()).collect(rt.alloc())?;
    asked(rt.alloc(), words.as_slice())
}

/// The words after the program's name.
fn owned_words(rt: &HostRuntime) -> Result<Vec<String>, AskedFault> {
    match env::args(rt) {
        Ok(args) => Ok(args.skip(1).collect(rt.alloc())?),
        Err(error) => Err(unread(rt.alloc(), &error)),
    }
}

/// Why the words can't be read: memory was refused, or one of them is not text.
fn unread(alloc: Global, error: &Error) -> AskedFault
    ensures memory { error_kind error.now ≡ ErrorKind.OutOfMemory → result ≡ AskedFault.Memory }
    ensures text { Says (codes "error: an argument is not text\n") result }
{
    match error.kind() {
        ErrorKind::OutOfMemory => AskedFault::Memory,
        _ => AskedFault::words(alloc, "error: an argument is not text\n"),
    }
}

/// Runs what was asked for and prints a fault. The status of the outcome, and of a refused command line its own.
fn status_of<T: Threads + Wait + Sync>(
    rt: &HostRuntime,
    threads: &T,
    asked: Result<Asked, AskedFault>,
) -> u8
    requires { IfOk asked IsInRange }
    ensures run { IfOk asked (λ asked. ((text : List ℕ) × IsOutputFor asked None None result text)
        ⊎ ((fault : RunFault) × ((fault ≡ RunFault.Read) ⊎ FailsFor asked None None fault) × (result ≡ status_of fault))) }
    ensures refused { IfErr asked (λ refusal. result ≡ asked_status_of refusal) }
{
    match asked {
        Ok(asked) => ended(rt, run_on_files(rt, threads, &asked)),
        Err(refusal) => print_refusal(rt, &refusal),
    }
}

/// Opens the files, and then runs what was asked for on them. The status of the outcome.
fn run_on_files<T: Threads + Wait + Sync>(
    rt: &HostRuntime,
    threads: &T,
    asked: &Asked,
) -> Result<u8, RunFault>
    requires { IsInRange asked.now }
    ensures status { IfOk result (λ status. (text : List ℕ) × IsOutputFor asked.now None None status text) }
    ensures fault { IfErr result (λ fault. (fault ≡ RunFault.Read) ⊎ FailsFor asked.now None None fault) }
{
    let mut input = open(rt, asked.path())?;
    // standard input where no second file was given, and then it is not read
    let mut second = open(rt, asked.second_path())?;
    run_to_output(rt, threads, asked, &mut input, &mut second)
}

/// The file of this path, or standard input where none was given.
fn open(rt: &HostRuntime, path: Option<&str>) -> Result<Std<Input>, RunFault>
    ensures input { IfOk result (λ source. IsInputOf path.entry source.inner × (source.failures ≡ 0)) }
    ensures fault { IfErr result (λ fault. (is_some path.entry ≡ true) × (fault ≡ RunFault.Read)) }
{
    let Some(path) = path else {
        return Ok(Std::new(Input::Standard(rt.stdin())));
    };
    match File::open(rt, path) {
        Ok(file) => {
            let size = file.metadata().map_or(0, |it| it.len());
            Ok(Std::new(Input::File(file)).expecting(size))
        }
        Err(_) => Err(RunFault::Read),
    }
}

/// Runs what was asked for on these inputs and standard output, by the finder `Standard` and with a gate that holds nobody.
fn run_to_output<T: Threads + Wait + Sync>(
    rt: &HostRuntime,
    threads: &T,
    asked: &Asked,
    input: &mut Std<Input>,
    second: &mut Std<Input>,
) -> Result<u8, RunFault>
    requires { IsInRange asked.now }
    ensures reads { ReadsFor asked.now result None input.old.failures input.new.failures (input.new ≡ input.old) (second.new ≡ second.old)
        (second.new.failures ≡ second.old.failures) (HasFailed second.old.failures second.new.failures) }
    ensures status { IfOk result (λ status. (text : List ℕ) × IsOutputFor asked.now None None status text) }
    ensures fault { IfErr result (λ fault. FailsFor asked.now None None fault) }
{
    let mut out = Std::new(rt.stdout());
    run_asked(
        threads,
        rt.alloc(),
        asked,
        input,
        second,
        &mut out,
        &Pass,
        &Standard,
    )
}

/// The status of a run. Its fault is printed.
fn ended(rt: &HostRuntime, outcome: Result<u8, RunFault>) -> u8
    ensures status { IfOk outcome (λ status. result ≡ status) }
    ensures fault { IfErr outcome (λ fault. result ≡ status_of fault) }
{
    match outcome {
        Ok(status) => status,
        Err(fault) => {
            let _ = rt.eprintln(format_args!("pgboard: {fault}"));
            fault.status()
        }
    }
}

/// The status of a refused command line. Why it is refused is printed.
fn print_refusal(rt: &HostRuntime, refusal: &AskedFault) -> u8
    ensures { result ≡ asked_status_of refusal.now }
{
    let _ = rt.eprint(refusal);
    refusal.status()
}

/// What the program reads. One type, so that a run has one kind of source.
#[derive(Drop)]
enum Input {
    File(File),
    Standard(Stdin),
}

impl Read for Input {
    fn read(&mut self, buffer: &mut [u8]) -> std::io::Result<usize> {
        match self {
            Input::File(file) => file.read(buffer),
            Input::Standard(stdin) => stdin.read(buffer),
        }
    }
}

//! The runs that need no worker, over any sources and sink: to judge a solution of a game, and to write a game in its one
//! written form. Each makes its whole output before it writes.

ghost use Rattle.std.specs.Prelude.{◌≡◌, ◌≤◌, ◌⊎◌, IfErr, IfSome, length, ◌≢◌, IfOk, OnOk, IsErrOf, ◌++◌};
ghost use Rattle.std.specs.Io.KnownBytes.{Appends, Keeps};
ghost use Rattle.pg_game.specs.Graph.{Graph};
ghost use Rattle.pg_text.specs.Written.{written_game, numeral};
ghost use Rattle.pg_text.specs.Reading.{max_text};
ghost use Rattle.pgboard.specs.Device.{HasFailed, AppendsPrefix};
ghost use Rattle.pgboard.specs.Joined.{game_part, solution_part, IsJudged, verdict_line, JudgingFailed, IsVerdict, fault_text};
ghost use Rattle.pgboard.specs.Run.{IsReadGame, IsNoGame, IsNoSolution, Reads, ReadsInTurn, Writes};
ghost use Rattle.pgboard.specs.private.Run.{IsRefusedSolution, IsVerdictOn};
ghost use Rattle.pgboard.specs.Status.{verdict_status};

use crate::device::{Sink, Source, read_text, write_all};
use crate::fault::RunFault;
use crate::reading::{forward_game_from, forward_game_of, refused_solution, solution_from};
use memchr::memchr;
use pg_dominion::{SolutionFault, check_forward_solution};
use pg_game::{ForwardGame, Memory};
use pg_text::{Solution, put_number, read_forward_solution, write_forward_game};
use std::alloc::Global;

/// The verdict on winners and choices for all vertices of a game.
#[derive(Clone, Copy, Debug, Drop, PartialEq, Eq)]
pub enum Verdict {
    /// They are a solution.
    Holds,
    /// They are none, with this first fault. It is never `Memory`.
    Fails(SolutionFault),
}

impl Verdict {
    /// The exit status of a run with this verdict.
    pub fn status(&self) -> u8
        ensures { result ≡ verdict_status self.now }
    {
        match self {
            Verdict::Holds => 0,
            Verdict::Fails(_) => 1,
        }
    }

    /// The line of the verdict. The only error is `Memory`.
    pub fn line(&self, alloc: Global) -> Result<Vec<u8>, Memory>
        ensures { IfOk result (λ line. line.items ≡ verdict_line self.now) }
    {
        match self {
            Verdict::Holds => Vec::from_slice(alloc, b"ok\n"),
            Verdict::Fails(fault) => {
                let mut line = Vec::from_slice(alloc, b"not a solution: ")?;
                put_fault(fault, &mut line)?;
                line.extend_from_slice(b"\n")?;
                Ok(line)
            }
        }
    }
}

/// Reads a game and a solution in one text, and writes whether it is one.
pub fn run_joined<I: Source, O: Sink>(
    alloc: Global,
    input: &mut I,
    out: &mut O,
) -> Result<Verdict, RunFault>
    ensures reads { Reads result (I.read_failures input.old) (I.read_failures input.new) }
    ensures writes { Writes (λ verdict line. (line ≡ verdict_line verdict) × IfSome (I.left input.old)
        (λ text. (length text ≤ max_text) × IsJudged (game_part text) (solution_part text) verdict))
        result (O.taken out.old) (O.taken out.new) (O.write_failures out.old) (O.write_failures out.new) }
    ensures fault { IfErr result (λ e. IfSome (I.left input.old) (λ text. JudgingFailed (game_part text) (solution_part text) (length text) e)) }
{
    let text = read_text(alloc, input)?;
    let (game, solution) = parts(text.as_slice());
    let game = forward_game_of(alloc, game)?;
    let verdict = verdict_of(alloc, game, solution)?;
    write_verdict(alloc, &verdict, out)?;
    Ok(verdict)
}

/// Reads a game and then a solution, and writes whether it is one. A game with a fault is refused before the solution
/// is read.
pub fn run_verify<G: Source, S: Source, O: Sink>(
    alloc: Global,
    game: &mut G,
    solution: &mut S,
    out: &mut O,
) -> Result<Verdict, RunFault>
    ensures reads { ReadsInTurn result (G.left game.old) (G.read_failures game.old) (G.read_failures game.new) (solution.new ≡ solution.old)
        (S.read_failures solution.new ≡ S.read_failures solution.old) (HasFailed (S.read_failures solution.old) (S.read_failures solution.new)) }
    ensures writes { Writes (λ verdict line. (line ≡ verdict_line verdict) × IfSome (G.left game.old)
        (λ g. IfSome (S.left solution.old) (λ s. (length g ≤ max_text) × (length s ≤ max_text) × IsJudged g s verdict)))
        result (O.taken out.old) (O.taken out.new) (O.write_failures out.old) (O.write_failures out.new) }
    ensures fault { IfErr result (λ e. (e ≡ RunFault.Write)
        ⊎ (IsNoGame (G.left game.old) e ⊎ ((g : Graph) × IsReadGame (G.left game.old) g × IsNoSolution g (S.left solution.old) e))) }
{
    let game = forward_game_from(alloc, game)?;
    let verdict = verdict_from(alloc, game, solution)?;
    write_verdict(alloc, &verdict, out)?;
    Ok(verdict)
}

/// Reads a game and writes its one written text.
pub fn run_tidy<I: Source, O: Sink>(
    alloc: Global,
    input: &mut I,
    out: &mut O,
) -> Result<(), RunFault>
    ensures reads { Reads result (I.read_failures input.old) (I.read_failures input.new) }
    ensures writes { Writes (λ _ text. (g : Graph) × IsReadGame (I.left input.old) g × (text ≡ written_game g))
        result (O.taken out.old) (O.taken out.new) (O.write_failures out.old) (O.write_failures out.new) }
    ensures fault { IfErr result (λ e. (e ≡ RunFault.Write) ⊎ IsNoGame (I.left input.old) e) }
{
    let game = forward_game_from(alloc, input)?;
    let text = write_forward_game(alloc, &game)?;
    write_all(text.as_slice(), out)
}

/// Adds what is wrong.
fn put_fault(fault: &SolutionFault, line: &mut Vec<u8>) -> Result<(), Memory>
    ensures { OnOk result (line.new.items ≡ line.old.items ++ fault_text fault.now) }
{
    match fault {
        SolutionFault::NoChoice(v) => put_named(b"no choice at ", *v, line)?,
        SolutionFault::BadChoice(v) => put_named(b"bad choice at ", *v, line)?,
        SolutionFault::Leaves(v, w) => {
            put_number(line, *v as u64)?;
            put_named(b" leaves to ", *w, line)?
        }
        SolutionFault::Cycle(v) => put_named(b"bad cycle at ", *v, line)?,
        SolutionFault::Memory => {}
    }
    Ok(())
}

/// Adds the words, and then the identifier.
fn put_named(words: &[u8], id: u32, line: &mut Vec<u8>) -> Result<(), Memory>
    ensures { OnOk result (line.new.items ≡ line.old.items ++ (words.now ++ numeral id)) }
{
    line.extend_from_slice(words)?;
    put_number(line, id as u64)
}

/// The parts of a joined text before and after its first `%`.
fn parts(text: &[u8]) -> (&[u8], &[u8])
    ensures game { result.0.now ≡ game_part text.now }
    ensures solution { result.1.now ≡ solution_part text.now }
    ensures shorter { length result.0.now ≤ length text.now }
    ensures short { length result.1.now ≤ length text.now }
{
    match memchr(b'%', text) {
        Some(at) => (&text[..at], &text[at + 1..]),
        None => (text, &[]),
    }
}

/// What is said of the winners and choices that a text spells. The game is given up, so that a caller's proof has no field
/// of it to drop.
fn verdict_of(alloc: Global, game: ForwardGame, text: &[u8]) -> Result<Verdict, RunFault>
    requires { length text.now ≤ max_text }
    ensures verdict { IfOk result (λ verdict. IsVerdictOn game text.now verdict) }
    ensures fault { IfErr result (λ e. IsRefusedSolution game text.now e) }
{
    match read_forward_solution(alloc, &game, text) {
        Ok(solution) => verdict_on(alloc, &game, &solution),
        Err(fault) => Err(refused_solution(fault)),
    }
}

/// What is said of winners and choices.
fn verdict_on(alloc: Global, game: &ForwardGame, solution: &Solution) -> Result<Verdict, RunFault>
    requires { length solution.now.rows ≡ length game.now }
    ensures verdict { IfOk result (λ verdict. IsVerdict game.now solution.now.rows verdict) }
    ensures fault { IfErr result (λ e. e ≡ RunFault.Memory) }
{
    match check_forward_solution(alloc, game, solution) {
        Ok(()) => Ok(Verdict::Holds),
        Err(SolutionFault::Memory) => Err(RunFault::Memory),
        Err(fault) => Ok(Verdict::Fails(fault)),
    }
}

/// Writes the verdict's line.
fn write_verdict<O: Sink>(alloc: Global, verdict: &Verdict, out: &mut O) -> Result<(), RunFault>
    ensures written { OnOk result (Appends (O.taken out.old) (O.taken out.new) (verdict_line verdict.now)) }
    ensures no_failure { (IsErrOf result RunFault.Write → ⊥) → O.write_failures out.new ≡ O.write_failures out.old }
    ensures cut { IsErrOf result RunFault.Write → AppendsPrefix (O.taken out.old) (O.taken out.new) (verdict_line verdict.now) }
    ensures failed { IsErrOf result RunFault.Write → HasFailed (O.write_failures out.old) (O.write_failures out.new) }
    ensures nothing { IfErr result (λ e. e ≢ RunFault.Write → Keeps (O.taken out.old) (O.taken out.new)) }
    ensures only { IfErr result (λ e. (e ≡ RunFault.Write) ⊎ (e ≡ RunFault.Memory)) }
{
    let line = verdict.line(alloc)?;
    write_all(line.as_slice(), out)
}

/// What is said of the winners and choices that the text of a source spells. The text is freed before they are judged.
fn verdict_from<S: Source>(
    alloc: Global,
    game: ForwardGame,
    source: &mut S,
) -> Result<Verdict, RunFault>
    ensures verdict { IfOk result (λ verdict. IfSome (S.left source.old) (λ text. (length text ≤ max_text) × IsVerdictOn game text verdict)) }
    ensures fault { IfErr result (λ e. IsNoSolution game (S.left source.old) e) }
    ensures reads { Reads result (S.read_failures source.old) (S.read_failures source.new) }
{
    let solution = solution_from(alloc, &game, source)?;
    verdict_on(alloc, &game, &solution)
}

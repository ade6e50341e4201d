//! The command line: its words and flags, its help, and what a line of words asks for. The kit's `clap` reads the words.
//! `-h` is short, and `--help` has examples too.

ghost use Rattle.std.specs.Prelude.{◌≡◌, ◌⊎◌, [], true, false, Ok, Err, IfOk, IfErr, codes, map};
ghost use Rattle.clap.specs.Simple.{new_shape};
ghost use Rattle.clap.specs.Values.{kind_of};
ghost use Rattle.clap.specs.Words.{Shape, app_of, rule_of, takes, with_subcommand};
ghost use Rattle.pgboard.specs.declared.arguments.Asked.{Asked};
ghost use Rattle.pgboard.specs.Asking.{IsInRange};
ghost use Rattle.pgboard.specs.Line.{program, workers_rule, bound_rule, winners_rule, known_rule, path_rule, IsAskedBy, AskForHelp};
ghost use Rattle.pgboard.specs.Line.{solve_command, trace_command, verify_command, tidy_command};
ghost use Rattle.pgboard.specs.private.Line.{IsCommand, IsHelp};

use crate::arguments::Asked;
use crate::fault::AskedFault;
use clap::error::ErrorKind;
use clap::{Arg, ArgAction, Command, Error, value_parser};
use pg_game::Memory;
use std::alloc::Global;

/// What the words after the program's name ask for.
///
/// `Words` where they are refused, with the text to print, and `Memory`. The joined run is asked for by no word alone.
pub fn asked(alloc: Global, words: &[&str]) -> Result<Asked, AskedFault>
    ensures range { IfOk result IsInRange }
    ensures no_word { words.now ≡ [] → result ≡ Ok Asked.Joined }
    ensures words { IfOk result (λ asked. IsAskedBy (map (λ word. word.now) words.now) asked) }
    ensures taken { takes program (map (λ word. word.now) words.now) ≡ true → (asked : Asked) → IsAskedBy (map (λ word. word.now) words.now) asked
        → IsInRange asked → IfErr result (λ e. e ≡ AskedFault.Memory) }
    ensures helped { AskForHelp (map (λ word. word.now) words.now) → IfErr result (λ e. e ≡ AskedFault.Memory) }
{
    if words.is_empty() {
        return Ok(Asked::Joined);
    }
    let command = command(alloc)?;
    match command.try_get_matches_from(words) {
        Ok(matches) => Asked::from_matches(alloc, &matches),
        Err(error) => help_or_fault(alloc, &error),
    }
}

/// The program's command. Its words are those after the program's name.
fn command<'a>(alloc: Global) -> Result<Command<'a>, Memory>
    ensures { IfOk result (λ command. app_of command ≡ program) }
{
    let alone = Command::new(alloc, "pgboard")
        .no_binary_name(true)
        .version(VERSION)
        .about(ABOUT)
        .long_about(LONG_ABOUT)
        .after_help(STATUSES)
        .bin_name("pgboard")?;
    let with_solve = with(alone, solve_command(alloc))?;
    let with_trace = with(with_solve, trace_command(alloc))?;
    let with_verify = with(with_trace, verify_command(alloc))?;
    let with_tidy = with(with_verify, tidy_command(alloc))?;
    Ok(with_tidy)
}

/// The kit's line is what `rt version` prints, without the letter of the release. The last words hold the place of what the
/// program can't know of itself: whether it was proved, and of what commit. Who builds it writes that over them, in a copy of
/// the program (`tools/build`), and fills the place with blanks.
const VERSION: &str = "0.1.0\n\
kit: rattle-kit-13 logic dac8208d650f15bf\n\
build: not recorded: whether this program was proved, and of which commit it is";

const ABOUT: &str =
    "pgboard 0.1.0: solves and verifies max-parity games in PGSolver's text formats";

const LONG_ABOUT: &str =
    "pgboard 0.1.0: solves and verifies max-parity games in PGSolver's text formats{n}{n}\
Without a command it reads a game and a solution in one text from standard{n}\
input, with the byte % between them. It writes one line: 'ok', or{n}\
'not a solution: ' and what is wrong first. A game with a % in a name needs{n}\
the command verify.{n}{n}\
Examples:{n}  \
pgboard solve game.pg > game.sol               solve a game{n}  \
pgboard verify game.pg game.sol                check any solver's solution{n}  \
pgboard trace --workers 1 game.pg              see how a game was solved{n}  \
pgboard tidy game.pg                           see how a game was read{n}  \
(cat game.pg; echo %; cat game.sol) | pgboard  check both in one text";

/// The file of the game, which may be left out.
fn game<'a>(alloc: Global) -> Arg<'a>
    ensures rule { rule_of result ≡ path_rule (codes "GAME") false }
    ensures local { result.global ≡ false }
{
    path(
        alloc,
        "GAME",
        "The file of the game; standard input without it",
    )
}

/// A path, taken literally.
fn path<'a>(alloc: Global, name: &'a str, help: &'a str) -> Arg<'a>
    ensures rule { rule_of result ≡ path_rule name.now false }
    ensures local { result.global ≡ false }
{
    Arg::new(alloc, name).help(help)
}

/// The command with one more subcommand.
fn with<'a>(
    command: Command<'a>,
    subcommand: Result<Command<'a>, Memory>,
) -> Result<Command<'a>, Memory>
    ensures { (shape : Shape) → IfOk subcommand.entry (λ added. IsCommand shape added)
        → IfOk result (λ r. app_of r ≡ with_subcommand (app_of command.entry) shape) }
{
    command.subcommand(subcommand?)
}

/// A subcommand with its short help and its long one.
fn subcommand<'a>(alloc: Global, name: &'a str, about: &'a str, long_about: &'a str) -> Command<'a>
    ensures { IsCommand (new_shape name.now) result }
{
    Command::new(alloc, name)
        .about(about)
        .long_about(long_about)
        .after_help(STATUSES)
}

const STATUSES: &str = "Exit status:{n}  \
0  done; the solution holds; help was asked for{n}  \
1  it is no solution; what is known does not hold{n}  \
2  the command line was refused{n}  \
3  a text was refused, or is too long{n}  \
4  a file was not opened or read, or the output was not written{n}  \
5  memory was refused";

/// The file of what is known already.
fn known<'a>(alloc: Global) -> Arg<'a>
    ensures rule { rule_of result ≡ known_rule }
    ensures local { result.global ≡ false }
{
    Arg::new(alloc, "known")
        .long("known")
        .value_name("FILE")
        .help("A solution text of what is known; it may omit vertices")
}

/// The command `verify`, with its files.
fn verify_command<'a>(alloc: Global) -> Result<Command<'a>, Memory>
    ensures { IfOk result (λ command. IsCommand verify_command command) }
{
    subcommand(alloc, "verify", VERIFY, LONG_VERIFY)
        .arg(path(alloc, "GAME", "The file of the game").required(true))?
        .arg(path(alloc, "SOLUTION", "The file of the solution").required(true))
}

const VERIFY: &str = "Says whether SOLUTION is a solution of GAME";

const LONG_VERIFY: &str = "Says whether SOLUTION is a solution of GAME{n}{n}\
It writes one line: 'ok', or 'not a solution: ' and what is wrong first. It{n}\
opens both files before it reads any, and it reads and judges the game before{n}\
it reads the solution.{n}{n}\
Example:{n}  \
pgboard verify game.pg game.sol && echo right";

/// The command `solve`, with its flags and its file.
fn solve_command<'a>(alloc: Global) -> Result<Command<'a>, Memory>
    ensures { IfOk result (λ command. IsCommand solve_command command) }
{
    subcommand(alloc, "solve", SOLVE, LONG_SOLVE)
        .arg(workers(alloc))?
        .arg(bound(alloc))?
        .arg(winners(alloc))?
        .arg(known(alloc))?
        .arg(game(alloc))
}

const SOLVE: &str = "Writes a solution of GAME";

const LONG_SOLVE: &str = "Writes a solution of GAME{n}{n}\
Each vertex has a line with its winner. If the winner owns the vertex, the line{n}\
has the winner's choice, too. A game has one set of winners, and often several{n}\
right choices. Without GAME it reads standard input.{n}{n}\
With --bound 0 the threads look for no small dominions.{n}{n}\
With --known FILE the search begins from a part of a solution. pgboard checks{n}\
this part first. If its choices do not win a player's vertices without leaving{n}\
them, pgboard writes no solution, and a line on standard error names the first{n}\
fault.{n}{n}\
Examples:{n}  \
pgboard solve game.pg > game.sol{n}  \
pgboard solve --winners < game.pg{n}  \
pgboard solve --known part.sol game.pg > game.sol";

/// Whether the winners alone are written.
fn winners<'a>(alloc: Global) -> Arg<'a>
    ensures rule { rule_of result ≡ winners_rule }
    ensures local { result.global ≡ false }
{
    Arg::new(alloc, "winners")
        .long("winners")
        .action(ArgAction::SetTrue)
        .help("Write the winners alone, without choices")
}

/// How many workers there are.
fn workers<'a>(alloc: Global) -> Arg<'a>
    ensures rule { rule_of result ≡ workers_rule }
    ensures local { result.global ≡ false }
{
    Arg::new(alloc, "workers")
        .long("workers")
        .value_name("N")
        .value_parser(value_parser!(u32).range(1..=64))
        .default_value("4")
        .help("How many threads look for dominions, 1 to 64")
}

/// How large the small dominions are that are looked for.
fn bound<'a>(alloc: Global) -> Arg<'a>
    ensures rule { rule_of result ≡ bound_rule }
    ensures local { result.global ≡ false }
{
    Arg::new(alloc, "bound")
        .long("bound")
        .value_name("N")
        .value_parser(value_parser!(u32).range(0..=8))
        .default_value("4")
        .help("The most vertices of a small dominion, 0 to 8")
}

/// The command `trace`, with its flag and its file.
fn trace_command<'a>(alloc: Global) -> Result<Command<'a>, Memory>
    ensures { IfOk result (λ command. IsCommand trace_command command) }
{
    subcommand(alloc, "trace", TRACE, LONG_TRACE)
        .arg(workers(alloc))?
        .arg(game(alloc))
}

const TRACE: &str = "Writes the journal of solving GAME, and the result of each job";

const LONG_TRACE: &str = "Writes the journal of solving GAME, and the result of each job{n}{n}\
The searches look for dominions of at most 4 vertices. The journal may differ in{n}\
another run. Without GAME it reads standard input.{n}{n}\
Example:{n}  \
pgboard trace --workers 1 game.pg";

/// The command `tidy`, with its file.
fn tidy_command<'a>(alloc: Global) -> Result<Command<'a>, Memory>
    ensures { IfOk result (λ command. IsCommand tidy_command command) }
{
    subcommand(alloc, "tidy", TIDY, LONG_TIDY).arg(game(alloc))
}

const TIDY: &str = "Writes GAME in its one written form";

const LONG_TIDY: &str = "Writes GAME in its one written form{n}{n}\
Vertices and their successors come by rising identifier, each once. Names and{n}\
the start line are left out. Without GAME it reads standard input.{n}{n}\
Example:{n}  \
zcat game.pg.gz | pgboard tidy > tidy.pg";

/// The text of help or of the version, where one was asked for, or else why the words are refused.
fn help_or_fault(alloc: Global, error: &Error) -> Result<Asked, AskedFault>
    ensures text { IfOk result IsHelp }
    ensures kind { IfOk result (λ _. (kind_of error.now ≡ ErrorKind.DisplayHelp) ⊎ (kind_of error.now ≡ ErrorKind.DisplayVersion)) }
    ensures helped { (kind_of error.now ≡ ErrorKind.DisplayHelp) ⊎ (kind_of error.now ≡ ErrorKind.DisplayVersion)
        → IfErr result (λ e. e ≡ AskedFault.Memory) }
    ensures memory { kind_of error.now ≡ ErrorKind.OutOfMemory → result ≡ Err AskedFault.Memory }
{
    match error.kind() {
        ErrorKind::OutOfMemory => Err(AskedFault::Memory),
        ErrorKind::DisplayHelp => Ok(Asked::Help(error.to_string(alloc)?)),
        ErrorKind::DisplayVersion => {
            let text = error.to_string(alloc)?;
            Ok(Asked::Help(without_last_blanks(alloc, text.as_str())?))
        }
        _ => Err(AskedFault::Words(error.to_string(alloc)?)),
    }
}

/// The text of the version without the blanks that fill the place of what a build says of itself.
fn without_last_blanks(alloc: Global, text: &str) -> Result<String, Memory> {
    let mut kept = String::from_str(alloc, text.trim_end())?;
    kept.push('\n')?;
    Ok(kept)
}

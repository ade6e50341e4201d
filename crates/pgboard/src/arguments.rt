//! What a command line may ask for, and how it is read from the values that the kit's `clap` found.

ghost use Rattle.std.specs.Prelude.{◌≡◌, ◌≤◌, ℕ, List, Option, Some, IfOk, IfErr, option_map, string_bytes};
ghost use Rattle.clap.specs.Words.{first_of, found_of, rows_of, subcommand_rows_of};
ghost use Rattle.pgboard.specs.declared.arguments.Asked.{Asked};
ghost use Rattle.pgboard.specs.Asking.{IsInRange, path_of, second_path_of};
ghost use Rattle.pgboard.specs.Line.{IsNumber, IsPath, IsRead};

use crate::fault::AskedFault;
use clap::ArgMatches;
use std::alloc::Global;

/// What a command line asks for.
#[derive(Debug, Drop, PartialEq, Eq)]
pub enum Asked {
    /// To judge a game and a solution in one text on standard input.
    Joined,
    /// To judge a solution of a game, each a path.
    Verify {
        game: String,
        solution: String,
    },
    /// To write a game in its written form. Without a path, that of standard input.
    Tidy {
        game: Option<String>,
    },
    /// To solve a game by 1 to 64 workers that look for dominions of at most `bound` vertices (0 to 8), and to write its
    /// solution, or its winners alone. What is known of it before is a path too, and may be left out. Without a path, the
    /// game of standard input.
    Solve {
        workers: u32,
        bound: u32,
        winners: bool,
        known: Option<String>,
        game: Option<String>,
    },
    /// To show how a game is solved by 1 to 64 workers. Without a path, that of standard input.
    Trace {
        workers: u32,
        game: Option<String>,
    },
    /// To print this text.
    Help(String),
}

impl Asked {
    /// What the words ask for that the command-line reader took. Without a command they are refused.
    pub(crate) fn from_matches(alloc: Global, matches: &ArgMatches<'_>) -> Result<Asked, AskedFault>
        ensures range { IfOk result IsInRange }
        ensures read { IfOk result (λ asked. IsRead (subcommand_rows_of matches.now) asked) }
        ensures taken { (asked : Asked) → IsRead (subcommand_rows_of matches.now) asked → IsInRange asked → IfErr result (λ e. e ≡ AskedFault.Memory) }
    {
        match matches.subcommand() {
            Some(("verify", given)) => {
                let game = path(alloc, given, "GAME")?;
                let solution = path(alloc, given, "SOLUTION")?;
                Ok(Asked::Verify { game, solution })
            }
            Some(("tidy", given)) => {
                let game = optional_path(alloc, given, "GAME")?;
                Ok(Asked::Tidy { game })
            }
            Some(("solve", given)) => {
                let workers = number(alloc, given, "workers", 1, 64)?;
                let bound = number(alloc, given, "bound", 0, 8)?;
                let winners = given.get_flag("winners");
                let known = optional_path(alloc, given, "known")?;
                let game = optional_path(alloc, given, "GAME")?;
                Ok(Asked::Solve {
                    workers,
                    bound,
                    winners,
                    known,
                    game,
                })
            }
            Some(("trace", given)) => {
                let workers = number(alloc, given, "workers", 1, 64)?;
                let game = optional_path(alloc, given, "GAME")?;
                Ok(Asked::Trace { workers, game })
            }
            _ => Err(AskedFault::words(alloc, "error: there is no such command\n")),
        }
    }

    /// The path of the file of the game, where one was given.
    pub fn path(&self) -> Option<&str>
        ensures { option_map (λ path. path.now) result ≡ path_of self.now }
    {
        match self {
            Asked::Tidy { game } => given(game),
            Asked::Solve { game, .. } => given(game),
            Asked::Trace { game, .. } => given(game),
            Asked::Verify { game, .. } => Some(game.as_str()),
            Asked::Joined | Asked::Help(_) => None,
        }
    }

    /// The path of a second file, of the solution to be verified or of what is known, where one was given.
    pub fn second_path(&self) -> Option<&str>
        ensures { option_map (λ path. path.now) result ≡ second_path_of self.now }
    {
        match self {
            Asked::Verify { solution, .. } => Some(solution.as_str()),
            Asked::Solve { known, .. } => given(known),
            Asked::Joined | Asked::Tidy { .. } | Asked::Trace { .. } | Asked::Help(_) => None,
        }
    }
}

/// The text, where there is one.
fn given(text: &Option<String>) -> Option<&str>
    ensures { option_map (λ text. text.now) result ≡ option_map (λ text. string_bytes text) text.now }
{
    match text {
        Some(text) => Some(text.as_str()),
        None => None,
    }
}

/// The path that was given under this name. One that can't be read back is refused.
fn path(alloc: Global, given: &ArgMatches<'_>, name: &str) -> Result<String, AskedFault>
    ensures value { IfOk result (λ path. first_of name.now (rows_of (found_of given.now)) ≡ Some (string_bytes path)) }
    ensures taken { (path : List ℕ) → first_of name.now (rows_of (found_of given.now)) ≡ Some path → IfErr result (λ e. e ≡ AskedFault.Memory) }
{
    match given.get_str(name) {
        Some(path) => Ok(String::from_str(alloc, path)?),
        None => Err(AskedFault::words(alloc, "error: a path is missing\n")),
    }
}

/// The path that may have been given under this name.
fn optional_path(
    alloc: Global,
    given: &ArgMatches<'_>,
    name: &str,
) -> Result<Option<String>, AskedFault>
    ensures value { IfOk result (λ path. IsPath name.now (rows_of (found_of given.now)) (option_map (λ path. string_bytes path) path)) }
    ensures taken { (path : Option (List ℕ)) → IsPath name.now (rows_of (found_of given.now)) path → IfErr result (λ e. e ≡ AskedFault.Memory) }
{
    if given.contains_id(name) {
        return Ok(Some(path(alloc, given, name)?));
    }
    Ok(None)
}

/// The number that was given under this name. The command-line reader has judged its range; a number that is out of it
/// all the same is refused.
fn number(
    alloc: Global,
    given: &ArgMatches<'_>,
    name: &str,
    least: u32,
    most: u32,
) -> Result<u32, AskedFault>
    ensures range { IfOk result (λ n. (least ≤ n) × (n ≤ most)) }
    ensures value { IfOk result (λ n. IsNumber name.now (rows_of (found_of given.now)) n) }
    ensures taken { (n : ℕ) → IsNumber name.now (rows_of (found_of given.now)) n → least ≤ n → n ≤ most
        → IfErr result (λ e. e ≡ AskedFault.Memory) }
{
    if let Some(n) = given.get_one::<u32>(name) {
        if least <= n && n <= most {
            return Ok(n);
        }
    }
    Err(AskedFault::words(alloc, "error: a number is out of its range\n"))
}

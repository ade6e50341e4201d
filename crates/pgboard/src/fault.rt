//! The faults of runs and command lines, with their texts and their exit statuses.

ghost use Rattle.std.specs.Prelude.{◌≡◌};
ghost use Rattle.pgboard.specs.Asking.{Says};
ghost use Rattle.pgboard.specs.Status.{status_of, asked_status_of};

use pg_game::Memory;
use pg_text::{SolutionTextFault, TextFault};
use pg_workers::KnownFault;
use std::alloc::{AllocFailed, Global};
use thiserror::Error;

/// Why a run has no result.
#[derive(Clone, Copy, Debug, Drop, PartialEq, Eq, Error)]
pub enum RunFault {
    /// A file could not be opened, or a read failed.
    #[error("read fault")]
    Read,
    /// A text has more than 268,435,456 bytes.
    #[error("text too long")]
    TooLong,
    /// The game's text was refused.
    #[error("game: {0}")]
    Game(TextFault),
    /// The text of a solution, or of what is known, was refused.
    #[error("solution: {0}")]
    Solution(SolutionTextFault),
    /// A player's known set is no region of his.
    #[error("known: {0}")]
    Known(KnownFault),
    /// A write failed. A prefix of the output may have gone out.
    #[error("write fault")]
    Write,
    /// The allocator refused.
    #[error("no memory")]
    Memory,
}

impl RunFault {
    /// The exit status of a run that ends with this fault.
    pub fn status(&self) -> u8
        ensures { result ≡ status_of self.now }
    {
        match self {
            RunFault::Known(_) => 1,
            RunFault::TooLong | RunFault::Game(_) | RunFault::Solution(_) => 3,
            RunFault::Read | RunFault::Write => 4,
            RunFault::Memory => 5,
        }
    }
}

impl From<Memory> for RunFault {
    ghost use Rattle.std.specs.Prelude.{◌≡◌};
    ghost use Rattle.pgboard.specs.declared.fault.RunFault.{RunFault};

    ghost from_gives = { λ _ e. e ≡ RunFault.Memory };

    fn from(_error: Memory) -> RunFault {
        RunFault::Memory
    }
}

/// Why a command line was refused.
#[derive(Debug, Drop, PartialEq, Eq, Error)]
pub enum AskedFault {
    /// The words were refused. The text says why, and ends with a line feed.
    #[error("{0}")]
    Words(String),
    /// The allocator refused.
    #[error("pgboard: no memory\n")]
    Memory,
}

impl AskedFault {
    /// The error for refused words with this text, or `Memory`.
    pub fn words(alloc: Global, text: &str) -> AskedFault
        ensures { Says text.now result }
    {
        match String::from_str(alloc, text) {
            Ok(text) => AskedFault::Words(text),
            Err(error) => AskedFault::from(error),
        }
    }

    /// The exit status for a refused command line.
    pub fn status(&self) -> u8
        ensures { result ≡ asked_status_of self.now }
    {
        match self {
            AskedFault::Words(_) => 2,
            AskedFault::Memory => 5,
        }
    }
}

impl<T: Drop> From<AllocFailed<T>> for AskedFault {
    ghost use Rattle.std.specs.Prelude.{◌≡◌};
    ghost use Rattle.pgboard.specs.declared.fault.AskedFault.{AskedFault};

    ghost from_gives = { λ _ e. e ≡ AskedFault.Memory };

    fn from(_error: AllocFailed<T>) -> AskedFault {
        AskedFault::Memory
    }
}

impl From<Memory> for AskedFault {
    ghost use Rattle.std.specs.Prelude.{◌≡◌};
    ghost use Rattle.pgboard.specs.declared.fault.AskedFault.{AskedFault};

    ghost from_gives = { λ _ e. e ≡ AskedFault.Memory };

    fn from(_error: Memory) -> AskedFault {
        AskedFault::Memory
    }
}

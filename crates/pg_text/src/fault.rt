//! Why a text was refused. Places count bytes from 0. The members are in order: the first that applies anywhere in the text
//! is the fault.

ghost use Rattle.std.specs.Prelude.{◌≡◌};
ghost use Rattle.pg_text.specs.declared.fault.TextFault.TheVariants as game;
ghost use Rattle.pg_text.specs.declared.fault.SolutionTextFault.TheVariants as solution;
ghost use Rattle.pg_text.specs.declared.fault.ParseFault.TheVariants as parse;
ghost use Rattle.pg_text.specs.ParseFault.{game_fault, solution_fault};

use pg_game::{GameFault, Memory};
use thiserror::Error;

/// Why a text is none of a grammar.
#[derive(Clone, Copy, Drop)]
pub enum ParseFault {
    /// The first byte that is no blank and begins no token, or the first quote that is never closed.
    Lexical(u32),
    /// The first token that is not allowed there; the text's length where it ends too early.
    Syntax(u32),
    /// The first number above 2,147,483,647.
    Number(u32),
    /// The first player that is neither 0 nor 1, by its value.
    Player(u32),
    /// Memory was refused.
    Memory,
}

impl From<Memory> for ParseFault {
    ghost from_gives = { λ _ fault. fault ≡ parse.Memory };

    fn from(_fault: Memory) -> ParseFault {
        ParseFault::Memory
    }
}

/// Why a text is no game.
#[derive(Clone, Copy, Debug, Drop, PartialEq, Eq, Error)]
pub enum TextFault {
    /// The first byte that is no blank and begins no token, or the first quote that is never closed.
    #[error("byte {0}: no token")]
    Lexical(u32),
    /// The first token that is not allowed there; the text's length where it ends too early.
    #[error("byte {0}: not expected")]
    Syntax(u32),
    /// The first number above 2,147,483,647.
    #[error("byte {0}: number too large")]
    Number(u32),
    /// The first owner that is neither 0 nor 1, by its value.
    #[error("byte {0}: owner is not 0 or 1")]
    Owner(u32),
    /// The specifications make no game. Never `GameFault::Memory`.
    #[error(transparent)]
    Game(GameFault),
    /// Memory was refused.
    #[error("no memory")]
    Memory,
}

impl From<Memory> for TextFault {
    ghost from_gives = { λ _ fault. fault ≡ game.Memory };

    fn from(_fault: Memory) -> TextFault {
        TextFault::Memory
    }
}

impl From<ParseFault> for TextFault {
    ghost from_gives = { λ e fault. fault ≡ game_fault e };

    fn from(fault: ParseFault) -> TextFault {
        match fault {
            ParseFault::Lexical(at) => TextFault::Lexical(at),
            ParseFault::Syntax(at) => TextFault::Syntax(at),
            ParseFault::Number(at) => TextFault::Number(at),
            ParseFault::Player(at) => TextFault::Owner(at),
            ParseFault::Memory => TextFault::Memory,
        }
    }
}

/// Why a text is no solution text of a game. Faults have the identifiers of vertices.
#[derive(Clone, Copy, Debug, Drop, PartialEq, Eq, Error)]
pub enum SolutionTextFault {
    /// The first byte that is no blank and begins no token, or the first quote that is never closed.
    #[error("byte {0}: no token")]
    Lexical(u32),
    /// The first token that is not allowed there; the text's length where it ends too early.
    #[error("byte {0}: not expected")]
    Syntax(u32),
    /// The first number above 2,147,483,647.
    #[error("byte {0}: number too large")]
    Number(u32),
    /// The first winner that is neither 0 nor 1, by its value.
    #[error("byte {0}: winner is not 0 or 1")]
    Winner(u32),
    /// The first identifier, of a line or a choice, that is not in the game.
    #[error("vertex {0}: not in the game")]
    Stranger(u32),
    /// The first line whose identifier has an earlier line.
    #[error("vertex {0}: written twice")]
    Twice(u32),
    /// The least identifier without a line.
    #[error("vertex {0}: not written")]
    Missing(u32),
    /// Memory was refused.
    #[error("no memory")]
    Memory,
}

impl From<Memory> for SolutionTextFault {
    ghost from_gives = { λ _ fault. fault ≡ solution.Memory };

    fn from(_fault: Memory) -> SolutionTextFault {
        SolutionTextFault::Memory
    }
}

impl From<ParseFault> for SolutionTextFault {
    ghost from_gives = { λ e fault. fault ≡ solution_fault e };

    fn from(fault: ParseFault) -> SolutionTextFault {
        match fault {
            ParseFault::Lexical(at) => SolutionTextFault::Lexical(at),
            ParseFault::Syntax(at) => SolutionTextFault::Syntax(at),
            ParseFault::Number(at) => SolutionTextFault::Number(at),
            ParseFault::Player(at) => SolutionTextFault::Winner(at),
            ParseFault::Memory => SolutionTextFault::Memory,
        }
    }
}

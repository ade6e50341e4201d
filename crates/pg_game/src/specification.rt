//! What specifies one vertex of a game, the limits of a game, and why specifications make none.

use crate::player::Player;
use crate::sequence::Sequence;
use std::alloc::{AllocError, AllocFailed};
use thiserror::Error;

/// What a text says of one vertex. The successors are identifiers.
#[derive(Drop)]
pub struct Spec {
    pub id: u32,
    pub priority: u32,
    pub owner: Player,
    pub successors: Sequence<u32>,
}

/// The greatest number of vertices.
pub const MAX_VERTICES: usize = 1_048_576;

/// The greatest number of edges.
pub const MAX_EDGES: usize = 16_777_216;

/// Why specifications make no game.
#[derive(Clone, Copy, Debug, Drop, PartialEq, Eq, Error)]
pub enum GameFault {
    /// The list is empty.
    #[error("no vertex")]
    NoVertex,
    /// The list has more than 1,048,576 specifications.
    #[error("too many vertices")]
    TooManyVertices,
    /// The first identifier that is earlier in the list.
    #[error("vertex {0}: specified twice")]
    Twice(u32),
    /// The first specification without a successor.
    #[error("vertex {0}: no successor")]
    NoSuccessor(u32),
    /// Distinct successors, summed over the specifications, are more than 16,777,216.
    #[error("too many edges")]
    TooManyEdges,
    /// The first specification with a successor that none specifies, and the first such successor.
    #[error("vertex {0}: successor {1} is not specified")]
    Unknown(u32, u32),
    /// Memory was refused.
    #[error("no memory")]
    Memory,
}

impl From<AllocError> for GameFault {
    ghost use Rattle.std.specs.Prelude.{◌≡◌};
    ghost use Rattle.pg_game.specs.declared.specification.GameFault.TheVariants.{Memory};

    ghost from_gives = { λ _ fault. fault ≡ Memory };

    fn from(_fault: AllocError) -> GameFault {
        GameFault::Memory
    }
}

impl<T: Drop> From<AllocFailed<T>> for GameFault {
    ghost use Rattle.std.specs.Prelude.{◌≡◌};
    ghost use Rattle.pg_game.specs.declared.specification.GameFault.TheVariants.{Memory};

    ghost from_gives = { λ _ fault. fault ≡ Memory };

    fn from(_fault: AllocFailed<T>) -> GameFault {
        GameFault::Memory
    }
}

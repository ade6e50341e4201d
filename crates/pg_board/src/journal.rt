//! What a board returns of a post: an entry of its journal and the entry's numbers, or why it refuses the claim.

use pg_dominion::ClaimFault;
use pg_game::{Memory, Player, Sequence};

/// The vertices that one post settled: first the `claimed` rows of the claim's rest, with the claim's choices, then the
/// attracted rows. Each of these leads to earlier rows or to the player's old region. A row is a vertex and its choice, or
/// none if the player does not own it.
#[derive(Drop)]
pub struct Entry {
    pub worker: u32,
    pub player: Player,
    pub claimed: u32,
    pub rows: Sequence<(u32, Option<u32>)>,
}

/// The numbers of an accepted post: the entry's number from 0, the number of rows of the claim's rest, and the number
/// of vertices that it settled.
#[derive(Clone, Copy, Debug, Drop, PartialEq, Eq)]
pub struct Posted {
    pub entry: u64,
    pub claimed: u32,
    pub settled: u32,
}

/// Why a board refuses a claim: the first of these reasons that applies. `Memory` may come in place of any.
#[derive(Clone, Copy, Debug, Drop, PartialEq, Eq)]
pub enum Refusal {
    /// The claim does not have its shape, or has a bad closed walk inside; never `ClaimFault::Memory`.
    Claim(ClaimFault),
    /// A checked claim does not agree with the board's game: the vertex of its first row that differs.
    Foreign(u32),
    /// The least vertex of the claim that is settled for the opponent.
    Lost(u32),
    /// All vertices of the claim are settled for the player.
    Stale,
    /// The first kept edge of the rest, from and to, that ends neither in the rest nor at the player's vertices.
    Open(u32, u32),
    /// Memory was refused.
    Memory,
}

impl From<Memory> for Refusal {
    ghost use Rattle.std.specs.Prelude.{◌≡◌};
    ghost use Rattle.pg_board.specs.declared.journal.Refusal.{Refusal};

    ghost from_gives = { λ _ r. r ≡ Refusal.Memory };

    fn from(_error: Memory) -> Refusal {
        Refusal::Memory
    }
}

impl From<ClaimFault> for Refusal {
    ghost use Rattle.std.specs.Prelude.{◌≡◌};
    ghost use Rattle.pg_board.specs.Refusal.{refusal_of};

    ghost from_gives = { λ fault r. r ≡ refusal_of fault };

    fn from(fault: ClaimFault) -> Refusal {
        match fault {
            ClaimFault::Memory => Refusal::Memory,
            _ => Refusal::Claim(fault),
        }
    }
}

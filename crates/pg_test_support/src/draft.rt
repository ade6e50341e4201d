//! Unfinished games, and games by tables.

ghost use Rattle.std.specs.Prelude.{All};
ghost use Rattle.pg_game.specs.Specification.{AreNumbers};

use crate::sets::vertices_of;
use pg_game::{Game, GameFault, Memory, Player, Sequence, Spec};
use std::alloc::Global;

pub const EVEN: Player = Player::Even;

pub const ODD: Player = Player::Odd;

/// A vertex of a claim or an entry, and the choice there.
pub type Row = (u32, Option<u32>);

/// The priority, the owner and the successors of a vertex.
pub type Vertex<'a> = (u32, Player, &'a [u32]);

/// The same with a set of successors; a game is a slice of them.
pub type Plain = (u32, Player, u32);

/// An unfinished game, whose identifiers are 0, 1 and so on.
#[derive(Drop)]
pub struct Draft {
    specs: Vec<Spec>,
    ghost numbers: { All AreNumbers specs.items },
}

impl Draft {
    pub fn new(alloc: Global) -> Draft {
        Draft {
            specs: Vec::new(alloc),
        }
    }

    /// How many vertices there are, as far as a game may have them.
    pub fn len(&self) -> u32 {
        self.specs.len().min(1_048_576) as u32
    }

    /// Adds a vertex of at most the greatest priority.
    pub fn add(
        &mut self,
        alloc: Global,
        priority: u32,
        owner: Player,
        successors: &[u32],
    ) -> Result<(), Memory> {
        let successors = Sequence::new(Vec::from_slice(alloc, successors)?);
        self.specs.push(Spec {
            id: self.specs.len().min(1_048_576) as u32,
            priority: priority.min(2_147_483_647),
            owner,
            successors,
        })?;
        Ok(())
    }

    pub fn game(self, alloc: Global) -> Result<Game, GameFault> {
        Game::from_specs(alloc, self.specs)
    }
}

/// The game of these vertices.
pub fn game_of(alloc: Global, rows: &[Vertex]) -> Result<Game, GameFault> {
    let mut draft = Draft::new(alloc);
    for (priority, owner, successors) in rows {
        draft.add(alloc, *priority, *owner, *successors)?;
    }
    draft.game(alloc)
}

/// The game of these vertices, whose successors are sets.
pub fn game_of_sets(alloc: Global, rows: &[Plain]) -> Result<Game, GameFault> {
    let mut draft = Draft::new(alloc);
    for (priority, owner, set) in rows {
        let successors = vertices_of(alloc, *set)?;
        draft.add(alloc, *priority, *owner, successors.as_slice())?;
    }
    draft.game(alloc)
}

/// How many vertices a game of sets has, which are below 32.
pub fn size_of(game: &[Plain]) -> u32 {
    game.len().min(32) as u32
}

/// This many vertices of Even's, of priority 0, each of which is its own and only successor.
pub fn own_loops(alloc: Global, n: u32) -> Result<Game, GameFault> {
    let mut draft = Draft::new(alloc);
    for v in 0..n {
        draft.add(alloc, 0, EVEN, [v].as_slice())?;
    }
    draft.game(alloc)
}

//! Parity games and sets of their vertices, in the terms of the PGSolver manual.
//! A game is made of specifications, and stores its edges as compressed rows in both directions. A `ForwardGame` stores
//! them in one.
#![tactic(auto)]

/// The error for refused memory.
pub type Memory = std::alloc::AllocError;

mod adjacency;
mod builder;
mod game;
mod identifiers;
mod mask;
mod player;
mod sequence;
mod specification;

pub use builder::{GameBuilder, IncrementalBuilder};
pub use game::{ForwardGame, Game};
pub use mask::Mask;
pub use player::Player;
pub use sequence::Sequence;
pub use specification::{GameFault, Spec};

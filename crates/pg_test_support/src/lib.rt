//! What the crates of tests share: assertions, games by tables, sets of vertices, and numbers that look
//! random. It is used by tests alone.
#![tactic(auto)]

mod asserting;
mod draft;
mod memory;
mod random;
mod sets;

pub use draft::{Draft, EVEN, ODD, Plain, Row, Vertex, game_of, game_of_sets, own_loops, size_of};
pub use memory::{lacking, needed};
pub use random::{Random, random_game};
pub use sets::{bit, has, mask_of};

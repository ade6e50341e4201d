//! Worked cases, and that no search of a large game takes long.

mod accepted;
mod asserting;
mod games;
mod kept;
mod readme;
mod subgames;
mod worked;

//! Subgames and the finders of dominions in them: single vertices, solitaire subgames, small dominions by a search from
//! seeds, and Zielonka's recursion (1998), which solves a whole subgame. Each claim of these finders is good in its
//! subgame.
#![tactic(auto)]

mod finder;
mod inside;
mod loops;
mod recursion;
mod small;
mod solitaire;

pub use finder::{Finder, Found, Job, Standard};
pub use inside::{Copied, Inside};
pub use loops::find_loop;
pub use recursion::{Advanced, Recursion, Solved, zielonka, zielonka_within};
pub use small::{Small, find_small};
pub use solitaire::find_solitaire;

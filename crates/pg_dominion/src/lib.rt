//! Attractors, claims, and the checks of claims and solutions of a parity game.
//!
//! `attract` gives the least set; `check_claim` and `check_solution` are exact.
#![tactic(auto)]

mod attractor;
mod checked;
mod claim;
mod components;
mod cursors;
mod cycles;
mod depth_first;
mod notes;
mod peeling;
mod ranking;
mod solution;
mod strategy_graph;

pub use attractor::{AttractorState, attract, attract_from};
pub use checked::{Checked, CheckedRow, check_claim};
pub use claim::{Claim, ClaimFault, judge_claim};
pub use cursors::Cursors;
pub use cycles::least_on_bad_cycle;
pub use notes::{is_bad, own_choice};
pub use solution::{SolutionFault, check_forward_solution, check_solution};
pub use strategy_graph::StrategyGraph;

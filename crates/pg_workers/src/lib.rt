//! Workers that share out jobs: each draws a job, searches for dominions on a copy of the board's unsettled part, and
//! settles what it finds. The board checks each claim; the calling thread solves what the workers left unsettled.
#![tactic(auto)]

mod alone;
mod jobs;
mod known;
mod report;
mod solve;
mod threads;
mod worker;

pub use alone::{solve_alone, solve_board};
pub use jobs::{Drawn, Jobs, Ticket};
pub use known::{KnownFault, KnownOf, SolveFault, known_fault};
pub use pg_board::{BUDGET, Options};
pub use report::ReportRow;
pub use solve::{Outcome, solve_game};
pub use worker::{Gate, Pass};

//! Readers and writers of the texts of parity games and of their solutions (the formats of PGSolver's manual, with this
//! project's limits). A reader returns what a text says, or its first fault and the place. A writer has one spelling for each
//! value.
#![tactic(auto)]

mod fault;
mod game_text;
pub mod laws;
mod lexer;
mod reader;
mod reading;
mod solution_text;
mod writing;

pub use fault::{SolutionTextFault, TextFault};
pub use reading::{
    MAX_TEXT, read_forward_game, read_forward_solution, read_game, read_known, read_solution,
    take_solution,
};
pub use solution_text::{Known, Solution};
pub use writing::{
    choice_before, end_before, number_before, put_number, write_forward_game, write_game,
    write_solution, write_winners,
};

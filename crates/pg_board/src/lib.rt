//! The board: it checks each claim against its state, closes both regions under attraction, and keeps a journal of which
//! every prefix is lawful. The session: a game with its board. The office: one board under a lock.
#![tactic(auto)]

mod advance;
mod board;
mod contents;
mod finish;
mod journal;
pub mod laws;
mod office;
mod options;
mod regions;
mod session;

pub use board::Board;
pub use journal::{Entry, Posted, Refusal};
pub use office::{Office, Opening, Share};
pub use options::{BUDGET, Options};
pub use session::Session;

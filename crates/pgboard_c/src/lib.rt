//! A static library for C: games, and winners and choices, in arrays and in texts. It starts no thread.
//!
//! `include/pgboard.h` declares the exports, and names each answer.
#![tactic(auto)]

mod arrays;
mod board;
mod board_texts;
mod claims;
mod fault;
mod held;
mod known;
mod on_arrays;
mod on_texts;
mod text;
mod vertices;

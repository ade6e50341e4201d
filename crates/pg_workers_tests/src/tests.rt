//! Runs with threads: what workers are given and what they note, in random orders too, and tickets.

mod alone;
mod asserting;
mod draws;
mod finders;
mod games;
mod gates;
mod known;
mod memory;
mod numbers;
mod readme;
mod reports;
mod runs;
mod schedules;
mod starts;
mod threads;

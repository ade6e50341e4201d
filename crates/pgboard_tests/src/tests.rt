//! Runs over sources and sinks in memory, also such as fail, with finders that are wrong and gates that hold a worker, and
//! what the lines of words ask for. What the built program shows as well is in `tests/program/cli` at the top.

mod asserting;
mod calls;
mod command_line;
mod concurrency;
mod devices;
mod failing_devices;
mod failure_counts;
mod finders;
mod known_devices;
mod wrong_finders;

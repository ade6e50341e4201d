//! The tests of `pg_workers`, which calls it as any other crate does.
#![tactic(auto)]

#[cfg(test)]
mod tests;

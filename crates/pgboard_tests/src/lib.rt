//! The tests of `pgboard`, which calls it as any other crate does.
#![tactic(auto)]

#[cfg(test)]
mod tests;

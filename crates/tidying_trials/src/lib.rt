//! Trials of tidying: how few updates a worker's spines show their readers once it has tidied.
//!
//! They are as crate `trials` says. Clauses say where the holds are after tidying, and that nothing
//! is left to merge. How many updates that leaves no clause says. The code under test is in the
//! crates below, and so are its must-fail edits.
#![tactic(auto)]

#[cfg(test)]
mod kept_tests;

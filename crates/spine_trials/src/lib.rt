//! Trials of spines and levels: tests of what no clause says, as crate `trials` has them for the
//! libraries below. The code under test is in the crates below, and so are its must-fail edits.
#![tactic(auto)]

#[cfg(test)]
mod levels_tests;
#[cfg(test)]
mod spine_tests;

//! Trials of the tally: tests of what no clause says, as crate `trials` has them for the libraries
//! below. What a tally keeps is tested in crate `kept_trials`. The code under test is in the crate
//! below, and so are its must-fail edits.
#![tactic(auto)]

#[cfg(test)]
mod tally_tests;

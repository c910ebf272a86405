//! Trials of what a tally keeps: its items, as often as they were counted, and the frontiers that
//! it found before. They are tests of what no clause says, as crate `trials` has them for the
//! libraries below. The code under test is in the crate below, and so are its must-fail edits.
#![tactic(auto)]

#[cfg(test)]
mod counted_tests;
#[cfg(test)]
mod kept_tests;

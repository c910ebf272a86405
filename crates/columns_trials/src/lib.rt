//! Trials of columns, and of the views that keep them: tests of what no clause says, as crate
//! `trials` has them for the libraries below. The code under test is in the crates below, and so
//! are its must-fail edits.
#![tactic(auto)]

#[cfg(test)]
mod columns_tests;
#[cfg(test)]
mod view_tests;

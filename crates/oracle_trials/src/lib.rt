//! Trials of the plain query and its differences: tests of what no clause says, as crate `trials`
//! has them for the libraries below.
//!
//! This crate exports one function, [`listed`], with which tests hold what an operator gives
//! against the plain query. The code under test is in the crates below, and so are its must-fail
//! edits.
#![tactic(auto)]

#[cfg(test)]
mod difference_tests;
mod listing;
#[cfg(test)]
mod oracle_tests;

pub use listing::listed;

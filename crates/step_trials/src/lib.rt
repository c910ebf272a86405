//! Trials of steps: tests of a worker among many at one board, all of them on one thread, of what
//! no clause says.
//!
//! They are as crate `trials` says. Clauses say what each answer of a step means. No clause says
//! that a worker ever comes to an end with its pieces, or that the board is quiet then. So these
//! tests feed a board, step its workers in some order until the board is quiet, and compare what
//! the client then finds with rows that were found by hand. The code under test is in the crates
//! below, and so are its must-fail edits.
#![tactic(auto)]

#[cfg(test)]
mod quiet_tests;
#[cfg(test)]
mod worked;
#[cfg(test)]
mod worked_tests;

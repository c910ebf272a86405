//! Trials of the abstract machine, and of the reading of command files: tests of what no clause
//! says, as crate `trials` has them for the libraries below. The code under test is in the crates
//! below, and so are its must-fail edits.
#![tactic(auto)]

#[cfg(test)]
mod grammar_tests;
#[cfg(test)]
mod machine_tests;
#[cfg(test)]
mod moves;
#[cfg(test)]
mod partial_tests;
#[cfg(test)]
mod piece_tests;
#[cfg(test)]
mod port_tests;

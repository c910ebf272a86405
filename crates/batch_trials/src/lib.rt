//! Trials of batches and traces: tests of what no clause says, as crate `trials` has them for the
//! libraries below.
//!
//! This crate exports what tests of spines, joins and reductions make their batches and traces
//! with: [`sealed`] and [`insert`]. The code under test is in the crates below, and so are its
//! must-fail edits.
#![tactic(auto)]

#[cfg(test)]
mod batch_tests;
mod batches;
#[cfg(test)]
mod merge_tests;
#[cfg(test)]
mod trace_tests;

pub use batches::{insert, sealed};

//! Trials of the engine: tests of the hub, of what lies gathered, of the worker and of the run of a
//! command file, of what no clause says.
//!
//! They are as crate `trials` says. The crates of tests are proved side by side, and those of the
//! lower layers do not wait for the engine. Nor are they proved again when the engine changes.
//!
//! This crate exports one function, [`worker_and_client`], with which tests open a board for one
//! worker and one client. The code under test is in the crates below, and so are its must-fail
//! edits.
#![tactic(auto)]

#[cfg(test)]
mod actor_tests;
#[cfg(test)]
mod gate_tests;
#[cfg(test)]
mod gathered_tests;
#[cfg(test)]
mod hub_tests;
mod pairs;
#[cfg(test)]
mod script_tests;
#[cfg(test)]
mod worker_tests;

pub use pairs::{BoardActor, Players, worker_and_client};

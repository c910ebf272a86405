//! Trials of workers on threads: that a run ends, and that no answer shows how many of them there
//! were. That they run at once is tried by a script, in crate `engine_trials`.
//!
//! They are as crate `trials` says. No clause says that a thread gets on. The code under test is in
//! the crates below, and so are its must-fail edits.
#![tactic(auto)]

#[cfg(test)]
mod ledger_tests;
#[cfg(test)]
mod run_tests;

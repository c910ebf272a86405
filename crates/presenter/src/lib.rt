//! The answers of a run as CSV tables with names.
//!
//! A run's text is numbers alone. [`show`] goes through it line by line and writes each answer as a
//! table of CSV: dates, amounts with their point, and the names of codes, as the
//! [`dictionary::Dictionary`] says. Numbers of which it says nothing stay numbers.
#![tactic(auto)]

mod fault;
mod lines;
mod presentation;
mod sheet;

pub use fault::{ShowFault, ShowProblem};
pub use presentation::show;

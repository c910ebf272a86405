//! Trials: tests of what no clause of the libraries says. They call only public functions.
//!
//! Contracts fix nearly every answer. The command files of `cases/` show most of the rest on the
//! built program, at no cost of proof. What is left is tested here: that a call with enough memory
//! succeeds at all, although its contract would allow it to be refused every time; that a call
//! whose memory was refused succeeds once there is memory (the tests with `memory` in their names,
//! which `./refusals` runs); and small worked examples of what no command file reaches yet. The
//! expected answers were worked out by hand.
//!
//! All tests stand in crates of their own, whose names end in `trials`. The merge gate proves a
//! crate with tests twice, with and without them, and most proofs of a large crate do not depend on
//! its tests. Here they are proved once, over finished libraries. Tests are proved like all other
//! code, and some take half a minute of processor time, so there are few. They are cut along the
//! layers that they test. So these crates are proved side by side, and a change of one layer proves
//! anew only the tests of what stands on it:
//!
//! | Crate | Has the tests of |
//! |---|---|
//! | `trials` | lattice, row, antichain, update, plan, linear |
//! | `oracle_trials` | oracle |
//! | `machine_trials` | machine, grammar |
//! | `batch_trials` | batch, trace |
//! | `spine_trials` | spine |
//! | `join_trials` | join |
//! | `reduce_trials` | reduce |
//! | `engine_trials` | hub, worker, script |
//! | `step_trials` | steps |
//! | `columns_trials` | columns, views |
//! | `progress_trials`, `kept_trials` | progress |
//!
//! This crate is the lowest of them, and exports what tests of several crates are written with:
//! [`at`], with which all tests write times; the [`sketches`] of nodes, plans and changes; and
//! [`Draws`]. The code under test is in the crates below, and so are its must-fail edits.
#![tactic(auto)]

#[cfg(test)]
mod antichain_tests;
mod draws;
#[cfg(test)]
mod lattice_tests;
#[cfg(test)]
mod linear_tests;
#[cfg(test)]
mod plan_tests;
#[cfg(test)]
mod row_tests;
pub mod sketches;
mod times;
#[cfg(test)]
mod update_tests;

pub use draws::Draws;
pub use times::at;

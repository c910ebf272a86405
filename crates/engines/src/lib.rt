//! Engines: what carries out the commands of a script and answers its questions.
//!
//! A session is the changes accepted so far, the inputs' frontiers, and the frontier from which
//! each view may be read (`specs/Sessions`). The session alone decides whether a command is refused
//! or accepted, and what a question's answer is. An [`Engine`] stands for a session and answers as
//! the definition says (`specs/Answers`). There are two, which know nothing of each other:
//!
//! - [`OracleEngine`] keeps the changes and computes each answer from scratch, by crate `oracle`.
//! - `Crew` (crate `crews`) is a client of a board, whose workers carry on what is in flight.
//!
//! So what a script writes by the first engine can be compared with what it writes by the second.
//! Here nothing is known of command files, of boards and of workers: a command is a call.
#![tactic(auto)]

mod engine;
mod laws;
mod oracle_engine;

pub use engine::{CatchUp, Engine};
pub use laws::{
    bounds_exist, large_numbers_have_large_bounds, the_bag_of_entries, the_changes_of_a_view,
    the_frontier_of_a_view, the_oracle_engine_can_stand,
};
pub use oracle_engine::OracleEngine;

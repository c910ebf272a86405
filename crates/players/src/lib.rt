//! Players: the workers and the client of a session, and orders in which they move. For tests.
//!
//! No clause says that workers ever come to an end with their pieces, so crates of tests play: they
//! open a session ([`opened`]), feed it by its [`Client`], and step its workers in some order
//! ([`until_idle`], [`until_quiet`], [`drawn_steps`]). All of it is on one thread. What players do
//! with each other is said by the contracts of `steps` and `session`. This crate has no tests: the
//! crates above have them, and they are proved side by side.
#![tactic(auto)]

mod client;
mod opening;
mod schedule;

pub use client::Client;
use lattice::Bitime;
pub use opening::opened;
pub use schedule::{
    are_idle, are_tidy, drawn_steps, driven_until_quiet, until_idle, until_idle_at_last,
    until_quiet,
};
use shared_board::BitemporalBoards;
use steps::Worker;

/// The client of a board whose times are pairs.
pub type BoardClient = Client<Bitime, BitemporalBoards>;

/// A worker of it.
pub type BoardWorker = Worker<Bitime, BitemporalBoards>;

/// All workers of it.
pub type Crew = Vec<BoardWorker>;

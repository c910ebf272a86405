//! Desk: what one worker among many keeps between two of its steps, and what it computes without
//! the board.
//!
//! A worker that took a piece has it in its [`Hand`]. [`Desk::compute`] takes the hand as far as it
//! goes without the board: what a bundle makes is laid on the desk, or made ready to be given. What
//! is then held at the node ([`Desk::held`]) and given is the worker's, who enters the board. A
//! batch that was given is put away ([`Desk::put_away`]). With nothing in hand [`Desk::tidy`] moves
//! holds to where their readers have come, and lets spines merge. [`Desk::kept`] tells how many
//! updates an arrange node keeps.
//!
//! Crate `desk_laws` says of which states a desk and a hand are right, and why each of these is
//! allowed. A refusal for want of memory leaves a desk and a hand that are as right as before, so
//! any call may be made again.
#![tactic(auto)]

mod answers;
mod computation;
mod desk;
mod extent;
mod fresh;
mod held_times;
mod intake;
mod join_bundles;
mod needs;
mod passing_on;
mod putting_away;
mod seals;
mod upkeep;

pub use desk::Desk;
pub use desk_laws::{Hand, Output};

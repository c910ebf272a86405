//! One key of a reduction: what is kept of it, and what is given of it once a frontier has moved.
//!
//! A key has joined times, and some of them are pending: an answer is still owed there. If the
//! frontier has passed a pending time, then what is given of the key is corrected at that time, by
//! the difference between what the reducer answers there and what was given before. A correction
//! may come long after, and then many times of the key are pending. So one sweep goes over all of
//! them in order, and carries from each to the next what the two have in common.
//!
//! - [`KeyHistory`] is what is kept of a key: its joined times, which of them are pending, and what
//!   was given of it.
//! - [`sweep_key`] gives what is new of a key as of a frontier, and which of its times are still
//!   pending ([`Settled`]). It changes nothing, so a call that is refused has left the history as
//!   it was.
//!
//! This crate does not know how the rows of a key are found, nor that there are other keys; and
//! what is given at one time it leaves to the crate `correction`. What is right for a key is
//! defined in `specs/Duties.antt`, and what a sweep makes of its pending times in
//! `specs/Settlements.antt`.
#![tactic(auto)]

mod compaction;
mod history;
mod pack;
mod past;
mod replay;
mod sweep;

pub use history::KeyHistory;
pub use sweep::{Settled, sweep_key};

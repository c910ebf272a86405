//! Corrections: what is given of a key at one time, so that all that was given of it is right
//! there.
//!
//! What is right at a time is the reducer's answer for the rows of the key that are there. What is
//! given is the difference between it and the sum of what was given before. Most of the answer is
//! as it was at the time before. So a correction begins with that one, if there is one, and puts
//! down only what changed since.
//!
//! - [`answer_at`] is what a reducer answers at a time. It reads a tally, which has what later
//!   times see too, with the other updates added for as long as the call takes.
//! - [`Evaluation`] is a time with its answer, and [`correct`] makes a [`Correction`] of it: what
//!   is given there.
//!
//! Nothing here knows which times of the key are pending, or where its rows and what was given of
//! it are kept. What a correction is to be is defined in `specs/Corrections.antt`.
#![tactic(auto)]

mod corrections;
mod draft;
mod evaluation;
mod tallied;

pub use corrections::{Correction, correct};
pub use evaluation::Evaluation;
pub use tallied::answer_at;

//! Updates: rows at times, with differences; and the bags that lists of updates sum to.
//!
//! Everything travels as a list of updates: what is fed to an input, what a batch holds, what an
//! operator gives and what a view shows. The order of a list and the updates in it mean nothing by
//! themselves. A list means what it sums to at each time ([`sum_at`]), which is a [`Bag`]. Many
//! lists mean the same, and [`consolidate`] gives one of them that is sorted and as short as
//! possible: two consolidated lists with the same sums are equal ([`sums_determine_a_list`]), and
//! no list with these sums is smaller ([`consolidated_lists_are_least`]).
//!
//! Differences are 64-bit numbers and are added in 128 bits, so the order of a list never decides
//! whether a sum is refused. [`Refusal`] says why a call was refused: it is the one error type of
//! this crate and of all crates that stand on it.
#![tactic(auto)]

mod bag;
mod change;
mod consolidation;
mod entries;
mod laws;
mod lists;
mod refusal;
mod summation;
mod unit_time;
mod weight;

pub use bag::Bag;
pub use change::Update;
pub use consolidation::{consolidate, consolidate_grouped};
pub use entries::Entries;
pub use laws::{bags_are_determined, consolidated_lists_are_least, sums_determine_a_list};
pub use lists::{Times, Updates};
pub use refusal::Refusal;
pub use summation::sum_at;
pub use weight::Weight;

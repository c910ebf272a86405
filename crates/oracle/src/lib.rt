//! The plain query: it computes a view from scratch. It has no workers and no moving frontiers.
//! Each input is summed to a bag at one time, and the operators are then applied to bags, one after
//! another. The engine's answers are checked against it.
//!
//! [`evaluate`] answers the query at one time. Each operator writes entries, and one function adds
//! them up to a bag, in 128 bits. So whether a sum is refused never depends on the order of the
//! entries. A reduction asks the reducer of its kind, key by key: crate `reducer` has one body for
//! each kind, and it knows no times. Crate `plan` defines what a node is; the definitions here say
//! which numbers can be too large on the way. [`Refusal::Overflow`] comes for no other reason.
//!
//! [`differences`] lists the changes of a view, so that the engine's lists of changes can be
//! compared with it. At each passed time at which the view may change, it lists the query's answer
//! there minus the updates already listed at or before that time. This is slow, but it is easy to
//! see why it is right. The lists of changes and of frontiers are matched to inputs by position
//! ([`lists_belong_to_inputs`]).
//!
//! [`Refusal::Overflow`]: update::Refusal::Overflow
#![tactic(auto)]

mod bags;
mod difference;
mod entries;
mod evaluation;
mod join;
mod join_closure;
mod key_rows;
mod keys;
mod laws;
mod linear;
mod listing;
mod node;
mod operators;
mod reductions;

pub use difference::differences;
pub use evaluation::{are_wide, evaluate, inputs_before};
pub use laws::lists_belong_to_inputs;

//! Gathered: what was gathered at a node and not given yet.
//!
//! A worker that takes a short bundle at a linear node does not give what comes of it at once, as
//! long as more waits there. It gathers what the node makes, and gives it together: so a deep plan
//! sees few long bundles, and what comes from two sources cancels before anybody else sees it.
//! Until then the worker holds the times of what lies gathered. [`Gathered`] has the updates, in
//! the order in which they came, and the least of their times. Its invariant is that these are the
//! least times of these updates.
//!
//! A call that is refused leaves what was gathered, and the list that was to be taken in, as they
//! were. The crate knows neither workers nor boards. The desk of `desk` has one [`Gathered`] for
//! each node.
#![tactic(auto)]

mod gathered;

pub use gathered::Gathered;

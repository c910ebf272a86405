//! Operator: what a worker keeps at one node, and computes there.
//!
//! At an arrange node a worker keeps an [`Arrangement`], the spine with what waits for it. At a
//! reduction it keeps a [`Reducing`], the times at which it still has to answer. At a join it keeps
//! a [`Joining`], up to which boundary each side was taken. Joins and reductions keep no updates of
//! their own: they read the spine of an arrangement, where each join has a hold for each side
//! (McSherry et al., Shared Arrangements, VLDB 2020).
//!
//! Updates come to a node in any order, and they may cancel one another. They are sealed into
//! batches here. For updates that must wait, the worker holds back the least of their times
//! ([`front_with`], [`renew`]).
//!
//! A call here is not an event of the machine. The worker makes it between two events, and nobody
//! else sees what it does. Crate `operator_laws` says in which states of the machine the answers
//! are right, and what may be given of them. It stands below this crate, since these contracts use
//! its words `IsAnswer`, `IsPendingWith` and `on_top`.
#![tactic(auto)]

mod arrangement;
mod copies;
mod frontier;
mod joins;
mod reduction;

pub use arrangement::{Arrangement, what_is_taken_is_up_to_a_boundary};
pub use copies::updates_of;
pub use frontier::{antichain_of, front_with, renew};
pub use joins::Joining;
pub use reduction::Reducing;

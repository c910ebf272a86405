//! Timestamps: partial orders, lattices, and their products.
//!
//! A change in a dataflow carries a timestamp, and a read asks for everything at or before one. If
//! a timestamp has two axes, such as the valid time and the system time of a ledger, then two
//! timestamps often cannot be compared: neither is before the other. So the engine does not ask for
//! a total order of timestamps, but for a lattice. Any two timestamps have a least upper bound,
//! their join, which is the first time at which both have happened, and a greatest lower bound,
//! their meet.
//!
//! Three traits say this: [`PartialOrder`], [`Lattice`] and [`Minimum`]. Each states its laws as
//! clauses, and every implementation proves them. A [`Pair`] of lattices is a lattice, so pairs can
//! be nested. All layers above are written against the traits, and none of them names an axis.
//!
//! A reader that gives up the past holds a frontier, and may read only at times beyond it. As of
//! that frontier many times look alike, and [`representative`] gives the one time that stands for
//! all of them. Compaction rests on this: an update may be moved to its representative time, and no
//! reader can tell.
//!
//! There are laws about a total order too, because updates are sorted. [`Lattice`] asks that `Ord`
//! extends the partial order, so that sorting puts no time before one that it depends on. It also
//! asks that times which are equal under `Ord` are identical, so that updates merged as equal are
//! equal.
#![tactic(auto)]

mod compaction;
mod laws;
mod natural;
mod order;
mod product;

pub use compaction::{representative, representatives_are_canonical};
pub use laws::{bounds_are_tested_apart, later_frontiers_are_beyond};
pub use order::{Lattice, Minimum, PartialOrder};
pub use product::{Bitime, Pair};

//! The joined times of a key: the joins of all sets of the times of its updates.
//!
//! The rows of two updates are first seen together at the join of their times, a time that no input
//! may have. So the answer for a key can change at its joined times, and at no others (McSherry et
//! al., Differential Dataflow, CIDR 2013). A list of them is kept, with those that still wait for
//! an answer. New times add the joins that they take part in, and all of these wait from then on.
//!
//! - [`JoinedTimes`] are the joined times of a key, and the pending ones among them.
//! - [`with_times`] adds new times to them.
//!
//! Nothing here knows of rows, reducers or histories: only times are joined. Which times are joined
//! times of a key's updates is defined in `specs/Joined.antt`.
#![tactic(auto)]

mod times;

pub use times::{JoinedTimes, with_times};

//! What is outstanding on a board: the bundles that wait at each place, the times that workers
//! hold, and the frontiers of the inputs. Frontiers of nodes are found from these three and from
//! nothing else.
//!
//! A station is what lies at a node for one worker: the queues of its two ports, and the times that
//! the worker holds there ([`Stations`]). Each place has a queue of its own, so an event there
//! costs the same however much waits elsewhere. The invariant of a queue: reserved room is there,
//! so a give that reserved first needs no memory when it puts its bundles. The inputs' frontiers,
//! and the tests that refuse a change or a frontier, are a type of their own ([`InputFrontiers`]),
//! so that changes can be accepted without a board.
//!
//! The crate knows the bundles and places of `histories` and no board: neither hands, views nor
//! events.
#![tactic(auto)]

mod inputs;
mod queue;
mod stations;
mod survey;

pub use inputs::{InputFrontiers, MAX_CHANGES, MAX_DIFFERENCE};
pub use queue::{Parcel, Queue};
pub use stations::{Row, Station, Stations};

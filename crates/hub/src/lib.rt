//! Hub: one state, handed from thread to thread, with one history.
//!
//! Threads that share a state need more than a lock. A lock promises nothing about what others did
//! between two visits. A hub does: a thread that gets the state knows a history that it stands
//! after, and knows that this history goes on from the one that the thread left behind. Which
//! states may stand after which histories is up to a [`Protocol`]. The hub knows nothing else of
//! the state.
//!
//! [`Hub::open`] takes the state in and gives out the passes. A thread enters the hub with its
//! [`Pass`], by [`Hub::enter`] or [`Hub::try_enter`]. If the state is at home, then one thread gets
//! it and holds it for a tenure, [`Held`], in which [`Held::state`] lends the state. By
//! [`Held::leave`] it gives the state back, and gets its pass back. When all threads have ended,
//! [`Hub::close`] takes the state out. So there are two kinds of atomic step:
//!
//! - *Take home*: a compare-exchange marks the state as away, if it is at home. Only one thread can
//!   win it, and the winner alone touches the state from then on. Its pass learns all events that
//!   others have made since its last tenure.
//! - *Give back*: an exchange marks the state as at home. It adds one event to the history, by this
//!   pass: the event that the state names as its last.
//!
//! Nothing else moves the state, and nothing but *give back* changes the history. The invariant
//! behind this is `Kept` in `specs/Rules.antt`. There is one history. Each pass has seen all of it,
//! but for newer events of other passes. While the state is at home, it stands after the history.
//! While it is away, exactly one pass holds it, and that pass has seen the whole history.
//!
//! The history exists in proofs alone. No event is ever stored and no entry is ever made, so a long
//! history costs nothing. Contracts write it as a list of entries, the newest first. Each [`Entry`]
//! has the number of the pass that made it. That is how a pass recognizes its own events: of these,
//! a history has just those that the pass has seen ([`own_events_stay`]). What agrees with a pass
//! later on also agreed with it earlier, but for its own event ([`agreeing_goes_on`]). And if no
//! other pass made an event, then a tenure finds exactly what its pass had seen
//! ([`nothing_between`]).
//!
//! What is not promised: that [`Hub::enter`] returns, that waiting threads get their turn in any
//! order, and any order between events of passes that have not seen one another's. A tenure cannot
//! be dropped, so every path through one ends by [`Held::leave`]. But a thread that never comes to
//! that point keeps the state, and no other thread gets it again.
#![tactic(auto)]

mod ends;
mod hub;
mod laws;
mod protocol;
mod tenure;
mod view;

pub use hub::{Hub, Pass};
pub use laws::{agreeing_goes_on, nothing_between, own_events_stay};
pub use protocol::Protocol;
pub use tenure::Held;
pub use view::Entry;

//! The crew: the engine that answers by a board and its workers.
//!
//! A [`Crew`] is a session of crate `session`: commands are events of its client on a board, and
//! its workers carry on what is in flight, on threads of their own or on the caller's
//! (`employment`). The theorems about histories then say that its views are right.
#![tactic(auto)]

mod crew;
mod employment;
mod laws;

pub use crew::Crew;
pub use laws::a_crew_can_stand;

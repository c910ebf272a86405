//! Histories: lists of events, and what is proved of every legal one. Nothing here knows how a
//! board is kept.
//!
//! An [`Event`] is one thing that may happen between clients and workers. A history is a list of
//! events. It leaves a state, which is a record of logs. The definitions say which events are legal
//! in a state, and find frontiers from it. The theorems are functions without parameters, whose
//! contracts hold of every legal history ([`headline`] and those beside it). The witnesses show by
//! examples that the definitions allow what an engine has to do ([`premises_can_be_met`],
//! [`definitions_fit_examples`] and others).
//!
//! A crate that knows no board can be read by a sceptic alone: what is promised stands here, and
//! the code that keeps the promise stands above.
#![tactic(auto)]

mod event;
mod stamp;
mod theorems;
mod witnesses;

pub use event::{
    Bundle, Bundles, Emission, Event, Fed, HeldTime, OpenTime, Remembered, RememberedEmission,
    Site, remembered_advance, remembered_allow, remembered_feed, remembered_give, remembered_take,
};
pub use stamp::{insert, stamp_of};
pub use theorems::{
    bounds_are_kept, clients_are_apart, frontiers_do_not_go_back, headline, nothing_lurks,
    one_list, parts_of_workers, port_frontiers_are_the_input_frontier, premises_can_be_met,
    quiet_is_caught_up, stamps_are_frontiers, what_waits_has_its_place, workers_are_apart,
};
pub use witnesses::{
    bundles_wait_in_order, definitions_fit_examples, own_bounds_are_met, two_workers_can_exchange,
};

//! What is kept of a view for its readers.
//!
//! A view captures updates and answers their sum at a time. What it captured is the longest list on
//! a board, so it lies column by column ([`columns::Columns`]). A view also remembers its last
//! read, so that a reader who goes on to a later time pays only for what is new to it. The
//! invariant: what is remembered is the sum of the captured updates that it knows, at its time.
//! Nothing that is captured later, and no move of the since, makes it wrong.
//!
//! The crate knows no frontier but the since of a view, and neither workers nor events. The board
//! above decides what is captured, and whether a time may be read.
#![tactic(auto)]

mod last_read;
mod view;

pub use view::View;

//! View: what a pass knows of the history.
//!
//! The types of this file exist in proofs alone: no value of them is ever made.
use std::collections::LinkedList;

/// An event, and the number of the pass that made it.
pub struct Entry<E> {
    pub by: u64,
    pub event: E,
}

/// What a seat of the table knows. The dealer is the seat that the next pass is cut from.
pub struct View<E> {
    pub number: u64,
    pub deals: bool,
    pub away: bool,
    pub seen: LinkedList<Entry<E>>,
}

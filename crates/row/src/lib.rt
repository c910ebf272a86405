//! Rows: the values that a table holds, each of one to eight whole-number columns.
//!
//! A row goes through every operator and lies in every batch, so it must be cheap. Its columns are
//! stored in the value itself, and no call of this crate takes memory. The one invariant is the
//! width, 1 to 8. [`Row::new`] tests it once, and no layer above tests it again.
//!
//! Contracts see a row as the list of its columns. Rows are ordered column by column, and are equal
//! if and only if their columns are.
//!
//! This crate also has what operators ask of rows, each in a file of its own: which worker owns the
//! rows of a key ([`route`]), what a map makes of a row ([`project`]), whether a row passes a
//! filter ([`holds`]), and how rows are printed.
#![tactic(auto)]

mod columns;
mod comparison;
mod projection;
mod refusal;
mod routing;
mod test;
mod text;

pub use columns::{MAX_WIDTH, Row};
pub use projection::{Item, are_within, project};
pub use refusal::WidthRefused;
pub use routing::{route, routes_are_remainders};
pub use test::{Cmp, Test, holds};

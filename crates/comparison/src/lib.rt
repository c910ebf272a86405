//! What changed between two reads of a view: which rows are gone, which have come, and which have
//! another weight.
//!
//! A read is a bag, in the order of its rows. [`write_difference`] goes through two of them side by
//! side, as a merge does, and writes a line for each weight that is gone and for each that is new:
//!
//! ```text
//! - 1 7
//! - 2 9
//! + 1 9
//! 2 -, 1 +
//! ```
//!
//! The contract does not speak of the merge. It says which text is written for the rows that have a
//! weight in either bag (`specs/Differences`), and [`rows_are_determined`] says that there is only
//! one list of these rows.
#![tactic(auto)]

mod change;
mod laws;
mod lines;
mod merge;

pub use laws::rows_are_determined;
pub use lines::write_difference;

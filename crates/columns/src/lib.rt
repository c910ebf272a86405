//! Lists of updates that are kept column by column.
//!
//! A sealed batch has its updates in order of row, then time. So the updates of a row are
//! neighbours, and a list of plain updates would hold the same row again and again. [`Columns`]
//! stores it once. The times are in one list, the differences in another, and a third list has the
//! places where a row begins. At times of 16 bytes an update takes 24 bytes, and a row takes 9
//! bytes and 8 for each of its columns.
//!
//! A contract sees a list of updates and nothing of all this. A caller that pushes or reads an
//! update need not know how it is kept. A writer that knows that the next update has the row of the
//! last one says so ([`Columns::push_again`]), and no row is compared.
//!
//! The updates of one row that stand side by side are a run; the updates alone decide where the
//! runs begin. A reader that goes from row to row stands at a run and not at an update. It asks how
//! many runs there are, where each begins and which row it has ([`Columns::runs`],
//! [`Columns::run_start`], [`Columns::run_row`]). So it builds a row once for all its updates.
//!
//! Nothing here asks that the updates are in order. Only the searches by key do. They search the
//! rows and not the updates, so their cost does not depend on how many updates a row has. Each
//! comes in two forms: for a reader that stands at updates ([`Columns::range_of`],
//! [`Columns::first_from`], [`Columns::first_past`]) and for one that stands at runs
//! ([`Columns::key_runs`], [`Columns::seek_run`], [`Columns::seek_past_run`]). The second form need
//! not look for the run of an update first.
//!
//! [`UpdateList`] is a list on its way from node to node: plain updates, or columns.
#![tactic(auto)]

mod column;
mod columns;
mod key_search;
mod list;
mod runs;
mod table;

pub use columns::Columns;
pub use list::{Form, UpdateList};

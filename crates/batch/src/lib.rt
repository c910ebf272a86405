//! Batches: sealed, immutable lists of updates.
//!
//! A batch holds the updates of one node at one worker for an interval of times that can get no
//! more changes. The updates are consolidated and put in order once, when the batch is sealed, and
//! never change again. So it can be shared: a spine will keep many batches, and joins and
//! reductions will read them without coordination, because nobody can change what another reads.
//!
//! The one invariant is the order: by row, then by time, with one update for each row and time, and
//! none with difference 0. Rows come first, so that the updates of a key are neighbours, whatever
//! the width of the key. Each row is stored once, however many updates it has
//! ([`columns::Columns`]). [`BatchReader::key_range`] finds those of a key by two binary searches.
//! [`BatchReader::seek`] and [`BatchReader::seek_past`] gallop from one key to the next, so that a
//! join can go through two batches side by side and skip what the other does not have. A reader
//! that wants each row once for all its updates stands at runs ([`BatchReader::run_row`],
//! [`BatchReader::seek_run`]), and [`copy_runs`] copies the updates of some runs. A list of updates
//! that travels is sorted by time first. A batch is not, since its readers do not ask what happened
//! at a time, but what happened to a key.
//!
//! - A [`Builder`] gathers updates in any order. It seals all of them between two frontiers, or
//!   those that a frontier has passed, and then it keeps the others. [`seal_list`] seals a list
//!   that stays with its owner.
//! - A [`Batch`] has a [`Description`], which names its worker, its node and the interval that it
//!   covers. It is read by index through [`BatchReader`], which is all that operators will know of
//!   it.
//! - [`merge`] makes one batch of two neighbouring ones, in one pass, and moves their times to
//!   representatives as of a frontier. A [`Merging`] does the same from call to call, as far as the
//!   fuel of each call goes.
//!
//! Totals are computed as in the crate `update`, so the order of pushes never decides whether a
//! seal is refused. A merge is refused for a total only if the total of some row at some moved
//! time, over its two batches, is no 64-bit number.
#![tactic(auto)]

mod batch;
mod builder;
mod changes;
mod copies;
mod description;
mod laws;
mod lent;
mod merged_rows;
mod merger;
mod passed;
mod plain;
mod reader;
mod seal;
mod whole_merge;

pub use batch::Batch;
pub use builder::Builder;
pub use copies::copy_runs;
pub use description::Description;
pub use laws::{
    compacted_rows_are_apart, sealed_lists_are_determined, seeks_find_the_rows_of_a_key,
};
pub use lent::seal_list;
pub use merger::Merging;
pub use reader::BatchReader;
pub use whole_merge::merge;

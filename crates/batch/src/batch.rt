//! The batch itself: a description and sealed updates, neither of which ever changes. The updates
//! are kept column by column, in the order in which they are read, and each row once.
//!
//! The invariant: the list is sealed, and empty if the interval is. A seal finds each time between
//! the frontiers, and no time is between equal ones. A merge of two such batches is such a batch
//! again, also where it moves times.
//!
//! Each batch is compacted as of its own since: every time is its own representative. After a seal
//! the since is the least time, and no time moves. A merge moves each time. So whether a batch lags
//! behind a later since is one comparison of frontiers.
ghost use Rattle.std.specs.Prelude.{◌≡◌, map, IsTrue};
ghost use Rattle.batch.specs.Batches.{IsSealed};
ghost use Rattle.batch.specs.Compaction.{are_compacted};
ghost use Rattle.batch.specs.Descriptions.{IsEmptyIfStill};
ghost use Rattle.columns.specs.Runs.{row_starts, AreRuns};

use crate::{BatchReader, Description};
use columns::Columns;
use lattice::Lattice;
use row::Row;
use std::alloc::Global;
use std::cmp::Ordering;
use std::marker::Model;
use std::ops::Range;

/// A sealed list of updates with its description. It never changes. A contract sees the description
/// and the list.
///
/// Cost: the time and the difference of an update are read by its index in constant time, and its
/// row by a binary search of the rows. The row of a run is read without a search. The range of a
/// key is found by two binary searches of the rows.
#[derive(Drop)]
pub struct Batch<T: Lattice> {
    description: Description<T>,
    columns: Columns<T>,
}

impl<T: Lattice> Model for Batch<T> {
    ghost use Rattle.std.specs.Prelude.{IsTrue};
    ghost use Rattle.batch.specs.Batches.{IsSealed};
    ghost use Rattle.batch.specs.Compaction.{are_compacted};
    ghost use Rattle.batch.specs.Descriptions.{BatchState, IsEmptyIfStill};

    ghost Value = { BatchState T };

    ghost view = { λ b. record { description = b.description; updates = b.columns } };

    ghost invariant = { λ b. IsSealed T.cmp b.columns
        × IsEmptyIfStill (record { description = b.description; updates = b.columns })
        × IsTrue
        (are_compacted T.times b.description.since b.columns) };
}

impl<T: Lattice> Batch<T> {
    // A batch of sealed updates. Takes no memory.
    pub(crate) fn of(description: Description<T>, columns: Columns<T>) -> Batch<T>
        requires sealed { IsSealed T.cmp columns }
        requires still { IsEmptyIfStill (record { description = description; updates = columns }) }
        requires compacted { IsTrue
            (are_compacted T.times description.since columns) }
        ensures { result ≡ record { description = description; updates = columns } }
    {
        Batch {
            description,
            columns,
        }
    }

    /// The updates, in order, column by column. Takes no memory.
    pub fn columns(&self) -> &Columns<T>
        ensures value { result.now ≡ self.now.updates }
        ensures sealed { IsSealed T.cmp self.now.updates }
    {
        &self.columns
    }

    /// The times of the updates, in order. Takes no memory.
    pub fn times(&self) -> &[T]
        ensures { result.now ≡ map (λ u. u.time) self.now.updates }
    {
        self.columns.times()
    }

    /// The differences of the updates, in order. Takes no memory.
    pub fn diffs(&self) -> &[i64]
        ensures { result.now ≡ map (λ u. u.diff) self.now.updates }
    {
        self.columns.diffs()
    }

    /// The places where a row begins that the update before does not have. The updates from one
    /// place up to the next one have one row. Takes no memory.
    pub fn starts(&self) -> &[usize]
        ensures value { result.now ≡ row_starts self.now.updates }
        ensures runs { AreRuns result.now self.now.updates }
    {
        self.columns.starts()
    }

    /// Tells the prover that each time is its own representative as of the since. Costs nothing.
    pub fn known(&self)
        ensures { IsTrue (are_compacted T.times self.now.description.since
            self.now.updates) }
    {
        // (a function knows the invariant if it uses a field)
        let _description = &self.description;
    }

    // The allocator of the batch. Takes no memory.
    pub(crate) fn allocator(&self) -> Global {
        self.description.allocator()
    }
}

impl<T: Lattice> BatchReader for Batch<T> {
    type Time = T;

    ghost content = { λ b. b.updates };

    ghost described = { λ b. b.description };

    fn description(&self) -> &Description<T> {
        &self.description
    }

    fn len(&self) -> usize {
        self.columns.len()
    }

    fn row(&self, i: usize) -> Row {
        self.columns.row(i)
    }

    fn runs(&self) -> usize {
        self.columns.runs()
    }

    fn run_start(&self, run: usize) -> usize {
        self.columns.run_start(run)
    }

    fn run_row(&self, run: usize) -> Row {
        self.columns.run_row(run)
    }

    fn time(&self, i: usize) -> T {
        self.columns.time(i)
    }

    fn diff(&self, i: usize) -> i64 {
        self.columns.diff(i)
    }

    fn key_range(&self, key: &[i64]) -> Range<usize> {
        self.columns.range_of(key)
    }

    fn key_runs(&self, key: &[i64]) -> Range<usize> {
        self.columns.key_runs(key)
    }

    fn seek(&self, from: usize, key: &[i64]) -> usize {
        self.columns.first_from(from, key)
    }

    fn seek_past(&self, from: usize, key: &[i64]) -> usize {
        self.columns.first_past(from, key)
    }

    fn seek_run(&self, from: usize, key: &[i64]) -> usize {
        self.columns.seek_run(from, key)
    }

    fn seek_past_run(&self, from: usize, key: &[i64]) -> usize {
        self.columns.seek_past_run(from, key)
    }

    fn compare_key(&self, i: usize, key: &[i64]) -> Ordering {
        self.columns.compare_key(i, key)
    }
}

//! How a batch is read. Operators are to be written against this trait and not against
//! [`Batch`](crate::Batch), so that the layout of updates can change without them.
//!
//! A reader may stand at an update or at a run, which is all updates of one row. A reader that goes
//! through a batch stands at runs: it then builds a row once for all its updates, and pays for no
//! search to find the run of an update.
ghost use Rattle.std.specs.Prelude.{◌≡◌, ◌<◌, ◌≤◌, ◌+◌, List, [], length, take, drop, slice_get, slice_range, IsSomeAnd};
ghost use Rattle.std.specs.List.{AllWithin, filter};
ghost use Rattle.columns.specs.Runs.{row_starts, run_place};
ghost use Rattle.batch.specs.Batches.{IsSealed, begins_with, at_key, AllBefore, NoneBefore, AllAfter, NoneAfter};

use crate::Description;
use lattice::Lattice;
use row::Row;
use std::cmp::Ordering;
use std::ops::Range;

/// A list of updates that is read by index. It is in order of row, then time, with at most one
/// update for each row and time, and none with difference 0. So the updates of a key are
/// neighbours.
pub trait BatchReader {
    ghost use Rattle.update.specs.declared.change.Update.{Update};
    ghost use Rattle.batch.specs.Descriptions.{DescriptionState};

    type Time: Lattice;

    ghost content: { Self → List (Update Self.Time) };

    ghost described: { Self → DescriptionState Self.Time };

    /// Which worker and node the updates belong to, and between which frontiers. If the two
    /// frontiers are equal, then there are no updates. Takes no memory.
    fn description(&self) -> &Description<Self::Time>
        ensures value { result.now ≡ described self.now }
        ensures still { (described self.now).lower ≡ (described self.now).upper
            → content self.now ≡ [] };

    /// The number of updates, which are in order. Takes no memory.
    fn len(&self) -> usize
        ensures len { result ≡ length (content self.now) }
        ensures ordered { IsSealed Self.Time.cmp (content self.now) };

    /// The row of update `i`, counted from 0. Takes no memory.
    fn row(&self, i: usize) -> Row
        requires { i < length (content self.now) }
        ensures { IsSomeAnd (slice_get (content self.now) i) (λ u. result ≡ u.row) };

    /// The number of runs. A run is the updates of one row, which are neighbours. Takes no memory.
    fn runs(&self) -> usize
        ensures runs { result ≡ length (row_starts (content self.now)) }
        ensures first { run_place (content self.now) 0 ≡ 0 }
        ensures ordered { IsSealed Self.Time.cmp (content self.now) };

    /// The update at which a run begins, counted from 0; the number of updates behind the last run.
    /// A run is never empty. Takes no memory.
    ///
    /// Cost: constant.
    fn run_start(&self, run: usize) -> usize
        ensures place { result ≡ run_place (content self.now) run }
        ensures within { result ≤ length (content self.now) }
        ensures onward { run < length (row_starts (content self.now))
            → result < run_place (content self.now) (run + 1) }
        ensures first { run_place (content self.now) 0 ≡ 0 };

    /// The row of a run: each update of the run has it. Takes no memory.
    ///
    /// Cost: one step for each column. So a reader that goes from run to run builds each row once.
    fn run_row(&self, run: usize) -> Row
        requires { run < length (row_starts (content self.now)) }
        ensures { AllWithin (λ u. u.row ≡ result) (content self.now)
            (run_place (content self.now) run) (run_place (content self.now) (run + 1)) };

    /// The time of update `i`, counted from 0. Takes no memory.
    fn time(&self, i: usize) -> Self::Time
        requires { i < length (content self.now) }
        ensures { IsSomeAnd (slice_get (content self.now) i) (λ u. result ≡ u.time) };

    /// The difference of update `i`, counted from 0; it is not 0. Takes no memory.
    fn diff(&self, i: usize) -> i64
        requires { i < length (content self.now) }
        ensures { IsSomeAnd (slice_get (content self.now) i) (λ u. result ≡ u.diff) };

    /// The range of exactly those updates whose rows begin with the columns of the key. If there
    /// are none, the range is empty and lies between the rows before the key and those after it.
    /// Takes no memory.
    ///
    /// Cost: two binary searches over the rows of the whole batch.
    fn key_range(&self, key: &[i64]) -> Range<usize>
        ensures ordered { result.start ≤ result.end }
        ensures within { result.end ≤ length (content self.now) }
        ensures exact { slice_range (content self.now) result.start result.end
            ≡ filter (begins_with key.now) (content self.now) }
        ensures before { AllBefore key.now (take result.start (content self.now)) }
        ensures behind { AllAfter key.now (drop result.end (content self.now)) };

    /// The runs whose rows begin with the columns of the key. If there are none, the range is empty
    /// and lies between the runs before the key and those after it. Takes no memory.
    ///
    /// Cost: two binary searches over the rows of the whole batch.
    fn key_runs(&self, key: &[i64]) -> Range<usize>
        ensures ordered { result.start ≤ result.end }
        ensures within { result.end ≤ length (row_starts (content self.now)) }
        ensures exact { slice_range (content self.now)
            (run_place (content self.now) result.start) (run_place (content self.now) result.end)
            ≡ filter (begins_with key.now) (content self.now) };

    /// The first update from `from` on whose row is not before the key; the length if there is
    /// none. Takes no memory.
    ///
    /// Cost: a search for the row of `from` in the list of the places where rows begin, and a
    /// number of comparisons of rows that is logarithmic in the number of rows from there to the
    /// result. So a reader that seeks sorted keys, each from where the last one was found, compares
    /// few rows.
    fn seek(&self, from: usize, key: &[i64]) -> usize
        requires { from ≤ length (content self.now) }
        ensures ordered { from ≤ result }
        ensures within { result ≤ length (content self.now) }
        ensures before { AllBefore key.now (slice_range (content self.now) from result) }
        ensures rest { NoneBefore key.now (drop result (content self.now)) };

    /// The first update from `from` on whose row comes after all rows of the key; the length if
    /// there is none. Takes no memory.
    ///
    /// Cost: as for `seek`.
    fn seek_past(&self, from: usize, key: &[i64]) -> usize
        requires { from ≤ length (content self.now) }
        ensures ordered { from ≤ result }
        ensures within { result ≤ length (content self.now) }
        ensures before { NoneAfter key.now (slice_range (content self.now) from result) }
        ensures rest { AllAfter key.now (drop result (content self.now)) };

    /// The first run from `from` on whose row is not before the key; the number of runs if there is
    /// none. Takes no memory.
    ///
    /// Cost: a number of comparisons of rows that is logarithmic in the number of runs from `from`
    /// to the result. So a reader that seeks sorted keys, each from where the last one was found,
    /// compares few rows, and searches for no run.
    fn seek_run(&self, from: usize, key: &[i64]) -> usize
        requires { from ≤ length (row_starts (content self.now)) }
        ensures ordered { from ≤ result }
        ensures within { result ≤ length (row_starts (content self.now)) }
        ensures onward { run_place (content self.now) from ≤ run_place (content self.now) result }
        ensures before { AllBefore key.now (slice_range (content self.now)
            (run_place (content self.now) from) (run_place (content self.now) result)) }
        ensures rest { NoneBefore key.now
            (drop (run_place (content self.now) result) (content self.now)) };

    /// The first run from `from` on whose row comes after all rows of the key; the number of runs
    /// if there is none. Takes no memory.
    ///
    /// Cost: as for `seek_run`.
    fn seek_past_run(&self, from: usize, key: &[i64]) -> usize
        requires { from ≤ length (row_starts (content self.now)) }
        ensures ordered { from ≤ result }
        ensures within { result ≤ length (row_starts (content self.now)) }
        ensures onward { run_place (content self.now) from ≤ run_place (content self.now) result }
        ensures before { NoneAfter key.now (slice_range (content self.now)
            (run_place (content self.now) from) (run_place (content self.now) result)) }
        ensures rest { AllAfter key.now
            (drop (run_place (content self.now) result) (content self.now)) };

    /// How the row of update `i` compares with the rows of the key: it comes before them, is one of
    /// them, or comes after them. Takes no memory, and makes no row.
    fn compare_key(&self, i: usize, key: &[i64]) -> Ordering
        requires { i < length (content self.now) }
        ensures { IsSomeAnd (slice_get (content self.now) i) (λ u. result ≡ at_key key.now u) };
}

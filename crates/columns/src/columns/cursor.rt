//! Reading by runs. A reader that stands at a run, and not at an update, builds a row once for all
//! its updates and never searches for the run of an update.
//!
//! A run is named by its number, counted from 0. The number behind the last run is a place to stand
//! as well: it begins at the end of the updates.
ghost use Rattle.std.specs.Prelude.{◌≡◌, ◌<◌, ◌≤◌, ◌+◌, true, false, drop, slice_range, length};
ghost use Rattle.std.specs.List.{AllWithin, filter};
ghost use Rattle.std.specs.List.Sorted.{IsStrictlySortedBy, IsPartitionPoint};
ghost use Rattle.columns.specs.Keys.{by_row_then_time, begins_with, is_left_behind, AllBefore, NoneBefore, AllAfter, NoneAfter};
ghost use Rattle.columns.specs.Runs.{row_starts, run_place};

use crate::Columns;
use crate::key_search::{first_kept, gallop};
use crate::runs::place_of;
use lattice::Lattice;
use row::Row;
use std::ops::Range;

impl<T: Lattice> Columns<T> {
    /// The number of runs: as many as there are different rows, if the updates are in order of row.
    /// Takes no memory.
    pub fn runs(&self) -> usize
        ensures runs { result ≡ length (row_starts self.now) }
        ensures first { run_place self.now 0 ≡ 0 }
    {
        self.starts.len()
    }

    /// The update at which a run begins; the number of updates behind the last run. Takes no
    /// memory.
    ///
    /// Cost: constant.
    pub fn run_start(&self, run: usize) -> usize
        ensures place { result ≡ run_place self.now run }
        ensures within { result ≤ length self.now }
        ensures onward { run < length (row_starts self.now)
            → result < run_place self.now (run + 1) }
        ensures first { run_place self.now 0 ≡ 0 }
    {
        place_of(self.starts.as_slice(), run, self.times.len())
    }

    /// The row of a run: each update of the run has it. Takes no memory.
    ///
    /// Cost: one step for each column.
    pub fn run_row(&self, run: usize) -> Row
        requires { run < length (row_starts self.now) }
        ensures { AllWithin (λ u. u.row ≡ result) self.now
            (run_place self.now run) (run_place self.now (run + 1)) }
    {
        self.rows.row(run)
    }

    // The first run from a number on that a reader does not leave behind, by galloping.
    pub(crate) fn run_kept(&self, from: usize, key: &[i64], through: bool) -> usize
        requires sorted { IsStrictlySortedBy (by_row_then_time T.cmp) self.now }
        requires within { from ≤ length (row_starts self.now) }
        ensures ordered { from ≤ result }
        ensures within { result ≤ length (row_starts self.now) }
        ensures onward { run_place self.now from ≤ run_place self.now result }
        ensures before { AllWithin (λ u. is_left_behind key.now through u ≡ true)
            self.now (run_place self.now from) (run_place self.now result) }
        ensures rest { AllWithin (λ u. is_left_behind key.now through u ≡ false)
            self.now (run_place self.now result) (length self.now) }
    {
        gallop(&self.rows, from, key, through)
    }

    // The first run that a reader does not leave behind, by a binary search.
    pub(crate) fn run_split(&self, key: &[i64], through: bool) -> usize
        requires { IsStrictlySortedBy (by_row_then_time T.cmp) self.now }
        ensures within { result ≤ length (row_starts self.now) }
        ensures parted { IsPartitionPoint (λ u. is_left_behind key.now through u ≡ true)
            (λ u. is_left_behind key.now through u ≡ false)
            self.now (run_place self.now result) }
    {
        first_kept(&self.rows, 0..self.rows.len(), key, through)
    }

    /// The runs whose rows begin with the columns of the key. If there are none, the range is empty
    /// and lies between the runs before the key and those after it. The updates must be in order of
    /// row, then time. Takes no memory.
    ///
    /// Cost: two binary searches of the rows.
    pub fn key_runs(&self, key: &[i64]) -> Range<usize>
        requires { IsStrictlySortedBy (by_row_then_time T.cmp) self.now }
        ensures ordered { result.start ≤ result.end }
        ensures within { result.end ≤ length (row_starts self.now) }
        ensures exact { slice_range self.now
            (run_place self.now result.start) (run_place self.now result.end)
            ≡ filter (begins_with key.now) self.now }
    {
        self.run_split(key, false)..self.run_split(key, true)
    }

    /// The first run from `from` on whose row is not before the key; the number of runs if there is
    /// none. The updates must be in order of row, then time. Takes no memory.
    ///
    /// Cost: a number of comparisons that is logarithmic in the number of runs from `from` to the
    /// result.
    pub fn seek_run(&self, from: usize, key: &[i64]) -> usize
        requires sorted { IsStrictlySortedBy (by_row_then_time T.cmp) self.now }
        requires within { from ≤ length (row_starts self.now) }
        ensures ordered { from ≤ result }
        ensures within { result ≤ length (row_starts self.now) }
        ensures onward { run_place self.now from ≤ run_place self.now result }
        ensures before { AllBefore key.now (slice_range self.now
            (run_place self.now from) (run_place self.now result)) }
        ensures rest { NoneBefore key.now (drop (run_place self.now result) self.now) }
    {
        self.run_kept(from, key, false)
    }

    /// The first run from `from` on whose row comes after all rows of the key; the number of runs
    /// if there is none. The updates must be in order of row, then time. Takes no memory.
    ///
    /// Cost: as for [`seek_run`](Columns::seek_run).
    pub fn seek_past_run(&self, from: usize, key: &[i64]) -> usize
        requires sorted { IsStrictlySortedBy (by_row_then_time T.cmp) self.now }
        requires within { from ≤ length (row_starts self.now) }
        ensures ordered { from ≤ result }
        ensures within { result ≤ length (row_starts self.now) }
        ensures onward { run_place self.now from ≤ run_place self.now result }
        ensures before { NoneAfter key.now (slice_range self.now
            (run_place self.now from) (run_place self.now result)) }
        ensures rest { AllAfter key.now (drop (run_place self.now result) self.now) }
    {
        self.run_kept(from, key, true)
    }
}

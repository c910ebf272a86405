//! The list of updates. Its times and its differences are in two lists. Updates with one row that
//! stand side by side are a run, and the row of a run is stored once, in a table.
//!
//! The invariant: a run begins exactly where the row is another than that of the update before. So
//! the updates alone decide where the runs begin, and a contract sees nothing but the updates.
//!
//! A push that is refused changes nothing: it asks for the memory of all lists before it writes
//! into one.
ghost use Rattle.std.specs.Prelude.{◌≡◌, ◌<◌, ◌≤◌, ◌-◌, ◌++◌, ◌∷◌, [], Some, cond, map, true, false, take, drop, slice_range, length, slice_get, IsSomeAnd, IfOk, OnOk, OnErr};
ghost use Rattle.std.specs.Cmp.Lexicographic.{slice_cmp};
ghost use Rattle.std.specs.List.{AllWithin, filter};
ghost use Rattle.std.specs.List.Sorted.{IsStrictlySortedBy, IsPartitionPoint};
ghost use Rattle.std.specs.Ordering.{int_cmp};
ghost use Rattle.update.specs.Refusals.{OnlyMemory};
ghost use Rattle.update.specs.Bags.{same_row};
ghost use Rattle.update.specs.declared.change.Update.{Update};
ghost use Rattle.columns.specs.Keys.{by_row_then_time, begins_with, at_key, is_left_behind, AllBefore, NoneBefore, AllAfter, NoneAfter};
ghost use Rattle.columns.specs.Runs.{run_number, row_starts, AreRuns};
ghost use Rattle.columns.specs.Tables.{last_row};

mod cursor;
mod plain;

use crate::runs::{run_at, run_near};
use crate::table::Table;
use lattice::Lattice;
use row::Row;
use std::alloc::Global;
use std::cmp::Ordering;
use std::marker::Model;
use std::ops::Range;
use update::{Refusal, Update};

/// A list of updates, column by column. A contract sees the list of the updates.
///
/// Cost: a time and 8 bytes for each update; for each run 9 bytes, and 8 for each column of its
/// row.
pub struct Columns<T> {
    times: Vec<T>,
    diffs: Vec<i64>,
    starts: Vec<usize>,
    rows: Table,
}

impl<T> Model for Columns<T> {
    ghost use Rattle.std.specs.Prelude.{List};
    ghost use Rattle.update.specs.declared.change.Update.{Update};
    ghost use Rattle.columns.specs.Runs.{updates_from, IsColumns};

    ghost Value = { List (Update T) };

    ghost view = { λ c. updates_from 0 c.starts.items c.rows c.times.items c.diffs.items };

    ghost invariant = { λ c. IsColumns c.starts.items c.rows c.times.items c.diffs.items };
}

// (written by hand, so that to let a list go is one step in the proofs of its owners)
impl<T: Drop> Drop for Columns<T> {
    fn drop(self) {
        let Columns {
            times: _,
            diffs: _,
            starts: _,
            rows: _,
        } = self;
    }
}

// Stores a row as that of a new run, which begins at a place. If memory was refused, then nothing
// has changed.
fn start_run(
    starts: &mut Vec<usize>,
    rows: &mut Table,
    place: usize,
    row: &Row,
) -> Result<(), Refusal>
    ensures started { OnOk result (starts.new.items ≡ starts.old.items ++ place ∷ []) }
    ensures stored { OnOk result (rows.new ≡ rows.old ++ row.now ∷ []) }
    ensures same { OnErr result (starts.new.items ≡ starts.old.items) }
    ensures unchanged { OnErr result (rows.new ≡ rows.old) }
    ensures refused { OnlyMemory result }
{
    starts.reserve(1)?;
    rows.push(row)?;
    starts.push_reserved(place);
    Ok(())
}

// Starts a run at a place, unless the last run has the row. If memory was refused, then nothing has
// changed.
fn enter_run(
    starts: &mut Vec<usize>,
    rows: &mut Table,
    place: usize,
    row: &Row,
) -> Result<(), Refusal>
    ensures started { OnOk result (starts.new.items
        ≡ starts.old.items ++ cond (same_row (last_row rows.old) row.now) [] (place ∷ [])) }
    ensures stored { OnOk result (rows.new
        ≡ rows.old ++ cond (same_row (last_row rows.old) row.now) [] (row.now ∷ [])) }
    ensures same { OnErr result (starts.new.items ≡ starts.old.items) }
    ensures unchanged { OnErr result (rows.new ≡ rows.old) }
    ensures refused { OnlyMemory result }
{
    if rows.ends_with(row.columns()) {
        return Ok(());
    }
    start_run(starts, rows, place, row)?;
    Ok(())
}

impl<T: Lattice> Columns<T> {
    /// No updates. Takes no memory.
    pub fn new(alloc: Global) -> Columns<T>
        ensures { result ≡ [] }
    {
        Columns {
            times: Vec::new(alloc),
            diffs: Vec::new(alloc),
            starts: Vec::new(alloc),
            rows: Table::new(alloc),
        }
    }

    /// No updates, with room for so many in so many runs. Refused only with `OutOfMemory`.
    pub fn with_capacity(alloc: Global, updates: usize, runs: usize) -> Result<Columns<T>, Refusal>
        ensures none { IfOk result (λ columns. columns ≡ []) }
        ensures refused { OnlyMemory result }
    {
        let times = Vec::with_capacity(alloc, updates)?;
        let diffs = Vec::with_capacity(alloc, updates)?;
        let starts = Vec::with_capacity(alloc, runs)?;
        let rows = Table::with_capacity(alloc, runs)?;
        Ok(Columns {
            times,
            diffs,
            starts,
            rows,
        })
    }

    /// Appends an update. Its row is stored unless the update before has the same one. Refused only
    /// with `OutOfMemory`, and then the updates are as before.
    pub fn push(&mut self, update: &Update<T>) -> Result<(), Refusal>
        ensures more { OnOk result (self.new ≡ self.old ++ update.now ∷ []) }
        ensures same { OnErr result (self.new ≡ self.old) }
        ensures refused { OnlyMemory result }
    {
        self.push_row(&update.row, update.time, update.diff)
    }

    /// Appends an update with this row, time and difference, as [`push`](Columns::push).
    pub fn push_row(&mut self, row: &Row, time: T, diff: i64) -> Result<(), Refusal>
        ensures more { OnOk result (self.new ≡ self.old ++ record {
          time = time;
          row = row.now;
          diff = diff;
        } ∷ []) }
        ensures same { OnErr result (self.new ≡ self.old) }
        ensures refused { OnlyMemory result }
    {
        row.known();
        self.times.reserve(1)?;
        self.diffs.reserve(1)?;
        let place = self.times.len();
        enter_run(&mut self.starts, &mut self.rows, place, row)?;
        self.times.push_reserved(time);
        self.diffs.push_reserved(diff);
        Ok(())
    }

    /// Appends an update with the row of the last one. Refused only with `OutOfMemory`, and then
    /// the updates are as before.
    ///
    /// Cost: constant: no row is compared.
    pub fn push_again(&mut self, at: T, diff: i64) -> Result<(), Refusal>
        requires { 0 < length self.old }
        ensures more { OnOk result ((u : Update T)
            → slice_get self.old (length self.old - 1) ≡ Some u
            → self.new ≡ self.old ++ record { time = at; row = u.row; diff = diff } ∷ []) }
        ensures same { OnErr result (self.new ≡ self.old) }
        ensures refused { OnlyMemory result }
    {
        self.times.reserve(1)?;
        self.diffs.reserve(1)?;
        self.times.push_reserved(at);
        self.diffs.push_reserved(diff);
        Ok(())
    }

    /// The number of updates. Takes no memory.
    pub fn len(&self) -> usize
        ensures { result ≡ length self.now }
    {
        self.times.len()
    }

    /// The times of the updates, in order. Takes no memory.
    pub fn times(&self) -> &[T]
        ensures { result.now ≡ map (λ u. u.time) self.now }
    {
        self.times.as_slice()
    }

    /// The differences of the updates, in order. Takes no memory.
    pub fn diffs(&self) -> &[i64]
        ensures { result.now ≡ map (λ u. u.diff) self.now }
    {
        self.diffs.as_slice()
    }

    /// The places where the runs begin: a run is as many neighbours as have the same row. Takes no
    /// memory.
    pub fn starts(&self) -> &[usize]
        ensures value { result.now ≡ row_starts self.now }
        ensures runs { AreRuns result.now self.now }
    {
        self.starts.as_slice()
    }

    /// The row of update `i`, counted from 0. Takes no memory.
    ///
    /// Cost: a binary search in the list of the runs.
    pub fn row(&self, i: usize) -> Row
        requires { i < length self.now }
        ensures { IsSomeAnd (slice_get self.now i) (λ u. result ≡ u.row) }
    {
        self.rows.row(run_at(self.starts.as_slice(), i))
    }

    /// The number of the run of update `i`, counted from 0; [`starts`](Columns::starts) says where
    /// it begins. Takes no memory.
    ///
    /// Cost: constant if that is `near` or the number behind it, else a binary search in the list
    /// of the runs. Any `near` is right.
    pub fn run_near(&self, i: usize, near: usize) -> usize
        requires { i < length self.now }
        ensures { result ≡ run_number (row_starts self.now) i }
    {
        run_near(self.starts.as_slice(), i, near)
    }

    /// The row of update `i`, as [`row`](Columns::row). Takes no memory.
    ///
    /// Cost: as for [`run_near`](Columns::run_near), and one step for each column.
    pub fn row_near(&self, i: usize, near: usize) -> Row
        requires { i < length self.now }
        ensures { IsSomeAnd (slice_get self.now i) (λ u. result ≡ u.row) }
    {
        self.rows.row(run_near(self.starts.as_slice(), i, near))
    }

    /// Whether update `i` has a row. Takes no memory, and makes no row.
    ///
    /// Cost: as for [`run_near`](Columns::run_near), and one comparison for each column.
    pub fn has_row(&self, i: usize, near: usize, row: &[i64]) -> bool
        requires { i < length self.now }
        ensures { IsSomeAnd (slice_get self.now i) (λ u. result ≡ same_row u.row row.now) }
    {
        self.rows
            .is_row(run_near(self.starts.as_slice(), i, near), row)
    }

    /// How the row of update `i` compares with the row of update `j` of another list. Takes no
    /// memory, and makes no row.
    ///
    /// Cost: as for [`run_near`](Columns::run_near) in both, and one comparison for each column
    /// that both have.
    pub fn compare_rows(
        &self,
        i: usize,
        near: usize,
        other: &Columns<T>,
        j: usize,
        other_near: usize,
    ) -> Ordering
        requires place { i < length self.now }
        requires other { j < length other.now }
        ensures { IsSomeAnd (slice_get self.now i) (λ u. IsSomeAnd (slice_get other.now j)
            (λ v. result ≡ slice_cmp int_cmp u.row v.row)) }
    {
        let run = run_near(self.starts.as_slice(), i, near);
        let other_run = run_near(other.starts.as_slice(), j, other_near);
        self.rows.compare(run, &other.rows, other_run)
    }

    /// The time of update `i`, counted from 0. Takes no memory.
    pub fn time(&self, i: usize) -> T
        requires { i < length self.now }
        ensures { IsSomeAnd (slice_get self.now i) (λ u. result ≡ u.time) }
    {
        self.times[i]
    }

    /// The difference of update `i`, counted from 0. Takes no memory.
    pub fn diff(&self, i: usize) -> i64
        requires { i < length self.now }
        ensures { IsSomeAnd (slice_get self.now i) (λ u. result ≡ u.diff) }
    {
        self.diffs[i]
    }

    /// How the row of update `i` compares with the rows of the key: it comes before them, is one of
    /// them, or comes after them. Takes no memory, and makes no row.
    ///
    /// Cost: a binary search in the list of the runs, and one comparison for each column of the
    /// key.
    pub fn compare_key(&self, i: usize, key: &[i64]) -> Ordering
        requires { i < length self.now }
        ensures { IsSomeAnd (slice_get self.now i) (λ u. result ≡ at_key key.now u) }
    {
        self.rows
            .compare_key(run_at(self.starts.as_slice(), i), key)
    }

    /// Gives memory back where no more than a quarter of it is used. The updates stay.
    pub fn shrink(&mut self)
        ensures { self.new ≡ self.old }
    {
        if self.times.len() <= self.times.capacity() / 4 {
            self.times.shrink_to_fit();
        }
        if self.diffs.len() <= self.diffs.capacity() / 4 {
            self.diffs.shrink_to_fit();
        }
        if self.starts.len() <= self.starts.capacity() / 4 {
            self.starts.shrink_to_fit();
        }
        self.rows.shrink();
    }

    // The first update from an index on that a reader does not leave behind, by galloping from run
    // to run.
    fn first_kept(&self, from: usize, key: &[i64], through: bool) -> usize
        requires sorted { IsStrictlySortedBy (by_row_then_time T.cmp) self.now }
        requires within { from ≤ length self.now }
        ensures ordered { from ≤ result }
        ensures within { result ≤ length self.now }
        ensures before { AllWithin (λ u. is_left_behind key.now through u ≡ true)
            self.now from result }
        ensures rest { AllWithin (λ u. is_left_behind key.now through u ≡ false)
            self.now result (length self.now) }
    {
        let length = self.len();
        if from == length {
            return length;
        }
        let starts = self.starts.as_slice();
        let run = self.run_kept(run_at(starts, from), key, through);
        from.max(self.run_start(run))
    }

    // The index of the first update that a reader does not leave behind, by a binary search of the
    // runs.
    fn split(&self, key: &[i64], through: bool) -> usize
        requires { IsStrictlySortedBy (by_row_then_time T.cmp) self.now }
        ensures within { result ≤ length self.now }
        ensures parted { IsPartitionPoint (λ u. is_left_behind key.now through u ≡ true)
            (λ u. is_left_behind key.now through u ≡ false) self.now result }
    {
        self.run_start(self.run_split(key, through))
    }

    /// The range of the updates whose rows begin with the columns of the key. If there are none,
    /// the range is empty and lies between the rows before the key and those after it. The updates
    /// must be in order of row, then time. Takes no memory.
    ///
    /// Cost: two binary searches in the list of the runs.
    pub fn range_of(&self, key: &[i64]) -> Range<usize>
        requires { IsStrictlySortedBy (by_row_then_time T.cmp) self.now }
        ensures ordered { result.start ≤ result.end }
        ensures within { result.end ≤ length self.now }
        ensures exact { slice_range self.now result.start result.end
            ≡ filter (begins_with key.now) self.now }
        ensures before { AllBefore key.now (take result.start self.now) }
        ensures behind { AllAfter key.now (drop result.end self.now) }
    {
        self.split(key, false)..self.split(key, true)
    }

    /// The first update from an index on whose row is not before the key; the length if there is
    /// none. The updates must be in order of row, then time. Takes no memory.
    ///
    /// Cost: a binary search for the run of the index, and a number of comparisons that is
    /// logarithmic in the number of runs from there to the result.
    pub fn first_from(&self, from: usize, key: &[i64]) -> usize
        requires sorted { IsStrictlySortedBy (by_row_then_time T.cmp) self.now }
        requires within { from ≤ length self.now }
        ensures ordered { from ≤ result }
        ensures within { result ≤ length self.now }
        ensures before { AllBefore key.now (slice_range self.now from result) }
        ensures rest { NoneBefore key.now (drop result self.now) }
    {
        self.first_kept(from, key, false)
    }

    /// The first update from an index on whose row comes after all rows of the key; the length if
    /// there is none. The updates must be in order of row, then time. Takes no memory.
    ///
    /// Cost: as for [`first_from`](Columns::first_from).
    pub fn first_past(&self, from: usize, key: &[i64]) -> usize
        requires sorted { IsStrictlySortedBy (by_row_then_time T.cmp) self.now }
        requires within { from ≤ length self.now }
        ensures ordered { from ≤ result }
        ensures within { result ≤ length self.now }
        ensures before { NoneAfter key.now (slice_range self.now from result) }
        ensures rest { AllAfter key.now (drop result self.now) }
    {
        self.first_kept(from, key, true)
    }
}

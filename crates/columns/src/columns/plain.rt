//! Lists of plain updates, such as an operator gives them: appending one as a whole, and copying
//! single updates out.
//!
//! An append that is refused takes back the updates that it has pushed so far. It cuts off the
//! times and the differences where the first of them stands, and keeps the runs that begin before
//! that place.
ghost use Rattle.std.specs.Prelude.{◌≡◌, ◌<◌, ◌≤◌, ◌++◌, take, length, slice_get, IsSomeAnd, IfOk, OnOk, OnErr};
ghost use Rattle.std.specs.List.{AllPairs};
ghost use Rattle.std.specs.List.Sorted.{IsPartitionPoint};
ghost use Rattle.update.specs.Refusals.{OnlyMemory};
ghost use Rattle.columns.specs.Runs.{run_number, row_starts};

use crate::columns::Columns;
use lattice::Lattice;
use std::alloc::Global;
use std::mem;
use update::{Refusal, Update};

// How many runs begin before a place.
fn runs_before(starts: &[usize], place: usize) -> usize
    requires { AllPairs (λ s t. s < t) starts.now }
    ensures within { result ≤ length starts.now }
    ensures parted { IsPartitionPoint (λ s. s < place) (λ s. place ≤ s) starts.now result }
{
    starts.partition_point(|start| *start < place)
}

impl<T: Lattice> Columns<T> {
    /// Drops all but the first `len` updates. Takes no memory, and gives none back.
    ///
    /// Cost: a binary search in the list of the runs.
    pub fn truncate(&mut self, len: usize)
        ensures { self.new ≡ take len self.old }
    {
        let runs = runs_before(self.starts.as_slice(), len);
        self.times.truncate(len);
        self.diffs.truncate(len);
        self.starts.truncate(runs);
        self.rows.truncate(runs);
    }

    /// Appends copies of all these updates. Refused only with `OutOfMemory`, and then the updates
    /// are as before.
    ///
    /// Cost: one comparison of rows for each update, and a copy of each row that is another than
    /// the one before.
    pub fn append(&mut self, more: &[Update<T>]) -> Result<(), Refusal>
        ensures more { OnOk result (self.new ≡ self.old ++ more.now) }
        ensures same { OnErr result (self.new ≡ self.old) }
        ensures refused { OnlyMemory result }
    {
        let before = self.len();
        match self.push_all(more) {
            Ok(()) => Ok(()),
            Err(refusal) => {
                self.truncate(before);
                Err(refusal)
            }
        }
    }

    // Pushes all these updates. If memory was refused, then some of them may stand behind those of
    // before.
    fn push_all(&mut self, more: &[Update<T>]) -> Result<(), Refusal>
        ensures more { OnOk result (self.new ≡ self.old ++ more.now) }
        ensures kept { take (length self.old) self.new ≡ self.old }
        ensures refused { OnlyMemory result }
    {
        self.times.reserve(more.len())?;
        self.diffs.reserve(more.len())?;
        for update in more {
            self.push(update)?;
        }
        Ok(())
    }

    /// Appends copies of all updates of another list. Refused only with `OutOfMemory`, and then the
    /// updates are as before.
    ///
    /// Cost: as for [`append`](Columns::append), and one step for each column of each row.
    pub fn append_columns(&mut self, more: &Columns<T>) -> Result<(), Refusal>
        ensures more { OnOk result (self.new ≡ self.old ++ more.now) }
        ensures same { OnErr result (self.new ≡ self.old) }
        ensures refused { OnlyMemory result }
    {
        let len = self.len();
        match self.push_columns(more) {
            Ok(()) => Ok(()),
            Err(refusal) => {
                self.truncate(len);
                Err(refusal)
            }
        }
    }

    /// Appends all updates of another list, which move if there were none before. Refused only with
    /// `OutOfMemory`, and then both lists are as before.
    ///
    /// Cost: constant if there were none before, else as for
    /// [`append_columns`](Columns::append_columns).
    pub(crate) fn take_columns(&mut self, more: &mut Columns<T>) -> Result<(), Refusal>
        ensures more { OnOk result (self.new ≡ self.old ++ more.old) }
        ensures same { OnErr result (self.new ≡ self.old) }
        ensures left { OnErr result (more.new ≡ more.old) }
        ensures refused { OnlyMemory result }
    {
        if self.len() == 0 {
            mem::swap(self, more);
            return Ok(());
        }
        self.append_columns(more)
    }

    // Pushes all updates of another list. If memory was refused, then some of them may stand behind
    // those of before.
    fn push_columns(&mut self, more: &Columns<T>) -> Result<(), Refusal>
        ensures more { OnOk result (self.new ≡ self.old ++ more.now) }
        ensures kept { take (length self.old) self.new ≡ self.old }
        ensures refused { OnlyMemory result }
    {
        self.times.reserve(more.len())?;
        self.diffs.reserve(more.len())?;
        let mut run = 0;
        for i in 0..more.len() {
            run = more.run_near(i, run);
            self.push(&more.copy(i, run))?;
        }
        Ok(())
    }

    /// A copy of all updates, column by column, with no more memory than they need. Refused only
    /// with `OutOfMemory`.
    ///
    /// Cost: the columns are copied as they stand. No row is made, and none is compared.
    pub fn to_columns(&self, alloc: Global) -> Result<Columns<T>, Refusal>
        ensures copied { IfOk result (λ copy. copy ≡ self.now) }
        ensures refused { OnlyMemory result }
    {
        let times = Vec::from_slice(alloc, self.times.as_slice())?;
        let diffs = Vec::from_slice(alloc, self.diffs.as_slice())?;
        let starts = Vec::from_slice(alloc, self.starts.as_slice())?;
        let rows = self.rows.copy(alloc)?;
        Ok(Columns {
            times,
            diffs,
            starts,
            rows,
        })
    }

    /// Copies of all updates, each with its row. Refused only with `OutOfMemory`.
    ///
    /// Cost: one step for each column of each row. So many updates take 104 bytes each.
    pub fn to_vec(&self, alloc: Global) -> Result<Vec<Update<T>>, Refusal>
        ensures copied { IfOk result (λ list. list.items ≡ self.now) }
        ensures refused { OnlyMemory result }
    {
        let mut list = Vec::with_capacity(alloc, self.len())?;
        let mut run = 0;
        for i in 0..self.len() {
            run = self.run_near(i, run);
            list.push(self.copy(i, run))?;
        }
        Ok(list)
    }

    /// A copy of update `i`, counted from 0, whose run is known. Takes no memory.
    ///
    /// Cost: one step for each column of the row. [`run_near`](Columns::run_near) finds the run.
    pub fn copy(&self, i: usize, run: usize) -> Update<T>
        requires place { i < length self.now }
        requires run { run ≡ run_number (row_starts self.now) i }
        ensures { IsSomeAnd (slice_get self.now i) (λ u. result ≡ u) }
    {
        Update {
            time: self.times[i],
            row: self.rows.row(run),
            diff: self.diffs[i],
        }
    }

    /// Appends the columns of the row of update `i`, whose run is known, to a list, and returns how
    /// many they are. Refused only with `OutOfMemory`, and then the list is as before.
    ///
    /// Cost: one step for each column. No row is made.
    pub fn append_row(&self, i: usize, run: usize, list: &mut Vec<i64>) -> Result<usize, Refusal>
        requires place { i < length self.now }
        requires run { run ≡ run_number (row_starts self.now) i }
        ensures more { OnOk result (IsSomeAnd (slice_get self.now i)
            (λ u. list.new.items ≡ list.old.items ++ u.row)) }
        ensures same { OnErr result (list.new.items ≡ list.old.items) }
        ensures width { IfOk result
            (λ width. IsSomeAnd (slice_get self.now i) (λ u. width ≡ length u.row)) }
        ensures some { IfOk result (λ width. 1 ≤ width) }
        ensures few { IfOk result (λ width. width ≤ 8) }
        ensures refused { OnlyMemory result }
    {
        let before = list.len();
        match self.rows.append_row(run, list) {
            Ok(width) => Ok(width),
            Err(refusal) => {
                list.truncate(before);
                Err(refusal)
            }
        }
    }
}

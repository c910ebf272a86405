//! A list of updates that is kept small and read in order. What was given of a key is among the
//! largest lists of a run, and a sweep reads it from some place on. So an update need not be found
//! at once, and no room is spent on that.
//!
//! A plain update takes the room of the widest row. Here an update has a head, which is its time,
//! its difference and the width of its row; and a second list has the columns of all rows, one
//! after the other. At times of 16 bytes a head takes 32 bytes, and each column that a row really
//! has takes 8: with two columns these are 48 bytes, where a plain update takes 104. There are many
//! keys of one or two updates, so few lists matter too: these are two, and the first append takes
//! no more room than it needs.
//!
//! The invariant: both lists are the parts of one list of updates (`ArePacked` in
//! `specs/Packs.antt`). A contract sees this list alone. A reader keeps the place where the next
//! row begins (`columns_before`). Reading from a place on adds up the widths behind it, so its cost
//! depends on what is read and not on what is skipped.
ghost use Rattle.std.specs.Prelude.{◌≡◌, ◌<◌, ◌≤◌, ◌+◌, ◌++◌, ◌∷◌, [], drop, take, length, slice_get, slice_range, IfOk, IsSomeAnd, OnErr, OnOk};
ghost use Rattle.update.specs.Refusals.{OnlyMemory};
ghost use Rattle.update.specs.declared.refusal.Refusal.{Refusal};
ghost use Rattle.columns.specs.Runs.{run_number, row_starts};
ghost use Rattle.key_history.specs.Packs.{columns_before};

use columns::Columns;
use lattice::Lattice;
use row::Row;
use std::alloc::Global;
use std::marker::Model;
use std::ops::Range;
use update::{Refusal, Update};

/// An update without its row.
#[derive(Clone, Copy)]
pub(crate) struct Head<T> {
    time: T,
    diff: i64,
    // How many columns the row has.
    width: u8,
}

/// A list of updates, packed. A contract sees the list.
///
/// Cost: a time and 16 bytes for each update, and 8 bytes for each column of its row.
#[derive(Drop)]
pub(crate) struct Pack<T> {
    heads: Vec<Head<T>>,
    columns: Vec<i64>,
}

impl<T> Model for Pack<T> {
    ghost use Rattle.std.specs.Prelude.{List};
    ghost use Rattle.update.specs.declared.change.Update.{Update};
    ghost use Rattle.key_history.specs.Packs.{ArePacked, unpacked};

    ghost Value = { List (Update T) };

    ghost view = { λ p. unpacked p.heads.items p.columns.items };

    ghost invariant = { λ p. ArePacked (unpacked p.heads.items p.columns.items)
        p.heads.items p.columns.items };
}

// Makes room for so many more items. A first list gets no more room than that, since many keys get
// no second one.
fn make_room<X: Drop>(list: &mut Vec<X>, more: usize) -> Result<(), Refusal>
    ensures items { list.new.items ≡ list.old.items }
    ensures only { OnlyMemory result }
{
    if list.is_empty() {
        list.reserve_exact(more)?;
        return Ok(());
    }
    list.reserve(more)?;
    Ok(())
}

// The width of the row at a place, and 0 if there is none.
fn width_at<T: Lattice>(updates: &Columns<T>, place: usize) -> usize {
    if place < updates.len() {
        updates.row(place).width()
    } else {
        0
    }
}

// The width of the first row, and 0 if there is none.
fn width_of<T: Lattice>(updates: &[Update<T>]) -> usize {
    match updates.first() {
        Some(first) => first.row.width(),
        None => 0,
    }
}

impl<T: Lattice> Pack<T> {
    /// No updates. Takes no memory.
    pub(crate) fn new(alloc: Global) -> Pack<T>
        ensures { result ≡ [] }
    {
        Pack {
            heads: Vec::new(alloc),
            columns: Vec::new(alloc),
        }
    }

    /// The number of updates. Takes no memory.
    pub(crate) fn len(&self) -> usize
        ensures { result ≡ length self.now }
    {
        self.heads.len()
    }

    // Makes room for so many more updates with rows of so many columns.
    fn reserve(&mut self, more: usize, width: usize) -> Result<(), Refusal>
        ensures same { self.new ≡ self.old }
        ensures only { OnlyMemory result }
    {
        make_room(&mut self.heads, more)?;
        make_room(&mut self.columns, more.saturating_mul(width))?;
        Ok(())
    }

    // Appends a copy of an update. If memory was refused, then the updates are as before.
    fn push(&mut self, update: &Update<T>) -> Result<(), Refusal>
        ensures more { OnOk result (self.new ≡ self.old ++ update.now ∷ []) }
        ensures same { OnErr result (self.new ≡ self.old) }
        ensures only { OnlyMemory result }
    {
        self.heads.reserve(1)?;
        self.columns.extend_from_slice(update.row.columns())?;
        self.heads.push_reserved(Head {
            time: update.time,
            diff: update.diff,
            width: update.row.width() as u8,
        });
        Ok(())
    }

    // Appends a copy of update `i` of some others, whose run is known. If memory was refused, then
    // the updates are as before.
    fn push_from(&mut self, out: &Columns<T>, i: usize, run: usize) -> Result<(), Refusal>
        requires place { i < length out.now }
        requires run { run ≡ run_number (row_starts out.now) i }
        ensures more { OnOk result (IsSomeAnd (slice_get out.now i)
            (λ u. self.new ≡ self.old ++ u ∷ [])) }
        ensures same { OnErr result (self.new ≡ self.old) }
        ensures only { OnlyMemory result }
    {
        self.heads.reserve(1)?;
        let width = out.append_row(i, run, &mut self.columns)?;
        self.heads.push_reserved(Head {
            time: out.time(i),
            diff: out.diff(i),
            width: width as u8,
        });
        Ok(())
    }

    /// The place where the row of update `i` begins; the end of all rows behind the last update.
    /// Takes no memory.
    ///
    /// Cost: one step for each update from `i` on.
    pub(crate) fn place(&self, i: usize) -> usize
        requires { i ≤ length self.now }
        ensures { result ≡ columns_before i self.now }
    {
        let mut place = self.columns.len();
        let mut left = self.heads.len();
        while left > i {
            left -= 1;
            place -= self.heads[left].width as usize;
        }
        place
    }

    /// The place behind the row of update `i`, which begins at `place`. Takes no memory.
    pub(crate) fn place_behind(&self, i: usize, place: usize) -> usize
        requires within { i < length self.now }
        requires place { place ≡ columns_before i self.now }
        ensures { result ≡ columns_before (i + 1) self.now }
    {
        place + self.heads[i].width as usize
    }

    // The row of update `i`, which begins at `place`.
    fn row(&self, i: usize, place: usize) -> Row
        requires within { i < length self.now }
        requires place { place ≡ columns_before i self.now }
        ensures { IsSomeAnd (slice_get self.now i) (λ u. result ≡ u.row) }
    {
        let end = place + self.heads[i].width as usize;
        Row::of(*self.columns.allocator(), &self.columns[place..end])
    }

    /// A copy of update `i`, whose row begins at `place`. Takes no memory.
    pub(crate) fn copy(&self, i: usize, place: usize) -> Update<T>
        requires within { i < length self.now }
        requires place { place ≡ columns_before i self.now }
        ensures { IsSomeAnd (slice_get self.now i) (λ u. result ≡ u) }
    {
        let Head { time, diff, .. } = self.heads[i];
        let row = self.row(i, place);
        Update { time, row, diff }
    }

    /// Drops all but the first `len` updates. Takes no memory, and gives none back.
    ///
    /// Cost: one step for each update that is dropped.
    pub(crate) fn truncate(&mut self, len: usize)
        ensures { self.new ≡ take len self.old }
    {
        if len >= self.len() {
            return;
        }
        let place = self.place(len);
        self.heads.truncate(len);
        self.columns.truncate(place);
    }

    // Appends copies of a part of some updates. If memory was refused, then some of them may stand
    // behind those of before.
    fn push_all(&mut self, out: &Columns<T>, part: Range<usize>) -> Result<(), Refusal>
        requires within { part.end ≤ length out.now }
        ensures more { OnOk result (part.start ≤ part.end
            → self.new ≡ self.old ++ slice_range out.now part.start part.end) }
        ensures kept { take (length self.old) self.new ≡ self.old }
        ensures only { OnlyMemory result }
    {
        let Range { start, end } = part;
        self.reserve(end.saturating_sub(start), width_at(out, start))?;
        let mut run = 0;
        for i in start..end {
            run = out.run_near(i, run);
            self.push_from(out, i, run)?;
        }
        Ok(())
    }

    /// Appends copies of a part of some updates. If the call is refused, then the updates are as
    /// before.
    ///
    /// [`Refusal::OutOfMemory`] only if memory for the copies was refused.
    ///
    /// Cost: a copy of the part, and a binary search for its first row. A first append takes the
    /// room that it needs, if the rows are of one width; a later one may move the lists to ones of
    /// twice the room.
    pub(crate) fn append(&mut self, out: &Columns<T>, part: Range<usize>) -> Result<(), Refusal>
        requires ordered { part.start ≤ part.end }
        requires within { part.end ≤ length out.now }
        ensures more { OnOk result
            (self.new ≡ self.old ++ slice_range out.now part.start part.end) }
        ensures same { OnErr result (self.new ≡ self.old) }
        ensures only { OnlyMemory result }
    {
        let before = self.len();
        match self.push_all(out, part) {
            Ok(()) => Ok(()),
            Err(refusal) => {
                self.truncate(before);
                Err(refusal)
            }
        }
    }

    /// Copies of these updates, in no more room than they need.
    ///
    /// [`Refusal::OutOfMemory`] only if memory for the copies was refused.
    ///
    /// Cost: a copy of the updates. If their rows are not of one width, the list of the columns may
    /// move.
    pub(crate) fn of(alloc: Global, updates: &[Update<T>]) -> Result<Pack<T>, Refusal>
        ensures copied { IfOk result (λ pack. pack ≡ updates.now) }
        ensures only { OnlyMemory result }
    {
        let mut pack = Pack::new(alloc);
        pack.reserve(updates.len(), width_of(updates))?;
        for update in updates {
            pack.push(update)?;
        }
        pack.columns.shrink_to_fit();
        Ok(pack)
    }

    /// Appends copies of the updates from `from` on to a plain list.
    ///
    /// [`Refusal::OutOfMemory`] only if memory for the copies was refused.
    ///
    /// Cost: a copy of these updates.
    pub(crate) fn copy_from(&self, from: usize, list: &mut Vec<Update<T>>) -> Result<(), Refusal>
        requires { from ≤ length self.now }
        ensures copied { OnOk result (list.new.items ≡ list.old.items ++ drop from self.now) }
        ensures only { OnlyMemory result }
    {
        list.reserve(self.len() - from)?;
        let mut place = self.place(from);
        for i in from..self.len() {
            list.push(self.copy(i, place))?;
            place = self.place_behind(i, place);
        }
        Ok(())
    }
}

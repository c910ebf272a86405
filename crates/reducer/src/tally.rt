//! A tally: the different rows of a key, each once and in order, with counts that are changed in
//! place. A sweep over the times of a key adds to it what each time sees, and takes back what the
//! next one does not. So no time copies the rows of the time before.
//!
//! Its one invariant is that there are as many counts as rows, and that the rows rise. A count may
//! be 0: rows stay where they are while their counts change, so a row is found by binary search.
//!
//! A change is taken back exactly. Each one notes the place and the count that was there, and the
//! notes are set back from the last to the first.
ghost use Rattle.std.specs.Prelude.{◌≡◌, ◌<◌, ◌++◌, ◌∷◌, ◌+ℤ◌, [], Bool, List, ℤ, None, false, length, map, replicate, pos, slice_get, FitsSigned, IsTrue, IsSomeAnd, IfOk, IfSome};
ghost use Rattle.std.specs.Int.{w64};
ghost use Rattle.std.specs.List.{Contains, list_all};
ghost use Rattle.update.specs.Refusals.{OnlyMemory};
ghost use Rattle.update.specs.Bags.{Alike, Entry, entry_of};
ghost use Rattle.update.specs.declared.refusal.Refusal.{Refusal};
ghost use Rattle.reducer.specs.Tallies.{AreInOrder, set_count, undone};

use lattice::Lattice;
use row::Row;
use std::alloc::Global;
use std::marker::Model;
use update::{Refusal, Update};

/// The different rows of a key, each once and in order, with a count each that may be 0. A contract
/// sees the list of entries.
#[derive(Drop)]
pub struct Tally {
    rows: Vec<Row>,
    counts: Vec<i64>,
}

impl Model for Tally {
    ghost use Rattle.std.specs.Prelude.{List};
    ghost use Rattle.update.specs.Bags.{Entry};
    ghost use Rattle.reducer.specs.Tallies.{tallied, IsTally};

    ghost Value = { List Entry };

    ghost view = { λ t. tallied t.rows.items t.counts.items };

    ghost invariant = { λ t. IsTally t.rows.items t.counts.items };
}

/// The count that a change has replaced, and its place in a tally.
#[derive(Drop)]
pub struct Undone {
    place: usize,
    count: i64,
}

// Copies of the rows of updates.
fn rows_in<T: Lattice>(alloc: Global, updates: &[Update<T>]) -> Result<Vec<Row>, Refusal>
    ensures rows { IfOk result (λ rows. rows.items ≡ map (λ u. u.row) updates.now) }
    ensures only { OnlyMemory result }
{
    let mut rows = Vec::with_capacity(alloc, updates.len())?;
    for update in updates {
        rows.push(update.row.copy())?;
    }
    Ok(rows)
}

// As many counts of 0.
fn no_counts(alloc: Global, len: usize) -> Result<Vec<i64>, Refusal>
    ensures counts { IfOk result (λ counts. counts.items ≡ replicate len (pos 0)) }
    ensures only { OnlyMemory result }
{
    Ok(vec![in alloc; 0; len]?)
}

impl Tally {
    /// The different rows of updates, each with count 0. [`Refusal::OutOfMemory`] only if memory
    /// for them was refused.
    ///
    /// Cost: copies and sorts the rows.
    pub fn of<T: Lattice>(alloc: Global, updates: &[Update<T>]) -> Result<Tally, Refusal>
        ensures nothing { IfOk result (λ tally. Alike tally []) }
        ensures among { IfOk result (λ tally. (p : List ℤ → Bool)
            → IsTrue (list_all (λ u. p u.row) updates.now)
            → IsTrue (list_all (λ e. p e.row) tally)) }
        ensures only { OnlyMemory result }
    {
        let mut rows = rows_in(alloc, updates)?;
        rows.sort_unstable();
        rows.dedup();
        let counts = no_counts(alloc, rows.len())?;
        Ok(Tally { rows, counts })
    }

    /// The number of different rows. Takes no memory.
    pub fn len(&self) -> usize
        ensures len { result ≡ length self.now }
        ensures order { AreInOrder self.now }
    {
        self.rows.len()
    }

    /// Tells the prover that the rows are in order, each once. Costs nothing.
    pub fn known(&self)
        ensures order { AreInOrder self.now }
    {
        let _ = &self.rows;
    }

    /// The row of entry `i`, counted from 0. Takes no memory.
    pub fn row(&self, i: usize) -> &Row
        requires { i < length self.now }
        ensures { IsSomeAnd (slice_get self.now i) (λ e. result.now ≡ e.row) }
    {
        &self.rows[i]
    }

    /// The count of entry `i`, counted from 0. Takes no memory.
    pub fn count(&self, i: usize) -> i64
        requires { i < length self.now }
        ensures { IsSomeAnd (slice_get self.now i) (λ e. result ≡ e.count) }
    {
        self.counts[i]
    }

    // The place of a row, or none if the tally has not got it.
    fn place_of(&self, row: &Row) -> Option<usize>
        ensures place { IfSome result
            (λ i. IsSomeAnd (slice_get self.now i) (λ e. e.row ≡ row.now)) }
        ensures none { result ≡ None
            → (e : Entry) → Contains self.now e → e.row ≡ row.now → ⊥ }
    {
        self.rows.as_slice().binary_search(row).ok()
    }

    // The count at a place with a difference added, or none if that is no 64-bit number.
    fn raised(&self, place: usize, diff: i64) -> Option<i64>
        requires { place < length self.now }
        ensures count { IfSome result (λ count. IsSomeAnd (slice_get self.now place)
            (λ e. count ≡ e.count +ℤ diff)) }
        ensures none { result ≡ None → IsSomeAnd (slice_get self.now place)
            (λ e. FitsSigned w64 (e.count +ℤ diff) → ⊥) }
    {
        self.count(place).checked_add(diff)
    }

    // Sets the count at a place. A place beyond the rows has none.
    fn set(&mut self, place: usize, count: i64)
        ensures { self.new ≡ set_count place count self.old }
    {
        if place < self.counts.len() {
            self.counts[place] = count;
        }
    }

    // The place of a row, and its count with a difference added. None if the tally has not got the
    // row, or the count does not fit.
    fn moved(&self, row: &Row, diff: i64) -> Option<(usize, i64)>
        ensures moved { IfSome result (λ p. IsSomeAnd (slice_get self.now p.0)
            (λ e. (e.row ≡ row.now) × (p.1 ≡ e.count +ℤ diff))) }
        ensures none { result ≡ None → (e : Entry) → Contains self.now e → e.row ≡ row.now
            → FitsSigned w64 (e.count +ℤ diff) → ⊥ }
    {
        self.known();
        let place = self.place_of(row)?;
        let count = self.raised(place, diff)?;
        Some((place, count))
    }

    /// Adds to the count of a row. False, and nothing is changed, only if the row is not among the
    /// rows or the new count is no 64-bit number. Takes no memory.
    ///
    /// Cost: a binary search.
    pub fn add(&mut self, row: &Row, diff: i64) -> bool
        ensures added { IsTrue result → Alike self.new (self.old ++ entry_of row.now diff ∷ []) }
        ensures among { (p : List ℤ → Bool) → IsTrue (list_all (λ e. p e.row) self.old)
            → IsTrue (list_all (λ e. p e.row) self.new) }
        ensures kept { result ≡ false → self.new ≡ self.old }
        ensures refused { result ≡ false → (e : Entry) → Contains self.old e → e.row ≡ row.now
            → FitsSigned w64 (e.count +ℤ diff) → ⊥ }
    {
        let Some((place, raised)) = self.moved(row, diff) else {
            return false;
        };
        self.set(place, raised);
        true
    }

    /// Adds to the count of a row as [`add`](Tally::add) does, and notes how it is taken back.
    ///
    /// [`Refusal::OutOfMemory`] only if memory for the note was refused; nothing is changed then.
    ///
    /// Cost: a binary search.
    pub fn add_noting(
        &mut self,
        row: &Row,
        diff: i64,
        noted: &mut Vec<Undone>,
    ) -> Result<bool, Refusal>
        ensures added { IfOk result (λ added. IsTrue added
            → Alike self.new (self.old ++ entry_of row.now diff ∷ [])) }
        ensures undone { undone noted.new.items self.new ≡ undone noted.old.items self.old }
        ensures among { (p : List ℤ → Bool) → IsTrue (list_all (λ e. p e.row) self.old)
            → IsTrue (list_all (λ e. p e.row) self.new) }
        ensures refused { IfOk result (λ added. added ≡ false
            → (e : Entry) → Contains self.old e → e.row ≡ row.now
            → FitsSigned w64 (e.count +ℤ diff) → ⊥) }
        ensures only { OnlyMemory result }
    {
        let Some((place, count)) = self.moved(row, diff) else {
            return Ok(false);
        };
        noted.push(Undone {
            place,
            count: self.count(place),
        })?;
        self.set(place, count);
        Ok(true)
    }

    /// Sets back each count that was noted, from the last to the first. Takes no memory.
    ///
    /// Cost: one step for each of them.
    pub fn undo_all(&mut self, mut noted: Vec<Undone>)
        ensures { self.new ≡ undone noted.items self.old }
    {
        while let Some(last) = noted.pop() {
            self.set(last.place, last.count);
        }
    }
}

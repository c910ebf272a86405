//! Bags: what updates sum to at a time. A bag is a consolidated list of updates at one time. That
//! is its one invariant: each row occurs once, rows are in order, and no count is 0. So equal bags
//! are equal lists, and a row is found by binary search.
ghost use Rattle.std.specs.Prelude.{◌≡◌, ◌<◌, ◌↔◌, ◌⊎◌, ◌++◌, [], Some, map, length, slice_get, IsTrue, IsSomeAnd, IfOk, IfErr, OnOk};
ghost use Rattle.update.specs.Bags.{IsBag, Alike, HasLargeCount, count_of};
ghost use Rattle.update.specs.UnitTimes.{at_unit_time};
ghost use Rattle.update.specs.Updates.{IsConsolidated, entry};
ghost use Rattle.update.specs.Text.{bag_text};
ghost use Rattle.update.specs.Refusals.{OnlyMemory, IsMemoryOrOverflow};

use crate::consolidation::consolidate_behind;
use crate::unit_time::UnitTime;
use crate::{Refusal, Update};
use lattice::Lattice;
use row::Row;
use std::alloc::AllocError;
use std::fmt;
use std::marker::Model;

/// Rows, each with its count, which is never 0. A contract sees the list of entries in the order of
/// rows, so that equal bags are equal lists. To go through a bag, call [`Bag::row`] and
/// [`Bag::count`] for each number below [`Bag::len`].
#[derive(Drop)]
pub struct Bag {
    entries: Vec<Update<UnitTime>>,
}

impl Model for Bag {
    ghost use Rattle.std.specs.Prelude.{List, map};
    ghost use Rattle.update.specs.Bags.{Entry, IsBag};
    ghost use Rattle.update.specs.Updates.{entry};

    ghost Value = { List Entry };

    ghost view = { λ b. map entry b.entries.items };

    ghost invariant = { λ b. IsBag (map entry b.entries.items) };
}

impl Bag {
    /// The bag of a consolidated list. Takes no memory.
    pub(crate) fn from_consolidated(entries: Vec<Update<UnitTime>>) -> Bag
        requires { IsConsolidated ⟦<UnitTime as Ord>⟧.cmp entries.items }
        ensures { result ≡ map entry entries.items }
    {
        Bag { entries }
    }

    /// The number of different rows. Takes no memory.
    pub fn len(&self) -> usize
        ensures len { result ≡ length self.now }
        ensures bag { IsBag self.now }
    {
        self.entries.len()
    }

    /// Tells the prover that the entries are in order and that no count is 0. Costs nothing.
    pub fn known(&self)
        ensures bag { IsBag self.now }
    {
        let _ = &self.entries;
    }

    /// Whether the bag has no entries. Takes no memory.
    pub fn is_empty(&self) -> bool
        ensures { IsTrue result ↔ (self.now ≡ []) }
    {
        self.entries.is_empty()
    }

    /// The count of the row, 0 if it is not in the bag. Takes no memory.
    ///
    /// Cost: a binary search, so the number of row comparisons is logarithmic in the number of
    /// entries.
    pub fn get(&self, row: &Row) -> i64
        ensures { result ≡ count_of self.now row.now }
    {
        match self
            .entries
            .as_slice()
            .binary_search_by(|update| update.row.cmp(row))
        {
            Ok(at) => self.entries[at].diff,
            Err(_) => 0,
        }
    }

    /// The row of entry `i`, counted from 0. Takes no memory.
    pub fn row(&self, i: usize) -> &Row
        requires { i < length self.now }
        ensures { IsSomeAnd (slice_get self.now i) (λ e. result.now ≡ e.row) }
    {
        &self.entries[i].row
    }

    /// The count of entry `i`, counted from 0; it is not 0. Takes no memory.
    pub fn count(&self, i: usize) -> i64
        requires { i < length self.now }
        ensures { IsSomeAnd (slice_get self.now i) (λ e. result ≡ e.count) }
    {
        self.entries[i].diff
    }

    /// This bag with all the updates added, whatever their times. [`Refusal::Overflow`] only if the
    /// new count of some row is no 64-bit number, and no bag is given in that case; the order of
    /// the updates does not matter. [`Refusal::OutOfMemory`] only if memory to hold and sort the
    /// entries and the updates was refused.
    ///
    /// Cost: linear in the bag, which is copied, and one sort of the updates.
    pub fn with<T: Lattice>(&self, updates: &[Update<T>]) -> Result<Bag, Refusal>
        ensures sum { IfOk result (λ bag. Alike bag (self.now ++ map entry updates.now)) }
        ensures bag { IfOk result IsBag }
        ensures fits { OnOk result (HasLargeCount (self.now ++ map entry updates.now) → ⊥) }
        ensures refused { IfErr result
            (IsMemoryOrOverflow (HasLargeCount (self.now ++ map entry updates.now))) }
    {
        let mut entries = self.copy_entries()?;
        push_counts(&mut entries, updates)?;
        let entries = consolidate_behind(entries)?;
        Ok(Bag::from_consolidated(entries))
    }

    // A copy of the entries as a list.
    fn copy_entries(&self) -> Result<Vec<Update<UnitTime>>, Refusal>
        ensures copied { IfOk result (λ entries. map entry entries.items ≡ self.now) }
        ensures refused { OnlyMemory result }
    {
        let Bag { entries } = self.clone()?;
        Ok(entries)
    }
}

// Appends the rows and differences of updates to the entries.
fn push_counts<T: Lattice>(
    entries: &mut Vec<Update<UnitTime>>,
    updates: &[Update<T>],
) -> Result<(), Refusal>
    ensures more { OnOk result
        (entries.new.items ≡ entries.old.items ++ map at_unit_time updates.now) }
    ensures refused { OnlyMemory result }
{
    entries.reserve(updates.len())?;
    for update in updates {
        entries.push(Update {
            time: UnitTime,
            row: update.row.copy(),
            diff: update.diff,
        })?;
    }
    Ok(())
}

/// A copy. Refused only if memory is refused; copying an empty bag is never refused.
impl Clone for Bag {
    ghost use Rattle.std.specs.Prelude.{◌≡◌, []};

    ghost is_clone = { λ a b. b ≡ a };

    ghost is_infallible = { λ a. a ≡ [] };

    fn clone(&self) -> Result<Bag, AllocError> {
        let mut entries = Vec::with_capacity(*self.entries.allocator(), self.entries.len())?;
        for update in &self.entries {
            entries.push(update.copy())?;
        }
        Ok(Bag { entries })
    }
}

/// Two bags are equal if and only if each row has the same count in both.
impl PartialEq for Bag {
    ghost use Rattle.std.specs.Prelude.{◌≡◌, ◌↔◌, IsTrue};
    ghost use Rattle.std.specs.Cmp.{partial_equiv_from_equiv};
    ghost use Rattle.update.specs.Equality.{same_bag, bags_equivalence};

    ghost eq = { same_bag };

    ghost laws = { partial_equiv_from_equiv bags_equivalence };

    fn eq(&self, other: &Bag) -> bool
        ensures value { result ≡ same_bag self.now other.now }
        ensures same { IsTrue result ↔ (self.now ≡ other.now) }
    {
        self.entries.as_slice() == other.entries.as_slice()
    }
}

impl Eq for Bag {
    ghost use Rattle.update.specs.Equality.{bags_equivalence};

    ghost laws = { bags_equivalence };
}

/// A line for each entry: its count, then its row, all numbers separated by one space.
impl fmt::Display for Bag {
    ghost output = { λ bag. Some (bag_text bag) };

    fn fmt<W: fmt::Write>(&self, f: &mut fmt::Formatter<W>) -> fmt::Result {
        for update in &self.entries {
            let count = update.diff;
            let row = &update.row;
            writeln!(f, "{count} {row}")?;
        }
        Ok(())
    }
}

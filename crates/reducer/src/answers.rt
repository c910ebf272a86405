//! What the reducers have in common: they read the entries of a key by index, and most answer one
//! row or none. In such an answer no count is above 1, so only memory can be refused.
ghost use Rattle.std.specs.Prelude.{◌≡◌, ◌<◌, ◌∷◌, [], length, slice_index_or, IfOk};
ghost use Rattle.update.specs.Refusals.{OnlyMemory};
ghost use Rattle.update.specs.Bags.{Entry, Alike, IsBag};
ghost use Rattle.plan.specs.Reductions.{single};
ghost use Rattle.reducer.specs.Kinds.{is_positive};

use crate::RowCounts;
use row::Row;
use std::alloc::Global;
use update::{Bag, Entries, Refusal};

/// A copy of the row of entry `i`. Takes no memory.
pub(crate) fn row_at<C: RowCounts>(rows: &C, i: usize) -> Row
    requires { i < length (C.entries rows.now) }
    ensures { (d : Entry) → result ≡ (slice_index_or (C.entries rows.now) i d).row }
{
    rows.row(i).copy()
}

/// The count of entry `i`. Takes no memory.
pub(crate) fn count_at<C: RowCounts>(rows: &C, i: usize) -> i64
    requires { i < length (C.entries rows.now) }
    ensures { (d : Entry) → result ≡ (slice_index_or (C.entries rows.now) i d).count }
{
    rows.count(i)
}

/// Whether entry `i` has a count above 0. Takes no memory.
pub(crate) fn is_positive_at<C: RowCounts>(rows: &C, i: usize) -> bool
    requires { i < length (C.entries rows.now) }
    ensures { (d : Entry) → result ≡ is_positive (slice_index_or (C.entries rows.now) i d) }
{
    count_at(rows, i) > 0
}

/// The bag without rows. Takes no memory.
pub(crate) fn no_rows(alloc: Global) -> Result<Bag, Refusal>
    ensures none { IfOk result (λ bag. Alike bag []) }
    ensures bag { IfOk result IsBag }
    ensures refused { OnlyMemory result }
{
    Entries::new(alloc).into_bag()
}

/// The bag of one row, with count 1.
pub(crate) fn one_row(alloc: Global, row: Row) -> Result<Bag, Refusal>
    ensures one { IfOk result (λ bag. Alike bag (single row ∷ [])) }
    ensures bag { IfOk result IsBag }
    ensures refused { OnlyMemory result }
{
    let mut entries = Entries::new(alloc);
    entries.push(row, 1)?;
    entries.into_bag()
}

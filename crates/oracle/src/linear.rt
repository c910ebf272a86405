//! The operators that work row by row (map, filter and negate), and those that only pass rows on.
ghost use Rattle.std.specs.Prelude.{◌≡◌, ◌≤◌, ◌++◌, map, length, IfErr, OnOk, IsTrue, FitsSigned, neg_ℤ};
ghost use Rattle.std.specs.Int.{w64};
ghost use Rattle.std.specs.List.{filter, list_all, Any};
ghost use Rattle.row.specs.Projection.{are_within};
ghost use Rattle.row.specs.Filters.{passes, is_test_within};
ghost use Rattle.plan.specs.Operators.{mapped_entry, negated_entry};
ghost use Rattle.update.specs.Refusals.{OnlyMemory, IsMemoryOrOverflow};

use crate::entries::{count_at, put_entry, row_at};
use row::{Item, Test, holds, project};
use update::{Bag, Entries, Refusal, Weight};

/// Appends all entries of the bag.
pub(crate) fn put_all(entries: &mut Entries, bag: &Bag) -> Result<(), Refusal>
    ensures all { OnOk result (entries.new ≡ entries.old ++ bag.now) }
    ensures refused { OnlyMemory result }
{
    for i in 0..bag.len() {
        put_entry(entries, bag, i)?;
    }
    Ok(())
}

/// Appends the projection of each row of the bag to `items`.
pub(crate) fn put_images(entries: &mut Entries, bag: &Bag, items: &[Item]) -> Result<(), Refusal>
    requires some { 1 ≤ length items.now }
    requires few { length items.now ≤ 8 }
    requires within { IsTrue (list_all (λ e. are_within items.now (length e.row)) bag.now) }
    ensures images { OnOk result
        (entries.new ≡ entries.old ++ map (mapped_entry items.now) bag.now) }
    ensures refused { OnlyMemory result }
{
    for i in 0..bag.len() {
        let image = project(row_at(bag, i), items);
        entries.push(image, count_at(bag, i))?;
    }
    Ok(())
}

/// Appends the entries whose rows pass the test.
pub(crate) fn put_passing(entries: &mut Entries, bag: &Bag, test: &Test) -> Result<(), Refusal>
    requires within { IsTrue (list_all (λ e. is_test_within test.now (length e.row)) bag.now) }
    ensures passing { OnOk result
        (entries.new ≡ entries.old ++ filter (λ e. passes test.now e.row) bag.now) }
    ensures refused { OnlyMemory result }
{
    for i in 0..bag.len() {
        if holds(row_at(bag, i), test) {
            put_entry(entries, bag, i)?;
        }
    }
    Ok(())
}

/// Appends each row with the negated count. [`Refusal::Overflow`] only if some count is the least
/// 64-bit number, whose opposite does not fit in 64 bits.
pub(crate) fn put_opposites(entries: &mut Entries, bag: &Bag) -> Result<(), Refusal>
    ensures opposites { OnOk result (entries.new ≡ entries.old ++ map negated_entry bag.now) }
    ensures refused { IfErr result
        (IsMemoryOrOverflow (Any (λ e. FitsSigned w64 (neg_ℤ e.count) → ⊥) bag.now)) }
{
    for i in 0..bag.len() {
        let Some(count) = count_at(bag, i).negate() else {
            return Err(Refusal::Overflow);
        };
        entries.push(row_at(bag, i).copy(), count)?;
    }
    Ok(())
}

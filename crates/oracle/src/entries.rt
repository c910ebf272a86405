//! The entries of a bag, addressed by index, as operators read and write them.
ghost use Rattle.std.specs.Prelude.{◌≡◌, ◌<◌, ◌++◌, ◌∷◌, [], length, slice_index_or, OnOk};
ghost use Rattle.update.specs.Refusals.{OnlyMemory};
ghost use Rattle.update.specs.Bags.{Entry};

use row::Row;
use update::{Bag, Entries, Refusal};

/// Appends entry `i` of the bag.
pub(crate) fn put_entry(entries: &mut Entries, bag: &Bag, i: usize) -> Result<(), Refusal>
    requires { i < length bag.now }
    ensures put { (d : Entry)
        → OnOk result (entries.new ≡ entries.old ++ slice_index_or bag.now i d ∷ []) }
    ensures refused { OnlyMemory result }
{
    entries.push(bag.row(i).copy(), bag.count(i))
}

/// The row of entry `i`.
pub(crate) fn row_at(bag: &Bag, i: usize) -> &Row
    requires { i < length bag.now }
    ensures { (d : Entry) → result.now ≡ (slice_index_or bag.now i d).row }
{
    bag.row(i)
}

/// The count of entry `i`.
pub(crate) fn count_at(bag: &Bag, i: usize) -> i64
    requires { i < length bag.now }
    ensures { (d : Entry) → result ≡ (slice_index_or bag.now i d).count }
{
    bag.count(i)
}

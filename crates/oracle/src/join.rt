//! The join of two bags. For each key of the left bag, two binary searches find the rows with that
//! key in the right bag. So rows with different keys are never paired. Rows of one key are
//! neighbours, so no key is searched twice.
ghost use Rattle.std.specs.Prelude.{◌≡◌, ◌≤◌, ◌<◌, ◌+◌, ◌-◌, ◌++◌, map, take, length, nat_le, slice_index_or, IfErr, OnOk, IsTrue};
ghost use Rattle.std.specs.List.{filter, list_all};
ghost use Rattle.plan.specs.Operators.{joined_entry, join_output};
ghost use Rattle.plan.specs.Reductions.{has_key};
ghost use Rattle.update.specs.Bags.{Entry, entry_of};
ghost use Rattle.update.specs.Refusals.{IsMemoryOrOverflow};
ghost use Rattle.oracle.specs.Keys.{have_keys, IsKeyRange};
ghost use Rattle.oracle.specs.Products.{HasLargeProduct, HasLargePair};

use crate::entries::{count_at, row_at};
use crate::keys::{have_one_key, key_range};
use row::Row;
use update::{Bag, Entries, Refusal, Weight};

// The range, in the right bag, of the key of the left bag's entry `i`. `before` is that of the
// entry before it, and if both have one key, it is taken as it is.
fn range_of(left: &Bag, i: usize, right: &Bag, k: usize, before: (usize, usize)) -> (usize, usize)
    requires inside { i < length left.now }
    requires left { IsTrue (have_keys k left.now) }
    requires right { IsTrue (have_keys k right.now) }
    requires before { (d : Entry) → 1 ≤ i
        → IsKeyRange k (take k (slice_index_or left.now (i - 1) d).row) right.now
        before.0 before.1 }
    ensures { (d : Entry)
        → IsKeyRange k (take k (slice_index_or left.now i d).row) right.now result.0 result.1 }
{
    if i > 0 && have_one_key(left, i, i - 1, k) {
        return before;
    }
    key_range(right, row_at(left, i), k)
}

// Appends the pairs of one row with the right bag's rows of the same key, which are those of the
// range.
fn put_pairs(
    entries: &mut Entries,
    row: &Row,
    count: i64,
    right: &Bag,
    k: usize,
    range: (usize, usize),
) -> Result<(), Refusal>
    requires key { k ≤ length row.now }
    requires keys { IsTrue (have_keys k right.now) }
    requires range { IsKeyRange k (take k row.now) right.now range.0 range.1 }
    requires room { IsTrue
        (list_all (λ y. nat_le (length row.now + (length y.row - k)) 8) right.now) }
    ensures pairs { OnOk result (entries.new ≡ entries.old
        ++ map (joined_entry k (entry_of row.now count))
        (filter (has_key k (take k row.now)) right.now)) }
    ensures refused { IfErr result
        (IsMemoryOrOverflow (HasLargeProduct k (entry_of row.now count) right.now)) }
{
    let (from, to) = range;
    for j in from..to {
        let Some(product) = count.times(count_at(right, j)) else {
            return Err(Refusal::Overflow);
        };
        entries.push(row.followed_by(row_at(right, j).rest(k)), product)?;
    }
    Ok(())
}

/// Appends the pairs of rows whose keys, of `k` columns, are equal. [`Refusal::Overflow`] only if
/// the product of such a pair's counts does not fit in 64 bits.
///
/// Cost: two binary searches in the right bag for each key of the left one, and one step for each
/// row and each pair.
pub(crate) fn put_joined(
    entries: &mut Entries,
    left: &Bag,
    right: &Bag,
    k: usize,
) -> Result<(), Refusal>
    requires left { IsTrue (have_keys k left.now) }
    requires right { IsTrue (have_keys k right.now) }
    requires room { IsTrue
        (list_all (λ x. list_all
        (λ y. nat_le (length x.row + (length y.row - k)) 8) right.now) left.now) }
    ensures joined { OnOk result (entries.new ≡ entries.old ++ join_output k left.now right.now) }
    ensures refused { IfErr result (IsMemoryOrOverflow (HasLargePair k left.now right.now)) }
{
    let mut range = (0, 0);
    for i in 0..left.len() {
        range = range_of(left, i, right, k, range);
        put_pairs(entries, row_at(left, i), count_at(left, i), right, k, range)?;
    }
    Ok(())
}

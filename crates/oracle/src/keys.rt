//! The range of a bag's entries that share a key. A bag is sorted by row, and so by key. The rows
//! of a key are therefore neighbours, and two binary searches find the first of them and the first
//! entry after them.
ghost use Rattle.std.specs.Prelude.{◌≡◌, ◌≤◌, ◌<◌, true, false, take, length, slice_index_or, IsTrue};
ghost use Rattle.std.specs.List.{AllWithin};
ghost use Rattle.update.specs.Bags.{Entry};
ghost use Rattle.plan.specs.Reductions.{has_key};
ghost use Rattle.oracle.specs.Keys.{is_before_key, have_keys, IsKeyRange, IsKeyStart};

use crate::entries::row_at;
use row::Row;
use std::cmp::Ordering;
use update::Bag;

/// The first `k` columns of entry `i`'s row.
pub(crate) fn key_at(bag: &Bag, i: usize, k: usize) -> &[i64]
    requires inside { i < length bag.now }
    requires keys { IsTrue (have_keys k bag.now) }
    ensures key { (d : Entry) → result.now ≡ take k (slice_index_or bag.now i d).row }
    ensures width { length result.now ≡ k }
    ensures few { k ≤ 8 }
{
    let row = row_at(bag, i);
    row.known();
    row.key(k)
}

/// Whether the two entries have the same key.
pub(crate) fn have_one_key(bag: &Bag, i: usize, j: usize, k: usize) -> bool
    requires one { i < length bag.now }
    requires other { j < length bag.now }
    requires keys { IsTrue (have_keys k bag.now) }
    ensures { (d : Entry)
        → result ≡ has_key k (take k (slice_index_or bag.now i d).row)
        (slice_index_or bag.now j d) }
{
    key_at(bag, j, k) == key_at(bag, i, k)
}

// Whether the entry's key is less than `key` (or equal to it, if `equal`).
fn is_before_key(bag: &Bag, i: usize, key: &[i64], equal: bool) -> bool
    requires inside { i < length bag.now }
    requires keys { IsTrue (have_keys (length key.now) bag.now) }
    ensures { (d : Entry) → result ≡ is_before_key equal key.now (slice_index_or bag.now i d) }
{
    match key_at(bag, i, key.len()).cmp(key) {
        Ordering::Less => true,
        Ordering::Equal => equal,
        Ordering::Greater => false,
    }
}

// How many entries have a key that is less than `key` (or equal to it, if `equal`). They are the
// first ones.
//
// Cost: the number of comparisons of keys is logarithmic in the number of entries.
fn before_key(bag: &Bag, key: &[i64], equal: bool) -> usize
    requires { IsTrue (have_keys (length key.now) bag.now) }
    ensures inside { result ≤ length bag.now }
    ensures before { AllWithin (λ e. is_before_key equal key.now e ≡ true) bag.now 0 result }
    ensures behind { AllWithin (λ e. is_before_key equal key.now e ≡ false) bag.now result
        (length bag.now) }
{
    let mut low = 0;
    let mut high = bag.len();
    while low < high {
        let middle = low + (high - low) / 2;
        if is_before_key(bag, middle, key, equal) {
            low = middle + 1;
        } else {
            high = middle;
        }
    }
    low
}

/// The range of the entries whose first `k` columns are those of `row`: from the first index up to,
/// but not including, the second.
pub(crate) fn key_range(bag: &Bag, row: &Row, k: usize) -> (usize, usize)
    requires key { k ≤ length row.now }
    requires keys { IsTrue (have_keys k bag.now) }
    ensures { IsKeyRange k (take k row.now) bag.now result.0 result.1 }
{
    let key = row.key(k);
    let from = before_key(bag, key, false);
    let to = before_key(bag, key, true);
    (from, to)
}

/// The end of the range of the entries that have the key of entry `i`, if no entry before `i` has
/// it.
pub(crate) fn key_end(bag: &Bag, i: usize, k: usize) -> usize
    requires inside { i < length bag.now }
    requires keys { IsTrue (have_keys k bag.now) }
    requires start { IsKeyStart k bag.now i }
    ensures range { (d : Entry)
        → IsKeyRange k (take k (slice_index_or bag.now i d).row) bag.now i result }
    ensures more { i < result }
    ensures start { IsKeyStart k bag.now result }
{
    bag.known();
    before_key(bag, key_at(bag, i, k), true)
}

//! Searching the rows of a table for a key. The rows are those of the runs of sorted updates, so
//! each is compared once, no matter how many updates have it.
//!
//! A reader that goes through sorted keys does not search all rows for each. It gallops on from
//! where it stands, in steps of 1, 2, 4 and so on, until a step would lead too far. Then it
//! searches that last step. So it pays for the logarithm of each distance: if the next key is near,
//! a few comparisons.
ghost use Rattle.std.specs.Prelude.{◌≡◌, ◌≤◌, ◌<◌, [], true, false, length, slice_index_or};
ghost use Rattle.std.specs.List.{AllWithin};
ghost use Rattle.std.specs.List.Sorted.{IsPartitionedBy};
ghost use Rattle.columns.specs.Keys.{is_row_left_behind};

use crate::table::Table;
use std::ops::Range;

// Whether a reader leaves the row behind on its way to the key, or on its way through the key.
fn is_left_behind(rows: &Table, number: usize, key: &[i64], through: bool) -> bool
    requires { number < length rows.now }
    ensures { result ≡ is_row_left_behind key.now through (slice_index_or rows.now number []) }
{
    let order = rows.compare_key(number, key);
    if through {
        order.is_le()
    } else {
        order.is_lt()
    }
}

// The last step of a gallop: the first row that is not left behind is in this range, or at its end.
fn last_step(rows: &Table, from: usize, key: &[i64], through: bool) -> Range<usize>
    requires parted { IsPartitionedBy (is_row_left_behind key.now through) rows.now }
    requires within { from ≤ length rows.now }
    ensures onward { from ≤ result.start }
    ensures ordered { result.start ≤ result.end }
    ensures within { result.end ≤ length rows.now }
    ensures before { AllWithin (λ r. is_row_left_behind key.now through r ≡ true)
        rows.now from result.start }
    ensures rest { AllWithin (λ r. is_row_left_behind key.now through r ≡ false)
        rows.now result.end (length rows.now) }
{
    let mut at = from;
    let mut step = 1;
    while step <= rows.len() - at && is_left_behind(rows, at + step - 1, key, through) {
        at += step;
        step = step.saturating_mul(2);
    }
    at..at + (step - 1).min(rows.len() - at)
}

// The first row of a part that is not left behind, by a binary search; the end if there is none.
pub(crate) fn first_kept(rows: &Table, part: Range<usize>, key: &[i64], through: bool) -> usize
    requires parted { IsPartitionedBy (is_row_left_behind key.now through) rows.now }
    requires ordered { part.start ≤ part.end }
    requires within { part.end ≤ length rows.now }
    ensures onward { part.start ≤ result }
    ensures within { result ≤ part.end }
    ensures before { AllWithin (λ r. is_row_left_behind key.now through r ≡ true)
        rows.now part.start result }
    ensures rest { AllWithin (λ r. is_row_left_behind key.now through r ≡ false)
        rows.now result part.end }
{
    let mut low = part.start;
    let mut high = part.end;
    while low < high {
        let middle = low + (high - low) / 2;
        if is_left_behind(rows, middle, key, through) {
            low = middle + 1;
        } else {
            high = middle;
        }
    }
    low
}

// The first row from a number on that is not left behind, by galloping.
pub(crate) fn gallop(rows: &Table, from: usize, key: &[i64], through: bool) -> usize
    requires parted { IsPartitionedBy (is_row_left_behind key.now through) rows.now }
    requires within { from ≤ length rows.now }
    ensures ordered { from ≤ result }
    ensures within { result ≤ length rows.now }
    ensures before { AllWithin (λ r. is_row_left_behind key.now through r ≡ true)
        rows.now from result }
    ensures rest { AllWithin (λ r. is_row_left_behind key.now through r ≡ false)
        rows.now result (length rows.now) }
{
    first_kept(rows, last_step(rows, from, key, through), key, through)
}

//! Min and max: the least and the greatest row whose count is above 0, once. The rows that a
//! reducer reads are in order, so the least is the first such row and the greatest is the last. The
//! search for either ends at the row that it finds.
ghost use Rattle.std.specs.Prelude.{◌≡◌, ◌<◌, ◌+◌, true, false, None, length, slice_index_or, IfSome};
ghost use Rattle.std.specs.List.{AllWithin};
ghost use Rattle.update.specs.Bags.{Entry};
ghost use Rattle.reducer.specs.Kinds.{is_positive};

use crate::answers::{is_positive_at, no_rows, one_row, row_at};
use crate::{Reducer, RowCounts};
use std::alloc::Global;
use update::{Bag, Refusal};

/// Answers the least row whose count is above 0, once. Refused only if memory was refused.
///
/// Cost: reads the counts from the first row up to the answer.
#[derive(Clone, Copy)]
pub struct Min;

/// Answers the greatest row whose count is above 0, once. Refused only if memory was refused.
///
/// Cost: reads the counts from the last row back to the answer.
#[derive(Clone, Copy)]
pub struct Max;

// The index of the first entry with a count above 0.
fn first_positive<C: RowCounts>(rows: &C) -> Option<usize>
    ensures inside { IfSome result (λ i. i < length (C.entries rows.now)) }
    ensures positive { IfSome result (λ i. (d : Entry)
        → is_positive (slice_index_or (C.entries rows.now) i d) ≡ true) }
    ensures first { IfSome result
        (λ i. AllWithin (λ e. is_positive e ≡ false) (C.entries rows.now) 0 i) }
    ensures none { result ≡ None
        → AllWithin (λ e. is_positive e ≡ false) (C.entries rows.now) 0
        (length (C.entries rows.now)) }
{
    for i in 0..rows.len() {
        if is_positive_at(rows, i) {
            return Some(i);
        }
    }
    None
}

// The index of the last entry with a count above 0.
fn last_positive<C: RowCounts>(rows: &C) -> Option<usize>
    ensures inside { IfSome result (λ i. i < length (C.entries rows.now)) }
    ensures positive { IfSome result (λ i. (d : Entry)
        → is_positive (slice_index_or (C.entries rows.now) i d) ≡ true) }
    ensures last { IfSome result (λ i. AllWithin (λ e. is_positive e ≡ false)
        (C.entries rows.now) (i + 1) (length (C.entries rows.now))) }
    ensures none { result ≡ None
        → AllWithin (λ e. is_positive e ≡ false) (C.entries rows.now) 0
        (length (C.entries rows.now)) }
{
    for i in (0..rows.len()).rev() {
        if is_positive_at(rows, i) {
            return Some(i);
        }
    }
    None
}

impl Reducer for Min {
    ghost use Rattle.std.specs.Prelude.{true, IfOk, IsTrue, length};
    ghost use Rattle.std.specs.List.{list_all};
    ghost use Rattle.update.specs.Bags.{Alike, IsBag};
    ghost use Rattle.update.specs.Refusals.{OnlyMemory};
    ghost use Rattle.plan.specs.Reductions.{has_key};
    ghost use Rattle.reducer.specs.Kinds.{min_answer, min_reduces, none_is_blind};

    ghost reduces = { λ _. min_answer };

    ghost sees_rows = { λ _. true };

    fn reduce<C: RowCounts>(&self, alloc: Global, key: &[i64], rows: &C) -> Result<Bag, Refusal>
        requires keyed { IsTrue
            (list_all (has_key (length key.now) key.now) (C.entries rows.now)) }
        ensures value { IfOk result
            (λ bag. Alike bag (min_answer key.now (C.entries rows.now))) }
        ensures bag { IfOk result IsBag }
        ensures keyed { IfOk result
            (λ bag. IsTrue (list_all (has_key (length key.now) key.now) bag)) }
        ensures refused { OnlyMemory result }
    {
        rows.known();
        match first_positive(rows) {
            Some(i) => one_row(alloc, row_at(rows, i)),
            None => no_rows(alloc),
        }
    }

    fn sees_rows(&self) -> bool {
        true
    }

    ghost laws = { λ _. min_reduces };

    ghost blind = { λ _. none_is_blind min_answer };
}

impl Reducer for Max {
    ghost use Rattle.std.specs.Prelude.{true, IfOk, IsTrue, length};
    ghost use Rattle.std.specs.List.{list_all};
    ghost use Rattle.update.specs.Bags.{Alike, IsBag};
    ghost use Rattle.update.specs.Refusals.{OnlyMemory};
    ghost use Rattle.plan.specs.Reductions.{has_key};
    ghost use Rattle.reducer.specs.Kinds.{max_answer, max_reduces, none_is_blind};

    ghost reduces = { λ _. max_answer };

    ghost sees_rows = { λ _. true };

    fn reduce<C: RowCounts>(&self, alloc: Global, key: &[i64], rows: &C) -> Result<Bag, Refusal>
        requires keyed { IsTrue
            (list_all (has_key (length key.now) key.now) (C.entries rows.now)) }
        ensures value { IfOk result
            (λ bag. Alike bag (max_answer key.now (C.entries rows.now))) }
        ensures bag { IfOk result IsBag }
        ensures keyed { IfOk result
            (λ bag. IsTrue (list_all (has_key (length key.now) key.now) bag)) }
        ensures refused { OnlyMemory result }
    {
        rows.known();
        match last_positive(rows) {
            Some(i) => one_row(alloc, row_at(rows, i)),
            None => no_rows(alloc),
        }
    }

    fn sees_rows(&self) -> bool {
        true
    }

    ghost laws = { λ _. max_reduces };

    ghost blind = { λ _. none_is_blind max_answer };
}

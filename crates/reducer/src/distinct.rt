//! Distinct: each row whose count is above 0, once. A reducer reads each row only once, so one pass
//! over the entries finds these rows, and no count in the answer can be too large.
ghost use Rattle.std.specs.Prelude.{◌≡◌, ◌++◌, OnOk};
ghost use Rattle.update.specs.Refusals.{OnlyMemory};
ghost use Rattle.reducer.specs.Kinds.{positive_rows};

use crate::answers::{is_positive_at, row_at};
use crate::{Reducer, RowCounts};
use std::alloc::Global;
use update::{Bag, Entries, Refusal};

/// Answers each row whose count is above 0, once. Refused only if memory was refused.
///
/// Cost: one pass over the rows, and a sort of the answer, whose rows are already in order.
#[derive(Clone, Copy)]
pub struct Distinct;

// Appends each row whose count is above 0, once.
fn put_positive<C: RowCounts>(entries: &mut Entries, rows: &C) -> Result<(), Refusal>
    ensures positive { OnOk result
        (entries.new ≡ entries.old ++ positive_rows (C.entries rows.now)) }
    ensures refused { OnlyMemory result }
{
    for i in 0..rows.len() {
        if is_positive_at(rows, i) {
            entries.push(row_at(rows, i), 1)?;
        }
    }
    Ok(())
}

impl Reducer for Distinct {
    ghost use Rattle.std.specs.Prelude.{true, IfOk, IsTrue, length};
    ghost use Rattle.std.specs.List.{list_all};
    ghost use Rattle.update.specs.Bags.{Alike, IsBag};
    ghost use Rattle.update.specs.Refusals.{OnlyMemory};
    ghost use Rattle.plan.specs.Reductions.{has_key};
    ghost use Rattle.reducer.specs.Kinds.{distinct_answer, distinct_reduces, none_is_blind};

    ghost reduces = { λ _. distinct_answer };

    ghost sees_rows = { λ _. true };

    fn reduce<C: RowCounts>(&self, alloc: Global, key: &[i64], rows: &C) -> Result<Bag, Refusal>
        requires keyed { IsTrue
            (list_all (has_key (length key.now) key.now) (C.entries rows.now)) }
        ensures value { IfOk result
            (λ bag. Alike bag (distinct_answer key.now (C.entries rows.now))) }
        ensures bag { IfOk result IsBag }
        ensures keyed { IfOk result
            (λ bag. IsTrue (list_all (has_key (length key.now) key.now) bag)) }
        ensures refused { OnlyMemory result }
    {
        let mut entries = Entries::new(alloc);
        put_positive(&mut entries, rows)?;
        rows.known();
        entries.into_bag()
    }

    fn sees_rows(&self) -> bool {
        true
    }

    ghost laws = { λ _. distinct_reduces };

    ghost blind = { λ _. none_is_blind distinct_answer };
}

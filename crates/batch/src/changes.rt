//! The updates of one row without the row: a time and a difference each. A merge holds those of the
//! row in hand so. They take a quarter of the place of updates, and the row is kept once beside
//! them.
//!
//! Where no time moved they come sealed, and go into the columns as they are. Otherwise they become
//! plain updates, which are sorted and added up.
ghost use Rattle.std.specs.Prelude.{◌≡◌, ◌≢◌, ◌<◌, ◌-◌, ◌++◌, List, ℤ, pos, length, slice_index_or, FitsSigned, IfOk, OnOk, IsTrue};
ghost use Rattle.std.specs.Int.{w64};
ghost use Rattle.std.specs.declared.cmp.Ordering.TheVariants.{Less};
ghost use Rattle.update.specs.Refusals.{OnlyMemory};
ghost use Rattle.update.specs.Updates.{HasLargeTotal};
ghost use Rattle.update.specs.declared.refusal.Refusal.{Refusal};
ghost use Rattle.batch.specs.declared.changes.Change.{Change};
ghost use Rattle.batch.specs.Batches.{IsSealed};
ghost use Rattle.batch.specs.Changes.{with_row};

use columns::Columns;
use lattice::Lattice;
use row::Row;
use std::alloc::Global;
use update::{Refusal, Update};

// An update of a row that is kept elsewhere.
#[derive(Clone, Copy, Drop)]
pub(crate) struct Change<T> {
    pub(crate) time: T,
    pub(crate) diff: i64,
}

// Whether the change at a place has a difference and comes after the one before it.
fn is_settled<T: Lattice>(changes: &[Change<T>], i: usize) -> bool
    requires { i < length changes.now }
    ensures fits { (d : Change T) → FitsSigned w64 (slice_index_or changes.now i d).diff }
    ensures nonzero { IsTrue result
        → (d : Change T) → (slice_index_or changes.now i d).diff ≢ pos 0 }
    ensures behind { IsTrue result → 0 < i → (d : Change T)
        → T.cmp (slice_index_or changes.now (i - 1) d).time (slice_index_or changes.now i d).time
        ≡ Less }
{
    if changes[i].diff == 0 {
        return false;
    }
    i == 0 || changes[i - 1].time.cmp(&changes[i].time).is_lt()
}

// Whether the updates of a row are sealed as they stand. In 64 bits each difference fits, so then
// no total is too large.
pub(crate) fn are_settled<T: Lattice>(changes: &[Change<T>]) -> bool
    ensures sealed { IsTrue result
        → (row : List ℤ) → IsSealed T.cmp (with_row row changes.now) }
    ensures fits { IsTrue result
        → (row : List ℤ) → HasLargeTotal T.times (with_row row changes.now) → ⊥ }
{
    for i in 0..changes.len() {
        if !is_settled(changes, i) {
            return false;
        }
    }
    true
}

// The changes of a row as plain updates, in the same order. Refused only if memory is refused.
pub(crate) fn spread<T: Lattice>(
    alloc: Global,
    row: &Row,
    changes: &[Change<T>],
) -> Result<Vec<Update<T>>, Refusal>
    ensures made { IfOk result (λ made. made.items ≡ with_row row.now changes.now) }
    ensures only { OnlyMemory result }
{
    let mut updates = Vec::with_capacity(alloc, changes.len())?;
    for change in changes {
        updates.push(Update {
            time: change.time,
            row: row.copy(),
            diff: change.diff,
        })?;
    }
    Ok(updates)
}

// Pushes the changes of a row behind the updates of other rows, in the same order. Refused only if
// memory is refused. The row is compared and stored once.
pub(crate) fn push_run<T: Lattice>(
    columns: &mut Columns<T>,
    row: &Row,
    changes: &[Change<T>],
) -> Result<(), Refusal>
    ensures more { OnOk result (columns.new ≡ columns.old ++ with_row row.now changes.now) }
    ensures only { OnlyMemory result }
{
    let [first, rest @ ..] = changes else {
        return Ok(());
    };
    columns.push_row(row, first.time, first.diff)?;
    for change in rest {
        columns.push_again(change.time, change.diff)?;
    }
    Ok(())
}

//! Copies of the updates of a batch as plain updates, for a reader that wants a list of its own.
ghost use Rattle.std.specs.Prelude.{◌≡◌, ◌≤◌, ◌++◌, OnOk, length, slice_range};
ghost use Rattle.std.specs.List.{AllWithin};
ghost use Rattle.update.specs.Refusals.{OnlyMemory};
ghost use Rattle.columns.specs.Runs.{row_starts, run_place};
ghost use Rattle.update.specs.declared.refusal.Refusal.{Refusal};

use crate::BatchReader;
use row::Row;
use std::ops::Range;
use update::{Refusal, Update};

// Appends copies of the updates of a part of a batch, which all have one row.
fn copy_run<B: BatchReader>(
    list: &mut Vec<Update<B::Time>>,
    batch: &B,
    row: &Row,
    part: Range<usize>,
) -> Result<(), Refusal>
    requires ordered { part.start ≤ part.end }
    requires within { part.end ≤ length (B.content batch.now) }
    requires alike { AllWithin (λ u. u.row ≡ row.now) (B.content batch.now) part.start part.end }
    ensures copied { OnOk result (list.new.items
        ≡ list.old.items ++ slice_range (B.content batch.now) part.start part.end) }
    ensures only { OnlyMemory result }
{
    for i in part.start..part.end {
        list.push(Update {
            time: batch.time(i),
            row: row.copy(),
            diff: batch.diff(i),
        })?;
    }
    Ok(())
}

/// Appends copies of the updates of these runs. [`Refusal::OutOfMemory`] only if memory was
/// refused.
///
/// Cost: one step for each update. A row is read once for all updates of its run, and copied for
/// each.
pub fn copy_runs<B: BatchReader>(
    list: &mut Vec<Update<B::Time>>,
    batch: &B,
    runs: Range<usize>,
) -> Result<(), Refusal>
    requires ordered { runs.start ≤ runs.end }
    requires within { runs.end ≤ length (row_starts (B.content batch.now)) }
    ensures copied { OnOk result (list.new.items ≡ list.old.items
        ++ slice_range (B.content batch.now)
        (run_place (B.content batch.now) runs.start) (run_place (B.content batch.now) runs.end)) }
    ensures only { OnlyMemory result }
{
    list.reserve(batch.run_start(runs.end) - batch.run_start(runs.start))?;
    for run in runs.start..runs.end {
        let part = batch.run_start(run)..batch.run_start(run + 1);
        copy_run(list, batch, &batch.run_row(run), part)?;
    }
    Ok(())
}

//! The rows of one key in the batches of a trace, read once for all of the key's times. A reducer
//! that does not see rows is given the key in the place of each of them. So all updates of a key
//! have one row and fall together when they are summed, however many different rows the key has.
ghost use Rattle.std.specs.Prelude.{◌≡◌, ◌≤◌, ◌++◌, IfOk, OnOk, false, length, map, slice_range};
ghost use Rattle.std.specs.List.{filter};
ghost use Rattle.update.specs.Refusals.{OnlyMemory};
ghost use Rattle.update.specs.declared.refusal.Refusal.{Refusal};
ghost use Rattle.columns.specs.Runs.{row_starts, run_place};
ghost use Rattle.trace.specs.Readings.{all_content};
ghost use Rattle.joined_times.specs.Joined.{of_key};
ghost use Rattle.reduce.specs.Seen.{as_seen};

use batch::{BatchReader, copy_runs};
use reducer::Reducer;
use row::Row;
use std::alloc::Global;
use std::ops::Range;
use update::{Refusal, Update};

// Appends copies of the updates of a batch in this range, with the key in the place of each row.
fn read_blind<B: BatchReader>(
    rows: &mut Vec<Update<B::Time>>,
    batch: &B,
    range: Range<usize>,
    key: &Row,
) -> Result<(), Refusal>
    requires ordered { range.start ≤ range.end }
    requires within { range.end ≤ length (B.content batch.now) }
    ensures read { OnOk result (rows.new.items ≡ rows.old.items ++ map (as_seen false key.now)
        (slice_range (B.content batch.now) range.start range.end)) }
    ensures only { OnlyMemory result }
{
    rows.reserve(range.end - range.start)?;
    for i in range.start..range.end {
        rows.push(Update {
            time: batch.time(i),
            row: key.copy(),
            diff: batch.diff(i),
        })?;
    }
    Ok(())
}

// Appends copies of the updates of these runs of a batch, as they are seen.
fn read_runs<B: BatchReader>(
    rows: &mut Vec<Update<B::Time>>,
    batch: &B,
    runs: Range<usize>,
    key: &Row,
    sees_rows: bool,
) -> Result<(), Refusal>
    requires ordered { runs.start ≤ runs.end }
    requires within { runs.end ≤ length (row_starts (B.content batch.now)) }
    ensures read { OnOk result (rows.new.items ≡ rows.old.items ++ map (as_seen sees_rows key.now)
        (slice_range (B.content batch.now)
        (run_place (B.content batch.now) runs.start)
        (run_place (B.content batch.now) runs.end))) }
    ensures only { OnlyMemory result }
{
    if sees_rows {
        return copy_runs(rows, batch, runs);
    }
    let range = batch.run_start(runs.start)..batch.run_start(runs.end);
    read_blind(rows, batch, range, key)
}

/// Copies of the updates of a key's rows in all batches, with the key in the place of each row if
/// the reducer sees no rows.
///
/// Cost: two binary searches in each batch, and one step for each update that is read. Rows are
/// read only if the reducer sees them, each once for all its updates.
pub(crate) fn rows_of<R: Reducer, B: BatchReader>(
    alloc: Global,
    reducer: &R,
    batches: &[B],
    key: &Row,
) -> Result<Vec<Update<B::Time>>, Refusal>
    ensures rows { IfOk result (λ rows. rows.items ≡ map (as_seen (R.sees_rows reducer.now) key.now)
        (filter (of_key (length key.now) key.now) (all_content B.content batches.now))) }
    ensures only { OnlyMemory result }
{
    let sees_rows = reducer.sees_rows();
    let mut rows = Vec::new(alloc);
    for batch in batches {
        let runs = batch.key_runs(key.columns());
        read_runs(&mut rows, batch, runs, key, sees_rows)?;
    }
    Ok(rows)
}

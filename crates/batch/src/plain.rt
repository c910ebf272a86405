//! Plain updates and columns. A list that is to be sorted, and an update that is read or moved, are
//! plain. What is finished is kept in columns. They live as long as the batch, so the runs are
//! counted before the columns are made, and no list grows beyond what is used.
ghost use Rattle.std.specs.Prelude.{◌≡◌, ◌<◌, ◌^◌, ◌+◌, ◌++◌, false, take, length, IfOk, OnOk, IsTrue};
ghost use Rattle.update.specs.Refusals.{OnlyMemory};
ghost use Rattle.columns.specs.Runs.{row_starts};
ghost use Rattle.update.specs.declared.refusal.Refusal.{Refusal};

use columns::Columns;
use lattice::Lattice;
use std::alloc::Global;
use update::{Refusal, Update};

// Tells the prover that a place has a successor. Costs nothing.
pub(crate) fn known_length<T: Lattice>(columns: &Columns<T>)
    ensures { length columns.now < 2 ^ 64 }
{
    let _length = columns.len();
}

// Pushes updates behind the others, in order. Refused only if memory is refused.
pub(crate) fn push_all<T: Lattice>(
    columns: &mut Columns<T>,
    updates: &[Update<T>],
) -> Result<(), Refusal>
    ensures more { OnOk result (columns.new ≡ columns.old ++ updates.now) }
    ensures only { OnlyMemory result }
{
    for update in updates {
        columns.push(update)?;
    }
    Ok(())
}

// Whether an update begins a run: its row is another than that of the update before.
fn begins_run<T: Lattice>(updates: &[Update<T>], i: usize) -> bool
    requires { i < length updates.now }
    ensures begins { IsTrue result → length (row_starts (take (i + 1) updates.now))
        ≡ length (row_starts (take i updates.now)) + 1 }
    ensures goes_on { result ≡ false → length (row_starts (take (i + 1) updates.now))
        ≡ length (row_starts (take i updates.now)) }
{
    updates[i].row.known();
    i == 0 || updates[i - 1].row != updates[i].row
}

// The number of runs of these updates. Takes no memory.
fn count_runs<T: Lattice>(updates: &[Update<T>]) -> usize
    ensures { result ≡ length (row_starts updates.now) }
{
    let mut runs = 0;
    for i in 0..updates.len() {
        if begins_run(updates, i) {
            runs += 1;
        }
    }
    runs
}

// Columns of these updates, with no more memory than they need. Refused only if memory is refused.
pub(crate) fn in_columns<T: Lattice>(
    alloc: Global,
    updates: &[Update<T>],
) -> Result<Columns<T>, Refusal>
    ensures made { IfOk result (λ made. made ≡ updates.now) }
    ensures only { OnlyMemory result }
{
    let mut columns = Columns::with_capacity(alloc, updates.len(), count_runs(updates))?;
    push_all(&mut columns, updates)?;
    Ok(columns)
}

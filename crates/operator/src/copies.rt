//! A copy of a batch, as it goes to those who read its node. A long one goes column by column, as
//! it stands in the batch: so it takes half the memory or less until the last of them has read it.
//! A short one is a plain list, which is one block.
ghost use Rattle.std.specs.Prelude.{◌≡◌, IfOk};
ghost use Rattle.update.specs.Refusals.{OnlyMemory};
ghost use Rattle.update.specs.declared.refusal.Refusal.TheVariants.{OutOfMemory};

use batch::{Batch, BatchReader, copy_runs};
use columns::UpdateList;
use lattice::Lattice;
use std::alloc::Global;
use update::Refusal;

// A copy of so many updates goes column by column.
const MANY: usize = 64;

// A copy of the updates of a batch, one by one.
fn plain_copy<T: Lattice>(alloc: Global, batch: &Batch<T>) -> Result<UpdateList<T>, Refusal>
    ensures same { IfOk result (λ list. list ≡ batch.now.updates) }
    ensures refused { OnlyMemory result }
{
    let runs = batch.runs();
    let mut list = Vec::with_capacity(alloc, batch.len())?;
    copy_runs(&mut list, batch, 0..runs)?;
    Ok(list.into())
}

// A copy of the updates of a batch, column by column.
fn packed_copy<T: Lattice>(alloc: Global, batch: &Batch<T>) -> Result<UpdateList<T>, Refusal>
    ensures same { IfOk result (λ list. list ≡ batch.now.updates) }
    ensures refused { OnlyMemory result }
{
    let columns = batch.columns().to_columns(alloc)?;
    match UpdateList::packed(alloc, columns) {
        Ok(list) => Ok(list),
        Err(_columns) => Err(Refusal::OutOfMemory),
    }
}

/// A copy of the updates of a batch. Refused only with `OutOfMemory`.
///
/// Cost: linear in the updates. A long list is copied column by column: no row is made.
pub fn updates_of<T: Lattice>(alloc: Global, batch: &Batch<T>) -> Result<UpdateList<T>, Refusal>
    ensures same { IfOk result (λ list. list ≡ batch.now.updates) }
    ensures refused { OnlyMemory result }
{
    if batch.len() < MANY {
        return plain_copy(alloc, batch);
    }
    packed_copy(alloc, batch)
}

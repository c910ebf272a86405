//! Batches between two frontiers of one time each, and traces of them.
ghost use Rattle.std.specs.Prelude.{◌≡◌, ◌∷◌, ◌++◌, [], List, ℤ, Bool, IfOk, OnOk, OnErr};
ghost use Rattle.lattice.specs.Pairs.{make_pair};
ghost use Rattle.update.specs.Updates.{total_where};

use antichain::Antichain;
use batch::{Batch, Builder};
use lattice::Bitime;
use std::alloc::Global;
use trace::BatchList;
use trials::sketches::at;
use update::{Refusal, Update};

/// The batch of these updates of worker 0 at node 0, between two frontiers of one time each.
/// Refused as [`Builder::seal`] is. Cost: that of [`Builder::seal`], and a copy of each update.
pub fn sealed(
    alloc: Global,
    lower: (u64, u64),
    upper: (u64, u64),
    updates: &[Update<Bitime>],
) -> Result<Batch<Bitime>, Refusal>
    ensures described { IfOk result (λ batch. batch.description ≡ record {
      worker = 0;
      node = 0;
      lower = make_pair lower.0 lower.1 ∷ [];
      upper = make_pair upper.0 upper.1 ∷ [];
      since = make_pair 0 0 ∷ [];
    }) }
    ensures totals { IfOk result (λ batch. (p : List ℤ → _ → Bool)
        → total_where p batch.updates ≡ total_where p updates.now) }
{
    let mut builder = Builder::new(alloc, 0, 0);
    for update in updates {
        builder.push(update.copy())?;
    }
    let lower = Antichain::from_elem(alloc, at(lower));
    builder.seal(&lower, &Antichain::from_elem(alloc, at(upper)))
}

/// Inserts the batch at the end of the list, and drops it if it is refused. Refused as
/// [`BatchList::insert`] is. Constant cost.
pub fn insert(batches: &mut BatchList<Bitime>, batch: Batch<Bitime>) -> Result<(), Refusal>
    ensures inserted { OnOk result (batches.new.batches ≡ batches.old.batches ++ batch ∷ []) }
    ensures same { OnErr result (batches.new.batches ≡ batches.old.batches) }
{
    match batches.insert(batch) {
        Ok(()) => Ok(()),
        Err(unplaced) => Err(unplaced.refusal),
    }
}

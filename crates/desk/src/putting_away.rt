//! A batch that was given goes into the spine of its arrange node, for all joins and reductions
//! that read it. There is room for it since it was sealed, so nothing can be refused between the
//! give and this.
//!
//! Then the spine merges, across the boundaries that no reader asks for. A merge that is refused
//! memory is given up, and begun again later. So a spine keeps up with what comes, although nobody
//! tidies; what is left is that holds move ([`Desk::tidy`]).
ghost use Rattle.std.specs.Prelude.{◌≡◌, Some, set, slice_get};
ghost use Rattle.histories.specs.Histories.Dataflows.{Dataflow};
ghost use Rattle.operator.specs.Arrangements.{ArrangementState};
ghost use Rattle.desk_laws.specs.Own.{IsNextBatch};
ghost use Rattle.desk.specs.Desks.{IsPutAway};
ghost use Rattle.desk.specs.Sealings.{IsInserted, MayInsert};

use crate::desk::Desk;
use batch::{Batch, BatchReader};
use lattice::Minimum;
use operator::Arrangement;
use plan::NodeId;

// Inserts a batch into the spine of an arrangement, and lets the spine merge as much as keeps up
// with it.
fn insert_into<T: Minimum>(arrangement: &mut Arrangement<T>, batch: Batch<T>)
    requires { MayInsert T.times arrangement.old batch }
    ensures { IsInserted T.times arrangement.old arrangement.new batch }
{
    let more = batch.len();
    arrangement.insert(batch);
    arrangement.work(more);
}

// Inserts a batch into the spine of a node's arrangement.
fn insert_at<T: Minimum>(
    arrangements: &mut Vec<Option<Arrangement<T>>>,
    node: NodeId,
    batch: Batch<T>,
)
    requires { (a : ArrangementState T) × (slice_get arrangements.old.items node ≡ Some (Some a))
        × MayInsert T.times a batch }
    ensures { (a : ArrangementState T) → slice_get arrangements.old.items node ≡ Some (Some a)
        → (b : ArrangementState T) × (arrangements.new.items
        ≡ set arrangements.old.items node (Some b)) × IsInserted T.times a b batch }
{
    match &mut arrangements[node.number()] {
        Some(arrangement) => insert_into(arrangement, batch),
        None => unreachable!(),
    }
}

impl<T: Minimum> Desk<T> {
    /// Puts a batch that was given into the spine of its arrange node, unless it is empty: an empty
    /// one was given as nothing. Is not refused.
    ///
    /// Cost: that of [`Arrangement::work`] for so many updates.
    pub fn put_away(&mut self, node: NodeId, batch: Batch<T>)
        requires next { (p : Dataflow)
            × IsNextBatch T.times p self.old node batch }
        ensures away { (p : Dataflow) → IsNextBatch T.times p self.old node batch
            → IsPutAway T.times p node batch self.old self.new }
    {
        if batch.len() == 0 {
            return;
        }
        insert_at(&mut self.arrangements, node, batch);
    }
}

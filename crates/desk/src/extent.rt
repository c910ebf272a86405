//! How much a worker keeps: the updates that the spine of an arrange node shows its readers.
ghost use Rattle.std.specs.Prelude.{◌≡◌, ◌<◌, ◌-◌, ◌^◌, length, min, slice_get};
ghost use Rattle.plan.specs.Nodes.{node_at};
ghost use Rattle.spine.specs.Spines.{stored};
ghost use Rattle.desk.specs.Upkeep.{kept_of};

use crate::desk::Desk;
use batch::BatchReader;
use lattice::Minimum;
use operator::Arrangement;
use plan::{Node, NodeId, Plan};
use trace::all_batches;

// How many updates an arrangement shows its readers; or the greatest number.
fn shown<T: Minimum>(arrangement: &Arrangement<T>) -> u64
    ensures { result ≡ min (length (stored arrangement.now.spine)) (2 ^ 64 - 1) }
{
    let batches = all_batches(arrangement.trace());
    let mut shown: u64 = 0;
    for batch in batches {
        shown = shown.saturating_add(batch.len() as u64);
    }
    shown
}

impl<T: Minimum> Desk<T> {
    /// How many updates the spine of an arrange node shows its readers, or the greatest number if
    /// that does not fit; 0 for another node. Those that wait in the arrangement are in no batch
    /// yet, so they do not count. Takes no memory.
    ///
    /// Cost: linear in the batches.
    pub fn kept(&self, plan: &Plan, node: NodeId) -> u64
        requires within { node < length plan.now }
        ensures { result ≡ kept_of (node_at plan.now node) (slice_get self.now.arrangements node) }
    {
        let Node::Arrange { .. } = plan.node(node) else {
            return 0;
        };
        let Some(Some(arrangement)) = self.arrangements.get(node.number()) else {
            return 0;
        };
        shown(arrangement)
    }
}

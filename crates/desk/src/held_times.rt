//! The least of the times that lie on the desk for a node. The worker holds them there, so that no
//! frontier passes what is still to be given.
ghost use Rattle.std.specs.Prelude.{◌≡◌, ◌<◌, IfOk, length, slice_get};
ghost use Rattle.update.specs.Refusals.{OnlyMemory};
ghost use Rattle.histories.specs.Histories.Dataflows.{Dataflow, node_of};
ghost use Rattle.histories.specs.Histories.States.{update_times};
ghost use Rattle.operator_laws.specs.GatheredUpdates.{IsHeldFor};
ghost use Rattle.desk_laws.specs.Own.{due_in, due_on, gathered_in, waiting_in};

use crate::desk::Desk;
use lattice::Minimum;
use plan::{Node, NodeId, Plan};
use std::alloc::Global;
use update::Refusal;

impl<T: Minimum> Desk<T> {
    // The least of the times that wait in the arrangement of a node.
    fn held_in_arrangement(&self, alloc: Global, node: NodeId) -> Result<Vec<T>, Refusal>
        ensures held { IfOk result (λ held. IsHeldFor T.times held.items
            (update_times (waiting_in (slice_get self.now.arrangements node)))) }
        ensures only { OnlyMemory result }
    {
        let Some(place) = self.arrangements.get(node.number()) else {
            return Ok(Vec::new(alloc));
        };
        let Some(arrangement) = place else {
            return Ok(Vec::new(alloc));
        };
        arrangement.held(alloc)
    }

    // The least of the times that are pending at the reduction of a node.
    pub(crate) fn held_in_reduction(&self, alloc: Global, node: NodeId) -> Result<Vec<T>, Refusal>
        ensures held { IfOk result (λ held. IsHeldFor T.times held.items
            (due_in (slice_get self.now.reductions node))) }
        ensures only { OnlyMemory result }
    {
        let Some(place) = self.reductions.get(node.number()) else {
            return Ok(Vec::new(alloc));
        };
        let Some(reduction) = place else {
            return Ok(Vec::new(alloc));
        };
        reduction.held(alloc)
    }

    // The least of the times of what lies gathered for a node.
    fn held_gathered(&self, alloc: Global, node: NodeId) -> Result<Vec<T>, Refusal>
        ensures held { IfOk result (λ held. IsHeldFor T.times held.items
            (update_times (gathered_in (slice_get self.now.gathered node)))) }
        ensures only { OnlyMemory result }
    {
        let Some(gathered) = self.gathered.get(node.number()) else {
            return Ok(Vec::new(alloc));
        };
        gathered.held(alloc)
    }

    /// The least of the times that lie on the desk for a node, to be held there.
    /// [`Refusal::OutOfMemory`] only if memory for these times was refused.
    ///
    /// Cost: linear in these times. At a reduction each pending time is compared with the least
    /// ones so far.
    pub fn held(&self, alloc: Global, plan: &Plan, node: NodeId) -> Result<Vec<T>, Refusal>
        requires within { node < length plan.now }
        ensures held { IfOk result (λ held. (p : Dataflow) → p.nodes ≡ plan.now
            → IsHeldFor T.times held.items (due_on self.now node (node_of p node))) }
        ensures only { OnlyMemory result }
    {
        match plan.node(node) {
            Node::Arrange { .. } => self.held_in_arrangement(alloc, node),
            Node::Reduce { .. } => self.held_in_reduction(alloc, node),
            _ => self.held_gathered(alloc, node),
        }
    }
}

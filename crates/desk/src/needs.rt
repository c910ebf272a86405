//! The times that the reductions need which read an arrangement.
//!
//! Each of them may read it at every pending time, and at every time that may become pending: that
//! is at or after one at which an update may still come. So the least of these is the level up to
//! which the arrangement may advance the times of its updates for them.
ghost use Rattle.std.specs.Prelude.{◌≡◌, ◌<◌, ◌||◌, IfOk, OnOk, length};
ghost use Rattle.update.specs.Refusals.{OnlyMemory};
ghost use Rattle.lattice.specs.Frontiers.{is_beyond};
ghost use Rattle.antichain.specs.Antichains.{IsFrontier};
ghost use Rattle.plan.specs.Nodes.{node_at};
ghost use Rattle.desk.specs.Upkeep.{IsLevel, due_for, front_of_port};

use crate::desk::Desk;
use antichain::Antichain;
use lattice::Minimum;
use plan::{Node, NodeId, Plan};
use std::alloc::Global;
use update::Refusal;

// The frontier of a port, of a list with two for each node.
pub(crate) fn front_of<T: Minimum>(fronts: &[Antichain<T>], node: NodeId, port: usize) -> &[T]
    requires few { node < 256 }
    requires port { port < 2 }
    ensures value { result.now ≡ front_of_port fronts.now node port }
    ensures frontier { IsFrontier T.times T.cmp result.now }
{
    match fronts.get(node.number() + (node.number() + port)) {
        Some(front) => front.elements(),
        None => &[],
    }
}

// Puts times into an antichain.
fn put_in<T: Minimum>(level: &mut Antichain<T>, times: &[T]) -> Result<(), Refusal>
    ensures beyond { OnOk result ((t : T) → is_beyond T.times level.new t
        ≡ (is_beyond T.times level.old t || is_beyond T.times times.now t)) }
    ensures only { OnlyMemory result }
{
    for time in times {
        level.insert(*time)?;
    }
    Ok(())
}

impl<T: Minimum> Desk<T> {
    // Puts the times at which the reduction of a node has yet to answer, or may have to, into a
    // level, if it reads the source.
    fn put_due(
        &self,
        alloc: Global,
        plan: &Plan,
        fronts: &[Antichain<T>],
        node: NodeId,
        source: NodeId,
        level: &mut Antichain<T>,
    ) -> Result<(), Refusal>
        requires within { node < length plan.now }
        ensures beyond { OnOk result ((t : T) → is_beyond T.times level.new t
            ≡ (is_beyond T.times level.old t || is_beyond T.times
            (due_for fronts.now self.now.reductions source node (node_at plan.now node)) t)) }
        ensures only { OnlyMemory result }
    {
        plan.known();
        let Node::Reduce { source: from, .. } = plan.node(node) else {
            return Ok(());
        };
        if *from != source {
            return Ok(());
        }
        let held = self.held_in_reduction(alloc, node)?;
        put_in(level, held.as_slice())?;
        put_in(level, front_of(fronts, node, 0))
    }

    // The least of the times at which the reductions that read a node have yet to answer, or may
    // have to. Cost: linear in the plan, and that of `Reducing::held` for each of these reductions.
    pub(crate) fn level(
        &self,
        alloc: Global,
        plan: &Plan,
        fronts: &[Antichain<T>],
        source: NodeId,
    ) -> Result<Antichain<T>, Refusal>
        ensures level { IfOk result
            (IsLevel fronts.now self.now.reductions source T.times plan.now) }
        ensures only { OnlyMemory result }
    {
        let mut level = Antichain::new(alloc);
        for n in 0..plan.len() {
            self.put_due(alloc, plan, fronts, NodeId::new(n), source, &mut level)?;
        }
        Ok(level)
    }
}

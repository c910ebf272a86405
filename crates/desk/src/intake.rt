//! What a bundle makes is laid on the desk. At a linear node it is gathered, at an arrange node it
//! waits in the arrangement, and at a reduction its times are pending.
ghost use Rattle.std.specs.Prelude.{◌≡◌, ◌++◌, ◌<◌, ◌≤◌, ◌^◌, ℕ, [], ◌∷◌, Some, None, false, IfOk, IfErr, OnOk, OnErr, IsTrue, IfSome, length, slice_get};
ghost use Rattle.lattice.specs.Frontiers.{all_beyond};
ghost use Rattle.update.specs.declared.change.Update.{Update};
ghost use Rattle.update.specs.Refusals.{OnlyMemory, IsMemoryOrOverflow};
ghost use Rattle.update.specs.Updates.{size};
ghost use Rattle.plan.specs.Nodes.{arranged_by, is_join, is_linear, node_at};
ghost use Rattle.plan.specs.declared.node.Node.TheVariants.{Arrange, Join, Reduce};
ghost use Rattle.linear.specs.Applied.{Overflows, linear_output};
ghost use Rattle.linear.specs.Widths.{takes_rows};
ghost use Rattle.histories.specs.Histories.Dataflows.{Dataflow};
ghost use Rattle.histories.specs.Histories.States.{update_times};
ghost use Rattle.operator.specs.Arrangements.{ArrangementState, rows_have, times_from};
ghost use Rattle.operator.specs.Reductions.{ReducingView, have_width};
ghost use Rattle.desk_laws.specs.declared.hand.Hand.TheVariants.{Kept, Ready, Taken};
ghost use Rattle.desk.specs.Desks.{IsLaidIn, IsReducedWith, IsSomeones, IsTooLarge, Leads};

use crate::desk::Desk;
use columns::UpdateList;
use lattice::Minimum;
use machine::Bundle;
use operator::Arrangement;
use plan::{Node, NodeId, Plan};
use std::alloc::Global;
use update::{Refusal, Update};

// Moves updates into an arrangement. If memory was refused, then nothing has changed, and the list
// has them still.
fn move_into<T: Minimum>(
    alloc: Global,
    arrangement: &mut Arrangement<T>,
    list: &mut UpdateList<T>,
) -> Result<(), Refusal>
    requires rows { IsTrue (rows_have arrangement.old.width list.old) }
    requires times { IsTrue (times_from T.times list.old) }
    ensures waiting { OnOk result (arrangement.new
        ≡ record arrangement.old { waiting = arrangement.old.waiting ++ list.old }) }
    ensures same { OnErr result (arrangement.new ≡ arrangement.old) }
    ensures left { OnErr result (list.new ≡ list.old) }
    ensures only { OnlyMemory result }
{
    let mut updates = list.take_vec(alloc)?;
    let moved = arrangement.take_in(&mut updates);
    *list = updates.into();
    moved
}

impl<T: Minimum> Desk<T> {
    // Gathers what a linear node makes of updates. Nothing else on the desk changes. If it is
    // refused, then the list is as it was.
    fn gather(
        &mut self,
        alloc: Global,
        operator: &Node,
        node: NodeId,
        list: &mut UpdateList<T>,
    ) -> Result<(), Refusal>
        requires place { node < length self.old.gathered }
        requires linear { IsTrue (is_linear operator.now) }
        requires plain { arranged_by operator.now ≡ None }
        requires rows { IsTrue (takes_rows operator.now list.old) }
        ensures laid { OnOk result ((p : Dataflow) → node_at p.nodes node ≡ operator.now
            → IsLaidIn T.times p node
            (linear_output operator.now list.old) self.old self.new) }
        ensures same { OnErr result (self.new ≡ self.old) }
        ensures left { OnErr result (list.new ≡ list.old) }
        ensures refused { IfErr result (IsMemoryOrOverflow (Overflows operator.now list.old)) }
    {
        self.gathered[node.number()].take_in(alloc, operator, list)?;
        Ok(())
    }

    // Moves updates into the arrangement of a node, where they wait. Nothing else on the desk
    // changes. If it is refused, then the list is as it was.
    fn arrange(
        &mut self,
        alloc: Global,
        node: NodeId,
        list: &mut UpdateList<T>,
    ) -> Result<(), Refusal>
        requires there { (a : ArrangementState T)
            × (slice_get self.old.arrangements node ≡ Some (Some a))
            × IsTrue (rows_have a.width list.old) }
        requires times { IsTrue (times_from T.times list.old) }
        ensures laid { OnOk result ((p : Dataflow) (source key : ℕ)
            → node_at p.nodes node ≡ Arrange source key
            → IsLaidIn T.times p node list.old self.old self.new) }
        ensures same { OnErr result (self.new ≡ self.old) }
        ensures left { OnErr result (list.new ≡ list.old) }
        ensures only { OnlyMemory result }
    {
        match &mut self.arrangements[node.number()] {
            Some(arrangement) => move_into(alloc, arrangement, list),
            None => unreachable!(),
        }
    }

    // A reduction takes the updates of a list, which is lent: their times are pending from then on.
    // Nothing else on the desk changes.
    fn reduce(&mut self, alloc: Global, node: NodeId, list: &UpdateList<T>) -> Result<(), Refusal>
        requires there { (r : ReducingView T) × (slice_get self.old.reductions node ≡ Some (Some r))
            × IsTrue (have_width r.width list.now) }
        requires later { IsTrue (all_beyond T.times (T.times.least ∷ []) (update_times list.now)) }
        ensures reduced { OnOk result
            (IsReducedWith T.times node list.now self.old self.new) }
        ensures same { OnErr result (self.new ≡ self.old) }
        ensures refused { IfErr result (IsMemoryOrOverflow (2 ^ 63 ≤ size list.now)) }
    {
        match &mut self.reductions[node.number()] {
            Some(reduction) => reduction.take(alloc, &self.start, list),
            None => unreachable!(),
        }
    }

    // Lays what a bundle makes on the desk, at a node that is no join. If it is refused, then
    // nothing has changed, and the bundle is as it was.
    fn take_in(
        &mut self,
        alloc: Global,
        plan: &Plan,
        bundle: &mut Bundle<T>,
        more: bool,
    ) -> Result<(), Refusal>
        requires someones { IsSomeones T.times plan.now self.old
            (Taken bundle.old more) }
        requires other { is_join (node_at plan.now bundle.old.place.node) ≡ false }
        ensures leads { OnOk result (Leads T.times plan.now self.old
            (Taken bundle.old more) self.new (Kept bundle.old.place.node more)) }
        ensures same { OnErr result (self.new ≡ self.old) }
        ensures left { OnErr result (bundle.new ≡ bundle.old) }
        ensures refused { IfErr result (IsMemoryOrOverflow
            (IsTooLarge T.times T.cmp
            plan.now self.old (Taken bundle.old more))) }
    {
        let node = bundle.place.node;
        let operator = plan.node(node);
        match operator {
            Node::Arrange { .. } => self.arrange(alloc, node, &mut bundle.updates),
            Node::Reduce { .. } => self.reduce(alloc, node, &bundle.updates),
            _ => self.gather(alloc, operator, node, &mut bundle.updates),
        }
    }

    // Lays what a bundle makes on the desk, and answers the pairs of a join: they are to be given
    // at once. What moves to the desk is gone from the bundle then. If it is refused, then nothing
    // has changed, and the bundle is as it was.
    pub(crate) fn lay(
        &mut self,
        alloc: Global,
        plan: &Plan,
        bundle: &mut Bundle<T>,
        more: bool,
    ) -> Result<Option<Vec<Update<T>>>, Refusal>
        requires someones { IsSomeones T.times plan.now self.old
            (Taken bundle.old more) }
        ensures paired { IfOk result (λ made. IfSome made (λ pairs. Leads T.times
            plan.now self.old (Taken bundle.old more) self.new
            (Ready bundle.old.place.node pairs.items))) }
        ensures laid { IfOk result (λ made. made ≡ None → Leads T.times plan.now
            self.old (Taken bundle.old more) self.new (Kept bundle.old.place.node more)) }
        ensures same { OnErr result (self.new ≡ self.old) }
        ensures left { OnErr result (bundle.new ≡ bundle.old) }
        ensures refused { IfErr result (IsMemoryOrOverflow
            (IsTooLarge T.times T.cmp
            plan.now self.old (Taken bundle.old more))) }
    {
        match plan.node(bundle.place.node) {
            Node::Join { left, right } => {
                let pairs = self.join(alloc, plan, bundle, more, *left, *right)?;
                Ok(Some(pairs))
            }
            _ => {
                self.take_in(alloc, plan, bundle, more)?;
                Ok(None)
            }
        }
    }
}

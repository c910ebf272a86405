//! A bundle at a join. It is paired with all that the join has taken at its other port, and the
//! join has then taken this bundle, too.
//!
//! The pairs are given as they are, so nothing is gathered at a join. What the join takes stays in
//! the spine of the source, and the join keeps no more than how far it has come there. So it has to
//! know where the batch ends that the bundle was. The bundle does not carry that, and several may
//! wait at a port. But the one in hand begins where the join has come to, and the spine keeps each
//! boundary from there on, because of the join's hold. So the next boundary of the spine is the end
//! of the batch.
//!
//! The hold itself stays behind. It is moved when a worker tidies its desk.
ghost use Rattle.std.specs.Prelude.{◌≡◌, List, Some, IfOk, IfErr, IsTrue, OnErr, slice_get};
ghost use Rattle.lattice.specs.Frontiers.{all_beyond};
ghost use Rattle.update.specs.declared.change.Update.{Update};
ghost use Rattle.update.specs.Refusals.{OnlyMemory, IsMemoryOrOverflow};
ghost use Rattle.plan.specs.Nodes.{node_at};
ghost use Rattle.plan.specs.declared.node.Node.TheVariants.{Join};
ghost use Rattle.operator.specs.Joins.{JoiningView};
ghost use Rattle.desk_laws.specs.declared.hand.Hand.TheVariants.{Ready, Taken};
ghost use Rattle.desk.specs.Desks.{IsSomeones, IsTooLarge, Leads};
ghost use Rattle.desk.specs.Joinings.{ArePairsLarge, IsEndAfter, IsJoinedWith, IsNextAt, IsNextOf, IsPaired};

use crate::answers::arrangement_at;
use crate::desk::Desk;
use antichain::Antichain;
use columns::UpdateList;
use join::Side;
use lattice::Minimum;
use machine::Bundle;
use operator::{Arrangement, Joining, antichain_of};
use plan::{NodeId, Plan};
use std::alloc::Global;
use update::{Refusal, Update};

// Where the insertion ends that begins at a reader's boundary.
fn next_end<T: Minimum>(
    alloc: Global,
    source: &Arrangement<T>,
    boundary: &[T],
) -> Result<Antichain<T>, Refusal>
    requires next { (us : List (Update T)) × IsNextOf T.times source.now boundary.now us }
    ensures ends { IfOk result (λ end. IsEndAfter T.times source.now boundary.now end) }
    ensures forward { IfOk result (λ end. IsTrue (all_beyond T.times boundary.now end)) }
    ensures only { OnlyMemory result }
{
    let _spine = source.trace();
    let Some(end) = source.boundary_after(boundary) else {
        unreachable!()
    };
    antichain_of(alloc, end)
}

// Pairs a bundle that came on a side with all that was taken on the other one. Its list is lent.
// `_start` is not used: generic code with a local antichain needs the type in its signature.
fn pair<T: Minimum>(
    alloc: Global,
    _start: &Antichain<T>,
    arrangements: &Vec<Option<Arrangement<T>>>,
    joining: &mut Joining<T>,
    side: Side,
    list: &UpdateList<T>,
    own: NodeId,
    other: NodeId,
) -> Result<Vec<Update<T>>, Refusal>
    requires next { IsNextAt T.times side arrangements.now.items own other joining.old list.now }
    ensures paired { IfOk result (λ out. IsPaired T.times T.cmp side
        arrangements.now.items own other joining.old list.now out.items joining.new) }
    ensures same { OnErr result (joining.new ≡ joining.old) }
    ensures refused { IfErr result (IsMemoryOrOverflow (ArePairsLarge T.times side
        arrangements.now.items other joining.old list.now)) }
{
    joining.known();
    let source = arrangement_at(arrangements, own);
    let end = next_end(alloc, source, joining.boundary(side))?;
    let opposite = arrangement_at(arrangements, other);
    joining.take(side, alloc, list, &end, opposite.trace())
}

impl<T: Minimum> Desk<T> {
    // Pairs a bundle that came on a side of a join. If it is refused, then nothing has changed.
    fn join_side(
        &mut self,
        alloc: Global,
        node: NodeId,
        side: Side,
        list: &UpdateList<T>,
        own: NodeId,
        other: NodeId,
    ) -> Result<Vec<Update<T>>, Refusal>
        requires next { (j : JoiningView T) × (slice_get self.old.joins node ≡ Some (Some j))
            × IsNextAt T.times side self.old.arrangements own other j list.now }
        ensures joined { IfOk result (λ out. IsJoinedWith T.times T.cmp side
            node own other list.now out.items self.old self.new) }
        ensures same { OnErr result (self.new ≡ self.old) }
        ensures refused { IfErr result (IsMemoryOrOverflow ((j : JoiningView T)
            → slice_get self.old.joins node ≡ Some (Some j)
            → ArePairsLarge T.times side self.old.arrangements other j list.now)) }
    {
        match &mut self.joins[node.number()] {
            Some(joining) => {
                let start = &self.start;
                pair(
                    alloc,
                    start,
                    &self.arrangements,
                    joining,
                    side,
                    list,
                    own,
                    other,
                )
            }
            None => unreachable!(),
        }
    }

    // The pairs of a bundle with all that a join has taken at its other port. The join has then
    // taken up to where the batch ends that the bundle was. The bundle is lent, so that it can be
    // taken again. If it is refused, then nothing has changed.
    pub(crate) fn join(
        &mut self,
        alloc: Global,
        plan: &Plan,
        bundle: &Bundle<T>,
        more: bool,
        left: NodeId,
        right: NodeId,
    ) -> Result<Vec<Update<T>>, Refusal>
        requires someones { IsSomeones T.times plan.now self.old
            (Taken bundle.now more) }
        requires joins { node_at plan.now bundle.now.place.node ≡ Join left right }
        ensures leads { IfOk result (λ out. Leads T.times plan.now
            self.old (Taken bundle.now more) self.new (Ready bundle.now.place.node out.items)) }
        ensures same { OnErr result (self.new ≡ self.old) }
        ensures refused { IfErr result (IsMemoryOrOverflow
            (IsTooLarge T.times T.cmp
            plan.now self.old (Taken bundle.now more))) }
    {
        let node = bundle.place.node;
        if bundle.place.port == 0 {
            return self.join_side(alloc, node, Side::Left, &bundle.updates, left, right);
        }
        self.join_side(alloc, node, Side::Right, &bundle.updates, right, left)
    }
}

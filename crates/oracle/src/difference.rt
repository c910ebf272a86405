//! The differences of a view, computed from the query alone. The times of the join closure, all of
//! which the frontier has passed, are visited in order. At each of them we list the view's rows
//! there minus the updates listed at or before it. So the list sums to the query at each of these
//! times. It also does so at every other passed time, because neither the query nor the sum changes
//! between two times of the closure.
ghost use Rattle.std.specs.Prelude.{◌≡◌, ◌<◌, ◌⊎◌, map, length, IfOk, IfErr, OnOk};
ghost use Rattle.plan.specs.Changes.{AreDifferences, open_for, query_at};
ghost use Rattle.update.specs.Refusals.{OnlyMemory, IsMemoryOrOverflow};
ghost use Rattle.oracle.specs.Evaluation.{AreWide, HasLargeAbove, list_of, sums_at};
ghost use Rattle.oracle.specs.Listing.{ContinuesListing, HasLargeDifference, HasLargeGap};

use crate::evaluation::{evaluate, feeds, inputs_before};
use crate::join_closure::join_closure;
use crate::listing::{gap, push_at};
use antichain::Antichain;
use lattice::Lattice;
use plan::{NodeId, Plan};
use std::alloc::Global;
use update::{Refusal, Update};

// The frontier of an input. A missing frontier is read as an empty one.
fn frontier_of<'a, T: Lattice>(plan: &Plan, frontiers: &'a [Antichain<T>], id: NodeId) -> &'a [T]
    requires { id < length plan.now }
    ensures { result.now ≡ list_of plan.now frontiers.now id }
{
    match frontiers.get(inputs_before(plan, id)) {
        Some(frontier) => frontier.elements(),
        None => &[],
    }
}

// The times that are still open for the view: the elements of the frontiers of all inputs that feed
// it.
fn open_for<T: Lattice>(
    alloc: Global,
    plan: &Plan,
    view: NodeId,
    frontiers: &[Antichain<T>],
) -> Result<Vec<T>, Refusal>
    requires { view < length plan.now }
    ensures elements { IfOk result
        (λ times. times.items ≡ open_for T.times plan.now (list_of plan.now frontiers.now) view) }
    ensures refused { OnlyMemory result }
{
    let mut times = Vec::new(alloc);
    for n in 0..plan.len() {
        if feeds(plan, NodeId::new(n), view) {
            times.extend_from_slice(frontier_of(plan, frontiers, NodeId::new(n)))?;
        }
    }
    Ok(times)
}

// Lists the view's changes at `t`.
fn list_at<T: Lattice>(
    alloc: Global,
    plan: &Plan,
    view: NodeId,
    changes: &[Vec<Update<T>>],
    t: T,
    listed: &mut Vec<Update<T>>,
) -> Result<(), Refusal>
    requires view { view < length plan.now }
    requires lists { AreWide plan.now (map (λ v. v.items) changes.now) }
    ensures goes_on { OnOk result
        (ContinuesListing T.times t
        (query_at T.times plan.now
        (list_of plan.now
        (map (λ v. v.items) changes.now)) view t) listed.old.items listed.new.items) }
    ensures refused { IfErr result
        (IsMemoryOrOverflow (HasLargeAbove plan.now
        (sums_at T.times plan.now (map (λ v. v.items) changes.now) t) view
        ⊎ HasLargeGap T.times t
        (query_at T.times plan.now
        (list_of plan.now (map (λ v. v.items) changes.now)) view t) listed.old.items)) }
{
    let bag = evaluate(alloc, plan, view, changes, t)?;
    let gap = gap(alloc, &bag, listed, t)?;
    push_at(listed, &gap, t)
}

// The differences of the view as of a frontier: its changes at each time of the join closure.
fn along<T: Lattice>(
    alloc: Global,
    plan: &Plan,
    view: NodeId,
    changes: &[Vec<Update<T>>],
    frontier: &[T],
) -> Result<Vec<Update<T>>, Refusal>
    requires view { view < length plan.now }
    requires lists { AreWide plan.now (map (λ v. v.items) changes.now) }
    ensures differences { IfOk result
        (λ listed. AreDifferences T.times T.cmp plan.now
        (list_of plan.now (map (λ v. v.items) changes.now)) frontier.now view listed.items) }
    ensures refused { IfErr result
        (IsMemoryOrOverflow (HasLargeDifference T.times plan.now
        (map (λ v. v.items) changes.now) frontier.now view)) }
{
    plan.known();
    let join_closure = join_closure(alloc, plan, view, changes, frontier)?;
    let mut listed = Vec::new(alloc);
    for t in &join_closure {
        list_at(alloc, plan, view, changes, *t, &mut listed)?;
    }
    Ok(listed)
}

/// The differences of a node of a plan, as of the inputs' frontiers. This is the only consolidated
/// list that sums to the answer of [`evaluate`] at every time that all inputs feeding the node have
/// passed, and that has no other times. `changes` and `frontiers` have one list and one frontier
/// for each input, in the order of the inputs' numbers. A missing one is read as empty.
///
/// The refusals:
///
/// | Refusal | When |
/// |---|---|
/// | `Overflow` | at a passed time the query overflows, or the difference of some row does not fit in 64 bits |
/// | `OutOfMemory` | an allocation was refused |
///
/// Cost: one query for each time of the join closure, and for each such time a sort of the updates
/// listed before it. The closure has the passed times of the changes of the inputs that feed the
/// node, and all passed joins of them. A change that is still open costs one test.
pub fn differences<T: Lattice>(
    alloc: Global,
    plan: &Plan,
    view: NodeId,
    changes: &[Vec<Update<T>>],
    frontiers: &[Antichain<T>],
) -> Result<Vec<Update<T>>, Refusal>
    requires view { view < length plan.now }
    requires lists { AreWide plan.now (map (λ v. v.items) changes.now) }
    ensures differences { IfOk result
        (λ listed. AreDifferences T.times T.cmp plan.now
        (list_of plan.now (map (λ v. v.items) changes.now))
        (open_for T.times plan.now (list_of plan.now frontiers.now) view) view listed.items) }
    ensures refused { IfErr result
        (IsMemoryOrOverflow (HasLargeDifference T.times plan.now (map (λ v. v.items) changes.now)
        (open_for T.times plan.now (list_of plan.now frontiers.now) view) view)) }
{
    let frontier = open_for(alloc, plan, view, frontiers)?;
    along(alloc, plan, view, changes, &frontier)
}

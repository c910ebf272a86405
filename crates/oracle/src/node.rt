//! One node: its operator, applied to the bags of its sources. Every plan promises that the sources
//! exist and that their rows have the columns that the operator names.
ghost use Rattle.std.specs.Prelude.{◌≡◌, ◌≤◌, ◌<◌, ℕ, length, IfOk, IfErr, IsTrue};
ghost use Rattle.update.specs.Bags.{Alike, IsBag};
ghost use Rattle.update.specs.Updates.{as_of};
ghost use Rattle.plan.specs.Widths.{width_of};
ghost use Rattle.oracle.specs.Entries.{all_wide};
ghost use Rattle.update.specs.Refusals.{OnlyMemory, IsMemoryOrOverflow};
ghost use Rattle.oracle.specs.Evaluation.{nth_bag, output_at, passed_on, HasLargeAt};

use crate::bags::Bags;
use crate::operators::{joined, mapped, opposite, passing, together};
use crate::reductions::reduced;
use lattice::Lattice;
use plan::{Node, NodeId, Plan};
use std::alloc::Global;
use update::{Bag, Refusal, Update, sum_at};

// The bag of a node, as the definitions look it up.
fn bag_at(bags: &Bags, id: NodeId) -> &Bag
    requires { id < length bags.now }
    ensures { result.now ≡ nth_bag bags.now id }
{
    bags.get(id.number())
}

/// The source whose rows the node passes on as they are. Arrange nodes and views do so.
pub(crate) fn passed_on(node: &Node) -> Option<NodeId>
    ensures { result ≡ passed_on node.now }
{
    match node {
        Node::Arrange { source, .. } => Some(*source),
        Node::Output { source } => Some(*source),
        _ => None,
    }
}

// A copy of the bag, for who asks an arrange node or a view.
fn copied(bag: &Bag) -> Result<Bag, Refusal>
    ensures same { IfOk result (λ out. Alike out bag.now) }
    ensures bag { IfOk result IsBag }
    ensures refused { OnlyMemory result }
{
    bag.known();
    Ok(bag.clone()?)
}

/// The rows of a node, from the bags of the nodes before it. An input has its own updates at or
/// before `t` instead. [`Refusal::Overflow`] only if some row's count does not fit in 64 bits, or a
/// product or a total on the way to it does not.
///
/// Cost: that of a sort of the rows that the node reads and writes.
pub(crate) fn of_node<T: Lattice>(
    alloc: Global,
    plan: &Plan,
    id: NodeId,
    own: &[Update<T>],
    t: T,
    bags: &Bags,
) -> Result<Bag, Refusal>
    requires inside { id < length plan.now }
    requires bags { id ≤ length bags.now }
    requires wide { (m : ℕ) → m < id
        → IsTrue (all_wide (width_of plan.now m) (nth_bag bags.now m)) }
    ensures given { IfOk result
        (λ out. Alike out (output_at plan.now id (as_of T.times t own.now) (nth_bag bags.now))) }
    ensures bag { IfOk result IsBag }
    ensures refused { IfErr result
        (IsMemoryOrOverflow (HasLargeAt plan.now id (as_of T.times t own.now) (nth_bag bags.now))) }
{
    plan.known();
    let k = plan.key_width(id);
    match plan.node(id) {
        Node::Input { .. } => sum_at(alloc, own, t),
        Node::Map { source, items } => mapped(alloc, bag_at(bags, *source), items.as_slice()),
        Node::Filter { source, test } => passing(alloc, bag_at(bags, *source), test),
        Node::Concat { left, right } => {
            together(alloc, bag_at(bags, *left), bag_at(bags, *right))
        }
        Node::Negate { source } => opposite(alloc, bag_at(bags, *source)),
        Node::Arrange { source, .. } => copied(bag_at(bags, *source)),
        Node::Join { left, right } => {
            joined(alloc, bag_at(bags, *left), bag_at(bags, *right), k)
        }
        Node::Reduce { kind, source } => reduced(alloc, bag_at(bags, *source), *kind, k),
        Node::Output { source } => copied(bag_at(bags, *source)),
    }
}

//! A bundle at a linear node. If nothing lies gathered for the node, then what the node makes of
//! the bundle is ready at once: the updates are overwritten where they are, and no list is copied.
//! At a view they even stay in their form.
//!
//! Short bundles are gathered instead, as long as more of them wait, and given together. So is what
//! comes to a node with two sources: there the same updates may come from both.
ghost use Rattle.std.specs.Prelude.{◌≡◌, [], Bool, IfErr, IsTrue, OnErr, OnOk};
ghost use Rattle.update.specs.Refusals.{IsMemoryOrOverflow};
ghost use Rattle.plan.specs.Nodes.{is_linear};
ghost use Rattle.linear.specs.Applied.{Overflows, linear_output};
ghost use Rattle.linear.specs.Widths.{takes_rows};
ghost use Rattle.histories.specs.declared.event.Bundle.{Bundle};
ghost use Rattle.desk_laws.specs.declared.hand.Hand.TheVariants.{Ready, Taken};
ghost use Rattle.desk.specs.Desks.{HasLinear, HasOverflowing, IsMadeOf, IsOverwritten, IsPassedOn, IsSomeones};

use crate::desk::Desk;
use columns::UpdateList;
use desk_laws::Hand;
use lattice::Minimum;
use machine::Bundle;
use plan::{Node, Plan};
use std::alloc::Global;
use std::mem;
use update::Refusal;

// A bundle of so many updates is not gathered.
const MANY: usize = 64;

impl<T: Minimum> Desk<T> {
    // Whether a bundle is in hand of which the output is to be ready at once.
    pub(crate) fn passes_on(&self, plan: &Plan, hand: &Hand<T>) -> bool
        requires someones { IsSomeones T.times plan.now self.now hand.now }
        ensures { IsTrue result → IsPassedOn plan.now self.now hand.now }
    {
        let Hand::Taken { bundle, more } = hand else {
            return false;
        };
        let node = bundle.place.node;
        let operator = plan.node(node);
        if !operator.is_linear() || plan.is_arranged(node) {
            return false;
        }
        if let Node::Concat { .. } = operator {
            return false;
        }
        (!*more || bundle.updates.len() >= MANY) && self.gathered[node.number()].len() == 0
    }
}

// Overwrites a list by what a linear node makes of it. If it is refused, then nothing has changed.
fn overwrite<T: Minimum>(
    alloc: Global,
    operator: &Node,
    list: &mut UpdateList<T>,
) -> Result<(), Refusal>
    requires linear { IsTrue (is_linear operator.now) }
    requires rows { IsTrue (takes_rows operator.now list.old) }
    ensures applied { OnOk result (list.new ≡ linear_output operator.now list.old) }
    ensures same { OnErr result (list.new ≡ list.old) }
    ensures refused { IfErr result (IsMemoryOrOverflow (Overflows operator.now list.old)) }
{
    if let Node::Output { .. } = operator {
        return Ok(());
    }
    let mut updates = list.take_vec(alloc)?;
    let applied = linear::apply(operator, &mut updates);
    *list = updates.into();
    applied
}

// Overwrites the updates in hand.
fn overwrite_in_hand<T: Minimum>(
    alloc: Global,
    plan: &Plan,
    hand: &mut Hand<T>,
) -> Result<(), Refusal>
    requires { HasLinear plan.now hand.old }
    ensures overwritten { OnOk result (IsOverwritten plan.now hand.old hand.new) }
    ensures same { OnErr result (hand.new ≡ hand.old) }
    ensures refused { IfErr result (IsMemoryOrOverflow (HasOverflowing plan.now hand.old)) }
{
    match hand {
        Hand::Taken { bundle, .. } => {
            let operator = plan.node(bundle.place.node);
            overwrite(alloc, operator, &mut bundle.updates)
        }
        _ => unreachable!(),
    }
}

// The updates in hand are ready to be given.
fn make_ready<T: Minimum>(hand: &mut Hand<T>)
    ensures { (bundle : Bundle T) (more : Bool) → hand.old ≡ Taken bundle more
        → hand.new ≡ Ready bundle.place.node bundle.updates }
{
    let taken = mem::replace(hand, Hand::Free);
    if let Hand::Taken { bundle, .. } = taken {
        let Bundle { place, updates, .. } = bundle;
        *hand = Hand::Ready {
            node: place.node,
            updates: updates.into(),
        };
    }
}

// What a linear node makes of the bundle in hand is ready. If it is refused, then nothing has
// changed.
pub(crate) fn pass_on<T: Minimum>(
    alloc: Global,
    plan: &Plan,
    hand: &mut Hand<T>,
) -> Result<(), Refusal>
    requires { HasLinear plan.now hand.old }
    ensures made { OnOk result (IsMadeOf plan.now hand.old hand.new) }
    ensures same { OnErr result (hand.new ≡ hand.old) }
    ensures refused { IfErr result (IsMemoryOrOverflow (HasOverflowing plan.now hand.old)) }
{
    overwrite_in_hand(alloc, plan, hand)?;
    make_ready(hand);
    Ok(())
}

//! Building a plan, node by node. A node is tested when it is added and never again. A builder
//! holds a plan at every moment, so finishing cannot fail and costs nothing, and a finished plan
//! can be extended.
ghost use Rattle.std.specs.Prelude.{◌≡◌, ◌++◌, [], ◌∷◌, None, length, IfOk, IfErr, OnErr};
ghost use Rattle.plan.specs.Rules.{node_refusal};
ghost use Rattle.update.specs.Refusals.{IsRefusalBy};

use crate::node::{Node, NodeId};
use crate::plan::Plan;
use std::alloc::Global;
use std::marker::Model;
use update::Refusal;

/// A plan that is being built. Each of its states is a plan, so nothing is tested at the end. A
/// contract sees the list of its nodes.
#[derive(Drop)]
pub struct PlanBuilder {
    plan: Plan,
}

impl Model for PlanBuilder {
    ghost use Rattle.std.specs.Prelude.{List};
    ghost use Rattle.plan.specs.declared.node.Node.{Node};

    ghost Value = { List Node };

    ghost view = { λ b. b.plan };
}

impl PlanBuilder {
    /// A builder with no nodes. Takes no memory.
    pub fn new(alloc: Global) -> PlanBuilder
        ensures { result ≡ [] }
    {
        PlanBuilder {
            plan: Plan::empty(alloc),
        }
    }

    /// Adds a node and returns its number, which is the number of nodes before it. A node may read
    /// any earlier node that is no view.
    ///
    /// The refusals, in the order in which they are tested. After a refusal the node is dropped,
    /// and the builder stays as it was:
    ///
    /// | Refusal | When |
    /// |---|---|
    /// | `TooManyNodes` | the plan has [`MAX_NODES`](crate::MAX_NODES) nodes |
    /// | `UnknownName` | a source does not exist, or is a view |
    /// | `BadWidth` | the width of an input, or the number of a map's items, is not 1 to 8 |
    /// | `BadColumn` | an item of a map, or of a filter's test, names a column that the source does not have |
    /// | `WidthMismatch` | the sources of a concat have different widths |
    /// | `BadKey` | the key of an arrange node has no columns, or more than the source |
    /// | `NotArranged` | a source of a join or a reduction is no arrange node |
    /// | `KeyMismatch` | the sources of a join are arranged by keys of different widths |
    /// | `BadWidth` | the rows of a join or a count would have more than 8 columns |
    /// | `OutOfMemory` | memory for the node was refused |
    ///
    /// Cost: linear in the number of items of a map, otherwise constant.
    pub fn add(&mut self, node: Node) -> Result<NodeId, Refusal>
        ensures added { IfOk result (λ id. (id ≡ length self.old)
            × (self.new ≡ self.old ++ node ∷ [])) }
        ensures accepted { IfOk result (λ id. node_refusal self.old node ≡ None) }
        ensures refused { IfErr result
            (λ refusal. IsRefusalBy (node_refusal self.old node) refusal) }
        ensures unchanged { OnErr result (self.new ≡ self.old) }
    {
        if let Some(refusal) = self.plan.refusal_of(&node) {
            return Err(refusal);
        }
        self.plan.push(node)
    }

    /// The plan. Takes no memory.
    pub fn finish(self) -> Plan
        ensures { result ≡ self }
    {
        let PlanBuilder { plan } = self;
        plan
    }
}

/// Extends a plan; its nodes keep their numbers. Takes no memory.
impl From<Plan> for PlanBuilder {
    ghost use Rattle.std.specs.Prelude.{◌≡◌};

    ghost from_gives = { λ plan builder. builder ≡ plan };

    fn from(plan: Plan) -> PlanBuilder {
        PlanBuilder { plan }
    }
}

//! Plans: query graphs whose nodes read nodes with smaller numbers.
//!
//! A plan is the list of its nodes. Its one invariant is that the rules accept each node after the
//! nodes before it. So a plan has no cycle. The width of every node, and the key of every join and
//! reduction, follows from the nodes before it, and need not be tested again. Each node is stored
//! with its width; otherwise each question for a width would go back to the inputs.
ghost use Rattle.std.specs.Prelude.{◌≡◌, ◌<◌, ◌≤◌, ◌↔◌, ◌++◌, [], ◌∷◌, None, length, IsTrue, IfOk, OnErr};
ghost use Rattle.update.specs.Refusals.{OnlyMemory};
ghost use Rattle.plan.specs.Nodes.{node_at, key_of, key_width};
ghost use Rattle.plan.specs.Widths.{width_of};
ghost use Rattle.plan.specs.Rules.{IsPlan, is_width, is_arranged, node_refusal};

use crate::node::{Node, NodeId};
use std::alloc::{AllocError, Global};
use std::marker::Model;
use update::Refusal;

/// A node of a plan, and the width of its rows.
#[derive(Drop)]
pub(crate) struct Stage {
    pub(crate) node: Node,
    pub(crate) width: usize,
}

/// A query graph: nodes, each of which reads nodes with smaller numbers. A contract sees the list
/// of its nodes, in the order of their numbers.
#[derive(Drop)]
pub struct Plan {
    stages: Vec<Stage>,
}

impl Model for Plan {
    ghost use Rattle.std.specs.Prelude.{List, map};
    ghost use Rattle.plan.specs.Rules.{IsPlan};
    ghost use Rattle.plan.specs.Stages.{AreStages, nodes_of};
    ghost use Rattle.plan.specs.declared.node.Node.{Node};

    ghost Value = { List Node };

    ghost view = { λ p. nodes_of p.stages.items };

    ghost invariant = { λ p. AreStages p.stages.items };
}

impl Plan {
    /// The plan of no nodes. Takes no memory.
    pub(crate) fn empty(alloc: Global) -> Plan
        ensures { result ≡ [] }
    {
        Plan {
            stages: Vec::new(alloc),
        }
    }

    /// The number of nodes, 256 at most. Takes no memory.
    pub fn len(&self) -> usize
        ensures len { result ≡ length self.now }
        ensures few { length self.now ≤ 256 }
        ensures plan { IsPlan self.now }
    {
        self.stages.len()
    }

    /// Tells the prover that the rules accept each node and that there are 256 at most. Costs
    /// nothing.
    pub fn known(&self)
        ensures few { length self.now ≤ 256 }
        ensures plan { IsPlan self.now }
    {
        let _ = &self.stages;
    }

    /// Whether the plan has no nodes. Takes no memory.
    pub fn is_empty(&self) -> bool
        ensures { IsTrue result ↔ (self.now ≡ []) }
    {
        self.len() == 0
    }

    /// The node with this number. Takes no memory and constant time.
    pub fn node(&self, id: NodeId) -> &Node
        requires { id < length self.now }
        ensures { result.now ≡ node_at self.now id }
    {
        &self.stages[id.number()].node
    }

    /// The number of columns of the node's rows, 1 to 8. Takes no memory and constant time.
    pub fn width(&self, id: NodeId) -> usize
        requires { id < length self.now }
        ensures width { result ≡ width_of self.now id }
        ensures few { IsTrue (is_width result) }
    {
        self.stages[id.number()].width
    }

    /// Whether the node is an arrange node. Takes no memory and constant time.
    pub fn is_arranged(&self, id: NodeId) -> bool
        requires { id < length self.now }
        ensures { result ≡ is_arranged self.now id }
    {
        self.node(id).arranged_by().is_some()
    }

    /// The width of the key by which the node is arranged: 1 to 8 columns for an arrange node, 0
    /// for every other node. Takes no memory and constant time.
    pub fn key(&self, id: NodeId) -> usize
        requires { id < length self.now }
        ensures key { result ≡ key_of self.now id }
        ensures few { result ≤ 8 }
        ensures some { IsTrue (is_arranged self.now id) → 1 ≤ result }
    {
        let _ = &self.stages;
        self.node(id).arranged_by().unwrap_or(0)
    }

    /// The width of the key by which the node's first source is arranged. A join or a reduction has
    /// sources that are arranged by this key, so its key has 1 to 8 columns. The answer is 0 if the
    /// first source is no arrange node, and also for an input, which has no source. Takes no memory
    /// and constant time.
    pub fn key_width(&self, id: NodeId) -> usize
        requires { id < length self.now }
        ensures { result ≡ key_width self.now (node_at self.now id) }
    {
        self.known();
        match self.node(id).source(0) {
            Some(source) => self.key(source),
            None => 0,
        }
    }

    /// Adds a node that the rules accept. Refused only with `OutOfMemory`; the node is then
    /// dropped, and the plan stays as it was.
    pub(crate) fn push(&mut self, node: Node) -> Result<NodeId, Refusal>
        requires { node_refusal self.old node ≡ None }
        ensures added { IfOk result (λ id. (id ≡ length self.old)
            × (self.new ≡ self.old ++ node ∷ [])) }
        ensures refused { OnlyMemory result }
        ensures unchanged { OnErr result (self.new ≡ self.old) }
    {
        let id = NodeId::new(self.len());
        let width = self.width_from(&node);
        self.stages.push(Stage { node, width })?;
        Ok(id)
    }
}

/// A copy. Refused only if memory is refused; copying a plan with no nodes is never refused.
impl Clone for Plan {
    ghost use Rattle.std.specs.Prelude.{◌≡◌, []};

    ghost is_clone = { λ a b. b ≡ a };

    ghost is_infallible = { λ a. a ≡ [] };

    fn clone(&self) -> Result<Plan, AllocError> {
        let mut stages = Vec::with_capacity(*self.stages.allocator(), self.stages.len())?;
        for stage in &self.stages {
            let node = stage.node.clone()?;
            let width = stage.width;
            stages.push(Stage { node, width })?;
        }
        Ok(Plan { stages })
    }
}

/// Two plans are equal if and only if they have the same nodes.
impl PartialEq for Plan {
    ghost use Rattle.std.specs.Cmp.{partial_equiv_from_equiv};
    ghost use Rattle.plan.specs.NodeEquality.{same_plan, plans_equivalence};

    ghost eq = { same_plan };

    ghost laws = { partial_equiv_from_equiv plans_equivalence };

    fn eq(&self, other: &Plan) -> bool
        ensures value { result ≡ same_plan self.now other.now }
        ensures same { IsTrue result ↔ (self.now ≡ other.now) }
    {
        are_same(self, other)
    }
}

impl Eq for Plan {
    ghost use Rattle.plan.specs.NodeEquality.{plans_equivalence};

    ghost laws = { plans_equivalence };
}

// Whether both plans have the same nodes.
fn are_same(plan: &Plan, other: &Plan) -> bool
    ensures { IsTrue result ↔ (plan.now ≡ other.now) }
{
    if plan.len() != other.len() {
        return false;
    }
    for n in 0..plan.len() {
        let id = NodeId::new(n);
        if plan.node(id) != other.node(id) {
            return false;
        }
    }
    true
}

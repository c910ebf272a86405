//! Questions about the graph of a plan: who reads a node, which nodes are its ancestors, which are
//! inputs and which are views. A plan has 256 nodes at most, so no index is kept: each question
//! goes over the nodes once.
ghost use Rattle.std.specs.Prelude.{◌≡◌, ◌<◌, ◌++◌, false, length, get_or, IfOk, OnErr};
ghost use Rattle.std.specs.List.{filter, list_any};
ghost use Rattle.update.specs.Refusals.{OnlyMemory};
ghost use Rattle.plan.specs.Nodes.{sources, is_output, is_input};
ghost use Rattle.plan.specs.Ancestors.{reaches};
ghost use Rattle.plan.specs.Edges.{edges_from, leads_from, ports_of, numbers_where, is_marked};

use crate::node::{Node, NodeId};
use crate::plan::Plan;
use crate::rules::MAX_NODES;
use std::alloc::Global;
use update::Refusal;

/// An edge of a plan, named by its end: the node that reads, and the port at which it reads,
/// counted from 0.
#[derive(Clone, Copy, PartialEq, Eq)]
pub struct Edge {
    pub reader: NodeId,
    pub port: usize,
}

impl Plan {
    /// The edges that lead from a node, in the order of their readers and then of their ports. A
    /// node that reads it at both ports has two edges. Refused only with `OutOfMemory`.
    ///
    /// Cost: linear in the plan.
    pub fn edges_from(&self, alloc: Global, id: NodeId) -> Result<Vec<Edge>, Refusal>
        ensures edges { IfOk result (λ edges. edges.items ≡ edges_from self.now id) }
        ensures refused { OnlyMemory result }
    {
        let mut edges = Vec::new(alloc);
        for n in 0..self.len() {
            self.push_edges(&mut edges, id, NodeId::new(n))?;
        }
        Ok(edges)
    }

    // Appends the edges from `id` to `reader`.
    fn push_edges(&self, edges: &mut Vec<Edge>, id: NodeId, reader: NodeId) -> Result<(), Refusal>
        requires { reader < length self.now }
        ensures edges { IfOk result
            (λ _. edges.new.items
            ≡ edges.old.items ++ filter (leads_from self.now id) (ports_of reader)) }
        ensures refused { OnlyMemory result }
    {
        if self.node(reader).source(0) == Some(id) {
            edges.push(Edge { reader, port: 0 })?;
        }
        if self.node(reader).source(1) == Some(id) {
            edges.push(Edge { reader, port: 1 })?;
        }
        Ok(())
    }

    /// The inputs, in the order of their numbers. Refused only with `OutOfMemory`.
    ///
    /// Cost: linear in the plan.
    pub fn inputs(&self, alloc: Global) -> Result<Vec<NodeId>, Refusal>
        ensures inputs { IfOk result (λ ids. ids.items ≡ numbers_where is_input self.now) }
        ensures refused { OnlyMemory result }
    {
        let mut ids = Vec::new(alloc);
        for n in 0..self.len() {
            if self.node(NodeId::new(n)).is_input() {
                ids.push(NodeId::new(n))?;
            }
        }
        Ok(ids)
    }

    /// The views, in the order of their numbers. Refused only with `OutOfMemory`.
    ///
    /// Cost: linear in the plan.
    pub fn views(&self, alloc: Global) -> Result<Vec<NodeId>, Refusal>
        ensures views { IfOk result (λ ids. ids.items ≡ numbers_where is_output self.now) }
        ensures refused { OnlyMemory result }
    {
        let mut ids = Vec::new(alloc);
        for n in 0..self.len() {
            if self.node(NodeId::new(n)).is_output() {
                ids.push(NodeId::new(n))?;
            }
        }
        Ok(ids)
    }

    /// Whether the node `above` is the node `id` or one of its ancestors. Takes no memory.
    ///
    /// Cost: linear in the plan.
    pub fn reaches(&self, above: NodeId, id: NodeId) -> bool
        requires { id < length self.now }
        ensures { result ≡ reaches self.now above id }
    {
        let mut marks = [false; MAX_NODES];
        for n in 0..self.len() {
            let node = self.node(NodeId::new(n));
            marks[n] = (above.number() == n) | reads_marked(node, &marks);
        }
        marks[id.number()]
    }
}

// Whether a source of the node is marked.
fn reads_marked(node: &Node, marks: &[bool]) -> bool
    ensures { result ≡ list_any (λ source. get_or marks.now source false) (sources node.now) }
{
    is_marked(node.source(0), marks) || is_marked(node.source(1), marks)
}

// Whether there is a node and it is marked.
fn is_marked(id: Option<NodeId>, marks: &[bool]) -> bool
    ensures { result ≡ is_marked marks.now id }
{
    match id {
        Some(id) => id.number() < marks.len() && marks[id.number()],
        None => false,
    }
}

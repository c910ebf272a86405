//! A plan and its ancestors. Each question about a frontier asks of every item whether its node is
//! above another one. To answer it from the plan, one would go over the plan each time. So the
//! ancestors are found once, and an answer takes two steps into a table.
ghost use Rattle.std.specs.Prelude.{◌≡◌, ◌<◌, ◌≤◌, IfOk, IfSome, slice_get, false, get_or, length, map};
ghost use Rattle.std.specs.List.{list_any};
ghost use Rattle.update.specs.Refusals.{OnlyMemory};
ghost use Rattle.plan.specs.Ancestors.{reaches, numbers_below};
ghost use Rattle.plan.specs.Nodes.{node_at, sources};
ghost use Rattle.plan.specs.Rules.{IsPlan};
ghost use Rattle.progress.specs.Graphs.{all_ancestors, ancestors_of, table_reaches, table_reaches_some};

use plan::{Node, NodeId, Plan};
use std::alloc::Global;
use std::marker::Model;
use update::Refusal;

// By node, whether it is one fixed node or above it. A contract sees the list of these marks.
#[derive(Drop)]
struct Ancestors {
    marks: Vec<bool>,
}

impl Model for Ancestors {
    ghost use Rattle.std.specs.Prelude.{Bool, List};

    ghost Value = { List Bool };

    ghost view = { λ a. a.marks.items };
}

impl Ancestors {
    // Whether a node is marked; `false` for a number that is no node's.
    fn has(&self, node: NodeId) -> bool
        ensures { result ≡ get_or self.now node false }
    {
        match self.marks.get(node.number()) {
            Some(mark) => *mark,
            None => false,
        }
    }
}

/// A plan, and which of its nodes are above which, found once. A contract sees the plan's nodes. It
/// takes a byte for each pair of nodes.
#[derive(Drop)]
pub struct Graph {
    plan: Plan,
    // By node, its ancestors and the node itself.
    above: Vec<Ancestors>,
}

impl Model for Graph {
    ghost use Rattle.std.specs.Prelude.{List};
    ghost use Rattle.plan.specs.declared.node.Node.{Node};
    ghost use Rattle.progress.specs.Graphs.{IsGraph};

    ghost Value = { List Node };

    ghost view = { λ g. g.plan };

    ghost invariant = { λ g. IsGraph g.plan g.above.items };
}

impl Graph {
    /// The graph of a plan. Refused only with `OutOfMemory`.
    ///
    /// Cost: the square of the nodes, of which a plan has at most 256.
    pub fn of(alloc: Global, plan: Plan) -> Result<Graph, Refusal>
        ensures of { IfOk result (λ graph. graph ≡ plan) }
        ensures refused { OnlyMemory result }
    {
        let above = all_ancestors(alloc, &plan)?;
        Ok(Graph { plan, above })
    }

    /// The plan. Takes no memory.
    pub fn plan(&self) -> &Plan
        ensures { result.now ≡ self.now }
    {
        &self.plan
    }

    /// The number of nodes, at most 256. Takes no memory.
    pub fn len(&self) -> usize
        ensures len { result ≡ length self.now }
        ensures few { length self.now ≤ 256 }
        ensures plan { IsPlan self.now }
    {
        self.plan.len()
    }

    // Tells the prover that the nodes are a plan. Costs nothing.
    pub(crate) fn known(&self)
        ensures { IsPlan self.now }
    {
        let _ = &self.plan;
    }

    /// The node of a number. Takes no memory, and constant time.
    pub fn node(&self, id: NodeId) -> &Node
        requires { id < length self.now }
        ensures { result.now ≡ node_at self.now id }
    {
        self.plan.node(id)
    }

    /// The node that is read at a port; none at an input. Takes no memory, and constant time.
    pub fn source(&self, id: NodeId, port: usize) -> Option<NodeId>
        requires { id < length self.now }
        ensures source { result ≡ slice_get (sources (node_at self.now id)) port }
        ensures within { IfSome result (λ s. s < length self.now) }
    {
        let plan = &self.plan;
        plan.node(id).source(port)
    }

    /// Whether the first node is the second or an ancestor of it; `false` if the first number is no
    /// node's. Takes no memory, and constant time.
    pub fn reaches(&self, above: NodeId, node: NodeId) -> bool
        requires { node < length self.now }
        ensures { result ≡ reaches self.now above node }
    {
        tells_above(&self.above, above, node)
    }
}

// By node, its ancestors. Sources have smaller numbers, so a node's ancestors are found from those
// of the nodes before it.
fn all_ancestors(alloc: Global, plan: &Plan) -> Result<Vec<Ancestors>, Refusal>
    ensures above { IfOk result (λ above. above.items ≡ all_ancestors plan.now) }
    ensures plan { IsPlan plan.now }
    ensures refused { OnlyMemory result }
{
    let mut above = Vec::new(alloc);
    for n in 0..plan.len() {
        above.push(ancestors_of(alloc, plan, &above, NodeId::new(n))?)?;
    }
    Ok(above)
}

// The ancestors of a node, found from those of the nodes before it.
fn ancestors_of(
    alloc: Global,
    plan: &Plan,
    before: &[Ancestors],
    node: NodeId,
) -> Result<Ancestors, Refusal>
    requires node { node < length plan.now }
    requires before { before.now ≡ map (ancestors_of plan.now) (numbers_below node) }
    ensures marks { IfOk result (λ ancestors. ancestors ≡ ancestors_of plan.now node) }
    ensures refused { OnlyMemory result }
{
    let mut marks = Vec::new(alloc);
    for n in 0..plan.len() {
        let above = NodeId::new(n);
        marks.push((above == node) | reaches_sources(before, above, plan.node(node)))?;
    }
    Ok(Ancestors { marks })
}

// Whether the table marks `above` for some source of the node.
fn reaches_sources(before: &[Ancestors], above: NodeId, node: &Node) -> bool
    ensures { result ≡ list_any (table_reaches before.now above) (sources node.now) }
{
    tells_above_some(before, above, node.source(0))
        || tells_above_some(before, above, node.source(1))
}

// Whether there is a source, and the table marks `above` for it.
fn tells_above_some(before: &[Ancestors], above: NodeId, source: Option<NodeId>) -> bool
    ensures { result ≡ table_reaches_some before.now above source }
{
    match source {
        Some(source) => tells_above(before, above, source),
        None => false,
    }
}

// Whether the table has the node's ancestors and marks `above` among them.
fn tells_above(table: &[Ancestors], above: NodeId, node: NodeId) -> bool
    ensures { result ≡ table_reaches table.now above node }
{
    match table.get(node.number()) {
        Some(ancestors) => ancestors.has(above),
        None => false,
    }
}

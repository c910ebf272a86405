//! Routing: where the updates go that a node gives. This depends on the plan and the number of
//! workers alone. So the edges from each node are found once, and a cut goes only along the edges
//! of its own node. It needs no board.
ghost use Rattle.std.specs.Prelude.{◌≡◌, ◌⊎◌, ◌<◌, ◌≤◌, ◌++◌, List, None, IfErr, IfOk, OnOk, IsTrue, length, map, take};
ghost use Rattle.std.specs.List.{flat_map};
ghost use Rattle.update.specs.Refusals.{OnlyMemory};
ghost use Rattle.lattice.specs.Frontiers.{all_beyond};
ghost use Rattle.plan.specs.Edges.{edges_from, leads_from};
ghost use Rattle.plan.specs.Nodes.{arranged_by};
ghost use Rattle.plan.specs.Rules.{IsPlan};
ghost use Rattle.histories.specs.Histories.States.{update_times};
ghost use Rattle.histories.specs.Histories.Shares.{AreShares, are_filled, are_stamped};
ghost use Rattle.histories.specs.Histories.Cuts.{cut_along, cut};
ghost use Rattle.machine.specs.Boards.Routings.{all_edges};
ghost use Rattle.histories.specs.Histories.Dataflows.{IsDataflow, node_of};

use crate::board::cut::{place_at, push_for_giver, push_for_workers};
use accounts::CutEmission;
use histories::{Bundle, Emission};
use lattice::Minimum;
use plan::{Edge, NodeId, Plan};
use std::alloc::Global;
use std::marker::Model;
use std::snapshot::Snapshot;
use update::Refusal;

// The edges that lead from a node. A contract sees the list of them.
#[derive(Drop)]
struct Edges {
    items: Vec<Edge>,
}

impl Model for Edges {
    ghost use Rattle.std.specs.Prelude.{List};
    ghost use Rattle.plan.specs.declared.edges.Edge.{Edge};

    ghost Value = { List Edge };

    ghost view = { λ e. e.items.items };
}

impl Edges {
    // The edges, in the order of their readers and then of their ports.
    fn as_slice(&self) -> &[Edge]
        ensures { result.now ≡ self.now }
    {
        self.items.as_slice()
    }
}

/// Where the updates go that a node gives: the edges of a plan, and which nodes are arranged. A
/// contract sees the plan and the number of workers.
#[derive(Drop)]
pub struct Routing {
    // For clauses alone: it has no bytes.
    plan: Snapshot<Plan>,
    workers: usize,
    // By node, the edges that lead from it.
    edges: Vec<Edges>,
    // By node, the number of columns by which it is arranged; `None` for a node that is not.
    arranged: Vec<Option<usize>>,
}

impl Model for Routing {
    ghost use Rattle.histories.specs.Histories.Dataflows.{Dataflow};
    ghost use Rattle.machine.specs.Boards.Routings.{IsRouting};

    ghost Value = { Dataflow };

    ghost view = { λ r. record { nodes = r.plan.value; workers = r.workers } };

    ghost invariant = { λ r.
        IsRouting (record { nodes = r.plan.value; workers = r.workers })
        r.edges.items r.arranged.items };
}

impl Routing {
    /// The routing of a plan that this many workers run. Refused only with `OutOfMemory`.
    ///
    /// Cost: the square of the nodes, of which a plan has at most 256.
    pub fn of(alloc: Global, plan: &Plan, workers: usize) -> Result<Routing, Refusal>
        requires { 1 ≤ workers }
        ensures routing { IfOk result (λ routing.
            routing ≡ record { nodes = plan.now; workers = workers }) }
        ensures refused { OnlyMemory result }
    {
        let edges = edges_of(alloc, plan)?;
        let arranged = arranged_of(alloc, plan)?;
        Ok(Routing {
            plan: Snapshot::of(plan),
            workers,
            edges,
            arranged,
        })
    }

    /// Cuts what a worker gave into bundles. Along each edge from the node, each worker gets its
    /// share in one bundle, and no bundle is empty. A bundle's stamp is the frontier of its times.
    /// So if each time of the emission is beyond the times that the giver held, so is each stamp.
    ///
    /// Refused only if memory runs out. Then the emission comes back.
    ///
    /// Cost: for each edge from the node, linear in the updates given, and in the workers if the
    /// edge leads into an arrange node. Besides, for each bundle, the product of its updates and
    /// the elements of its stamp. Along the last edge the updates are not copied if they all go to
    /// one worker. Of no updates it makes no bundle, in constant time.
    pub fn cut<T: Minimum>(
        &self,
        alloc: Global,
        emission: Emission<T>,
    ) -> Result<CutEmission<T>, Emission<T>>
        requires { emission.worker < self.now.workers }
        ensures given { IfOk result (λ c. c.given ≡ emission) }
        ensures cut { IfOk result (λ c. c.sent ≡ cut T.times self.now emission) }
        ensures whole { IfOk result (λ c. AreShares self.now emission c.sent) }
        ensures filled { IfOk result (λ c. IsTrue (are_filled c.sent)) }
        ensures stamped { IfOk result (λ c. (held : List T)
            → IsTrue (all_beyond T.times held (update_times emission.updates))
            → IsTrue (are_stamped T.times held c.sent)) }
        ensures returned { IfErr result (λ back. back ≡ emission) }
    {
        self.known();
        self.cut_along_edges(alloc, emission)
    }

    // Costs nothing. It tells the prover that the dataflow is well formed.
    fn known(&self)
        ensures { IsDataflow self.now }
    {
        let _ = &self.workers;
    }

    // The emission with the bundles along all edges from its node.
    fn cut_along_edges<T: Minimum>(
        &self,
        alloc: Global,
        emission: Emission<T>,
    ) -> Result<CutEmission<T>, Emission<T>>
        requires { emission.worker < self.now.workers }
        ensures given { IfOk result (λ c. c.given ≡ emission) }
        ensures cut { IfOk result (λ c. c.sent ≡ cut T.times self.now emission) }
        ensures returned { IfErr result (λ back. back ≡ emission) }
    {
        if emission.updates.len() == 0 {
            return Ok(CutEmission::new(emission, Vec::new(alloc).into()));
        }
        let edges = self.edges_from(emission.node);
        let count = edges.len();
        if count == 0 {
            return Ok(CutEmission::new(emission, Vec::new(alloc).into()));
        }
        let Ok(sent) = self.cut_along_first(alloc, count - 1, &emission) else {
            return Err(emission);
        };
        self.cut_along_last(alloc, sent, &edges[count - 1], emission)
    }

    // The bundles along the first edges from the emission's node, of this number.
    fn cut_along_first<T: Minimum>(
        &self,
        alloc: Global,
        count: usize,
        emission: &Emission<T>,
    ) -> Result<Vec<Bundle<T>>, Refusal>
        requires worker { emission.now.worker < self.now.workers }
        requires count { count ≤ length (edges_from self.now.nodes emission.now.node) }
        ensures cut { IfOk result (λ sent. sent.items
            ≡ flat_map (cut_along T.times self.now emission.now)
            (take count (edges_from self.now.nodes emission.now.node))) }
        ensures refused { OnlyMemory result }
    {
        let mut sent = Vec::new(alloc);
        for edge in &self.edges_from(emission.node)[..count] {
            self.push_along(&mut sent, edge, emission)?;
        }
        Ok(sent)
    }

    // The emission with these bundles, and behind them those along the last edge from its node. If
    // all updates go to one worker there, then the list itself does.
    fn cut_along_last<T: Minimum>(
        &self,
        alloc: Global,
        mut sent: Vec<Bundle<T>>,
        edge: &Edge,
        emission: Emission<T>,
    ) -> Result<CutEmission<T>, Emission<T>>
        requires worker { emission.worker < self.now.workers }
        requires leads { IsTrue (leads_from self.now.nodes emission.node edge.now) }
        ensures given { IfOk result (λ c. c.given ≡ emission) }
        ensures cut { IfOk result (λ c. c.sent
            ≡ sent.items ++ cut_along T.times self.now emission edge.now) }
        ensures returned { IfErr result (λ back. back ≡ emission) }
    {
        if self.goes_to_one(edge) {
            let place = place_at(edge, emission.worker);
            return CutEmission::sent_to(alloc, place, sent, emission);
        }
        match self.push_along(&mut sent, edge, &emission) {
            Ok(()) => Ok(CutEmission::new(emission, sent.into())),
            Err(_refused) => Err(emission),
        }
    }

    // Whether all updates along an edge go to one worker, which is the giver: so they do if there
    // is one worker alone, or if the edge does not lead into an arrange node.
    fn goes_to_one(&self, edge: &Edge) -> bool
        requires { edge.now.reader < length self.now.nodes }
        ensures { IsTrue result → (self.now.workers ≡ 1)
            ⊎ (arranged_by (node_of self.now edge.now.reader) ≡ None) }
    {
        self.workers == 1 || self.arranged[edge.reader.number()].is_none()
    }

    // Appends the bundles along one edge from the emission's node.
    fn push_along<T: Minimum>(
        &self,
        sent: &mut Vec<Bundle<T>>,
        edge: &Edge,
        emission: &Emission<T>,
    ) -> Result<(), Refusal>
        requires worker { emission.now.worker < self.now.workers }
        requires leads { IsTrue (leads_from self.now.nodes emission.now.node edge.now) }
        ensures more { OnOk result (sent.new.items ≡ sent.old.items
            ++ cut_along T.times self.now emission.now edge.now) }
        ensures refused { OnlyMemory result }
    {
        match self.arranged[edge.reader.number()] {
            Some(columns) => push_for_workers(sent, edge, columns, self.workers, emission),
            None => push_for_giver(sent, edge, emission),
        }
    }

    // The edges that lead from a node; none if the plan has no such node.
    fn edges_from(&self, node: NodeId) -> &[Edge]
        ensures { result.now ≡ edges_from self.now.nodes node }
    {
        match self.edges.get(node.number()) {
            Some(edges) => edges.as_slice(),
            None => &[],
        }
    }
}

// By node, the edges that lead from it.
fn edges_of(alloc: Global, plan: &Plan) -> Result<Vec<Edges>, Refusal>
    ensures edges { IfOk result (λ edges. edges.items ≡ all_edges plan.now) }
    ensures plan { IsPlan plan.now }
    ensures refused { OnlyMemory result }
{
    let mut edges = Vec::new(alloc);
    for n in 0..plan.len() {
        edges.push(Edges {
            items: plan.edges_from(alloc, NodeId::new(n))?,
        })?;
    }
    Ok(edges)
}

// By node, the number of columns by which it is arranged; `None` for a node that is not.
fn arranged_of(alloc: Global, plan: &Plan) -> Result<Vec<Option<usize>>, Refusal>
    ensures arranged { IfOk result (λ columns. columns.items ≡ map arranged_by plan.now) }
    ensures refused { OnlyMemory result }
{
    let mut columns = Vec::new(alloc);
    for n in 0..plan.len() {
        columns.push(plan.node(NodeId::new(n)).arranged_by())?;
    }
    Ok(columns)
}

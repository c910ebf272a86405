//! The desk of a worker before the first event: nothing is gathered, nothing was inserted, and
//! nothing is pending.
//!
//! It is laid out node by node. The sources of a node come before it, so the arrangements that a
//! join reads are there when the join takes a hold at each of them.
ghost use Rattle.std.specs.Prelude.{◌≡◌, ◌<◌, ◌++◌, ◌∷◌, ℕ, suc, set, [], Some, IfOk, OnOk, length, slice_get};
ghost use Rattle.update.specs.Refusals.{OnlyMemory};
ghost use Rattle.plan.specs.Nodes.{node_at};
ghost use Rattle.plan.specs.declared.kind.Kind.{Kind};
ghost use Rattle.plan.specs.declared.node.Node.TheVariants.{Arrange, Join, Reduce};
ghost use Rattle.histories.specs.Histories.{initial_state};
ghost use Rattle.histories.specs.Histories.Dataflows.{Dataflow, IsDataflow};
ghost use Rattle.operator.specs.Arrangements.{ArrangementState};
ghost use Rattle.operator.specs.Joins.{JoiningView};
ghost use Rattle.operator.specs.Reductions.{ReducingView};
ghost use Rattle.desk_laws.specs.declared.hand.Hand.TheVariants.{Free};
ghost use Rattle.desk.specs.Desks.{IsRight};
ghost use Rattle.desk.specs.Openings.{HasOneMore, HasOwnHolds, IsFirstArrangement, IsFirstJoin, IsFirstReduction, IsLaidOut};

use crate::desk::Desk;
use antichain::Antichain;
use gathered::Gathered;
use lattice::Minimum;
use operator::{Arrangement, Joining, Reducing};
use plan::{Node, NodeId, Plan};
use std::alloc::Global;
use update::Refusal;

// A new arrangement of a node.
fn first_arrangement<T: Minimum>(
    alloc: Global,
    plan: &Plan,
    worker: usize,
    node: NodeId,
) -> Result<Arrangement<T>, Refusal>
    requires { node < length plan.now }
    ensures first { IfOk result
        (IsFirstArrangement T.times plan.now node) }
    ensures only { OnlyMemory result }
{
    let made = Arrangement::new(alloc, worker, node.number(), plan.width(node), 0)?;
    Ok(made)
}

// A new arrangement, if the node is an arrange node.
fn arrangement_of<T: Minimum>(
    alloc: Global,
    plan: &Plan,
    worker: usize,
    node: NodeId,
) -> Result<Option<Arrangement<T>>, Refusal>
    requires { node < length plan.now }
    ensures made { (s key : ℕ) → node_at plan.now node ≡ Arrange s key
        → IfOk result (λ made. (a : ArrangementState T) × (made ≡ Some a)
        × IsFirstArrangement T.times plan.now node a) }
    ensures only { OnlyMemory result }
{
    match plan.node(node) {
        Node::Arrange { .. } => {
            let made = first_arrangement(alloc, plan, worker, node)?;
            Ok(Some(made))
        }
        _ => Ok(None),
    }
}

// A new reduction, if the node is one.
fn reduction_of<T: Minimum>(alloc: Global, plan: &Plan, node: NodeId) -> Option<Reducing<T>>
    requires { node < length plan.now }
    ensures { (kind : Kind) (s : ℕ) → node_at plan.now node ≡ Reduce kind s
        → (r : ReducingView T) × (result ≡ Some r)
        × IsFirstReduction T.times plan.now node kind s r }
{
    plan.known();
    match plan.node(node) {
        Node::Reduce { kind, source } => Some(Reducing::new(
            alloc,
            plan.key_width(node),
            *kind,
            plan.width(*source),
        )),
        _ => None,
    }
}

// One more hold at an arrangement, and its number.
fn add_reader_to<T: Minimum>(
    alloc: Global,
    arrangement: &mut Arrangement<T>,
) -> Result<usize, Refusal>
    ensures number { IfOk result
        (λ number. (number ≡ length arrangement.old.holds) × (0 < number)) }
    ensures more { OnOk result (HasOneMore T.times arrangement.old arrangement.new) }
    ensures only { OnlyMemory result }
{
    let number = arrangement.add_reader(alloc)?;
    Ok(number)
}

// One more hold at the arrangement of a node, and its number.
fn add_reader_at<T: Minimum>(
    alloc: Global,
    arrangements: &mut Vec<Option<Arrangement<T>>>,
    node: NodeId,
) -> Result<usize, Refusal>
    requires { (a : ArrangementState T) × (slice_get arrangements.old.items node ≡ Some (Some a)) }
    ensures added { (a : ArrangementState T) → slice_get arrangements.old.items node ≡ Some (Some a)
        → IfOk result (λ number. (number ≡ length a.holds) × (0 < number)
        × (b : ArrangementState T) × (arrangements.new.items
        ≡ set arrangements.old.items node (Some b)) × HasOneMore T.times a b) }
    ensures only { OnlyMemory result }
{
    match &mut arrangements[node.number()] {
        Some(arrangement) => add_reader_to(alloc, arrangement),
        None => unreachable!(),
    }
}

impl<T: Minimum> Desk<T> {
    /// The desk of a worker of a plan, before the first event: nothing waits, nothing was inserted,
    /// and nothing is pending. [`Refusal::OutOfMemory`] only if memory for holds and frontiers was
    /// refused.
    ///
    /// Cost: linear in the plan.
    pub fn new(alloc: Global, plan: &Plan, worker: usize) -> Result<Desk<T>, Refusal>
        ensures right { IfOk result (λ desk. (p : Dataflow) → IsDataflow p → p.nodes ≡ plan.now
            → worker < p.workers → IsRight T.times p
            (initial_state T.times p) worker desk Free) }
        ensures only { OnlyMemory result }
    {
        plan.known();
        let mut desk = Desk::empty(alloc);
        for n in 0..plan.len() {
            desk.lay_out(alloc, plan, worker, NodeId::new(n))?;
        }
        Ok(desk)
    }

    // A desk on which nothing lies yet.
    fn empty(alloc: Global) -> Desk<T>
        ensures { result
            ≡ record { gathered = []; arrangements = []; joins = []; reductions = [] } }
    {
        Desk {
            gathered: Vec::new(alloc),
            arrangements: Vec::new(alloc),
            joins: Vec::new(alloc),
            reductions: Vec::new(alloc),
            start: Antichain::from_elem(alloc, T::minimum()),
        }
    }

    // Lays out what the worker keeps at one more node.
    fn lay_out(
        &mut self,
        alloc: Global,
        plan: &Plan,
        worker: usize,
        node: NodeId,
    ) -> Result<(), Refusal>
        requires within { node < length plan.now }
        requires before { IsLaidOut T.times plan.now self.old node }
        ensures laid_out { OnOk result
            (IsLaidOut T.times plan.now self.new (suc node)) }
        ensures only { OnlyMemory result }
    {
        let arrangement = arrangement_of(alloc, plan, worker, node)?;
        let reduction = reduction_of(alloc, plan, node);
        let join = self.join_of(alloc, plan, node)?;
        self.put(alloc, arrangement, join, reduction)
    }

    // Puts these down for the next node.
    fn put(
        &mut self,
        alloc: Global,
        arrangement: Option<Arrangement<T>>,
        join: Option<Joining<T>>,
        reduction: Option<Reducing<T>>,
    ) -> Result<(), Refusal>
        ensures put { OnOk result (self.new ≡ record {
          gathered = self.old.gathered ++ [] ∷ [];
          arrangements = self.old.arrangements ++ arrangement ∷ [];
          joins = self.old.joins ++ join ∷ [];
          reductions = self.old.reductions ++ reduction ∷ [];
        }) }
        ensures only { OnlyMemory result }
    {
        self.gathered.push(Gathered::new(alloc))?;
        self.arrangements.push(arrangement)?;
        self.joins.push(join)?;
        self.reductions.push(reduction)?;
        Ok(())
    }

    // A new join, if the node is one, with a hold at the arrangement of each of its sources.
    fn join_of(
        &mut self,
        alloc: Global,
        plan: &Plan,
        node: NodeId,
    ) -> Result<Option<Joining<T>>, Refusal>
        requires within { node < length plan.now }
        requires before { IsLaidOut T.times plan.now self.old node }
        ensures laid_out { OnOk result (IsLaidOut T.times plan.now self.new node) }
        ensures made { (l r : ℕ) → node_at plan.now node ≡ Join l r
            → IfOk result (λ made. (j : JoiningView T) × (made ≡ Some j)
            × IsFirstJoin T.times plan.now node l r j
            × HasOwnHolds T.times plan.now self.new l r j) }
        ensures only { OnlyMemory result }
    {
        match plan.node(node) {
            Node::Join { left, right } => {
                let made = self.first_join(alloc, plan, node, *left, *right)?;
                Ok(Some(made))
            }
            _ => Ok(None),
        }
    }

    // A new join of these sources.
    fn first_join(
        &mut self,
        alloc: Global,
        plan: &Plan,
        node: NodeId,
        left: NodeId,
        right: NodeId,
    ) -> Result<Joining<T>, Refusal>
        requires within { node < length plan.now }
        requires join { node_at plan.now node ≡ Join left right }
        requires before { IsLaidOut T.times plan.now self.old node }
        ensures laid_out { OnOk result (IsLaidOut T.times plan.now self.new node) }
        ensures made { IfOk result (λ j.
            IsFirstJoin T.times plan.now node left right j
            × HasOwnHolds T.times plan.now self.new left right j) }
        ensures only { OnlyMemory result }
    {
        plan.known();
        let left_hold = add_reader_at(alloc, &mut self.arrangements, left)?;
        let right_hold = add_reader_at(alloc, &mut self.arrangements, right)?;
        let key = plan.key_width(node);
        let left_width = plan.width(left);
        let right_width = plan.width(right);
        Joining::new(alloc, key, left_width, right_width, left_hold, right_hold)
    }
}

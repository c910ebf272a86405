//! Between two steps a worker may tidy its desk. No answer changes by that, and nobody else
//! notices.
//!
//! The worker enters the board once, to see how far its ports have come: one look. Then holds move
//! on its desk, and spines merge. A worker that never tidies keeps in its spines each boundary at
//! which a batch ended, and each update apart.
ghost use Rattle.std.specs.Prelude.{◌≡◌, ◌<◌, Err, None, true, false, All, IfErr, IfOk, IfSome, IsTrue, OnOk, Some, length};
ghost use Rattle.update.specs.Refusals.{OnlyMemory};
ghost use Rattle.update.specs.declared.refusal.Refusal.TheVariants.{Failed};
ghost use Rattle.plan.specs.Nodes.{node_at};
ghost use Rattle.desk.specs.Upkeep.{AreTold, holds_elsewhere};
ghost use Rattle.desk_laws.specs.Own.{DeskView};
ghost use Rattle.desk_laws.specs.declared.hand.Hand.TheVariants.{Free};
ghost use Rattle.histories.specs.declared.event.Site.{Site};
ghost use Rattle.shared_board.specs.Found.{dataflow_of};
ghost use Rattle.shared_board.specs.Ports.{AreWithin};
ghost use Rattle.shared_board.specs.Tenures.{state_left};
ghost use Rattle.steps.specs.Steps.{ArePorts, IsTidyFor, IsTidyRefusal, LooksAtMost};
ghost use Rattle.steps.specs.Workers.{IsRightOf};

use crate::worker::Worker;
use antichain::Antichain;
use lattice::Minimum;
use machine::Site;
use plan::{Node, NodeId, Plan};
use shared_board::{Actor, BoardProtocol};
use std::alloc::Global;
use update::Refusal;

// The node whose ports are asked about where the list has those of this one. A node that is neither
// a join nor a reduction has no hold, so what its ports answer is not read. For it that is the last
// node: each question makes the board keep the node's frontiers up to date from then on, and a plan
// mostly ends with a view, whose frontier its readers ask about anyway.
fn asked(plan: &Plan, node: NodeId) -> NodeId
    requires { node < length plan.now }
    ensures within { result < length plan.now }
    ensures own { IsTrue (holds_elsewhere (node_at plan.now node)) → result ≡ node }
{
    match plan.node(node) {
        Node::Join { .. } | Node::Reduce { .. } => node,
        _ => NodeId::new(plan.len() - 1),
    }
}

// Two ports for each node, in the order of the nodes. Of a worker they name the first: it is not
// read.
pub(crate) fn ports_of(alloc: Global, plan: &Plan) -> Result<Vec<Site>, Refusal>
    ensures within { IfOk result
        (λ ports. All (λ (site : Site). site.node < length plan.now) ports.items) }
    ensures ports { IfOk result (λ ports. ArePorts plan.now (length plan.now) ports.items) }
    ensures only { OnlyMemory result }
{
    let mut ports = Vec::new(alloc);
    for n in 0..plan.len() {
        let node = asked(plan, NodeId::new(n));
        ports.push(Site {
            node,
            port: 0,
            worker: 0,
        })?;
        ports.push(Site {
            node,
            port: 1,
            worker: 0,
        })?;
    }
    Ok(ports)
}

// The frontiers of these ports as they are on the board now, in one look; `None` if another actor
// has it. They are all ports of the plan, two for each node.
pub(crate) fn find_fronts<T: Minimum, P: BoardProtocol<T>>(
    actor: &mut Actor<T, P>,
    ports: &[Site],
) -> Result<Option<Vec<Antichain<T>>>, Refusal>
    requires within { AreWithin (dataflow_of actor.old) ports.now }
    requires ports { ArePorts (dataflow_of actor.old).nodes
        (length (dataflow_of actor.old).nodes) ports.now }
    ensures right { (d : DeskView T) → IsRightOf T.times actor.old d Free
        → IsRightOf T.times actor.new d Free }
    ensures looked { LooksAtMost actor.old actor.new }
    ensures told { IfOk result (λ found. IfSome found (λ fronts. AreTold T.times
        (dataflow_of actor.new) (state_left T.times actor.new) fronts.items)) }
    ensures only { OnlyMemory result }
{
    let found = actor.try_port_frontiers(ports);
    actor.known();
    match found {
        Some(Ok(fronts)) => Ok(Some(fronts)),
        Some(Err(refusal)) => Err(refusal),
        None => Ok(None),
    }
}

impl<T: Minimum, P: BoardProtocol<T>> Worker<T, P> {
    /// Looks at the board, moves each hold to where its reader has come and to the times that the
    /// reader still needs, and lets each spine merge with so much fuel, one unit for each update
    /// that is copied ([`desk::Desk::tidy`]). True only if all is merged that may be. If another
    /// actor has the board, or with a piece in hand, nothing is done, and the answer is false.
    ///
    /// - [`Refusal::Failed`] only if an earlier call was refused with `Overflow`, and then always.
    /// - [`Refusal::Overflow`] only if, with the changes that the worker has seen, some node has no
    ///   bound below 2^63. It has failed then.
    /// - [`Refusal::OutOfMemory`] only if memory was refused. Some may have been merged, and some
    ///   holds moved.
    ///
    /// Cost: that of a question for the input frontier of each port of a join or a reduction, and
    /// that of [`desk::Desk::tidy`]. The board then keeps the frontiers of these nodes, and of the
    /// last one, so each event above them costs a comparison for each of them more.
    pub fn tidy(&mut self, alloc: Global, fuel: u64) -> Result<bool, Refusal>
        ensures known { LooksAtMost self.old.known self.new.known }
        ensures hand { self.new.hand ≡ self.old.hand }
        ensures going { OnOk result (self.new.failed ≡ false) }
        ensures tidy { IfOk result (λ done. done ≡ true → IsTidyFor T.times self.new) }
        ensures refused { IfErr result
            (IsTidyRefusal T.times T.cmp self.old self.new) }
        ensures failed { IsTrue self.old.failed → (result ≡ Err Failed) }
    {
        if self.has_failed() {
            return Err(Refusal::Failed);
        }
        if self.node().is_some() {
            return Ok(false);
        }
        match self.find_fronts(alloc)? {
            Some(fronts) => self.tidy_desk(alloc, fronts.as_slice(), fuel),
            None => Ok(false),
        }
    }
}

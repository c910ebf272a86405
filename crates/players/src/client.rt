//! The client of a session, who knows the plan.
//!
//! Its calls ask for a node that is an input or a view. That is tested here, so a test need not be
//! proved to name one: any other node is refused with `UnknownName`. All else is as the session's
//! client answers it ([`session::Client`]): one tenure for each call, for which it waits.
ghost use Rattle.std.specs.Prelude.{◌≡◌, ◌<◌, IsTrue, length};
ghost use Rattle.std.specs.Bool.{OnTrue};
ghost use Rattle.plan.specs.Nodes.{is_input, is_output, node_at};
ghost use Rattle.shared_board.specs.Tenures.{opening_in};

use antichain::Antichain;
use lattice::Minimum;
use plan::{NodeId, Plan};
use session::Client as Caller;
use shared_board::BoardProtocol;
use std::alloc::Global;
use std::sync::Wait;
use update::{Bag, Refusal, Update};

/// The client of a session. It makes each call by the twin that waits, or by the one that does not.
#[derive(Drop)]
pub struct Client<T: Minimum, P: BoardProtocol<T>> {
    alloc: Global,
    client: Caller<T, P>,
    plan: Plan,
    waits: bool,
    ghost knows: { (opening_in client.seen).dataflow.nodes ≡ plan },
}

// Whether the node is an input of the plan.
fn is_input(plan: &Plan, id: NodeId) -> bool
    ensures { OnTrue result ((id < length plan.now) × IsTrue (is_input (node_at plan.now id))) }
{
    id.number() < plan.len() && plan.node(id).is_input()
}

// Whether the node is a view of the plan.
fn is_view(plan: &Plan, id: NodeId) -> bool
    ensures { OnTrue result ((id < length plan.now) × IsTrue (is_output (node_at plan.now id))) }
{
    id.number() < plan.len() && plan.node(id).is_output()
}

impl<T: Minimum, P: BoardProtocol<T>> Client<T, P> {
    /// The client of a session of this plan. It waits in each call.
    pub fn new(alloc: Global, client: Caller<T, P>, plan: Plan) -> Client<T, P>
        requires knows { (opening_in client.seen).dataflow.nodes ≡ plan }
    {
        Client {
            alloc,
            client,
            plan,
            waits: true,
        }
    }

    /// From now on it waits in each call, or in none.
    pub fn set_waiting(&mut self, waits: bool) {
        self.waits = waits;
    }

    /// Feeds a change.
    pub fn feed<R: Wait>(
        &mut self,
        rt: &R,
        input: NodeId,
        update: Update<T>,
    ) -> Result<(), Refusal> {
        if !is_input(&self.plan, input) {
            return Err(Refusal::UnknownName);
        }
        let Update { time, row, diff } = update;
        let columns = row.columns();
        if self.waits {
            return self
                .client
                .feed_wait(rt, self.alloc, input, columns, time, diff);
        }
        self.client.feed(self.alloc, input, columns, time, diff)
    }

    /// Moves the frontier of an input.
    pub fn advance<R: Wait>(
        &mut self,
        rt: &R,
        input: NodeId,
        frontier: &Antichain<T>,
    ) -> Result<(), Refusal> {
        if !is_input(&self.plan, input) {
            return Err(Refusal::UnknownName);
        }
        if self.waits {
            return self.client.advance_wait(rt, input, frontier);
        }
        self.client.advance(input, frontier)
    }

    /// The frontier of a view.
    pub fn frontier<R: Wait>(&mut self, rt: &R, view: NodeId) -> Result<Antichain<T>, Refusal> {
        if !is_view(&self.plan, view) {
            return Err(Refusal::UnknownName);
        }
        if self.waits {
            return self.client.probe_wait(rt, view);
        }
        self.client.probe(view)
    }

    /// The rows of a view at a time.
    pub fn read<R: Wait>(&mut self, rt: &R, view: NodeId, time: T) -> Result<Bag, Refusal> {
        if !is_view(&self.plan, view) {
            return Err(Refusal::UnknownName);
        }
        if self.waits {
            return self.client.read_wait(rt, view, time);
        }
        self.client.read(view, time)
    }

    /// The changes of a view.
    pub fn changes<R: Wait>(&mut self, rt: &R, view: NodeId) -> Result<Vec<Update<T>>, Refusal> {
        if !is_view(&self.plan, view) {
            return Err(Refusal::UnknownName);
        }
        if self.waits {
            return self.client.changes_wait(rt, view);
        }
        self.client.changes(view)
    }

    /// Whether all that was fed has reached the views.
    pub fn is_quiet<R: Wait>(&mut self, rt: &R) -> Result<bool, Refusal> {
        if self.waits {
            return Ok(self.client.quiet_wait(rt));
        }
        self.client.quiet()
    }
}

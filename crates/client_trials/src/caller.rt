//! Clients of a session, who know the plan: an input of one column, a view of it, and a view of how
//! often each row is there. So a test need not say which node it means, and no call asks for one
//! that is not there.
ghost use Rattle.std.specs.Prelude.{◌≡◌, IfOk};
ghost use Rattle.shared_board.specs.Tenures.{opening_in};
ghost use Rattle.client_trials.specs.Plans.{counted_rows};

use antichain::Antichain;
use lattice::Bitime;
use plan::{Kind, Node, NodeId, Plan, PlanBuilder};
use session::{Client, open};
use shared_board::BitemporalBoards;
use std::alloc::Global;
use std::sync::Wait;
use steps::Worker;
use update::{Bag, Refusal, Update};

/// The workers of a session.
pub(crate) type Crew = Vec<Worker<Bitime, BitemporalBoards>>;

// The plan of an input of one column, a view of it, and a view of its counts.
fn viewed(alloc: Global) -> Result<Plan, Refusal>
    ensures { IfOk result (λ plan. plan ≡ counted_rows) }
{
    let mut builder = PlanBuilder::new(alloc);
    builder.add(Node::Input { width: 1 })?;
    builder.add(Node::Output {
        source: NodeId::new(0),
    })?;
    builder.add(Node::Arrange {
        source: NodeId::new(0),
        key: 1,
    })?;
    builder.add(Node::Reduce {
        kind: Kind::Count,
        source: NodeId::new(2),
    })?;
    builder.add(Node::Output {
        source: NodeId::new(3),
    })?;
    Ok(builder.finish())
}

// A client of that board, who knows the plan. It makes each call without waiting, or by its twin
// that waits.
#[derive(Drop)]
pub(crate) struct Caller {
    client: Client<Bitime, BitemporalBoards>,
    pub(crate) waits: bool,
    ghost knows: { (opening_in client.seen).dataflow.nodes ≡ counted_rows },
}

impl Caller {
    pub(crate) fn feed<R: Wait>(
        &mut self,
        rt: &R,
        alloc: Global,
        columns: &[i64],
        time: Bitime,
        diff: i64,
    ) -> Result<(), Refusal> {
        let input = NodeId::new(0);
        if self.waits {
            return self.client.feed_wait(rt, alloc, input, columns, time, diff);
        }
        self.client.feed(alloc, input, columns, time, diff)
    }

    pub(crate) fn advance<R: Wait>(
        &mut self,
        rt: &R,
        alloc: Global,
        time: Bitime,
    ) -> Result<(), Refusal> {
        let frontier = Antichain::from_elem(alloc, time);
        if self.waits {
            return self.client.advance_wait(rt, NodeId::new(0), &frontier);
        }
        self.client.advance(NodeId::new(0), &frontier)
    }

    pub(crate) fn close_input<R: Wait>(&mut self, rt: &R) -> Result<(), Refusal> {
        if self.waits {
            self.client.close_input_wait(rt, NodeId::new(0));
            return Ok(());
        }
        self.client.close_input(NodeId::new(0))
    }

    pub(crate) fn allow<R: Wait>(
        &mut self,
        rt: &R,
        alloc: Global,
        time: Bitime,
    ) -> Result<(), Refusal> {
        let frontier = Antichain::from_elem(alloc, time);
        if self.waits {
            return self.client.allow_wait(rt, NodeId::new(1), &frontier);
        }
        self.client.allow(NodeId::new(1), &frontier)
    }

    pub(crate) fn probe<R: Wait>(&mut self, rt: &R) -> Result<Antichain<Bitime>, Refusal> {
        if self.waits {
            return self.client.probe_wait(rt, NodeId::new(1));
        }
        self.client.probe(NodeId::new(1))
    }

    pub(crate) fn read<R: Wait>(&mut self, rt: &R, time: Bitime) -> Result<Bag, Refusal> {
        if self.waits {
            return self.client.read_wait(rt, NodeId::new(1), time);
        }
        self.client.read(NodeId::new(1), time)
    }

    pub(crate) fn read_counts<R: Wait>(&mut self, rt: &R, time: Bitime) -> Result<Bag, Refusal> {
        if self.waits {
            return self.client.read_wait(rt, NodeId::new(4), time);
        }
        self.client.read(NodeId::new(4), time)
    }

    pub(crate) fn changes<R: Wait>(&mut self, rt: &R) -> Result<Vec<Update<Bitime>>, Refusal> {
        if self.waits {
            return self.client.changes_wait(rt, NodeId::new(1));
        }
        self.client.changes(NodeId::new(1))
    }

    pub(crate) fn quiet<R: Wait>(&mut self, rt: &R) -> Result<bool, Refusal> {
        if self.waits {
            return Ok(self.client.quiet_wait(rt));
        }
        self.client.quiet()
    }

    pub(crate) fn is_too_large<R: Wait>(&mut self, rt: &R) -> Result<bool, Refusal> {
        if self.waits {
            return Ok(self.client.is_too_large_wait(rt));
        }
        self.client.is_too_large()
    }
}

/// Opens a session of the plan. The workers are the crew then.
pub(crate) fn callers<R: Wait>(
    rt: &R,
    alloc: Global,
    workers: usize,
    clients: usize,
    crew: &mut Crew,
) -> Result<Vec<Caller>, Refusal> {
    let plan = viewed(alloc)?;
    let seats = open(rt, alloc, &plan, workers, clients, crew)?;
    let mut callers = Vec::new(alloc);
    for client in seats {
        callers.push(Caller {
            client,
            waits: false,
        })?;
    }
    Ok(callers)
}

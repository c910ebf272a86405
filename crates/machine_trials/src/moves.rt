//! What clients and workers do in several of these trials: one call of a board each. The asserts
//! show what the call requires. The first node of each plan is an input of one column.
use lattice::Bitime;
use machine::{Board, Emission, Routing, Site};
use plan::NodeId;
use row::Row;
use std::alloc::Global;
use std::process::Abort;
use trials::sketches::at;
use update::{Refusal, Times, Update};

// The client's number, which is greater than those of the workers.
const CLIENT: usize = 7;

// Feeds a row at a time.
pub(crate) fn fed(
    rt: &impl Abort,
    alloc: Global,
    board: &mut Board<Bitime>,
    value: i64,
    time: (u64, u64),
) -> Result<(), Refusal> {
    let input = NodeId::new(0);
    let there = input.number() < board.plan().len();
    assert!(rt; there);
    let is_input = board.plan().node(input).is_input();
    assert!(rt; is_input);
    let is_client = board.workers() <= CLIENT;
    assert!(rt; is_client);
    let update = Update {
        time: at(time),
        row: Row::new(alloc, &[value])?,
        diff: 1,
    };
    board.feed(CLIENT, input, update)
}

// Moves the frontier of the input to a time.
pub(crate) fn advanced(
    rt: &impl Abort,
    board: &mut Board<Bitime>,
    time: (u64, u64),
) -> Result<(), Refusal> {
    let input = NodeId::new(0);
    let there = input.number() < board.plan().len();
    assert!(rt; there);
    let is_input = board.plan().node(input).is_input();
    assert!(rt; is_input);
    let is_client = board.workers() <= CLIENT;
    assert!(rt; is_client);
    board.advance(CLIENT, input, &[at(time)])
}

// Worker 0 gives this, and holds these times at the node from then on.
pub(crate) fn gave(
    rt: &impl Abort,
    alloc: Global,
    board: &mut Board<Bitime>,
    given: Emission<Bitime>,
    held: Times<Bitime>,
) -> Result<(), Refusal> {
    board.known();
    let there = given.node.number() < board.plan().len() && given.worker == 0;
    assert!(rt; there);
    let routing = Routing::of(alloc, board.plan(), board.workers())?;
    let Ok(cut) = routing.cut(alloc, given) else {
        return Err(Refusal::OutOfMemory);
    };
    match board.give(cut, held) {
        Ok(()) => Ok(()),
        Err(_ungiven) => Err(Refusal::OutOfMemory),
    }
}

// Worker 0 takes the first bundle that waits at the first port of a node, and gives its updates
// there.
pub(crate) fn passed_on(
    rt: &impl Abort,
    alloc: Global,
    board: &mut Board<Bitime>,
    node: usize,
) -> Result<(), Refusal> {
    let site = Site {
        node: NodeId::new(node),
        port: 0,
        worker: 0,
    };
    let waits = board.waiting(&site) > 0;
    assert!(rt; waits);
    board.known();
    let is_free = board.in_hand(0).is_none();
    assert!(rt; is_free);
    let bundle = board.take(site, 0)?;
    let given = Emission {
        node: NodeId::new(node),
        worker: 0,
        updates: bundle.updates,
    };
    gave(rt, alloc, board, given, Vec::new(alloc).into())
}

//! Boards and routings: their calls succeed if there is memory, and after a refusal once there is.
ghost use Rattle.std.specs.Prelude.{◌<◌, IsTrue, length};
ghost use Rattle.plan.specs.Nodes.{is_output};
ghost use Rattle.histories.specs.Histories.Dataflows.{node_of};

use lattice::Bitime;
use machine::{Board, CutEmission, Emission, Routing};
use plan::NodeId;
use row::Row;
use std::alloc::Global;
use std::process::Abort;
use std::test::Fail;
use trials::sketches::{arrange, at, built, input, list, view};
use update::{Refusal, Update};

// The client's number, which is greater than those of the workers.
const CLIENT: usize = 7;

// A board for two workers, with one input of one column and a view of it.
fn opened(alloc: Global) -> Result<Board<Bitime>, Refusal> {
    Board::open(alloc, built(alloc, &[input(1), view(0)])?, 2)
}

// Feeds the row 7 at (0, 0). The asserts show that the first node is an input and that the client
// is not a worker, as `feed` requires.
fn fed(rt: &impl Abort, alloc: Global, board: &mut Board<Bitime>) -> Result<(), Refusal> {
    let input = NodeId::new(0);
    let there = input.number() < board.plan().len();
    assert!(rt; there);
    let is_input = board.plan().node(input).is_input();
    assert!(rt; is_input);
    let is_client = board.workers() <= CLIENT;
    assert!(rt; is_client);
    let update = Update {
        time: at((0, 0)),
        row: Row::new(alloc, &[7])?,
        diff: 1,
    };
    board.feed(CLIENT, input, update)
}

// Moves the frontier of the input to one time.
fn advanced(rt: &impl Abort, board: &mut Board<Bitime>, time: (u64, u64)) -> Result<(), Refusal> {
    let input = NodeId::new(0);
    let there = input.number() < board.plan().len();
    assert!(rt; there);
    let is_input = board.plan().node(input).is_input();
    assert!(rt; is_input);
    let is_client = board.workers() <= CLIENT;
    assert!(rt; is_client);
    board.advance(CLIENT, input, &[at(time)])
}

// The view. The asserts show that it is one, as questions require.
fn the_view(rt: &impl Abort, board: &Board<Bitime>) -> NodeId
    ensures within { result < length board.now.dataflow.nodes }
    ensures view { IsTrue (is_output (node_of board.now.dataflow result)) }
{
    let view = NodeId::new(1);
    let there = view.number() < board.plan().len();
    assert!(rt; there);
    let is_view = board.plan().node(view).is_output();
    assert!(rt; is_view);
    view
}

// Readers of the view give up all times that are not at or after this one.
fn allowed(rt: &impl Abort, board: &mut Board<Bitime>, time: (u64, u64)) -> Result<(), Refusal> {
    let view = the_view(rt, board);
    let is_client = board.workers() <= CLIENT;
    assert!(rt; is_client);
    board.allow(CLIENT, view, &[at(time)])
}

// How many rows the view has at a time.
fn rows_at(rt: &impl Abort, board: &mut Board<Bitime>, time: (u64, u64)) -> Result<usize, Refusal> {
    let view = the_view(rt, board);
    let bag = board.read(view, at(time))?;
    Ok(bag.len())
}

// How many changes the view has.
fn changes_of(rt: &impl Abort, board: &mut Board<Bitime>) -> Result<usize, Refusal> {
    let view = the_view(rt, board);
    let changes = board.changes(view)?;
    Ok(changes.len())
}

// Readers give up the times before (4, 4) of a view that has passed all times before (9, 9). Then
// they may not come back, and may ask only at times that are passed and not given up.
fn is_given_up(rt: &impl Abort, alloc: Global, board: &mut Board<Bitime>) -> Result<bool, Refusal> {
    advanced(rt, board, (9, 9))?;
    allowed(rt, board, (4, 4))?;
    let before = rows_at(rt, board, (3, 3)) == Err(Refusal::GivenUp);
    let apart = rows_at(rt, board, (3, 8)) == Err(Refusal::GivenUp);
    let at_it = rows_at(rt, board, (4, 4))? == 0;
    let open = rows_at(rt, board, (9, 9)) == Err(Refusal::NotPassed);
    let listed = changes_of(rt, board) == Err(Refusal::GivenUp);
    Ok(before && apart && at_it && open && listed)
}

// Asks for the view's frontier and changes. If nothing was fed, the frontier has one time and there
// are no changes.
fn is_answered(rt: &impl Abort, board: &mut Board<Bitime>) -> Result<bool, Refusal> {
    let view = NodeId::new(1);
    let there = view.number() < board.plan().len();
    assert!(rt; there);
    let is_view = board.plan().node(view).is_output();
    assert!(rt; is_view);
    let frontier = board.frontier(view)?;
    let changes = board.changes(view)?;
    Ok(frontier.len() == 1 && changes.is_empty())
}

#[test]
fn boards_take_memory(rt: HostRuntime) -> Result<(), Fail> {
    let alloc = rt.alloc();
    let mut board = match opened(alloc) {
        Err(Refusal::OutOfMemory) => opened(alloc)?,
        done => done?,
    };
    match fed(&rt, alloc, &mut board) {
        Err(Refusal::OutOfMemory) => fed(&rt, alloc, &mut board)?,
        done => done?,
    }
    match advanced(&rt, &mut board, (0, 1)) {
        Err(Refusal::OutOfMemory) => advanced(&rt, &mut board, (0, 1))?,
        done => done?,
    }
    assert_eq!(rt; fed(&rt, alloc, &mut board), Err(Refusal::TimePassed));
    Ok(())
}

#[test]
fn answers_take_memory(rt: HostRuntime) -> Result<(), Fail> {
    let mut board = match opened(rt.alloc()) {
        Err(Refusal::OutOfMemory) => opened(rt.alloc())?,
        done => done?,
    };
    let answered = match is_answered(&rt, &mut board) {
        Err(Refusal::OutOfMemory) => is_answered(&rt, &mut board)?,
        done => done?,
    };
    assert!(rt; answered && board.is_quiet());
    Ok(())
}

#[test]
fn giving_up_times_takes_memory(rt: HostRuntime) -> Result<(), Fail> {
    let alloc = rt.alloc();
    let mut board = match opened(alloc) {
        Err(Refusal::OutOfMemory) => opened(alloc)?,
        done => done?,
    };
    let given_up = match is_given_up(&rt, alloc, &mut board) {
        Err(Refusal::OutOfMemory) => is_given_up(&rt, alloc, &mut board)?,
        done => done?,
    };
    assert!(rt; given_up);
    assert_eq!(rt; allowed(&rt, &mut board, (3, 9)), Err(Refusal::NotForward));
    Ok(())
}

// The rows 7 and 4, given by worker 0 of two at an input, cut for the input's readers. These are an
// arrange node, which sends each row to a different worker, and a view.
fn cut(alloc: Global) -> Result<CutEmission<Bitime>, Refusal> {
    let plan = built(alloc, &[input(1), arrange(0, 1), view(0)])?;
    let routing = Routing::of(alloc, &plan, 2)?;
    let updates = list(alloc, &[((0, 0), &[7], 1), ((0, 1), &[4], 1)])?;
    let emission = Emission {
        node: NodeId::new(0),
        worker: 0,
        updates: updates.into(),
    };
    match routing.cut(alloc, emission) {
        Ok(cut) => Ok(cut),
        Err(_emission) => Err(Refusal::OutOfMemory),
    }
}

#[test]
fn cuts_take_memory(rt: HostRuntime) -> Result<(), Fail> {
    let alloc = rt.alloc();
    let cut = match cut(alloc) {
        Err(Refusal::OutOfMemory) => cut(alloc)?,
        done => done?,
    };
    assert!(rt; cut.node() == NodeId::new(0) && cut.worker() == 0 && cut.updates().len() == 2);
    Ok(())
}

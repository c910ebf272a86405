//! One worker of two goes on as far as it can. What waits for the other keeps the frontier of the
//! view back, and nothing else does: so the view is right at every pair that this leaves passed,
//! also where it cannot be compared with what waits.
ghost use Rattle.std.specs.Prelude.{◌≡◌, ◌<◌, None, IsTrue, get_or, length};
ghost use Rattle.plan.specs.Nodes.{is_output};
ghost use Rattle.histories.specs.Histories.Dataflows.{node_of};
ghost use Rattle.machine.specs.Boards.Pieces.{IsPiece};

use crate::moves::{advanced, fed, gave};
use lattice::{Bitime, Minimum};
use machine::{Board, Bundle, Emission, Piece};
use plan::NodeId;
use row::Row;
use std::alloc::Global;
use std::process::Abort;
use std::test::Fail;
use trials::sketches::{at, built, input, view};
use update::Refusal;

// A board for two workers, with one input of one column and a view of it. The row 0 goes to worker
// 0, and the row 1 to worker 1.
fn prepared(rt: &impl Abort, alloc: Global) -> Result<Board<Bitime>, Refusal> {
    let mut board = Board::open(alloc, built(alloc, &[input(1), view(0)])?, 2)?;
    fed(rt, alloc, &mut board, 0, (0, 0))?;
    fed(rt, alloc, &mut board, 1, (1, 0))?;
    advanced(rt, &mut board, (2, 0))?;
    Ok(board)
}

// Takes the bundle of a piece that a worker was told; none if the piece is what it holds.
fn taken<T: Minimum>(
    board: &mut Board<T>,
    worker: usize,
    piece: &Piece,
) -> Result<Option<Bundle<T>>, Refusal>
    requires worker { worker < board.old.dataflow.workers }
    requires free { get_or board.old.hand worker None ≡ None }
    requires piece { IsPiece T.times board.old worker piece.now }
{
    match piece {
        Piece::Waiting { site, number } => {
            let bundle = board.take(*site, *number)?;
            Ok(Some(bundle))
        }
        Piece::Held { node: _held } => Ok(None),
    }
}

// Worker 0 takes its first bundle, and gives its updates where it was. False if no bundle waits for
// it.
fn stepped(rt: &impl Abort, alloc: Global, board: &mut Board<Bitime>) -> Result<bool, Refusal> {
    board.known();
    let is_free = board.in_hand(0).is_none();
    assert!(rt; is_free);
    let Some(piece) = board.piece_at(0, 0) else {
        return Ok(false);
    };
    let Some(bundle) = taken(board, 0, &piece)? else {
        return Ok(false);
    };
    let given = Emission {
        node: bundle.place.node,
        worker: 0,
        updates: bundle.updates,
    };
    gave(rt, alloc, board, given, Vec::new(alloc).into())?;
    Ok(true)
}

// The view. The asserts show that it is one, as questions require.
fn the_view(rt: &impl Abort, board: &Board<Bitime>) -> NodeId
    ensures within { result < length board.now.dataflow.nodes }
    ensures view { IsTrue (is_output (node_of board.now.dataflow result)) }
{
    let view = NodeId::new(1);
    let there = view.number() < board.plan().len();
    assert!(rt; there);
    let is_view = board.plan().node(view).is_output();
    assert!(rt; is_view);
    view
}

// The frontier of the view is (1, 0) alone, the time of what waits: an earlier one would also be at
// or before (0, 9), with which (1, 0) cannot be compared.
fn stands_at_what_waits(rt: &impl Abort, board: &mut Board<Bitime>) -> Result<bool, Refusal> {
    let view = the_view(rt, board);
    let frontier = board.frontier(view)?;
    let is_one = frontier.len() == 1;
    Ok(is_one && frontier.less_equal(&at((1, 0))) && !frontier.less_equal(&at((0, 9))))
}

#[test]
fn one_worker_of_two_goes_on_alone(rt: HostRuntime) -> Result<(), Fail> {
    let alloc = rt.alloc();
    let mut board = prepared(&rt, alloc)?;
    for is_bundle in [true, true, false] {
        assert!(rt; stepped(&rt, alloc, &mut board)? == is_bundle);
    }
    assert!(rt; !board.is_quiet());
    assert!(rt; stands_at_what_waits(&rt, &mut board)?);
    let view = the_view(&rt, &board);
    let rows = board.read(view, at((0, 5)))?;
    assert!(rt; rows.len() == 1 && rows.get(&Row::new(alloc, &[0])?) == 1);
    assert!(rt; matches!(board.read(view, at((1, 0))), Err(Refusal::NotPassed)));
    Ok(())
}

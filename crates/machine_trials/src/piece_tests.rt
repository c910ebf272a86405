//! The pieces that a worker may take, told by number: the order in which a caller meets them, and
//! how it takes one.
ghost use Rattle.std.specs.Prelude.{◌≡◌, ◌<◌, None, get_or};
ghost use Rattle.machine.specs.Boards.Pieces.{IsPiece};

use crate::moves::{advanced, fed, gave, passed_on};
use lattice::{Bitime, Minimum};
use machine::{Board, Emission, Piece, Site};
use plan::{Kind, NodeId};
use std::alloc::Global;
use std::process::Abort;
use std::test::Fail;
use trials::sketches::{at, reduction};
use update::Refusal;

// The nodes of the plan: an input, arranged, and its counts.
const INPUT: usize = 0;

const ARRANGED: usize = 1;

const COUNTS: usize = 2;

// Takes the first bundle that waits at the counts, and gives nothing, so the worker still holds the
// bundle's time.
fn held_on(
    rt: &impl Abort,
    alloc: Global,
    board: &mut Board<Bitime>,
    time: (u64, u64),
) -> Result<(), Refusal> {
    let site = Site {
        node: NodeId::new(COUNTS),
        port: 0,
        worker: 0,
    };
    let waits = board.waiting(&site) > 0;
    assert!(rt; waits);
    board.known();
    let is_free = board.in_hand(0).is_none();
    assert!(rt; is_free);
    let _bundle = board.take(site, 0)?;
    let given = Emission {
        node: NodeId::new(COUNTS),
        worker: 0,
        updates: Vec::new(alloc).into(),
    };
    let mut held = Vec::new(alloc);
    held.push(at(time))?;
    gave(rt, alloc, board, given, held.into())
}

// A board of one worker. Two changes wait at the input, two bundles at the arrange node, and at the
// counts the worker holds a time that has passed.
fn prepared(rt: &impl Abort, alloc: Global) -> Result<Board<Bitime>, Refusal> {
    let mut board = Board::open(alloc, reduction(alloc, 1, Kind::Count)?, 1)?;
    fed(rt, alloc, &mut board, 7, (0, 0))?;
    passed_on(rt, alloc, &mut board, INPUT)?;
    passed_on(rt, alloc, &mut board, ARRANGED)?;
    held_on(rt, alloc, &mut board, (0, 0))?;
    for _change in 0..2 {
        fed(rt, alloc, &mut board, 7, (0, 1))?;
        passed_on(rt, alloc, &mut board, INPUT)?;
    }
    fed(rt, alloc, &mut board, 7, (0, 1))?;
    fed(rt, alloc, &mut board, 7, (0, 1))?;
    advanced(rt, &mut board, (0, 1))?;
    Ok(board)
}

// Whether a pick is answered with the bundle of a number at a node, or with the times held there if
// there is no number.
fn is_told(
    rt: &impl Abort,
    board: &mut Board<Bitime>,
    pick: usize,
    node: usize,
    number: Option<usize>,
) -> bool {
    let is_staffed = board.workers() > 0;
    assert!(rt; is_staffed);
    match &board.piece_at(0, pick) {
        Some(Piece::Waiting { site, number: n }) => {
            site.node == NodeId::new(node) && site.port == 0 && number == Some(*n)
        }
        Some(Piece::Held { node: n }) => *n == NodeId::new(node) && number.is_none(),
        None => false,
    }
}

// Only the first change at the input is told, both bundles at the arrange node, and held times
// last. The number after the last tells the first again, and one less than a multiple of 4 the
// last.
#[test]
fn pieces_are_told_in_order(rt: HostRuntime) -> Result<(), Fail> {
    let mut board = prepared(&rt, rt.alloc())?;
    let told = [
        (0, INPUT, Some(0)),
        (1, ARRANGED, Some(0)),
        (2, ARRANGED, Some(1)),
        (3, COUNTS, None),
        (4, INPUT, Some(0)),
        (232792559, COUNTS, None),
    ];
    for (pick, node, number) in told {
        assert!(rt; is_told(&rt, &mut board, pick, node, number));
    }
    Ok(())
}

#[test]
fn an_idle_board_has_no_pieces(rt: HostRuntime) -> Result<(), Fail> {
    let alloc = rt.alloc();
    let mut board: Board<Bitime> = Board::open(alloc, reduction(alloc, 1, Kind::Count)?, 1)?;
    let is_staffed = board.workers() > 0;
    assert!(rt; is_staffed);
    assert!(rt; board.piece_at(0, 5).is_none() && board.pieces(0) == 0);
    Ok(())
}

// A worker with nothing in hand takes a piece that it was told.
fn started<T: Minimum>(board: &mut Board<T>, worker: usize, piece: &Piece) -> Result<(), Refusal>
    requires worker { worker < board.old.dataflow.workers }
    requires free { get_or board.old.hand worker None ≡ None }
    requires piece { IsPiece T.times board.old worker piece.now }
{
    match piece {
        Piece::Waiting { site, number } => {
            let _bundle = board.take(*site, *number)?;
        }
        Piece::Held { node } => board.take_held(worker, *node),
    }
    Ok(())
}

// Takes the piece that a pick tells, and answers the node that the worker then has in hand.
fn picked(rt: &impl Abort, alloc: Global, pick: usize) -> Result<Option<NodeId>, Refusal> {
    let mut board = prepared(rt, alloc)?;
    board.known();
    let is_free = board.in_hand(0).is_none();
    assert!(rt; is_free);
    if let Some(piece) = board.piece_at(0, pick) {
        started(&mut board, 0, &piece)?;
    }
    board.known();
    Ok(board.in_hand(0))
}

#[test]
fn told_pieces_are_taken(rt: HostRuntime) -> Result<(), Fail> {
    for (pick, node) in [(0, INPUT), (2, ARRANGED), (3, COUNTS)] {
        let in_hand = picked(&rt, rt.alloc(), pick)?;
        assert!(rt; in_hand == Some(NodeId::new(node)));
    }
    Ok(())
}

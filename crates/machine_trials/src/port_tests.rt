//! The input frontiers of the two ports of a join. The expected times are found by hand.
use crate::moves::{advanced, fed, passed_on};
use lattice::Bitime;
use machine::Board;
use plan::NodeId;
use std::process::Abort;
use std::test::Fail;
use trials::sketches::{at, join_of_two};
use update::Refusal;

// The first input, the node that arranges it, and the join that reads this node at its port 0.
const INPUT: usize = 0;

const ARRANGED: usize = 2;

const JOIN: usize = 4;

// Whether the input frontier of a port of the join has these elements.
fn is_at(
    rt: &impl Abort,
    board: &mut Board<Bitime>,
    port: usize,
    times: &[Bitime],
) -> Result<bool, Refusal> {
    let join = NodeId::new(JOIN);
    let there = join.number() < board.plan().len();
    assert!(rt; there);
    let frontier = board.port_frontier(join, port)?;
    Ok(frontier.elements() == times)
}

// Only the input on the left has moved on, so the ports differ.
#[test]
fn ports_have_frontiers_of_their_own(rt: HostRuntime) -> Result<(), Fail> {
    let alloc = rt.alloc();
    let mut board: Board<Bitime> = Board::open(alloc, join_of_two(alloc, 1)?, 1)?;
    advanced(&rt, &mut board, (0, 1))?;
    let left = is_at(&rt, &mut board, 0, &[at((0, 1))])?;
    let right = is_at(&rt, &mut board, 1, &[at((0, 0))])?;
    assert!(rt; left && right);
    Ok(())
}

// The row of time (3, 0) waits at the left port, and the input has passed this time. So the time is
// an element of that port's frontier, until the bundle is taken.
#[test]
fn a_waiting_bundle_holds_its_port_back(rt: HostRuntime) -> Result<(), Fail> {
    let alloc = rt.alloc();
    let mut board: Board<Bitime> = Board::open(alloc, join_of_two(alloc, 1)?, 1)?;
    fed(&rt, alloc, &mut board, 7, (3, 0))?;
    passed_on(&rt, alloc, &mut board, INPUT)?;
    passed_on(&rt, alloc, &mut board, ARRANGED)?;
    advanced(&rt, &mut board, (0, 1))?;
    let left = is_at(&rt, &mut board, 0, &[at((0, 1)), at((3, 0))])?;
    let right = is_at(&rt, &mut board, 1, &[at((0, 0))])?;
    assert!(rt; left && right);
    passed_on(&rt, alloc, &mut board, JOIN)?;
    let taken = is_at(&rt, &mut board, 0, &[at((0, 1))])?;
    assert!(rt; taken);
    Ok(())
}

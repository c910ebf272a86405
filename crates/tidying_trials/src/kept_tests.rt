//! How many updates a spine shows its readers once its worker has tidied. Clauses say where the
//! holds are then, and that nothing is left to merge. That so few updates are left is shown here.
use antichain::Antichain;
use lattice::Bitime;
use plan::{Kind, NodeId, Plan};
use players::{BoardClient, BoardWorker, Crew, opened, until_idle};
use row::Row;
use std::alloc::Global;
use std::process::Abort;
use std::sync::Wait;
use std::test::Fail;
use trials::sketches::{at, join_of_two, reduction};
use update::{Refusal, Update};

// The client of a new board with one worker, and that worker.
fn alone<R: Wait + Abort>(
    rt: &R,
    alloc: Global,
    plan: &Plan,
) -> Result<(BoardClient, BoardWorker), Refusal> {
    let mut crew: Crew = Vec::new(alloc);
    let client = opened(rt, alloc, plan, 1, &mut crew)?;
    let Some(worker) = crew.pop() else {
        panic!(rt; "no worker is there")
    };
    Ok((client, worker))
}

// All times of an input before this one are closed, and the worker steps until the board is quiet.
fn close_before<R: Wait + Abort>(
    rt: &R,
    alloc: Global,
    client: &mut BoardClient,
    worker: &mut BoardWorker,
    input: NodeId,
    time: Bitime,
) -> Result<(), Refusal> {
    client.advance(rt, input, &Antichain::from_elem(alloc, time))?;
    assert_eq!(rt; until_idle(alloc, worker)?, Some(true));
    Ok(())
}

// For each i below 100 this row comes at (i, 0) with diff 1. Then all times before (i + 1, 0) are
// closed.
fn a_hundred_come<R: Wait + Abort>(
    rt: &R,
    alloc: Global,
    client: &mut BoardClient,
    worker: &mut BoardWorker,
    input: NodeId,
    row: &[i64],
) -> Result<(), Refusal> {
    for i in 0..100 {
        let update = Update {
            time: at((i, 0)),
            row: Row::new(alloc, row)?,
            diff: 1,
        };
        client.feed(rt, input, update)?;
        close_before(rt, alloc, client, worker, input, at((i + 1, 0)))?;
    }
    Ok(())
}

// A reduction reads its source at the times that are pending, and at those that may still come.
// Both are at or after (100, 0) in the end, and there the row is there a hundred times. A worker
// that moved no hold would keep a hundred updates.
#[test]
fn a_hundred_changes_of_one_row_become_one(rt: HostRuntime) -> Result<(), Fail> {
    let alloc = rt.alloc();
    let plan = reduction(alloc, 1, Kind::Distinct)?;
    let arranged = NodeId::new(1);
    let (mut client, mut worker) = alone(&rt, alloc, &plan)?;
    a_hundred_come(&rt, alloc, &mut client, &mut worker, NodeId::new(0), &[7])?;
    assert!(rt; worker.tidy(alloc, u64::MAX)?);
    assert_eq!(rt; worker.kept(arranged), 1);
    let changes = client.changes(&rt, NodeId::new(3))?;
    assert_eq!(rt; changes.len(), 1);
    Ok(())
}

// With fuel for one unit a call, the worker comes to the same.
#[test]
fn little_fuel_comes_to_the_same(rt: HostRuntime) -> Result<(), Fail> {
    let alloc = rt.alloc();
    let plan = reduction(alloc, 1, Kind::Distinct)?;
    let (mut client, mut worker) = alone(&rt, alloc, &plan)?;
    a_hundred_come(&rt, alloc, &mut client, &mut worker, NodeId::new(0), &[7])?;
    for _ in 0..10_000 {
        if worker.tidy(alloc, 1)? {
            break;
        }
    }
    assert!(rt; worker.tidy(alloc, 0)?);
    assert_eq!(rt; worker.kept(NodeId::new(1)), 1);
    Ok(())
}

// A row that comes on the left is paired with what came on the right at any time that is still open
// on the left. So the right keeps the hundred updates apart until the left is closed up to (100,
// 0), and the left, at whose other port all before (100, 0) is closed, keeps one of a hundred.
#[test]
fn a_join_keeps_apart_what_its_other_side_may_need(rt: HostRuntime) -> Result<(), Fail> {
    let alloc = rt.alloc();
    let plan = join_of_two(alloc, 2)?;
    let (left, right) = (NodeId::new(0), NodeId::new(1));
    let (on_left, on_right) = (NodeId::new(2), NodeId::new(3));
    let (mut client, mut worker) = alone(&rt, alloc, &plan)?;
    a_hundred_come(&rt, alloc, &mut client, &mut worker, right, &[1, 6])?;
    assert!(rt; worker.tidy(alloc, u64::MAX)?);
    assert_eq!(rt; worker.kept(on_right), 100);
    a_hundred_come(&rt, alloc, &mut client, &mut worker, left, &[1, 5])?;
    assert!(rt; worker.tidy(alloc, u64::MAX)?);
    assert_eq!(rt; worker.kept(on_right), 1);
    assert_eq!(rt; worker.kept(on_left), 1);
    let rows = client
        .read(&rt, NodeId::new(5), at((99, 0)))?
        .to_string(alloc)?;
    assert_eq!(rt; rows.as_str(), "10000 1 5 6\n");
    Ok(())
}

//! When a worker finds the board quiet. Clauses say what it means that the board was quiet. No
//! clause says that it ever is.
use crate::worked::Worked;
use crate::worked_tests::{seven_twice, worked};
use lattice::{Bitime, Minimum};
use plan::NodeId;
use players::{BoardClient, Crew, until_idle, until_idle_at_last, until_quiet};
use shared_board::BoardProtocol;
use std::alloc::Global;
use std::process::Abort;
use std::sync::Wait;
use std::test::Fail;
use steps::Worker;
use trials::Draws;
use trials::sketches::{Change, at, input, view};
use update::Refusal;

// Steps the worker with the lowest number alone until it is idle, and lets it go. Answers whether
// the board was quiet then.
fn stepped<T: Minimum, P: BoardProtocol<T>, R: Abort>(
    rt: &R,
    alloc: Global,
    crew: &mut Vec<Worker<T, P>>,
) -> Result<bool, Refusal> {
    if crew.is_empty() {
        panic!(rt; "no worker is left")
    }
    let mut worker = crew.remove(0);
    let Some(quiet) = until_idle(alloc, &mut worker)? else {
        panic!(rt; "the worker does not come to an end")
    };
    Ok(quiet)
}

// In between, the view's frontier is at (1, 0). So its rows at (0, 5) can be read, but not those at
// (1, 0).
fn assert_between<R: Wait + Abort>(
    rt: &R,
    alloc: Global,
    client: &mut BoardClient,
    view: NodeId,
) -> Result<(), Refusal> {
    assert!(rt; client.frontier(rt, view)?.elements() == [at((1, 0))].as_slice());
    let rows = client.read(rt, view, at((0, 5)))?.to_string(alloc)?;
    assert_eq!(rt; rows.as_str(), "1 0\n");
    assert!(rt; matches!(client.read(rt, view, at((1, 0))), Err(Refusal::NotPassed)));
    Ok(())
}

// Row 0 is for worker 0, and row 1 for worker 1. First worker 0 makes all its steps, and then
// worker 1. A worker that tells only of itself would find the board quiet too early.
#[test]
fn a_lone_step_is_not_quiet(rt: HostRuntime) -> Result<(), Fail> {
    let changes: [Change; 2] = [((0, 0), &[0], 1), ((1, 0), &[1], 1)];
    let nodes = [input(1), view(0)];
    let worked = worked(rt.alloc(), &nodes, &[&changes], &[at((2, 0))], &changes)?;
    let mut crew: Crew = Vec::new(rt.alloc());
    let mut client = worked.fed(&rt, rt.alloc(), 2, &mut crew, &mut Draws::new(0), 1)?;
    assert!(rt; !stepped(&rt, rt.alloc(), &mut crew)?);
    assert_between(&rt, rt.alloc(), &mut client, worked.view())?;
    assert!(rt; stepped(&rt, rt.alloc(), &mut crew)?);
    worked.assert_found(&rt, rt.alloc(), &mut client)?;
    Ok(())
}

// The example of a view of one input, to which all times before (0, 1) are closed.
fn closed(
    alloc: Global,
    changes: &[&[Change]],
    want: &[Change],
) -> Result<Worked<Bitime>, Refusal> {
    let nodes = [input(1), view(0)];
    worked(alloc, &nodes, changes, &[at((0, 1))], want)
}

// Row 7 is fed, and its time is closed. Until the workers have carried it on, the view's frontier
// is where it was, and nothing can be read. A frontier that moved with the input's would show a
// view without the row.
#[test]
fn work_in_flight_holds_the_frontier(rt: HostRuntime) -> Result<(), Fail> {
    let changes: [Change; 1] = [((0, 0), &[7], 1)];
    let worked = closed(rt.alloc(), &[&changes], &changes)?;
    let mut crew: Crew = Vec::new(rt.alloc());
    let mut draws = Draws::new(0);
    let mut client = worked.fed(&rt, rt.alloc(), 2, &mut crew, &mut draws, 1)?;
    assert!(rt; client.frontier(&rt, worked.view())?.elements() == [at((0, 0))].as_slice());
    let read = client.read(&rt, worked.view(), at((0, 0)));
    assert!(rt; matches!(read, Err(Refusal::NotPassed)));
    assert!(rt; until_quiet(rt.alloc(), &mut crew, &mut draws)?);
    assert!(rt; client.frontier(&rt, worked.view())?.elements() == [at((0, 1))].as_slice());
    worked.assert_found(&rt, rt.alloc(), &mut client)?;
    Ok(())
}

// With nothing in flight the view's frontier follows at once, before any step.
#[test]
fn nothing_in_flight_holds_no_frontier(rt: HostRuntime) -> Result<(), Fail> {
    let changes: [Change; 0] = [];
    let worked = closed(rt.alloc(), &[&changes], &changes)?;
    let mut crew: Crew = Vec::new(rt.alloc());
    let mut client = worked.fed(&rt, rt.alloc(), 2, &mut crew, &mut Draws::new(0), 1)?;
    assert!(rt; client.frontier(&rt, worked.view())?.elements() == [at((0, 1))].as_slice());
    worked.assert_found(&rt, rt.alloc(), &mut client)?;
    Ok(())
}

// One worker makes all its steps, always with the first piece. It has to come back to (3, 3), which
// it holds at the distinct node: no change has that time. A worker that turns to a time again and
// again never comes to an end.
#[test]
fn a_worker_turns_to_what_it_holds(rt: HostRuntime) -> Result<(), Fail> {
    let worked = seven_twice(rt.alloc())?;
    let mut crew: Crew = Vec::new(rt.alloc());
    let mut client = worked.fed(&rt, rt.alloc(), 1, &mut crew, &mut Draws::new(0), 1)?;
    assert!(rt; stepped(&rt, rt.alloc(), &mut crew)?);
    worked.assert_found(&rt, rt.alloc(), &mut client)?;
    Ok(())
}

// One worker makes its steps. One that is refused memory it makes again, and nothing is lost or
// done twice.
fn is_carried_on<R: Wait + Abort>(rt: &R, alloc: Global) -> Result<(), Refusal> {
    let worked = seven_twice(alloc)?;
    let mut crew: Crew = Vec::new(alloc);
    let mut client = worked.fed(rt, alloc, 1, &mut crew, &mut Draws::new(0), 1)?;
    let Some(mut worker) = crew.pop() else {
        panic!(rt; "no worker is left")
    };
    assert_eq!(rt; until_idle_at_last(alloc, &mut worker)?, Some(true));
    worked.assert_found(rt, alloc, &mut client)
}

#[test]
fn steps_take_memory(rt: HostRuntime) -> Result<(), Fail> {
    match is_carried_on(&rt, rt.alloc()) {
        Err(Refusal::OutOfMemory) => is_carried_on(&rt, rt.alloc())?,
        done => done?,
    }
    Ok(())
}

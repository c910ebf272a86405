//! Worked examples with 1, 2, 3 and 16 workers, in orders of steps that are drawn.
use crate::worked::Worked;
use antichain::Antichain;
use lattice::Bitime;
use plan::{Kind, Node};
use std::alloc::Global;
use std::process::Abort;
use std::sync::Wait;
use std::test::Fail;
use trials::sketches::{Change, arrange, at, built, input, join, list, reduce, view};
use update::{Refusal, Update};

// All pairs of these numbers.
fn grid(alloc: Global) -> Result<Vec<Bitime>, Refusal> {
    let numbers: [u64; 7] = [0, 1, 2, 3, 4, 5, 10];
    let mut times = Vec::new(alloc);
    for i in 0..49 {
        times.push(at((numbers[i / 7], numbers[i % 7])))?;
    }
    Ok(times)
}

// The changes of each input.
fn lists(alloc: Global, changes: &[&[Change]]) -> Result<Vec<Vec<Update<Bitime>>>, Refusal> {
    let mut lists = Vec::new(alloc);
    for of_input in changes {
        lists.push(list(alloc, of_input)?)?;
    }
    Ok(lists)
}

/// The example of a plan of these nodes, with the changes of each input, the frontier to which all
/// inputs are advanced, and the changes of the view.
pub(crate) fn worked(
    alloc: Global,
    nodes: &[Node],
    changes: &[&[Change]],
    frontier: &[Bitime],
    want: &[Change],
) -> Result<Worked<Bitime>, Refusal> {
    Ok(Worked {
        plan: built(alloc, nodes)?,
        changes: lists(alloc, changes)?,
        frontier: Antichain::least_of(alloc, frontier)?,
        want: list(alloc, want)?,
        times: grid(alloc)?,
    })
}

fn assert_by_all<R: Wait + Abort>(
    rt: &R,
    alloc: Global,
    worked: &Worked<Bitime>,
) -> Result<(), Refusal> {
    worked.assert_by(rt, alloc, 1)?;
    worked.assert_by(rt, alloc, 2)?;
    worked.assert_by(rt, alloc, 3)?;
    worked.assert_by(rt, alloc, 16)
}

// The distinct rows of an input to which 7 came at two times that cannot be compared. All times
// before this one are closed.
fn sevens(alloc: Global, end: (u64, u64), want: &[Change]) -> Result<Worked<Bitime>, Refusal> {
    let nodes = [input(1), arrange(0, 1), reduce(Kind::Distinct, 1), view(2)];
    let changes: [Change; 2] = [((0, 3), &[7], 1), ((3, 0), &[7], 1)];
    worked(alloc, &nodes, &[&changes], &[at(end)], want)
}

/// 7 is there once at (3, 3) and not twice, although no change has that time.
pub(crate) fn seven_twice(alloc: Global) -> Result<Worked<Bitime>, Refusal> {
    let want: [Change; 3] = [((0, 3), &[7], 1), ((3, 0), &[7], 1), ((3, 3), &[7], -1)];
    sevens(alloc, (4, 4), &want)
}

// A time that no change has.
#[test]
fn distinct_at_a_time_that_no_change_has(rt: HostRuntime) -> Result<(), Fail> {
    assert_by_all(&rt, rt.alloc(), &seven_twice(rt.alloc())?)?;
    Ok(())
}

// The correction at (3, 3) is held back until the frontier has passed that time.
#[test]
fn a_correction_is_held_back(rt: HostRuntime) -> Result<(), Fail> {
    let want: [Change; 2] = [((0, 3), &[7], 1), ((3, 0), &[7], 1)];
    assert_by_all(&rt, rt.alloc(), &sevens(rt.alloc(), (3, 3), &want)?)?;
    Ok(())
}

// A row for day 5 comes late. From then on it counts together with the row of day 10.
#[test]
fn a_retroactive_count(rt: HostRuntime) -> Result<(), Fail> {
    let nodes = [input(2), arrange(0, 1), reduce(Kind::Count, 1), view(2)];
    let changes: [Change; 2] = [((10, 1), &[1, 8], 1), ((5, 2), &[1, 9], 1)];
    let want: [Change; 4] = [
        ((5, 2), &[1, 1], 1),
        ((10, 1), &[1, 1], 1),
        ((10, 2), &[1, 1], -2),
        ((10, 2), &[1, 2], 1),
    ];
    let worked = worked(rt.alloc(), &nodes, &[&changes], &[], &want)?;
    assert_by_all(&rt, rt.alloc(), &worked)?;
    Ok(())
}

// Two rows meet each other in all four ways.
#[test]
fn a_join_with_itself(rt: HostRuntime) -> Result<(), Fail> {
    let nodes = [input(2), arrange(0, 1), join(1, 1), view(2)];
    let changes: [Change; 1] = [((0, 0), &[1, 5], 2)];
    let want: [Change; 1] = [((0, 0), &[1, 5, 5], 4)];
    let worked = worked(rt.alloc(), &nodes, &[&changes], &[], &want)?;
    assert_by_all(&rt, rt.alloc(), &worked)?;
    Ok(())
}

// The nodes of a join of two inputs by their first columns.
fn join_of_two() -> [Node; 6] {
    [
        input(2),
        input(2),
        arrange(0, 1),
        arrange(1, 1),
        join(2, 3),
        view(4),
    ]
}

// The pair is at the join of both times, and has the product of both diffs.
#[test]
fn a_join_at_times_that_cannot_be_compared(rt: HostRuntime) -> Result<(), Fail> {
    let left: [Change; 1] = [((0, 3), &[1, 5], 2)];
    let right: [Change; 1] = [((3, 0), &[1, 6], -1)];
    let want: [Change; 1] = [((3, 3), &[1, 5, 6], -2)];
    let nodes = join_of_two();
    let worked = worked(rt.alloc(), &nodes, &[&left, &right], &[], &want)?;
    assert_by_all(&rt, rt.alloc(), &worked)?;
    Ok(())
}

// Rows of key 1 are for worker 1, and those of key 2 for worker 0. The row with 5 goes at (2, 2),
// and all its pairs with it: once with itself, and once with the row with 6 on either side.
#[test]
fn two_workers_join_a_node_with_itself(rt: HostRuntime) -> Result<(), Fail> {
    let nodes = [input(2), arrange(0, 1), join(1, 1), view(2)];
    let changes: [Change; 4] = [
        ((0, 1), &[1, 5], 1),
        ((1, 0), &[1, 6], 1),
        ((2, 2), &[1, 5], -1),
        ((0, 0), &[2, 9], -2),
    ];
    let want: [Change; 8] = [
        ((0, 0), &[2, 9, 9], 4),
        ((0, 1), &[1, 5, 5], 1),
        ((1, 0), &[1, 6, 6], 1),
        ((1, 1), &[1, 5, 6], 1),
        ((1, 1), &[1, 6, 5], 1),
        ((2, 2), &[1, 5, 5], -1),
        ((2, 2), &[1, 5, 6], -1),
        ((2, 2), &[1, 6, 5], -1),
    ];
    let worked = worked(rt.alloc(), &nodes, &[&changes], &[at((5, 5))], &want)?;
    worked.assert_by(&rt, rt.alloc(), 2)?;
    Ok(())
}

// Each worker has a key. What came to one input at (2, 0) goes at (2, 2), and its pair with it.
#[test]
fn two_workers_join_two_inputs(rt: HostRuntime) -> Result<(), Fail> {
    let left: [Change; 2] = [((0, 3), &[1, 5], 2), ((1, 1), &[2, 7], 1)];
    let right: [Change; 3] = [
        ((3, 0), &[1, 6], -1),
        ((2, 0), &[2, 8], 3),
        ((2, 2), &[2, 8], -3),
    ];
    let want: [Change; 3] = [
        ((2, 1), &[2, 7, 8], 3),
        ((2, 2), &[2, 7, 8], -3),
        ((3, 3), &[1, 5, 6], -2),
    ];
    let nodes = join_of_two();
    let worked = worked(rt.alloc(), &nodes, &[&left, &right], &[], &want)?;
    worked.assert_by(&rt, rt.alloc(), 2)?;
    Ok(())
}

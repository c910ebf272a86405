//! Reductions that are refused: a count that is too large, and want of memory. Nothing has changed
//! then, and the same call may succeed later.
use crate::reduce_tests::{Reduced, Reduction, assert_ready, take, taken};
use batch::Batch;
use batch_trials::sealed;
use lattice::Bitime;
use plan::Kind;
use reduce::ReduceState;
use std::alloc::Global;
use std::process::Abort;
use std::test::Fail;
use trials::sketches::{Change, at, list};
use update::Refusal;

// The count of key 7 is 2^63 - 1 at (2, 2), and one more from (5, 2) on.
const MANY: [Change; 2] = [((2, 2), &[7, 1], i64::MAX), ((5, 0), &[7, 2], 1)];

// Checks that both changes, and the join of their times, are still pending, and that nothing was
// read.
fn assert_pending(rt: &impl Abort, alloc: Global, state: &Reduced) -> Result<(), Refusal> {
    let least = [at((2, 2)), at((5, 0))];
    assert!(rt; state.held(alloc)?.elements() == least.as_slice());
    assert!(rt; state.waiting().len() == 1 && state.looked() == 0);
    Ok(())
}

// At (5, 2) the count is 2^63. A row that goes at (4, 1) brings it back, and then each time is
// answered.
#[test]
fn a_count_past_64_bits_waits_for_a_correction(rt: HostRuntime) -> Result<(), Fail> {
    let mut reduction = Reduction::new(rt.alloc(), Kind::Count)?;
    reduction.take(rt.alloc(), (0, 0), (3, 1), &list(rt.alloc(), &MANY)?)?;
    assert!(rt; reduction.ready(rt.alloc(), &[]) == Err(Refusal::Overflow));
    assert_pending(&rt, rt.alloc(), &reduction.state)?;
    let back = list(rt.alloc(), &[((4, 1), &[7, 3], -1)])?;
    reduction.take(rt.alloc(), (3, 1), (16, 16), &back)?;
    let want: &[Change] = &[
        ((2, 2), &[7, i64::MAX], 1),
        ((4, 1), &[7, -1], 1),
        ((4, 2), &[7, -1], -1),
        ((4, 2), &[7, i64::MAX - 1], 1),
        ((4, 2), &[7, i64::MAX], -1),
        ((5, 0), &[7, 1], 1),
        ((5, 1), &[7, -1], -1),
        ((5, 1), &[7, 1], -1),
        ((5, 2), &[7, -1], 1),
        ((5, 2), &[7, i64::MAX - 1], -1),
        ((5, 2), &[7, i64::MAX], 1),
    ];
    assert_ready(&rt, rt.alloc(), &mut reduction, &[], want)?;
    Ok(())
}

// A change of each of two keys.
const KEYS: [Change; 2] = [((0, 3), &[7], 1), ((3, 0), &[8], 1)];

// A batch of these changes, whichever of its allocations was refused.
fn batch_again(alloc: Global, changes: &[Change]) -> Result<Batch<Bitime>, Refusal> {
    let updates = match list(alloc, changes) {
        Err(Refusal::OutOfMemory) => list(alloc, changes)?,
        done => done?,
    };
    match sealed(alloc, (0, 0), (8, 8), &updates) {
        Err(Refusal::OutOfMemory) => sealed(alloc, (0, 0), (8, 8), &updates),
        done => done,
    }
}

// A refused batch has made nothing pending, and it can be taken again.
#[test]
fn taking_changes_to_reduce_takes_memory(rt: HostRuntime) -> Result<(), Fail> {
    let batch = batch_again(rt.alloc(), &KEYS)?;
    let mut state = ReduceState::new(rt.alloc(), 1, Kind::Count);
    let mut taken = take(&mut state, rt.alloc(), &batch);
    if taken == Err(Refusal::OutOfMemory) {
        assert!(rt; state.waiting().is_empty());
        taken = take(&mut state, rt.alloc(), &batch);
    }
    taken?;
    let least = [at((0, 3)), at((3, 0))];
    assert!(rt; state.held(rt.alloc())?.elements() == least.as_slice());
    assert!(rt; state.waiting().len() == 2);
    Ok(())
}

// One change of one key. So few allocations come before the answer that one of those that
// `./refusals` has refused is its own.
const ONE: [Change; 1] = [((0, 3), &[7], 1)];

// A refused call has given nothing, and all times are still pending.
#[test]
fn reducing_takes_memory(rt: HostRuntime) -> Result<(), Fail> {
    let mut reduction = match taken(rt.alloc(), Kind::Count, &ONE) {
        Err(Refusal::OutOfMemory) => taken(rt.alloc(), Kind::Count, &ONE)?,
        done => done?,
    };
    let mut given = reduction.ready(rt.alloc(), &[]);
    if given == Err(Refusal::OutOfMemory) {
        assert!(rt; reduction.state.waiting().len() == 1 && reduction.state.looked() == 0);
        given = reduction.ready(rt.alloc(), &[]);
    }
    let given = given?;
    assert!(rt; given.len() == 1 && reduction.state.waiting().is_empty());
    assert!(rt; reduction.state.looked() == 1);
    Ok(())
}

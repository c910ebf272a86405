//! Differences of small views, worked out by hand from the view's rows at each time. No clause says
//! that a list is returned at all. These tests show that it is, and that two changes at
//! incomparable times get their correction at the join of their times. The last test is at the
//! limit of 64 bits.
use crate::listing::listed;
use lattice::Bitime;
use oracle::{are_wide, evaluate};
use plan::{Kind, NodeId, Plan};
use std::alloc::Global;
use std::process::Abort;
use std::test::Fail;
use trials::sketches::{
    Change, arrange, at, built, input, join, join_of_two, list, reduction, view,
};
use update::{Bag, Refusal, Update};

fn assert_listed(
    rt: &impl Abort,
    alloc: Global,
    plan: &Plan,
    changes: &[Vec<Update<Bitime>>],
    want: &[Change],
) -> Result<(), Refusal> {
    let listed = listed(alloc, plan, changes, &[])?;
    assert!(rt; listed.as_slice() == list(alloc, want)?.as_slice());
    Ok(())
}

// Checks the differences of the reduction of one input by its first column.
fn assert_reduces(
    rt: &impl Abort,
    alloc: Global,
    (width, kind): (usize, Kind),
    changes: &[Change],
    want: &[Change],
) -> Result<(), Refusal> {
    let plan = reduction(alloc, width, kind)?;
    assert_listed(rt, alloc, &plan, &[list(alloc, changes)?], want)
}

// 7 counts once at (3, 3) and not twice, although no change has that time.
#[test]
fn distinct_at_a_time_that_no_change_has(rt: HostRuntime) -> Result<(), Fail> {
    let changes: [Change; 2] = [((0, 3), &[7], 1), ((3, 0), &[7], 1)];
    let want: [Change; 3] = [((0, 3), &[7], 1), ((3, 0), &[7], 1), ((3, 3), &[7], -1)];
    assert_reduces(&rt, rt.alloc(), (1, Kind::Distinct), &changes, &want)?;
    Ok(())
}

// A row for day 5 comes late. From then on it counts together with the row of day 10.
#[test]
fn a_retroactive_count(rt: HostRuntime) -> Result<(), Fail> {
    let changes: [Change; 2] = [((10, 1), &[1, 8], 1), ((5, 2), &[1, 9], 1)];
    let want: [Change; 4] = [
        ((5, 2), &[1, 1], 1),
        ((10, 1), &[1, 1], 1),
        ((10, 2), &[1, 1], -2),
        ((10, 2), &[1, 2], 1),
    ];
    assert_reduces(&rt, rt.alloc(), (2, Kind::Count), &changes, &want)?;
    Ok(())
}

// No two of the three changes are comparable. Each two meet at a join, and all three at (4, 4),
// where nothing changes.
#[test]
fn three_changes_under_distinct(rt: HostRuntime) -> Result<(), Fail> {
    let changes: [Change; 3] = [((0, 4), &[7], 1), ((2, 2), &[7], 1), ((4, 0), &[7], 1)];
    let want: [Change; 5] = [
        ((0, 4), &[7], 1),
        ((2, 2), &[7], 1),
        ((2, 4), &[7], -1),
        ((4, 0), &[7], 1),
        ((4, 2), &[7], -1),
    ];
    assert_reduces(&rt, rt.alloc(), (1, Kind::Distinct), &changes, &want)?;
    Ok(())
}

// The same changes under count. At (4, 4) the row with 1 comes back once, the row with 2 goes
// twice, and the row with 3 comes.
#[test]
fn three_changes_under_count(rt: HostRuntime) -> Result<(), Fail> {
    let changes: [Change; 3] = [((0, 4), &[7], 1), ((2, 2), &[7], 1), ((4, 0), &[7], 1)];
    let want: [Change; 10] = [
        ((0, 4), &[7, 1], 1),
        ((2, 2), &[7, 1], 1),
        ((2, 4), &[7, 1], -2),
        ((2, 4), &[7, 2], 1),
        ((4, 0), &[7, 1], 1),
        ((4, 2), &[7, 1], -2),
        ((4, 2), &[7, 2], 1),
        ((4, 4), &[7, 1], 1),
        ((4, 4), &[7, 2], -2),
        ((4, 4), &[7, 3], 1),
    ];
    assert_reduces(&rt, rt.alloc(), (1, Kind::Count), &changes, &want)?;
    Ok(())
}

// The least row comes, then a smaller row replaces it, and then the smaller row goes again.
#[test]
fn a_retraction_under_min(rt: HostRuntime) -> Result<(), Fail> {
    let changes: [Change; 3] = [
        ((0, 0), &[1, 5], 1),
        ((0, 1), &[1, 3], 1),
        ((0, 2), &[1, 3], -1),
    ];
    let want: [Change; 5] = [
        ((0, 0), &[1, 5], 1),
        ((0, 1), &[1, 3], 1),
        ((0, 1), &[1, 5], -1),
        ((0, 2), &[1, 3], -1),
        ((0, 2), &[1, 5], 1),
    ];
    assert_reduces(&rt, rt.alloc(), (2, Kind::Min), &changes, &want)?;
    Ok(())
}

// Each of the two updates joins itself, and the two join each other in both orders.
#[test]
fn a_join_with_itself(rt: HostRuntime) -> Result<(), Fail> {
    let plan = built(rt.alloc(), &[input(1), arrange(0, 1), join(1, 1), view(2)])?;
    let changes = [list(rt.alloc(), &[((0, 1), &[7], 1), ((1, 0), &[7], 1)])?];
    let want: [Change; 3] = [((0, 1), &[7], 1), ((1, 0), &[7], 1), ((1, 1), &[7], 2)];
    assert_listed(&rt, rt.alloc(), &plan, &changes, &want)?;
    Ok(())
}

// The rows of two inputs meet at the join of their times. Neither input has a change at that time.
#[test]
fn a_join_of_two_inputs(rt: HostRuntime) -> Result<(), Fail> {
    let changes = [
        list(rt.alloc(), &[((0, 3), &[1, 5], 2)])?,
        list(rt.alloc(), &[((3, 0), &[1, 6], -1)])?,
    ];
    let want: [Change; 1] = [((3, 3), &[1, 5, 6], -2)];
    assert_listed(
        &rt,
        rt.alloc(),
        &join_of_two(rt.alloc(), 2)?,
        &changes,
        &want,
    )?;
    Ok(())
}

// The join of two inputs that hold the row 7 this many times.
fn met(rt: &impl Abort, alloc: Global, left: i64, right: i64) -> Result<Bag, Refusal> {
    let plan = join_of_two(alloc, 1)?;
    let changes = [
        list(alloc, &[((0, 0), &[7], left)])?,
        list(alloc, &[((0, 0), &[7], right)])?,
    ];
    let view = NodeId::new(5);
    assert!(rt; view.number() < plan.len());
    assert!(rt; are_wide(&plan, &changes));
    evaluate(alloc, &plan, view, &changes, at((0, 0)))
}

// The square of 2147483647 fits in 64 bits. Twice 2 to the 62 does not.
#[test]
fn products_are_exact_to_the_end(rt: HostRuntime) -> Result<(), Fail> {
    let bag = met(&rt, rt.alloc(), 2147483647, 2147483647)?.to_string(rt.alloc())?;
    assert_eq!(rt; bag.as_str(), "4611686014132420609 7\n");
    let refused = met(&rt, rt.alloc(), 4611686018427387904, 2);
    assert!(rt; matches!(refused, Err(Refusal::Overflow)));
    Ok(())
}

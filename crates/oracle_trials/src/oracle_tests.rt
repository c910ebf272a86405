//! The plain query and its differences, for the nodes that no command file reaches. The tests show
//! that there is an answer at all, and that the definition is the intended one. There are
//! differences also at the join of two incomparable times.
use lattice::Bitime;
use oracle::{are_wide, differences, evaluate};
use plan::{Kind, NodeId, Plan};
use std::alloc::Global;
use std::process::Abort;
use std::test::Fail;
use trials::sketches::{arrange, at, built, input, join, list, reduction, view};
use update::{Bag, Refusal, Update};

// The last node of the plan at a time.
fn last_at(
    rt: &impl Abort,
    alloc: Global,
    plan: &Plan,
    changes: &[Vec<Update<Bitime>>],
    time: (u64, u64),
) -> Result<Bag, Refusal> {
    assert!(rt; !plan.is_empty());
    let last = plan.len() - 1;
    assert!(rt; last < plan.len());
    assert!(rt; are_wide(plan, changes));
    evaluate(alloc, plan, NodeId::new(last), changes, at(time))
}

// Checks that the last node at (9, 9) prints as this text: a line for each row, with its count
// first.
fn assert_prints(
    rt: &impl Abort,
    alloc: Global,
    plan: &Plan,
    changes: &[Vec<Update<Bitime>>],
    want: &str,
) -> Result<(), Refusal> {
    let text = last_at(rt, alloc, plan, changes, (9, 9))?.to_string(alloc)?;
    assert_eq!(rt; text.as_str(), want);
    Ok(())
}

// Three rows of key 1, of which the least counts -1, and one row of key 2.
fn rows(alloc: Global) -> Result<[Vec<Update<Bitime>>; 1], Refusal> {
    let rows = list(
        alloc,
        &[
            ((0, 0), &[1, 5], 2),
            ((0, 1), &[1, 3], -1),
            ((1, 0), &[1, 6], 4),
            ((2, 2), &[2, -9], -3),
        ],
    )?;
    Ok([rows])
}

// Checks what the reduction of these rows by their first column prints.
fn assert_reduces(rt: &impl Abort, alloc: Global, kind: Kind, want: &str) -> Result<(), Refusal> {
    assert_prints(rt, alloc, &reduction(alloc, 2, kind)?, &rows(alloc)?, want)
}

// 2 - 1 + 4 is 5. A negative total is listed too.
#[test]
fn counts_of_keys(rt: HostRuntime) -> Result<(), Fail> {
    assert_reduces(&rt, rt.alloc(), Kind::Count, "1 1 5\n1 2 -3\n")?;
    Ok(())
}

#[test]
fn distinct_rows(rt: HostRuntime) -> Result<(), Fail> {
    assert_reduces(&rt, rt.alloc(), Kind::Distinct, "1 1 5\n1 1 6\n")?;
    Ok(())
}

#[test]
fn least_rows(rt: HostRuntime) -> Result<(), Fail> {
    assert_reduces(&rt, rt.alloc(), Kind::Min, "1 1 5\n")?;
    Ok(())
}

#[test]
fn greatest_rows(rt: HostRuntime) -> Result<(), Fail> {
    assert_reduces(&rt, rt.alloc(), Kind::Max, "1 1 6\n")?;
    Ok(())
}

// A view of arranged rows has the same rows.
#[test]
fn arranged_rows(rt: HostRuntime) -> Result<(), Fail> {
    let plan = built(rt.alloc(), &[input(2), arrange(0, 1), view(1)])?;
    let want = "-1 1 3\n2 1 5\n4 1 6\n-3 2 -9\n";
    assert_prints(&rt, rt.alloc(), &plan, &rows(rt.alloc())?, want)?;
    Ok(())
}

// Rows with equal keys meet: a count of 2 times a count of -3 is -6.
#[test]
fn joined_rows(rt: HostRuntime) -> Result<(), Fail> {
    let nodes = [input(2), input(2), arrange(0, 1), arrange(1, 1), join(2, 3)];
    let plan = built(rt.alloc(), &nodes)?;
    let changes = [
        list(rt.alloc(), &[((0, 3), &[1, 5], 2)])?,
        list(rt.alloc(), &[((3, 0), &[1, 6], -3), ((3, 0), &[2, 6], 1)])?,
    ];
    assert_prints(&rt, rt.alloc(), &plan, &changes, "-6 1 5 6\n")?;
    Ok(())
}

// The differences of the counts of one input, after 7 came at two incomparable times and all inputs
// were closed. Both changes are visible at (3, 3): "7 is there once" goes twice, and "7 is there
// twice" comes.
fn are_listed(rt: &impl Abort, alloc: Global) -> Result<(), Refusal> {
    let plan = reduction(alloc, 1, Kind::Count)?;
    let changes = [list(alloc, &[((0, 3), &[7], 1), ((3, 0), &[7], 1)])?];
    let view = NodeId::new(3);
    assert!(rt; view.number() < plan.len());
    assert!(rt; are_wide(&plan, &changes));
    let found = differences(alloc, &plan, view, &changes, &[])?;
    let want = list(
        alloc,
        &[
            ((0, 3), &[7, 1], 1),
            ((3, 0), &[7, 1], 1),
            ((3, 3), &[7, 1], -2),
            ((3, 3), &[7, 2], 1),
        ],
    )?;
    assert!(rt; found.as_slice() == want.as_slice());
    Ok(())
}

#[test]
fn differences_take_memory(rt: HostRuntime) -> Result<(), Fail> {
    match are_listed(&rt, rt.alloc()) {
        Err(Refusal::OutOfMemory) => are_listed(&rt, rt.alloc())?,
        done => done?,
    }
    Ok(())
}

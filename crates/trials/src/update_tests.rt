//! The sum of a short ledger at a time, also if an allocation is refused.
use crate::sketches::{at, list};
use row::Row;
use std::alloc::Global;
use std::test::Fail;
use update::{Bag, Refusal, Update, sum_at};

// The sum of the ledger at (10, 2). Nothing is left of row 9, and the change at (10, 3) does not
// count yet.
fn summed(alloc: Global) -> Result<Bag, Refusal> {
    let ledger = list(
        alloc,
        &[
            ((10, 1), &[9], 3),
            ((5, 2), &[9], -3),
            ((0, 0), &[7], 4),
            ((10, 3), &[7], 1),
        ],
    )?;
    sum_at(alloc, &ledger, at((10, 2)))
}

fn copied(bag: &Bag) -> Result<Bag, Refusal> {
    Ok(bag.clone()?)
}

#[test]
fn sums_take_memory(rt: HostRuntime) -> Result<(), Fail> {
    let bag = match summed(rt.alloc()) {
        Err(Refusal::OutOfMemory) => summed(rt.alloc())?,
        done => done?,
    };
    let copy = match copied(&bag) {
        Err(Refusal::OutOfMemory) => copied(&bag)?,
        done => done?,
    };
    assert!(rt; copy.len() == 1);
    assert_eq!(rt; copy.count(0), 4);
    Ok(())
}

// The only update is later, so nothing is kept and no memory is taken.
#[test]
fn empty_sums_take_no_memory(rt: HostRuntime) -> Result<(), Fail> {
    let later = Update {
        time: at((0, 5)),
        row: Row::new(rt.alloc(), &[7])?,
        diff: 1,
    };
    let bag = sum_at(rt.alloc(), &[later], at((4, 4)))?;
    assert!(rt; bag.is_empty());
    Ok(())
}

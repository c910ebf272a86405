//! Traces: batches can be inserted if there is memory, and a boundary finds those up to it and
//! those behind it.
use crate::batches::{insert, sealed};
use lattice::Bitime;
use std::alloc::Global;
use std::test::Fail;
use trace::{BatchList, Trace};
use trials::sketches::{at, list};
use update::Refusal;

// A list of two batches. The second takes back what the first has.
fn two_batches(alloc: Global) -> Result<BatchList<Bitime>, Refusal> {
    let seven = list(alloc, &[((0, 3), &[7], 1)])?;
    let no_seven = list(alloc, &[((4, 4), &[7], -1)])?;
    let mut batches = BatchList::new(alloc, 0, 0)?;
    insert(&mut batches, sealed(alloc, (0, 0), (4, 4), &seven)?)?;
    insert(&mut batches, sealed(alloc, (4, 4), (8, 8), &no_seven)?)?;
    Ok(batches)
}

#[test]
fn inserting_takes_memory(rt: HostRuntime) -> Result<(), Fail> {
    let batches = match two_batches(rt.alloc()) {
        Err(Refusal::OutOfMemory) => two_batches(rt.alloc())?,
        done => done?,
    };
    let boundary = [at((4, 4))];
    assert!(rt; batches.upper() == [at((8, 8))].as_slice());
    assert!(rt; matches!(batches.through(&boundary), Some([_])));
    assert!(rt; matches!(batches.after(&boundary), Some([_])));
    assert!(rt; batches.through(&[at((5, 5))]).is_none());
    Ok(())
}

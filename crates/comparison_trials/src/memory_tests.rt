//! A difference in which an allocation is refused. It ends with a fault, a beginning of the text
//! was taken, and the same difference is written once there is memory.
use comparison::write_difference;
use output::{MemoryOut, PrintFault};
use std::alloc::Global;
use std::test::Fail;
use trials::sketches::{at, list};
use update::{Bag, Refusal, sum_at};

// The text of the difference of the bags below.
const TEXT: &str = "- 1 7\n- 2 8\n+ 3 8\n2 -, 1 +\n";

fn bags(alloc: Global) -> Result<(Bag, Bag), Refusal> {
    let before = list(alloc, &[((0, 0), &[7], 1), ((0, 0), &[8], 2)])?;
    let after = list(alloc, &[((0, 0), &[8], 3)])?;
    let before = sum_at(alloc, &before, at((0, 0)))?;
    let after = sum_at(alloc, &after, at((0, 0)))?;
    Ok((before, after))
}

// No clause says that a difference that was refused memory is written once there is some.
#[test]
fn a_difference_takes_memory(rt: HostRuntime) -> Result<(), Fail> {
    let (before, after) = match bags(rt.alloc()) {
        Err(Refusal::OutOfMemory) => bags(rt.alloc())?,
        told => told?,
    };
    let mut out = MemoryOut::new(rt.alloc());
    if write_difference(rt.alloc(), &before, &after, &mut out).is_err() {
        assert!(rt; TEXT.as_bytes().starts_with(out.bytes()));
        out = MemoryOut::new(rt.alloc());
        write_difference(rt.alloc(), &before, &after, &mut out)?;
    }
    assert_eq!(rt; out.bytes(), TEXT.as_bytes());
    Ok(())
}

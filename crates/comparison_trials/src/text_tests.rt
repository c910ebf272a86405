//! The text of worked differences, and what an output has taken that fails before its end.
use crate::narrow::Narrow;
use comparison::write_difference;
use output::{MemoryOut, PrintFault};
use std::alloc::Global;
use std::test::Fail;
use trials::sketches::{at, list};
use update::{Bag, Refusal, sum_at};

// Rows with their weights.
type Rows = &'static [(&'static [i64], i64)];

fn bag(alloc: Global, rows: Rows) -> Result<Bag, Refusal> {
    let mut changes = Vec::new(alloc);
    for (row, weight) in rows {
        changes.push(((0, 0), *row, *weight))?;
    }
    sum_at(alloc, &list(alloc, changes.as_slice())?, at((0, 0)))
}

// The rows of two bags, and the text of what changed. It catches a definition that says something
// else than is meant: lines in another order, a sign at the wrong weight, a count of rows.
const WORKED: [(Rows, Rows, &str); 6] = [
    (&[], &[], "0 -, 0 +\n"),
    (
        &[(&[7], 1), (&[9], -2)],
        &[(&[7], 1), (&[9], -2)],
        "0 -, 0 +\n",
    ),
    (
        &[(&[7], 1), (&[8], 2), (&[9], -3), (&[10], 5)],
        &[(&[8], 2), (&[9], 4), (&[10], -5), (&[11], -1)],
        "- 1 7\n- -3 9\n+ 4 9\n- 5 10\n+ -5 10\n+ -1 11\n3 -, 3 +\n",
    ),
    (
        &[],
        &[(&[3, 4], 2), (&[-1], 1)],
        "+ 1 -1\n+ 2 3 4\n0 -, 2 +\n",
    ),
    (
        &[(&[3, 4], 2), (&[-1], 1)],
        &[],
        "- 1 -1\n- 2 3 4\n2 -, 0 +\n",
    ),
    (
        &[(&[5], 9223372036854775807)],
        &[(&[5], -9223372036854775808)],
        "- 9223372036854775807 5\n+ -9223372036854775808 5\n1 -, 1 +\n",
    ),
];

#[test]
fn worked_differences_are_written(rt: HostRuntime) -> Result<(), Fail> {
    for (before, after, text) in WORKED {
        let mut out = MemoryOut::new(rt.alloc());
        let before = bag(rt.alloc(), before)?;
        let after = bag(rt.alloc(), after)?;
        write_difference(rt.alloc(), &before, &after, &mut out)?;
        assert_eq!(rt; out.bytes(), text.as_bytes());
    }
    Ok(())
}

// No clause says that an output takes all that it has room for.
#[test]
fn a_failing_output_takes_a_beginning(rt: HostRuntime) -> Result<(), Fail> {
    let text = "- 1 7\n- 2 8\n+ 3 8\n2 -, 1 +\n".as_bytes();
    let before = bag(rt.alloc(), &[(&[7], 1), (&[8], 2)])?;
    let after = bag(rt.alloc(), &[(&[8], 3)])?;
    for room in 0..text.len() {
        let mut out = Narrow::new(rt.alloc(), room);
        let told = write_difference(rt.alloc(), &before, &after, &mut out);
        assert!(rt; told == Err(PrintFault::Write));
        assert_eq!(rt; out.bytes(), &text[..room]);
    }
    let mut out = Narrow::new(rt.alloc(), text.len());
    write_difference(rt.alloc(), &before, &after, &mut out)?;
    assert_eq!(rt; out.bytes(), text);
    Ok(())
}

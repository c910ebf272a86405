//! Explains a file, and compares what is told with what should be.
use explain::{Found, explain};
use output::{MemoryOut, PrintFault};
use std::alloc::Global;
use std::process::Abort;
use std::str;

/// A file, and what is told about it.
#[derive(Clone, Copy)]
pub(crate) struct Example {
    pub(crate) file: &'static str,
    pub(crate) told: &'static str,
}

/// Explains the file, and compares the text.
pub(crate) fn check_told<R: Abort>(
    rt: &R,
    alloc: Global,
    file: &[u8],
    told: &str,
) -> Result<Found, PrintFault> {
    let mut out = MemoryOut::new(alloc);
    let found = explain(alloc, file, &mut out)?;
    assert_eq!(rt; str::from_utf8(out.bytes()), Ok(told));
    Ok(found)
}

/// Explains each file.
pub(crate) fn check_all<R: Abort>(
    rt: &R,
    alloc: Global,
    examples: &[Example],
) -> Result<(), PrintFault> {
    for example in examples {
        check_told(rt, alloc, example.file.as_bytes(), example.told)?;
    }
    Ok(())
}

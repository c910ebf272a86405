//! What is returned: the first fault and the counts, or why the text was not written.
ghost use Rattle.std.specs.Prelude.{⊤};

use crate::expectations::check_told;
use explain::{Found, explain};
use grammar::Fault;
use output::{MemoryOut, Out, OutFault, PrintFault};
use std::alloc::Global;
use std::process::Abort;
use std::test::Fail;

const THREE_FAULTS: &str = "\
input a 1
view v b
start
change a 0 0 1 x
change a 0 0 1 7
close v
";

const THREE_FAULTS_TOLD: &str = "\
line 2 code 14: no such name, or a name of another sort
    view v b
           ^
line 4 code 33: not a number, or not an item
    change a 0 0 1 x
                   ^
line 6 code 14: no such name, or a name of another sort
    close v
          ^
    hint: line 2 was to declare `v`, and is at fault
3 faults, 0 warnings
";

#[test]
fn all_faults_are_counted(rt: HostRuntime) -> Result<(), Fail> {
    let found = check_told(&rt, rt.alloc(), THREE_FAULTS.as_bytes(), THREE_FAULTS_TOLD)?;
    let first = Found {
        fault: Some(Fault { line: 2, code: 14 }),
        faults: 3,
        warnings: 0,
    };
    assert_eq!(rt; found, first);
    Ok(())
}

const WARNED: &str = "\
input a 1
view v a
start
change a 0 0 0 7
";

const WARNED_TOLD: &str = "\
line 2 warning: no line asks about this view
    view v a
         ^
line 4 warning: the difference is 0; a run refuses the line with 3
    change a 0 0 0 7
                 ^
0 faults, 2 warnings
";

#[test]
fn warnings_are_no_faults(rt: HostRuntime) -> Result<(), Fail> {
    let found = check_told(&rt, rt.alloc(), WARNED.as_bytes(), WARNED_TOLD)?;
    let none = Found {
        fault: None,
        faults: 0,
        warnings: 2,
    };
    assert_eq!(rt; found, none);
    Ok(())
}

// An output that takes some calls, one byte at each, and then fails.
#[derive(Drop)]
struct FailingOut {
    calls: u64,
}

impl Out for FailingOut {
    ghost use Rattle.std.specs.Prelude.{⊤};

    ghost took = { λ _ _ _ _. ⊤ };

    ghost at_once = { λ _. tt };

    ghost in_turn = { λ _ _ _ _ _ _ _ _ _. tt };

    fn put(&mut self, _bytes: &[u8]) -> Result<usize, OutFault> {
        if self.calls == 0 {
            return Err(OutFault);
        }
        self.calls -= 1;
        Ok(1)
    }
}

// An output that fails at its first call, and one that fails at its fifth.
#[test]
fn a_failing_output_is_told(rt: HostRuntime) {
    for calls in [0, 4] {
        for file in [THREE_FAULTS, WARNED] {
            let mut out = FailingOut { calls };
            let failed = explain(rt.alloc(), file.as_bytes(), &mut out);
            assert_eq!(rt; failed, Err(PrintFault::Write));
        }
    }
}

// Explains the file, and once more if memory was refused.
fn explained<R: Abort>(rt: &R, alloc: Global, file: &str) -> Result<Found, PrintFault> {
    let mut out = MemoryOut::new(alloc);
    match explain(alloc, file.as_bytes(), &mut out) {
        Err(refused) => {
            // The output takes memory too, and fails where it is refused.
            assert!(rt; refused == PrintFault::OutOfMemory || refused == PrintFault::Write);
            let mut again = MemoryOut::new(alloc);
            explain(alloc, file.as_bytes(), &mut again)
        }
        told => told,
    }
}

// No clause says that an explanation that was refused memory succeeds once there is some.
#[test]
fn explaining_takes_memory(rt: HostRuntime) -> Result<(), Fail> {
    let found = explained(&rt, rt.alloc(), THREE_FAULTS)?;
    assert_eq!(rt; found.faults, 3);
    let found = explained(&rt, rt.alloc(), WARNED)?;
    assert_eq!(rt; found.warnings, 2);
    Ok(())
}

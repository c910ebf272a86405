//! What `diff` does with a file's bytes: two reads of a view, and what differs between them.
ghost use Rattle.std.specs.Prelude.{◌≡◌, ◌≤◌, Some, option_map};
ghost use Rattle.bitview.specs.Comparisons.{AreCompared, Compares, IsAnswered, IsRead};
ghost use Rattle.grammar.specs.ScriptModels.{view_named};

use crate::actions::{end, keep_freed_memory, parsed, refuse, unread};
use crate::writers::Told;
use command_line::Comparison;
use comparison::write_difference;
use grammar::Script;
use lattice::Bitime;
use output::{Out, PrintFault};
use plan::NodeId;
use script::{Rows, RunFault, TwoReads, read_twice};
use session::OpenGate;
use std::alloc::Global;
use std::fmt::Write;
use std::sync::Wait;
use std::thread::Threads;
use update::{Bag, Refusal};

/// Runs the lines of the file and writes what differs between two reads of a view; `None` is a file
/// that was not read. The result is the program's status:
///
/// | Status | When | The line on the second output |
/// |---|---|---|
/// | 0 | done | none |
/// | 2 | the file is at fault | `fault line L code C` |
/// | 3 | memory was refused or a thread could not be made, or the file or the output failed | as [`act`](crate::actions::act) tells it |
/// | 4 | a number does not fit in 64 bits | `overflow` |
/// | 6 | there is no such view, or it cannot be read at one of the two pairs | `no view NAME`; `cannot read NAME at V S: WHY` |
///
/// With status 2, 4 and 6 nothing was written.
///
/// Cost: that of parsing the script and of running it with two reads.
pub fn compare<R: Threads + Wait + Sync, W: Out, E: Out>(
    runtime: &R,
    alloc: Global,
    comparison: Comparison<'_>,
    bytes: Option<Vec<u8>>,
    out: &mut W,
    error: &mut E,
) -> u8
    requires { (1 ≤ comparison.workers) × (comparison.workers ≤ 16) }
    ensures { Compares (λ taken failures. W.took out.old taken failures out.new)
        comparison.entry.view.now comparison.entry.first comparison.entry.second
        (option_map (λ b. b.items) bytes) result }
{
    let Some(bytes) = bytes else {
        return unread(comparison.file, error);
    };
    match parsed(alloc, bytes) {
        Ok(script) => {
            keep_freed_memory(alloc);
            compare_in(runtime, alloc, comparison, &script, out, error)
        }
        Err(fault) => refuse(fault, error),
    }
}

// Compares two reads of a view of the script, if there is a view of that name.
fn compare_in<R: Threads + Wait + Sync, W: Out, E: Out>(
    runtime: &R,
    alloc: Global,
    comparison: Comparison<'_>,
    script: &Script,
    out: &mut W,
    error: &mut E,
) -> u8
    ensures { IsAnswered (λ taken failures. W.took out.old taken failures out.new)
        comparison.entry.view.now comparison.entry.first comparison.entry.second script.now result }
{
    match script.view(comparison.view) {
        Some(view) => read_and_compare(runtime, alloc, comparison, script, view, out, error),
        None => {
            let view = comparison.view;
            let _told = writeln!(Told { error }, "no view {view}");
            6
        }
    }
}

// Reads the view at both times and writes what differs.
fn read_and_compare<R: Threads + Wait + Sync, W: Out, E: Out>(
    runtime: &R,
    alloc: Global,
    comparison: Comparison<'_>,
    script: &Script,
    view: NodeId,
    out: &mut W,
    error: &mut E,
) -> u8
    requires { view_named script.now comparison.view.now ≡ Some view }
    ensures { IsAnswered (λ taken failures. W.took out.old taken failures out.new)
        comparison.entry.view.now comparison.entry.first comparison.entry.second script.now result }
{
    let reads = TwoReads {
        view,
        first: comparison.first,
        second: comparison.second,
    };
    match read_twice(runtime, alloc, script, comparison.workers, reads, &OpenGate) {
        Ok(rows) => {
            let (before, after) = rows;
            compare_rows(alloc, comparison, before, after, out, error)
        }
        Err(refusal) => end(RunFault::from(refusal), error),
    }
}

// Writes what differs between the rows of two reads, if neither was refused.
fn compare_rows<W: Out, E: Out>(
    alloc: Global,
    comparison: Comparison<'_>,
    before: Rows,
    after: Rows,
    out: &mut W,
    error: &mut E,
) -> u8
    ensures { AreCompared (λ taken failures. W.took out.old taken failures out.new)
        before after result }
{
    let before = match before {
        Ok(before) => before,
        Err(refusal) => return unreadable(comparison.view, comparison.first, refusal, error),
    };
    match after {
        Ok(after) => write_compared(alloc, &before, &after, out, error),
        Err(refusal) => unreadable(comparison.view, comparison.second, refusal, error),
    }
}

// Writes what differs between two bags.
fn write_compared<W: Out, E: Out>(
    alloc: Global,
    before: &Bag,
    after: &Bag,
    out: &mut W,
    error: &mut E,
) -> u8
    ensures { IsRead (λ taken failures. W.took out.old taken failures out.new)
        before.now after.now result }
{
    match write_difference(alloc, before, after, out) {
        Ok(()) => 0,
        Err(PrintFault::OutOfMemory) => end(RunFault::Refused(1), error),
        Err(PrintFault::Write) => end(RunFault::Write, error),
    }
}

// Reports that a view cannot be read at a time.
fn unreadable<E: Out>(view: &str, time: Bitime, refusal: Refusal, error: &mut E) -> u8
    ensures { result ≡ 6 }
{
    let valid = time.first;
    let system = time.second;
    let _told = writeln!(
        Told { error },
        "cannot read {view} at {valid} {system}: {refusal}"
    );
    6
}

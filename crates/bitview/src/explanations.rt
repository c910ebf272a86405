//! What `explain` does with a file's bytes.
ghost use Rattle.std.specs.Prelude.{option_map};
ghost use Rattle.bitview.specs.Explanations.{Explains};

use crate::actions::{end, unread};
use explain::explain;
use output::{Out, PrintFault};
use script::RunFault;
use std::alloc::Global;

/// Tells in words what is wrong with a file; `None` is a file that was not read. The text goes to
/// the first output. The result is the program's status:
///
/// | Status | When | The line on the second output |
/// |---|---|---|
/// | 0 | nothing was found | none |
/// | 2 | some line is at fault | none |
/// | 3 | memory was refused, or the file or the output failed | as [`act`](crate::actions::act) tells it |
/// | 5 | no line is at fault, but there are warnings | none |
///
/// Cost: that of [`explain::explain`].
pub fn explain_file<W: Out, E: Out>(
    alloc: Global,
    file: &str,
    bytes: Option<Vec<u8>>,
    out: &mut W,
    error: &mut E,
) -> u8
    ensures { Explains (λ taken failures. W.took out.old taken failures out.new)
        (option_map (λ b. b.items) bytes) result }
{
    let Some(bytes) = bytes else {
        return unread(file, error);
    };
    match explain(alloc, bytes.as_slice(), out) {
        Ok(found) => {
            if found.fault.is_some() {
                2
            } else if found.warnings > 0 {
                5
            } else {
                0
            }
        }
        Err(PrintFault::OutOfMemory) => end(RunFault::Refused(1), error),
        Err(PrintFault::Write) => end(RunFault::Write, error),
    }
}

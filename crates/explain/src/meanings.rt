//! What the codes of faults mean, in words, and how what is told of a fault begins and ends.
ghost use Rattle.std.specs.Prelude.{◌≡◌, IfOk, string_bytes};
ghost use Rattle.explain.specs.Explanations.{counts_text, fault_head, plural};

use grammar::Fault;
use std::alloc::{AllocError, Global};

/// How what is told of the fault begins.
pub(crate) fn head(alloc: Global, fault: Fault) -> Result<String, AllocError>
    ensures { IfOk result (λ text. string_bytes text ≡ fault_head fault) }
{
    let line = fault.line;
    let code = fault.code;
    format!(in alloc; "line {line} code {code}: ")
}

/// The last line, which counts what was found.
pub(crate) fn last_line(alloc: Global, faults: u64, warnings: u64) -> Result<String, AllocError>
    ensures { IfOk result (λ text. string_bytes text ≡ counts_text faults warnings) }
{
    let of_faults = plural(faults);
    let of_warnings = plural(warnings);
    format!(in alloc; "{faults} fault{of_faults}, {warnings} warning{of_warnings}\n")
}

// What follows the noun behind a number.
fn plural(count: u64) -> &'static str
    ensures { result.now ≡ plural count }
{
    if count == 1 { "" } else { "s" }
}

/// What the code of a fault means.
pub(crate) fn meaning(code: u8) -> &'static str {
    match code {
        13 => "too many inputs, nodes and views; 256 are taken",
        14 => "no such name, or a name of another sort",
        15 => "the name is taken",
        16 => "no such column",
        17 => "two widths",
        18 => "not arranged",
        19 => "arranged by different keys",
        20 => "not 1 to 8 columns",
        21 => "no such key",
        31 => "unknown command, kind or comparison",
        32 => "wrong number of words",
        33 => "not a number, or not an item",
        34 => "on the wrong side of `start`, a second `start`, or none",
        35 => "more than 4096 bytes",
        36 => "not UTF-8",
        37 => "not a name",
        _ => "another fault",
    }
}

//! The whole explanation: every fault of a file, or else its warnings, and a last line that counts
//! them.
ghost use Rattle.std.specs.Prelude.{◌≡◌, ◌↔◌, ◌++◌, ℕ, List, None, Some, IfOk, IfErr, OnOk};
ghost use Rattle.grammar.specs.Scripts.{script_of};
ghost use Rattle.output.specs.Outs.{Wrote};
ghost use Rattle.explain.specs.Explanations.{IsFirstOf, Opens, TookSome, WroteSome, counts_text};
ghost use Rattle.output.specs.Faults.{failures};

use crate::faults::FaultTeller;
use crate::found::Found;
use crate::meanings::{head, last_line};
use crate::teller::print_told;
use crate::warnings::WarningTeller;
use grammar::{Fault, Script, parse};
use output::{Out, OutputBuffer, PrintFault};
use std::alloc::Global;

// Tells about a file whose first fault this is. How it begins is known before the lines are gone
// over, so it is what the text begins with.
fn tell_faults<W: Out>(
    alloc: Global,
    bytes: &[u8],
    fault: Fault,
    buffer: &mut OutputBuffer,
    out: &mut W,
) -> Result<Found, PrintFault>
    ensures first { IfOk result (λ found. found.fault ≡ Some fault) }
    ensures some { IfOk result (λ found. found.faults ≡ 0 → ⊥) }
    ensures wrote { OnOk result ((text : List ℕ) × Opens (Some fault) text
        × Wrote W.took out.old buffer.old text out.new buffer.new) }
    ensures broke { IfErr result (λ fault. TookSome W.took out.old (failures fault) out.new) }
{
    let beginning = head(alloc, fault)?;
    let mut teller = FaultTeller::new(alloc, fault);
    print_told(alloc, &mut teller, beginning.as_str(), bytes, buffer, out)?;
    Ok(Found {
        fault: Some(fault),
        faults: teller.faults(),
        warnings: 0,
    })
}

// Tells about a file without a fault: its warnings.
fn tell_warnings<W: Out>(
    alloc: Global,
    bytes: &[u8],
    script: &Script,
    buffer: &mut OutputBuffer,
    out: &mut W,
) -> Result<Found, PrintFault>
    ensures none { IfOk result (λ found. (found.fault ≡ None) × (found.faults ≡ 0)) }
    ensures wrote { OnOk result (WroteSome W.took out.old buffer.old out.new buffer.new) }
    ensures broke { IfErr result (λ fault. TookSome W.took out.old (failures fault) out.new) }
{
    let mut teller = WarningTeller::new(alloc, script)?;
    print_told(alloc, &mut teller, "", bytes, buffer, out)?;
    Ok(Found {
        fault: None,
        faults: 0,
        warnings: teller.warnings(),
    })
}

// Tells about each line of the file. The last text may still wait in the buffer.
fn tell<W: Out>(
    alloc: Global,
    bytes: &[u8],
    buffer: &mut OutputBuffer,
    out: &mut W,
) -> Result<Found, PrintFault>
    ensures first { IfOk result (λ found. IsFirstOf found.fault (script_of bytes.now)) }
    ensures counted { IfOk result (λ found. (found.faults ≡ 0) ↔ (found.fault ≡ None)) }
    ensures wrote { IfOk result (λ found. (text : List ℕ) × Opens found.fault text
        × Wrote W.took out.old buffer.old text out.new buffer.new) }
    ensures broke { IfErr result (λ fault. TookSome W.took out.old (failures fault) out.new) }
{
    match parse(alloc, bytes) {
        Ok(script) => tell_warnings(alloc, bytes, &script, buffer, out),
        Err(fault) => {
            if fault.code == 1 {
                return Err(PrintFault::OutOfMemory);
            }
            tell_faults(alloc, bytes, fault, buffer, out)
        }
    }
}

// Adds the last line, and writes all that waits.
fn finish<W: Out>(
    alloc: Global,
    found: &Found,
    buffer: &mut OutputBuffer,
    out: &mut W,
) -> Result<(), PrintFault>
    ensures wrote { OnOk result (W.took out.old
        (buffer.old ++ counts_text found.now.faults found.now.warnings) 0 out.new) }
    ensures broke { IfErr result (λ fault. TookSome W.took out.old (failures fault) out.new) }
{
    let text = last_line(alloc, found.faults, found.warnings)?;
    buffer.push(text.as_str())?;
    buffer.flush(out)?;
    Ok(())
}

/// Writes what is wrong with a command file, line by line and in words: all of its faults, or if it
/// has none its warnings. The last line counts both.
///
/// The faults after the first are those that [`grammar::Reader`] finds: a faulty line declares
/// nothing, so one mistake may have several faults.
///
/// If the result is Ok, all of the text was taken. After an Err, a part of it was: `OutOfMemory` if
/// an allocation was refused, and `Write` if a call of the output failed.
///
/// Cost: linear in the bytes; a fault costs its line, and a name that is not found all names. A
/// warning about a `read` costs the plan for each input.
pub fn explain<W: Out>(alloc: Global, bytes: &[u8], out: &mut W) -> Result<Found, PrintFault>
    ensures first { IfOk result (λ found. IsFirstOf found.fault (script_of bytes.now)) }
    ensures counted { IfOk result (λ found. (found.faults ≡ 0) ↔ (found.fault ≡ None)) }
    ensures wrote { IfOk result (λ found. (text : List ℕ) × Opens found.fault text
        × W.took out.old (text ++ counts_text found.faults found.warnings) 0 out.new) }
    ensures broke { IfErr result (λ fault. TookSome W.took out.old (failures fault) out.new) }
{
    let mut buffer = OutputBuffer::new(alloc);
    let found = tell(alloc, bytes, &mut buffer, out)?;
    finish(alloc, &found, &mut buffer, out)?;
    Ok(found)
}

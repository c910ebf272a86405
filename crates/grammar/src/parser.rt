//! A whole file, read line by line up to the first fault. Each line is read once, and the lines
//! after a faulty one are not read.
ghost use Rattle.std.specs.Prelude.{◌≡◌, IfErr};
ghost use Rattle.grammar.specs.Faults.{error_code};
ghost use Rattle.grammar.specs.ParseStates.{parse_state};
ghost use Rattle.grammar.specs.Text.{lines_of};
ghost use Rattle.grammar.specs.Scripts.{Answers, IsReached, model_of, script_of, first_parse_state};

use crate::draft::Draft;
use crate::fault::{Fault, LineError};
use crate::lines::take_line;
use crate::script::Script;
use crate::text::first_line;
use std::alloc::Global;
use update::Refusal;

pub(crate) fn fault(line: u64, error: LineError) -> Fault
    ensures { result ≡ record { line = line; code = error_code error } }
{
    Fault {
        line,
        code: error.code(),
    }
}

// Handles each line in turn.
fn take_lines(alloc: Global, draft: &mut Draft, bytes: &[u8]) -> Result<(), Fault>
    requires { parse_state draft.old ≡ first_parse_state }
    ensures exact { Answers (λ _. model_of (parse_state draft.new)) result (script_of bytes.now) }
    ensures reached { IfErr result (λ fault. IsReached (lines_of bytes.now) fault.line) }
{
    let mut number: u64 = 1;
    let mut rest = bytes;
    let mut words = Vec::new(alloc);
    while !rest.is_empty() {
        let (line, behind) = first_line(rest);
        match take_line(alloc, draft, number, line, &mut words) {
            Ok(()) => {}
            Err(error) => return Err(fault(number, error)),
        }
        number += 1;
        rest = behind;
    }
    if draft.started {
        Ok(())
    } else {
        Err(fault(number, LineError::Refused(Refusal::BadOrder)))
    }
}

/// Parses a command file: returns its script, or its first faulty line with the code of the
/// refusal.
///
/// The codes are those of [`Refusal::code`]: 13 to 21 and 31 to 37, and 1 if memory ran out while
/// the line was being read.
///
/// Cost: linear in the bytes up to the fault.
pub fn parse(alloc: Global, bytes: &[u8]) -> Result<Script, Fault>
    // Which script, or which fault, unless memory ran out (code 1).
    ensures exact { Answers (λ script. script) result (script_of bytes.now) }
    // The lines before the fault are in order, even if memory ran out.
    ensures reached { IfErr result (λ fault. IsReached (lines_of bytes.now) fault.line) }
{
    let mut draft = Draft::new(alloc);
    take_lines(alloc, &mut draft, bytes)?;
    Ok(Script::of(draft))
}

//! What is wrong with a file: the number of a line and the code of a refusal. While a file is being
//! read, running out of memory is kept apart from the refusals of its lines, because it says
//! nothing about the file.
ghost use Rattle.std.specs.Prelude.{◌≡◌};
ghost use Rattle.grammar.specs.Faults.{error_code, IsErrorOf};

use std::alloc::{AllocError, AllocFailed};
use thiserror::Error;
use update::Refusal;

/// The first faulty line, counted from 1, and the code of its refusal. Code 1 means that memory ran
/// out while that line was being read.
#[derive(Clone, Copy, Debug, PartialEq, Eq, Error)]
#[error("fault line {line} code {code}")]
pub struct Fault {
    /// The line, counted from 1. Skipped lines count too.
    pub line: u64,
    /// The code of the refusal, as [`Refusal::code`] gives it.
    pub code: u8,
}

/// Why a line was refused.
#[derive(Clone, Copy)]
pub(crate) enum LineError {
    Memory,
    Refused(Refusal),
}

impl LineError {
    // The plan's refusal, as an error of the line that adds the node.
    pub(crate) fn of(refusal: Refusal) -> LineError
        ensures { IsErrorOf refusal result }
    {
        match refusal {
            Refusal::OutOfMemory => LineError::Memory,
            refusal => LineError::Refused(refusal),
        }
    }

    // The code that the program prints.
    pub(crate) fn code(self) -> u8
        ensures { result ≡ error_code self }
    {
        match self {
            LineError::Memory => Refusal::OutOfMemory.code(),
            LineError::Refused(refusal) => refusal.code(),
        }
    }
}

impl From<AllocError> for LineError {
    ghost use Rattle.std.specs.Prelude.{◌≡◌};
    ghost use Rattle.grammar.specs.declared.fault.LineError.TheVariants.{Memory};

    ghost from_gives = { λ _ e. e ≡ Memory };

    fn from(_refused: AllocError) -> LineError {
        LineError::Memory
    }
}

impl<T: Drop> From<AllocFailed<T>> for LineError {
    ghost use Rattle.std.specs.Prelude.{◌≡◌};
    ghost use Rattle.grammar.specs.declared.fault.LineError.TheVariants.{Memory};

    ghost from_gives = { λ _ e. e ≡ Memory };

    fn from(_refused: AllocFailed<T>) -> LineError {
        LineError::Memory
    }
}

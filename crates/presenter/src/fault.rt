//! Why a run's text was not shown.
use output::{OutFault, PrintFault};
use std::alloc::AllocError;
use thiserror::Error;

/// What is wrong with a line.
#[derive(Clone, Copy, Debug, PartialEq, Eq, Error)]
pub enum ShowProblem {
    /// Memory was refused.
    #[error("no memory")]
    OutOfMemory,
    /// The output failed.
    #[error("not written")]
    Write,
    /// The text is not UTF-8 here.
    #[error("the text is not UTF-8")]
    NotUtf8,
    /// The line begins no answer of a run.
    #[error("no answer of a run begins so")]
    UnknownLine,
    /// The line is not a row of the answer in which it stands.
    #[error("no row of the answer before it")]
    BadRow,
    /// The answer has more rows than the text.
    #[error("the text ends within an answer")]
    Unfinished,
}

/// The line of a run's text that is at fault.
#[derive(Clone, Copy, Debug, PartialEq, Eq, Error)]
#[error("line {line}: {problem}")]
pub struct ShowFault {
    /// The line, from 1; one after the last if the text ends too early.
    pub line: u64,
    /// What is wrong with it.
    pub problem: ShowProblem,
}

impl From<AllocError> for ShowProblem {
    fn from(_refused: AllocError) -> ShowProblem {
        ShowProblem::OutOfMemory
    }
}

impl From<OutFault> for ShowProblem {
    fn from(_failed: OutFault) -> ShowProblem {
        ShowProblem::Write
    }
}

impl From<PrintFault> for ShowProblem {
    fn from(fault: PrintFault) -> ShowProblem {
        match fault {
            PrintFault::OutOfMemory => ShowProblem::OutOfMemory,
            PrintFault::Write => ShowProblem::Write,
        }
    }
}

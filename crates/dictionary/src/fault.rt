//! Why a dictionary was not read.
use std::alloc::AllocError;
use thiserror::Error;

/// What is wrong with a record of a dictionary.
#[derive(Clone, Copy, Debug, PartialEq, Eq, Error)]
pub enum Problem {
    /// Memory was refused.
    #[error("no memory")]
    OutOfMemory,
    /// A field is not UTF-8.
    #[error("a field is not UTF-8")]
    NotUtf8,
    /// The first field is none of the words, or other fields follow than belong to it.
    #[error("no record of a dictionary: valid, revision, column and name begin one")]
    UnknownRecord,
    /// A kind is not one.
    #[error("no kind: whole, signed, decimal N (N from 0 to 9), date and code are kinds")]
    UnknownKind,
    /// A name has another number than the next one, or it has a number already.
    #[error("names are numbered from 0 on, one by one, and each has one number")]
    BadNumber,
}

/// The record of a dictionary that is at fault.
#[derive(Clone, Copy, Debug, PartialEq, Eq, Error)]
#[error("line {line}: {problem}")]
pub struct DictionaryFault {
    /// The line of the file on which the record begins, from 1.
    pub line: u64,
    /// What is wrong with it.
    pub problem: Problem,
}

impl From<AllocError> for Problem {
    fn from(_refused: AllocError) -> Problem {
        Problem::OutOfMemory
    }
}

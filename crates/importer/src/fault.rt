//! Why a CSV file was not imported.
use crate::excerpt::Excerpt;
use dictionary::Kind;
use output::{OutFault, PrintFault};
use std::alloc::AllocError;
use thiserror::Error;

/// Why a field has no number.
#[derive(Clone, Copy, Debug, PartialEq, Eq, Error)]
pub enum FieldProblem {
    /// It is not a text of its kind, or its number does not fit in 64 bits.
    #[error("is no {0}")]
    NotOfKind(Kind),
    /// It is a day before the first that a time can be.
    #[error("is before 1970-01-01")]
    TooEarly,
}

/// Why a CSV file was not imported. A line is that of the file on which the record begins, from 1.
#[derive(Debug, Drop, Error)]
pub enum ImportFault {
    /// Memory was refused.
    #[error("no memory")]
    OutOfMemory,
    /// The output failed.
    #[error("not written")]
    Write,
    /// The file has no record.
    #[error("line 1: no record with the titles of the columns")]
    NoTitles,
    /// No column has this title.
    #[error("line {line}: no column has the title {title}")]
    NoColumn {
        /// The line of the titles.
        line: u64,
        /// The title.
        title: Excerpt,
    },
    /// Two columns have this title.
    #[error("line {line}: two columns have the title {title}")]
    TwoColumns {
        /// The line of the titles.
        line: u64,
        /// The title.
        title: Excerpt,
    },
    /// A record has another number of fields than the titles.
    #[error("line {line}: {fields} fields, but there are {titles} titles")]
    WrongLength {
        /// The line.
        line: u64,
        /// How many fields the record has.
        fields: u64,
        /// How many titles there are.
        titles: u64,
    },
    /// A field is not UTF-8.
    #[error("line {line}, column {title}: not UTF-8")]
    NotUtf8 {
        /// The line.
        line: u64,
        /// The title of the column.
        title: String,
    },
    /// A field has no number.
    #[error("line {line}, column {title}: {text} {problem}")]
    BadField {
        /// The line.
        line: u64,
        /// The title of the column.
        title: String,
        /// The field.
        text: Excerpt,
        /// Why it has no number.
        problem: FieldProblem,
    },
    /// With this record there are more changes than a table takes.
    #[error("line {line}: more than 1048576 changes, counting each piece of a large amount")]
    TooManyChanges {
        /// The line.
        line: u64,
    },
}

impl From<AllocError> for ImportFault {
    fn from(_refused: AllocError) -> ImportFault {
        ImportFault::OutOfMemory
    }
}

impl From<OutFault> for ImportFault {
    fn from(_failed: OutFault) -> ImportFault {
        ImportFault::Write
    }
}

impl From<PrintFault> for ImportFault {
    fn from(fault: PrintFault) -> ImportFault {
        match fault {
            PrintFault::OutOfMemory => ImportFault::OutOfMemory,
            PrintFault::Write => ImportFault::Write,
        }
    }
}

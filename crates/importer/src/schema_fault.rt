//! Why a schema was not read.
use crate::excerpt::Excerpt;
use std::alloc::AllocError;
use thiserror::Error;

/// What is wrong with a line of a schema.
#[derive(Debug, Drop, Error)]
pub enum SchemaProblem {
    /// Memory was refused.
    #[error("no memory")]
    OutOfMemory,
    /// The file is not UTF-8 here.
    #[error("the text is not UTF-8")]
    NotUtf8,
    /// A quote has no partner on the line.
    #[error("a quote is not closed")]
    UnclosedQuote,
    /// The first word begins no line.
    #[error("{0} begins no line: table, column, plan, ask and shows do")]
    UnknownWord(Excerpt),
    /// The line has other words than it should.
    #[error("the line is not of the form: {0}")]
    WrongForm(&'static str),
    /// There is a table already.
    #[error("the table is named a second time")]
    SecondTable,
    /// The table's name has not the form of a name.
    #[error("{0} is no name: 1 to 32 letters, digits and _, a letter first")]
    BadName(Excerpt),
    /// The role is not one.
    #[error("{0} is no role: valid, revision, row and weight are roles")]
    UnknownRole(Excerpt),
    /// The kind is not one.
    #[error("no kind: whole, signed, decimal N (N from 0 to 9), date and code are kinds")]
    UnknownKind,
    /// Columns of this role are not of this kind.
    #[error("a {role} column is not a {kind}")]
    KindOfRole {
        /// The role.
        role: &'static str,
        /// The kind.
        kind: dictionary::Kind,
    },
    /// There is a column of this role already.
    #[error("a second {0} column")]
    SecondOfRole(&'static str),
    /// There is a column of this title already.
    #[error("the column {0} is named a second time")]
    SecondOfTitle(Excerpt),
    /// There are eight row columns already.
    #[error("a ninth row column; a row has at most 8")]
    TooManyRowColumns,
    /// The word has the form of a date, but the calendar has no such day, or it is before 1970.
    #[error("{0} is no day from 1970-01-01 on")]
    BadDay(Excerpt),
    /// The file names no table.
    #[error("no line names the table")]
    NoTable,
    /// The file has no row column.
    #[error("no column has the role row")]
    NoRowColumn,
}

/// The line of a schema that is at fault.
#[derive(Debug, Drop, Error)]
#[error("line {line}: {problem}")]
pub struct SchemaFault {
    /// The line, from 1; one after the last if the fault is that something is missing.
    pub line: u64,
    /// What is wrong with it.
    pub problem: SchemaProblem,
}

impl From<AllocError> for SchemaProblem {
    fn from(_refused: AllocError) -> SchemaProblem {
        SchemaProblem::OutOfMemory
    }
}

//! One record of a CSV file as one change.
use crate::excerpt::Excerpt;
use crate::fault::{FieldProblem, ImportFault};
use crate::schema::{Role, SchemaColumn};
use csv::ByteRecord;
use dictionary::{Kind, Names, line_of, read_number, read_time};
use std::alloc::{AllocError, Global};
use std::str;

/// A change: its time, its difference, and the text of its row, each number after a space.
#[derive(Drop)]
pub(crate) struct Change {
    pub(crate) valid: u64,
    pub(crate) revision: u64,
    pub(crate) weight: i64,
    pub(crate) row: String,
}

/// Why a field was not taken.
#[derive(Drop)]
enum Reason {
    OutOfMemory,
    NotUtf8,
    Problem(FieldProblem),
}

impl From<AllocError> for Reason {
    fn from(_refused: AllocError) -> Reason {
        Reason::OutOfMemory
    }
}

impl Change {
    /// A change without columns, at time 0 and with difference 1. Takes no memory.
    pub(crate) fn new(alloc: Global) -> Change {
        Change {
            valid: 0,
            revision: 0,
            weight: 1,
            row: String::new(alloc),
        }
    }

    fn clear(&mut self) {
        self.valid = 0;
        self.revision = 0;
        self.weight = 1;
        self.row.clear();
    }
}

// The number of a field.
fn number(kind: Kind, text: &str) -> Result<i64, Reason> {
    match read_number(kind, text) {
        Some(number) => Ok(number),
        None => Err(Reason::Problem(FieldProblem::NotOfKind(kind))),
    }
}

// The time of a field. A day before the first is told apart from a text that is no day.
fn time(kind: Kind, text: &str) -> Result<u64, Reason> {
    match read_time(kind, text) {
        Some(time) => Ok(time),
        None if read_number(kind, text).is_some() => Err(Reason::Problem(FieldProblem::TooEarly)),
        None => Err(Reason::Problem(FieldProblem::NotOfKind(kind))),
    }
}

// The number of a field of the row.
fn column_number(alloc: Global, names: &mut Names, kind: Kind, text: &str) -> Result<i64, Reason> {
    if kind == Kind::Code {
        return Ok(names.number_of(alloc, text)? as i64);
    }
    number(kind, text)
}

// Takes the text of a field for what its column is.
fn take_text(
    alloc: Global,
    change: &mut Change,
    names: &mut Names,
    column: &SchemaColumn,
    text: &str,
) -> Result<(), Reason> {
    match column.role {
        Role::Valid => change.valid = time(column.kind, text)?,
        Role::Revision => change.revision = time(column.kind, text)?,
        Role::Weight => change.weight = number(column.kind, text)?,
        Role::Row => {
            let number = column_number(alloc, names, column.kind, text)?;
            write!(change.row, " {number}")?;
        }
    }
    Ok(())
}

// Takes a field.
fn take_field(
    alloc: Global,
    change: &mut Change,
    names: &mut Names,
    column: &SchemaColumn,
    field: &[u8],
) -> Result<(), Reason> {
    match str::from_utf8(field) {
        Ok(text) => take_text(alloc, change, names, column, text),
        Err(_) => Err(Reason::NotUtf8),
    }
}

// The fault of a field that was not taken for this reason.
fn fault(
    alloc: Global,
    column: &SchemaColumn,
    field: &[u8],
    line: u64,
    reason: Reason,
) -> Result<ImportFault, AllocError> {
    let title = String::from_str(alloc, column.title.as_str())?;
    match (reason, str::from_utf8(field)) {
        (Reason::OutOfMemory, _) => Ok(ImportFault::OutOfMemory),
        (Reason::Problem(problem), Ok(text)) => Ok(ImportFault::BadField {
            line,
            title,
            text: Excerpt::new(alloc, text)?,
            problem,
        }),
        _ => Ok(ImportFault::NotUtf8 { line, title }),
    }
}

/// Takes the record, which begins on a line of these bytes, into the change.
///
/// Cost: linear in the record; in a fault, linear in the bytes before it.
pub(crate) fn take_record(
    alloc: Global,
    change: &mut Change,
    names: &mut Names,
    columns: &[SchemaColumn],
    places: &[usize],
    bytes: &[u8],
    record: &ByteRecord,
) -> Result<(), ImportFault> {
    change.clear();
    for (column, at) in columns.iter().zip(places) {
        let field = record.get(*at).unwrap_or(&[]);
        if let Err(reason) = take_field(alloc, change, names, column, field) {
            let line = line_of(bytes, record);
            return Err(fault(alloc, column, field, line, reason)?);
        }
    }
    Ok(())
}

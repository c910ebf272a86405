//! A whole import: what stands before the changes, the changes, and what stands after them.
use crate::change_writer::ChangeWriter;
use crate::fault::ImportFault;
use crate::layout::places;
use crate::records::{Change, take_record};
use crate::schema::{Role, Schema};
use csv::{ByteRecord, Error, ErrorKind, Reader, ReaderBuilder};
use dictionary::{Dictionary, Names, View, line_at, line_of, without_mark};
use output::Out;
use std::alloc::{AllocError, Global};

/// What an import made, beside the command file.
#[derive(Drop)]
pub struct Imported {
    /// What the numbers stand for.
    pub dictionary: Dictionary,
    /// How many records there were, without the titles.
    pub records: u64,
    /// How many changes were written.
    pub changes: u64,
    /// How many records were left out since their amount is 0.
    pub zeros: u64,
}

// The reader of the records, the titles among them.
fn reader(alloc: Global, bytes: &[u8]) -> Reader<&[u8]> {
    ReaderBuilder::new()
        .has_headers(false)
        .from_reader(alloc, bytes)
}

// The fault of a record that was not read. The bytes are in memory, so it has another length than
// the first, or memory was refused.
fn read_fault(bytes: &[u8], error: &Error) -> ImportFault {
    match error.kind() {
        ErrorKind::UnequalLengths {
            pos: Some(position),
            expected_len,
            len,
        } => ImportFault::WrongLength {
            line: line_at(bytes, position.byte()),
            fields: *len,
            titles: *expected_len,
        },
        _ => ImportFault::OutOfMemory,
    }
}

// Writes what stands before the changes.
fn put_head<W: Out>(
    alloc: Global,
    writer: &mut ChangeWriter,
    schema: &Schema,
    out: &mut W,
) -> Result<(), ImportFault> {
    let table = schema.table.as_str();
    let width = schema.count(Role::Row);
    let comment = format!(in alloc; "# {table}: imported from CSV by bitview import")?;
    writer.put_line(out, comment.as_str())?;
    let input = format!(in alloc; "input {table} {width}")?;
    writer.put_line(out, input.as_str())?;
    writer.put_lines(out, schema.plan.as_slice())?;
    writer.put_line(out, "start")
}

// Writes what stands after the changes, and all that still waits.
fn put_tail<W: Out>(
    alloc: Global,
    writer: &mut ChangeWriter,
    schema: &Schema,
    out: &mut W,
) -> Result<(), ImportFault> {
    let table = schema.table.as_str();
    let close = format!(in alloc; "close {table}")?;
    writer.put_line(out, close.as_str())?;
    writer.put_lines(out, schema.asks.as_slice())?;
    writer.buffer.flush(out)?;
    Ok(())
}

// The place of each column, from the first record.
fn read_titles(
    alloc: Global,
    schema: &Schema,
    bytes: &[u8],
    reader: &mut Reader<&[u8]>,
    record: &mut ByteRecord,
) -> Result<Vec<usize>, ImportFault> {
    match reader.read_byte_record(record) {
        Ok(true) => {
            let line = line_of(bytes, record);
            places(alloc, schema.columns.as_slice(), record, line)
        }
        Ok(false) => Err(ImportFault::NoTitles),
        Err(error) => Err(read_fault(bytes, &error)),
    }
}

// Writes the change of the record.
fn put_record<W: Out>(
    alloc: Global,
    writer: &mut ChangeWriter,
    schema: &Schema,
    names: &mut Names,
    change: &mut Change,
    bytes: &[u8],
    record: &ByteRecord,
    places: &[usize],
    out: &mut W,
) -> Result<(), ImportFault> {
    let columns = schema.columns.as_slice();
    take_record(alloc, change, names, columns, places, bytes, record)?;
    if writer.put(out, schema.table.as_str(), change)? {
        return Ok(());
    }
    let line = line_of(bytes, record);
    Err(ImportFault::TooManyChanges { line })
}

// Writes the changes of the records, and returns how many records there are.
fn put_records<W: Out>(
    alloc: Global,
    writer: &mut ChangeWriter,
    schema: &Schema,
    names: &mut Names,
    bytes: &[u8],
    out: &mut W,
) -> Result<u64, ImportFault> {
    let mut reader = reader(alloc, bytes);
    let mut record = ByteRecord::new(alloc);
    let places = read_titles(alloc, schema, bytes, &mut reader, &mut record)?;
    let mut change = Change::new(alloc);
    for count in 0..u64::MAX {
        match reader.read_byte_record(&mut record) {
            Ok(true) => put_record(
                alloc,
                writer,
                schema,
                names,
                &mut change,
                bytes,
                &record,
                places.as_slice(),
                out,
            )?,
            Ok(false) => return Ok(count),
            Err(error) => return Err(read_fault(bytes, &error)),
        }
    }
    Ok(u64::MAX)
}

// A copy of the views.
fn copies(alloc: Global, views: &[View]) -> Result<Vec<View>, ImportFault> {
    let mut copies = Vec::new(alloc);
    for view in views {
        copies.push(view.copy(alloc)?).map_err(AllocError::from)?;
    }
    Ok(copies)
}

/// Writes the command file of the records to the output: a comment, the input, the schema's plan,
/// `start`, the changes in the order of the records, `close`, and the schema's questions. Nothing
/// of it is of use if there is a fault; then only a beginning of it may have been written.
///
/// Cost: linear in the bytes, times the columns.
pub fn import<W: Out>(
    alloc: Global,
    schema: &Schema,
    bytes: &[u8],
    out: &mut W,
) -> Result<Imported, ImportFault> {
    let mut writer = ChangeWriter::new(alloc);
    let mut names = Names::new(alloc);
    put_head(alloc, &mut writer, schema, out)?;
    let bytes = without_mark(bytes);
    let records = put_records(alloc, &mut writer, schema, &mut names, bytes, out)?;
    put_tail(alloc, &mut writer, schema, out)?;
    Ok(Imported {
        dictionary: Dictionary {
            valid: schema.kind_of(Role::Valid),
            revision: schema.kind_of(Role::Revision),
            views: copies(alloc, schema.views.as_slice())?,
            names,
        },
        records,
        changes: writer.changes,
        zeros: writer.zeros,
    })
}

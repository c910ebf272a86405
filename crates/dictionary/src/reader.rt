//! Dictionaries from CSV.
use crate::column::Column;
use crate::digits::whole;
use crate::entries::{Dictionary, add_column};
use crate::fault::{DictionaryFault, Problem};
use crate::kind::{Kind, kind_of};
use crate::lines::{line_of, without_mark};
use crate::names::Names;
use csv::{ByteRecord, Reader, ReaderBuilder};
use std::alloc::{AllocError, Global};
use std::str;

// The most fields that a record has.
const MOST_FIELDS: usize = 4;

// The fields of a record as text.
fn fields<'a>(alloc: Global, record: &'a ByteRecord) -> Result<Vec<&'a str>, Problem> {
    let mut fields = Vec::new(alloc);
    for at in 0..MOST_FIELDS + 1 {
        if let Some(field) = record.get(at) {
            match str::from_utf8(field) {
                Ok(text) => fields.push(text).map_err(AllocError::from)?,
                Err(_) => return Err(Problem::NotUtf8),
            }
        }
    }
    Ok(fields)
}

// The kind that a field names.
fn kind(alloc: Global, field: &str) -> Result<Kind, Problem> {
    let words: Vec<&str> = field.split(' ').collect(alloc)?;
    kind_of(words.as_slice()).ok_or(Problem::UnknownKind)
}

// Gives the name its number, which is to be the next one.
fn add_name(alloc: Global, names: &mut Names, number: &str, name: &str) -> Result<(), Problem> {
    let next = names.len() as u64;
    if whole(number) != Some(next) {
        return Err(Problem::BadNumber);
    }
    let given = names.number_of(alloc, name)? as u64;
    if given == next {
        Ok(())
    } else {
        Err(Problem::BadNumber)
    }
}

// Adds what the record says.
fn add(alloc: Global, dictionary: &mut Dictionary, record: &ByteRecord) -> Result<(), Problem> {
    let fields = fields(alloc, record)?;
    match fields.as_slice() {
        ["valid", word] => dictionary.valid = kind(alloc, word)?,
        ["revision", word] => dictionary.revision = kind(alloc, word)?,
        ["column", view, title, word] => {
            let column = Column::new(alloc, title, kind(alloc, word)?)?;
            add_column(alloc, &mut dictionary.views, view, column)?;
        }
        ["name", number, name] => add_name(alloc, &mut dictionary.names, number, name)?,
        _ => return Err(Problem::UnknownRecord),
    }
    Ok(())
}

// The reader of a dictionary's records, which have different lengths.
fn reader(alloc: Global, bytes: &[u8]) -> Reader<&[u8]> {
    ReaderBuilder::new()
        .has_headers(false)
        .flexible(true)
        .from_reader(alloc, bytes)
}

// Adds what each record says.
fn add_records(
    alloc: Global,
    dictionary: &mut Dictionary,
    bytes: &[u8],
) -> Result<(), DictionaryFault> {
    let mut reader = reader(alloc, bytes);
    let mut record = ByteRecord::new(alloc);
    for _ in 0..u64::MAX {
        let found = reader.read_byte_record(&mut record);
        let added = match found {
            Ok(true) => add(alloc, dictionary, &record),
            Ok(false) => break,
            // The bytes are in memory and each length is taken, so nothing else can fail.
            Err(_) => Err(Problem::OutOfMemory),
        };
        if let Err(problem) = added {
            let line = line_of(bytes, &record);
            return Err(DictionaryFault { line, problem });
        }
    }
    Ok(())
}

/// The dictionary that a CSV file spells, in the form of [`crate::dictionary_text`]. The records of
/// a view's columns may stand apart; their order counts. A kind of time that has no record is
/// `whole`.
///
/// Cost: linear in the bytes, if the views are few.
pub fn read_dictionary(alloc: Global, bytes: &[u8]) -> Result<Dictionary, DictionaryFault> {
    let mut dictionary = Dictionary::new(alloc);
    add_records(alloc, &mut dictionary, without_mark(bytes))?;
    Ok(dictionary)
}

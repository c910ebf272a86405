//! Whole calls, from text to text. A fault is given as its text.
use dictionary::{dictionary_text, read_dictionary};
use importer::{ImportFault, SchemaFault, import, read_schema};
use output::MemoryOut;
use presenter::{ShowFault, show};
use std::alloc::{AllocError, Global};
use std::str;
use std::test::Fail;

/// What an import gave, as texts and counts.
#[derive(Drop)]
pub(crate) struct Import {
    pub(crate) commands: String,
    pub(crate) dictionary: String,
    pub(crate) records: u64,
    pub(crate) changes: u64,
    pub(crate) zeros: u64,
}

// The bytes as a string.
fn string(alloc: Global, bytes: &[u8]) -> Result<String, Fail> {
    Ok(String::from_str(alloc, str::from_utf8(bytes)?)?)
}

/// The import of the file by the schema. Neither is at fault.
pub(crate) fn imported(alloc: Global, schema: &str, file: &[u8]) -> Result<Import, Fail> {
    let schema = read_schema(alloc, schema.as_bytes())?;
    let mut out = MemoryOut::new(alloc);
    let made = import(alloc, &schema, file, &mut out)?;
    let names = dictionary_text(alloc, &made.dictionary)?;
    Ok(Import {
        commands: string(alloc, out.bytes())?,
        dictionary: string(alloc, names.as_slice())?,
        records: made.records,
        changes: made.changes,
        zeros: made.zeros,
    })
}

/// The text of the fault of a schema; empty if it has none.
pub(crate) fn schema_fault(alloc: Global, schema: &[u8]) -> Result<String, AllocError> {
    match read_schema(alloc, schema) {
        Ok(_) => Ok(String::new(alloc)),
        Err(fault) => fault_text(alloc, &fault),
    }
}

fn fault_text(alloc: Global, fault: &SchemaFault) -> Result<String, AllocError> {
    format!(in alloc; "{fault}")
}

/// The text of the fault of an import by a schema that is in order; empty if it has none.
pub(crate) fn import_fault(alloc: Global, schema: &str, file: &[u8]) -> Result<String, Fail> {
    let schema = read_schema(alloc, schema.as_bytes())?;
    let mut out = MemoryOut::new(alloc);
    match import(alloc, &schema, file, &mut out) {
        Ok(_) => Ok(String::new(alloc)),
        Err(fault) => Ok(import_fault_text(alloc, &fault)?),
    }
}

fn import_fault_text(alloc: Global, fault: &ImportFault) -> Result<String, AllocError> {
    format!(in alloc; "{fault}")
}

/// The tables of a run's text by a dictionary that is in order.
pub(crate) fn shown(alloc: Global, dictionary: &str, run: &[u8]) -> Result<String, Fail> {
    let dictionary = read_dictionary(alloc, dictionary.as_bytes())?;
    let mut out = MemoryOut::new(alloc);
    show(alloc, &dictionary, run, &mut out)?;
    string(alloc, out.bytes())
}

/// The text of the fault of a run's text; empty if it has none.
pub(crate) fn show_fault(alloc: Global, dictionary: &str, run: &[u8]) -> Result<String, Fail> {
    let dictionary = read_dictionary(alloc, dictionary.as_bytes())?;
    let mut out = MemoryOut::new(alloc);
    match show(alloc, &dictionary, run, &mut out) {
        Ok(()) => Ok(String::new(alloc)),
        Err(fault) => Ok(show_fault_text(alloc, &fault)?),
    }
}

fn show_fault_text(alloc: Global, fault: &ShowFault) -> Result<String, AllocError> {
    format!(in alloc; "{fault}")
}

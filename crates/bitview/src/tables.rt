//! What `import` and `show` do with the bytes of files.
ghost use Rattle.std.specs.Prelude.{◌≡◌, ◌⊎◌, IfErr};

use crate::actions::end;
use crate::writers::Told;
use dictionary::{Dictionary, DictionaryFault, Problem, dictionary_text, read_dictionary};
use importer::{ImportFault, Imported, Schema, SchemaFault, SchemaProblem, import, read_schema};
use output::{MemoryOut, Out};
use presenter::{ShowFault, ShowProblem, show};
use script::RunFault;
use std::alloc::Global;
use std::fmt::Write;

/// A file that was read: its name, for messages, and its bytes.
#[derive(Clone, Copy)]
pub(crate) struct Source<'a> {
    pub(crate) name: &'a str,
    pub(crate) bytes: &'a [u8],
}

/// What an import made of a schema and a CSV file.
#[derive(Drop)]
pub(crate) struct Made {
    /// The command file.
    pub(crate) commands: MemoryOut,
    /// The dictionary's file.
    pub(crate) dictionary: Vec<u8>,
    /// How many records the CSV file has, without the titles.
    pub(crate) records: u64,
    /// How many changes were made of them.
    pub(crate) changes: u64,
    /// How many records have an amount of 0, so that there is nothing to change.
    pub(crate) zeros: u64,
}

// Reports that memory was refused.
fn without_memory<E: Out>(error: &mut E) -> u8
    ensures { result ≡ 3 }
{
    end(RunFault::Refused(1), error)
}

// Reports what is wrong with a schema.
fn refuse_schema<E: Out>(name: &str, fault: &SchemaFault, error: &mut E) -> u8
    ensures { (result ≡ 2) ⊎ (result ≡ 3) }
{
    if let SchemaProblem::OutOfMemory = fault.problem {
        return without_memory(error);
    }
    let _told = writeln!(Told { error }, "{name}: {fault}");
    2
}

// Reports what is wrong with a CSV file. The text is put into memory, so no output failed but for
// want of memory.
fn refuse_table<E: Out>(name: &str, fault: &ImportFault, error: &mut E) -> u8
    ensures { (result ≡ 2) ⊎ (result ≡ 3) }
{
    if let ImportFault::OutOfMemory | ImportFault::Write = fault {
        return without_memory(error);
    }
    let _told = writeln!(Told { error }, "{name}: {fault}");
    2
}

// Makes the two texts by a schema that was read.
fn make_by<E: Out>(
    alloc: Global,
    schema: &Schema,
    table: Source<'_>,
    error: &mut E,
) -> Result<Made, u8>
    ensures { IfErr result (λ status. (status ≡ 2) ⊎ (status ≡ 3)) }
{
    let mut commands = MemoryOut::new(alloc);
    match import(alloc, schema, table.bytes, &mut commands) {
        Ok(imported) => with_dictionary(alloc, commands, &imported, error),
        Err(fault) => Err(refuse_table(table.name, &fault, error)),
    }
}

// The two texts of an import, of which the command file is written.
fn with_dictionary<E: Out>(
    alloc: Global,
    commands: MemoryOut,
    imported: &Imported,
    error: &mut E,
) -> Result<Made, u8>
    ensures { IfErr result (λ status. status ≡ 3) }
{
    match dictionary_text(alloc, &imported.dictionary) {
        Ok(dictionary) => Ok(Made {
            commands,
            dictionary,
            records: imported.records,
            changes: imported.changes,
            zeros: imported.zeros,
        }),
        Err(_refused) => Err(without_memory(error)),
    }
}

/// Makes a command file and a dictionary of a schema and a CSV file. The error is the program's
/// status: 2 if one of the two is at fault, and a line on the output tells where; 3 if memory was
/// refused.
///
/// Cost: linear in the bytes. Both texts are kept in memory.
pub(crate) fn make<E: Out>(
    alloc: Global,
    schema: Source<'_>,
    table: Source<'_>,
    error: &mut E,
) -> Result<Made, u8>
    ensures { IfErr result (λ status. (status ≡ 2) ⊎ (status ≡ 3)) }
{
    match read_schema(alloc, schema.bytes) {
        Ok(read) => make_by(alloc, &read, table, error),
        Err(fault) => Err(refuse_schema(schema.name, &fault, error)),
    }
}

// Reports what is wrong with a dictionary.
fn refuse_dictionary<E: Out>(name: &str, fault: &DictionaryFault, error: &mut E) -> u8
    ensures { (result ≡ 2) ⊎ (result ≡ 3) }
{
    if let Problem::OutOfMemory = fault.problem {
        return without_memory(error);
    }
    let _told = writeln!(Told { error }, "{name}: {fault}");
    2
}

// Reports what is wrong with the text of a run, or with the output.
fn refuse_text<E: Out>(name: &str, fault: &ShowFault, error: &mut E) -> u8
    ensures { (result ≡ 2) ⊎ (result ≡ 3) }
{
    match fault.problem {
        ShowProblem::OutOfMemory => without_memory(error),
        ShowProblem::Write => end(RunFault::Write, error),
        _ => {
            let _told = writeln!(Told { error }, "{name}: {fault}");
            2
        }
    }
}

// Writes the text of a run by a dictionary that was read.
fn show_by<W: Out, E: Out>(
    alloc: Global,
    dictionary: &Dictionary,
    text: Source<'_>,
    out: &mut W,
    error: &mut E,
) -> u8
    ensures { (result ≡ 0) ⊎ ((result ≡ 2) ⊎ (result ≡ 3)) }
{
    match show(alloc, dictionary, text.bytes, out) {
        Ok(()) => 0,
        Err(fault) => refuse_text(text.name, &fault, error),
    }
}

/// Writes the text of a run as CSV, with the names of a dictionary. The result is the program's
/// status: 0; 2 if the dictionary or the text is at fault, and a line on the second output tells
/// where; 3 if memory was refused or the first output failed.
///
/// Cost: that of [`show`].
pub(crate) fn show_text<W: Out, E: Out>(
    alloc: Global,
    dictionary: Source<'_>,
    text: Source<'_>,
    out: &mut W,
    error: &mut E,
) -> u8
    ensures { (result ≡ 0) ⊎ ((result ≡ 2) ⊎ (result ≡ 3)) }
{
    match read_dictionary(alloc, dictionary.bytes) {
        Ok(read) => show_by(alloc, &read, text, out, error),
        Err(fault) => refuse_dictionary(dictionary.name, &fault, error),
    }
}

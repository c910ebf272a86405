//! The lines of a schema, one by one.
ghost use Rattle.std.specs.Prelude.{◌≤◌, ◌+◌, length, IfOk, IfErr};

use crate::ask::ask_line;
use crate::excerpt::Excerpt;
use crate::schema::{Role, Schema, SchemaColumn};
use crate::schema_fault::{SchemaFault, SchemaProblem};
use crate::text::{first_line, is_name};
use crate::words::{without_spaces, words};
use dictionary::{Column, Kind, add_column, kind_of};
use std::alloc::{AllocError, Global};
use std::str;

// The forms of lines, as a fault tells them.
const TABLE: &str = "table NAME";

const COLUMN: &str = "column TITLE ROLE KIND";

const SHOWS: &str = "shows VIEW TITLE KIND";

fn take_table(alloc: Global, schema: &mut Schema, words: &[&str]) -> Result<(), SchemaProblem> {
    let [_, name] = words else {
        return Err(SchemaProblem::WrongForm(TABLE));
    };
    if !schema.table.is_empty() {
        return Err(SchemaProblem::SecondTable);
    }
    if !is_name(name) {
        return Err(SchemaProblem::BadName(Excerpt::new(alloc, name)?));
    }
    schema.table.push_str(name)?;
    Ok(())
}

// The kind that the words name.
fn kind(words: &[&str]) -> Result<Kind, SchemaProblem> {
    kind_of(words).ok_or(SchemaProblem::UnknownKind)
}

// Refuses a second column of a role that one column has, and a ninth column of the row.
fn check_role(schema: &Schema, role: Role) -> Result<(), SchemaProblem> {
    let count = schema.count(role);
    if role == Role::Row {
        if count >= 8 {
            return Err(SchemaProblem::TooManyRowColumns);
        }
    } else if count >= 1 {
        return Err(SchemaProblem::SecondOfRole(role.word()));
    }
    Ok(())
}

// Whether a column has the title.
fn has_title(schema: &Schema, title: &str) -> bool {
    schema
        .columns
        .iter()
        .any(|column| column.title.as_str() == title)
}

fn add_schema_column(
    alloc: Global,
    schema: &mut Schema,
    title: &str,
    role: Role,
    kind: Kind,
) -> Result<(), SchemaProblem> {
    if !role.takes(kind) {
        let role = role.word();
        return Err(SchemaProblem::KindOfRole { role, kind });
    }
    check_role(schema, role)?;
    if has_title(schema, title) {
        return Err(SchemaProblem::SecondOfTitle(Excerpt::new(alloc, title)?));
    }
    let title = String::from_str(alloc, title)?;
    schema
        .columns
        .push(SchemaColumn { title, role, kind })
        .map_err(AllocError::from)?;
    Ok(())
}

fn take_column(alloc: Global, schema: &mut Schema, words: &[&str]) -> Result<(), SchemaProblem> {
    let [_, title, role, rest @ ..] = words else {
        return Err(SchemaProblem::WrongForm(COLUMN));
    };
    if rest.is_empty() {
        return Err(SchemaProblem::WrongForm(COLUMN));
    }
    match Role::of(role) {
        Some(role) => add_schema_column(alloc, schema, title, role, kind(rest)?),
        None => Err(SchemaProblem::UnknownRole(Excerpt::new(alloc, role)?)),
    }
}

fn take_shows(alloc: Global, schema: &mut Schema, words: &[&str]) -> Result<(), SchemaProblem> {
    let [_, view, title, rest @ ..] = words else {
        return Err(SchemaProblem::WrongForm(SHOWS));
    };
    if rest.is_empty() {
        return Err(SchemaProblem::WrongForm(SHOWS));
    }
    let column = Column::new(alloc, title, kind(rest)?)?;
    add_column(alloc, &mut schema.views, view, column)?;
    Ok(())
}

fn take_plan(alloc: Global, schema: &mut Schema, rest: &str) -> Result<(), SchemaProblem> {
    let line = String::from_str(alloc, rest)?;
    schema.plan.push(line).map_err(AllocError::from)?;
    Ok(())
}

fn take_ask(alloc: Global, schema: &mut Schema, rest: &str) -> Result<(), SchemaProblem> {
    let line = ask_line(alloc, rest)?;
    schema.asks.push(line).map_err(AllocError::from)?;
    Ok(())
}

// The first word and the text after it.
fn head(line: &str) -> (&str, &str) {
    match line.split_once(' ') {
        Some((word, rest)) => (word, without_spaces(rest)),
        None => (line, ""),
    }
}

// Takes a line that is neither empty nor a comment, and begins with no space.
fn take(alloc: Global, schema: &mut Schema, line: &str) -> Result<(), SchemaProblem> {
    let (word, rest) = head(line);
    match word {
        "plan" => take_plan(alloc, schema, rest),
        "ask" => take_ask(alloc, schema, rest),
        "table" => take_table(alloc, schema, words(alloc, line)?.as_slice()),
        "column" => take_column(alloc, schema, words(alloc, line)?.as_slice()),
        "shows" => take_shows(alloc, schema, words(alloc, line)?.as_slice()),
        _ => Err(SchemaProblem::UnknownWord(Excerpt::new(alloc, word)?)),
    }
}

// Takes a line. A carriage return at its end is no part of it.
fn take_line(alloc: Global, schema: &mut Schema, bytes: &[u8]) -> Result<(), SchemaProblem> {
    let Ok(line) = str::from_utf8(bytes) else {
        return Err(SchemaProblem::NotUtf8);
    };
    let line = without_spaces(line.strip_suffix('\r').unwrap_or(line));
    if line.is_empty() || line.starts_with('#') {
        return Ok(());
    }
    take(alloc, schema, line)
}

// Takes each line, and returns the number of the line after the last.
fn take_lines(alloc: Global, schema: &mut Schema, bytes: &[u8]) -> Result<u64, SchemaFault>
    ensures after { IfOk result (λ line. (1 ≤ line) × (line ≤ length bytes.now + 1)) }
    ensures fault { IfErr result (λ e. (1 ≤ e.line) × (e.line ≤ length bytes.now)) }
{
    let mut line = 1u64;
    let mut rest = bytes;
    while !rest.is_empty() {
        let (first, more) = first_line(rest);
        if let Err(problem) = take_line(alloc, schema, first) {
            return Err(SchemaFault { line, problem });
        }
        line = line.saturating_add(1);
        rest = more;
    }
    Ok(line)
}

// What a whole schema must have.
fn check_whole(schema: &Schema) -> Result<(), SchemaProblem> {
    if schema.table.is_empty() {
        return Err(SchemaProblem::NoTable);
    }
    if schema.count(Role::Row) == 0 {
        return Err(SchemaProblem::NoRowColumn);
    }
    Ok(())
}

/// The schema that the file spells, or its first fault. `docs/IMPORT.md` has the language.
///
/// Cost: linear in the bytes, if the columns are few.
pub fn read_schema(alloc: Global, bytes: &[u8]) -> Result<Schema, SchemaFault>
    ensures first { IfErr result (λ e. 1 ≤ e.line) }
    ensures last { IfErr result (λ e. e.line ≤ length bytes.now + 1) }
{
    let mut schema = Schema::new(alloc);
    let line = take_lines(alloc, &mut schema, bytes)?;
    match check_whole(&schema) {
        Ok(()) => Ok(schema),
        Err(problem) => Err(SchemaFault { line, problem }),
    }
}

//! A run's text, answer by answer.
ghost use Rattle.std.specs.Prelude.{◌≤◌, ◌+◌, length, IfErr};

use crate::fault::{ShowFault, ShowProblem};
use crate::lines::{first_line, signed, whole, words};
use crate::sheet::Sheet;
use dictionary::{Column, Dictionary, Kind};
use output::Out;
use std::alloc::Global;

/// What the rows of an answer have before their columns.
#[derive(Clone, Copy, Debug, PartialEq, Eq)]
enum Form {
    /// The weight, and then the columns.
    Rows,
    /// The time and the difference, and then the columns.
    Changes,
    /// The time alone.
    Times,
}

impl Form {
    // How many fields of a row are no columns.
    fn lead(self) -> usize {
        match self {
            Form::Rows => 1,
            Form::Changes => 3,
            Form::Times => 2,
        }
    }
}

/// The answer whose rows are expected.
#[derive(Clone, Copy)]
struct Table<'a> {
    form: Form,
    /// The columns of the view that are known.
    columns: &'a [Column],
    /// How many rows are still to come.
    left: u64,
    /// How many fields each row has, once its titles are written.
    width: Option<usize>,
}

// Writes the titles of this many columns.
fn push_titles(sheet: &mut Sheet, columns: &[Column], count: usize) -> Result<(), ShowProblem> {
    for at in 0..count {
        match columns.get(at) {
            Some(column) => sheet.push(column.title.as_str())?,
            None => sheet.push_column(at)?,
        }
    }
    Ok(())
}

// Writes the titles of rows of this width.
fn put_titles<W: Out>(
    sheet: &mut Sheet,
    table: &Table<'_>,
    width: usize,
    out: &mut W,
) -> Result<(), ShowProblem> {
    if table.form != Form::Rows {
        sheet.push("valid")?;
        sheet.push("revision")?;
    }
    if table.form != Form::Times {
        sheet.push("weight")?;
    }
    push_titles(
        sheet,
        table.columns,
        width.saturating_sub(table.form.lead()),
    )?;
    sheet.end(out)?;
    Ok(())
}

// Adds the two numbers of a time.
fn push_time(
    sheet: &mut Sheet,
    dictionary: &Dictionary,
    valid: &str,
    revision: &str,
) -> Result<(), ShowProblem> {
    sheet.push_time(dictionary.valid, whole(valid)?)?;
    sheet.push_time(dictionary.revision, whole(revision)?)?;
    Ok(())
}

// Adds the columns of a row.
fn push_columns(
    sheet: &mut Sheet,
    dictionary: &Dictionary,
    columns: &[Column],
    words: &[&str],
) -> Result<(), ShowProblem> {
    let mut columns = columns.iter();
    for word in words {
        let kind = columns.next().map_or(Kind::Signed, |column| column.kind);
        sheet.push_value(kind, signed(word)?, &dictionary.names)?;
    }
    Ok(())
}

// Adds the fields of a row.
fn push_row(
    sheet: &mut Sheet,
    dictionary: &Dictionary,
    table: &Table<'_>,
    words: &[&str],
) -> Result<(), ShowProblem> {
    match (table.form, words) {
        (Form::Rows, [weight, row @ ..]) => {
            sheet.push_value(Kind::Signed, signed(weight)?, &dictionary.names)?;
            push_columns(sheet, dictionary, table.columns, row)
        }
        (Form::Changes, [valid, revision, weight, row @ ..]) => {
            push_time(sheet, dictionary, valid, revision)?;
            sheet.push_value(Kind::Signed, signed(weight)?, &dictionary.names)?;
            push_columns(sheet, dictionary, table.columns, row)
        }
        (Form::Times, [valid, revision]) => push_time(sheet, dictionary, valid, revision),
        _ => Err(ShowProblem::BadRow),
    }
}

// Writes a row of the answer; before the first one, the titles.
fn put_row<W: Out>(
    sheet: &mut Sheet,
    dictionary: &Dictionary,
    table: &Table<'_>,
    words: &[&str],
    out: &mut W,
) -> Result<usize, ShowProblem> {
    match table.width {
        None => put_titles(sheet, table, words.len(), out)?,
        Some(width) if width == words.len() => {}
        Some(_) => return Err(ShowProblem::BadRow),
    }
    push_row(sheet, dictionary, table, words)?;
    sheet.end(out)?;
    Ok(words.len())
}

// How many rows the last word of an answer's first line announces.
fn count(word: &str) -> Result<u64, ShowProblem> {
    whole(word).map_err(|_| ShowProblem::UnknownLine)
}

// Adds the fields of an answer's first line, and tells what follows it: nothing after a refused
// line.
fn push_first<'a>(
    sheet: &mut Sheet,
    dictionary: &'a Dictionary,
    words: &[&str],
) -> Result<Option<Table<'a>>, ShowProblem> {
    let (form, view, left) = match words {
        ["read", view, _, _, rows] => (Form::Rows, view, rows),
        ["changes", view, rows] => (Form::Changes, view, rows),
        ["frontier", view, rows] => (Form::Times, view, rows),
        ["refused", line, code] => {
            let line = count(line)?;
            let code = count(code)?;
            sheet.push("refused")?;
            sheet.push_time(Kind::Whole, line)?;
            sheet.push_time(Kind::Whole, code)?;
            return Ok(None);
        }
        _ => return Err(ShowProblem::UnknownLine),
    };
    let left = count(left)?;
    sheet.push(words[0])?;
    sheet.push(view)?;
    if let [_, _, valid, revision, _] = words {
        push_time(sheet, dictionary, valid, revision).map_err(first_problem)?;
    }
    Ok(Some(Table {
        form,
        columns: dictionary.columns(view),
        left,
        width: None,
    }))
}

// A word of an answer's first line that is no number.
fn first_problem(problem: ShowProblem) -> ShowProblem {
    match problem {
        ShowProblem::BadRow => ShowProblem::UnknownLine,
        other => other,
    }
}

// Writes an answer's first line, and the titles if no row follows.
fn put_first<'a, W: Out>(
    sheet: &mut Sheet,
    dictionary: &'a Dictionary,
    words: &[&str],
    out: &mut W,
) -> Result<Option<Table<'a>>, ShowProblem> {
    let begun = push_first(sheet, dictionary, words)?;
    sheet.end(out)?;
    match begun {
        Some(table) if table.left > 0 => Ok(Some(table)),
        Some(table) => {
            let lead = table.form.lead();
            let known = if table.form == Form::Times {
                0
            } else {
                table.columns.len()
            };
            put_titles(sheet, &table, lead.saturating_add(known), out)?;
            sheet.end(out)?;
            Ok(None)
        }
        None => {
            sheet.end(out)?;
            Ok(None)
        }
    }
}

// Writes what a line says, and tells which answer goes on after it.
fn put_line<'a, W: Out>(
    alloc: Global,
    sheet: &mut Sheet,
    dictionary: &'a Dictionary,
    begun: Option<Table<'a>>,
    line: &[u8],
    out: &mut W,
) -> Result<Option<Table<'a>>, ShowProblem> {
    let words = words(alloc, line)?;
    let Some(table) = begun else {
        return put_first(sheet, dictionary, words.as_slice(), out);
    };
    let width = put_row(sheet, dictionary, &table, words.as_slice(), out)?;
    let left = table.left.saturating_sub(1);
    if left == 0 {
        sheet.end(out)?;
        return Ok(None);
    }
    Ok(Some(Table {
        form: table.form,
        columns: table.columns,
        left,
        width: Some(width),
    }))
}

// Writes the tables of all lines, and returns the number of the line after the last.
fn put_lines<W: Out>(
    alloc: Global,
    sheet: &mut Sheet,
    dictionary: &Dictionary,
    text: &[u8],
    out: &mut W,
) -> Result<(), ShowFault>
    ensures { IfErr result (λ e. (1 ≤ e.line) × (e.line ≤ length text.now + 1)) }
{
    let mut line = 1u64;
    let mut begun = None;
    let mut rest = text;
    while !rest.is_empty() {
        let (first, more) = first_line(rest);
        match put_line(alloc, sheet, dictionary, begun, first, out) {
            Ok(next) => begun = next,
            Err(problem) => return Err(ShowFault { line, problem }),
        }
        line = line.saturating_add(1);
        rest = more;
    }
    if begun.is_some() {
        let problem = ShowProblem::Unfinished;
        return Err(ShowFault { line, problem });
    }
    Ok(())
}

/// Writes the answers of a run's text to the output, each as a table of CSV: a line
/// `read,VIEW,V,S`, `changes,VIEW` or `frontier,VIEW`, a line of titles, the rows, and an empty
/// line. A refused line is written as `refused,LINE,CODE` and an empty line. If there is a fault,
/// only a beginning was written.
///
/// Cost: linear in the text, if the views are few.
pub fn show<W: Out>(
    alloc: Global,
    dictionary: &Dictionary,
    text: &[u8],
    out: &mut W,
) -> Result<(), ShowFault>
    ensures first { IfErr result (λ e. 1 ≤ e.line) }
    ensures last { IfErr result (λ e. e.line ≤ length text.now + 1) }
{
    let mut sheet = Sheet::new(alloc);
    put_lines(alloc, &mut sheet, dictionary, text, out)?;
    match sheet.flush(out) {
        Ok(()) => Ok(()),
        Err(failed) => Err(ShowFault {
            line: 1,
            problem: ShowProblem::from(failed),
        }),
    }
}

//! A line of the file, as it is shown below what is told about it, with a mark below the part at
//! fault.
//!
//! Each character is shown in one column, so that the mark stands right: what does not take exactly
//! one, as a tab, is shown as `?`. Of a long line 80 columns are shown, among them the first marked
//! ones.
use crate::marks::{Span, word_span};
use std::alloc::{AllocError, Global};
use std::str;

// How many columns of a line are shown.
const COLUMNS: usize = 80;

// The greatest length of a line that is read as text.
const MAX_LINE: usize = 4096;

// The line as text, if it may be read as that.
fn text_of(line: &[u8]) -> Option<&str> {
    if line.len() > MAX_LINE {
        return None;
    }
    str::from_utf8(line).ok()
}

// The letters of Latin, Greek and Cyrillic take one column each.
fn shown_char(char: char) -> char {
    if matches!(char, ' '..='~') || (char < '\u{530}' && char.is_alphanumeric()) {
        char
    } else {
        '?'
    }
}

// The line as it is shown: one character for each column.
fn shown(alloc: Global, line: &[u8]) -> Result<String, AllocError> {
    match text_of(line) {
        Some(text) => text.chars().map(shown_char).collect(alloc),
        None => line
            .iter()
            .take(MAX_LINE)
            .map(|byte| shown_byte(*byte))
            .collect(alloc),
    }
}

// A byte of a line that is no text.
fn shown_byte(byte: u8) -> char {
    if matches!(byte, b' '..=b'~') {
        byte as char
    } else {
        '?'
    }
}

/// The part of the line that is marked: the word with this index, or else the first byte that is
/// not UTF-8, or else the whole line.
pub(crate) fn span_at(line: &[u8], index: Option<usize>) -> Span {
    match (text_of(line), index) {
        (Some(text), Some(index)) => match word_span(text, index) {
            Some(span) => span,
            None => whole(line),
        },
        _ => bad_byte(line),
    }
}

fn whole(line: &[u8]) -> Span {
    Span {
        start: 0,
        end: line.len(),
    }
}

// The first byte that is not UTF-8. A line that is too long is marked as a whole.
fn bad_byte(line: &[u8]) -> Span {
    if line.len() > MAX_LINE {
        return whole(line);
    }
    match str::from_utf8(line) {
        Ok(_) => whole(line),
        Err(error) => Span {
            start: error.valid_up_to(),
            end: error.valid_up_to().saturating_add(1),
        },
    }
}

// The first column that is shown.
fn first_shown(mark: Span) -> usize {
    if mark.start < COLUMNS {
        0
    } else {
        mark.start - COLUMNS / 2
    }
}

// Adds the character several times.
fn push_times(text: &mut String, char: char, times: usize) -> Result<(), AllocError> {
    for _ in 0..times {
        text.push(char)?;
    }
    Ok(())
}

/// Adds the line and below it the mark, on two lines of their own.
pub(crate) fn push_excerpt(
    alloc: Global,
    text: &mut String,
    line: &[u8],
    mark: Span,
) -> Result<(), AllocError> {
    let shown = shown(alloc, line)?;
    let skip = first_shown(mark);
    let part: String = shown.chars().skip(skip).take(COLUMNS).collect(alloc)?;
    let lead = if skip == 0 { "    " } else { "    ... " };
    let is_cut = shown.chars().skip(skip).count() > COLUMNS;
    let tail = if is_cut { " ..." } else { "" };
    writeln!(text, "{lead}{part}{tail}")?;
    let start = mark.start.saturating_sub(skip).min(COLUMNS);
    let end = mark.end.saturating_sub(skip).min(COLUMNS);
    push_times(text, ' ', lead.len().saturating_add(start))?;
    push_times(text, '^', end.saturating_sub(start).max(1))?;
    text.push('\n')
}

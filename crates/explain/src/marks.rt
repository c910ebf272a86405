//! Which part of a faulty line is at fault: a word, a byte, or the whole line.
use crate::places::{Place, due_at, word};
use crate::sorts::{NameSort, key_of, sort_of, width_of};
use grammar::{Reader, signed_number, whole_number};

/// Columns of a line, counted from 0: those from `start` on, before `end`.
#[derive(Clone, Copy)]
pub(crate) struct Span {
    pub(crate) start: usize,
    pub(crate) end: usize,
}

/// The index of the word at fault. `None` if it is not one word, but the line.
pub(crate) fn word_at_fault(reader: &Reader, words: &[&str], code: u8) -> Option<usize> {
    match code {
        13 | 15 | 37 => Some(1),
        14 => (0..words.len()).find(|index| is_unknown(reader, words, *index)),
        16 => (0..words.len()).find(|index| is_no_column(reader, words, *index)),
        17 | 19 | 21 => Some(4),
        18 => (0..words.len()).find(|index| is_not_arranged(reader, words, *index)),
        20 => Some(width_place(words)),
        31 => Some(unknown_place(words)),
        32 => words.len().checked_sub(1),
        33 => (0..words.len()).find(|index| is_no_number(words, *index)),
        34 => Some(0),
        _ => None,
    }
}

// Whether a name is due here, and no earlier line declared this one, or another sort is due.
fn is_unknown(reader: &Reader, words: &[&str], index: usize) -> bool {
    let sort = sort_of(reader, word(words, index));
    match due_at(words, index) {
        Place::Source => sort != Some(NameSort::Input) && sort != Some(NameSort::Node),
        Place::Input => sort != Some(NameSort::Input),
        Place::View => sort != Some(NameSort::View),
        _ => false,
    }
}

/// The column that the item is, if it is one.
pub(crate) fn column_of(item: &str) -> Option<u64> {
    whole_number(item.strip_prefix('c')?)
}

// Whether the word is a constant.
fn is_constant(item: &str) -> bool {
    match item.strip_prefix('=') {
        Some(number) => signed_number(number).is_some(),
        None => false,
    }
}

// Whether the word is an item: a column or a constant.
fn is_item(item: &str) -> bool {
    column_of(item).is_some() || is_constant(item)
}

// Whether the item is a column that the source of the line has not.
fn is_no_column(reader: &Reader, words: &[&str], index: usize) -> bool {
    match (
        column_of(word(words, index)),
        width_of(reader, word(words, 3)),
    ) {
        (Some(column), Some(width)) => {
            due_at(words, index) == Place::Item && column >= width as u64
        }
        _ => false,
    }
}

// Whether the word names a source that is not arranged.
fn is_not_arranged(reader: &Reader, words: &[&str], index: usize) -> bool {
    due_at(words, index) == Place::Source && key_of(reader, word(words, index)).is_none()
}

// Whether a number or an item is due here, and this word is none.
fn is_no_number(words: &[&str], index: usize) -> bool {
    let word = word(words, index);
    match due_at(words, index) {
        Place::Whole => whole_number(word).is_none(),
        Place::Signed => signed_number(word).is_none(),
        Place::Item => !is_item(word),
        _ => false,
    }
}

// Where a line says its width: an `input` line by a word, a `map` by its ninth item, and any other
// node by its kind.
fn width_place(words: &[&str]) -> usize {
    if word(words, 0) == "input" {
        2
    } else if word(words, 2) == "map" {
        12
    } else {
        2
    }
}

// Which word of a line with code 31 is unknown. If it is a `filter`, its comparison is.
fn unknown_place(words: &[&str]) -> usize {
    if word(words, 0) != "node" {
        0
    } else if word(words, 2) == "filter" {
        5
    } else {
        2
    }
}

/// The columns of a word of the line.
pub(crate) fn word_span(line: &str, index: usize) -> Option<Span> {
    let mut start: usize = 0;
    let mut left = index;
    for piece in line.split(' ') {
        let end = start.saturating_add(piece.chars().count());
        if !piece.is_empty() {
            if left == 0 {
                return Some(Span { start, end });
            }
            left -= 1;
        }
        start = end.saturating_add(1);
    }
    None
}

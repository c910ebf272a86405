//! The lines of questions, with dates as day numbers.
use crate::excerpt::Excerpt;
use crate::schema_fault::SchemaProblem;
use dictionary::day_number;
use std::alloc::Global;

// Whether the word has the form YYYY-MM-DD.
fn has_form_of_date(word: &[u8]) -> bool {
    match word {
        [y0, y1, y2, y3, b'-', m0, m1, b'-', d0, d1] => [y0, y1, y2, y3, m0, m1, d0, d1]
            .iter()
            .all(|byte| byte.is_ascii_digit()),
        _ => false,
    }
}

// Adds the word; the number of the day if it has the form of a date.
fn push_word(alloc: Global, text: &mut String, word: &str) -> Result<(), SchemaProblem> {
    if !has_form_of_date(word.as_bytes()) {
        text.push_str(word)?;
        return Ok(());
    }
    match day_number(word) {
        Some(day) if day >= 0 => {
            write!(text, "{day}")?;
            Ok(())
        }
        _ => Err(SchemaProblem::BadDay(Excerpt::new(alloc, word)?)),
    }
}

/// The line with each word of the form YYYY-MM-DD as the number of that day. Words are separated by
/// one space afterwards.
pub(crate) fn ask_line(alloc: Global, line: &str) -> Result<String, SchemaProblem> {
    let mut text = String::new(alloc);
    for word in line.split(' ') {
        if word.is_empty() {
            continue;
        }
        if !text.is_empty() {
            text.push_str(" ")?;
        }
        push_word(alloc, &mut text, word)?;
    }
    Ok(text)
}

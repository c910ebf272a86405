//! Hints about words that should be numbers or items, and are not.
use crate::case::Case;
use crate::dates::Date;
use crate::places::Place;
use grammar::signed_number;
use std::alloc::AllocError;

/// What is wrong with the word, if that is known.
pub(crate) fn push_number(text: &mut String, case: &Case<'_, '_>) -> Result<(), AllocError> {
    let word = case.fault();
    let number = number_part(word, case.due());
    if let Some(date) = Date::of(number) {
        return push_date(text, number, date);
    }
    match known_mistake(word, number, case.due()) {
        Some(mistake) => writeln!(text, "    hint: {mistake}"),
        None => Ok(()),
    }
}

// The number in the word: what stands behind the first character of an item.
fn number_part(word: &str, due: Place) -> &str {
    if due != Place::Item {
        return word;
    }
    match word.strip_prefix('c').or(word.strip_prefix('=')) {
        Some(number) => number,
        None => word,
    }
}

// Says what number stands for a date.
fn push_date(text: &mut String, word: &str, date: Date) -> Result<(), AllocError> {
    match date.day_number() {
        Some(day) => writeln!(
            text,
            "    hint: a day is written as a number; {word} is day {day}, counted from 1970-01-01"
        ),
        None => writeln!(
            text,
            "    hint: a day is written as a number, not as a date"
        ),
    }
}

// The mistake by which the word is no number.
fn known_mistake(word: &str, number: &str, due: Place) -> Option<&'static str> {
    if due == Place::Item && number == word && signed_number(word).is_some() {
        Some("a constant begins with `=`, as =7, and a column with `c`, as c0")
    } else if number.starts_with('+') {
        Some("a number has no plus sign")
    } else if has_point(number) {
        Some("a number is whole: it has no point and no comma")
    } else {
        digits_mistake(number)
    }
}

// The mistake by which digits, with or without a minus sign before them, are no number.
fn digits_mistake(number: &str) -> Option<&'static str> {
    let is_negative = number.starts_with('-');
    let digits = match number.strip_prefix('-') {
        Some(digits) => digits,
        None => number,
    };
    if digits.is_empty() || !digits.bytes().all(|byte| byte.is_ascii_digit()) {
        None
    } else if digits == "0" {
        Some("0 has no sign")
    } else if digits.starts_with('0') {
        Some("a number has no zero in front")
    } else if is_negative && signed_number(number).is_some() {
        Some("this number may not be negative")
    } else {
        Some("the number does not fit in 64 bits")
    }
}

// Whether the word is digits with a point or a comma among them.
fn has_point(number: &str) -> bool {
    (number.contains('.') || number.contains(','))
        && number.bytes().any(|byte| byte.is_ascii_digit())
        && number.bytes().all(|byte| is_decimal_byte(byte))
}

fn is_decimal_byte(byte: u8) -> bool {
    byte.is_ascii_digit() || byte == b'.' || byte == b',' || byte == b'-'
}

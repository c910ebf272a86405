//! Days of the calendar, as texts and as day numbers.
use crate::decimal::push_digits;
use crate::digits::number;
use jiff_core::civil::Date;
use std::alloc::AllocError;

// The year, the month and the day, if the text has the form YYYY-MM-DD.
fn parts(text: &[u8]) -> Option<(u64, u64, u64)> {
    match text {
        [y0, y1, y2, y3, b'-', m0, m1, b'-', d0, d1] => Some((
            number(&[*y0, *y1, *y2, *y3])?,
            number(&[*m0, *m1])?,
            number(&[*d0, *d1])?,
        )),
        _ => None,
    }
}

// The date of these numbers, if the calendar has it.
fn date_of(year: u64, month: u64, day: u64) -> Option<Date> {
    if year > 9999 || month > 12 || day > 31 {
        return None;
    }
    Date::new(year as i16, month as i8, day as i8).ok()
}

/// The day that the text YYYY-MM-DD names, counted from 1970-01-01; `None` for any other text, and
/// for a day that the calendar does not have. Takes no memory.
pub fn day_number(text: &str) -> Option<i64> {
    let (year, month, day) = parts(text.as_bytes())?;
    Some(date_of(year, month, day)?.to_unix_epoch_day() as i64)
}

/// Adds the day as YYYY-MM-DD; as a plain number if it is not in the years 0000 to 9999.
pub fn write_day(text: &mut String, number: i64) -> Result<(), AllocError> {
    match Date::from_unix_epoch_day(number) {
        Ok(date) if date.year >= 0 => {
            push_digits(text, date.year as u64, 4)?;
            text.push_str("-")?;
            push_digits(text, date.month as u64, 2)?;
            text.push_str("-")?;
            push_digits(text, date.day as u64, 2)
        }
        _ => write!(text, "{number}"),
    }
}

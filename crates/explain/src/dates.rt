//! Dates in words, as `2024-03-01`, and the days from 1970-01-01 to them.
ghost use Rattle.std.specs.Prelude.{◌≤◌, ◌+◌, ◌/◌};

// The days of a year before each of its months, if it is no leap year.
const DAYS_BEFORE: [u64; 12] = [0, 31, 59, 90, 120, 151, 181, 212, 243, 273, 304, 334];

/// A date from 1970 on. The day is not tested against the length of its month.
#[derive(Clone, Copy)]
pub(crate) struct Date {
    year: u64,
    month: u64,
    day: u64,
}

impl Date {
    /// The date that the word spells as YYYY-MM-DD, if it spells one.
    pub(crate) fn of(word: &str) -> Option<Date> {
        if !has_form(word) {
            return None;
        }
        let year = word.get(0..4)?.parse::<u64>().ok()?;
        let month = word.get(5..7)?.parse::<u64>().ok()?;
        let day = word.get(8..10)?.parse::<u64>().ok()?;
        Some(Date { year, month, day })
    }

    /// The number of its day, counted from 0 at 1970-01-01; `None` before that and if there is no
    /// such day.
    pub(crate) fn day_number(self) -> Option<u64> {
        let Date { year, month, day } = self;
        if year < 1970 || year > 9999 || month < 1 || month > 12 || day < 1 || day > 31 {
            return None;
        }
        let before = DAYS_BEFORE[month as usize - 1];
        let leap = if month > 2 && is_leap(year) { 1 } else { 0 };
        Some((year - 1970) * 365 + leap_days(year - 1) + before + leap + day - 1)
    }
}

// Whether the word has the form of a date.
fn has_form(word: &str) -> bool {
    word.len() == 10 && word.bytes().enumerate().all(|(at, byte)| fits(at, byte))
}

// Whether the byte may stand at this place of a date.
fn fits(at: usize, byte: u8) -> bool {
    if at == 4 || at == 7 {
        byte == b'-'
    } else {
        byte.is_ascii_digit()
    }
}

fn is_leap(year: u64) -> bool {
    year % 4 == 0 && (year % 100 != 0 || year % 400 == 0)
}

// How many leap days there were from 1970 to the end of the year. 477 came before.
fn leap_days(year: u64) -> u64
    ensures { result ≤ year / 4 + year / 400 }
{
    (year / 4 + year / 400).saturating_sub(year / 100 + 477)
}

//! The kinds of columns: what a column's numbers stand for.
use crate::digits::whole;
use crate::places::Places;
use std::fmt;

/// What the numbers of a column stand for.
#[derive(Clone, Copy, Debug, PartialEq, Eq)]
pub enum Kind {
    /// The number itself, 0 or more.
    Whole,
    /// The number itself, with a sign if it is negative.
    Signed,
    /// An amount in its smallest unit: with 2 places, `12.50` is 1250.
    Decimal(Places),
    /// A day, counted from 1970-01-01.
    Date,
    /// A name, by its number in the dictionary.
    Code,
}

impl fmt::Display for Kind {
    fn fmt<W: fmt::Write>(&self, f: &mut fmt::Formatter<W>) -> fmt::Result {
        match self {
            Kind::Whole => write!(f, "whole number"),
            Kind::Signed => write!(f, "signed number"),
            Kind::Decimal(places) => write!(f, "decimal with {places}"),
            Kind::Date => write!(f, "date YYYY-MM-DD"),
            Kind::Code => write!(f, "code"),
        }
    }
}

fn places_of(word: &str) -> Option<Places> {
    match whole(word) {
        Some(count) if count <= 9 => Places::new(count as u8),
        _ => None,
    }
}

/// The kind that the words name: `whole`, `signed`, `decimal N` (N from 0 to 9), `date` or `code`.
/// Takes no memory.
pub fn kind_of(words: &[&str]) -> Option<Kind> {
    match words {
        [only] => simple_kind(only),
        [first, places] if *first == "decimal" => places_of(places).map(Kind::Decimal),
        _ => None,
    }
}

// The kind that one word names.
fn simple_kind(word: &str) -> Option<Kind> {
    match word {
        "whole" => Some(Kind::Whole),
        "signed" => Some(Kind::Signed),
        "date" => Some(Kind::Date),
        "code" => Some(Kind::Code),
        _ => None,
    }
}

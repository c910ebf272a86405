//! Texts as numbers of a kind, and back.
ghost use Rattle.std.specs.Prelude.{◌≡◌, ◌^◌, ◌++◌, pos, OnOk, option_map, string_bytes};
ghost use Rattle.std.specs.Option.{option_and_then};
ghost use Rattle.dictionary.specs.Digits.{whole_of, below};
ghost use Rattle.dictionary.specs.Values.{ReadsNumber, WritesValue, name_text};
ghost use Rattle.dictionary.specs.declared.kind.Kind.TheVariants.{Whole};

use crate::date::{day_number, write_day};
use crate::decimal::{amount, write_amount};
use crate::digits::whole;
use crate::kind::Kind;
use crate::names::Names;
use crate::places::Places;
use std::alloc::AllocError;

// A whole number that fits in a column.
fn column_number(text: &str) -> Option<i64>
    ensures { result ≡ option_map (λ n. pos n)
        (option_and_then (λ n. below (2 ^ 63) n) (whole_of text.now)) }
{
    match whole(text) {
        Some(number) if number <= i64::MAX as u64 => Some(number as i64),
        _ => None,
    }
}

/// The number that the text spells in this kind. `None` if it spells none, and for a code, whose
/// number is up to [`Names`]. Takes no memory.
pub fn read_number(kind: Kind, text: &str) -> Option<i64>
    ensures { ReadsNumber kind text.now result }
{
    match kind {
        Kind::Whole => column_number(text),
        Kind::Signed => amount(text, Places::NONE),
        Kind::Decimal(places) => amount(text, places),
        Kind::Date => day_number(text),
        Kind::Code => None,
    }
}

/// The time that the text spells in this kind: a whole number below 2 to the 64, or the number of a
/// day from 1970-01-01 on. `None` if it spells none. Takes no memory.
pub fn read_time(kind: Kind, text: &str) -> Option<u64>
    ensures whole { kind ≡ Whole → result ≡ whole_of text.now }
{
    if kind == Kind::Whole {
        return whole(text);
    }
    match read_number(kind, text) {
        Some(number) if number >= 0 => Some(number as u64),
        _ => None,
    }
}

// Adds the name with this number, or the number if there is no such name.
fn write_name(text: &mut String, number: i64, names: &Names) -> Result<(), AllocError>
    ensures { OnOk result (string_bytes text.new ≡ string_bytes text.old ++ name_text names.now number) }
{
    if number >= 0 {
        if let Some(name) = names.name(number as usize) {
            return text.push_str(name);
        }
    }
    write!(text, "{number}")
}

/// Adds the text of the number in this kind. A code without a name, and a day that is not in the
/// years 0000 to 9999, are written as plain numbers.
pub fn write_value(
    text: &mut String,
    kind: Kind,
    number: i64,
    names: &Names,
) -> Result<(), AllocError>
    ensures { OnOk result
        (WritesValue kind names.now number (string_bytes text.old) (string_bytes text.new)) }
{
    match kind {
        Kind::Whole | Kind::Signed => write!(text, "{number}"),
        Kind::Decimal(places) => write_amount(text, number, places),
        Kind::Date => write_day(text, number),
        Kind::Code => write_name(text, number, names),
    }
}

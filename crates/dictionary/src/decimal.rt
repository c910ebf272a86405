//! Amounts: decimal numbers with at most so many places after the point.
ghost use Rattle.std.specs.Prelude.{◌≡◌, ◌≤◌, ◌<◌, ◌+◌, ◌*◌, ◌/◌, ◌%◌, ◌^◌, ◌==◌, ◌++◌, ◌∷◌, [], IfSome, OnOk, option_map, position, string_bytes, decimal, slice_index, drop};
ghost use Rattle.dictionary.specs.Digits.{below};
ghost use Rattle.dictionary.specs.Decimals.{parts_of, units_after, magnitude_of, amount_of, lowest, sign_text, after_point, amount_text};

use crate::digits::number;
use crate::places::Places;
use std::alloc::AllocError;

// 10 to the power of the places.
fn unit(places: u8) -> u64
    requires { places ≤ 9 }
    ensures value { result ≡ 10 ^ places }
    ensures some { 0 < result }
{
    10u64.pow(places as u32)
}

// The index of the first point.
fn point(digits: &[u8]) -> Option<usize>
    ensures { result ≡ position (λ b. b == 46) digits.now }
{
    digits.iter().position(|byte| *byte == b'.')
}

// The digits before the point and those after it; without a point, all digits and none.
fn parts(digits: &[u8]) -> Option<(&[u8], &[u8])>
    ensures { option_map (λ p. (p.0.now, p.1.now)) result ≡ parts_of digits.now }
{
    match point(digits) {
        None => Some((digits, &[])),
        Some(point) => {
            let fraction = digits.split_at(point + 1).1;
            if fraction.is_empty() {
                return None;
            }
            Some((digits.split_at(point).0, fraction))
        }
    }
}

// The number of smallest units after the point.
fn fraction_units(fraction: &[u8], places: Places) -> Option<u64>
    ensures { result ≡ units_after places.count fraction.now }
{
    if fraction.is_empty() {
        return Some(0);
    }
    if fraction.len() > places.count() as usize {
        return None;
    }
    number(fraction)?.checked_mul(unit(places.count() - fraction.len() as u8))
}

// The whole units and the smallest ones together, if both are there and it is below 2 to the 63.
fn join(whole: u64, fraction: u64, places: Places) -> Option<u64>
    ensures { result ≡ below (2 ^ 63) (whole * 10 ^ places.count + fraction) }
{
    let units = whole
        .checked_mul(unit(places.count()))?
        .checked_add(fraction)?;
    if units > i64::MAX as u64 {
        return None;
    }
    Some(units)
}

// The amount without a sign, in its smallest unit, if it is below 2 to the 63.
#[tactic(auto, unfolding(crate::specs::Decimals::magnitude_of))]
fn magnitude(digits: &[u8], places: Places) -> Option<u64>
    ensures value { result ≡ magnitude_of places.count digits.now }
    ensures small { IfSome result (λ units. units < 2 ^ 63) }
{
    let (whole, fraction) = parts(digits)?;
    join(number(whole)?, fraction_units(fraction, places)?, places)
}

// Whether the text begins with this byte.
fn begins_with(text: &[u8], byte: u8) -> bool
    requires { 0 < byte }
    ensures { result ≡ (slice_index text.now 0 == byte) }
{
    match text {
        [] => false,
        [first, ..] => *first == byte,
    }
}

// The text without its first byte.
fn tail(text: &[u8]) -> &[u8]
    ensures { result.now ≡ drop 1 text.now }
{
    match text {
        [] => text,
        [_, rest @ ..] => rest,
    }
}

/// The amount that the text spells, in its smallest unit: an optional `-` or `+`, digits, and
/// optionally a point with 1 to `places` digits behind it. `None` for any other text, and for an
/// amount of 2 to the 63 units or more. Takes no memory.
#[tactic(auto, unfolding(crate::specs::Decimals::amount_of))]
pub fn amount(text: &str, places: Places) -> Option<i64>
    ensures { result ≡ amount_of places.count text.now }
{
    let text = text.as_bytes();
    if begins_with(text, b'-') {
        Some(-(magnitude(tail(text), places)? as i64))
    } else if begins_with(text, b'+') {
        Some(magnitude(tail(text), places)? as i64)
    } else {
        Some(magnitude(text, places)? as i64)
    }
}

// The digit with this place from the right, counted from 0.
fn digit_at(number: u64, place: u8) -> u64
    requires { place ≤ 9 }
    ensures { result ≡ number / 10 ^ place % 10 }
{
    number / unit(place) % 10
}

// Adds a digit.
fn push_digit(text: &mut String, digit: u64) -> Result<(), AllocError>
    requires { digit < 10 }
    ensures { OnOk result (string_bytes text.new ≡ string_bytes text.old ++ (48 + digit) ∷ []) }
{
    write!(text, "{digit}")
}

/// Adds the lowest `count` digits of the number, zeros included.
pub(crate) fn push_digits(text: &mut String, number: u64, count: u8) -> Result<(), AllocError>
    requires { count ≤ 9 }
    ensures { OnOk result (string_bytes text.new ≡ string_bytes text.old ++ lowest count number) }
{
    let mut left = count;
    while left > 0 {
        left -= 1;
        push_digit(text, digit_at(number, left))?;
    }
    Ok(())
}

// Adds a minus sign if the number is negative.
fn push_sign(text: &mut String, number: i64) -> Result<(), AllocError>
    ensures { OnOk result (string_bytes text.new ≡ string_bytes text.old ++ sign_text number) }
{
    if number < 0 {
        text.push_str("-")?;
    }
    Ok(())
}

// Adds the point and the digits behind it, if there are places.
fn push_fraction(text: &mut String, units: u64, places: Places) -> Result<(), AllocError>
    ensures { OnOk result
        (string_bytes text.new ≡ string_bytes text.old ++ after_point places.count units) }
{
    if places.count() > 0 {
        text.push_str(".")?;
        push_digits(text, units, places.count())?;
    }
    Ok(())
}

// Adds the whole number.
fn push_whole(text: &mut String, number: u64) -> Result<(), AllocError>
    ensures { OnOk result (string_bytes text.new ≡ string_bytes text.old ++ decimal number) }
{
    write!(text, "{number}")
}

/// Adds the amount's text: a minus sign if it is negative, the whole units, and a point with
/// exactly `places` digits if there are any.
#[tactic(auto, unfolding(crate::specs::Decimals::amount_text))]
pub fn write_amount(text: &mut String, amount: i64, places: Places) -> Result<(), AllocError>
    ensures { OnOk result
        (string_bytes text.new ≡ string_bytes text.old ++ amount_text places.count amount) }
{
    let units = amount.unsigned_abs();
    push_sign(text, amount)?;
    push_whole(text, units / unit(places.count()))?;
    push_fraction(text, units, places)?;
    Ok(())
}

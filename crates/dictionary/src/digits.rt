//! Whole numbers in digits.
ghost use Rattle.std.specs.Prelude.{◌≡◌};
ghost use Rattle.std.specs.List.{list_all};
ghost use Rattle.std.specs.Char.{is_ascii_digit};
ghost use Rattle.dictionary.specs.Digits.{is_whole, whole_of};

use std::str;

// Whether each byte is a digit, 0 to 9.
fn are_digits(bytes: &[u8]) -> bool
    ensures { result ≡ list_all is_ascii_digit bytes.now }
{
    bytes.iter().all(|byte| byte.is_ascii_digit())
}

// Whether the bytes are one digit or more, and nothing else.
fn is_whole(bytes: &[u8]) -> bool
    ensures { result ≡ is_whole bytes.now }
{
    !bytes.is_empty() && are_digits(bytes)
}

/// The number that the digits spell, if they are digits alone and it fits in 64 bits. Takes no
/// memory.
pub(crate) fn number(digits: &[u8]) -> Option<u64>
    ensures { result ≡ whole_of digits.now }
{
    if !is_whole(digits) {
        return None;
    }
    match str::from_utf8(digits) {
        Ok(text) => text.parse::<u64>().ok(),
        Err(_) => None,
    }
}

/// The whole number that the text spells: digits alone, leading zeros included, and below 2 to the
/// 64. Takes no memory.
pub fn whole(text: &str) -> Option<u64>
    ensures { result ≡ whole_of text.now }
{
    number(text.as_bytes())
}

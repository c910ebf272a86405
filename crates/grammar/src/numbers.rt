//! Numbers in words. A word is a number only in the form in which that number is printed, so no two
//! words are the same number. A whole number has no sign, no leading zero, and only ASCII digits.
ghost use Rattle.std.specs.Prelude.{◌≡◌, ◌<◌};
ghost use Rattle.std.specs.List.{list_all};
ghost use Rattle.std.specs.Char.{is_ascii_digit};
ghost use Rattle.grammar.specs.Numbers.{is_numeral, is_signed_numeral, whole_of, signed_of};

fn are_digits(digits: &[u8]) -> bool
    ensures { result ≡ list_all is_ascii_digit digits.now }
{
    digits.iter().all(|digit| digit.is_ascii_digit())
}

fn is_numeral(digits: &[u8]) -> bool
    ensures { result ≡ is_numeral digits.now }
{
    match digits {
        [] => false,
        [only] => only.is_ascii_digit(),
        [first, ..] => *first != b'0' && are_digits(digits),
    }
}

/// The whole number that the word spells, if it spells one that fits in 64 bits. Takes no memory.
pub fn whole_number(word: &str) -> Option<u64>
    ensures { result ≡ whole_of word.now }
{
    if is_numeral(word.as_bytes()) {
        word.parse::<u64>().ok()
    } else {
        None
    }
}

// A minus sign may not stand before 0.
fn is_signed_numeral(word: &[u8]) -> bool
    ensures { result ≡ is_signed_numeral word.now }
{
    match word {
        [b'-', digits @ ..] => is_numeral(digits) && digits[0] != b'0',
        _ => is_numeral(word),
    }
}

/// The signed number that the word spells, if it spells one that fits in 64 bits. Takes no memory.
pub fn signed_number(word: &str) -> Option<i64>
    ensures { result ≡ signed_of word.now }
{
    if is_signed_numeral(word.as_bytes()) {
        word.parse::<i64>().ok()
    } else {
        None
    }
}

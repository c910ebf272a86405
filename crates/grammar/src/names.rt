//! The form of a name: 1 to 32 letters, digits and underscores, of which the first is a letter.
ghost use Rattle.std.specs.Prelude.{◌≡◌};
ghost use Rattle.std.specs.List.{list_all};
ghost use Rattle.grammar.specs.Names.{is_name, is_name_byte};

// Whether the byte is a letter, a digit or an underscore.
fn is_name_byte(byte: u8) -> bool
    ensures { result ≡ is_name_byte byte }
{
    byte.is_ascii_alphanumeric() || byte == b'_'
}

fn are_name_bytes(word: &[u8]) -> bool
    ensures { result ≡ list_all is_name_byte word.now }
{
    word.iter().all(|byte| is_name_byte(*byte))
}

// The greatest length of a name, in bytes.
const MAX_NAME: usize = 32;

/// Whether the word has the form of a name: 1 to 32 letters, digits and underscores, a letter
/// first. Takes no memory.
pub fn is_name(word: &str) -> bool
    ensures { result ≡ is_name word.now }
{
    let word = word.as_bytes();
    match word {
        [] => false,
        [first, ..] => word.len() <= MAX_NAME
            && first.is_ascii_alphabetic()
            && are_name_bytes(word),
    }
}

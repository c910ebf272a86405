//! The lines of a schema, and the form of a table's name, as the language of command files has it.
ghost use Rattle.std.specs.Prelude.{◌<◌, length};

/// The first line without its newline, and the bytes after it. Takes no memory.
pub(crate) fn first_line(bytes: &[u8]) -> (&[u8], &[u8])
    requires { 0 < length bytes.now }
    ensures shorter { length result.1.now < length bytes.now }
{
    match bytes.iter().position(|byte| *byte == b'\n') {
        Some(end) => (bytes.split_at(end).0, bytes.split_at(end + 1).1),
        None => (bytes, &[]),
    }
}

// The greatest length of a name, in bytes.
const MAX_NAME: usize = 32;

/// Whether the word is 1 to 32 letters, digits and underscores, a letter first. Takes no memory.
pub(crate) fn is_name(word: &str) -> bool {
    let word = word.as_bytes();
    match word {
        [] => false,
        [first, ..] => {
            word.len() <= MAX_NAME
                && first.is_ascii_alphabetic()
                && word
                    .iter()
                    .all(|byte| byte.is_ascii_alphanumeric() || *byte == b'_')
        }
    }
}

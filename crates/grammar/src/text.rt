//! The lines and words of a file, as slices of its bytes. Nothing is copied.
ghost use Rattle.std.specs.Prelude.{◌≡◌, ◌<◌, ◌∷◌, ◌==◌, OnOk, length, map, position};
ghost use Rattle.grammar.specs.Text.{lines_of, words_of, opens_comment};
ghost use Rattle.grammar.specs.Lines.{text_of};
ghost use Rattle.grammar.specs.Outcomes.{Gives};

use crate::fault::LineError;
use std::alloc::AllocError;
use update::Refusal;

/// The greatest length of a line, in bytes, without its newline.
const MAX_LINE: usize = 4096;

// The index of the first newline.
fn newline(bytes: &[u8]) -> Option<usize>
    ensures { result ≡ position (λ b. b == 10) bytes.now }
{
    bytes.iter().position(|b| *b == b'\n')
}

/// The first line without its newline, and the bytes after it. Takes no memory.
pub fn first_line(bytes: &[u8]) -> (&[u8], &[u8])
    requires { 0 < length bytes.now }
    ensures line { lines_of bytes.now ≡ result.0.now ∷ lines_of result.1.now }
    ensures shorter { length result.1.now < length bytes.now }
{
    match newline(bytes) {
        Some(end) => (bytes.split_at(end).0, bytes.split_at(end + 1).1),
        None => (bytes, &[]),
    }
}

// The line as text. A line that is too long is refused as such, even if it is not UTF-8 either.
#[tactic(auto, unfolding(crate::specs::Lines::text_of))]
pub(crate) fn text(line: &[u8]) -> Result<&str, LineError>
    ensures { Gives (λ text. text.now) result (text_of line.now) }
{
    if line.len() > MAX_LINE {
        return Err(LineError::Refused(Refusal::LineTooLong));
    }
    match str::from_utf8(line) {
        Ok(text) => Ok(text),
        Err(_) => Err(LineError::Refused(Refusal::NotUtf8)),
    }
}

// Reads the words of a line into a list, in the place of what was there: the pieces between the
// spaces that are not empty.
pub(crate) fn read_words<'a>(words: &mut Vec<&'a str>, line: &'a str) -> Result<(), AllocError>
    ensures { OnOk result (map (λ w. w.now) words.new.items ≡ words_of line.now) }
{
    words.clear();
    words.extend(line.split(' '))?;
    words.retain(|word| !word.is_empty());
    Ok(())
}

// Whether a line that begins with this word is a comment.
pub(crate) fn opens_comment(word: &str) -> bool
    ensures { result ≡ opens_comment word.now }
{
    match word.as_bytes() {
        [] => false,
        [first, ..] => *first == b'#',
    }
}

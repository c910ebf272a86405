//! The lines of a run's text and their words.
ghost use Rattle.std.specs.Prelude.{◌<◌, length};

use crate::fault::ShowProblem;
use std::alloc::{AllocError, Global};
use std::str;

/// The first line without its newline, and the bytes after it. Takes no memory.
pub(crate) fn first_line(bytes: &[u8]) -> (&[u8], &[u8])
    requires { 0 < length bytes.now }
    ensures shorter { length result.1.now < length bytes.now }
{
    match bytes.iter().position(|byte| *byte == b'\n') {
        Some(end) => (bytes.split_at(end).0, bytes.split_at(end + 1).1),
        None => (bytes, &[]),
    }
}

/// The words of the line: what stands between its spaces.
pub(crate) fn words(alloc: Global, line: &[u8]) -> Result<Vec<&str>, ShowProblem> {
    let Ok(text) = str::from_utf8(line) else {
        return Err(ShowProblem::NotUtf8);
    };
    let mut words = Vec::new(alloc);
    for word in text.split(' ') {
        words.push(word).map_err(AllocError::from)?;
    }
    Ok(words)
}

/// The signed number that the word spells.
pub(crate) fn signed(word: &str) -> Result<i64, ShowProblem> {
    match word.parse::<i64>() {
        Ok(number) if !word.starts_with('+') => Ok(number),
        _ => Err(ShowProblem::BadRow),
    }
}

/// The whole number that the word spells.
pub(crate) fn whole(word: &str) -> Result<u64, ShowProblem> {
    match word.parse::<u64>() {
        Ok(number) if !word.starts_with('+') => Ok(number),
        _ => Err(ShowProblem::BadRow),
    }
}

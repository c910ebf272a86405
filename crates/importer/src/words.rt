//! The words of a schema's line. Words are separated by spaces. A word that begins with a quote
//! ends before the next one, and may hold spaces.
ghost use Rattle.std.specs.Prelude.{◌<◌, ◌≤◌, IfOk, length};

use crate::schema_fault::SchemaProblem;
use std::alloc::{AllocError, Global};

// The first word, and the text after it. The text does not begin with a space.
fn first_word(text: &str) -> Result<(&str, &str), SchemaProblem>
    requires { 0 < length text.now }
    ensures { IfOk result (λ pair. length pair.1.now < length text.now) }
{
    if let Some(quoted) = text.strip_prefix('"') {
        return quoted.split_once('"').ok_or(SchemaProblem::UnclosedQuote);
    }
    match text.split_once(' ') {
        Some(pair) => Ok(pair),
        None => Ok((text, "")),
    }
}

/// The text without the spaces at its beginning.
pub(crate) fn without_spaces(text: &str) -> &str
    ensures { length result.now ≤ length text.now }
{
    text.trim_start_matches(' ')
}

/// The words of the line.
pub(crate) fn words<'a>(alloc: Global, line: &'a str) -> Result<Vec<&'a str>, SchemaProblem> {
    let mut words = Vec::new(alloc);
    let mut rest = without_spaces(line);
    while !rest.is_empty() {
        let (word, more) = first_word(rest)?;
        words.push(word).map_err(AllocError::from)?;
        rest = without_spaces(more);
    }
    Ok(words)
}

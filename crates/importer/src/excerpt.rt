//! The text that a fault tells: its beginning, if it is long.
use std::alloc::{AllocError, Global};
use std::fmt;

// The most characters of a text that a fault tells.
const MOST: usize = 80;

/// At most 80 characters of a text. It prints between quotes, with line breaks and quotes escaped.
#[derive(Debug, Drop)]
pub struct Excerpt {
    text: String,
}

impl Excerpt {
    /// The first 80 characters of the text.
    pub fn new(alloc: Global, text: &str) -> Result<Excerpt, AllocError> {
        let mut kept = String::new(alloc);
        for character in text.chars().take(MOST) {
            kept.push(character)?;
        }
        Ok(Excerpt { text: kept })
    }
}

impl fmt::Display for Excerpt {
    fn fmt<W: fmt::Write>(&self, f: &mut fmt::Formatter<W>) -> fmt::Result {
        let text = self.text.as_str();
        write!(f, "{text:?}")
    }
}

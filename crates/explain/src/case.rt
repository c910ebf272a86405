//! A faulty line, and what is known of the lines before it.
use crate::places::{Place, due_at, word};
use grammar::Reader;
use indexmap::IndexMap;

/// The names that faulty lines were to declare, with the numbers of these lines.
pub(crate) type LostNames<'a> = IndexMap<&'a str, u64>;

/// A faulty line.
#[derive(Drop)]
pub(crate) struct Case<'c, 'a> {
    /// The code of the fault.
    pub(crate) code: u8,
    /// The words of the line.
    pub(crate) words: &'c [&'a str],
    /// The index of the word at fault.
    pub(crate) at: usize,
    /// What the lines before it said.
    pub(crate) reader: &'c Reader,
    /// What faulty lines before it were to say.
    pub(crate) lost: &'c LostNames<'a>,
    /// The line that is `start`, or that was meant to be it.
    pub(crate) start: Option<u64>,
}

impl<'c, 'a> Case<'c, 'a> {
    /// The word with this index.
    pub(crate) fn word(&self, index: usize) -> &'a str {
        word(self.words, index)
    }

    /// The word at fault.
    pub(crate) fn fault(&self) -> &'a str {
        word(self.words, self.at)
    }

    /// What is due in place of the word at fault.
    pub(crate) fn due(&self) -> Place {
        due_at(self.words, self.at)
    }
}

//! A command file that is read on past its faults. [`parse`](crate::parse) ends at the first faulty
//! line, which is right for a program. A person wants to see all of them, so a reader takes the
//! lines one by one, and after a faulty line the next one.
ghost use Rattle.std.specs.Prelude.{◌≡◌, ◌<◌, Ok, length};
ghost use Rattle.grammar.specs.Lines.{line_of};
ghost use Rattle.grammar.specs.ParseStates.{number_of_name};
ghost use Rattle.grammar.specs.ScriptModels.{name_at};
ghost use Rattle.grammar.specs.Scripts.{Answers, first_parse_state, on_line};

use crate::draft::{Draft, place};
use crate::fault::Fault;
use crate::lines::take_line;
use crate::parser::fault;
use plan::{NodeId, Plan};
use std::alloc::Global;
use std::marker::Model;

/// What the lines of a file so far have said. A contract sees the parse state.
#[derive(Drop)]
pub struct Reader {
    draft: Draft,
}

impl Model for Reader {
    ghost use Rattle.grammar.specs.ParseStates.{ParseState, parse_state};

    ghost Value = { ParseState };

    ghost view = { λ reader. parse_state reader.draft };
}

impl Reader {
    /// A reader to which no line was given yet. Takes no memory.
    pub fn new(alloc: Global) -> Reader
        ensures { result ≡ first_parse_state }
    {
        Reader {
            draft: Draft::new(alloc),
        }
    }

    /// Takes line `number`, as [`parse`](crate::parse) does. The words of the line are left in
    /// `words`, a list that is lent for that; a line that is too long or not UTF-8 leaves none.
    ///
    /// The codes of a fault are those of [`parse`](crate::parse). A faulty line adds nothing,
    /// unless memory ran out (code 1). Cost: linear in the line.
    pub fn take<'a>(
        &mut self,
        alloc: Global,
        number: u64,
        line: &'a [u8],
        words: &mut Vec<&'a str>,
    ) -> Result<(), Fault>
        ensures { Answers (λ _. self.new) result
            (on_line number (line_of number self.old line.now) (λ next. Ok next)) }
    {
        words.clear();
        match take_line(alloc, &mut self.draft, number, line, words) {
            Ok(()) => Ok(()),
            Err(error) => Err(fault(number, error)),
        }
    }

    /// The node with this name. Takes no memory.
    pub fn find(&self, name: &str) -> Option<NodeId>
        ensures { result ≡ number_of_name self.now name.now }
    {
        match place(&self.draft.names, name) {
            Some(number) => Some(NodeId::new(number)),
            None => None,
        }
    }

    /// How many names there are: one for each node so far. Takes no memory.
    pub fn names(&self) -> usize
        ensures { result ≡ length self.now.names }
    {
        self.draft.names.len()
    }

    /// The name of node `number`. Takes no memory.
    pub fn name(&self, number: usize) -> &str
        requires { number < length self.now.names }
        ensures { result.now ≡ name_at self.now.names number }
    {
        self.draft.names.get_index(number).unwrap().as_str()
    }

    /// The nodes so far. Takes no memory.
    pub fn plan(&self) -> &Plan
        ensures { result.now ≡ self.now.plan }
    {
        &self.draft.plan
    }

    /// Whether `start` has come. Takes no memory.
    pub fn has_started(&self) -> bool
        ensures { result ≡ self.now.started }
    {
        self.draft.started
    }
}

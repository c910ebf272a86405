//! What is told about faults. The file is read past each of them, and a faulty line declares
//! nothing.
ghost use Rattle.std.specs.Prelude.{◌≡◌};

use crate::case::{Case, LostNames};
use crate::excerpt::{push_excerpt, span_at};
use crate::hints::push_hint;
use crate::marks::word_at_fault;
use crate::meanings::{head, meaning};
use crate::places::word;
use crate::teller::Teller;
use grammar::{Fault, Reader, is_name};
use std::alloc::{AllocError, Global};

/// Tells about the faults of a file. How the first one begins has been printed before.
#[derive(Drop)]
pub(crate) struct FaultTeller<'a> {
    reader: Reader,
    first: Fault,
    // How many faults came after the first.
    later: u64,
    // The last line so far.
    last: u64,
    lost: LostNames<'a>,
    // The line that is `start`, or that was meant to be it.
    start: Option<u64>,
}

impl<'a> FaultTeller<'a> {
    /// Tells about a file whose first fault this is. Takes no memory.
    pub(crate) fn new(alloc: Global, first: Fault) -> FaultTeller<'a> {
        FaultTeller {
            reader: Reader::new(alloc),
            first,
            later: 0,
            last: 0,
            lost: LostNames::new(alloc),
            start: None,
        }
    }

    // Tells that there is no `start`.
    fn push_no_start(&mut self, alloc: Global, text: &mut String) -> Result<(), AllocError> {
        let fault = Fault {
            line: self.last.saturating_add(1),
            code: 34,
        };
        self.push_head(alloc, text, fault)?;
        match self.start {
            Some(line) => writeln!(
                text,
                "    hint: line {line} was to be `start`, and is at fault"
            ),
            None => writeln!(text, "    hint: the file has no `start`"),
        }
    }

    /// How many faults there are.
    pub(crate) fn faults(&self) -> u64
        ensures { result ≡ 0 → ⊥ }
    {
        self.later.saturating_add(1)
    }

    // What the fault means. Its head is added too, unless it is the first, whose head is there
    // already.
    fn push_head(
        &mut self,
        alloc: Global,
        text: &mut String,
        fault: Fault,
    ) -> Result<(), AllocError> {
        if fault.line != self.first.line {
            self.later = self.later.saturating_add(1);
            text.push_str(head(alloc, fault)?.as_str())?;
        }
        let meaning = meaning(fault.code);
        writeln!(text, "{meaning}")
    }

    // Tells about a faulty line.
    fn push_fault(
        &mut self,
        alloc: Global,
        text: &mut String,
        fault: Fault,
        line: &[u8],
        words: &[&'a str],
    ) -> Result<(), AllocError> {
        self.push_head(alloc, text, fault)?;
        let index = word_at_fault(&self.reader, words, fault.code);
        push_excerpt(alloc, text, line, span_at(line, index))?;
        let case = Case {
            code: fault.code,
            words,
            at: index.unwrap_or(usize::MAX),
            reader: &self.reader,
            lost: &self.lost,
            start: self.start,
        };
        push_hint(text, &case)?;
        self.note(fault.line, words)
    }

    // Keeps in mind what the faulty line was to say.
    fn note(&mut self, line: u64, words: &[&'a str]) -> Result<(), AllocError> {
        let keyword = word(words, 0);
        let name = word(words, 1);
        let declares = keyword == "input" || keyword == "node" || keyword == "view";
        if declares && is_name(name) && self.reader.find(name).is_none() {
            self.lost.insert(name, line)?;
        }
        if self.start.is_none() && is_meant_as_start(keyword) {
            self.start = Some(line);
        }
        Ok(())
    }
}

// Whether a line that begins with this word was meant to be `start`.
fn is_meant_as_start(word: &str) -> bool {
    let letters = match word.strip_suffix('\r') {
        Some(letters) => letters,
        None => word,
    };
    letters.eq_ignore_ascii_case("start")
}

impl<'a> Teller<'a> for FaultTeller<'a> {
    fn tell_line(
        &mut self,
        alloc: Global,
        number: u64,
        line: &'a [u8],
        text: &mut String,
    ) -> Result<(), AllocError> {
        self.last = number;
        let had_started = self.reader.has_started();
        let mut words = Vec::new(alloc);
        match self.reader.take(alloc, number, line, &mut words) {
            Ok(()) => {
                if !had_started && self.reader.has_started() {
                    self.start = Some(number);
                }
                Ok(())
            }
            Err(fault) => {
                if fault.code == 1 {
                    return Err(AllocError);
                }
                self.push_fault(alloc, text, fault, line, words.as_slice())
            }
        }
    }

    fn tell_end(&mut self, alloc: Global, text: &mut String) -> Result<(), AllocError> {
        if self.reader.has_started() {
            return Ok(());
        }
        self.push_no_start(alloc, text)
    }
}

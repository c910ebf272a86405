//! One line: its bytes, its first word, and whether such a line may stand here. The tests are made
//! in this order.
ghost use Rattle.std.specs.Prelude.{map};
ghost use Rattle.grammar.specs.ParseStates.{parse_state};
ghost use Rattle.grammar.specs.Lines.{opening, keyword_line, words_line, line_of, with_command};
ghost use Rattle.grammar.specs.Outcomes.{Gives};

use crate::command::{Command, CommandLine};
use crate::declarations::{input_line, start_line, view_line};
use crate::draft::Draft;
use crate::fault::LineError;
use crate::keyword::Keyword;
use crate::nodes::node_line;
use crate::requests::{
    advance_line, allow_line, change_line, changes_line, close_line, frontier_line, read_line,
};
use crate::text::{opens_comment, read_words, text};
use std::alloc::Global;
use update::Refusal;

// The keyword that the word spells; refused if it is not a keyword, or if such a line may not stand
// here.
#[tactic(auto, unfolding(crate::specs::Lines::opening))]
fn opening(draft: &Draft, word: &str) -> Result<Keyword, LineError>
    ensures { Gives (λ keyword. keyword) result (opening (parse_state draft.now) word.now) }
{
    match Keyword::of(word) {
        None => Err(LineError::Refused(Refusal::UnknownCommand)),
        Some(keyword) => {
            let misplaced = if keyword.is_early() {
                draft.started
            } else {
                !draft.started
            };
            if misplaced {
                Err(LineError::Refused(Refusal::BadOrder))
            } else {
                Ok(keyword)
            }
        }
    }
}

// Appends the command of line `number`.
fn push_command(draft: &mut Draft, number: u64, command: Command) -> Result<(), LineError>
    ensures { Gives (λ _. parse_state draft.new) result
        (with_command number (parse_state draft.old) (Ok command)) }
{
    draft.commands.push(CommandLine {
        line: number,
        command,
    })?;
    Ok(())
}

// Handles the words after the keyword.
fn keyword_line(
    alloc: Global,
    draft: &mut Draft,
    number: u64,
    keyword: Keyword,
    words: &[&str],
) -> Result<(), LineError>
    ensures { Gives (λ _. parse_state draft.new) result
        (keyword_line number (parse_state draft.old) keyword (map (λ w. w.now) words.now)) }
{
    let command = match keyword {
        Keyword::Input => return input_line(alloc, draft, words),
        Keyword::Node => return node_line(alloc, draft, words),
        Keyword::View => return view_line(alloc, draft, words),
        Keyword::Start => return start_line(draft, words),
        Keyword::Change => change_line(alloc, draft, words)?,
        Keyword::Advance => advance_line(alloc, draft, words)?,
        Keyword::Close => close_line(draft, words)?,
        Keyword::Allow => allow_line(alloc, draft, words)?,
        Keyword::Read => read_line(draft, words)?,
        Keyword::Changes => changes_line(draft, words)?,
        Keyword::Frontier => frontier_line(draft, words)?,
    };
    push_command(draft, number, command)
}

// Handles the words of a line. An empty line or a comment is skipped.
#[tactic(auto, unfolding(crate::specs::Lines::words_line))]
fn words_line(
    alloc: Global,
    draft: &mut Draft,
    number: u64,
    words: &[&str],
) -> Result<(), LineError>
    ensures { Gives (λ _. parse_state draft.new) result
        (words_line number (parse_state draft.old) (map (λ w. w.now) words.now)) }
{
    match words {
        [] => Ok(()),
        [first, rest @ ..] => {
            if opens_comment(first) {
                return Ok(());
            }
            let keyword = opening(draft, first)?;
            keyword_line(alloc, draft, number, keyword, rest)
        }
    }
}

// Handles line `number`. Its words are read into a list that is lent for that.
#[tactic(auto, unfolding(crate::specs::Lines::line_of))]
pub(crate) fn take_line<'a>(
    alloc: Global,
    draft: &mut Draft,
    number: u64,
    line: &'a [u8],
    words: &mut Vec<&'a str>,
) -> Result<(), LineError>
    ensures { Gives (λ _. parse_state draft.new) result
        (line_of number (parse_state draft.old) line.now) }
{
    let text = text(line)?;
    read_words(words, text)?;
    words_line(alloc, draft, number, words)
}

//! The lines after `start`. Each is one command. It looks up names and changes nothing in the
//! draft.
ghost use Rattle.std.specs.Prelude.{map};
ghost use Rattle.grammar.specs.ParseStates.{parse_state};
ghost use Rattle.grammar.specs.Lines.{change_line, advance_line, allow_line, close_line, read_line, changes_line, frontier_line};
ghost use Rattle.grammar.specs.Outcomes.{Gives};

use crate::command::{Command, InputCommand, ViewCommand};
use crate::declarations::wrong_count;
use crate::draft::Draft;
use crate::fault::LineError;
use crate::words::{row, signed, time, times, whole, wholes};
use row::MAX_WIDTH;
use std::alloc::Global;

#[tactic(auto, unfolding(crate::specs::Lines::change_line))]
pub(crate) fn change_line(
    alloc: Global,
    draft: &Draft,
    words: &[&str],
) -> Result<Command, LineError>
    ensures { Gives (λ command. command) result
        (change_line (parse_state draft.now) (map (λ w. w.now) words.now)) }
{
    match words {
        [name, valid, system, diff, rest @ ..] => {
            if rest.is_empty() || rest.len() > MAX_WIDTH {
                return Err(wrong_count());
            }
            let input = draft.input(name)?;
            let valid = whole(valid)?;
            let system = whole(system)?;
            let diff = signed(diff)?;
            let row = row(alloc, rest)?;
            Ok(Command::Input(InputCommand::Change {
                input,
                time: time(valid, system),
                diff,
                row,
            }))
        }
        _ => Err(wrong_count()),
    }
}

#[tactic(auto, unfolding(crate::specs::Lines::advance_line))]
pub(crate) fn advance_line(
    alloc: Global,
    draft: &Draft,
    words: &[&str],
) -> Result<Command, LineError>
    ensures { Gives (λ command. command) result
        (advance_line (parse_state draft.now) (map (λ w. w.now) words.now)) }
{
    match words {
        [name, pairs @ ..] => {
            if pairs.is_empty() || pairs.len() % 2 != 0 {
                return Err(wrong_count());
            }
            let input = draft.input(name)?;
            let numbers = wholes(alloc, pairs)?;
            let times = times(alloc, &numbers)?;
            Ok(Command::Input(InputCommand::Advance { input, times }))
        }
        _ => Err(wrong_count()),
    }
}

#[tactic(auto, unfolding(crate::specs::Lines::close_line))]
pub(crate) fn close_line(draft: &Draft, words: &[&str]) -> Result<Command, LineError>
    ensures { Gives (λ command. command) result
        (close_line (parse_state draft.now) (map (λ w. w.now) words.now)) }
{
    match words {
        [name] => {
            let input = draft.input(name)?;
            Ok(Command::Input(InputCommand::Close { input }))
        }
        _ => Err(wrong_count()),
    }
}

#[tactic(auto, unfolding(crate::specs::Lines::allow_line))]
pub(crate) fn allow_line(alloc: Global, draft: &Draft, words: &[&str]) -> Result<Command, LineError>
    ensures { Gives (λ command. command) result
        (allow_line (parse_state draft.now) (map (λ w. w.now) words.now)) }
{
    match words {
        [name, pairs @ ..] => {
            if pairs.is_empty() || pairs.len() % 2 != 0 {
                return Err(wrong_count());
            }
            let view = draft.view(name)?;
            let numbers = wholes(alloc, pairs)?;
            let times = times(alloc, &numbers)?;
            Ok(Command::Allow { view, times })
        }
        _ => Err(wrong_count()),
    }
}

#[tactic(auto, unfolding(crate::specs::Lines::read_line))]
pub(crate) fn read_line(draft: &Draft, words: &[&str]) -> Result<Command, LineError>
    ensures { Gives (λ command. command) result
        (read_line (parse_state draft.now) (map (λ w. w.now) words.now)) }
{
    match words {
        [name, valid, system] => {
            let view = draft.view(name)?;
            let valid = whole(valid)?;
            let system = whole(system)?;
            Ok(Command::View(ViewCommand::Read {
                view,
                time: time(valid, system),
            }))
        }
        _ => Err(wrong_count()),
    }
}

#[tactic(auto, unfolding(crate::specs::Lines::changes_line))]
pub(crate) fn changes_line(draft: &Draft, words: &[&str]) -> Result<Command, LineError>
    ensures { Gives (λ command. command) result
        (changes_line (parse_state draft.now) (map (λ w. w.now) words.now)) }
{
    match words {
        [name] => {
            let view = draft.view(name)?;
            Ok(Command::View(ViewCommand::Changes { view }))
        }
        _ => Err(wrong_count()),
    }
}

#[tactic(auto, unfolding(crate::specs::Lines::frontier_line))]
pub(crate) fn frontier_line(draft: &Draft, words: &[&str]) -> Result<Command, LineError>
    ensures { Gives (λ command. command) result
        (frontier_line (parse_state draft.now) (map (λ w. w.now) words.now)) }
{
    match words {
        [name] => {
            let view = draft.view(name)?;
            Ok(Command::View(ViewCommand::Frontier { view }))
        }
        _ => Err(wrong_count()),
    }
}

//! The lines before `start` (except `node` lines), and `start` itself.
ghost use Rattle.std.specs.Prelude.{◌≡◌, map};
ghost use Rattle.update.specs.declared.refusal.Refusal.TheVariants.{WrongWordCount};
ghost use Rattle.grammar.specs.ParseStates.{parse_state};
ghost use Rattle.grammar.specs.Declarations.{input_line, view_line};
ghost use Rattle.grammar.specs.Lines.{start_line};
ghost use Rattle.grammar.specs.Outcomes.{Gives};

use crate::draft::Draft;
use crate::fault::LineError;
use crate::words::whole;
use plan::Node;
use std::alloc::Global;
use update::Refusal;

// The line has too few words, or too many.
pub(crate) fn wrong_count() -> LineError
    ensures { result ≡ LineError.Refused WrongWordCount }
{
    LineError::Refused(Refusal::WrongWordCount)
}

#[tactic(auto, unfolding(crate::specs::Declarations::input_line))]
pub(crate) fn input_line(alloc: Global, draft: &mut Draft, words: &[&str]) -> Result<(), LineError>
    ensures { Gives (λ _. parse_state draft.new) result
        (input_line (parse_state draft.old) (map (λ w. w.now) words.now)) }
{
    match words {
        [name, width] => {
            let name = draft.new_name(alloc, name)?;
            let width = whole(width)? as usize;
            draft.add(alloc, name, Node::Input { width })
        }
        _ => Err(wrong_count()),
    }
}

#[tactic(auto, unfolding(crate::specs::Declarations::view_line))]
pub(crate) fn view_line(alloc: Global, draft: &mut Draft, words: &[&str]) -> Result<(), LineError>
    ensures { Gives (λ _. parse_state draft.new) result
        (view_line (parse_state draft.old) (map (λ w. w.now) words.now)) }
{
    match words {
        [name, source] => {
            let name = draft.new_name(alloc, name)?;
            let source = draft.source(source)?;
            draft.add(alloc, name, Node::Output { source })
        }
        _ => Err(wrong_count()),
    }
}

#[tactic(auto, unfolding(crate::specs::Lines::start_line))]
pub(crate) fn start_line(draft: &mut Draft, words: &[&str]) -> Result<(), LineError>
    ensures { Gives (λ _. parse_state draft.new) result
        (start_line (parse_state draft.old) (map (λ w. w.now) words.now)) }
{
    match words {
        [] => {
            draft.started = true;
            Ok(())
        }
        _ => Err(wrong_count()),
    }
}

//! The `node` lines. A line has its name before its kind, but the kind decides how many words it
//! must have. So the kind is tested first, then the number of words, and then the words from left
//! to right.
ghost use Rattle.std.specs.Prelude.{map};
ghost use Rattle.grammar.specs.ParseStates.{parse_state};
ghost use Rattle.grammar.specs.Declarations.{map_line, filter_line, concat_line, negate_line, arrange_line, join_line, reduce_line, kind_line, node_line};
ghost use Rattle.grammar.specs.Outcomes.{Gives};

use crate::declarations::wrong_count;
use crate::draft::Draft;
use crate::fault::LineError;
use crate::items::{items, test};
use crate::kind::KindWord;
use crate::words::whole;
use plan::{Items, Kind, Node};
use std::alloc::Global;
use update::Refusal;

#[tactic(auto, unfolding(crate::specs::Declarations::map_line))]
fn map_line(alloc: Global, draft: &mut Draft, name: &str, words: &[&str]) -> Result<(), LineError>
    ensures { Gives (λ _. parse_state draft.new) result
        (map_line (parse_state draft.old) name.now (map (λ w. w.now) words.now)) }
{
    match words {
        [source, rest @ ..] => {
            if rest.is_empty() {
                return Err(wrong_count());
            }
            let name = draft.new_name(alloc, name)?;
            let source = draft.source(source)?;
            let items = Items::from(items(alloc, rest)?);
            draft.add(alloc, name, Node::Map { source, items })
        }
        _ => Err(wrong_count()),
    }
}

#[tactic(auto, unfolding(crate::specs::Declarations::filter_line))]
fn filter_line(
    alloc: Global,
    draft: &mut Draft,
    name: &str,
    words: &[&str],
) -> Result<(), LineError>
    ensures { Gives (λ _. parse_state draft.new) result
        (filter_line (parse_state draft.old) name.now (map (λ w. w.now) words.now)) }
{
    match words {
        [source, left, op, right] => {
            let name = draft.new_name(alloc, name)?;
            let source = draft.source(source)?;
            let test = test(left, op, right)?;
            draft.add(alloc, name, Node::Filter { source, test })
        }
        _ => Err(wrong_count()),
    }
}

#[tactic(auto, unfolding(crate::specs::Declarations::concat_line))]
fn concat_line(
    alloc: Global,
    draft: &mut Draft,
    name: &str,
    words: &[&str],
) -> Result<(), LineError>
    ensures { Gives (λ _. parse_state draft.new) result
        (concat_line (parse_state draft.old) name.now (map (λ w. w.now) words.now)) }
{
    match words {
        [left, right] => {
            let name = draft.new_name(alloc, name)?;
            let left = draft.source(left)?;
            let right = draft.source(right)?;
            draft.add(alloc, name, Node::Concat { left, right })
        }
        _ => Err(wrong_count()),
    }
}

#[tactic(auto, unfolding(crate::specs::Declarations::negate_line))]
fn negate_line(
    alloc: Global,
    draft: &mut Draft,
    name: &str,
    words: &[&str],
) -> Result<(), LineError>
    ensures { Gives (λ _. parse_state draft.new) result
        (negate_line (parse_state draft.old) name.now (map (λ w. w.now) words.now)) }
{
    match words {
        [source] => {
            let name = draft.new_name(alloc, name)?;
            let source = draft.source(source)?;
            draft.add(alloc, name, Node::Negate { source })
        }
        _ => Err(wrong_count()),
    }
}

#[tactic(auto, unfolding(crate::specs::Declarations::arrange_line))]
fn arrange_line(
    alloc: Global,
    draft: &mut Draft,
    name: &str,
    words: &[&str],
) -> Result<(), LineError>
    ensures { Gives (λ _. parse_state draft.new) result
        (arrange_line (parse_state draft.old) name.now (map (λ w. w.now) words.now)) }
{
    match words {
        [source, key] => {
            let name = draft.new_name(alloc, name)?;
            let source = draft.source(source)?;
            let key = whole(key)? as usize;
            draft.add(alloc, name, Node::Arrange { source, key })
        }
        _ => Err(wrong_count()),
    }
}

#[tactic(auto, unfolding(crate::specs::Declarations::join_line))]
fn join_line(alloc: Global, draft: &mut Draft, name: &str, words: &[&str]) -> Result<(), LineError>
    ensures { Gives (λ _. parse_state draft.new) result
        (join_line (parse_state draft.old) name.now (map (λ w. w.now) words.now)) }
{
    match words {
        [left, right] => {
            let name = draft.new_name(alloc, name)?;
            let left = draft.source(left)?;
            let right = draft.source(right)?;
            draft.add(alloc, name, Node::Join { left, right })
        }
        _ => Err(wrong_count()),
    }
}

// The line of a reduction: `count`, `distinct`, `min` or `max`.
#[tactic(auto, unfolding(crate::specs::Declarations::reduce_line))]
fn reduce_line(
    alloc: Global,
    kind: Kind,
    draft: &mut Draft,
    name: &str,
    words: &[&str],
) -> Result<(), LineError>
    ensures { Gives (λ _. parse_state draft.new) result
        (reduce_line kind (parse_state draft.old) name.now (map (λ w. w.now) words.now)) }
{
    match words {
        [source] => {
            let name = draft.new_name(alloc, name)?;
            let source = draft.source(source)?;
            draft.add(alloc, name, Node::Reduce { kind, source })
        }
        _ => Err(wrong_count()),
    }
}

// Handles the words after the kind.
fn kind_line(
    alloc: Global,
    draft: &mut Draft,
    name: &str,
    kind: KindWord,
    words: &[&str],
) -> Result<(), LineError>
    ensures { Gives (λ _. parse_state draft.new) result
        (kind_line (parse_state draft.old) name.now kind (map (λ w. w.now) words.now)) }
{
    match kind {
        KindWord::Map => map_line(alloc, draft, name, words),
        KindWord::Filter => filter_line(alloc, draft, name, words),
        KindWord::Concat => concat_line(alloc, draft, name, words),
        KindWord::Negate => negate_line(alloc, draft, name, words),
        KindWord::Arrange => arrange_line(alloc, draft, name, words),
        KindWord::Join => join_line(alloc, draft, name, words),
        KindWord::Reduce(kind) => reduce_line(alloc, kind, draft, name, words),
    }
}

#[tactic(auto, unfolding(crate::specs::Declarations::node_line))]
pub(crate) fn node_line(alloc: Global, draft: &mut Draft, words: &[&str]) -> Result<(), LineError>
    ensures { Gives (λ _. parse_state draft.new) result
        (node_line (parse_state draft.old) (map (λ w. w.now) words.now)) }
{
    match words {
        [name, word, rest @ ..] => match KindWord::of(word) {
            Some(kind) => kind_line(alloc, draft, name, kind, rest),
            None => Err(LineError::Refused(Refusal::UnknownCommand)),
        },
        _ => Err(wrong_count()),
    }
}

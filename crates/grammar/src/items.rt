//! The words of `map` and `filter` lines: items, each a column or a constant, and tests that
//! compare two items. The first byte of an item says which of the two it is. The rest is a number
//! in its only form.
ghost use Rattle.std.specs.Prelude.{◌≡◌, map};
ghost use Rattle.grammar.specs.Items.{item_of, item, items, comparison_of, comparison, filter_test};
ghost use Rattle.grammar.specs.Outcomes.{Gives};

use crate::fault::LineError;
use crate::numbers::{signed_number, whole_number};
use row::{Cmp, Item, Test};
use std::alloc::Global;
use update::Refusal;

// The item that the word spells, if it spells one.
fn item_of(word: &str) -> Option<Item>
    ensures { result ≡ item_of word.now }
{
    match word.split_at_checked(1) {
        None => None,
        Some((mark, number)) => {
            if mark == "c" {
                Some(Item::Column(whole_number(number)? as usize))
            } else if mark == "=" {
                Some(Item::Constant(signed_number(number)?))
            } else {
                None
            }
        }
    }
}

// The word as an item; `BadNumber` if it is not one.
#[tactic(auto, unfolding(crate::specs::Items::item))]
fn item(word: &str) -> Result<Item, LineError>
    ensures { Gives (λ item. item) result (item word.now) }
{
    match item_of(word) {
        Some(item) => Ok(item),
        None => Err(LineError::Refused(Refusal::BadNumber)),
    }
}

// The words as items; `BadNumber` if one of them is not an item.
#[tactic(auto, unfolding(crate::specs::Items::items))]
pub(crate) fn items(alloc: Global, words: &[&str]) -> Result<Vec<Item>, LineError>
    ensures { Gives (λ v. v.items) result (items (map (λ w. w.now) words.now)) }
{
    let mut items = Vec::new(alloc);
    for word in words {
        let item = item(word)?;
        items.push(item)?;
    }
    Ok(items)
}

// The comparison that the word spells, if it spells one.
fn comparison_of(word: &str) -> Option<Cmp>
    ensures { result ≡ comparison_of word.now }
{
    if word == "eq" {
        Some(Cmp::Eq)
    } else if word == "ne" {
        Some(Cmp::Ne)
    } else if word == "lt" {
        Some(Cmp::Lt)
    } else if word == "le" {
        Some(Cmp::Le)
    } else if word == "gt" {
        Some(Cmp::Gt)
    } else if word == "ge" {
        Some(Cmp::Ge)
    } else {
        None
    }
}

// The word as a comparison; `UnknownCommand` if it is not one.
#[tactic(auto, unfolding(crate::specs::Items::comparison))]
fn comparison(word: &str) -> Result<Cmp, LineError>
    ensures { Gives (λ op. op) result (comparison word.now) }
{
    match comparison_of(word) {
        Some(op) => Ok(op),
        None => Err(LineError::Refused(Refusal::UnknownCommand)),
    }
}

// The words as a test: an item, a comparison and an item. They are checked from left to right.
#[tactic(auto, unfolding(crate::specs::Items::filter_test))]
pub(crate) fn test(left: &str, op: &str, right: &str) -> Result<Test, LineError>
    ensures { Gives (λ test. test) result (filter_test left.now op.now right.now) }
{
    let left = item(left)?;
    let op = comparison(op)?;
    let right = item(right)?;
    Ok(Test { left, op, right })
}

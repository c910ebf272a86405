//! Hints about names: new ones, and those of earlier lines.
use crate::case::Case;
use crate::places::Place;
use crate::sorts::{same_letters, sort_of};
use std::alloc::AllocError;

/// What is known about a name that is not there, or that is of another sort.
pub(crate) fn push_unknown(text: &mut String, case: &Case<'_, '_>) -> Result<(), AllocError> {
    let name = case.fault();
    if let Some(sort) = sort_of(case.reader, name) {
        let sort = sort.text();
        let due = due(case.due());
        return writeln!(text, "    hint: `{name}` is {sort}, and {due} is due here");
    }
    if let Some(line) = case.lost.get(name) {
        return writeln!(
            text,
            "    hint: line {line} was to declare `{name}`, and is at fault"
        );
    }
    if case.at > 1 && name == case.word(1) {
        return writeln!(
            text,
            "    hint: a line does not know the name that it declares"
        );
    }
    push_same_letters(text, case)
}

// Names the name that differs only in small and large letters.
fn push_same_letters(text: &mut String, case: &Case<'_, '_>) -> Result<(), AllocError> {
    match same_letters(case.reader, case.fault()) {
        Some(other) => {
            writeln!(
                text,
                "    hint: there is `{other}`; small and large letters differ"
            )
        }
        None => Ok(()),
    }
}

// The sort of name that is due.
fn due(place: Place) -> &'static str {
    match place {
        Place::Input => "an input",
        Place::View => "a view",
        _ => "an input or a node",
    }
}

/// What the name that is taken stands for.
pub(crate) fn push_taken(text: &mut String, case: &Case<'_, '_>) -> Result<(), AllocError> {
    let name = case.fault();
    match sort_of(case.reader, name) {
        Some(sort) => {
            let sort = sort.text();
            writeln!(text, "    hint: `{name}` is {sort} already")
        }
        None => Ok(()),
    }
}

/// The form of names.
pub(crate) fn push_form(text: &mut String) -> Result<(), AllocError> {
    writeln!(
        text,
        "    hint: a name is a letter, and then letters, digits and `_`, 32 in all at most"
    )
}

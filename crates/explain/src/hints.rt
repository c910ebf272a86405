//! Hints: what to do about a fault, where the words of the line tell it.
use crate::case::Case;
use crate::forms::{push_form, push_order, push_unknown};
use crate::name_hints;
use crate::number_hints::push_number;
use crate::plan_hints::{push_arrange, push_columns, push_key, push_keys, push_width, push_widths};
use std::alloc::AllocError;

/// Adds a hint on a line of its own, if there is one.
pub(crate) fn push_hint(text: &mut String, case: &Case<'_, '_>) -> Result<(), AllocError> {
    if let Some(hint) = stray_character(case.fault()) {
        return writeln!(text, "    hint: {hint}");
    }
    match case.code {
        14 => name_hints::push_unknown(text, case),
        15 => name_hints::push_taken(text, case),
        31 => push_unknown(text, case),
        32 => push_form(text, case),
        33 => push_number(text, case),
        34 => push_order(text, case),
        37 => name_hints::push_form(text),
        _ => push_plan_hint(text, case),
    }
}

// A hint about a node that no plan takes.
fn push_plan_hint(text: &mut String, case: &Case<'_, '_>) -> Result<(), AllocError> {
    match case.code {
        16 => push_columns(text, case),
        17 => push_widths(text, case),
        18 => push_arrange(text, case),
        19 => push_keys(text, case),
        20 => push_width(text),
        21 => push_key(text, case),
        36 => writeln!(text, "    hint: save the file as UTF-8"),
        _ => Ok(()),
    }
}

// A character in the word that cannot be seen, and that separates no words.
fn stray_character(word: &str) -> Option<&'static str> {
    if word.starts_with('\u{feff}') {
        Some("the file begins with a byte order mark; save it without one")
    } else if word.ends_with('\r') {
        Some("the line ends in a carriage return; only a newline ends a line")
    } else if word.contains('\r') {
        Some("there is a carriage return in the word")
    } else if word.contains('\t') {
        Some("there is a tab in the word; only spaces separate words")
    } else {
        None
    }
}

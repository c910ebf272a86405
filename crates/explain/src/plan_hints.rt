//! Hints about lines whose words are in order, but whose node no plan takes.
use crate::case::Case;
use crate::sorts::{key_of, width_of};
use std::alloc::AllocError;

/// Which columns the source has.
pub(crate) fn push_columns(text: &mut String, case: &Case<'_, '_>) -> Result<(), AllocError> {
    let source = case.word(3);
    match width_of(case.reader, source) {
        Some(1) => writeln!(text, "    hint: `{source}` has 1 column, c0"),
        Some(width) => {
            let last = width.saturating_sub(1);
            writeln!(
                text,
                "    hint: `{source}` has {width} columns, c0 to c{last}"
            )
        }
        None => Ok(()),
    }
}

/// How wide both sources are.
pub(crate) fn push_widths(text: &mut String, case: &Case<'_, '_>) -> Result<(), AllocError> {
    let (left, right) = (case.word(3), case.word(4));
    let widths = (width_of(case.reader, left), width_of(case.reader, right));
    let (Some(of_left), Some(of_right)) = widths else {
        return Ok(());
    };
    writeln!(
        text,
        "    hint: the width of `{left}` is {of_left}, and that of `{right}` is {of_right}"
    )
}

/// How to arrange a source.
pub(crate) fn push_arrange(text: &mut String, case: &Case<'_, '_>) -> Result<(), AllocError> {
    let source = case.fault();
    writeln!(
        text,
        "    hint: read a node that arranges it, as `node NAME arrange {source} 1`"
    )
}

/// By how many columns both sources are arranged.
pub(crate) fn push_keys(text: &mut String, case: &Case<'_, '_>) -> Result<(), AllocError> {
    let (left, right) = (case.word(3), case.word(4));
    let keys = (key_of(case.reader, left), key_of(case.reader, right));
    let (Some(of_left), Some(of_right)) = keys else {
        return Ok(());
    };
    writeln!(
        text,
        "    hint: the key of `{left}` is {of_left}, and that of `{right}` is {of_right}"
    )
}

/// How wide rows may be.
pub(crate) fn push_width(text: &mut String) -> Result<(), AllocError> {
    writeln!(text, "    hint: a row has 1 to 8 columns")
}

/// Which keys the source may have.
pub(crate) fn push_key(text: &mut String, case: &Case<'_, '_>) -> Result<(), AllocError> {
    let source = case.word(3);
    match width_of(case.reader, source) {
        Some(width) => writeln!(
            text,
            "    hint: a key of `{source}` is 1 to {width} columns"
        ),
        None => Ok(()),
    }
}

//! Dictionaries as CSV.
use crate::column::View;
use crate::entries::Dictionary;
use crate::kind::Kind;
use crate::names::Names;
use csv::{Writer, WriterBuilder};
use std::alloc::{AllocError, Global};

// The bytes of a CSV file that is being written.
type Text = Writer<Vec<u8>>;

// Writes a record. Only memory can be refused, since the bytes stay in memory.
fn write(text: &mut Text, fields: &[&[u8]]) -> Result<(), AllocError> {
    text.write_fields(fields).map_err(|_| AllocError)
}

// The words that name the kind, as `kind_of` reads them.
fn kind_words(alloc: Global, kind: Kind) -> Result<String, AllocError> {
    match kind {
        Kind::Whole => String::from_str(alloc, "whole"),
        Kind::Signed => String::from_str(alloc, "signed"),
        Kind::Decimal(places) => {
            let count = places.count();
            format!(in alloc; "decimal {count}")
        }
        Kind::Date => String::from_str(alloc, "date"),
        Kind::Code => String::from_str(alloc, "code"),
    }
}

fn write_time_kind(
    alloc: Global,
    text: &mut Text,
    word: &str,
    kind: Kind,
) -> Result<(), AllocError> {
    let kind = kind_words(alloc, kind)?;
    write(text, &[word.as_bytes(), kind.as_bytes()])
}

fn write_view(alloc: Global, text: &mut Text, view: &View) -> Result<(), AllocError> {
    for column in &view.columns {
        let kind = kind_words(alloc, column.kind)?;
        let name = view.name.as_bytes();
        let title = column.title.as_bytes();
        write(text, &[b"column", name, title, kind.as_bytes()])?;
    }
    Ok(())
}

fn write_views(alloc: Global, text: &mut Text, views: &[View]) -> Result<(), AllocError> {
    for view in views {
        write_view(alloc, text, view)?;
    }
    Ok(())
}

fn write_names(alloc: Global, text: &mut Text, names: &Names) -> Result<(), AllocError> {
    for number in 0..names.len() {
        if let Some(name) = names.name(number) {
            let number = format!(in alloc; "{number}")?;
            write(text, &[b"name", number.as_bytes(), name.as_bytes()])?;
        }
    }
    Ok(())
}

/// The dictionary as a CSV file. Its records are `valid,KIND`, `revision,KIND`,
/// `column,VIEW,TITLE,KIND` for each column in order, and `name,NUMBER,NAME` for each name in
/// order.
///
/// Cost: linear in the text.
pub fn dictionary_text(alloc: Global, dictionary: &Dictionary) -> Result<Vec<u8>, AllocError> {
    let mut text = WriterBuilder::new()
        .flexible(true)
        .from_writer(Vec::new(alloc));
    write_time_kind(alloc, &mut text, "valid", dictionary.valid)?;
    write_time_kind(alloc, &mut text, "revision", dictionary.revision)?;
    write_views(alloc, &mut text, dictionary.views.as_slice())?;
    write_names(alloc, &mut text, &dictionary.names)?;
    text.into_inner().map_err(|_| AllocError)
}

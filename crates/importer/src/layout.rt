//! Where the columns of a schema stand in the records of a CSV file.

use crate::excerpt::Excerpt;
use crate::fault::ImportFault;
use crate::schema::SchemaColumn;
use csv::ByteRecord;
use std::alloc::{AllocError, Global};

// Whether the field at this place is the title.
fn is_title(titles: &ByteRecord, at: usize, title: &str) -> bool {
    match titles.get(at) {
        Some(field) => field == title.as_bytes(),
        None => false,
    }
}

// The first place of the title from this one on.
fn place_from(titles: &ByteRecord, title: &str, from: usize) -> Option<usize> {
    (from..titles.len()).find(|at| is_title(titles, *at, title))
}

// The one place of the title.
fn place(alloc: Global, titles: &ByteRecord, title: &str, line: u64) -> Result<usize, ImportFault> {
    let Some(at) = place_from(titles, title, 0) else {
        let title = Excerpt::new(alloc, title)?;
        return Err(ImportFault::NoColumn { line, title });
    };
    if place_from(titles, title, at.saturating_add(1)).is_some() {
        let title = Excerpt::new(alloc, title)?;
        return Err(ImportFault::TwoColumns { line, title });
    }
    Ok(at)
}

/// The place of each column in the records, in the order of the schema. Each title stands exactly
/// once.
///
/// Cost: the columns times the titles.
pub(crate) fn places(
    alloc: Global,
    columns: &[SchemaColumn],
    titles: &ByteRecord,
    line: u64,
) -> Result<Vec<usize>, ImportFault> {
    let mut places = Vec::new(alloc);
    for column in columns {
        let at = place(alloc, titles, column.title.as_str(), line)?;
        places.push(at).map_err(AllocError::from)?;
    }
    Ok(places)
}

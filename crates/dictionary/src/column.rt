//! The columns of views: their titles and kinds.
use crate::kind::Kind;
use std::alloc::{AllocError, Global};

/// A column: its title and what its numbers stand for.
#[derive(Drop)]
pub struct Column {
    /// The title.
    pub title: String,
    /// What the numbers stand for.
    pub kind: Kind,
}

/// The columns of a view, as far as they are known, in order.
#[derive(Drop)]
pub struct View {
    /// The view's name.
    pub name: String,
    /// Its first columns.
    pub columns: Vec<Column>,
}

impl Column {
    /// A column with this title.
    pub fn new(alloc: Global, title: &str, kind: Kind) -> Result<Column, AllocError> {
        Ok(Column {
            title: String::from_str(alloc, title)?,
            kind,
        })
    }

    // A copy.
    fn copy(&self, alloc: Global) -> Result<Column, AllocError> {
        Column::new(alloc, self.title.as_str(), self.kind)
    }
}

impl View {
    /// A view of which no column is known.
    pub fn new(alloc: Global, name: &str) -> Result<View, AllocError> {
        Ok(View {
            name: String::from_str(alloc, name)?,
            columns: Vec::new(alloc),
        })
    }

    /// A copy.
    pub fn copy(&self, alloc: Global) -> Result<View, AllocError> {
        let mut view = View::new(alloc, self.name.as_str())?;
        for column in &self.columns {
            view.columns.push(column.copy(alloc)?)?;
        }
        Ok(view)
    }
}

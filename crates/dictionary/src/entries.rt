//! The dictionary of an import: the kinds of its times, the columns of its views, and its names.
use crate::column::{Column, View};
use crate::kind::Kind;
use crate::names::Names;
use std::alloc::{AllocError, Global};

/// What the numbers of a run stand for.
#[derive(Drop)]
pub struct Dictionary {
    /// The kind of valid times.
    pub valid: Kind,
    /// The kind of system times.
    pub revision: Kind,
    /// The views of which columns are known, in the order in which they came.
    pub views: Vec<View>,
    /// The names of codes.
    pub names: Names,
}

/// The index of the view with this name.
pub(crate) fn view_index(views: &[View], name: &str) -> Option<usize> {
    views.iter().position(|view| view.name.as_str() == name)
}

/// Adds a column to the view of this name, which is new if there is none.
///
/// Cost: linear in the views.
pub fn add_column(
    alloc: Global,
    views: &mut Vec<View>,
    name: &str,
    column: Column,
) -> Result<(), AllocError> {
    let at = match view_index(views, name) {
        Some(at) => at,
        None => {
            views.push(View::new(alloc, name)?)?;
            views.len() - 1
        }
    };
    if let Some(view) = views.get_mut(at) {
        view.columns.push(column)?;
    }
    Ok(())
}

impl Dictionary {
    /// A dictionary of whole numbers without names. Takes no memory.
    pub fn new(alloc: Global) -> Dictionary {
        Dictionary {
            valid: Kind::Whole,
            revision: Kind::Whole,
            views: Vec::new(alloc),
            names: Names::new(alloc),
        }
    }

    /// The columns of the view that are known; none if the view is not.
    pub fn columns(&self, view: &str) -> &[Column] {
        match self.views.iter().find(|known| known.name.as_str() == view) {
            Some(known) => known.columns.as_slice(),
            None => &[],
        }
    }
}

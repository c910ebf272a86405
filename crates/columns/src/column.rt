//! One column of a table: a list of numbers, one for each row.
//!
//! A column may be longer than the table is. What stands behind the last row belongs to a row whose
//! push was refused halfway, or to rows that were dropped. Nobody reads it, and the next
//! [`Column::put`] drops it. So a push needs no second pass that makes room in all columns first.
ghost use Rattle.std.specs.Prelude.{◌≡◌, ◌<◌, ◌≤◌, ◌++◌, ◌∷◌, [], pos, take, length, slice_index_or, IfOk, OnOk, OnErr};
ghost use Rattle.update.specs.Refusals.{OnlyMemory};

use std::alloc::Global;
use std::marker::Model;
use update::Refusal;

/// The items of one column, from row to row. A contract sees the list.
#[derive(Drop)]
pub(crate) struct Column {
    items: Vec<i64>,
}

impl Model for Column {
    ghost use Rattle.std.specs.Prelude.{List, ℤ};

    ghost Value = { List ℤ };

    ghost view = { λ c. c.items.items };
}

impl Column {
    /// A column of this many zeros, with room for so many items. Refused only with `OutOfMemory`.
    pub(crate) fn zeros(alloc: Global, height: usize, room: usize) -> Result<Column, Refusal>
        ensures long { IfOk result (λ column. length column ≡ height) }
        ensures refused { OnlyMemory result }
    {
        let mut items = Vec::with_capacity(alloc, room)?;
        items.resize(height, 0)?;
        Ok(Column { items })
    }

    /// A copy, with no more memory than it needs. Refused only with `OutOfMemory`.
    pub(crate) fn copy(&self, alloc: Global) -> Result<Column, Refusal>
        ensures copied { IfOk result (λ copy. copy ≡ self.now) }
        ensures refused { OnlyMemory result }
    {
        let items = Vec::from_slice(alloc, self.items.as_slice())?;
        Ok(Column { items })
    }

    /// Puts an item at a place, and drops what stood from there on. Refused only with
    /// `OutOfMemory`.
    pub(crate) fn put(&mut self, place: usize, item: i64) -> Result<(), Refusal>
        requires { place ≤ length self.old }
        ensures put { OnOk result (self.new ≡ take place self.old ++ item ∷ []) }
        ensures kept { OnErr result (self.new ≡ take place self.old) }
        ensures refused { OnlyMemory result }
    {
        self.items.truncate(place);
        self.items.push(item)?;
        Ok(())
    }

    /// The item at a place. Takes no memory.
    pub(crate) fn get(&self, place: usize) -> i64
        requires { place < length self.now }
        ensures { result ≡ slice_index_or self.now place (pos 0) }
    {
        self.items[place]
    }

    /// Gives memory back if no more than a quarter of it is used.
    pub(crate) fn shrink(&mut self)
        ensures { self.new ≡ self.old }
    {
        if self.items.len() <= self.items.capacity() / 4 {
            self.items.shrink_to_fit();
        }
    }
}

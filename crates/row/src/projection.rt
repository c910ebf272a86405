//! Projections. A projection makes a row from another row: each of its columns is a column of that
//! row or a constant. Columns may be left out, repeated and reordered.
//!
//! The caller must know that each item names a column that the row has. `PlanBuilder::add` of the
//! crate `plan` tests this once with [`are_within`] when a map is added to a plan, and then no row
//! is tested again.
ghost use Rattle.std.specs.Prelude.{◌≡◌, ◌≤◌, length, IsTrue};
ghost use Rattle.row.specs.Projection.{item_value, is_within, are_within, projection};

use crate::{MAX_WIDTH, Row};

/// Where a column comes from.
#[derive(Clone, Copy, PartialEq, Eq)]
pub enum Item {
    /// The column of this number, counted from 0.
    Column(usize),
    /// The same value for each row.
    Constant(i64),
}

impl Item {
    /// Whether rows of this width have the item's column; a constant needs none. Takes no memory.
    pub fn is_within(&self, width: usize) -> bool
        ensures { result ≡ is_within self.now width }
    {
        match self {
            Item::Column(number) => *number < width,
            Item::Constant(_) => true,
        }
    }

    /// The value of the item in a row. Takes no memory.
    pub fn value(self, row: &Row) -> i64
        requires { IsTrue (is_within self (length row.now)) }
        ensures { result ≡ item_value self row.now }
    {
        match self {
            Item::Column(number) => row.columns()[number],
            Item::Constant(value) => value,
        }
    }
}

/// Whether rows of this width have the columns that all the items name. Takes no memory.
pub fn are_within(items: &[Item], width: usize) -> bool
    ensures { result ≡ are_within items.now width }
{
    items.iter().all(|item| item.is_within(width))
}

/// The row of the values of these items, in order. Takes no memory.
///
/// Cost: linear in the number of items.
pub fn project(row: &Row, items: &[Item]) -> Row
    requires some { 1 ≤ length items.now }
    requires few { length items.now ≤ 8 }
    requires within { IsTrue (are_within items.now (length row.now)) }
    ensures { result ≡ projection items.now row.now }
{
    let mut values = [0; MAX_WIDTH];
    for (i, item) in items.iter().enumerate() {
        values[i] = item.value(row);
    }
    Row::of(row.allocator(), &values[..items.len()])
}

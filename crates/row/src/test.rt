//! Tests of rows. A test compares two items, each a column or a constant. A filter keeps the rows
//! that pass its test.
ghost use Rattle.std.specs.Prelude.{◌≡◌, length, IsTrue};
ghost use Rattle.row.specs.Projection.{is_within};
ghost use Rattle.row.specs.Filters.{compares, is_test_within, passes};

use crate::{Item, Row};

/// How two numbers are compared.
#[derive(Clone, Copy, PartialEq, Eq)]
pub enum Cmp {
    /// They are equal.
    Eq,
    /// They are not equal.
    Ne,
    /// The first is less.
    Lt,
    /// The first is less, or they are equal.
    Le,
    /// The first is greater.
    Gt,
    /// The first is greater, or they are equal.
    Ge,
}

impl Cmp {
    /// Whether the comparison holds of the two numbers. Takes no memory.
    pub fn compare(self, x: i64, y: i64) -> bool
        ensures { result ≡ compares self x y }
    {
        match self {
            Cmp::Eq => x == y,
            Cmp::Ne => x != y,
            Cmp::Lt => x < y,
            Cmp::Le => x <= y,
            Cmp::Gt => x > y,
            Cmp::Ge => x >= y,
        }
    }
}

/// A comparison of two items of a row.
#[derive(Clone, Copy, PartialEq, Eq)]
pub struct Test {
    /// The first of the two items.
    pub left: Item,
    /// How they are compared.
    pub op: Cmp,
    /// The second of the two items.
    pub right: Item,
}

impl Test {
    /// Whether rows of this width have the columns that both items name. Takes no memory.
    pub fn is_within(&self, width: usize) -> bool
        ensures { result ≡ is_test_within self.now width }
    {
        self.left.is_within(width) && self.right.is_within(width)
    }
}

/// Whether the row passes the test. Takes no memory.
pub fn holds(row: &Row, test: &Test) -> bool
    requires left { IsTrue (is_within test.now.left (length row.now)) }
    requires right { IsTrue (is_within test.now.right (length row.now)) }
    ensures { result ≡ passes test.now row.now }
{
    test.op.compare(test.left.value(row), test.right.value(row))
}

//! A row and its columns. The width is an invariant of the type: it is tested when a row is made,
//! and known wherever one is read.
ghost use Rattle.std.specs.Prelude.{◌≡◌, ◌≤◌, ◌++◌, ◌+◌, ◌↔◌, IsOk, IfOk, length, take, drop, ⊤};

use crate::WidthRefused;
use smallvec::SmallVec;
use std::alloc::{AllocError, Global};
use std::marker::Model;

/// The largest number of columns that a row can have.
pub const MAX_WIDTH: usize = 8;

/// A list of 1 to 8 columns. A contract sees the list.
#[derive(Drop)]
pub struct Row {
    columns: SmallVec<i64, 8>,
}

impl Model for Row {
    ghost use Rattle.std.specs.Prelude.{List, ℤ, ◌≤◌, length};

    ghost Value = { List ℤ };

    ghost view = { λ r. r.columns.items };

    ghost invariant = { λ r. (1 ≤ length r.columns.items) × (length r.columns.items ≤ 8) };
}

impl Row {
    /// A row of these columns. [`WidthRefused`] if and only if there are not 1 to 8 of them. Takes
    /// no memory.
    pub fn new(alloc: Global, columns: &[i64]) -> Result<Row, WidthRefused>
        ensures ok { IfOk result (λ row. row ≡ columns.now) }
        ensures width { IsOk result ↔ ((1 ≤ length columns.now) × (length columns.now ≤ 8)) }
    {
        if columns.is_empty() || columns.len() > MAX_WIDTH {
            return Err(WidthRefused);
        }
        Ok(Row::of(alloc, columns))
    }

    /// A row of 1 to 8 columns. Takes no memory.
    pub fn of(alloc: Global, columns: &[i64]) -> Row
        requires some { 1 ≤ length columns.now }
        requires few { length columns.now ≤ 8 }
        ensures { result ≡ columns.now }
    {
        Row {
            columns: SmallVec::from_slice(alloc, columns).unwrap(),
        }
    }

    /// The columns, in order. Takes no memory.
    pub fn columns(&self) -> &[i64]
        ensures columns { result.now ≡ self.now }
        ensures some { 1 ≤ length self.now }
        ensures few { length self.now ≤ 8 }
    {
        self.columns.as_slice()
    }

    /// The allocator of the row. No call of this crate asks it for memory. Takes no memory.
    pub(crate) fn allocator(&self) -> Global {
        *self.columns.allocator()
    }

    /// The number of columns, 1 to 8. Takes no memory.
    pub fn width(&self) -> usize
        ensures width { result ≡ length self.now }
        ensures some { 1 ≤ result }
        ensures few { result ≤ 8 }
    {
        self.columns.len()
    }

    /// Tells the prover that there are 1 to 8 columns. Costs nothing.
    pub fn known(&self)
        ensures some { 1 ≤ length self.now }
        ensures few { length self.now ≤ 8 }
    {
        let _ = &self.columns;
    }

    /// The first `k` columns. Takes no memory.
    pub fn key(&self, k: usize) -> &[i64]
        requires { k ≤ length self.now }
        ensures { result.now ≡ take k self.now }
    {
        &self.columns()[..k]
    }

    /// The columns from number `k` on: the row without its key. Takes no memory.
    pub fn rest(&self, k: usize) -> &[i64]
        requires { k ≤ length self.now }
        ensures { result.now ≡ drop k self.now }
    {
        &self.columns()[k..]
    }

    /// A copy. Takes no memory.
    pub fn copy(&self) -> Row
        ensures { result ≡ self.now }
    {
        Row::of(self.allocator(), self.columns())
    }

    /// The row with more columns appended to its own. Takes no memory.
    pub fn followed_by(&self, more: &[i64]) -> Row
        requires { length self.now + length more.now ≤ 8 }
        ensures { result ≡ self.now ++ more.now }
    {
        let mut columns = SmallVec::from_slice(self.allocator(), self.columns()).unwrap();
        columns.extend_from_slice(more).unwrap();
        Row { columns }
    }
}

/// A copy is never refused.
impl Clone for Row {
    ghost use Rattle.std.specs.Prelude.{◌≡◌, ⊤};

    ghost is_clone = { λ a b. b ≡ a };

    ghost is_infallible = { λ _. ⊤ };

    fn clone(&self) -> Result<Row, AllocError> {
        Ok(self.copy())
    }
}

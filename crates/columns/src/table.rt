//! Rows, column by column. A comparison with a short key reads only the columns of the key, and
//! they lie side by side for all rows. A column that no row has does not exist.
//!
//! Rows of several widths may stand in one table. Each column has an item for each row, and 0 where
//! the row is too short; the width of the row says which items are its own.
ghost use Rattle.std.specs.Prelude.{◌≡◌, ◌<◌, ◌≤◌, ◌++◌, ◌∷◌, [], ℕ, pos, take, length, slice_index_or, IfOk, OnOk, OnErr};
ghost use Rattle.std.specs.Cmp.Lexicographic.{slice_cmp};
ghost use Rattle.std.specs.List.{All};
ghost use Rattle.std.specs.Ordering.{int_cmp};
ghost use Rattle.update.specs.Refusals.{OnlyMemory};
ghost use Rattle.update.specs.Bags.{same_row};
ghost use Rattle.columns.specs.Tables.{row_at, last_row};

use crate::column::Column;
use row::{MAX_WIDTH, Row};
use std::alloc::Global;
use std::cmp::Ordering;
use std::marker::Model;
use update::Refusal;

/// Rows, column by column. A contract sees the list of the rows.
#[derive(Drop)]
pub(crate) struct Table {
    columns: Vec<Column>,
    widths: Vec<u8>,
}

impl Model for Table {
    ghost use Rattle.std.specs.Prelude.{List, ℤ};
    ghost use Rattle.columns.specs.Tables.{rows_from, IsTable};

    ghost Value = { List (List ℤ) };

    ghost view = { λ t. rows_from 0 t.columns.items t.widths.items };

    ghost invariant = { λ t. IsTable t.columns.items t.widths.items };
}

// Appends columns of zeros until there are as many as the width. Each has room for so many rows.
fn widen(columns: &mut Vec<Column>, width: usize, height: usize, room: usize) -> Result<(), Refusal>
    requires { All (λ column. height ≤ length column) columns.old.items }
    ensures long { All (λ column. height ≤ length column) columns.new.items }
    ensures same { take (length columns.old.items) columns.new.items ≡ columns.old.items }
    ensures more { length columns.old.items ≤ length columns.new.items }
    ensures wide { OnOk result (width ≤ length columns.new.items) }
    ensures refused { OnlyMemory result }
{
    let alloc = *columns.allocator();
    while columns.len() < width {
        columns.push(Column::zeros(alloc, height, room)?)?;
    }
    Ok(())
}

// The item of a row in a column, and 0 if the row is too short.
fn item_or_zero(row: &[i64], number: usize) -> i64
    ensures { result ≡ slice_index_or row.now number (pos 0) }
{
    if number < row.len() { row[number] } else { 0 }
}

// Puts a row at the end of the columns.
fn put_row(columns: &mut Vec<Column>, height: usize, row: &[i64]) -> Result<(), Refusal>
    requires long { All (λ column. height ≤ length column) columns.old.items }
    ensures kept { (place width : ℕ) → place < height
        → row_at columns.new.items place width ≡ row_at columns.old.items place width }
    ensures same { length columns.new.items ≡ length columns.old.items }
    ensures long { All (λ column. height ≤ length column) columns.new.items }
    ensures longer { OnOk result (All (λ column. height < length column) columns.new.items) }
    ensures put { OnOk result (length row.now ≤ length columns.old.items
        → row_at columns.new.items height (length row.now) ≡ row.now) }
    ensures refused { OnlyMemory result }
{
    for i in 0..columns.len() {
        columns[i].put(height, item_or_zero(row, i))?;
    }
    Ok(())
}

// Copies of columns. Refused only with `OutOfMemory`.
fn copies_of(alloc: Global, columns: &[Column]) -> Result<Vec<Column>, Refusal>
    ensures copied { IfOk result (λ copies. copies.items ≡ columns.now) }
    ensures refused { OnlyMemory result }
{
    let mut copies = Vec::with_capacity(alloc, columns.len())?;
    for column in columns {
        copies.push(column.copy(alloc)?)?;
    }
    Ok(copies)
}

// Gives memory back where no more than a quarter of it is used.
fn shrink_columns(columns: &mut Vec<Column>)
    ensures { columns.new.items ≡ columns.old.items }
{
    for i in 0..columns.len() {
        columns[i].shrink();
    }
}

impl Table {
    /// No rows. Takes no memory.
    pub(crate) fn new(alloc: Global) -> Table
        ensures { result ≡ [] }
    {
        Table {
            columns: Vec::new(alloc),
            widths: Vec::new(alloc),
        }
    }

    /// No rows, with room for so many: a column gets it when the first row that has it comes.
    /// Refused only with `OutOfMemory`.
    pub(crate) fn with_capacity(alloc: Global, rows: usize) -> Result<Table, Refusal>
        ensures none { IfOk result (λ table. table ≡ []) }
        ensures refused { OnlyMemory result }
    {
        let widths = Vec::with_capacity(alloc, rows)?;
        Ok(Table {
            columns: Vec::new(alloc),
            widths,
        })
    }

    /// A copy of all rows, with no more memory than they need. Refused only with `OutOfMemory`.
    pub(crate) fn copy(&self, alloc: Global) -> Result<Table, Refusal>
        ensures copied { IfOk result (λ copy. copy ≡ self.now) }
        ensures refused { OnlyMemory result }
    {
        let columns = copies_of(alloc, self.columns.as_slice())?;
        let widths = Vec::from_slice(alloc, self.widths.as_slice())?;
        Ok(Table { columns, widths })
    }

    /// The number of rows. Takes no memory.
    pub(crate) fn len(&self) -> usize
        ensures { result ≡ length self.now }
    {
        self.widths.len()
    }

    /// Appends a row. Refused only with `OutOfMemory`, and then the rows are as before.
    pub(crate) fn push(&mut self, row: &Row) -> Result<(), Refusal>
        ensures more { OnOk result (self.new ≡ self.old ++ row.now ∷ []) }
        ensures same { OnErr result (self.new ≡ self.old) }
        ensures refused { OnlyMemory result }
    {
        let height = self.widths.len();
        let columns = row.columns();
        // (a new column becomes as long as the list of widths, so it gets as much room)
        let room = self.widths.capacity();
        widen(&mut self.columns, columns.len(), height, room)?;
        put_row(&mut self.columns, height, columns)?;
        self.widths.push(columns.len() as u8)?;
        Ok(())
    }

    /// Drops the rows from a number on. Takes no memory.
    pub(crate) fn truncate(&mut self, rows: usize)
        ensures { self.new ≡ take rows self.old }
    {
        self.widths.truncate(rows);
    }

    /// The row of a number. Takes no memory.
    pub(crate) fn row(&self, number: usize) -> Row
        requires { number < length self.now }
        ensures { result ≡ slice_index_or self.now number [] }
    {
        let width = self.widths[number] as usize;
        let mut values = [0; MAX_WIDTH];
        for i in 0..width {
            values[i] = self.columns[i].get(number);
        }
        Row::of(*self.widths.allocator(), &values[..width])
    }

    /// Appends the columns of the row of a number to a list, and returns how many they are. Refused
    /// only with `OutOfMemory`; some of them may stand there then.
    pub(crate) fn append_row(&self, number: usize, list: &mut Vec<i64>) -> Result<usize, Refusal>
        requires { number < length self.now }
        ensures more { OnOk result
            (list.new.items ≡ list.old.items ++ slice_index_or self.now number []) }
        ensures kept { take (length list.old.items) list.new.items ≡ list.old.items }
        ensures width { IfOk result (λ width. width ≡ length (slice_index_or self.now number [])) }
        ensures some { IfOk result (λ width. 1 ≤ width) }
        ensures few { IfOk result (λ width. width ≤ 8) }
        ensures refused { OnlyMemory result }
    {
        let width = self.widths[number] as usize;
        for i in 0..width {
            list.push(self.columns[i].get(number))?;
        }
        Ok(width)
    }

    /// Whether the row of a number is this one. Takes no memory.
    pub(crate) fn is_row(&self, number: usize, row: &[i64]) -> bool
        requires { number < length self.now }
        ensures { result ≡ same_row (slice_index_or self.now number []) row.now }
    {
        self.widths[number] as usize == row.len() && self.compare_key(number, row).is_eq()
    }

    /// Whether the last row is this one. Takes no memory.
    pub(crate) fn ends_with(&self, row: &[i64]) -> bool
        requires { 1 ≤ length row.now }
        ensures { result ≡ same_row (last_row self.now) row.now }
    {
        let height = self.len();
        height > 0 && self.is_row(height - 1, row)
    }

    /// Gives memory back where no more than a quarter of it is used.
    pub(crate) fn shrink(&mut self)
        ensures { self.new ≡ self.old }
    {
        shrink_columns(&mut self.columns);
        if self.widths.len() <= self.widths.capacity() / 4 {
            self.widths.shrink_to_fit();
        }
    }

    /// Compares the beginning of a row, as many columns as the key has, with the key. A shorter row
    /// is compared whole. Takes no memory.
    pub(crate) fn compare_key(&self, number: usize, key: &[i64]) -> Ordering
        requires { number < length self.now }
        ensures { result
            ≡ slice_cmp int_cmp (take (length key.now) (slice_index_or self.now number []))
            key.now }
    {
        let width = (self.widths[number] as usize).min(key.len());
        for i in 0..width {
            let order = self.columns[i].get(number).cmp(&key[i]);
            if order.is_ne() {
                return order;
            }
        }
        width.cmp(&key.len())
    }

    /// Compares a row with a row of another table, whole. Takes no memory.
    pub(crate) fn compare(&self, number: usize, other: &Table, place: usize) -> Ordering
        requires number { number < length self.now }
        requires place { place < length other.now }
        ensures { result ≡ slice_cmp int_cmp
            (slice_index_or self.now number []) (slice_index_or other.now place []) }
    {
        let width = (self.widths[number] as usize).min(other.widths[place] as usize);
        for i in 0..width {
            let order = self.columns[i]
                .get(number)
                .cmp(&other.columns[i].get(place));
            if order.is_ne() {
                return order;
            }
        }
        self.widths[number].cmp(&other.widths[place])
    }
}

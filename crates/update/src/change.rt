//! One update of a table: a row, the time from which on it counts, and how often. Every change in
//! the engine is a list of these. The fields are in the order in which lists are sorted, so the
//! derived order is that of consolidation.
ghost use Rattle.std.specs.Prelude.{◌≡◌};

use lattice::Lattice;
use row::Row;

/// A row whose weight changes by `diff` from `time` on. Updates sort by time, then by row, then by
/// difference.
#[derive(Drop, PartialEq, Eq, PartialOrd, Ord)]
pub struct Update<T> {
    /// The time from which on the change is in effect.
    pub time: T,
    /// The row whose count changes.
    pub row: Row,
    /// By how much: negative if rows are removed.
    pub diff: i64,
}

impl<T: Lattice> Update<T> {
    /// A copy. Takes no memory.
    pub fn copy(&self) -> Update<T>
        ensures { result ≡ self.now }
    {
        Update {
            time: self.time,
            row: self.row.copy(),
            diff: self.diff,
        }
    }
}

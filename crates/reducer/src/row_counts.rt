//! What a reducer reads: rows in order, each once, with their counts. A bag is read so, and so is a
//! tally, whose counts change in place and may be 0. So one reducer serves both, and none copies
//! the rows.
ghost use Rattle.std.specs.Prelude.{◌≡◌, ◌<◌, length, slice_get, IsSomeAnd};
ghost use Rattle.reducer.specs.Tallies.{AreInOrder};

use crate::Tally;
use row::Row;
use update::Bag;

/// Rows in order, each once, with a count each that may be 0. The ghost member `entries` is the
/// list of them.
pub trait RowCounts {
    ghost use Rattle.std.specs.Prelude.{List};
    ghost use Rattle.update.specs.Bags.{Entry};

    ghost entries: { Self → List Entry };

    /// The number of rows. Takes no memory.
    fn len(&self) -> usize
        ensures { result ≡ length (entries self.now) };

    /// The row of entry `i`, counted from 0. Takes no memory.
    fn row(&self, i: usize) -> &Row
        requires { i < length (entries self.now) }
        ensures { IsSomeAnd (slice_get (entries self.now) i) (λ e. result.now ≡ e.row) };

    /// The count of entry `i`, counted from 0. Takes no memory.
    fn count(&self, i: usize) -> i64
        requires { i < length (entries self.now) }
        ensures { IsSomeAnd (slice_get (entries self.now) i) (λ e. result ≡ e.count) };

    /// Tells the prover that the rows are in order, each once. Costs nothing.
    fn known(&self)
        ensures order { AreInOrder (entries self.now) };
}

impl RowCounts for Bag {
    ghost entries = { λ bag. bag };

    fn len(&self) -> usize {
        Bag::len(self)
    }

    fn row(&self, i: usize) -> &Row {
        Bag::row(self, i)
    }

    fn count(&self, i: usize) -> i64 {
        Bag::count(self, i)
    }

    fn known(&self) {
        Bag::known(self);
    }
}

impl RowCounts for Tally {
    ghost entries = { λ tally. tally };

    fn len(&self) -> usize {
        Tally::len(self)
    }

    fn row(&self, i: usize) -> &Row {
        Tally::row(self, i)
    }

    fn count(&self, i: usize) -> i64 {
        Tally::count(self, i)
    }

    fn known(&self) {
        Tally::known(self);
    }
}

//! The rows of one key, where they are in a bag. They are neighbours there, so two indices are
//! enough, and a reducer reads them without a copy.
ghost use Rattle.std.specs.Prelude.{◌≡◌, ◌≤◌, length, slice_range};

use reducer::RowCounts;
use row::Row;
use std::marker::Model;
use update::Bag;

/// The entries of a bag from one index up to, but not including, another. A contract sees the list
/// of them.
#[derive(Drop)]
pub(crate) struct KeyRows<'a> {
    bag: &'a Bag,
    from: usize,
    to: usize,
}

impl<'a> Model for KeyRows<'a> {
    ghost use Rattle.std.specs.Prelude.{◌≤◌, ◌<◌, ◌^◌, List, length, slice_range};
    ghost use Rattle.update.specs.Bags.{Entry};

    ghost Value = { List Entry };

    ghost view = { λ rows. slice_range rows.bag.now rows.from rows.to };

    ghost invariant = { λ rows. (rows.from ≤ rows.to) × (rows.to ≤ length rows.bag.now)
        × (rows.to < 2 ^ 64) };
}

impl<'a> KeyRows<'a> {
    /// The entries from index `from` up to index `to`. Takes no memory.
    pub(crate) fn of(bag: &'a Bag, from: usize, to: usize) -> KeyRows<'a>
        requires order { from ≤ to }
        requires inside { to ≤ length bag.now }
        ensures { result ≡ slice_range bag.now from to }
    {
        KeyRows { bag, from, to }
    }
}

impl<'a> RowCounts for KeyRows<'a> {
    ghost entries = { λ rows. rows };

    fn len(&self) -> usize {
        self.to - self.from
    }

    fn row(&self, i: usize) -> &Row {
        self.bag.row(self.from + i)
    }

    fn count(&self, i: usize) -> i64 {
        self.bag.count(self.from + i)
    }

    fn known(&self) {
        self.bag.known();
    }
}

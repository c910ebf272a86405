//! One row and its weights in two bags.
ghost use Rattle.std.specs.Prelude.{◌≡◌};
ghost use Rattle.comparison.specs.Differences.{is_removal, is_addition};

use row::Row;

/// A row that at least one of two bags has, and its weights in both: 0 in a bag without it.
#[derive(Drop)]
pub(crate) struct Change {
    pub row: Row,
    pub before: i64,
    pub after: i64,
}

impl Change {
    /// Whether a weight is gone, so that there is a line with a minus.
    pub fn is_removal(&self) -> bool
        ensures { result ≡ is_removal self.now }
    {
        self.before != self.after && self.before != 0
    }

    /// Whether a weight is new, so that there is a line with a plus.
    pub fn is_addition(&self) -> bool
        ensures { result ≡ is_addition self.now }
    {
        self.before != self.after && self.after != 0
    }
}

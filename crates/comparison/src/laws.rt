//! Why a difference is one text: the rows of two bags are one list.
ghost use Rattle.std.specs.Prelude.{◌≡◌, List, ℤ};
ghost use Rattle.update.specs.Bags.{Entry};
ghost use Rattle.comparison.specs.Differences.{AreRowsOfEither};

/// There is only one list of the rows that have a weight in one of two bags. The function does
/// nothing: its clause is cited.
pub fn rows_are_determined()
    ensures { (before after : List Entry) (rows others : List (List ℤ))
        → AreRowsOfEither before after rows → AreRowsOfEither before after others
        → rows ≡ others }
{}

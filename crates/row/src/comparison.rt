//! Comparisons and hashes of rows: those of the lists of their columns. They are written by hand,
//! because derived ones would compare the fields, while contracts see the list.
ghost use Rattle.std.specs.Prelude.{refl};
ghost use Rattle.std.proofs.Common.{rules};
ghost use Rattle.std.specs.Hash as fed;
ghost use Rattle.std.specs.Cmp.{partial_order_from_own_ties};
ghost use Rattle.std.specs.Cmp.Rules.{comparing, hashing};
ghost use Rattle.std.specs.Cmp.Lexicographic.{pointwise, slice_cmp, lists_ties};
ghost use Rattle.std.specs.Ordering.{int_cmp, int_eq, as_partial_cmp};

use crate::Row;
use std::cmp::Ordering;
use std::hash::{Hash, Hasher};

/// Two rows are equal if and only if their columns are.
impl PartialEq for Row {
    ghost use Rattle.std.specs.Prelude.{◌≡◌, ◌↔◌, IsTrue};

    ghost eq = { pointwise int_eq };

    ghost laws = { Prim.search (comparing, rules) };

    fn eq(&self, other: &Row) -> bool
        ensures value { result ≡ pointwise int_eq self.now other.now }
        ensures same { IsTrue result ↔ (self.now ≡ other.now) }
    {
        self.columns() == other.columns()
    }
}

impl Eq for Row {
    ghost laws = { Prim.search (comparing, rules) };
}

/// Column by column. If a row is the beginning of a longer one, it comes first.
impl Ord for Row {
    ghost cmp = { slice_cmp int_cmp };

    ghost total = { Prim.search (comparing, rules) };

    ghost matches_partial_cmp = { Prim.search (comparing, rules) };

    ghost matches_eq = { λ a b. lists_ties int_cmp (λ x y. refl) a b };

    fn cmp(&self, other: &Row) -> Ordering {
        self.columns().cmp(&other.columns())
    }
}

impl PartialOrd for Row {
    ghost partial_cmp = { as_partial_cmp (slice_cmp int_cmp) };

    ghost laws = { partial_order_from_own_ties (Prim.search (comparing, rules))
        (λ a b. lists_ties int_cmp (λ x y. refl) a b) };

    fn partial_cmp(&self, other: &Row) -> Option<Ordering> {
        Some(self.cmp(other))
    }
}

impl Hash for Row {
    ghost hash_input = { fed.slice fed.i64 };

    ghost respects_eq = { Prim.search (hashing, rules) };

    fn hash<H: Hasher>(&self, state: &mut H) {
        self.columns().hash(state);
    }
}

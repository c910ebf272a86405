//! The operators except the reductions. Each writes its entries, which are then added up to a bag.
ghost use Rattle.std.specs.Prelude.{◌≤◌, ◌+◌, ◌-◌, ◌++◌, ◌⊎◌, map, length, nat_le, IfOk, IfErr, IsTrue};
ghost use Rattle.std.specs.List.{filter, list_all};
ghost use Rattle.row.specs.Projection.{are_within};
ghost use Rattle.row.specs.Filters.{passes, is_test_within};
ghost use Rattle.update.specs.Bags.{Alike, IsBag, HasLargeCount};
ghost use Rattle.plan.specs.Operators.{mapped_entry, negated_entry, join_output};
ghost use Rattle.update.specs.Refusals.{IsMemoryOrOverflow};
ghost use Rattle.oracle.specs.Keys.{have_keys};
ghost use Rattle.oracle.specs.Evaluation.{HasLargeProductOf};

use crate::join::put_joined;
use crate::linear::{put_all, put_images, put_opposites, put_passing};
use row::{Item, Test};
use std::alloc::Global;
use update::{Bag, Entries, Refusal};

/// Map: the projection of each row to `items`.
pub(crate) fn mapped(alloc: Global, bag: &Bag, items: &[Item]) -> Result<Bag, Refusal>
    requires some { 1 ≤ length items.now }
    requires few { length items.now ≤ 8 }
    requires within { IsTrue (list_all (λ e. are_within items.now (length e.row)) bag.now) }
    ensures mapped { IfOk result (λ out. Alike out (map (mapped_entry items.now) bag.now)) }
    ensures bag { IfOk result IsBag }
    ensures refused { IfErr result
        (IsMemoryOrOverflow (HasLargeCount (map (mapped_entry items.now) bag.now))) }
{
    let mut entries = Entries::new(alloc);
    put_images(&mut entries, bag, items)?;
    entries.into_bag()
}

/// Filter: the rows that pass the test.
pub(crate) fn passing(alloc: Global, bag: &Bag, test: &Test) -> Result<Bag, Refusal>
    requires { IsTrue (list_all (λ e. is_test_within test.now (length e.row)) bag.now) }
    ensures passing { IfOk result (λ out. Alike out (filter (λ e. passes test.now e.row) bag.now)) }
    ensures bag { IfOk result IsBag }
    ensures refused { IfErr result
        (IsMemoryOrOverflow (HasLargeCount (filter (λ e. passes test.now e.row) bag.now))) }
{
    let mut entries = Entries::new(alloc);
    put_passing(&mut entries, bag, test)?;
    entries.into_bag()
}

/// Concat: the rows of both bags.
pub(crate) fn together(alloc: Global, left: &Bag, right: &Bag) -> Result<Bag, Refusal>
    ensures together { IfOk result (λ out. Alike out (left.now ++ right.now)) }
    ensures bag { IfOk result IsBag }
    ensures refused { IfErr result (IsMemoryOrOverflow (HasLargeCount (left.now ++ right.now))) }
{
    let mut entries = Entries::new(alloc);
    put_all(&mut entries, left)?;
    put_all(&mut entries, right)?;
    entries.into_bag()
}

/// Negate: each row with the opposite count.
pub(crate) fn opposite(alloc: Global, bag: &Bag) -> Result<Bag, Refusal>
    ensures opposite { IfOk result (λ out. Alike out (map negated_entry bag.now)) }
    ensures bag { IfOk result IsBag }
    ensures refused { IfErr result
        (IsMemoryOrOverflow (HasLargeCount (map negated_entry bag.now))) }
{
    bag.known();
    let mut entries = Entries::new(alloc);
    put_opposites(&mut entries, bag)?;
    entries.into_bag()
}

/// Join: the pairs of rows with equal keys.
pub(crate) fn joined(alloc: Global, left: &Bag, right: &Bag, k: usize) -> Result<Bag, Refusal>
    requires left { IsTrue (have_keys k left.now) }
    requires right { IsTrue (have_keys k right.now) }
    requires room { IsTrue
        (list_all (λ x. list_all
        (λ y. nat_le (length x.row + (length y.row - k)) 8) right.now) left.now) }
    ensures joined { IfOk result (λ out. Alike out (join_output k left.now right.now)) }
    ensures bag { IfOk result IsBag }
    ensures refused { IfErr result
        (IsMemoryOrOverflow (HasLargeCount (join_output k left.now right.now)
        ⊎ HasLargeProductOf k left.now right.now)) }
{
    left.known();
    right.known();
    let mut entries = Entries::new(alloc);
    put_joined(&mut entries, left, right, k)?;
    entries.into_bag()
}

//! The items of a map. They have a type of their own, so that a contract sees a list, and maps can
//! be compared.
ghost use Rattle.std.specs.Prelude.{◌≡◌, ◌↔◌, IsTrue, length};

use row::Item;
use std::alloc::AllocError;
use std::marker::Model;

/// What a map makes of each row: one item for each column, in order. A contract sees the list of
/// items.
#[derive(Drop)]
pub struct Items {
    items: Vec<Item>,
}

impl Model for Items {
    ghost use Rattle.std.specs.Prelude.{List};
    ghost use Rattle.row.specs.declared.projection.Item.{Item};

    ghost Value = { List Item };

    ghost view = { λ i. i.items.items };
}

impl Items {
    /// The items, in the order of the columns that they make. Takes no memory.
    pub fn as_slice(&self) -> &[Item]
        ensures { result.now ≡ self.now }
    {
        self.items.as_slice()
    }

    /// The number of items, which is the width of the rows that they make. Takes no memory.
    pub fn len(&self) -> usize
        ensures { result ≡ length self.now }
    {
        self.items.len()
    }

    /// The items as a vector. Takes no memory.
    pub fn into_vec(self) -> Vec<Item>
        ensures { result.items ≡ self }
    {
        let Items { items } = self;
        items
    }
}

/// Takes no memory.
impl From<Vec<Item>> for Items {
    ghost use Rattle.std.specs.Prelude.{◌≡◌};

    ghost from_gives = { λ v r. r ≡ v.items };

    fn from(items: Vec<Item>) -> Items {
        Items { items }
    }
}

/// A copy. Refused only if memory is refused; copying no items is never refused.
impl Clone for Items {
    ghost use Rattle.std.specs.Prelude.{◌≡◌, []};

    ghost is_clone = { λ a b. b ≡ a };

    ghost is_infallible = { λ a. a ≡ [] };

    fn clone(&self) -> Result<Items, AllocError> {
        let mut items = Vec::with_capacity(*self.items.allocator(), self.items.len())?;
        for item in &self.items {
            items.push(*item)?;
        }
        Ok(Items { items })
    }
}

/// Equal if and only if the lists of items are.
impl PartialEq for Items {
    ghost use Rattle.std.specs.Cmp.{partial_equiv_from_equiv};
    ghost use Rattle.plan.specs.Equality.{same_items, items_equivalence};

    ghost eq = { same_items };

    ghost laws = { partial_equiv_from_equiv items_equivalence };

    fn eq(&self, other: &Items) -> bool
        ensures value { result ≡ same_items self.now other.now }
        ensures same { IsTrue result ↔ (self.now ≡ other.now) }
    {
        self.items.as_slice() == other.items.as_slice()
    }
}

impl Eq for Items {
    ghost use Rattle.plan.specs.Equality.{items_equivalence};

    ghost laws = { items_equivalence };
}

//! Rows with counts that are not yet a bag: a row may be added more than once, and in any order.
//! Code that writes a bag row by row writes here, so that it need not make an update of each row
//! and copy it.
ghost use Rattle.std.specs.Prelude.{◌≡◌, ◌⊎◌, ◌++◌, [], ◌∷◌, IfOk, IfErr, OnOk};
ghost use Rattle.update.specs.Bags.{Alike, IsBag, HasLargeCount, entry_of};
ghost use Rattle.update.specs.Refusals.{OnlyMemory, IsMemoryOrOverflow};

use crate::unit_time::UnitTime;
use crate::{Bag, Refusal, Update, consolidate};
use row::Row;
use std::alloc::Global;
use std::marker::Model;

/// Rows with counts, in the order in which they were added. A contract sees the list of them.
#[derive(Drop)]
pub struct Entries {
    entries: Vec<Update<UnitTime>>,
}

impl Model for Entries {
    ghost use Rattle.std.specs.Prelude.{List, map};
    ghost use Rattle.update.specs.Bags.{Entry};
    ghost use Rattle.update.specs.Updates.{entry};

    ghost Value = { List Entry };

    ghost view = { λ e. map entry e.entries.items };
}

impl Entries {
    /// No entries. Takes no memory.
    pub fn new(alloc: Global) -> Entries
        ensures { result ≡ [] }
    {
        Entries {
            entries: Vec::new(alloc),
        }
    }

    /// Adds an entry at the end. Refused only with `OutOfMemory`; the entry is then dropped.
    pub fn push(&mut self, row: Row, count: i64) -> Result<(), Refusal>
        ensures added { OnOk result (self.new ≡ self.old ++ entry_of row count ∷ []) }
        ensures refused { OnlyMemory result }
    {
        self.entries.push(Update {
            time: UnitTime,
            row,
            diff: count,
        })?;
        Ok(())
    }

    /// The bag that the entries add up to. [`Refusal::Overflow`] only if the count of some row is
    /// no 64-bit number. On a refusal the entries are dropped. Takes no memory.
    ///
    /// Cost: one sort.
    pub fn into_bag(self) -> Result<Bag, Refusal>
        ensures sum { IfOk result (λ bag. Alike bag self) }
        ensures bag { IfOk result IsBag }
        ensures refused { IfErr result (IsMemoryOrOverflow (HasLargeCount self)) }
    {
        let Entries { entries } = self;
        let entries = consolidate(entries)?;
        Ok(Bag::from_consolidated(entries))
    }
}

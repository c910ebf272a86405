//! One step of a list of differences: the rows of the view at a time, minus the updates already
//! listed at or before it.
ghost use Rattle.std.specs.Prelude.{◌≡◌, ◌++◌, ◌+ℤ◌, ℤ, List, cond, map, pos, IfOk, IfErr, OnOk};
ghost use Rattle.update.specs.Bags.{IsBag, count_of, same_row};
ghost use Rattle.update.specs.Updates.{as_of};
ghost use Rattle.update.specs.Refusals.{OnlyMemory, IsMemoryOrOverflow};
ghost use Rattle.oracle.specs.Listing.{at_time, HasLargeGap};

use crate::entries::{count_at, row_at};
use crate::linear::put_all;
use lattice::Lattice;
use std::alloc::Global;
use update::{Bag, Entries, Refusal, Update};

// The opposite of the count, minus 1. Unlike the opposite itself, it fits in 64 bits for every
// count.
fn before_opposite(count: i64) -> i64
    ensures { (result +ℤ pos 1) +ℤ count ≡ pos 0 }
{
    -1 - count
}

// Subtracts the update. It takes two entries, because the opposite of the least 64-bit number does
// not fit in 64 bits.
fn put_off<T: Lattice>(entries: &mut Entries, update: &Update<T>) -> Result<(), Refusal>
    ensures counts { OnOk result ((r : List ℤ)
        → count_of entries.new r +ℤ
        (cond (same_row update.now.row r) update.now.diff (pos 0))
        ≡ count_of entries.old r) }
    ensures refused { OnlyMemory result }
{
    let diff = update.diff;
    entries.push(update.row.copy(), before_opposite(diff))?;
    entries.push(update.row.copy(), 1)?;
    Ok(())
}

// Subtracts the updates listed at or before `t`.
fn put_listed<T: Lattice>(entries: &mut Entries, listed: &[Update<T>], t: T) -> Result<(), Refusal>
    ensures counts { OnOk result ((r : List ℤ)
        → count_of entries.new r +ℤ count_of (as_of T.times t listed.now) r
        ≡ count_of entries.old r) }
    ensures refused { OnlyMemory result }
{
    for update in listed {
        if update.time.less_equal(&t) {
            put_off(entries, update)?;
        }
    }
    Ok(())
}

/// The bag minus the updates listed at or before `t`. [`Refusal::Overflow`] only if that difference
/// does not fit in 64 bits for some row.
///
/// Cost: linear in the list, plus a sort of the bag and of the updates listed at or before `t`.
pub(crate) fn gap<T: Lattice>(
    alloc: Global,
    bag: &Bag,
    listed: &[Update<T>],
    t: T,
) -> Result<Bag, Refusal>
    ensures gap { IfOk result (λ gap. (r : List ℤ)
        → count_of gap r +ℤ count_of (as_of T.times t listed.now) r ≡ count_of bag.now r) }
    ensures bag { IfOk result IsBag }
    ensures refused { IfErr result (IsMemoryOrOverflow (HasLargeGap T.times t bag.now listed.now)) }
{
    let mut entries = Entries::new(alloc);
    put_all(&mut entries, bag)?;
    put_listed(&mut entries, listed, t)?;
    entries.into_bag()
}

/// Appends the entries of the bag as updates at `t`. Refused only for lack of memory.
pub(crate) fn push_at<T: Lattice>(
    listed: &mut Vec<Update<T>>,
    bag: &Bag,
    t: T,
) -> Result<(), Refusal>
    ensures pushed { OnOk result (listed.new.items ≡ listed.old.items ++ map (at_time t) bag.now) }
    ensures refused { OnlyMemory result }
{
    for i in 0..bag.len() {
        listed.push(Update {
            time: t,
            row: row_at(bag, i).copy(),
            diff: count_at(bag, i),
        })?;
    }
    Ok(())
}

//! What a list of updates sums to at a time: each row with the total of its differences at or
//! before the time. These updates are moved to the one time of [`UnitTime`] and consolidated, which
//! adds them up and sorts them by row. So updates are added up in one place, and a sum is refused
//! when a consolidation is.
ghost use Rattle.std.specs.Prelude.{◌≡◌, ◌≤◌, ◌⊎◌, map, filter, IfOk, IfErr, OnOk};
ghost use Rattle.update.specs.Bags.{Alike, IsBag, HasLargeCount, bag_size};
ghost use Rattle.update.specs.UnitTimes.{at_unit_time};
ghost use Rattle.update.specs.Updates.{as_of, size};
ghost use Rattle.update.specs.Refusals.{OnlyMemory, IsMemoryOrOverflow};

use crate::unit_time::UnitTime;
use crate::{Bag, Refusal, Update, consolidate};
use lattice::Lattice;
use std::alloc::Global;

// The updates at or before `t`, all moved to the one time.
fn at_or_before<T: Lattice>(
    alloc: Global,
    updates: &[Update<T>],
    t: T,
) -> Result<Vec<Update<UnitTime>>, Refusal>
    ensures gone { IfOk result
        (λ gone. gone.items ≡ map at_unit_time (filter (λ u. T.times.below u.time t) updates.now)) }
    ensures only { OnlyMemory result }
{
    let mut gone = Vec::new(alloc);
    for update in updates {
        if update.time.less_equal(&t) {
            gone.push(Update {
                time: UnitTime,
                row: update.row.copy(),
                diff: update.diff,
            })?;
        }
    }
    Ok(gone)
}

/// What the updates sum to at `t`: each row with the total of its differences at or before `t`.
/// [`Refusal::Overflow`] only if the count of some row is no 64-bit number, and no bag is given in
/// that case; the order of the updates does not matter. [`Refusal::OutOfMemory`] only if memory for
/// the updates at or before `t` was refused.
///
/// Cost: linear in the number of updates, and one sort of those at or before `t`, which are copied.
pub fn sum_at<T: Lattice>(alloc: Global, updates: &[Update<T>], t: T) -> Result<Bag, Refusal>
    ensures sum { IfOk result (λ bag. Alike bag (as_of T.times t updates.now)) }
    ensures bag { IfOk result IsBag }
    ensures size { IfOk result (λ bag. bag_size bag ≤ size updates.now) }
    ensures fits { OnOk result (HasLargeCount (as_of T.times t updates.now) → ⊥) }
    ensures refused { IfErr result
        (IsMemoryOrOverflow (HasLargeCount (as_of T.times t updates.now))) }
{
    let gone = at_or_before(alloc, updates, t)?;
    let entries = consolidate(gone)?;
    Ok(Bag::from_consolidated(entries))
}

//! The updates of a builder whose times a frontier has passed. A worker seals these as its frontier
//! moves on, and keeps the others for a later batch. They are copied before they are dropped, so
//! that a refused seal loses nothing.
ghost use Rattle.std.specs.Prelude.{◌≡◌, IfOk};
ghost use Rattle.update.specs.Refusals.{OnlyMemory};
ghost use Rattle.batch.specs.Intervals.{all_between, is_interval_of, passed_updates, open_updates};
ghost use Rattle.update.specs.declared.refusal.Refusal.{Refusal};

use antichain::{Antichain, is_beyond};
use lattice::Lattice;
use std::alloc::Global;
use update::{Refusal, Update};

// Whether the upper frontier is beyond the lower one, and each passed update's time is between
// them.
pub(crate) fn is_interval_of_passed<T: Lattice>(
    updates: &[Update<T>],
    lower: &Antichain<T>,
    upper: &Antichain<T>,
) -> bool
    ensures { result ≡ is_interval_of T.times lower.now upper.now
        (passed_updates T.times upper.now updates.now) }
{
    upper.is_beyond(lower) && are_passed_between(updates, lower.elements(), upper.elements())
}

// Whether each update's time is beyond the lower frontier, of those that the upper one has passed.
fn are_passed_between<T: Lattice>(updates: &[Update<T>], lower: &[T], upper: &[T]) -> bool
    ensures { result ≡ all_between T.times lower.now upper.now
        (passed_updates T.times upper.now updates.now) }
{
    for update in updates {
        if !is_beyond(upper, &update.time) && !is_beyond(lower, &update.time) {
            return false;
        }
    }
    true
}

// Copies of the updates that the frontier has passed. Refused only if memory for them is refused.
pub(crate) fn passed_copies<T: Lattice>(
    alloc: Global,
    updates: &[Update<T>],
    upper: &[T],
) -> Result<Vec<Update<T>>, Refusal>
    ensures copied { IfOk result
        (λ out. out.items ≡ passed_updates T.times upper.now updates.now) }
    ensures only { OnlyMemory result }
{
    let mut out = Vec::new(alloc);
    for update in updates {
        if !is_beyond(upper, &update.time) {
            out.push(update.copy())?;
        }
    }
    Ok(out)
}

// Drops the updates that the frontier has passed. Takes no memory.
pub(crate) fn drop_passed<T: Lattice>(updates: &mut Vec<Update<T>>, upper: &[T])
    ensures { updates.new.items ≡ open_updates T.times upper.now updates.old.items }
{
    updates.retain(|update| is_beyond(upper, &update.time));
}

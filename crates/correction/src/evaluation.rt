//! What the reducer answered for a key at a time, and the updates from one time to another.
ghost use Rattle.std.specs.Prelude.{◌≡◌, ◌&&◌, not, IfOk};
ghost use Rattle.std.specs.List.{filter};
ghost use Rattle.update.specs.Refusals.{OnlyMemory};
ghost use Rattle.update.specs.declared.refusal.Refusal.{Refusal};

use lattice::Lattice;
use std::alloc::Global;
use update::{Bag, Refusal, Update};

/// A time, and what the reducer answered there.
#[derive(Drop)]
pub struct Evaluation<T> {
    /// The time.
    pub time: T,
    /// The answer.
    pub answer: Bag,
}

/// Copies of the updates at or before one time but not at or before another.
///
/// Cost: one or two comparisons for each update.
pub(crate) fn between<T: Lattice>(
    alloc: Global,
    updates: &[Update<T>],
    after: T,
    upto: T,
) -> Result<Vec<Update<T>>, Refusal>
    ensures between { IfOk result (λ list. list.items
        ≡ filter (λ u. T.times.below u.time upto && not (T.times.below u.time after)) updates.now) }
    ensures only { OnlyMemory result }
{
    let mut list = Vec::new(alloc);
    for update in updates {
        if update.time.less_equal(&upto) && !update.time.less_equal(&after) {
            list.push(update.copy())?;
        }
    }
    Ok(list)
}

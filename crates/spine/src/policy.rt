//! Which merge is begun next. Nothing here changes a batch.
//!
//! First come neighbours of which the older one has at most twice as many updates as the newer one,
//! the newest first. Where there are none, each batch has more than twice as many updates as the
//! next one, so their number is at most the logarithm of what is stored. While a merge goes on,
//! only such neighbours behind it are merged first. They are few and small, so it is not kept
//! waiting for long.
//!
//! All else is done only with fuel for all that is stored: steep neighbours, and a single batch
//! that lags behind the since, which is rewritten. To push a small batch into a large one again and
//! again would spend what the large ones need.
ghost use Rattle.std.specs.Prelude.{◌≡◌, ◌≢◌, ◌↔◌, ◌⊎◌, ◌<◌, ◌≤◌, ◌+◌, ℕ, suc, Some, None, true, false, [], IfSome, IsSomeAnd, IsTrue, length, slice_get};
ghost use Rattle.std.specs.List.{AllByRecursion};
ghost use Rattle.batch.specs.Descriptions.{BatchState};
ghost use Rattle.trace.specs.Readings.{all_content};
ghost use Rattle.trace.specs.BatchLists.{updates_of};
ghost use Rattle.levels.specs.Levels.{width_of};
ghost use Rattle.spine.specs.Spines.{MayMerge, AreSteep, AreDone, is_barred};

use crate::holds::{are_same, is_forbidden};
use crate::spine::updates_in;
use batch::{Batch, BatchReader};
use lattice::Lattice;
use levels::Place;
use trace::KeptHold;

// Whether the older of two neighbours has at most about twice as many updates as the newer one.
fn is_even<T: Lattice>(older: &Batch<T>, newer: &Batch<T>) -> bool
    ensures { result ≡ false → AreSteep older.now newer.now }
{
    older.len() / 2 <= newer.len()
}

// Whether the fuel would do for a copy of all that is stored.
fn is_ample<T: Lattice>(batches: &[Batch<T>], fuel: u64) -> bool
    ensures { result ≡ false → fuel ≤ length (all_content updates_of batches.now) }
{
    updates_in(batches) < fuel
}

// The place of the batch with this number and the next one.
fn pair_at(number: usize) -> Place
    ensures number { result.number ≡ number }
    ensures alone { result.is_alone ≡ false }
{
    Place {
        number,
        is_alone: false,
    }
}

// Whether some reader may ask for the boundary behind the batch with this number.
fn is_shut<T: Lattice>(batches: &[Batch<T>], holds: &[KeptHold<T>], i: usize) -> bool
    requires { i < length batches.now }
    ensures { result ≡ is_barred T.times holds.now batches.now false i }
{
    is_forbidden(holds, batches[i].description().upper())
}

// Whether some reader may ask for a boundary inside a place.
pub(crate) fn is_barred<T: Lattice>(
    batches: &[Batch<T>],
    holds: &[KeptHold<T>],
    place: Place,
) -> bool
    requires { place.number + width_of place.is_alone ≤ length batches.now }
    ensures { result ≡ is_barred T.times holds.now batches.now place.is_alone place.number }
{
    !place.is_alone && is_shut(batches, holds, place.number)
}

// Whether the batch with this number and the next one may become one, and are not steep.
fn can_merge_evenly<T: Lattice>(batches: &[Batch<T>], holds: &[KeptHold<T>], i: usize) -> bool
    requires { suc i < length batches.now }
    ensures yes { result ≡ true → MayMerge T.times holds.now batches.now false i }
    ensures no { result ≡ false → (a b : BatchState T) → slice_get batches.now i ≡ Some a
        → slice_get batches.now (suc i) ≡ Some b
        → AreSteep a b ⊎ IsTrue (is_barred T.times holds.now batches.now false i) }
{
    is_even(&batches[i], &batches[i + 1]) && !is_shut(batches, holds, i)
}

// The newest of the neighbours, from a number on, that may become one and are not steep.
fn even_pair<T: Lattice>(batches: &[Batch<T>], holds: &[KeptHold<T>], from: usize) -> Option<usize>
    requires { from ≤ length batches.now }
    ensures some { IfSome result
        (λ i. (from ≤ i) × MayMerge T.times holds.now batches.now false i) }
    ensures none { result ≡ None → (i : ℕ) (a b : BatchState T) → from ≤ i
        → slice_get batches.now i ≡ Some a → slice_get batches.now (suc i) ≡ Some b
        → AreSteep a b ⊎ IsTrue (is_barred T.times holds.now batches.now false i) }
{
    for newer in 1..batches.len() - from {
        let i = batches.len() - 1 - newer;
        if can_merge_evenly(batches, holds, i) {
            return Some(i);
        }
    }
    None
}

// The one of two numbers of neighbours that have fewer updates.
fn cheaper<T: Lattice>(batches: &[Batch<T>], best: Option<usize>, i: usize) -> usize
    requires best { IfSome best (λ j. suc j < length batches.now) }
    requires within { suc i < length batches.now }
    ensures { (result ≡ i) ⊎ (best ≡ Some result) }
{
    match best {
        Some(j) if updates_at(batches, j) <= updates_at(batches, i) => j,
        _ => i,
    }
}

// How many updates the batch with this number and the next one have, or the greatest number.
fn updates_at<T: Lattice>(batches: &[Batch<T>], i: usize) -> usize
    requires { suc i < length batches.now }
{
    batches[i].len().saturating_add(batches[i + 1].len())
}

// The neighbours with the fewest updates of those that may become one.
fn cheapest_pair<T: Lattice>(batches: &[Batch<T>], holds: &[KeptHold<T>]) -> Option<usize>
    ensures some { IfSome result (λ i. MayMerge T.times holds.now batches.now false i) }
    ensures none { result ≡ None → (i : ℕ) → suc i < length batches.now
        → IsTrue (is_barred T.times holds.now batches.now false i) }
{
    let mut best = None;
    for next in 1..batches.len() {
        if !is_shut(batches, holds, next - 1) {
            best = Some(cheaper(batches, best, next - 1));
        }
    }
    best
}

// The number of the first batch that lags behind the since. If there are no readers, none does.
fn lagging_batch<T: Lattice>(batches: &[Batch<T>], since: &[T]) -> Option<usize>
    ensures some { IfSome result (λ i. (since.now ≢ []) × IsSomeAnd (slice_get batches.now i)
        (λ b. b.description.since ≢ since.now)) }
    ensures none { result ≡ None → since.now ≢ []
        → AllByRecursion (λ b. b.description.since ≡ since.now) batches.now }
{
    if since.is_empty() {
        return None;
    }
    for (i, batch) in batches.iter().enumerate() {
        if !are_same(batch.description().since(), since) {
            return Some(i);
        }
    }
    None
}

// The place of what is left to do when no neighbours are even: the cheapest neighbours that may
// become one, or else a batch that lags.
fn last_place<T: Lattice>(batches: &[Batch<T>], holds: &[KeptHold<T>], since: &[T]) -> Option<Place>
    ensures some { IfSome result
        (λ place. MayMerge T.times holds.now batches.now place.is_alone place.number) }
    ensures none { (result ≡ None) ↔ AreDone T.times holds.now since.now batches.now }
{
    match cheapest_pair(batches, holds) {
        Some(i) => Some(pair_at(i)),
        None => match lagging_batch(batches, since) {
            Some(number) => Some(Place {
                number,
                is_alone: true,
            }),
            None => None,
        },
    }
}

// Whether no neighbours may become one. The first that may end the search.
fn are_all_shut<T: Lattice>(batches: &[Batch<T>], holds: &[KeptHold<T>]) -> bool
    ensures { (result ≡ true) ↔ ((i : ℕ) → suc i < length batches.now
        → IsTrue (is_barred T.times holds.now batches.now false i)) }
{
    for next in 1..batches.len() {
        if !is_shut(batches, holds, next - 1) {
            return false;
        }
    }
    true
}

// Whether nothing is left to do.
pub(crate) fn is_done<T: Lattice>(batches: &[Batch<T>], holds: &[KeptHold<T>], since: &[T]) -> bool
    ensures { (result ≡ true) ↔ AreDone T.times holds.now since.now batches.now }
{
    are_all_shut(batches, holds) && lagging_batch(batches, since).is_none()
}

// The place of the merge that is to be begun next where none is under way.
pub(crate) fn first_place<T: Lattice>(
    batches: &[Batch<T>],
    holds: &[KeptHold<T>],
    since: &[T],
    fuel: u64,
) -> Option<Place>
    ensures some { IfSome result
        (λ place. MayMerge T.times holds.now batches.now place.is_alone place.number) }
    ensures steep { result ≡ None → (i : ℕ) (a b : BatchState T)
        → slice_get batches.now i ≡ Some a → slice_get batches.now (suc i) ≡ Some b
        → AreSteep a b ⊎ IsTrue (is_barred T.times holds.now batches.now false i) }
    ensures rest { result ≡ None → AreDone T.times holds.now since.now batches.now
        ⊎ (fuel ≤ length (all_content updates_of batches.now)) }
{
    match even_pair(batches, holds, 0) {
        Some(i) => Some(pair_at(i)),
        None if is_ample(batches, fuel) => last_place(batches, holds, since),
        None => None,
    }
}

// The place of the merge that is to be begun before those that are under way go on. They have their
// places before a number.
pub(crate) fn place_behind<T: Lattice>(
    batches: &[Batch<T>],
    holds: &[KeptHold<T>],
    from: usize,
) -> Option<Place>
    requires { from ≤ length batches.now }
    ensures { IfSome result (λ place. (from ≤ place.number)
        × MayMerge T.times holds.now batches.now place.is_alone place.number) }
{
    match even_pair(batches, holds, from) {
        Some(i) => Some(pair_at(i)),
        None => None,
    }
}

//! The least of some times, as a list, and the antichain of a frontier that is a list.
//!
//! What a worker holds at a node is the least of the times that wait there. The list has no time at
//! or after another one of it, and the same times are beyond it as are at or after one of those
//! that were put in.
ghost use Rattle.std.specs.Prelude.{◌≡◌, ◌||◌, IfOk, IfSome, None, OnOk};
ghost use Rattle.std.specs.List.{list_all};
ghost use Rattle.update.specs.Refusals.{OnlyMemory};
ghost use Rattle.lattice.specs.Frontiers.{is_beyond};
ghost use Rattle.antichain.specs.Antichains.{IsFrontier};
ghost use Rattle.antichain.specs.Insertion.{not_above};
ghost use Rattle.update.specs.declared.refusal.Refusal.{Refusal};
ghost use Rattle.batch.specs.Intervals.{open_updates};
ghost use Rattle.operator.specs.Arrangements.{times_of};

use antichain::{Antichain, is_beyond};
use lattice::Lattice;
use std::alloc::Global;
use update::{Refusal, Update};

// The antichain of a frontier.
pub fn antichain_of<T: Lattice>(alloc: Global, frontier: &[T]) -> Result<Antichain<T>, Refusal>
    requires { IsFrontier T.times T.cmp frontier.now }
    ensures is { IfOk result (λ made. made ≡ frontier.now) }
    ensures only { OnlyMemory result }
{
    let made = Antichain::least_of(alloc, frontier)?;
    made.known();
    Ok(made)
}

// Removes the times that `t` is at or before.
fn drop_later<T: Lattice>(front: &mut Vec<T>, t: T)
    ensures { front.new.items ≡ not_above T.times t front.old.items }
{
    front.retain(|e| !t.less_equal(e));
}

// Takes in one more time, unless another one is at or before it.
fn put_in<T: Lattice>(front: &mut Vec<T>, t: T) -> Result<(), Refusal>
    ensures beyond { OnOk result ((s : T) → is_beyond T.times front.new.items s
        ≡ (T.times.below t s || is_beyond T.times front.old.items s)) }
    ensures only { OnlyMemory result }
{
    if !is_beyond(front.as_slice(), &t) {
        drop_later(front, t);
        front.push(t)?;
    }
    Ok(())
}

// Takes in all of these times.
pub(crate) fn put_in_all<T: Lattice>(front: &mut Vec<T>, times: &[T]) -> Result<(), Refusal>
    ensures beyond { OnOk result ((t : T) → is_beyond T.times front.new.items t
        ≡ (is_beyond T.times front.old.items t || is_beyond T.times times.now t)) }
    ensures only { OnlyMemory result }
{
    for time in times {
        put_in(front, *time)?;
    }
    Ok(())
}

// Takes in the times of all of these updates: the same times are beyond `front` afterwards as were
// before, or are at or after one of these. If memory was refused, then some of the times may have
// been taken in.
fn put_in_updates<T: Lattice>(front: &mut Vec<T>, updates: &[Update<T>]) -> Result<(), Refusal>
    ensures beyond { OnOk result ((t : T) → is_beyond T.times front.new.items t
        ≡ (is_beyond T.times front.old.items t || is_beyond T.times (times_of updates.now) t)) }
    ensures only { OnlyMemory result }
{
    for update in updates {
        put_in(front, update.time)?;
    }
    Ok(())
}

// Whether the time of each update is at or after one of these times.
fn covers<T: Lattice>(times: &[T], updates: &[Update<T>]) -> bool
    ensures { result ≡ list_all (λ u. is_beyond T.times times.now u.time) updates.now }
{
    updates.iter().all(|update| is_beyond(times, &update.time))
}

/// The least of some times and of the times of some updates; `None` if the updates add none.
/// [`Refusal::OutOfMemory`] only if memory for the list was refused.
///
/// Cost: each time is compared with those of the list. With `None` it takes no memory.
pub fn front_with<T: Lattice>(
    alloc: Global,
    times: &[T],
    updates: &[Update<T>],
) -> Result<Option<Vec<T>>, Refusal>
    ensures more { IfOk result (λ more. IfSome more (λ front. (t : T)
        → is_beyond T.times front.items t
        ≡ (is_beyond T.times times.now t || is_beyond T.times (times_of updates.now) t))) }
    ensures none { IfOk result (λ more. more ≡ None → (t : T) → is_beyond T.times times.now t
        ≡ (is_beyond T.times times.now t || is_beyond T.times (times_of updates.now) t)) }
    ensures only { OnlyMemory result }
{
    if covers(times, updates) {
        return Ok(None);
    }
    let mut front = Vec::from_slice(alloc, times)?;
    put_in_updates(&mut front, updates)?;
    Ok(Some(front))
}

/// Puts a front in place of another one, if there is one. Takes no memory.
pub fn renew<T: Lattice>(front: &mut Vec<T>, more: Option<Vec<T>>)
    ensures more { IfSome more (λ newer. front.new.items ≡ newer.items) }
    ensures none { more ≡ None → front.new.items ≡ front.old.items }
{
    if let Some(newer) = more {
        *front = newer;
    }
}

// The least times of the updates that the frontier has not passed.
pub(crate) fn front_of_open<T: Lattice>(
    alloc: Global,
    updates: &[Update<T>],
    upper: &[T],
) -> Result<Vec<T>, Refusal>
    ensures beyond { IfOk result (λ front. (t : T) → is_beyond T.times front.items t
        ≡ is_beyond T.times (times_of (open_updates T.times upper.now updates.now)) t) }
    ensures only { OnlyMemory result }
{
    let mut front = Vec::new(alloc);
    for update in updates {
        if is_beyond(upper, &update.time) {
            put_in(&mut front, update.time)?;
        }
    }
    Ok(front)
}

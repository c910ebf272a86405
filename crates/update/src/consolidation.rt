//! Consolidation leaves one update for each row and time, and none with difference 0. Every layer
//! above calls it, so it is one sort and one pass within the list that it is given. The pass stands
//! alone too, for those who sort a list in an order of their own.
//!
//! After a sort by row and time the updates of one row and time are neighbours, a group. The pass
//! keeps this invariant: at the front are the finished groups, one update each. Behind them is the
//! first update of the current group, whose total is kept beside the list. From `next` on are the
//! updates still to come, unchanged. A finished update is written to a place that has already been
//! read, so no second list is needed.
//!
//! Totals are kept in 128 bits and converted to 64 bits only when a group ends. So whether a list
//! is refused depends on its totals alone, and not on the order in which they are added up.
ghost use Rattle.std.specs.Prelude.{◌≡◌, ◌≢◌, pos, ◌≤◌, ◌<◌, ◌+◌, ◌++◌, ◌⊎◌, length, take, drop, List, ◌∷◌, ◌*◌, ◌^◌, unsigned_abs, FitsSigned, IfOk, IfErr, IsErr, OnOk, IsTrue, Bool, ℤ, ◌↔◌, slice_index_or};
ghost use Rattle.std.specs.List.{AllByRecursion, list_all};
ghost use Rattle.std.specs.List.Sorted.{IsSortedBy, IsStrictlySortedBy};
ghost use Rattle.std.specs.Int.{w64};
ghost use Rattle.std.specs.Ordering.{is_lt};
ghost use Rattle.std.specs.declared.cmp.Ordering.{Ordering};
ghost use Rattle.update.specs.Groups.{is_same, group_sum, group_sums, groups_of, groups_from, AllFit, IsGrouped, OrdersGroups};
ghost use Rattle.update.specs.Bags.{Alike};
ghost use Rattle.update.specs.Updates.{as_of, total_where, AreApart, HasLargeTotal, IsConsolidated, size};
ghost use Rattle.update.specs.declared.change.Update.{Update};
ghost use Rattle.update.specs.Refusals.{IsMemoryOrOverflow};

use crate::{Refusal, Update};
use lattice::Lattice;
use std::cmp::Ordering;

// Whether the updates have the same row and time.
fn are_same<T: Lattice>(u: &Update<T>, v: &Update<T>) -> bool
    ensures { result ≡ is_same T.cmp u.now v.now }
{
    u.time.cmp(&v.time) == Ordering::Equal && u.row == v.row
}

// Ends the group whose first update is at `at`. That update gets the total, and the next group
// begins behind it. If the total is 0, the next group begins in its place.
fn sum_group<T: Lattice>(
    updates: &mut [Update<T>],
    at: usize,
    total: i128,
) -> Result<usize, Refusal>
    requires { at < length updates.old }
    ensures next { IfOk result (λ next. next ≤ at + 1) }
    ensures settled { IfOk result (λ next. (d : Update T)
        → take next updates.new
        ≡ take at updates.old ++ group_sum (slice_index_or updates.old at d) total) }
    ensures rest { drop (at + 1) updates.new ≡ drop (at + 1) updates.old }
    ensures fits { OnOk result (FitsSigned w64 total) }
    ensures large { IsErr result → FitsSigned w64 total → ⊥ }
    ensures only { IfErr result (λ refused. refused ≡ Refusal.Overflow) }
{
    if total == 0 {
        return Ok(at);
    }
    let Ok(diff) = i64::try_from(total) else {
        return Err(Refusal::Overflow);
    };
    let first = &mut updates[at];
    first.diff = diff;
    Ok(at + 1)
}

// Ends the current group and begins the next one with the update at `from`, which is moved up.
// Returns the new place.
fn next_group<T: Lattice>(
    updates: &mut [Update<T>],
    at: usize,
    from: usize,
    total: i128,
) -> Result<usize, Refusal>
    requires before { at < from }
    requires within { from < length updates.old }
    ensures next { IfOk result (λ next. next ≤ from) }
    ensures settled { IfOk result (λ next. (d : Update T)
        → take next updates.new
        ≡ take at updates.old ++ group_sum (slice_index_or updates.old at d) total) }
    ensures first { IfOk result (λ next. (d : Update T)
        → slice_index_or updates.new next d ≡ slice_index_or updates.old from d) }
    ensures rest { OnOk result (drop (from + 1) updates.new ≡ drop (from + 1) updates.old) }
    ensures fits { OnOk result (FitsSigned w64 total) }
    ensures large { IsErr result → FitsSigned w64 total → ⊥ }
    ensures only { IfErr result (λ refused. refused ≡ Refusal.Overflow) }
{
    let next = sum_group(updates, at, total)?;
    updates.swap(next, from);
    Ok(next)
}

// The current group: the index of its first update, and the total of its diffs so far.
#[derive(Clone, Copy)]
struct InHand {
    at: usize,
    total: i128,
}

// Adds the next update to the current group, or ends that group and begins the next one with the
// update.
fn take_in<T: Lattice>(
    updates: &mut [Update<T>],
    run: InHand,
    next: usize,
) -> Result<InHand, Refusal>
    requires before { run.at < next }
    requires within { next < length updates.old }
    requires small { unsigned_abs run.total ≤ next * 2 ^ 63 }
    ensures before { IfOk result (λ new. new.at ≤ next) }
    ensures small { IfOk result (λ new. unsigned_abs new.total ≤ (next + 1) * 2 ^ 63) }
    ensures gathered { IfOk result (λ new. (d : Update T) (more : List (Update T))
        → take new.at updates.new ++ group_sums
        (groups_of T.cmp (slice_index_or updates.new new.at d) new.total more)
        ≡ take run.at updates.old ++ group_sums
        (groups_of T.cmp (slice_index_or updates.old run.at d) run.total
        (slice_index_or updates.old next d ∷ more))) }
    ensures fits { IfOk result (λ new. (d : Update T) (more : List (Update T))
        → AllFit (groups_of T.cmp (slice_index_or updates.old run.at d) run.total
        (slice_index_or updates.old next d ∷ more))
        → AllFit (groups_of T.cmp (slice_index_or updates.new new.at d) new.total more)) }
    ensures so_far { IfOk result (λ new. (d : Update T) (more : List (Update T))
        → AllFit (groups_of T.cmp (slice_index_or updates.new new.at d) new.total more)
        → AllFit (groups_of T.cmp (slice_index_or updates.old run.at d) run.total
        (slice_index_or updates.old next d ∷ more))) }
    ensures rest { OnOk result (drop (next + 1) updates.new ≡ drop (next + 1) updates.old) }
    ensures large { IsErr result → (d : Update T) (more : List (Update T))
        → AllFit (groups_of T.cmp (slice_index_or updates.old run.at d) run.total
        (slice_index_or updates.old next d ∷ more))
        → ⊥ }
    ensures only { IfErr result (λ refused. refused ≡ Refusal.Overflow) }
{
    let diff = i128::from(updates[next].diff);
    if are_same(&updates[run.at], &updates[next]) {
        return Ok(InHand {
            at: run.at,
            total: run.total + diff,
        });
    }
    let at = next_group(updates, run.at, next, run.total)?;
    Ok(InHand { at, total: diff })
}

// Moves the groups of a sorted list to its front, one update for each total that is not 0, and
// returns their number.
fn gather<T: Lattice>(updates: &mut [Update<T>]) -> Result<usize, Refusal>
    requires { 0 < length updates.old }
    ensures gathered { IfOk result
        (λ kept. take kept updates.new ≡ group_sums (groups_from T.cmp updates.old)) }
    ensures fits { OnOk result (AllFit (groups_from T.cmp updates.old)) }
    ensures large { IsErr result → AllFit (groups_from T.cmp updates.old) → ⊥ }
    ensures only { IfErr result (λ refused. refused ≡ Refusal.Overflow) }
{
    let mut run = InHand {
        at: 0,
        total: i128::from(updates[0].diff),
    };
    for next in 1..updates.len() {
        run = take_in(updates, run, next)?;
    }
    sum_group(updates, run.at, run.total)
}

// Leaves one update for each group of a sorted list whose total is not 0.
fn keep_totals<T: Lattice>(updates: &mut Vec<Update<T>>) -> Result<(), Refusal>
    ensures kept { OnOk result
        (updates.new.items ≡ group_sums (groups_from T.cmp updates.old.items)) }
    ensures fits { OnOk result (AllFit (groups_from T.cmp updates.old.items)) }
    ensures large { IsErr result → AllFit (groups_from T.cmp updates.old.items) → ⊥ }
    ensures only { IfErr result (λ refused. refused ≡ Refusal.Overflow) }
{
    if updates.is_empty() {
        return Ok(());
    }
    let kept = gather(updates)?;
    updates.truncate(kept);
    Ok(())
}

/// Adds up the updates of each row and time in a list in which these are neighbours: one update is
/// left for each row and time, and none with difference 0. Totals and sums stay the same. A list
/// that is sorted by row and time is such a list, whichever of the two comes first and whether or
/// not differences are looked at; the updates that are left are in the same order.
/// [`Refusal::Overflow`] if and only if the total of some row at some time is no 64-bit number;
/// they are added up in 128 bits. Takes no memory. On a refusal the list is dropped.
///
/// Cost: each update is read once and moved at most once.
pub fn consolidate_grouped<T: Lattice>(
    mut updates: Vec<Update<T>>,
) -> Result<Vec<Update<T>>, Refusal>
    requires { IsGrouped T.cmp updates.items }
    ensures apart { IfOk result (λ out. AreApart T.times out.items) }
    ensures nonzero { IfOk result (λ out. AllByRecursion (λ u. u.diff ≢ pos 0) out.items) }
    ensures ascending { IfOk result (λ out. (order : Update T → Update T → Ordering)
        → OrdersGroups T.cmp order → IsSortedBy (λ u v. is_lt (order u v)) updates.items
        → IsStrictlySortedBy order out.items) }
    ensures totals { IfOk result (λ out. (p : List ℤ → T → Bool)
        → total_where p out.items ≡ total_where p updates.items) }
    ensures sums { IfOk result (λ out. (t : T)
        → Alike (as_of T.times t out.items) (as_of T.times t updates.items)) }
    ensures among { IfOk result (λ out. (p : List ℤ → T → Bool)
        → IsTrue (list_all (λ u. p u.row u.time) updates.items)
        → IsTrue (list_all (λ u. p u.row u.time) out.items)) }
    ensures size { IfOk result (λ out. size out.items ≤ size updates.items) }
    ensures overflow { IsErr result ↔ HasLargeTotal T.times updates.items }
    ensures only { IfErr result (λ refused. refused ≡ Refusal.Overflow) }
{
    keep_totals(&mut updates)?;
    Ok(updates)
}

/// Consolidates a list: one update for each row and time, in order of time, then row, and none with
/// difference 0. Totals and sums stay the same. [`Refusal::Overflow`] if and only if the total of
/// some row at some time is no 64-bit number; the order of the updates does not matter, because
/// they are added up in 128 bits. Takes no memory. On a refusal the list is dropped.
///
/// Cost: n log n comparisons in the number of updates, for one sort in place, and then as
/// [`consolidate_grouped`].
pub fn consolidate<T: Lattice>(mut updates: Vec<Update<T>>) -> Result<Vec<Update<T>>, Refusal>
    ensures consolidated { IfOk result (λ out. IsConsolidated T.cmp out.items) }
    ensures totals { IfOk result (λ out. (p : List ℤ → T → Bool)
        → total_where p out.items ≡ total_where p updates.items) }
    ensures sums { IfOk result (λ out. (t : T)
        → Alike (as_of T.times t out.items) (as_of T.times t updates.items)) }
    ensures among { IfOk result (λ out. (p : List ℤ → T → Bool)
        → IsTrue (list_all (λ u. p u.row u.time) updates.items)
        → IsTrue (list_all (λ u. p u.row u.time) out.items)) }
    ensures size { IfOk result (λ out. size out.items ≤ size updates.items) }
    ensures overflow { IsErr result ↔ HasLargeTotal T.times updates.items }
    ensures only { IfErr result (λ refused. refused ≡ Refusal.Overflow) }
{
    updates.sort_unstable();
    consolidate_grouped(updates)
}

/// Consolidates a list that begins with a long sorted part, such as a bag with a few updates behind
/// it. The sort finds that part and does not sort it again. [`Refusal::OutOfMemory`] only if memory
/// for a second list of the same length was refused.
///
/// Cost: linear in the number of updates, plus n log n comparisons in the number of those behind
/// the sorted part.
pub(crate) fn consolidate_behind<T: Lattice>(
    mut updates: Vec<Update<T>>,
) -> Result<Vec<Update<T>>, Refusal>
    ensures consolidated { IfOk result (λ out. IsConsolidated T.cmp out.items) }
    ensures sums { IfOk result (λ out. (t : T)
        → Alike (as_of T.times t out.items) (as_of T.times t updates.items)) }
    ensures fits { OnOk result (HasLargeTotal T.times updates.items → ⊥) }
    ensures refused { IfErr result (IsMemoryOrOverflow (HasLargeTotal T.times updates.items)) }
{
    updates.sort()?;
    consolidate_grouped(updates)
}

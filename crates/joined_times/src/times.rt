//! The joined times of a key, in two ascending lists: all of them, and the pending ones. New times
//! add the joins that they take part in, among themselves and with the kept times. All of these are
//! fresh: they are pending from then on.
//!
//! The fresh joins are found half by half. Those of a list of new times are those of its first
//! half, and those of its second half with the kept times and with what the first half added. On
//! the way to smaller halves, near times stand for the kept ones: only their joins with the new
//! times of the half have to be right. So each near time is moved to its join with the meet of the
//! half, which changes none of these joins. If it is then at or after the join of the half, too,
//! then each of these joins is the moved time itself: it is fresh, and it is left behind. So what
//! goes on to smaller halves lies between the two bounds. The new times are sorted, so the bounds
//! are close together, and many near times fall together or are left behind.
//!
//! The invariant: a half appends exactly the joins of its new times, among themselves and with its
//! near times.
//!
//! Each call makes new lists, so a call that is refused has changed nothing.
ghost use Rattle.std.specs.Prelude.{◌≡◌, ◌↔◌, ◌⊎◌, ◌≤◌, ◌<◌, ◌+◌, ◌++◌, List, [], ◌∷◌, drop, length, map, IsTrue, IfOk, OnOk};
ghost use Rattle.std.specs.List.Sorted.{IsStrictlySortedBy};
ghost use Rattle.update.specs.Refusals.{OnlyMemory};
ghost use Rattle.update.specs.declared.refusal.Refusal.{Refusal};
ghost use Rattle.joined_times.specs.Joined.{Member};
ghost use Rattle.joined_times.specs.Additions.{SameMembers, joins_with, IsLast, Appends, AreBetween, IsFreshBy, IsMerging};

use lattice::Lattice;
use std::alloc::Global;
use std::cmp::Ordering;
use update::Refusal;

/// The joined times of a key, and the pending ones among them. Both lists ascend.
#[derive(Drop)]
pub struct JoinedTimes<T> {
    /// All of them.
    pub times: Vec<T>,
    /// The pending ones.
    pub due: Vec<T>,
}

// The number of times of each list that a merge has read.
#[derive(Clone, Copy)]
struct MergeCursors {
    left: usize,
    right: usize,
}

// Two bounds of some times: each of them is at or after `meet` and at or before `join`.
#[derive(Clone, Copy)]
struct Bounds<T> {
    meet: T,
    join: T,
}

// Near times that were moved: those at or after the upper bound of the new times are `beyond`, and
// the others `within`.
#[derive(Drop)]
struct Parted<T> {
    within: Vec<T>,
    beyond: Vec<T>,
}

// Sorts the times and drops duplicates.
fn keep_once<T: Lattice>(times: &mut Vec<T>)
    ensures members { SameMembers times.old.items times.new.items }
    ensures ascending { IsStrictlySortedBy T.cmp times.new.items }
{
    times.sort_unstable();
    times.dedup();
}

// Appends the time, unless it is the last one already.
fn push_unless_last<T: Lattice>(times: &mut Vec<T>, t: T) -> Result<(), Refusal>
    ensures appended { OnOk result ((times.new.items ≡ times.old.items ++ t ∷ [])
        ⊎ ((times.new.items ≡ times.old.items) × IsLast t times.old.items)) }
    ensures only { OnlyMemory result }
{
    if let Some(last) = times.last()
        && *last == t
    {
        return Ok(());
    }
    times.push(t)?;
    Ok(())
}

// Appends the time and its join with each near time.
fn push_joins<T: Lattice>(fresh: &mut Vec<T>, t: T, near: &[T]) -> Result<(), Refusal>
    ensures appended { OnOk result (Appends fresh.old.items fresh.new.items
        (λ s. Member s (joins_with T.times t near.now))) }
    ensures only { OnlyMemory result }
{
    fresh.push(t)?;
    for s in near {
        push_unless_last(fresh, s.join(t))?;
    }
    Ok(())
}

// The meet and the join of a list of times.
fn bounds_of<T: Lattice>(first: T, rest: &[T]) -> Bounds<T>
    ensures { AreBetween T.times result.meet result.join (first ∷ rest.now) }
{
    let mut bounds = Bounds {
        meet: first,
        join: first,
    };
    for t in rest {
        bounds = Bounds {
            meet: bounds.meet.meet(*t),
            join: bounds.join.join(*t),
        };
    }
    bounds
}

// Appends a time to `beyond` if it is at or after the upper bound, and otherwise to `within`.
fn push_to_part<T: Lattice>(
    within: &mut Vec<T>,
    beyond: &mut Vec<T>,
    t: T,
    join: T,
) -> Result<(), Refusal>
    ensures members { OnOk result ((s : T)
        → (Member s within.new.items ⊎ Member s beyond.new.items)
        ↔ ((Member s within.old.items ⊎ Member s beyond.old.items) ⊎ (s ≡ t))) }
    ensures beyond { OnOk result ((s : T) → Member s beyond.new.items
        → Member s beyond.old.items ⊎ IsTrue (T.times.below join s)) }
    ensures only { OnlyMemory result }
{
    if join.less_equal(&t) {
        push_unless_last(beyond, t)?;
        Ok(())
    } else {
        push_unless_last(within, t)?;
        Ok(())
    }
}

// Moves each near time to its join with the lower bound, and appends it to the part that it belongs
// to.
fn push_parts<T: Lattice>(
    within: &mut Vec<T>,
    beyond: &mut Vec<T>,
    near: &[T],
    bounds: Bounds<T>,
) -> Result<(), Refusal>
    ensures members { OnOk result ((s : T)
        → (Member s within.new.items ⊎ Member s beyond.new.items)
        ↔ ((Member s within.old.items ⊎ Member s beyond.old.items)
        ⊎ Member s (map (λ r. T.times.joined r bounds.meet) near.now))) }
    ensures beyond { OnOk result ((s : T) → Member s beyond.new.items
        → Member s beyond.old.items ⊎ IsTrue (T.times.below bounds.join s)) }
    ensures only { OnlyMemory result }
{
    let Bounds { meet, join } = bounds;
    for s in near {
        push_to_part(within, beyond, s.join(meet), join)?;
    }
    Ok(())
}

// Moves each near time to its join with the lower bound, and parts those that are then at or after
// the upper bound from the others. The others are each once and in order.
fn parts_of<T: Lattice>(alloc: Global, near: &[T], bounds: Bounds<T>) -> Result<Parted<T>, Refusal>
    ensures members { IfOk result (λ parted. (s : T)
        → (Member s parted.within.items ⊎ Member s parted.beyond.items)
        ↔ Member s (map (λ r. T.times.joined r bounds.meet) near.now)) }
    ensures beyond { IfOk result (λ parted. (s : T) → Member s parted.beyond.items
        → IsTrue (T.times.below bounds.join s)) }
    ensures only { OnlyMemory result }
{
    let mut within = Vec::with_capacity(alloc, near.len())?;
    let mut beyond = Vec::new(alloc);
    push_parts(&mut within, &mut beyond, near, bounds)?;
    keep_once(&mut within);
    Ok(Parted { within, beyond })
}

// Appends the joins of the new times among themselves and with near times.
fn push_fresh<T: Lattice>(
    alloc: Global,
    fresh: &mut Vec<T>,
    near: &[T],
    new: &[T],
) -> Result<(), Refusal>
    ensures appended { OnOk result
        (Appends fresh.old.items fresh.new.items (IsFreshBy T.times new.now near.now)) }
    ensures only { OnlyMemory result }
{
    match new {
        [] => Ok(()),
        [t] => {
            push_joins(fresh, *t, near)?;
            Ok(())
        }
        [first, rest @ ..] => {
            let mut parted = parts_of(alloc, near, bounds_of(*first, rest))?;
            fresh.extend_from_slice(&parted.beyond)?;
            let half = new.len() / 2;
            let start = fresh.len();
            push_fresh(alloc, fresh, &parted.within, &new[..half])?;
            parted.within.extend_from_slice(&fresh[start..])?;
            push_fresh(alloc, fresh, &parted.within, &new[half..])?;
            Ok(())
        }
    }
}

// Appends the lesser of the two times at the cursors, or the one time that both are.
fn take_next<T: Lattice>(
    out: &mut Vec<T>,
    xs: &[T],
    ys: &[T],
    at: MergeCursors,
) -> Result<MergeCursors, Refusal>
    requires left { at.left < length xs.now }
    requires right { at.right < length ys.now }
    ensures left { IfOk result (λ next. next.left ≤ length xs.now) }
    ensures right { IfOk result (λ next. next.right ≤ length ys.now) }
    ensures forward { IfOk result (λ next. at.left + at.right < next.left + next.right) }
    ensures merging { IfOk result (λ next.
        IsMerging T.cmp xs.now ys.now out.old.items (drop at.left xs.now) (drop at.right ys.now)
        → IsMerging T.cmp xs.now ys.now out.new.items (drop next.left xs.now)
        (drop next.right ys.now)) }
    ensures only { OnlyMemory result }
{
    let x = xs[at.left];
    let y = ys[at.right];
    let MergeCursors { left, right } = at;
    match x.cmp(&y) {
        Ordering::Less => {
            out.push(x)?;
            Ok(MergeCursors {
                left: left + 1,
                right,
            })
        }
        Ordering::Greater => {
            out.push(y)?;
            Ok(MergeCursors {
                left,
                right: right + 1,
            })
        }
        Ordering::Equal => {
            out.push(x)?;
            Ok(MergeCursors {
                left: left + 1,
                right: right + 1,
            })
        }
    }
}

// Merges both lists until one of them ends, and returns how far it got in each.
fn take_from_both<T: Lattice>(out: &mut Vec<T>, xs: &[T], ys: &[T]) -> Result<MergeCursors, Refusal>
    requires { IsMerging T.cmp xs.now ys.now out.old.items xs.now ys.now }
    ensures left { IfOk result (λ at. at.left ≤ length xs.now) }
    ensures right { IfOk result (λ at. at.right ≤ length ys.now) }
    ensures ended { IfOk result (λ at. at.left < length xs.now → at.right < length ys.now → ⊥) }
    ensures merging { IfOk result (λ at.
        IsMerging T.cmp xs.now ys.now out.new.items (drop at.left xs.now) (drop at.right ys.now)) }
    ensures only { OnlyMemory result }
{
    let mut at = MergeCursors { left: 0, right: 0 };
    while at.left < xs.len() && at.right < ys.len() {
        at = take_next(out, xs, ys, at)?;
    }
    Ok(at)
}

// The times of both lists, each once and in order. At most one comparison for each time that is
// written, and one allocation.
fn merged<T: Lattice>(alloc: Global, xs: &[T], ys: &[T]) -> Result<Vec<T>, Refusal>
    requires left { IsStrictlySortedBy T.cmp xs.now }
    requires right { IsStrictlySortedBy T.cmp ys.now }
    ensures members { IfOk result
        (λ out. (t : T) → Member t out.items ↔ (Member t xs.now ⊎ Member t ys.now)) }
    ensures ascending { IfOk result (λ out. IsStrictlySortedBy T.cmp out.items) }
    ensures only { OnlyMemory result }
{
    let mut out = Vec::with_capacity(alloc, xs.len().saturating_add(ys.len()))?;
    let at = take_from_both(&mut out, xs, ys)?;
    out.extend_from_slice(&xs[at.left..])?;
    out.extend_from_slice(&ys[at.right..])?;
    Ok(out)
}

/// Adds new times to the joined times of a key: the joins of new times, and the joins of these with
/// the kept times. All of these become due. If `times` join with the new times as the joins of some
/// old times do, then what is added are the joins of old and new times that hold a new one. `new`
/// may be in any order and have a time more than once.
///
/// - [`Refusal::OutOfMemory`] only if memory for the new lists was refused.
///
/// Cost: a sort of `new`, a sort of the joins that are found, and one pass over both lists. One new
/// time is joined with each kept time. More new times are halved until each is alone. A half takes
/// a pass over its new times, two lists, and a join and a part in a sort for each of its near
/// times. If times have two axes, and all new ones are equal along one of them, then halves of the
/// same size have together about as many near times as there are kept, new and fresh times.
pub fn with_times<T: Lattice>(
    alloc: Global,
    times: &[T],
    due: &[T],
    new: &[T],
) -> Result<JoinedTimes<T>, Refusal>
    requires times { IsStrictlySortedBy T.cmp times.now }
    requires due { IsStrictlySortedBy T.cmp due.now }
    ensures times { IfOk result (λ out. (t : T) → Member t out.times.items
        ↔ (Member t times.now ⊎ IsFreshBy T.times new.now times.now t)) }
    ensures due { IfOk result (λ out. (t : T) → Member t out.due.items
        ↔ (Member t due.now ⊎ IsFreshBy T.times new.now times.now t)) }
    ensures ordered_times { IfOk result (λ out. IsStrictlySortedBy T.cmp out.times.items) }
    ensures ordered_due { IfOk result (λ out. IsStrictlySortedBy T.cmp out.due.items) }
    ensures only { OnlyMemory result }
{
    let mut distinct = Vec::from_slice(alloc, new)?;
    keep_once(&mut distinct);
    let mut fresh = Vec::new(alloc);
    push_fresh(alloc, &mut fresh, times, &distinct)?;
    keep_once(&mut fresh);
    Ok(JoinedTimes {
        times: merged(alloc, times, &fresh)?,
        due: merged(alloc, due, &fresh)?,
    })
}

//! The passed times at which a view may change. A view changes only at the times of the changes of
//! the inputs that feed it and at joins of such times, because two changes are both visible only
//! from the join of their times on. The join closure has all of these times that the frontier has
//! passed. It is built from passed times alone: a join is at or after both of its times, so no join
//! of an open time has passed. So at every passed time, the view is what it is at the last time of
//! the closure at or before it.
ghost use Rattle.std.specs.Prelude.{◌≡◌, ◌<◌, ◌∷◌, ◌++◌, [], length, map, IfOk, IsTrue, OnOk};
ghost use Rattle.std.specs.List.{All, Contains, filter};
ghost use Rattle.std.specs.List.Sorted.{IsStrictlySortedBy};
ghost use Rattle.update.specs.Refusals.{OnlyMemory};
ghost use Rattle.plan.specs.Changes.{has_passed};
ghost use Rattle.oracle.specs.Evaluation.{list_of};
ghost use Rattle.oracle.specs.JoinClosures.{Covers, HavePassed, IsClosed, IsJoinClosure};

use crate::evaluation::{feeds, list_of};
use antichain::is_beyond;
use lattice::Lattice;
use plan::{NodeId, Plan};
use std::alloc::Global;
use update::{Refusal, Update};

// Sorts the times and drops duplicates.
fn keep_once<T: Lattice>(times: &mut Vec<T>)
    ensures ascending { IsStrictlySortedBy T.cmp times.new.items }
    ensures kept { (t : T) → Contains times.old.items t → Contains times.new.items t }
    ensures among { (t : T) → Contains times.new.items t → Contains times.old.items t }
{
    times.sort_unstable();
    times.dedup();
}

// Appends the time if the frontier has passed it.
fn push_passed<T: Lattice>(times: &mut Vec<T>, t: T, frontier: &[T]) -> Result<(), Refusal>
    ensures time { OnOk result (times.new.items
        ≡ times.old.items ++ filter (has_passed T.times frontier.now) (t ∷ [])) }
    ensures refused { OnlyMemory result }
{
    if !is_beyond(frontier, &t) {
        times.push(t)?;
    }
    Ok(())
}

// Appends the join of each time with `t`, if the frontier has passed that join.
fn push_joins<T: Lattice>(times: &mut Vec<T>, t: T, frontier: &[T]) -> Result<(), Refusal>
    ensures joins { OnOk result (times.new.items ≡ times.old.items
        ++ filter (has_passed T.times frontier.now) (map (λ s. T.times.joined s t) times.old.items)) }
    ensures refused { OnlyMemory result }
{
    for i in 0..times.len() {
        let join = times[i].join(t);
        push_passed(times, join, frontier)?;
    }
    Ok(())
}

// Adds the passed time `t` and its passed joins with the times already there. This keeps the list
// closed under passed joins.
fn add_time<T: Lattice>(times: &mut Vec<T>, t: T, frontier: &[T]) -> Result<(), Refusal>
    requires closed { IsClosed T.times frontier.now times.old.items }
    requires passed { HavePassed T.times frontier.now times.old.items }
    requires time { IsTrue (has_passed T.times frontier.now t) }
    ensures ascending { OnOk result (IsStrictlySortedBy T.cmp times.new.items) }
    ensures closed { OnOk result (IsClosed T.times frontier.now times.new.items) }
    ensures passed { OnOk result (HavePassed T.times frontier.now times.new.items) }
    ensures added { OnOk result (Contains times.new.items t) }
    ensures kept { OnOk result ((s : T) → Contains times.old.items s → Contains times.new.items s) }
    ensures refused { OnlyMemory result }
{
    push_joins(times, t, frontier)?;
    times.push(t)?;
    keep_once(times);
    Ok(())
}

// Appends the times of the updates, those that the frontier has passed.
fn push_times<T: Lattice>(
    times: &mut Vec<T>,
    updates: &[Update<T>],
    frontier: &[T],
) -> Result<(), Refusal>
    ensures times { OnOk result (times.new.items ≡ times.old.items
        ++ filter (has_passed T.times frontier.now) (map (λ u. u.time) updates.now)) }
    ensures refused { OnlyMemory result }
{
    for update in updates {
        push_passed(times, update.time, frontier)?;
    }
    Ok(())
}

// The passed times of the changes of all inputs that feed the view, each once.
fn occurring<T: Lattice>(
    alloc: Global,
    plan: &Plan,
    view: NodeId,
    changes: &[Vec<Update<T>>],
    frontier: &[T],
) -> Result<Vec<T>, Refusal>
    requires { view < length plan.now }
    ensures covers { IfOk result (λ times. Covers T.times plan.now
        (list_of plan.now (map (λ v. v.items) changes.now)) frontier.now view times.items) }
    ensures passed { IfOk result (λ times. HavePassed T.times frontier.now times.items) }
    ensures refused { OnlyMemory result }
{
    plan.known();
    let mut times = Vec::new(alloc);
    for n in 0..plan.len() {
        if feeds(plan, NodeId::new(n), view) {
            push_times(&mut times, list_of(plan, changes, NodeId::new(n)), frontier)?;
        }
    }
    keep_once(&mut times);
    Ok(times)
}

// The times and all passed joins of them.
fn with_joins<T: Lattice>(alloc: Global, times: &[T], frontier: &[T]) -> Result<Vec<T>, Refusal>
    requires { HavePassed T.times frontier.now times.now }
    ensures ascending { IfOk result (λ join_closure. IsStrictlySortedBy T.cmp join_closure.items) }
    ensures closed { IfOk result
        (λ join_closure. IsClosed T.times frontier.now join_closure.items) }
    ensures passed { IfOk result
        (λ join_closure. HavePassed T.times frontier.now join_closure.items) }
    ensures kept { IfOk result (λ join_closure. All (Contains join_closure.items) times.now) }
    ensures refused { OnlyMemory result }
{
    let mut join_closure = Vec::new(alloc);
    for t in times {
        add_time(&mut join_closure, *t, frontier)?;
    }
    Ok(join_closure)
}

/// The join closure of a view's changes, as far as the frontier has passed: the passed times of the
/// changes of all inputs that feed the view and all passed joins of these times, each once and in
/// order. Refused only for lack of memory.
///
/// Cost: one test for each change of these inputs, and one sort of the closure for each distinct
/// passed time of them. For pairs of numbers, the size of the closure is at most the number of
/// distinct first numbers of passed times multiplied by the number of distinct second numbers.
pub(crate) fn join_closure<T: Lattice>(
    alloc: Global,
    plan: &Plan,
    view: NodeId,
    changes: &[Vec<Update<T>>],
    frontier: &[T],
) -> Result<Vec<T>, Refusal>
    requires { view < length plan.now }
    ensures join_closure { IfOk result
        (λ join_closure. IsJoinClosure T.times T.cmp plan.now
        (list_of plan.now (map (λ v. v.items) changes.now)) frontier.now view join_closure.items) }
    ensures passed { IfOk result
        (λ join_closure. HavePassed T.times frontier.now join_closure.items) }
    ensures refused { OnlyMemory result }
{
    let times = occurring(alloc, plan, view, changes, frontier)?;
    with_joins(alloc, &times, frontier)
}

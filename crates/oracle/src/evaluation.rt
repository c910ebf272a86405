//! The query at one time, computed from scratch. The bags of the nodes are computed in the order of
//! the nodes' numbers. So each is computed once, after those of its sources. A node from which the
//! view cannot be reached gets an empty bag: it is not computed, so nothing in it can overflow. A
//! node that passes rows on shares the bag of its source.
ghost use Rattle.std.specs.Prelude.{◌≡◌, ◌≤◌, ◌<◌, ◌+◌, ◌↔◌, eqb, map, length, IfOk, IfErr, OnOk, IsTrue};
ghost use Rattle.std.specs.List.{list_all};
ghost use Rattle.update.specs.Bags.{Alike, IsBag};
ghost use Rattle.plan.specs.Ancestors.{feeds, reaches};
ghost use Rattle.plan.specs.Changes.{query_at};
ghost use Rattle.plan.specs.Queries.{query};
ghost use Rattle.plan.specs.Widths.{width_of};
ghost use Rattle.oracle.specs.Entries.{all_wide};
ghost use Rattle.update.specs.Refusals.{IsMemoryOrOverflow};
ghost use Rattle.oracle.specs.Evaluation.{AreBags, AreWide, HasLargeAbove, inputs_before, is_wide_at, list_of, sums_at};

use crate::bags::Bags;
use crate::node::{of_node, passed_on};
use lattice::Lattice;
use plan::{NodeId, Plan};
use std::alloc::Global;
use update::{Bag, Entries, Refusal, Update};

/// How many inputs have smaller numbers. If there is one list for each input, in the order of their
/// numbers, this is the index of the input's list. Takes no memory.
///
/// Cost: linear in the nodes before it.
pub fn inputs_before(plan: &Plan, id: NodeId) -> usize
    requires { id ≤ length plan.now }
    ensures { result ≡ inputs_before plan.now id }
{
    let mut count = 0;
    for n in 0..id.number() {
        if plan.node(NodeId::new(n)).is_input() {
            count += 1;
        }
    }
    count
}

// Whether the node is an input that feeds the view.
pub(crate) fn feeds(plan: &Plan, id: NodeId, view: NodeId) -> bool
    requires inside { id < length plan.now }
    requires view { view < length plan.now }
    ensures { result ≡ feeds plan.now id view }
{
    plan.node(id).is_input() && plan.reaches(id, view)
}

// The changes of an input. A missing list is read as an empty one.
pub(crate) fn list_of<'a, T: Lattice>(
    plan: &Plan,
    changes: &'a [Vec<Update<T>>],
    id: NodeId,
) -> &'a [Update<T>]
    requires { id ≤ length plan.now }
    ensures { result.now ≡ list_of plan.now (map (λ v. v.items) changes.now) id }
{
    match changes.get(inputs_before(plan, id)) {
        Some(list) => list.as_slice(),
        None => &[],
    }
}

// Whether every row of the list has `width` columns.
fn have_width<T: Lattice>(updates: &[Update<T>], width: usize) -> bool
    ensures { result ≡ list_all (λ u. eqb (length u.row) width) updates.now }
{
    for update in updates {
        if update.row.width() != width {
            return false;
        }
    }
    true
}

// Whether the node is not an input, or its changes have its width.
fn is_wide<T: Lattice>(plan: &Plan, changes: &[Vec<Update<T>>], id: NodeId) -> bool
    requires { id < length plan.now }
    ensures { result ≡ is_wide_at plan.now (map (λ v. v.items) changes.now) id }
{
    !plan.node(id).is_input() || have_width(list_of(plan, changes, id), plan.width(id))
}

/// Whether the changes of each input have its width, as [`evaluate`] requires. `changes` has a list
/// for each input, in the order of the inputs' numbers. Takes no memory.
///
/// Cost: one pass over the changes.
pub fn are_wide<T: Lattice>(plan: &Plan, changes: &[Vec<Update<T>>]) -> bool
    ensures { IsTrue result ↔ AreWide plan.now (map (λ v. v.items) changes.now) }
{
    for n in 0..plan.len() {
        if !is_wide(plan, changes, NodeId::new(n)) {
            return false;
        }
    }
    true
}

// The bag of the node that comes after those in `bags`.
fn next_bag<T: Lattice>(
    alloc: Global,
    plan: &Plan,
    view: NodeId,
    changes: &[Vec<Update<T>>],
    t: T,
    bags: &Bags,
) -> Result<Bag, Refusal>
    requires view { view < length plan.now }
    requires next { length bags.now < length plan.now }
    requires lists { AreWide plan.now (map (λ v. v.items) changes.now) }
    requires bags { AreBags plan.now
        (sums_at T.times plan.now (map (λ v. v.items) changes.now) t) view bags.now }
    ensures wide { IfOk result
        (λ out. IsTrue (all_wide (width_of plan.now (length bags.now)) out)) }
    ensures query { IfOk result (λ out. IsTrue (reaches plan.now (length bags.now) view)
        → Alike out (query plan.now (sums_at T.times plan.now (map (λ v. v.items) changes.now) t)
        (length bags.now))) }
    ensures bag { IfOk result IsBag }
    ensures refused { IfErr result
        (IsMemoryOrOverflow (HasLargeAbove plan.now
        (sums_at T.times plan.now (map (λ v. v.items) changes.now) t) view)) }
{
    plan.known();
    let id = NodeId::new(bags.len());
    if !plan.reaches(id, view) {
        return Entries::new(alloc).into_bag();
    }
    of_node(alloc, plan, id, list_of(plan, changes, id), t, bags)
}

// Appends the bag of the node that comes after those in `bags`.
fn put_next<T: Lattice>(
    alloc: Global,
    plan: &Plan,
    view: NodeId,
    changes: &[Vec<Update<T>>],
    t: T,
    bags: &mut Bags,
) -> Result<(), Refusal>
    requires view { view < length plan.now }
    requires next { length bags.old < length plan.now }
    requires lists { AreWide plan.now (map (λ v. v.items) changes.now) }
    requires bags { AreBags plan.now
        (sums_at T.times plan.now (map (λ v. v.items) changes.now) t) view bags.old }
    ensures bags { OnOk result (AreBags plan.now
        (sums_at T.times plan.now (map (λ v. v.items) changes.now) t) view bags.new) }
    ensures count { OnOk result (length bags.new ≡ length bags.old + 1) }
    ensures refused { IfErr result
        (IsMemoryOrOverflow (HasLargeAbove plan.now
        (sums_at T.times plan.now (map (λ v. v.items) changes.now) t) view)) }
{
    plan.known();
    match passed_on(plan.node(NodeId::new(bags.len()))) {
        Some(source) => bags.share(source.number()),
        None => {
            let bag = next_bag(alloc, plan, view, changes, t, bags)?;
            bags.push(alloc, bag)
        }
    }
}

// The bags of the nodes before the view.
fn bags_before<T: Lattice>(
    alloc: Global,
    plan: &Plan,
    view: NodeId,
    changes: &[Vec<Update<T>>],
    t: T,
) -> Result<Bags, Refusal>
    requires view { view < length plan.now }
    requires lists { AreWide plan.now (map (λ v. v.items) changes.now) }
    ensures bags { IfOk result
        (λ bags. AreBags plan.now
        (sums_at T.times plan.now (map (λ v. v.items) changes.now) t) view bags) }
    ensures count { IfOk result (λ bags. length bags ≡ view) }
    ensures refused { IfErr result
        (IsMemoryOrOverflow (HasLargeAbove plan.now
        (sums_at T.times plan.now (map (λ v. v.items) changes.now) t) view)) }
{
    let mut bags = Bags::new(alloc);
    for _node in 0..view.number() {
        put_next(alloc, plan, view, changes, t, &mut bags)?;
    }
    Ok(bags)
}

/// The rows of a node of a plan at `t`: the query on the bags to which the inputs' changes sum at
/// `t`. `changes` has a list for each input, in the order of the inputs' numbers. A missing list is
/// read as an empty one.
///
/// The refusals:
///
/// | Refusal | When |
/// |---|---|
/// | `Overflow` | a number does not fit in 64 bits, at the view or at a node above it |
/// | `OutOfMemory` | an allocation was refused |
///
/// The number that is too large is the count of a row, the product of two counts in a join, or the
/// total count of a key's rows.
///
/// Cost: for each node above the view, one or two sorts of the rows that it reads and writes, and
/// nothing for an arrange node; one pass over each input's changes.
pub fn evaluate<T: Lattice>(
    alloc: Global,
    plan: &Plan,
    view: NodeId,
    changes: &[Vec<Update<T>>],
    t: T,
) -> Result<Bag, Refusal>
    requires view { view < length plan.now }
    requires lists { AreWide plan.now (map (λ v. v.items) changes.now) }
    ensures query { IfOk result
        (λ bag. Alike bag
        (query_at T.times plan.now (list_of plan.now (map (λ v. v.items) changes.now)) view t)) }
    ensures bag { IfOk result IsBag }
    ensures refused { IfErr result
        (IsMemoryOrOverflow (HasLargeAbove plan.now
        (sums_at T.times plan.now (map (λ v. v.items) changes.now) t) view)) }
{
    plan.known();
    let bags = bags_before(alloc, plan, view, changes, t)?;
    next_bag(alloc, plan, view, changes, t, &bags)
}

//! Linear nodes, applied to updates in place.
//!
//! A map and a negation overwrite each update where it stands. A filter moves the updates that pass
//! to the front, in their old order, and cuts off the rest. The other nodes pass on what comes: a
//! concat merges two lists of updates into one, and a caller that takes from both ports has merged
//! them already. So no operator allocates.
ghost use Rattle.std.specs.Prelude.{◌≡◌, ◌≤◌, ◌↔◌, ℕ, Bool, map, length, IfErr, IsErr, OnErr, OnOk, IsTrue, false};
ghost use Rattle.std.specs.List.{filter, list_all};
ghost use Rattle.row.specs.Filters.{passes, is_test_within};
ghost use Rattle.update.specs.Bags.{Alike};
ghost use Rattle.update.specs.Updates.{as_of, size};
ghost use Rattle.plan.specs.Operators.{operator_output};
ghost use Rattle.plan.specs.Nodes.{is_linear};
ghost use Rattle.linear.specs.Applied.{mapped_update, negated_update, linear_output, HasLargeDiff, Overflows};
ghost use Rattle.linear.specs.Ports.{is_port, at_port};
ghost use Rattle.linear.specs.Widths.{takes_items, takes_rows};

use lattice::Lattice;
use plan::Node;
use row::{Item, Test, holds, project};
use update::{Refusal, Update, Weight};

// Replaces each row by its image.
fn map_rows<T: Lattice>(updates: &mut [Update<T>], items: &[Item])
    requires { IsTrue (list_all (λ u. takes_items items.now (length u.row)) updates.old) }
    ensures { updates.new ≡ map (mapped_update items.now) updates.old }
{
    for update in updates.iter_mut() {
        update.row = project(&update.row, items);
    }
}

// Keeps the updates whose rows pass the test.
fn keep_passing<T: Lattice>(updates: &mut Vec<Update<T>>, test: &Test)
    requires { IsTrue (list_all (λ u. is_test_within test.now (length u.row)) updates.old.items) }
    ensures { updates.new.items ≡ filter (λ u. passes test.now u.row) updates.old.items }
{
    let mut kept = 0;
    for next in 0..updates.len() {
        if holds(&updates[next].row, test) {
            updates.swap(kept, next);
            kept += 1;
        }
    }
    updates.truncate(kept);
}

// Negates each diff.
fn negate_diffs<T: Lattice>(updates: &mut [Update<T>]) -> Result<(), Refusal>
    ensures negated { OnOk result (updates.new ≡ map negated_update updates.old) }
    ensures large { IsErr result ↔ HasLargeDiff (map negated_update updates.old) }
    ensures only { IfErr result (λ refused. refused ≡ Refusal.Overflow) }
{
    for update in updates.iter_mut() {
        let Some(diff) = update.diff.negate() else {
            return Err(Refusal::Overflow);
        };
        update.diff = diff;
    }
    Ok(())
}

// Whether each diff has an opposite.
fn have_opposites<T: Lattice>(updates: &[Update<T>]) -> bool
    ensures { result ≡ false ↔ HasLargeDiff (map negated_update updates.now) }
{
    for update in updates {
        let Some(_opposite) = update.diff.negate() else {
            return false;
        };
    }
    true
}

// Negates each diff, or none.
fn negate_all<T: Lattice>(updates: &mut [Update<T>]) -> Result<(), Refusal>
    ensures negated { OnOk result (updates.new ≡ map negated_update updates.old) }
    ensures same { OnErr result (updates.new ≡ updates.old) }
    ensures large { IsErr result ↔ HasLargeDiff (map negated_update updates.old) }
    ensures only { IfErr result (λ refused. refused ≡ Refusal.Overflow) }
{
    if !have_opposites(updates) {
        return Err(Refusal::Overflow);
    }
    negate_diffs(updates)
}

// Replaces updates by the output of a linear node for them.
fn overwrite<T: Lattice>(node: &Node, updates: &mut Vec<Update<T>>) -> Result<(), Refusal>
    requires rows { IsTrue (takes_rows node.now updates.old.items) }
    ensures applied { OnOk result
        (updates.new.items ≡ linear_output node.now updates.old.items) }
    ensures same { OnErr result (updates.new.items ≡ updates.old.items) }
    ensures overflow { IsErr result ↔ Overflows node.now updates.old.items }
    ensures only { IfErr result (λ refused. refused ≡ Refusal.Overflow) }
{
    match node {
        Node::Map { items, .. } => map_rows(updates, items.as_slice()),
        Node::Filter { test, .. } => keep_passing(updates, test),
        Node::Negate { .. } => return negate_all(updates),
        // An input, a concat, an arrangement or a view.
        _ => {}
    }
    Ok(())
}

/// Applies a linear node to the updates that come to one of its ports. A map replaces each row by
/// its image, a filter keeps the rows that pass, a negation negates each difference, and any other
/// node passes on what comes. The times stay, and so does the order. At every time, the sum of the
/// output is the operator's output for the sum of the input.
///
/// The node must be no join and no reduction, and its items or its test must name only columns that
/// the rows have; in a plan they do ([`plans_fit`](crate::plans_fit)). [`Refusal::Overflow`] if and
/// only if the node is a negation and some difference is -2^63, whose opposite does not fit in 64
/// bits; the list is then as it was. Takes no memory.
///
/// Cost: linear in the number of updates, and constant if the node passes on what comes. The list
/// is not consolidated: rows with the same image stay apart.
pub fn apply<T: Lattice>(node: &Node, updates: &mut Vec<Update<T>>) -> Result<(), Refusal>
    requires linear { IsTrue (is_linear node.now) }
    requires rows { IsTrue (takes_rows node.now updates.old.items) }
    ensures applied { OnOk result
        (updates.new.items ≡ linear_output node.now updates.old.items) }
    ensures sums { OnOk result ((k port : ℕ) (t : T) → IsTrue (is_port node.now port)
        → Alike (as_of T.times t updates.new.items)
        (operator_output k node.now (at_port port (as_of T.times t updates.old.items)))) }
    ensures times { OnOk result ((p : T → Bool)
        → IsTrue (list_all (λ u. p u.time) updates.old.items)
        → IsTrue (list_all (λ u. p u.time) updates.new.items)) }
    ensures size { OnOk result (size updates.new.items ≤ size updates.old.items) }
    ensures same { OnErr result (updates.new.items ≡ updates.old.items) }
    ensures overflow { IsErr result ↔ Overflows node.now updates.old.items }
    ensures only { IfErr result (λ refused. refused ≡ Refusal.Overflow) }
{
    overwrite(node, updates)?;
    Ok(())
}

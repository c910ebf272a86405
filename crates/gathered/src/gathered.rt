//! What was gathered at one node and not given yet, with the least of its times.
//!
//! The worker holds the times of what lies gathered, and says so at every give. So the least times
//! are kept beside the updates: nobody goes through all updates for each bundle.
ghost use Rattle.std.specs.Prelude.{◌≡◌, ◌<◌, ◌≤◌, ◌+◌, ◌^◌, ◌++◌, ℕ, [], IfOk, IfErr, OnOk, OnErr, IsTrue, length, vec_capacity, vec_len};
ghost use Rattle.lattice.specs.Frontiers.{all_beyond};
ghost use Rattle.update.specs.Refusals.{OnlyMemory, IsMemoryOrOverflow};
ghost use Rattle.update.specs.Updates.{HasLargeTotal, size};
ghost use Rattle.plan.specs.Nodes.{is_linear};
ghost use Rattle.linear.specs.Applied.{Overflows, linear_output};
ghost use Rattle.linear.specs.Widths.{are_wide, takes_rows};
ghost use Rattle.histories.specs.Histories.States.{update_times};
ghost use Rattle.operator_laws.specs.GatheredUpdates.{IsSplit};

use columns::UpdateList;
use lattice::Minimum;
use operator::{front_with, renew};
use plan::Node;
use std::alloc::Global;
use std::marker::Model;
use std::mem;
use update::{Refusal, Update, consolidate};

/// Updates that were gathered, in the order in which they came. A contract sees the list of them.
#[derive(Drop)]
pub struct Gathered<T: Minimum> {
    updates: Vec<Update<T>>,
    front: Vec<T>,
}

impl<T: Minimum> Model for Gathered<T> {
    ghost use Rattle.std.specs.Prelude.{List};
    ghost use Rattle.update.specs.declared.change.Update.{Update};
    ghost use Rattle.operator.specs.Arrangements.{IsFrontOf};

    ghost Value = { List (Update T) };

    ghost view = { λ g. g.updates.items };

    ghost invariant = { λ g. IsFrontOf T.times g.front.items g.updates.items };
}

// Makes room behind a list for so many more updates. A list of none needs no room: those that come
// take its place. The list stays as it is.
fn make_room<T: Minimum>(list: &mut Vec<Update<T>>, more: usize) -> Result<(), Refusal>
    ensures room { OnOk result (0 < vec_len list.new
        → vec_len list.new + more ≤ vec_capacity list.new) }
    ensures same { list.new.items ≡ list.old.items }
    ensures only { OnlyMemory result }
{
    if list.is_empty() {
        return Ok(());
    }
    list.reserve(more)?;
    Ok(())
}

// Moves updates to the end of a list with room for them. If it has none, then the other list takes
// its place. Takes no memory.
fn move_behind<T: Minimum>(list: &mut Vec<Update<T>>, more: &mut Vec<Update<T>>)
    requires room { 0 < vec_len list.old
        → vec_len list.old + length more.old.items ≤ vec_capacity list.old }
    ensures { list.new.items ≡ list.old.items ++ more.old.items }
{
    if list.is_empty() {
        mem::swap(list, more);
        return;
    }
    let Ok(()) = list.append(more) else {
        unreachable!()
    };
}

// What a linear node makes of updates, which stay as they are.
fn applied<T: Minimum>(
    alloc: Global,
    operator: &Node,
    updates: &UpdateList<T>,
) -> Result<Vec<Update<T>>, Refusal>
    requires linear { IsTrue (is_linear operator.now) }
    requires rows { IsTrue (takes_rows operator.now updates.now) }
    ensures applied { IfOk result (λ out. out.items ≡ linear_output operator.now updates.now) }
    ensures refused { IfErr result (IsMemoryOrOverflow (Overflows operator.now updates.now)) }
{
    let mut updates = updates.to_vec(alloc)?;
    linear::apply(operator, &mut updates)?;
    Ok(updates)
}

// Whether the size of a list is below 2^63: then no total of its diffs is too large.
fn is_small<T: Minimum>(updates: &[Update<T>]) -> bool
    ensures { IsTrue result → size updates.now < 2 ^ 63 }
{
    let mut room: u64 = (1 << 63) - 1;
    for update in updates {
        let Some(left) = room.checked_sub(update.diff.unsigned_abs()) else {
            return false;
        };
        room = left;
    }
    true
}

// Consolidates a list of which no total can be too large. Takes no memory.
fn consolidate_small<T: Minimum>(updates: Vec<Update<T>>) -> Vec<Update<T>>
    requires { size updates.items < 2 ^ 63 }
    ensures split { IsSplit T.times updates.items result.items [] }
    ensures wide { (width : ℕ) → IsTrue (are_wide width updates.items)
        → IsTrue (are_wide width result.items) }
{
    let Ok(summed) = consolidate(updates) else {
        unreachable!()
    };
    summed
}

impl<T: Minimum> Gathered<T> {
    /// Nothing. Takes no memory.
    pub fn new(alloc: Global) -> Gathered<T>
        ensures { result ≡ [] }
    {
        Gathered {
            updates: Vec::new(alloc),
            front: Vec::new(alloc),
        }
    }

    /// How many updates lie gathered. Takes no memory.
    pub fn len(&self) -> usize
        ensures { result ≡ length self.now }
    {
        self.updates.len()
    }

    // Moves updates to the end. If memory was refused, then nothing has changed here.
    fn append(&mut self, alloc: Global, more: Vec<Update<T>>) -> Result<(), Refusal>
        ensures more { OnOk result (self.new ≡ self.old ++ more.items) }
        ensures same { OnErr result (self.new ≡ self.old) }
        ensures only { OnlyMemory result }
    {
        let mut more = more;
        let front = front_with(alloc, self.front.as_slice(), more.as_slice())?;
        make_room(&mut self.updates, more.len())?;
        move_behind(&mut self.updates, &mut more);
        renew(&mut self.front, front);
        Ok(())
    }

    // Moves to the end what a linear node makes of updates, if it keeps their times. The node
    // overwrites them, so all memory is asked for before. If it is refused, then nothing has
    // changed, and the updates are as they were.
    fn append_applied(
        &mut self,
        alloc: Global,
        operator: &Node,
        updates: &mut Vec<Update<T>>,
    ) -> Result<(), Refusal>
        requires linear { IsTrue (is_linear operator.now) }
        requires rows { IsTrue (takes_rows operator.now updates.old.items) }
        requires times { update_times (linear_output operator.now updates.old.items)
            ≡ update_times updates.old.items }
        ensures more { OnOk result
            (self.new ≡ self.old ++ linear_output operator.now updates.old.items) }
        ensures same { OnErr result (self.new ≡ self.old) }
        ensures left { OnErr result (updates.new.items ≡ updates.old.items) }
        ensures refused { IfErr result
            (IsMemoryOrOverflow (Overflows operator.now updates.old.items)) }
    {
        let front = front_with(alloc, self.front.as_slice(), updates.as_slice())?;
        make_room(&mut self.updates, updates.len())?;
        linear::apply(operator, updates)?;
        move_behind(&mut self.updates, updates);
        renew(&mut self.front, front);
        Ok(())
    }

    /// Takes in what a linear node makes of updates. The node must be linear, and the rows as wide
    /// as it reads them. [`Refusal::Overflow`] only if a difference has no opposite at a negation,
    /// [`Refusal::OutOfMemory`] only if memory was refused. Then nothing has changed, and the list
    /// is as it was.
    ///
    /// Cost: linear in the updates, times the least times of what lies there. The updates move,
    /// unless the node is a filter or the list is in columns.
    //
    // A filter makes of a copy: it could not give back what it drops, and the least times are those
    // of what passes alone. Every other node overwrites the updates, and they move.
    pub fn take_in(
        &mut self,
        alloc: Global,
        operator: &Node,
        list: &mut UpdateList<T>,
    ) -> Result<(), Refusal>
        requires linear { IsTrue (is_linear operator.now) }
        requires rows { IsTrue (takes_rows operator.now list.old) }
        ensures more { OnOk result (self.new ≡ self.old ++ linear_output operator.now list.old) }
        ensures same { OnErr result (self.new ≡ self.old) }
        ensures left { OnErr result (list.new ≡ list.old) }
        ensures refused { IfErr result (IsMemoryOrOverflow (Overflows operator.now list.old)) }
    {
        if let Node::Filter { .. } = operator {
            let passing = applied(alloc, operator, list)?;
            self.append(alloc, passing)?;
            return Ok(());
        }
        let mut updates = list.take_vec(alloc)?;
        let moved = self.append_applied(alloc, operator, &mut updates);
        *list = updates.into();
        moved
    }

    // A copy of the updates. Refused only if memory was refused.
    fn copies(&self, alloc: Global) -> Result<Vec<Update<T>>, Refusal>
        ensures copied { IfOk result (λ copies. copies.items ≡ self.now) }
        ensures only { OnlyMemory result }
    {
        let mut copies = Vec::with_capacity(alloc, self.updates.len())?;
        for update in self.updates.as_slice() {
            copies.push(update.copy())?;
        }
        Ok(copies)
    }

    // Takes all out, and leaves nothing. Takes no memory.
    fn take(&mut self, alloc: Global) -> Vec<Update<T>>
        ensures taken { result.items ≡ self.old }
        ensures left { self.new ≡ [] }
    {
        self.front = Vec::new(alloc);
        mem::replace(&mut self.updates, Vec::new(alloc))
    }

    // Takes all out consolidated, and leaves nothing. If it is refused, then nothing has changed.
    //
    // A list that cannot be consolidated is dropped. So a copy is, unless all diffs together are
    // below 2^63: then no total is too large.
    fn take_consolidated(&mut self, alloc: Global) -> Result<Vec<Update<T>>, Refusal>
        ensures split { IfOk result (λ out. IsSplit T.times self.old out.items []) }
        ensures wide { (width : ℕ) → IsTrue (are_wide width self.old)
            → IfOk result (λ out. IsTrue (are_wide width out.items)) }
        ensures left { OnOk result (self.new ≡ []) }
        ensures same { OnErr result (self.new ≡ self.old) }
        ensures refused { IfErr result (IsMemoryOrOverflow (HasLargeTotal T.times self.old)) }
    {
        if is_small(self.updates.as_slice()) {
            let updates = self.take(alloc);
            return Ok(consolidate_small(updates));
        }
        let copies = self.copies(alloc)?;
        let summed = consolidate(copies)?;
        let _summed_up = self.take(alloc);
        Ok(summed)
    }

    /// Takes all out in a form that may be given, and leaves nothing. A node with two sources may
    /// have the same updates from both, so there they are consolidated: a tower of such nodes does
    /// not grow with each floor. [`Refusal::Overflow`] only if the total of a row at a time does
    /// not fit in 64 bits, [`Refusal::OutOfMemory`] only if memory was refused. Then nothing has
    /// changed.
    ///
    /// Cost: nothing at a node with one source. With two, n log n comparisons in the number of
    /// updates, and a copy of them if all differences together are 2^63 or more.
    pub fn take_summed(&mut self, alloc: Global, operator: &Node) -> Result<Vec<Update<T>>, Refusal>
        ensures split { IfOk result (λ out. IsSplit T.times self.old out.items []) }
        ensures wide { (width : ℕ) → IsTrue (are_wide width self.old)
            → IfOk result (λ out. IsTrue (are_wide width out.items)) }
        ensures left { OnOk result (self.new ≡ []) }
        ensures same { OnErr result (self.new ≡ self.old) }
        ensures refused { IfErr result (IsMemoryOrOverflow (HasLargeTotal T.times self.old)) }
    {
        match operator {
            Node::Concat { .. } => self.take_consolidated(alloc),
            _ => Ok(self.take(alloc)),
        }
    }

    /// The least of the times. Refused only with `OutOfMemory`. The list has room for one time
    /// more: its holder may take another bundle at the node, and holds the stamp of that, too.
    ///
    /// Cost: linear in these times.
    pub fn held(&self, alloc: Global) -> Result<Vec<T>, Refusal>
        ensures covers { IfOk result (λ held. IsTrue
            (all_beyond T.times held.items (update_times self.now))) }
        ensures tight { IfOk result (λ held. IsTrue
            (all_beyond T.times (update_times self.now) held.items)) }
        ensures only { OnlyMemory result }
    {
        let mut held = Vec::with_capacity(alloc, self.front.len().saturating_add(1))?;
        held.extend_from_slice(self.front.as_slice())?;
        Ok(held)
    }
}

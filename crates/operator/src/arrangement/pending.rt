//! The updates that wait until a frontier has passed their times. The least of these times are kept
//! beside them, so that nobody goes through all updates to ask which times are still held.
ghost use Rattle.std.specs.Prelude.{◌≡◌, ◌≤◌, ◌∷◌, ◌++◌, [], List, ℤ, Bool, IfOk, IfErr, OnOk, OnErr, IsTrue};
ghost use Rattle.std.specs.List.{list_all};
ghost use Rattle.lattice.specs.Frontiers.{all_beyond};
ghost use Rattle.antichain.specs.Antichains.{IsFrontier};
ghost use Rattle.update.specs.declared.refusal.Refusal.{Refusal};
ghost use Rattle.update.specs.Refusals.{OnlyMemory, IsMemoryOrOverflow};
ghost use Rattle.update.specs.Updates.{total_where, HasLargeTotal, size};
ghost use Rattle.batch.specs.Batches.{IsSealed};
ghost use Rattle.batch.specs.Intervals.{all_between, is_interval_of, passed_updates, open_updates};
ghost use Rattle.operator.specs.Arrangements.{times_of};

use crate::frontier::{antichain_of, front_of_open, front_with, renew};
use antichain::{Antichain, is_beyond};
use batch::{Batch, Builder};
use lattice::{Lattice, Minimum};
use std::alloc::Global;
use std::marker::Model;
use std::mem;
use update::{Refusal, Update};

// A list with room for at most this many updates keeps it when it is emptied, since the next
// updates go there.
const MAX_KEPT: usize = 1024;

/// Updates of one worker at one node, with the least of their times. A contract sees both numbers,
/// and the updates in the order in which they came.
#[derive(Drop)]
pub(crate) struct Waiting<T: Lattice> {
    worker: usize,
    node: usize,
    updates: Vec<Update<T>>,
    front: Vec<T>,
}

impl<T: Lattice> Model for Waiting<T> {
    ghost use Rattle.batch.specs.Descriptions.{BuilderState};
    ghost use Rattle.operator.specs.Arrangements.{IsFrontOf};

    ghost Value = { BuilderState T };

    ghost view = { λ w. record { worker = w.worker; node = w.node; updates = w.updates.items } };

    ghost invariant = { λ w. IsFrontOf T.times w.front.items w.updates.items };
}

impl<T: Lattice> Waiting<T> {
    // No updates. Takes no memory.
    pub(crate) fn new(alloc: Global, worker: usize, node: usize) -> Waiting<T>
        ensures { result ≡ record { worker = worker; node = node; updates = [] } }
    {
        Waiting {
            worker,
            node,
            updates: Vec::new(alloc),
            front: Vec::new(alloc),
        }
    }

    // Moves updates to the end, and leaves their list empty. If memory was refused, both are as
    // they were.
    pub(crate) fn take_in(&mut self, updates: &mut Vec<Update<T>>) -> Result<(), Refusal>
        ensures ok { OnOk result (self.new
            ≡ record self.old { updates = self.old.updates ++ updates.old.items }) }
        ensures moved { OnOk result (updates.new.items ≡ []) }
        ensures same { OnErr result (self.new ≡ self.old) }
        ensures left { OnErr result (updates.new.items ≡ updates.old.items) }
        ensures only { OnlyMemory result }
    {
        let alloc = *self.updates.allocator();
        let front = front_with(alloc, self.front.as_slice(), updates.as_slice())?;
        move_behind(&mut self.updates, updates)?;
        renew(&mut self.front, front);
        Ok(())
    }

    // The least times of the updates.
    pub(crate) fn held(&self, alloc: Global) -> Result<Vec<T>, Refusal>
        ensures covers { IfOk result (λ held. IsTrue
            (all_beyond T.times held.items (times_of self.now.updates))) }
        ensures tight { IfOk result (λ held. IsTrue
            (all_beyond T.times (times_of self.now.updates) held.items)) }
        ensures only { OnlyMemory result }
    {
        Ok(Vec::from_slice(alloc, self.front.as_slice())?)
    }
}

impl<T: Minimum> Waiting<T> {
    // Seals copies of the updates that the upper frontier has passed, and only then drops them
    // here.
    pub(crate) fn seal(&mut self, lower: &[T], upper: &Antichain<T>) -> Result<Batch<T>, Refusal>
        requires frontier { IsFrontier T.times T.cmp lower.now }
        requires interval { IsTrue (is_interval_of T.times lower.now upper.now
            (passed_updates T.times upper.now self.old.updates)) }
        ensures described { IfOk result (λ batch. batch.description ≡ record {
          worker = self.old.worker;
          node = self.old.node;
          lower = lower.now;
          upper = upper.now;
          since = T.times.least ∷ [];
        }) }
        ensures sealed { IfOk result (λ batch. IsSealed T.cmp batch.updates) }
        ensures between { IfOk result
            (λ batch. IsTrue (all_between T.times lower.now upper.now batch.updates)) }
        ensures totals { IfOk result (λ batch. (p : List ℤ → T → Bool)
            → total_where p batch.updates
            ≡ total_where p (passed_updates T.times upper.now self.old.updates)) }
        ensures among { IfOk result (λ batch. (p : List ℤ → T → Bool)
            → IsTrue (list_all (λ u. p u.row u.time)
            (passed_updates T.times upper.now self.old.updates))
            → IsTrue (list_all (λ u. p u.row u.time) batch.updates)) }
        ensures size { IfOk result (λ batch.
            size batch.updates ≤ size (passed_updates T.times upper.now self.old.updates)) }
        ensures rest { OnOk result (self.new
            ≡ record self.old { updates = open_updates T.times upper.now self.old.updates }) }
        ensures same { OnErr result (self.new ≡ self.old) }
        ensures refused { IfErr result (IsMemoryOrOverflow
            (HasLargeTotal T.times (passed_updates T.times upper.now self.old.updates))) }
    {
        let alloc = *self.updates.allocator();
        let front = front_of_open(alloc, self.updates.as_slice(), upper.elements())?;
        let passed = passed_copies(alloc, self.updates.as_slice(), upper.elements())?;
        let from = antichain_of(alloc, lower)?;
        let batch = Builder::of(self.worker, self.node, passed).seal(&from, upper)?;
        drop_passed(&mut self.updates, upper.elements());
        self.front = front;
        Ok(batch)
    }
}

// Moves updates to the end of a list. If it has none, and no room for them, then the lists are
// exchanged. If memory was refused, both are as they were.
fn move_behind<T: Lattice>(
    list: &mut Vec<Update<T>>,
    more: &mut Vec<Update<T>>,
) -> Result<(), Refusal>
    ensures ok { OnOk result (list.new.items ≡ list.old.items ++ more.old.items) }
    ensures moved { OnOk result (more.new.items ≡ []) }
    ensures same { OnErr result (list.new.items ≡ list.old.items) }
    ensures left { OnErr result (more.new.items ≡ more.old.items) }
    ensures only { OnlyMemory result }
{
    if list.is_empty() && list.capacity() < more.len() {
        mem::swap(list, more);
        return Ok(());
    }
    list.append(more)?;
    Ok(())
}

// Copies of the updates that the frontier has passed.
fn passed_copies<T: Lattice>(
    alloc: Global,
    updates: &[Update<T>],
    upper: &[T],
) -> Result<Vec<Update<T>>, Refusal>
    ensures copied { IfOk result
        (λ out. out.items ≡ passed_updates T.times upper.now updates.now) }
    ensures only { OnlyMemory result }
{
    let mut out = Vec::new(alloc);
    for update in updates {
        if !is_beyond(upper, &update.time) {
            out.push(update.copy())?;
        }
    }
    Ok(out)
}

// Drops the updates that the frontier has passed. Takes no memory.
fn drop_passed<T: Lattice>(updates: &mut Vec<Update<T>>, upper: &[T])
    ensures { updates.new.items ≡ open_updates T.times upper.now updates.old.items }
{
    updates.retain(|update| is_beyond(upper, &update.time));
    give_room_back(updates);
}

// A long list of which at most a quarter is left gives memory back. It would keep that as long as
// the arrangement lives.
fn give_room_back<T: Lattice>(updates: &mut Vec<Update<T>>)
    ensures { updates.new.items ≡ updates.old.items }
{
    let room = updates.capacity();
    if room > MAX_KEPT && updates.len() <= room / 4 {
        updates.shrink_to_fit();
    }
}

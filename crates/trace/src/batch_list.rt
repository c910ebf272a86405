//! The plainest trace: a list of batches that grows at its end. By itself it merges nothing and
//! moves no time, so it stands for exactly the batches that were inserted, and its since is the
//! frontier at which it begins. It shows that the promises of [`Trace`] can be kept, and it is what
//! a trace that merges and compacts has to agree with. Such a trace keeps its batches in a batch
//! list, makes one batch of two neighbours elsewhere, and puts it here in the place of both.
//!
//! The invariant: each batch begins at the frontier at which the one before it ends. Frontiers only
//! move forward, so two batches that end at one boundary have only empty intervals between them,
//! and a batch with an empty interval has no updates. So a boundary determines what is stored up to
//! it.
ghost use Rattle.std.specs.Prelude.{◌≡◌, ◌↔◌, ◌⊎◌, ◌≤◌, ◌<◌, ◌∷◌, ◌++◌, suc, [], Some, None, IfErr, IfOk, IfSome, IsErrAnd, OnErr, OnOk, IsTrue, true, length, set, take, drop};
ghost use Rattle.std.specs.Bool.{OnTrue};
ghost use Rattle.std.specs.List.{Contains};
ghost use Rattle.update.specs.Refusals.{OnlyMemory};
ghost use Rattle.antichain.specs.Antichains.{IsFrontier};
ghost use Rattle.lattice.specs.Frontiers.{all_beyond};
ghost use Rattle.update.specs.declared.refusal.Refusal.{Refusal};
ghost use Rattle.trace.specs.BatchLists.{BatchListState, Continues, IsLink, IsBatchList, IsMergeAt, IsRewriteAt, end_of, ends_of, insertion_of, insertions_of, merged_at};

use crate::Trace;
use crate::boundaries::{are_same, end_in, number_in};
use crate::neighbours::put_merged;
use batch::{Batch, BatchReader, Description};
use lattice::{Lattice, Minimum};
use std::alloc::Global;
use std::marker::Model;
use update::Refusal;

/// A trace that keeps each batch as it was inserted, until it is given one for two. A contract sees
/// the worker, the node, the frontier at which the list begins, the batches, and whether there is
/// memory for one more.
///
/// Cost: a boundary is found by comparing it with the end of each batch, until one ends there.
#[derive(Drop)]
pub struct BatchList<T: Lattice> {
    worker: usize,
    node: usize,
    start: Vec<T>,
    batches: Vec<Batch<T>>,
}

impl<T: Lattice> Model for BatchList<T> {
    ghost use Rattle.std.specs.Prelude.{nat_lt, vec_len, vec_capacity};
    ghost use Rattle.trace.specs.BatchLists.{BatchListState, IsBatchList};

    ghost Value = { BatchListState T };

    ghost view = { λ s. record {
      worker = s.worker;
      node = s.node;
      start = s.start.items;
      batches = s.batches.items;
      reserved = nat_lt (vec_len s.batches) (vec_capacity s.batches);
    } };

    ghost invariant = { λ s. IsBatchList T.times T.cmp (record {
      worker = s.worker;
      node = s.node;
      start = s.start.items;
      batches = s.batches.items;
      reserved = nat_lt (vec_len s.batches) (vec_capacity s.batches);
    }) };
}

/// A batch that was not inserted, and why.
#[derive(Drop)]
pub struct Unplaced<T: Lattice> {
    /// The batch, as it was handed in.
    pub batch: Batch<T>,
    /// Why it was not inserted.
    pub refusal: Refusal,
}

impl<T: Minimum> BatchList<T> {
    /// An empty batch list, which begins at the least time. [`Refusal::OutOfMemory`] only if memory
    /// for one time was refused.
    pub fn new(alloc: Global, worker: usize, node: usize) -> Result<BatchList<T>, Refusal>
        ensures made { IfOk result (λ made. made ≡ record {
          worker = worker;
          node = node;
          start = T.times.least ∷ [];
          batches = [];
          reserved = made.reserved;
        }) }
        ensures stands { IfOk result (λ made. insertions_of made.batches ≡ []) }
        ensures only { OnlyMemory result }
    {
        let mut start = Vec::new(alloc);
        start.push(T::minimum())?;
        Ok(BatchList {
            worker,
            node,
            start,
            batches: Vec::new(alloc),
        })
    }
}

impl<T: Lattice> BatchList<T> {
    /// Makes room for one more batch, so that the next [`insert`](BatchList::insert) takes no
    /// memory. If memory was refused, then nothing has changed.
    pub fn reserve(&mut self) -> Result<(), Refusal>
        ensures room { OnOk result (self.new ≡ record self.old { reserved = true }) }
        ensures same { OnErr result (self.new ≡ self.old) }
        ensures only { OnlyMemory result }
    {
        self.batches.reserve(1)?;
        Ok(())
    }

    /// Inserts a batch at the end. The batch comes back if it is refused, and the list stays as it
    /// was.
    ///
    /// - [`Refusal::Stray`] if and only if the batch does not begin at the frontier that the list
    ///   has reached, or its worker or node is another.
    /// - Otherwise [`Refusal::OutOfMemory`] only if memory for one more batch was refused, which
    ///   cannot be after [`reserve`](BatchList::reserve).
    ///
    /// Cost: two comparisons of frontiers; the batch is moved, and no update is copied.
    pub fn insert(&mut self, batch: Batch<T>) -> Result<(), Unplaced<T>>
        ensures ok { OnOk result (self.new ≡ record self.old {
          batches = self.old.batches ++ batch ∷ [];
          reserved = self.new.reserved;
        }) }
        ensures stands { OnOk result (insertions_of self.new.batches
            ≡ insertion_of batch ∷ insertions_of self.old.batches) }
        ensures known { OnOk result (IsBatchList T.times T.cmp self.new) }
        ensures same { OnErr result
            (self.new ≡ record self.old { reserved = self.new.reserved }) }
        ensures returned { IfErr result (λ unplaced. unplaced.batch ≡ batch) }
        ensures stray { IsErrAnd result (λ unplaced. unplaced.refusal ≡ Refusal.Stray)
            ↔ (Continues self.old.worker self.old.node (end_of self.old.start self.old.batches)
            batch → ⊥) }
        ensures room { IsTrue self.old.reserved
            → IfErr result (λ unplaced. unplaced.refusal ≡ Refusal.Stray) }
        ensures only { IfErr result (λ unplaced. (unplaced.refusal ≡ Refusal.OutOfMemory)
            ⊎ (unplaced.refusal ≡ Refusal.Stray)) }
    {
        if !continues(self.worker, self.node, self.reached(), &batch) {
            return Err(Unplaced {
                batch,
                refusal: Refusal::Stray,
            });
        }
        if let Err(failed) = self.batches.push(batch) {
            return Err(Unplaced {
                batch: failed.value,
                refusal: Refusal::OutOfMemory,
            });
        }
        Ok(())
    }

    /// Puts a batch in the place of the one with this number and the next one, of which it is the
    /// merge. Takes no memory.
    ///
    /// Cost: one step for each batch behind them.
    pub fn put_pair(&mut self, i: usize, merged: Batch<T>)
        requires within { suc i < length self.old.batches }
        requires merged { IsMergeAt T.times merged.description.since merged i self.old.batches }
        ensures { self.new ≡ record self.old {
          batches = merged_at i merged self.old.batches;
          reserved = true;
        } }
    {
        put_merged(&mut self.batches, i, merged);
    }

    /// Puts a batch in the place of the one with this number, of which it is the rewriting as of
    /// another frontier. Takes no memory.
    pub fn put_one(&mut self, i: usize, rewritten: Batch<T>)
        requires within { i < length self.old.batches }
        requires rewritten { IsRewriteAt T.times rewritten.description.since
            rewritten i self.old.batches }
        ensures { self.new ≡ record self.old { batches = set self.old.batches i rewritten } }
    {
        self.batches[i] = rewritten;
    }

    /// The batches in order, each of which continues those before it. Takes no memory.
    pub fn batches(&self) -> &[Batch<T>]
        ensures value { result.now ≡ self.now.batches }
        ensures known { IsBatchList T.times T.cmp self.now }
    {
        self.batches.as_slice()
    }

    // The frontier at which the last batch ends.
    fn reached(&self) -> &[T]
        ensures value { result.now ≡ end_of self.now.start self.now.batches }
        ensures frontier { IsFrontier T.times T.cmp result.now }
    {
        end_in(self.start.as_slice(), self.batches.as_slice())
    }

    // The number of batches up to a boundary; none are up to the frontier at which the list begins.
    fn number_to(&self, upto: &[T]) -> Option<usize>
        ensures known { IsBatchList T.times T.cmp self.now }
        ensures start { upto.now ≡ self.now.start → result ≡ Some 0 }
        ensures within { IfSome result (λ n. n ≤ length self.now.batches) }
        ensures place { IfSome result
            (λ n. end_of self.now.start (take n self.now.batches) ≡ upto.now) }
        ensures none { result ≡ None → Contains (ends_of self.now) upto.now → ⊥ }
    {
        if are_same(upto, self.start.as_slice()) {
            return Some(0);
        }
        number_in(self.batches.as_slice(), upto)
    }

    // The first batches, as many as the number says.
    fn first(&self, number: usize) -> &[Batch<T>]
        requires { number ≤ length self.now.batches }
        ensures { result.now ≡ take number self.now.batches }
    {
        &self.batches[..number]
    }

    // The batches after the first ones, of which there are as many as the number says.
    fn rest(&self, number: usize) -> &[Batch<T>]
        requires { number ≤ length self.now.batches }
        ensures { result.now ≡ drop number self.now.batches }
    {
        &self.batches[number..]
    }
}

// Whether the batch continues a batch list of this worker and node that has reached a frontier.
fn continues<T: Lattice>(worker: usize, node: usize, reached: &[T], batch: &Batch<T>) -> bool
    ensures value { IsTrue result ↔ Continues worker node reached.now batch.now }
    ensures link { OnTrue result (IsLink T.times T.cmp worker node reached.now batch.now) }
{
    let description = batch.description();
    description.worker() == worker && description.node() == node && begins_at(description, reached)
}

// Whether an interval begins at a frontier. Its upper frontier is beyond that one then.
fn begins_at<T: Lattice>(description: &Description<T>, reached: &[T]) -> bool
    ensures value { IsTrue result ↔ (description.now.lower ≡ reached.now) }
    ensures frontier { IsFrontier T.times T.cmp description.now.upper }
    ensures forward { IsTrue (all_beyond T.times description.now.lower description.now.upper) }
{
    let _end = description.upper();
    are_same(description.lower(), reached)
}

impl<T: Lattice> Trace for BatchList<T> {
    ghost use Rattle.std.specs.Prelude.{◌≡◌};
    ghost use Rattle.std.specs.Cmp.Lexicographic.{pointwise};
    ghost use Rattle.trace.specs.Readings.{all_content};
    ghost use Rattle.trace.specs.BatchLists.{end_of, ends_of, updates_of, insertions_of, batches_to};

    type Time = T;

    type Batch = Batch<T>;

    ghost stands = { λ s h. h ≡ insertions_of s.batches };

    ghost start = { λ s. s.start };

    ghost last = { λ s. end_of s.start s.batches };

    ghost ends = { λ s. ends_of s };

    ghost held = { λ s. s.start };

    ghost content = { λ s. all_content updates_of s.batches };

    ghost stored_to = { λ s u.
        all_content updates_of (batches_to (λ v. pointwise T.eq v u) s.start s.batches) };

    fn upper(&self) -> &[T] {
        self.reached()
    }

    fn since(&self) -> &[T] {
        self.start.as_slice()
    }

    fn through(&self, upto: &[T]) -> Option<&[Batch<T>]> {
        match self.number_to(upto) {
            Some(number) => Some(self.first(number)),
            None => None,
        }
    }

    fn after(&self, from: &[T]) -> Option<&[Batch<T>]> {
        match self.number_to(from) {
            Some(number) => Some(self.rest(number)),
            None => None,
        }
    }
}

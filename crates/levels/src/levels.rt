//! The batch list and the stack of merges that are under way in it. Only the newest goes on. When
//! it is whole, it changes no batch before its place, and all others have their places before it.
//!
//! The invariant: each merge is of the batches at its place, and no place begins before the end of
//! the one before it. Batches come in behind all places, so an insertion keeps it; and nothing but
//! the newest merge ever changes the list before its end.
ghost use Rattle.std.specs.Prelude.{◌≡◌, ◌≢◌, ◌↔◌, ◌⊎◌, ◌<◌, ◌≤◌, ◌+◌, ◌++◌, ◌∷◌, suc, List, [], None, IfErr, IfOk, IfSome, IsErrAnd, OnErr, OnOk, IsTrue, true, false, length};
ghost use Rattle.antichain.specs.Antichains.{IsFrontier};
ghost use Rattle.update.specs.Refusals.{OnlyMemory, IsMemoryOrOverflow};
ghost use Rattle.update.specs.declared.refusal.Refusal.{Refusal};
ghost use Rattle.trace.specs.BatchLists.{Continues, IsBatchList, end_of, insertion_of, insertions_of};
ghost use Rattle.levels.specs.Levels.{UnderwayState, AreUnderway, IsBegun, IsWithoutNewest, HasGoneOn, IsPut, HasLargeNewest, end_of_places, width_of};

use crate::Place;
use crate::underway::Underway;
use batch::Batch;
use lattice::Lattice;
use std::alloc::Global;
use std::marker::Model;
use trace::{BatchList, Unplaced};
use update::Refusal;

/// A batch list in which merges are under way. A contract sees the list, and the merges, oldest
/// first.
///
/// Cost: memory for the updates of all batches that are being merged, besides the list.
#[derive(Drop)]
pub struct Levels<T: Lattice> {
    list: BatchList<T>,
    underway: Vec<Underway<T>>,
}

/// What a call of [`go_on`](Levels::go_on) came to.
#[derive(Clone, Copy)]
pub struct Step {
    /// How many updates were copied.
    pub copies: u64,
    /// What is left of the fuel.
    pub left: u64,
}

impl<T: Lattice> Model for Levels<T> {
    ghost use Rattle.levels.specs.Levels.{LevelsState, AreUnderway};

    ghost Value = { LevelsState T };

    ghost view = { λ s. record { list = s.list; underway = s.underway.items } };

    ghost invariant = { λ s.
        AreUnderway T.times T.cmp s.list.batches s.underway.items };
}

impl<T: Lattice> Levels<T> {
    /// The list, with nothing under way. Takes no memory.
    pub fn of(alloc: Global, list: BatchList<T>) -> Levels<T>
        ensures { result ≡ record { list = list; underway = [] } }
    {
        Levels {
            list,
            underway: Vec::new(alloc),
        }
    }

    /// The batch list, which readers see. Takes no memory.
    pub fn list(&self) -> &BatchList<T>
        ensures { result.now ≡ self.now.list }
    {
        &self.list
    }

    /// The batches in order, each of which continues those before it. Takes no memory.
    pub fn batches(&self) -> &[Batch<T>]
        ensures value { result.now ≡ self.now.list.batches }
        ensures known { IsBatchList T.times T.cmp self.now.list }
    {
        self.list.batches()
    }

    /// Tells the prover that each merge is at its place, and that no place begins before the end of
    /// the one before it. Costs nothing.
    pub fn known(&self)
        ensures { AreUnderway T.times T.cmp
            self.now.list.batches self.now.underway }
    {
        // (a function knows the invariant if it uses a field)
        let _list = &self.list;
    }

    /// Makes room for one more batch, so that the next [`insert`](Levels::insert) takes no memory.
    /// If memory was refused, then nothing has changed.
    pub fn reserve(&mut self) -> Result<(), Refusal>
        ensures room { OnOk result
            (self.new ≡ record self.old { list = record self.old.list { reserved = true } }) }
        ensures same { OnErr result (self.new ≡ self.old) }
        ensures only { OnlyMemory result }
    {
        self.list.reserve()
    }

    /// Inserts a batch at the end. What is under way goes on. The batch comes back if it is
    /// refused, and the list stays as it was.
    ///
    /// - [`Refusal::Stray`] if and only if the batch does not begin at the frontier that the list
    ///   has reached, or its worker or node is another.
    /// - Otherwise [`Refusal::OutOfMemory`] only if memory for one more batch was refused, which
    ///   cannot be after [`reserve`](Levels::reserve).
    ///
    /// Cost: two comparisons of frontiers; the batch is moved, and no update is copied.
    pub fn insert(&mut self, batch: Batch<T>) -> Result<(), Unplaced<T>>
        ensures ok { OnOk result (self.new ≡ record self.old {
          list = record self.old.list {
            batches = self.old.list.batches ++ batch ∷ [];
            reserved = self.new.list.reserved;
          };
        }) }
        ensures stands { OnOk result (insertions_of self.new.list.batches
            ≡ insertion_of batch ∷ insertions_of self.old.list.batches) }
        ensures known { OnOk result (IsBatchList T.times T.cmp self.new.list) }
        ensures same { OnErr result (self.new ≡ record self.old {
          list = record self.old.list { reserved = self.new.list.reserved };
        }) }
        ensures returned { IfErr result (λ unplaced. unplaced.batch ≡ batch) }
        ensures stray { IsErrAnd result (λ unplaced. unplaced.refusal ≡ Refusal.Stray)
            ↔ (Continues self.old.list.worker self.old.list.node
            (end_of self.old.list.start self.old.list.batches) batch → ⊥) }
        ensures room { IsTrue self.old.list.reserved
            → IfErr result (λ unplaced. unplaced.refusal ≡ Refusal.Stray) }
        ensures only { IfErr result (λ unplaced. (unplaced.refusal ≡ Refusal.OutOfMemory)
            ⊎ (unplaced.refusal ≡ Refusal.Stray)) }
    {
        self.list.insert(batch)?;
        Ok(())
    }

    /// Which batches the newest merge reads. The next merge may be begun behind these. Takes no
    /// memory.
    pub fn newest(&self) -> Option<Place>
        ensures none { (result ≡ None) ↔ (self.now.underway ≡ []) }
        ensures newest { IfSome result (λ place. (older : List (UnderwayState T))
            × (u : UnderwayState T) × (self.now.underway ≡ older ++ u ∷ [])
            × (place.number ≡ u.number) × (place.is_alone ≡ u.alone)) }
        ensures end { IfSome result (λ place. end_of_places 0 self.now.underway
            ≡ place.number + width_of place.is_alone) }
        ensures within { IfSome result (λ place.
            place.number + width_of place.is_alone ≤ length self.now.list.batches) }
    {
        match self.underway.last() {
            Some(newest) => Some(newest.place()),
            None => None,
        }
    }

    /// The number of the first batch behind the places of all merges that are under way. The next
    /// merge may be begun from there on. Takes no memory.
    pub fn end(&self) -> usize
        ensures end { result ≡ end_of_places 0 self.now.underway }
        ensures within { result ≤ length self.now.list.batches }
    {
        // (no place ends behind the batches, and their number is one)
        let _many = self.batches().len();
        match self.newest() {
            Some(place) => place.number + place.width(),
            None => 0,
        }
    }

    /// Begins to merge the batch with this number and the next one, behind all that is under way.
    /// Nothing is read yet. If it is refused, then nothing has changed.
    ///
    /// [`Refusal::OutOfMemory`] only if memory for the updates of both batches, for the frontiers,
    /// or for one more merge was refused.
    pub fn begin_two(&mut self, i: usize, since: &[T]) -> Result<(), Refusal>
        requires within { suc i < length self.old.list.batches }
        requires behind { end_of_places 0 self.old.underway ≤ i }
        requires frontier { IsFrontier T.times T.cmp since.now }
        ensures begun { OnOk result ((u : UnderwayState T)
            × (self.new ≡ record self.old { underway = self.old.underway ++ u ∷ [] })
            × IsBegun i false since.now u) }
        ensures same { OnErr result (self.new ≡ self.old) }
        ensures only { OnlyMemory result }
    {
        self.underway.reserve(1)?;
        let begun = Underway::of_two(self.list.batches(), i, since)?;
        self.underway.push(begun)?;
        Ok(())
    }

    /// Begins to rewrite the batch with this number, behind all that is under way. Nothing is read
    /// yet. If it is refused, then nothing has changed.
    ///
    /// [`Refusal::OutOfMemory`] only if memory for the updates of the batch, for the frontiers, or
    /// for one more merge was refused.
    pub fn begin_one(&mut self, i: usize, since: &[T]) -> Result<(), Refusal>
        requires within { i < length self.old.list.batches }
        requires behind { end_of_places 0 self.old.underway ≤ i }
        requires frontier { IsFrontier T.times T.cmp since.now }
        ensures begun { OnOk result ((u : UnderwayState T)
            × (self.new ≡ record self.old { underway = self.old.underway ++ u ∷ [] })
            × IsBegun i true since.now u) }
        ensures same { OnErr result (self.new ≡ self.old) }
        ensures only { OnlyMemory result }
    {
        self.underway.reserve(1)?;
        let begun = Underway::of_one(self.list.batches(), i, since)?;
        self.underway.push(begun)?;
        Ok(())
    }

    /// Gives the newest merge up. What it has written is gone, and the list stays as it is. Takes
    /// no memory.
    pub fn give_up(&mut self)
        requires { self.old.underway ≢ [] }
        ensures { IsWithoutNewest self.old self.new }
    {
        let _given_up = self.underway.pop();
    }

    /// Goes on with the newest merge, by as many updates as the fuel says, and answers how many
    /// were copied and what is left of the fuel. Each update that is copied costs one unit. If
    /// there is fuel left when all is read, then the new batch takes the place of those that were
    /// read, for one unit more. If it is refused, then the merge is given up, and the list stays
    /// as it was.
    ///
    /// - [`Refusal::Overflow`] only if the total of some row at some moved time over what the merge
    ///   reads is no 64-bit number.
    /// - [`Refusal::OutOfMemory`] only if memory for the updates of one row was refused.
    ///
    /// Cost: that of [`Merging::step`](batch::Merging::step); when the merge is whole, that of
    /// [`Merging::finish`](batch::Merging::finish) and one step for each batch behind it.
    pub fn go_on(&mut self, fuel: u64) -> Result<Step, Refusal>
        requires one { self.old.underway ≢ [] }
        requires some { 0 < fuel }
        ensures on { IfOk result
            (λ step. ((step.left ≡ 0) × (step.copies ≡ fuel) × HasGoneOn fuel self.old self.new)
            ⊎ ((step.left + suc step.copies ≡ fuel)
            × IsPut T.times fuel step.left self.old self.new)) }
        ensures gone { OnErr result (IsWithoutNewest self.old self.new) }
        ensures refused { IfErr result
            (IsMemoryOrOverflow (HasLargeNewest T.times self.old)) }
    {
        let newest = self.underway.pop().unwrap();
        let (newest, left) = newest.step(self.list.batches(), fuel)?;
        if left == 0 {
            self.underway.push(newest)?;
            return Ok(Step { copies: fuel, left });
        }
        newest.put(&mut self.list)?;
        Ok(Step {
            copies: fuel - left,
            left: left - 1,
        })
    }
}

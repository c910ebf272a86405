//! The histories of all keys, in order of arrival. A key is found by one look-up of its hash, so a
//! search does not get slower as keys are added.
//!
//! A set holds the keys, and a list holds the histories. The invariant: key `i` of the set is the
//! key of history `i`, and no key occurs twice. No history is ever removed. So the index of a
//! history never changes, and other tables can refer to a history by its index.
//!
//! A history is changed at its index, and keeps its key. Only [`Histories::reserve`],
//! [`Histories::give`] and [`Histories::compact`] take memory. A caller that pushes histories
//! reserves room first, and then no later step can be refused. What was given can be taken back.
ghost use Rattle.std.specs.Prelude.{◌≡◌, ◌≤◌, ◌<◌, ◌+◌, ◌++◌, ◌∷◌, [], None, Some, false, IfErr, IfSome, IsSomeAnd, OnErr, OnOk, length, set, slice_get, slice_range};
ghost use Rattle.std.specs.List.{list_any};
ghost use Rattle.update.specs.Bags.{same_row};
ghost use Rattle.update.specs.declared.refusal.Refusal.{Refusal};
ghost use Rattle.lattice.specs.Representatives.{representative_of};
ghost use Rattle.update.specs.Refusals.{OnlyMemory, IsMemoryOrOverflow};
ghost use Rattle.update.specs.Updates.{HasLargeTotal};
ghost use Rattle.key_history.specs.Compaction.{IsCompacted, IsFolded, retimed};
ghost use Rattle.reduce.specs.Compacted.{AreCompacted, AreFolded, HasLargeGiven};
ghost use Rattle.reduce.specs.Histories.{HistoryState, AreKeysApart, changed_at, given_more, given_less, due_left, times_put};

use columns::Columns;
use indexmap::IndexSet;
use key_history::KeyHistory;
use lattice::Lattice;
use row::Row;
use std::alloc::Global;
use std::marker::Model;
use std::ops::Range;
use update::Refusal;

/// The histories of all keys, each key once. A contract sees the histories in order of arrival, and
/// how many more there is room for.
#[derive(Drop)]
pub(crate) struct Histories<T: Lattice> {
    // The key of each history, at the same index.
    keys: IndexSet<Row>,
    histories: Vec<KeyHistory<T>>,
}

impl<T: Lattice> Model for Histories<T> {
    ghost use Rattle.std.specs.Prelude.{◌≡◌, ◌-◌, map, min, vec_capacity, vec_len};
    ghost use Rattle.indexmap.specs.IndexSet.{spare};
    ghost use Rattle.reduce.specs.Histories.{HistoriesState, AreKeysApart};

    ghost Value = { HistoriesState T };

    ghost view = { λ s. record {
      items = s.histories.items;
      spare = min (spare s.keys) (vec_capacity s.histories - vec_len s.histories);
    } };

    ghost invariant = { λ s. (s.keys.keys ≡ map (λ h. h.key) s.histories.items)
        × AreKeysApart s.histories.items };
}

impl<T: Lattice> Histories<T> {
    /// No histories. Takes no memory.
    pub(crate) fn new(alloc: Global) -> Histories<T>
        ensures { result.items ≡ [] }
    {
        Histories {
            keys: IndexSet::new(alloc),
            histories: Vec::new(alloc),
        }
    }

    /// The number of histories. Takes no memory.
    pub(crate) fn len(&self) -> usize
        ensures len { result ≡ length self.now.items }
        ensures known { AreKeysApart self.now.items }
    {
        self.histories.len()
    }

    /// Tells the prover that no key occurs twice. Costs nothing.
    pub(crate) fn known(&self)
        ensures { AreKeysApart self.now.items }
    {
        let _ = &self.keys;
    }

    /// The index of the history of a key, if the key has one. Takes no memory.
    ///
    /// Cost: one look-up of a hash.
    pub(crate) fn find(&self, key: &Row) -> Option<usize>
        ensures within { IfSome result (λ i. i < length self.now.items) }
        ensures found { IfSome result
            (λ i. IsSomeAnd (slice_get self.now.items i) (λ h. h.key ≡ key.now)) }
        ensures absent { result ≡ None
            → list_any (λ h. same_row key.now h.key) self.now.items ≡ false }
    {
        self.keys.get_index_of(key)
    }

    /// The history at an index. Takes no memory.
    pub(crate) fn get(&self, i: usize) -> &KeyHistory<T>
        requires { i < length self.now.items }
        ensures { IsSomeAnd (slice_get self.now.items i) (λ h. result.now ≡ h) }
    {
        &self.histories[i]
    }

    /// Makes room for `more` histories, so that as many calls of [`push`](Histories::push) take no
    /// memory. A call that is refused changes no history, and no room is lost.
    ///
    /// [`Refusal::OutOfMemory`] only if memory for the keys or the histories was refused.
    pub(crate) fn reserve(&mut self, more: usize) -> Result<(), Refusal>
        ensures items { self.new.items ≡ self.old.items }
        ensures room { OnOk result (more ≤ self.new.spare) }
        ensures kept { self.old.spare ≤ self.new.spare }
        ensures only { OnlyMemory result }
    {
        self.keys.reserve(more)?;
        self.histories.reserve(more)?;
        Ok(())
    }

    /// Appends the history of a new key. There must be room for it. Takes no memory.
    ///
    /// Cost: one look-up of a hash.
    pub(crate) fn push(&mut self, history: KeyHistory<T>)
        requires room { 1 ≤ self.old.spare }
        requires new { list_any (λ h. same_row history.key h.key) self.old.items ≡ false }
        ensures items { self.new.items ≡ self.old.items ++ history ∷ [] }
        ensures room { self.old.spare ≤ self.new.spare + 1 }
    {
        self.keys.insert(history.key().copy()).unwrap();
        self.histories.push(history).unwrap();
    }

    /// Puts other joined times of the key at an index in place, and the pending ones among them.
    /// What was given of the key stays. Takes no memory.
    pub(crate) fn put_times(&mut self, i: usize, times: Vec<T>, due: Vec<T>)
        requires { i < length self.old.items }
        ensures items { self.new.items
            ≡ changed_at i (times_put times.items due.items) self.old.items }
        ensures room { self.new.spare ≡ self.old.spare }
    {
        let history = &mut self.histories[i];
        history.put_times(times, due);
    }

    /// Folds what was given of the key at an index, as the times at or after `since` see it.
    /// Nothing that a contract sees is changed.
    ///
    /// Cost: that of [`KeyHistory::fold`].
    pub(crate) fn fold(&mut self, alloc: Global, i: usize, since: T)
        requires { i < length self.old.items }
        ensures items { self.new.items ≡ self.old.items }
    {
        let history = &mut self.histories[i];
        history.fold(alloc, since);
    }

    /// Moves what is kept of the key at an index as of a since: its joined times and what was
    /// given. Its pending times stay. Refused as [`KeyHistory::compact`] is.
    ///
    /// Cost: that of [`KeyHistory::compact`].
    pub(crate) fn compact(&mut self, alloc: Global, i: usize, since: &[T]) -> Result<(), Refusal>
        requires { i < length self.old.items }
        ensures { (old new : HistoryState T) × (slice_get self.old.items i ≡ Some old)
            × (self.new.items ≡ set self.old.items i new)
            × IsCompacted T.times T.cmp since.now old new
            × OnOk result (IsFolded T.times since.now T.cmp new)
            × IfErr result (IsMemoryOrOverflow (HasLargeTotal T.times
            (retimed (representative_of T.times since.now) old.given))) }
    {
        let history = &mut self.histories[i];
        history.compact(alloc, since)
    }

    /// Appends copies of a part of some updates to what was given of the key at an index. If the
    /// call is refused, then no history has changed.
    ///
    /// [`Refusal::OutOfMemory`] only if memory for the copies was refused.
    ///
    /// Cost: that of [`KeyHistory::give`].
    pub(crate) fn give(
        &mut self,
        i: usize,
        out: &Columns<T>,
        part: Range<usize>,
    ) -> Result<(), Refusal>
        requires there { i < length self.old.items }
        requires ordered { part.start ≤ part.end }
        requires within { part.end ≤ length out.now }
        ensures items { OnOk result (self.new.items ≡ changed_at i
            (given_more (slice_range out.now part.start part.end)) self.old.items) }
        ensures same { OnErr result (self.new.items ≡ self.old.items) }
        ensures only { OnlyMemory result }
    {
        let history = &mut self.histories[i];
        history.give(out, part)?;
        Ok(())
    }

    /// Takes back the last `many` updates that were given of the key at an index. Takes no memory.
    pub(crate) fn take_back(&mut self, i: usize, many: usize)
        requires { i < length self.old.items }
        ensures { self.new.items ≡ changed_at i (given_less many) self.old.items }
    {
        let history = &mut self.histories[i];
        history.take_back(many);
    }

    /// Leaves these times of the key at an index pending. Takes no memory.
    pub(crate) fn leave(&mut self, i: usize, due: Vec<T>)
        requires { i < length self.old.items }
        ensures { self.new.items ≡ changed_at i (due_left due.items) self.old.items }
    {
        let history = &mut self.histories[i];
        history.leave(due);
    }
}

/// Moves what is kept of all keys as of a since, until one is refused.
///
/// Cost: that of [`KeyHistory::compact`] for each key.
pub(crate) fn compact_all<T: Lattice>(
    alloc: Global,
    histories: &mut Histories<T>,
    since: &[T],
) -> Result<(), Refusal>
    ensures items { AreCompacted T.times T.cmp since.now
        histories.old.items histories.new.items }
    ensures folded { OnOk result
        (AreFolded T.times since.now T.cmp histories.new.items) }
    ensures refused { IfErr result (IsMemoryOrOverflow
        (HasLargeGiven T.times since.now histories.old.items)) }
{
    for i in 0..histories.len() {
        histories.compact(alloc, i, since)?;
    }
    Ok(())
}

//! The state of a join: its key, and for each of its sides the boundary up to which that side was
//! acknowledged. A side is acknowledged batch by batch. Each new batch is paired with what the
//! other side has acknowledged by then, and with nothing besides. So of two batches, one on each
//! side, the second one that is taken is paired with the first one, and the first one is not paired
//! with the second. Each pair is formed once, whichever side moves first.
//!
//! The sides have a boundary each also where both read one trace, as in the join of a table with
//! itself. With one boundary for both, a batch would be paired with itself twice, or not at all.
ghost use Rattle.std.specs.Prelude.{◌≡◌, ◌≤◌, ◌+◌, ◌-◌, ◌^◌, length, min, IfOk, IfErr, OnOk, OnErr};
ghost use Rattle.std.specs.List.{Contains};
ghost use Rattle.antichain.specs.Antichains.{IsFrontier};
ghost use Rattle.update.specs.declared.change.Update.{Update};
ghost use Rattle.join.specs.Sides.{Acknowledged, WereInserted, acknowledged_to};
ghost use Rattle.join.specs.Takes.{side_pairs, CanTake, IsTakeAnswer, IsTakeRefusal};
ghost use Rattle.join.specs.declared.side.Side.TheVariants.{Left, Right};

use crate::formed::form_pairs;
use crate::side::Side;
use batch::BatchReader;
use lattice::Lattice;
use std::alloc::Global;
use std::marker::{Model, PhantomData};
use trace::Trace;
use update::{Refusal, Update};

/// A join of a trace `L` on the left with a trace `R` on the right by the first columns of their
/// rows, at times `T`. A contract sees the number of these columns, the boundary up to which each
/// side was acknowledged, and how many updates were read.
#[derive(Drop)]
pub struct JoinState<T: Lattice, L, R> {
    key: usize,
    left: Vec<T>,
    right: Vec<T>,
    looked: u64,
    of: PhantomData<(L, R)>,
}

impl<T: Lattice, L, R> Model for JoinState<T, L, R> {
    ghost use Rattle.std.specs.Prelude.{◌≤◌};
    ghost use Rattle.antichain.specs.Antichains.{IsFrontier};
    ghost use Rattle.join.specs.Sides.{Acknowledged};

    ghost Value = { Acknowledged T };

    ghost view = { λ s. record {
      key = s.key;
      left = s.left.items;
      right = s.right.items;
      looked = s.looked;
    } };

    ghost invariant = { λ s. (1 ≤ s.key) × (s.key ≤ 8)
        × IsFrontier T.times T.cmp s.left.items
        × IsFrontier T.times T.cmp s.right.items };
}

// What a side has taken: its pairs, the boundary to which it has come, and how many updates of the
// other side were read.
#[derive(Drop)]
struct Taken<T> {
    updates: Vec<Update<T>>,
    upper: Vec<T>,
    looked: u64,
}

// Pairs a new batch of a side with what the other trace has up to a boundary. `looked` is how many
// updates had been read before.
fn take<T: Lattice, B: BatchReader<Time = T>, O: Trace<Time = T>>(
    alloc: Global,
    side: Side,
    key: usize,
    batch: &B,
    other: &O,
    upto: &[T],
    looked: u64,
) -> Result<Taken<T>, Refusal>
    requires readable { Contains (O.ends other.now) upto.now }
    requires takeable { CanTake side T.times key (B.content batch.now)
        (O.held other.now) (O.content other.now) }
    ensures answer { IfOk result (λ taken. IsTakeAnswer side T.times T.cmp key
        (B.content batch.now) (O.content other.now)
        (WereInserted (O.stands other.now) (O.start other.now) upto.now) taken.updates.items) }
    ensures upper { IfOk result (λ taken. taken.upper.items ≡ (B.described batch.now).upper) }
    ensures frontier { IfOk result (λ taken. IsFrontier T.times T.cmp taken.upper.items) }
    ensures looked { IfOk result (λ taken. taken.looked ≡ min (looked
        + length (side_pairs side T.times key (B.content batch.now)
        (O.stored_to other.now upto.now))) (2 ^ 64 - 1)) }
    ensures refused { IfErr result (IsTakeRefusal side T.times key
        (B.content batch.now) (O.stored_to other.now upto.now)
        (WereInserted (O.stands other.now) (O.start other.now) upto.now)) }
{
    let upper = Vec::from_slice(alloc, batch.description().upper())?;
    let others = other.through(upto).unwrap();
    let formed = form_pairs(alloc, side, key, batch, others, looked)?;
    Ok(Taken {
        updates: formed.updates,
        upper,
        looked: formed.looked,
    })
}

impl<T: Lattice, L: Trace<Time = T>, R: Trace<Time = T>> JoinState<T, L, R> {
    /// A join by the first `key` columns, 1 to 8, whose sides were acknowledged up to these
    /// boundaries: frontiers, each as its elements in `Ord` order. A join that is to read all of
    /// two traces begins where these begin. Takes no memory.
    pub fn new(key: usize, left: Vec<T>, right: Vec<T>) -> JoinState<T, L, R>
        requires some { 1 ≤ key }
        requires few { key ≤ 8 }
        requires left { IsFrontier T.times T.cmp left.items }
        requires right { IsFrontier T.times T.cmp right.items }
        ensures { result ≡ record {
          key = key;
          left = left.items;
          right = right.items;
          looked = 0;
        } }
    {
        JoinState {
            key,
            left,
            right,
            looked: 0,
            of: PhantomData,
        }
    }

    /// The number of columns of the key. Takes no memory.
    pub fn key(&self) -> usize
        ensures value { result ≡ self.now.key }
        ensures some { 1 ≤ self.now.key }
        ensures few { self.now.key ≤ 8 }
    {
        self.key
    }

    /// The boundary up to which the left side was acknowledged. The reader's hold on the left trace
    /// has to keep it. Takes no memory.
    pub fn left(&self) -> &[T]
        ensures value { result.now ≡ self.now.left }
        ensures frontier { IsFrontier T.times T.cmp self.now.left }
    {
        self.left.as_slice()
    }

    /// The boundary up to which the right side was acknowledged. The reader's hold on the right
    /// trace has to keep it. Takes no memory.
    pub fn right(&self) -> &[T]
        ensures value { result.now ≡ self.now.right }
        ensures frontier { IsFrontier T.times T.cmp self.now.right }
    {
        self.right.as_slice()
    }

    /// How many updates of the other side were read in all answered calls, each one as often as it
    /// was paired. It stays at its greatest value. Takes no memory.
    pub fn looked(&self) -> u64
        ensures { result ≡ self.now.looked }
    {
        self.looked
    }

    /// Acknowledges a new batch of the left side, and returns its pairs with all updates that the
    /// right side has acknowledged, consolidated: the left row and the rest of the right row, at
    /// the join of both times, with the product of both diffs. The right trace may have moved times
    /// together, as of its since: the pairs are those of the times that were inserted. The batch is
    /// taken as it is: if the left trace has moved its times, then its pairs are right at times
    /// beyond the left since alone. No time moves that is beyond it.
    ///
    /// The batch begins at the left boundary, and its times are beyond the since of the right
    /// trace. The right boundary is one of the right trace. Rows of the batch have at least as many
    /// columns as the key. Each row of the batch has at most 8 columns together with the rest of
    /// each right row of its key; rows of other keys do not matter. If the call is refused, then
    /// nothing has changed.
    ///
    /// - [`Refusal::Overflow`] only if the product of both diffs of one pair is no 64-bit number,
    ///   or the total of one row at one time over some of the pairs is none. The pairs are those
    ///   with what is stored up to the right boundary: if no keys meet, there are none. So it never
    ///   comes if both sizes multiplied are below 2^63. It always comes if the total of some row at
    ///   some time over all pairs is no 64-bit number.
    /// - [`Refusal::OutOfMemory`] only if memory was refused, for the boundary or for pairs.
    ///
    /// Cost: each key of the batch is sought in each batch of the right side, from where the last
    /// one was found, in the logarithm of the distance. The updates of a key that is found are
    /// copied from the side that has fewer of them. Each pair is formed, and added to the one
    /// before it if both have one row and time. Then n log n in the number of the pairs that are
    /// left: once for each key that has more than four pairs for each of its updates in the batch,
    /// and once for all pairs. No other update is read.
    ///
    /// Memory: twice the pairs, if those of each key with each batch of the right side are added
    /// up, and eight pairs for each update of the batch. Besides, the pairs of one key: twice what
    /// they add up to, or four for each of its updates in the batch, or 256.
    pub fn take_left(
        &mut self,
        alloc: Global,
        batch: &L::Batch,
        right: &R,
    ) -> Result<Vec<Update<T>>, Refusal>
        requires own { (L.Batch.described batch.now).lower ≡ self.old.left }
        requires readable { Contains (R.ends right.now) self.old.right }
        requires takeable { CanTake Left T.times self.old.key (L.Batch.content batch.now)
            (R.held right.now) (R.content right.now) }
        ensures answer { IfOk result (λ out. IsTakeAnswer Left T.times T.cmp self.old.key
            (L.Batch.content batch.now) (R.content right.now)
            (WereInserted (R.stands right.now) (R.start right.now) self.old.right) out.items) }
        ensures boundary { OnOk result (self.new ≡ acknowledged_to Left
            (L.Batch.described batch.now).upper self.new.looked self.old) }
        ensures looked { OnOk result (self.new.looked ≡ min (self.old.looked
            + length (side_pairs Left T.times self.old.key (L.Batch.content batch.now)
            (R.stored_to right.now self.old.right))) (2 ^ 64 - 1)) }
        ensures same { OnErr result (self.new ≡ self.old) }
        ensures refused { IfErr result (IsTakeRefusal Left T.times self.old.key
            (L.Batch.content batch.now) (R.stored_to right.now self.old.right)
            (WereInserted (R.stands right.now) (R.start right.now) self.old.right)) }
    {
        let upto = self.right.as_slice();
        let taken = take(alloc, Side::Left, self.key, batch, right, upto, self.looked)?;
        self.left = taken.upper;
        self.looked = taken.looked;
        Ok(taken.updates)
    }

    /// Acknowledges a new batch of the right side, and returns its pairs with all updates that the
    /// left side has acknowledged. It is [`take_left`](JoinState::take_left) with both sides
    /// exchanged: the pairs are the same ones, the left row first, and so are conditions, refusals
    /// and cost.
    pub fn take_right(
        &mut self,
        alloc: Global,
        batch: &R::Batch,
        left: &L,
    ) -> Result<Vec<Update<T>>, Refusal>
        requires own { (R.Batch.described batch.now).lower ≡ self.old.right }
        requires readable { Contains (L.ends left.now) self.old.left }
        requires takeable { CanTake Right T.times self.old.key (R.Batch.content batch.now)
            (L.held left.now) (L.content left.now) }
        ensures answer { IfOk result (λ out. IsTakeAnswer Right T.times T.cmp self.old.key
            (R.Batch.content batch.now) (L.content left.now)
            (WereInserted (L.stands left.now) (L.start left.now) self.old.left) out.items) }
        ensures boundary { OnOk result (self.new ≡ acknowledged_to Right
            (R.Batch.described batch.now).upper self.new.looked self.old) }
        ensures looked { OnOk result (self.new.looked ≡ min (self.old.looked
            + length (side_pairs Right T.times self.old.key (R.Batch.content batch.now)
            (L.stored_to left.now self.old.left))) (2 ^ 64 - 1)) }
        ensures same { OnErr result (self.new ≡ self.old) }
        ensures refused { IfErr result (IsTakeRefusal Right T.times self.old.key
            (R.Batch.content batch.now) (L.stored_to left.now self.old.left)
            (WereInserted (L.stands left.now) (L.start left.now) self.old.left)) }
    {
        let upto = self.left.as_slice();
        let taken = take(alloc, Side::Right, self.key, batch, left, upto, self.looked)?;
        self.right = taken.upper;
        self.looked = taken.looked;
        Ok(taken.updates)
    }
}

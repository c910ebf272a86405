//! What a reduction answers for a key. A reducer sees the rows of one key with their counts, at one
//! time, and knows of no times. Its meaning is a function of the key and the bag of the rows. So
//! whatever updates sum to the bag, the answer is the same. It reads rows by [`RowCounts`], of a
//! bag or of a tally, in which counts may be 0.
//!
//! A reducer that does not look at rows says so. It is then given the key in place of each row: its
//! bag has one entry at most, and a key with many different rows costs no more than a key that has
//! the same row as often.
ghost use Rattle.std.specs.Prelude.{◌≡◌, ◌≤◌, IfOk, IfErr, IsTrue, length};
ghost use Rattle.std.specs.List.{list_all};
ghost use Rattle.update.specs.Bags.{Alike, IsBag};
ghost use Rattle.update.specs.Refusals.{IsMemoryOrOverflow};
ghost use Rattle.plan.specs.Reductions.{has_key};
ghost use Rattle.reducer.specs.Refusals.{HasLargeSum};

use crate::RowCounts;
use std::alloc::Global;
use update::{Bag, Refusal};

/// A function from a key and the bag of its rows to the bag that is answered for the key.
///
/// The ghost member `reduces` says which function it is. Its laws are those of every reduction of a
/// plan: alike bags get alike answers, an empty bag gets an empty answer, and each row of an answer
/// begins with the key. A reducer whose `sees_rows` is false owes one law more, `blind`: bags of
/// one key with the same sum of counts get alike answers.
pub trait Reducer {
    ghost use Rattle.std.specs.Prelude.{◌≡◌, ℕ, ℤ, Bool, false, List};
    ghost use Rattle.update.specs.Bags.{Entry};
    ghost use Rattle.plan.specs.Reductions.{IsReducer};
    ghost use Rattle.reducer.specs.Blind.{IsBlind};

    ghost reduces: { Self → List ℤ → List Entry → List Entry };

    ghost sees_rows: { Self → Bool };

    /// The answer for a key of 1 to 8 columns from its rows, each of which begins with the key; so
    /// does each row of the answer.
    ///
    /// - [`Refusal::Overflow`] only if the sum of the counts is no 64-bit number.
    /// - [`Refusal::OutOfMemory`] only if memory for the answer was refused.
    fn reduce<C: RowCounts>(&self, alloc: Global, key: &[i64], rows: &C) -> Result<Bag, Refusal>
        requires some { 1 ≤ length key.now }
        requires few { length key.now ≤ 8 }
        requires keyed { IsTrue
            (list_all (has_key (length key.now) key.now) (C.entries rows.now)) }
        ensures value { IfOk result
            (λ bag. Alike bag (reduces self.now key.now (C.entries rows.now))) }
        ensures bag { IfOk result IsBag }
        ensures keyed { IfOk result
            (λ bag. IsTrue (list_all (has_key (length key.now) key.now) bag)) }
        ensures refused { IfErr result (IsMemoryOrOverflow (HasLargeSum (C.entries rows.now))) };

    /// Whether the answer depends on which rows of the key there are. If not, then it depends on
    /// the sum of their counts alone, and `reduce` may be given the key in place of each row. Takes
    /// no memory.
    fn sees_rows(&self) -> bool
        ensures { result ≡ sees_rows self.now };

    ghost laws: { (self : Self) (k : ℕ) → IsReducer k (reduces self) };

    ghost blind: { (self : Self) (k : ℕ) → sees_rows self ≡ false → IsBlind k (reduces self) };
}

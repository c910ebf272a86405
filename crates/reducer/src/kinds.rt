//! The four reducers are the four reductions of a plan, and a node's kind is a reducer itself: code
//! that has nodes of all kinds in one list uses that one. The function does nothing: it is called,
//! or its clauses cited, for what it promises. With the contract of [`Reducer`](crate::Reducer)
//! this is all that a layer above needs.
ghost use Rattle.std.specs.Prelude.{◌≡◌, ◌≤◌, List, ℤ, length};
ghost use Rattle.update.specs.Bags.{Entry};
ghost use Rattle.plan.specs.Reductions.{reduction_answer};
ghost use Rattle.reducer.specs.declared.count.Count.{Count};
ghost use Rattle.reducer.specs.declared.distinct.Distinct.{Distinct};
ghost use Rattle.reducer.specs.declared.extremes.Min.{Min};
ghost use Rattle.reducer.specs.declared.extremes.Max.{Max};

use crate::{Count, Distinct, Max, Min, Reducer, RowCounts};
use plan::Kind;
use std::alloc::Global;
use update::{Bag, Refusal};

/// The reduction of a plan's node, by its kind. It answers what the reducer of that kind answers,
/// and refuses when that one does. So only a count overflows.
impl Reducer for Kind {
    ghost use Rattle.std.specs.Prelude.{◌≡◌, ◌≤◌, IfOk, IfErr, IsTrue, length};
    ghost use Rattle.std.specs.List.{list_all};
    ghost use Rattle.update.specs.Bags.{Alike, IsBag};
    ghost use Rattle.update.specs.Refusals.{IsMemoryOrOverflow};
    ghost use Rattle.plan.specs.Reductions.{has_key};
    ghost use Rattle.reducer.specs.Kinds.{kind_answer, kind_sees_rows, kind_reduces, kind_is_blind};
    ghost use Rattle.reducer.specs.Refusals.{HasLargeSum};

    ghost reduces = { kind_answer };

    ghost sees_rows = { kind_sees_rows };

    fn reduce<C: RowCounts>(&self, alloc: Global, key: &[i64], rows: &C) -> Result<Bag, Refusal>
        requires some { 1 ≤ length key.now }
        requires few { length key.now ≤ 8 }
        requires keyed { IsTrue
            (list_all (has_key (length key.now) key.now) (C.entries rows.now)) }
        ensures value { IfOk result
            (λ bag. Alike bag (kind_answer self.now key.now (C.entries rows.now))) }
        ensures bag { IfOk result IsBag }
        ensures keyed { IfOk result
            (λ bag. IsTrue (list_all (has_key (length key.now) key.now) bag)) }
        ensures refused { IfErr result (IsMemoryOrOverflow
            ((self.now ≡ Kind.Count) × HasLargeSum (C.entries rows.now))) }
    {
        match self {
            Kind::Count => Count.reduce(alloc, key, rows),
            Kind::Distinct => Distinct.reduce(alloc, key, rows),
            Kind::Min => Min.reduce(alloc, key, rows),
            Kind::Max => Max.reduce(alloc, key, rows),
        }
    }

    fn sees_rows(&self) -> bool {
        match self {
            Kind::Count => Count.sees_rows(),
            Kind::Distinct => Distinct.sees_rows(),
            Kind::Min => Min.sees_rows(),
            Kind::Max => Max.sees_rows(),
        }
    }

    ghost laws = { kind_reduces };

    ghost blind = { kind_is_blind };
}

/// Each of the four reducers answers what the reduction of its kind answers. For count the key has
/// at most 7 columns, as in every plan. Costs nothing.
pub fn kinds_are_reductions()
    ensures count { (self : Count) (key : List ℤ) (entries : List Entry) → length key ≤ 7
        → ⟦<Count as Reducer>⟧.reduces self key entries ≡ reduction_answer Kind.Count key entries }
    ensures distinct { (self : Distinct) (key : List ℤ) (entries : List Entry)
        → ⟦<Distinct as Reducer>⟧.reduces self key entries
        ≡ reduction_answer Kind.Distinct key entries }
    ensures min { (self : Min) (key : List ℤ) (entries : List Entry)
        → ⟦<Min as Reducer>⟧.reduces self key entries ≡ reduction_answer Kind.Min key entries }
    ensures max { (self : Max) (key : List ℤ) (entries : List Entry)
        → ⟦<Max as Reducer>⟧.reduces self key entries ≡ reduction_answer Kind.Max key entries }
{}

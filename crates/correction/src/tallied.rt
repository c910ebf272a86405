//! What a reducer answers at a time, from a tally of what all times to come see and the other
//! updates. The ones at or before the time are added to the tally, the reducer reads it, and each
//! change is set back. So a time costs what is near it, and not a copy of the rows.
//!
//! On the way a count may be too large though the whole is not, as when 2^63 rows are added before
//! as many are removed. Then everything is set back and the entries are added up to a bag, which
//! refuses only what is too large as a whole.
ghost use Rattle.std.specs.Prelude.{◌≡◌, ◌≤◌, ◌++◌, Bool, List, [], ◌∷◌, ℤ, length, IsTrue, IfOk, IfErr, IfSome, OnOk};
ghost use Rattle.std.specs.List.{list_all};
ghost use Rattle.update.specs.Bags.{Alike, Entry, HasLargeCount, IsBag};
ghost use Rattle.update.specs.Refusals.{OnlyMemory, IsMemoryOrOverflow};
ghost use Rattle.update.specs.Updates.{as_of};
ghost use Rattle.update.specs.declared.refusal.Refusal.{Refusal};
ghost use Rattle.plan.specs.Reductions.{has_key};
ghost use Rattle.joined_times.specs.Joined.{of_key};
ghost use Rattle.reducer.specs.Refusals.{HasLargeSum};
ghost use Rattle.reducer.specs.Tallies.{undone};
ghost use Rattle.correction.specs.Corrections.{IsTooLarge};
ghost use Rattle.correction.specs.Evaluations.{IsAnswerFor};

use lattice::Lattice;
use reducer::{Reducer, Tally, Undone};
use std::alloc::Global;
use update::{Bag, Entries, Refusal, Update};

// Adds an update if it is at or before the time, and notes it. False if its row is not in the tally
// or the count does not fit.
fn add_seen<T: Lattice>(
    base: &mut Tally,
    update: &Update<T>,
    time: T,
    noted: &mut Vec<Undone>,
) -> Result<bool, Refusal>
    ensures added { IfOk result (λ added. IsTrue added
        → Alike base.new (base.old ++ as_of T.times time (update.now ∷ []))) }
    ensures undone { undone noted.new.items base.new ≡ undone noted.old.items base.old }
    ensures among { (p : List ℤ → Bool) → IsTrue (list_all (λ e. p e.row) base.old)
        → IsTrue (list_all (λ e. p e.row) base.new) }
    ensures only { OnlyMemory result }
{
    if !update.time.less_equal(&time) {
        return Ok(true);
    }
    base.add_noting(&update.row, update.diff, noted)
}

// Adds the updates at or before the time, and notes each. False if the tally has not taken all of
// them.
fn add_near<T: Lattice>(
    base: &mut Tally,
    near: &[Update<T>],
    time: T,
    noted: &mut Vec<Undone>,
) -> Result<bool, Refusal>
    ensures added { IfOk result (λ added. IsTrue added
        → Alike base.new (base.old ++ as_of T.times time near.now)) }
    ensures undone { undone noted.new.items base.new ≡ undone noted.old.items base.old }
    ensures among { (p : List ℤ → Bool) → IsTrue (list_all (λ e. p e.row) base.old)
        → IsTrue (list_all (λ e. p e.row) base.new) }
    ensures only { OnlyMemory result }
{
    for update in near {
        if !add_seen(base, update, time, noted)? {
            return Ok(false);
        }
    }
    Ok(true)
}

// The answer at the time from the tally with the near updates added, or none if it has not taken
// all of them.
fn answer_by_tally<T: Lattice, R: Reducer>(
    alloc: Global,
    reducer: &R,
    key: &[i64],
    base: &mut Tally,
    near: &[Update<T>],
    time: T,
    noted: &mut Vec<Undone>,
) -> Result<Option<Bag>, Refusal>
    requires some { 1 ≤ length key.now }
    requires few { length key.now ≤ 8 }
    requires keyed { IsTrue (list_all (has_key (length key.now) key.now) base.old) }
    ensures answer { IfOk result (λ answer. IfSome answer (IsAnswerFor
        (R.reduces reducer.now) key.now (base.old ++ as_of T.times time near.now))) }
    ensures undone { undone noted.new.items base.new ≡ undone noted.old.items base.old }
    ensures refused { IfErr result
        (IsMemoryOrOverflow (HasLargeSum (base.old ++ as_of T.times time near.now))) }
{
    if !add_near(base, near, time, noted)? {
        return Ok(None);
    }
    let answer = reducer.reduce(alloc, key, base)?;
    Ok(Some(answer))
}

// Appends the entries of a tally.
fn push_tally(entries: &mut Entries, base: &Tally) -> Result<(), Refusal>
    ensures pushed { OnOk result (entries.new ≡ entries.old ++ base.now) }
    ensures only { OnlyMemory result }
{
    for i in 0..base.len() {
        entries.push(base.row(i).copy(), base.count(i))?;
    }
    Ok(())
}

// Appends the rows and differences of the updates at or before the time.
fn push_near<T: Lattice>(entries: &mut Entries, near: &[Update<T>], time: T) -> Result<(), Refusal>
    ensures pushed { OnOk result (entries.new ≡ entries.old ++ as_of T.times time near.now) }
    ensures only { OnlyMemory result }
{
    for update in near {
        if update.time.less_equal(&time) {
            entries.push(update.row.copy(), update.diff)?;
        }
    }
    Ok(())
}

// The bag of a tally and of the updates at or before the time.
fn whole<T: Lattice>(
    alloc: Global,
    base: &Tally,
    near: &[Update<T>],
    time: T,
) -> Result<Bag, Refusal>
    ensures sum { IfOk result (λ bag. Alike bag (base.now ++ as_of T.times time near.now)) }
    ensures bag { IfOk result IsBag }
    ensures refused { IfErr result
        (IsMemoryOrOverflow (HasLargeCount (base.now ++ as_of T.times time near.now))) }
{
    let mut entries = Entries::new(alloc);
    push_tally(&mut entries, base)?;
    push_near(&mut entries, near, time)?;
    entries.into_bag()
}

// The answer at the time from the bag of all entries.
fn answer_by_bag<T: Lattice, R: Reducer>(
    alloc: Global,
    reducer: &R,
    key: &[i64],
    base: &Tally,
    near: &[Update<T>],
    time: T,
) -> Result<Bag, Refusal>
    requires some { 1 ≤ length key.now }
    requires few { length key.now ≤ 8 }
    requires keyed { IsTrue (list_all (has_key (length key.now) key.now) base.now) }
    requires near { IsTrue (list_all (of_key (length key.now) key.now) near.now) }
    ensures answer { IfOk result (IsAnswerFor
        (R.reduces reducer.now) key.now (base.now ++ as_of T.times time near.now)) }
    ensures refused { IfErr result
        (IsMemoryOrOverflow (IsTooLarge (base.now ++ as_of T.times time near.now))) }
{
    let rows = whole(alloc, base, near, time)?;
    let answer = reducer.reduce(alloc, key, &rows)?;
    Ok(answer)
}

/// What the reducer answers at a time, if `base` has the counts of what all times to come see, and
/// `near` has the other updates. The tally is as it was afterwards, also where the call is refused.
///
/// - [`Refusal::Overflow`] only if the count of a row at that time, or the sum of these counts, is
///   no 64-bit number.
/// - [`Refusal::OutOfMemory`] only if memory for the notes or the answer was refused.
///
/// Cost: each near update is compared with the time, and those at or before it take a binary search
/// each. Then the reducer's own cost. Only if a count on the way is too large, or a row is not in
/// the tally, are all entries copied and sorted.
pub fn answer_at<T: Lattice, R: Reducer>(
    alloc: Global,
    reducer: &R,
    key: &[i64],
    base: &mut Tally,
    near: &[Update<T>],
    time: T,
) -> Result<Bag, Refusal>
    requires some { 1 ≤ length key.now }
    requires few { length key.now ≤ 8 }
    requires keyed { IsTrue (list_all (has_key (length key.now) key.now) base.old) }
    requires near { IsTrue (list_all (of_key (length key.now) key.now) near.now) }
    ensures value { IfOk result (λ answer. (entries : List Entry)
        → Alike (base.old ++ as_of T.times time near.now) entries
        → Alike answer (R.reduces reducer.now key.now entries)) }
    ensures bag { IfOk result IsBag }
    ensures keyed { IfOk result
        (λ answer. IsTrue (list_all (has_key (length key.now) key.now) answer)) }
    ensures same { base.new ≡ base.old }
    ensures refused { IfErr result
        (IsMemoryOrOverflow (IsTooLarge (base.old ++ as_of T.times time near.now))) }
{
    let mut noted = Vec::with_capacity(alloc, near.len())?;
    let tried = answer_by_tally(alloc, reducer, key, base, near, time, &mut noted);
    base.undo_all(noted);
    if let Some(answer) = tried? {
        return Ok(answer);
    }
    answer_by_bag(alloc, reducer, key, base, near, time)
}

//! Taking a batch: what it makes of the histories of its keys.
//!
//! A batch is in order of row, so the updates of one key are neighbours: a run. The batch is read
//! run by run, and each run makes the new times of one key. The invariant: the keys that have new
//! times are those of the runs that were read, and no later run has one of these keys.
//!
//! All new times are made before any of them is put in place. If making them is refused, nothing
//! has changed. Putting them in place takes no memory, so a batch is never taken in part. What was
//! given of a key stays where it is.
ghost use Rattle.std.specs.Prelude.{◌≡◌, ◌≢◌, ◌≤◌, ◌<◌, ◌+◌, ◌∷◌, [], ℕ, ℤ, List, IsTrue, IsSomeAnd, IfOk, length, map, slice_get, slice_range, take};
ghost use Rattle.std.specs.List.{AllByRecursion};
ghost use Rattle.update.specs.Refusals.{OnlyMemory};
ghost use Rattle.update.specs.declared.refusal.Refusal.{Refusal};
ghost use Rattle.columns.specs.Runs.{row_starts, run_place};
ghost use Rattle.key_history.specs.Duties.{are_wide};
ghost use Rattle.reduce.specs.Histories.{AreHistories, AreKeysApart, ArePending, IsHistory, IsWaiting, history_of};
ghost use Rattle.reduce.specs.Intake.{AreRenewed, IsPlaced, IsRenewed, made_from, or_else};

use crate::histories::Histories;
use crate::places::Places;
use batch::BatchReader;
use joined_times::{JoinedTimes, with_times};
use key_history::KeyHistory;
use lattice::Lattice;
use row::Row;
use std::alloc::Global;
use std::ops::Range;
use update::Refusal;

/// What a batch makes of a key: its joined times, and which of them are pending. `place` is that of
/// its history, if it has one.
#[derive(Drop)]
pub(crate) struct Renewal<T> {
    key: Row,
    place: Option<usize>,
    times: Vec<T>,
    due: Vec<T>,
}

// The key of a run of a batch: the first `k` columns of its row.
fn key_of<B: BatchReader>(alloc: Global, k: usize, batch: &B, run: usize) -> Row
    requires some { 1 ≤ k }
    requires few { k ≤ 8 }
    requires within { run < length (row_starts (B.content batch.now)) }
    requires wide { IsTrue (are_wide k (B.content batch.now)) }
    ensures key { IsSomeAnd
        (slice_get (B.content batch.now) (run_place (B.content batch.now) run))
        (λ u. result ≡ take k u.row) }
    ensures width { length result ≡ k }
{
    Row::of(alloc, batch.run_row(run).key(k))
}

// The times of the updates of a batch in this range.
fn times_in<B: BatchReader>(
    alloc: Global,
    batch: &B,
    run: Range<usize>,
) -> Result<Vec<B::Time>, Refusal>
    requires ordered { run.start ≤ run.end }
    requires within { run.end ≤ length (B.content batch.now) }
    ensures times { IfOk result (λ times. times.items
        ≡ map (λ u. u.time) (slice_range (B.content batch.now) run.start run.end)) }
    ensures only { OnlyMemory result }
{
    let mut times = Vec::with_capacity(alloc, run.end - run.start)?;
    for i in run.start..run.end {
        times.push(batch.time(i))?;
    }
    Ok(times)
}

// What the run of a key's updates in the batch makes of the key. If the key has no history yet, it
// begins with no times.
fn renewed_run<T: Lattice, B: BatchReader<Time = T>>(
    alloc: Global,
    key: Row,
    histories: &Histories<T>,
    batch: &B,
    run: Range<usize>,
) -> Result<Renewal<T>, Refusal>
    requires ordered { run.start ≤ run.end }
    requires within { run.end ≤ length (B.content batch.now) }
    requires known { AreHistories T.cmp (length key) histories.now.items }
    ensures renewed { IfOk result (λ r.
        IsRenewed T.times T.cmp (length key) histories.now.items key
        (map (λ u. u.time) (slice_range (B.content batch.now) run.start run.end))
        (made_from histories.now.items r)) }
    ensures placed { IfOk result (λ r. IsPlaced histories.now.items r) }
    ensures only { OnlyMemory result }
{
    histories.known();
    let new = times_in(alloc, batch, run)?;
    match histories.find(&key) {
        Some(i) => {
            let history = histories.get(i);
            let made = with_times(alloc, history.times(), history.due(), &new)?;
            let JoinedTimes { times, due } = made;
            Ok(Renewal {
                key,
                place: Some(i),
                times,
                due,
            })
        }
        None => {
            let none = Vec::new(alloc);
            let made = with_times(alloc, &none, &none, &new)?;
            let JoinedTimes { times, due } = made;
            Ok(Renewal {
                key,
                place: None,
                times,
                due,
            })
        }
    }
}

/// What a batch makes of its keys, one renewal for each. It has the old joined and pending times of
/// the key with the new ones added. None is put in place yet.
///
/// [`Refusal::OutOfMemory`] only if memory for the new times was refused.
///
/// Cost: for each key of the batch one look-up of a hash, a seek for the end of its runs, and the
/// cost of [`with_times`] for its times in the batch.
pub(crate) fn renewed_by<T: Lattice, B: BatchReader<Time = T>>(
    alloc: Global,
    k: usize,
    histories: &Histories<T>,
    batch: &B,
) -> Result<Vec<Renewal<T>>, Refusal>
    requires some { 1 ≤ k }
    requires few { k ≤ 8 }
    requires wide { IsTrue (are_wide k (B.content batch.now)) }
    requires known { AreHistories T.cmp k histories.now.items }
    ensures made { IfOk result (λ made.
        AreRenewed T.times T.cmp k (B.content batch.now) histories.now.items
        (map (made_from histories.now.items) made.items)) }
    ensures placed { IfOk result
        (λ made. AllByRecursion (IsPlaced histories.now.items) made.items) }
    ensures due { IfOk result
        (λ made. ArePending (map (made_from histories.now.items) made.items)) }
    ensures only { OnlyMemory result }
{
    let mut made = Vec::new(alloc);
    let mut run = 0;
    let mut start = batch.run_start(run);
    while run < batch.runs() {
        let key = key_of(alloc, k, batch, run);
        let next = batch.seek_past_run(run, key.columns());
        let end = batch.run_start(next);
        made.push(renewed_run(alloc, key, histories, batch, start..end)?)?;
        run = next;
        start = end;
    }
    Ok(made)
}

// Puts the new times of a key in the place of the old ones, or a history with them behind all.
fn put_one<T: Lattice>(
    alloc: Global,
    histories: &mut Histories<T>,
    waiting: &mut Places,
    renewal: Renewal<T>,
)
    requires room { 1 ≤ histories.old.spare }
    requires place { 1 ≤ waiting.old.spare }
    requires placed { IsPlaced histories.old.items renewal }
    requires due { renewal.due.items ≢ [] }
    requires waiting { IsWaiting histories.old.items waiting.old.items }
    ensures room { histories.old.spare ≤ histories.new.spare + 1 }
    ensures place { waiting.old.spare ≤ waiting.new.spare + 1 }
    ensures found { (key : List ℤ) → history_of key histories.new.items
        ≡ or_else (history_of key (made_from histories.old.items renewal ∷ []))
        (history_of key histories.old.items) }
    ensures waiting { IsWaiting histories.new.items waiting.new.items }
    ensures known { (k : ℕ) → AreHistories T.cmp k histories.old.items
        → IsHistory T.cmp k (made_from histories.old.items renewal)
        → AreHistories T.cmp k histories.new.items }
    ensures kept { (i : ℕ) (key : List ℤ)
        → IsSomeAnd (slice_get histories.old.items i) (λ h. h.key ≡ key)
        → IsSomeAnd (slice_get histories.new.items i) (λ h. h.key ≡ key) }
{
    let end = histories.len();
    let Renewal {
        key,
        place,
        times,
        due,
    } = renewal;
    match place {
        Some(i) => {
            if histories.get(i).due().is_empty() {
                waiting.push(i);
            }
            histories.put_times(i, times, due);
        }
        None => {
            waiting.push(end);
            histories.push(KeyHistory::new(alloc, key, times, due));
        }
    }
}

/// Puts the new times of keys in place: in their histories, or in new ones behind all. Takes no
/// memory, so nothing here can be refused.
///
/// Cost: one look-up of a hash for each new key. A history that is there already keeps what was
/// given of its key.
pub(crate) fn put_all<T: Lattice>(
    alloc: Global,
    histories: &mut Histories<T>,
    waiting: &mut Places,
    made: Vec<Renewal<T>>,
)
    requires room { length made.items ≤ histories.old.spare }
    requires places { length made.items ≤ waiting.old.spare }
    requires placed { AllByRecursion (IsPlaced histories.old.items) made.items }
    requires apart { AreKeysApart (map (made_from histories.old.items) made.items) }
    requires due { ArePending (map (made_from histories.old.items) made.items) }
    requires waiting { IsWaiting histories.old.items waiting.old.items }
    ensures found { (key : List ℤ) → history_of key histories.new.items
        ≡ or_else (history_of key (map (made_from histories.old.items) made.items))
        (history_of key histories.old.items) }
    ensures waiting { IsWaiting histories.new.items waiting.new.items }
    ensures known { (k : ℕ) → AreHistories T.cmp k histories.old.items
        → AreHistories T.cmp k (map (made_from histories.old.items) made.items)
        → AreHistories T.cmp k histories.new.items }
{
    for renewal in made {
        put_one(alloc, histories, waiting, renewal);
    }
}

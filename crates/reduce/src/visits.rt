//! The keys that wait, one after the other. The pending times of each are settled, and what comes
//! of it is gathered aside: what is given, which times of a key are still pending, and which keys
//! still wait. The histories themselves stay as they are until all is gathered. A key of which no
//! time is due is not read.
//!
//! Then the histories are changed in place. What is given of a key is appended to its history,
//! which may want memory. If it is refused, then what was appended so far is taken back, so the
//! histories are as they were. The times that are still pending are put in place after that, which
//! takes no memory.
ghost use Rattle.std.specs.Prelude.{get_or, ◌≡◌, ◌≢◌, ◌≤◌, ◌<◌, ◌+◌, ◌-◌, ◌^◌, ◌++◌, ◌∷◌, ℕ, List, [], not, min, IfErr, IfOk, IsSomeAnd, OnErr, OnOk, length, map, slice_get};
ghost use Rattle.std.specs.List.{list_any};
ghost use Rattle.lattice.specs.Frontiers.{is_beyond};
ghost use Rattle.update.specs.Refusals.{OnlyMemory, IsMemoryOrOverflow};
ghost use Rattle.update.specs.declared.refusal.Refusal.{Refusal};
ghost use Rattle.trace.specs.Readings.{all_content};
ghost use Rattle.joined_times.specs.Joined.{AreOnce, Member};
ghost use Rattle.reduce.specs.Histories.{AreHistories};
ghost use Rattle.key_history.specs.Settlements.{IsOverfullFor};
ghost use Rattle.reduce.specs.Visits.{Visit, IsVisit, Gathers, AreWithin, AreCut, all_given, all_taken_back, all_left, all_changed, changes_of, waits_on, waiting_at, reads_of};

use crate::histories::Histories;
use crate::key_rows::rows_of;
use antichain::is_beyond;
use batch::BatchReader;
use columns::Columns;
use key_history::{Settled, sweep_key};
use lattice::Lattice;
use reducer::Reducer;
use std::alloc::Global;
use std::marker::Model;
use update::Refusal;

/// What is new of the key at a place. A contract sees the place, how many of the updates that are
/// given are the key's, and the times that are still pending.
#[derive(Drop)]
pub(crate) struct Change<T> {
    place: usize,
    many: usize,
    rest: Vec<T>,
}

impl<T> Model for Change<T> {
    ghost use Rattle.reduce.specs.Visits.{ChangeState};

    ghost Value = { ChangeState T };

    ghost view = { λ c. record {
      place = c.place;
      many = c.many;
      rest = c.rest.items;
    } };
}

/// What was gathered so far.
#[derive(Drop)]
pub(crate) struct Gathered<T> {
    /// What is given, key by key, in the order of the changes. It may be the longest list of a
    /// call, so it is kept column by column.
    pub(crate) out: Columns<T>,
    /// What is new of the keys of which some time was due.
    pub(crate) changes: Vec<Change<T>>,
    /// The places of the keys that still wait.
    pub(crate) waiting: Vec<usize>,
    /// How many updates were read.
    pub(crate) looked: u64,
}

// Whether the frontier has passed one of these times.
fn is_due<T: Lattice>(frontier: &[T], due: &[T]) -> bool
    ensures { result ≡ list_any (λ t. not (is_beyond T.times frontier.now t)) due.now }
{
    for time in due {
        if !is_beyond(frontier, time) {
            return true;
        }
    }
    false
}

impl<T: Lattice> Gathered<T> {
    // Nothing yet.
    fn none(alloc: Global, looked: u64) -> Gathered<T>
        ensures out { result.out ≡ [] }
        ensures changes { result.changes.items ≡ [] }
        ensures waiting { result.waiting.items ≡ [] }
        ensures looked { result.looked ≡ looked }
    {
        Gathered {
            out: Columns::new(alloc),
            changes: Vec::new(alloc),
            waiting: Vec::new(alloc),
            looked,
        }
    }

    // Gathers what settling the key at a place gave.
    fn put(&mut self, place: usize, settled: Settled<T>) -> Result<(), Refusal>
        ensures out { OnOk result (self.new.out ≡ self.old.out ++ settled.given.items) }
        ensures changes { OnOk result (self.new.changes.items
            ≡ self.old.changes.items ++ record {
              place = place;
              many = length settled.given.items;
              rest = settled.due.items;
            } ∷ []) }
        ensures waiting { OnOk result (self.new.waiting.items
            ≡ self.old.waiting.items ++ waiting_at place settled.due.items) }
        ensures looked { self.new.looked ≡ self.old.looked }
        ensures only { OnlyMemory result }
    {
        let Settled { given: more, due } = settled;
        if !due.is_empty() {
            self.waiting.push(place)?;
        }
        self.changes.push(Change {
            place,
            many: more.len(),
            rest: due,
        })?;
        self.out.append(more.as_slice())?;
        Ok(())
    }
}

/// Folds what was given of the keys that wait, as the times at or after `since` see it. Nothing
/// that a contract sees is changed.
///
/// Cost: that of [`Histories::fold`] for each of them.
pub(crate) fn fold_all<T: Lattice>(
    alloc: Global,
    histories: &mut Histories<T>,
    waiting: &[usize],
    since: T,
)
    requires { (i : ℕ) → i < length waiting.now
        → get_or waiting.now i 0 < length histories.old.items }
    ensures items { histories.new.items ≡ histories.old.items }
{
    for place in waiting {
        histories.fold(alloc, *place, since);
    }
}

// Visits the key at a place: settles its pending times, if one of them is due.
fn visit<T: Lattice, R: Reducer, B: BatchReader<Time = T>>(
    alloc: Global,
    reducer: &R,
    histories: &Histories<T>,
    place: usize,
    frontier: &[T],
    batches: &[B],
    gathered: &mut Gathered<T>,
) -> Result<(), Refusal>
    requires known { (k : ℕ) × AreHistories T.cmp k histories.now.items }
    requires waits { IsSomeAnd (slice_get histories.now.items place) (λ h. h.due ≢ []) }
    ensures visited { OnOk result ((v : Visit T) × (v.place ≡ place)
        × IsVisit T.times frontier.now (R.reduces reducer.now)
        (all_content B.content batches.now) histories.now.items v
        × (gathered.new.out ≡ gathered.old.out ++ v.more)
        × (gathered.new.changes.items
        ≡ gathered.old.changes.items ++ changes_of T.times frontier.now v)
        × (gathered.new.waiting.items ≡ gathered.old.waiting.items ++ waits_on v)
        × (gathered.new.looked ≤ gathered.old.looked
        + reads_of T.times frontier.now (all_content B.content batches.now) v)
        × (min (gathered.old.looked
        + reads_of T.times frontier.now (all_content B.content batches.now) v) (2 ^ 64 - 1)
        ≤ gathered.new.looked)) }
    ensures refused { IfErr result (IsMemoryOrOverflow
        (IsSomeAnd (slice_get histories.now.items place) (λ h.
        IsOverfullFor T.times (length h.key) (R.reduces reducer.now) h.key
        (all_content B.content batches.now) h.given frontier.now h.due))) }
{
    let history = histories.get(place);
    if !is_due(frontier, history.due()) {
        gathered.waiting.push(place)?;
        return Ok(());
    }
    let rows = rows_of(alloc, reducer, batches, history.key())?;
    let settled = sweep_key(alloc, reducer, history, frontier, rows.as_slice())?;
    gathered.looked = gathered.looked.saturating_add(rows.len() as u64);
    gathered.put(place, settled)?;
    Ok(())
}

/// Visits the keys at these places. `looked` is how many updates had been read before.
///
/// Cost: one comparison with the frontier for each pending time. Each key of which some time is due
/// is read once, as for [`rows_of`], and settled, as for [`sweep_key`].
pub(crate) fn visit_all<T: Lattice, R: Reducer, B: BatchReader<Time = T>>(
    alloc: Global,
    reducer: &R,
    histories: &Histories<T>,
    places: &[usize],
    frontier: &[T],
    batches: &[B],
    looked: u64,
) -> Result<Gathered<T>, Refusal>
    requires known { (k : ℕ) × AreHistories T.cmp k histories.now.items }
    requires waits { (i : ℕ) → Member i places.now
        → IsSomeAnd (slice_get histories.now.items i) (λ h. h.due ≢ []) }
    ensures visited { IfOk result (λ gathered. (visits : List (Visit T)) × (reads : ℕ)
        × Gathers T.times frontier.now (R.reduces reducer.now)
        (all_content B.content batches.now) histories.now.items places.now visits
        gathered.out gathered.changes.items gathered.waiting.items reads
        × (gathered.looked ≤ looked + reads)
        × (min (looked + reads) (2 ^ 64 - 1) ≤ gathered.looked)) }
    ensures refused { IfErr result (IsMemoryOrOverflow ((i : ℕ)
        × IsSomeAnd (slice_get histories.now.items i) (λ h.
        IsOverfullFor T.times (length h.key) (R.reduces reducer.now) h.key
        (all_content B.content batches.now) h.given frontier.now h.due))) }
{
    let mut gathered = Gathered::none(alloc, looked);
    for place in places {
        visit(
            alloc,
            reducer,
            histories,
            *place,
            frontier,
            batches,
            &mut gathered,
        )?;
    }
    Ok(gathered)
}

// Takes back what was appended to the histories of these changes, the last first. Takes no memory.
fn take_back<T: Lattice>(histories: &mut Histories<T>, changes: &[Change<T>])
    requires { AreWithin (length histories.old.items) changes.now }
    ensures { histories.new.items ≡ all_taken_back changes.now histories.old.items }
{
    let mut i = changes.len();
    while i > 0 {
        i -= 1;
        let change = &changes[i];
        histories.take_back(change.place, change.many);
    }
}

// Appends what is given at each change to its history. `out` has what is given, key by key. If the
// call is refused, then the histories are as they were.
fn give_all<T: Lattice>(
    histories: &mut Histories<T>,
    changes: &[Change<T>],
    out: &Columns<T>,
) -> Result<(), Refusal>
    requires within { AreWithin (length histories.old.items) changes.now }
    requires cut { AreCut changes.now out.now }
    ensures given { OnOk result
        (histories.new.items ≡ all_given changes.now out.now histories.old.items) }
    ensures same { OnErr result (histories.new.items ≡ histories.old.items) }
    ensures only { OnlyMemory result }
{
    // How many updates at the end of `out` are still to be appended.
    let mut left = out.len();
    for i in 0..changes.len() {
        let change = &changes[i];
        let start = out.len() - left;
        left -= change.many;
        let part = start..out.len() - left;
        if let Err(refused) = histories.give(change.place, out, part) {
            take_back(histories, &changes[..i]);
            return Err(refused);
        }
    }
    Ok(())
}

// Puts the times that are still pending at each change in place. Takes no memory.
fn leave_all<T: Lattice>(histories: &mut Histories<T>, changes: Vec<Change<T>>)
    requires { AreWithin (length histories.old.items) changes.items }
    ensures { histories.new.items ≡ all_left changes.items histories.old.items }
{
    for change in changes {
        let Change {
            place,
            many: _,
            rest,
        } = change;
        histories.leave(place, rest);
    }
}

/// Changes the histories in place. `out` has what is given, key by key, in the order of the
/// changes. If the call is refused, then the histories are as they were.
///
/// - [`Refusal::OutOfMemory`] only if memory for what is given was refused.
///
/// Cost: that of [`KeyHistory::give`](key_history::KeyHistory::give) for each change. It copies
/// what is given. What was given before stays where it is, but in a history that has no room for
/// more.
pub(crate) fn change_all<T: Lattice>(
    histories: &mut Histories<T>,
    changes: Vec<Change<T>>,
    out: &Columns<T>,
) -> Result<(), Refusal>
    requires within { AreWithin (length histories.old.items) changes.items }
    requires cut { AreCut changes.items out.now }
    requires once { AreOnce (map (λ c. c.place) changes.items) }
    ensures changed { OnOk result
        (histories.new.items ≡ all_changed changes.items out.now histories.old.items) }
    ensures same { OnErr result (histories.new.items ≡ histories.old.items) }
    ensures only { OnlyMemory result }
{
    give_all(histories, changes.as_slice(), out)?;
    leave_all(histories, changes);
    Ok(())
}

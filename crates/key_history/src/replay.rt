//! The updates of a key, replayed in order of time: each comes in once the time is reached after
//! which it may matter.
//!
//! The times of a key come in `Ord` order, and each time to come is at or after the meet of all
//! that are to come. By the laws of a lattice, no time at or after that meet tells an update from
//! the same update at the join of its time with the meet. So what has come in is moved there, and
//! what falls on one time is added up. A long history becomes a short list, and a sum at the next
//! time looks at that list alone.
//!
//! The invariant: what has come in, with what comes in later, sums at each time to come to what the
//! whole list sums to (`AgreeOn` in `specs/Replays.antt`).
ghost use Rattle.std.specs.Prelude.{◌≡◌, ◌⊎◌, ◌≤◌, ◌<◌, ◌+◌, ◌++◌, ◌∷◌, [], List, ℤ, Bool, true, IsTrue, IfOk, OnOk, IsSomeAnd, drop, length, slice_get, false};
ghost use Rattle.std.specs.List.{list_all};
ghost use Rattle.update.specs.Refusals.{OnlyMemory};
ghost use Rattle.update.specs.Bags.{Alike};
ghost use Rattle.update.specs.Updates.{as_of, entry};
ghost use Rattle.update.specs.declared.change.Update.{Update};
ghost use Rattle.update.specs.declared.refusal.Refusal.{Refusal};
ghost use Rattle.std.specs.declared.cmp.Ordering.{Ordering};
ghost use Rattle.key_history.specs.Replays.{Ascends, Settles, AgreeEver, AgreeFrom, moved_to, on_the_way};

use crate::pack::Pack;
use lattice::Lattice;
use reducer::Tally;
use std::alloc::Global;
use std::cmp::Ordering;
use std::mem;
use update::{Refusal, Update, consolidate};

/// Appends copies of updates.
pub(crate) fn append_copies<T: Lattice>(
    list: &mut Vec<Update<T>>,
    more: &[Update<T>],
) -> Result<(), Refusal>
    ensures pushed { OnOk result (list.new.items ≡ list.old.items ++ more.now) }
    ensures only { OnlyMemory result }
{
    list.reserve(more.len())?;
    for update in more {
        list.push(update.copy())?;
    }
    Ok(())
}

// Copies of updates, each at the join of its time with `meet`.
fn moved<T: Lattice>(
    alloc: Global,
    updates: &[Update<T>],
    meet: T,
) -> Result<Vec<Update<T>>, Refusal>
    ensures moved { IfOk result (λ out. out.items ≡ moved_to T.times meet updates.now) }
    ensures only { OnlyMemory result }
{
    let mut out = Vec::with_capacity(alloc, updates.len())?;
    for update in updates {
        out.push(Update {
            time: update.time.join(meet),
            row: update.row.copy(),
            diff: update.diff,
        })?;
    }
    Ok(out)
}

/// The updates as of the times at or after `meet`: moved there, and added up. A total that is too
/// large there need be none at the times to come, so it is no cause to refuse: the updates then
/// stay as they are.
///
/// Cost: a copy of the updates, and n log n in their number.
pub(crate) fn nearer<T: Lattice>(
    alloc: Global,
    updates: Vec<Update<T>>,
    meet: T,
) -> Result<Vec<Update<T>>, Refusal>
    ensures stands { IfOk result (λ out. AgreeFrom T.times meet updates.items out.items) }
    ensures only { OnlyMemory result }
{
    let list = moved(alloc, updates.as_slice(), meet)?;
    match consolidate(list) {
        Ok(near) => Ok(near),
        Err(_) => Ok(updates),
    }
}

// How many updates more than twice those that were left by the last move may come in before the
// next one.
const SLACK: usize = 8;

// How many updates may have come in before they are moved, if so many are left now.
fn limit_after(left: usize) -> usize {
    left.saturating_mul(2).saturating_add(SLACK)
}

// Adds an update to a tally if it is at or before a time, and if its count fits.
fn add_early<T: Lattice>(base: &mut Tally, update: &Update<T>, meet: T) -> bool
    ensures early { IsTrue result → T.times.below update.now.time meet ≡ true }
    ensures added { IsTrue result → Alike base.new (base.old ++ entry update.now ∷ []) }
    ensures among { (p : List ℤ → Bool) → IsTrue (list_all (λ e. p e.row) base.old)
        → IsTrue (list_all (λ e. p e.row) base.new) }
    ensures kept { result ≡ false → base.new ≡ base.old }
{
    update.time.less_equal(&meet) && base.add(&update.row, update.diff)
}

// With fewer times to come, a first move of what has come in does not pay back: it copies and
// sorts.
const MANY_TIMES: usize = 16;

// How many updates may have come in before the first move, if so many come in at once and so many
// times are to come.
fn first_limit(come_in: usize, times: usize) -> usize {
    if times < MANY_TIMES {
        limit_after(come_in)
    } else {
        SLACK
    }
}

/// The updates of a key on the way through its times.
#[derive(Drop)]
pub(crate) struct Replay<T> {
    /// Those that have come in, moved forward.
    pub(crate) near: Vec<Update<T>>,
    /// In order of time those that come in later, from place `entered` on.
    pub(crate) later: Vec<Update<T>>,
    /// How many of `later` have come in.
    pub(crate) entered: usize,
    /// How many may have come in before they are moved again: more than twice as many as were left
    /// by the last move, so that all moves together cost n log n.
    pub(crate) limit: usize,
}

impl<T: Lattice> Replay<T> {
    // Puts an update with those that have come in, unless its time comes after the first one.
    fn put(&mut self, update: &Update<T>, first: T) -> Result<(), Refusal>
        ensures put { OnOk result
            (((self.new.near.items ≡ self.old.near.items ++ update.now ∷ [])
            × (self.new.later.items ≡ self.old.later.items))
            ⊎ ((self.new.near.items ≡ self.old.near.items)
            × (self.new.later.items ≡ self.old.later.items ++ update.now ∷ []))) }
        ensures entered { self.new.entered ≡ self.old.entered }
        ensures only { OnlyMemory result }
    {
        if update.time.cmp(&first) == Ordering::Greater {
            self.later.push(update.copy())?;
        } else {
            self.near.push(update.copy())?;
        }
        Ok(())
    }

    // Puts updates with those that have come in, unless their time comes after the first one.
    fn put_all(&mut self, updates: &[Update<T>], first: T) -> Result<(), Refusal>
        ensures put { OnOk result ((before : List (Update T))
            → AgreeEver T.times before (self.old.near.items ++ self.old.later.items)
            → AgreeEver T.times (before ++ updates.now)
            (self.new.near.items ++ self.new.later.items)) }
        ensures entered { self.new.entered ≡ self.old.entered }
        ensures only { OnlyMemory result }
    {
        self.near.reserve(updates.len())?;
        self.later.reserve(updates.len())?;
        for update in updates {
            self.put(update, first)?;
        }
        Ok(())
    }

    // Puts those of some packed updates from a place on with those that have come in, unless their
    // time comes after the first one.
    fn put_from(&mut self, given: &Pack<T>, from: usize, first: T) -> Result<(), Refusal>
        requires { from ≤ length given.now }
        ensures put { OnOk result ((before : List (Update T))
            → AgreeEver T.times before (self.old.near.items ++ self.old.later.items)
            → AgreeEver T.times (before ++ drop from given.now)
            (self.new.near.items ++ self.new.later.items)) }
        ensures entered { self.new.entered ≡ self.old.entered }
        ensures only { OnlyMemory result }
    {
        let more = given.len() - from;
        self.near.reserve(more)?;
        self.later.reserve(more)?;
        let mut place = given.place(from);
        for i in from..given.len() {
            self.put(&given.copy(i, place), first)?;
            place = given.place_behind(i, place);
        }
        Ok(())
    }

    /// The updates of a list, and those of a packed one from a place on, on the way to a first
    /// time, after which so many times are to come. Those whose time does not come after the first
    /// one have come in.
    ///
    /// Cost: a copy of the updates, and n log n in the number of those whose time comes after the
    /// first one. Those that stand in long ascending parts, as in a few batches, are only merged.
    pub(crate) fn of(
        alloc: Global,
        updates: &[Update<T>],
        given: &Pack<T>,
        from: usize,
        first: T,
        times: usize,
    ) -> Result<Replay<T>, Refusal>
        requires { from ≤ length given.now }
        ensures stands { IfOk result (λ p. AgreeEver T.times (updates.now ++ drop from given.now)
            (on_the_way p.near.items p.later.items p.entered)) }
        ensures ascending { IfOk result (λ p. Ascends T.cmp p.later.items) }
        ensures only { OnlyMemory result }
    {
        let mut replay = Replay {
            near: Vec::new(alloc),
            later: Vec::new(alloc),
            entered: 0,
            limit: SLACK,
        };
        replay.put_all(updates, first)?;
        replay.put_from(given, from, first)?;
        replay.later.sort()?;
        replay.limit = first_limit(replay.near.len(), times);
        Ok(replay)
    }

    // Whether the next update is to come in: its time does not come after this one.
    fn is_next(&self, time: T) -> bool
        ensures within { IsTrue result → self.now.entered < length self.now.later.items }
        ensures none { result ≡ false → self.now.entered < length self.now.later.items
            → IsSomeAnd (slice_get self.now.later.items self.now.entered)
            (λ u. T.cmp u.time time ≡ Ordering.Greater) }
    {
        self.entered < self.later.len()
            && self.later[self.entered].time.cmp(&time) != Ordering::Greater
    }

    // Lets one more update come in.
    fn enter(&mut self) -> Result<(), Refusal>
        requires { self.old.entered < length self.old.later.items }
        ensures same { OnOk result
            (on_the_way self.new.near.items self.new.later.items self.new.entered
            ≡ on_the_way self.old.near.items self.old.later.items self.old.entered) }
        ensures later { self.new.later ≡ self.old.later }
        ensures limit { self.new.limit ≡ self.old.limit }
        ensures forward { OnOk result (self.new.entered ≡ self.old.entered + 1) }
        ensures only { OnlyMemory result }
    {
        self.near.push(self.later[self.entered].copy())?;
        self.entered += 1;
        Ok(())
    }

    /// Lets the updates come in whose time does not come after this one. Those that have come in
    /// then sum to what all sum to, at the time and at each one before it.
    ///
    /// Cost: a copy of each update that comes in.
    pub(crate) fn reach(&mut self, time: T) -> Result<(), Refusal>
        requires { Ascends T.cmp self.old.later.items }
        ensures same { OnOk result
            (on_the_way self.new.near.items self.new.later.items self.new.entered
            ≡ on_the_way self.old.near.items self.old.later.items self.old.entered) }
        ensures later { self.new.later ≡ self.old.later }
        ensures reached { OnOk result ((t : T) → IsTrue (T.times.below t time)
            → as_of T.times t self.new.near.items
            ≡ as_of T.times t
            (on_the_way self.new.near.items self.new.later.items self.new.entered)) }
        ensures only { OnlyMemory result }
    {
        while self.is_next(time) {
            self.enter()?;
        }
        Ok(())
    }

    /// Moves those that have come in to a time that is at or before all times to come, if they are
    /// more than twice as many as the last move left.
    ///
    /// Cost: that of [`nearer`]. All moves of one way together cost n log n in the number of
    /// updates that come in.
    pub(crate) fn advance(&mut self, alloc: Global, meet: T) -> Result<(), Refusal>
        ensures stands { OnOk result (AgreeFrom T.times meet
            (on_the_way self.old.near.items self.old.later.items self.old.entered)
            (on_the_way self.new.near.items self.new.later.items self.new.entered)) }
        ensures later { self.new.later ≡ self.old.later }
        ensures only { OnlyMemory result }
    {
        if self.near.len() <= self.limit {
            return Ok(());
        }
        let near = mem::replace(&mut self.near, Vec::new(alloc));
        self.near = nearer(alloc, near, meet)?;
        self.limit = limit_after(self.near.len());
        Ok(())
    }

    // Whether one that has come in is at or before a time.
    fn has_settled(&self, meet: T) -> bool {
        for update in &self.near {
            if update.time.less_equal(&meet) {
                return true;
            }
        }
        false
    }

    // Adds an update to a tally if it is at or before `meet`, and else puts it with those that have
    // come in.
    fn fold_or_keep(&mut self, update: Update<T>, base: &mut Tally, meet: T) -> Result<(), Refusal>
        ensures settles { OnOk result (Settles T.times meet base.old
            (self.old.near.items ++ update ∷ []) base.new self.new.near.items) }
        ensures later { self.new.later ≡ self.old.later }
        ensures entered { self.new.entered ≡ self.old.entered }
        ensures only { OnlyMemory result }
    {
        if add_early(base, &update, meet) {
            return Ok(());
        }
        self.near.push(update)?;
        Ok(())
    }

    /// Adds those that have come in to a tally, if they are at or before `meet`, a time that is at
    /// or before all times to come: each of these times sees them. One that would make a count too
    /// large stays as it is, since others may take from the count again.
    ///
    /// Cost: a look at each of those that have come in; if some are added, a binary search in the
    /// tally for each of these, and a move of the others.
    pub(crate) fn fold_into(
        &mut self,
        alloc: Global,
        base: &mut Tally,
        meet: T,
    ) -> Result<(), Refusal>
        ensures settles { OnOk result (Settles T.times meet base.old self.old.near.items
            base.new self.new.near.items) }
        ensures later { self.new.later ≡ self.old.later }
        ensures entered { OnOk result (self.new.entered ≡ self.old.entered) }
        ensures only { OnlyMemory result }
    {
        if !self.has_settled(meet) {
            return Ok(());
        }
        let room = Vec::with_capacity(alloc, self.near.len())?;
        let near = mem::replace(&mut self.near, room);
        for update in near {
            self.fold_or_keep(update, base, meet)?;
        }
        Ok(())
    }

    /// Appends copies of updates to those that have come in.
    pub(crate) fn push_copies(&mut self, more: &[Update<T>]) -> Result<(), Refusal>
        ensures pushed { OnOk result (self.new.near.items ≡ self.old.near.items ++ more.now) }
        ensures later { self.new.later ≡ self.old.later }
        ensures entered { self.new.entered ≡ self.old.entered }
        ensures only { OnlyMemory result }
    {
        append_copies(&mut self.near, more)
    }
}

//! How often each time is counted at one place. A bulk load has very many bundles in flight at a
//! few times, so each time has one entry with a number. Counting one more or one less finds that
//! entry.
//!
//! A later time in place of an earlier one may need a new entry, but a downgrade takes no memory.
//! So there is always room in a list for as many times as are counted. The list is used only if a
//! new entry is refused memory, and mostly it is empty.
ghost use Rattle.std.specs.Prelude.{◌≡◌, ◌<◌, ◌≤◌, ◌||◌, [], ◌∷◌, ◌++◌, OnErr, OnOk, Contains, length, slice_index_or};
ghost use Rattle.std.specs.Vec.{vec_len, vec_capacity};
ghost use Rattle.update.specs.Refusals.{OnlyMemory};
ghost use Rattle.lattice.specs.Frontiers.{is_beyond};
ghost use Rattle.update.specs.declared.refusal.Refusal.TheVariants.{OutOfMemory};
ghost use Rattle.progress.specs.CountLists.{CountAlike};

use crate::entries::Entries;
use crate::scan::insert_all;
use antichain::is_beyond;
use lattice::Lattice;
use std::alloc::Global;
use std::marker::Model;
use update::Refusal;

/// Times, each counted a number of times. A contract sees a list of them.
#[derive(Drop)]
pub(crate) struct TimeCounts<T: Lattice> {
    entries: Entries<T>,
    // What a downgrade counted while memory was refused. There is room for all that is counted.
    moved: Vec<T>,
    // How many times are counted in all.
    len: usize,
}

impl<T: Lattice> Model for TimeCounts<T> {
    ghost use Rattle.std.specs.Prelude.{◌≡◌, ◌≤◌, ◌++◌, List, length};
    ghost use Rattle.std.specs.Vec.{vec_capacity};

    ghost Value = { List T };

    ghost view = { λ c. c.entries ++ c.moved.items };

    ghost invariant = { λ c. (length (c.entries ++ c.moved.items) ≡ c.len)
        × (c.len ≤ vec_capacity c.moved) };
}

impl<T: Lattice> TimeCounts<T> {
    /// Nothing is counted. Takes no memory.
    pub(crate) fn new(alloc: Global) -> TimeCounts<T>
        ensures { result ≡ [] }
    {
        TimeCounts {
            entries: Entries::new(alloc),
            moved: Vec::new(alloc),
            len: 0,
        }
    }

    /// Counts a time once more. Refused only with `OutOfMemory`, and then nothing changes.
    ///
    /// Cost: logarithmic in the different times that are counted.
    pub(crate) fn add(&mut self, t: T) -> Result<(), Refusal>
        ensures counted { OnOk result (CountAlike self.new (t ∷ self.old)) }
        ensures refused { OnlyMemory result }
        ensures unchanged { OnErr result (self.new ≡ self.old) }
    {
        make_room(&mut self.moved, self.len)?;
        if let Err(_refused) = self.entries.put(t) {
            return Err(Refusal::OutOfMemory);
        }
        self.len += 1;
        Ok(())
    }

    /// Counts a time once less. Takes no memory.
    ///
    /// Cost: logarithmic in the different times that are counted, and linear in those that were
    /// moved while memory was refused.
    pub(crate) fn remove(&mut self, t: &T)
        requires { Contains self.old t.now }
        ensures { CountAlike (t.now ∷ self.new) self.old }
    {
        take(&mut self.entries, &mut self.moved, t);
        self.len -= 1;
    }

    /// Counts a time once less, and another one in its place. Takes no memory.
    ///
    /// Cost: that of `remove`.
    pub(crate) fn replace(&mut self, t: &T, later: T)
        requires { Contains self.old t.now }
        ensures { CountAlike (t.now ∷ self.new) (later ∷ self.old) }
    {
        take(&mut self.entries, &mut self.moved, t);
        if let Err(later) = self.entries.put(later) {
            self.moved.push_reserved(later);
        }
    }

    /// Inserts the times into a frontier. Refused only with `OutOfMemory`.
    ///
    /// Cost: linear in the different times that are counted, times the elements of the frontier.
    pub(crate) fn insert_into(&self, found: &mut Vec<T>) -> Result<(), Refusal>
        ensures beyond { OnOk result ((s : T) → is_beyond T.times found.new.items s
            ≡ (is_beyond T.times found.old.items s || is_beyond T.times self.now s)) }
        ensures refused { OnlyMemory result }
    {
        self.entries.insert_into(found)?;
        insert_all(found, self.moved.as_slice())?;
        Ok(())
    }

    /// Whether some time is at or before this one. Takes no memory.
    ///
    /// Cost: linear in the different times that are counted. The first such time settles it.
    pub(crate) fn is_any_before(&self, t: &T) -> bool
        ensures { result ≡ is_beyond T.times self.now t.now }
    {
        self.entries.is_any_before(t) || is_beyond(self.moved.as_slice(), t)
    }
}

// Makes room for one time more than there are.
fn make_room<T: Lattice>(moved: &mut Vec<T>, len: usize) -> Result<(), Refusal>
    requires { length moved.old.items ≤ len }
    ensures items { moved.new.items ≡ moved.old.items }
    ensures room { OnOk result (len < vec_capacity moved.new) }
    ensures capacity { vec_capacity moved.old ≤ vec_capacity moved.new }
    ensures refused { OnlyMemory result }
{
    if len == usize::MAX {
        return Err(Refusal::OutOfMemory);
    }
    moved.reserve(len + 1 - moved.len())?;
    Ok(())
}

// Counts a time once less, wherever it stands.
fn take<T: Lattice>(entries: &mut Entries<T>, moved: &mut Vec<T>, t: &T)
    requires { Contains (entries.old ++ moved.old.items) t.now }
    ensures counted { CountAlike (t.now ∷ (entries.new ++ moved.new.items))
        (entries.old ++ moved.old.items) }
    ensures room { vec_capacity moved.new ≡ vec_capacity moved.old }
{
    if !entries.take(t) {
        let number = position(moved.as_slice(), t);
        let _ = moved.remove(number);
    }
}

// The number of a time. It must be there; which of several does not matter. Times are equal if each
// is at or before the other.
fn position<T: Lattice>(times: &[T], t: &T) -> usize
    requires { Contains times.now t.now }
    ensures within { result < length times.now }
    ensures there { slice_index_or times.now result t.now ≡ t.now }
{
    for number in 0..times.len() {
        if times[number].less_equal(t) && t.less_equal(&times[number]) {
            return number;
        }
    }
    unreachable!()
}

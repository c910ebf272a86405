//! How often each of some times is counted, by time. At most places something is outstanding at a
//! few times only, and a way down a tree costs more than a look at all of these. So the first times
//! have their entries in a short list, and a tree has those for which the list has no room.
//!
//! A time may have an entry in each: it came to the tree while the list was full. Then it is
//! counted as often as both say. Nobody asks how often, so nothing has to be moved from one to the
//! other.
ghost use Rattle.std.specs.Prelude.{◌≡◌, ℕ, ◌<◌, ◌||◌, [], ◌∷◌, ◌++◌, true, false, IsTrue, IfErr, IfSome, OnErr, OnOk, None, Contains, length, slice_index_or};
ghost use Rattle.update.specs.Refusals.{OnlyMemory};
ghost use Rattle.lattice.specs.Frontiers.{is_beyond};
ghost use Rattle.progress.specs.CountLists.{CountAlike, listed};

use crate::scan::{insert_entries, insert_listed, is_any_entry, is_any_listed};
use lattice::Lattice;
use std::alloc::Global;
use std::collections::BTreeMap;
use std::marker::Model;
use update::Refusal;

// How many times have their entries in the list. A scan of so many costs about as much as the tree.
const FEW: usize = 16;

/// Times, each counted a number of times. A contract sees a list of them. An entry says how often
/// its time is counted beyond the first time.
#[derive(Drop)]
pub(crate) struct Entries<T: Lattice> {
    few: Vec<(T, usize)>,
    others: BTreeMap<T, usize>,
}

impl<T: Lattice> Model for Entries<T> {
    ghost use Rattle.std.specs.Prelude.{◌++◌, List};
    ghost use Rattle.progress.specs.CountLists.{listed};

    ghost Value = { List T };

    ghost view = { λ e. listed e.few.items ++ listed e.others.entries };
}

impl<T: Lattice> Entries<T> {
    /// Nothing is counted. Takes no memory.
    pub(crate) fn new(alloc: Global) -> Entries<T>
        ensures { result ≡ [] }
    {
        Entries {
            few: Vec::new(alloc),
            others: BTreeMap::new(alloc),
        }
    }

    /// Counts a time once more. Memory is refused only to a time that has no entry yet; then the
    /// time is handed back.
    ///
    /// Cost: logarithmic in the different times that are counted.
    pub(crate) fn put(&mut self, t: T) -> Result<(), T>
        requires { length self.old < 18446744073709551615 }
        ensures counted { OnOk result (CountAlike self.new (t ∷ self.old)) }
        ensures back { IfErr result (λ back. back ≡ t) }
        ensures unchanged { OnErr result (self.new ≡ self.old) }
    {
        if put_in_list(&mut self.few, t) {
            return Ok(());
        }
        put_in_tree(&mut self.others, t)
    }

    /// Counts a time once less, if it is counted, and tells whether it is. Takes no memory.
    ///
    /// Cost: that of `put`.
    pub(crate) fn take(&mut self, t: &T) -> bool
        ensures counted { IsTrue result → CountAlike (t.now ∷ self.new) self.old }
        ensures missing { result ≡ false → Contains self.old t.now → ⊥ }
        ensures unchanged { result ≡ false → self.new ≡ self.old }
    {
        if take_from_list(&mut self.few, t) {
            return true;
        }
        take_from_tree(&mut self.others, t)
    }

    /// Inserts the times into a frontier. Refused only with `OutOfMemory`.
    ///
    /// Cost: linear in the different times that are counted, times the elements of the frontier.
    pub(crate) fn insert_into(&self, found: &mut Vec<T>) -> Result<(), Refusal>
        ensures beyond { OnOk result ((s : T) → is_beyond T.times found.new.items s
            ≡ (is_beyond T.times found.old.items s || is_beyond T.times self.now s)) }
        ensures refused { OnlyMemory result }
    {
        insert_entries(found, self.few.as_slice())?;
        insert_listed(found, &self.others)?;
        Ok(())
    }

    /// Whether some time is at or before this one. Takes no memory.
    ///
    /// Cost: linear in the different times that are counted. The first such time settles it.
    pub(crate) fn is_any_before(&self, t: &T) -> bool
        ensures { result ≡ is_beyond T.times self.now t.now }
    {
        is_any_entry(self.few.as_slice(), t) || is_any_listed(&self.others, t)
    }
}

// The number of a time's entry, if it has one. Times are equal if each is at or before the other.
fn entry_of<T: Lattice>(few: &[(T, usize)], t: &T) -> Option<usize>
    ensures within { IfSome result (λ number. number < length few.now) }
    ensures there { IfSome result (λ number. (d : T × ℕ) → (slice_index_or few.now number d).0
        ≡ t.now) }
    ensures missing { result ≡ None → Contains (listed few.now) t.now → ⊥ }
{
    for number in 0..few.len() {
        if few[number].0.less_equal(t) && t.less_equal(&few[number].0) {
            return Some(number);
        }
    }
    None
}

// Counts a time once more, if it has an entry in the list or the list has room for one, and tells
// whether it is counted.
fn put_in_list<T: Lattice>(few: &mut Vec<(T, usize)>, t: T) -> bool
    requires { length (listed few.old.items) < 18446744073709551615 }
    ensures counted { IsTrue result
        → CountAlike (listed few.new.items) (t ∷ listed few.old.items) }
    ensures unchanged { result ≡ false → few.new.items ≡ few.old.items }
{
    if let Some(number) = entry_of(few.as_slice(), &t) {
        let entry = &mut few[number];
        entry.1 += 1;
        return true;
    }
    if few.len() == FEW {
        return false;
    }
    match few.push((t, 0)) {
        Ok(()) => true,
        Err(_refused) => false,
    }
}

// Counts a time once more. Memory is refused only to a time that has no entry yet; then the time is
// handed back.
fn put_in_tree<T: Lattice>(others: &mut BTreeMap<T, usize>, t: T) -> Result<(), T>
    requires { length (listed others.old.entries) < 18446744073709551615 }
    ensures counted { OnOk result
        (CountAlike (listed others.new.entries) (t ∷ listed others.old.entries)) }
    ensures back { IfErr result (λ back. back ≡ t) }
    ensures unchanged { OnErr result (others.new.entries ≡ others.old.entries) }
{
    if let Some(number) = others.get_mut(&t) {
        *number += 1;
        return Ok(());
    }
    match others.insert(t, 0) {
        Ok(_) => Ok(()),
        Err(failed) => {
            let (t, _) = failed.value;
            Err(t)
        }
    }
}

// Counts a time once less, if it has an entry in the list, and tells whether it has one.
fn take_from_list<T: Lattice>(few: &mut Vec<(T, usize)>, t: &T) -> bool
    ensures counted { IsTrue result
        → CountAlike (t.now ∷ listed few.new.items) (listed few.old.items) }
    ensures missing { result ≡ false → Contains (listed few.old.items) t.now → ⊥ }
    ensures unchanged { result ≡ false → few.new.items ≡ few.old.items }
{
    let Some(number) = entry_of(few.as_slice(), t) else {
        return false;
    };
    if few[number].1 > 0 {
        let entry = &mut few[number];
        entry.1 -= 1;
        return true;
    }
    let _ = few.remove(number);
    true
}

// Counts a time once less, if it has an entry in the tree, and tells whether it has one.
fn take_from_tree<T: Lattice>(others: &mut BTreeMap<T, usize>, t: &T) -> bool
    ensures counted { IsTrue result
        → CountAlike (t.now ∷ listed others.new.entries) (listed others.old.entries) }
    ensures missing { result ≡ false → Contains (listed others.old.entries) t.now → ⊥ }
    ensures unchanged { result ≡ false → others.new.entries ≡ others.old.entries }
{
    let Some(number) = others.get_mut(t) else {
        return false;
    };
    if *number > 0 {
        *number -= 1;
        return true;
    }
    let _ = others.remove(t);
    true
}

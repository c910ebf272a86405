//! Lists that enums and events have as fields. Each has a type of its own, so that a contract sees
//! a plain list, and two values with the same list are the same value.
ghost use Rattle.std.specs.Prelude.{◌≡◌, [], ◌∷◌, ◌++◌, IfOk, OnErr, OnOk, length};
ghost use Rattle.update.specs.Refusals.{OnlyMemory};

use crate::{Refusal, Update};
use lattice::Lattice;
use std::alloc::{AllocError, Global};
use std::marker::Model;
use std::mem;

/// Updates that travel together. A contract sees the list of them.
#[derive(Drop)]
pub struct Updates<T> {
    items: Vec<Update<T>>,
}

impl<T> Model for Updates<T> {
    ghost use Rattle.std.specs.Prelude.{List};
    ghost use Rattle.update.specs.declared.change.Update.{Update};

    ghost Value = { List (Update T) };

    ghost view = { λ u. u.items.items };
}

impl<T> Updates<T> {
    /// The updates, in the order in which they were pushed. Takes no memory.
    pub fn as_slice(&self) -> &[Update<T>]
        ensures { result.now ≡ self.now }
    {
        self.items.as_slice()
    }

    /// The number of updates. Takes no memory.
    pub fn len(&self) -> usize
        ensures { result ≡ length self.now }
    {
        self.items.len()
    }

    /// The updates as a vector. Takes no memory.
    pub fn into_vec(self) -> Vec<Update<T>>
        ensures { result.items ≡ self }
    {
        let Updates { items } = self;
        items
    }

    /// Takes all updates out, and leaves an empty list. Takes no memory.
    pub fn take(&mut self) -> Updates<T>
        ensures taken { result ≡ self.old }
        ensures left { self.new ≡ [] }
    {
        let none = Vec::new(*self.items.allocator());
        Updates {
            items: mem::replace(&mut self.items, none),
        }
    }
}

impl<T: Lattice> Updates<T> {
    /// Appends an update. Refused only with `OutOfMemory`; the update is then dropped.
    pub fn push(&mut self, update: Update<T>) -> Result<(), Refusal>
        ensures more { OnOk result (self.new ≡ self.old ++ update ∷ []) }
        ensures refused { OnlyMemory result }
    {
        self.items.push(update)?;
        Ok(())
    }

    /// A copy, in memory from this allocator. Refused only with `OutOfMemory`. Cost: linear in the
    /// number of updates.
    pub fn copy(&self, alloc: Global) -> Result<Updates<T>, Refusal>
        ensures copied { IfOk result (λ copy. copy ≡ self.now) }
        ensures refused { OnlyMemory result }
    {
        let mut items = Vec::with_capacity(alloc, self.items.len())?;
        for update in self.as_slice() {
            items.push(update.copy())?;
        }
        Ok(Updates { items })
    }

    /// Moves all updates of `more` to the end of this list. Refused only with `OutOfMemory`, and
    /// then both lists are as before.
    pub fn append(&mut self, more: &mut Updates<T>) -> Result<(), Refusal>
        ensures more { OnOk result (self.new ≡ self.old ++ more.old) }
        ensures refused { OnlyMemory result }
        ensures unchanged { OnErr result (self.new ≡ self.old) }
        ensures kept { OnErr result (more.new ≡ more.old) }
    {
        self.items.append(&mut more.items)?;
        Ok(())
    }
}

/// Takes no memory.
impl<T> From<Vec<Update<T>>> for Updates<T> {
    ghost use Rattle.std.specs.Prelude.{◌≡◌};

    ghost from_gives = { λ v r. r ≡ v.items };

    fn from(items: Vec<Update<T>>) -> Updates<T> {
        Updates { items }
    }
}

/// Times, such as the elements of a frontier. A contract sees the list of them.
#[derive(Drop)]
pub struct Times<T> {
    items: Vec<T>,
}

impl<T> Model for Times<T> {
    ghost use Rattle.std.specs.Prelude.{List};

    ghost Value = { List T };

    ghost view = { λ u. u.items.items };
}

impl<T> Times<T> {
    /// The times, in order. Takes no memory.
    pub fn as_slice(&self) -> &[T]
        ensures { result.now ≡ self.now }
    {
        self.items.as_slice()
    }

    /// The times as a vector. Takes no memory.
    pub fn into_vec(self) -> Vec<T>
        ensures { result.items ≡ self }
    {
        let Times { items } = self;
        items
    }
}

impl<T: Lattice> Times<T> {
    /// A copy of times. Refused only if memory is refused.
    ///
    /// Cost: linear in the times.
    pub fn from_slice(alloc: Global, times: &[T]) -> Result<Times<T>, AllocError>
        ensures { IfOk result (λ copy. copy ≡ times.now) }
    {
        let mut items = Vec::new(alloc);
        items.extend_from_slice(times)?;
        Ok(Times { items })
    }

    /// A copy. Refused only if memory is refused.
    ///
    /// Cost: linear in the times.
    pub fn copy(&self, alloc: Global) -> Result<Times<T>, AllocError>
        ensures { IfOk result (λ copy. copy ≡ self.now) }
    {
        Times::from_slice(alloc, self.as_slice())
    }
}

/// Takes no memory.
impl<T> From<Vec<T>> for Times<T> {
    ghost use Rattle.std.specs.Prelude.{◌≡◌};

    ghost from_gives = { λ v r. r ≡ v.items };

    fn from(items: Vec<T>) -> Times<T> {
        Times { items }
    }
}

//! A list of places: the indices of the histories that have pending times, so that a reduction
//! visits these and no others.
//!
//! Only [`Places::reserve`] takes memory. A caller reserves room first, and then no later step can
//! be refused.
ghost use Rattle.std.specs.Prelude.{◌≡◌, ◌≤◌, ◌+◌, ◌++◌, ◌∷◌, [], OnOk};
ghost use Rattle.update.specs.Refusals.{OnlyMemory};
ghost use Rattle.update.specs.declared.refusal.Refusal.{Refusal};

use std::alloc::Global;
use std::marker::Model;
use update::Refusal;

/// Places in a list, in order of arrival. A contract sees the list of them, and how many more there
/// is room for.
#[derive(Drop)]
pub(crate) struct Places {
    list: Vec<usize>,
}

impl Model for Places {
    ghost use Rattle.std.specs.Prelude.{◌-◌, vec_capacity, vec_len};
    ghost use Rattle.reduce.specs.Histories.{PlacesState};

    ghost Value = { PlacesState };

    ghost view = { λ p. record {
      items = p.list.items;
      spare = vec_capacity p.list - vec_len p.list;
    } };
}

impl Places {
    /// No places. Takes no memory.
    pub(crate) fn new(alloc: Global) -> Places
        ensures { result.items ≡ [] }
    {
        Places {
            list: Vec::new(alloc),
        }
    }

    /// The places of a list. Takes no memory.
    pub(crate) fn from(list: Vec<usize>) -> Places
        ensures { result.items ≡ list.items }
    {
        Places { list }
    }

    /// The places, in order of arrival. Takes no memory.
    pub(crate) fn as_slice(&self) -> &[usize]
        ensures { result.now ≡ self.now.items }
    {
        self.list.as_slice()
    }

    /// Makes room for `more` places, so that as many calls of [`push`](Places::push) take no
    /// memory. A call that is refused changes no place, and no room is lost.
    ///
    /// [`Refusal::OutOfMemory`] only if memory for the places was refused.
    pub(crate) fn reserve(&mut self, more: usize) -> Result<(), Refusal>
        ensures items { self.new.items ≡ self.old.items }
        ensures room { OnOk result (more ≤ self.new.spare) }
        ensures kept { self.old.spare ≤ self.new.spare }
        ensures only { OnlyMemory result }
    {
        self.list.reserve(more)?;
        Ok(())
    }

    /// Appends a place. There must be room for it. Takes no memory.
    pub(crate) fn push(&mut self, i: usize)
        requires room { 1 ≤ self.old.spare }
        ensures items { self.new.items ≡ self.old.items ++ i ∷ [] }
        ensures room { self.old.spare ≤ self.new.spare + 1 }
    {
        self.list.push(i).unwrap();
    }
}

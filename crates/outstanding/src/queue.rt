//! The queue of a place on a board: what waits there, the oldest first.
//!
//! Each place has a queue of its own, so a bundle is put and taken without a look at any other. A
//! change that was fed waits as it is, with no block of memory of its own, since a million changes
//! may wait.
ghost use Rattle.std.specs.Prelude.{◌≡◌, ◌<◌, ◌≤◌, ◌+◌, ◌++◌, List, [], ◌∷◌, Some, IfOk, OnErr, OnOk, length, slice_get};
ghost use Rattle.std.specs.List.{remove};
ghost use Rattle.update.specs.Refusals.{OnlyMemory};
ghost use Rattle.update.specs.declared.change.Update.{Update};
ghost use Rattle.progress.specs.Several.{items_at};
ghost use Rattle.progress.specs.Tallies.{SameCounts};
ghost use Rattle.outstanding.specs.declared.queue.Parcel.TheVariants.{Sent};
ghost use Rattle.outstanding.specs.Loads.{load_of};

use columns::UpdateList;
use lattice::Minimum;
use progress::{Capabilities, Place, Tally};
use std::alloc::Global;
use std::collections::VecDeque;
use std::marker::Model;
use update::{Refusal, Times, Update};

// A queue with room for so many parcels keeps it once nothing waits.
const SHORT: usize = 1024;

/// One thing that waits at a place: a change as it was fed, or a bundle that a worker sent.
#[derive(Drop)]
pub enum Parcel<T> {
    /// A change as it was fed.
    Change(Update<T>),
    /// The updates that a worker sent, and their stamp.
    Sent(UpdateList<T>, Times<T>),
}

/// What waits at a place, the oldest first. A contract sees the loads, and the number of further
/// loads for which room is reserved.
#[derive(Drop)]
pub struct Queue<T> {
    parcels: VecDeque<Parcel<T>>,
    // This many more loads fit without allocating. A give reserves room for each of its bundles
    // before it puts any. Without this number, the second bundle for a place would count on the
    // room of the first.
    reserved: usize,
}

impl<T> Model for Queue<T> {
    ghost use Rattle.std.specs.Prelude.{map, ◌+◌, ◌≤◌};
    ghost use Rattle.std.specs.VecDeque.{deque_len, deque_capacity};
    ghost use Rattle.outstanding.specs.Loads.{QueueState, load_of};

    ghost Value = { QueueState T };

    ghost view = { λ q. record { loads = map load_of q.parcels.items; room = q.reserved } };

    ghost invariant = { λ q. deque_len q.parcels + q.reserved ≤ deque_capacity q.parcels };
}

impl<T: Minimum> Queue<T> {
    /// A queue in which nothing waits. Takes no memory.
    pub fn new(alloc: Global) -> Queue<T>
        ensures { result.loads ≡ [] }
    {
        Queue {
            parcels: VecDeque::new(alloc),
            reserved: 0,
        }
    }

    /// The number of loads that wait. Takes no memory.
    pub fn len(&self) -> usize
        ensures { result ≡ length self.now.loads }
    {
        self.parcels.len()
    }

    /// Appends a parcel, and gives up any reserved room. Refused only with `OutOfMemory`; then the
    /// loads stay as they are.
    ///
    /// Cost: constant, apart from the queue's growth now and then.
    pub fn push(&mut self, parcel: Parcel<T>) -> Result<(), Refusal>
        ensures pushed { OnOk result (self.new.loads ≡ self.old.loads ++ load_of parcel ∷ []) }
        ensures refused { OnlyMemory result }
        ensures unchanged { OnErr result (self.new.loads ≡ self.old.loads) }
    {
        self.reserved = 0;
        self.parcels.push_back(parcel)?;
        Ok(())
    }

    /// Reserves room for one more load. Refused only with `OutOfMemory`; then the loads and the
    /// room stay as they are.
    ///
    /// Cost: constant, apart from the queue's growth now and then.
    pub fn reserve(&mut self) -> Result<(), Refusal>
        ensures unchanged { self.new.loads ≡ self.old.loads }
        ensures room { OnOk result (self.new.room ≡ self.old.room + 1) }
        ensures kept { OnErr result (self.new.room ≡ self.old.room) }
        ensures refused { OnlyMemory result }
    {
        self.parcels.reserve(self.reserved + 1)?;
        self.reserved += 1;
        Ok(())
    }

    /// Appends a parcel for which room is reserved. Takes no memory.
    pub fn push_reserved(&mut self, parcel: Parcel<T>)
        requires { 1 ≤ self.old.room }
        ensures pushed { self.new.loads ≡ self.old.loads ++ load_of parcel ∷ [] }
        ensures room { self.new.room + 1 ≡ self.old.room }
    {
        self.reserved -= 1;
        self.parcels.push_back_reserved(parcel);
    }

    /// Gives up all reserved room. Takes no memory, and constant time.
    pub fn release(&mut self)
        ensures unchanged { self.new.loads ≡ self.old.loads }
        ensures none { self.new.room ≡ 0 }
    {
        self.reserved = 0;
    }

    /// Takes the load of a number, from 0, out of the queue. Its stamp is held from then on at a
    /// place, and counted there. Refused only with `OutOfMemory`; then nothing changes, and no item
    /// is counted more or less often than before. It may allocate since a change gets lists of its
    /// own only now.
    ///
    /// Cost: that of [`Capabilities::hold_more`] for the stamp, and linear in the number of loads
    /// before it or behind it, whichever is smaller.
    pub fn take(
        &mut self,
        number: usize,
        held: &mut Capabilities<T>,
        tally: &mut Tally<T>,
        place: &Place,
    ) -> Result<(UpdateList<T>, Times<T>), Refusal>
        requires { number < length self.old.loads }
        ensures load { IfOk result (λ load. slice_get self.old.loads number
            ≡ Some (record { updates = load.0; stamp = load.1 })) }
        ensures rest { OnOk result (self.new.loads ≡ remove self.old.loads number) }
        ensures held { IfOk result (λ load. held.new ≡ held.old ++ load.1) }
        ensures counted { IfOk result (λ load.
            SameCounts tally.new.items (items_at place.now load.1 ++ tally.old.items)) }
        ensures nodes { tally.new.nodes ≡ tally.old.nodes }
        ensures refused { OnlyMemory result }
        ensures unchanged { OnErr result (self.new.loads ≡ self.old.loads) }
        ensures kept { OnErr result (held.new ≡ held.old) }
        ensures uncounted { OnErr result (SameCounts tally.new.items tally.old.items) }
    {
        let alloc = *self.parcels.allocator();
        self.parcels[number].unpack(alloc)?;
        self.parcels[number].hold_stamp(held, tally, place)?;
        match self.parcels.remove(number).unwrap() {
            Parcel::Sent(updates, stamp) => Ok((updates, stamp)),
            Parcel::Change(_update) => unreachable!(),
        }
    }

    /// Gives back the memory of a long queue in which nothing waits any more, and gives up all
    /// reserved room: a million changes may have waited, and never again. Takes no memory.
    pub fn shrink(&mut self)
        ensures unchanged { self.new.loads ≡ self.old.loads }
    {
        if self.parcels.is_empty() && self.parcels.capacity() > SHORT {
            self.reserved = 0;
            self.parcels.shrink_to_fit();
        }
    }
}

impl<T: Minimum> Parcel<T> {
    // Copies a change into two lists of its own, as a worker would send it.
    fn sent_alone(alloc: Global, update: &Update<T>) -> Result<Parcel<T>, Refusal>
        ensures sent { IfOk result (λ parcel.
            parcel ≡ Sent (update.now ∷ []) (update.now.time ∷ [])) }
        ensures refused { OnlyMemory result }
    {
        let mut updates = Vec::with_capacity(alloc, 1)?;
        let mut stamp = Vec::with_capacity(alloc, 1)?;
        updates.push_reserved(update.copy());
        stamp.push_reserved(update.time);
        Ok(Parcel::Sent(updates.into(), stamp.into()))
    }

    // Turns a waiting change, in its place, into the form that a worker would send. What a worker
    // sent stays as it is.
    fn unpack(&mut self, alloc: Global) -> Result<(), Refusal>
        ensures sent { OnOk result ((updates : List (Update T)) × ((stamp : List T)
            × (self.new ≡ Sent updates stamp))) }
        ensures unchanged { load_of self.new ≡ load_of self.old }
        ensures refused { OnlyMemory result }
    {
        let sent = match self {
            Parcel::Change(update) => Parcel::sent_alone(alloc, update)?,
            Parcel::Sent(_updates, _stamp) => return Ok(()),
        };
        *self = sent;
        Ok(())
    }

    // Holds the stamp of what a worker sent. Refused only with `OutOfMemory`, and then nothing
    // changes.
    fn hold_stamp(
        &self,
        held: &mut Capabilities<T>,
        tally: &mut Tally<T>,
        place: &Place,
    ) -> Result<(), Refusal>
        requires { (updates : List (Update T)) × ((stamp : List T)
            × (self.now ≡ Sent updates stamp)) }
        ensures held { OnOk result (held.new ≡ held.old ++ (load_of self.now).stamp) }
        ensures counted { OnOk result (SameCounts tally.new.items
            (items_at place.now (load_of self.now).stamp ++ tally.old.items)) }
        ensures nodes { tally.new.nodes ≡ tally.old.nodes }
        ensures refused { OnlyMemory result }
        ensures kept { OnErr result (held.new ≡ held.old) }
        ensures uncounted { OnErr result (SameCounts tally.new.items tally.old.items) }
    {
        match self {
            Parcel::Sent(_updates, stamp) => held.hold_more(tally, place, stamp.as_slice()),
            Parcel::Change(_update) => unreachable!(),
        }
    }
}

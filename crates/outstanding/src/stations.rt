//! The stations of a board. A station is what lies at a node for one worker: the bundles that wait
//! at both ports, and the times that the worker holds there.
//!
//! A place is found by its numbers, so an event there costs the same however much waits anywhere
//! else.
//!
//! What a worker holds are capabilities, which a tally counts. They cannot be dropped, so neither
//! can a station, nor what has stations: [`Stations::give_back`] ends them.
ghost use Rattle.std.specs.Prelude.{◌≡◌, ◌<◌, ◌&&◌, ◌++◌, ℕ, [], suc, eqb, false, Some, IfOk, IfSome, OnErr, OnOk, length, slice_get, get_or, map, replicate};
ghost use Rattle.std.specs.List.{All};
ghost use Rattle.update.specs.Refusals.{OnlyMemory};
ghost use Rattle.progress.specs.declared.place.Place.TheVariants.{Held};
ghost use Rattle.progress.specs.Several.{items_at, AreCounted};
ghost use Rattle.progress.specs.Tallies.{SameCounts};
ghost use Rattle.histories.specs.declared.event.Site.{Site};
ghost use Rattle.histories.specs.Histories.Outstanding.{items_held};
ghost use Rattle.outstanding.specs.Loads.{load_of, no_lot, loads_at, with_load_at, without_load_at, lot_in, lot_of, at_worker, first_stations, put_at, put_all, taken_from, held_from, held_by_all, queue_of, all_held};
ghost use Rattle.histories.specs.Histories.States.{same_place};
ghost use Rattle.outstanding.specs.Stations.{lot, lots, has_room, IsReleased, RowHasRoom, HasRoom, HasReleased, HasRoomFor};

use crate::queue::{Parcel, Queue};
use columns::UpdateList;
use histories::{Bundle, Site};
use lattice::Minimum;
use plan::NodeId;
use progress::{Capabilities, Place, Tally};
use std::alloc::Global;
use std::marker::Model;
use update::{Refusal, Times};

/// What lies at a node for a worker.
pub struct Station<T> {
    pub(crate) left: Queue<T>,
    pub(crate) right: Queue<T>,
    pub(crate) held: Capabilities<T>,
}

/// The stations of a node, by worker. A contract sees the list of them.
pub struct Row<T> {
    pub(crate) by_worker: Vec<Station<T>>,
}

impl<T> Model for Row<T> {
    ghost use Rattle.std.specs.Prelude.{List};
    ghost use Rattle.outstanding.specs.declared.stations.Station.{Station};

    ghost Value = { List (Station T) };

    ghost view = { λ r. r.by_worker.items };
}

impl<T: Minimum> Station<T> {
    // A station at which nothing lies. Takes no memory.
    fn new(alloc: Global) -> Station<T>
        ensures { lot result ≡ no_lot }
    {
        Station {
            left: Queue::new(alloc),
            right: Queue::new(alloc),
            held: Capabilities::none(alloc),
        }
    }

    // Puts a load at a port, behind the others; drops it if no node has such a port.
    fn put(&mut self, port: usize, parcel: Parcel<T>) -> Result<(), Refusal>
        ensures put { OnOk result
            (lot self.new ≡ with_load_at port (load_of parcel) (lot self.old)) }
        ensures refused { OnlyMemory result }
        ensures unchanged { OnErr result (lot self.new ≡ lot self.old) }
    {
        match port {
            0 => self.left.push(parcel),
            1 => self.right.push(parcel),
            _ => Ok(()),
        }
    }

    // Reserves room for one more load at a port. No port loses room.
    fn reserve(&mut self, port: usize) -> Result<(), Refusal>
        ensures unchanged { lot self.new ≡ lot self.old }
        ensures room { OnOk result ((n : ℕ)
            → has_room port n self.old → has_room port (suc n) self.new) }
        ensures kept { (p n : ℕ) → has_room p n self.old → has_room p n self.new }
        ensures refused { OnlyMemory result }
    {
        match port {
            0 => self.left.reserve(),
            1 => self.right.reserve(),
            _ => Ok(()),
        }
    }

    // Gives up all reserved room.
    fn release(&mut self)
        ensures unchanged { lot self.new ≡ lot self.old }
        ensures none { IsReleased self.new }
    {
        self.left.release();
        self.right.release();
    }

    // Puts a load at a port that has room for it, behind the others. The port's room shrinks by
    // one, and no other port loses room.
    fn put_reserved(&mut self, port: usize, parcel: Parcel<T>)
        requires { has_room port 1 self.old }
        ensures put { lot self.new ≡ with_load_at port (load_of parcel) (lot self.old) }
        ensures room { (n : ℕ) → has_room port (suc n) self.old → has_room port n self.new }
        ensures others { (p n : ℕ) → eqb port p ≡ false
            → has_room p n self.old → has_room p n self.new }
    {
        match port {
            0 => self.left.push_reserved(parcel),
            1 => self.right.push_reserved(parcel),
            _ => {}
        }
    }

    // Takes the load of a number from a port. The worker then holds its stamp at this place.
    fn take(
        &mut self,
        port: usize,
        number: usize,
        tally: &mut Tally<T>,
        place: &Place,
    ) -> Result<(UpdateList<T>, Times<T>), Refusal>
        requires { number < length (loads_at port (lot self.old)) }
        ensures load { IfOk result (λ load. slice_get (loads_at port (lot self.old)) number
            ≡ Some (record { updates = load.0; stamp = load.1 })) }
        ensures taken { IfOk result (λ load.
            lot self.new ≡ without_load_at port number load.1 (lot self.old)) }
        ensures counted { IfOk result (λ load.
            SameCounts tally.new.items (items_at place.now load.1 ++ tally.old.items)) }
        ensures nodes { tally.new.nodes ≡ tally.old.nodes }
        ensures refused { OnlyMemory result }
        ensures unchanged { OnErr result (lot self.new ≡ lot self.old) }
        ensures uncounted { OnErr result (SameCounts tally.new.items tally.old.items) }
    {
        match port {
            0 => self.left.take(number, &mut self.held, tally, place),
            1 => self.right.take(number, &mut self.held, tally, place),
            _ => unreachable!(),
        }
    }

    // The worker holds these from now on at this place, and gives back what it held. Queues that
    // were emptied give their memory back.
    fn exchange(&mut self, tally: &mut Tally<T>, place: &Place, held: Capabilities<T>)
        requires { AreCounted tally.old.items (items_at place.now (lot self.old).held) }
        ensures held { lot self.new ≡ record (lot self.old) { held = held } }
        ensures counted { SameCounts (items_at place.now (lot self.old).held ++ tally.new.items)
            tally.old.items }
        ensures nodes { tally.new.nodes ≡ tally.old.nodes }
    {
        self.left.shrink();
        self.right.shrink();
        self.held.exchange(tally, place, held);
    }

    // Ends the station. The worker gives back what it held.
    fn give_back(self, tally: &mut Tally<T>, place: &Place)
        requires { AreCounted tally.old.items (items_at place.now (lot self).held) }
        ensures counted { SameCounts (items_at place.now (lot self).held ++ tally.new.items)
            tally.old.items }
        ensures nodes { tally.new.nodes ≡ tally.old.nodes }
    {
        let Station {
            left: _left,
            right: _right,
            held,
        } = self;
        let _times = held.give_back(tally, place);
    }
}

impl<T: Minimum> Row<T> {
    // The stations of this many workers, at which nothing lies.
    fn first(alloc: Global, workers: usize) -> Result<Row<T>, Refusal>
        ensures first { IfOk result (λ row. map lot row ≡ replicate workers no_lot) }
        ensures refused { OnlyMemory result }
    {
        let mut by_worker = Vec::with_capacity(alloc, workers)?;
        for _worker in 0..workers {
            by_worker.push_reserved(Station::new(alloc));
        }
        Ok(Row { by_worker })
    }

    // Puts a load at a worker's port, behind the others; drops it if there is no such worker.
    fn put(&mut self, worker: usize, port: usize, parcel: Parcel<T>) -> Result<(), Refusal>
        ensures put { OnOk result (map lot self.new
            ≡ at_worker worker (with_load_at port (load_of parcel)) (map lot self.old)) }
        ensures refused { OnlyMemory result }
        ensures unchanged { OnErr result (map lot self.new ≡ map lot self.old) }
    {
        if worker >= self.by_worker.len() {
            return Ok(());
        }
        self.by_worker[worker].put(port, parcel)
    }

    // Reserves room for one more load at a worker's port. No port loses room.
    fn reserve(&mut self, worker: usize, port: usize) -> Result<(), Refusal>
        ensures unchanged { map lot self.new ≡ map lot self.old }
        ensures room { OnOk result ((n : ℕ)
            → RowHasRoom worker port n self.old → RowHasRoom worker port (suc n) self.new) }
        ensures kept { (k p n : ℕ) → RowHasRoom k p n self.old → RowHasRoom k p n self.new }
        ensures refused { OnlyMemory result }
    {
        if worker >= self.by_worker.len() {
            return Ok(());
        }
        self.by_worker[worker].reserve(port)
    }

    // Gives up all room that is reserved for a worker.
    fn release(&mut self, worker: usize)
        ensures unchanged { map lot self.new ≡ map lot self.old }
        ensures none { IfSome (slice_get self.new worker) IsReleased }
        ensures kept { (k : ℕ) → IfSome (slice_get self.old k) IsReleased
            → IfSome (slice_get self.new k) IsReleased }
    {
        if worker < self.by_worker.len() {
            self.by_worker[worker].release();
        }
    }

    // Puts a load at a worker's port that has room for it, behind the others; drops it if there is
    // no such worker. The port's room shrinks by one, and no other port loses room.
    fn put_reserved(&mut self, worker: usize, port: usize, parcel: Parcel<T>)
        requires { RowHasRoom worker port 1 self.old }
        ensures put { map lot self.new
            ≡ at_worker worker (with_load_at port (load_of parcel)) (map lot self.old) }
        ensures room { (n : ℕ)
            → RowHasRoom worker port (suc n) self.old → RowHasRoom worker port n self.new }
        ensures others { (k p n : ℕ) → (eqb port p && eqb worker k) ≡ false
            → RowHasRoom k p n self.old → RowHasRoom k p n self.new }
    {
        if worker < self.by_worker.len() {
            self.by_worker[worker].put_reserved(port, parcel);
        }
    }

    // Takes the load of a number from a worker's port. The worker then holds its stamp at this
    // place.
    fn take(
        &mut self,
        worker: usize,
        port: usize,
        number: usize,
        tally: &mut Tally<T>,
        place: &Place,
    ) -> Result<(UpdateList<T>, Times<T>), Refusal>
        requires { number < length (loads_at port (lot_in (map lot self.old) worker)) }
        ensures load { IfOk result (λ load.
            slice_get (loads_at port (lot_in (map lot self.old) worker)) number
            ≡ Some (record { updates = load.0; stamp = load.1 })) }
        ensures taken { IfOk result (λ load. map lot self.new
            ≡ at_worker worker (without_load_at port number load.1) (map lot self.old)) }
        ensures counted { IfOk result (λ load.
            SameCounts tally.new.items (items_at place.now load.1 ++ tally.old.items)) }
        ensures nodes { tally.new.nodes ≡ tally.old.nodes }
        ensures refused { OnlyMemory result }
        ensures unchanged { OnErr result (map lot self.new ≡ map lot self.old) }
        ensures uncounted { OnErr result (SameCounts tally.new.items tally.old.items) }
    {
        self.by_worker[worker].take(port, number, tally, place)
    }

    // A worker holds these from now on at this place, and gives back what it held.
    fn exchange(
        &mut self,
        worker: usize,
        tally: &mut Tally<T>,
        place: &Place,
        held: Capabilities<T>,
    )
        requires staffed { worker < length self.old }
        requires counted { AreCounted tally.old.items
            (items_at place.now (lot_in (map lot self.old) worker).held) }
        ensures held { map lot self.new
            ≡ at_worker worker (λ l. record l { held = held }) (map lot self.old) }
        ensures counted { SameCounts
            (items_at place.now (lot_in (map lot self.old) worker).held ++ tally.new.items)
            tally.old.items }
        ensures nodes { tally.new.nodes ≡ tally.old.nodes }
    {
        self.by_worker[worker].exchange(tally, place, held);
    }

    // Ends the stations of a node. The workers give back what they held.
    fn give_back(self, tally: &mut Tally<T>, place: &Place)
        requires { AreCounted tally.old.items (items_at place.now (held_by_all (map lot self))) }
        ensures counted { SameCounts (items_at place.now (held_by_all (map lot self))
            ++ tally.new.items) tally.old.items }
        ensures nodes { tally.new.nodes ≡ tally.old.nodes }
    {
        let Row { mut by_worker } = self;
        while let Some(station) = by_worker.pop() {
            station.give_back(tally, place);
        }
        by_worker.destroy_empty();
    }
}

/// The stations of all nodes. A contract sees the lists of them, by node and by worker. They must
/// be ended, by `give_back`.
pub struct Stations<T> {
    pub(crate) by_node: Vec<Row<T>>,
}

impl<T> Model for Stations<T> {
    ghost use Rattle.std.specs.Prelude.{List};
    ghost use Rattle.outstanding.specs.declared.stations.Station.{Station};

    ghost Value = { List (List (Station T)) };

    ghost view = { λ s. s.by_node.items };
}

impl<T: Minimum> Stations<T> {
    /// The stations of this many nodes and workers, at which nothing lies. Refused only with
    /// `OutOfMemory`. Then those that were made are ended, for which the tally is needed: it counts
    /// the same before and after.
    ///
    /// Cost: linear in the stations.
    pub fn first(
        alloc: Global,
        nodes: usize,
        workers: usize,
        tally: &mut Tally<T>,
    ) -> Result<Stations<T>, Refusal>
        ensures first { IfOk result (λ stations. lots stations ≡ first_stations nodes workers) }
        ensures refused { OnlyMemory result }
        ensures counted { SameCounts tally.new.items tally.old.items }
        ensures nodes { tally.new.nodes ≡ tally.old.nodes }
    {
        let mut by_node = Vec::with_capacity(alloc, nodes)?;
        for _node in 0..nodes {
            match Row::first(alloc, workers) {
                Ok(row) => by_node.push_reserved(row),
                Err(refusal) => {
                    Stations { by_node }.give_back(tally);
                    return Err(refusal);
                }
            }
        }
        Ok(Stations { by_node })
    }

    /// Ends the stations. All workers give back what they hold, which must be counted. What waits
    /// is dropped. Takes no memory.
    ///
    /// Cost: linear in the stations and in what lies there, and that of
    /// [`Capabilities::give_back`] for each of them.
    pub fn give_back(self, tally: &mut Tally<T>)
        requires { AreCounted tally.old.items (items_held (all_held (lots self))) }
        ensures counted { SameCounts (items_held (all_held (lots self)) ++ tally.new.items)
            tally.old.items }
        ensures nodes { tally.new.nodes ≡ tally.old.nodes }
    {
        let Stations { mut by_node } = self;
        while let Some(row) = by_node.pop() {
            let node = NodeId::new(by_node.len());
            row.give_back(tally, &Place::Held { node });
        }
        by_node.destroy_empty();
    }

    /// Puts a change, or what a worker sent, at a place; drops it if there is no such place.
    /// Refused only with `OutOfMemory`, and then nothing changes.
    ///
    /// Cost: constant, apart from the queue's growth now and then.
    pub fn put(&mut self, site: &Site, parcel: Parcel<T>) -> Result<(), Refusal>
        ensures put { OnOk result
            (lots self.new ≡ put_at site.now (load_of parcel) (lots self.old)) }
        ensures refused { OnlyMemory result }
        ensures unchanged { OnErr result (lots self.new ≡ lots self.old) }
    {
        let node = site.node.number();
        if node >= self.by_node.len() {
            return Ok(());
        }
        self.by_node[node].put(site.worker, site.port, parcel)
    }

    /// Reserves room at each place for the bundles of the list that go there. Refused only with
    /// `OutOfMemory`. Some room may then be reserved already; [`Stations::release`] gives it up.
    ///
    /// Cost: linear in the bundles, apart from the queues' growth now and then. Memory: one slot
    /// for each bundle, at its own place alone, and what a growing queue takes ahead.
    pub fn reserve(&mut self, sent: &[Bundle<T>]) -> Result<(), Refusal>
        ensures unchanged { lots self.new ≡ lots self.old }
        ensures room { OnOk result (HasRoomFor sent.now self.new) }
        ensures refused { OnlyMemory result }
    {
        for bundle in sent {
            self.reserve_at(&bundle.place)?;
        }
        Ok(())
    }

    // Reserves room for one more load at a place. No place loses room.
    fn reserve_at(&mut self, site: &Site) -> Result<(), Refusal>
        ensures unchanged { lots self.new ≡ lots self.old }
        ensures room { OnOk result ((n : ℕ)
            → HasRoom n self.old site.now → HasRoom (suc n) self.new site.now) }
        ensures kept { (at : Site) (n : ℕ) → HasRoom n self.old at → HasRoom n self.new at }
        ensures refused { OnlyMemory result }
    {
        let node = site.node.number();
        if node >= self.by_node.len() {
            return Ok(());
        }
        self.by_node[node].reserve(site.worker, site.port)
    }

    /// Gives up the reserved room at the places of these bundles. So a give that was refused leaves
    /// no reservation behind that a later one would add to. Takes no memory.
    ///
    /// Cost: linear in the bundles.
    pub fn release(&mut self, sent: &[Bundle<T>])
        ensures unchanged { lots self.new ≡ lots self.old }
        ensures none { All (λ b. HasReleased self.new b.place) sent.now }
    {
        for bundle in sent {
            self.release_at(&bundle.place);
        }
    }

    // Gives up the reserved room at a place's node and worker, at both ports.
    fn release_at(&mut self, site: &Site)
        ensures unchanged { lots self.new ≡ lots self.old }
        ensures none { HasReleased self.new site.now }
        ensures kept { (at : Site) → HasReleased self.old at → HasReleased self.new at }
    {
        let node = site.node.number();
        if node < self.by_node.len() {
            self.by_node[node].release(site.worker);
        }
    }

    /// Puts each bundle at its place; drops a bundle whose place does not exist. Takes no memory.
    ///
    /// Cost: linear in the bundles.
    pub fn put_all(&mut self, sent: Vec<Bundle<T>>)
        requires { HasRoomFor sent.items self.old }
        ensures { lots self.new ≡ put_all sent.items (lots self.old) }
    {
        for bundle in sent {
            let Bundle {
                place,
                updates,
                stamp,
            } = bundle;
            self.put_reserved(&place, Parcel::Sent(updates, stamp));
        }
    }

    // Puts a load at a place that has room for it, behind the others; drops it if there is no such
    // place. The place's room shrinks by one, and no other place loses room.
    fn put_reserved(&mut self, site: &Site, parcel: Parcel<T>)
        requires { HasRoom 1 self.old site.now }
        ensures put { lots self.new ≡ put_at site.now (load_of parcel) (lots self.old) }
        ensures room { (n : ℕ) → HasRoom (suc n) self.old site.now → HasRoom n self.new site.now }
        ensures others { (at : Site) (n : ℕ) → same_place site.now at ≡ false
            → HasRoom n self.old at → HasRoom n self.new at }
    {
        let node = site.node.number();
        if node < self.by_node.len() {
            self.by_node[node].put_reserved(site.worker, site.port, parcel);
        }
    }

    /// Takes the bundle of a number, from 0, from its place. The worker then holds its stamp at the
    /// node, and the tally counts it there. Refused only with `OutOfMemory`. Then nothing changes,
    /// and no item is counted more or less often than before.
    ///
    /// Cost: that of [`Capabilities::hold_more`] for the stamp, and linear in the number of bundles
    /// before it or behind it, whichever is smaller.
    pub fn take(
        &mut self,
        site: &Site,
        number: usize,
        tally: &mut Tally<T>,
    ) -> Result<Bundle<T>, Refusal>
        requires { number < length (queue_of (lots self.old) site.now) }
        ensures waited { IfOk result (λ bundle.
            slice_get (queue_of (lots self.old) site.now) number ≡ Some bundle) }
        ensures place { IfOk result (λ bundle. bundle.place ≡ site.now) }
        ensures taken { IfOk result (λ bundle.
            lots self.new ≡ taken_from number bundle (lots self.old)) }
        ensures counted { IfOk result (λ bundle. SameCounts tally.new.items
            (items_at (Held site.now.node) bundle.stamp ++ tally.old.items)) }
        ensures nodes { tally.new.nodes ≡ tally.old.nodes }
        ensures refused { OnlyMemory result }
        ensures unchanged { OnErr result (lots self.new ≡ lots self.old) }
        ensures uncounted { OnErr result (SameCounts tally.new.items tally.old.items) }
    {
        let held = Place::Held { node: site.node };
        let row = &mut self.by_node[site.node.number()];
        let (updates, stamp) = row.take(site.worker, site.port, number, tally, &held)?;
        Ok(Bundle {
            place: *site,
            updates,
            stamp,
        })
    }

    /// A worker holds these at a node from now on, and gives back what it held there, which must be
    /// counted. Takes no memory.
    ///
    /// Cost: that of [`Capabilities::exchange`].
    pub fn exchange(
        &mut self,
        node: NodeId,
        worker: usize,
        tally: &mut Tally<T>,
        held: Capabilities<T>,
    )
        requires staffed { worker < length (get_or (lots self.old) node []) }
        requires counted { AreCounted tally.old.items
            (items_at (Held node) (lot_of (lots self.old) node worker).held) }
        ensures held { lots self.new ≡ held_from node worker held (lots self.old) }
        ensures counted { SameCounts
            (items_at (Held node) (lot_of (lots self.old) node worker).held ++ tally.new.items)
            tally.old.items }
        ensures nodes { tally.new.nodes ≡ tally.old.nodes }
    {
        let row = &mut self.by_node[node.number()];
        row.exchange(worker, tally, &Place::Held { node }, held);
    }
}

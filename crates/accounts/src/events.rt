//! What clients do to the accounts, and what a worker that takes does. What comes in is counted
//! before anything moves, and what goes out is counted off last.
ghost use Rattle.std.specs.Prelude.{◌≡◌, ◌<◌, [], IfErr, IfOk, None, OnErr, OnOk, Some, length, set, slice_get};
ghost use Rattle.update.specs.Refusals.{OnlyMemory, IsRefusalBy};
ghost use Rattle.plan.specs.Rules.{first_refusal};
ghost use Rattle.outstanding.specs.declared.queue.Parcel.TheVariants.{Change};
ghost use Rattle.outstanding.specs.Inputs.{front_at, advance_faults};
ghost use Rattle.outstanding.specs.Loads.{load_of, put_at, queue_of, taken_from};
ghost use Rattle.accounts.specs.Accounts.{with_stations};

use crate::accounts::Accounts;
use crate::count::port_of;
use antichain::all_beyond;
use histories::{Bundle, Site};
use lattice::Minimum;
use outstanding::Parcel;
use plan::NodeId;
use progress::Place;
use update::{Refusal, Times, Update};

impl<T: Minimum> Accounts<T> {
    /// Puts a change at a place, behind what waits there; drops it if there is no such place.
    /// Refused only with `OutOfMemory`, and then nothing changes.
    ///
    /// Cost: that of [`Tally::add`](progress::Tally::add), and of the queue's growth now and then.
    pub fn put(&mut self, site: &Site, update: Update<T>) -> Result<(), Refusal>
        ensures put { OnOk result (self.new ≡ with_stations self.old
            (put_at site.now (load_of (Change update)) self.old.stations)) }
        ensures refused { OnlyMemory result }
        ensures unchanged { OnErr result (self.new ≡ self.old) }
    {
        if !self.stations.has_place(site) {
            return Ok(());
        }
        let time = update.time;
        self.tally.add(port_of(site), time)?;
        if let Err(refusal) = self.stations.put(site, Parcel::Change(update)) {
            self.tally.remove(&port_of(site), &time);
            return Err(refusal);
        }
        Ok(())
    }

    /// Takes the bundle of a number, from 0, from its place. The worker then holds its stamp there.
    /// Refused only with `OutOfMemory`, and then nothing changes.
    ///
    /// Cost: linear in the stamp, with the cost of [`Tally::add`](progress::Tally::add) for each of
    /// its elements, and in the number of bundles before it or behind it, whichever is smaller.
    pub fn take(&mut self, site: &Site, number: usize) -> Result<Bundle<T>, Refusal>
        requires { number < length (queue_of self.old.stations site.now) }
        ensures waited { IfOk result (λ bundle.
            slice_get (queue_of self.old.stations site.now) number ≡ Some bundle) }
        ensures place { IfOk result (λ bundle. bundle.place ≡ site.now) }
        ensures taken { IfOk result (λ bundle.
            self.new ≡ with_stations self.old (taken_from number bundle self.old.stations)) }
        ensures refused { OnlyMemory result }
        ensures unchanged { OnErr result (self.new ≡ self.old) }
    {
        let bundle = self.stations.take(site, number, &mut self.tally)?;
        self.tally
            .remove_all(&port_of(site), bundle.stamp.as_slice());
        Ok(bundle)
    }

    /// Moves an input's frontier forward to these times; with no times the input is closed. Refused
    /// with `NotForward` if one of the times is not beyond the old frontier, otherwise only with
    /// `OutOfMemory`. Then nothing changes.
    ///
    /// Cost: the product of the times and the elements of the input's old frontier, and for each of
    /// them that of [`Tally::add`](progress::Tally::add).
    pub fn advance(&mut self, input: NodeId, times: Times<T>) -> Result<(), Refusal>
        requires { input < length self.old.nodes }
        ensures moved { OnOk result
            (self.new ≡ record self.old { inputs = set self.old.inputs input times }) }
        ensures accepted { OnOk result (first_refusal
            (advance_faults T.times (front_at input self.old.inputs) times) ≡ None) }
        ensures refused { IfErr result (IsRefusalBy (first_refusal
            (advance_faults T.times (front_at input self.old.inputs) times))) }
        ensures unchanged { OnErr result (self.new ≡ self.old) }
    {
        if !all_beyond(self.inputs.of(input), times.as_slice()) {
            return Err(Refusal::NotForward);
        }
        let place = Place::Input { node: input };
        self.tally.add_all(&place, times.as_slice())?;
        self.tally.remove_all(&place, self.inputs.of(input));
        self.inputs.stand_at(input, times);
        Ok(())
    }

    /// The frontier of an input: changes may still be fed at times beyond it. Takes no memory.
    pub fn open_times(&self, input: NodeId) -> &[T]
        requires { input < length self.now.nodes }
        ensures { result.now ≡ front_at input self.now.inputs }
    {
        self.inputs.of(input)
    }

    /// Closes an input: its frontier then has no times. Takes no memory.
    ///
    /// Cost: that of [`Tally::remove`](progress::Tally::remove) for each element of its frontier.
    pub fn close(&mut self, input: NodeId)
        requires { input < length self.old.nodes }
        ensures { self.new ≡ record self.old { inputs = set self.old.inputs input [] } }
    {
        self.tally
            .remove_all(&Place::Input { node: input }, self.inputs.of(input));
        self.inputs.close(input);
    }
}

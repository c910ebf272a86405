//! The capabilities of one owner at one place, as one value that must be spent.
//!
//! A worker may hold many times at a node. A list of [`Capability`](crate::Capability) would keep
//! the place with each of them. So [`Capabilities`] keep the times alone, and their owner says at
//! each call where they are held: a board has one such value for each node and worker. All else is
//! as with a single capability. The tally counts each time as often as it is held here, from the
//! call that holds it to the call that gives it back, and no call lets one go otherwise. They are
//! not `Drop`, so a body that forgets them does not compile.
ghost use Rattle.std.specs.Prelude.{◌≡◌, ◌++◌, [], IfErr, IfOk, OnErr, OnOk};
ghost use Rattle.update.specs.Refusals.{OnlyMemory};
ghost use Rattle.progress.specs.Tallies.{AreMarksBelow, SameCounts};
ghost use Rattle.progress.specs.Several.{items_at, AreCounted};

use crate::place::Place;
use crate::tally::Tally;
use lattice::Lattice;
use std::alloc::Global;
use std::marker::Model;
use update::{Refusal, Times};

// A list with room for at most this many times keeps its memory when nothing is held any more,
// since the next stamp goes there. A longer one is freed.
const MAX_KEPT: usize = 64;

/// What an owner holds at one place. Its owner knows the place, and the tally that counts it. It is
/// not `Drop`, so it must be spent: `give_back` ends it, and `end` if nothing is held. A contract
/// sees the times.
pub struct Capabilities<T> {
    times: Vec<T>,
}

impl<T> Model for Capabilities<T> {
    ghost use Rattle.std.specs.Prelude.{List};

    ghost Value = { List T };

    ghost view = { λ c. c.times.items };
}

impl<T: Lattice> Capabilities<T> {
    /// Nothing is held. Takes no memory.
    pub fn none(alloc: Global) -> Capabilities<T>
        ensures { result ≡ [] }
    {
        Capabilities {
            times: Vec::new(alloc),
        }
    }

    /// Holds these times at a place, each as often as it occurs among them. Refused only if memory
    /// runs out. Then the times come back, and no item is counted more or less often than before.
    ///
    /// Cost: that of [`Tally::add_all`]. The list itself moves.
    pub fn hold(
        tally: &mut Tally<T>,
        place: &Place,
        times: Times<T>,
    ) -> Result<Capabilities<T>, Times<T>>
        ensures held { IfOk result (λ held. held ≡ times) }
        ensures returned { IfErr result (λ back. back ≡ times) }
        ensures counted { OnOk result
            (SameCounts tally.new.items (items_at place.now times ++ tally.old.items)) }
        ensures nodes { tally.new.nodes ≡ tally.old.nodes }
        ensures unchanged { OnErr result (SameCounts tally.new.items tally.old.items) }
        ensures marked { OnOk result (tally.new.marked ≡ tally.old.marked) }
        ensures below { OnErr result
            (AreMarksBelow tally.old.nodes place.now tally.old.marked tally.new.marked) }
        ensures rebuilt { tally.new.rebuilt ≡ tally.old.rebuilt }
    {
        if let Err(_refused) = tally.add_all(place, times.as_slice()) {
            return Err(times);
        }
        Ok(Capabilities {
            times: times.into_vec(),
        })
    }

    /// The times that are held, in the order in which they came. Takes no memory.
    pub fn times(&self) -> &[T]
        ensures { result.now ≡ self.now }
    {
        self.times.as_slice()
    }

    /// Holds these times too, behind the others. Refused only with `OutOfMemory`. Then nothing more
    /// is held, and no item is counted more or less often than before.
    ///
    /// Cost: that of [`Tally::add_all`], and of the list's growth now and then.
    pub fn hold_more(
        &mut self,
        tally: &mut Tally<T>,
        place: &Place,
        times: &[T],
    ) -> Result<(), Refusal>
        ensures held { OnOk result (self.new ≡ self.old ++ times.now) }
        ensures counted { OnOk result
            (SameCounts tally.new.items (items_at place.now times.now ++ tally.old.items)) }
        ensures nodes { tally.new.nodes ≡ tally.old.nodes }
        ensures refused { OnlyMemory result }
        ensures kept { OnErr result (self.new ≡ self.old) }
        ensures unchanged { OnErr result (SameCounts tally.new.items tally.old.items) }
        ensures marked { OnOk result (tally.new.marked ≡ tally.old.marked) }
        ensures below { OnErr result
            (AreMarksBelow tally.old.nodes place.now tally.old.marked tally.new.marked) }
        ensures rebuilt { tally.new.rebuilt ≡ tally.old.rebuilt }
    {
        let before = self.times.len();
        self.times.extend_from_slice(times)?;
        if let Err(refusal) = tally.add_all(place, times) {
            self.times.truncate(before);
            return Err(refusal);
        }
        Ok(())
    }

    /// Gives all of these back, and has others in their place, which are held already. All of these
    /// must be counted at the place. Takes no memory.
    ///
    /// Cost: that of [`Tally::remove_all`]. The list of the others moves.
    pub fn exchange(&mut self, tally: &mut Tally<T>, place: &Place, others: Capabilities<T>)
        requires { AreCounted tally.old.items (items_at place.now self.old) }
        ensures held { self.new ≡ others }
        ensures counted { SameCounts (items_at place.now self.old ++ tally.new.items)
            tally.old.items }
        ensures nodes { tally.new.nodes ≡ tally.old.nodes }
        ensures below { AreMarksBelow tally.old.nodes place.now tally.old.marked tally.new.marked }
        ensures rebuilt { tally.new.rebuilt ≡ tally.old.rebuilt }
    {
        tally.remove_all(place, self.times.as_slice());
        let Capabilities { times } = others;
        if times.is_empty() && self.times.capacity() <= MAX_KEPT {
            self.times.clear();
        } else {
            self.times = times;
        }
    }

    /// Gives all back, and answers the times that were held. All of them must be counted at the
    /// place. Takes no memory.
    ///
    /// Cost: that of [`Tally::remove_all`].
    pub fn give_back(self, tally: &mut Tally<T>, place: &Place) -> Times<T>
        requires { AreCounted tally.old.items (items_at place.now self) }
        ensures times { result ≡ self }
        ensures counted { SameCounts (items_at place.now self ++ tally.new.items) tally.old.items }
        ensures nodes { tally.new.nodes ≡ tally.old.nodes }
        ensures below { AreMarksBelow tally.old.nodes place.now tally.old.marked tally.new.marked }
        ensures rebuilt { tally.new.rebuilt ≡ tally.old.rebuilt }
    {
        let Capabilities { times } = self;
        tally.remove_all(place, times.as_slice());
        times.into()
    }

    /// Ends the value when nothing is held. Takes no memory.
    pub fn end(self)
        requires { self ≡ [] }
    {
        let Capabilities { times: _empty } = self;
    }
}

//! Several times at one place, counted or not counted together. The stamp of a bundle is counted in
//! this way, and so is what a worker holds at a node. Either all are counted or none is, so a
//! caller that is refused memory has nothing to take back.
ghost use Rattle.std.specs.Prelude.{◌≡◌, ◌++◌, OnErr, OnOk};
ghost use Rattle.update.specs.Refusals.{OnlyMemory};
ghost use Rattle.progress.specs.Tallies.{AreMarksBelow, SameCounts};
ghost use Rattle.progress.specs.Several.{items_at, AreCounted};

use crate::place::Place;
use crate::tally::Tally;
use lattice::Lattice;
use update::Refusal;

impl<T: Lattice> Tally<T> {
    /// Counts each of these times at a place, once for each time that it occurs among them. Refused
    /// only with `OutOfMemory`, and then no item is counted more or less often than before.
    ///
    /// Cost: that of [`Tally::add`] for each time; if it is refused, that of [`Tally::remove`] too.
    pub fn add_all(&mut self, place: &Place, times: &[T]) -> Result<(), Refusal>
        ensures counted { OnOk result
            (SameCounts self.new.items (items_at place.now times.now ++ self.old.items)) }
        ensures nodes { self.new.nodes ≡ self.old.nodes }
        ensures refused { OnlyMemory result }
        ensures unchanged { OnErr result (SameCounts self.new.items self.old.items) }
        ensures marked { OnOk result (self.new.marked ≡ self.old.marked) }
        ensures below { OnErr result
            (AreMarksBelow self.old.nodes place.now self.old.marked self.new.marked) }
        ensures rebuilt { self.new.rebuilt ≡ self.old.rebuilt }
    {
        for number in 0..times.len() {
            if let Err(refusal) = self.add(place.copy(), times[number]) {
                self.remove_all(place, &times[..number]);
                return Err(refusal);
            }
        }
        Ok(())
    }

    /// Counts each of these times at a place once less. All of them must be counted there. Takes no
    /// memory.
    ///
    /// Cost: that of [`Tally::remove`] for each time.
    pub fn remove_all(&mut self, place: &Place, times: &[T])
        requires { AreCounted self.old.items (items_at place.now times.now) }
        ensures counted { SameCounts (items_at place.now times.now ++ self.new.items)
            self.old.items }
        ensures nodes { self.new.nodes ≡ self.old.nodes }
        ensures below { AreMarksBelow self.old.nodes place.now self.old.marked self.new.marked }
        ensures rebuilt { self.new.rebuilt ≡ self.old.rebuilt }
    {
        for number in 0..times.len() {
            self.remove(place, &times[number]);
        }
    }
}

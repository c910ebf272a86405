//! The items that a tally counts.
ghost use Rattle.std.specs.Prelude.{◌≡◌, ◌↔◌, IsTrue};

use crate::place::Place;
use lattice::Lattice;

/// A time that is outstanding at a place.
#[derive(Drop)]
pub struct Counted<T> {
    /// The place.
    pub place: Place,
    /// The time.
    pub time: T,
}

impl<T: Lattice> Counted<T> {
    // Whether this is the item of a place and a time. Times are equal if each is at or before the
    // other.
    pub(crate) fn is(&self, place: &Place, t: &T) -> bool
        ensures { IsTrue result ↔ (self.now ≡ record { place = place.now; time = t.now }) }
    {
        self.place.is(place) && self.time.less_equal(t) && t.less_equal(&self.time)
    }
}

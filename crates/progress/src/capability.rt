//! The right to give updates, as a value that must be spent.
ghost use Rattle.std.specs.Prelude.{◌≡◌};

use crate::place::Place;
use std::marker::Model;

/// The right to give updates at a place at a time or later. The [`Tally`](crate::Tally) that gave
/// it counts it. It is not `Drop`, so it must be spent: `give_back` ends it, and `downgrade` gives
/// it anew at a later time. A contract sees the item that is counted.
pub struct Capability<T> {
    pub(crate) place: Place,
    pub(crate) time: T,
}

impl<T> Model for Capability<T> {
    ghost use Rattle.progress.specs.declared.counted.Counted.{Counted};

    ghost Value = { Counted T };

    ghost view = { λ c. record { place = c.place; time = c.time } };
}

impl<T> Capability<T> {
    /// The place. Takes no memory.
    pub fn place(&self) -> &Place
        ensures { result.now ≡ self.now.place }
    {
        &self.place
    }

    /// The time. Takes no memory.
    pub fn time(&self) -> &T
        ensures { result.now ≡ self.now.time }
    {
        &self.time
    }
}

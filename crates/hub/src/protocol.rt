//! Protocol: what a hub's state stands for.
//!
//! A protocol names the state and the events, and says which states may stand after which
//! histories. The hub turns it into a rule of its table. [`Take`] and [`Give`] are what the two
//! kinds of atomic step tell the thread that makes them.
ghost use Rattle.std.specs.Prelude.{List};
ghost use Rattle.hub.specs.declared.view.Entry.{Entry};

use crate::view::View;
use atomic_table::{Play, Split, TableRule};
use std::marker::PhantomData;

/// What a hub's state stands for.
///
/// A state of more than a few words belongs in a `Box`, since it is moved at each end of a tenure.
pub trait Protocol {
    /// What is handed from thread to thread.
    type State: Drop;

    /// What a tenure does to the state. No value of it is ever made.
    type Event;

    /// Which states may stand after which histories, the newest entry first.
    ghost stands: { Self.State → List (Entry Self.Event) → Type 0 };

    /// The event that a state names as its last.
    ghost last: { Self.State → Self.Event };
}

/// The rule of a hub's table.
pub struct Keeping<P> {
    protocol: PhantomData<P>,
}

impl<P: Protocol> TableRule<Option<P::State>, View<P::Event>, ()> for Keeping<P> {
    ghost use Rattle.hub.specs.Rules.{Kept, first_view};

    ghost holds = { λ _. Kept P.stands };

    ghost first = { λ _. first_view };
}

/// The step that takes the state, if it is at home.
pub struct Take<P> {
    protocol: PhantomData<P>,
}

impl<P: Protocol> Play<Option<P::State>, View<P::Event>> for Take<P> {
    ghost use Rattle.hub.specs.Steps.{AfterTake};

    ghost then = { AfterTake P.stands };
}

/// The step that gives the state back, and adds the event that it names.
pub struct Give<P> {
    protocol: PhantomData<P>,
}

impl<P: Protocol> Play<Option<P::State>, View<P::Event>> for Give<P> {
    ghost use Rattle.hub.specs.Steps.{AfterGive};

    ghost then = { AfterGive P.last };
}

/// The dealer becomes a pass, and a new seat deals from then on.
pub struct Deal;

impl<E> Split<View<E>> for Deal {
    ghost use Rattle.hub.specs.Rules.{dealt_view, next_dealer};

    ghost left = { dealt_view };

    ghost right = { next_dealer };
}

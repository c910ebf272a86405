//! How often each item is counted, place by place. Each node of a plan has four places: its two
//! ports, what is held at it, and its frontier if it is an input. They stand in a list in this
//! order, so the counts of a place are found in one step. Then a frontier is found from the places
//! that count for it, and the times at the others are not looked at.
//!
//! A place that the plan does not have is counted too, though for no frontier. Such items stand in
//! a list of their own. A board counts none.
ghost use Rattle.std.specs.Prelude.{◌≡◌, ℕ, ◌+◌, ◌*◌, ◌<◌, ◌≤◌, ◌||◌, [], ◌∷◌, Some, None, IfOk, IfSome, OnErr, OnOk, Contains, length, slice_index_or};
ghost use Rattle.update.specs.Refusals.{OnlyMemory};
ghost use Rattle.lattice.specs.Frontiers.{is_beyond};
ghost use Rattle.progress.specs.PlacedCounts.{IsPlaced, items_in, slot};
ghost use Rattle.progress.specs.Scopes.{scope_node, is_in_scope};
ghost use Rattle.progress.specs.Tallies.{SameCounts, times_where};

use crate::counted::Counted;
use crate::graph::Graph;
use crate::place::Place;
use crate::scan::{insert_times, is_any_in};
use crate::scope::Scope;
use crate::time_counts::TimeCounts;
use lattice::Lattice;
use plan::NodeId;
use std::alloc::Global;
use std::marker::Model;
use update::Refusal;

// How many places stand in the list for each node.
const PLACES_OF_A_NODE: usize = 4;

/// A place, and how often each time is counted there.
#[derive(Drop)]
pub(crate) struct PlaceCounts<T: Lattice> {
    place: Place,
    times: TimeCounts<T>,
}

/// Items, each counted a number of times. A contract sees a list of them.
#[derive(Drop)]
pub(crate) struct Counts<T: Lattice> {
    places: Vec<PlaceCounts<T>>,
    // What is counted at places that do not stand there.
    others: Vec<Counted<T>>,
}

impl<T: Lattice> Model for Counts<T> {
    ghost use Rattle.std.specs.Prelude.{◌++◌, List, length};
    ghost use Rattle.progress.specs.declared.counted.Counted.{Counted};
    ghost use Rattle.progress.specs.PlacedCounts.{AreOthers, IsPlaced, items_in};

    ghost Value = { List (Counted T) };

    ghost view = { λ c. items_in c.places.items ++ c.others.items };

    ghost invariant = { λ c. IsPlaced c.places.items
        × AreOthers (length c.places.items) c.others.items };
}

impl<T: Lattice> Counts<T> {
    /// Nothing is counted, with the places of so many nodes. Refused only with `OutOfMemory`.
    ///
    /// Cost: linear in the nodes.
    pub(crate) fn new(alloc: Global, nodes: usize) -> Result<Counts<T>, Refusal>
        ensures none { IfOk result (λ counts. counts ≡ []) }
        ensures refused { OnlyMemory result }
    {
        let mut places = Vec::new(alloc);
        for number in 0..nodes {
            push_places(alloc, &mut places, NodeId::new(number))?;
        }
        Ok(Counts {
            places,
            others: Vec::new(alloc),
        })
    }

    /// Counts a time at a place once more. Refused only with `OutOfMemory`, and then nothing
    /// changes.
    ///
    /// Cost: logarithmic in the different times that are counted at the place.
    pub(crate) fn add(&mut self, place: &Place, t: T) -> Result<(), Refusal>
        ensures counted { OnOk result
            (SameCounts self.new (record { place = place.now; time = t } ∷ self.old)) }
        ensures refused { OnlyMemory result }
        ensures unchanged { OnErr result (self.new ≡ self.old) }
    {
        if let Some(number) = number_of(place, self.places.len()) {
            self.places[number].times.add(t)?;
            return Ok(());
        }
        let place = place.copy();
        self.others.push(Counted { place, time: t })?;
        Ok(())
    }

    /// Counts a time at a place once less. Takes no memory.
    ///
    /// Cost: logarithmic in the different times that are counted at the place, and linear in those
    /// that were moved there while memory was refused. If the plan does not have the place, linear
    /// in what is counted at such places.
    pub(crate) fn remove(&mut self, place: &Place, t: &T)
        requires { Contains self.old (record { place = place.now; time = t.now }) }
        ensures { SameCounts (record { place = place.now; time = t.now } ∷ self.new) self.old }
    {
        if let Some(number) = number_of(place, self.places.len()) {
            self.places[number].times.remove(t);
        } else {
            let number = position(self.others.as_slice(), place, t);
            let _ = self.others.remove(number);
        }
    }

    /// Counts a time at a place once less, and another one there in its place. Takes no memory.
    ///
    /// Cost: that of `remove`.
    pub(crate) fn replace(&mut self, place: &Place, t: &T, later: T)
        requires { Contains self.old (record { place = place.now; time = t.now }) }
        ensures { SameCounts (record { place = place.now; time = t.now } ∷ self.new)
            (record { place = place.now; time = later } ∷ self.old) }
    {
        if let Some(number) = number_of(place, self.places.len()) {
            self.places[number].times.replace(t, later);
        } else {
            let number = position(self.others.as_slice(), place, t);
            let _ = self.others.remove(number);
            let place = place.copy();
            self.others.push_reserved(Counted { place, time: later });
        }
    }

    /// Inserts the times that count for a frontier. Refused only with `OutOfMemory`.
    ///
    /// Cost: linear in the places, and in the different times that are counted at those that count
    /// for the frontier, times the elements of the frontier.
    pub(crate) fn insert_times(
        &self,
        found: &mut Vec<T>,
        graph: &Graph,
        scope: &Scope,
    ) -> Result<(), Refusal>
        requires { scope_node scope.now < length graph.now }
        ensures beyond { OnOk result ((t : T) → is_beyond T.times found.new.items t
            ≡ (is_beyond T.times found.old.items t
            || is_beyond T.times (times_where (is_in_scope graph.now scope.now) self.now) t)) }
        ensures refused { OnlyMemory result }
    {
        insert_placed(found, graph, scope, self.places.as_slice())?;
        insert_times(found, graph, scope, self.others.as_slice())?;
        Ok(())
    }

    /// Whether some time that counts for a frontier is at or before this one. Takes no memory.
    ///
    /// Cost: that of [`Counts::insert_times`] at most, for a frontier without elements. The first
    /// such time settles it.
    pub(crate) fn is_any_in(&self, graph: &Graph, scope: &Scope, t: &T) -> bool
        requires { scope_node scope.now < length graph.now }
        ensures { result
            ≡ is_beyond T.times (times_where (is_in_scope graph.now scope.now) self.now) t.now }
    {
        is_any_placed(graph, scope, self.places.as_slice(), t)
            || is_any_in(graph, scope, self.others.as_slice(), t)
    }
}

// The places of a node, behind those of the nodes before it.
fn push_places<T: Lattice>(
    alloc: Global,
    places: &mut Vec<PlaceCounts<T>>,
    node: NodeId,
) -> Result<(), Refusal>
    requires placed { IsPlaced places.old.items }
    requires next { length places.old.items ≡ node * 4 }
    ensures placed { OnOk result (IsPlaced places.new.items) }
    ensures next { OnOk result (length places.new.items ≡ (node + 1) * 4) }
    ensures items { OnOk result (items_in places.new.items ≡ items_in places.old.items) }
    ensures refused { OnlyMemory result }
{
    push_place(alloc, places, Place::Port { node, port: 0 })?;
    push_place(alloc, places, Place::Port { node, port: 1 })?;
    push_place(alloc, places, Place::Held { node })?;
    push_place(alloc, places, Place::Input { node })?;
    Ok(())
}

// One place more, at which nothing is counted.
fn push_place<T: Lattice>(
    alloc: Global,
    places: &mut Vec<PlaceCounts<T>>,
    place: Place,
) -> Result<(), Refusal>
    requires placed { IsPlaced places.old.items }
    requires next { slot place ≡ Some (length places.old.items) }
    ensures placed { OnOk result (IsPlaced places.new.items) }
    ensures next { OnOk result (length places.new.items ≡ length places.old.items + 1) }
    ensures items { OnOk result (items_in places.new.items ≡ items_in places.old.items) }
    ensures refused { OnlyMemory result }
{
    let times = TimeCounts::new(alloc);
    places.push(PlaceCounts { place, times })?;
    Ok(())
}

// The number of a place among so many, if it is there.
fn number_of(place: &Place, len: usize) -> Option<usize>
    ensures found { IfSome result (λ number. (slot place.now ≡ Some number) × (number < len)) }
    ensures missing { result ≡ None → (number : ℕ) → slot place.now ≡ Some number → len ≤ number }
{
    let beside = match place {
        Place::Port { port, .. } if *port < 2 => *port,
        Place::Port { .. } => return None,
        Place::Held { .. } => 2,
        Place::Input { .. } => 3,
    };
    let first = place.node().number().checked_mul(PLACES_OF_A_NODE)?;
    let number = first.checked_add(beside)?;
    if number < len { Some(number) } else { None }
}

// Inserts the times of the places that count for a frontier.
fn insert_placed<T: Lattice>(
    found: &mut Vec<T>,
    graph: &Graph,
    scope: &Scope,
    places: &[PlaceCounts<T>],
) -> Result<(), Refusal>
    requires { scope_node scope.now < length graph.now }
    ensures beyond { OnOk result ((t : T) → is_beyond T.times found.new.items t
        ≡ (is_beyond T.times found.old.items t || is_beyond T.times
        (times_where (is_in_scope graph.now scope.now) (items_in places.now)) t)) }
    ensures refused { OnlyMemory result }
{
    for counts in places {
        if scope.counts(graph, &counts.place) {
            counts.times.insert_into(found)?;
        }
    }
    Ok(())
}

// Whether some time at a place that counts for a frontier is at or before this one.
fn is_any_placed<T: Lattice>(graph: &Graph, scope: &Scope, places: &[PlaceCounts<T>], t: &T) -> bool
    requires { scope_node scope.now < length graph.now }
    ensures { result ≡ is_beyond T.times
        (times_where (is_in_scope graph.now scope.now) (items_in places.now)) t.now }
{
    for counts in places {
        if scope.counts(graph, &counts.place) && counts.times.is_any_before(t) {
            return true;
        }
    }
    false
}

// The number of an item of a place and a time. There must be one; which of several does not matter.
fn position<T: Lattice>(items: &[Counted<T>], place: &Place, t: &T) -> usize
    requires { Contains items.now (record { place = place.now; time = t.now }) }
    ensures within { result < length items.now }
    ensures there { slice_index_or items.now result (record { place = place.now; time = t.now })
        ≡ record { place = place.now; time = t.now } }
{
    for number in 0..items.len() {
        if items[number].is(place, t) {
            return number;
        }
    }
    unreachable!()
}

//! The events that may happen on a board, and the entries of the logs that they leave. Each event
//! names who did it and everything that it did. So a history is a list of events and nothing else.
ghost use Rattle.std.specs.Prelude.{◌≡◌};
ghost use Rattle.histories.specs.declared.event.Event.TheVariants.{Feed, Advance, Allow, Take, Give};
ghost use Rattle.histories.specs.Histories.Remembered.{IsFeeding, HasFed, IsAdvancing, HasAdvanced, IsTaking, HasTaken};

use columns::UpdateList;
use plan::NodeId;
use std::snapshot::Snapshot;
use update::{Times, Update};

/// A place where bundles wait: a port of a node, on a worker.
#[derive(Clone, Copy)]
pub struct Site {
    /// The node.
    pub node: NodeId,
    /// Which of the node's sources the updates come from; 0 at an input.
    pub port: usize,
    /// The worker, by its number.
    pub worker: usize,
}

/// Updates on their way to a place. A worker takes them all at once.
#[derive(Drop)]
pub struct Bundle<T> {
    /// The place where they wait.
    pub place: Site,
    /// The updates.
    pub updates: UpdateList<T>,
    /// Times such that each update is at or after one of them. The sender finds them once.
    pub stamp: Times<T>,
}

/// A change of an input's table.
#[derive(Drop)]
pub struct Fed<T> {
    /// The input.
    pub input: NodeId,
    /// The change.
    pub update: Update<T>,
}

/// The updates that a worker gave at a node in one event.
#[derive(Drop)]
pub struct Emission<T> {
    /// The node.
    pub node: NodeId,
    /// The worker, by its number.
    pub worker: usize,
    /// The updates that it gave.
    pub updates: UpdateList<T>,
}

/// A value as an event remembers it, for clauses alone. A contract sees the value.
#[derive(Drop)]
pub struct Remembered<X> {
    value: Snapshot<X>,
}

impl<X> std::marker::Model for Remembered<X> {
    ghost use Rattle.std.specs.Prelude.{◌≡◌};

    ghost Value = { X };

    ghost view = { λ r. r.value.value };
}

impl<X> Remembered<X> {
    /// A value, for clauses alone. Nothing is copied.
    pub fn of(value: &X) -> Remembered<X>
        ensures { result ≡ value.now }
    {
        Remembered {
            value: Snapshot::of(value),
        }
    }
}

/// An emission as an event remembers it, for clauses alone. It has no updates of its own, since
/// these are on their way. A contract sees the emission.
#[derive(Drop)]
pub struct RememberedEmission<T> {
    node: NodeId,
    worker: usize,
    updates: Snapshot<UpdateList<T>>,
}

impl<T> std::marker::Model for RememberedEmission<T> {
    ghost use Rattle.histories.specs.declared.event.Emission.{Emission};

    ghost Value = { Emission T };

    ghost view = { λ e. record {
      node = e.node;
      worker = e.worker;
      updates = e.updates.value;
    } };
}

impl<T> RememberedEmission<T> {
    /// The emission of these updates at a node, for clauses alone. Nothing is copied.
    pub fn of(node: NodeId, worker: usize, updates: &UpdateList<T>) -> RememberedEmission<T>
        ensures { result ≡ record { node = node; worker = worker; updates = updates.now } }
    {
        RememberedEmission {
            node,
            worker,
            updates: Snapshot::of(updates),
        }
    }
}

/// A time that a worker holds at a node: the worker may still give updates there at this time or
/// later.
#[derive(Clone, Copy)]
pub struct HeldTime<T> {
    /// The node.
    pub node: NodeId,
    /// The worker, by its number.
    pub worker: usize,
    /// The time.
    pub time: T,
}

/// An element of an input's frontier: changes may still be fed at this time or later.
#[derive(Clone, Copy)]
pub struct OpenTime<T> {
    /// The input.
    pub input: NodeId,
    /// The time.
    pub time: T,
}

/// Bundles that were sent together. A contract sees the list of them.
#[derive(Drop)]
pub struct Bundles<T> {
    items: Vec<Bundle<T>>,
}

impl<T> std::marker::Model for Bundles<T> {
    ghost use Rattle.std.specs.Prelude.{List};
    ghost use Rattle.histories.specs.declared.event.Bundle.{Bundle};

    ghost Value = { List (Bundle T) };

    ghost view = { λ u. u.items.items };
}

impl<T> Bundles<T> {
    /// The bundles, in the order in which they are sent. Takes no memory.
    pub fn as_slice(&self) -> &[Bundle<T>]
        ensures { result.now ≡ self.now }
    {
        self.items.as_slice()
    }

    /// The bundles, as a vector. Takes no memory.
    pub fn into_vec(self) -> Vec<Bundle<T>>
        ensures { result.items ≡ self }
    {
        self.items
    }
}

/// Takes no memory.
impl<T> From<Vec<Bundle<T>>> for Bundles<T> {
    ghost use Rattle.std.specs.Prelude.{◌≡◌};

    ghost from_gives = { λ v r. r ≡ v.items };

    fn from(items: Vec<Bundle<T>>) -> Bundles<T> {
        Bundles { items }
    }
}

/// One event on a board.
#[derive(Drop)]
pub enum Event<T> {
    /// A client changes an input's table.
    Feed {
        client: usize,
        fed: Fed<T>,
    },
    /// A client moves an input's frontier forward. From then on no change is fed at a time that is
    /// not beyond the frontier. With no times the input is closed.
    Advance {
        client: usize,
        input: NodeId,
        times: Times<T>,
    },
    /// A client gives up reading a view at times that are not beyond a frontier.
    Allow {
        client: usize,
        view: NodeId,
        times: Remembered<Times<T>>,
    },
    /// A client or worker looks at the board and leaves it as it is.
    Look {
        actor: usize,
    },
    /// A worker takes a bundle: the one of this number, from 0, among those that wait at its place.
    Take {
        number: usize,
        bundle: Bundle<T>,
    },
    /// A worker turns to the times that it holds at a node.
    TakeHeld {
        worker: usize,
        node: NodeId,
    },
    /// A worker gives what it computed at a node, says which times it holds there from now on, and
    /// sends the updates on.
    Give {
        given: RememberedEmission<T>,
        held: Remembered<Times<T>>,
        sent: Remembered<Bundles<T>>,
    },
}

/// Makes the event of a change, for clauses alone, and returns the change. Nothing is copied: the
/// change moves into the event and out again.
pub fn remembered_feed<T>(
    client: usize,
    input: NodeId,
    update: Update<T>,
) -> (Update<T>, Snapshot<Event<T>>)
    ensures same { result.0 ≡ update }
    ensures event { result.1.value ≡ Feed client (record { input = input; update = update }) }
{
    let event = Event::Feed {
        client,
        fed: Fed { input, update },
    };
    let last = Snapshot::of(&event);
    let fed = fed_in(event);
    (fed.update, last)
}

fn fed_in<T>(event: Event<T>) -> Fed<T>
    requires { IsFeeding event }
    ensures { HasFed event result }
{
    match event {
        Event::Feed { fed, .. } => fed,
        _ => unreachable!(),
    }
}

/// Makes the event of a take, for clauses alone, and returns the bundle, which moves through it.
pub fn remembered_take<T>(number: usize, bundle: Bundle<T>) -> (Bundle<T>, Snapshot<Event<T>>)
    ensures same { result.0 ≡ bundle }
    ensures event { result.1.value ≡ Take number bundle }
{
    let event = Event::Take { number, bundle };
    let last = Snapshot::of(&event);
    (taken_in(event), last)
}

fn taken_in<T>(event: Event<T>) -> Bundle<T>
    requires { IsTaking event }
    ensures { HasTaken event result }
{
    match event {
        Event::Take { bundle, .. } => bundle,
        _ => unreachable!(),
    }
}

/// Makes the event of an advance, for clauses alone, and returns the times, which move through it.
pub fn remembered_advance<T>(
    client: usize,
    input: NodeId,
    times: Times<T>,
) -> (Times<T>, Snapshot<Event<T>>)
    ensures same { result.0 ≡ times }
    ensures event { result.1.value ≡ Advance client input times }
{
    let event = Event::Advance {
        client,
        input,
        times,
    };
    let last = Snapshot::of(&event);
    (times_in(event), last)
}

fn times_in<T>(event: Event<T>) -> Times<T>
    requires { IsAdvancing event }
    ensures { HasAdvanced event result }
{
    match event {
        Event::Advance { times, .. } => times,
        _ => unreachable!(),
    }
}

/// The event of an allow, for clauses alone. Nothing is moved or copied.
pub fn remembered_allow<T: Drop>(
    client: usize,
    view: NodeId,
    times: &Times<T>,
) -> Snapshot<Event<T>>
    ensures event { result.value ≡ Allow client view times.now }
{
    let event = Event::Allow {
        client,
        view,
        times: Remembered::of(times),
    };
    Snapshot::of(&event)
}

/// The event of a give, for clauses alone. Nothing is moved or copied.
pub fn remembered_give<T: Drop>(
    given: RememberedEmission<T>,
    held: &Times<T>,
    sent: &Bundles<T>,
) -> Snapshot<Event<T>>
    ensures event { result.value ≡ Give given held.now sent.now }
{
    let event = Event::Give {
        given,
        held: Remembered::of(held),
        sent: Remembered::of(sent),
    };
    Snapshot::of(&event)
}

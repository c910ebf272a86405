//! What a worker gives: the updates of a node, cut into the bundles in which they go on.
//!
//! Most often all updates go on along the last edge. Then the last bundle is the list itself, and
//! not a copy of it: an evaluation may give more updates than all else that lies on a board. So a
//! cut emission has the updates in one place only: in a list of their own, or in the last bundle.
//! The invariant: if it has no list of its own, then there is a last bundle.
//!
//! A contract sees the emission and the bundles, whichever of them has the list.
ghost use Rattle.std.specs.Prelude.{◌≡◌, ◌<◌, ◌++◌, IfErr, IfOk, OnErr, OnOk, length};
ghost use Rattle.update.specs.Refusals.{OnlyMemory};
ghost use Rattle.accounts.specs.CutEmissions.{last_updates};
ghost use Rattle.histories.specs.declared.event.Event.TheVariants.{Give};
ghost use Rattle.histories.specs.Histories.Cuts.{bundled};

use columns::UpdateList;
use histories::{
    Bundle, Bundles, Emission, Event, RememberedEmission, Site, remembered_give, stamp_of,
};
use lattice::Minimum;
use plan::NodeId;
use std::alloc::Global;
use std::marker::Model;
use std::snapshot::Snapshot;
use update::{Refusal, Times};
use views::View;

/// An emission, cut into bundles. A contract sees both.
#[derive(Drop)]
pub struct CutEmission<T> {
    node: NodeId,
    worker: usize,
    // The updates, unless the last bundle has them.
    own: Option<UpdateList<T>>,
    sent: Bundles<T>,
}

impl<T> Model for CutEmission<T> {
    ghost use Rattle.accounts.specs.CutEmissions.{CutState, HasUpdates, updates_in};

    ghost Value = { CutState T };

    ghost view = { λ c. record {
      given = record { node = c.node; worker = c.worker; updates = updates_in c.own c.sent };
      sent = c.sent;
    } };

    ghost invariant = { λ c. HasUpdates c.own c.sent };
}

impl<T: Minimum> CutEmission<T> {
    /// An emission and the bundles that are sent of it, each with a list of its own. Takes no
    /// memory.
    pub fn new(emission: Emission<T>, sent: Bundles<T>) -> CutEmission<T>
        ensures { result ≡ record { given = emission; sent = sent } }
    {
        let Emission {
            node,
            worker,
            updates,
        } = emission;
        CutEmission {
            node,
            worker,
            own: Some(updates),
            sent,
        }
    }

    /// An emission of which all updates go to a place, behind these bundles. The list moves into
    /// the last bundle. If memory was refused, then the emission comes back.
    ///
    /// Cost: the product of the updates and the elements of their stamp.
    pub fn sent_to(
        alloc: Global,
        place: Site,
        mut sent: Vec<Bundle<T>>,
        emission: Emission<T>,
    ) -> Result<CutEmission<T>, Emission<T>>
        ensures given { IfOk result (λ c. c.given ≡ emission) }
        ensures sent { IfOk result
            (λ c. c.sent ≡ sent.items ++ bundled T.times place emission.updates) }
        ensures returned { IfErr result (λ back. back ≡ emission) }
    {
        if emission.updates.len() == 0 {
            return Ok(CutEmission::new(emission, sent.into()));
        }
        let Ok(stamp) = stamp_of(alloc, &emission.updates) else {
            return Err(emission);
        };
        let Ok(()) = sent.reserve(1) else {
            return Err(emission);
        };
        let Emission {
            node,
            worker,
            updates,
        } = emission;
        sent.push_reserved(Bundle {
            place,
            updates,
            stamp: stamp.into(),
        });
        Ok(CutEmission {
            node,
            worker,
            own: None,
            sent: sent.into(),
        })
    }

    /// The node that gives. Takes no memory.
    pub fn node(&self) -> NodeId
        ensures { result ≡ self.now.given.node }
    {
        self.node
    }

    /// The worker that gives, by its number. Takes no memory.
    pub fn worker(&self) -> usize
        ensures { result ≡ self.now.given.worker }
    {
        self.worker
    }

    /// The updates that are given. Takes no memory.
    pub fn updates(&self) -> &UpdateList<T>
        ensures { result.now ≡ self.now.given.updates }
    {
        let sent = self.sent.as_slice();
        match &self.own {
            Some(updates) => updates,
            None => &sent[sent.len() - 1].updates,
        }
    }

    /// The emission alone, to be cut again later. The bundles are let go, but for the list that is
    /// the emission's. Takes no memory.
    pub fn into_emission(self) -> Emission<T>
        ensures { result ≡ self.given }
    {
        let CutEmission {
            node,
            worker,
            own,
            sent,
        } = self;
        let updates = match own {
            Some(updates) => updates,
            None => last_list(sent.into_vec()),
        };
        Emission {
            node,
            worker,
            updates,
        }
    }

    // Has a view capture the updates that are given. They may move there, and then nothing is given
    // any more. If memory was refused, then nothing has changed.
    pub(crate) fn captured_by(&mut self, view: &mut View<T>) -> Result<(), Refusal>
        ensures more { OnOk result (view.new
            ≡ record view.old { captured = view.old.captured ++ self.old.given.updates }) }
        ensures same { OnErr result (view.new ≡ view.old) }
        ensures sent { self.new.sent ≡ self.old.sent }
        ensures node { self.new.given.node ≡ self.old.given.node }
        ensures worker { self.new.given.worker ≡ self.old.given.worker }
        ensures unchanged { OnErr result (self.new ≡ self.old) }
        ensures refused { OnlyMemory result }
    {
        if let Some(updates) = &mut self.own {
            view.capture(updates)?;
            return Ok(());
        }
        view.append(self.updates())
    }

    // The bundles. Takes no memory.
    pub(crate) fn sent(&self) -> &[Bundle<T>]
        ensures { result.now ≡ self.now.sent }
    {
        self.sent.as_slice()
    }

    // The bundles alone. Takes no memory.
    pub(crate) fn into_sent(self) -> Vec<Bundle<T>>
        ensures { result.items ≡ self.sent }
    {
        let CutEmission {
            node: _,
            worker: _,
            own: _,
            sent,
        } = self;
        sent.into_vec()
    }

    /// The event of a give of this, for clauses alone. The giver holds these times from then on.
    /// Costs nothing.
    pub fn event(&self, held: &Times<T>) -> Snapshot<Event<T>>
        ensures { result.value ≡ Give self.now.given held.now self.now.sent }
    {
        let given = RememberedEmission::of(self.node, self.worker, self.updates());
        remembered_give(given, held, &self.sent)
    }
}

// The list of the last bundle.
fn last_list<T: Minimum>(mut sent: Vec<Bundle<T>>) -> UpdateList<T>
    requires { 0 < length sent.items }
    ensures { result ≡ last_updates sent.items }
{
    match sent.pop() {
        Some(Bundle { updates, .. }) => updates,
        None => unreachable!(),
    }
}

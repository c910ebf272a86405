//! A worker's desk: what it keeps at each node between two steps.
//!
//! An arrange node has an [`Arrangement`], a reduction a [`Reducing`], and a join a [`Joining`]. At
//! each node that is neither arranged nor a reduction, updates may lie gathered that were not given
//! yet. All joins that read an arrange node share its spine, and each has a hold of its own there,
//! or two if it reads the node at both ports.

use antichain::Antichain;
use gathered::Gathered;
use lattice::Minimum;
use operator::{Arrangement, Joining, Reducing};
use std::marker::Model;

/// What a worker keeps, by node. A contract sees what was gathered, the arrangements, the joins and
/// the reductions, each as a list by node.
#[derive(Drop)]
pub struct Desk<T: Minimum> {
    pub(crate) gathered: Vec<Gathered<T>>,
    pub(crate) arrangements: Vec<Option<Arrangement<T>>>,
    pub(crate) joins: Vec<Option<Joining<T>>>,
    pub(crate) reductions: Vec<Option<Reducing<T>>>,
    // The frontier of the least time.
    pub(crate) start: Antichain<T>,
}

impl<T: Minimum> Model for Desk<T> {
    ghost use Rattle.std.specs.Prelude.{◌≡◌, ◌∷◌, []};
    ghost use Rattle.desk_laws.specs.Own.{DeskView};

    ghost Value = { DeskView T };

    ghost view = { λ d. record {
      gathered = d.gathered.items;
      arrangements = d.arrangements.items;
      joins = d.joins.items;
      reductions = d.reductions.items;
    } };

    ghost invariant = { λ d. d.start ≡ T.times.least ∷ [] };
}

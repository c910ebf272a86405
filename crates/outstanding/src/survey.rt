//! What is read at the stations of a board without changing them: what waits at a place, and what
//! is held at a node.
ghost use Rattle.std.specs.Prelude.{◌≡◌, ◌<◌, ◌++◌, ℕ, [], None, IfSome, length, get_or, map};
ghost use Rattle.std.specs.List.{list_all};
ghost use Rattle.histories.specs.Histories.States.{place};
ghost use Rattle.outstanding.specs.Loads.{is_none, has_place, loads_at, lot_of, queue_of, all_bundles};
ghost use Rattle.outstanding.specs.Stations.{lot, lots};

use crate::stations::{Row, Station, Stations};
use histories::Site;
use lattice::Minimum;
use plan::NodeId;

impl<T: Minimum> Station<T> {
    // The number of loads that wait at a port.
    fn waiting(&self, port: usize) -> usize
        ensures { result ≡ length (loads_at port (lot self.now)) }
    {
        match port {
            0 => self.left.len(),
            1 => self.right.len(),
            _ => 0,
        }
    }

    // Whether nothing waits here.
    fn is_empty(&self) -> bool
        ensures { result ≡ is_none ((lot self.now).left ++ (lot self.now).right) }
    {
        self.left.len() == 0 && self.right.len() == 0
    }
}

impl<T: Minimum> Row<T> {
    // Whether nothing waits at any of the stations.
    fn is_empty(&self) -> bool
        ensures { result ≡ list_all (λ l. is_none (l.left ++ l.right)) (map lot self.now) }
    {
        for station in &self.by_worker {
            if !station.is_empty() {
                return false;
            }
        }
        true
    }
}

impl<T: Minimum> Stations<T> {
    // The stations of a node, by worker; none if there is no such node.
    fn row(&self, node: NodeId) -> &[Station<T>]
        ensures { result.now ≡ get_or self.now node [] }
    {
        if node.number() < self.by_node.len() {
            self.by_node[node.number()].by_worker.as_slice()
        } else {
            &[]
        }
    }

    /// Whether there is such a place: a node, a worker, and port 0 or 1. Takes no memory, and
    /// constant time.
    pub fn has_place(&self, site: &Site) -> bool
        ensures { result ≡ has_place (lots self.now) site.now }
    {
        site.worker < self.row(site.node).len() && site.port < 2
    }

    /// The number of bundles that wait at a place. Takes no memory.
    pub fn waiting(&self, site: &Site) -> usize
        ensures { result ≡ length (queue_of (lots self.now) site.now) }
    {
        let row = self.row(site.node);
        if site.worker < row.len() {
            row[site.worker].waiting(site.port)
        } else {
            0
        }
    }

    /// The first port of a node at which a bundle waits for a worker. Takes no memory.
    pub fn port_waiting(&self, node: NodeId, worker: usize) -> Option<usize>
        ensures waits { IfSome result (λ port.
            0 < length (queue_of (lots self.now) (place node port worker))) }
        ensures first { IfSome result (λ port. (p : ℕ) → p < port
            → queue_of (lots self.now) (place node p worker) ≡ []) }
        ensures none { result ≡ None → (port : ℕ)
            → queue_of (lots self.now) (place node port worker) ≡ [] }
    {
        for port in 0..2 {
            if self.waiting(&Site { node, port, worker }) > 0 {
                return Some(port);
            }
        }
        None
    }

    /// The times that a worker holds at a node. Takes no memory.
    pub fn held(&self, node: NodeId, worker: usize) -> &[T]
        ensures { result.now ≡ (lot_of (lots self.now) node worker).held }
    {
        let row = self.row(node);
        if worker < row.len() {
            row[worker].held.times()
        } else {
            &[]
        }
    }

    /// Whether nothing waits anywhere. Takes no memory.
    ///
    /// Cost: linear in the stations.
    pub fn is_empty(&self) -> bool
        ensures { result ≡ is_none (all_bundles (lots self.now)) }
    {
        for row in &self.by_node {
            if !row.is_empty() {
                return false;
            }
        }
        true
    }
}

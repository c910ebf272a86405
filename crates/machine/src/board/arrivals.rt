//! What a worker asks of a board before it takes: where a bundle waits for it, and whether it has a
//! piece in hand.
ghost use Rattle.std.specs.Prelude.{◌≡◌, ◌<◌, ℕ, [], None, IfSome, get_or, length};
ghost use Rattle.histories.specs.Histories.States.{place};
ghost use Rattle.outstanding.specs.Loads.{queue_of};

use crate::board::Board;
use histories::Site;
use lattice::Minimum;
use plan::NodeId;

impl<T: Minimum> Board<T> {
    /// The place of a node on a worker at which a bundle waits: its first port, or if nothing waits
    /// there, its second. `None` if no bundle waits at any port. Takes no memory, and constant
    /// time.
    pub fn waiting_at(&self, node: NodeId, worker: usize) -> Option<Site>
        ensures node { IfSome result (λ site. site.node ≡ node) }
        ensures worker { IfSome result (λ site. site.worker ≡ worker) }
        ensures waits { IfSome result (λ site. 0 < length (queue_of self.now.stations site)) }
        ensures first { IfSome result (λ site. (port : ℕ) → port < site.port
            → queue_of self.now.stations (place node port worker) ≡ []) }
        ensures none { result ≡ None → (port : ℕ)
            → queue_of self.now.stations (place node port worker) ≡ [] }
    {
        let port = self.accounts.stations().port_waiting(node, worker)?;
        Some(Site { node, port, worker })
    }

    /// The number of bundles that wait at a place. Takes no memory, and constant time.
    pub fn waiting(&self, site: &Site) -> usize
        ensures { result ≡ length (queue_of self.now.stations site.now) }
    {
        self.accounts.stations().waiting(site)
    }

    /// The node of the piece that a worker has in hand, if it has one. Takes no memory.
    pub fn in_hand(&self, worker: usize) -> Option<NodeId>
        requires { worker < self.now.dataflow.workers }
        ensures { result ≡ get_or self.now.hand worker None }
    {
        self.hand[worker]
    }
}

//! The places of a dataflow at which something may be outstanding. A place names a node of the plan
//! and no worker: a frontier counts what is outstanding on all of them.
ghost use Rattle.std.specs.Prelude.{◌≡◌, ◌↔◌, IsTrue};
ghost use Rattle.progress.specs.Tallies.{node_of, is_port, is_held_at, is_input_at};

use plan::NodeId;

/// Where something is outstanding. The numbers are not tested. If no node of the plan has the
/// number that a place names, then nothing that is counted there is in any frontier.
#[derive(Drop)]
pub enum Place {
    /// A port of a node: the bundles that wait there. Changes of an input wait at its port 0.
    Port { node: NodeId, port: usize },
    /// The times that workers hold at a node.
    Held { node: NodeId },
    /// The frontier of an input.
    Input { node: NodeId },
}

impl Place {
    /// The same place. Takes no memory.
    pub fn copy(&self) -> Place
        ensures { result ≡ self.now }
    {
        match self {
            Place::Port { node, port } => Place::Port {
                node: *node,
                port: *port,
            },
            Place::Held { node } => Place::Held { node: *node },
            Place::Input { node } => Place::Input { node: *node },
        }
    }

    /// Whether the two are the same place. Takes no memory.
    pub fn is(&self, other: &Place) -> bool
        ensures { IsTrue result ↔ (self.now ≡ other.now) }
    {
        match (self, other) {
            (
                Place::Port { node, port },
                Place::Port {
                    node: other_node,
                    port: other_port,
                },
            ) => node == other_node && port == other_port,
            (Place::Held { node }, Place::Held { node: other }) => node == other,
            (Place::Input { node }, Place::Input { node: other }) => node == other,
            _ => false,
        }
    }

    /// The node at which it lies. Takes no memory.
    pub fn node(&self) -> NodeId
        ensures { result ≡ node_of self.now }
    {
        match self {
            Place::Port { node, .. } => *node,
            Place::Held { node } => *node,
            Place::Input { node } => *node,
        }
    }

    // Whether it is this port of a node.
    pub(crate) fn is_port(&self, at: NodeId, number: usize) -> bool
        ensures { result ≡ is_port at number self.now }
    {
        match self {
            Place::Port { node, port } => *node == at && *port == number,
            _ => false,
        }
    }

    // Whether it is what workers hold at a node.
    pub(crate) fn is_held_at(&self, at: NodeId) -> bool
        ensures { result ≡ is_held_at at self.now }
    {
        match self {
            Place::Held { node } => *node == at,
            _ => false,
        }
    }

    // Whether it is the frontier of an input.
    pub(crate) fn is_input_at(&self, at: NodeId) -> bool
        ensures { result ≡ is_input_at at self.now }
    {
        match self {
            Place::Input { node } => *node == at,
            _ => false,
        }
    }
}
